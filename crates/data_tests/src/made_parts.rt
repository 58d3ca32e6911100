//! A table divided by a class of each row.

use crate::csv_tables::people;
use crate::parts::{has_ages, only_table};
use fz_ast::NoMemory;
use metric_values::{Cell, Table};
use part_views::made_parts::{DivisionRoom, Keys, MadeParts, RowClasses, divide_by};
use std::alloc::Global;
use table_store::load;

const PEOPLE: &[u8] =
    b"name,age,town\noslo,20,a\nny,30,b\nrome,40,c\noslo,50,d\nosl,60,e\n,70,f\nny,80,g\n";

// A row's class is its name, the first column.
#[derive(Drop)]
struct Names<'t> {
    table: &'t Table,
}

impl RowClasses for Names<'_> {
    ghost use Rattle.part_views.specs.Cuts.{by_column};

    ghost rows = { λ names. names.table.now };

    ghost class = { λ names. by_column 0 };

    fn write(&self, row: u32, out: &mut [u8; 64]) -> Result<usize, NoMemory> {
        let Cell::Text(name) = self.table.cell(row, 0) else {
            return Err(NoMemory);
        };
        let n = name.len();
        if n > 64 {
            return Err(NoMemory);
        }
        out[..n].copy_from_slice(name);
        Ok(n)
    }
}

// Those named oslo, bonn, ny and nothing.
fn parts(alloc: Global) -> Option<MadeParts> {
    let schema = people(alloc).ok()?;
    let table = load(alloc, PEOPLE, &schema).ok()?;
    let keys = Keys::new(alloc, &[b"oslo", b"bonn", b"ny", b""]).ok()?;
    let room = DivisionRoom::new(alloc, keys.len()).ok()?;
    divide_by(room, &table, &keys, &Names { table: &table }).ok()
}

// Whether a part has these ages.
fn is_part(alloc: Global, made: &MadeParts, j: usize, ages: &[i64]) -> bool {
    if j >= made.len() {
        return false;
    }
    match made.part(alloc, j) {
        Ok(part) => has_ages(only_table(&part), ages),
        Err(_) => false,
    }
}

fn are_parts(alloc: Global) -> bool {
    match parts(alloc) {
        Some(made) => {
            is_part(alloc, &made, 0, &[20, 50])
                && is_part(alloc, &made, 1, &[])
                && is_part(alloc, &made, 2, &[30, 80])
                && is_part(alloc, &made, 3, &[70])
        }
        None => false,
    }
}

#[test]
fn parts_by_name(rt: HostRuntime) {
    assert!(rt; are_parts(rt.alloc()));
}
