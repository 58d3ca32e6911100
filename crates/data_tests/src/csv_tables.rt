//! Files that are tables, files that are none, and rows by their texts.

ghost use Rattle.std.specs.Prelude.{◌≡◌, IfOk};

use crate::columns::{has_number, has_text};
use fz_ast::Column as Kind;
use metric_values::Table;
use std::alloc::{AllocError, Global};
use table_store::{NamedColumn, Schema, TableFault, groups, load};

// A row of people: a name, an age and a town.
type Person<'a> = (&'a [u8], i64, &'a [u8]);

pub(crate) fn column(alloc: Global, name: &str, kind: Kind) -> Result<NamedColumn, AllocError>
    ensures { IfOk result (λ column. column.name ≡ name.now) }
{
    Ok(NamedColumn::new(String::from_str(alloc, name)?, kind))
}

pub(crate) fn people(alloc: Global) -> Result<Schema, AllocError> {
    let mut columns = Vec::new(alloc);
    columns.push(column(alloc, "name", Kind::Text)?)?;
    columns.push(column(alloc, "age", Kind::Num)?)?;
    columns.push(column(alloc, "town", Kind::Text)?)?;
    Ok(Schema::new(columns))
}

fn are_people(table: &Table, people: &[Person<'_>]) -> bool {
    if table.width() != 3 || table.len() != people.len() {
        return false;
    }
    for row in 0..table.len() as u32 {
        let (name, age, town) = people[row as usize];
        if !(has_text(table.cell(row, 0), name)
            && has_number(table.cell(row, 1), age)
            && has_text(table.cell(row, 2), town))
        {
            return false;
        }
    }
    true
}

// A file, and its rows.
type Rows<'a> = (&'a [u8], &'a [Person<'a>]);

#[rattlefmt::skip]
const TABLES: [Rows<'static>; 6] = [
    (b"name,age,town\nann,20,oslo\n,-3,\n", &[(b"ann", 20, b"oslo"), (b"", -3, b"")]),
    (b"\xEF\xBB\xBF\xEF\xBB\xBFname,age,town\r\nann,20,ny\r\n", &[(b"ann", 20, b"ny")]),
    (b"\"name\",age,town\n\n\"a,b\",\"-0\",\"x\"\"y\r\nz\"", &[(b"a,b", 0, b"x\"y\r\nz")]),
    (b"name,age,town\n\xFF\x00,007, 7\n", &[(b"\xFF\x00", 7, b" 7")]),
    (b"name,age,town\n7,1125899906842624,+\n", &[(b"7", 1 << 50, b"+")]),
    (b"name,age,town", &[]),
];

// A town of 64 bytes, the longest.
const LONGEST: &[u8] = b"xxxxxxxxxxxxxxxxxxxxxxxxxxxxxxxx\
    xxxxxxxxxxxxxxxxxxxxxxxxxxxxxxxx";

const LONG: [Rows<'static>; 1] = [(
    b"name,age,town\nann,20,\
    xxxxxxxxxxxxxxxxxxxxxxxxxxxxxxxx\
    xxxxxxxxxxxxxxxxxxxxxxxxxxxxxxxx\n",
    &[(b"ann", 20, LONGEST)],
)];

#[rattlefmt::skip]
const FAULTS: [(&[u8], TableFault); 8] = [
    (b"", TableFault::BadHeader),
    (b"name,town,age\n", TableFault::BadHeader),
    (b"name,age\nann,20\n", TableFault::BadHeader),
    (b"name,age,town,\n", TableFault::BadHeader),
    (b"name,age,town\nann,20,ny\nbob,x\n", TableFault::BadRecord { row: 1 }),
    (b"name,age,town\nann,x,ny\nbob,20\n", TableFault::BadCell { row: 0, col: 1 }),
    (b"name,age,town\nann,,ny\n", TableFault::BadCell { row: 0, col: 1 }),
    (b"name,age,town\nann,-1125899906842625,ny\n", TableFault::BadCell { row: 0, col: 1 }),
];

// A town of 65 bytes.
const TOO_LONG: [(&[u8], TableFault); 1] = [(
    b"name,age,town\nann,20,\
    xxxxxxxxxxxxxxxxxxxxxxxxxxxxxxxx\
    xxxxxxxxxxxxxxxxxxxxxxxxxxxxxxxxx\n",
    TableFault::BadCell { row: 0, col: 2 },
)];

fn is_table(alloc: Global, schema: &Schema, bytes: &[u8], rows: &[Person<'_>]) -> bool {
    match load(alloc, bytes, schema) {
        Ok(table) => are_people(&table, rows),
        Err(_) => false,
    }
}

fn are_tables(alloc: Global, files: &[Rows<'_>]) -> bool {
    let Ok(schema) = people(alloc) else {
        return false;
    };
    for (bytes, rows) in files {
        if !is_table(alloc, &schema, bytes, rows) {
            return false;
        }
    }
    true
}

fn has_fault(alloc: Global, schema: &Schema, bytes: &[u8], wanted: TableFault) -> bool {
    match load(alloc, bytes, schema) {
        Ok(_) => false,
        Err(fault) => fault == wanted,
    }
}

fn have_faults(alloc: Global, files: &[(&[u8], TableFault)]) -> bool {
    let Ok(schema) = people(alloc) else {
        return false;
    };
    for (bytes, wanted) in files {
        if !has_fault(alloc, &schema, bytes, *wanted) {
            return false;
        }
    }
    true
}

fn gives_tables(alloc: Global) -> bool {
    are_tables(alloc, &TABLES)
}

fn gives_faults(alloc: Global) -> bool {
    have_faults(alloc, &FAULTS)
}

#[test]
fn files(rt: HostRuntime) {
    assert!(rt; gives_tables(rt.alloc()) && gives_faults(rt.alloc()));
}

fn ends_at_64_bytes(alloc: Global) -> bool {
    are_tables(alloc, &LONG) && have_faults(alloc, &TOO_LONG)
}

#[test]
fn long_texts(rt: HostRuntime) {
    assert!(rt; ends_at_64_bytes(rt.alloc()));
}

fn towns(alloc: Global) -> Option<Vec<Vec<u32>>> {
    let schema = people(alloc).ok()?;
    let bytes = b"name,age,town\na,1,ny\nb,2,oslo\nc,3,ny\nd,4,x\n";
    let table = load(alloc, bytes, &schema).ok()?;
    if table.width() != 3 {
        return None;
    }
    groups(alloc, &table, 2, &[b"oslo", b"none", b"ny"]).ok()
}

fn are_groups(groups: &[Vec<u32>], want: &[&[u32]]) -> bool {
    if groups.len() != want.len() {
        return false;
    }
    for i in 0..want.len() {
        if groups[i].as_slice() != want[i] {
            return false;
        }
    }
    true
}

fn has_towns(alloc: Global) -> bool {
    match towns(alloc) {
        Some(groups) => are_groups(&groups, &[&[1], &[], &[0, 2]]),
        None => false,
    }
}

#[test]
fn rows_by_town(rt: HostRuntime) {
    assert!(rt; has_towns(rt.alloc()));
}
