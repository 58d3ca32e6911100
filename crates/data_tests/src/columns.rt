//! Tables of columns, and chosen rows.
use fz_ast::NoMemory;
use metric_values::{Cell, Column, Table, Texts};
use std::alloc::Global;
use std::marker::{Send, Sync};

fn is_shared<T: Send + Sync>(_value: &T) -> bool {
    true
}

pub(crate) fn has_number(cell: Cell<'_>, number: i64) -> bool {
    match cell {
        Cell::Number(z) => z == number,
        Cell::Text(_) => false,
    }
}

pub(crate) fn has_text(cell: Cell<'_>, text: &[u8]) -> bool {
    match cell {
        Cell::Number(_) => false,
        Cell::Text(bytes) => bytes == text,
    }
}

fn texts(alloc: Global, pieces: &[&[u8]]) -> Result<Texts, NoMemory> {
    let mut texts = Texts::new(alloc);
    for piece in pieces {
        texts.push(piece)?;
    }
    Ok(texts)
}

// A column of numbers beside one of texts.
pub(crate) fn people(alloc: Global, ages: &[i64], towns: &[&[u8]]) -> Result<Table, NoMemory> {
    let texts = texts(alloc, towns)?;
    let numbers = Vec::from_slice(alloc, ages)?;
    if numbers.len() != texts.len() {
        return Err(NoMemory);
    }
    match vec![in alloc; Column::Numbers(numbers), Column::Texts(texts)] {
        Ok(columns) => Table::new(alloc, columns),
        Err(_) => Err(NoMemory),
    }
}

// Whether these are the rows of a table.
fn are_rows(table: &Table, ages: &[i64], towns: &[&[u8]]) -> bool {
    if table.width() != 2 || table.len() != ages.len() || table.len() != towns.len() {
        return false;
    }
    for row in 0..table.len() as u32 {
        let is_one = has_number(table.cell(row, 0), ages[row as usize])
            && has_text(table.cell(row, 1), towns[row as usize]);
        if !is_one {
            return false;
        }
    }
    true
}

// Of three rows the last and the first.
fn last_and_first(alloc: Global, table: &Table) -> Result<Table, NoMemory> {
    if table.len() != 3 {
        return Err(NoMemory);
    }
    table.with_rows(alloc, &[2, 0])
}

// Of two rows the second.
fn second(alloc: Global, table: &Table) -> Result<Table, NoMemory> {
    if table.len() != 2 {
        return Err(NoMemory);
    }
    table.with_rows(alloc, &[1])
}

fn are_chosen(alloc: Global) -> Result<bool, NoMemory> {
    let table = people(alloc, &[30, -4, 41], &[b"oslo", b"", b"ny"])?;
    let part = last_and_first(alloc, &table)?;
    let last = second(alloc, &part)?;
    Ok(
        is_shared(&table)
            && are_rows(&table, &[30, -4, 41], &[b"oslo", b"", b"ny"])
            && are_rows(&part, &[41, 30], &[b"ny", b"oslo"])
            && are_rows(&last, &[30], &[b"oslo"]),
    )
}

#[test]
fn mixed_columns_and_chosen_rows(rt: HostRuntime) {
    assert!(rt; are_chosen(rt.alloc()) == Ok(true));
}
