//! A table divided by its rows' classes: its rows are gone over once, and each is chained to the next one of its part.

ghost use Rattle.std.specs.Prelude.{◌≡◌, ◌<◌, ◌≤◌, List, [], All, length, take, bytes_eq, IfOk};
ghost use Rattle.std.specs.List.{IsDistinct};
ghost use Rattle.std.proofs.Common.{get_or};
ghost use Rattle.metric_values.specs.Cells.{row_at};
ghost use Rattle.metric_values.specs.Values.{Flat, TextF};
ghost use Rattle.table_store.specs.Groups.{texts_of};
ghost use Rattle.part_views.specs.Cuts.{Class, class_of};
ghost use Rattle.part_views.specs.MadeParts.{Follows, IsNumberOf, chain_from, parts_by};

use fz_ast::NoMemory;
use indexmap::IndexSet;
use metric_values::{Table, Tables};
use std::alloc::Global;
use std::marker::Model;

// The most rows of a table that is divided.
const ROWS: usize = 1 << 20;

/// What says the class of each row of a table.
pub trait RowClasses {
    /// The table's rows, in order.
    ghost rows: { Self → List Flat };

    /// What says their classes.
    ghost class: { Self → Class };

    /// Writes the class of a row, and answers how many bytes it has.
    fn write(&self, row: u32, out: &mut [u8; 64]) -> Result<usize, NoMemory>
        requires { row < length (rows self.now) }
        ensures room { length out.new ≡ 64 }
        ensures within { IfOk result (λ n. n ≤ 64) }
        ensures class { IfOk result (λ n. class_of (class self.now) (row_at (rows self.now) row) ≡ TextF (take n out.new)) };
}

/// The keys of a partition's parts, to look for classes in. A contract sees the list of them.
#[derive(Drop)]
pub struct Keys<'k> {
    numbered: IndexSet<&'k [u8]>,
}

impl<'k> Model for Keys<'k> {
    ghost use Rattle.std.specs.Prelude.{List, ℕ, bytes_eq};
    ghost use Rattle.std.specs.List.{IsDistinct};
    ghost use Rattle.table_store.specs.Groups.{texts_of};

    ghost Value = { List (List ℕ) };

    ghost view = { λ k. texts_of k.numbered.keys };

    ghost invariant = { λ k. IsDistinct bytes_eq (texts_of k.numbered.keys) };
}

impl<'k> Keys<'k> {
    /// These keys, of which none stands twice.
    pub fn new(alloc: Global, texts: &[&'k [u8]]) -> Result<Keys<'k>, NoMemory>
        requires { IsDistinct bytes_eq (texts_of texts.now) }
        ensures { IfOk result (λ keys. keys ≡ texts_of texts.now) }
    {
        let mut numbered = IndexSet::new(alloc);
        for i in 0..texts.len() {
            if numbered.insert(texts[i]).is_err() {
                return Err(NoMemory);
            }
        }
        Ok(Keys { numbered })
    }

    /// How many keys there are.
    pub fn len(&self) -> usize
        ensures { result ≡ length self.now }
    {
        self.numbered.len()
    }

    // The number of the key that is this text.
    fn number(&self, text: &[u8]) -> Option<usize>
        ensures number { IsNumberOf self.now text.now result }
        ensures distinct { IsDistinct bytes_eq self.now }
    {
        self.numbered.get_index_of(text)
    }
}

/// Room to divide a table in: 4 MiB, whatever the table holds. A contract sees how many parts it has room for.
#[derive(Drop)]
pub struct DivisionRoom {
    first: Vec<u32>,
    next: Vec<u32>,
}

impl Model for DivisionRoom {
    ghost use Rattle.std.specs.Prelude.{◌≡◌, ℕ, All, length};

    ghost Value = { ℕ };

    ghost view = { λ room. length room.first.items };

    ghost invariant = { λ room. All (λ place. place ≡ 0) room.first.items };
}

impl DivisionRoom {
    /// Room for so many parts.
    pub fn new(alloc: Global, parts: usize) -> Result<DivisionRoom, NoMemory>
        ensures { IfOk result (λ room. room ≡ parts) }
    {
        let Ok(first) = vec![in alloc; 0; parts] else {
            return Err(NoMemory);
        };
        let Ok(next) = vec![in alloc; 0; ROWS] else {
            return Err(NoMemory);
        };
        Ok(DivisionRoom { first, next })
    }
}

/// A divided table. A contract sees the parts, each a dataset of one table.
#[derive(Drop)]
pub struct MadeParts {
    table: Table,
    // Where each part begins, and what follows each row: one more than a row's number, or 0 at the end.
    first: Vec<u32>,
    next: Vec<u32>,
}

impl Model for MadeParts {
    ghost use Rattle.std.specs.Prelude.{List};
    ghost use Rattle.metric_values.specs.Tables.{Dataset};
    ghost use Rattle.part_views.specs.MadeParts.{AreChains, parts_chained, parts_code};

    ghost Value = { List Dataset };

    ghost coded = { parts_code };

    ghost view = { λ made. parts_chained made.table made.first.items made.next.items };

    ghost invariant = { λ made. AreChains made.table made.first.items made.next.items };
}

/// The parts of a table, for each key the rows whose class it is, in order.
///
/// Rows are gone over once, from the last to the first, and no more memory is taken than for their classes.
pub fn divide_by<C: RowClasses>(
    room: DivisionRoom,
    table: &Table,
    keys: &Keys<'_>,
    classes: &C,
) -> Result<MadeParts, NoMemory>
    requires room { room ≡ length keys.now }
    requires rows { C.rows classes.now ≡ table.now }
    ensures { IfOk result (λ made. made ≡ parts_by (C.class classes.now) keys.now table.now) }
{
    let DivisionRoom {
        mut first,
        mut next,
    } = room;
    if table.len() > next.len() {
        return Err(NoMemory);
    }
    // Rows stay below 2^32.
    let _ = table.width();
    let mut text = [0; 64];
    let mut row = table.len() as u32;
    while row > 0 {
        row -= 1;
        let n = classes.write(row, &mut text)?;
        if let Some(part) = keys.number(&text[..n]) {
            next[row as usize] = first[part];
            first[part] = row + 1;
        }
    }
    Ok(MadeParts {
        table: table.copy()?,
        first,
        next,
    })
}

impl MadeParts {
    /// How many parts there are.
    pub fn len(&self) -> usize
        ensures { result ≡ length self.now }
    {
        self.first.len()
    }

    /// A part by its number, over the table's cells.
    pub fn part(&self, alloc: Global, j: usize) -> Result<Tables, NoMemory>
        requires { j < length self.now }
        ensures { IfOk result (λ part. part ≡ get_or self.now j []) }
    {
        let numbers = chained(alloc, &self.next, self.first[j])?;
        let mut part = Tables::new(alloc);
        part.push(self.table.with_rows(alloc, &numbers)?)?;
        Ok(part)
    }
}

// The row numbers of a chain.
fn chained(alloc: Global, next: &[u32], place: u32) -> Result<Vec<u32>, NoMemory>
    requires ends { Follows next.now place (chain_from next.now place) }
    requires there { All (λ row. row < length next.now) (chain_from next.now place) }
    ensures { IfOk result (λ numbers. numbers.items ≡ chain_from next.now place) }
{
    let mut numbers = Vec::new(alloc);
    let mut at = place;
    while at > 0 {
        let row = at - 1;
        if numbers.push(row).is_err() {
            return Err(NoMemory);
        }
        at = next[row as usize];
    }
    Ok(numbers)
}
