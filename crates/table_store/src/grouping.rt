//! The rows of a table by their texts in a column.

ghost use Rattle.std.specs.Prelude.{◌≡◌, ◌<◌, ◌+◌, [], true, length, map, position, bytes_eq, IfOk, IfSome};
ghost use Rattle.std.specs.List.{All, IsDistinct};
ghost use Rattle.metric_values.specs.Cells.{columns_in};
ghost use Rattle.metric_values.specs.Columns.{element_of};
ghost use Rattle.table_store.specs.Groups.{has_text, rows_with, texts_of};
ghost use Rattle.table_store.specs.Lookup.{IsKey, IsLookup, places};

use fz_ast::NoMemory;
use indexmap::IndexSet;
use metric_values::{Cell, Table, Texts};
use std::alloc::Global;
use std::hash::{FoldHasher, Hasher};

/// For each key the numbers of the rows whose text in a column equals it, in order.
///
/// The rows are gone over once, and a row's key is found by its hash, in expected constant time. The hash's seed is fixed:
/// whoever picks keys that collide makes finding one of them take as many steps as there are such keys.
pub fn groups(
    alloc: Global,
    table: &Table,
    column: usize,
    keys: &[&[u8]],
) -> Result<Vec<Vec<u32>>, NoMemory>
    requires column { All (λ row. column < columns_in row) table.now }
    requires distinct { IsDistinct bytes_eq (texts_of keys.now) }
    ensures { IfOk result (λ groups. map (λ group. group.items) groups.items ≡ map (λ key. rows_with column key table.now) (texts_of keys.now)) }
{
    let lookup = Lookup::new(alloc, keys)?;
    let mut groups = empty_groups(alloc, keys.len())?;
    // Rows stay below 2^32.
    let _ = table.width();
    for row in 0..table.len() as u32 {
        if let Some(group) = lookup.group_of(table.cell(row, column)) {
            if groups[group].push(row).is_err() {
                return Err(NoMemory);
            }
        }
    }
    Ok(groups)
}

// How many guesses there are.
const PLACES: usize = 1 << 15;

// What stands where no key is guessed.
const NO_KEY: u16 = u16::MAX;

// Keys to look for texts in.
#[derive(Drop)]
struct Lookup<'k> {
    // Each key, found at its number.
    numbered: IndexSet<&'k [u8]>,
    // The keys again, one behind the other, so that few lines of the cache hold them.
    texts: Texts,
    // At a text's place, and at the one behind it, numbers of keys that it may equal.
    guesses: Vec<u16>,
}

// The keys, each found at its number.
fn numbered<'k>(alloc: Global, keys: &[&'k [u8]]) -> Result<IndexSet<&'k [u8]>, NoMemory>
    requires { IsDistinct bytes_eq (texts_of keys.now) }
    ensures { IfOk result (λ numbered. numbered.keys ≡ keys.now) }
{
    let mut numbered = IndexSet::new(alloc);
    for i in 0..keys.len() {
        if numbered.insert(keys[i]).is_err() {
            return Err(NoMemory);
        }
    }
    Ok(numbered)
}

// So many groups without rows.
fn empty_groups(alloc: Global, count: usize) -> Result<Vec<Vec<u32>>, NoMemory>
    ensures count { IfOk result (λ groups. length groups.items ≡ count) }
    ensures empty { IfOk result (λ groups. All (λ group. group.items ≡ []) groups.items) }
{
    let mut groups = Vec::new(alloc);
    while groups.len() < count {
        if groups.push(Vec::new(alloc)).is_err() {
            return Err(NoMemory);
        }
    }
    Ok(groups)
}

impl<'k> Lookup<'k> {
    fn new(alloc: Global, keys: &[&'k [u8]]) -> Result<Lookup<'k>, NoMemory>
        requires { IsDistinct bytes_eq (texts_of keys.now) }
        ensures { IfOk result (IsLookup keys.now) }
    {
        Ok(Lookup {
            numbered: numbered(alloc, keys)?,
            texts: copied(alloc, keys)?,
            guesses: guesses(alloc, keys)?,
        })
    }

    // The number of the key that a cell equals.
    fn group_of(&self, cell: Cell<'_>) -> Option<usize>
        requires lookup { IsLookup self.now.numbered.keys self.now }
        requires distinct { IsDistinct bytes_eq (texts_of self.now.numbered.keys) }
        ensures within { IfSome result (λ group. group < length self.now.numbered.keys) }
        ensures first { result ≡ position (λ key. has_text key.now (element_of cell.entry)) self.now.numbered.keys }
    {
        match cell {
            Cell::Text(text) => match self.guessed(text) {
                Some(group) => Some(group),
                None => self.numbered.get_index_of(text),
            },
            Cell::Number(_) => None,
        }
    }

    // The number of a key that is this text, if it is guessed.
    fn guessed(&self, text: &[u8]) -> Option<usize>
        requires { length self.now.guesses.items ≡ places }
        ensures { IfSome result (λ group. IsKey group text.now self.now.texts) }
    {
        let place = place(text);
        let first = self.guesses[place] as usize;
        if self.is_key(first, text) {
            return Some(first);
        }
        let second = self.guesses[place + 1] as usize;
        if self.is_key(second, text) {
            return Some(second);
        }
        None
    }

    // Whether the key of this number is this text.
    fn is_key(&self, group: usize, text: &[u8]) -> bool
        ensures { result ≡ true → IsKey group text.now self.now.texts }
    {
        group < self.texts.len() && self.texts.text(group) == text
    }
}

// A copy of texts.
fn copied(alloc: Global, texts: &[&[u8]]) -> Result<Texts, NoMemory>
    ensures { IfOk result (λ copy. copy ≡ texts_of texts.now) }
{
    let mut copy = Texts::new(alloc);
    for text in texts {
        copy.push(text)?;
    }
    Ok(copy)
}

// For each key its number at one of its two places, or that of a later key with the same places.
fn guesses(alloc: Global, keys: &[&[u8]]) -> Result<Vec<u16>, NoMemory>
    ensures { IfOk result (λ guesses. length guesses.items ≡ places) }
{
    let Ok(mut guesses) = vec![in alloc; NO_KEY; PLACES] else {
        return Err(NoMemory);
    };
    for i in 0..keys.len() {
        let Ok(number) = u16::try_from(i) else {
            return Ok(guesses);
        };
        let first = place(keys[i]);
        let taken = guesses[first] != NO_KEY;
        guesses[if taken { first + 1 } else { first }] = number;
    }
    Ok(guesses)
}

// The first of a text's two places, by its hash.
fn place(text: &[u8]) -> usize
    ensures { result + 1 < places }
{
    let mut hasher = FoldHasher::default();
    hasher.write(text);
    2 * (hasher.finish() as usize % (PLACES / 2))
}
