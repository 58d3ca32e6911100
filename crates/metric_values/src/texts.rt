//! Texts in one run of bytes.
ghost use Rattle.std.specs.Prelude.{◌≡◌, ◌<◌, ◌++◌, [], ◌∷◌, length, OnErr, OnOk};
ghost use Rattle.std.proofs.Common.{get_or};
ghost use Rattle.metric_values.specs.Cells.{text_start};

use fz_ast::NoMemory;
use std::alloc::Global;
use std::marker::Model;

/// Texts, one behind the other, with their ends. A contract sees the list of them.
#[derive(Drop)]
pub struct Texts {
    bytes: Vec<u8>,
    ends: Vec<u32>,
}

impl Model for Texts {
    ghost use Rattle.std.specs.Prelude.{List, ℕ, length};
    ghost use Rattle.metric_values.specs.Cells.{Rise, texts_from};

    ghost Value = { List (List ℕ) };

    ghost view = { λ t. texts_from 0 t.bytes.items t.ends.items };

    ghost invariant = { λ t. Rise 0 (length t.bytes.items) t.ends.items };
}

// Where the text of number `i` begins.
fn start(ends: &[u32], i: usize) -> usize
    requires { i < length ends.now }
    ensures { result ≡ text_start 0 ends.now i }
{
    if i == 0 { 0 } else { ends[i - 1] as usize }
}

impl Texts {
    /// No texts.
    pub fn new(alloc: Global) -> Texts
        ensures { result ≡ [] }
    {
        Texts {
            bytes: Vec::new(alloc),
            ends: Vec::new(alloc),
        }
    }

    /// How many texts there are.
    pub fn len(&self) -> usize
        ensures { result ≡ length self.now }
    {
        self.ends.len()
    }

    /// A text by its number.
    pub fn text(&self, i: usize) -> &[u8]
        requires { i < length self.now }
        ensures { result.now ≡ get_or self.now i [] }
    {
        &self.bytes[start(&self.ends, i)..self.ends[i] as usize]
    }

    /// Adds a text at the end.
    ///
    /// # Errors
    ///
    /// `NoMemory` where memory ran out, or where all the texts have 2^32 bytes or more.
    pub fn push(&mut self, text: &[u8]) -> Result<(), NoMemory>
        ensures pushed { OnOk result (self.new ≡ self.old ++ text.now ∷ []) }
        ensures unchanged { OnErr result (self.new ≡ self.old) }
    {
        let before = self.bytes.len();
        let Ok(end) = u32::try_from(before + text.len()) else {
            return Err(NoMemory);
        };
        if let Err(_) = self.bytes.extend_from_slice(text) {
            return Err(NoMemory);
        }
        if let Err(_) = self.ends.push(end) {
            self.bytes.truncate(before);
            return Err(NoMemory);
        }
        Ok(())
    }
}
