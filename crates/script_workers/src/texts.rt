//! The texts of one worker's blocks.

ghost use Rattle.std.specs.Prelude.{◌≡◌, ◌<◌, ◌≤◌, [], ◌∷◌, List, ℕ, length, IfOk, slice_get, slice_index_or, Some, vec_capacity};
ghost use Rattle.script_workers.specs.Texts.{KeepsTexts};

use std::alloc::{AllocError, Global};

/// Texts, one behind another, and where each ends. All room is taken when it is made.
#[derive(Drop)]
pub(crate) struct Texts {
    pub(crate) bytes: Vec<u8>,
    pub(crate) ends: Vec<usize>,
}

impl Texts {
    /// None yet, with room for so many bytes in all and so many texts.
    pub(crate) fn with_room(alloc: Global, bytes: usize, texts: usize) -> Result<Texts, AllocError>
        ensures none { IfOk result (λ t. KeepsTexts t []) }
        ensures room { IfOk result (λ t. (vec_capacity t.bytes ≡ bytes) × (vec_capacity t.ends ≡ texts)) }
    {
        Ok(Texts {
            bytes: Vec::with_capacity(alloc, bytes)?,
            ends: Vec::with_capacity(alloc, texts)?,
        })
    }

    // Where the text at a place begins.
    fn start_of(&self, place: usize) -> usize
        requires { place ≤ length self.now.ends.items }
        ensures { result ≡ slice_index_or (0 ∷ self.now.ends.items) place 0 }
    {
        if place == 0 { 0 } else { self.ends[place - 1] }
    }

    /// The text at a place.
    pub(crate) fn text(&self, place: usize) -> &[u8]
        requires there { (texts : List (List ℕ)) × KeepsTexts self.now texts × (place < length texts) }
        ensures text { (texts : List (List ℕ)) → KeepsTexts self.now texts → slice_get texts place ≡ Some result.now }
    {
        &self.bytes[self.start_of(place)..self.ends[place]]
    }
}
