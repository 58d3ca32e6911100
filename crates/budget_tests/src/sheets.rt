//! A sheet of notes, which goes under a lock.

ghost use Rattle.std.specs.Prelude.{◌≡◌, ◌≤◌, ◌++◌, ◌∷◌, [], length, true, IfNone, IfSome};

use owner_lock::StandsFor;
use std::hint;

/// What one clerk noted.
#[derive(Clone, Copy, Drop)]
pub struct Note {
    pub clerk: u32,
    pub number: u32,
}

/// Notes, and room for some.
#[derive(Drop)]
pub struct Sheet {
    pub notes: Vec<Note>,
    pub room: u64,
    pub shut: bool,
    pub ghost within: { length notes.items ≤ room },
}

impl Sheet {
    /// After some turns adds a note, where there is room and the sheet isn't shut, and says at which place.
    pub fn add(&mut self, note: Note, turns: u32) -> Option<u64>
        ensures added { IfSome result (λ n. (n ≡ length self.old.notes.items) × (self.new.notes.items ≡ self.old.notes.items ++ note ∷ [])) }
        ensures none { IfNone result (self.new.notes.items ≡ self.old.notes.items) }
        ensures kept { (self.new.room ≡ self.old.room) × (self.new.shut ≡ self.old.shut) }
    {
        for _ in 0..turns {
            hint::spin_loop();
        }
        let place = self.notes.len() as u64;
        if self.shut || place >= self.room {
            return None;
        }
        if self.notes.push(note).is_err() {
            return None;
        }
        Some(place)
    }

    /// Takes no more notes.
    pub fn close(&mut self)
        ensures { (self.new.notes ≡ self.old.notes) × (self.new.room ≡ self.old.room) × (self.new.shut ≡ true) }
    {
        self.shut = true;
    }
}

impl StandsFor for Sheet {
    type Entry = Note;

    type Fixed = u64;

    ghost history = { λ s. s.notes.items };

    ghost shut = { λ s. s.shut };

    ghost fixed = { λ s. s.room };

    ghost legal = { λ room notes. length notes ≤ room };

    ghost closes = { λ later earlier. ⊥ };

    fn entries(&self) -> u64 {
        self.notes.len() as u64
    }

    fn is_shut(&self) -> bool {
        self.shut
    }
}
