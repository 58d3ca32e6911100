//! What the encoding promises. Each function does nothing: its contract is the law.

ghost use Rattle.journal_records.specs.Laws.{OneRecord, FillsASlot};

/// No two records have the same encoding.
pub fn one_record()
    ensures { OneRecord }
{}

/// A record's encoding has 64 bytes, and begins with the gate.
pub fn fills_a_slot()
    ensures { FillsASlot }
{}
