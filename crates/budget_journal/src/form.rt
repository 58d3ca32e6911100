//! The versions of a journal, and how the slots of each lie.

ghost use Rattle.std.specs.Prelude.{◌≡◌};
ghost use Rattle.budget_journal.specs.Areas.{form_by, version_by};

use journal_records::records::NEWEST_VERSION;

/// How the slots of a journal lie.
#[derive(Clone, Copy, Debug, Drop, PartialEq, Eq)]
pub enum Form {
    /// One area for all records, in version 1.
    One,
    /// Areas, of which the last that is open is live, in versions 2 and 3.
    Many,
}

impl Form {
    /// How the slots lie in a journal of this version.
    pub(crate) fn of(version: u8) -> Form
        ensures { result ≡ form_by version }
    {
        if version == 1 { Form::One } else { Form::Many }
    }
}

/// The version that byte 9 of a header names. An unknown one is judged as the newest.
pub(crate) fn version_named(byte: u8) -> u8
    ensures { result ≡ version_by byte }
{
    if byte == 1 || byte == 2 {
        byte
    } else {
        NEWEST_VERSION
    }
}
