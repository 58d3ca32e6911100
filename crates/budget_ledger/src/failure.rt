//! What closes a book.

use journal_records::records::Record;

/// An append that failed.
#[derive(Clone, Copy, Debug, Drop, PartialEq, Eq)]
pub struct Failure {
    /// How many calls of the disk had failed then.
    pub failed_at: u64,
    /// The record, which may be there or not.
    pub pending: Record,
}
