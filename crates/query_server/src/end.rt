//! How a command ends.

ghost use Rattle.std.specs.Prelude.{◌≡◌};
ghost use Rattle.query_server.specs.Status.{status_code};
ghost use Rattle.query_server.specs.Ends.{status_at};
ghost use Rattle.query_server.specs.Ended.{ended_as};

use catalog_loading::Stop;
use derivation_commands::Ending;

/// The status of a command.
#[derive(Clone, Copy, Debug, PartialEq, Eq)]
pub enum Status {
    /// 0: all was done.
    Done,
    /// 1: the program is refused, or the derivation that was to be judged.
    ProgramRefused,
    /// 2: the words are no command.
    Usage,
    /// 3: a file that the command or its catalog names is absent, too long or outside its definition, or the owner is unknown in
    /// a catalog, or its entries in the two catalogs of a `gap` don't fit.
    Refused,
    /// 4: an owner's journal is refused.
    JournalRefused,
    /// 5: files, source, sink or a door have failed.
    Fault,
    /// 6: the bay has failed, or an owner's disk as its journal was opened or made, or as a grant was appended.
    DiskFault,
    /// 7: memory ran out.
    NoMemory,
    /// 8: over 2^24 bytes of script were taken.
    ScriptTooLong,
    /// 9: the budget with a grant would exceed the limit of all budgets.
    TooLarge,
    /// 10: an owner's journal has no room for a grant.
    JournalFull,
    /// 11: the derivation that was to be written has over 2^26 bytes.
    DerivationTooLong,
}

impl Status {
    /// The exit status of the process.
    pub fn code(self) -> u8
        ensures { result ≡ status_code self }
    {
        match self {
            Status::Done => 0,
            Status::ProgramRefused => 1,
            Status::Usage => 2,
            Status::Refused => 3,
            Status::JournalRefused => 4,
            Status::Fault => 5,
            Status::DiskFault => 6,
            Status::NoMemory => 7,
            Status::ScriptTooLong => 8,
            Status::TooLarge => 9,
            Status::JournalFull => 10,
            Status::DerivationTooLong => 11,
        }
    }
}

/// The end of a command that nothing stopped.
#[derive(Drop)]
pub(crate) enum End {
    /// All was done: the lines of that.
    Done(Vec<u8>),
    /// The program is refused, or the derivation that is judged: the line of that.
    ProgramRefused(Vec<u8>),
    /// The script of a `run` has over 2^24 bytes.
    ScriptTooLong,
    /// The budget with a grant would exceed the limit: the line of that.
    TooLarge(Vec<u8>),
    /// There is no room for a grant: the line of that.
    JournalFull(Vec<u8>),
    /// The derivation has over 2^26 bytes.
    DerivationTooLong,
}

impl End {
    ghost use Rattle.query_server.specs.Ends.{end_status, end_text};

    fn status(&self) -> Status
        ensures { result ≡ end_status self.now }
    {
        match self {
            End::Done(_) => Status::Done,
            End::ProgramRefused(_) => Status::ProgramRefused,
            End::ScriptTooLong => Status::ScriptTooLong,
            End::TooLarge(_) => Status::TooLarge,
            End::JournalFull(_) => Status::JournalFull,
            End::DerivationTooLong => Status::DerivationTooLong,
        }
    }

    pub(crate) fn text(&self) -> &[u8]
        ensures { result.now ≡ end_text self.now }
    {
        match self {
            End::Done(lines) => lines,
            End::ProgramRefused(line) | End::TooLarge(line) | End::JournalFull(line) => line,
            End::ScriptTooLong => b"script too long\n",
            End::DerivationTooLong => b"derivation too long\n",
        }
    }
}

/// How a `derive` or a `judge` ends that came to this.
pub(crate) fn ended(given: Result<Ending, Stop>) -> Result<End, Stop>
    ensures { result ≡ ended_as given }
{
    match given? {
        Ending::Written(text) => Ok(End::Done(text)),
        Ending::Refused(line) => Ok(End::ProgramRefused(line)),
        Ending::TooLong => Ok(End::DerivationTooLong),
    }
}

/// The status of a command that ends so, or was stopped.
pub(crate) fn status_of(ended: &Result<End, Stop>) -> Status
    ensures { result ≡ status_at ended.now }
{
    match ended {
        Ok(end) => end.status(),
        Err(Stop::Usage) => Status::Usage,
        Err(Stop::Refused(_)) => Status::Refused,
        Err(Stop::Journal(_)) => Status::JournalRefused,
        Err(Stop::Disk(_)) => Status::DiskFault,
        Err(Stop::Fault) => Status::Fault,
        Err(Stop::NoMemory) => Status::NoMemory,
    }
}
