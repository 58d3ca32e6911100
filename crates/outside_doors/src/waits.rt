//! How long a peer is waited for. Time goes on here only while the peer is waited for: what the server itself takes to answer counts in
//! no limit, and what the peer sends or takes bit by bit begins none anew.

ghost use Rattle.std.specs.Prelude.{◌≡◌, List, [], ◌∷◌};
ghost use Rattle.outside_doors.specs.Waits.{AreOfService};

/// How long a peer may be waited for, in microseconds.
#[derive(Clone, Copy, Debug, PartialEq, Eq)]
pub struct Limits {
    /// Until its first line is whole.
    pub first_line: u64,
    /// From a reply to the end of the next line.
    pub next_line: u64,
    /// Until it has taken a reply.
    pub reply: u64,
    /// In all.
    pub in_all: u64,
}

const SECOND: u64 = 1_000_000;

/// How long it is drained at most what a peer has sent behind what was answered.
pub(crate) const DRAIN: u64 = SECOND;

/// How long a peer is waited for at once.
pub(crate) const SPELL: u64 = SECOND;

/// How long a door waits before it tries again to let somebody in, and how often it tries.
pub(crate) const PAUSE: u64 = SECOND / 10;

pub(crate) const TRIES: u32 = 6000;

impl Limits {
    /// The limits of the service.
    pub fn of_service() -> Limits
        ensures { AreOfService result }
    {
        Limits {
            first_line: 30 * SECOND,
            next_line: 600 * SECOND,
            reply: 30 * SECOND,
            in_all: 3600 * SECOND,
        }
    }
}

/// How long a peer may still be waited for.
#[derive(Clone, Copy, Debug)]
pub struct Waits {
    limits: Limits,
    // until the line that it sends now is whole
    line: u64,
    // until it has taken the reply that it takes now
    reply: u64,
    in_all: u64,
}

impl Waits {
    ghost use Rattle.outside_doors.specs.Waits.{Wait, StandsFor, left_to_read, left_to_write, limits_of};
    ghost use Rattle.outside_doors.specs.Waits.Wait.{Read, Wrote};

    /// Nothing was waited yet.
    pub fn new(limits: Limits) -> Waits
        ensures limits { limits_of result ≡ limits }
        ensures stands { StandsFor result [] }
    {
        Waits {
            limits,
            line: limits.first_line,
            reply: limits.reply,
            in_all: limits.in_all,
        }
    }

    /// How long it may still be waited until the peer sends something.
    pub fn left_to_read(&self) -> u64
        ensures { (before : List Wait) → StandsFor self.now before → result ≡ left_to_read (limits_of self.now) before }
    {
        self.line.min(self.in_all)
    }

    /// How long it may still be waited until the peer takes something.
    pub fn left_to_write(&self) -> u64
        ensures { (before : List Wait) → StandsFor self.now before → result ≡ left_to_write (limits_of self.now) before }
    {
        self.reply.min(self.in_all)
    }

    /// So long it was waited until the peer sent something.
    pub fn read(&mut self, took: u64)
        ensures limits { limits_of self.new ≡ limits_of self.old }
        ensures stands { (before : List Wait) → StandsFor self.old before → StandsFor self.new (Read took ∷ before) }
    {
        self.line = self.line.saturating_sub(took);
        self.in_all = self.in_all.saturating_sub(took);
    }

    /// So long it was waited until the peer took something, and whether that was the rest of a reply.
    pub fn wrote(&mut self, took: u64, whole: bool)
        ensures limits { limits_of self.new ≡ limits_of self.old }
        ensures stands { (before : List Wait) → StandsFor self.old before → StandsFor self.new (Wrote took whole ∷ before) }
    {
        self.in_all = self.in_all.saturating_sub(took);
        if whole {
            self.line = self.limits.next_line;
            self.reply = self.limits.reply;
        } else {
            self.reply = self.reply.saturating_sub(took);
        }
    }
}
