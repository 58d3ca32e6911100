//! Where workers listen, and how their work ends.

/// Worker i listens at port `port + i` of this address, and serves so many connections, one after another.
#[derive(Clone, Copy, Debug)]
pub struct Posting<'a> {
    pub addr: &'a str,
    pub port: u16,
    pub each: u32,
}

/// How one worker's work ended, or that of all.
#[derive(Clone, Copy, Debug, PartialEq, Eq)]
pub enum Service {
    /// As many connections were served as were wanted, and none was dropped.
    Served,
    /// A door failed.
    DoorFault,
    /// A connection was dropped, since there was no memory for its session.
    NoMemory,
}
