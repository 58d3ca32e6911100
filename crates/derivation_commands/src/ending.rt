//! How a derivation that is written or judged ends.

/// The end of a `derive` or a `judge` that nothing stopped.
#[derive(Drop)]
pub enum Ending {
    /// The derivation, or the line of a yes.
    Written(Vec<u8>),
    /// The line of the program or of the derivation that is refused.
    Refused(Vec<u8>),
    /// The derivation has over 2^26 bytes.
    TooLong,
}
