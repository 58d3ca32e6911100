//! What a charge is for.

/// The partitions that a view may name.
pub const PARTITIONS: usize = 8;

/// The parts that a partition may have.
pub const PARTS: usize = 4_000;

/// What a query looks at: the owner's whole dataset, or one part of one of its partitions.
///
/// A partition is numbered 0 to 7, its part 0 to 3,999.
#[derive(Clone, Copy, Debug, Drop, PartialEq, Eq)]
pub enum View {
    Whole,
    Part { partition: u8, part: u16 },
}
