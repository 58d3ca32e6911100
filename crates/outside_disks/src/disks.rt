//! The disks that keep one journal.

/// One disk, or two, each of which keeps the whole.
#[derive(Debug, Drop)]
pub enum Disks<D> {
    One(D),
    Both(D, D),
}
