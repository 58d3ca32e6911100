//! By what lines are answered.

use outside_disks::disk::Disk;
use owner_history::{Desk, House};
use std::alloc::Global;

/// The runtime, by which a worker waits for an owner's lock; the house; its owners' desks, in order; the words of noise; and the gate.
#[derive(Drop)]
pub struct Server<'a, R, D: Disk, S, G> {
    pub rt: &'a R,
    pub alloc: Global,
    pub house: &'a House,
    pub desks: &'a [Desk<D>],
    pub streams: &'a S,
    pub gate: &'a G,
}
