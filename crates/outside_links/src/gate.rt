//! What is told of each request.

/// It is called when a request of a block begins, and when it has been answered. Both calls change nothing that any contract tells.
pub trait Gate {
    /// The request of this line of this block begins.
    fn enter(&self, block: u32, line: u32);

    /// It was answered.
    fn leave(&self, block: u32, line: u32);
}

/// Lets every request go on at once.
#[derive(Clone, Copy, Debug, Drop)]
pub struct FreeGate;

impl Gate for FreeGate {
    fn enter(&self, _block: u32, _line: u32) {}

    fn leave(&self, _block: u32, _line: u32) {}
}
