//! Where a part of a program stands.

/// A part of a program's text: its bytes from `from` up to, not including, `to`.
/// Parentheses round a part are outside its span.
#[derive(Clone, Copy)]
pub struct Span {
    pub from: u32,
    pub to: u32,
}
