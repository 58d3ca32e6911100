//! The bytes of one line, as far as they are kept.

ghost use Rattle.std.specs.Prelude.{◌≡◌, ◌<◌, ◌≤◌, [], ◌∷◌, ◌++◌, List, ℕ, length, vec_len, vec_capacity, IfOk, MatchBool, MatchOption};
ghost use Rattle.session_serve.specs.declared.line.TheConstants.{ROOM};

use std::alloc::{AllocError, Global};
use wire_lines::{LINE_LIMIT, next_line};

// Room for a line of the greatest length with its CR and LF. A line that doesn't fit is over the limit.
const ROOM: usize = LINE_LIMIT + 2;

/// A line that is read byte by byte, with its end. Its room is taken when it is made; what doesn't fit isn't kept.
#[derive(Drop)]
pub(crate) struct Line {
    kept: Vec<u8>,
    long: bool,
    ghost reserved: { ROOM ≤ vec_capacity kept },
    ghost bounded: { vec_len kept ≤ ROOM },
}

impl Line {
    ghost use Rattle.wire_lines.specs.Lines.{lines_of};
    ghost use Rattle.wire_lines.specs.Request.{line_limit};
    ghost use Rattle.session_serve.specs.Code.{Keeps};

    /// No bytes.
    pub(crate) fn new(alloc: Global) -> Result<Line, AllocError>
        ensures { IfOk result (λ line. Keeps line []) }
    {
        Ok(Line {
            kept: Vec::with_capacity(alloc, ROOM)?,
            long: false,
        })
    }

    /// One byte more.
    pub(crate) fn push(&mut self, byte: u8)
        ensures { (raw : List ℕ) → Keeps self.old raw → Keeps self.new (raw ++ byte ∷ []) }
    {
        if self.kept.len() < ROOM {
            self.kept.push_reserved(byte);
        } else {
            self.long = true;
        }
    }

    /// The next line begins.
    pub(crate) fn clear(&mut self)
        ensures { Keeps self.new [] }
    {
        self.kept.clear();
        self.long = false;
    }

    /// Whether there is no byte.
    pub(crate) fn is_empty(&self) -> bool
        ensures { (raw : List ℕ) → Keeps self.now raw → MatchBool result (raw ≡ []) (0 < length raw) }
    {
        !self.long && self.kept.is_empty()
    }

    /// The line without its end. None where it is over the limit and wasn't kept.
    pub(crate) fn text(&self) -> Option<&[u8]>
        ensures { (raw text : List ℕ) → Keeps self.now raw → lines_of raw ≡ text ∷ [] → MatchOption result (line_limit < length text)
            (λ line. line.now ≡ text) }
    {
        if self.long {
            return None;
        }
        match next_line(&self.kept) {
            Some((line, _)) => Some(line),
            None => Some(&[]),
        }
    }
}
