//! A script's blocks: each ends after a line that is `bye`, or at the end.

ghost use Rattle.std.specs.Prelude.{◌≡◌, ◌-◌, ◌^◌, ◌<◌, length, min};
ghost use Rattle.wire_lines.specs.Lines.{lines_of};
ghost use Rattle.session_core.specs.Turns.{is_bye};
ghost use Rattle.session_core.specs.Blocks.{behind_block, first_block};
ghost use Rattle.session_core.specs.Code.{room_for_line, room_for_lines, short_reply_limit};

use wire_lines::{REPLY_LIMIT, next_line};

/// The most bytes of a reply to a line of fewer than six bytes.
const SHORT_REPLY_LIMIT: usize = 8;

/// What the first block of some lines asks for.
#[derive(Clone, Copy)]
pub struct Block<'a> {
    /// Room for its replies.
    pub room: usize,
    /// What is behind it.
    pub behind: &'a [u8],
}

// Whether a line ends its block. Its bytes say so: who only looks for blocks reads no line as a request.
#[tactic(auto, using(crate::proofs::FirstBlocks::bye_bytes))]
fn ends_block(line: &[u8]) -> bool
    ensures { result ≡ is_bye line.now }
{
    line == b"bye".as_slice()
}

// Room for the longest reply to a line of so many bytes. A shorter line than six asks nothing, and its reply is short.
fn room_of(len: usize) -> usize
    ensures { result ≡ room_for_line len }
{
    if len < 6 {
        SHORT_REPLY_LIMIT
    } else {
        REPLY_LIMIT
    }
}

/// Passes over the lines of the first block.
pub fn pass_block(script: &[u8]) -> Block<'_>
    ensures room { result.room ≡ min (2 ^ 64 - 1) (room_for_lines (first_block (lines_of script.now))) }
    ensures behind { lines_of result.behind.now ≡ behind_block (lines_of script.now) }
    ensures nearer { 0 < length script.now → length result.behind.now < length script.now }
{
    let mut room = 0usize;
    let mut behind = script;
    while let Some((line, after)) = next_line(behind) {
        room = room.saturating_add(room_of(line.len()));
        if ends_block(line) {
            return Block {
                room,
                behind: after,
            };
        }
        behind = after;
    }
    Block { room, behind }
}
