//! Lines of what a program and its derivation come to.

ghost use Rattle.std.specs.Prelude.{◌≡◌, ◌++◌, IfOk, IfErr, OnErr, codes};
ghost use Rattle.fz_frac.specs.Sens.{distance_of};
ghost use Rattle.wire_lines.specs.Refusal.{no_memory, refusal_at};
ghost use Rattle.wire_lines.specs.Reply.{refused, reply_text, sensitivity_text};
ghost use Rattle.derivation_commands.specs.Outcome.{no_text};

use fz_frac::Sens;
use itoa::Buffer;
use std::alloc::{AllocError, Global};
use wire_lines::{REPLY_LIMIT, Refusal, Reply, write_reply, write_sensitivity};

/// The line of a refusal. Out of memory is no refusal of a program, and has no line here.
pub fn refusal_line(alloc: Global, refusal: &Refusal<'_>) -> Result<Vec<u8>, AllocError>
    ensures line { IfOk result (λ line. line.items ≡ reply_text (refused (refusal_at refusal.now))) }
    ensures some { IfOk result (λ line. refusal_at refusal.now ≡ no_memory → ⊥) }
{
    if let Refusal::NoMemory = refusal {
        return Err(AllocError);
    }
    let mut text = [0u8; REPLY_LIMIT];
    let n = write_reply(&Reply::Refused(*refusal), &mut text);
    text[..n].to_vec(alloc)
}

/// The line of a label and a sensitivity.
pub fn sensitivity_line(alloc: Global, label: &[u8], sens: Sens) -> Result<Vec<u8>, AllocError>
    ensures { IfOk result (λ line. line.items ≡ label.now ++ sensitivity_text (distance_of sens) ++ codes "\n") }
{
    let mut text = [0u8; REPLY_LIMIT];
    let n = write_sensitivity(sens, &mut text);
    let mut line = label.to_vec(alloc)?;
    line.extend_from_slice(&text[..n])?;
    line.extend_from_slice(b"\n")?;
    Ok(line)
}

/// The line of a derivation whose line of this number is at fault.
pub(crate) fn fault_line(alloc: Global, at: usize) -> Result<Vec<u8>, AllocError>
    ensures { IfOk result (λ line. line.items ≡ no_text at) }
{
    let mut buffer = Buffer::new();
    let mut line = Vec::new(alloc);
    line.extend_from_slice(b"no ")?;
    line.extend_from_slice(buffer.format(at).as_bytes())?;
    line.extend_from_slice(b"\n")?;
    Ok(line)
}
