//! Where the blocks of a script begin.

ghost use Rattle.std.specs.Prelude.{◌≡◌, IfOk};
ghost use Rattle.session_core.specs.Blocks.{script_blocks};
ghost use Rattle.script_workers.specs.Starts.{blocks_at};

use session_core::blocks::pass_block;
use std::alloc::{AllocError, Global};

/// A script from each of its blocks on, so that no worker passes over the blocks of others.
pub(crate) fn starts_of<'a>(alloc: Global, script: &'a [u8]) -> Result<Vec<&'a [u8]>, AllocError>
    ensures { IfOk result (λ starts. blocks_at starts.items ≡ script_blocks script.now) }
{
    let mut starts = Vec::new(alloc);
    let mut rest = script;
    while !rest.is_empty() {
        starts.push(rest)?;
        rest = pass_block(rest).behind;
    }
    Ok(starts)
}
