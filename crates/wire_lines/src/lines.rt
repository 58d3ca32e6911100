//! A script is cut into lines.

ghost use Rattle.std.specs.Prelude.{◌≡◌, ◌<◌, ◌++◌, List, ℕ, [], ◌∷◌, length, MatchOption, IfSome};
ghost use Rattle.wire_lines.specs.Lines.{lines_of, without_cr};

use crate::cut::cut_at;

/// A line without one CR at its end.
#[tactic(auto, using(crate::proofs::Cuts::without_cr_is, crate::proofs::Cuts::without_cr_empty))]
fn trim_cr(line: &[u8]) -> &[u8]
    ensures { result.now ≡ without_cr line.now }
{
    let end = line.len();
    if end > 0 && line[end - 1] == b'\r' {
        &line[..end - 1]
    } else {
        line
    }
}

/// The first line of what is left of a script, without its end, and what is left behind it. None
/// where nothing is left.
#[tactic(auto, using(crate::proofs::Cuts::no_lines))]
pub fn next_line(script: &[u8]) -> Option<(&[u8], &[u8])>
    ensures lines { MatchOption result (lines_of script.now ≡ []) (λ r. lines_of script.now ≡ r.0.now ∷ lines_of r.1.now) }
    ensures nearer { IfSome result (λ r. length r.1.now < length script.now) }
    ensures none { MatchOption result (script.now ≡ []) (λ r. 0 < length script.now) }
{
    if script.is_empty() {
        return None;
    }
    match cut_at(script, b'\n') {
        Some((line, after)) => Some((trim_cr(line), after)),
        None => Some((trim_cr(script), &[])),
    }
}
