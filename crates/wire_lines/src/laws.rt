//! What is proved of the definitions.

ghost use Rattle.std.specs.Prelude.{◌≡◌, ◌≤◌, ◌<◌, ◌↔◌, ℕ, List, length, Ok, Err, Some};
ghost use Rattle.std.specs.List.{flat_map, AllByRecursion};
ghost use Rattle.wire_lines.specs.Request.{Asked, IsRequest, line_limit, request_of, fault_of};
ghost use Rattle.wire_lines.specs.Epsilon.{IsEpsilonText, epsilon_of};
ghost use Rattle.wire_lines.specs.Reply.{Replied, IsReply, reply_text};

use crate::refusal::LineRefusal;

/// How a line is read agrees with the grammar of lines.
pub fn lines_are_read_by_the_grammar()
    // A line is read as a request exactly where it is that request's in the grammar and no longer
    // than the limit.
    ensures grammar { (line : List ℕ) (request : Asked) →
        (request_of line ≡ Ok request) ↔ ((length line ≤ line_limit) × IsRequest line request) }
    // In the grammar a line has at most one request.
    ensures one { (line : List ℕ) (a b : Asked) → IsRequest line a → IsRequest line b → a ≡ b }
    // The fault is the first word that is missing, empty, too many or not of its kind.
    ensures malformed { (line : List ℕ) (word : ℕ) →
        (request_of line ≡ Err (LineRefusal.Malformed word)) ↔ ((length line ≤ line_limit) × (fault_of line ≡ Some word)) }
    // A line is too long exactly where it has more bytes than the limit.
    ensures long { (line : List ℕ) → (request_of line ≡ Err LineRefusal.TooLong) ↔ (line_limit < length line) }
{}

/// An epsilon is read exactly where it is written as the grammar says.
pub fn epsilons_are_read_by_the_grammar()
    ensures { (text : List ℕ) (n : ℕ) → (epsilon_of text ≡ Some n) ↔ IsEpsilonText text n }
{}

/// Equal texts are of equal replies, and equal bytes of equal lists of replies.
pub fn replies_differ_in_their_texts()
    ensures one { (x y : Replied) → IsReply x → IsReply y → reply_text x ≡ reply_text y → x ≡ y }
    ensures stream { (xs ys : List Replied) → AllByRecursion IsReply xs → AllByRecursion IsReply ys →
        flat_map reply_text xs ≡ flat_map reply_text ys → xs ≡ ys }
{}
