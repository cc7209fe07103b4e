//! The status with which a report's line ends, taken off the front of a text.

ghost use Rattle.std.specs.Prelude.{◌≡◌, ℕ, List, ◌∷◌, ◌++◌, IsSomeAnd};
ghost use Rattle.case_core.specs.Reason.{Reason};
ghost use Rattle.mark_board.specs.declared.mark.Mark.{Mark};
ghost use Rattle.node_fields.specs.Fields.{reason_field, status_fields};
ghost use Rattle.cube_join.specs.Inner.Fields.{HasSmallStep};

use crate::fields::{behind, number_at_front};
use case_core::Reason;
use mark_board::Mark;

/// The reason with whose field a line goes on and ends, and what stands behind the line.
fn reason_at_front(text: &[u8]) -> Option<(Reason, &[u8])>
    ensures { (reason : Reason) (rest : List ℕ) → text.now ≡ reason_field reason ++ 10 ∷ rest
        → IsSomeAnd result (λ read. (read.0 ≡ reason) × (read.1.now ≡ rest)) }
{
    if let Some(rest) = behind(text, b" unreadable\n") {
        return Some((Reason::Unreadable, rest));
    }
    if let Some(rest) = behind(text, b" id\n") {
        return Some((Reason::Id, rest));
    }
    if let Some(rest) = behind(text, b" hint\n") {
        return Some((Reason::Hint, rest));
    }
    if let Some(rest) = behind(text, b" unit\n") {
        return Some((Reason::Unit, rest));
    }
    if let Some(rest) = behind(text, b" empty\n") {
        return Some((Reason::Empty, rest));
    }
    if let Some(rest) = behind(text, b" group\n") {
        return Some((Reason::Group, rest));
    }
    if let Some(rest) = behind(text, b" candidate\n") {
        return Some((Reason::Candidate, rest));
    }
    let Some(rest) = behind(text, b" end\n") else {
        return None;
    };
    Some((Reason::End, rest))
}

/// The mark with whose status a line goes on and ends, and what stands behind the line.
pub(crate) fn status_at_front(text: &[u8]) -> Option<(Mark, &[u8])>
    ensures { (mark : Mark) (rest : List ℕ) → HasSmallStep mark
        → text.now ≡ status_fields mark ++ 10 ∷ rest
        → IsSomeAnd result (λ read. (read.0 ≡ mark) × (read.1.now ≡ rest)) }
{
    if let Some(rest) = behind(text, b" open\n") {
        return Some((Mark::Open, rest));
    }
    if let Some(rest) = behind(text, b" refuted\n") {
        return Some((Mark::Refuted, rest));
    }
    let Some(digits) = behind(text, b" rejected ") else {
        return None;
    };
    let (step, field) = number_at_front(digits);
    let Some((reason, rest)) = reason_at_front(field) else {
        return None;
    };
    Some((Mark::Rejected { step, reason }, rest))
}
