//! In which order a run examines the sections of a case.

ghost use Rattle.std.specs.Prelude.{IfOk, length};
ghost use Rattle.check_crew.specs.Inner.Order.{IsOrder};

use case_core::Case;
use std::alloc::{AllocError, Global};
use std::cmp::Reverse;

/// How long the proof of the section at a place is, or 0 behind the last.
fn proof_length(case: &Case, place: usize) -> usize {
    if place < case.sections().len() {
        case.proof_at(place).len()
    } else {
        0
    }
}

/// The places of a case's sections, those of longer proofs first and ties in the order of the
/// text: so no worker begins a long proof when the others are nearly done. `AllocError` where a
/// growth was refused.
///
/// No contract speaks of lengths: the queue knows turns alone, and of an order it is asked only
/// that it has the place of each section, and no other.
pub(crate) fn long_proofs_first(alloc: Global, case: &Case) -> Result<Vec<usize>, AllocError>
    ensures { IfOk result (λ order. IsOrder (length case.now.sections) order.items) }
{
    let count = case.sections().len();
    let mut order: Vec<usize> = (0..count).collect(alloc)?;
    order.sort_by_key(|place| Reverse(proof_length(case, *place)))?;
    Ok(order)
}
