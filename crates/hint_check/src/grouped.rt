//! The ids for which a step has groups of hints.
ghost use Rattle.std.specs.Prelude.{◌≡◌, ◌==◌, IfOk};
ghost use Rattle.std.specs.Option.{IfSome};
ghost use Rattle.hint_check.specs.Inner.Grouped.{Names, has_group};

use crate::in_order::InOrder;
use crate::needed::FEW;
use lrat_text::StepBuffer;
use std::alloc::{AllocError, Global};

/// The candidates of a step's groups, in order, and nothing where the groups or the look-ups are
/// few.
pub fn grouped_ids(
    alloc: Global,
    step: &StepBuffer,
    look_ups: usize,
) -> Result<Option<InOrder>, AllocError>
    ensures { IfOk result (λ ids. IfSome ids (λ ids. Names ids step.now.groups)) }
{
    if step.group_count() <= FEW || look_ups <= FEW {
        return Ok(None);
    }
    Ok(Some(candidates(alloc, step)?))
}

/// The candidates of a step's groups, in order.
fn candidates(alloc: Global, step: &StepBuffer) -> Result<InOrder, AllocError>
    ensures { IfOk result (λ ids. Names ids step.now.groups) }
{
    let mut ids = Vec::new(alloc);
    for place in 0..step.group_count() {
        let (candidate, _) = step.group(place);
        ids.push(candidate)?;
    }
    Ok(InOrder::of(ids))
}

/// Whether a step has a group for an id. The ids in order are the step's candidates.
pub fn has_group(grouped: &Option<InOrder>, step: &StepBuffer, id: u64) -> bool
    requires { IfSome grouped.now (λ ids. Names ids step.now.groups) }
    ensures { result ≡ has_group step.now.groups id }
{
    match grouped {
        Some(ids) => ids.contains(id),
        None => is_among(step, id),
    }
}

fn is_among(step: &StepBuffer, id: u64) -> bool
    ensures { result ≡ has_group step.now.groups id }
{
    for place in 0..step.group_count() {
        let (candidate, _) = step.group(place);
        if candidate == id {
            return true;
        }
    }
    false
}
