//! The loop over the steps of a proof.
ghost use Rattle.std.specs.Prelude.{◌≡◌, [], false, IfOk};
ghost use Rattle.lrat_text.specs.StepWords.{proof_with};
ghost use Rattle.hint_check.specs.Live.{holds_empty_clause};
ghost use Rattle.hint_check.specs.Inner.Steps.{NextIs, IsHalt, judged_in};

use crate::apply::{Applied, apply_step};
use crate::live::LiveClauses;
use crate::scratch::Scratch;
use crate::{Judged, Reason};
use lrat_text::{OpenFault, OpenSteps, StepBuffer, StepKind, StepWords};
use std::alloc::{AllocError, Global};

/// What comes next in a proof that may go on.
#[derive(Clone, Copy)]
enum Next {
    /// A step of this kind.
    Step(StepKind),
    /// Nothing but blanks and comments.
    Blank,
    /// The front of a step.
    Front,
    /// What is no step, whatever follows.
    Unreadable,
}

/// Reads the next step into the buffer.
fn next_step<W: StepWords>(
    steps: &mut OpenSteps<W>,
    buffer: &mut StepBuffer,
) -> Result<Next, AllocError>
    ensures next { IfOk result (λ next. NextIs next buffer.new steps.old steps.new) }
    ensures cut { steps.new.cut ≡ steps.old.cut }
{
    match steps.next_into(buffer) {
        Ok(Some(kind)) => Ok(Next::Step(kind)),
        Ok(None) => Ok(Next::Blank),
        Err(OpenFault::Unreadable) => Ok(Next::Unreadable),
        Err(OpenFault::Unfinished) => Ok(Next::Front),
        Err(OpenFault::Memory) => Err(AllocError),
    }
}

/// Why a judgement stops at the end of a proof that may go on.
#[derive(Clone, Copy)]
pub(crate) enum Halt {
    /// This is said, whatever follows.
    Decided(Judged),
    /// Nothing but blanks and comments is left.
    Blank,
    /// The front of a step is left.
    Front,
}

/// The judgement of the steps that are left, where no more follow, from these live clauses; the
/// first of them has this number.
pub(crate) fn judge_to_end<W: StepWords>(
    alloc: Global,
    live: &mut LiveClauses,
    scratch: &mut Scratch,
    steps: &mut OpenSteps<W>,
    first: u64,
) -> Result<Judged, AllocError>
    requires { holds_empty_clause live.old.0 ≡ false }
    ensures judgement { IfOk result
        (λ judged. judged ≡ judged_in live.old.0 first (proof_with steps.old [])) }
    ensures base { live.new.1 ≡ live.old.1 }
{
    let (halt, step) = judge_steps(alloc, live, scratch, steps, first)?;
    match halt {
        Halt::Decided(judged) => Ok(judged),
        Halt::Blank => Ok(Judged::Rejected {
            step,
            reason: Reason::End,
        }),
        Halt::Front => Ok(Judged::Rejected {
            step,
            reason: Reason::Unreadable,
        }),
    }
}

/// Applies the steps that are left, the first of which has this number, to these live clauses,
/// until something is decided; answers why it stops, and the number of the step that comes next.
pub(crate) fn judge_steps<W: StepWords>(
    alloc: Global,
    live: &mut LiveClauses,
    scratch: &mut Scratch,
    steps: &mut OpenSteps<W>,
    first: u64,
) -> Result<(Halt, u64), AllocError>
    requires { holds_empty_clause live.old.0 ≡ false }
    ensures halt { IfOk result (λ found.
        IsHalt found.0 live.old.0 first steps.old live.new.0 found.1 steps.new) }
    ensures base { live.new.1 ≡ live.old.1 }
    ensures cut { steps.new.cut ≡ steps.old.cut }
{
    let Scratch {
        step,
        reached,
        candidates,
    } = scratch;
    let mut number = first;
    loop {
        let kind = match next_step(steps, step)? {
            Next::Step(kind) => kind,
            Next::Blank => return Ok((Halt::Blank, number)),
            Next::Front => return Ok((Halt::Front, number)),
            Next::Unreadable => {
                let judged = Judged::Rejected {
                    step: number,
                    reason: Reason::Unreadable,
                };
                return Ok((Halt::Decided(judged), number));
            }
        };
        match apply_step(alloc, live, reached, candidates, kind, step)? {
            Applied::GoesOn => {}
            Applied::Ends => return Ok((Halt::Decided(Judged::Refuted), number)),
            Applied::Fails(reason) => {
                let judged = Judged::Rejected {
                    step: number,
                    reason,
                };
                return Ok((Halt::Decided(judged), number));
            }
        }
        let Some(next) = number.checked_add(1) else {
            return Err(AllocError);
        };
        number = next;
    }
}
