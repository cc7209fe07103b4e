//! From the bytes of a bundle to its report.

ghost use Rattle.std.specs.Prelude.{◌≡◌, ◌≢◌, true, false, [], IfOk, IfErr};
ghost use Rattle.cube_report.specs.Correct.{IsCorrect, IsFaultOn, IsUnsatisfiable};
ghost use Rattle.cube_report.specs.Faults.{IsInputFault};
ghost use Rattle.cube_report.specs.Stated.{IsStated};

use crate::boards::boards_of;
use case_core::{Case, read_bundle};
use check_crew::CrewFault;
use cube_report::{Fault, report_of};
use std::alloc::Global;
use std::sync::Wait;
use std::thread::Threads;

/// The depth at which the tree is cut into parts with boards of their own.
const CUT: u32 = 3;

/// A report, and whether it says refuted.
#[derive(Drop)]
pub struct Outcome {
    pub text: Vec<u8>,
    pub refuted: bool,
}

/// The report on a bundle, and whether it says refuted, or the bundle's first fault; `Memory` or
/// `Thread` may stand in the place of any other answer.
pub fn outcome_of<R: Threads + Wait + Sync>(
    rt: &R,
    alloc: Global,
    bundle: &[u8],
) -> Result<Outcome, Fault>
    // The report and the answer are the definition's, of the case that the bundle stands for.
    ensures correct { IfOk result (λ outcome.
        IsCorrect bundle.now outcome.text.items outcome.refuted) }
    // It says refuted only where the formula has no model.
    ensures sound { IfOk result (λ outcome. outcome.refuted ≡ true → IsUnsatisfiable bundle.now) }
    // Another bundle is refused for its first fault.
    ensures fault { IfErr result (λ fault. IsInputFault fault → IsFaultOn bundle.now fault) }
    ensures device { IfErr result (λ fault. fault ≢ Fault.Device) }
{
    let case = read_bundle(alloc, bundle)?;
    Ok(outcome_on(rt, alloc, &case)?)
}

/// The report on a case, and whether it says refuted. The boards' marks are those of the findings,
/// so what is read off them is what the definitions say of the case. No picture is drawn.
fn outcome_on<R: Threads + Wait + Sync>(
    rt: &R,
    alloc: Global,
    case: &Case,
) -> Result<Outcome, CrewFault>
    ensures { IfOk result (λ outcome. IsStated case.now false
        outcome.text.items [] outcome.refuted) }
{
    let boards = boards_of(rt, alloc, case, CUT)?;
    let text = report_of(alloc, &boards)?;
    Ok(Outcome {
        text,
        refuted: boards.root_marked(),
    })
}
