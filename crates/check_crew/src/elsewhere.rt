//! A run over proofs that lie elsewhere: each worker judges one while it reads it.

ghost use Rattle.std.specs.Prelude.{◌≡◌, ◌<◌, ℕ, All, IfOk, IfErr, IfSome, length, vec_len};
ghost use Rattle.case_core.specs.SplitTree.{size};
ghost use Rattle.case_core.specs.Target.{Target};
ghost use Rattle.proof_folder.specs.Given.{AreFoundApart};
ghost use Rattle.proof_folder.specs.TargetProofs.{Known};
ghost use Rattle.check_crew.specs.Inner.Apart.{AreAbsent, IsListOf, IsRightAt};
ghost use Rattle.check_crew.specs.Inner.Crew.{IsRunFault};

use crate::compare::has_right_marks;
use crate::crew::{Opened, run};
use crate::fault::{CrewFault, RunFault};
use crate::gate::Gate;
use crate::target_order::{TargetOrder, targets_in_order};
use crate::targets::ExaminedTarget;
use board_hall::Hall;
use case_core::Case;
use mark_board::Boards;
use proof_folder::TargetProofs;
use run_terms::Settings;
use std::alloc::{AllocError, Global};
use std::sync::Wait;
use std::thread::Threads;

/// The boards of `case` at the cut of `settings` with the findings of its sections, as `conquer`
/// makes them, and of its targets by proofs that lie elsewhere. Each worker has one of `proofs`, by
/// which it opens the proof of a target when the target's turn comes, and judges it while it reads;
/// the targets of longer proofs come first. All of `proofs` tell of the same proofs, and there is
/// one for each worker. A worker takes targets when no section of the case is left to take.
///
/// `None` where the run has to be made with all proofs in one bundle: where the proof of a target
/// has a label line, or the target has a section, too. The gate is called as `conquer` says, beside
/// each section and beside each proof that is there.
///
/// An outer fault says that a read failed, and gives what met that; it stands before each other
/// answer. All workers that were started are joined before it answers. Where the start of one was
/// refused, or memory over sections, nobody takes another target.
pub fn conquer_elsewhere<
    'c,
    R: Threads + Wait + Sync,
    G: Gate + Sync,
    P: TargetProofs + Send + Drop,
>(
    rt: &R,
    alloc: Global,
    case: &'c Case,
    settings: Settings,
    gate: &G,
    proofs: Vec<P>,
) -> Result<Result<Option<Boards<'c>>, CrewFault>, P>
    // One for each worker, with no failed read yet.
    requires workers { vec_len proofs ≡ settings.workers }
    requires fresh { All (λ one. P.failures one ≡ 0) proofs.items }
    // Where they know what lies there, the marks are those of the sections' findings, and of each
    // target by what lies there for it.
    ensures apart { (known : Known)
        → All (λ one. (target : Target) → P.held one target ≡ known target) proofs.items
        → IfOk result (λ run. IfOk run (λ some. IfSome some (λ boards.
        (boards.case ≡ case.now) × (boards.cut ≡ settings.cut)
        × AreFoundApart known case.now boards.marks))) }
    // What comes back has met a failed read.
    ensures failed { IfErr result (λ one. P.failures one ≡ 1) }
{
    match run_apart(rt, alloc, case, settings, gate, proofs) {
        Ok(boards) => Ok(Ok(boards)),
        Err(RunFault::Crew(fault)) => Ok(Err(fault)),
        Err(RunFault::Read(one)) => Err(one),
    }
}

/// What `conquer_elsewhere` answers, with its two faults in one.
fn run_apart<'c, R: Threads + Wait + Sync, G: Gate + Sync, P: TargetProofs + Send + Drop>(
    rt: &R,
    alloc: Global,
    case: &'c Case,
    settings: Settings,
    gate: &G,
    proofs: Vec<P>,
) -> Result<Option<Boards<'c>>, RunFault<P>>
    requires workers { vec_len proofs ≡ settings.workers }
    requires fresh { All (λ one. P.failures one ≡ 0) proofs.items }
    ensures apart { (known : Known)
        → All (λ one. (target : Target) → P.held one target ≡ known target) proofs.items
        → IfOk result (λ some. IfSome some (λ boards.
        (boards.case ≡ case.now) × (boards.cut ≡ settings.cut)
        × AreFoundApart known case.now boards.marks)) }
    ensures failed { IfErr result (IsRunFault P.failures) }
{
    let workers = settings.workers() as usize;
    let (hall, passes) = Hall::open_for_proofs_elsewhere(alloc, case, settings.cut(), workers)?;
    let TargetOrder {
        targets,
        elsewhere,
        absent,
    } = targets_in_order(alloc, case, &proofs[0])?;
    let opened = Opened {
        hall,
        passes,
        targets,
        elsewhere,
    };
    let (boards, lists) = run(rt, alloc, settings.cut(), gate, opened, proofs)?;
    Ok(right_alone(alloc, boards, &lists, &absent)?)
}

/// Boards where each target has the mark of what became of it, by these lists and by what is noted
/// of inner nodes, and no others.
fn right_alone<'c>(
    alloc: Global,
    boards: Boards<'c>,
    lists: &[Vec<ExaminedTarget>],
    absent: &[bool],
) -> Result<Option<Boards<'c>>, AllocError>
    requires { length absent.now ≡ size boards.case.tree }
    ensures same { IfOk result (λ some. IfSome some (λ kept. kept ≡ boards.entry)) }
    ensures right { IfOk result (λ some. IfSome some (λ kept. (known : Known)
        → All (λ list. IsListOf known boards.entry.case list.items) lists.now
        → AreAbsent known absent.now → (node : ℕ) → node < size boards.entry.case.tree
        → IsRightAt known boards.entry.case boards.entry.marks node)) }
{
    if has_right_marks(alloc, &boards, lists, absent)? {
        Ok(Some(boards))
    } else {
        Ok(None)
    }
}
