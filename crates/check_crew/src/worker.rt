//! What one worker does.

ghost use Rattle.std.specs.Prelude.{◌≡◌, ◌<◌, ◌∷◌, [], None, length, true, false, All, IsTrue};
ghost use Rattle.std.specs.Prelude.{IfOk, IfErr, OnOk};
ghost use Rattle.byte_flow.specs.Device.{IsDeviceFault};
ghost use Rattle.case_core.specs.FindingOf.{finding_of};
ghost use Rattle.case_core.specs.Finding.{HasSection, IsFinding, target_of};
ghost use Rattle.case_core.specs.Leaves.{IsTargetAt};
ghost use Rattle.cube_jobs.specs.Jobs as queue;
ghost use Rattle.cube_jobs.specs.Jobs.{new_pass};
ghost use Rattle.board_hall.specs.Halls.{core_of, shared_of, view_of, IsPassOf, IsNewPass};
ghost use Rattle.board_hall.specs.Clauses.{Stays, PostsNothing, IsOfSection};
ghost use Rattle.check_crew.specs.Examined.{IsExamined};
ghost use Rattle.check_crew.specs.Seen.{HasSeenMark, HasSeenSection};
ghost use Rattle.check_crew.specs.Inner.Crew.{IsReady, IsJobOf, IsShiftOf, HasTaken, HasSeenTurn};

use crate::fault::CrewFault;
use crate::gate::Gate;
use crate::site::{Site, post_found};
use crate::targets::{ExaminedTarget, end_targets, examine_targets};
use board_hall::Pass;
use byte_flow::DeviceFault;
use case_core::{Examiner, ReadFinding, Target};
use cube_jobs::{JobPass, Jobs};
use proof_folder::TargetProofs;
use std::alloc::{AllocError, Global};
use std::sync::Wait;
use std::sync::atomic::AtomicU64;

/// What a worker begins with: what all share, its number, its passes, and what it reads proofs of
/// targets by.
#[derive(Drop)]
pub(crate) struct Job<'a, R, G, P> {
    pub(crate) turns: Turns<'a, R, G>,
    pub(crate) worker: u32,
    pub(crate) pass: Pass,
    pub(crate) job_pass: JobPass,
    pub(crate) proofs: P,
}

/// What it hands back when it ends: what it began with, what became of the targets that it took,
/// and the fault that stopped it, if one did.
#[derive(Drop)]
pub(crate) struct Shift<P> {
    pub(crate) pass: Pass,
    pub(crate) job_pass: JobPass,
    pub(crate) proofs: P,
    pub(crate) examined: Vec<ExaminedTarget>,
    pub(crate) fault: Option<DeviceFault>,
}

/// A site, and what workers take turns by: the queue, whose jobs are turns, and for each turn the
/// place of its section; the targets in the order of their turns, and how many of these have been
/// taken.
pub(crate) struct Turns<'a, R, G> {
    pub(crate) site: Site<'a, 'a, R, G>,
    pub(crate) jobs: &'a Jobs,
    pub(crate) order: &'a [usize],
    pub(crate) targets: &'a [Target],
    pub(crate) next: &'a AtomicU64,
}

// A derive would ask that `R` and `G` are `Copy`, too.
impl<'a, R, G> Clone for Turns<'a, R, G> {
    fn clone(&self) -> Result<Self, AllocError> {
        Ok(*self)
    }
}

impl<'a, R, G> Copy for Turns<'a, R, G> {}

/// Examines the section at a place, posts what is found, and then the part that is owed, if any.
/// `AllocError` where a growth was refused, and then nothing is posted.
fn take_turn<R: Wait, G: Gate>(
    site: Site<'_, '_, R, G>,
    worker: u32,
    examiner: &mut Examiner<'_>,
    pass: &mut Pass,
    place: usize,
) -> Result<(), AllocError>
    requires case { site.case.now ≡ (core_of site.core.now).case }
    requires place { place < length site.case.now.sections }
    requires examiner { examiner.old ≡ site.case.now }
    requires own { IsPassOf (shared_of site.core.now) pass.old }
    requires free { (view_of pass.old).owes ≡ None }
    ensures same { examiner.new ≡ examiner.old }
    ensures own { IsPassOf (shared_of site.entry.core.now) pass.new }
    ensures free { (view_of pass.new).owes ≡ None }
    ensures stays { Stays (view_of pass.old) (view_of pass.new) }
    ensures seen { OnOk result (HasSeenSection (view_of pass.new) place) }
{
    let target = site.case.sections()[place].target;
    let announced = target;
    site.gate.before(worker, announced);
    let Some(finding) = examiner.examine(site.alloc, target)? else {
        unreachable!()
    };
    let length = site.case.proof_at(place).len();
    post_found(site, worker, pass, ReadFinding { finding, length });
    Ok(())
}

/// Does a worker's part of the sections, and then its part of the targets.
pub(crate) fn work<R: Wait, G: Gate, P: TargetProofs>(job: Job<'_, R, G, P>) -> Shift<P>
    requires { IsJobOf P.failures job }
    ensures { IsShiftOf job.entry.turns (P.held job.entry.proofs) P.failures result }
{
    let Job {
        turns,
        worker,
        mut pass,
        mut job_pass,
        mut proofs,
    } = job;
    let mut examined = Vec::new(turns.site.alloc);
    let fault = match take_both(
        turns,
        worker,
        &mut pass,
        &mut job_pass,
        &mut proofs,
        &mut examined,
    ) {
        Ok(()) => None,
        Err(fault) => Some(fault),
    };
    Shift {
        pass,
        job_pass,
        proofs,
        examined,
        fault,
    }
}

/// The same, but for a fault: not all others could be started. Then it does nothing, and nobody
/// takes a target any more.
pub(crate) fn work_or_leave<R: Wait, G: Gate, P: TargetProofs + Drop>(
    job: Job<'_, R, G, P>,
    fault: Option<CrewFault>,
) -> Result<Shift<P>, CrewFault>
    requires { IsJobOf P.failures job }
    ensures { IfOk result
        (IsShiftOf job.entry.turns (P.held job.entry.proofs) P.failures) }
{
    match fault {
        Some(fault) => {
            end_targets(job.turns);
            Err(fault)
        }
        None => Ok(work(job)),
    }
}

/// Takes turns of sections until none is left, and then turns of targets. Where memory is refused
/// over sections, nobody takes another target.
fn take_both<R: Wait, G: Gate, P: TargetProofs>(
    turns: Turns<'_, R, G>,
    worker: u32,
    pass: &mut Pass,
    job_pass: &mut JobPass,
    proofs: &mut P,
    examined: &mut Vec<ExaminedTarget>,
) -> Result<(), DeviceFault>
    requires ready { IsReady turns }
    requires pass { IsNewPass (shared_of turns.site.core.now) pass.old }
    requires job_pass { job_pass.old ≡ new_pass turns.jobs.now }
    requires fresh { P.failures proofs.old ≡ 0 }
    requires none { examined.old.items ≡ [] }
    ensures taken { HasTaken turns.entry pass.new job_pass.new result }
    ensures examined { OnOk result (All (λ one. IsExamined (P.held proofs.old one.target)
        (view_of pass.new) one.target one.examined) examined.new.items) }
    ensures ok { OnOk result (P.failures proofs.new ≡ 0) }
    ensures err { IfErr result (λ fault. IsDeviceFault 0 (P.failures proofs.new) fault) }
{
    match take_all(turns, worker, pass, job_pass) {
        Ok(()) => examine_targets(turns, worker, proofs, pass, examined),
        Err(fault) => {
            end_targets(turns);
            Err(DeviceFault::from(fault))
        }
    }
}

/// Claims turns, examines their sections by one examiner and posts what is found, until no turn is
/// left. `AllocError` where a growth was refused. The examiner, which holds the formula once more,
/// is made when a first turn has been claimed: a worker that finds none costs nothing.
fn take_all<R: Wait, G: Gate>(
    turns: Turns<'_, R, G>,
    worker: u32,
    pass: &mut Pass,
    job_pass: &mut JobPass,
) -> Result<(), AllocError>
    requires ready { IsReady turns }
    requires pass { IsNewPass (shared_of turns.site.core.now) pass.old }
    requires job_pass { job_pass.old ≡ new_pass turns.jobs.now }
    ensures { HasTaken turns.entry pass.new job_pass.new result }
{
    let Some(turn) = turns.jobs.claim(turns.site.rt, job_pass) else {
        return Ok(());
    };
    let mut examiner = Examiner::over(turns.site.alloc, turns.site.case)?;
    take_from(turns, worker, &mut examiner, pass, job_pass, turn)
}

/// Examines the section of the first turn, which has been claimed, and then claims turns as
/// `take_turns` does.
fn take_from<R: Wait, G: Gate>(
    turns: Turns<'_, R, G>,
    worker: u32,
    examiner: &mut Examiner<'_>,
    pass: &mut Pass,
    job_pass: &mut JobPass,
    turn: usize,
) -> Result<(), AllocError>
    requires ready { IsReady turns }
    requires examiner { examiner.old ≡ turns.site.case.now }
    requires pass { IsNewPass (shared_of turns.site.core.now) pass.old }
    requires jobs { queue.IsJobPassOf turns.jobs.now job_pass.old }
    requires turn { turn < length turns.order.now }
    requires claimed { job_pass.old.claims ≡ turn ∷ [] }
    ensures { HasTaken turns.entry pass.new job_pass.new result }
{
    let place = turns.order[turn];
    take_turn(turns.site, worker, examiner, pass, place)?;
    take_turns(turns, worker, examiner, pass, job_pass)
}

/// Claims a turn and examines its section; answers whether one was left. `AllocError` where a
/// growth was refused.
fn claim_turn<R: Wait, G: Gate>(
    turns: Turns<'_, R, G>,
    worker: u32,
    examiner: &mut Examiner<'_>,
    pass: &mut Pass,
    job_pass: &mut JobPass,
) -> Result<bool, AllocError>
    requires ready { IsReady turns }
    requires examiner { examiner.old ≡ turns.site.case.now }
    requires own { IsPassOf (shared_of turns.site.core.now) pass.old }
    requires free { (view_of pass.old).owes ≡ None }
    requires jobs { queue.IsJobPassOf turns.jobs.now job_pass.old }
    requires seen { All (HasSeenTurn turns.order.now (view_of pass.old)) job_pass.old.claims }
    ensures same { examiner.new ≡ examiner.old }
    ensures own { IsPassOf (shared_of turns.entry.site.core.now) pass.new }
    ensures free { (view_of pass.new).owes ≡ None }
    ensures jobs { queue.IsJobPassOf turns.entry.jobs.now job_pass.new }
    ensures seen { OnOk result
        (All (HasSeenTurn turns.entry.order.now (view_of pass.new)) job_pass.new.claims) }
    ensures empty { IfOk result (λ taken. taken ≡ false → job_pass.new.found_empty ≡ true) }
{
    let Some(turn) = turns.jobs.claim(turns.site.rt, job_pass) else {
        return Ok(false);
    };
    let place = turns.order[turn];
    take_turn(turns.site, worker, examiner, pass, place)?;
    Ok(true)
}

/// Claims turns until none is left, by an examiner and on passes that are lent. `AllocError` where
/// a growth was refused.
fn take_turns<R: Wait, G: Gate>(
    turns: Turns<'_, R, G>,
    worker: u32,
    examiner: &mut Examiner<'_>,
    pass: &mut Pass,
    job_pass: &mut JobPass,
) -> Result<(), AllocError>
    requires ready { IsReady turns }
    requires examiner { examiner.old ≡ turns.site.case.now }
    requires own { IsPassOf (shared_of turns.site.core.now) pass.old }
    requires free { (view_of pass.old).owes ≡ None }
    requires jobs { queue.IsJobPassOf turns.jobs.now job_pass.old }
    requires seen { All (HasSeenTurn turns.order.now (view_of pass.old)) job_pass.old.claims }
    ensures { HasTaken turns.entry pass.new job_pass.new result }
{
    for _ in turns.site.rt.forever() {
        if !claim_turn(turns, worker, examiner, pass, job_pass)? {
            return Ok(());
        }
    }
    unreachable!()
}
