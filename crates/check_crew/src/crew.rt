//! A run: the calling thread is a worker, and each other worker has a thread of its own.

ghost use Rattle.std.specs.Prelude.{◌≡◌, ◌+◌, ◌<◌, ◌≤◌, ◌≢◌, ◌++◌, ◌∷◌, [], None, Some, All};
ghost use Rattle.std.specs.Prelude.{length, IfOk, IfErr, OnOk, MatchOption, vec_len, vec_capacity};
ghost use Rattle.byte_flow.specs.Device.{IsDeviceFault};
ghost use Rattle.case_core.specs.Target.{Target};
ghost use Rattle.cube_jobs.specs.Jobs.{new_pass};
ghost use Rattle.board_hall.specs.Halls.{core_of, hall_of, shared_of, view_of, IsPassOf, IsNewPass};
ghost use Rattle.board_hall.specs.declared.view.Proofs.TheVariants.{Elsewhere as AnyElsewhere};
ghost use Rattle.mark_board.specs.Findings.{AreFindings};
ghost use Rattle.proof_folder.specs.TargetProofs.{Known};
ghost use Rattle.check_crew.specs.Seen.{HaveSeenSections};
ghost use Rattle.check_crew.specs.Inner.Apart.{IsListOf};
ghost use Rattle.check_crew.specs.Inner.Crew.{IsReady, IsDealtBy, IsHandedBy, IsJobOf, IsShiftOf};
ghost use Rattle.check_crew.specs.Inner.Crew.{IsHandedIn, IsRunFault, AreClosed};

use crate::fault::{CrewFault, RunFault};
use crate::gate::{Elsewhere, Gate};
use crate::no_proofs::NoProofs;
use crate::order::long_proofs_first;
use crate::site::Site;
use crate::targets::ExaminedTarget;
use crate::threads::work_beside;
use crate::worker::{Job, Shift, Turns, work, work_or_leave};
use board_hall::{Hall, Pass};
use byte_flow::DeviceFault;
use case_core::{Case, Target};
use cube_jobs::{JobPass, Jobs};
use mark_board::Boards;
use proof_folder::TargetProofs;
use run_terms::Settings;
use std::alloc::{AllocError, Global};
use std::snapshot::Snapshot;
use std::sync::Wait;
use std::sync::atomic::AtomicU64;
use std::thread::{Promise, Threads};

/// Turns, and what workers read proofs of targets by, as it was before they began. As a
/// promise it says what each of them hands back.
struct Crew<'a, R, G, P> {
    turns: Turns<'a, R, G>,
    readers: &'a Snapshot<Vec<P>>,
}

// A derive would ask that `R`, `G` and `P` are `Copy`, too.
impl<'a, R, G, P> Clone for Crew<'a, R, G, P> {
    fn clone(&self) -> Result<Self, AllocError> {
        Ok(*self)
    }
}

impl<'a, R, G, P> Copy for Crew<'a, R, G, P> {}

impl<'a, R, G, P: TargetProofs> Promise<Shift<P>> for Crew<'a, R, G, P> {
    ghost use Rattle.check_crew.specs.Inner.Crew.{IsHandedBy};

    ghost kept_by = { λ crew shift. IsHandedBy crew P.held P.failures shift };
}

/// The boards of `case` at the cut of `settings` with the findings of all its sections, by as many
/// workers as `settings` says. The calling thread is worker 0, and each other worker has a thread
/// of its own. Workers take the sections of longer proofs first. `gate` is called before the first
/// of them starts, by each of them before it examines a section and after what it found was posted,
/// and when all are joined.
///
/// All workers that were started are joined before it answers. `Thread` where the start of one was
/// refused, whatever else happened, and otherwise `Memory` where a growth was refused: a worker
/// that meets that stops, and the others go on until no section is left. A fault hands nothing out.
pub fn conquer<'c, R: Threads + Wait + Sync, G: Gate + Sync>(
    rt: &R,
    alloc: Global,
    case: &'c Case,
    settings: Settings,
    gate: &G,
) -> Result<Boards<'c>, CrewFault>
    ensures case { IfOk result (λ boards. (boards.case ≡ case.now) × (boards.cut ≡ settings.cut)) }
    ensures findings { IfOk result (λ boards. AreFindings case.now boards.marks) }
{
    let workers = settings.workers() as usize;
    let (hall, passes) = Hall::open(alloc, case, settings.cut(), workers)?;
    let proofs = vec![in alloc; NoProofs; workers]?;
    let opened = Opened {
        hall,
        passes,
        targets: Vec::new(alloc),
        elsewhere: Elsewhere {
            proofs: 0,
            bytes: 0,
        },
    };
    match run(rt, alloc, settings.cut(), gate, opened, proofs) {
        Ok((boards, _)) => Ok(boards),
        Err(RunFault::Crew(fault)) => Err(fault),
        Err(RunFault::Read(_)) => unreachable!(),
    }
}

/// A hall before its workers begin: their passes, the targets whose proofs lie elsewhere in their
/// order, and what is known of all these proofs.
#[derive(Drop)]
pub(crate) struct Opened<'c> {
    pub(crate) hall: Hall<'c>,
    pub(crate) passes: Vec<Pass>,
    pub(crate) targets: Vec<Target>,
    pub(crate) elsewhere: Elsewhere,
}

/// Has a worker for each of `proofs`, which examine the sections of the case and then the targets
/// in their order, between the gate's start and its end, and closes the hall. Answers its boards,
/// and a list of targets of each worker.
pub(crate) fn run<'c, R: Threads + Wait + Sync, G: Gate + Sync, P: TargetProofs + Send + Drop>(
    rt: &R,
    alloc: Global,
    cut: u32,
    gate: &G,
    opened: Opened<'c>,
    proofs: Vec<P>,
) -> Result<(Boards<'c>, Vec<Vec<ExaminedTarget>>), RunFault<P>>
    requires cut { cut ≤ 6 }
    requires elsewhere { 0 < vec_len opened.targets
        → (hall_of opened.hall).of.proofs ≡ AnyElsewhere }
    requires count { (0 < vec_len proofs) × (vec_len proofs ≤ 32) }
    requires passes { (vec_len opened.passes ≡ vec_len proofs)
        × ((hall_of opened.hall).passes ≡ vec_len proofs) }
    requires new { All (IsNewPass (hall_of opened.hall)) opened.passes.items }
    requires fresh { All (λ one. P.failures one ≡ 0) proofs.items }
    ensures closed { IfOk result (λ run. AreClosed (hall_of opened.entry.hall) run.0) }
    ensures lists { (known : Known)
        → All (λ one. (target : Target) → P.held one target ≡ known target) proofs.items
        → IfOk result (λ run. All (λ list.
        IsListOf known (hall_of opened.entry.hall).of.case list.items) run.1.items) }
    ensures failed { IfErr result (IsRunFault P.failures) }
{
    let Opened {
        hall,
        passes,
        targets,
        elsewhere,
    } = opened;
    let site = Site {
        rt,
        alloc,
        case: hall.case(),
        core: hall.core(),
        gate,
    };
    gate.start(alloc, site.case, cut, elsewhere)?;
    let examined = examine_all(site, &targets, passes, proofs);
    gate.end();
    let (passes, lists) = examined?;
    match hall.close(passes) {
        Ok(boards) => Ok((boards, lists)),
        Err(_) => unreachable!(),
    }
}

/// Has a worker for each of `proofs`, which claim the sections of the case, examine them and post
/// what they find, and then take the targets in turn. The passes that come back owe nothing, and
/// what was found of each section is among what one of them has seen; beside them there is a list
/// of targets of each worker.
fn examine_all<R: Threads + Wait + Sync, G: Gate + Sync, P: TargetProofs + Send + Drop>(
    site: Site<'_, '_, R, G>,
    targets: &[Target],
    passes: Vec<Pass>,
    proofs: Vec<P>,
) -> Result<(Vec<Pass>, Vec<Vec<ExaminedTarget>>), RunFault<P>>
    requires case { site.case.now ≡ (core_of site.core.now).case }
    requires elsewhere { 0 < length targets.now → (core_of site.core.now).proofs ≡ AnyElsewhere }
    requires count { (0 < vec_len proofs) × (vec_len proofs ≤ 32) }
    requires pairs { vec_len passes ≡ vec_len proofs }
    requires new { All (IsNewPass (shared_of site.core.now)) passes.items }
    requires fresh { All (λ one. P.failures one ≡ 0) proofs.items }
    ensures count { IfOk result (λ handed. vec_len handed.0 ≡ vec_len proofs) }
    ensures own { IfOk result
        (λ handed. All (IsPassOf (shared_of site.entry.core.now)) handed.0.items) }
    ensures free { IfOk result
        (λ handed. All (λ pass. (view_of pass).owes ≡ None) handed.0.items) }
    ensures seen { IfOk result (λ handed. HaveSeenSections site.entry.case.now handed.0.items) }
    ensures lists { (known : Known)
        → All (λ one. (target : Target) → P.held one target ≡ known target) proofs.items
        → IfOk result (λ handed.
        All (λ list. IsListOf known site.entry.case.now list.items) handed.1.items) }
    ensures failed { IfErr result (IsRunFault P.failures) }
{
    let order = long_proofs_first(site.alloc, site.case)?;
    let (jobs, job_passes) = Jobs::fill(site.rt, site.alloc, site.case, passes.len())?;
    let next = AtomicU64::new(0);
    let turns = Turns {
        site,
        jobs: &jobs,
        order: &order,
        targets,
        next: &next,
    };
    let handed = run_crew(turns, passes, job_passes, proofs)?;
    if !jobs.finish(site.rt, handed.job_passes) {
        unreachable!()
    }
    Ok((handed.passes, handed.lists))
}

/// What the workers of a crew hand back together: the passes of the hall and those of the queue,
/// and a list of targets of each.
#[derive(Drop)]
struct Handed {
    passes: Vec<Pass>,
    job_passes: Vec<JobPass>,
    lists: Vec<Vec<ExaminedTarget>>,
}

impl Handed {
    /// Adds what one more worker hands back. `AllocError` where a fault stopped it, or a growth is
    /// refused now.
    fn add<P: Drop>(&mut self, shift: Shift<P>) -> Result<(), AllocError>
        ensures fault { OnOk result (shift.fault ≡ None) }
        ensures passes { OnOk result
            (self.new.passes.items ≡ self.old.passes.items ++ (shift.pass ∷ [])) }
        ensures job_passes { OnOk result
            (self.new.job_passes.items ≡ self.old.job_passes.items ++ (shift.job_pass ∷ [])) }
        ensures lists { OnOk result
            (self.new.lists.items ≡ self.old.lists.items ++ (shift.examined ∷ [])) }
        ensures count { OnOk result ((vec_len self.new.passes ≡ vec_len self.old.passes + 1)
            × (vec_len self.new.job_passes ≡ vec_len self.old.job_passes + 1)) }
    {
        let Shift {
            pass,
            job_pass,
            proofs: _,
            examined,
            fault,
        } = shift;
        if fault.is_some() {
            return Err(AllocError);
        }
        self.passes.push(pass)?;
        self.job_passes.push(job_pass)?;
        self.lists.push(examined)?;
        Ok(())
    }
}

/// Has a worker for each of `proofs`, and puts together what they hand back. A failed read stands
/// before a refused start, and that before want of memory.
fn run_crew<R: Threads + Wait + Sync, G: Gate + Sync, P: TargetProofs + Send + Drop>(
    turns: Turns<'_, R, G>,
    passes: Vec<Pass>,
    job_passes: Vec<JobPass>,
    proofs: Vec<P>,
) -> Result<Handed, RunFault<P>>
    requires ready { IsReady turns }
    requires count { (0 < vec_len proofs) × (vec_len proofs ≤ 32) }
    requires pairs { (vec_len passes ≡ vec_len proofs) × (vec_len job_passes ≡ vec_len proofs) }
    requires passes { All (IsNewPass (shared_of turns.site.core.now)) passes.items }
    requires job_passes { All (λ pass. pass ≡ new_pass turns.jobs.now) job_passes.items }
    requires fresh { All (λ one. P.failures one ≡ 0) proofs.items }
    ensures handed { IfOk result
        (IsHandedIn turns.entry P.held proofs.items (vec_len proofs)) }
    ensures failed { IfErr result (IsRunFault P.failures) }
{
    let readers = Snapshot::of(&proofs);
    let crew = Crew {
        turns,
        readers: &readers,
    };
    let count = proofs.len();
    let jobs = deal(crew, passes, job_passes, proofs)?;
    let (own, shifts) = work_all(crew, jobs)?;
    let shifts = all_handed(crew, own, shifts, count)?;
    Ok(hand_in(crew, shifts)?)
}

/// Gives each worker a pass of the hall, one of the queue, and what it reads proofs by. The last
/// one is worker 0.
fn deal<'a, R, G, P: TargetProofs + Drop>(
    crew: Crew<'a, R, G, P>,
    mut passes: Vec<Pass>,
    mut job_passes: Vec<JobPass>,
    proofs: Vec<P>,
) -> Result<Vec<Job<'a, R, G, P>>, AllocError>
    requires ready { IsReady crew.turns }
    requires readers { crew.readers.now.value.items ≡ proofs.items }
    requires few { vec_len proofs ≤ 32 }
    requires pairs { (vec_len passes ≡ vec_len proofs) × (vec_len job_passes ≡ vec_len proofs) }
    requires passes { All (IsNewPass (shared_of crew.turns.site.core.now)) passes.items }
    requires job_passes { All (λ pass. pass ≡ new_pass crew.turns.jobs.now) job_passes.items }
    requires fresh { All (λ one. P.failures one ≡ 0) proofs.items }
    ensures count { IfOk result (λ jobs. vec_len jobs ≡ vec_len proofs) }
    ensures jobs { IfOk result (λ jobs. All (IsDealtBy crew.entry P.failures) jobs.items) }
{
    let mut jobs = Vec::with_capacity(crew.turns.site.alloc, proofs.len())?;
    let mut worker = proofs.len() as u32;
    for one in proofs {
        let Some(pass) = passes.pop() else {
            unreachable!()
        };
        let Some(job_pass) = job_passes.pop() else {
            unreachable!()
        };
        worker -= 1;
        jobs.push_reserved(Job {
            turns: crew.turns,
            worker,
            pass,
            job_pass,
            proofs: one,
        });
    }
    Ok(jobs)
}

/// Has the last job done in the calling thread, and the others in threads of their own. Answers
/// what the calling thread hands back, or why not all others could be started; and what the others
/// do.
fn work_all<'a, R: Threads + Wait + Sync, G: Gate + Sync, P: TargetProofs + Send + Drop>(
    crew: Crew<'a, R, G, P>,
    mut jobs: Vec<Job<'a, R, G, P>>,
) -> Result<(Result<Shift<P>, CrewFault>, Vec<Shift<P>>), AllocError>
    requires count { 0 < vec_len jobs }
    requires jobs { All (IsDealtBy crew P.failures) jobs.items }
    ensures count { IfOk result (λ ran. vec_len ran.1 < vec_len jobs.entry) }
    ensures room { IfOk result (λ ran. vec_len ran.1 < vec_capacity ran.1) }
    ensures own { IfOk result (λ ran. IfOk ran.0 (IsHandedBy crew.entry P.held P.failures)) }
    ensures kept { IfOk result (λ ran.
        All (IsHandedBy crew.entry P.held P.failures) ran.1.items) }
{
    let turns = crew.turns;
    let shifts = Vec::with_capacity(turns.site.alloc, jobs.len())?;
    let Some(job) = jobs.pop() else {
        unreachable!()
    };
    let duty = |job: Job<R, G, P>| -> Shift<P>
        requires { IsJobOf P.failures job }
        ensures { IsShiftOf job.entry.turns (P.held job.entry.proofs) P.failures result }
    { work(job) };
    let own = move |fault: Option<CrewFault>| -> Result<Shift<P>, CrewFault>
        requires { IsJobOf P.failures job }
        ensures { IfOk result (IsShiftOf job.entry.turns (P.held job.entry.proofs) P.failures) }
    { work_or_leave(job, fault) };
    Ok(work_beside(turns.site.rt, crew, &duty, jobs, own, shifts))
}

/// What all of so many workers hand back. A failed read stands before a refused start.
fn all_handed<R, G, P: TargetProofs + Drop>(
    crew: Crew<'_, R, G, P>,
    own: Result<Shift<P>, CrewFault>,
    shifts: Vec<Shift<P>>,
    count: usize,
) -> Result<Vec<Shift<P>>, RunFault<P>>
    requires count { vec_len shifts < count }
    requires room { vec_len shifts < vec_capacity shifts }
    requires own { IfOk own (IsHandedBy crew P.held P.failures) }
    requires kept { All (IsHandedBy crew P.held P.failures) shifts.items }
    ensures count { IfOk result (λ all. vec_len all ≡ count) }
    ensures kept { IfOk result (λ all.
        All (IsHandedBy crew.entry P.held P.failures) all.items) }
    ensures failed { IfErr result (IsRunFault P.failures) }
{
    let (shifts, fault) = with_own(crew, own, shifts);
    let shifts = failed_first(shifts)?;
    if shifts.len() < count {
        return Err(RunFault::Crew(fault));
    }
    Ok(shifts)
}

/// What others hand back with what the calling thread does, and why fewer may have been started.
fn with_own<R, G, P: TargetProofs + Drop>(
    crew: Crew<'_, R, G, P>,
    own: Result<Shift<P>, CrewFault>,
    mut shifts: Vec<Shift<P>>,
) -> (Vec<Shift<P>>, CrewFault)
    requires room { vec_len shifts < vec_capacity shifts }
    requires own { IfOk own (IsHandedBy crew P.held P.failures) }
    requires kept { All (IsHandedBy crew P.held P.failures) shifts.items }
    ensures count { vec_len result.0 ≤ vec_len shifts + 1 }
    ensures kept { All (IsHandedBy crew.entry P.held P.failures) result.0.items }
{
    match own {
        Ok(shift) => {
            shifts.push_reserved(shift);
            (shifts, CrewFault::Thread)
        }
        Err(fault) => (shifts, fault),
    }
}

/// The first of what workers read by that has met a failed read, or else all that they hand back.
fn failed_first<P: TargetProofs + Drop>(
    mut shifts: Vec<Shift<P>>,
) -> Result<Vec<Shift<P>>, RunFault<P>>
    requires { All (λ shift. MatchOption shift.fault (P.failures shift.proofs ≡ 0)
        (IsDeviceFault 0 (P.failures shift.proofs))) shifts.items }
    ensures same { IfOk result (λ kept. kept ≡ shifts) }
    ensures none { IfOk result (λ kept.
        All (λ shift. shift.fault ≢ Some DeviceFault.Device) kept.items) }
    ensures failed { IfErr result (IsRunFault P.failures) }
{
    for place in 0..shifts.len() {
        if let Some(DeviceFault::Device) = shifts[place].fault {
            let Shift { proofs, .. } = shifts.swap_remove(place);
            return Err(RunFault::Read(proofs));
        }
    }
    Ok(shifts)
}

/// Puts together what workers hand back. `AllocError` where a fault stopped one of them, or a
/// growth is refused now.
fn hand_in<R, G, P: TargetProofs + Drop>(
    crew: Crew<'_, R, G, P>,
    shifts: Vec<Shift<P>>,
) -> Result<Handed, AllocError>
    requires ready { IsReady crew.turns }
    requires shifts { All (IsHandedBy crew P.held P.failures) shifts.items }
    ensures { IfOk result (IsHandedIn crew.entry.turns P.held crew.entry.readers.now.value.items
        (vec_len shifts)) }
{
    let mut handed = Handed {
        passes: Vec::new(crew.turns.site.alloc),
        job_passes: Vec::new(crew.turns.site.alloc),
        lists: Vec::new(crew.turns.site.alloc),
    };
    for shift in shifts {
        handed.add(shift)?;
    }
    Ok(handed)
}
