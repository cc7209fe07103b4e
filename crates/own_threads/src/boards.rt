//! The boards of a case, by this thread and one that it starts.

ghost use Rattle.std.specs.Prelude.{◌≡◌, ◌≤◌, None, length, All, IfOk, vec_len};
ghost use Rattle.board_hall.specs.Halls.{shared_of, view_of, IsPassOf, IsNewPass};
ghost use Rattle.mark_board.specs.Findings.{AreFindings};
ghost use Rattle.check_crew.specs.Seen.{HaveSeenSections};
ghost use Rattle.own_threads.specs.Inner.Sections.{IsReady, HasPostedFrom, HavePosted};

use crate::sections::{Desk, post_first_half, post_second_half};
use board_hall::{Hall, Pass};
use case_core::Case;
use check_crew::CrewFault;
use mark_board::Boards;
use std::alloc::{AllocError, Global};
use std::sync::Wait;
use std::thread;
use std::thread::Threads;

/// The boards of `case` at a cut from 0 to 6 with the findings of all its sections, by this thread
/// and one that it starts: this one takes the first half of the sections, from the first one on,
/// and the other the second half, from the last one back.
///
/// The other thread is joined before it answers. `Thread` where its start was refused, and `Memory`
/// where a growth was refused: a fault hands nothing out.
pub fn boards_of<'c, R: Threads + Wait + Sync>(
    rt: &R,
    alloc: Global,
    case: &'c Case,
    cut: u32,
) -> Result<Boards<'c>, CrewFault>
    requires { cut ≤ 6 }
    ensures case { IfOk result (λ boards. (boards.case ≡ case.now) × (boards.cut ≡ cut)) }
    ensures findings { IfOk result (λ boards. AreFindings case.now boards.marks) }
{
    let (hall, passes) = Hall::open(alloc, case, cut, 2)?;
    let desk = Desk {
        case,
        core: hall.core(),
        half: case.sections().len() / 2,
    };
    let passes = post_all(rt, alloc, desk, passes)?;
    // A hall is closed where all its passes are handed in and none owes a verdict: so it is here,
    // which is proved.
    match hall.close(passes) {
        Ok(boards) => Ok(boards),
        Err(_) => unreachable!(),
    }
}

/// Posts what is found of all sections with the hall's two passes, and gives both back.
///
/// `count`, `own` and `free` are what closing the hall asks for. `seen` is why the boards then have
/// all findings: they hold whatever a pass that is handed in has seen.
fn post_all<R: Threads + Wait + Sync>(
    rt: &R,
    alloc: Global,
    desk: Desk<'_>,
    mut passes: Vec<Pass>,
) -> Result<Vec<Pass>, CrewFault>
    requires ready { IsReady desk.case.now (shared_of desk.core.now) desk.half }
    requires count { vec_len passes ≡ 2 }
    requires new { All (IsNewPass (shared_of desk.core.now)) passes.items }
    ensures count { IfOk result (λ passes. vec_len passes ≡ 2) }
    ensures own { IfOk result (λ passes.
        All (IsPassOf (shared_of desk.entry.core.now)) passes.items) }
    ensures free { IfOk result (λ passes. All (λ pass. (view_of pass).owes ≡ None) passes.items) }
    ensures seen { IfOk result (λ passes.
        HaveSeenSections desk.entry.case.now passes.items) }
{
    let Some(theirs) = passes.pop() else {
        unreachable!()
    };
    let Some(ours) = passes.pop() else {
        unreachable!()
    };
    let (ours, theirs) = post_halves(rt, alloc, desk, ours, theirs)?;
    passes.push_reserved(ours);
    passes.push_reserved(theirs);
    Ok(passes)
}

/// Posts what is found of the first half of the sections with the first pass, and of the second
/// half with the second pass in a thread of its own. `Thread` where its start was refused.
///
/// A closure is checked by itself, so each says again what it needs of what it captures. What the
/// thread's closure ensures is what `desk` promises, and that is what is known once it is joined.
fn post_halves<R: Threads + Wait + Sync>(
    rt: &R,
    alloc: Global,
    desk: Desk<'_>,
    ours: Pass,
    theirs: Pass,
) -> Result<(Pass, Pass), CrewFault>
    requires ready { IsReady desk.case.now (shared_of desk.core.now) desk.half }
    requires ours { IsNewPass (shared_of desk.core.now) ours }
    requires theirs { IsNewPass (shared_of desk.core.now) theirs }
    ensures { IfOk result (λ passes. HavePosted desk.entry.case.now
        (shared_of desk.entry.core.now) desk.entry.half passes.0 passes.1) }
{
    thread::scope(
        thread::scope_env(),
        rt,
        move |scope| -> Result<(Pass, Pass), CrewFault>
            requires ready { IsReady desk.case.now (shared_of desk.core.now) desk.half }
            requires ours { IsNewPass (shared_of desk.core.now) ours }
            requires theirs { IsNewPass (shared_of desk.core.now) theirs }
            ensures { IfOk result (λ passes. HavePosted desk.entry.case.now
                (shared_of desk.entry.core.now) desk.entry.half passes.0 passes.1) }
        {
            let started = scope.spawn_with(
                desk,
                move || -> Result<Pass, AllocError>
                    requires ready { IsReady desk.case.now (shared_of desk.core.now) desk.half }
                    requires pass { IsNewPass (shared_of desk.core.now) theirs }
                    ensures { IfOk result
                        (HasPostedFrom (shared_of desk.entry.core.now) desk.entry.half
                        (length desk.entry.case.now.sections)) }
                { post_second_half(rt, alloc, desk, theirs) },
            );
            let Ok(other) = started else {
                return Err(CrewFault::Thread);
            };
            let first = post_first_half(rt, alloc, desk, ours);
            let second = other.join(rt);
            Ok((first?, second?))
        },
    )
}
