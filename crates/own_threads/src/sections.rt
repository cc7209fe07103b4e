//! What one thread does: it examines sections in its own order, and posts what it finds.

ghost use Rattle.std.specs.Prelude.{◌≡◌, ◌<◌, None, length, IfOk, OnOk};
ghost use Rattle.case_core.specs.FindingOf.{finding_of};
ghost use Rattle.board_hall.specs.Halls.{core_of, shared_of, view_of, IsPassOf, IsNewPass};
ghost use Rattle.board_hall.specs.Clauses.{Stays, IsOfSection};
ghost use Rattle.check_crew.specs.Seen.{HasSeen, HasSeenSection};
ghost use Rattle.own_threads.specs.Inner.Sections.{IsReady, HasPostedFrom};

use board_hall::{Core, Pass};
use case_core::{Case, Examiner, Finding};
use mark_board::Posted;
use std::alloc::{AllocError, Global};
use std::sync::Wait;
use std::thread::Promise;

/// What both threads use: the case, what threads share of its hall, and how many of the sections
/// are the first half. As a promise it says what the thread of the second half hands back.
#[derive(Clone, Copy)]
pub(crate) struct Desk<'a> {
    pub(crate) case: &'a Case,
    pub(crate) core: &'a Core,
    pub(crate) half: usize,
}

impl<'a> Promise<Result<Pass, AllocError>> for Desk<'a> {
    ghost use Rattle.std.specs.Prelude.{IfOk, length};
    ghost use Rattle.board_hall.specs.Halls.{shared_of};
    ghost use Rattle.own_threads.specs.Inner.Sections.{HasPostedFrom};

    // Who joins the thread knows this of its pass, and nothing else: that it is the hall's and owes
    // no verdict, which closing the hall asks for, and what it has seen, which the boards then
    // hold.
    ghost kept_by = { λ desk result. IfOk result
        (HasPostedFrom (shared_of desk.core.now) desk.half (length desk.case.now.sections)) };
}

/// Posts what is found of the first half of the sections, from the first one on. `AllocError` where
/// a growth was refused.
pub(crate) fn post_first_half<R: Wait>(
    rt: &R,
    alloc: Global,
    desk: Desk<'_>,
    mut pass: Pass,
) -> Result<Pass, AllocError>
    requires ready { IsReady desk.case.now (shared_of desk.core.now) desk.half }
    requires pass { IsNewPass (shared_of desk.core.now) pass }
    ensures { IfOk result (HasPostedFrom (shared_of desk.entry.core.now) 0 desk.entry.half) }
{
    let mut examiner = Examiner::over(alloc, desk.case)?;
    for place in 0..desk.half {
        post_section(rt, alloc, desk, &mut examiner, &mut pass, place)?;
    }
    Ok(pass)
}

/// Posts what is found of the second half of the sections, from the last one back. `AllocError`
/// where a growth was refused.
pub(crate) fn post_second_half<R: Wait>(
    rt: &R,
    alloc: Global,
    desk: Desk<'_>,
    mut pass: Pass,
) -> Result<Pass, AllocError>
    requires ready { IsReady desk.case.now (shared_of desk.core.now) desk.half }
    requires pass { IsNewPass (shared_of desk.core.now) pass }
    ensures { IfOk result (HasPostedFrom (shared_of desk.entry.core.now) desk.entry.half
        (length desk.entry.case.now.sections)) }
{
    let mut examiner = Examiner::over(alloc, desk.case)?;
    for place in (desk.half..desk.case.sections().len()).rev() {
        post_section(rt, alloc, desk, &mut examiner, &mut pass, place)?;
    }
    Ok(pass)
}

/// Examines the section at a place, and posts what is found. `AllocError` where a growth was
/// refused, and then nothing is posted.
fn post_section<'a, R: Wait>(
    rt: &R,
    alloc: Global,
    desk: Desk<'a>,
    examiner: &mut Examiner<'a>,
    pass: &mut Pass,
    place: usize,
) -> Result<(), AllocError>
    requires case { desk.case.now ≡ (core_of desk.core.now).case }
    requires examiner { examiner.old ≡ desk.case.now }
    requires place { place < length desk.case.now.sections }
    requires own { IsPassOf (shared_of desk.core.now) pass.old }
    requires free { (view_of pass.old).owes ≡ None }
    ensures same { examiner.new ≡ examiner.old }
    ensures own { IsPassOf (shared_of desk.entry.core.now) pass.new }
    ensures free { (view_of pass.new).owes ≡ None }
    ensures stays { Stays (view_of pass.old) (view_of pass.new) }
    ensures seen { OnOk result (HasSeenSection (view_of pass.new) place) }
{
    let target = desk.case.sections()[place].target;
    let Some(finding) = examiner.examine(alloc, target)? else {
        unreachable!()
    };
    post(rt, desk.case, desk.core, pass, finding);
    Ok(())
}

/// Posts a finding, and then the verdict of its part, where the finding marked the part's root: a
/// pass that owes a verdict can't post, and a hall isn't closed while one is owed.
fn post<'c, R: Wait>(rt: &R, case: &'c Case, core: &Core, pass: &mut Pass, finding: Finding<'c>)
    requires case { case.now ≡ (core_of core.now).case }
    requires finding { (finding_of finding).case ≡ case.now }
    requires section { IsOfSection (core_of core.now) finding }
    requires own { IsPassOf (shared_of core.now) pass.old }
    requires free { (view_of pass.old).owes ≡ None }
    ensures own { IsPassOf (shared_of core.now) pass.new }
    ensures free { (view_of pass.new).owes ≡ None }
    ensures stays { Stays (view_of pass.old) (view_of pass.new) }
    ensures seen { HasSeen (view_of pass.new) (finding_of finding.entry).node }
{
    if let Posted::RootMarked(verdict) = core.post(rt, case, pass, finding) {
        let _ = core.post_part(rt, case, pass, verdict);
    }
}
