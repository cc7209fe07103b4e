//! A hall that threads of a scope share: each of them gets a pass, and gives it back.
ghost use Rattle.std.specs.Prelude.{◌≡◌, ◌≤◌, ◌<◌, None, All};
ghost use Rattle.mark_board.specs.Board.{IsPlace};
ghost use Rattle.board_hall.specs.Halls.{hall_of, shared_of, core_of, view_of, promised};
ghost use Rattle.board_hall.specs.Halls.{IsPassOf, IsNewPass};

use crate::cases::{case, finding_of};
use crate::hall_tests::{closed, hall_for_two, need_part, next_pass, one, two};
use board_hall::{Core, Hall, Pass, SameHall};
use case_core::{Case, Target};
use cube_report::report_of;
use fixtures::bundles::{
    BOTH_CUBES, BOTH_CUBES_REPORT, FOUR_CUBES, FOUR_CUBES_REPORT, HALF, QUARTER, WHOLE,
};
use fixtures::targets::cube;
use mark_board::{Boards, Place, Posted};
use std::alloc::Global;
use std::process::Abort;
use std::snapshot::Snapshot;
use std::sync::Wait;
use std::thread;
use std::thread::{Promise, PromisedHandle, Scope, Threads};

/// Posts the finding of a target, and the verdict of the part that is then owed unless that is to
/// be dropped, and gives the pass back.
fn post_all<R: Wait + Abort>(
    rt: &R,
    alloc: Global,
    core: &Core,
    case: &Case,
    mut pass: Pass,
    target: Target,
    drops: bool,
) -> Pass
    requires of { case.now ≡ (core_of core.now).case }
    requires own { IsPassOf (shared_of core.now) pass }
    requires free { (view_of pass).owes ≡ None }
    ensures { IsPassOf (shared_of core.now) result }
{
    let finding = finding_of(rt, alloc, case, target).expect(rt, "no finding");
    if let Posted::RootMarked(verdict) = core.post(rt, case, &mut pass, finding) {
        if !drops {
            let _ = core.post_part(rt, case, &mut pass, verdict);
        }
    }
    pass
}

/// Starts a thread that does so.
fn start<'s, E, R: Wait + Abort + Sync>(
    scope: &Scope<'s, E>,
    rt: &'s R,
    alloc: Global,
    core: &'s Core,
    case: &'s Case,
    pass: Pass,
    target: Target,
    drops: bool,
) -> PromisedHandle<Pass, SameHall>
    requires of { case.now ≡ (core_of core.now).case }
    requires own { IsPassOf (shared_of core.now) pass }
    requires free { (view_of pass).owes ≡ None }
    ensures { IsPassOf (shared_of core.now) (promised result.promise) }
{
    let promise = SameHall::of(&pass);
    scope
        .spawn_with(
            promise,
            move || -> Pass
                requires of { case.now ≡ (core_of core.now).case }
                requires own { IsPassOf (shared_of core.now) pass }
                requires free { (view_of pass).owes ≡ None }
                ensures { IsPassOf (shared_of core.entry.now) result }
            { post_all(rt, alloc, core, case, pass, target, drops) },
        )
        .expect(rt, "no thread")
}

/// The pass that a thread gives back.
fn back<R: Threads>(rt: &R, core: &Core, thread: PromisedHandle<Pass, SameHall>) -> Pass
    requires { IsPassOf (shared_of core.now) (promised thread.promise) }
    ensures { IsPassOf (shared_of core.now) result }
{
    thread.join(rt)
}

/// These threads and one more.
fn and_thread(
    rt: &impl Abort,
    core: &Core,
    threads: Vec<PromisedHandle<Pass, SameHall>>,
    thread: PromisedHandle<Pass, SameHall>,
) -> Vec<PromisedHandle<Pass, SameHall>>
    requires { All (λ thread. IsPassOf (shared_of core.now) (promised thread.promise)) threads.items
        × IsPassOf (shared_of core.now) (promised thread.promise) }
    ensures { All (λ thread. IsPassOf (shared_of core.now) (promised thread.promise)) result.items }
{
    let _core = core;
    let mut threads = threads;
    threads.push(thread).expect(rt, "memory");
    threads
}

/// These passes and one more.
fn and_pass(rt: &impl Abort, core: &Core, passes: Vec<Pass>, pass: Pass) -> Vec<Pass>
    requires { All (IsPassOf (shared_of core.now)) passes.items
        × IsPassOf (shared_of core.now) pass }
    ensures { All (IsPassOf (shared_of core.now)) result.items }
{
    let _core = core;
    let mut passes = passes;
    passes.push(pass).expect(rt, "memory");
    passes
}

/// Starts a thread for each of these passes: the first posts the leaf of cube 1, the next that of
/// cube 2, and so on.
fn start_all<'s, E, R: Wait + Abort + Sync>(
    scope: &Scope<'s, E>,
    rt: &'s R,
    alloc: Global,
    core: &'s Core,
    case: &'s Case,
    passes: Vec<Pass>,
    drops: bool,
) -> Vec<PromisedHandle<Pass, SameHall>>
    requires of { case.now ≡ (core_of core.now).case }
    requires new { All (IsNewPass (shared_of core.now)) passes.items }
    ensures { All (λ thread. IsPassOf (shared_of core.now) (promised thread.promise)) result.items }
{
    let mut threads = Vec::new(alloc);
    let mut number = 0u32;
    for pass in passes {
        number = number.wrapping_add(1);
        let thread = start(scope, rt, alloc, core, case, pass, cube(number), drops);
        threads = and_thread(rt, core, threads, thread);
    }
    threads
}

/// The passes that these threads give back.
fn all_back<R: Threads + Abort>(
    rt: &R,
    alloc: Global,
    core: &Core,
    threads: Vec<PromisedHandle<Pass, SameHall>>,
) -> Vec<Pass>
    requires { All (λ thread. IsPassOf (shared_of core.now) (promised thread.promise))
        threads.items }
    ensures { All (IsPassOf (shared_of core.now)) result.items }
{
    let mut passes = Vec::new(alloc);
    for thread in threads {
        passes = and_pass(rt, core, passes, back(rt, core, thread));
    }
    passes
}

/// A thread for each of these passes posts a leaf, and all passes come back.
fn post_from_each<R: Threads + Wait + Abort + Sync>(
    rt: &R,
    alloc: Global,
    core: &Core,
    case: &Case,
    passes: Vec<Pass>,
    drops: bool,
) -> Vec<Pass>
    requires of { case.now ≡ (core_of core.now).case }
    requires new { All (IsNewPass (shared_of core.now)) passes.items }
    ensures { All (IsPassOf (shared_of core.now)) result.items }
{
    thread::scope(
        thread::scope_env(),
        rt,
        |scope| -> Vec<Pass>
            requires of { case.now ≡ (core_of core.now).case }
            requires new { All (IsNewPass (shared_of core.now)) passes.items }
            ensures { All (IsPassOf (shared_of core.entry.now)) result.items }
        {
            let threads = start_all(scope, rt, alloc, core, case, passes, drops);
            all_back(rt, alloc, core, threads)
        },
    )
}

/// Whether boards have this report.
fn have_report(rt: &impl Abort, alloc: Global, boards: &Boards<'_>, text: &[u8]) -> bool {
    let report = report_of(alloc, boards).expect(rt, "memory");
    report.as_slice() == text
}

/// Whether a hall is closed with these passes, and its boards have this report.
fn reports(rt: &impl Abort, alloc: Global, hall: Hall<'_>, passes: Vec<Pass>, text: &[u8]) -> bool
    requires { All (IsPassOf (hall_of hall)) passes.items }
{
    match hall.close(passes) {
        Ok(boards) => have_report(rt, alloc, &boards, text),
        Err(_) => false,
    }
}

/// Whether so many threads that post a leaf each make this report.
fn all_refute<R: Threads + Wait + Abort + Sync>(
    rt: &R,
    alloc: Global,
    case: &Case,
    cut: u32,
    count: usize,
    text: &[u8],
) -> bool
    requires cut { cut ≤ 6 }
    requires count { (0 < count) × (count ≤ 64) }
{
    let (hall, passes) = Hall::open(alloc, case, cut, count).expect(rt, "memory");
    let passes = post_from_each(rt, alloc, hall.core(), case, passes, false);
    reports(rt, alloc, hall, passes, text)
}

/// Whether two threads that post a leaf each make the report where both are refuted.
fn two_refute<R: Threads + Wait + Abort + Sync>(
    rt: &R,
    alloc: Global,
    case: &Case,
    cut: u32,
) -> bool
    requires { cut ≤ 6 }
{
    all_refute(rt, alloc, case, cut, 2, BOTH_CUBES_REPORT)
}

// Two threads post a leaf each: in one part, or in a part for each of them.
#[test]
fn two_threads(rt: HostRuntime) {
    let case = case(&rt, rt.alloc(), BOTH_CUBES);
    assert!(rt; two_refute(&rt, rt.alloc(), &case, 0));
    assert!(rt; two_refute(&rt, rt.alloc(), &case, 1));
}

/// Whether these are so many passes, and each owes a part, or none does.
fn all_owe(passes: &[Pass], count: usize, owe: bool) -> bool {
    for pass in passes {
        if pass.owes().is_some() != owe {
            return false;
        }
    }
    passes.len() == count
}

/// Whether a hall isn't closed with these passes, and so many come back, which owe a part or don't.
fn comes_back(hall: Hall<'_>, passes: Vec<Pass>, count: usize, owe: bool) -> bool
    requires { All (IsPassOf (hall_of hall)) passes.items }
{
    match hall.close(passes) {
        Ok(_) => false,
        Err((_, passes)) => all_owe(&passes, count, owe),
    }
}

/// Whether a hall isn't closed where two threads drop the verdicts that they owe.
fn drop_verdicts<R: Threads + Wait + Abort + Sync>(rt: &R, alloc: Global, case: &Case) -> bool {
    let (hall, passes) = Hall::open(alloc, case, 1, 2).expect(rt, "memory");
    let passes = post_from_each(rt, alloc, hall.core(), case, passes, true);
    comes_back(hall, passes, 2, true)
}

// Where verdicts that are owed are dropped, the hall isn't closed.
#[test]
fn dropped_verdicts(rt: HostRuntime) {
    let case = case(&rt, rt.alloc(), BOTH_CUBES);
    assert!(rt; drop_verdicts(&rt, rt.alloc(), &case));
}

/// Posts a leaf in a thread of its own, which keeps the pass: when the thread has ended, it is
/// lost.
fn lose_pass<R: Threads + Wait + Abort + Sync>(
    rt: &R,
    alloc: Global,
    core: &Core,
    case: &Case,
    pass: Pass,
) -> bool
    requires of { case.now ≡ (core_of core.now).case }
    requires own { IsPassOf (shared_of core.now) pass }
    requires free { (view_of pass).owes ≡ None }
{
    thread::scope(
        thread::scope_env(),
        rt,
        |scope| -> bool
            requires of { case.now ≡ (core_of core.now).case }
            requires own { IsPassOf (shared_of core.now) pass }
            requires free { (view_of pass).owes ≡ None }
        {
            let thread = scope.spawn(
                move || -> bool
                    requires of { case.now ≡ (core_of core.now).case }
                    requires own { IsPassOf (shared_of core.now) pass }
                    requires free { (view_of pass).owes ≡ None }
                {
                    let pass = post_all(rt, alloc, core, case, pass, cube(1), false);
                    pass.owes().is_none()
                },
            );
            thread.expect(rt, "no thread").join(rt)
        },
    )
}

/// Whether a hall isn't closed where one of two threads kept its pass.
fn lacks_pass<R: Threads + Wait + Abort + Sync>(
    rt: &R,
    alloc: Global,
    case: &Case,
    cut: u32,
) -> bool
    requires { cut ≤ 6 }
{
    let (hall, first, second) = hall_for_two(rt, alloc, case, cut);
    let done = lose_pass(rt, alloc, hall.core(), case, first);
    let passes = one(rt, alloc, &hall, second);
    let back = comes_back(hall, passes, 1, false);
    done && back
}

// Where a pass is lost, because its thread has ended and didn't give it back, the hall isn't
// closed: the other pass comes back.
#[test]
fn lost_pass(rt: HostRuntime) {
    let case = case(&rt, rt.alloc(), BOTH_CUBES);
    assert!(rt; lacks_pass(&rt, rt.alloc(), &case, 0));
    assert!(rt; lacks_pass(&rt, rt.alloc(), &case, 1));
}

/// Whether four threads that post a leaf each make the report where all four are refuted.
fn four_refute<R: Threads + Wait + Abort + Sync>(
    rt: &R,
    alloc: Global,
    case: &Case,
    cut: u32,
) -> bool
    requires { cut ≤ 6 }
{
    all_refute(rt, alloc, case, cut, 4, FOUR_CUBES_REPORT)
}

// Four threads post a leaf each: in one part, in two parts, or in a part for each of them.
#[test]
fn four_threads(rt: HostRuntime) {
    let case = case(&rt, rt.alloc(), FOUR_CUBES);
    assert!(rt; four_refute(&rt, rt.alloc(), &case, 0));
    assert!(rt; four_refute(&rt, rt.alloc(), &case, 1));
    assert!(rt; four_refute(&rt, rt.alloc(), &case, 2));
}

/// The promise that a pass of the same hall comes back, beside an answer.
#[derive(Drop)]
struct WithAnswer {
    pass: Snapshot<Pass>,
}

impl Promise<(Pass, bool)> for WithAnswer {
    ghost use Rattle.board_hall.specs.Halls.{HallOf, IsPassOf};

    ghost kept_by = { λ p r. (hall : HallOf) →
        IsPassOf hall p.pass.value → IsPassOf hall r.0 };
}

/// Posts the finding of a leaf that marks no part's root, and gives the pass back. Whether the leaf
/// had a finding.
fn post_once<R: Wait + Abort>(
    rt: &R,
    alloc: Global,
    core: &Core,
    case: &Case,
    mut pass: Pass,
) -> (Pass, bool)
    requires of { case.now ≡ (core_of core.now).case }
    requires own { IsPassOf (shared_of core.now) pass }
    requires free { (view_of pass).owes ≡ None }
    ensures { IsPassOf (shared_of core.now) result.0 }
{
    let finding = finding_of(rt, alloc, case, cube(1)).expect(rt, "no finding");
    let already = match core.post(rt, case, &mut pass, finding) {
        Posted::Already(_) => true,
        _ => false,
    };
    (pass, already)
}

/// Starts a thread that does so.
fn start_once<'s, E, R: Wait + Abort + Sync>(
    scope: &Scope<'s, E>,
    rt: &'s R,
    alloc: Global,
    core: &'s Core,
    case: &'s Case,
    pass: Pass,
) -> PromisedHandle<(Pass, bool), WithAnswer>
    requires of { case.now ≡ (core_of core.now).case }
    requires own { IsPassOf (shared_of core.now) pass }
    requires free { (view_of pass).owes ≡ None }
    ensures { IsPassOf (shared_of core.now) result.promise.pass.value }
{
    let promise = WithAnswer {
        pass: Snapshot::of(&pass),
    };
    scope
        .spawn_with(
            promise,
            move || -> (Pass, bool)
                requires of { case.now ≡ (core_of core.now).case }
                requires own { IsPassOf (shared_of core.now) pass }
                requires free { (view_of pass).owes ≡ None }
                ensures { IsPassOf (shared_of core.entry.now) result.0 }
            { post_once(rt, alloc, core, case, pass) },
        )
        .expect(rt, "no thread")
}

/// The pass that such a thread gives back, and its answer.
fn answer<R: Threads>(
    rt: &R,
    core: &Core,
    thread: PromisedHandle<(Pass, bool), WithAnswer>,
) -> (Pass, bool)
    requires { IsPassOf (shared_of core.now) thread.promise.pass.value }
    ensures { IsPassOf (shared_of core.now) result.0 }
{
    thread.join(rt)
}

/// Two threads post the same leaf, and both passes come back.
fn post_same<R: Threads + Wait + Abort + Sync>(
    rt: &R,
    alloc: Global,
    core: &Core,
    case: &Case,
    first: Pass,
    second: Pass,
) -> ((Pass, bool), (Pass, bool))
    requires of { case.now ≡ (core_of core.now).case }
    requires own { IsPassOf (shared_of core.now) first × IsPassOf (shared_of core.now) second }
    requires free { ((view_of first).owes ≡ None) × ((view_of second).owes ≡ None) }
    ensures { IsPassOf (shared_of core.now) result.0.0 × IsPassOf (shared_of core.now) result.1.0 }
{
    thread::scope(
        thread::scope_env(),
        rt,
        |scope| -> ((Pass, bool), (Pass, bool))
            requires of { case.now ≡ (core_of core.now).case }
            requires own { IsPassOf (shared_of core.now) first
                × IsPassOf (shared_of core.now) second }
            requires free { ((view_of first).owes ≡ None) × ((view_of second).owes ≡ None) }
            ensures { IsPassOf (shared_of core.entry.now) result.0.0
                × IsPassOf (shared_of core.entry.now) result.1.0 }
        {
            let one = start_once(scope, rt, alloc, core, case, first);
            let other = start_once(scope, rt, alloc, core, case, second);
            (answer(rt, core, one), answer(rt, core, other))
        },
    )
}

/// Whether one of two threads that post the same leaf is told that it had a finding, and the other
/// leaf is open in the end.
fn one_is_told<R: Threads + Wait + Abort + Sync>(rt: &R, alloc: Global, case: &Case) -> bool {
    let (hall, first, second) = hall_for_two(rt, alloc, case, 0);
    let (one, other) = post_same(rt, alloc, hall.core(), case, first, second);
    let apart = one.1 != other.1;
    let passes = two(rt, alloc, &hall, one.0, other.0);
    let boards = closed(hall, passes);
    apart && boards == Some((false, HALF))
}

// Two threads post the same leaf: it is marked once, and one of them is told so.
#[test]
fn same_leaf(rt: HostRuntime) {
    let case = case(&rt, rt.alloc(), BOTH_CUBES);
    assert!(rt; one_is_told(&rt, rt.alloc(), &case));
}

/// Whether the open weight of the first part is a whole number of leaves at depth 2, at most the
/// whole, and never above what this pass saw before, a thousand times.
fn only_falls(core: &Core, pass: &mut Pass) -> bool
    requires place { IsPlace (core_of core.now).cut (core_of core.now).case.tree (Place.Part 0) }
    requires own { IsPassOf (shared_of core.now) pass.old }
    ensures { IsPassOf (shared_of core.now) pass.new }
{
    let mut last = WHOLE;
    let mut falls = true;
    for _ in 0..1_000 {
        let open = core.open_weight(pass, Place::Part(0));
        falls = falls && open <= last && open % QUARTER == 0;
        last = open;
    }
    falls
}

/// The same, and the pass.
fn fallen(core: &Core, mut pass: Pass) -> (Pass, bool)
    requires place { IsPlace (core_of core.now).cut (core_of core.now).case.tree (Place.Part 0) }
    requires own { IsPassOf (shared_of core.now) pass }
    ensures { IsPassOf (shared_of core.now) result.0 }
{
    let falls = only_falls(core, &mut pass);
    (pass, falls)
}

/// A thread for each of these passes posts a leaf, while this one reads the open weight. All passes
/// come back, and whether it only fell.
fn read_beside<R: Threads + Wait + Abort + Sync>(
    rt: &R,
    alloc: Global,
    core: &Core,
    case: &Case,
    passes: Vec<Pass>,
    reader: Pass,
) -> (Vec<Pass>, bool)
    requires of { case.now ≡ (core_of core.now).case }
    requires place { IsPlace (core_of core.now).cut (core_of core.now).case.tree (Place.Part 0) }
    requires new { All (IsNewPass (shared_of core.now)) passes.items }
    requires reader { IsPassOf (shared_of core.now) reader }
    ensures { All (IsPassOf (shared_of core.now)) result.0.items }
{
    thread::scope(
        thread::scope_env(),
        rt,
        |scope| -> (Vec<Pass>, bool)
            requires of { case.now ≡ (core_of core.now).case }
            requires place { IsPlace (core_of core.now).cut (core_of core.now).case.tree
                (Place.Part 0) }
            requires new { All (IsNewPass (shared_of core.now)) passes.items }
            requires reader { IsPassOf (shared_of core.now) reader }
            ensures { All (IsPassOf (shared_of core.entry.now)) result.0.items }
        {
            let threads = start_all(scope, rt, alloc, core, case, passes, false);
            let (reader, falls) = fallen(core, reader);
            let passes = all_back(rt, alloc, core, threads);
            (and_pass(rt, core, passes, reader), falls)
        },
    )
}

/// Whether the open weight only falls while two threads post a leaf each, and half is open in the
/// end.
fn half_falls<R: Threads + Wait + Abort + Sync>(rt: &R, alloc: Global, case: &Case) -> bool {
    need_part(rt, alloc, case, 0, 0);
    let (hall, mut passes) = Hall::open(alloc, case, 0, 3).expect(rt, "memory");
    let reader = next_pass(rt, &hall, &mut passes);
    let (passes, falls) = read_beside(rt, alloc, hall.core(), case, passes, reader);
    let boards = closed(hall, passes);
    falls && boards == Some((false, HALF))
}

// What a pass reads of the open weight, while others post, only falls, and by whole leaves.
#[test]
fn read_beside_posts(rt: HostRuntime) {
    let case = case(&rt, rt.alloc(), FOUR_CUBES);
    assert!(rt; half_falls(&rt, rt.alloc(), &case));
}
