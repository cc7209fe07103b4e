//! A hall: its calls by one pass and by two, and how it is closed.
ghost use Rattle.std.specs.Prelude.{◌≡◌, ◌≤◌, [], ◌∷◌, None, Some, All};
ghost use Rattle.case_core.specs.Leaves.{HasTarget};
ghost use Rattle.case_core.specs.Finding.{HasSection, target_of};
ghost use Rattle.mark_board.specs.Board.{IsPlace};
ghost use Rattle.mark_board.specs.TopPlaces.{part_count};
ghost use Rattle.mark_board.specs.VerdictOf.{verdict_of};
ghost use Rattle.board_hall.specs.Clauses.{IsVerdictOf};
ghost use Rattle.board_hall.specs.Halls.{hall_of, core_of, view_of, IsPassOf, IsNewPass};
ghost use Rattle.board_hall.specs.Terms.{cut_case};

use crate::cases::{case, finding_of};
use board_hall::{Core, Hall, Pass};
use case_core::{Case, Finding, NodeId, Target};
use fixtures::bundles::{BOTH_CUBES, HALF, ROOT_AND_LEAVES, WHOLE};
use fixtures::targets::{cube, has_target, inner};
use mark_board::{Boards, Mark, PartPosted, PartVerdict, Place, Posted};
use std::alloc::Global;
use std::process::Abort;
use std::sync::Wait;

/// What became of a finding that leaves no part owed.
#[derive(Clone, Copy, PartialEq, Eq, Debug)]
enum Became {
    Marked,
    TopMarked,
    Already(Target),
}

/// A pass that has posted nothing, out of those of a new hall.
pub fn next_pass(rt: &impl Abort, hall: &Hall<'_>, passes: &mut Vec<Pass>) -> Pass
    requires { All (IsNewPass (hall_of hall.now)) passes.old.items }
    ensures own { IsPassOf (hall_of hall.now) result }
    ensures free { (view_of result).owes ≡ None }
    ensures rest { All (IsNewPass (hall_of hall.now)) passes.new.items }
{
    passes.pop().expect(rt, "no pass")
}

/// A hall for two passes, and the passes.
pub fn hall_for_two<'c>(
    rt: &impl Abort,
    alloc: Global,
    case: &'c Case,
    cut: u32,
) -> (Hall<'c>, Pass, Pass)
    requires { cut ≤ 6 }
    ensures of { (hall_of result.0).of ≡ cut_case case.now cut }
    ensures own { IsPassOf (hall_of result.0) result.1 × IsPassOf (hall_of result.0) result.2 }
    ensures free { ((view_of result.1).owes ≡ None) × ((view_of result.2).owes ≡ None) }
{
    let (hall, mut passes) = Hall::open(alloc, case, cut, 2).expect(rt, "memory");
    let first = next_pass(rt, &hall, &mut passes);
    let second = next_pass(rt, &hall, &mut passes);
    (hall, first, second)
}

/// The finding of a target.
fn finding<'c>(rt: &impl Abort, alloc: Global, case: &'c Case, target: Target) -> Finding<'c>
    ensures case { result.case.now ≡ case.now }
    ensures section { HasSection result.case.now (target_of result.leaf result.node) }
{
    finding_of(rt, alloc, case, target).expect(rt, "no finding")
}

/// Posts the finding of a target that marks no part's root.
fn post<R: Wait + Abort>(
    rt: &R,
    alloc: Global,
    hall: &Hall<'_>,
    pass: &mut Pass,
    target: Target,
) -> Became
    requires own { IsPassOf (hall_of hall.now) pass.old }
    requires free { (view_of pass.old).owes ≡ None }
    ensures own { IsPassOf (hall_of hall.now) pass.new }
    ensures free { (view_of pass.new).owes ≡ None }
{
    match hall.post(rt, pass, finding(rt, alloc, hall.case(), target)) {
        Posted::Marked => Became::Marked,
        Posted::TopMarked => Became::TopMarked,
        Posted::Already(finding) => Became::Already(finding.target()),
        Posted::RootMarked(_) => panic!(rt; "a part's root is marked"),
    }
}

/// Posts the finding of a target that marks its part's root.
fn post_last<'c, R: Wait + Abort>(
    rt: &R,
    alloc: Global,
    hall: &Hall<'c>,
    pass: &mut Pass,
    target: Target,
) -> PartVerdict<'c>
    requires own { IsPassOf (hall_of hall.now) pass.old }
    requires free { (view_of pass.old).owes ≡ None }
    ensures own { IsPassOf (hall_of hall.now) pass.new }
    ensures owes { (view_of pass.new).owes ≡ Some (verdict_of result).part }
    ensures verdict { IsVerdictOf (hall_of hall.now).of (verdict_of result).part result }
{
    match hall.post(rt, pass, finding(rt, alloc, hall.case(), target)) {
        Posted::RootMarked(verdict) => verdict,
        _ => panic!(rt; "no part's root is marked"),
    }
}

/// Posts the verdict of the part that a pass owes. Whether this marked the tree's root.
fn post_part<'c, R: Wait + Abort>(
    rt: &R,
    hall: &Hall<'c>,
    pass: &mut Pass,
    verdict: PartVerdict<'c>,
) -> bool
    requires own { IsPassOf (hall_of hall.now) pass.old }
    requires owes { (view_of pass.old).owes ≡ Some (verdict_of verdict).part }
    requires verdict { IsVerdictOf (hall_of hall.now).of (verdict_of verdict).part verdict }
    ensures own { IsPassOf (hall_of hall.now) pass.new }
    ensures free { (view_of pass.new).owes ≡ None }
{
    match hall.post_part(rt, pass, verdict) {
        PartPosted::Marked => false,
        PartPosted::RootMarked => true,
        PartPosted::Already(_) => panic!(rt; "the part has a verdict"),
    }
}

/// Ends the test where a case's tree hasn't a target.
fn need_target(rt: &impl Abort, case: &Case, target: Target)
    ensures { HasTarget case.now.tree target }
{
    let asked = target;
    assert!(rt; has_target(case.tree(), asked));
}

/// How a target stands.
fn mark_of<R: Wait + Abort>(rt: &R, hall: &Hall<'_>, pass: &mut Pass, target: Target) -> Mark
    requires own { IsPassOf (hall_of hall.now) pass.old }
    ensures own { IsPassOf (hall_of hall.now) pass.new }
    ensures owes { (view_of pass.new).owes ≡ (view_of pass.old).owes }
{
    let asked = target;
    need_target(rt, hall.case(), asked);
    hall.mark_of(rt, pass, target)
}

/// The open weight of the board above the parts.
fn open_above(hall: &Hall<'_>, pass: &mut Pass) -> u64
    requires own { IsPassOf (hall_of hall.now) pass.old }
    ensures own { IsPassOf (hall_of hall.now) pass.new }
    ensures owes { (view_of pass.new).owes ≡ (view_of pass.old).owes }
{
    hall.open_weight(pass, Place::Top)
}

/// How many parts a cut of a case's tree has.
fn part_count(rt: &impl Abort, alloc: Global, case: &Case, cut: u32) -> usize
    requires { cut ≤ 6 }
    ensures { result ≡ part_count cut case.now.tree }
{
    let parts = case.tree().parts(alloc, cut).expect(rt, "memory");
    parts.len()
}

/// Ends the test where a cut of a case's tree hasn't a part.
pub fn need_part(rt: &impl Abort, alloc: Global, case: &Case, cut: u32, part: u32)
    requires { cut ≤ 6 }
    ensures { IsPlace cut case.now.tree (Place.Part part) }
{
    let count = part_count(rt, alloc, case, cut);
    assert!(rt; (part as usize) < count);
}

/// The open weight of a part of a hall's cut.
fn open_in(
    rt: &impl Abort,
    alloc: Global,
    hall: &Hall<'_>,
    pass: &mut Pass,
    cut: u32,
    part: u32,
) -> u64
    requires cut { (cut ≤ 6) × ((hall_of hall.now).of.cut ≡ cut) }
    requires own { IsPassOf (hall_of hall.now) pass.old }
    ensures own { IsPassOf (hall_of hall.now) pass.new }
    ensures owes { (view_of pass.new).owes ≡ (view_of pass.old).owes }
{
    need_part(rt, alloc, hall.case(), cut, part);
    hall.open_weight(pass, Place::Part(part))
}

/// A list of one pass of a hall.
pub fn one(rt: &impl Abort, alloc: Global, hall: &Hall<'_>, pass: Pass) -> Vec<Pass>
    requires { IsPassOf (hall_of hall.now) pass }
    ensures own { All (IsPassOf (hall_of hall.now)) result.items }
    ensures same { result.items ≡ pass ∷ [] }
{
    let mut passes = Vec::new(alloc);
    passes.push(pass).expect(rt, "memory");
    passes
}

/// These passes of a hall and one more.
fn with(rt: &impl Abort, hall: &Hall<'_>, passes: Vec<Pass>, pass: Pass) -> Vec<Pass>
    requires { All (IsPassOf (hall_of hall.now)) passes.items × IsPassOf (hall_of hall.now) pass }
    ensures { All (IsPassOf (hall_of hall.now)) result.items }
{
    let mut passes = passes;
    passes.push(pass).expect(rt, "memory");
    passes
}

/// A list of two passes of a hall.
pub fn two(rt: &impl Abort, alloc: Global, hall: &Hall<'_>, first: Pass, second: Pass) -> Vec<Pass>
    requires { IsPassOf (hall_of hall.now) first × IsPassOf (hall_of hall.now) second }
    ensures { All (IsPassOf (hall_of hall.now)) result.items }
{
    with(rt, hall, one(rt, alloc, hall, first), second)
}

/// Whether the root of boards is marked, and how much is open.
fn stand_of(boards: &Boards<'_>) -> (bool, u64) {
    (boards.root_marked(), boards.open_weight())
}

/// Whether the root is marked and how much is open once a hall is closed with these passes, or that
/// it isn't closed.
pub fn closed(hall: Hall<'_>, passes: Vec<Pass>) -> Option<(bool, u64)>
    requires { All (IsPassOf (hall_of hall)) passes.items }
{
    match hall.close(passes) {
        Ok(boards) => Some(stand_of(&boards)),
        Err(_) => None,
    }
}

/// The hall and the pass that come back where a hall isn't closed with this pass alone.
fn refused<'c>(rt: &impl Abort, alloc: Global, hall: Hall<'c>, pass: Pass) -> (Hall<'c>, Pass)
    requires { IsPassOf (hall_of hall) pass }
    ensures same { (result.0 ≡ hall.entry) × (result.1 ≡ pass) }
    ensures own { IsPassOf (hall_of result.0) result.1 }
{
    let passes = one(rt, alloc, &hall, pass);
    match hall.close(passes) {
        Ok(_) => panic!(rt; "closed"),
        Err((hall, mut passes)) => (hall, passes.pop().expect(rt, "no pass")),
    }
}

/// Each of two passes posts a leaf of the only part. Whether a second finding of a leaf comes back,
/// and each pass sees what the other posted.
fn see_leaves<R: Wait + Abort>(
    rt: &R,
    alloc: Global,
    hall: &Hall<'_>,
    first: &mut Pass,
    second: &mut Pass,
) -> bool
    requires cut { (hall_of hall.now).of.cut ≡ 0 }
    requires own { IsPassOf (hall_of hall.now) first.old × IsPassOf (hall_of hall.now) second.old }
    requires free { ((view_of first.old).owes ≡ None) × ((view_of second.old).owes ≡ None) }
    ensures own { IsPassOf (hall_of hall.now) first.new × IsPassOf (hall_of hall.now) second.new }
{
    let marked = post(rt, alloc, hall, first, cube(1)) == Became::Marked;
    let half = open_in(rt, alloc, hall, second, 0, 0) == HALF;
    let again = post(rt, alloc, hall, second, cube(1)) == Became::Already(cube(1));
    let verdict = post_last(rt, alloc, hall, second, cube(2));
    let owed = verdict.part() == 0 && second.owes() == Some(0);
    let root = post_part(rt, hall, second, verdict);
    let other = mark_of(rt, hall, first, cube(2)) == Mark::Refuted;
    let above = open_above(hall, first) == 0;
    marked && half && again && owed && root && other && above
}

/// Whether a hall isn't closed with the first of its two passes, and then is with both, and the
/// root is marked.
fn needs_both(rt: &impl Abort, alloc: Global, hall: Hall<'_>, first: Pass, second: Pass) -> bool
    requires { IsPassOf (hall_of hall) first × IsPassOf (hall_of hall) second }
{
    let (hall, first) = refused(rt, alloc, hall, first);
    let passes = two(rt, alloc, &hall, first, second);
    closed(hall, passes) == Some((true, 0))
}

/// Whether it is so in a hall at cut 0, in which each of two passes has posted a leaf.
fn both_see_leaves<R: Wait + Abort>(rt: &R, alloc: Global, case: &Case) -> bool {
    let (hall, mut first, mut second) = hall_for_two(rt, alloc, case, 0);
    let seen = see_leaves(rt, alloc, &hall, &mut first, &mut second);
    let both = needs_both(rt, alloc, hall, first, second);
    seen && both
}

// What one pass posts the other sees. A hall isn't closed with one of its two passes.
#[test]
fn two_passes(rt: HostRuntime) {
    assert!(rt; both_see_leaves(&rt, rt.alloc(), &case(&rt, rt.alloc(), BOTH_CUBES)));
}

/// Each of two passes posts a leaf that is a part, and the first then its verdict and the root.
/// Whether each sees what the other posted, and the second verdict marks no root.
fn see_parts<R: Wait + Abort>(
    rt: &R,
    alloc: Global,
    hall: &Hall<'_>,
    first: &mut Pass,
    second: &mut Pass,
) -> bool
    requires cut { (hall_of hall.now).of.cut ≡ 1 }
    requires own { IsPassOf (hall_of hall.now) first.old × IsPassOf (hall_of hall.now) second.old }
    requires free { ((view_of first.old).owes ≡ None) × ((view_of second.old).owes ≡ None) }
    ensures own { IsPassOf (hall_of hall.now) first.new × IsPassOf (hall_of hall.now) second.new }
{
    let one = post_last(rt, alloc, hall, first, cube(1));
    let other = post_last(rt, alloc, hall, second, cube(2));
    let none = open_in(rt, alloc, hall, second, 1, 0) == 0;
    let whole = open_above(hall, second) == WHOLE;
    let marked = !post_part(rt, hall, first, one);
    let half = open_above(hall, second) == HALF;
    let top = post(rt, alloc, hall, first, inner(0)) == Became::TopMarked;
    let left = open_above(hall, second) == 0;
    let root = !post_part(rt, hall, second, other);
    none && whole && marked && half && top && left && root
}

/// Whether each of two passes sees the other's part in a hall at cut 1, which is then closed.
fn both_see_parts<R: Wait + Abort>(rt: &R, alloc: Global, case: &Case) -> bool {
    let (hall, mut first, mut second) = hall_for_two(rt, alloc, case, 1);
    let seen = see_parts(rt, alloc, &hall, &mut first, &mut second);
    let passes = two(rt, alloc, &hall, first, second);
    let boards = closed(hall, passes);
    seen && boards == Some((true, 0))
}

// Two passes can owe a part each at the same time, and the root can be posted in between.
#[test]
fn two_passes_owe(rt: HostRuntime) {
    assert!(rt; both_see_parts(&rt, rt.alloc(), &case(&rt, rt.alloc(), ROOT_AND_LEAVES)));
}

/// Whether a hall that takes any proofs, with the finding of the root alone, is closed with the
/// root marked.
fn takes_any_proofs<R: Wait + Abort>(rt: &R, alloc: Global, case: &Case) -> bool {
    let opened = Hall::open_for_proofs_elsewhere(alloc, case, 1, 1);
    let (hall, mut passes) = opened.expect(rt, "memory");
    let mut pass = next_pass(rt, &hall, &mut passes);
    let top = post(rt, alloc, &hall, &mut pass, inner(0)) == Became::TopMarked;
    let passes = one(rt, alloc, &hall, pass);
    top && closed(hall, passes) == Some((true, 0))
}

// A hall that takes any proofs takes the finding of an inner node's section.
#[test]
fn any_proofs_elsewhere(rt: HostRuntime) {
    assert!(rt; takes_any_proofs(&rt, rt.alloc(), &case(&rt, rt.alloc(), ROOT_AND_LEAVES)));
}

/// The place of the board on which findings of a node are posted.
fn place_of(rt: &impl Abort, core: &Core, case: &Case, node: u32) -> Place
    requires { case.now ≡ (core_of core.now).case }
{
    assert!(rt; node < case.tree().size());
    core.place_of(case, NodeId::new(node))
}

/// Ends the test where another board is that of a node: at cut 1 the root is at home above the
/// parts, and any other node in its part.
fn need_places(rt: &impl Abort, core: &Core, case: &Case)
    requires { case.now ≡ (core_of core.now).case }
{
    for (node, place) in [(0, Place::Top), (1, Place::Part(0)), (2, Place::Part(1))] {
        assert!(rt; place_of(rt, core, case, node) == place, "{node}");
    }
}

#[test]
fn places_of_nodes(rt: HostRuntime) {
    let case = case(&rt, rt.alloc(), BOTH_CUBES);
    let (hall, _first, _second) = hall_for_two(&rt, rt.alloc(), &case, 1);
    need_places(&rt, hall.core(), &case);
}
