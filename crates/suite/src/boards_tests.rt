//! Boards, one of a cut and all of them together, before and after findings are posted on them. The
//! weights and the open branches are worked out by hand.
ghost use Rattle.std.specs.Prelude.{◌≡◌, ◌≤◌, IfSome};
ghost use Rattle.mark_board.specs.Posting.{IsPostedOn};
ghost use Rattle.mark_board.specs.declared.place.Place.TheVariants.{Top};

use crate::cases::{case, finding_of};
use case_core::{Case, Leaf, Reason, Target};
use fixtures::bundles::{BOTH_CUBES, HALF, QUARTER};
use fixtures::four;
use fixtures::targets::{cube, has_target, inner};
use mark_board::{Board, Boards, Mark, PartPosted, PartVerdict, Place, Posted};
use std::alloc::Global;
use std::process::Abort;

/// The cubes of both variables, and proofs for the inner node with the path `1` and for the third
/// cube.
pub const BRANCH: &str = four!(
    "a 1 2 0\na 1 -2 0\na -1 2 0\na -1 -2 0\nl n 1 0\n6 0 5 3 4 0\nl 3\n7 0 5 6 2 0\n"
);

/// The same, but the inner node's proof ends without a conflict.
const NO_CONFLICT: &str = four!(
    "a 1 2 0\na 1 -2 0\na -1 2 0\na -1 -2 0\nl n 1 0\n6 0 5 0\nl 3\n7 0 5 6 2 0\n"
);

/// What is posted of a target of the tree.
fn mark_of(rt: &impl Abort, boards: &Boards, target: Target) -> Mark {
    let asked = target;
    assert!(rt; has_target(boards.case().tree(), asked));
    boards.mark_of(target)
}

/// Posts the finding of a target. Ends the test where the target doesn't get its mark, or hadn't
/// one where none is given.
fn need_post(
    rt: &impl Abort,
    alloc: Global,
    boards: &mut Boards,
    target: &Target,
    mark: &Option<Mark>,
) {
    let finding = finding_of(rt, alloc, boards.case(), *target).expect(rt, "no section");
    let is_new = boards.post(finding);
    assert!(rt; is_new == mark.is_some());
    assert!(rt; !is_new || Some(mark_of(rt, boards, *target)) == *mark);
}

/// The same of targets one after another.
fn need_posts(
    rt: &impl Abort,
    alloc: Global,
    boards: &mut Boards,
    findings: &[(Target, Option<Mark>)],
) {
    for (target, mark) in findings {
        need_post(rt, alloc, boards, target, mark);
    }
}

/// Ends the test where another weight is open, or under other branches.
fn need_open(rt: &impl Abort, alloc: Global, boards: &Boards, open: u64, branches: &[Target]) {
    assert!(rt; boards.root_marked() == (open == 0) && boards.open_weight() == open);
    let found = boards.open_branches(alloc).expect(rt, "memory");
    assert!(rt; found.as_slice() == branches);
}

/// The same on all boards of a cut, after these posts.
fn need_at(
    rt: &impl Abort,
    alloc: Global,
    case: &Case,
    cut: u32,
    findings: &[(Target, Option<Mark>)],
    open: u64,
    branches: &[Target],
)
    requires { cut ≤ 6 }
{
    let mut boards = Boards::new(alloc, case, cut).expect(rt, "memory");
    need_posts(rt, alloc, &mut boards, findings);
    need_open(rt, alloc, &boards, open, branches);
}

/// The same at cut 0, where the whole tree is one part, at cut 1, where its branches are, and at
/// cut 6, where every leaf is.
fn need(
    rt: &impl Abort,
    alloc: Global,
    bundle: &str,
    findings: &[(Target, Option<Mark>)],
    open: u64,
    branches: &[Target],
) {
    let case = case(rt, alloc, bundle);
    need_at(rt, alloc, &case, 0, findings, open, branches);
    need_at(rt, alloc, &case, 1, findings, open, branches);
    need_at(rt, alloc, &case, 6, findings, open, branches);
}

// A second finding of a target changes nothing. A refuted inner node covers the leaves under it, a
// rejected one stays open, and one branch stands for the leaves under it.
#[test]
fn what_stays_open(rt: HostRuntime) {
    let alloc = rt.alloc();
    let refuted = Some(Mark::Refuted);
    let rejected = Some(Mark::Rejected {
        step: 1,
        reason: Reason::Empty,
    });
    need(&rt, alloc, BOTH_CUBES, &[], 2 * HALF, &[inner(0)]);
    let leaves = [(cube(2), refuted), (cube(1), refuted), (cube(2), None)];
    need(&rt, alloc, BOTH_CUBES, &leaves, 0, &[]);
    let covered = [(inner(1), refuted), (cube(3), refuted), (inner(1), None)];
    need(&rt, alloc, BRANCH, &covered, QUARTER, &[cube(4)]);
    let left = [(inner(1), rejected), (cube(3), refuted), (inner(1), None)];
    let branches = [inner(1), cube(4)];
    need(&rt, alloc, NO_CONFLICT, &left, HALF + QUARTER, &branches);
}

/// The board of a part, if the cut has it, after it was stored.
fn part_board<'c>(
    rt: &impl Abort,
    alloc: Global,
    case: &'c Case,
    cut: u32,
    part: u32,
) -> Option<Board<'c>>
    requires { cut ≤ 6 }
    ensures { IfSome result (λ board. (board.case ≡ case.now) × (board.cut ≡ cut)) }
{
    let Ok(parts) = case.tree().parts(alloc, cut) else {
        panic!(rt; "memory");
    };
    if part as usize >= parts.len() {
        return None;
    }
    let board = Board::new(alloc, case, cut, Place::Part(part)).expect(rt, "memory");
    Some(Board::bind(case, board.unbind()))
}

/// The board of a part of cut 1.
fn first_board<'c>(rt: &impl Abort, alloc: Global, case: &'c Case, part: u32) -> Board<'c>
    ensures { (result.case ≡ case.now) × (result.cut ≡ 1) }
{
    part_board(rt, alloc, case, 1, part).expect(rt, "no part")
}

/// Whether a board takes the finding of a cube's leaf.
fn takes(board: &Board, number: u32) -> bool {
    let leaf = Leaf::Cube(number);
    let tree = board.case().tree();
    tree.has_leaf(leaf) && board.takes(tree.node_of_leaf(leaf))
}

/// Posts the finding of a cube's leaf, which the board takes.
fn post_one<'c>(rt: &impl Abort, alloc: Global, board: &mut Board<'c>, number: u32) -> Posted<'c>
    ensures { IsPostedOn board.old result }
{
    let finding = finding_of(rt, alloc, board.case(), cube(number)).expect(rt, "no finding");
    assert!(rt; board.takes(finding.node()));
    board.post(finding)
}

/// What is posted of a cube's leaf, which the board takes.
fn leaf_mark(rt: &impl Abort, board: &Board, number: u32) -> Mark {
    let leaf = Leaf::Cube(number);
    let tree = board.case().tree();
    assert!(rt; tree.has_leaf(leaf));
    assert!(rt; board.takes(tree.node_of_leaf(leaf)));
    board.mark_of(Target::Leaf(leaf))
}

/// The verdict of a part of cut 1 that a cube's finding makes; the leaf is marked then.
fn verdict_on<'c>(
    rt: &impl Abort,
    alloc: Global,
    board: &mut Board<'c>,
    number: u32,
) -> PartVerdict<'c>
    ensures { (result.case.now ≡ board.old.case) × (result.cut ≡ board.old.cut) }
{
    let posted = post_one(rt, alloc, board, number);
    assert!(rt; leaf_mark(rt, board, number) == Mark::Refuted && board.open_weight() == 0);
    match posted {
        Posted::RootMarked(verdict) => verdict,
        _ => panic!(rt; "no verdict"),
    }
}

/// The same of a new board.
fn verdict_of<'c>(
    rt: &impl Abort,
    alloc: Global,
    case: &'c Case,
    part: u32,
    number: u32,
) -> PartVerdict<'c>
    ensures { (result.case.now ≡ case.now) × (result.cut ≡ 1) }
{
    let mut board = first_board(rt, alloc, case, part);
    verdict_on(rt, alloc, &mut board, number)
}

/// Posts a part's verdict on the top board of cut 1: how much is open then, or that the part had
/// one. The part's leaf is the cube of the next number.
fn open_after(rt: &impl Abort, alloc: Global, above: &mut Board, part: u32) -> Option<u64>
    requires top { above.old.place ≡ Top }
    requires cut { above.old.cut ≡ 1 }
    ensures same { (above.new.place ≡ above.old.place) × (above.new.cut ≡ above.old.cut) }
{
    let number = part.wrapping_add(1);
    let verdict = verdict_of(rt, alloc, above.case(), part, number);
    assert_eq!(rt; verdict.part(), part);
    match above.post_part(verdict) {
        PartPosted::Already(_) => None,
        _ => Some(above.open_weight()),
    }
}

/// Ends the test where the first part's verdict doesn't take half, a second one of it nothing, and
/// the other part's verdict the rest, or that doesn't mark the root.
fn need_verdicts(rt: &impl Abort, alloc: Global, above: &mut Board)
    requires top { above.old.place ≡ Top }
    requires cut { above.old.cut ≡ 1 }
{
    assert!(rt; open_after(rt, alloc, above, 0) == Some(HALF));
    assert!(rt; open_after(rt, alloc, above, 0) == None);
    assert!(rt; open_after(rt, alloc, above, 1) == Some(0));
    let root = above.case().tree().root();
    assert!(rt; above.takes(root) && above.node_marked(root));
}

/// The same of the top board of a case.
fn need_on_top(rt: &impl Abort, alloc: Global, case: &Case) {
    let mut above = Board::new(alloc, case, 1, Place::Top).expect(rt, "memory");
    need_verdicts(rt, alloc, &mut above);
}

/// Ends the test where the board of the first part doesn't take its leaf, or takes that of another
/// part.
fn need_taken(rt: &impl Abort, alloc: Global, case: &Case) {
    let board = first_board(rt, alloc, case, 0);
    assert!(rt; takes(&board, 1) && !takes(&board, 2));
}

// At cut 1 each leaf is a part, and one of another part isn't taken.
#[test]
fn verdicts_on_top(rt: HostRuntime) {
    let case = case(&rt, rt.alloc(), BOTH_CUBES);
    need_on_top(&rt, rt.alloc(), &case);
    need_taken(&rt, rt.alloc(), &case);
}
