//! The marks of boards, compared with what workers handed back of targets.

ghost use Rattle.std.specs.Prelude.{◌≡◌, ◌<◌, ℕ, List, Option, None, true, length, All, IfOk};
ghost use Rattle.std.specs.Prelude.{vec_len};
ghost use Rattle.case_core.specs.Leaves.{IsTargetAt, HasTarget};
ghost use Rattle.case_core.specs.SplitTree.{size};
ghost use Rattle.mark_board.specs.Findings.{mark_as};
ghost use Rattle.mark_board.specs.Marking.{mark_at};
ghost use Rattle.proof_folder.specs.Given.{IsGivenFor};
ghost use Rattle.board_hall.specs.declared.view.View.{View};
ghost use Rattle.proof_folder.specs.TargetProofs.{Known, IsGiven};
ghost use Rattle.check_crew.specs.Examined.{IsExamined};
ghost use Rattle.check_crew.specs.Inner.Apart.{AreAbsent, IsListOf, IsRightAt, AreRightAt};

use crate::targets::{Examined, ExaminedTarget};
use case_core::{Judged, NodeId, Target, has_target};
use mark_board::{Boards, Mark};
use std::alloc::{AllocError, Global};

/// Whether a mark is that of a judgement.
fn is_mark_of(mark: Mark, judged: Judged) -> bool
    ensures { result ≡ true → mark ≡ mark_as judged }
{
    match judged {
        Judged::Refuted => mark == Mark::Refuted,
        Judged::Rejected { step, reason } => mark == Mark::Rejected { step, reason },
    }
}

/// Whether a target has the mark of one for which nothing lies elsewhere: it is open, or has a
/// section, whose mark it has.
fn is_right_alone(boards: &Boards<'_>, target: Target) -> bool
    requires { HasTarget boards.now.case.tree target }
    ensures { result ≡ true → (known : Option (Option (List ℕ))) → IsGiven known None
        → (node : ℕ) → IsTargetAt boards.now.case.tree node target
        → IsGivenFor known boards.now.case target (mark_at boards.now.marks node) None }
{
    let asked = target;
    let mark = boards.mark_of(target);
    mark == Mark::Open || boards.case().proof_for(asked).is_some()
}

/// Whether a target has the mark of what became of it. Where the run can't judge it by itself, it
/// hasn't.
fn is_right(boards: &Boards<'_>, target: Target, examined: Examined) -> bool
    requires { HasTarget boards.now.case.tree target }
    ensures { result ≡ true → (known : Known) (view : View) → view.of.case ≡ boards.now.case
        → IsExamined (known target) view target examined → (node : ℕ)
        → IsTargetAt boards.now.case.tree node target
        → IsRightAt known boards.now.case boards.now.marks node }
{
    match examined {
        Examined::Absent => is_right_alone(boards, target),
        Examined::Found(judged) => is_mark_of(boards.mark_of(target), judged),
        Examined::Other => false,
    }
}

/// Notes the node of a target that has the mark of what became of it.
fn note_one(boards: &Boards<'_>, one: ExaminedTarget, right: &mut Vec<bool>)
    requires { vec_len right.old ≡ size boards.now.case.tree }
    ensures len { vec_len right.new ≡ vec_len right.old }
    ensures right { (known : Known) (view : View) → view.of.case ≡ boards.now.case
        → IsExamined (known one.target) view one.target one.examined
        → AreRightAt known boards.now.case boards.now.marks right.old.items
        → AreRightAt known boards.now.case boards.now.marks right.new.items }
{
    let tree = boards.case().tree();
    if has_target(tree, one.target) && is_right(boards, one.target, one.examined) {
        let node = tree.node_of_target(one.target);
        right[node.index()] = true;
    }
}

/// Notes the nodes of those targets of a worker that have the mark of what became of them.
fn note_right(boards: &Boards<'_>, examined: &[ExaminedTarget], right: &mut Vec<bool>)
    requires { vec_len right.old ≡ size boards.now.case.tree }
    ensures len { vec_len right.new ≡ vec_len right.old }
    ensures right { (known : Known) → IsListOf known boards.now.case examined.now
        → AreRightAt known boards.now.case boards.now.marks right.old.items
        → AreRightAt known boards.now.case boards.now.marks right.new.items }
{
    for one in examined {
        note_one(boards, *one, right);
    }
}

/// Whether a node is an inner one for which nothing lies elsewhere, and has the mark of such a one.
fn is_bare(boards: &Boards<'_>, absent: &[bool], node: NodeId) -> bool
    requires node { node < size boards.now.case.tree }
    requires long { length absent.now ≡ size boards.now.case.tree }
    ensures { result ≡ true → (known : Known) → AreAbsent known absent.now
        → IsRightAt known boards.now.case boards.now.marks node }
{
    match boards.case().tree().target_at(node) {
        Target::Leaf(_) => false,
        Target::Node(inner) => {
            absent[node.index()] && is_right_alone(boards, Target::Node(inner))
        }
    }
}

/// Whether a node is noted, or is an inner one for which nothing lies elsewhere, and right so.
fn is_node_right(boards: &Boards<'_>, right: &[bool], absent: &[bool], node: NodeId) -> bool
    requires node { node < size boards.now.case.tree }
    requires right { length right.now ≡ size boards.now.case.tree }
    requires absent { length absent.now ≡ size boards.now.case.tree }
    ensures { result ≡ true → (known : Known) → AreAbsent known absent.now
        → AreRightAt known boards.now.case boards.now.marks right.now
        → IsRightAt known boards.now.case boards.now.marks node }
{
    right[node.index()] || is_bare(boards, absent, node)
}

/// Whether each node is so.
fn has_each_node(boards: &Boards<'_>, right: &[bool], absent: &[bool]) -> bool
    requires right { length right.now ≡ size boards.now.case.tree }
    requires absent { length absent.now ≡ size boards.now.case.tree }
    ensures { result ≡ true → (known : Known) → AreAbsent known absent.now
        → AreRightAt known boards.now.case boards.now.marks right.now
        → (node : ℕ) → node < size boards.now.case.tree
        → IsRightAt known boards.now.case boards.now.marks node }
{
    for number in 0..boards.case().tree().size() {
        if !is_node_right(boards, right, absent, NodeId::new(number)) {
            return false;
        }
    }
    true
}

/// Whether each node of the tree has the mark of what became of its target, by the lists of all
/// workers; nothing lies elsewhere for the inner nodes that are noted as absent.
pub(crate) fn has_right_marks(
    alloc: Global,
    boards: &Boards<'_>,
    lists: &[Vec<ExaminedTarget>],
    absent: &[bool],
) -> Result<bool, AllocError>
    requires { length absent.now ≡ size boards.now.case.tree }
    ensures { IfOk result (λ is. is ≡ true → (known : Known)
        → All (λ list. IsListOf known boards.now.case list.items) lists.now
        → AreAbsent known absent.now → (node : ℕ) → node < size boards.now.case.tree
        → IsRightAt known boards.now.case boards.now.marks node) }
{
    let size = boards.case().tree().size() as usize;
    let mut right = vec![in alloc; false; size]?;
    for list in lists {
        note_right(boards, list, &mut right);
    }
    Ok(has_each_node(boards, &right, absent))
}
