//! Laws of marks and open weights. Each function does nothing: its contract is the law.

ghost use Rattle.mark_board.specs.Laws.{MarkedHasNoModel, MarkedStaysMarked, OpenAfterPost};
ghost use Rattle.mark_board.specs.Laws.{TopMarksTheRoot, OpenPartsAddUp, OpenBranchesAddUp};
ghost use Rattle.mark_board.specs.Laws.{OpenBranchesAreApart, PartsStandOnTop};
ghost use Rattle.mark_board.specs.Laws.{TopHasTheNodesAboveTheCut};
ghost use Rattle.mark_board.specs.Laws.{OpenBranchesAreAll};

/// Where each refuted node has no model together with the formula, so has each marked node.
pub fn marked_has_no_model()
    ensures { MarkedHasNoModel }
{}

/// A marked node stays marked when more nodes are refuted.
pub fn marked_stays_marked()
    ensures { MarkedStaysMarked }
{}

/// A newly refuted node takes from the open weight what was open of the leaves under it.
pub fn open_after_post()
    ensures { OpenAfterPost }
{}

/// Where the top board's posts agree with a set of refuted nodes, they mark the root exactly where
/// the set does.
pub fn top_marks_the_root()
    ensures { TopMarksTheRoot }
{}

/// The open weights of the parts under no marked node of the top board add up to the open weight of
/// the tree.
pub fn open_parts_add_up()
    ensures { OpenPartsAddUp }
{}

/// The weights of the leaves under the open branches add up to the open weight.
pub fn open_branches_add_up()
    ensures { OpenBranchesAddUp }
{}

/// No node lies under two open branches.
pub fn open_branches_are_apart()
    ensures { OpenBranchesAreApart }
{}

/// The open branches are exactly the wholly open nodes that are the root or whose parents aren't.
pub fn open_branches_are_all()
    ensures { OpenBranchesAreAll }
{}

/// The leaves of the top board stand for the parts of the tree, in their order.
pub fn parts_stand_on_top()
    ensures { PartsStandOnTop }
{}

/// The top board has as its own nodes the inner nodes at depths below the cut, and no others.
pub fn top_has_the_nodes_above_the_cut()
    ensures { TopHasTheNodesAboveTheCut }
{}
