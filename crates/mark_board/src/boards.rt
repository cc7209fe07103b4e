//! All boards of a cut of a case together.

ghost use Rattle.std.specs.Prelude.{◌≡◌, ◌≤◌, ◌<◌, ◌↔◌, ℕ, IfOk, IsTrue, []};
ghost use Rattle.case_core.specs.Formula.{IsRefuted};
ghost use Rattle.split_tree.specs.SplitTree.{size, subtree_at, path_at};
ghost use Rattle.split_tree.specs.Leaves.{HasTarget, IsTargetAt};
ghost use Rattle.mark_board.specs.Marking.{marked, open_weight, open_branches, refuted_by, mark_at};
ghost use Rattle.mark_board.specs.TopPlaces.{worth_of, part_count};
ghost use Rattle.mark_board.specs.Findings.{mark_as};
ghost use Rattle.mark_board.specs.Posting.{posted_answer};
ghost use Rattle.mark_board.specs.Boards.{AreTargetsAt, IsPlaceFor};
ghost use Rattle.mark_board.specs.Inner.Boards.{AreNewParts, is_new};

use crate::board::Board;
use crate::mark::Mark;
use crate::marked_tree::{MarkedTree, open_branches_of};
use crate::place::Place;
use crate::posted::Posted;
use case_core::{Case, Finding, NodeId, Target, Tree};
use std::alloc::{AllocError, Global};
use std::marker::Model;

/// The boards of all parts of a cut of a case, with nothing marked.
fn new_parts(alloc: Global, case: &Case, cut: u32) -> Result<Vec<Board<'_>>, AllocError>
    requires { cut ≤ 6 }
    ensures { IfOk result
        (λ parts. AreNewParts case.now cut parts.items (part_count cut case.now.tree)) }
{
    let count = case.tree().parts(alloc, cut)?.len() as u32;
    let mut parts = Vec::new(alloc);
    for part in 0..count {
        parts.push(Board::new(alloc, case, cut, Place::Part(part))?)?;
    }
    Ok(parts)
}

/// Whether a finding was posted, and its target had none.
fn is_new(posted: &Posted<'_>) -> bool
    ensures { result ≡ is_new (posted_answer posted.now) }
{
    !matches!(posted, Posted::Already(_))
}

/// All boards of a cut of a case: that of each part, and the one above the parts.
#[derive(Drop)]
pub struct Boards<'c> {
    above: Board<'c>,
    parts: Vec<Board<'c>>,
}

impl<'c> Model for Boards<'c> {
    ghost use Rattle.mark_board.specs.Boards.{BoardsOf, boards_of, AreBoards};
    ghost use Rattle.std.specs.Coded.{codes};
    ghost use Rattle.case_core.specs.CaseCode.{case_code};

    ghost Value = { BoardsOf };

    ghost coded = { Prim.hlevel (codes, case_code) };

    ghost view = { λ b. boards_of b.above b.parts.items };

    ghost invariant = { λ b. AreBoards b.above b.parts.items };
}

impl<'c> Boards<'c> {
    ghost use Rattle.std.specs.Prelude.{replicate};
    ghost use Rattle.mark_board.specs.declared.mark.Mark.TheVariants.{Open, Refuted};
    ghost use Rattle.mark_board.specs.Boards.{AreBoards, boards_of, marks_with};

    /// The boards of a cut of a case, with nothing marked. It asks for a cut from 0 to 6.
    /// `AllocError` where a growth was refused.
    pub fn new(alloc: Global, case: &'c Case, cut: u32) -> Result<Boards<'c>, AllocError>
        requires { cut ≤ 6 }
        ensures case { IfOk result (λ boards. (boards.case ≡ case.now) × (boards.cut ≡ cut)) }
        ensures marks { IfOk result (λ boards. boards.marks ≡ replicate (size case.now.tree) Open) }
    {
        let above = Board::new(alloc, case, cut, Place::Top)?;
        let parts = new_parts(alloc, case, cut)?;
        Ok(Boards { above, parts })
    }

    /// These boards as they are: the top board, and all parts' boards in the order of the parts. It
    /// asks that they are those of one cut of one case, and that the top board marks a part exactly
    /// where the part's own root is marked.
    pub fn gather(above: Board<'c>, parts: Vec<Board<'c>>) -> Boards<'c>
        requires { AreBoards above parts.items }
        ensures { result ≡ boards_of above.entry parts.entry.items }
    {
        Boards { above, parts }
    }

    /// Their case.
    pub fn case(&self) -> &'c Case
        ensures { result.now ≡ self.now.case }
    {
        self.above.case()
    }

    /// Marks a finding's target as it says, if that has no finding yet: false exactly where it has
    /// one, and then nothing changes. It asks for a finding of the same case.
    pub fn post(&mut self, finding: Finding<'c>) -> bool
        // A finding of the boards' case.
        requires { finding.case.now ≡ self.old.case }
        // They stay those of their case and cut, and the target's mark is new where it had none.
        ensures same { (self.new.case ≡ self.old.case) × (self.new.cut ≡ self.old.cut) }
        ensures new { IsTrue result ↔ (mark_at self.old.marks finding.entry.node ≡ Open) }
        ensures marks { self.new.marks
            ≡ marks_with result self.old.marks finding.entry.node (mark_as finding.entry.judged) }
    {
        match self.above.place_for(finding.node()) {
            Place::Top => is_new(&self.above.post(finding)),
            Place::Part(part) => self.post_in(part, finding),
        }
    }

    /// The post on the board of a part, and then of the part on the top board where it marked the
    /// part's root.
    fn post_in(&mut self, part: u32, finding: Finding<'c>) -> bool
        requires case { finding.case.now ≡ self.old.case }
        requires place { IsPlaceFor self.old.cut self.old.case.tree finding.node (Place.Part part) }
        ensures same { (self.new.case ≡ self.old.case) × (self.new.cut ≡ self.old.cut) }
        ensures new { IsTrue result ↔ (mark_at self.old.marks finding.entry.node ≡ Open) }
        ensures marks { self.new.marks
            ≡ marks_with result self.old.marks finding.entry.node (mark_as finding.entry.judged) }
    {
        match self.parts[part as usize].post(finding) {
            Posted::Already(_) => false,
            Posted::Marked => true,
            Posted::RootMarked(verdict) => {
                let _ = self.above.post_part(verdict);
                true
            }
            Posted::TopMarked => unreachable!(),
        }
    }

    /// What is posted of a target. It asks for a target of the case's tree.
    pub fn mark_of(&self, target: Target) -> Mark
        requires { HasTarget self.now.case.tree target }
        ensures mark { (node : ℕ) → IsTargetAt self.now.case.tree node target
            → result ≡ mark_at self.now.marks node }
        ensures sound { (node : ℕ) → IsTargetAt self.now.case.tree node target → result ≡ Refuted
            → IsRefuted self.now.case.formula (path_at self.now.case.tree node) }
    {
        self.mark_at(self.case().tree().node_of_target(target))
    }

    /// What is posted of a node. It asks for a node of the case's tree.
    pub fn mark_at(&self, node: NodeId) -> Mark
        requires { node < size self.now.case.tree }
        ensures mark { result ≡ mark_at self.now.marks node }
        ensures sound { result ≡ Refuted
            → IsRefuted self.now.case.formula (path_at self.now.case.tree node) }
    {
        match self.above.place_for(node) {
            Place::Top => self.above.mark_at(node),
            Place::Part(part) => self.parts[part as usize].mark_at(node),
        }
    }

    /// Whether the root is marked: then the formula has no model.
    pub fn root_marked(&self) -> bool
        ensures marked { result ≡ marked (refuted_by self.now.marks) 0 self.now.case.tree }
        ensures sound { IsTrue result → IsRefuted self.now.case.formula [] }
    {
        self.above.node_marked(self.case().tree().root())
    }

    /// The weight of the leaves under no marked node.
    pub fn open_weight(&self) -> u64
        ensures { result
            ≡ open_weight (worth_of self.now.case.tree) (refuted_by self.now.marks) 0
            self.now.case.tree }
    {
        self.open_under(self.case().tree().root())
    }

    /// The weight of the leaves under a node that lie under no marked node from there on. It asks
    /// for a node of the tree, and calls itself no deeper than the cut.
    pub fn open_under(&self, node: NodeId) -> u64
        requires { node < size self.now.case.tree }
        ensures { result
            ≡ open_weight (worth_of self.now.case.tree) (refuted_by self.now.marks) node
            (subtree_at self.now.case.tree node) }
    {
        if let Place::Part(part) = self.above.place_for(node) {
            return self.parts[part as usize].open_under(node);
        }
        if let Mark::Refuted = self.above.mark_at(node) {
            return 0;
        }
        match self.case().tree().branches(node) {
            Some((first, second)) => self.open_under(first) + self.open_under(second),
            None => unreachable!(),
        }
    }

    /// The open branches, in tree order: each wholly open node that is the root or whose parent
    /// isn't wholly open, where a node is wholly open if neither it nor a node above or under it is
    /// marked. `AllocError` where a growth was refused.
    pub fn open_branches(&self, alloc: Global) -> Result<Vec<Target>, AllocError>
        ensures { IfOk result
            (λ targets. AreTargetsAt self.now.case.tree targets.items
            (open_branches (refuted_by self.now.marks) 0 self.now.case.tree)) }
    {
        open_branches_of(alloc, self)
    }
}

impl<'c> MarkedTree for Boards<'c> {
    ghost splits = { λ b. b.case.tree };

    ghost marks = { λ b. b.marks };

    fn tree(&self) -> &Tree {
        self.case().tree()
    }

    fn mark_at(&self, node: NodeId) -> Mark {
        Boards::mark_at(self, node)
    }

    fn open_under(&self, node: NodeId) -> u64 {
        Boards::open_under(self, node)
    }
}
