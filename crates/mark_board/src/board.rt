//! The board of a part of a cut, or the one above the parts.

ghost use Rattle.std.specs.Prelude.{◌≡◌, ◌≢◌, ◌≤◌, ◌<◌, ◌↔◌, ℕ, IfOk, IsTrue, true, replicate};
ghost use Rattle.case_core.specs.Formula.{IsRefuted};
ghost use Rattle.split_tree.specs.SplitTree.{size, subtree_at, path_at};
ghost use Rattle.split_tree.specs.Leaves.{IsTargetAt};
ghost use Rattle.split_tree.specs.Navigation.{HasBelow};
ghost use Rattle.mark_board.specs.Board.{IsPlace, board_tree, tree_on, node_on, worth_on, IsRowOn};
ghost use Rattle.mark_board.specs.Board.{IsTargetRow, HasNode, TakesNode, TakesTarget};
ghost use Rattle.mark_board.specs.Marking.{marked, open_weight, refuted_by, mark_at};
ghost use Rattle.mark_board.specs.TopPlaces.{part_count, part_place};
ghost use Rattle.mark_board.specs.Findings.{mark_as};
ghost use Rattle.mark_board.specs.Posting.{marks_after, MarksRoot, posted_answer};
ghost use Rattle.mark_board.specs.Posting.{part_posted_answer, IsPostedOn, GivesBack};
ghost use Rattle.mark_board.specs.Posting.{GivesPartBack};
ghost use Rattle.mark_board.specs.BoardData.{stored_board, IsDataOf};
ghost use Rattle.case_core.specs.declared.finding.Finding.{Finding};
ghost use Rattle.mark_board.specs.declared.mark.Mark.TheVariants.{Open, Refuted};
ghost use Rattle.mark_board.specs.declared.place.Place.TheVariants.{Top};
ghost use Rattle.mark_board.specs.declared.rows.Answer.TheVariants.{RootMarked, Already};

use crate::mark::Mark;
use crate::part::{PartVerdict, mark_for};
use crate::place::Place;
use crate::posted::{PartPosted, Posted};
use crate::rows::Answer;
use crate::stored::{BoardData, Region};
use case_core::{Case, Finding, NodeId, Target};
use std::alloc::{AllocError, Global};
use std::marker::Model;

/// The board of a part of a cut of a case, or the one above the parts. Of each of its nodes it has
/// what is posted of it, and the weight of the leaves under it that are open. A node is marked
/// where its proof refutes it or its part has a verdict, and an inner node also where both its
/// branches are marked; a leaf is open while no node above it is marked, nor itself. So what is
/// marked has no model together with the formula.
///
/// A post goes down one path of the tree. Only `new` takes memory.
#[derive(Drop)]
pub struct Board<'c> {
    case: &'c Case,
    stored: BoardData,
}

impl<'c> Model for Board<'c> {
    ghost use Rattle.mark_board.specs.Board.{BoardOf};

    ghost Value = { BoardOf };

    ghost use Rattle.std.specs.Coded.{codes};
    ghost use Rattle.case_core.specs.CaseCode.{case_code};

    ghost coded = { Prim.hlevel (codes, case_code) };

    ghost use Rattle.mark_board.specs.BoardData.{stored_board, IsDataOf};

    ghost view = { λ b. stored_board b.case.now b.stored };

    ghost invariant = { λ b. IsDataOf b.case.now b.stored };
}

impl<'c> Board<'c> {
    /// The board at a place of a cut of a case, with nothing posted. It asks for a cut from 0 to 6,
    /// and for the top or a part that the cut makes. `AllocError` where a growth was refused.
    pub fn new(
        alloc: Global,
        case: &'c Case,
        cut: u32,
        place: Place,
    ) -> Result<Board<'c>, AllocError>
        // A cut, and one of its places.
        requires cut { cut ≤ 6 }
        requires place { IsPlace cut case.now.tree place }
        // The board of this place, with nothing posted.
        ensures place { IfOk result
            (λ board. (board.case ≡ case.now) × (board.cut ≡ cut) × (board.place ≡ place)) }
        ensures marks { IfOk result
            (λ board. board.marks ≡ replicate (size (board_tree cut case.now.tree place)) Open) }
    {
        let stored = match place {
            Place::Part(part) => BoardData::of_part(alloc, case, cut, part)?,
            Place::Top => BoardData::of_top(alloc, case, cut)?,
        };
        Ok(Board { case, stored })
    }

    /// What to keep of the board while its case is lent to others: its cut, place, marks and open
    /// weights. `bind` makes the board of it again.
    pub fn unbind(self) -> BoardData
        ensures case { IsDataOf self.entry.case result }
        ensures board { stored_board self.entry.case result ≡ self.entry }
    {
        let Board { stored, .. } = self;
        stored
    }

    /// The board of which this is kept. It asks for the case of that board.
    pub fn bind(case: &'c Case, stored: BoardData) -> Board<'c>
        requires { IsDataOf case.now stored }
        ensures { result ≡ stored_board case.now stored }
    {
        Board { case, stored }
    }

    /// Marks a finding's target as the finding says, if nothing was posted of that target itself: a
    /// target that merely lies under a marked node is marked too. It asks for a finding of the
    /// board's case, of a node that the board takes.
    ///
    /// Answers whether this marked the root of the board, on a part's board with the part's
    /// verdict, and on the top board by `TopMarked`; or `Already` with the finding, and then
    /// nothing changed.
    pub fn post(&mut self, finding: Finding<'c>) -> Posted<'c>
        // A finding of the board's case, of a node that the board takes.
        requires case { finding.case.now ≡ self.old.case }
        requires within { TakesNode self.old finding.node }
        // The board stays that of its place, with the mark where none was.
        ensures same { (self.new.case ≡ self.old.case) × (self.new.cut ≡ self.old.cut)
            × (self.new.place ≡ self.old.place) }
        ensures marks { (row : ℕ) → IsRowOn self.old finding.entry.node row
            → self.new.marks
            ≡ marks_after (posted_answer result) self.old.marks row (mark_as finding.entry.judged) }
        // When it answers that the target had a mark, and when that the root became marked.
        ensures already { (row : ℕ) → IsRowOn self.old finding.entry.node row
            → (posted_answer result ≡ Already) ↔ (mark_at self.old.marks row ≢ Open) }
        ensures root { (posted_answer result ≡ RootMarked)
            ↔ MarksRoot (tree_on self.old) self.old.marks self.new.marks }
        // A verdict comes from a part's board alone; a finding that wasn't posted is given back.
        ensures verdict { IsPostedOn self.old result }
        ensures back { GivesBack result finding.entry }
    {
        let row = self.row_on(finding.node());
        match self.post_at(row, mark_for(finding.judged())) {
            Answer::Marked => Posted::Marked,
            Answer::RootMarked => self.root_posted(),
            Answer::Already => Posted::Already(finding),
        }
    }

    /// Marks a part as refuted on the top board, if it has no verdict yet. It asks for the top
    /// board, and for a verdict of its case and cut.
    ///
    /// Answers whether this marked the root of the tree; or `Already` with the verdict, and then
    /// nothing changed.
    pub fn post_part(&mut self, verdict: PartVerdict<'c>) -> PartPosted<'c>
        // The top board, and a verdict of its case and cut.
        requires top { self.old.place ≡ Top }
        requires case { verdict.case.now ≡ self.old.case }
        requires cut { verdict.cut ≡ self.old.cut }
        // The board stays that of its place, with the part's mark where none was.
        ensures same { (self.new.case ≡ self.old.case) × (self.new.cut ≡ self.old.cut)
            × (self.new.place ≡ self.old.place) }
        ensures marks { self.new.marks
            ≡ marks_after (part_posted_answer result) self.old.marks
            (part_place self.old.cut self.old.case.tree verdict.entry.part) Refuted }
        // When it answers that the part had a mark, and when that the root became marked.
        ensures already { (part_posted_answer result ≡ Already)
            ↔ (mark_at self.old.marks
            (part_place self.old.cut self.old.case.tree verdict.entry.part) ≢ Open) }
        ensures root { (part_posted_answer result ≡ RootMarked)
            ↔ MarksRoot (tree_on self.old) self.old.marks self.new.marks }
        // A verdict that wasn't posted is given back.
        ensures back { GivesPartBack result verdict.entry }
    {
        let row = self.row_of_part(verdict.part());
        match self.post_at(row, Mark::Refuted) {
            Answer::Marked => PartPosted::Marked,
            Answer::RootMarked => PartPosted::RootMarked,
            Answer::Already => PartPosted::Already(verdict),
        }
    }

    /// The case that it is of.
    pub fn case(&self) -> &'c Case
        ensures { result.now ≡ self.now.case }
    {
        self.case
    }

    /// Where it stands: at the top, or at a part, by the part's number from 0 in tree order.
    pub fn place(&self) -> Place
        ensures { result ≡ self.now.place }
    {
        match &self.stored.region {
            Region::Part { part, .. } => Place::Part(*part),
            Region::Top(_) => Place::Top,
        }
    }

    /// Whether findings of a node are posted on this board: on a part's those of the nodes from the
    /// part's root on, and on the top board those of the inner nodes above the cut.
    pub fn takes(&self, node: NodeId) -> bool
        ensures { IsTrue result ↔ TakesNode self.now node }
    {
        match &self.stored.region {
            Region::Part { root, .. } => self.is_below(*root, node),
            Region::Top(above) => self.is_above(above, node),
        }
    }

    /// The row of a node whose findings are posted on this board: its number in tree order among
    /// the board's nodes.
    pub fn row_of(&self, node: NodeId) -> usize
        requires { TakesNode self.now node }
        ensures { IsTargetRow self.now node result }
    {
        self.row_on(node)
    }

    /// The row at which a part's verdict stands. It asks for the top board, and for a part of its
    /// cut.
    pub fn row_of_part(&self, part: u32) -> usize
        requires top { self.now.place ≡ Top }
        requires part { part < part_count self.now.cut self.now.case.tree }
        ensures { result ≡ part_place self.now.cut self.now.case.tree part }
    {
        match &self.stored.region {
            Region::Part { .. } => unreachable!(),
            Region::Top(above) => self.place_of_part(above, part),
        }
    }

    /// The weight of the open leaves: of those under no marked node. A leaf at depth d weighs 2 to
    /// the power 60 - d up to depth 60, and 1 below. On the top board a part weighs what its leaves
    /// do, as long as neither it nor a node above it is marked.
    pub fn open_weight(&self) -> u64
        ensures { result
            ≡ open_weight (worth_on self.now) (refuted_by self.now.marks) 0 (tree_on self.now) }
    {
        self.stored.rows.weight_of(0)
    }

    /// The weight of the open leaves under a node, whatever is marked above it. It asks for a node
    /// that stands on the board: on the top board an inner node above the cut, or the root of a
    /// part.
    pub(crate) fn open_under(&self, node: NodeId) -> u64
        requires { HasNode self.now node }
        ensures { (row : ℕ) → IsRowOn self.now node row
            → result ≡ open_weight (worth_on self.now) (refuted_by self.now.marks) row
            (subtree_at (tree_on self.now) row) }
    {
        self.stored.rows.weight_of(self.row_on(node))
    }

    /// What is posted of a target itself: `Open` where it merely lies under a marked node. It asks
    /// for a target whose findings are posted on this board. A target that is refuted has no model
    /// together with the formula and its path.
    pub fn mark_of(&self, target: Target) -> Mark
        requires { TakesTarget self.now target }
        ensures mark { (node row : ℕ) → IsTargetAt self.now.case.tree node target
            → IsRowOn self.now node row → result ≡ mark_at self.now.marks row }
        ensures sound { (node : ℕ) → IsTargetAt self.now.case.tree node target → result ≡ Refuted
            → IsRefuted self.now.case.formula (path_at self.now.case.tree node) }
    {
        self.mark_at(self.case.tree().node_of_target(target))
    }

    /// Whether a node is marked: refuted, or an inner node with both branches marked. It asks for a
    /// node that stands on the board: on the top board an inner node above the cut, or the root of
    /// a part. A marked node has no model together with the formula and its path.
    pub fn node_marked(&self, node: NodeId) -> bool
        requires { HasNode self.now node }
        ensures marked { (row : ℕ) → IsRowOn self.now node row
            → result ≡ marked (refuted_by self.now.marks) row (subtree_at (tree_on self.now) row) }
        ensures sound { IsTrue result
            → IsRefuted self.now.case.formula (path_at self.now.case.tree node) }
    {
        self.stored.rows.weight_of(self.row_on(node)) == 0
    }
}

impl<'c> Board<'c> {
    ghost use Rattle.mark_board.specs.Boards.{IsPlaceFor};

    /// What is posted of a node itself, of which findings are posted on this board.
    pub(crate) fn mark_at(&self, node: NodeId) -> Mark
        requires { TakesNode self.now node }
        ensures mark { (row : ℕ) → IsRowOn self.now node row
            → result ≡ mark_at self.now.marks row }
        ensures sound { result ≡ Refuted
            → IsRefuted self.now.case.formula (path_at self.now.case.tree node) }
    {
        self.stored.rows.mark_of(self.row_on(node))
    }

    /// Whether a node stands under the root of the part.
    fn is_below(&self, root: u32, node: NodeId) -> bool
        requires { root < size self.now.case.tree }
        ensures { IsTrue result ↔ HasBelow self.now.case.tree root node }
    {
        let end = self.case.tree().end_of(NodeId::new(root));
        root <= node.number() && node.number() < end
    }

    /// The row of a node that stands on the board.
    fn row_on(&self, node: NodeId) -> usize
        requires { HasNode self.now node }
        ensures { IsRowOn self.now node result }
    {
        match &self.stored.region {
            Region::Part { root, .. } => node.index() - *root as usize,
            Region::Top(above) => self.place_above(above, node),
        }
    }

    /// Marks the node of a row as this says, if it has no mark yet.
    fn post_at(&mut self, row: usize, mark: Mark) -> Answer
        requires row { row < size (tree_on self.old) }
        requires judged { mark ≢ Open }
        requires sound { mark ≡ Refuted → IsRefuted self.old.case.formula
            (path_at self.old.case.tree (node_on self.old row)) }
        ensures same { (self.new.case ≡ self.old.case) × (self.new.cut ≡ self.old.cut)
            × (self.new.place ≡ self.old.place) }
        ensures marks { self.new.marks ≡ marks_after result self.old.marks row mark }
        ensures already { (result ≡ Already) ↔ (mark_at self.old.marks row ≢ Open) }
        ensures root { (result ≡ RootMarked)
            ↔ MarksRoot (tree_on self.old) self.old.marks self.new.marks }
    {
        let tree = self.case.tree();
        let BoardData { region, rows, .. } = &mut self.stored;
        match region {
            Region::Part { root, .. } => rows.post(tree, *root as usize, row, mark),
            Region::Top(above) => rows.post(&above.tree, 0, row, mark),
        }
    }

    /// What a post says that marked the root.
    fn root_posted(&self) -> Posted<'c>
        requires { marked (refuted_by self.now.marks) 0 (tree_on self.now) ≡ true }
        ensures answer { posted_answer result ≡ RootMarked }
        ensures verdict { IsPostedOn self.now result }
        ensures back { (finding : Finding) → GivesBack result finding }
    {
        match &self.stored.region {
            Region::Part { part, .. } => Posted::RootMarked(PartVerdict {
                case: self.case,
                cut: self.stored.cut,
                part: *part,
            }),
            Region::Top(_) => Posted::TopMarked,
        }
    }

    /// The board on which findings of a node are posted. It asks for the top board.
    pub(crate) fn place_for(&self, node: NodeId) -> Place
        requires top { self.now.place ≡ Top }
        requires node { node < size self.now.case.tree }
        ensures { IsPlaceFor self.now.cut self.now.case.tree node result }
    {
        match &self.stored.region {
            Region::Part { .. } => unreachable!(),
            Region::Top(above) => match self.part_of(above, node) {
                Some(part) => Place::Part(part),
                None => Place::Top,
            },
        }
    }
}
