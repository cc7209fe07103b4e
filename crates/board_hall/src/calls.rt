//! The calls on what threads share.

ghost use Rattle.std.specs.Prelude.{◌≡◌, ◌<◌, ℕ, None, Some};
ghost use Rattle.split_tree.specs.SplitTree.{size};
ghost use Rattle.split_tree.specs.Leaves.{HasTarget};
ghost use Rattle.mark_board.specs.Board.{IsPlace};
ghost use Rattle.mark_board.specs.Posting.{GivesBack};
ghost use Rattle.mark_board.specs.VerdictOf.{verdict_of};
ghost use Rattle.mark_board.specs.Boards.{IsPlaceFor};
ghost use Rattle.case_core.specs.FindingOf.{finding_of};
ghost use Rattle.board_hall.specs.Posts.{open_by, mark_in};
ghost use Rattle.board_hall.specs.Halls.{core_of, shared_of, view_of, IsPassOf};
ghost use Rattle.board_hall.specs.Clauses.{board_number, IsHome, IsVerdictOf, Stays, SeesOwn};
ghost use Rattle.board_hall.specs.Clauses.{IsOfSection};
ghost use Rattle.board_hall.specs.Clauses.{PostsNothing, IsPosted, IsPartPosted, IsMarkSeen};

use crate::held::owed_by;
use crate::pass::Pass;
use crate::plays::Look;
use crate::table::Core;
use case_core::{Case, Finding, NodeId, Target};
use mark_board::{Board, Mark, PartPosted, PartVerdict, Place, Posted};
use std::sync::Wait;

impl Core {
    /// The number of the board on which findings of a node are posted.
    fn board_for(&self, case: &Case, node: NodeId) -> usize
        requires of { case.now ≡ (core_of self.now).case }
        requires node { node < size case.now.tree }
        ensures { (row : ℕ) × IsHome (core_of self.now) node result row }
    {
        for part in 0..self.roots.len() {
            let root = self.roots[part];
            if root.number() <= node.number() && node.number() < case.tree().end_of(root) {
                return part;
            }
        }
        self.roots.len()
    }

    /// The number of the board at a place.
    fn number_for(&self, place: Place) -> usize
        ensures { result ≡ board_number (core_of self.now) place }
    {
        match place {
            Place::Part(part) => part as usize,
            Place::Top => self.roots.len(),
        }
    }

    /// The place of the board on which findings of a node are posted. It asks for the hall's case,
    /// and for a node of its tree.
    pub fn place_of(&self, case: &Case, node: NodeId) -> Place
        requires of { case.now ≡ (core_of self.now).case }
        requires node { node < size case.now.tree }
        ensures { IsPlaceFor (core_of self.now).cut case.now.tree node result }
    {
        let number = self.board_for(case, node);
        if number < self.roots.len() {
            return Place::Part(number as u32);
        }
        Place::Top
    }

    /// Posts a finding on the board of its target: an inner node above the cut on the top board,
    /// and any other target on the board of its part. It asks for a finding of the hall's case, and
    /// for a pass of the hall that owes nothing. It may wait for the board's lock.
    ///
    /// It answers as `Board::post` does. After `RootMarked` the pass owes that part.
    pub fn post<'c, R: Wait>(
        &self,
        rt: &R,
        case: &'c Case,
        pass: &mut Pass,
        finding: Finding<'c>,
    ) -> Posted<'c>
        // A finding of the table's case, by a pass of the table that owes nothing.
        requires of { case.now ≡ (core_of self.now).case }
        requires case { (finding_of finding).case ≡ case.now }
        requires section { IsOfSection (core_of self.now) finding }
        requires own { IsPassOf (shared_of self.now) pass.old }
        requires free { (view_of pass.old).owes ≡ None }
        // The pass stays one of the table, and has seen all that it had seen.
        ensures own { IsPassOf (shared_of self.now) pass.new }
        ensures stays { Stays (view_of pass.old) (view_of pass.new) }
        // What it posted and owes then, by the answer; a finding that wasn't posted is given back.
        ensures posted { IsPosted (core_of self.now) (finding_of finding.entry).node
            (finding_of finding.entry).judged result (view_of pass.old) (view_of pass.new) }
        ensures back { GivesBack result finding.entry }
    {
        let number = self.board_for(case, finding.node());
        let seat = &mut pass.seat;
        let mut board = Board::bind(case, self.take(rt, seat, number));
        let answer = self.post_held(seat, &mut board, number, finding);
        self.give(seat, number, board.unbind());
        pass.owed = owed_by(&answer);
        answer
    }

    /// Posts the verdict of the part that the pass owes on the top board. It asks for a pass of the
    /// hall that owes this part. It may wait for the board's lock.
    ///
    /// It answers whether this marked the root of the tree. Afterwards the pass owes nothing.
    pub fn post_part<'c, R: Wait>(
        &self,
        rt: &R,
        case: &'c Case,
        pass: &mut Pass,
        verdict: PartVerdict<'c>,
    ) -> PartPosted<'c>
        // The verdict of a part, by the pass of the table that owes it.
        requires of { case.now ≡ (core_of self.now).case }
        requires verdict { IsVerdictOf (core_of self.now) (verdict_of verdict).part verdict }
        requires own { IsPassOf (shared_of self.now) pass.old }
        requires owed { (view_of pass.old).owes ≡ Some (verdict_of verdict).part }
        // The pass stays one of the table, and has seen all that it had seen.
        ensures own { IsPassOf (shared_of self.now) pass.new }
        ensures stays { Stays (view_of pass.old) (view_of pass.new) }
        // What it posted and owes then, by the answer.
        ensures posted { IsPartPosted (core_of self.now) (verdict_of verdict.entry).part result
            (view_of pass.old) (view_of pass.new) }
    {
        let number = self.roots.len();
        let seat = &mut pass.seat;
        let mut board = Board::bind(case, self.take(rt, seat, number));
        let answer = self.post_part_held(seat, &mut board, verdict);
        self.give(seat, number, board.unbind());
        pass.owed = None;
        answer
    }

    /// How a target stands, by posts that hold all that the pass posted on the target's board or
    /// had seen. It asks for a target of the tree, and for a pass of the hall. It may wait for the
    /// board's lock.
    pub fn mark_of<'c, R: Wait>(
        &self,
        rt: &R,
        case: &'c Case,
        pass: &mut Pass,
        target: Target,
    ) -> Mark
        // A target of the table's case, and a pass of the table.
        requires of { case.now ≡ (core_of self.now).case }
        requires target { HasTarget case.now.tree target }
        requires own { IsPassOf (shared_of self.now) pass.old }
        // The pass stays one of the table, has seen all that it had seen, and posts nothing.
        ensures own { IsPassOf (shared_of self.now) pass.new }
        ensures stays { Stays (view_of pass.old) (view_of pass.new) }
        ensures nothing { PostsNothing (view_of pass.old) (view_of pass.new) }
        // The target's mark by what the pass has seen then.
        ensures mark { IsMarkSeen (core_of self.now) target result (view_of pass.new) }
    {
        let asked = target;
        let number = self.board_for(case, case.tree().node_of_target(asked));
        let seat = &mut pass.seat;
        let board = Board::bind(case, self.take(rt, seat, number));
        let mark = board.mark_of(target);
        self.give(seat, number, board.unbind());
        mark
    }

    /// The open weight of the board at a place, by posts that hold all that the pass posted there
    /// or had seen. It asks for the top or a part of the cut, and for a pass of the hall. It waits
    /// for nobody.
    pub fn open_weight(&self, pass: &mut Pass, place: Place) -> u64
        // A place of the cut, and a pass of the table.
        requires place { IsPlace (core_of self.now).cut (core_of self.now).case.tree place }
        requires own { IsPassOf (shared_of self.now) pass.old }
        // The pass stays one of the table, has seen all that it had seen, and posts nothing.
        ensures own { IsPassOf (shared_of self.now) pass.new }
        ensures stays { Stays (view_of pass.old) (view_of pass.new) }
        ensures nothing { PostsNothing (view_of pass.old) (view_of pass.new) }
        // The board's open weight by what the pass has seen then, its own posts included.
        ensures seen { SeesOwn (view_of pass.new) (board_number (core_of self.now) place) }
        ensures weight { result
            ≡ open_by (core_of self.now) (board_number (core_of self.now) place)
            (mark_in (view_of pass.new).seen (board_number (core_of self.now) place)) }
    {
        let number = self.number_for(place);
        self.table
            .shared
            .load::<Look>(&mut pass.seat, 2 * number + 1)
    }
}
