//! The hall of a case.

ghost use Rattle.std.specs.Prelude.{vec_capacity, ◌≡◌, ◌≤◌, []};
ghost use Rattle.board_hall.specs.Posts.{parts_in};
ghost use Rattle.board_hall.specs.Terms.{case_of};

use crate::pass::Pass;
use crate::table::Core;
use case_core::{Case, Finding, Target};
use mark_board::{Board, Mark, PartPosted, PartVerdict, Place, Posted};
use std::sync::Wait;

/// The boards of a cut of a case, which threads share: each part's, and the one above the parts.
#[derive(Drop)]
pub struct Hall<'c> {
    pub(crate) case: &'c Case,
    pub(crate) core: Core,
    /// Room for the parts' boards that `close` gives.
    pub(crate) room: Vec<Board<'c>>,
    ghost of: { (case_of core.table.shared.key).case ≡ case.now },
    ghost roomy: { (room.items ≡ [])
        × (parts_in (case_of core.table.shared.key) ≤ vec_capacity room) },
}

impl<'c> Hall<'c> {
    ghost use Rattle.std.specs.Prelude.{◌≡◌, None, Some};
    ghost use Rattle.case_core.specs.FindingOf.{finding_of};
    ghost use Rattle.split_tree.specs.Leaves.{HasTarget};
    ghost use Rattle.mark_board.specs.Board.{IsPlace};
    ghost use Rattle.mark_board.specs.Posting.{GivesBack};
    ghost use Rattle.mark_board.specs.VerdictOf.{verdict_of};
    ghost use Rattle.board_hall.specs.Posts.{open_by, mark_in};
    ghost use Rattle.board_hall.specs.Halls.{shared_of, hall_of, view_of, IsPassOf};
    ghost use Rattle.board_hall.specs.Clauses.{board_number, IsVerdictOf, Stays, SeesOwn};
    ghost use Rattle.board_hall.specs.Clauses.{IsOfSection};
    ghost use Rattle.board_hall.specs.Clauses.{PostsNothing, IsPosted, IsPartPosted, IsMarkSeen};

    /// Its case.
    pub fn case(&self) -> &'c Case
        ensures { result.now ≡ (hall_of self.now).of.case }
    {
        self.case
    }

    /// What threads share of it: closures borrow this and the case, since a hall has a lifetime.
    pub fn core(&self) -> &Core
        ensures { shared_of result.now ≡ hall_of self.now }
    {
        &self.core
    }

    /// `Core::post` for this hall's case.
    pub fn post<R: Wait>(&self, rt: &R, pass: &mut Pass, finding: Finding<'c>) -> Posted<'c>
        // A finding of the hall's case, by a pass of the hall that owes nothing.
        requires case { (finding_of finding).case ≡ (hall_of self.now).of.case }
        requires section { IsOfSection (hall_of self.now).of finding }
        requires own { IsPassOf (hall_of self.now) pass.old }
        requires free { (view_of pass.old).owes ≡ None }
        // The pass stays one of the hall, and has seen all that it had seen.
        ensures own { IsPassOf (hall_of self.now) pass.new }
        ensures stays { Stays (view_of pass.old) (view_of pass.new) }
        // What it posted and owes then, by the answer; a finding that wasn't posted is given back.
        ensures posted { IsPosted (hall_of self.now).of (finding_of finding.entry).node
            (finding_of finding.entry).judged result (view_of pass.old) (view_of pass.new) }
        ensures back { GivesBack result finding.entry }
    {
        self.core.post(rt, self.case, pass, finding)
    }

    /// `Core::post_part` for this hall's case.
    pub fn post_part<R: Wait>(
        &self,
        rt: &R,
        pass: &mut Pass,
        verdict: PartVerdict<'c>,
    ) -> PartPosted<'c>
        // The verdict of a part, by the pass of the hall that owes it.
        requires verdict { IsVerdictOf (hall_of self.now).of (verdict_of verdict).part verdict }
        requires own { IsPassOf (hall_of self.now) pass.old }
        requires owed { (view_of pass.old).owes ≡ Some (verdict_of verdict).part }
        // The pass stays one of the hall, and has seen all that it had seen.
        ensures own { IsPassOf (hall_of self.now) pass.new }
        ensures stays { Stays (view_of pass.old) (view_of pass.new) }
        // What it posted and owes then, by the answer.
        ensures posted { IsPartPosted (hall_of self.now).of (verdict_of verdict.entry).part result
            (view_of pass.old) (view_of pass.new) }
    {
        self.core.post_part(rt, self.case, pass, verdict)
    }

    /// `Core::mark_of` for this hall's case.
    pub fn mark_of<R: Wait>(&self, rt: &R, pass: &mut Pass, target: Target) -> Mark
        // A target of the hall's case, and a pass of the hall.
        requires target { HasTarget (hall_of self.now).of.case.tree target }
        requires own { IsPassOf (hall_of self.now) pass.old }
        // The pass stays one of the hall, has seen all that it had seen, and posts nothing.
        ensures own { IsPassOf (hall_of self.now) pass.new }
        ensures stays { Stays (view_of pass.old) (view_of pass.new) }
        ensures nothing { PostsNothing (view_of pass.old) (view_of pass.new) }
        // The target's mark by what the pass has seen then.
        ensures mark { IsMarkSeen (hall_of self.now).of target result (view_of pass.new) }
    {
        self.core.mark_of(rt, self.case, pass, target)
    }

    /// `Core::open_weight`.
    pub fn open_weight(&self, pass: &mut Pass, place: Place) -> u64
        // A place of the cut, and a pass of the hall.
        requires place { IsPlace (hall_of self.now).of.cut (hall_of self.now).of.case.tree place }
        requires own { IsPassOf (hall_of self.now) pass.old }
        // The pass stays one of the hall, has seen all that it had seen, and posts nothing.
        ensures own { IsPassOf (hall_of self.now) pass.new }
        ensures stays { Stays (view_of pass.old) (view_of pass.new) }
        ensures nothing { PostsNothing (view_of pass.old) (view_of pass.new) }
        // The board's open weight by what the pass has seen then, its own posts included.
        ensures seen { SeesOwn (view_of pass.new) (board_number (hall_of self.now).of place) }
        ensures weight { result
            ≡ open_by (hall_of self.now).of (board_number (hall_of self.now).of place)
            (mark_in (view_of pass.new).seen (board_number (hall_of self.now).of place)) }
    {
        self.core.open_weight(pass, place)
    }
}
