//! Posts on a board that a seat holds.

ghost use Rattle.std.specs.Prelude.{◌≡◌, ◌<◌, ℕ, Some, None};
ghost use Rattle.board_hall.specs.Posts.{parts_in, IsPartPost};
ghost use Rattle.board_hall.specs.Hall.{IsBoardOf};
ghost use Rattle.board_hall.specs.Inner.Plays.{OwedIsOpen};
ghost use Rattle.board_hall.specs.Halls.{core_of};
ghost use Rattle.board_hall.specs.Clauses.{IsHome, IsPostOf, IsVerdictOf, IsOfSection};
ghost use Rattle.board_hall.specs.Inner.Held.{Recorded, PartRecorded, owed_after};
ghost use Rattle.mark_board.specs.Posting.{GivesBack};
ghost use Rattle.board_hall.specs.declared.view.Post.{Post};

use crate::rule::HallSeat;
use crate::table::Core;
use crate::view::Post;
use case_core::{Finding, Judged};
use mark_board::{Board, PartPosted, PartVerdict, Posted};
use std::marker::Brand;

/// The part whose root a post marked.
pub(crate) fn owed_by(posted: &Posted<'_>) -> Option<u32>
    ensures { result ≡ owed_after posted.now }
{
    match posted {
        Posted::RootMarked(verdict) => Some(verdict.part()),
        Posted::Marked | Posted::TopMarked | Posted::Already(_) => None,
    }
}

impl Core {
    /// Posts a finding on a board that the seat holds.
    pub(crate) fn post_held<'c>(
        &self,
        seat: &mut HallSeat,
        board: &mut Board<'c>,
        number: usize,
        finding: Finding<'c>,
    ) -> Posted<'c>
        requires own { seat.old.table_id ≡ self.now.table.shared.table_id }
        requires case { finding.case.now ≡ (core_of self.now).case }
        requires section { IsOfSection (core_of self.now) finding }
        requires home { (row : ℕ) × IsHome (core_of self.now) finding.node number row }
        requires holds { (seat.old.me.0.held ≡ Some number) × (seat.old.me.0.owes ≡ None) }
        requires board { IsBoardOf (core_of self.now) number seat.old.me.0.known board.old }
        ensures own { (seat.new.table_id ≡ seat.old.table_id) × (seat.new.id ≡ seat.old.id) }
        ensures board { IsBoardOf (core_of self.now) number seat.new.me.0.known board.new }
        ensures recorded { (x : Post)
            × IsPostOf (core_of self.now) finding.entry.node finding.entry.judged x
            × (x.board ≡ number) × Recorded (core_of self.now) x result seat.old.me seat.new.me }
        ensures back { GivesBack result finding.entry }
    {
        let post = Post {
            board: number,
            row: board.row_of(finding.node()),
            judged: finding.judged(),
        };
        let before = board.open_weight();
        let answer = board.post(finding);
        if let Posted::Already(_) = answer {
            return answer;
        }
        let covered = before - board.open_weight();
        self.note::<Brand>(seat, post, covered, owed_by(&answer));
        answer
    }

    /// Posts the verdict of the part that the pass owes on the top board, which the seat holds.
    pub(crate) fn post_part_held<'c>(
        &self,
        seat: &mut HallSeat,
        board: &mut Board<'c>,
        verdict: PartVerdict<'c>,
    ) -> PartPosted<'c>
        requires own { seat.old.table_id ≡ self.now.table.shared.table_id }
        requires verdict { IsVerdictOf (core_of self.now) verdict.part verdict }
        requires holds { (seat.old.me.0.held ≡ Some (parts_in (core_of self.now)))
            × (seat.old.me.0.owes ≡ Some verdict.part) }
        requires still { OwedIsOpen (core_of self.now) seat.old.me.0.owes seat.old.me.0.known }
        requires board { IsBoardOf (core_of self.now) (parts_in (core_of self.now))
            seat.old.me.0.known board.old }
        ensures own { (seat.new.table_id ≡ seat.old.table_id) × (seat.new.id ≡ seat.old.id) }
        ensures board { IsBoardOf (core_of self.now) (parts_in (core_of self.now))
            seat.new.me.0.known board.new }
        ensures recorded { (x : Post) × IsPartPost (core_of self.now) verdict.entry.part x
            × PartRecorded (core_of self.now) x result seat.old.me seat.new.me }
    {
        let post = Post {
            board: self.roots.len(),
            row: board.row_of_part(verdict.part()),
            judged: Judged::Refuted,
        };
        let before = board.open_weight();
        let answer = board.post_part(verdict);
        if let PartPosted::Already(_) = answer {
            unreachable!()
        }
        let covered = before - board.open_weight();
        self.note::<Brand>(seat, post, covered, None);
        answer
    }
}
