//! Steps of a seat at the table.

ghost use Rattle.std.specs.Prelude.{◌≡◌, ◌+◌, ◌*◌, ◌<◌, [], ◌∷◌, None, Some};
ghost use Rattle.mark_board.specs.declared.mark.Mark.TheVariants.{Open};
ghost use Rattle.mark_board.specs.declared.stored.BoardData.{BoardData};
ghost use Rattle.board_hall.specs.Posts.{parts_in, board_count, covered, mark_in, AreReal};
ghost use Rattle.board_hall.specs.Hall.{IsBoard, taking, posting, MayPost};
ghost use Rattle.board_hall.specs.Inner.Plays.{OwedIsOpen};
ghost use Rattle.board_hall.specs.Halls.{core_of};
ghost use Rattle.board_hall.specs.Inner.Held.{HasGiven};

use crate::plays::{Give, Naming, Note, Try};
use crate::rule::HallSeat;
use crate::table::Core;
use crate::view::Post;
use crossbeam_utils::Backoff;
use mark_board::BoardData;
use std::sync::Wait;

impl Core {
    /// Takes the lock of a board, and the board out of its slot.
    pub(crate) fn take<R: Wait>(&self, rt: &R, seat: &mut HallSeat, board: usize) -> BoardData
        requires own { seat.old.table_id ≡ self.now.table.shared.table_id }
        requires inside { board < board_count (core_of self.now) }
        requires rests { (seat.old.me.0.held ≡ None) × (seat.old.me.1 ≡ [])
            × (0 < seat.old.me.0.parts) }
        ensures own { (seat.new.table_id ≡ seat.old.table_id) × (seat.new.id ≡ seat.old.id) }
        ensures holds { seat.new.me
            ≡ (taking board seat.new.me.0.known seat.old.me.0, (board, None) ∷ []) }
        ensures board { IsBoard seat.old.me.0.of board seat.new.me.0.known result }
        ensures real { AreReal seat.old.me.0.of seat.new.me.0.known }
        ensures owed { board ≡ parts_in seat.old.me.0.of
            → OwedIsOpen seat.old.me.0.of seat.old.me.0.owes seat.new.me.0.known }
    {
        let backoff = Backoff::new();
        for _ in rt.forever() {
            if self
                .table
                .shared
                .compare_exchange::<Try>(seat, 2 * board, 0, 1)
                == 0
            {
                return self.lift(seat, board);
            }
            backoff.snooze();
        }
        unreachable!()
    }

    /// Takes the board out of a slot that the seat holds.
    fn lift(&self, seat: &mut HallSeat, board: usize) -> BoardData
        requires own { seat.old.table_id ≡ self.now.table.shared.table_id }
        requires holds { (y : BoardData) × (seat.old.me.1 ≡ (board, Some y) ∷ []) }
        ensures own { (seat.new.table_id ≡ seat.old.table_id) × (seat.new.id ≡ seat.old.id) }
        ensures board { seat.old.me.1 ≡ (board, Some result) ∷ [] }
        ensures empty { seat.new.me ≡ (seat.old.me.0, (board, None) ∷ []) }
    {
        let taken = self.table.shared.exchange(seat, board, None);
        let Some(value) = taken else { unreachable!() };
        value
    }

    /// Subtracts the weight that a new post covers from the open word of its board, which the seat
    /// holds. The pass then owes what is said.
    pub(crate) fn note<N: Naming>(
        &self,
        seat: &mut HallSeat,
        post: Post,
        weight: u64,
        owes: Option<u32>,
    )
        requires own { seat.old.table_id ≡ self.now.table.shared.table_id }
        requires named { (N.post ≡ post) × (N.owes ≡ owes) }
        requires holds { seat.old.me.0.held ≡ Some post.board }
        requires inside { post.board < board_count (core_of self.now) }
        requires may { MayPost (core_of self.now) seat.old.me.0.known post seat.old.me.0.owes owes }
        requires new { mark_in seat.old.me.0.known post.board post.row ≡ Open }
        requires weight { weight
            ≡ covered (core_of self.now) post.board (mark_in seat.old.me.0.known post.board) post }
        ensures own { (seat.new.table_id ≡ seat.old.table_id) × (seat.new.id ≡ seat.old.id) }
        ensures posts { seat.new.me ≡ (posting post owes seat.old.me.0, seat.old.me.1) }
    {
        self.table
            .shared
            .fetch_sub::<Note<N>>(seat, 2 * post.board + 1, weight);
    }

    /// Puts a board back into its slot, and gives the lock back.
    pub(crate) fn give(&self, seat: &mut HallSeat, board: usize, value: BoardData)
        requires own { seat.old.table_id ≡ self.now.table.shared.table_id }
        requires inside { board < board_count (core_of self.now) }
        requires holds { (seat.old.me.0.held ≡ Some board) × (seat.old.me.1 ≡ (board, None) ∷ []) }
        requires board { IsBoard (core_of self.now) board seat.old.me.0.known value }
        ensures own { (seat.new.table_id ≡ seat.old.table_id) × (seat.new.id ≡ seat.old.id) }
        ensures gave { HasGiven seat.old.me board seat.new.me }
    {
        drop(self.table.shared.exchange(seat, board, Some(value)));
        self.table.shared.store::<Give>(seat, 2 * board, 0);
    }
}
