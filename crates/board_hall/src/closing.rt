//! How a hall is closed.

ghost use Rattle.std.specs.Prelude.{List, ◌+◌, ◌≡◌, ◌<◌, ◌≤◌, ◌↔◌, [], Some, None, IfOk, IfErr};
ghost use Rattle.std.specs.Prelude.{IsTrue, All, MatchResult, vec_len, vec_capacity};
ghost use Rattle.std.specs.Mem.Slots.{slots_items, slots_len, IsFull};
ghost use Rattle.board_hall.specs.Hall.{meeting};
ghost use Rattle.mark_board.specs.BoardData.{stored_board, IsDataOf};
ghost use Rattle.mark_board.specs.declared.stored.BoardData.{BoardData};
ghost use Rattle.board_hall.specs.declared.view.CutCase.{CutCase};
ghost use Rattle.board_hall.specs.declared.view.Post.{Post};
ghost use Rattle.board_hall.specs.Halls.{hall_of, view_of, IsPassOf, IsComplete};
ghost use Rattle.board_hall.specs.Clauses.{Gathers, HoldPosts};
ghost use Rattle.board_hall.specs.Inner.Held.{Gathered};
ghost use Rattle.board_hall.specs.Inner.Closing.{AreHome};

use crate::hall::Hall;
use crate::pass::Pass;
use crate::plays::{Meet, Meeting};
use crate::rule::{HallSeat, Shares};
use atomic_table::Closed;
use case_core::Case;
use mark_board::{Board, BoardData, Boards};
use std::alloc::Global;
use std::marker::Brand;

/// A seat sees what another posted and has seen, and stands for it too.
fn meet<N: Meeting>(shared: &Shares, seat: &mut HallSeat, other: HallSeat)
    requires own { (seat.old.table_id ≡ shared.now.table_id)
        × (other.table_id ≡ shared.now.table_id) }
    requires words { 0 < shared.now.table_id.words }
    requires named { N.other ≡ other.me.0 }
    requires rests { (other.me.1 ≡ []) × (other.me.0.held ≡ None) × (other.me.0.owes ≡ None)
        × (0 < seat.old.me.0.parts) }
    ensures own { (seat.new.table_id ≡ seat.old.table_id) × (seat.new.id ≡ seat.old.id) }
    ensures met { seat.new.me ≡ (meeting seat.old.me.0 other.me.0, seat.old.me.1) }
{
    shared.join_seat::<Meet<N>>(seat, other);
}

/// The first pass meets each other one.
fn gather(shared: &Shares, first: Pass, mut others: Vec<Pass>) -> HallSeat
    requires own { (first.seat.table_id ≡ shared.now.table_id)
        × All (λ p. p.seat.table_id ≡ shared.now.table_id) others.items }
    requires words { 0 < shared.now.table_id.words }
    requires free { ((view_of first).owes ≡ None)
        × All (λ p. (view_of p).owes ≡ None) others.items }
    ensures own { result.table_id ≡ shared.now.table_id }
    ensures gathered { Gathered first (vec_len others) others.items result.me }
{
    let Pass { mut seat, owed: _ } = first;
    while let Some(pass) = others.pop() {
        let Pass {
            seat: other,
            owed: _,
        } = pass;
        meet::<Brand>(shared, &mut seat, other);
    }
    seat
}

/// Whether none of these passes owes the verdict of a part.
fn none_owes(passes: &[Pass]) -> bool
    ensures { IsTrue result ↔ All (λ p. (view_of p).owes ≡ None) passes.now }
{
    for pass in passes {
        if pass.owed.is_some() {
            return false;
        }
    }
    true
}

/// The board of its case that lay in a slot.
fn bound<'c>(case: &'c Case, slot: Option<BoardData>) -> Board<'c>
    requires { (stored : BoardData) × (slot ≡ Some stored) × IsDataOf case.now stored }
    ensures { (stored : BoardData) → slot ≡ Some stored → result ≡ stored_board case.now stored }
{
    match slot {
        Some(stored) => Board::bind(case, stored),
        None => unreachable!(),
    }
}

/// Takes the boards out of their slots: the parts' in their order, and then the one above them.
fn unpack<'c>(
    case: &'c Case,
    mut closed: Closed<Option<BoardData>, Global>,
    room: Vec<Board<'c>>,
) -> Boards<'c>
    requires full { IsFull closed.slots }
    requires home { (k : CutCase) × (posts : List Post) × (k.case ≡ case.now) × (k.cut ≤ 6)
        × AreHome k posts (slots_items closed.slots) }
    requires room { (room.items ≡ []) × (slots_len closed.slots ≤ vec_capacity room + 1) }
    ensures { (k : CutCase) (posts : List Post) → k.case ≡ case.now
        → AreHome k posts (slots_items closed.slots) → HoldPosts k posts result }
{
    let parts = closed.slot_count() - 1;
    let mut boards = room;
    for part in 0..parts {
        boards.push_reserved(bound(case, closed.take(part)));
    }
    let above = bound(case, closed.take(parts));
    closed.free();
    Boards::gather(above, boards)
}

impl<'c> Hall<'c> {
    /// Takes all passes back, and gives the boards with all that they posted and have seen. Where a
    /// pass is absent or owes the verdict of a part, hall and passes come back as they were.
    pub fn close(self, passes: Vec<Pass>) -> Result<Boards<'c>, (Hall<'c>, Vec<Pass>)>
        // Passes of this hall.
        requires own { All (IsPassOf (hall_of self)) passes.items }
        // It closes exactly where all passes are there and none owes a verdict.
        ensures all { MatchResult result (λ _. IsComplete (hall_of self.entry) passes.items)
            (λ _. IsComplete (hall_of self.entry) passes.items → ⊥) }
        // The boards have what these passes posted and saw; otherwise hall and passes come back.
        ensures boards { IfOk result (λ boards. Gathers (hall_of self.entry) passes.items boards) }
        ensures same { IfErr result (λ r. (r.0 ≡ self.entry) × (r.1 ≡ passes)) }
    {
        if passes.len() != self.core.passes || !none_owes(&passes) {
            return Err((self, passes));
        }
        let mut passes = passes;
        let Some(first) = passes.pop() else {
            unreachable!()
        };
        let Hall { case, core, room } = self;
        let seat = gather(&core.table.shared, first, passes);
        let closed = core.table.close_with(seat);
        Ok(unpack(case, closed, room))
    }
}
