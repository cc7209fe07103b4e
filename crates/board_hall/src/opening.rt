//! How a hall is opened.

ghost use Rattle.std.specs.Prelude.{◌≡◌, ◌+◌, ◌≤◌, ◌<◌, [], IfOk, All, vec_len, length};
ghost use Rattle.mark_board.specs.Board.{IsPlace};
ghost use Rattle.mark_board.specs.TopPlaces.{part_count};
ghost use Rattle.board_hall.specs.Posts.{board_count, place_of};
ghost use Rattle.board_hall.specs.Hall.{newcomer};
ghost use Rattle.board_hall.specs.Terms.{cut_case, cut_case_as};
ghost use Rattle.board_hall.specs.Halls.{core_of, shared_of, hall_of, IsNewPass};
ghost use Rattle.board_hall.specs.Inner.Opening.{IsOpened};
ghost use Rattle.board_hall.specs.declared.view.Proofs.TheVariants.{Elsewhere};

use crate::hall::Hall;
use crate::pass::Pass;
use crate::plays::Deal;
use crate::rule::{HallSeat, Terms};
use crate::table::Core;
use crate::view::Proofs;
use atomic_table::{Refused, Table};
use case_core::Case;
use mark_board::{Board, BoardData, Place};
use std::alloc::{AllocError, Global};
use std::snapshot::Snapshot;

/// The words and slots of the first boards, with nothing posted.
#[derive(Drop)]
pub(crate) struct Opened {
    words: Vec<u64>,
    slots: Vec<Option<BoardData>>,
}

/// One more board, at this place.
fn with_board(
    alloc: Global,
    case: &Case,
    cut: u32,
    proofs: Proofs,
    place: Place,
    opened: Opened,
) -> Result<Opened, AllocError>
    requires cut { cut ≤ 6 }
    requires place { IsPlace cut case.now.tree place }
    requires next { (length opened.slots.items < board_count (cut_case_as proofs case.now cut))
        × (place_of (cut_case_as proofs case.now cut) (length opened.slots.items) ≡ place) }
    requires opened { IsOpened (cut_case_as proofs case.now cut) (length opened.slots.items)
        opened.words.items opened.slots.items }
    ensures count { IfOk result (λ o. length o.slots.items ≡ length opened.slots.items + 1) }
    ensures opened { IfOk result
        (λ o. IsOpened (cut_case_as proofs case.now cut) (length o.slots.items) o.words.items
        o.slots.items) }
{
    let board = Board::new(alloc, case, cut, place)?;
    let Opened {
        mut words,
        mut slots,
    } = opened;
    words.push(0)?;
    words.push(board.open_weight())?;
    slots.push(Some(board.unbind()))?;
    Ok(Opened { words, slots })
}

/// All boards: each part's, and the one above the parts.
fn all_boards(
    alloc: Global,
    case: &Case,
    cut: u32,
    proofs: Proofs,
    parts: u32,
) -> Result<Opened, AllocError>
    requires cut { cut ≤ 6 }
    requires parts { parts ≡ part_count cut case.now.tree }
    ensures { IfOk result
        (λ o. IsOpened (cut_case_as proofs case.now cut)
        (board_count (cut_case_as proofs case.now cut)) o.words.items
        o.slots.items) }
{
    let mut opened = Opened {
        words: Vec::new(alloc),
        slots: Vec::new(alloc),
    };
    for part in 0..parts {
        opened = with_board(alloc, case, cut, proofs, Place::Part(part), opened)?;
    }
    with_board(alloc, case, cut, proofs, Place::Top, opened)
}

impl Core {
    /// Cuts a pass off for each one that was asked for.
    fn deal(&self, alloc: Global, first: HallSeat) -> Result<Vec<Pass>, AllocError>
        requires own { first.table_id ≡ self.now.table.shared.table_id }
        requires all { first.me ≡ (newcomer (core_of self.now) self.now.passes, []) }
        ensures count { IfOk result (λ v. vec_len v ≡ self.now.passes) }
        ensures passes { IfOk result (λ v. All (IsNewPass (shared_of self.now)) v.items) }
    {
        let mut seat = first;
        let mut all = Vec::new(alloc);
        for _ in 1..self.passes {
            let other = self.table.shared.split_seat::<Deal>(&mut seat);
            all.push(Pass::resting(other))?;
        }
        all.push(Pass::resting(seat))?;
        Ok(all)
    }
}

impl<'c> Hall<'c> {
    /// Opens a hall with no posts, for so many passes. It asks for a cut from 0 to 6, and for 1 to
    /// 64 passes. `AllocError` where a growth was refused.
    pub fn open(
        alloc: Global,
        case: &'c Case,
        cut: u32,
        passes: usize,
    ) -> Result<(Hall<'c>, Vec<Pass>), AllocError>
        // A cut, and a number of passes.
        requires cut { cut ≤ 6 }
        requires passes { (0 < passes) × (passes ≤ 64) }
        // A hall of this case and cut, with as many passes, each of them new.
        ensures hall { IfOk result
            (λ r. ((hall_of r.0).of ≡ cut_case case.now cut) × ((hall_of r.0).passes ≡ passes)) }
        ensures count { IfOk result (λ r. vec_len r.1 ≡ passes) }
        ensures passes { IfOk result (λ r. All (IsNewPass (hall_of r.0)) r.1.items) }
    {
        Hall::open_as(alloc, case, cut, passes, Proofs::InCase)
    }

    /// Opens a hall that also takes findings of leaves and of inner nodes without a section, by
    /// proofs that the case doesn't hold. Such a finding is sound, and nothing else is said of it.
    /// As `open` it asks for a cut from 0 to 6, and for 1 to 64 passes. `AllocError` where a growth
    /// was refused.
    pub fn open_for_proofs_elsewhere(
        alloc: Global,
        case: &'c Case,
        cut: u32,
        passes: usize,
    ) -> Result<(Hall<'c>, Vec<Pass>), AllocError>
        // A cut, and a number of passes.
        requires cut { cut ≤ 6 }
        requires passes { (0 < passes) × (passes ≤ 64) }
        // A hall of this case and cut, with as many passes, each of them new.
        ensures hall { IfOk result
            (λ r. ((hall_of r.0).of ≡ cut_case_as Elsewhere case.now cut)
            × ((hall_of r.0).passes ≡ passes)) }
        ensures count { IfOk result (λ r. vec_len r.1 ≡ passes) }
        ensures passes { IfOk result (λ r. All (IsNewPass (hall_of r.0)) r.1.items) }
    {
        Hall::open_as(alloc, case, cut, passes, Proofs::Elsewhere)
    }

    /// A hall with no posts, which takes findings by proofs that stand so.
    fn open_as(
        alloc: Global,
        case: &'c Case,
        cut: u32,
        passes: usize,
        proofs: Proofs,
    ) -> Result<(Hall<'c>, Vec<Pass>), AllocError>
        // A cut, and a number of passes.
        requires cut { cut ≤ 6 }
        requires passes { (0 < passes) × (passes ≤ 64) }
        // A hall of this case and cut, with as many passes, each of them new.
        ensures hall { IfOk result
            (λ r. ((hall_of r.0).of ≡ cut_case_as proofs case.now cut)
            × ((hall_of r.0).passes ≡ passes)) }
        ensures count { IfOk result (λ r. vec_len r.1 ≡ passes) }
        ensures passes { IfOk result (λ r. All (IsNewPass (hall_of r.0)) r.1.items) }
    {
        let roots = case.tree().parts(alloc, cut)?;
        let Opened { words, slots } = all_boards(alloc, case, cut, proofs, roots.len() as u32)?;
        let room = Vec::with_capacity(alloc, roots.len())?;
        let terms = Terms {
            case: Snapshot::of(case),
            cut,
            passes,
            proofs,
        };
        let (table, first) = match Table::new(alloc, words.as_slice(), slots, &terms) {
            Ok(made) => made,
            Err(Refused { slots: _ }) => return Err(AllocError),
        };
        let core = Core {
            table,
            passes,
            roots,
        };
        let all = core.deal(alloc, first)?;
        Ok((Hall { case, core, room }, all))
    }
}
