//! The promise of a thread that it gives back a pass of the hall that it got one of.

ghost use Rattle.std.specs.Prelude.{◌≡◌};

use crate::pass::Pass;
use std::snapshot::Snapshot;
use std::thread::Promise;

/// The pass that comes back is one of the same hall.
#[derive(Drop)]
pub struct SameHall {
    pass: Snapshot<Pass>,
}

impl SameHall {
    ghost use Rattle.board_hall.specs.Halls.{promised};

    /// The promise of whoever gets this pass.
    pub fn of(pass: &Pass) -> SameHall
        ensures { promised result ≡ pass.now }
    {
        SameHall {
            pass: Snapshot::of(pass),
        }
    }
}

impl Promise<Pass> for SameHall {
    ghost use Rattle.board_hall.specs.Halls.{HallOf, IsPassOf, promised};

    ghost kept_by = { λ p r. (hall : HallOf) → IsPassOf hall (promised p) → IsPassOf hall r };
}
