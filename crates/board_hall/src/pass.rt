//! The right to use a hall.

ghost use Rattle.std.specs.Prelude.{◌≡◌, [], None};

use crate::rule::HallSeat;

/// The right to use one hall. It has no lifetime, and is moved to the thread that uses it.
/// Contracts name what it has posted, what it has seen, and the part whose verdict it owes.
#[derive(Drop)]
pub struct Pass {
    pub(crate) seat: HallSeat,
    pub(crate) owed: Option<u32>,
    ghost rests: { (seat.me.0.held ≡ None) × (seat.me.1 ≡ []) × (seat.me.0.parts ≡ 1) },
    ghost owed_is: { owed ≡ seat.me.0.owes },
}

impl Pass {
    ghost use Rattle.board_hall.specs.Halls.{view_of};

    /// A pass that has posted nothing.
    pub(crate) fn resting(seat: HallSeat) -> Pass
        requires { (seat.me.0.held ≡ None) × (seat.me.0.owes ≡ None) × (seat.me.1 ≡ [])
            × (seat.me.0.parts ≡ 1) }
        ensures { result.seat ≡ seat }
    {
        Pass { seat, owed: None }
    }

    /// The part whose verdict this pass has to post on the top board next.
    pub fn owes(&self) -> Option<u32>
        ensures { result ≡ (view_of self.now).owes }
    {
        self.owed
    }
}
