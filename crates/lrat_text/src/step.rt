//! The steps of a text LRAT proof (CADE 2017).

use cnf_text::literal::Lit;
use std::alloc::{AllocError, AllocFailed};
use std::marker::Model;

/// The greatest id of a clause, `2^62`. The least is 1.
pub const MAX_ID: u64 = 4_611_686_018_427_387_904;

/// Why no step is answered.
#[derive(Clone, Copy, Debug, PartialEq, Eq)]
pub enum StepFault {
    /// No whole step comes next, and what is left isn't blank.
    Unreadable,
    /// A growth was refused.
    Memory,
}

impl From<AllocError> for StepFault {
    ghost use Rattle.std.specs.Prelude.{◌≡◌};
    ghost use Rattle.lrat_text.specs.declared.step.StepFault.TheVariants.{Memory};

    ghost from_gives = { λ _ e. e ≡ Memory };

    fn from(_error: AllocError) -> Self {
        StepFault::Memory
    }
}

impl<T: Drop> From<AllocFailed<T>> for StepFault {
    ghost use Rattle.std.specs.Prelude.{◌≡◌};
    ghost use Rattle.lrat_text.specs.declared.step.StepFault.TheVariants.{Memory};

    ghost from_gives = { λ _ e. e ≡ Memory };

    fn from(_error: AllocFailed<T>) -> Self {
        StepFault::Memory
    }
}

/// Why no step is answered of a text that may go on.
#[derive(Clone, Copy, Debug, PartialEq, Eq)]
pub enum OpenFault {
    /// No whole step comes next, whatever follows the text.
    Unreadable,
    /// The text ends within a step.
    Unfinished,
    /// A growth was refused.
    Memory,
}

impl From<AllocError> for OpenFault {
    ghost use Rattle.std.specs.Prelude.{◌≡◌};
    ghost use Rattle.lrat_text.specs.declared.step.OpenFault.TheVariants.{Memory};

    ghost from_gives = { λ _ e. e ≡ Memory };

    fn from(_error: AllocError) -> Self {
        OpenFault::Memory
    }
}

impl<T: Drop> From<AllocFailed<T>> for OpenFault {
    ghost use Rattle.std.specs.Prelude.{◌≡◌};
    ghost use Rattle.lrat_text.specs.declared.step.OpenFault.TheVariants.{Memory};

    ghost from_gives = { λ _ e. e ≡ Memory };

    fn from(_error: AllocFailed<T>) -> Self {
        OpenFault::Memory
    }
}

/// The hints for one candidate of a RAT addition.
#[derive(Drop)]
pub struct Group {
    /// The id of the candidate, as the negative hint names it.
    pub candidate: u64,
    /// The positive hints that follow it.
    pub hints: Vec<u64>,
}

impl Model for Group {
    ghost use Rattle.lrat_text.specs.Grammar.{HintGroup};

    ghost Value = { HintGroup };

    ghost view = { λ group. record { candidate = group.candidate; hints = group.hints.items } };
}

/// A step of a proof, with room of its own.
#[derive(Drop)]
pub enum Step {
    /// A clause is added.
    Add {
        /// Its id, from 1 to `MAX_ID`.
        id: u64,
        /// Its literals in the order as written; the first is the pivot of a RAT step.
        lits: Vec<Lit>,
        /// The leading hints: those before the first negative one.
        hints: Vec<u64>,
        /// The groups of hints, in the order as written.
        groups: Vec<Group>,
    },
    /// Clauses are deleted.
    Delete {
        /// Their ids, in the order as written.
        ids: Vec<u64>,
    },
}

/// What kind of step a buffer has.
#[derive(Clone, Copy, Debug, PartialEq, Eq)]
pub enum StepKind {
    /// A clause is added under this id, from 1 to `MAX_ID`.
    Add { id: u64 },
    /// Clauses are deleted.
    Delete,
}
