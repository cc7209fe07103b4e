//! Why a bundle is refused.

use cnf_text::icnf::TextFault;
use split_tree::TreeFault;
use std::alloc::{AllocError, AllocFailed};
use thiserror::Error;

/// Why a bundle is refused: its first fault. Those of the iCNF text come first, then those of the
/// cubes, then those of the label lines from the first on. Lines are counted from 1 over the whole
/// bundle, and cubes from 1.
#[derive(PartialEq, Eq, Debug, Drop, Error)]
pub enum CaseFault {
    /// The first line with a token does not begin with `p inccnf`.
    #[error("F1 header")]
    Header,
    /// A token that can't stand there: neither a number nor, at the start of an item, `a`.
    #[error("F2 token, line {line}")]
    Token { line: u64 },
    /// The iCNF text ends inside a clause or a cube.
    #[error("F3 unfinished")]
    Unfinished,
    /// A variable above 268,435,455.
    #[error("F4 too large, line {line}")]
    TooLarge { line: u64 },
    /// More clauses, literals or cubes than the limits of an iCNF text.
    #[error("F5 limit")]
    Limit,
    /// A growth was refused. It may stand in the place of any other answer.
    #[error("F6 memory")]
    Memory,
    /// This cube equals an earlier one.
    #[error("F7 cube {cube} repeats")]
    Repeats { cube: u32 },
    /// These cubes go on with different variables.
    #[error("F8 cubes {first} and {second} are not of one tree")]
    NotATree { first: u32, second: u32 },
    /// One of these cubes begins the other.
    #[error("F9 cubes {first} and {second} overlap")]
    Overlap { first: u32, second: u32 },
    /// A label line that has none of the forms of a label.
    #[error("F10 bad label, line {line}")]
    BadLabel { line: u64 },
    /// A label of a leaf that the tree doesn't have, or with a path that is no inner node's.
    #[error("F11 no such leaf, line {line}")]
    NoSuchLeaf { line: u64 },
    /// A label of a leaf or an inner node that an earlier one has named.
    #[error("F12 second proof, line {line}")]
    ProofTwice { line: u64 },
}

impl From<TextFault> for CaseFault {
    ghost use Rattle.std.specs.Prelude.{◌≡◌};
    ghost use Rattle.case_core.specs.Faults.{of_text};

    ghost from_gives = { λ text fault. fault ≡ of_text text };

    fn from(fault: TextFault) -> Self {
        match fault {
            TextFault::Header => CaseFault::Header,
            TextFault::Token { line } => CaseFault::Token { line },
            TextFault::Unfinished => CaseFault::Unfinished,
            TextFault::TooLarge { line } => CaseFault::TooLarge { line },
            TextFault::Limit => CaseFault::Limit,
            TextFault::Memory => CaseFault::Memory,
        }
    }
}

impl From<TreeFault> for CaseFault {
    ghost use Rattle.std.specs.Prelude.{◌≡◌};
    ghost use Rattle.case_core.specs.Faults.{of_clash};

    ghost from_gives = { λ clash fault. fault ≡ of_clash clash };

    fn from(fault: TreeFault) -> Self {
        match fault {
            TreeFault::Repeats { cube } => CaseFault::Repeats { cube },
            TreeFault::NotATree { first, second } => CaseFault::NotATree { first, second },
            TreeFault::Overlap { first, second } => CaseFault::Overlap { first, second },
            TreeFault::Memory => CaseFault::Memory,
        }
    }
}

impl From<AllocError> for CaseFault {
    ghost use Rattle.std.specs.Prelude.{◌≡◌};
    ghost use Rattle.case_core.specs.declared.fault.CaseFault.TheVariants.{Memory};

    ghost from_gives = { λ _ fault. fault ≡ Memory };

    fn from(_error: AllocError) -> Self {
        CaseFault::Memory
    }
}

impl<T: Drop> From<AllocFailed<T>> for CaseFault {
    ghost use Rattle.std.specs.Prelude.{◌≡◌};
    ghost use Rattle.case_core.specs.declared.fault.CaseFault.TheVariants.{Memory};

    ghost from_gives = { λ _ fault. fault ≡ Memory };

    fn from(_error: AllocFailed<T>) -> Self {
        CaseFault::Memory
    }
}
