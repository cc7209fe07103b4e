//! Why a run gives no report.

use byte_flow::DeviceFault;
use case_core::{CaseFault, DimacsFault};
use std::alloc::{AllocError, AllocFailed};
use std::error::Error;
use std::fmt;

/// Why a run gives no report: the first fault of its input, or what the run itself met. Lines are
/// counted from 1 over the whole bundle, and cubes from 1. The names `F1` to `F17` are those that
/// the program prints; `F15` is one of the program that joins reports.
#[derive(Clone, Copy, Debug, PartialEq, Eq)]
pub enum Fault {
    /// The first line that is neither blank nor a comment doesn't begin with `p inccnf`, or there
    /// is none.
    Header,
    /// A token that can't stand there.
    Token {
        line: u64,
    },
    /// The iCNF text ends inside a clause or a cube.
    Unfinished,
    /// A variable above 268,435,455.
    TooLarge {
        line: u64,
    },
    /// A count above its limit.
    Limit,
    /// A growth was refused.
    Memory,
    /// This cube equals an earlier one.
    Repeats {
        cube: u32,
    },
    /// These cubes go on with different variables.
    NotATree {
        first: u32,
        second: u32,
    },
    /// One of these cubes begins the other.
    Overlap {
        first: u32,
        second: u32,
    },
    /// A label line that has none of the forms of a label.
    BadLabel {
        line: u64,
    },
    /// A label of a leaf that the tree doesn't have, or with a path that is no inner node's.
    NoSuchLeaf {
        line: u64,
    },
    /// A label of a leaf or an inner node that an earlier one has named.
    ProofTwice {
        line: u64,
    },
    /// A read or a write failed in this call.
    Device,
    /// The start of a worker was refused.
    Thread,
    /// The first line of the formula's own file that is neither blank nor a comment isn't
    /// `p cnf V C`, or there is none.
    NoProblem,
    /// That line says so many variables and clauses; in that file, or where it is right of it, in
    /// the bundle, there are clauses with this greatest variable, and so many.
    Counts {
        variables: u64,
        clauses: u64,
        greatest: u64,
        found: u64,
    },
}

/// Two numbers, as `1 and 2`.
#[derive(Clone, Copy)]
struct Pair(u64, u64);

impl fmt::Display for Pair {
    ghost use Rattle.std.specs.Prelude.{Some};
    ghost use Rattle.run_terms.specs.Faults.{pair_text};

    ghost output = { λ pair. Some (pair_text pair.0 pair.1) };

    #[tactic(auto, unfolding(crate::specs::Faults::pair_text))]
    fn fmt<W: fmt::Write>(&self, f: &mut fmt::Formatter<W>) -> fmt::Result {
        write!(f, "{} and {}", self.0, self.1)
    }
}

/// Numbers of variables and clauses, as `3 variables and 2 clauses, there are `.
#[derive(Clone, Copy)]
struct Said(u64, u64);

impl fmt::Display for Said {
    ghost use Rattle.std.specs.Prelude.{Some};
    ghost use Rattle.run_terms.specs.Faults.{said_text};

    ghost output = { λ said. Some (said_text said.0 said.1) };

    #[tactic(auto, unfolding(crate::specs::Faults::said_text))]
    fn fmt<W: fmt::Write>(&self, f: &mut fmt::Formatter<W>) -> fmt::Result {
        write!(f, "{} variables and {} clauses, there are ", self.0, self.1)
    }
}

/// Writes the fault's name and what it names, as `F2 token, line 7`.
impl fmt::Display for Fault {
    ghost use Rattle.std.specs.Prelude.{Some};
    ghost use Rattle.run_terms.specs.Faults.{fault_text};

    ghost output = { λ fault. Some (fault_text fault) };

    fn fmt<W: fmt::Write>(&self, f: &mut fmt::Formatter<W>) -> fmt::Result {
        match self {
            Fault::Header => f.write_str("F1 header"),
            Fault::Token { line } => write!(f, "F2 token, line {line}"),
            Fault::Unfinished => f.write_str("F3 unfinished"),
            Fault::TooLarge { line } => write!(f, "F4 too large, line {line}"),
            Fault::Limit => f.write_str("F5 limit"),
            Fault::Memory => f.write_str("F6 memory"),
            Fault::Repeats { cube } => write!(f, "F7 cube {cube} repeats"),
            Fault::NotATree { first, second } => {
                write!(
                    f,
                    "F8 cubes {} are not of one tree",
                    Pair(u64::from(*first), u64::from(*second))
                )
            }
            Fault::Overlap { first, second } => {
                write!(
                    f,
                    "F9 cubes {} overlap",
                    Pair(u64::from(*first), u64::from(*second))
                )
            }
            Fault::BadLabel { line } => write!(f, "F10 bad label, line {line}"),
            Fault::NoSuchLeaf { line } => write!(f, "F11 no such leaf, line {line}"),
            Fault::ProofTwice { line } => write!(f, "F12 second proof, line {line}"),
            Fault::Device => f.write_str("F13 device"),
            Fault::Thread => f.write_str("F14 thread"),
            Fault::NoProblem => f.write_str("F16 no DIMACS header"),
            Fault::Counts {
                variables,
                clauses,
                greatest,
                found,
            } => write!(
                f,
                "F17 the header says {}{}",
                Said(*variables, *clauses),
                Pair(*greatest, *found)
            ),
        }
    }
}

impl Error for Fault {}

impl From<AllocError> for Fault {
    ghost use Rattle.std.specs.Prelude.{◌≡◌};
    ghost use Rattle.run_terms.specs.declared.fault.Fault.TheVariants.{Memory};

    ghost from_gives = { λ _ fault. fault ≡ Memory };

    fn from(_error: AllocError) -> Fault {
        Fault::Memory
    }
}

impl<T: Drop> From<AllocFailed<T>> for Fault {
    ghost use Rattle.std.specs.Prelude.{◌≡◌};
    ghost use Rattle.run_terms.specs.declared.fault.Fault.TheVariants.{Memory};

    ghost from_gives = { λ _ fault. fault ≡ Memory };

    fn from(_error: AllocFailed<T>) -> Fault {
        Fault::Memory
    }
}

impl From<DeviceFault> for Fault {
    ghost use Rattle.std.specs.Prelude.{◌≡◌};
    ghost use Rattle.run_terms.specs.Faults.{fault_of_device};

    ghost from_gives = { λ fault told. told ≡ fault_of_device fault };

    fn from(fault: DeviceFault) -> Fault {
        match fault {
            DeviceFault::Memory => Fault::Memory,
            DeviceFault::Device => Fault::Device,
        }
    }
}

impl From<CaseFault> for Fault {
    ghost use Rattle.std.specs.Prelude.{◌≡◌};
    ghost use Rattle.run_terms.specs.Faults.{fault_of_case};

    ghost from_gives = { λ fault told. told ≡ fault_of_case fault };

    fn from(fault: CaseFault) -> Fault {
        match fault {
            CaseFault::Header => Fault::Header,
            CaseFault::Token { line } => Fault::Token { line },
            CaseFault::Unfinished => Fault::Unfinished,
            CaseFault::TooLarge { line } => Fault::TooLarge { line },
            CaseFault::Limit => Fault::Limit,
            CaseFault::Memory => Fault::Memory,
            CaseFault::Repeats { cube } => Fault::Repeats { cube },
            CaseFault::NotATree { first, second } => Fault::NotATree { first, second },
            CaseFault::Overlap { first, second } => Fault::Overlap { first, second },
            CaseFault::BadLabel { line } => Fault::BadLabel { line },
            CaseFault::NoSuchLeaf { line } => Fault::NoSuchLeaf { line },
            CaseFault::ProofTwice { line } => Fault::ProofTwice { line },
        }
    }
}

impl From<DimacsFault> for Fault {
    ghost use Rattle.std.specs.Prelude.{◌≡◌};
    ghost use Rattle.run_terms.specs.Faults.{fault_of_dimacs};

    ghost from_gives = { λ fault told. told ≡ fault_of_dimacs fault };

    fn from(fault: DimacsFault) -> Fault {
        match fault {
            DimacsFault::NoProblem => Fault::NoProblem,
            DimacsFault::Text(fault) => Fault::from(CaseFault::from(fault)),
            DimacsFault::Counts {
                variables,
                clauses,
                greatest,
                found,
            } => Fault::Counts {
                variables,
                clauses,
                greatest,
                found,
            },
        }
    }
}
