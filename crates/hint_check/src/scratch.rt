//! What judgements write on.
ghost use Rattle.std.specs.Prelude.{◌≡◌, []};
ghost use Rattle.lrat_text.specs.Buffer.{no_parts};
ghost use Rattle.hint_check.specs.Addition.{no_literals};
ghost use Rattle.hint_check.specs.Inner.Assignment.{set_of};

use crate::assignment::Assignment;
use cnf_text::literal::Lit;
use lrat_text::StepBuffer;
use std::alloc::Global;

/// What is written on to look at a clause.
#[derive(Drop)]
pub struct ClauseScratch {
    /// Its literals, in a list.
    pub lits: Vec<Lit>,
    /// Its literals, or their negations.
    pub set: Assignment,
}

impl ClauseScratch {
    /// With room for nothing. It takes no memory yet.
    pub fn new(alloc: Global) -> ClauseScratch
        ensures lits { result.lits.items ≡ [] }
        ensures set { set_of result.set ≡ no_literals }
    {
        ClauseScratch {
            lits: Vec::new(alloc),
            set: Assignment::new(alloc),
        }
    }
}

/// What is written on to find the candidates of a step.
#[derive(Drop)]
pub struct Candidates {
    /// The ids of the clauses that may be candidates.
    pub ids: Vec<u64>,
    /// A clause that is looked at.
    pub clause: ClauseScratch,
}

impl Candidates {
    /// With room for nothing. It takes no memory yet.
    fn new(alloc: Global) -> Candidates
        ensures ids { result.ids.items ≡ [] }
        ensures lits { result.clause.lits.items ≡ [] }
        ensures set { set_of result.clause.set ≡ no_literals }
    {
        Candidates {
            ids: Vec::new(alloc),
            clause: ClauseScratch::new(alloc),
        }
    }
}

/// What the judgement of a step writes on: the step that is read, a set of literals, and what its
/// candidates are found on. No judgement sees what an earlier one left there.
#[derive(Drop)]
pub struct Scratch {
    pub step: StepBuffer,
    /// The literals that the hints of a step have made true.
    pub reached: Assignment,
    pub candidates: Candidates,
}

impl Scratch {
    /// With room for nothing. It takes no memory yet.
    pub fn new(alloc: Global) -> Scratch
        ensures step { result.step ≡ no_parts }
        ensures reached { set_of result.reached ≡ no_literals }
        ensures ids { result.candidates.ids.items ≡ [] }
        ensures lits { result.candidates.clause.lits.items ≡ [] }
        ensures set { set_of result.candidates.clause.set ≡ no_literals }
    {
        Scratch {
            step: StepBuffer::new(alloc),
            reached: Assignment::new(alloc),
            candidates: Candidates::new(alloc),
        }
    }
}
