//! What a caller may do beside each job.

ghost use Rattle.std.specs.Prelude.{◌≤◌};
ghost use Rattle.board_hall.specs.Halls.{view_of};
ghost use Rattle.check_crew.specs.Seen.{IsTold};

use board_hall::Pass;
use case_core::{Case, Judged, NodeId, Target};
use mark_board::Place;
use std::alloc::{AllocError, Global};

/// The proofs that lie elsewhere, beside the case's sections, as far as that can be told before
/// they are read.
#[derive(Clone, Copy, PartialEq, Eq, Debug)]
pub struct Elsewhere {
    /// How many there are.
    pub proofs: u64,
    /// How many bytes all of them have.
    pub bytes: u64,
}

/// What a worker found of a section, or of a proof that lies elsewhere, and what the boards said
/// when it had posted that.
#[derive(Drop)]
pub struct Found<'a> {
    /// The case of the run.
    pub case: &'a Case,
    /// The target of the section or of the proof.
    pub target: Target,
    /// The node at which the target stands.
    pub node: NodeId,
    /// How many bytes the proof has.
    pub length: usize,
    /// What is said of the proof.
    pub judged: Judged,
    /// The place of the board on which findings of this node are posted.
    pub place: Place,
    /// The open weight of that board by the posts that the pass has seen.
    pub weight: u64,
    /// The worker's own pass. The posts that it has seen hold this finding.
    pub pass: &'a Pass,
}

/// Called by a run, and by each worker beside each of its jobs. The workers of a run share one
/// gate.
pub trait Gate {
    /// Once, before the first worker starts: the case of the run, the depth at which its tree is
    /// cut, from 0 to 6, and the proofs that lie elsewhere, beside the case's sections.
    /// Where it answers `AllocError`, the run ends as it does where a growth is refused.
    fn start(
        &self,
        _alloc: Global,
        _case: &Case,
        _cut: u32,
        _elsewhere: Elsewhere,
    ) -> Result<(), AllocError>
        requires { _cut ≤ 6 }
    {
        Ok(())
    }

    /// Before the worker of this number, from 0, examines the target's section, or the proof that
    /// lies elsewhere for it.
    fn before(&self, worker: u32, target: Target);

    /// After what this worker found, and a part that it then owed, were posted.
    fn after(&self, worker: u32, found: &Found<'_>)
        requires { IsTold (view_of found.now.pass.now) found.now.case.now found.now.target
            found.now.node found.now.judged found.now.place found.now.weight };

    /// By a worker that finds that the run has to be made with all proofs in one bundle, because of
    /// the proof of this target: it has a label line, or the target has a section, too.
    fn falls_back(&self, _target: Target) {}

    /// Once, after all workers that were started have been joined.
    fn end(&self) {}
}

/// A gate that does nothing.
#[derive(Clone, Copy, Debug)]
pub struct NoGate;

impl Gate for NoGate {
    fn before(&self, _worker: u32, _target: Target) {}

    fn after(&self, _worker: u32, _found: &Found<'_>) {}
}
