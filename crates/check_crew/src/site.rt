//! What the workers of a run share, and how they post what they find.

ghost use Rattle.std.specs.Prelude.{◌≡◌, None, IsTrue};
ghost use Rattle.case_core.specs.Finding.{HasSection, IsFinding, target_of};
ghost use Rattle.case_core.specs.Leaves.{IsTargetAt};
ghost use Rattle.board_hall.specs.Halls.{core_of, shared_of, view_of, IsPassOf};
ghost use Rattle.board_hall.specs.Clauses.{IsOfSection, PostsNothing, Stays};
ghost use Rattle.check_crew.specs.Seen.{HasSeenMark};

use crate::gate::{Found, Gate};
use board_hall::{Core, Pass};
use case_core::{Case, Finding, Judged, NodeId, ReadFinding, Target};
use mark_board::Posted;
use std::alloc::{AllocError, Global};
use std::sync::Wait;

/// What the workers of a run share: what they wait by and have memory from, the case, the hall and
/// the gate.
pub(crate) struct Site<'a, 'c, R, G> {
    pub(crate) rt: &'a R,
    pub(crate) alloc: Global,
    pub(crate) case: &'c Case,
    pub(crate) core: &'a Core,
    pub(crate) gate: &'a G,
}

// A derive would ask that `R` and `G` are `Copy`, too.
impl<'a, 'c, R, G> Clone for Site<'a, 'c, R, G> {
    fn clone(&self) -> Result<Self, AllocError> {
        Ok(*self)
    }
}

impl<'a, 'c, R, G> Copy for Site<'a, 'c, R, G> {}

/// A proof that was judged: whose it is, at which node that target stands, how many bytes the proof
/// has, and what is said of it.
#[derive(Clone, Copy)]
struct JudgedProof {
    target: Target,
    node: NodeId,
    length: usize,
    judged: Judged,
}

/// Posts what a worker found of a proof, and then the part that is owed, if any. Answers whether
/// its target had nothing posted; then the gate is told, too.
pub(crate) fn post_found<'c, R: Wait, G: Gate>(
    site: Site<'_, 'c, R, G>,
    worker: u32,
    pass: &mut Pass,
    read: ReadFinding<'c>,
) -> bool
    requires case { site.case.now ≡ (core_of site.core.now).case }
    requires read { read.finding.case.now ≡ site.case.now }
    requires section { IsOfSection (core_of site.core.now) read.finding }
    requires own { IsPassOf (shared_of site.core.now) pass.old }
    requires free { (view_of pass.old).owes ≡ None }
    ensures own { IsPassOf (shared_of site.entry.core.now) pass.new }
    ensures free { (view_of pass.new).owes ≡ None }
    ensures stays { Stays (view_of pass.old) (view_of pass.new) }
    // A section's finding has been seen then, whoever posted it.
    ensures section { HasSection site.entry.case.now
        (target_of read.entry.finding.leaf read.entry.finding.node)
        → HasSeenMark (view_of pass.new) read.entry.finding.node read.entry.finding.judged }
    ensures new { IsTrue result
        → HasSeenMark (view_of pass.new) read.entry.finding.node read.entry.finding.judged }
{
    let ReadFinding { finding, length } = read;
    let proof = JudgedProof {
        target: finding.target(),
        node: finding.node(),
        length,
        judged: finding.judged(),
    };
    let is_new = post(site, pass, finding);
    if is_new {
        tell(site, worker, pass, proof);
    }
    is_new
}

/// Posts a finding, and then the part that is owed, if any; answers whether its target had none.
fn post<'c, R: Wait, G>(site: Site<'_, 'c, R, G>, pass: &mut Pass, finding: Finding<'c>) -> bool
    requires case { site.case.now ≡ (core_of site.core.now).case }
    requires finding { finding.case.now ≡ site.case.now }
    requires section { IsOfSection (core_of site.core.now) finding }
    requires own { IsPassOf (shared_of site.core.now) pass.old }
    requires free { (view_of pass.old).owes ≡ None }
    ensures own { IsPassOf (shared_of site.entry.core.now) pass.new }
    ensures free { (view_of pass.new).owes ≡ None }
    ensures stays { Stays (view_of pass.old) (view_of pass.new) }
    ensures section { HasSection site.entry.case.now
        (target_of finding.entry.leaf finding.entry.node)
        → HasSeenMark (view_of pass.new) finding.entry.node finding.entry.judged }
    ensures new { IsTrue result
        → HasSeenMark (view_of pass.new) finding.entry.node finding.entry.judged }
{
    match site.core.post(site.rt, site.case, pass, finding) {
        Posted::Already(_) => false,
        Posted::RootMarked(verdict) => {
            let _ = site.core.post_part(site.rt, site.case, pass, verdict);
            true
        }
        Posted::Marked | Posted::TopMarked => true,
    }
}

/// Tells the gate what was found of a target, and has been seen on its board.
fn tell<R, G: Gate>(site: Site<'_, '_, R, G>, worker: u32, pass: &mut Pass, proof: JudgedProof)
    requires case { site.case.now ≡ (core_of site.core.now).case }
    requires here { IsTargetAt site.case.now.tree proof.node proof.target }
    requires is { IsFinding site.case.now proof.target proof.judged }
    requires own { IsPassOf (shared_of site.core.now) pass.old }
    requires seen { HasSeenMark (view_of pass.old) proof.node proof.judged }
    ensures own { IsPassOf (shared_of site.entry.core.now) pass.new }
    ensures stays { Stays (view_of pass.old) (view_of pass.new) }
    ensures nothing { PostsNothing (view_of pass.old) (view_of pass.new) }
{
    let board = site.core.place_of(site.case, proof.node);
    let weight = site.core.open_weight(pass, board);
    let found = Found {
        case: site.case,
        target: proof.target,
        node: proof.node,
        length: proof.length,
        judged: proof.judged,
        place: board,
        weight,
        pass,
    };
    site.gate.after(worker, &found);
}
