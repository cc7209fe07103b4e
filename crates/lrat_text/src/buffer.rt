//! Room for the parts of one step, which its owner uses again for the next.

ghost use Rattle.std.specs.Prelude.{◌≡◌, ◌<◌, length, slice_index_or, IfOk};
ghost use Rattle.lrat_text.specs.Grammar.{no_group};
ghost use Rattle.lrat_text.specs.Buffer.{no_parts, ids_between};
ghost use Rattle.lrat_text.specs.Step.{step_of, told_step};

use crate::step::{Group, Step, StepKind};
use cnf_text::literal::Lit;
use std::alloc::{AllocError, Global};
use std::marker::Model;

/// A group of hints that is a run of a buffer's ids.
#[derive(Clone, Copy)]
pub(crate) struct GroupRun {
    pub(crate) candidate: u64,
    /// The place of its first hint.
    pub(crate) start: usize,
    /// The place behind its last hint.
    pub(crate) end: usize,
}

/// The parts of one step: of an addition the literals, the leading hints and the groups; of a
/// deletion its ids, in the place of the hints. What it has room for it keeps, so that reading many
/// steps into one buffer takes memory only where a step is larger than all before it.
#[derive(Drop)]
pub struct StepBuffer {
    pub(crate) lits: Vec<Lit>,
    /// The leading hints, and behind them those of the groups.
    pub(crate) ids: Vec<u64>,
    pub(crate) leading: usize,
    pub(crate) runs: Vec<GroupRun>,
}

impl Model for StepBuffer {
    ghost use Rattle.lrat_text.specs.Buffer.{StepParts, ids_between, groups_in};

    ghost Value = { StepParts };

    ghost view = { λ b. record {
      literals = b.lits.items;
      hints = ids_between 0 b.leading b.ids.items;
      groups = groups_in b.ids.items b.runs.items;
    } };
}

/// The ids from place `start` up to place `end`, as far as there are any.
fn ids_between(ids: &[u64], start: usize, end: usize) -> &[u64]
    ensures { result.now ≡ ids_between start end ids.now }
{
    let (_, rest) = ids.split_at(start.min(ids.len()));
    let (run, _) = rest.split_at(end.saturating_sub(start).min(rest.len()));
    run
}

impl StepBuffer {
    /// A buffer with no parts. It takes no memory yet.
    pub fn new(alloc: Global) -> StepBuffer
        ensures { result ≡ no_parts }
    {
        StepBuffer {
            lits: Vec::new(alloc),
            ids: Vec::new(alloc),
            leading: 0,
            runs: Vec::new(alloc),
        }
    }

    /// The literals of an addition, in the order as written.
    pub fn lits(&self) -> &[Lit]
        ensures { result.now ≡ self.now.literals }
    {
        &self.lits
    }

    /// The leading hints of an addition, or the ids of a deletion, in the order as written.
    pub fn hints(&self) -> &[u64]
        ensures { result.now ≡ self.now.hints }
    {
        ids_between(&self.ids, 0, self.leading)
    }

    /// How many groups of hints there are.
    pub fn group_count(&self) -> usize
        ensures { result ≡ length self.now.groups }
    {
        self.runs.len()
    }

    /// The candidate and the hints of the group in this place, counted from 0 in the order as
    /// written. There has to be such a group.
    pub fn group(&self, place: usize) -> (u64, &[u64])
        requires { place < length self.now.groups }
        ensures { record { candidate = result.0; hints = result.1.now }
            ≡ slice_index_or self.now.groups place no_group }
    {
        let run = self.runs[place];
        (run.candidate, ids_between(&self.ids, run.start, run.end))
    }

    /// The groups, each with room of its own.
    fn groups(&self, alloc: Global) -> Result<Vec<Group>, AllocError>
        ensures { IfOk result (λ groups. groups.items ≡ self.now.groups) }
    {
        let mut groups = Vec::new(alloc);
        for place in 0..self.group_count() {
            let (candidate, hints) = self.group(place);
            groups.push(Group {
                candidate,
                hints: hints.to_vec(alloc)?,
            })?;
        }
        Ok(groups)
    }

    /// The step of this kind that has these parts, with room of its own.
    pub fn to_step(&self, alloc: Global, kind: StepKind) -> Result<Step, AllocError>
        ensures { IfOk result (λ step. step_of step ≡ told_step kind self.now) }
    {
        match kind {
            StepKind::Add { id } => Ok(Step::Add {
                id,
                lits: self.lits().to_vec(alloc)?,
                hints: self.hints().to_vec(alloc)?,
                groups: self.groups(alloc)?,
            }),
            StepKind::Delete => Ok(Step::Delete {
                ids: self.hints().to_vec(alloc)?,
            }),
        }
    }
}
