//! The live clauses that need a group of hints, by their ids.
ghost use Rattle.std.specs.Prelude.{◌≡◌, ◌==◌, IfOk, OnOk};
ghost use Rattle.std.specs.BTreeSet.{contains};
ghost use Rattle.std.specs.List.{list_any};
ghost use Rattle.cnf_text.specs.Literal.{negation};
ghost use Rattle.hint_check.specs.Inner.Assignment.{set_of};
ghost use Rattle.hint_check.specs.Inner.Live.{NamesHolders};
ghost use Rattle.hint_check.specs.Inner.Needed.{is_needed, HasAll, NamesNeeded};

use crate::assignment::Assignment;
use crate::in_order::InOrder;
use crate::live::LiveClauses;
use crate::scratch::ClauseScratch;
use crate::tautology::{holds_with_none_true, is_found_tautology};
use cnf_text::literal::Lit;
use std::alloc::{AllocError, Global};
use std::marker::Model;

/// Up to this many ids are looked at one by one, and so many look-ups go over a list of any length.
pub const FEW: usize = 8;

/// Ids in a list, and in order besides where many are looked up in a list that is long. To a
/// contract it is the list.
#[derive(Drop)]
pub struct Listed<'l> {
    ids: &'l [u64],
    in_order: Option<InOrder>,
}

impl<'l> Model for Listed<'l> {
    ghost use Rattle.std.specs.Prelude.{List, ℕ};
    ghost use Rattle.std.specs.Option.{IfSome};
    ghost use Rattle.hint_check.specs.Inner.Needed.{HasAll};

    ghost Value = { List ℕ };

    ghost view = { λ listed. listed.ids.now };

    ghost invariant = { λ listed. IfSome listed.in_order
        (λ ordered. HasAll ordered listed.ids.now) };
}

impl<'l> Listed<'l> {
    ghost use Rattle.std.specs.Prelude.{◌≡◌, ◌==◌, IfOk};
    ghost use Rattle.std.specs.List.{list_any};

    /// These ids, of which so many will be looked up.
    pub fn new(alloc: Global, ids: &'l [u64], look_ups: usize) -> Result<Listed<'l>, AllocError>
        ensures { IfOk result (λ listed. listed ≡ ids.now) }
    {
        if ids.len() <= FEW || look_ups <= FEW {
            return Ok(Listed {
                ids,
                in_order: None,
            });
        }
        Ok(Listed {
            ids,
            in_order: Some(in_order(alloc, ids)?),
        })
    }

    /// The ids in the list, as often as they stand there.
    pub fn ids(&self) -> &'l [u64]
        ensures { result.now ≡ self.now }
    {
        self.ids
    }

    /// Whether an id is in the list.
    pub fn contains(&self, id: u64) -> bool
        ensures { result ≡ list_any (λ named. named == id) self.now }
    {
        match &self.in_order {
            Some(ids) => ids.contains(id),
            None => self.ids.contains(&id),
        }
    }
}

/// The ids of a list, in order.
fn in_order(alloc: Global, ids: &[u64]) -> Result<InOrder, AllocError>
    ensures { IfOk result (λ ordered. HasAll ordered ids.now) }
{
    let mut copy = Vec::new(alloc);
    copy.extend_from_slice(ids)?;
    Ok(InOrder::of(copy))
}

/// Whether the clause that is live under an id needs a group. The scratch is for nothing else.
fn is_needed(
    live: &LiveClauses,
    reached: &Assignment,
    scratch: &mut ClauseScratch,
    pivot: Lit,
    id: u64,
) -> Result<bool, AllocError>
    ensures { IfOk result
        (λ needed. needed ≡ is_needed live.now.0 (set_of reached.now) pivot id) }
{
    let Some(clause) = live.get(id) else {
        return Ok(false);
    };
    if !holds_with_none_true(&clause, pivot.negated(), reached) {
        return Ok(false);
    }
    if !clause.may_clash() {
        return Ok(true);
    }
    let ClauseScratch { lits, set } = scratch;
    clause.list(lits)?;
    let tautology = is_found_tautology(set, lits)?;
    Ok(!tautology)
}

/// Keeps of these ids, which name the holders of the pivot's negation, those whose clauses need a
/// group.
pub fn keep_needed(
    live: &LiveClauses,
    reached: &Assignment,
    scratch: &mut ClauseScratch,
    pivot: Lit,
    ids: &mut Vec<u64>,
) -> Result<(), AllocError>
    requires { NamesHolders live.now.0 (negation pivot) ids.old.items }
    ensures { OnOk result (NamesNeeded live.now.0 (set_of reached.now) pivot ids.new.items) }
{
    let mut kept = 0;
    for place in 0..ids.len() {
        let id = ids[place];
        if is_needed(live, reached, scratch, pivot, id)? {
            ids[kept] = id;
            kept += 1;
        }
    }
    ids.truncate(kept);
    Ok(())
}
