//! A plain judge, for tests alone: each proof has its own copy of all clauses in a list, a set of
//! literals is a list that is searched, and a RAT step looks at all live clauses. It is written
//! from the rules of judging and shares no code with the judge that it is compared with.
use cnf_text::formula::Formula;
use cnf_text::literal::Lit;
use hint_check::{Judged, Reason};
use lrat_text::{Group, Step, StepFault, Steps};
use std::alloc::Global;
use std::process::Abort;

/// A live clause under its id.
#[derive(Drop)]
struct Entry {
    id: u64,
    lits: Vec<Lit>,
}

/// Where a run along hints led to.
enum Outcome {
    /// To this set of literals.
    Reached(Vec<Lit>),
    Bad(Reason),
    Conflict,
}

/// The whole steps of a text, and what stands after them.
#[derive(Drop)]
struct Proof {
    steps: Vec<Step>,
    end: Reason,
}

/// What is said of a proof from a formula and a path.
pub fn judge(
    rt: &impl Abort,
    alloc: Global,
    formula: &Formula,
    path: &[Lit],
    text: &[u8],
) -> Judged {
    let mut live = start(rt, alloc, formula, path);
    let proof = read(rt, alloc, text);
    judge_steps(rt, alloc, &mut live, &proof)
}

/// The same of the steps that were read, where these clauses are live at the start.
fn judge_steps(rt: &impl Abort, alloc: Global, live: &mut Vec<Entry>, proof: &Proof) -> Judged {
    let mut step = 1u64;
    for next in &proof.steps {
        if holds_empty_clause(live) {
            return Judged::Refuted;
        }
        if let Some(reason) = step_fault(rt, alloc, live, next) {
            return Judged::Rejected { step, reason };
        }
        *live = after_step(rt, alloc, live, next);
        step = step.saturating_add(1);
    }
    if holds_empty_clause(live) {
        return Judged::Refuted;
    }
    Judged::Rejected {
        step,
        reason: proof.end,
    }
}

/// Each step takes a byte, so the loop ends with an answer of the reader.
fn read(rt: &impl Abort, alloc: Global, text: &[u8]) -> Proof {
    let mut reader = Steps::new(text);
    let mut steps = Vec::new(alloc);
    let mut end = Reason::Unreadable;
    for _ in 0..=text.len() {
        match reader.next(alloc) {
            Ok(Some(step)) => steps.push(step).expect(rt, "memory"),
            Ok(None) => {
                end = Reason::End;
                break;
            }
            Err(fault) => {
                assert!(rt; fault == StepFault::Unreadable);
                break;
            }
        }
    }
    Proof { steps, end }
}

fn copy(rt: &impl Abort, alloc: Global, lits: &[Lit]) -> Vec<Lit> {
    Vec::from_slice(alloc, lits).expect(rt, "memory")
}

/// Adds a copy of a clause under an id.
fn push(rt: &impl Abort, alloc: Global, live: &mut Vec<Entry>, id: u64, lits: &[Lit]) {
    let lits = copy(rt, alloc, lits);
    live.push(Entry { id, lits }).expect(rt, "memory");
}

/// The formula's clauses and then the path's unit clauses, under the ids from 1 on.
fn start(rt: &impl Abort, alloc: Global, formula: &Formula, path: &[Lit]) -> Vec<Entry> {
    let mut live = Vec::new(alloc);
    let mut id = 1u64;
    for clause in formula.clauses() {
        push(rt, alloc, &mut live, id, clause.lits());
        id = id.saturating_add(1);
    }
    for lit in path {
        push(rt, alloc, &mut live, id, &[*lit]);
        id = id.saturating_add(1);
    }
    live
}

fn holds_empty_clause(live: &[Entry]) -> bool {
    for entry in live {
        if entry.lits.is_empty() {
            return true;
        }
    }
    false
}

fn clause_at(live: &[Entry], id: u64) -> Option<&[Lit]> {
    for entry in live {
        if entry.id == id {
            return Some(&entry.lits);
        }
    }
    None
}

fn has(lits: &[Lit], lit: Lit) -> bool {
    lits.contains(&lit)
}

fn is_tautology(lits: &[Lit]) -> bool {
    for lit in lits {
        if has(lits, lit.negated()) {
            return true;
        }
    }
    false
}

/// The live clauses after a good step.
fn after_step(rt: &impl Abort, alloc: Global, live: &[Entry], step: &Step) -> Vec<Entry> {
    let mut after = Vec::new(alloc);
    for entry in live {
        let deleted = match step {
            Step::Delete { ids } => ids.contains(&entry.id),
            Step::Add { .. } => false,
        };
        if !deleted {
            push(rt, alloc, &mut after, entry.id, &entry.lits);
        }
    }
    if let Step::Add { id, lits, .. } = step {
        push(rt, alloc, &mut after, *id, lits);
    }
    after
}

/// What is wrong with a step. A deletion is always good.
fn step_fault(rt: &impl Abort, alloc: Global, live: &[Entry], step: &Step) -> Option<Reason> {
    let Step::Add {
        id,
        lits,
        hints,
        groups,
    } = step
    else {
        return None;
    };
    if clause_at(live, *id).is_some() {
        return Some(Reason::Id);
    }
    if is_tautology(lits) {
        return None;
    }
    match follow(rt, live, negations(rt, alloc, lits), hints) {
        Outcome::Conflict => None,
        Outcome::Bad(reason) => Some(reason),
        Outcome::Reached(reached) => match lits.first() {
            None => Some(Reason::Empty),
            Some(pivot) => resolution_fault(rt, alloc, live, &reached, *pivot, groups),
        },
    }
}

fn negations(rt: &impl Abort, alloc: Global, lits: &[Lit]) -> Vec<Lit> {
    let mut set = Vec::new(alloc);
    for lit in lits {
        set.push(lit.negated()).expect(rt, "memory");
    }
    set
}

/// Unit propagation along hints: each clause forces its one literal that isn't falsified.
fn follow(rt: &impl Abort, live: &[Entry], mut set: Vec<Lit>, hints: &[u64]) -> Outcome {
    for hint in hints {
        let Some(clause) = clause_at(live, *hint) else {
            return Outcome::Bad(Reason::Hint);
        };
        match forced(&set, clause) {
            Ok(None) => return Outcome::Conflict,
            Ok(Some(lit)) => set.push(lit).expect(rt, "memory"),
            Err(reason) => return Outcome::Bad(reason),
        }
    }
    Outcome::Reached(set)
}

/// The one literal of a clause that a set doesn't falsify, if there is one.
fn forced(set: &[Lit], clause: &[Lit]) -> Result<Option<Lit>, Reason> {
    let mut forced = None;
    for lit in clause {
        if has(set, lit.negated()) {
            continue;
        }
        match forced {
            None => forced = Some(*lit),
            Some(other) => {
                if other != *lit {
                    return Err(Reason::Unit);
                }
            }
        }
    }
    Ok(forced)
}

/// A live clause that has the pivot's negation needs a group, unless it is a tautology or another
/// of its literals is reached.
fn needs_group(reached: &[Lit], pivot: Lit, clause: &[Lit]) -> bool {
    for lit in clause {
        if *lit != pivot.negated() && has(reached, *lit) {
            return false;
        }
    }
    has(clause, pivot.negated()) && !is_tautology(clause)
}

fn has_group(groups: &[Group], id: u64) -> bool {
    for group in groups {
        if group.candidate == id {
            return true;
        }
    }
    false
}

/// The first fault of the groups in the order written, and then whether a clause that needs a group
/// has none.
fn resolution_fault(
    rt: &impl Abort,
    alloc: Global,
    live: &[Entry],
    reached: &[Lit],
    pivot: Lit,
    groups: &[Group],
) -> Option<Reason> {
    for group in groups {
        if let Some(reason) = group_fault(rt, alloc, live, reached, pivot, group) {
            return Some(reason);
        }
    }
    for entry in live {
        if needs_group(reached, pivot, &entry.lits) && !has_group(groups, entry.id) {
            return Some(Reason::Candidate);
        }
    }
    None
}

/// The group of a clause that needs one has to lead to a conflict; the hints of any other are not
/// followed.
fn group_fault(
    rt: &impl Abort,
    alloc: Global,
    live: &[Entry],
    reached: &[Lit],
    pivot: Lit,
    group: &Group,
) -> Option<Reason> {
    let clause = clause_at(live, group.candidate)?;
    if !needs_group(reached, pivot, clause) {
        return None;
    }
    let mut set = copy(rt, alloc, reached);
    for lit in clause {
        if *lit != pivot.negated() {
            set.push(lit.negated()).expect(rt, "memory");
        }
    }
    match follow(rt, live, set, &group.hints) {
        Outcome::Conflict => None,
        Outcome::Bad(reason) => Some(reason),
        Outcome::Reached(_) => Some(Reason::Group),
    }
}
