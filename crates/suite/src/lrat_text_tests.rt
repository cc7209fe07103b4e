//! Texts of proofs, and the steps that are read of them one after another.
use crate::literals::are_lits;
use lrat_text::{Group, Step, StepFault, Steps};
use std::alloc::Global;

/// What the reader has to answer next.
#[derive(Clone, Copy)]
enum Wanted {
    /// An addition: its id, literals, hints, and the candidates of its groups with their hints.
    Addition(u64, &'static [i32], &'static [u64], &'static [(u64, &'static [u64])]),
    Deletion(&'static [u64]),
    End,
    Unreadable,
}

fn are_groups(groups: &[Group], wanted: &[(u64, &[u64])]) -> bool {
    for (place, (candidate, hints)) in wanted.iter().enumerate() {
        match groups.get(place) {
            Some(group) if group.candidate == *candidate && group.hints.as_slice() == *hints => {}
            _ => return false,
        }
    }
    groups.len() == wanted.len()
}

fn is_step(step: &Step, wanted: &Wanted) -> bool {
    match (step, wanted) {
        (
            Step::Add {
                id,
                lits,
                hints,
                groups,
            },
            Wanted::Addition(number, literals, leading, grouped),
        ) => {
            id == number
                && are_lits(lits, literals)
                && hints.as_slice() == *leading
                && are_groups(groups, grouped)
        }
        (Step::Delete { ids }, Wanted::Deletion(named)) => ids.as_slice() == *named,
        _ => false,
    }
}

/// The next step, asked for a second time where memory was refused at the first.
fn next_again(alloc: Global, steps: &mut Steps<'_>) -> Result<Option<Step>, StepFault> {
    match steps.next(alloc) {
        Err(StepFault::Memory) => steps.next(alloc),
        answer => answer,
    }
}

fn is_answered(alloc: Global, steps: &mut Steps<'_>, wanted: &Wanted) -> bool {
    match next_again(alloc, steps) {
        Ok(Some(step)) => is_step(&step, wanted),
        Ok(None) => matches!(wanted, Wanted::End),
        Err(StepFault::Unreadable) => matches!(wanted, Wanted::Unreadable),
        Err(StepFault::Memory) => false,
    }
}

/// Whether a text is answered so.
fn reads(alloc: Global, text: &[u8], answers: &[Wanted]) -> bool {
    let mut steps = Steps::new(text);
    for wanted in answers {
        if !is_answered(alloc, &mut steps, wanted) {
            return false;
        }
    }
    true
}

/// A refused call changes nothing: the next one gives the step that it would have given.
/// scripts/refused.sh runs this test with each of its requests for memory refused.
#[test]
fn step_after_refused_memory(rt: HostRuntime) {
    let answers = [
        Wanted::Addition(7, &[3, -4], &[5, 6], &[(6, &[1, 2]), (8, &[3])]),
        Wanted::Deletion(&[7, 5]),
        Wanted::End,
    ];
    assert!(rt;
        reads(
            rt.alloc(),
            b"7 3 -4 0 5 6 -6 1 2 -8 3 0\n9 d 7 5 0\n",
            &answers
        )
    );
}

/// The greatest id is 2^62. What is unreadable stays so.
#[test]
fn the_greatest_id(rt: HostRuntime) {
    let answers = [
        Wanted::Addition(4_611_686_018_427_387_904, &[1], &[], &[]),
        Wanted::Unreadable,
        Wanted::Unreadable,
    ];
    let text = b"4611686018427387904 1 0 0\nc note\n4611686018427387905 1 0 0";
    assert!(rt; reads(rt.alloc(), text, &answers));
}
