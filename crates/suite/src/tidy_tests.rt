//! Proofs with so many clauses that are deleted that the room of these is given back, and so are
//! the slots of their ids, which rise.
use crate::judges::{Work, with_judge};
use crate::judging_tests::{expected, judged_by};
use fixtures::bundles::FOUR;
use hint_check::{Base, Judge, Judged, Reason};
use std::alloc::Global;
use std::process::Abort;

/// Steps, and the number of the one that isn't good with what is wrong with it, or nothing.
type End = (&'static str, Option<(u64, Reason)>);

/// Lemmas that stay, with ids that are near and far, over the four clauses.
const STAYING: &str = "5 1 10 0 1 2 0\n1000000 1 11 0 1 2 0\n1000233 1 12 0 1 2 0\n";

/// The ids of the clauses that are put in and deleted at once.
const FIRST: u64 = 6;

const BEHIND: u64 = 70_006;

/// Steps that need what stays: three, behind 140,003.
const NEEDING: &str = "80000 1 10 0 5 0\n80001 1 11 0 1000000 0\n80002 1 12 0 1000233 0\n";

/// What follows: a lemma that is replaced, an id that comes back and a refutation; or a hint that
/// is no id any more.
const ENDS: &[End] = &[
    (
        "0 d 5 0\n5 1 13 0 1 2 0\n80003 1 13 0 5 0\n40000 1 14 0 1 2 0\n80004 1 14 0 40000 0\n\
         80005 1 0 1 2 0\n80006 0 80005 3 4 0\n",
        None,
    ),
    ("80003 1 0 70005 0\n", Some((140_007, Reason::Hint))),
];

/// What the same judge is given then: proofs by ids near those of the formula.
const NEXT: &[End] = &[
    ("5 1 0 1 2 0\n6 0 5 3 4 0\n", None),
    ("6 1 10 0 5 0\n", Some((1, Reason::Hint))),
];

/// The steps that put in and delete the others.
fn push_gone(rt: &impl Abort, alloc: Global, text: &mut Vec<u8>) {
    for id in FIRST..BEHIND {
        let steps = format!(in alloc; "{id} 1 -1 0 0\n0 d {id} 0\n").expect(rt, "memory");
        text.extend_from_slice(steps.as_bytes())
            .expect(rt, "memory");
    }
}

/// All these steps and this end.
fn push_tidy(rt: &impl Abort, alloc: Global, text: &mut Vec<u8>, end: &str) {
    text.extend_from_slice(STAYING.as_bytes())
        .expect(rt, "memory");
    push_gone(rt, alloc, text);
    text.extend_from_slice(NEEDING.as_bytes())
        .expect(rt, "memory");
    text.extend_from_slice(end.as_bytes()).expect(rt, "memory");
}

/// Judges all these steps with an end.
fn need_end(rt: &impl Abort, alloc: Global, judge: &mut Judge, end: &str, wanted: Judged) {
    let mut text = Vec::new(alloc);
    push_tidy(rt, alloc, &mut text, end);
    assert_eq!(rt; judged_by(rt, alloc, judge, &[], &text), wanted);
}

/// Judges what the same judge is given then.
fn need_next(rt: &impl Abort, alloc: Global, judge: &mut Judge) {
    for (text, fault) in NEXT {
        let judged = judged_by(rt, alloc, judge, &[], text.as_bytes());
        assert_eq!(rt; judged, expected(*fault));
    }
}

/// Judges each of these texts by one judge.
#[derive(Drop)]
struct OneAfterTheOther;

impl Work for OneAfterTheOther {
    fn with<R: Abort>(&mut self, rt: &R, alloc: Global, judge: &mut Judge, _base: &Base) {
        for (end, fault) in ENDS {
            need_end(rt, alloc, judge, end, expected(*fault));
            need_next(rt, alloc, judge);
        }
    }
}

#[test]
fn lemmas_that_stay_are_kept(rt: HostRuntime) {
    with_judge(&rt, rt.alloc(), FOUR, &mut OneAfterTheOther);
}
