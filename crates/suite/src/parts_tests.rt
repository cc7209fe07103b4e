//! Proofs that are handed over in parts are judged as they are whole.
use crate::judges::{PartWork, with_judging};
use crate::judging_tests::{Proof, Table, expected, over_four, over_others};
use crate::literals::{formula, lits};
use cnf_text::literal::Lit;
use hint_check::{Base, Judged, Judging, Reason};
use std::alloc::Global;
use std::process::Abort;

/// What is said of a text that a judging gets in these parts.
fn judged_by_parts(
    rt: &impl Abort,
    alloc: Global,
    judging: &mut Judging,
    path: &[Lit],
    parts: &[&[u8]],
) -> Judged {
    judging.begin(path).expect(rt, "memory");
    for part in parts {
        judging.more(alloc, part).expect(rt, "memory");
    }
    judging.end(alloc).expect(rt, "memory")
}

/// A path and a text in parts, and what is said of it.
#[derive(Drop)]
struct InParts<'t> {
    path: &'t [Lit],
    parts: &'t [&'t [u8]],
    judged: Judged,
}

impl<'t> PartWork for InParts<'t> {
    fn with<R: Abort>(&mut self, rt: &R, alloc: Global, judging: &mut Judging) {
        self.judged = judged_by_parts(rt, alloc, judging, self.path, self.parts);
    }
}

/// What is said where no judging was at work: no step has the number 0.
const NOT_JUDGED: Judged = Judged::Rejected {
    step: 0,
    reason: Reason::End,
};

/// The same of a judging that has judged nothing yet.
pub fn judged_in_parts(
    rt: &impl Abort,
    alloc: Global,
    base: &Base,
    path: &[Lit],
    parts: &[&[u8]],
) -> Judged {
    let mut work = InParts {
        path,
        parts,
        judged: NOT_JUDGED,
    };
    with_judging(rt, alloc, base, &mut work);
    work.judged
}

/// Whether a proof is judged as expected wherever its text is cut in two.
fn is_expected(rt: &impl Abort, alloc: Global, judging: &mut Judging, proof: &Proof) -> bool {
    let (path, text, fault) = *proof;
    let path = lits(rt, alloc, path);
    let text = text.as_bytes();
    for cut in 0..text.len() {
        let parts = [&text[..cut], &text[cut..]];
        if judged_by_parts(rt, alloc, judging, &path, &parts) != expected(fault) {
            return false;
        }
    }
    judged_by_parts(rt, alloc, judging, &path, &[text, &[]]) == expected(fault)
}

/// Ends the test where one judging doesn't judge one of the proofs as expected.
fn need_expected(rt: &impl Abort, alloc: Global, judging: &mut Judging, proofs: &[Proof]) {
    for proof in proofs {
        assert!(rt; is_expected(rt, alloc, judging, proof), "{}", proof.1);
    }
}

/// Lists of proofs that one judging judges.
#[derive(Drop)]
struct Lists<'t> {
    lists: &'t [&'t [Proof]],
    is_done: bool,
}

impl<'t> PartWork for Lists<'t> {
    fn with<R: Abort>(&mut self, rt: &R, alloc: Global, judging: &mut Judging) {
        for proofs in self.lists {
            need_expected(rt, alloc, judging, proofs);
        }
        self.is_done = true;
    }
}

/// The same of a table's lists by one judging.
fn need_each(rt: &impl Abort, alloc: Global, table: &Table) {
    let (clauses, lists) = *table;
    let formula = formula(rt, alloc, clauses);
    let base = Base::new(alloc, &formula).expect(rt, "memory");
    let mut work = Lists {
        lists,
        is_done: false,
    };
    with_judging(rt, alloc, &base, &mut work);
    assert!(rt; work.is_done);
}

#[test]
fn expected_wherever_cut(rt: HostRuntime) {
    need_each(&rt, rt.alloc(), over_four());
    for table in over_others() {
        need_each(&rt, rt.alloc(), table);
    }
}
