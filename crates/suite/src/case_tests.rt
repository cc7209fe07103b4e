//! Bundles: their first faults, the sections of a case, and what is found of one.
use crate::cases::{case, finding_of};
use case_core::{Case, CaseFault, Judged, Reason, read_bundle};
use fixtures::bundles::REJECTED;
use fixtures::halves;
use fixtures::targets::{cube, has_target};
use std::alloc::Global;
use std::process::Abort;

/// A bundle and its fault.
type Bundle = (&'static str, CaseFault);

const FAULTS: &[Bundle] = &[
    ("p cnf 2 4\n", CaseFault::Header),
    ("p inccnf\n1 2\n", CaseFault::Unfinished),
    ("p inccnf\n1 x 0\n", CaseFault::Token { line: 2 }),
    (
        "p inccnf\na 1 2 0\na 1 0\n",
        CaseFault::Overlap {
            first: 1,
            second: 2,
        },
    ),
    ("p inccnf\na 1 0\nl m\n", CaseFault::BadLabel { line: 3 }),
    ("p inccnf\na 1 0\nl m2\n", CaseFault::NoSuchLeaf { line: 3 }),
    (halves!("l n 0\nl n 0\n"), CaseFault::ProofTwice { line: 9 }),
];

#[test]
fn first_faults(rt: HostRuntime) {
    for (bundle, fault) in FAULTS {
        let found = read_bundle(rt.alloc(), bundle.as_bytes());
        assert!(rt;
            matches!(found, Err(found) if found == *fault),
            "{bundle:?}"
        );
    }
}

/// Whether a case has no clause and one cube, and these are the proofs of its two sections.
fn is_one_cube(case: &Case, first: &[u8], second: &[u8]) -> bool {
    case.formula().clauses().is_empty()
        && case.tree().cube_count() == 1
        && case.sections().len() == 2
        && case.proof_at(0) == first
        && case.proof_at(1) == second
}

#[test]
fn sections_in_order(rt: HostRuntime) {
    let case = case(&rt, rt.alloc(), "p inccnf\na 1 0\nl m01\nlast\nl 001\n");
    assert!(rt; is_one_cube(&case, b"last\n", b""));
}

/// Ends the test where the first cube's proof isn't this one, or isn't rejected at its first step.
fn need_rejected(rt: &impl Abort, alloc: Global, case: &Case, proof: &[u8]) {
    assert!(rt; has_target(case.tree(), cube(1)));
    assert!(rt; case.proof_for(cube(1)) == Some(proof));
    let finding = finding_of(rt, alloc, case, cube(1)).expect(rt, "no finding");
    let rejected = Judged::Rejected {
        step: 1,
        reason: Reason::Unit,
    };
    assert!(rt; finding.judged() == rejected);
}

#[test]
fn a_rejected_proof(rt: HostRuntime) {
    let case = case(&rt, rt.alloc(), REJECTED);
    need_rejected(&rt, rt.alloc(), &case, b"6 0 4 3 5 0\n");
}
