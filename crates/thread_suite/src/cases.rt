//! Cases and what is found of their targets. Where one of them can't be made, the test ends.
ghost use Rattle.std.specs.Prelude.{◌≡◌, IfSome, MatchOption, None};
ghost use Rattle.case_core.specs.Case.{proof_for};
ghost use Rattle.case_core.specs.Sections.{IsCaseOf};
ghost use Rattle.case_core.specs.Finding.{HasSection, IsFinding, target_of};

use case_core::{Case, Finding, Target, examine, read_bundle};
use fixtures::targets::has_target;
use std::alloc::Global;
use std::process::Abort;
use std::sync::atomic::{AtomicU64, Ordering};

/// The case that a bundle stands for.
pub fn case(rt: &impl Abort, alloc: Global, bundle: &str) -> Case
    ensures { IsCaseOf bundle.now result }
{
    read_bundle(alloc, bundle.as_bytes()).expect(rt, "no case")
}

/// The finding of a target of the tree, if it has one.
pub fn finding_of<'c>(
    rt: &impl Abort,
    alloc: Global,
    case: &'c Case,
    target: Target,
) -> Option<Finding<'c>>
    ensures case { IfSome result (λ finding. finding.case.now ≡ case.now) }
    ensures found { MatchOption result (proof_for case.now.sections target ≡ None)
        (λ finding. IsFinding case.now target finding.judged) }
    ensures section { IfSome result (λ finding.
        HasSection finding.case.now (target_of finding.leaf finding.node)) }
{
    let asked = target;
    assert!(rt; has_target(case.tree(), asked));
    examine(alloc, case, target).expect(rt, "memory")
}

/// Ends the test where a count isn't the one that is given.
pub fn need_count(rt: &impl Abort, what: &str, count: &AtomicU64, wanted: u64) {
    assert_eq!(rt; count.load(Ordering::SeqCst), wanted, "{what}");
}
