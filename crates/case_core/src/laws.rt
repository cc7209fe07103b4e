//! Laws of the definitions. Each function does nothing: its contract is the law.

ghost use Rattle.std.specs.Prelude.{◌≡◌, ℕ, List, []};
ghost use Rattle.lrat_binary.specs.Binary.{text_of};
ghost use Rattle.case_core.specs.Bundle.{labels_of};
ghost use Rattle.case_core.specs.Laws.{CaseOrAFault, OneCase, OneFault, NoFaultBesideACase};

/// Each bundle stands for a case, or has a fault.
pub fn case_or_a_fault()
    ensures { CaseOrAFault }
{}

/// A bundle stands for one case at most.
pub fn one_case()
    ensures { OneCase }
{}

/// A bundle has one fault at most.
pub fn one_fault()
    ensures { OneFault }
{}

/// A bundle that stands for a case has no fault.
pub fn no_fault_beside_a_case()
    ensures { NoFaultBesideACase }
{}

/// The text of a binary LRAT proof (as CaDiCaL 2 and drat-trim write it) has no label line.
pub fn no_label_in_a_binary_proof()
    ensures { (bytes : List ℕ) → labels_of (text_of bytes) ≡ [] }
{}
