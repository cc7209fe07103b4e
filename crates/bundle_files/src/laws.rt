//! What holds of the bundles that are judged, whatever a store holds.
ghost use Rattle.std.specs.Prelude.{ℕ, List, ◌↔◌};
ghost use Rattle.case_core.specs.Literal.{Literal};
ghost use Rattle.cube_report.specs.Correct.{IsFormulaOf};
ghost use Rattle.file_store.specs.Files.{Held, IsWithProofs};
ghost use Rattle.bundle_files.specs.Laws.{ProofsJudgedApart};

/// Proofs that a folder adds leave the formula as it is: a bundle has, with them and without them,
/// the same clauses.
pub fn proofs_keep_formula()
    ensures { (held : Held) (folder bundle whole : List ℕ) (formula : List (List Literal))
        → IsWithProofs held folder bundle whole
        → IsFormulaOf whole formula ↔ IsFormulaOf bundle formula }
{}

/// The proofs of a folder may be judged one by one, beside the case of the bundle that they are
/// for: where none of them has a label line or is for a leaf with a section, marks that are right
/// for the case's sections and for these proofs are those of the findings of the bundle with the
/// proofs, and what is written of the case by these marks is what a run on that bundle promises.
pub fn proofs_judged_apart()
    ensures { ProofsJudgedApart }
{}
