//! Laws of sections that are added to a bundle. Each function does nothing: its contract is the
//! law.

ghost use Rattle.proof_folder.specs.Laws.{AddedMakeACase, LineEndKeepsProof};
ghost use Rattle.proof_folder.specs.Laws.{FindingsWithoutLineEnds, FindingsWithLeaves};
ghost use Rattle.proof_folder.specs.Laws.{NamesNameLeaves, LeavesAreAll, JudgedWithLeaves};
ghost use Rattle.proof_folder.specs.Laws.{GivenOneByOne};

/// A line end behind a proof's text changes nothing of the proof.
pub fn line_end_keeps_proof()
    ensures { LineEndKeepsProof }
{}

/// A bundle that stands for a case stands, with sections added below label lines of leaves without
/// a section, whose texts have no label line, for the case with these sections more.
pub fn added_sections_make_a_case()
    ensures { AddedMakeACase }
{}

/// Marks that are those of findings by proofs without line ends behind them are those of the
/// findings by the bundle's sections.
pub fn findings_without_line_ends()
    ensures { FindingsWithoutLineEnds }
{}

/// The name of a leaf is one line, and on a label line it names the leaf.
pub fn names_name_leaves()
    ensures { NamesNameLeaves }
{}

/// Cubes 1, 2, .. and missing leaves 1, 2, .. up to their counts are all leaves of a case's tree.
pub fn leaves_are_all()
    ensures { LeavesAreAll }
{}

/// Marks that are right for the sections of a case and for the proofs that are given for its leaves
/// are those of the findings of the case with these proofs as sections.
pub fn findings_with_leaves()
    ensures { FindingsWithLeaves }
{}

/// A bundle that stands for a case stands, with the proofs that are given for its leaves as
/// sections behind it, for a case with the same formula and tree, and marks that are right for the
/// case's sections and for these proofs are those of its findings.
pub fn judged_with_leaves()
    ensures { JudgedWithLeaves }
{}

/// What was given for the leaves of a case one by one, where each target was judged by itself and
/// nothing lies elsewhere for inner nodes, is given for all of them together.
pub fn given_one_by_one()
    ensures { GivenOneByOne }
{}
