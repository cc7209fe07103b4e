//! Laws of joined reports. Each function does nothing: its contract is the law.

ghost use Rattle.std.specs.Prelude.{◌≡◌, ◌<◌, ◌++◌, ℕ, List, true};
ghost use Rattle.case_core.specs.Literal.{Literal};
ghost use Rattle.split_tree.specs.SplitTree.{SplitTree, size};
ghost use Rattle.case_core.specs.Case.{CaseOf, SectionOf};
ghost use Rattle.case_core.specs.Sections.{IsCaseOf};
ghost use Rattle.mark_board.specs.declared.mark.Mark.{Mark};
ghost use Rattle.mark_board.specs.Marking.{refuted_by, marked};
ghost use Rattle.mark_board.specs.Findings.{AreFindings};
ghost use Rattle.cube_report.specs.Correct.{IsJudged, IsUnsatisfiable};
ghost use Rattle.cube_report.specs.Report.{report_text};
ghost use Rattle.cube_join.specs.Joined.{AreReportsWith, AreToldBy, IsReportWith, all_joined};
ghost use Rattle.cube_join.specs.Joined.{ShareNoTarget, joined, none_marked};

/// A report tells which nodes are refuted: two lists of marks with one report refute the same
/// nodes.
pub fn a_report_tells_what_is_refuted()
    ensures { (bundle : List ℕ) (case : CaseOf) (a b : List Mark) (node : ℕ)
        → IsCaseOf bundle case → report_text case.tree a ≡ report_text case.tree b
        → node < size case.tree → refuted_by a node ≡ refuted_by b node }
{}

/// Where each of some texts is the report on this formula and this tree with some proofs, what they
/// say together with this bundle's own findings is true: if the root is marked, the formula has no
/// model.
pub fn joined_reports_are_sound()
    ensures { (bundle : List ℕ) (case : CaseOf) (marks : List Mark) (reports : List (List ℕ))
        (told : List (List Mark)) → IsJudged bundle case marks
        → AreReportsWith case.formula case.tree reports → AreToldBy case.tree reports told
        → marked (refuted_by (all_joined marks told)) 0 case.tree ≡ true → IsUnsatisfiable bundle }
{}

/// Reports that are joined are a report again, on the same formula and tree: so a join can be
/// joined.
pub fn a_join_is_a_report()
    ensures { (bundle : List ℕ) (case : CaseOf) (reports : List (List ℕ))
        (told : List (List Mark)) → IsCaseOf bundle case
        → AreReportsWith case.formula case.tree reports → AreToldBy case.tree reports told
        → IsReportWith case.formula case.tree
        (report_text case.tree (all_joined (none_marked case.tree) told)) }
{}

/// Where two runs split the sections between them, the joined marks of what they found are what one
/// run finds over all sections: so their joined report has the bytes of that run's.
pub fn a_split_run_is_one_run()
    ensures { (formula : List (List Literal)) (tree : SplitTree) (one other : List SectionOf)
        (first second : List Mark) → ShareNoTarget one other
        → AreFindings (record { formula = formula; tree = tree; sections = one }) first
        → AreFindings (record { formula = formula; tree = tree; sections = other }) second
        → AreFindings (record { formula = formula; tree = tree; sections = one ++ other })
        (joined first second) }
{}
