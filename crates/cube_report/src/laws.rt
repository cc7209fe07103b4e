//! Laws of reports. Each function does nothing: its contract is the law.

ghost use Rattle.std.specs.Prelude.{◌≡◌, ℕ, Bool, List, codes};
ghost use Rattle.cube_report.specs.Correct.{IsReportOn, IsAnswerOn};
ghost use Rattle.cube_report.specs.Laws.{LineForEachSection, SameReport, WrittenIsStated};

/// A bundle has one report at most.
pub fn one_report()
    ensures { (bundle first second : List ℕ) → IsReportOn bundle first → IsReportOn bundle second
        → first ≡ second }
{}

/// A bundle has one answer at most.
pub fn one_answer()
    ensures { (bundle : List ℕ) (first second : Bool) → IsAnswerOn bundle first
        → IsAnswerOn bundle second → first ≡ second }
{}

/// A report in full. The clauses of the bundle are 1 and -1. It has no cube, so its tree is one
/// missing leaf, and the proof of that leaf adds the empty clause: clause 1 forces 1, and clause 2
/// is falsified. So the leaf is refuted and no weight is open.
pub fn a_short_report()
    ensures { IsReportOn (codes "p inccnf\n1 0\n-1 0\nl m1\n3 0 1 2 0\n")
        (codes "t 0 1 1152921504606846976\nm 1 0 refuted\nw 0\ns REFUTED\n") }
{}

/// By the marks of a case's findings, the inner nodes with a line are those that have a section.
pub fn a_line_for_each_section()
    ensures { LineForEachSection }
{}

/// A report and a picture look at the tree and the marks alone: two cases with the same tree have
/// both by the same marks.
pub fn same_report()
    ensures { SameReport }
{}

/// What is written of one case by some marks is stated of another with the same formula and tree,
/// where these marks are those of its findings.
pub fn written_is_stated()
    ensures { WrittenIsStated }
{}
