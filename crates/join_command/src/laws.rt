//! Laws of records that are joined. Each function does nothing: its contract is the law.

ghost use Rattle.std.specs.Prelude.{◌≡◌, Bool, ℕ, List, Option};
ghost use Rattle.case_core.specs.Case.{CaseOf};
ghost use Rattle.case_core.specs.Sections.{IsCaseOf};
ghost use Rattle.bundle_files.specs.Files.{Held};
ghost use Rattle.cube_command.specs.Program.{IsReported};
ghost use Rattle.cube_command.specs.Record.{record_text};
ghost use Rattle.cube_command.specs.Words.{Asked};
ghost use Rattle.cube_join.specs.Joined.{AreReportsWith};
ghost use Rattle.join_command.specs.Program.{AreTrusted, IsLeftBy, behind_each, line_before};

/// A run of `cubeboard` that was asked for a record leaves one that may be trusted: the line and
/// the report of which its contract says that they lie at the path of `--record`.
pub fn a_run_leaves_its_record()
    ensures { (held after : Held) (asked : Asked) (input old new : Option (List ℕ))
        (answer : Bool) (run : IsReported held after asked input old new answer)
        → IsLeftBy run.read (record_text run.read run.text) }
{}

/// What is taken for granted of texts that were read says that behind their lines stand reports on
/// the bundle's formula and tree, with some proofs.
pub fn trusted_texts_are_reports()
    ensures { (unbound : Bool) (bundle : List ℕ) (texts reports : List (List ℕ)) (case : CaseOf)
        → IsCaseOf bundle case → texts ≡ behind_each (line_before unbound bundle) reports
        → AreTrusted unbound bundle texts → AreReportsWith case.formula case.tree reports }
{}
