//! The first label line of a proof.

use crate::case::Case;
use crate::fault::CaseFault;
use crate::label::target_of;
use split_tree::Target;
use std::alloc::{AllocError, Global};

/// The first label line of a text.
#[derive(Drop)]
pub struct LabelLine {
    /// The line, without its end.
    pub line: Vec<u8>,
    /// How many lines of the text end before it.
    pub lines: u64,
}

impl LabelLine {
    ghost use Rattle.std.specs.Prelude.{◌≡◌, ◌≢◌, ◌≤◌, ◌+◌, ◌^◌, ◌++◌, List, ℕ, IfOk, IfErr};
    ghost use Rattle.std.specs.Prelude.{count_by};
    ghost use Rattle.case_core.specs.Sections.{IsCaseOf, IsFaultOf};
    ghost use Rattle.cnf_text.specs.Tokens.{is_line_end, words};
    ghost use Rattle.split_tree.specs.Leaves.{HasTarget};
    ghost use Rattle.case_core.specs.Case.{CaseOf};
    ghost use Rattle.case_core.specs.Finding.{HasSection};
    ghost use Rattle.case_core.specs.Label.{IsTargetOf, label_name};
    ghost use Rattle.case_core.specs.Bundle.{AreWholeLines};
    ghost use Rattle.case_core.specs.Labelled.{IsBehindLabel};

    /// The same line where so many lines stand above its text. `AllocError` where the lines are too
    /// many to be counted.
    pub fn below(self, lines: u64) -> Result<LabelLine, AllocError>
        // The line is the same.
        ensures line { IfOk result (λ label. label.line ≡ self.line) }
        // The lines above it are added.
        ensures sum { IfOk result (λ label. label.lines ≡ self.lines + lines) }
        // An error is that the lines are too many.
        ensures many { IfErr result (λ _. 2 ^ 64 ≤ self.lines + lines) }
    {
        let Some(lines) = self.lines.checked_add(lines) else {
            return Err(AllocError);
        };
        Ok(LabelLine {
            line: self.line,
            lines,
        })
    }

    /// The target that this line names in a case's tree. `Memory` where a growth was refused, or
    /// where the lines are too many to be counted.
    pub fn target(&self, alloc: Global, case: &Case) -> Result<Target, CaseFault>
        // It is a bundle's case.
        requires { (text : List ℕ) × IsCaseOf text case.now }
        // The tree has it.
        ensures has { IfOk result (λ target. HasTarget case.now.tree target) }
        ensures named { IfOk result
            (λ target. IsTargetOf case.now.tree (label_name (words self.now.line.items)) target) }
        // A fault is the first one of a bundle that stands for a case with that tree up to this
        // line, and goes on with it.
        ensures fault { IfErr result (λ fault. fault ≢ CaseFault.Memory
            → (done text below : List ℕ) (whole : CaseOf) → IsCaseOf done whole
            → whole.tree ≡ case.now.tree → AreWholeLines done
            → self.now.lines ≡ count_by is_line_end done
            → IsBehindLabel text self.now.line.items below → IsFaultOf (done ++ text) fault) }
    {
        let Some(line) = self.lines.checked_add(1) else {
            return Err(CaseFault::Memory);
        };
        match target_of(alloc, case.tree(), &self.line) {
            Ok(target) => Ok(target),
            Err(fault) => Err(fault.on_line(line)),
        }
    }

    /// The fault of this line where its target has a section above it. `Memory` where the lines are
    /// too many to be counted.
    pub fn twice(&self) -> CaseFault
        // It is the first one of a bundle that stands for a case with such a section up to this
        // line, and goes on with it.
        ensures { result ≢ CaseFault.Memory → (done text below : List ℕ) (whole : CaseOf)
            (target : Target) → IsCaseOf done whole → AreWholeLines done
            → self.now.lines ≡ count_by is_line_end done
            → IsBehindLabel text self.now.line.items below
            → IsTargetOf whole.tree (label_name (words self.now.line.items)) target
            → HasSection whole target → IsFaultOf (done ++ text) result }
    {
        match self.lines.checked_add(1) {
            Some(line) => CaseFault::ProofTwice { line },
            None => CaseFault::Memory,
        }
    }
}
