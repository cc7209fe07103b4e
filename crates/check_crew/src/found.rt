//! What is found by a proof that was handed out.

ghost use Rattle.std.specs.Prelude.{◌≡◌, [], IfOk};
ghost use Rattle.case_core.specs.Finding.{IsFoundBy, target_of};

use crate::handed::{HandedProof, NamesCase};
use case_core::{Examiner, Finding, ReadFinding};
use std::alloc::{AllocError, Global};
use std::marker::Model;

/// A proof that was handed out, and what was found by it in the named case. To a contract it is
/// that proof.
#[derive(Drop)]
pub(crate) struct FoundProof<'c, J: NamesCase> {
    read: ReadFinding<'c>,
    proof: HandedProof<J>,
}

impl<'c, J: NamesCase> Model for FoundProof<'c, J> {
    ghost use Rattle.case_core.specs.Case.{SectionOf};
    ghost use Rattle.case_core.specs.CaseCode.{section_code};
    ghost use Rattle.check_crew.specs.Inner.Handed.{IsFoundOf};

    ghost Value = { SectionOf };

    ghost coded = { section_code };

    ghost view = { λ found. found.proof };

    ghost invariant = { λ found. IsFoundOf J.case found.read found.proof };
}

impl<'c, J: NamesCase> FoundProof<'c, J> {
    /// The proof.
    pub(crate) fn proof(&self) -> &HandedProof<J>
        ensures { result.now ≡ self.now }
    {
        &self.proof
    }

    /// The list that has its text, where nobody else has the proof any more.
    pub(crate) fn into_list(self) -> Option<Vec<u8>> {
        let FoundProof { proof, .. } = self;
        proof.into_list()
    }

    /// What was found.
    pub(crate) fn finding(&self) -> Finding<'c>
        ensures case { result.case.now ≡ J.case }
        ensures target { target_of result.leaf result.node ≡ self.now.target }
        ensures found { IsFoundBy J.case self.now.target self.now.proof result.judged }
    {
        self.read.finding.again()
    }

    /// The same, with the length of the proof.
    pub(crate) fn read(&self) -> ReadFinding<'c>
        ensures { result.finding.case.now ≡ J.case }
    {
        ReadFinding {
            finding: self.read.finding.again(),
            length: self.read.length,
        }
    }
}

/// Judges a proof that was handed out. An error is a refused growth.
pub(crate) fn judge_handed<'c, J: NamesCase>(
    alloc: Global,
    examiner: &mut Examiner<'c>,
    proof: HandedProof<J>,
) -> Result<FoundProof<'c, J>, AllocError>
    requires case { examiner.old ≡ J.case }
    requires bare { J.case.sections ≡ [] }
    ensures same { examiner.new ≡ examiner.old }
    ensures proof { IfOk result (λ found. found ≡ proof) }
{
    let target = proof.target();
    let read = examiner.examine_text(alloc, target, proof.text())?;
    Ok(FoundProof { read, proof })
}
