//! Proofs that the worker which reads a bundle hands to others.

ghost use Rattle.std.specs.Prelude.{◌≡◌, IfOk};
ghost use Rattle.case_core.specs.Leaves.{HasTarget};

use case_core::Target;
use std::alloc::{AllocError, Global};
use std::marker::{Brand, Model, PhantomData};
use std::sync::Arc;

/// Names the case of a run. Each run picks it.
pub(crate) trait NamesCase {
    ghost use Rattle.case_core.specs.Case.{CaseOf};

    ghost case: { CaseOf };
}

impl NamesCase for Brand {
    ghost use Rattle.std.specs.Prelude.{[]};
    ghost use Rattle.case_core.specs.SplitTree.{missing};

    ghost case = { record { formula = []; tree = missing; sections = [] } };
}

/// A proof that was handed out: whose it is, a target of the named case's tree, and its text. To a
/// contract it is a section.
#[derive(Drop)]
pub(crate) struct HandedProof<J: NamesCase> {
    target: Target,
    text: Arc<Vec<u8>>,
    of: PhantomData<J>,
}

impl<J: NamesCase> Model for HandedProof<J> {
    ghost use Rattle.std.specs.Arc.{arc_value};
    ghost use Rattle.case_core.specs.Case.{SectionOf};
    ghost use Rattle.case_core.specs.CaseCode.{section_code};
    ghost use Rattle.case_core.specs.Leaves.{HasTarget};

    ghost Value = { SectionOf };

    ghost coded = { section_code };

    ghost view = { λ p. record { target = p.target; proof = (arc_value p.text).items } };

    ghost invariant = { λ p. HasTarget J.case.tree p.target };
}

impl<J: NamesCase> HandedProof<J> {
    /// The proof of a target of the case's tree. An error is a refused growth.
    pub(crate) fn new(
        alloc: Global,
        target: Target,
        text: Vec<u8>,
    ) -> Result<HandedProof<J>, AllocError>
        requires { HasTarget J.case.tree target }
        ensures { IfOk result (λ proof. (proof.target ≡ target) × (proof.proof ≡ text.items)) }
    {
        let Ok(text) = Arc::new(alloc, text) else {
            return Err(AllocError);
        };
        Ok(HandedProof {
            target,
            text,
            of: PhantomData,
        })
    }

    /// The same one once more. An error is that its owners are too many to be counted.
    pub(crate) fn again(&self) -> Result<HandedProof<J>, AllocError>
        ensures { IfOk result (λ proof. proof ≡ self.now) }
    {
        let target = self.target;
        let text = Arc::try_clone(&self.text)?;
        Ok(HandedProof {
            target,
            text,
            of: PhantomData,
        })
    }

    /// Whose it is.
    pub(crate) fn target(&self) -> Target
        ensures value { result ≡ self.now.target }
        ensures has { HasTarget J.case.tree self.now.target }
    {
        self.target
    }

    /// The list that has its text, where nobody else has the proof any more.
    pub(crate) fn into_list(self) -> Option<Vec<u8>> {
        let HandedProof { text, .. } = self;
        Arc::into_inner(text)
    }

    /// Its text.
    pub(crate) fn text(&self) -> &[u8]
        ensures { result.now ≡ self.now.proof }
    {
        &self.text
    }
}
