//! Judges one proof after another over one base.

use crate::Judged;
use crate::base::Base;
use crate::judging::Judging;
use cnf_text::literal::Lit;
use std::alloc::{AllocError, Global};
use std::marker::Model;

/// Judges one proof after another over a base that others may share. It has the base's clauses in
/// lists of its own, and keeps for the next proof what these and others have room for. To a
/// contract it is the list of the base's clauses: so no contract of a judgement can depend on what
/// an earlier one left there.
#[derive(Drop)]
pub struct Judge<'b> {
    judging: Judging<'b>,
}

impl<'b> Model for Judge<'b> {
    ghost use Rattle.std.specs.Prelude.{List};
    ghost use Rattle.cnf_text.specs.Literal.{Literal};

    ghost Value = { List (List Literal) };

    ghost view = { λ judge. judge.judging.formula };
}

impl<'b> Judge<'b> {
    ghost use Rattle.std.specs.Prelude.{◌≡◌, IfOk};
    ghost use Rattle.cnf_text.specs.Formula.{IsRefuted};
    ghost use Rattle.lrat_text.specs.Proof.{Proof, IsProofOf};
    ghost use Rattle.hint_check.specs.Live.{start};
    ghost use Rattle.hint_check.specs.Judgement.{judged_by};

    /// A judge over a base. It takes memory for the base's literals and a slot for each of its
    /// clauses; an error is a refused growth.
    pub fn over(alloc: Global, base: &'b Base<'b>) -> Result<Judge<'b>, AllocError>
        ensures { IfOk result (λ judge. judge ≡ base.now) }
    {
        Ok(Judge {
            judging: Judging::over(alloc, base)?,
        })
    }

    /// Judges the text of an LRAT proof (CADE 2017) from the base's formula and a path. The
    /// formula's clauses have the ids from 1 on, and each literal of the path is a unit clause,
    /// under the ids after them. `Refuted` at the first moment when an empty clause is live, the
    /// start included; what follows in the text is not read. Otherwise `Rejected`, with the number
    /// of the first step that isn't good or isn't there. An error is a refused growth.
    pub fn judge(&mut self, alloc: Global, path: &[Lit], text: &[u8]) -> Result<Judged, AllocError>
        // The answer is the judgement of the formula, the path and the text's proof.
        ensures judgement { IfOk result (λ judged. (proof : Proof) → IsProofOf text.now proof
            → judged ≡ judged_by (start self.old path.now) proof) }
        // What is refuted has no model.
        ensures refuted { IfOk result
            (λ judged. judged ≡ Judged.Refuted → IsRefuted self.old path.now) }
        ensures same { self.new ≡ self.old }
    {
        self.judging.begin(path)?;
        self.judging.last(alloc, text)
    }
}
