//! The literals of clauses that repeat some, each once.
ghost use Rattle.std.specs.Prelude.{◌≡◌, ◌≤◌, ◌↔◌, IfOk, OnOk, false, length};
ghost use Rattle.std.specs.List.{IsDistinct};
ghost use Rattle.cnf_text.specs.Literal.{same};
ghost use Rattle.hint_check.specs.Literals.{has};
ghost use Rattle.hint_check.specs.Inner.Alike.{SameLiterals};

use crate::assignment::Assignment;
use crate::clause::holds;
use crate::scratch::ClauseScratch;
use crate::tautology::SHORT;
use cnf_text::literal::Lit;
use std::alloc::AllocError;

/// Whether a clause may hold a literal more than once. Literals are compared with each other where
/// they are few, and with none where they are many.
#[inline(always)]
pub fn may_repeat(clause: &[Lit]) -> bool
    // If it may not, no literal of the clause comes again.
    ensures apart { result ≡ false → IsDistinct same clause.now }
    // Of few literals it is told.
    ensures few { length clause.now ≤ 8 → IsDistinct same clause.now → result ≡ false }
{
    clause.len() > SHORT || repeats(clause)
}

/// Whether a clause holds a literal more than once, by comparing all of its literals.
fn repeats(clause: &[Lit]) -> bool
    ensures { (result ≡ false) ↔ IsDistinct same clause.now }
{
    for place in 0..clause.len() {
        if holds(&clause[..place], clause[place]) {
            return true;
        }
    }
    false
}

/// The literals of a clause, each once in the order of their first places, where it is told that
/// some may come again. The scratch is used only there, and for nothing else.
#[inline(always)]
pub fn distinct<'c>(
    scratch: &'c mut ClauseScratch,
    clause: &'c [Lit],
    may_repeat: bool,
) -> Result<&'c [Lit], AllocError>
    ensures { IfOk result (λ kept. SameLiterals kept.now clause.now) }
{
    if !may_repeat {
        return Ok(clause);
    }
    let ClauseScratch { lits, set } = scratch;
    list_distinct(lits, set, clause)?;
    Ok(lits)
}

/// Puts the literals of a clause, each once, in the place of those of a list. The set is then that
/// of these literals.
#[inline(never)]
fn list_distinct(
    kept: &mut Vec<Lit>,
    set: &mut Assignment,
    clause: &[Lit],
) -> Result<(), AllocError>
    ensures { OnOk result (has kept.new.items ≡ has clause.now) }
{
    kept.clear();
    set.clear();
    for lit in clause {
        let was = set.put_and_tell(*lit)?;
        if !was {
            kept.push(*lit)?;
        }
    }
    Ok(())
}
