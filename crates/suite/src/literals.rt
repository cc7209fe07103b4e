//! Literals, cubes and formulas from numbers. Where one of them can't be made, the test ends.
ghost use Rattle.std.specs.Prelude.{◌≡◌, IsTrue, map};
ghost use Rattle.cnf_text.specs.Literal.{literal_of};
ghost use Rattle.split_tree.specs.Clash.{cube_lists};

use cnf_text::formula::{Clause, Formula};
use cnf_text::literal::Lit;
use std::alloc::Global;
use std::process::Abort;

/// The literal of a number.
fn lit(rt: &impl Abort, number: i32) -> Lit
    ensures { result ≡ literal_of number }
{
    Lit::new(number).expect(rt, "no literal")
}

/// The literals of these numbers, in this order.
pub fn lits(rt: &impl Abort, alloc: Global, numbers: &[i32]) -> Vec<Lit>
    ensures { result.items ≡ map literal_of numbers.now }
{
    let mut lits = Vec::new(alloc);
    for number in numbers {
        lits.push(lit(rt, *number)).expect(rt, "memory");
    }
    lits
}

/// The cubes of these lists of numbers.
pub fn cubes(rt: &impl Abort, alloc: Global, lists: &[&[i32]]) -> Vec<Vec<Lit>>
    ensures { cube_lists result.items ≡ map (λ numbers. map literal_of numbers.now) lists.now }
{
    let mut cubes = Vec::new(alloc);
    for numbers in lists {
        cubes.push(lits(rt, alloc, numbers)).expect(rt, "memory");
    }
    cubes
}

/// The formula of the clauses of these lists of numbers.
pub fn formula(rt: &impl Abort, alloc: Global, lists: &[&[i32]]) -> Formula
    ensures { result ≡ map (λ numbers. map literal_of numbers.now) lists.now }
{
    let mut clauses = Vec::new(alloc);
    for numbers in lists {
        let clause = Clause::new(lits(rt, alloc, numbers));
        clauses.push(clause).expect(rt, "memory");
    }
    Formula::new(clauses)
}

/// Whether these are the literals of these numbers, in this order.
pub fn are_lits(lits: &[Lit], numbers: &[i32]) -> bool
    ensures { IsTrue result → lits.now ≡ map literal_of numbers.now }
{
    if lits.len() != numbers.len() {
        return false;
    }
    for (lit, number) in lits.iter().zip(numbers) {
        if Lit::new(*number) != Some(*lit) {
            return false;
        }
    }
    true
}
