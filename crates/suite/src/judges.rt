//! Work that is done with one judge, or with one judging, over a base of some clauses.
use crate::literals::formula;
use hint_check::{Base, Judge, Judging};
use std::alloc::Global;
use std::process::Abort;

/// What is done with one judge over a base.
pub trait Work {
    /// Does it.
    fn with<R: Abort>(&mut self, rt: &R, alloc: Global, judge: &mut Judge, base: &Base);
}

/// Does work with a new judge over a base.
fn with_judge_over<R: Abort, W: Work>(rt: &R, alloc: Global, base: &Base, work: &mut W) {
    let mut judge = Judge::over(alloc, base).expect(rt, "memory");
    work.with(rt, alloc, &mut judge, base);
}

/// The same over the base of these clauses.
pub fn with_judge<R: Abort, W: Work>(rt: &R, alloc: Global, clauses: &[&[i32]], work: &mut W) {
    let formula = formula(rt, alloc, clauses);
    let base = Base::new(alloc, &formula).expect(rt, "memory");
    with_judge_over(rt, alloc, &base, work);
}

/// What is done with one judging.
pub trait PartWork {
    /// Does it.
    fn with<R: Abort>(&mut self, rt: &R, alloc: Global, judging: &mut Judging);
}

/// Does work with a new judging over a base. It alone owns one, since that is dear to prove.
pub fn with_judging<R: Abort, W: PartWork>(rt: &R, alloc: Global, base: &Base, work: &mut W) {
    let mut judging = Judging::over(alloc, base).expect(rt, "memory");
    work.with(rt, alloc, &mut judging);
}
