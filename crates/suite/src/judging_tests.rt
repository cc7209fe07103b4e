//! Proofs and the judgements that were worked out by hand from the rules of judging. The judge has
//! to give them, over a base that many checkers share and over a formula of its own, and so has the
//! plain judge.
use crate::judges::{Work, with_judge};
use crate::literals::{formula, lits};
use crate::{nine, plain};
use cnf_text::literal::Lit;
use fixtures::bundles::FOUR;
use hint_check::{Base, Checker, Judge, Judged, Reason};
use std::alloc::Global;
use std::process::Abort;

/// A proof: the path, the text, and the number of the step that isn't good or isn't there with what
/// is wrong with it, or nothing where the proof refutes.
pub type Proof = (&'static [i32], &'static str, Option<(u64, Reason)>);

/// A tautology, and clauses that repeat literals and have no model together.
pub const REPEATED: &[&[i32]] = &[&[1, -1], &[1, 2, 2], &[-1, 3], &[-2, 3, 3], &[-3]];

/// The four clauses over two variables, and again over two others.
const EIGHT: &[&[i32]] = &[
    &[1, 2],
    &[1, -2],
    &[-1, 2],
    &[-1, -2],
    &[11, 12],
    &[11, -12],
    &[-11, 12],
    &[-11, -12],
];

/// A formula with an empty clause.
const WITH_EMPTY: &[&[i32]] = &[&[1], &[]];

/// The empty clause alone.
const EMPTY_ALONE: &[&[i32]] = &[&[]];

/// Additions by reverse unit propagation and tautologies, over the four clauses.
const ADDITIONS: &[Proof] = &[
    (&[], "5 1 0 1 2 0\n6 0 5 3 4 0\n", None),
    (&[], "5 1 1 0 1 2 0\n6 0 5 3 4 0\n", None),
    (&[], "5 1 0 2 1 0\n", Some((2, Reason::End))),
    (&[], "5 1 0 99 0\n", Some((1, Reason::Hint))),
    (&[], "5 3 0 1 0\n", Some((1, Reason::Unit))),
    (&[], "5 0 0\n", Some((1, Reason::Empty))),
    (&[], "5 0 1 0\n", Some((1, Reason::Unit))),
    (&[], "4 1 0 1 2 0\n", Some((1, Reason::Id))),
    (&[], "4 1 -1 0 0\n", Some((1, Reason::Id))),
    (&[], "5 1 -1 0 99 0\n", Some((2, Reason::End))),
    (&[1], "6 0 5 3 4 0\n", None),
    (&[1], "5 2 0 0\n", Some((1, Reason::Id))),
    (&[1, -1], "7 0 5 6 0\n", None),
    (&[1, -1], "7 0 5 0\n", Some((1, Reason::Empty))),
    (&[1, 1], "0 d 5 0\n7 0 6 3 4 0\n", None),
    (&[-1], "6 0 5 1 2 0\n", None),
    (&[1], "6 0 4 3 5 0\n", Some((1, Reason::Unit))),
    (&[1], "6 0 5 0\n", Some((1, Reason::Empty))),
    (&[1], "4 0 5 3 4 0\n", Some((1, Reason::Id))),
    (&[], "6 1 -1 0 0\n", Some((2, Reason::End))),
];

/// Additions with candidates and groups of hints, over the four clauses.
const GROUPS: &[Proof] = &[
    (&[], "5 1 0 1 0\n", Some((1, Reason::Candidate))),
    (&[], "5 1 0 1 -4 3 0\n", Some((1, Reason::Unit))),
    (&[], "5 1 0 1 -4 2 0\n", Some((2, Reason::End))),
    (&[], "5 1 0 1 -3 99 -4 2 0\n", Some((2, Reason::End))),
    (&[], "5 1 0 1 -4 2 -4 1 0\n", Some((1, Reason::Group))),
    (&[], "5 1 0 1 -4 2 -4 2 99 0\n", Some((2, Reason::End))),
    (&[], "5 1 0 1 -4 99 0\n", Some((1, Reason::Hint))),
    (&[], "5 1 0 1 -99 7 -4 2 0\n", Some((2, Reason::End))),
    (&[], "5 1 0 1 -1 99 -4 2 0\n", Some((2, Reason::End))),
    (&[], "5 1 0 -3 1 2 -4 1 2 0\n", Some((2, Reason::End))),
    (&[], "5 1 0 -3 1 -4 1 2 0\n", Some((2, Reason::End))),
    (&[], "5 1 0 -4 1 2 0\n", Some((1, Reason::Candidate))),
    (&[], "5 3 -3 0 0\n6 -3 0 0\n", Some((3, Reason::End))),
    (&[], "5 3 -3 0 0\n6 -3 0 -5 99 0\n", Some((3, Reason::End))),
    (
        &[],
        "5 -3 1 -3 0 0\n6 3 3 0 -5 1 2 0\n",
        Some((3, Reason::End)),
    ),
    (
        &[1],
        "9 d 1 2 0\n6 -1 3 0 0\n",
        Some((2, Reason::Candidate)),
    ),
    (
        &[1],
        "9 d 1 2 0\n6 -1 3 0 -5 3 4 0\n",
        Some((3, Reason::End)),
    ),
    (&[1], "9 d 1 2 5 0\n6 -1 3 0 0\n", Some((3, Reason::End))),
    (&[2, 3], "7 -3 1 0 0\n", Some((1, Reason::Candidate))),
    (&[2, 3], "7 1 -3 0 0\n", Some((1, Reason::Candidate))),
    (&[2, 3], "7 1 -3 0 5 -4 2 0\n", Some((2, Reason::End))),
    (&[], "6 1 0 0\n", Some((1, Reason::Candidate))),
    (&[], "6 1 -3 0 0\n", Some((1, Reason::Candidate))),
    (&[], "6 -3 1 0 0\n7 3 0 0\n", Some((2, Reason::Candidate))),
    (&[], "6 -3 1 0 0\n7 3 0 -6 1 0\n", Some((2, Reason::Group))),
    (&[], "6 -3 1 0 0\n7 3 0 -6 1 2 0\n", Some((3, Reason::End))),
    (
        &[],
        "6 -3 1 0 0\n7 3 0 -6 1 2 -6 1 0\n",
        Some((2, Reason::Group)),
    ),
    (
        &[],
        "6 -3 1 0 0\n7 3 -1 0 -6 99 -99 5 0\n",
        Some((3, Reason::End)),
    ),
    (&[], "5 d 3 4 0\n6 1 0 0\n", Some((3, Reason::End))),
    (
        &[],
        "5 d 1 2 3 4 0\n1 1 0 0\n2 -1 0 0\n",
        Some((3, Reason::Candidate)),
    ),
];

/// A proof that adds nine clauses with the negation of 3, and 1 besides, and then is what is given.
#[macro_export]
macro_rules! nine {
    ($last:literal) => {
        concat!(
            "6 -3 1 0 0\n7 -3 1 4 0 0\n8 -3 1 5 0 0\n9 -3 1 6 0 0\n10 -3 1 7 0 0\n",
            "11 -3 1 8 0 0\n12 -3 1 9 0 0\n13 -3 1 10 0 0\n14 -3 1 11 0 0\n",
            "15 3 0 -6 1 2 -7 1 2 -8 1 2 -9 1 2 -10 1 2 -11 1 2 -12 1 2 -13 1 2 ",
            $last
        )
    };
}

/// A group of hints for each of nine candidates, or for all but the last, over the four clauses.
const MANY_GROUPS: &[Proof] = &[
    (&[], nine!("-14 1 2 0"), Some((11, Reason::End))),
    (&[], nine!("-99 1 2 0"), Some((10, Reason::Candidate))),
    (&[], nine!("0"), Some((10, Reason::Candidate))),
    (&[], nine!("-6 1 2 0"), Some((10, Reason::Candidate))),
    (&[], nine!("-14 1 2 -6 1 0"), Some((10, Reason::Group))),
    (&[], nine!("-14 1 2 -6 99 0"), Some((10, Reason::Hint))),
    (&[], nine!("-14 1 2 -1 99 -1 99 0"), Some((11, Reason::End))),
];

/// Lemmas that are put in anew, with other literals, under ids for which a group is or isn't
/// needed, over the four clauses.
const PUT_IN_ANEW: &[Proof] = &[
    (
        &[],
        "5 3 1 0 0\n6 3 1 4 0 0\n0 d 5 0\n5 3 1 5 0 0\n7 -3 0 -5 1 2 -6 1 2 0\n",
        Some((6, Reason::End)),
    ),
    (
        &[],
        "5 3 1 0 0\n6 3 1 4 0 0\n0 d 5 0\n5 3 1 5 0 0\n7 -3 0 -5 1 2 0\n",
        Some((5, Reason::Candidate)),
    ),
    (
        &[],
        "5 3 1 0 0\n6 3 1 4 0 0\n0 d 5 0\n5 3 1 5 0 0\n7 -3 0 -6 1 2 0\n",
        Some((5, Reason::Candidate)),
    ),
    (
        &[],
        "5 3 -3 0 0\n0 d 5 0\n5 3 1 0 0\n6 -3 0 0\n",
        Some((4, Reason::Candidate)),
    ),
    (
        &[],
        "5 3 -3 0 0\n0 d 5 0\n5 3 1 0 0\n6 -3 0 -5 1 2 0\n",
        Some((5, Reason::End)),
    ),
    (
        &[],
        "5 3 1 0 0\n0 d 5 0\n5 3 -3 0 0\n6 -3 0 0\n",
        Some((5, Reason::End)),
    ),
    (
        &[],
        "0 d 3 0\n3 5 -5 0 0\n6 5 0 -3 99 0\n",
        Some((4, Reason::End)),
    ),
];

/// Clauses of the formula, of the path and of the proof deleted, and their ids used again, over the
/// four clauses.
const DELETIONS: &[Proof] = &[
    (
        &[],
        "5 1 0 1 2 0\n0 d 5 0\n5 -1 0 3 4 0\n",
        Some((4, Reason::End)),
    ),
    (
        &[],
        "5 1 0 1 2 0\n0 d 5 0\n5 -1 0 3 4 0\n6 0 5 1 2 0\n",
        None,
    ),
    (
        &[],
        "5 1 0 1 2 0\n0 d 5 0\n6 0 5 3 4 0\n",
        Some((3, Reason::Hint)),
    ),
    (&[], "0 d 1 0\n1 1 2 0 0\n", Some((2, Reason::Candidate))),
    (
        &[],
        "5 1 0 1 2 0\n0 d 1 0\n1 2 0 5 3 0\n6 0 5 1 4 0\n",
        None,
    ),
    (
        &[],
        "5 1 0 1 2 0\n0 d 1 0\n1 2 0 5 3 0\n6 3 0 1 5 3 0\n",
        Some((5, Reason::End)),
    ),
    (&[], "0 d 1 0\n5 1 0 1 2 0\n", Some((2, Reason::Hint))),
    (
        &[],
        "0 d 1 1 7 0\n0 d 1 0\n0 d 0\n5 1 0 2 0\n",
        Some((4, Reason::Candidate)),
    ),
    (
        &[],
        "0 d 3 4 0\n5 1 0 0\n6 -1 0 0\n",
        Some((3, Reason::Candidate)),
    ),
    (
        &[],
        "0 d 3 4 0\n3 1 0 0\n0 d 1 2 3 0\n4 -1 0 0\n",
        Some((5, Reason::End)),
    ),
    (&[1], "0 d 5 0\n6 0 5 3 4 0\n", Some((2, Reason::Hint))),
    (&[1], "0 d 5 0\n5 1 0 1 2 0\n6 0 5 3 4 0\n", None),
    (&[1], "0 d 1 2 3 4 5 0\n", Some((2, Reason::End))),
    (&[], "5 1 0 1 2 0\n5 d 1 0\n6 0 5 3 4 0\n", None),
    (
        &[],
        "5 1 0 1 2 0\n5 d 3 0\n6 0 5 3 4 0\n",
        Some((3, Reason::Hint)),
    ),
    (&[1], "5 d 3 0\n6 0 5 3 4 0\n", Some((2, Reason::Hint))),
];

/// The greatest ids and variables, comments, and texts with no whole step, over the four clauses.
const READING: &[Proof] = &[
    (
        &[],
        "4611686018427387904 1 0 1 2 0\n6 0 4611686018427387904 3 4 0\n",
        None,
    ),
    (
        &[],
        "4611686018427387905 1 0 1 2 0\n",
        Some((1, Reason::Unreadable)),
    ),
    (
        &[],
        concat!(
            "4611686018427387904 1 0 1 2 0\n9 d 4611686018427387904 0\n",
            "6 0 4611686018427387904 3 4 0\n"
        ),
        Some((3, Reason::Hint)),
    ),
    (
        &[],
        "1000003 -3 1 0 0\n4611686018427387904 3 0 -1000003 1 2 0\n5 0 1 0\n",
        Some((3, Reason::Unit)),
    ),
    (
        &[],
        "5 268435455 0 0\n6 -268435455 0 -5 0\n",
        Some((2, Reason::Group)),
    ),
    (&[], "5 268435456 0 0\n", Some((1, Reason::Unreadable))),
    (
        &[],
        "5 -268435455 1 0 0\n6 268435455 0 -5 1 2 0\n",
        Some((3, Reason::End)),
    ),
    (
        &[],
        "c first\n\n  \n5 1 0\nc inside a step\n1 2 0\n\n6 0 5 3 4 0\n",
        None,
    ),
    (&[], "c only\n\n", Some((1, Reason::End))),
    (&[], "", Some((1, Reason::End))),
    (&[], "5 1 0 1 2 0\nx", Some((2, Reason::Unreadable))),
    (&[], "5 1 0 1 2 0\n6 0 5 3 4", Some((2, Reason::Unreadable))),
    (&[], "5 1 0 1 2 0\n6 0 5 3 4 0\nx y", None),
    (&[], "5 1 0 1 2 -0\n", Some((1, Reason::Unreadable))),
    (&[], "0 1 0 1 2 0\n", Some((1, Reason::Unreadable))),
    (&[], "5 d -1 0\n", Some((1, Reason::Unreadable))),
    (&[], "5 d 1\n", Some((1, Reason::Unreadable))),
    (&[], "5 1 0 1 d 0\n", Some((1, Reason::Unreadable))),
    (
        &[],
        "5 1 0 1 2 0 6 d 3 0 7 0 5 3 4 0",
        Some((3, Reason::Hint)),
    ),
    (&[], "5 1 0 1 2 0\nc note\n6 0 5 3 4 0\n", None),
    (&[1], "6 0 5 3 4 0\nx y z\n", None),
    (&[1], "6 0 5\n", Some((1, Reason::Unreadable))),
    (&[1], "", Some((1, Reason::End))),
    (&[1], "c nothing\n", Some((1, Reason::End))),
];

/// Clauses that repeat literals, and a tautology among the candidates and the hints.
const REPEATING: &[Proof] = &[
    (&[], "6 0 5 3 4 2 0\n", None),
    (&[], "6 2 0 5 3 0\n", Some((1, Reason::Candidate))),
    (&[], "6 2 0 5 3 2 0\n7 0 6 5 4 0\n", None),
    (&[], "6 1 0 0\n", Some((1, Reason::Candidate))),
    (&[], "6 1 0 -1 99 -3 5 0\n", Some((1, Reason::Group))),
    (&[], "6 1 0 -1 99 -3 2 4 0\n", Some((2, Reason::End))),
    (&[], "6 -2 0 1 0\n", Some((1, Reason::Unit))),
    (&[], "6 1 0 1 0\n", Some((1, Reason::Candidate))),
    (&[3], "7 0 5 6 0\n", None),
    (&[3], "7 3 2 0 0\n", Some((1, Reason::Candidate))),
    (&[3], "0 d 5 0\n7 3 0 0\n", Some((3, Reason::End))),
    (&[3], "0 d 5 0\n5 -3 0 0\n", Some((2, Reason::Candidate))),
    (
        &[],
        "0 d 1 0\n1 4 -1 0 0\n6 1 0 -3 2 4 0\n",
        Some((3, Reason::Candidate)),
    ),
    (
        &[],
        "0 d 1 0\n1 4 -1 0 0\n6 1 0 -3 2 4 -1 2 4 5 0\n",
        Some((4, Reason::End)),
    ),
    (
        &[],
        "0 d 3 0\n3 -1 1 0 0\n6 1 0 0\n",
        Some((4, Reason::End)),
    ),
];

/// The four clauses over two variables, the first of which repeats both of its literals.
const LONG_REPEATED: &[&[i32]] = &[
    &[1, 2, 2, 2, 2, 2, 2, 2, 2, 1],
    &[1, -2],
    &[-1, 2],
    &[-1, -2],
];

/// Clauses of more than eight literals that repeat some: as hints, as candidates and as lemmas.
const REPEATING_LONG: &[Proof] = &[
    (&[], "5 1 0 1 2 0\n6 0 5 3 4 0\n", None),
    (&[], "5 3 0 1 0\n", Some((1, Reason::Unit))),
    (&[], "5 -2 0 -1 2 0\n", Some((1, Reason::Candidate))),
    (&[], "5 -2 0 -1 2 -3 4 0\n", Some((2, Reason::End))),
    (&[], "5 1 1 1 1 1 1 1 1 1 1 0 1 2 0\n6 0 5 3 4 0\n", None),
    (
        &[],
        "5 -3 1 -3 1 -3 1 -3 1 -3 1 0 1 2 0\n6 3 0 0\n",
        Some((2, Reason::Candidate)),
    ),
    (
        &[],
        "5 -3 1 -3 1 -3 1 -3 1 -3 1 0 1 2 0\n6 3 0 -5 1 2 0\n",
        Some((3, Reason::End)),
    ),
    (&[-1], "6 0 5 1 2 0\n", None),
    (&[-1], "6 0 5 1 0\n", Some((1, Reason::Empty))),
];

/// A tautology and another clause, each of more than eight literals.
const LONG: &[&[i32]] = &[
    &[1, 2, 3, 4, 5, 6, 7, 8, 9, -1],
    &[1, 2, 3, 4, 5, 6, 7, 8, 10],
];

/// Long candidates, some of them tautologies.
const LONG_CANDIDATES: &[Proof] = &[
    (&[], "3 -9 0 0\n", Some((2, Reason::End))),
    (&[], "3 -9 0 -1 99 0\n", Some((2, Reason::End))),
    (&[], "3 -10 0 0\n", Some((1, Reason::Candidate))),
    (
        &[],
        "0 d 1 0\n1 9 2 0 0\n3 -9 0 0\n",
        Some((3, Reason::Candidate)),
    ),
    (
        &[],
        "0 d 2 0\n2 10 1 2 3 4 5 6 7 8 -2 0 0\n3 -10 0 0\n",
        Some((4, Reason::End)),
    ),
];

/// A formula with an empty clause is refuted before the first step.
const REFUTED_AT_ONCE: &[Proof] = &[
    (&[], "", None),
    (&[], "x", None),
    (&[], "0 d 2 0\n", None),
    (&[5], "3 0 0\n", None),
];

/// So is the empty clause alone.
const REFUTED_ALONE: &[Proof] = &[(&[], "", None), (&[1], "x", None)];

/// Proofs from no clause at all.
const NO_CLAUSE: &[Proof] = &[
    (&[1, -1], "3 0 1 2 0\n", None),
    (&[1, -1], "", Some((1, Reason::End))),
    (
        &[],
        "0 d 1 0\n1 1 0 0\n2 -1 0 -1 0\n",
        Some((3, Reason::Group)),
    ),
    (&[268435455, -268435455], "3 0 1 2 0\n", None),
    (
        &[],
        "1 268435455 0 0\n2 -268435455 0 -1 1 0\n",
        Some((2, Reason::Group)),
    ),
    (
        &[],
        "1 268435456 0 0\n2 -268435455 0 -1 1 0\n",
        Some((1, Reason::Unreadable)),
    ),
];

/// Over the eight clauses: proofs that delete some of them, others of them, and need those; and
/// candidates among a proof's own clauses, over one variable and then over another.
const TWICE_FOUR: &[Proof] = &[
    (&[], "9 11 0 5 6 0\n10 0 9 7 8 0\n", None),
    (&[], "0 d 5 6 7 8 0\n9 1 0 1 2 0\n10 0 9 3 4 0\n", None),
    (&[], "0 d 1 2 0\n9 11 0 5 6 0\n10 0 9 7 8 0\n", None),
    (
        &[],
        "0 d 8 0\n9 11 0 5 6 0\n10 0 9 7 8 0\n",
        Some((3, Reason::Hint)),
    ),
    (&[1], "0 d 1 9 0\n10 0 3 4 0\n", Some((2, Reason::Unit))),
    (
        &[],
        "9 -13 11 0 0\n10 13 0 -9 5 6 0\n",
        Some((3, Reason::End)),
    ),
    (&[], "9 -3 1 0 0\n10 3 0 -9 1 2 0\n", Some((3, Reason::End))),
    (
        &[],
        "9 -13 11 0 0\n10 13 0 0\n",
        Some((2, Reason::Candidate)),
    ),
    (&[], "9 -3 11 0 0\n10 13 0 0\n", Some((3, Reason::End))),
    (
        &[],
        "9 -268435455 11 0 0\n10 268435455 0 -9 5 6 0\n",
        Some((3, Reason::End)),
    ),
    (
        &[],
        "9 -268435455 11 0 0\n10 268435455 0 0\n",
        Some((2, Reason::Candidate)),
    ),
];

/// Steps over the four clauses that put five far ids in one place, which takes four, and name each.
/// The second is deleted, and two others of the same place are put in.
const ONE_PLACE: &str = concat!(
    "1000000 1 10 0 1 2 0\n1000233 1 11 0 1 2 0\n1000610 1 12 0 1 2 0\n",
    "1000843 1 13 0 1 2 0\n1000987 1 14 0 1 2 0\n",
    "5 1 10 0 1000000 0\n6 1 11 0 1000233 0\n7 1 12 0 1000610 0\n",
    "8 1 13 0 1000843 0\n9 1 14 0 1000987 0\n",
    "9 d 1000233 0\n1001220 1 15 0 1 2 0\n1001597 1 16 0 1 2 0\n",
);

/// How many far ids are put in next, so that there are more places.
const OTHERS: u64 = 700;

/// Steps that name each of the first ids, put two of them in anew, and name them again.
const TWO_PLACES: &str = concat!(
    "10 1 10 0 1000000 0\n11 1 12 0 1000610 0\n12 1 13 0 1000843 0\n",
    "13 1 14 0 1000987 0\n14 1 15 0 1001220 0\n15 1 16 0 1001597 0\n",
    "15 d 1000987 1001597 0\n1000987 1 17 0 1 2 0\n1001597 1 18 0 1 2 0\n",
    "16 1 10 0 1000000 0\n17 1 12 0 1000610 0\n18 1 15 0 1001220 0\n",
    "19 1 17 0 1000987 0\n20 1 18 0 1001597 0\n",
);

/// What follows these steps: a refutation, or a hint that is no id any more.
const PLACE_ENDS: &[(&str, Option<(u64, Reason)>)] = &[
    ("21 1 0 1 2 0\n22 0 21 3 4 0\n", None),
    ("21 1 11 0 1000233 0\n", Some((728, Reason::Hint))),
    (
        "20 d 1000843 0\n21 1 13 0 1000843 0\n",
        Some((729, Reason::Hint)),
    ),
    (
        "20 d 1001597 0\n21 1 18 0 1001597 0\n",
        Some((729, Reason::Hint)),
    ),
    ("21 1 14 0 1000987 0\n", Some((728, Reason::Candidate))),
];

/// A proof that deletes clauses of the formula, and one that needs them, over the four clauses.
const DELETED_AND_NEEDED: &[Proof] = &[
    (&[1], "5 d 1 2 0\n6 0 5 3 4 0\n", None),
    (&[-1], "6 0 5 1 2 0\n", None),
];

/// What the judge says over a base.
pub fn judged_over(
    rt: &impl Abort,
    alloc: Global,
    base: &Base,
    path: &[Lit],
    text: &[u8],
) -> Judged {
    let checker = Checker::over(alloc, base, path).expect(rt, "memory");
    checker.judge(alloc, text).expect(rt, "memory")
}

/// The same of one that may have judged other proofs.
pub fn judged_by(
    rt: &impl Abort,
    alloc: Global,
    judge: &mut Judge,
    path: &[Lit],
    text: &[u8],
) -> Judged {
    judge.judge(alloc, path, text).expect(rt, "memory")
}

/// What the judge says over a formula of its own: that of a base.
fn judged_alone(rt: &impl Abort, alloc: Global, base: &Base, path: &[Lit], text: &[u8]) -> Judged {
    let checker = Checker::new(alloc, base.formula(), path).expect(rt, "memory");
    checker.judge(alloc, text).expect(rt, "memory")
}

/// The judgement that a table names.
pub fn expected(fault: Option<(u64, Reason)>) -> Judged {
    match fault {
        None => Judged::Refuted,
        Some((step, reason)) => Judged::Rejected { step, reason },
    }
}

/// Whether every judge gives a proof the judgement that is expected.
fn is_expected(rt: &impl Abort, alloc: Global, base: &Base, proof: &Proof) -> bool {
    let (path, text, fault) = *proof;
    let path = lits(rt, alloc, path);
    let want = expected(fault);
    plain::judge(rt, alloc, base.formula(), &path, text.as_bytes()) == want
        && judged_over(rt, alloc, base, &path, text.as_bytes()) == want
        && judged_alone(rt, alloc, base, &path, text.as_bytes()) == want
}

/// Ends the test where a judge doesn't give one of the proofs the judgement that is expected. All
/// are judged over one base, which has as many clauses after them as it was made of.
fn need_expected(
    rt: &impl Abort,
    alloc: Global,
    base: &Base,
    clauses: &[&[i32]],
    proofs: &[Proof],
) {
    for proof in proofs {
        assert!(rt; is_expected(rt, alloc, base, proof), "{}", proof.1);
    }
    assert!(rt; base.formula().clauses().len() == clauses.len());
}

/// The same over a base to which the formula is lent.
fn need_lent(rt: &impl Abort, alloc: Global, clauses: &[&[i32]], proofs: &[Proof]) {
    let formula = formula(rt, alloc, clauses);
    let base = Base::new(alloc, &formula).expect(rt, "memory");
    need_expected(rt, alloc, &base, clauses, proofs);
}

/// The same over a base that owns its formula.
fn need_owned(rt: &impl Abort, alloc: Global, clauses: &[&[i32]], proofs: &[Proof]) {
    let base = Base::owning(alloc, formula(rt, alloc, clauses)).expect(rt, "memory");
    need_expected(rt, alloc, &base, clauses, proofs);
}

/// Clauses, and lists of proofs over them.
pub type Table = (&'static [&'static [i32]], &'static [&'static [Proof]]);

/// That over the four clauses.
static OVER_FOUR: Table = (
    FOUR,
    &[
        ADDITIONS,
        GROUPS,
        MANY_GROUPS,
        PUT_IN_ANEW,
        DELETIONS,
        READING,
    ],
);

/// Those over other formulas.
const OVER_OTHERS: &[Table] = &[
    (EIGHT, &[TWICE_FOUR]),
    (REPEATED, &[REPEATING]),
    (LONG_REPEATED, &[REPEATING_LONG]),
    (LONG, &[LONG_CANDIDATES]),
    (WITH_EMPTY, &[REFUTED_AT_ONCE]),
    (EMPTY_ALONE, &[REFUTED_ALONE]),
    (&[], &[NO_CLAUSE]),
];

/// The table over the four clauses. A test that calls this is cheaper to prove than one that names
/// the table, and two calls are cheaper than one of all tables.
pub fn over_four() -> &'static Table {
    &OVER_FOUR
}

/// The tables over other formulas, by a call for the same cause.
pub fn over_others() -> &'static [Table] {
    OVER_OTHERS
}

/// Ends the test where a judge doesn't judge the proofs of a table as expected.
fn need_each(rt: &impl Abort, alloc: Global, table: &Table) {
    let (clauses, lists) = *table;
    for proofs in lists {
        need_lent(rt, alloc, clauses, proofs);
    }
}

#[test]
fn expected_of_every_judge(rt: HostRuntime) {
    need_each(&rt, rt.alloc(), over_four());
    for table in over_others() {
        need_each(&rt, rt.alloc(), table);
    }
}

/// Ends the test where one judge, to which each proof leaves what its last step wrote, doesn't
/// judge these as expected.
fn need_in_turn(rt: &impl Abort, alloc: Global, judge: &mut Judge, proofs: &[Proof]) {
    for (path, text, fault) in proofs {
        let path = lits(rt, alloc, path);
        let judged = judged_by(rt, alloc, judge, &path, text.as_bytes());
        assert!(rt; judged == expected(*fault), "{text}");
    }
}

/// The same of lists of proofs.
fn need_round(rt: &impl Abort, alloc: Global, judge: &mut Judge, lists: &[&[Proof]]) {
    for proofs in lists {
        need_in_turn(rt, alloc, judge, proofs);
    }
}

/// Lists of proofs that one judge judges in two rounds, so that the first proof, too, follows
/// another.
#[derive(Drop)]
struct InRounds<'t> {
    lists: &'t [&'t [Proof]],
    is_done: bool,
}

impl<'t> Work for InRounds<'t> {
    fn with<R: Abort>(&mut self, rt: &R, alloc: Global, judge: &mut Judge, _base: &Base) {
        need_round(rt, alloc, judge, self.lists);
        need_round(rt, alloc, judge, self.lists);
        self.is_done = true;
    }
}

/// The same of a table's lists by one judge.
fn need_in_rounds(rt: &impl Abort, alloc: Global, table: &Table) {
    let (clauses, lists) = *table;
    let mut rounds = InRounds {
        lists,
        is_done: false,
    };
    with_judge(rt, alloc, clauses, &mut rounds);
    assert!(rt; rounds.is_done);
}

#[test]
fn expected_of_one_judge(rt: HostRuntime) {
    need_in_rounds(&rt, rt.alloc(), over_four());
    for table in over_others() {
        need_in_rounds(&rt, rt.alloc(), table);
    }
}

#[test]
fn bases_stay(rt: HostRuntime) {
    need_lent(&rt, rt.alloc(), FOUR, DELETED_AND_NEEDED);
    need_owned(&rt, rt.alloc(), FOUR, DELETED_AND_NEEDED);
    need_owned(&rt, rt.alloc(), EMPTY_ALONE, REFUTED_ALONE);
}

/// The steps that put in other far ids.
fn push_others(rt: &impl Abort, alloc: Global, text: &mut Vec<u8>) {
    for id in 2_000_000..2_000_000 + OTHERS {
        let step = format!(in alloc; "{id} 1 -1 0 0\n").expect(rt, "memory");
        text.extend_from_slice(step.as_bytes()).expect(rt, "memory");
    }
}

/// Those steps and this end.
fn push_far(rt: &impl Abort, alloc: Global, text: &mut Vec<u8>, end: &str) {
    text.extend_from_slice(ONE_PLACE.as_bytes())
        .expect(rt, "memory");
    push_others(rt, alloc, text);
    text.extend_from_slice(TWO_PLACES.as_bytes())
        .expect(rt, "memory");
    text.extend_from_slice(end.as_bytes()).expect(rt, "memory");
}

/// Ends the test where a judge doesn't give this text the judgement that is expected.
fn need_judged(rt: &impl Abort, alloc: Global, base: &Base, text: &[u8], want: Judged) {
    assert_eq!(rt; judged_over(rt, alloc, base, &[], text), want);
    assert_eq!(rt; plain::judge(rt, alloc, base.formula(), &[], text), want);
}

/// The same of the steps with this end.
fn need_far(rt: &impl Abort, alloc: Global, base: &Base, end: &str, want: Judged) {
    let mut text = Vec::new(alloc);
    push_far(rt, alloc, &mut text, end);
    need_judged(rt, alloc, base, &text, want);
}

/// The same of the steps with each end.
fn need_places(rt: &impl Abort, alloc: Global, base: &Base) {
    for (end, fault) in PLACE_ENDS {
        need_far(rt, alloc, base, end, expected(*fault));
    }
}

#[test]
fn far_ids_of_one_place(rt: HostRuntime) {
    let formula = formula(&rt, rt.alloc(), FOUR);
    let base = Base::new(rt.alloc(), &formula).expect(&rt, "memory");
    need_places(&rt, rt.alloc(), &base);
}
