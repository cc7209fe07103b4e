//! Texts in iCNF and DIMACS form: the clauses and cubes that are read, and what a problem line
//! says.
use crate::literals::are_lits;
use cnf_text::formula::Clause;
use cnf_text::icnf::{TextFault, read_icnf};
use cnf_text::literal::Lit;
use cnf_text::read_problem;
use cnf_text::tokens::split_line;

/// Whether these are the clauses of these numbers.
fn are_clauses(clauses: &[Clause], lists: &[&[i32]]) -> bool {
    for (place, numbers) in lists.iter().enumerate() {
        match clauses.get(place) {
            Some(clause) if are_lits(clause.lits(), numbers) => {}
            _ => return false,
        }
    }
    clauses.len() == lists.len()
}

/// Whether there is one cube, of these numbers.
fn is_one_cube(cubes: &[Vec<Lit>], numbers: &[i32]) -> bool {
    match cubes {
        [cube] => are_lits(cube, numbers),
        _ => false,
    }
}

#[test]
fn items(rt: HostRuntime) {
    let file = read_icnf(rt.alloc(), b"p inccnf\n1 -2 0 a 3 0 0\n").expect(&rt, "a fault");
    assert!(rt; are_clauses(file.formula.clauses(), &[&[1, -2], &[]]));
    assert!(rt; is_one_cube(&file.cubes, &[3]));
}

/// Clauses that keep their literals in themselves, with one between them that doesn't.
#[test]
fn short_and_long_clauses(rt: HostRuntime) {
    let text = b"p inccnf\n1 -2 3 -4 5 -6 7 0\n8 7 6 5 -4 3 2 1 0\n-9 0\n";
    let file = read_icnf(rt.alloc(), text).expect(&rt, "a fault");
    let lists: &[&[i32]] = &[&[1, -2, 3, -4, 5, -6, 7], &[8, 7, 6, 5, -4, 3, 2, 1], &[-9]];
    assert!(rt; are_clauses(file.formula.clauses(), lists));
    assert!(rt; file.formula.greatest_variable() == 9);
}

/// A zero with a sign is no end of a clause, and the greatest variable is 2^28 - 1.
#[test]
fn first_faults(rt: HostRuntime) {
    let zero = read_icnf(rt.alloc(), b"p inccnf\n1 -0 0\n");
    assert!(rt; matches!(zero, Err(TextFault::Token { line: 2 })));
    let large = read_icnf(rt.alloc(), b"p inccnf\n268435455 268435456 0");
    assert!(rt; matches!(large, Err(TextFault::TooLarge { line: 2 })));
}

/// What the problem line of a DIMACS text says, below a line that is a comment.
#[test]
fn problems(rt: HostRuntime) {
    let text = b"c a formula\np cnf 5 2\n1 -4 0 3\n0\n";
    let said = read_problem(text).expect(&rt, "a fault");
    assert!(rt; said.variables == 5 && said.clauses == 2);
    let (line, below) = split_line(text);
    assert!(rt; line == b"c a formula".as_slice() && below.is_some());
}
