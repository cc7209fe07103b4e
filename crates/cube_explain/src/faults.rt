//! What a fault comes from.

use crate::failed_files::tell_device;
use crate::fault_places::{tell_label, tell_line};
use crate::files::ReadFiles;
use crate::lines::{cube_line, first_clause, first_line, last_line};
use crate::looks::looks_of;
use crate::parts::file_part;
use crate::run::Run;
use crate::shown::Shown;
use case_core::{first_word, read_problem};
use run_terms::Fault;
use std::io::Eprint;

/// Tells what a fault comes from.
pub(crate) fn tell_fault<R: Eprint + ReadFiles>(run: &Run<'_, R>, fault: Fault) {
    match fault {
        Fault::Header => tell_header(run),
        Fault::Token { line } => tell_line(run, line),
        Fault::Unfinished => tell_end(run),
        Fault::TooLarge { line } => tell_line(run, line),
        Fault::Repeats { cube } => tell_cube(run, cube),
        Fault::NotATree { first, second } => tell_cubes(run, first, second),
        Fault::Overlap { first, second } => tell_cubes(run, first, second),
        Fault::BadLabel { line } => tell_label(run, line),
        Fault::NoSuchLeaf { line } => tell_label(run, line),
        Fault::ProofTwice { line } => tell_label(run, line),
        Fault::Device => tell_device(run),
        Fault::NoProblem => tell_problem(run),
        Fault::Counts { .. } => tell_counts(run),
        Fault::Limit => run.say("see the limits in docs/FORMATS.md"),
        Fault::Memory => run.say("fewer workers take less memory"),
        Fault::Thread => run.say("fewer workers need fewer threads"),
    }
}

/// Tells what stands at the beginning of a file's text, which should begin otherwise.
fn tell_beginning<R: Eprint>(run: &Run<'_, R>, from: &str, text: &[u8], wanted: &str) {
    run.tell(from, first_line(text));
    run.say_of(from, format_args!("{}; {wanted}", looks_of(text)));
}

/// Tells what stands in the place of a header.
fn tell_header<R: Eprint>(run: &Run<'_, R>) {
    tell_beginning(run, run.file(), run.icnf, "a bundle begins with p inccnf");
}

/// Tells the last line of the text that ends inside a clause or a cube.
fn tell_end<R: Eprint + ReadFiles>(run: &Run<'_, R>) {
    match run.formula_alone() {
        Some(path) => tell_formula_end(run, path),
        None => {
            let part = file_part(run);
            run.tell(part.from, last_line(part.text));
        }
    }
}

/// Tells the last line of the formula's file, which has this path.
fn tell_formula_end<R: Eprint + ReadFiles>(run: &Run<'_, R>, path: &str) {
    if let Some(formula) = run.read_or_tell(path) {
        run.tell(path, last_line(&formula));
    }
}

/// Tells what stands in the place of a problem line.
fn tell_problem<R: Eprint + ReadFiles>(run: &Run<'_, R>) {
    let path = run.asked.formula.unwrap_or("");
    if let Some(text) = run.read_or_tell(path) {
        tell_beginning(run, path, &text, "a formula begins with p cnf V C");
    }
}

/// Tells the problem line; and, where the formula's file is as that line says, the first clause of
/// the other file.
fn tell_counts<R: Eprint + ReadFiles>(run: &Run<'_, R>) {
    let path = run.asked.formula.unwrap_or("");
    if let Some(formula) = run.read_or_tell(path) {
        run.tell(path, first_line(&formula));
        if read_problem(&formula).is_ok() {
            tell_clause(run);
        }
    }
}

/// Tells the first clause of the file with the cubes.
fn tell_clause<R: Eprint + ReadFiles>(run: &Run<'_, R>) {
    if run.icnf.is_empty() {
        if let Some(text) = run.front_or_tell() {
            tell_clause_of(run, &text);
        }
    } else {
        let part = file_part(run);
        if part.above > 0 {
            tell_clause_of(run, part.text);
        }
    }
}

/// Tells the first clause of this text of that file.
fn tell_clause_of<R: Eprint>(run: &Run<'_, R>, text: &[u8]) {
    if let Some(line) = first_clause(text) {
        run.tell(run.file(), Some(line));
        run.say("this is a clause; a cube begins with \"a\"");
    }
}

/// Tells a cube.
fn tell_cube<R: Eprint + ReadFiles>(run: &Run<'_, R>, cube: u32) {
    let part = file_part(run);
    run.tell(part.from, cube_line(part.text, cube));
}

/// Tells two cubes that aren't leaves of one tree.
fn tell_cubes<R: Eprint + ReadFiles>(run: &Run<'_, R>, first: u32, second: u32) {
    let part = file_part(run);
    let text = part.text;
    let (one, other) = (cube_line(text, first), cube_line(text, second));
    run.tell(part.from, one);
    run.tell(part.from, other);
    if let (Some(one), Some(other)) = (one, other) {
        tell_parting(run, one.text, other.text);
    }
    run.say("each cube has to have its literals in the order of its splits");
}

/// Tells on which words two cubes part, or which of them the other begins with.
fn tell_parting<R: Eprint>(run: &Run<'_, R>, one: &[u8], other: &[u8]) {
    let Some((same, word, beside)) = parting(one, other) else {
        return;
    };
    if word == b"0".as_slice() {
        run.say("the first is the beginning of the second");
    } else if beside == b"0".as_slice() {
        run.say("the second is the beginning of the first");
    } else {
        tell_words(run, same.saturating_sub(1), word, beside);
    }
}

/// Tells with which words two cubes go on behind so many literals.
fn tell_words<R: Eprint>(run: &Run<'_, R>, after: u64, word: &[u8], beside: &[u8]) {
    let (word, beside) = (Shown(word), Shown(beside));
    let literals = if after == 1 { "literal" } else { "literals" };
    run.say(format_args!(
        "the cubes agree on {after} {literals}; then one has {word}, the other {beside}"
    ));
}

/// How many words of two lines are the same, and those with which they then go on, if the first
/// one does.
fn parting<'t>(one: &'t [u8], other: &'t [u8]) -> Option<(u64, &'t [u8], &'t [u8])> {
    let (mut left, mut behind) = (one, other);
    for same in 0..one.len() as u64 {
        let (word, rest) = first_word(left)?;
        let (beside, others) = first_word(behind).unwrap_or((&[], &[]));
        if word != beside {
            return Some((same, word, beside));
        }
        (left, behind) = (rest, others);
    }
    None
}
