//! Which lines of a bundle's iCNF text are the lines of which file.

use crate::again::front_again;
use crate::files::{ReadFiles, Unread, read_again};
use crate::lines::is_line_end;
use crate::run::Run;
use case_core::line_count;
use std::io::Eprint;

/// What lines are told to be of where it isn't known on which line the second file begins.
pub(crate) const BUNDLE: &str = "the bundle";

/// The part of a bundle's iCNF text that the file with the cubes gave.
#[derive(Clone, Copy)]
pub(crate) struct Part<'t> {
    /// What its lines are told to be of.
    pub(crate) from: &'t str,
    /// The file that has it, where that can be read again.
    pub(crate) file: Option<&'t str>,
    /// Its bytes.
    pub(crate) text: &'t [u8],
    /// How many lines of the bundle stand above it.
    pub(crate) above: u64,
}

/// The part of a run's iCNF text that the file with the cubes gave. Where the formula has a file of
/// its own, the other one, or else that one, is read again to see where it ends. Where neither can
/// be, that is told, and the part is the whole text, by the bundle's name.
pub(crate) fn file_part<'r, R: Eprint + ReadFiles>(run: &Run<'r, R>) -> Part<'r> {
    let Some(path) = run.asked.formula else {
        return part_of(run, run.icnf);
    };
    match text_below(run, path) {
        Ok(text) => part_of(run, text),
        Err(unread) => {
            run.say_of(path, unread);
            Part {
                from: BUNDLE,
                file: None,
                text: run.icnf,
                above: 0,
            }
        }
    }
}

/// The part of a run's iCNF text that is this one, at its end.
fn part_of<'r, R>(run: &Run<'r, R>, text: &'r [u8]) -> Part<'r> {
    Part {
        from: run.file(),
        file: run.asked.file,
        text,
        above: line_count(run.icnf).saturating_sub(line_count(text)),
    }
}

/// What stands in the iCNF text below that of the formula's file, which has this path, or why that
/// file doesn't say where it ends.
fn text_below<'r, R: ReadFiles>(run: &Run<'r, R>, path: &str) -> Result<&'r [u8], Unread> {
    if let Some(text) = text_of_file(run) {
        return Ok(text);
    }
    match read_again(run.device, run.alloc, path) {
        Ok(formula) => match behind_formula(run.icnf, &formula) {
            Some(text) => Ok(text),
            None => Err(Unread::Changed),
        },
        Err(unread) => Err(unread),
    }
}

/// What the iCNF text ends with, where that is what the file with the cubes has above its first
/// label line when it is read again.
fn text_of_file<'r, R: ReadFiles>(run: &Run<'r, R>) -> Option<&'r [u8]> {
    let file = front_again(run.device, run.alloc, run.asked.file?).ok()?;
    let front = run.icnf.strip_suffix(file.as_slice())?;
    if front.ends_with(b"\n") {
        run.icnf.get(front.len()..)
    } else {
        None
    }
}

/// What stands in a bundle below this formula and a line end, where the bundle begins with it but
/// for its problem line.
fn behind_formula<'b>(bundle: &'b [u8], formula: &[u8]) -> Option<&'b [u8]> {
    let front = bundle.get(..formula.len())?;
    let text = bundle.get(formula.len()..)?.strip_prefix(b"\n")?;
    if differ_in_one_line(front, formula) {
        Some(text)
    } else {
        None
    }
}

/// Whether two texts have as many lines, of which one differs.
fn differ_in_one_line(one: &[u8], other: &[u8]) -> bool {
    let mut others = other.split(is_line_end);
    let mut different = 0u64;
    for line in one.split(is_line_end) {
        if others.next() != Some(line) {
            different = different.saturating_add(1);
        }
    }
    different == 1 && others.next().is_none()
}
