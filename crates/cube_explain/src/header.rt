//! What stands behind a bundle's header, where the program doesn't read it.

use crate::lines::{Line, first_line, word_count};
use crate::run::Run;
use case_core::first_word;
use memchr::memchr;
use std::io::Eprint;

/// Tells how many words behind `p inccnf` are ignored, where there are any. A formula that has a
/// file of its own has a line of another form.
pub(crate) fn tell_ignored<R: Eprint>(run: &Run<'_, R>) {
    if run.asked.formula.is_none()
        && let Some(line) = first_line(run.icnf)
    {
        tell_behind(run, line);
    }
}

/// Tells how many words stand behind the header on its line, where there are any, and whether the
/// line looks like several.
fn tell_behind<R: Eprint>(run: &Run<'_, R>, line: Line<'_>) {
    let ignored = words_behind(line.text);
    if ignored == 0 {
        return;
    }
    let what = format_args!("words behind p inccnf, which are ignored: {ignored}");
    run.say_at(run.file(), line.number, what);
    if has_inner_return(line.text) {
        let what = "the line has CR bytes in it, but only LF ends a line";
        run.say_at(run.file(), line.number, what);
    }
}

/// How many words stand behind `p inccnf`.
fn words_behind(line: &[u8]) -> u64 {
    match first_word(line) {
        Some((b"p", rest)) => match first_word(rest) {
            Some((b"inccnf", rest)) => word_count(rest),
            _ => 0,
        },
        _ => 0,
    }
}

/// Whether a line has a CR that isn't its last byte.
fn has_inner_return(line: &[u8]) -> bool {
    memchr(b'\r', line).is_some_and(|at| at.saturating_add(1) < line.len())
}
