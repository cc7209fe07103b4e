//! The lines of a text, counted from 1.

use case_core::{first_word, is_comment};

/// Whether a byte ends a line.
pub(crate) fn is_line_end(byte: &u8) -> bool {
    *byte == b'\n'
}

/// Whether a byte stands between the words of a line.
pub(crate) fn is_blank(byte: &u8) -> bool {
    matches!(*byte, b' ' | b'\t' | b'\r')
}

/// A line of a text, with its number.
#[derive(Clone, Copy)]
pub(crate) struct Line<'t> {
    pub(crate) number: u64,
    pub(crate) text: &'t [u8],
}

/// The line in this place, from 0.
pub(crate) fn line_in(place: usize, text: &[u8]) -> Line<'_> {
    Line {
        number: (place as u64).saturating_add(1),
        text,
    }
}

/// The line of this number, if the text has it.
pub(crate) fn line_at(text: &[u8], number: u64) -> Option<Line<'_>> {
    for (place, line) in text.split(is_line_end).enumerate() {
        let line = line_in(place, line);
        if line.number == number {
            return Some(line);
        }
    }
    None
}

/// Whether a line has a word and is no comment.
pub(crate) fn has_words(line: &[u8]) -> bool {
    !is_comment(line) && first_word(line).is_some()
}

/// The first line that has words.
pub(crate) fn first_line(text: &[u8]) -> Option<Line<'_>> {
    for (place, line) in text.split(is_line_end).enumerate() {
        if has_words(line) {
            return Some(line_in(place, line));
        }
    }
    None
}

/// The last line that has words.
pub(crate) fn last_line(text: &[u8]) -> Option<Line<'_>> {
    let mut last = None;
    for (place, line) in text.split(is_line_end).enumerate() {
        if has_words(line) {
            last = Some(line_in(place, line));
        }
    }
    last
}

/// Whether a word is an end mark: a number of value zero.
pub(crate) fn is_end_mark(word: &[u8]) -> bool {
    !word.is_empty() && word.iter().all(|digit| *digit == b'0')
}

/// Goes past a line of cubes: whether a clause begins on it, where `is_inside` says whether the
/// line begins inside a cube, and then whether the line below does.
fn begins_clause(line: &[u8], is_inside: &mut bool) -> bool {
    for word in line.split(is_blank) {
        if *is_inside {
            *is_inside = !is_end_mark(word);
        } else if word == b"a".as_slice() {
            *is_inside = true;
        } else if !word.is_empty() {
            return true;
        }
    }
    false
}

/// The line on which the first clause begins, in a text without a header that has cubes and
/// clauses.
pub(crate) fn first_clause(text: &[u8]) -> Option<Line<'_>> {
    let mut is_inside = false;
    for (place, line) in text.split(is_line_end).enumerate() {
        if has_words(line) && begins_clause(line, &mut is_inside) {
            return Some(line_in(place, line));
        }
    }
    None
}

/// The line on which the cube of this number, from 1, begins.
pub(crate) fn cube_line(text: &[u8], cube: u32) -> Option<Line<'_>> {
    let mut count = 0u64;
    for (place, line) in text.split(is_line_end).enumerate() {
        if has_words(line) {
            count = count.saturating_add(cubes_on(line));
            if count >= u64::from(cube) {
                return Some(line_in(place, line));
            }
        }
    }
    None
}

/// How many cubes begin on a line. None does on a header, whose other words are ignored.
fn cubes_on(line: &[u8]) -> u64 {
    if matches!(first_word(line), Some((b"p", _))) {
        return 0;
    }
    let mut count = 0u64;
    for word in line.split(is_blank) {
        count = count.saturating_add(u64::from(word == b"a".as_slice()));
    }
    count
}

/// How many words a line has.
pub(crate) fn word_count(line: &[u8]) -> u64 {
    let mut count = 0u64;
    for word in line.split(is_blank) {
        count = count.saturating_add(u64::from(!word.is_empty()));
    }
    count
}
