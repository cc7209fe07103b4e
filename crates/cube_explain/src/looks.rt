//! What a file is that isn't what it should be, by its first bytes.

use crate::lines::{Line, first_line, is_blank};
use case_core::first_word;
use std::fmt;

/// What a text looks like.
#[derive(Clone, Copy)]
pub(crate) enum Looks {
    Empty,
    Gzip,
    Xz,
    Zstandard,
    Bzip2,
    BinaryProof,
    ClausalProof,
    FratProof,
    Answer,
    Dimacs,
    Icnf,
    Cubes,
    Unknown,
}

impl fmt::Display for Looks {
    fn fmt<W: fmt::Write>(&self, f: &mut fmt::Formatter<W>) -> fmt::Result {
        f.write_str(match self {
            Looks::Empty => "it is empty, or has only blanks and comments",
            Looks::Gzip => "it looks like gzip: unpack it first",
            Looks::Xz => "it looks like xz: unpack it first",
            Looks::Zstandard => "it looks like zstd: unpack it first",
            Looks::Bzip2 => "it looks like bzip2: unpack it first",
            Looks::BinaryProof => {
                "it looks like a binary proof: have the solver write text LRAT (CaDiCaL: \
                 --lrat --no-binary)"
            }
            Looks::ClausalProof => {
                "it looks like text DRAT, without ids and hints: let the solver write LRAT, or \
                 convert it (drat2lrat, drat-trim -L)"
            }
            Looks::FratProof => {
                "it looks like FRAT, which has hints for some steps alone: have the solver write \
                 LRAT (CaDiCaL: --lrat)"
            }
            Looks::Answer => "it looks like a solver's answer, and not like its proof",
            Looks::Dimacs => {
                "it looks like a formula in DIMACS: name it by --formula, or make an iCNF text of \
                 it"
            }
            Looks::Icnf => "it looks like iCNF",
            Looks::Cubes => "it looks like cubes: name the formula by --formula",
            Looks::Unknown => "its format is not recognized",
        })
    }
}

/// What a text looks like.
pub(crate) fn looks_of(text: &[u8]) -> Looks {
    match packed(text) {
        Some(looks) => looks,
        None if looks_binary(text) => Looks::BinaryProof,
        None => match first_line(text) {
            Some(line) => line_looks(line),
            None => Looks::Empty,
        },
    }
}

/// What a text looks like that another program has packed.
fn packed(text: &[u8]) -> Option<Looks> {
    if text.starts_with(b"\x1f\x8b") {
        Some(Looks::Gzip)
    } else if text.starts_with(b"\xfd7zXZ") {
        Some(Looks::Xz)
    } else if text.starts_with(b"\x28\xb5\x2f\xfd") {
        Some(Looks::Zstandard)
    } else if text.starts_with(b"BZh") {
        Some(Looks::Bzip2)
    } else {
        None
    }
}

/// Whether a text begins as a binary proof does, with a letter and soon a byte that is none of a
/// text.
fn looks_binary(text: &[u8]) -> bool {
    let begins = text.starts_with(b"a") || text.starts_with(b"d");
    begins && text.iter().take(64).any(|byte| !is_written(*byte))
}

/// Whether a byte stands in texts.
fn is_written(byte: u8) -> bool {
    byte == b'\n' || is_blank(&byte) || (b' '..=b'~').contains(&byte)
}

/// What a text looks like whose first line with words is this one.
fn line_looks(line: Line<'_>) -> Looks {
    match first_word(line.text) {
        Some((b"p", rest)) => match first_word(rest) {
            Some((b"cnf", _)) => Looks::Dimacs,
            Some((b"inccnf", _)) => Looks::Icnf,
            _ => Looks::Unknown,
        },
        Some((b"s", _)) => Looks::Answer,
        Some((b"v", _)) => Looks::Answer,
        Some((b"d", _)) => Looks::ClausalProof,
        Some((b"o", rest)) if begins_with_number(rest) => Looks::FratProof,
        Some((b"a", rest)) if begins_with_number(rest) => Looks::Cubes,
        Some((_, rest)) if is_clause(rest) => Looks::ClausalProof,
        _ => Looks::Unknown,
    }
}

/// Whether the next word is a number.
fn begins_with_number(line: &[u8]) -> bool {
    match first_word(line) {
        Some((word, _)) => is_number(word),
        None => false,
    }
}

/// Whether the words of a line behind its first one are a clause's: numbers, of which the last one
/// alone is 0.
fn is_clause(line: &[u8]) -> bool {
    let mut ended = false;
    for word in line.split(is_blank) {
        if ended || !is_number(word) {
            return false;
        }
        ended = word == b"0".as_slice();
    }
    ended
}

/// Whether a word is a number, or there is none.
fn is_number(word: &[u8]) -> bool {
    word.iter()
        .all(|byte| byte.is_ascii_digit() || *byte == b'-')
}
