//! Bytes as a person can read them.

use std::fmt;

/// The most bytes of a line that are shown.
const MOST: usize = 72;

/// The beginning of a line, which is shown as the whole of it is.
pub(crate) fn beginning(line: &[u8]) -> &[u8] {
    line.get(..=MOST).unwrap_or(line)
}

/// Bytes between quotation marks: at most so many, and those that aren't letters, digits or signs
/// of ASCII by their escapes.
#[derive(Clone, Copy)]
pub(crate) struct Shown<'t>(pub(crate) &'t [u8]);

/// A path, or what else lines are told to be of: as it is where each byte is a letter, a digit, a
/// sign or a space of ASCII, and else between quotation marks, with escapes for the others.
#[derive(Clone, Copy)]
pub(crate) struct Name<'t>(pub(crate) &'t str);

/// Whether a byte is a letter, a digit, a sign or a space of ASCII.
fn is_printable(byte: &u8) -> bool {
    (b' '..=b'~').contains(byte)
}

/// Writes bytes, by their escapes where they aren't letters, digits or signs of ASCII.
fn write_escaped<W: fmt::Write>(f: &mut fmt::Formatter<W>, bytes: &[u8]) -> fmt::Result {
    for byte in bytes {
        write!(f, "{}", byte.escape_ascii())?;
    }
    Ok(())
}

impl<'t> fmt::Display for Shown<'t> {
    fn fmt<W: fmt::Write>(&self, f: &mut fmt::Formatter<W>) -> fmt::Result {
        let most = self.0.len().min(MOST);
        f.write_str("\"")?;
        write_escaped(f, &self.0[..most])?;
        f.write_str(if most < self.0.len() { "\".." } else { "\"" })
    }
}

impl<'t> fmt::Display for Name<'t> {
    fn fmt<W: fmt::Write>(&self, f: &mut fmt::Formatter<W>) -> fmt::Result {
        if self.0.as_bytes().iter().all(is_printable) {
            return f.write_str(self.0);
        }
        f.write_str("\"")?;
        write_escaped(f, self.0.as_bytes())?;
        f.write_str("\"")
    }
}
