//! A run that is told of.

use crate::again::front_again;
use crate::files::{ReadFiles, Unread, read_again};
use crate::lines::{Line, line_at};
use crate::shown::{Name, Shown};
use run_terms::Asked;
use std::alloc::Global;
use std::fmt::Display;
use std::io::Eprint;

/// What the program's input is called.
const INPUT: &str = "standard input";

/// A run that is told of: on whose standard error, and by what its files are read again; what it
/// was asked for; and what is kept of the bundle that it has read.
#[derive(Drop)]
pub(crate) struct Run<'r, R> {
    pub(crate) device: &'r R,
    pub(crate) alloc: Global,
    pub(crate) asked: Asked<'r>,
    /// The bundle's iCNF text, which is empty where none was read.
    pub(crate) icnf: &'r [u8],
    /// How many of the bundle's lines stand above the proofs that a folder adds.
    pub(crate) lines: u64,
}

impl<'r, R> Run<'r, R> {
    /// The file with the cubes, or what the program's input is called.
    pub(crate) fn file(&self) -> &'r str {
        self.asked.file.unwrap_or(INPUT)
    }

    /// The formula's own file where the run has ended before it had a bundle: then its fault is one
    /// of that file, or of the clauses of both.
    pub(crate) fn formula_alone(&self) -> Option<&'r str> {
        if self.icnf.is_empty() {
            self.asked.formula
        } else {
            None
        }
    }
}

impl<'r, R: Eprint> Run<'r, R> {
    /// Tells a line. One that can't be written is left out.
    pub(crate) fn say<D: Display + Drop>(&self, line: D) {
        let _ = eprintln!(self.device; "explain: {line}");
    }

    /// Tells what there is to say of a file.
    pub(crate) fn say_of<D: Display + Drop>(&self, from: &str, what: D) {
        self.say(format_args!("{}: {what}", Name(from)));
    }

    /// Tells what there is to say of the line of this number in a file.
    pub(crate) fn say_at<D: Display + Drop>(&self, from: &str, number: u64, what: D) {
        self.say(format_args!("{}, line {number}: {what}", Name(from)));
    }

    /// Tells a line of a file, or that it has none with a word.
    pub(crate) fn tell(&self, from: &str, line: Option<Line<'_>>) {
        match line {
            Some(line) => self.tell_line(from, line),
            None => self.say(format_args!("{} has no line with words", Name(from))),
        }
    }

    /// Tells a line that a file has.
    fn tell_line(&self, from: &str, line: Line<'_>) {
        self.say_at(from, line.number, Shown(line.text));
        if line.text == b"%".as_slice() {
            self.say("files of SATLIB end so: cut them off from this line on");
        }
    }

    /// Tells the line of this number, from 1, of a file's text.
    pub(crate) fn tell_numbered(&self, from: &str, text: &[u8], number: u64) {
        match line_at(text, number) {
            Some(line) => self.tell_line(from, line),
            None => self.say(format_args!("{} has no line {number}", Name(from))),
        }
    }
}

impl<'r, R: Eprint + ReadFiles> Run<'r, R> {
    /// The bytes of the file at this path, read again; `None` where they can't be, which is told.
    pub(crate) fn read_or_tell(&self, path: &str) -> Option<Vec<u8>> {
        match read_again(self.device, self.alloc, path) {
            Ok(bytes) => Some(bytes),
            Err(unread) => {
                self.say_of(path, unread);
                None
            }
        }
    }

    /// The lines of the file with the cubes up to its first label line, read again; `None` where
    /// they can't be, which is told. The program's input can't be read again.
    pub(crate) fn front_or_tell(&self) -> Option<Vec<u8>> {
        let Some(path) = self.asked.file else {
            self.say_of(INPUT, Unread::Once);
            return None;
        };
        match front_again(self.device, self.alloc, path) {
            Ok(front) => Some(front),
            Err(unread) => {
                self.say_of(path, unread);
                None
            }
        }
    }
}
