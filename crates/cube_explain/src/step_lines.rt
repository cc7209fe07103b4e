//! Where the steps of a text LRAT proof (CADE 2017) begin.

use crate::lines::{has_words, is_blank, is_end_mark, is_line_end, line_in};
use crate::looks::{Looks, looks_of};
use crate::shown::beginning;
use case_core::line_ends;
use std::alloc::{AllocError, Global};

/// What the next word of a proof is to its steps.
#[derive(Clone, Copy, PartialEq, Eq)]
enum Due {
    /// The id that begins a step.
    Id,
    /// The word behind it.
    Second,
    /// A word before the two end marks of an addition.
    Literal,
    /// A word before the last end mark.
    Hint,
}

/// How many steps have begun, and what is due.
#[derive(Clone, Copy)]
struct Walk {
    begun: u64,
    due: Due,
}

impl Walk {
    /// Goes past a word.
    fn pass(&mut self, word: &[u8]) {
        let ends = is_end_mark(word);
        match self.due {
            Due::Id => {
                self.begun = self.begun.saturating_add(1);
                self.due = Due::Second;
            }
            Due::Second if word == b"d".as_slice() || ends => self.due = Due::Hint,
            Due::Second => self.due = Due::Literal,
            Due::Literal if ends => self.due = Due::Hint,
            Due::Hint if ends => self.due = Due::Id,
            _ => {}
        }
    }

    /// Goes past a line.
    fn pass_line(&mut self, line: &[u8]) {
        for word in line.split(is_blank) {
            if !word.is_empty() {
                self.pass(word);
            }
        }
    }
}

/// The line on which a step begins.
#[derive(Drop)]
pub(crate) struct StepLine {
    /// Its number, from 1.
    pub(crate) number: u64,
    /// Its beginning, as much of it as is shown.
    pub(crate) text: Vec<u8>,
}

/// A text proof of which the lines are passed, in blocks of whole lines, to see where a step of it
/// begins.
#[derive(Drop)]
pub(crate) struct StepWalk {
    /// The step's number, from 1.
    step: u64,
    walk: Walk,
    /// How many lines ended in the blocks so far.
    lines: u64,
    /// What the text looks like.
    pub(crate) looks: Looks,
    /// The line on which the step begins, where it was passed.
    pub(crate) line: Option<StepLine>,
}

impl StepWalk {
    /// A proof of which nothing was passed yet.
    pub(crate) fn new(step: u64) -> StepWalk {
        StepWalk {
            step,
            walk: Walk {
                begun: 0,
                due: Due::Id,
            },
            lines: 0,
            looks: Looks::Empty,
            line: None,
        }
    }

    /// Goes past a block of the proof.
    pub(crate) fn pass(&mut self, alloc: Global, block: &[u8]) -> Result<(), AllocError> {
        if matches!(self.looks, Looks::Empty) {
            self.looks = looks_of(block);
        }
        if self.line.is_none() {
            self.line = self.line_in(alloc, block)?;
        }
        self.lines = self.lines.saturating_add(line_ends(block) as u64);
        Ok(())
    }

    /// The line of a block on which the step begins.
    fn line_in(&mut self, alloc: Global, block: &[u8]) -> Result<Option<StepLine>, AllocError> {
        for (place, line) in block.split(is_line_end).enumerate() {
            if has_words(line) {
                self.walk.pass_line(line);
                if self.walk.begun >= self.step {
                    return Ok(Some(StepLine {
                        number: self.lines.saturating_add(line_in(place, line).number),
                        text: beginning(line).to_vec(alloc)?,
                    }));
                }
            }
        }
        Ok(None)
    }
}
