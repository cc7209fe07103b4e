//! The proofs that a report rejects.

use crate::lines::is_line_end;
use memchr::memrchr;
use std::alloc::{AllocError, Global};

/// The most rejected proofs of which something is told.
const MOST: usize = 100;

/// A proof that a report rejects.
#[derive(Clone, Copy)]
pub(crate) struct Rejected<'r> {
    /// The node, as the report names it: `a K`, or `m` or `n` and its path.
    pub(crate) node: &'r [u8],
    /// The number of a missing leaf, from 1: how many lines begin with `m` so far.
    pub(crate) missing: u64,
    pub(crate) step: u64,
    pub(crate) reason: &'r [u8],
}

/// The first rejected proofs of a report, and how many more there are; and of how many leaves and
/// inner nodes it has a judgement.
#[derive(Drop)]
pub(crate) struct Rejections<'r> {
    pub(crate) first: Vec<Rejected<'r>>,
    pub(crate) more: u64,
    pub(crate) leaves: u64,
    pub(crate) nodes: u64,
}

impl<'r> Rejections<'r> {
    /// Counts the judgement that a line of the report has, if it has one.
    fn count(&mut self, line: &[u8]) {
        let is_leaf = line.starts_with(b"a ") || line.starts_with(b"m ");
        if is_leaf && !line.ends_with(b" open") {
            self.leaves = self.leaves.saturating_add(1);
        }
        if line.starts_with(b"n ") {
            self.nodes = self.nodes.saturating_add(1);
        }
    }
}

/// The last word of a line, and what stands before it.
fn split_last(line: &[u8]) -> Option<(&[u8], &[u8])> {
    let at = memrchr(b' ', line)?;
    Some((&line[..at], &line[at + 1..]))
}

/// The number that digits spell.
pub(crate) fn number_of(digits: &[u8]) -> Option<u64> {
    std::str::from_utf8(digits).ok()?.parse::<u64>().ok()
}

/// What a line of a report says of a rejected proof, where so many lines begin with `m`.
fn rejection_in(line: &[u8], missing: u64) -> Option<Rejected<'_>> {
    let (front, reason) = split_last(line)?;
    let (front, step) = split_last(front)?;
    let (node, status) = split_last(front)?;
    if status != b"rejected".as_slice() {
        return None;
    }
    Some(Rejected {
        node,
        missing,
        step: number_of(step)?,
        reason,
    })
}

/// The rejected proofs of a report, and how many judgements it has.
pub(crate) fn rejections_in(alloc: Global, report: &[u8]) -> Result<Rejections<'_>, AllocError> {
    let mut found = Rejections {
        first: Vec::new(alloc),
        more: 0,
        leaves: 0,
        nodes: 0,
    };
    let mut missing = 0u64;
    for line in report.split(is_line_end) {
        if line.starts_with(b"m ") {
            missing = missing.saturating_add(1);
        }
        found.count(line);
        if let Some(rejected) = rejection_in(line, missing) {
            if found.first.len() < MOST {
                found.first.push(rejected)?;
            } else {
                found.more = found.more.saturating_add(1);
            }
        }
    }
    Ok(found)
}
