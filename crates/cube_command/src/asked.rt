//! What is told beside a run where that is asked for.

use crate::one_proof::file_at;
use case_core::line_count;
use command_words::Request;
use cube_report::{Asked, Explain, Fault, Kept, icnf_part};
use std::alloc::{AllocError, Global};

/// Who tells of a run, where that is asked for: what the run was asked for, and what is kept of the
/// bundle to tell of it.
pub(crate) struct Telling<'a, X> {
    explain: &'a X,
    asked: Asked<'a>,
    is_asked: bool,
    /// The iCNF text of the bundle that was read, where there was memory for it.
    icnf: Vec<u8>,
    /// How many of the bundle's lines stand above the proofs that a folder adds.
    lines: u64,
}

// As a derive does, but proved here alone and not in the body of each owner.
impl<'a, X> Drop for Telling<'a, X> {
    fn drop(self) {
        let Telling {
            explain: _,
            asked: _,
            is_asked: _,
            icnf: _,
            lines: _,
        } = self;
    }
}

/// The files that a request asks for.
fn asked_in<'a>(request: &Request<'a>) -> Asked<'a> {
    Asked {
        formula: request.formula,
        file: file_of(request),
        is_one_proof: request.proof.is_some(),
        proofs: request.proofs,
        map: request.map,
        out: request.out,
        log: request.log,
    }
}

/// The file that is read in the place of the input: that with the bundle, or with one proof.
pub(crate) fn file_of<'a>(request: &Request<'a>) -> Option<&'a str> {
    match request.proof {
        Some(path) => file_at(path),
        None => request.file,
    }
}

/// The fault with which a run ended, if it did.
pub(crate) fn fault_in(run: &Result<bool, Fault>) -> Option<Fault> {
    match run {
        Ok(_) => None,
        Err(fault) => Some(*fault),
    }
}

impl<'a, X> Telling<'a, X> {
    /// Who tells of what this request asks for, where it asks for that too.
    pub(crate) fn new(alloc: Global, explain: &'a X, request: &Request<'a>) -> Telling<'a, X> {
        Telling {
            explain,
            asked: asked_in(request),
            is_asked: request.explain,
            icnf: Vec::new(alloc),
            lines: 0,
        }
    }

    /// Keeps this text and its end, or nothing where there is no memory for it.
    fn keep(&mut self, front: &[u8], end: &[u8]) {
        self.icnf.clear();
        if append_both(&mut self.icnf, front, end).is_err() {
            self.icnf.clear();
        }
    }
}

/// Appends two texts.
fn append_both(text: &mut Vec<u8>, front: &[u8], end: &[u8]) -> Result<(), AllocError> {
    text.extend_from_slice(front)?;
    text.extend_from_slice(end)?;
    Ok(())
}

impl<'a, X: Explain> Telling<'a, X> {
    /// Tells what was read, and keeps it: an iCNF text in two parts, of which the second may be
    /// empty. What is read again is kept anew, and not told again.
    pub(crate) fn tell_read(&mut self, alloc: Global, front: &[u8], end: &[u8]) {
        if self.is_asked {
            let is_first = self.icnf.is_empty();
            self.keep(front, end);
            if is_first {
                self.explain.tell_read(alloc, &self.asked, &self.icnf);
            }
        }
    }

    /// The same of a bundle that was read whole, to which a folder may add proofs.
    pub(crate) fn tell_bundle(&mut self, alloc: Global, bundle: &[u8]) {
        if self.is_asked {
            self.lines = line_count(bundle);
            self.tell_read(alloc, icnf_part(bundle), b"");
        }
    }

    /// Tells of the report on what was read.
    pub(crate) fn tell_report(&self, alloc: Global, report: &[u8]) {
        if self.is_asked {
            self.explain.tell_report(alloc, &self.asked, report);
        }
    }

    /// Tells of a run that ended with a fault, where it did.
    pub(crate) fn tell_fault(&self, alloc: Global, fault: Option<Fault>) {
        if let Some(fault) = fault {
            if self.is_asked {
                let kept = Kept {
                    icnf: &self.icnf,
                    lines: self.lines,
                };
                self.explain.tell_fault(alloc, &self.asked, kept, fault);
            }
        }
    }
}
