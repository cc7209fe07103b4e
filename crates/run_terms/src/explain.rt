//! Who tells a person of a run, and what the run was asked for.

use crate::fault::Fault;
use std::alloc::Global;

/// The files that a run is asked for, by their paths.
#[derive(Clone, Copy)]
pub struct Asked<'a> {
    /// The formula's own file.
    pub formula: Option<&'a str>,
    /// The file with the bundle or with one proof, or `None` for the program's input.
    pub file: Option<&'a str>,
    /// What is read there is one proof of the whole formula, without a label line.
    pub is_one_proof: bool,
    /// The folder with the proofs of leaves.
    pub proofs: Option<&'a str>,
    /// The file for the picture.
    pub map: Option<&'a str>,
    /// The file for the record.
    pub out: Option<&'a str>,
    /// The file for the log.
    pub log: Option<&'a str>,
}

/// What is kept of a bundle that was read, for those who tell of it.
#[derive(Clone, Copy)]
pub struct Kept<'a> {
    /// Its iCNF text. It is empty where that wasn't read, or there was no memory to keep it.
    pub icnf: &'a [u8],
    /// How many of its lines stand above the proofs that a folder adds.
    pub lines: u64,
}

/// Who tells a person of a run, beside its report. A call is lent texts of the run, and changes
/// nothing of it; what it tells is for a person alone, and no contract says it.
pub trait Explain {
    /// The iCNF text of the bundle was read from the files that are asked for, and none of its
    /// proofs yet.
    fn tell_read(&self, alloc: Global, asked: &Asked<'_>, icnf: &[u8]);

    /// This is the report on the bundle.
    fn tell_report(&self, alloc: Global, asked: &Asked<'_>, report: &[u8]);

    /// By this fault there is no whole report.
    fn tell_fault(&self, alloc: Global, asked: &Asked<'_>, kept: Kept<'_>, fault: Fault);
}

/// Tells nothing.
#[derive(Clone, Copy)]
pub struct NoExplain;

impl Explain for NoExplain {
    fn tell_read(&self, _alloc: Global, _asked: &Asked<'_>, _icnf: &[u8]) {}

    fn tell_report(&self, _alloc: Global, _asked: &Asked<'_>, _report: &[u8]) {}

    fn tell_fault(&self, _alloc: Global, _asked: &Asked<'_>, _kept: Kept<'_>, _fault: Fault) {}
}
