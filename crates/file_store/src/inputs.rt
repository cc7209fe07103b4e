//! Which files a run reads, so that it writes over none of them.

ghost use Rattle.std.specs.Prelude.{◌≡◌, ◌++◌, ◌∷◌, [], None, OnOk, MatchOption};
ghost use Rattle.std.specs.Bool.{OnTrue, OnFalse};
ghost use Rattle.std.specs.List.{Contains};

use crate::opener::Opener;
use std::alloc::{AllocError, Global};

/// The files that a run reads, by their paths.
#[derive(Clone, Copy)]
pub struct Inputs<'a> {
    /// The formula's own file.
    pub formula: Option<&'a str>,
    /// The file with the bundle, or `None` for the program's input.
    pub file: Option<&'a str>,
    /// The folder with the proofs of leaves.
    pub proofs: Option<&'a str>,
}

/// Which plain file of a system something is, whatever it is called: the device on which it lies,
/// and its number there.
#[derive(Clone, Copy, PartialEq, Eq)]
pub struct FileId {
    /// The number of the device.
    pub device: u64,
    /// The file's number on it.
    pub number: u64,
}

/// Plain files over which nothing is written.
#[derive(Drop)]
pub struct Spared {
    files: Vec<FileId>,
}

impl Spared {
    /// No files.
    pub fn none(alloc: Global) -> Spared
        ensures { result.files.items ≡ [] }
    {
        Spared {
            files: Vec::new(alloc),
        }
    }

    /// One file more, where there is one. `AllocError` where a growth was refused.
    pub fn add(&mut self, file: Option<FileId>) -> Result<(), AllocError>
        ensures { OnOk result (MatchOption file (self.new.files.items ≡ self.old.files.items)
            (λ file. self.new.files.items ≡ self.old.files.items ++ file ∷ [])) }
    {
        if let Some(file) = file {
            self.files.push(file)?;
        }
        Ok(())
    }

    /// Whether this file is one of them.
    pub fn has(&self, file: FileId) -> bool
        ensures yes { OnTrue result (Contains self.now.files.items file) }
        ensures no { OnFalse result (¬ Contains self.now.files.items file) }
    {
        self.files.contains(&file)
    }
}

/// Whether one of these paths, at which something is to be written, names one of the spared files,
/// or two of them name one file.
pub(crate) fn is_clash<F: Opener>(opener: &F, spared: &Spared, written: &[Option<&str>]) -> bool {
    for index in 0..written.len() {
        if let Some(path) = written[index] {
            let is_spared = match opener.file_at(path) {
                Some(file) => spared.has(file),
                None => false,
            };
            if is_spared || is_among(opener, path, &written[index + 1..]) {
                return true;
            }
        }
    }
    false
}

/// Whether a path names the same file as one of the others.
fn is_among<F: Opener>(opener: &F, path: &str, others: &[Option<&str>]) -> bool {
    for other in others {
        if let Some(other) = other {
            if opener.is_one(path, other) {
                return true;
            }
        }
    }
    false
}

/// Whether nothing is to be written.
pub(crate) fn is_none_written(written: &[Option<&str>]) -> bool {
    for path in written {
        if path.is_some() {
            return false;
        }
    }
    true
}
