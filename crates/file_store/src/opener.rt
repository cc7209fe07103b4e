//! What opens files and makes them, and what of that a contract can tell.

ghost use Rattle.std.specs.Prelude.{◌≡◌, ◌≢◌, ℕ, List, [], Bool, true, Option, None, Some, IfOk};
ghost use Rattle.std.specs.Prelude.{IfErr, OnOk};
ghost use Rattle.std.specs.IoError.{error_kind};
ghost use Rattle.file_store.specs.Files.{IsOpened};

use crate::inputs::{FileId, Inputs, Spared};
use crate::system::{file_at, files_to_spare, is_one, is_read_once, make_anew};
use std::alloc::{AllocError, Global};
use std::io::{ErrorKind, Read, Write};
use std::rt::Files;
use std::{fs, io};

/// What opens files for reading and makes files anew, by their paths, and does nothing else: what
/// is read of them and written to them goes by the files that it hands out.
pub trait Opener {
    /// A file that was opened, which is read from its beginning.
    type Opened: Read + Drop;

    /// A file that was made, which is written.
    type Made: Write + Drop;

    // Whether it is known what lies at the paths.
    ghost knows: { Self → Bool };

    // Where that is known, what lies at each path: no file, or a file with these bytes.
    ghost files: { Self → List ℕ → Option (List ℕ) };

    // That a file at this path was made and isn't closed.
    ghost makes: { Self → List ℕ → Type 0 };

    /// Opens the file at this path for reading. A fault of the kind `NotFound` says that there is
    /// none, and one of the kind `OutOfMemory` that memory was refused; nothing changes.
    fn open(&mut self, path: &str) -> io::Result<Self::Opened>
        ensures knows { knows self.new ≡ knows self.old }
        ensures files { files self.new ≡ files self.old }
        ensures opened { IfOk result (λ file. knows self.old ≡ true
            → IsOpened (files self.old path.now) (Self.Opened.remaining file)) }
        ensures absent { IfErr result (λ error. knows self.old ≡ true
            → error_kind error ≡ ErrorKind.NotFound → files self.old path.now ≡ None) };

    /// Makes the file at this path anew, with no bytes yet; no other file changes. It fails where
    /// the path names one of the spared files, and then nothing changes. A fault of the kind
    /// `OutOfMemory` says that memory was refused, and then nothing changes either.
    fn create(&mut self, path: &str, spared: &Spared) -> io::Result<Self::Made>
        ensures knows { knows self.new ≡ knows self.old }
        ensures elsewhere { (other : List ℕ) → other ≢ path.now
            → files self.new other ≡ files self.old other }
        ensures makes { OnOk result (makes self.new path.now) }
        ensures empty { IfOk result (λ file. knows self.old ≡ true
            → Self.Made.contents file ≡ Some []) }
        ensures nothing { IfErr result (λ error. error_kind error ≡ ErrorKind.OutOfMemory
            → files self.new ≡ files self.old) };

    /// Closes the file that was made at this path: what was written to it lies there.
    fn close(&mut self, path: &str, file: Self::Made)
        requires makes { makes self.old path.now }
        ensures knows { knows self.new ≡ knows self.old }
        ensures elsewhere { (other : List ℕ) → other ≢ path.now
            → files self.new other ≡ files self.old other }
        ensures there { knows self.old ≡ true
            → files self.new path.now ≡ Self.Made.contents file };

    /// An opener of the same files, for another thread.
    fn another(&self, alloc: Global) -> Result<Self, AllocError>
        ensures knows { IfOk result (λ other. knows other ≡ knows self.now) }
        ensures files { IfOk result (λ other. files other ≡ files self.now) };

    /// How long the file at this path is, where that can be told without reading it. No clause ties
    /// the length to the file's bytes.
    fn length(&self, path: &str) -> Option<u64>;

    /// Whether what this path names is there and is no plain file, so that it may be read but once,
    /// as a pipe. Links are followed. No clause ties the answer to what lies there.
    fn is_read_once(&self, path: &str) -> bool;

    /// Which plain file this path names; `None` where it names none, or where that can't be told.
    /// Links are followed. What names a file is known to no contract.
    fn file_at(&self, path: &str) -> Option<FileId>;

    /// Whether two paths name one plain file, be it there or not.
    fn is_one(&self, one: &str, other: &str) -> bool;

    /// The plain files that a run has to spare which is asked for these: the formula's own file,
    /// FILE or the program's input, each file of the folder whose name ends in `.lrat`, and the one
    /// to which the program's output goes. `AllocError` where a growth was refused.
    fn files_to_spare(&self, alloc: Global, inputs: &Inputs<'_>) -> Result<Spared, AllocError>;
}

/// The files of a system. What they hold is not known to a contract.
#[derive(Clone, Copy)]
pub struct SystemFiles<'a, R> {
    files: &'a R,
}

impl<'a, R> SystemFiles<'a, R> {
    /// The files of this system.
    pub fn new(files: &'a R) -> SystemFiles<'a, R>
        ensures { result.files.now ≡ files.now }
    {
        SystemFiles { files }
    }
}

impl<'a, R: Files + AllocGlobal + Clone + Drop> Opener for SystemFiles<'a, R> {
    type Opened = R::File;

    type Made = R::File;

    ghost use Rattle.std.specs.Prelude.{false, None};

    ghost knows = { λ _. false };

    ghost files = { λ _ _. None };

    ghost makes = { λ _ _. Unit {0} };

    fn open(&mut self, path: &str) -> io::Result<R::File> {
        fs::open(self.files, path)
    }

    fn create(&mut self, path: &str, spared: &Spared) -> io::Result<R::File> {
        make_anew(self.files, path, spared)
    }

    fn close(&mut self, _path: &str, _file: R::File) {}

    fn another(&self, _alloc: Global) -> Result<SystemFiles<'a, R>, AllocError> {
        Ok(SystemFiles::new(self.files))
    }

    fn length(&self, path: &str) -> Option<u64> {
        fs::metadata(self.files, path)
            .ok()
            .map(|metadata| metadata.len())
    }

    fn is_read_once(&self, path: &str) -> bool {
        is_read_once(self.files, path)
    }

    fn file_at(&self, path: &str) -> Option<FileId> {
        file_at(self.files, path)
    }

    fn is_one(&self, one: &str, other: &str) -> bool {
        is_one(self.files, one, other)
    }

    fn files_to_spare(&self, alloc: Global, inputs: &Inputs<'_>) -> Result<Spared, AllocError> {
        files_to_spare(self.files, alloc, inputs)
    }
}
