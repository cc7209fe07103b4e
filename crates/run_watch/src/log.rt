//! The log of a run: a line for each proof as it is judged.

ghost use Rattle.std.specs.Prelude.{◌≡◌};
ghost use Rattle.cube_report.specs.Report.{IsLineOf};

use cube_report::Found;
use file_store::{Spared, make_anew};
use std::fs::{Files, OpenFile};
use std::io::Write;

/// What begins the log of a run, in a file that is asked for.
pub trait Log {
    /// A log that was begun.
    type Lines: Lines + Sync + Drop;

    /// Before anything is read: makes the file at this path anew, unless it is one to be spared.
    /// `None` where it wasn't made.
    fn begin(&self, path: &str, spared: &Spared) -> Option<Self::Lines>;
}

/// A log that was begun, in which lines are kept.
pub trait Lines {
    /// Keeps a line, which ends with a line feed, of what was found: the one that the report has of
    /// this target where it is judged so. Workers call it side by side. What can't be kept is left
    /// out.
    fn keep(&self, found: &Found<'_>, line: &[u8])
        requires line { IsLineOf found.now.case.now.tree found.now.target found.now.judged
            line.now };
}

/// Keeps no log.
#[derive(Clone, Copy)]
pub struct NoLog;

impl Log for NoLog {
    type Lines = NoLog;

    fn begin(&self, _path: &str, _spared: &Spared) -> Option<NoLog> {
        Some(NoLog)
    }
}

impl Lines for NoLog {
    fn keep(&self, _found: &Found<'_>, _line: &[u8]) {}
}

/// A log among the files of a system. The file is opened once, and each line is written at its end
/// by one call, so that lines of several workers stand one below the other.
#[derive(Clone, Copy)]
pub struct SystemLog<'a, R> {
    files: &'a R,
}

impl<'a, R> SystemLog<'a, R> {
    /// A log among the files of this system.
    pub fn new(files: &'a R) -> SystemLog<'a, R>
        ensures { result.files.now ≡ files.now }
    {
        SystemLog { files }
    }
}

impl<'a, R: Files> Log for SystemLog<'a, R>
where
    R::File: Sync,
{
    type Lines = SystemLines<R::File>;

    fn begin(&self, path: &str, spared: &Spared) -> Option<SystemLines<R::File>> {
        match make_anew(self.files, path, spared) {
            Ok(file) => Some(SystemLines { file }),
            Err(_) => None,
        }
    }
}

/// The file of a log, which is written at its end.
#[derive(Drop)]
pub struct SystemLines<F> {
    file: F,
}

impl<F: Write + OpenFile + Drop> Lines for SystemLines<F> {
    fn keep(&self, _found: &Found<'_>, line: &[u8]) {
        if let Ok(mut file) = self.file.try_clone() {
            let _ = file.write_all(line);
        }
    }
}
