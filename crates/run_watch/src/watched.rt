//! What goes on beside a run: the caller's gate, one that watches, and the log.

ghost use Rattle.std.specs.Prelude.{◌≡◌, ◌≢◌, None, IfErr, OnErr};
ghost use Rattle.cube_report.specs.Leaves.{HasTarget};

use crate::log::{Lines, Log};
use crate::reading::Watch;
use cube_report::{Case, Elsewhere, Fault, Found, Gate, Target, line_of};
use file_store::Spared;
use std::alloc::{AllocError, Global};

/// The gate that a caller gives, one that watches the run where that is asked for, and who keeps
/// a log.
#[derive(Clone, Copy)]
pub struct Beside<'a, G, W, L> {
    pub alloc: Global,
    pub gate: &'a G,
    pub watch: &'a W,
    pub is_asked: bool,
    pub log: &'a L,
}

impl<'a, G, W: Watch, L> Beside<'a, G, W, L> {
    /// Before the first read.
    pub fn begins_to_read(&self) {
        if self.is_asked {
            self.watch.begins_to_read();
        }
    }

    /// When the run is over.
    pub fn is_over(&self) {
        if self.is_asked {
            self.watch.is_over();
        }
    }
}

impl<'a, G, W, L: Log> Beside<'a, G, W, L> {
    /// The gates, with the log that was begun.
    pub fn with_lines<'l>(&self, lines: Option<&'l L::Lines>) -> Watched<'a, 'l, G, W, L::Lines>
        ensures gates { (result.gate ≡ self.now.gate) × (result.watch ≡ self.now.watch) }
        ensures asked { result.is_asked ≡ self.now.is_asked }
        ensures lines { result.lines ≡ lines.entry }
    {
        Watched {
            alloc: self.alloc,
            gate: self.gate,
            watch: self.watch,
            is_asked: self.is_asked,
            lines,
        }
    }

    /// Makes the log's file anew, where one is asked for. The fault is that of a device.
    pub fn begins_log(&self, path: Option<&str>, spared: &Spared) -> Result<Option<L::Lines>, Fault>
        ensures device { IfErr result (λ fault. fault ≡ Fault.Device) }
        ensures asked { OnErr result (path.entry ≢ None) }
    {
        let Some(path) = path else {
            return Ok(None);
        };
        match self.log.begin(path, spared) {
            Some(lines) => Ok(Some(lines)),
            None => Err(Fault::Device),
        }
    }
}

/// The gates, and the log that was begun, where one is asked for.
#[derive(Clone, Copy)]
pub struct Watched<'a, 'l, G, W, K> {
    pub alloc: Global,
    pub gate: &'a G,
    pub watch: &'a W,
    pub is_asked: bool,
    pub lines: Option<&'l K>,
}

impl<'a, 'l, G, W, K: Lines> Watched<'a, 'l, G, W, K> {
    /// Logs what was found, where a log is asked for. Where memory is refused the line is left out.
    fn logs(&self, found: &Found<'_>)
        requires { HasTarget found.now.case.now.tree found.now.target }
    {
        if let Some(lines) = self.lines {
            if let Ok(line) = line_of(self.alloc, found.case.tree(), found.target, found.judged) {
                lines.keep(found, &line);
            }
        }
    }
}

impl<'a, 'l, G: Gate, W: Gate, K: Lines> Gate for Watched<'a, 'l, G, W, K> {
    fn start(
        &self,
        alloc: Global,
        case: &Case,
        cut: u32,
        elsewhere: Elsewhere,
    ) -> Result<(), AllocError> {
        let again = elsewhere;
        self.gate.start(alloc, case, cut, elsewhere)?;
        if self.is_asked {
            return self.watch.start(alloc, case, cut, again);
        }
        Ok(())
    }

    fn before(&self, worker: u32, target: Target) {
        let again = target;
        self.gate.before(worker, target);
        if self.is_asked {
            self.watch.before(worker, again);
        }
    }

    fn after(&self, worker: u32, found: &Found<'_>) {
        self.gate.after(worker, found);
        if self.is_asked {
            self.watch.after(worker, found);
        }
        self.logs(found);
    }

    fn falls_back(&self, target: Target) {
        let again = target;
        self.gate.falls_back(target);
        if self.is_asked {
            self.watch.falls_back(again);
        }
    }

    fn end(&self) {
        self.gate.end();
        if self.is_asked {
            self.watch.end();
        }
    }
}
