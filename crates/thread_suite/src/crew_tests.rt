//! Runs by several workers: that they are at work at once, in which order they take the sections,
//! and that they take each once.

use crate::cases::{case, need_count};
use crate::gates::{Told, cube_of, need_each_once};
use case_core::Target;
use check_crew::{Found, Gate, Settings, conquer};
use crossbeam_utils::Backoff;
use cube_report::run;
use fixtures::bundles::{
    BOTH_CUBES, BOTH_CUBES_REPORT, FOUR_CUBES, FOUR_CUBES_REPORT, HALF, ROOT_AND_LEAVES, TURNS,
};
use fixtures::four;
use std::alloc::Global;
use std::process::Abort;
use std::sync::Wait;
use std::sync::atomic::{AtomicU64, Ordering};
use std::thread::Threads;

/// The cubes of both variables, and proofs of falling, rising and equal lengths: of cubes 1 and 4
/// the shortest, of cube 3 the longest.
const LENGTHS: &str = four!(
    "a 1 2 0\na 1 -2 0\na -1 2 0\na -1 -2 0\n",
    "l 1\n7 0 5 6 4 0\nl 2\n7 d 1 0\n8 0 5 6 3 0\n",
    "l 3\n7 d 1 0\n8 d 3 0\n9 0 5 6 2 0\nl 4\n7 0 5 6 1 0\n"
);

/// The report on `ROOT_AND_LEAVES`.
pub(crate) const ROOT_AND_LEAVES_REPORT: &[u8] = b"t 2 0 1152921504606846976\n\
a 1 refuted\na 2 refuted\nn 0 refuted\nw 0\ns REFUTED\n";

/// No clause, no cube and no proof.
const NOTHING: &str = "p inccnf\n";

pub(crate) fn settings(rt: &impl Abort, workers: u32, cut: u32) -> Settings {
    Settings::new(workers, cut).expect(rt, "no settings")
}

/// Whether a run with these settings, beside this gate, marks the root.
fn refutes<R: Abort + Threads + Wait + Sync, G: Gate + Sync>(
    rt: &R,
    alloc: Global,
    bundle: &str,
    settings: Settings,
    gate: &G,
) -> bool {
    let case = case(rt, alloc, bundle);
    let boards = conquer(rt, alloc, &case, settings, gate).expect(rt, "no boards");
    boards.root_marked()
}

/// Ends the test where a run with these settings, beside this gate, gives another report.
fn need_report<R: Abort + Threads + Wait + Sync, G: Gate + Sync>(
    rt: &R,
    alloc: Global,
    bundle: &str,
    settings: Settings,
    gate: &G,
    wanted: &[u8],
) {
    let report = run(rt, alloc, bundle.as_bytes(), settings, gate).expect(rt, "no report");
    assert!(rt; report.as_slice() == wanted);
}

/// Whether a count is this one within some turns.
fn reaches(count: &AtomicU64, wanted: u64) -> bool {
    let backoff = Backoff::new();
    for _ in 0..TURNS {
        if count.load(Ordering::SeqCst) == wanted {
            return true;
        }
        backoff.snooze();
    }
    false
}

/// Holds back the worker of the first cube until another one's finding was posted.
#[derive(Drop)]
pub(crate) struct Crossing {
    second_posted: AtomicU64,
    pub(crate) seen: AtomicU64,
    pub(crate) first_weight: AtomicU64,
    pub(crate) second_weight: AtomicU64,
}

impl Crossing {
    pub(crate) fn new() -> Crossing {
        Crossing {
            second_posted: AtomicU64::new(0),
            seen: AtomicU64::new(0),
            first_weight: AtomicU64::new(1),
            second_weight: AtomicU64::new(1),
        }
    }
}

impl Gate for Crossing {
    fn before(&self, _worker: u32, target: Target) {
        if cube_of(target) == 1 && reaches(&self.second_posted, 1) {
            self.seen.store(1, Ordering::SeqCst);
        }
    }

    fn after(&self, _worker: u32, found: &Found<'_>) {
        if cube_of(found.target) == 1 {
            self.first_weight.store(found.weight, Ordering::SeqCst);
        } else {
            self.second_weight.store(found.weight, Ordering::SeqCst);
            self.second_posted.store(1, Ordering::SeqCst);
        }
    }
}

/// Ends the test where a run with these settings sees another weight, or gives another report.
fn need_crossing<R: Abort + Threads + Wait + Sync>(
    rt: &R,
    alloc: Global,
    settings: Settings,
    seen: u64,
    second_weight: u64,
) {
    let gate = Crossing::new();
    need_report(rt, alloc, BOTH_CUBES, settings, &gate, BOTH_CUBES_REPORT);
    need_count(rt, "seen", &gate.seen, seen);
    need_count(rt, "second_weight", &gate.second_weight, second_weight);
    let first_weight = if seen == 1 { 0 } else { HALF };
    need_count(rt, "first_weight", &gate.first_weight, first_weight);
}

// Two workers are at work at once: the first cube's waits for what the second cube's has posted.
// The two cubes share a board at cut 0, and have boards of their own at others. One worker gives up
// waiting; the report is the same.
#[test]
fn two_workers_cross(rt: HostRuntime) {
    for (workers, cut, seen, second_weight) in [
        (2, 0, 1, HALF),
        (2, 1, 1, 0),
        (2, 6, 1, 0),
        (1, 0, 0, 0),
    ] {
        let settings = settings(&rt, workers, cut);
        need_crossing(&rt, rt.alloc(), settings, seen, second_weight);
    }
}

/// Holds back the workers of the cubes until the root's finding was posted.
#[derive(Drop)]
struct Rooted {
    root_posted: AtomicU64,
    root_weight: AtomicU64,
    later: AtomicU64,
}

impl Gate for Rooted {
    fn before(&self, _worker: u32, target: Target) {
        if cube_of(target) != 0 && reaches(&self.root_posted, 1) {
            self.later.fetch_add(1, Ordering::SeqCst);
        }
    }

    fn after(&self, _worker: u32, found: &Found<'_>) {
        if cube_of(found.target) == 0 {
            self.root_weight.store(found.weight, Ordering::SeqCst);
            self.root_posted.store(1, Ordering::SeqCst);
        }
    }
}

/// Ends the test where two workers don't find the root marked at this cut.
fn need_rooted<R: Abort + Threads + Wait + Sync>(rt: &R, alloc: Global, cut: u32) {
    let gate = Rooted {
        root_posted: AtomicU64::new(0),
        root_weight: AtomicU64::new(1),
        later: AtomicU64::new(0),
    };
    let settings = settings(rt, 3, cut);
    let wanted = ROOT_AND_LEAVES_REPORT;
    need_report(rt, alloc, ROOT_AND_LEAVES, settings, &gate, wanted);
    need_count(rt, "later", &gate.later, 2);
    need_count(rt, "root_weight", &gate.root_weight, 0);
}

// The root's proof is posted while two other workers are at work: what they find is posted below a
// root that is marked already.
#[test]
fn the_root_is_posted_while_others_work(rt: HostRuntime) {
    for cut in [0, 1] {
        need_rooted(&rt, rt.alloc(), cut);
    }
}

/// Ends the test where a run with these settings marks the root, or doesn't.
fn need_refuted<R: Abort + Threads + Wait + Sync>(
    rt: &R,
    alloc: Global,
    bundle: &str,
    settings: Settings,
    gate: &Told,
    wanted: bool,
) {
    assert!(rt; refutes(rt, alloc, bundle, settings, gate) == wanted);
}

/// Ends the test where one worker takes a bundle's sections in another order.
fn need_order<R: Abort + Threads + Wait + Sync>(rt: &R, alloc: Global, bundle: &str, order: u64) {
    let gate = Told::new();
    let settings = settings(rt, 1, 2);
    need_refuted(rt, alloc, bundle, settings, &gate, order > 0);
    need_count(rt, "order", &gate.order, order);
    need_count(rt, "workers", &gate.workers, 0);
}

// One worker takes the sections of longer proofs first, and those of equal length in the order of
// the text. It is worker 0.
#[test]
fn long_proofs_first(rt: HostRuntime) {
    for (bundle, order) in [(LENGTHS, 3214), (FOUR_CUBES, 1234), (NOTHING, 0)] {
        need_order(&rt, rt.alloc(), bundle, order);
    }
}

/// Ends the test where so many workers don't examine each section once, or give another report.
fn need_told_once<R: Abort + Threads + Wait + Sync>(
    rt: &R,
    alloc: Global,
    workers: u32,
    bundle: &str,
    report: &[u8],
    once: u64,
) {
    let gate = Told::new();
    let settings = settings(rt, workers, 1);
    need_report(rt, alloc, bundle, settings, &gate, report);
    need_each_once(rt, &gate, once);
}

// Whatever the number of workers, each section is examined once and told once, between one start
// and one end.
#[test]
fn each_section_is_told_once(rt: HostRuntime) {
    for workers in [1, 2, 4, 32] {
        need_told_once(
            &rt,
            rt.alloc(),
            workers,
            FOUR_CUBES,
            FOUR_CUBES_REPORT,
            0x11110,
        );
        let report = ROOT_AND_LEAVES_REPORT;
        need_told_once(&rt, rt.alloc(), workers, ROOT_AND_LEAVES, report, 0x111);
    }
}
