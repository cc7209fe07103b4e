//! Runs over a bundle that is read once: that others are at work while one worker reads, that each
//! section is judged once, and which fault there is.

use crate::cases::need_count;
use crate::crew_tests::{Crossing, ROOT_AND_LEAVES_REPORT, settings};
use crate::gates::{Told, need_each_once};
use case_core::{CaseFault, LabelledText, take_bundle};
use check_crew::{Gate, ReadFault, Settings, conquer_while_read};
use cube_report::{Counted, written_by};
use fixtures::bundles::{
    BOTH_CUBES, BOTH_CUBES_REPORT, FOUR_CUBES, FOUR_CUBES_REPORT, HALF, ROOT_AND_LEAVES,
};
use fixtures::halves;
use std::alloc::Global;
use std::process::Abort;
use std::sync::Wait;
use std::thread::Threads;

/// The report on a bundle that is read once, by a run with these settings beside this gate.
fn report_once<R: Abort + Threads + Wait + Sync, G: Gate + Sync>(
    rt: &R,
    alloc: Global,
    bundle: &str,
    settings: Settings,
    gate: &G,
) -> Result<Vec<u8>, ReadFault> {
    let mut source = Counted::new(bundle.as_bytes());
    let mut text = LabelledText::below(alloc, b"").expect(rt, "no text");
    let icnf = text.front(alloc, &mut source).expect(rt, "no front");
    let case = take_bundle(alloc, icnf).expect(rt, "no case");
    let boards = conquer_while_read(rt, alloc, &case, settings, gate, text, &mut source)?;
    let written = written_by(alloc, &boards, false).expect(rt, "no report");
    Ok(written.text)
}

/// Ends the test where such a run gives another report.
fn need_report<R: Abort + Threads + Wait + Sync, G: Gate + Sync>(
    rt: &R,
    alloc: Global,
    bundle: &str,
    settings: Settings,
    gate: &G,
    wanted: &[u8],
) {
    let report = report_once(rt, alloc, bundle, settings, gate).expect(rt, "no report");
    assert!(rt; report.as_slice() == wanted);
}

/// Ends the test where a run with these settings sees another weight, or gives another report.
fn need_crossing<R: Abort + Threads + Wait + Sync>(
    rt: &R,
    alloc: Global,
    settings: Settings,
    seen: u64,
    second_weight: u64,
) {
    let gate = Crossing::new();
    need_report(rt, alloc, BOTH_CUBES, settings, &gate, BOTH_CUBES_REPORT);
    need_count(rt, "seen", &gate.seen, seen);
    need_count(rt, "second_weight", &gate.second_weight, second_weight);
    let first_weight = if seen == 1 { 0 } else { HALF };
    need_count(rt, "first_weight", &gate.first_weight, first_weight);
}

// Two workers are at work at once: whoever has the first cube's proof waits for what the other has
// posted of the second. One worker gives up waiting; the report is the same.
#[test]
fn two_workers_cross_while_one_reads(rt: HostRuntime) {
    for (workers, cut, seen, second_weight) in [(2, 0, 1, HALF), (2, 1, 1, 0), (1, 0, 0, 0)] {
        let settings = settings(&rt, workers, cut);
        need_crossing(&rt, rt.alloc(), settings, seen, second_weight);
    }
}

/// Ends the test where so many workers don't judge each section once, or give another report.
fn need_judged_once<R: Abort + Threads + Wait + Sync>(
    rt: &R,
    alloc: Global,
    workers: u32,
    bundle: &str,
    report: &[u8],
    once: u64,
) {
    let gate = Told::new();
    let settings = settings(rt, workers, 1);
    need_report(rt, alloc, bundle, settings, &gate, report);
    need_each_once(rt, &gate, once);
    need_count(rt, "elsewhere", &gate.elsewhere, 0);
}

// Whatever the number of workers, each section is judged once and told once, be it handed out or
// judged where it is read.
#[test]
fn each_section_is_judged_once_while_it_is_read(rt: HostRuntime) {
    for workers in [1, 2, 4, 32] {
        let report = FOUR_CUBES_REPORT;
        need_judged_once(&rt, rt.alloc(), workers, FOUR_CUBES, report, 0x11110);
        let report = ROOT_AND_LEAVES_REPORT;
        need_judged_once(&rt, rt.alloc(), workers, ROOT_AND_LEAVES, report, 0x111);
    }
}

/// Ends the test where so many workers don't tell this fault of a bundle.
fn need_fault<R: Abort + Threads + Wait + Sync>(
    rt: &R,
    alloc: Global,
    workers: u32,
    bundle: &str,
    wanted: CaseFault,
) {
    let gate = Told::new();
    let settings = settings(rt, workers, 1);
    match report_once(rt, alloc, bundle, settings, &gate) {
        Err(ReadFault::Case(fault)) => assert!(rt; fault == wanted),
        _ => assert!(rt; false),
    }
    need_count(rt, "started", &gate.started, 1);
    need_count(rt, "ended", &gate.ended, 1);
}

// The first label line with a fault is told by its line, whoever judges what stands above it.
#[test]
fn the_first_faulty_label_line_is_told(rt: HostRuntime) {
    for workers in [1, 4] {
        let twice = halves!("l 1\n6 0 5 3 4 0\nl 2\n6 0 5 1 2 0\nl 1\nl x\n");
        need_fault(
            &rt,
            rt.alloc(),
            workers,
            twice,
            CaseFault::ProofTwice { line: 12 },
        );
        let none = halves!("l 1\n6 0 5 3 4 0\nl 3\nl 1\n");
        need_fault(
            &rt,
            rt.alloc(),
            workers,
            none,
            CaseFault::NoSuchLeaf { line: 10 },
        );
        let bad = halves!("l x\n6 0 5 3 4 0\nl 3\n");
        need_fault(
            &rt,
            rt.alloc(),
            workers,
            bad,
            CaseFault::BadLabel { line: 8 },
        );
    }
}
