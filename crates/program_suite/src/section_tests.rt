//! Bundles in a file, which is opened once. The expected reports are written by hand from the
//! formats.

use crate::command_tests::{
    ALL_REPORT, BARE_REPORT, DEVICE, Ending, FAILING, FAULTS, MIXED, WITHOUT_M1_REPORT, Words,
    leaves_input,
};
use cube_report::DeviceFault;
use devices::Shelf;
use std::alloc::Global;
use std::process::Abort;
use std::sync::Wait;
use std::thread::Threads;

/// Proofs of all leaves of `MIXED`, the last one first.
const ALL: &[u8] =
    b"l m2\n7 0 5 6 1 0\nl m1\n7 0 5 6 3 0\nc a line\nl 2\n7 0 5 6 2 0\n\tl \t1\n7 0 5 6 4 0\n";

/// The same without the last line end.
const ALL_WITHOUT_END: &[u8] =
    b"l m2\n7 0 5 6 1 0\nl m1\n7 0 5 6 3 0\nl 2\n7 0 5 6 2 0\nl 1\n7 0 5 6 4 0";

/// Proofs of all leaves of `MIXED` but its first missing one.
const NO_M1: &[u8] = b"l 2\n7 0 5 6 2 0\nl 1\n7 0 5 6 4 0\nl m2\n7 0 5 6 1 0\n";

/// A label line behind which nothing follows, not even a line end.
const BARE_LABEL: &[u8] = b"l 2\n7 0 5 6 2 0\nl 1";

/// The report on `MIXED` with the sections of `BARE_LABEL`: the proof of cube 1 is empty.
const BARE_LABEL_REPORT: &[u8] = b"t 2 2 1152921504606846976\na 1 rejected 1 end\na 2 refuted\n\
m 1 1 -2 0 open\nm 2 -1 -2 0 open\no 1 0\no -1 -2 0\nw 864691128455135232\ns OPEN\n";

/// A proof of an inner node.
const INNER: &[u8] = b"l n 1 0\n6 0 5 3 4 0\n";

/// The report on `MIXED` with it.
const INNER_REPORT: &[u8] = b"t 2 2 1152921504606846976\na 1 open\na 2 open\n\
m 1 1 -2 0 open\nm 2 -1 -2 0 open\nn 1 0 refuted\no -1 0\nw 576460752303423488\ns OPEN\n";

/// Sections of `MIXED`, and how the program ends.
type Sections = (&'static [u8], Ending<'static>);

/// Bundles in a file.
const BUNDLES: &[Sections] = &[
    (ALL, (0, ALL_REPORT, b"")),
    (ALL_WITHOUT_END, (0, ALL_REPORT, b"")),
    (NO_M1, (1, WITHOUT_M1_REPORT, b"")),
    (BARE_LABEL, (1, BARE_LABEL_REPORT, b"")),
    (b"", (1, BARE_REPORT, b"")),
    (INNER, (1, INNER_REPORT, b"")),
];

/// Words that the program is tried on with them. That something is told changes nothing.
const CALLS: &[Words] = &[
    &["--workers=1", "FILE"],
    &["FILE", "--workers", "1", "--cut", "2"],
    &["FILE"],
    &["FILE", "--explain"],
    &["--workers=1", "FILE", "--explain"],
];

/// The bundle `MIXED` with these sections.
fn mixed_with(rt: &impl Abort, alloc: Global, sections: &[u8]) -> Vec<u8> {
    let mut bundle = Vec::new(alloc);
    bundle.extend_from_slice(MIXED).expect(rt, "memory");
    bundle.extend_from_slice(sections).expect(rt, "memory");
    bundle
}

/// The program on `MIXED` with each of the sections, in a file that is opened once, ends so.
fn each_ends<R: AllocGlobal + Abort + Threads + Wait + Sync>(rt: &R, words: Words) {
    for (text, ending) in BUNDLES {
        let bundle = mixed_with(rt, rt.alloc(), text);
        let files = [("FILE", bundle.as_slice())];
        let shelf = Shelf::new(rt.alloc(), &files).expect(rt, "memory");
        leaves_input(rt, shelf, words, *ending, b"FILE\n");
    }
}

#[test]
fn each_bundle_of_a_file(rt: HostRuntime) {
    for words in CALLS {
        each_ends(&rt, words);
    }
}

// A bundle with a fault, which is told.
#[test]
fn faults(rt: HostRuntime) {
    for (bundle, line) in FAULTS {
        let files = [("FILE", *bundle)];
        let shelf = Shelf::new(rt.alloc(), &files).expect(&rt, "memory");
        leaves_input(&rt, shelf, &["FILE"], (3, b"", *line), b"FILE\n");
    }
}

/// A formula's file: the clauses of `MIXED`.
const FORMULA: &[u8] = b"c four\np cnf 2 4\n1 2 0\n1 -2 0\n-1 2 0\n-1 -2 0\n";

/// The cubes of `MIXED`, and proofs of all leaves.
const CUBES: &[u8] = b"a 1 2 0\na -1 2 0\nl m2\n7 0 5 6 1 0\nl m1\n7 0 5 6 3 0\nl 2\n\
7 0 5 6 2 0\nl 1\n7 0 5 6 4 0\n";

/// The same without a proof of the first missing leaf.
const CUBES_NO_M1: &[u8] =
    b"a 1 2 0\na -1 2 0\nl 2\n7 0 5 6 2 0\nl 1\n7 0 5 6 4 0\nl m2\n7 0 5 6 1 0\n";

/// One clause more, which is in no formula's file.
const CLAUSE_MORE: &[u8] = b"2 1 0\na 1 2 0\na -1 2 0\nl 1\n7 0 5 6 4 0\n";

/// The line that says so.
const COUNTS: &[u8] =
    b"cubeboard: F17 the header says 2 variables and 4 clauses, there are 2 and 5\n";

/// The words for a formula's file, one worker and the file.
const BELOW: Words = &["--formula", "CNF", "FILE", "--workers", "1"];

/// A formula's file and a bundle's below it, how the program ends, and the paths that it has asked
/// for.
const FORMULAS: &[(&[u8], &[u8], Ending<'static>, &[u8])] = &[
    (FORMULA, CUBES, (0, ALL_REPORT, b""), b"CNF\nFILE\n"),
    (
        FORMULA,
        CUBES_NO_M1,
        (1, WITHOUT_M1_REPORT, b""),
        b"CNF\nFILE\n",
    ),
    // A fault of the formula's file is told before all others.
    (
        b"c none\n",
        CUBES,
        (3, b"", b"cubeboard: F16 no DIMACS header\n"),
        b"CNF\n",
    ),
    (FORMULA, CLAUSE_MORE, (3, b"", COUNTS), b"CNF\nFILE\n"),
    (
        FORMULA,
        b"a 1 2 0\na -1 2 0\nl x\n",
        (3, b"", b"cubeboard: F10 bad label, line 10\n"),
        b"CNF\nFILE\n",
    ),
];

#[test]
fn below_a_formula(rt: HostRuntime) {
    for (formula, bundle, ending, paths) in FORMULAS {
        let files = [("CNF", *formula), ("FILE", *bundle)];
        let shelf = Shelf::new(rt.alloc(), &files).expect(&rt, "memory");
        leaves_input(&rt, shelf, BELOW, *ending, paths);
    }
}

// A file that isn't there.
#[test]
fn no_file(rt: HostRuntime) {
    let files = [("FILE", CUBES)];
    let shelf = Shelf::new(rt.alloc(), &files).expect(&rt, "memory");
    leaves_input(&rt, shelf, BELOW, (5, b"", DEVICE), b"CNF\n");
    let shelf = Shelf::new(rt.alloc(), &files).expect(&rt, "memory");
    leaves_input(&rt, shelf, &["OTHER"], (5, b"", DEVICE), b"OTHER\n");
}

/// The paths up to each call below a formula.
const OPENED: [&[u8]; 2] = [b"CNF\n", b"CNF\nFILE\n"];

/// Each call below a formula fails in turn with this fault, and no other follows it.
fn each_call_fails<R: AllocGlobal + Abort + Threads + Wait + Sync>(
    rt: &R,
    fault: DeviceFault,
    ending: Ending<'_>,
) {
    let files = [("CNF", FORMULA), ("FILE", CUBES)];
    for (call, paths) in OPENED.iter().enumerate() {
        let shelf = Shelf::failing(rt.alloc(), &files, call as u64 + 1, fault).expect(rt, "memory");
        leaves_input(rt, shelf, BELOW, ending, paths);
    }
}

#[test]
fn a_call_fails(rt: HostRuntime) {
    for (fault, ending) in FAILING {
        each_call_fails(&rt, fault, ending);
    }
}
