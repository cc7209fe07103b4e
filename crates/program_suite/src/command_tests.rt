//! The program on words, streams and files: each expected report is written by hand from the
//! formats.
ghost use Rattle.std.specs.Prelude.{◌<◌, ◌^◌, ◌-◌, ℕ, List};

use cube_command::{FileStore, Gate, NoExplain, NoGate, NoLog, Sink, Source, Store, command};
use cube_report::DeviceFault;
use devices::{Broken, File, Narrow, Shelf};
use fixtures::bundles::{REFUTED, REFUTED_REPORT};
use std::process::Abort;
use std::sync::Wait;
use std::thread::Threads;

const HEADER: &[u8] = b"cubeboard: F1 header\n";

const MEMORY: &[u8] = b"cubeboard: F6 memory\n";

pub(crate) const DEVICE: &[u8] = b"cubeboard: F13 device\n";

/// The four clauses, and the cubes `1 2` and `-1 2`: the branches `1 -2` and `-1 -2` are missing.
pub(crate) const MIXED: &[u8] = b"p inccnf\n1 2 0\n1 -2 0\n-1 2 0\n-1 -2 0\na 1 2 0\na -1 2 0\n";

/// The bundle `MIXED` and a proof for each of its leaves, and files whose names are nearly those of
/// proofs.
const ALL_FILES: &[File<'static>] = &[
    ("FILE", MIXED),
    ("D/1.lrat", b"7 0 5 6 4 0\n"),
    ("D/2.lrat", b"7 0 5 6 2 0\n"),
    ("D/m1.lrat", b"7 0 5 6 3 0\n"),
    ("D/m2.lrat", b"7 0 5 6 1 0\n"),
    ("D/0.lrat", b"x\n"),
    ("D/3.lrat", b"x\n"),
    ("D/m0.lrat", b"x\n"),
    ("D/m3.lrat", b"x\n"),
    ("D/n.lrat", b"x\n"),
    ("1.lrat", b"x\n"),
];

/// The proofs of all leaves of `MIXED` but its first missing one.
const WITHOUT_M1: &[File<'static>] = &[
    ("D/m2.lrat", b"7 0 5 6 1 0\n"),
    ("D/2.lrat", b"7 0 5 6 2 0\n"),
    ("D/1.lrat", b"7 0 5 6 4 0\n"),
];

/// The paths of the proofs of `MIXED`, in order.
const PROOF_PATHS: &[u8] = b"D/1.lrat\nD/2.lrat\nD/m1.lrat\nD/m2.lrat\n";

/// The report on `MIXED` with all proofs.
pub(crate) const ALL_REPORT: &[u8] = b"t 2 2 1152921504606846976\na 1 refuted\na 2 refuted\n\
m 1 1 -2 0 refuted\nm 2 -1 -2 0 refuted\nw 0\ns REFUTED\n";

/// The report on `MIXED` with the proofs of `WITHOUT_M1`.
pub(crate) const WITHOUT_M1_REPORT: &[u8] = b"t 2 2 1152921504606846976\na 1 refuted\na 2 refuted\n\
m 1 1 -2 0 open\nm 2 -1 -2 0 refuted\no 1 -2 0\nw 288230376151711744\ns OPEN\n";

/// The report on `MIXED` alone.
pub(crate) const BARE_REPORT: &[u8] = b"t 2 2 1152921504606846976\na 1 open\na 2 open\n\
m 1 1 -2 0 open\nm 2 -1 -2 0 open\no 0\nw 1152921504606846976\ns OPEN\n";

/// Bundles with a fault, and the lines that tell them.
pub(crate) const FAULTS: &[(&[u8], &[u8])] = &[
    (b"p cnf 2 4\n", HEADER),
    (
        b"p inccnf\na 1 2 0\na 1 0\n",
        b"cubeboard: F9 cubes 1 and 2 overlap\n",
    ),
    (
        b"p inccnf\na 0\nl one\n",
        b"cubeboard: F10 bad label, line 3\n",
    ),
    (
        b"p inccnf\na 1 0\nl 1\nl 1\n",
        b"cubeboard: F12 second proof, line 4\n",
    ),
];

/// How a call of the program ends: its status, its report and its line of errors.
pub(crate) type Ending<'t> = (u8, &'t [u8], &'t [u8]);

/// The status of the program on these words, files and streams, beside a gate.
fn status_of<R, D, I, O, E, G>(
    rt: &R,
    store: &mut D,
    words: &[&str],
    input: &mut I,
    output: &mut O,
    errors: &mut E,
    gate: &G,
) -> u8
where
    R: AllocGlobal + Threads + Wait + Sync,
    D: Store,
    I: Source,
    O: Sink,
    E: Sink,
    G: Gate + Sync,
    requires store { D.failures store.old < 2 ^ 64 - 1 }
    requires input { I.failures input.old < 2 ^ 64 - 1 }
    requires output { O.failures output.old < 2 ^ 64 - 1 }
    requires errors { E.failures errors.old < 2 ^ 64 - 1 }
    requires files { (path bytes : List ℕ) → D.allows store.old path bytes }
    requires reports { (text : List ℕ) → O.allows output.old text }
    requires lines { (text : List ℕ) → E.allows errors.old text }
{
    command(
        rt, store, words, input, output, errors, gate, &NoGate, &NoExplain, &NoLog,
    )
}

/// Words of a call.
pub(crate) type Words = &'static [&'static str];

/// What the program is given beside its files: its words, its input, and the calls at which its
/// input, its output and its sink of errors fail, counted from 1; none does where that is 0.
#[derive(Clone, Copy)]
pub(crate) struct Given<'t> {
    words: Words,
    input: &'t [u8],
    input_at: u64,
    output_at: u64,
    errors_at: u64,
}

/// These words and this input, no call of which fails.
pub(crate) fn unfailing<'t>(words: Words, input: &'t [u8]) -> Given<'t> {
    Given {
        words,
        input,
        input_at: 0,
        output_at: 0,
        errors_at: 0,
    }
}

/// What came of a call: its status, the paths that it has asked for, and its streams.
#[derive(Drop)]
pub(crate) struct Said<'t> {
    pub(crate) status: u8,
    asked: Vec<u8>,
    input: Broken<'t>,
    output: Narrow,
    errors: Narrow,
}

/// What the program says to what it is given, with files in memory, beside a gate. It alone calls
/// `status_of`, since that call is dear to prove.
pub(crate) fn answer<'t, R: AllocGlobal + Abort + Threads + Wait + Sync, G: Gate + Sync>(
    rt: &R,
    shelf: Shelf<'_>,
    given: &Given<'t>,
    gate: &G,
) -> Said<'t> {
    let mut store = FileStore::new(shelf);
    let mut input = Broken::new(given.input, given.input_at);
    let mut output = Narrow::new(rt.alloc(), given.output_at);
    let mut errors = Narrow::new(rt.alloc(), given.errors_at);
    let status = status_of(
        rt,
        &mut store,
        given.words,
        &mut input,
        &mut output,
        &mut errors,
        gate,
    );
    Said {
        status,
        asked: store.opener().asked().expect(rt, "memory"),
        input,
        output,
        errors,
    }
}

/// Ends the test where the program didn't end so on these words, or has asked for other paths.
fn is_ending<R: Abort>(rt: &R, words: Words, said: &Said<'_>, ending: Ending<'_>, paths: &[u8]) {
    let (status, report, line) = ending;
    let written = said.output.written.as_slice() == report;
    let told = said.errors.written.as_slice() == line;
    assert!(rt; said.status == status && written && told, "{words:?}");
    assert!(rt; said.asked.as_slice() == paths, "{words:?}");
}

/// Ends the test where the program doesn't end so, after it has asked for these paths. Answers how
/// often it has read its input.
fn ends_so<R: AllocGlobal + Abort + Threads + Wait + Sync>(
    rt: &R,
    shelf: Shelf<'_>,
    given: &Given<'_>,
    ending: Ending<'_>,
    paths: &[u8],
) -> u64 {
    let said = answer(rt, shelf, given, &NoGate);
    is_ending(rt, given.words, &said, ending, paths);
    said.input.calls
}

/// The same with these files.
fn asks_for<R: AllocGlobal + Abort + Threads + Wait + Sync>(
    rt: &R,
    files: &[File<'_>],
    given: &Given<'_>,
    ending: Ending<'_>,
    paths: &[u8],
) {
    let shelf = Shelf::new(rt.alloc(), files).expect(rt, "memory");
    ends_so(rt, shelf, given, ending, paths);
}

/// The words for one worker and the proofs of the folder D, and those for FILE in front of them.
/// One worker asks for the leaves' files in their order, where nobody knows how long they are.
const ALONE: &[&str] = &["--workers", "1", "--proofs", "D"];

const FILE_ALONE: &[&str] = &["FILE", "--workers", "1", "--proofs", "D"];

/// Proofs of `MIXED`, one of which has the section of another leaf.
const SECTION_IN_FILE: &[File<'static>] = &[
    ("D/1.lrat", b"7 0 5 6 4 0\nl m1\n7 0 5 6 3 0\n"),
    ("D/2.lrat", b"7 0 5 6 2 0\n"),
    ("D/m2.lrat", b"7 0 5 6 1 0\n"),
];

/// The paths of the proofs of `MIXED` where they are read again.
const AGAIN: &[u8] = b"D/1.lrat\nD/1.lrat\nD/2.lrat\nD/m1.lrat\nD/m2.lrat\n";

/// Files, words and an input; how the program ends, and the paths that it has asked for.
type Call = (
    &'static [File<'static>],
    Words,
    &'static [u8],
    Ending<'static>,
    &'static [u8],
);

/// A formula without a model, its proof, the words for that, and the report.
const ONE_PROOF: &[File<'static>] = &[("CNF", b"p cnf 1 2\n1 0\n-1 0\n"), ("P", b"3 0 1 2 0\n")];

const OF_FILE: Words = &["--formula", "CNF", "--proof", "P"];

const OF_INPUT: Words = &["--formula", "CNF", "--proof", "-"];

const ONE_REPORT: &[u8] = b"t 1 0 1152921504606846976\na 1 refuted\nw 0\ns REFUTED\n";

const CALLS: &[Call] = &[
    // Each leaf's file is asked for once, the cubes' and then those of the missing leaves, whatever
    // is there.
    (ALL_FILES, ALONE, MIXED, (0, ALL_REPORT, b""), PROOF_PATHS),
    (
        WITHOUT_M1,
        ALONE,
        MIXED,
        (1, WITHOUT_M1_REPORT, b""),
        PROOF_PATHS,
    ),
    (&[], ALONE, MIXED, (1, BARE_REPORT, b""), PROOF_PATHS),
    // Without a folder no proof is looked for.
    (ALL_FILES, &[], MIXED, (1, BARE_REPORT, b""), b""),
    (ALL_FILES, &["FILE"], b"", (1, BARE_REPORT, b""), b"FILE\n"),
    // Where a file has the section of another leaf, all are read again, once.
    (SECTION_IN_FILE, ALONE, MIXED, (0, ALL_REPORT, b""), AGAIN),
    // One proof of the whole formula: of a file, of the input, and of a file that isn't there.
    (ONE_PROOF, OF_FILE, b"", (0, ONE_REPORT, b""), b"CNF\nP\n"),
    (
        ONE_PROOF,
        OF_INPUT,
        b"3 0 1 2 0\n",
        (0, ONE_REPORT, b""),
        b"CNF\n",
    ),
    (&[], OF_FILE, b"", (5, b"", DEVICE), b"CNF\n"),
];

#[test]
fn proofs_of_a_folder(rt: HostRuntime) {
    for (files, words, input, ending, paths) in CALLS {
        asks_for(&rt, files, &unfailing(words, input), *ending, paths);
    }
}

/// A formula's file with a fault, and the line that tells it.
const FEW_SAID: File<'static> = ("CNF", b"p cnf 1 1\n1 0\n-1 0\n");

const FEW_TOLD: &[u8] =
    b"cubeboard: F17 the header says 1 variables and 1 clauses, there are 1 and 2\n";

/// Files whose lengths are told, words and an input for one proof; how the program ends, and the
/// paths that it has asked for.
const ONE_PROOF_CALLS: &[Call] = &[
    // The formula is read once, and then the proof.
    (ONE_PROOF, OF_FILE, b"", (0, ONE_REPORT, b""), b"CNF\nP\n"),
    // So they are where something is told of it.
    (
        ONE_PROOF,
        &["--explain", "--formula", "CNF", "--proof", "P"],
        b"",
        (0, ONE_REPORT, b""),
        b"CNF\nP\n",
    ),
    // A label line has its line in the text of both, and nothing is read again for that.
    (
        &[
            ("CNF", b"p cnf 1 2\n1 0\n-1 0\n"),
            ("P", b"3 0 1 2 0\nl 1\n"),
        ],
        OF_FILE,
        b"",
        (3, b"", b"cubeboard: F12 second proof, line 8\n"),
        b"CNF\nP\n",
    ),
    // A fault of the formula's file is told when the proof was opened, which isn't read.
    (
        &[FEW_SAID, ("P", b"l 1\n")],
        OF_FILE,
        b"",
        (3, b"", FEW_TOLD),
        b"CNF\nP\n",
    ),
    // One that isn't there is told before that.
    (&[FEW_SAID], OF_FILE, b"", (5, b"", DEVICE), b"CNF\nP\n"),
];

// One proof of a formula is judged while it is read, once.
#[test]
fn one_proof_of_a_file(rt: HostRuntime) {
    for (files, words, input, ending, paths) in ONE_PROOF_CALLS {
        let shelf = Shelf::new(rt.alloc(), files)
            .expect(&rt, "memory")
            .with_lengths();
        ends_so(&rt, shelf, &unfailing(words, input), *ending, paths);
    }
}

// Nothing of the input is read where the formula's file has a fault.
#[test]
fn one_proof_below_a_fault(rt: HostRuntime) {
    let shelf = Shelf::new(rt.alloc(), &[FEW_SAID]).expect(&rt, "memory");
    leaves_input(&rt, shelf, OF_INPUT, (3, b"", FEW_TOLD), b"CNF\n");
}

/// The same words, and that for the open leaves.
const LISTED: &[&str] = &["--list-open", "--workers", "1", "--proofs", "D"];

// In the report's place stand the leaves that aren't refuted, in its order, also where none is.
#[test]
fn open_leaves_are_listed(rt: HostRuntime) {
    let calls: [(&[File<'_>], Ending<'_>); 3] = [
        (&[], (1, b"1\n2\nm1\nm2\n", b"")),
        (WITHOUT_M1, (1, b"m1\n", b"")),
        (ALL_FILES, (0, b"", b"")),
    ];
    for (files, ending) in calls {
        asks_for(&rt, files, &unfailing(LISTED, MIXED), ending, PROOF_PATHS);
    }
}

/// A file in which another label line is no name of a leaf, and the paths up to the fourth call.
const FAULTY_FILE: &[File<'static>] = &[("D/1.lrat", b"l x\n")];

const UP_TO_FOURTH: &[u8] = b"D/1.lrat\nD/1.lrat\nD/2.lrat\nD/m1.lrat\n";

/// How a device's faults end a run.
pub(crate) const FAILING: [(DeviceFault, Ending<'static>); 2] = [
    (DeviceFault::Device, (5, b"", DEVICE)),
    (DeviceFault::Memory, (4, b"", MEMORY)),
];

// A read that fails behind the first fault comes before it.
#[test]
fn a_file_fails_behind_a_fault(rt: HostRuntime) {
    for (fault, ending) in FAILING {
        let shelf = Shelf::failing(rt.alloc(), FAULTY_FILE, 4, fault).expect(&rt, "memory");
        ends_so(&rt, shelf, &unfailing(ALONE, MIXED), ending, UP_TO_FOURTH);
    }
}

/// The program on these words, with these files and an input that refutes, ends so after it has
/// asked for these paths, and reads no input.
pub(crate) fn leaves_input<R: AllocGlobal + Abort + Threads + Wait + Sync>(
    rt: &R,
    shelf: Shelf<'_>,
    words: Words,
    ending: Ending<'_>,
    paths: &[u8],
) {
    let reads = ends_so(rt, shelf, &unfailing(words, REFUTED), ending, paths);
    assert!(rt; reads == 0, "{words:?}");
}

/// The paths of the store's calls, in order.
const CALLED: [&[u8]; 5] = [
    b"FILE\n",
    b"FILE\nD/1.lrat\n",
    b"FILE\nD/1.lrat\nD/2.lrat\n",
    b"FILE\nD/1.lrat\nD/2.lrat\nD/m1.lrat\n",
    b"FILE\nD/1.lrat\nD/2.lrat\nD/m1.lrat\nD/m2.lrat\n",
];

/// Each call of the store fails in turn with this fault, and no other follows it.
fn each_call_fails<R: AllocGlobal + Abort + Threads + Wait + Sync>(
    rt: &R,
    fault: DeviceFault,
    ending: Ending<'_>,
) {
    for (call, paths) in CALLED.iter().enumerate() {
        let shelf = Shelf::failing(rt.alloc(), ALL_FILES, call as u64 + 1, fault);
        leaves_input(rt, shelf.expect(rt, "memory"), FILE_ALONE, ending, paths);
    }
}

#[test]
fn a_file_fails(rt: HostRuntime) {
    for (fault, ending) in FAILING {
        each_call_fails(&rt, fault, ending);
    }
}

// The input fails at each of its calls: nothing is written, and no proof is looked for.
#[test]
fn the_input_fails(rt: HostRuntime) {
    for input_at in 1..=REFUTED.len() as u64 / 16 + 2 {
        let given = Given {
            input_at,
            ..unfailing(&["--proofs", "D"], REFUTED)
        };
        asks_for(&rt, ALL_FILES, &given, (5, b"", DEVICE), b"");
    }
}

// An output that fails has a beginning of the report.
#[test]
fn the_output_fails(rt: HostRuntime) {
    for written in 0..REFUTED_REPORT.len() {
        let given = Given {
            output_at: written as u64 + 1,
            ..unfailing(&[], REFUTED)
        };
        let ending = (5, &REFUTED_REPORT[..written], DEVICE);
        asks_for(&rt, &[], &given, ending, b"");
    }
}

/// The program on these words and this input ends with this status and no report, also where the
/// sink of errors fails within this line, at each of its bytes.
fn errors_fail<R: AllocGlobal + Abort + Threads + Wait + Sync>(
    rt: &R,
    words: Words,
    input: &[u8],
    status: u8,
    line: &[u8],
    paths: &[u8],
) {
    for written in 0..line.len() {
        let given = Given {
            errors_at: written as u64 + 1,
            ..unfailing(words, input)
        };
        asks_for(rt, &[], &given, (status, b"", &line[..written]), paths);
    }
}

/// Words that can't be taken, as two names of a file, or that ask for help.
const OTHER_WORDS: [&[&str]; 2] = [&["FILE", "FILE"], &["--help"]];

// A line that can't be written doesn't change the status, nor does the text on other words.
#[test]
fn the_errors_fail(rt: HostRuntime) {
    errors_fail(&rt, &[], b"p cnf 2 4\n", 3, HEADER, b"");
    errors_fail(&rt, &["FILE"], REFUTED, 5, DEVICE, b"FILE\n");
    for words in OTHER_WORDS {
        errors_fail(&rt, words, REFUTED, 2, b"e", b"");
    }
}
