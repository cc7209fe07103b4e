//! Runs by workers that read proofs themselves, one at a time: that each is opened once, and that
//! what is said is what a run says of the bundle with all proofs.
ghost use Rattle.std.specs.Prelude.{◌≡◌, All, vec_len};

use crate::cases::{case, need_count};
use crate::crew_tests::Crossing;
use crate::gates::{Told, cube_number, cube_of, need_each_once, one_of};
use case_core::{Case, ProofForm, Target};
use check_crew::{Gate, NoGate, Settings, TargetProofs};
use cube_report::{DeviceFault, Fault, Outcome, Source, judge_apart};
use fixtures::bundles::FOUR_CUBES_REPORT;
use fixtures::four;
use std::io;
use std::io::ErrorKind;
use std::process::Abort;
use std::sync::Wait;
use std::sync::atomic::{AtomicU64, Ordering};
use std::thread::Threads;

/// The cubes of both variables, with no proof.
const CUBES: &str = four!("a 1 2 0\na 1 -2 0\na -1 2 0\na -1 -2 0\n");

/// The same cubes, and a proof for the second.
const SECOND: &str = four!("a 1 2 0\na 1 -2 0\na -1 2 0\na -1 -2 0\nl 2\n7 0 5 6 3 0\n");

/// The same cubes, and a proof for the first.
const FIRST: &str = four!("a 1 2 0\na 1 -2 0\na -1 2 0\na -1 -2 0\nl 1\n7 0 5 6 4 0\n");

/// Proofs for these cubes: of cubes 1 and 4 the shortest, of cube 3 the longest.
const ALL: &[Option<&[u8]>] = &[
    Some(b"7 0 5 6 4 0\n"),
    Some(b"7 d 1 0\n8 0 5 6 3 0\n"),
    Some(b"7 d 1 0\n8 d 3 0\n9 0 5 6 2 0\n"),
    Some(b"7 0 5 6 1 0\n"),
];

/// The same without that of the first.
const WITHOUT_FIRST: &[Option<&[u8]>] = &[
    None,
    Some(b"7 d 1 0\n8 0 5 6 3 0\n"),
    Some(b"7 d 1 0\n8 d 3 0\n9 0 5 6 2 0\n"),
    Some(b"7 0 5 6 1 0\n"),
];

/// All of them without that of the second.
const WITHOUT_SECOND: &[Option<&[u8]>] = &[
    Some(b"7 0 5 6 4 0\n"),
    None,
    Some(b"7 d 1 0\n8 d 3 0\n9 0 5 6 2 0\n"),
    Some(b"7 0 5 6 1 0\n"),
];

/// All of them with one of the second that ends before the empty clause.
const SHORT_SECOND: &[Option<&[u8]>] = &[
    Some(b"7 0 5 6 4 0\n"),
    Some(b"7 d 1 0\n"),
    Some(b"7 d 1 0\n8 d 3 0\n9 0 5 6 2 0\n"),
    Some(b"7 0 5 6 1 0\n"),
];

/// Proofs for the first and third cube, the third's with a label line of the second behind it.
const LABELLED: &[Option<&[u8]>] = &[
    Some(b"7 0 5 6 4 0\n"),
    None,
    Some(b"9 0 5 6 2 0\nl 2\n7 0 5 6 3 0\n"),
    None,
];

/// A proof for the third cube, and one for the inner node with the path `1`.
const BRANCH: &[Option<&[u8]>] = &[
    None,
    None,
    Some(b"7 0 5 6 2 0\n"),
    None,
    None,
    Some(b"6 0 5 3 4 0\n"),
];

/// The first of them alone.
const WITH_THIRD: &[Option<&[u8]>] = &[None, None, Some(b"7 0 5 6 2 0\n"), None];

/// A label line in the inner node's proof.
const LABELLED_BRANCH: &[Option<&[u8]>] = &[
    None,
    None,
    None,
    None,
    None,
    Some(b"6 0 5 3 4 0\nl 1\n"),
];

/// The same cubes, and a proof for that inner node.
const ONE_BRANCH: &str = four!("a 1 2 0\na 1 -2 0\na -1 2 0\na -1 -2 0\nl n 1 0\n6 0 5 3 4 0\n");

/// The report where the inner node and the third cube are refuted.
const BRANCH_REPORT: &[u8] = b"t 4 0 1152921504606846976\n\
a 1 open\na 2 open\na 3 refuted\na 4 open\nn 1 0 refuted\no -1 -2 0\nw 288230376151711744\n\
s OPEN\n";

/// The report where the second cube has no proof.
const OPEN_SECOND_REPORT: &[u8] = b"t 4 0 1152921504606846976\n\
a 1 refuted\na 2 open\na 3 refuted\na 4 refuted\no 1 -2 0\nw 288230376151711744\ns OPEN\n";

/// The report where its proof ends too early: after one step there is no other.
const SHORT_SECOND_REPORT: &[u8] = b"t 4 0 1152921504606846976\n\
a 1 refuted\na 2 rejected 2 end\na 3 refuted\na 4 refuted\no 1 -2 0\nw 288230376151711744\n\
s OPEN\n";

/// Which call on a proof fails, by the number of its cube.
#[derive(Clone, Copy)]
enum Failing {
    Nothing,
    Opening(u32),
    Reading(u32),
}

/// A proof in memory, which gives a byte at a time, or fails.
#[derive(Drop)]
struct LentProof<'t> {
    rest: &'t [u8],
    is_failing: bool,
    failed: u64,
}

impl<'t> Source for LentProof<'t> {
    ghost use Rattle.std.specs.Prelude.{None};

    ghost remaining = { λ _. None };

    ghost failures = { λ s. s.failed };

    fn read(&mut self, buffer: &mut [u8]) -> io::Result<usize> {
        if self.is_failing {
            self.failed += 1;
            return Err(io::Error::from(ErrorKind::Other));
        }
        let count = self.rest.len().min(buffer.len()).min(1);
        let (front, rest) = self.rest.split_at(count);
        buffer[..count].copy_from_slice(front);
        self.rest = rest;
        Ok(count)
    }
}

/// Where the proof of a target stands among those in memory: cubes 1 to 4, and then the inner nodes
/// from the root on.
fn place_of(target: Target) -> usize {
    match target {
        Target::Leaf(leaf) => (cube_number(leaf) as usize).wrapping_sub(1),
        Target::Node(node) => 4 + node.number() as usize,
    }
}

/// Proofs in memory, by their places. It counts how often each is opened, four bits for each cube
/// and the lowest for inner nodes, and fails at one of them.
#[derive(Drop)]
struct Lent<'t> {
    proofs: &'t [Option<&'t [u8]>],
    opens: &'t AtomicU64,
    failing: Failing,
    failed: u64,
}

impl<'t> TargetProofs for Lent<'t> {
    type Proof = LentProof<'t>;

    ghost use Rattle.std.specs.Prelude.{None, true};

    ghost held = { λ _ _. None };

    ghost failures = { λ s. s.failed };

    ghost takes_binary = { true };

    fn form(&self) -> ProofForm {
        ProofForm::Unread
    }

    fn may_have(&self, target: Target) -> bool {
        match target {
            Target::Leaf(_) => true,
            Target::Node(_) => matches!(self.proofs.get(place_of(target)), Some(Some(_))),
        }
    }

    fn open(&mut self, target: Target) -> Result<Option<LentProof<'t>>, DeviceFault> {
        let cube = cube_of(target);
        self.opens.fetch_add(one_of(cube), Ordering::SeqCst);
        if matches!(self.failing, Failing::Opening(at) if at == cube) {
            self.failed += 1;
            return Err(DeviceFault::Device);
        }
        match self.proofs.get(place_of(target)) {
            Some(Some(proof)) => Ok(Some(LentProof {
                rest: *proof,
                is_failing: matches!(self.failing, Failing::Reading(at) if at == cube),
                failed: 0,
            })),
            _ => Ok(None),
        }
    }

    fn close(&mut self, proof: LentProof<'t>) {
        self.failed += proof.failed;
    }

    fn length(&self, target: Target) -> Option<u64> {
        match self.proofs.get(place_of(target)) {
            Some(Some(proof)) => Some(proof.len() as u64),
            _ => None,
        }
    }
}

/// One reader of these proofs for each worker.
fn readers<'t>(
    rt: &(impl Abort + AllocGlobal),
    proofs: &'t [Option<&'t [u8]>],
    opens: &'t AtomicU64,
    failing: Failing,
    workers: u32,
) -> Vec<Lent<'t>>
    ensures count { vec_len result ≡ workers }
    ensures fresh { All (λ one. one.failed ≡ 0) result.items }
{
    let mut all = Vec::new(rt.alloc());
    for _ in 0..workers {
        all.push(Lent {
            proofs,
            opens,
            failing,
            failed: 0,
        })
        .expect(rt, "memory");
    }
    all
}

/// What a run says of a bundle with these proofs: its report, nothing where all have to be in one
/// bundle, or that a read failed.
#[derive(Drop)]
enum Said {
    Report(Vec<u8>),
    Elsewhere,
    Unread(u64),
    Fault,
}

/// What a run's answer says.
fn answered(answer: Result<Result<Option<Outcome>, Fault>, Lent<'_>>) -> Said {
    match answer {
        Ok(Ok(Some(outcome))) => Said::Report(outcome.text),
        Ok(Ok(None)) => Said::Elsewhere,
        Ok(Err(_)) => Said::Fault,
        Err(one) => Said::Unread(one.failed),
    }
}

/// What a run says of a case with these proofs, at these numbers of workers and of the cut.
fn run_on<R: Abort + AllocGlobal + Threads + Wait + Sync, G: Gate + Sync>(
    rt: &R,
    case: &Case,
    (workers, cut): (u32, u32),
    gate: &G,
    proofs: &[Option<&[u8]>],
    opens: &AtomicU64,
    failing: Failing,
) -> Said {
    let settings = Settings::new(workers, cut).expect(rt, "no settings");
    let all = readers(rt, proofs, opens, failing, workers);
    answered(judge_apart(rt, rt.alloc(), case, settings, gate, false, all))
}

/// The same of a bundle's case.
fn run_apart<R: Abort + AllocGlobal + Threads + Wait + Sync, G: Gate + Sync>(
    rt: &R,
    bundle: &str,
    numbers: (u32, u32),
    gate: &G,
    proofs: &[Option<&[u8]>],
    opens: &AtomicU64,
    failing: Failing,
) -> Said {
    run_on(
        rt,
        &case(rt, rt.alloc(), bundle),
        numbers,
        gate,
        proofs,
        opens,
        failing,
    )
}

/// Whether it is this report.
fn is_report(said: Said, wanted: &[u8]) -> bool {
    match said {
        Said::Report(text) => text.as_slice() == wanted,
        _ => false,
    }
}

/// Ends the test where it isn't.
fn need_report(rt: &impl Abort, said: Said, wanted: &[u8]) {
    assert!(rt; is_report(said, wanted));
}

/// Ends the test where it isn't that all proofs have to be in one bundle.
fn need_no_report(rt: &impl Abort, said: Said) {
    assert!(rt; matches!(said, Said::Elsewhere));
}

/// Ends the test where it isn't that one read failed.
fn need_fault(rt: &impl Abort, said: Said) {
    assert!(rt; matches!(said, Said::Unread(1)));
}

/// Ends the test where a proof wasn't opened once, judged once and told once, or where the gate was
/// told of other lengths.
fn need_all_told(rt: &impl Abort, gate: &Told, opens: &AtomicU64) {
    need_count(rt, "opens", opens, 0x11110);
    need_count(rt, "elsewhere", &gate.elsewhere, 4);
    need_count(rt, "bytes", &gate.bytes, 72);
    need_count(rt, "bytes after", &gate.bytes_after, 72);
    need_each_once(rt, gate, 0x11110);
}

/// Ends the test where one worker counted otherwise.
fn need_of_one(rt: &impl Abort, workers: u32, count: &AtomicU64, wanted: u64) {
    assert!(rt; workers > 1 || count.load(Ordering::SeqCst) == wanted);
}

/// The same of a run at these numbers of workers and of the cut, which has to give the report on
/// the bundle with all proofs.
fn need_each_opened<R: Abort + AllocGlobal + Threads + Wait + Sync>(rt: &R, numbers: (u32, u32)) {
    let gate = Told::new();
    let opens = AtomicU64::new(0);
    let told = run_apart(rt, CUBES, numbers, &gate, ALL, &opens, Failing::Nothing);
    need_report(rt, told, FOUR_CUBES_REPORT);
    need_all_told(rt, &gate, &opens);
    need_of_one(rt, numbers.0, &gate.order, 3214);
}

// Whatever the number of workers, each proof is opened once, judged once and told once, between one
// start and one end, and the report is that on the bundle with all of them. One worker takes the
// longest first, and those of equal length in the order of the cubes.
#[test]
fn each_proof_is_opened_once(rt: HostRuntime) {
    for workers in [1, 2, 4, 32] {
        for cut in [0, 1, 6] {
            need_each_opened(&rt, (workers, cut));
        }
    }
}

/// Ends the test where a worker doesn't take leaves while another is at work on the only section.
fn need_beside<R: Abort + AllocGlobal + Threads + Wait + Sync>(rt: &R, cut: u32) {
    let gate = Crossing::new();
    let opens = AtomicU64::new(0);
    let said = run_apart(
        rt,
        FIRST,
        (2, cut),
        &gate,
        WITHOUT_FIRST,
        &opens,
        Failing::Nothing,
    );
    need_report(rt, said, FOUR_CUBES_REPORT);
    need_count(rt, "opens", &opens, 0x11110);
    need_count(rt, "seen", &gate.seen, 1);
}

// A worker that finds no section left takes leaves while another is at work on the last section.
#[test]
fn a_leaf_beside_a_section(rt: HostRuntime) {
    for cut in [0, 1, 6] {
        need_beside(&rt, cut);
    }
}

/// A bundle, proofs beside it, the report and how often the gate is told of each cube.
type LeftOpen = (
    &'static str,
    &'static [Option<&'static [u8]>],
    &'static [u8],
    u64,
);

const LEFT_OPEN: &[LeftOpen] = &[
    (CUBES, WITHOUT_SECOND, OPEN_SECOND_REPORT, 0x11010),
    (SECOND, WITHOUT_SECOND, FOUR_CUBES_REPORT, 0x11110),
    (CUBES, SHORT_SECOND, SHORT_SECOND_REPORT, 0x11110),
];

/// Ends the test where so many workers don't open and tell of the inner node's proof once, as of
/// the cube's, or give another report than on the bundle with both proofs.
fn need_branch<R: Abort + AllocGlobal + Threads + Wait + Sync>(rt: &R, numbers: (u32, u32)) {
    let gate = Told::new();
    let opens = AtomicU64::new(0);
    let said = run_apart(rt, CUBES, numbers, &gate, BRANCH, &opens, Failing::Nothing);
    need_report(rt, said, BRANCH_REPORT);
    need_count(rt, "opens", &opens, 0x11111);
    need_count(rt, "elsewhere", &gate.elsewhere, 2);
    need_count(rt, "after", &gate.after, 0x1001);
}

// The proof of an inner node is judged from where it lies, beside those of leaves; the section of
// one has its mark where nothing lies elsewhere for it.
#[test]
fn an_inner_node_elsewhere(rt: HostRuntime) {
    for workers in [1, 2, 4] {
        for cut in [0, 1, 6] {
            need_branch(&rt, (workers, cut));
        }
        let third = (ONE_BRANCH, WITH_THIRD, BRANCH_REPORT, 0x1001);
        need_left_open(&rt, workers, &third);
    }
}

/// Ends the test where so many workers give another report, don't open each proof once, or tell of
/// other cubes.
fn need_left_open<R: Abort + AllocGlobal + Threads + Wait + Sync>(
    rt: &R,
    workers: u32,
    wanted: &LeftOpen,
) {
    let (bundle, proofs, report, told) = *wanted;
    let gate = Told::new();
    let opens = AtomicU64::new(0);
    let said = run_apart(
        rt,
        bundle,
        (workers, 1),
        &gate,
        proofs,
        &opens,
        Failing::Nothing,
    );
    need_report(rt, said, report);
    need_count(rt, "opens", &opens, 0x11110);
    need_count(rt, "after", &gate.after, told);
}

// A leaf without a proof is open, or has the mark of its section; one whose proof is rejected is
// no cause to give the run up.
#[test]
fn a_leaf_is_left_open(rt: HostRuntime) {
    for workers in [1, 2, 4, 32] {
        for wanted in LEFT_OPEN {
            need_left_open(&rt, workers, wanted);
        }
    }
}

/// Ends the test where so many workers don't say that all proofs have to be in one bundle, or don't
/// tell of this leaf, once; or where one worker opens other proofs than these.
fn need_elsewhere<R: Abort + AllocGlobal + Threads + Wait + Sync>(
    rt: &R,
    workers: u32,
    bundle: &str,
    proofs: &[Option<&[u8]>],
    leaf: u64,
    opened: u64,
) {
    let gate = Told::new();
    let opens = AtomicU64::new(0);
    let told = run_apart(
        rt,
        bundle,
        (workers, 0),
        &gate,
        proofs,
        &opens,
        Failing::Nothing,
    );
    need_no_report(rt, told);
    need_count(rt, "fell_back", &gate.fell_back, leaf);
    need_of_one(rt, workers, &opens, opened);
    need_count(rt, "ended", &gate.ended, 1);
}

// A proof with a label line, and one of a leaf that has a section, too, have to be in the bundle.
// The gate is told of that leaf, once, and one worker opens no further proof: the third is the
// longest, and the second is next.
#[test]
fn all_in_one_bundle(rt: HostRuntime) {
    for workers in [1, 4] {
        need_elsewhere(&rt, workers, CUBES, LABELLED, 0x1000, 0x1000);
        need_elsewhere(&rt, workers, SECOND, ALL, 0x100, 0x1100);
        need_elsewhere(&rt, workers, CUBES, LABELLED_BRANCH, 0x1, 0x1);
        need_elsewhere(&rt, workers, ONE_BRANCH, LABELLED_BRANCH, 0x1, 0x1);
    }
}

/// Ends the test where what has met a failed call doesn't come back from so many workers.
fn need_unread<R: Abort + AllocGlobal + Threads + Wait + Sync>(
    rt: &R,
    workers: u32,
    proofs: &[Option<&[u8]>],
    failing: Failing,
) {
    let opens = AtomicU64::new(0);
    let told = run_apart(rt, CUBES, (workers, 1), &NoGate, proofs, &opens, failing);
    need_fault(rt, told);
}

// What has met a failed call comes back, whatever else there is to say.
#[test]
fn a_read_fails(rt: HostRuntime) {
    for workers in [1, 2, 4] {
        for (proofs, cube) in [(ALL, 1), (ALL, 2), (ALL, 3), (ALL, 4), (LABELLED, 3)] {
            need_unread(&rt, workers, proofs, Failing::Opening(cube));
            need_unread(&rt, workers, proofs, Failing::Reading(cube));
        }
    }
}
