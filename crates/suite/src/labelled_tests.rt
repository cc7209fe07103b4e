//! Texts that are taken up to a label line, or up to so many bytes, and judged behind these.
ghost use Rattle.std.specs.Prelude.{◌≡◌, []};

use crate::cases::case;
use crate::judging_tests::expected;
use crate::reading_tests::Pieces;
use byte_flow::DeviceFault;
use case_core::{Case, Examiner, Judged, LabelledText, Reason, TakenLines};
use fixtures::four;
use fixtures::targets::{cube, has_target};
use std::alloc::Global;
use std::process::Abort;

/// Three lines, of 4, 5 and 6 bytes, a label line and a line behind it.
const TEXT: &[u8] = b"c a\nc bb\nc ccc\nl 1\nc d";

/// How many bytes a read gives, for how many bytes at most lines are taken, which lines are taken,
/// and which are left before the label line.
type Taken = (usize, usize, &'static [u8], &'static [u8]);

/// By reads of 1 and of 5 bytes a block has one line, by those of 8 bytes the first and then two.
const TAKEN: &[Taken] = &[
    (1, 0, b"c a\n", b"c bb\nc ccc\n"),
    (1, 4, b"c a\nc bb\n", b"c ccc\n"),
    (5, 8, b"c a\nc bb\n", b"c ccc\n"),
    (1, 9, b"c a\nc bb\nc ccc\n", b""),
    (8, 3, b"c a\n", b"c bb\nc ccc\n"),
    (8, 4, b"c a\nc bb\nc ccc\n", b""),
    (100, 0, b"c a\nc bb\nc ccc\n", b""),
];

/// Takes lines of a text.
fn taken(
    rt: &impl Abort,
    alloc: Global,
    text: &mut LabelledText,
    pieces: &mut Pieces<'_>,
    most: usize,
) -> TakenLines
    requires { pieces.old.failed ≡ 0 }
    ensures { pieces.new.failed ≡ 0 }
{
    text.front_within(Vec::new(alloc), pieces, most)
        .expect(rt, "a fault")
}

/// Ends the test where other lines of the text are left up to its label line, or its end.
fn need_left(
    rt: &impl Abort,
    alloc: Global,
    text: &mut LabelledText,
    pieces: &mut Pieces<'_>,
    wanted: &[u8],
)
    requires { pieces.old.failed ≡ 0 }
    ensures count { pieces.new.failed ≡ 0 }
    ensures ready { text.new.ready ≡ [] }
{
    let left = text.front(alloc, pieces).expect(rt, "a fault");
    assert!(rt; left.as_slice() == wanted, "{wanted:?}");
}

/// Ends the test where something else is taken, or left behind it.
fn need_taken(rt: &impl Abort, alloc: Global, (size, most, wanted, rest): Taken) {
    let mut pieces = Pieces::new(TEXT, size, 0);
    let mut text = LabelledText::below(alloc, b"").expect(rt, "memory");
    let first = taken(rt, alloc, &mut text, &mut pieces, most);
    assert!(rt; first.lines.as_slice() == wanted, "{most}");
    assert!(rt; first.is_part == rest.is_empty(), "{most}");
    need_left(rt, alloc, &mut text, &mut pieces, rest);
    let label = text.take_label(alloc).expect(rt, "memory");
    assert!(rt; label.is_some_and(|label| label.lines == 3), "{most}");
    need_left(rt, alloc, &mut text, &mut pieces, b"c d");
}

#[test]
fn taken_by_bytes(rt: HostRuntime) {
    for row in TAKEN {
        need_taken(&rt, rt.alloc(), *row);
    }
}

// A read that fails is told, whatever was taken before.
#[test]
fn a_read_fails(rt: HostRuntime) {
    let mut pieces = Pieces::new(TEXT, 4, 3);
    let mut text = LabelledText::below(rt.alloc(), b"").expect(&rt, "memory");
    let taken = text.front_within(Vec::new(rt.alloc()), &mut pieces, 100);
    assert!(rt; matches!(taken, Err(DeviceFault::Device)));
}

/// Proofs of the first cube, and what is wrong with them: nothing; and its first line.
const PROOFS: &[(&[u8], Option<(u64, Reason)>)] = &[
    (b"c x\n7 0\n5 6 4 0\n", None),
    (b"x\n7 0 5 6 4 0\n", Some((1, Reason::Unreadable))),
];

/// How an examiner judges a proof behind the lines of it that are taken for so many bytes at most.
/// The test ends where it judges the proof otherwise as a text.
fn judged(
    rt: &impl Abort,
    alloc: Global,
    case: &Case,
    examiner: &mut Examiner<'_>,
    proof: (&[u8], usize),
) -> Judged
    requires { examiner.old ≡ case.now }
{
    let (proof, most) = proof;
    assert!(rt; has_target(case.tree(), cube(1)));
    assert!(rt; case.proof_for(cube(1)).is_none());
    let mut pieces = Pieces::new(proof, 1, 0);
    let mut text = LabelledText::below(alloc, b"").expect(rt, "memory");
    let first = taken(rt, alloc, &mut text, &mut pieces, most);
    let front = first.lines.as_slice();
    let whole = examiner.examine_text(alloc, cube(1), proof);
    let read = examiner.examine_part(alloc, cube(1), front, &mut text, &mut pieces);
    let (whole, read) = (whole.expect(rt, "memory"), read.expect(rt, "a fault"));
    assert!(rt; whole.finding.judged() == read.finding.judged(), "{most}");
    assert!(rt; whole.length == proof.len(), "{most}");
    assert!(rt; read.length == proof.len(), "{most}");
    read.finding.judged()
}

/// The same by an examiner of its own.
fn judged_by_one(rt: &impl Abort, alloc: Global, case: &Case, proof: (&[u8], usize)) -> Judged {
    let mut examiner = Examiner::over(alloc, case).expect(rt, "memory");
    judged(rt, alloc, case, &mut examiner, proof)
}

// Whatever is taken before, a proof is judged as it is whole.
#[test]
fn judged_behind_what_is_taken(rt: HostRuntime) {
    let cubes = four!("a 1 2 0\na 1 -2 0\na -1 2 0\na -1 -2 0\n");
    let case = case(&rt, rt.alloc(), cubes);
    for (proof, fault) in PROOFS {
        for most in 0..20usize {
            let judged = judged_by_one(&rt, rt.alloc(), &case, (*proof, most));
            assert!(rt; judged == expected(*fault), "{most}");
        }
    }
}
