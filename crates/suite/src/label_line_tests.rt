//! Proofs that are read some bytes a read, and the label lines that end them.
ghost use Rattle.std.specs.Prelude.{◌≡◌};

use crate::cases::case;
use crate::reading_tests::Pieces;
use byte_flow::DeviceFault;
use case_core::{
    Case, Examiner, Judged, LabelLine, ProofForm, ReadFinding, ReadProof, Reason, line_count,
    line_ends,
};
use fixtures::targets::{cube, has_target};
use std::alloc::Global;
use std::process::Abort;

/// A bundle of six lines, the last of which is the label line of its first cube.
const LABELLED: &str = "p inccnf\n1 0\n-1 0\na 2 0\na -2 0\nl 1";

/// What becomes of a proof of the second cube that is given so, by an examiner that is lent.
fn read_by<'c>(
    rt: &impl Abort,
    alloc: Global,
    labelled: &Case,
    examiner: &mut Examiner<'c>,
    pieces: &mut Pieces<'_>,
) -> Result<ReadProof<'c>, DeviceFault>
    requires case { examiner.old ≡ labelled.now }
    requires count { pieces.old.failed ≡ 0 }
{
    assert!(rt; has_target(labelled.tree(), cube(2)));
    assert!(rt; labelled.proof_for(cube(2)).is_none());
    examiner.examine_read(alloc, cube(2), ProofForm::Unread, pieces)
}

/// The same by an examiner of its own.
fn read_so<'c>(
    rt: &impl Abort,
    alloc: Global,
    labelled: &'c Case,
    (bytes, size, fails_at): (&[u8], usize, u64),
) -> Result<ReadProof<'c>, DeviceFault> {
    let mut examiner = Examiner::over(alloc, labelled).expect(rt, "memory");
    let mut pieces = Pieces::new(bytes, size, fails_at);
    read_by(rt, alloc, labelled, &mut examiner, &mut pieces)
}

/// How a proof is judged that has no label line.
fn found(rt: &impl Abort, proof: ReadProof<'_>) -> (Judged, usize) {
    match proof {
        ReadProof::Found(ReadFinding { finding, length }) => (finding.judged(), length),
        ReadProof::Labelled(_) => panic!(rt; "a label line"),
    }
}

/// The first label line of a proof.
fn label(rt: &impl Abort, proof: ReadProof<'_>) -> LabelLine {
    match proof {
        ReadProof::Found(_) => panic!(rt; "no label line"),
        ReadProof::Labelled(label) => label,
    }
}

/// Proofs without a label line, texts and binary ones, and how they are judged. What looks like one
/// within a binary proof is none.
const WHOLE: &[(&[u8], Judged)] = &[
    (b"4 0 1 2 0\n", Judged::Refuted),
    (b"4 0\n1 2 0", Judged::Refuted),
    (b"c l\n4 0 1 2 0\nlx 2\n", Judged::Refuted),
    (
        b"",
        Judged::Rejected {
            step: 1,
            reason: Reason::End,
        },
    ),
    (b"\x61\x08\x00\x02\x04\x00", Judged::Refuted),
    (
        b"\x61\x08\nl 2\n\x00\x02\x04\x00\x61\x0a\x00\x02\x04\x00",
        Judged::Refuted,
    ),
];

/// Ends the test where one of them is judged otherwise, so many bytes a read.
fn need_whole(rt: &impl Abort, alloc: Global, labelled: &Case, size: usize) {
    for (proof, judged) in WHOLE {
        let read = read_so(rt, alloc, labelled, (proof, size, 0)).expect(rt, "a fault");
        assert!(rt; found(rt, read) == (*judged, proof.len()), "{proof:?}");
    }
}

// Whatever the size of a read, a proof is judged as it is whole.
#[test]
fn proofs_without_a_label_line(rt: HostRuntime) {
    let labelled = case(&rt, rt.alloc(), LABELLED);
    for size in 1..9usize {
        need_whole(&rt, rt.alloc(), &labelled, size);
    }
}

/// A text, the first of its label lines, and how many lines end before that.
type Labelled = (&'static [u8], &'static [u8], u64);

const LABELLED_TEXTS: &[Labelled] = &[
    (b"l 2", b"l 2", 0),
    (b"4 0 1 2 0\nl 2\n4 0\nl 1\n", b"l 2", 1),
    (b"\n \tl 2\n", b" \tl 2", 1),
    (b"l 1\n", b"l 1", 0),
    (b"4 0\n\nl 1\nl x\n", b"l 1", 2),
    (b"4 0\nl 3", b"l 3", 1),
    (b"\n\n l 2 2\n", b" l 2 2", 2),
    (b"4 0 1 2 0\nl", b"l", 1),
];

/// Ends the test where another label line is told of one of these texts.
fn need_label(rt: &impl Abort, alloc: Global, labelled: &Case, one: &Labelled, size: usize) {
    let (text, line, lines) = one;
    let read = read_so(rt, alloc, labelled, (text, size, 0)).expect(rt, "a fault");
    let first = label(rt, read);
    assert!(rt; first.line.as_slice() == *line, "{text:?}");
    assert!(rt; first.lines == *lines, "{text:?}");
    let moved = first.below(7).expect(rt, "too many lines");
    assert!(rt; moved.line.as_slice() == *line, "{text:?}");
    assert!(rt; moved.lines - 7 == *lines, "{text:?}");
}

// Whatever the size of a read, the first label line is told, and how many lines end before it.
// Lines above the text are added to these.
#[test]
fn label_lines(rt: HostRuntime) {
    let labelled = case(&rt, rt.alloc(), LABELLED);
    for one in LABELLED_TEXTS {
        for size in 1..6usize {
            need_label(&rt, rt.alloc(), &labelled, one, size);
        }
    }
}

/// Ends the test where a read of this number doesn't fail.
fn need_failed(rt: &impl Abort, alloc: Global, labelled: &Case, fails_at: u64) {
    let text = b"4 1 0 1 0\n5 0 1 2 0\n".as_slice();
    let read = read_so(rt, alloc, labelled, (text, 4, fails_at));
    assert!(rt; matches!(read, Err(DeviceFault::Device)), "{fails_at}");
}

// A read that fails is told, whatever was judged before.
#[test]
fn a_read_of_the_source_fails(rt: HostRuntime) {
    let labelled = case(&rt, rt.alloc(), LABELLED);
    for fails_at in 1..6u64 {
        need_failed(&rt, rt.alloc(), &labelled, fails_at);
    }
}

/// A label line before which so many lines of its text end.
fn label_behind(alloc: Global, lines: u64) -> LabelLine {
    LabelLine {
        line: Vec::new(alloc),
        lines,
    }
}

// Lines above a text that are too many to be counted are an error.
#[test]
fn lines_above_a_text(rt: HostRuntime) {
    assert!(rt; label_behind(rt.alloc(), 1).below(u64::MAX).is_err());
    assert!(rt; label_behind(rt.alloc(), 1).below(u64::MAX - 1).is_ok());
}

// Each line end counts, whatever stands between them, and below the last one is a line, too.
#[test]
fn line_ends_of_a_text(rt: HostRuntime) {
    assert!(rt; line_ends(b"") == 0);
    assert!(rt; line_ends(b"a\r\n\n l 1") == 2);
    assert!(rt; line_ends(b"\nl 1\n") == 2);
    assert!(rt; line_count(b"") == 1);
    assert!(rt; line_count(b"a\r\n\n l 1") == 3);
    assert!(rt; line_count(b"\nl 1\n") == 3);
}
