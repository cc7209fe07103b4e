//! Proofs that are judged while they are read, some bytes a read, texts and binary ones.
ghost use Rattle.std.specs.Prelude.{◌≡◌};

use crate::cases::case;
use crate::judging_tests::expected;
use byte_flow::{DeviceFault, Source};
use case_core::{Case, Examiner, Judged, ProofForm, ReadProof, Reason};
use fixtures::four;
use fixtures::targets::{cube, has_target};
use split_tree::{Leaf, Target};
use std::alloc::Global;
use std::io;
use std::io::ErrorKind;
use std::process::Abort;

/// The cubes of both variables, with no proof.
const CUBES: &str = four!("a 1 2 0\na 1 -2 0\na -1 2 0\na -1 -2 0\n");

/// A text that gives so many bytes a read, and fails at a read that is chosen, counted from 1.
#[derive(Drop)]
pub(crate) struct Pieces<'t> {
    rest: &'t [u8],
    size: usize,
    reads: u64,
    fails_at: u64,
    failed: u64,
}

impl<'t> Pieces<'t> {
    /// This text, of which so many bytes are given by a read, until the read of this number fails.
    pub(crate) fn new(rest: &'t [u8], size: usize, fails_at: u64) -> Pieces<'t>
        ensures { result.failed ≡ 0 }
    {
        Pieces {
            rest,
            size,
            reads: 0,
            fails_at,
            failed: 0,
        }
    }
}

impl<'t> Source for Pieces<'t> {
    ghost use Rattle.std.specs.Prelude.{None};

    ghost remaining = { λ _. None };

    ghost failures = { λ s. s.failed };

    fn read(&mut self, buffer: &mut [u8]) -> io::Result<usize> {
        self.reads = self.reads.wrapping_add(1);
        if self.reads == self.fails_at {
            self.failed += 1;
            return Err(io::Error::from(ErrorKind::Other));
        }
        let count = self.rest.len().min(buffer.len()).min(self.size);
        let (front, rest) = self.rest.split_at(count);
        buffer[..count].copy_from_slice(front);
        self.rest = rest;
        Ok(count)
    }
}

/// Clauses 1 and 2 have no model together, and clauses 3 and 4 none with variable 2. Clause 5 is
/// the first cube's unit.
const FIVE: &str = "p inccnf\n1 0\n-1 0\n-2 3 0\n-2 -3 0\na 4 0\na -4 0\n";

/// The same three clauses, but for the second, which is the only one that has variable 2 itself.
const GROUPED: &str = "p inccnf\n1 0\n2 -1 0\n-2 3 0\na 4 0\na -4 0\n";

/// What is said of bytes as the proof of the first cube, opened before its first byte, and how many
/// they are; `None` where the text has a label line.
fn read_so(
    rt: &impl Abort,
    alloc: Global,
    case: &Case,
    bytes: &[u8],
    size: usize,
    fails_at: u64,
) -> Result<Option<(Judged, usize)>, DeviceFault> {
    read_as(rt, alloc, case, ProofForm::Unread, (bytes, size, fails_at))
}

/// The same of a proof that is opened in this form, of whose bytes so many are given by a read.
fn read_as(
    rt: &impl Abort,
    alloc: Global,
    case: &Case,
    opened: ProofForm,
    (bytes, size, fails_at): (&[u8], usize, u64),
) -> Result<Option<(Judged, usize)>, DeviceFault> {
    let mut examiner = Examiner::over(alloc, case).expect(rt, "memory");
    let mut pieces = Pieces::new(bytes, size, fails_at);
    read_by(rt, alloc, case, &mut examiner, opened, &mut pieces)
}

/// The same by an examiner that is lent.
fn read_by(
    rt: &impl Abort,
    alloc: Global,
    case: &Case,
    examiner: &mut Examiner<'_>,
    opened: ProofForm,
    pieces: &mut Pieces<'_>,
) -> Result<Option<(Judged, usize)>, DeviceFault>
    requires case { examiner.old ≡ case.now }
    requires count { pieces.old.failed ≡ 0 }
{
    assert!(rt; has_target(case.tree(), cube(1)));
    assert!(rt; case.proof_for(cube(1)).is_none());
    match examiner.examine_read(alloc, cube(1), opened, pieces) {
        Ok(ReadProof::Found(read)) => Ok(Some((read.finding.judged(), read.length))),
        Ok(ReadProof::Labelled(_)) => Ok(None),
        Err(fault) => Err(fault),
    }
}

/// A proof whose first step can't be read.
const UNREADABLE: Judged = Judged::Rejected {
    step: 1,
    reason: Reason::Unreadable,
};

/// A proof that is rejected at this step.
fn rejected(step: u64, reason: Reason) -> Judged {
    Judged::Rejected { step, reason }
}

/// What is said of texts as the proof of the first cube, and how many bytes they are.
const TEXTS: &[(&[u8], Option<(Judged, usize)>)] = &[
    (b"7 0 5 6 4 0\n", Some((Judged::Refuted, 12))),
    (b"c l\n7 0\n5 6 4 0", Some((Judged::Refuted, 15))),
    (b"lx 1\n", Some((UNREADABLE, 5))),
    (b"7 0 5 6 4 0\nl 2\n", None),
    (b"7 0 5 6 4 0\n \tl", None),
];

/// Ends the test where texts that are read by so many bytes are judged otherwise.
fn need_texts(rt: &impl Abort, alloc: Global, case: &Case, size: usize) {
    for (text, wanted) in TEXTS {
        let found = read_so(rt, alloc, case, text, size, 0);
        assert!(rt; found == Ok(*wanted), "{size}");
    }
}

// Whatever the size of a block, a proof is judged as it is whole, and a label line is seen.
#[test]
fn read_in_blocks(rt: HostRuntime) {
    let case = case(&rt, rt.alloc(), CUBES);
    for size in 1..20usize {
        need_texts(&rt, rt.alloc(), &case, size);
    }
}

/// Ends the test where a read at this call doesn't fail.
fn need_failed(rt: &impl Abort, alloc: Global, case: &Case, fails_at: u64) {
    let found = read_so(rt, alloc, case, b"7 0 5 6 4 0\n", 4, fails_at);
    assert!(rt; found == Err(DeviceFault::Device), "{fails_at}");
}

// A read that fails is told, whatever was judged before.
#[test]
fn a_read_of_a_block_fails(rt: HostRuntime) {
    let case = case(&rt, rt.alloc(), CUBES);
    for fails_at in 1..5u64 {
        need_failed(&rt, rt.alloc(), &case, fails_at);
    }
}

/// Whether a proof is judged so as a whole and byte by byte, and has as many bytes as are there.
fn is_judged(rt: &impl Abort, alloc: Global, case: &Case, proof: &[u8], judged: Judged) -> bool {
    let wanted = Ok(Some((judged, proof.len())));
    let whole = read_so(rt, alloc, case, proof, 100, 0);
    let by_bytes = read_so(rt, alloc, case, proof, 1, 0);
    whole == wanted && by_bytes == wanted
}

/// The bytes of a proof, and the step that isn't good with what is wrong with it, or nothing where
/// the proof refutes.
type Binary = (&'static [u8], Option<(u64, Reason)>);

/// The bytes of whole steps, by their texts: `6 0 1 2 0` is refuted by clauses 1 and 2.
const STEPS: &[Binary] = &[
    (b"", Some((1, Reason::End))),
    (b"\x61\x0c\x00\x02\x04\x00", None),
    (b"\x61\x0c\x02\x05\x00\x06\x08\x00", Some((2, Reason::End))),
    (b"\x64\x06\x0a\x00", Some((2, Reason::End))),
    (b"\x64\x00", Some((2, Reason::End))),
    (b"\x61\x0c\x00\x02\x04\x00\x64\x06\x00", None),
    (
        b"\x61\x10\x05\x00\x02\x06\x05\x02\x00",
        Some((2, Reason::End)),
    ),
    (
        b"\x61\xa4\x03\x02\x00\x04\x00",
        Some((1, Reason::Candidate)),
    ),
    (b"\x61\x8c\x00\x00\x02\x04\x80\x00", None),
    // 97 in two bytes: by its first byte it is a text.
    (b"\xe1\x00\x0c\x00\x02\x00", Some((1, Reason::Unreadable))),
    (b"\x31\x20\x30", Some((1, Reason::Unreadable))),
    (b"\x70\x20\x64\x00", Some((1, Reason::Unreadable))),
];

/// Bytes that are cut, and numbers below and above their limits.
const LIMITS: &[Binary] = &[
    (b"\x61", Some((1, Reason::End))),
    (b"\x80", Some((1, Reason::Unreadable))),
    (b"\x61\x0c", Some((1, Reason::Unreadable))),
    (b"\x61\x0c\x00\x02\x80", Some((1, Reason::Unreadable))),
    (b"\x61\x0d\x00\x02\x00", Some((1, Reason::Unreadable))),
    (b"\x61\x0c\x01\x00\x02\x00", Some((1, Reason::Unreadable))),
    (b"\x64\x05\x00", Some((1, Reason::Unreadable))),
    (
        b"\x61\x0c\xfe\xff\xff\xff\x01\x00\x02\x00",
        Some((2, Reason::End)),
    ),
    (
        b"\x61\x0c\x80\x80\x80\x80\x02\x00\x02\x00",
        Some((1, Reason::Unreadable)),
    ),
    (
        b"\x61\x80\x80\x80\x80\x80\x80\x80\x80\x80\x01\x00\x02\x00",
        Some((1, Reason::Empty)),
    ),
    (
        b"\x61\x82\x80\x80\x80\x80\x80\x80\x80\x80\x01\x00\x02\x00",
        Some((1, Reason::Unreadable)),
    ),
    (
        b"\x61\xff\xff\xff\xff\xff\xff\xff\xff\xff\x7f\x00\x02\x00",
        Some((1, Reason::Unreadable)),
    ),
    (b"\x61\x00\x00\x02\x00", Some((1, Reason::Unreadable))),
];

/// The hints 1 and 3, and then the group for the second clause, which leads to no conflict.
const GROUP: &[Binary] = &[(
    b"\x61\x10\x05\x00\x02\x06\x05\x02\x00",
    Some((1, Reason::Group)),
)];

/// Literals whose bytes are a line `l 1`: no label line.
const LABEL: &[Binary] = &[(
    b"\x61\x0c\nl 1\n\x00\x02\x04\x00\x61\x0e\x00\x02\x04\x00",
    None,
)];

/// Ends the test where one of these proofs is judged otherwise.
fn need_judged(rt: &impl Abort, alloc: Global, case: &Case, proofs: &[Binary]) {
    for (proof, fault) in proofs {
        let wanted = expected(*fault);
        assert!(rt; is_judged(rt, alloc, case, proof, wanted), "{proof:?}");
    }
}

/// The same of `6 1 -2 0 3 4 0` and `7 0 1 2 0`, cut behind each byte. Behind an `a` the step
/// hasn't begun.
fn need_cut(rt: &impl Abort, alloc: Global, case: &Case) {
    let proof = b"\x61\x0c\x02\x05\x00\x06\x08\x00\x61\x0e\x00\x02\x04\x00";
    for size in 0..=14usize {
        let judged = match size {
            0 | 1 => rejected(1, Reason::End),
            2..=7 => rejected(1, Reason::Unreadable),
            8 | 9 => rejected(2, Reason::End),
            10..=13 => rejected(2, Reason::Unreadable),
            _ => Judged::Refuted,
        };
        assert!(rt;
            is_judged(rt, alloc, case, &proof[..size], judged),
            "{size}"
        );
    }
}

/// The same of bytes as texts: opened as a text, as a section is, bytes that begin as a binary
/// proof have no step; and a text has a label line.
fn need_as_texts(rt: &impl Abort, alloc: Global, case: &Case) {
    let proof = b"\x61\x0c\x00\x02\x04\x00".as_slice();
    let found = read_as(rt, alloc, case, ProofForm::Text, (proof, 100, 0));
    assert!(rt; found == Ok(Some((UNREADABLE, 6))));
    let text = read_so(rt, alloc, case, b"6\nl 1\n", 1, 0);
    assert!(rt; text == Ok(None));
}

#[test]
fn binary_proofs(rt: HostRuntime) {
    let case = case(&rt, rt.alloc(), FIVE);
    need_judged(&rt, rt.alloc(), &case, STEPS);
    need_judged(&rt, rt.alloc(), &case, LIMITS);
    need_judged(&rt, rt.alloc(), &case, LABEL);
    need_cut(&rt, rt.alloc(), &case);
    need_as_texts(&rt, rt.alloc(), &case);
}

#[test]
fn a_binary_group(rt: HostRuntime) {
    let case = case(&rt, rt.alloc(), GROUPED);
    need_judged(&rt, rt.alloc(), &case, GROUP);
}
