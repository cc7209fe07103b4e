//! Binary proofs that are handed over in parts are judged as the texts that they stand for.
use crate::binary_tests::{push_number_bytes, push_random};
use crate::judges::{PartWork, with_judging};
use crate::judging_tests::{Proof, Table, over_four, over_others};
use crate::literals::{formula, lits};
use cnf_text::literal::Lit;
use hint_check::{Base, Judged, Judging};
use lrat_binary::Decoder;
use lrat_text::{Step, Steps};
use std::alloc::Global;
use std::process::Abort;

/// The bytes of the law `short_texts`.
const SHORT: &[&[u8]] = &[
    &[],
    &[97, 12, 0, 2, 4, 0],
    &[97, 12, 2, 5, 0, 6, 8, 0],
    &[100, 6, 10, 0],
    &[100, 0],
    &[97, 12, 0, 2, 4, 0, 100, 6, 0],
    &[97, 16, 5, 0, 2, 6, 5, 2, 0],
    &[97, 164, 3, 2, 0, 4, 0],
    &[97, 140, 0, 0, 2, 4, 128, 0],
    &[225, 0, 12, 0, 2, 0],
    &[97],
    &[128],
    &[97, 12],
    &[97, 12, 0, 2, 128],
    &[97, 13, 0, 2, 0],
    &[97, 12, 1, 0, 2, 0],
    &[100, 5, 0],
    &[97, 12, 254, 255, 255, 255, 1, 0, 2, 0],
    &[97, 12, 128, 128, 128, 128, 2, 0, 2, 0],
    &[97, 128, 128, 128, 128, 128, 128, 128, 128, 128, 1, 0, 2, 0],
    &[97, 130, 128, 128, 128, 128, 128, 128, 128, 128, 1, 0, 2, 0],
    &[
        97, 255, 255, 255, 255, 255, 255, 255, 255, 255, 127, 0, 2, 0,
    ],
    &[97, 0, 0, 2, 0],
    &[49, 32, 48],
    &[112, 32, 100, 0],
];

/// What is said of a binary proof that a judging gets in these parts.
fn judged_by_parts(
    rt: &impl Abort,
    alloc: Global,
    judging: &mut Judging,
    path: &[Lit],
    parts: &[&[u8]],
) -> Judged {
    judging.begin(path).expect(rt, "memory");
    for part in parts {
        judging.more_binary(alloc, part).expect(rt, "memory");
    }
    judging.end_binary(alloc).expect(rt, "memory")
}

/// What is said of the text that the bytes stand for.
fn judged_as_text(
    rt: &impl Abort,
    alloc: Global,
    judging: &mut Judging,
    path: &[Lit],
    bytes: &[u8],
) -> Judged {
    let mut text = Vec::new(alloc);
    Decoder::new().append(bytes, &mut text).expect(rt, "memory");
    judging.begin(path).expect(rt, "memory");
    judging.last(alloc, &text).expect(rt, "memory")
}

/// A binary proof with a path, and what is said of its text.
#[derive(Clone, Copy)]
struct Judgement<'t> {
    path: &'t [Lit],
    bytes: &'t [u8],
    judged: Judged,
}

/// Ends the test where the proof is judged otherwise, cut in two anywhere or not.
fn need_in_two(rt: &impl Abort, alloc: Global, judging: &mut Judging, proof: Judgement<'_>) {
    for cut in 0..proof.bytes.len() {
        let (front, back) = proof.bytes.split_at(cut);
        let judged = judged_by_parts(rt, alloc, judging, proof.path, &[front, back]);
        assert!(rt; judged == proof.judged, "cut at {cut}");
    }
}

/// The same of a proof that is cut here and once more.
fn need_cut_again(
    rt: &impl Abort,
    alloc: Global,
    judging: &mut Judging,
    proof: Judgement<'_>,
    first: usize,
) {
    let (front, rest) = proof.bytes.split_at(first.min(proof.bytes.len()));
    for cut in 0..rest.len() {
        let (mid, back) = rest.split_at(cut);
        let judged = judged_by_parts(rt, alloc, judging, proof.path, &[front, mid, back]);
        assert!(rt;
            judged == proof.judged,
            "cut at {first} and {cut} behind it"
        );
    }
}

/// The same of a proof that is cut in three.
fn need_in_three(rt: &impl Abort, alloc: Global, judging: &mut Judging, proof: Judgement<'_>) {
    for first in 0..proof.bytes.len() {
        need_cut_again(rt, alloc, judging, proof, first);
    }
}

/// What is said of a binary proof that a judging gets in blocks of this size.
fn judged_by_blocks(
    rt: &impl Abort,
    alloc: Global,
    judging: &mut Judging,
    proof: Judgement<'_>,
    size: usize,
) -> Judged {
    judging.begin(proof.path).expect(rt, "memory");
    for block in proof.bytes.chunks(size.max(1)) {
        judging.more_binary(alloc, block).expect(rt, "memory");
    }
    judging.end_binary(alloc).expect(rt, "memory")
}

/// Ends the test where a proof is judged otherwise than its text, however it is cut. A long one is
/// cut in two or in blocks alone.
fn need_as_text(rt: &impl Abort, alloc: Global, judging: &mut Judging, path: &[Lit], bytes: &[u8]) {
    let judged = judged_as_text(rt, alloc, judging, path, bytes);
    let proof = Judgement {
        path,
        bytes,
        judged,
    };
    need_in_two(rt, alloc, judging, proof);
    for size in [1usize, 2, 3, 5, 8, 13, 1000] {
        let found = judged_by_blocks(rt, alloc, judging, proof, size);
        assert!(rt; found == judged, "blocks of {size}");
    }
    if bytes.len() < 60 {
        need_in_three(rt, alloc, judging, proof);
    }
}

/// Appends a literal.
fn push_lit(rt: &impl Abort, bytes: &mut Vec<u8>, lit: Lit) {
    let sign = if lit.positive() { 0u64 } else { 1 };
    push_number_bytes(rt, bytes, 2 * u64::from(lit.variable()) + sign);
}

/// Appends ids.
fn push_ids(rt: &impl Abort, bytes: &mut Vec<u8>, ids: &[u64]) {
    for id in ids {
        push_number_bytes(rt, bytes, id.saturating_mul(2));
    }
}

/// Appends a step, as CaDiCaL 2 writes it.
fn push_step(rt: &impl Abort, bytes: &mut Vec<u8>, step: &Step) {
    match step {
        Step::Add {
            id,
            lits,
            hints,
            groups,
        } => {
            push_number_bytes(rt, bytes, 97);
            push_ids(rt, bytes, &[*id]);
            for lit in lits.as_slice() {
                push_lit(rt, bytes, *lit);
            }
            push_number_bytes(rt, bytes, 0);
            push_ids(rt, bytes, hints);
            for group in groups.as_slice() {
                push_number_bytes(
                    rt,
                    bytes,
                    group.candidate.saturating_mul(2).saturating_add(1),
                );
                push_ids(rt, bytes, &group.hints);
            }
        }
        Step::Delete { ids } => {
            push_number_bytes(rt, bytes, 100);
            push_ids(rt, bytes, ids);
        }
    }
    push_number_bytes(rt, bytes, 0);
}

/// The whole steps with which a text begins, as bytes.
fn bytes_of(rt: &impl Abort, alloc: Global, text: &[u8]) -> Vec<u8> {
    let mut bytes = Vec::new(alloc);
    let mut steps = Steps::new(text);
    for _ in 0..text.len() {
        let Ok(Some(step)) = steps.next(alloc) else {
            return bytes;
        };
        push_step(rt, &mut bytes, &step);
    }
    bytes
}

/// Lists of proofs, whose steps one judging judges as bytes.
#[derive(Drop)]
struct Lists<'t> {
    lists: &'t [&'t [Proof]],
    is_done: bool,
}

/// Ends the test where the steps of one of the proofs are judged otherwise than their text.
fn need_proofs(rt: &impl Abort, alloc: Global, judging: &mut Judging, proofs: &[Proof]) {
    for proof in proofs {
        let path = lits(rt, alloc, proof.0);
        let bytes = bytes_of(rt, alloc, proof.1.as_bytes());
        need_as_text(rt, alloc, judging, &path, &bytes);
    }
}

impl<'t> PartWork for Lists<'t> {
    fn with<R: Abort>(&mut self, rt: &R, alloc: Global, judging: &mut Judging) {
        for proofs in self.lists {
            need_proofs(rt, alloc, judging, proofs);
        }
        self.is_done = true;
    }
}

/// The same of a table's lists by one judging.
fn need_each(rt: &impl Abort, alloc: Global, table: &Table) {
    let (clauses, lists) = *table;
    let formula = formula(rt, alloc, clauses);
    let base = Base::new(alloc, &formula).expect(rt, "memory");
    let mut work = Lists {
        lists,
        is_done: false,
    };
    with_judging(rt, alloc, &base, &mut work);
    assert!(rt; work.is_done);
}

/// Short byte strings, and random ones.
#[derive(Drop)]
struct Bytes {
    is_done: bool,
}

impl PartWork for Bytes {
    fn with<R: Abort>(&mut self, rt: &R, alloc: Global, judging: &mut Judging) {
        for bytes in SHORT {
            need_as_text(rt, alloc, judging, &[], bytes);
        }
        let mut state = 7;
        for count in 0..200usize {
            let mut bytes = Vec::new(alloc);
            push_random(rt, &mut state, count, &mut bytes);
            need_as_text(rt, alloc, judging, &[], &bytes);
        }
        self.is_done = true;
    }
}

#[test]
fn steps_as_bytes(rt: HostRuntime) {
    need_each(&rt, rt.alloc(), over_four());
    for table in over_others() {
        need_each(&rt, rt.alloc(), table);
    }
}

#[test]
fn any_bytes(rt: HostRuntime) {
    let alloc = rt.alloc();
    let formula = formula(&rt, alloc, over_four().0);
    let base = Base::new(alloc, &formula).expect(&rt, "memory");
    let mut work = Bytes { is_done: false };
    with_judging(&rt, alloc, &base, &mut work);
    assert!(&rt; work.is_done);
}
