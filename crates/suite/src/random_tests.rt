//! The judge and the plain judge on proofs that are made up step by step, by a linear congruential
//! generator.
use crate::judges::{Work, with_judge};
use crate::judging_tests::{REPEATED, judged_by, judged_over};
use crate::literals::lits;
use crate::parts_tests::judged_in_parts;
use crate::plain;
use cnf_text::literal::Lit;
use fixtures::bundles::FOUR;
use hint_check::{Base, Judge, Judged, Reason};
use std::alloc::Global;
use std::process::Abort;

/// Clauses of two and three literals over five variables.
const PAIRS: &[&[i32]] = &[
    &[1, 2],
    &[-1, -2],
    &[2, 3],
    &[-2, -3],
    &[1, 3, 4],
    &[-1, -3, 4],
    &[-4, 5],
    &[-5, -4, 1],
];

/// Steps over the four clauses that can follow one another, in some orders.
const FOUR_STEPS: [&[u8]; 16] = [
    b"9 1 0 1 2 0",
    b"10 0 9 3 4 0",
    b"11 -3 1 0 0",
    b"12 3 0 -11 1 2 0",
    b"13 2 0 1 3 0",
    b"14 -2 0 2 4 0",
    b"15 0 13 14 0",
    b"0 d 9 0",
    b"0 d 1 3 0",
    b"9 -1 0 3 4 0",
    b"1 2 0 9 3 0",
    b"18 1 0 -3 1 -4 1 0",
    b"16 4 -3 2 0 0",
    b"17 -4 -4 0 1 -16 12 14 2 0",
    b"18 1 0 -3 3 -4 4 0",
    b"18 1 0 1 -4 2 -11 12 0",
];

/// The same over the clauses that repeat literals.
const REPEATED_STEPS: [&[u8]; 16] = [
    b"10 1 0 -1 99 -3 2 4 0",
    b"11 2 0 5 3 2 0",
    b"12 0 11 5 4 0",
    b"13 -1 0 5 3 0",
    b"14 -2 -2 0 5 4 0",
    b"15 3 0 3 4 2 0",
    b"12 0 5 15 0",
    b"15 4 -1 4 0 0",
    b"16 -4 -4 0 -15 5 3 0",
    b"0 d 5 1 0",
    b"0 d 15 0",
    b"0 d 3 0",
    b"5 -3 -3 0 13 0",
    b"17 5 -5 0 0",
    b"18 -5 0 -17 0",
    b"3 3 -1 0 5 13 0",
];

/// The same over the clauses of two and three literals.
const PAIRS_STEPS: [&[u8]; 16] = [
    b"13 1 0 1 4 5 7 8 0",
    b"14 0 9 13 0",
    b"15 0 10 3 2 9 7 8 0",
    b"16 6 -4 0 0",
    b"17 -6 1 0 -16 1 4 5 0",
    b"18 4 0 5 6 0",
    b"18 4 1 0 1 4 5 0",
    b"19 4 -1 0 2 3 6 0",
    b"20 4 0 18 19 0",
    b"0 d 7 0",
    b"0 d 16 17 0",
    b"0 d 9 10 0",
    b"7 5 0 0",
    b"7 5 -4 0 -8 20 13 0",
    b"21 7 -7 0 0",
    b"22 -4 5 0 7 -18 7 -19 13 7 -20 7 0",
];

/// Ids of additions: some of the formula and of the path, small ones, and ids far apart.
const NEW_IDS: [&[u8]; 16] = [
    b"1",
    b"5",
    b"6",
    b"7",
    b"8",
    b"9",
    b"10",
    b"11",
    b"12",
    b"13",
    b"14",
    b"15",
    b"16",
    b"17",
    b"1000003",
    b"4611686018427387904",
];

/// Ids that hints, groups and deletions name.
const NAMED_IDS: [&[u8]; 16] = [
    b"1",
    b"2",
    b"3",
    b"4",
    b"1",
    b"2",
    b"3",
    b"4",
    b"5",
    b"5",
    b"6",
    b"7",
    b"8",
    b"9",
    b"1000003",
    b"4611686018427387904",
];

/// Literals, most of them of the formulas.
const LITERALS: [&[u8]; 16] = [
    b"1",
    b"-1",
    b"2",
    b"-2",
    b"3",
    b"-3",
    b"1",
    b"-1",
    b"2",
    b"-2",
    b"3",
    b"-3",
    b"4",
    b"-1300",
    b"5",
    b"-200000003",
];

/// The steps that are tried on each formula and path, and the length after which a proof is begun
/// anew.
const TRIES: u32 = 60;

const LONGEST: usize = 300;

/// How often a step was taken into a proof, and each way in which a step was refused.
#[derive(Clone, Copy, Debug)]
struct Tally {
    good: u32,
    refuted: u32,
    id: u32,
    hint: u32,
    unit: u32,
    empty: u32,
    group: u32,
    candidate: u32,
}

/// A linear congruential generator modulo 2^64, of which the upper bits are taken.
#[derive(Drop)]
struct Generator {
    state: u64,
}

impl Generator {
    fn next(&mut self) -> u64 {
        self.state = self
            .state
            .wrapping_mul(6_364_136_223_846_793_005)
            .wrapping_add(1_442_695_040_888_963_407);
        self.state >> 33
    }

    /// One of sixteen words.
    fn word(&mut self, words: &[&'static [u8]; 16]) -> &'static [u8] {
        words[(self.next() % 16) as usize]
    }

    /// A number from 0 to 3, and seldom 3.
    fn few(&mut self) -> u64 {
        match self.next() % 8 {
            0 | 1 => 0,
            2 | 3 | 4 => 1,
            5 | 6 => 2,
            _ => 3,
        }
    }
}

fn push(rt: &impl Abort, text: &mut Vec<u8>, word: &[u8]) {
    text.extend_from_slice(word).expect(rt, "memory");
    text.push(b' ').expect(rt, "memory");
}

fn push_words(
    rt: &impl Abort,
    random: &mut Generator,
    text: &mut Vec<u8>,
    words: &[&'static [u8]; 16],
) {
    for _ in 0..random.few() {
        push(rt, text, random.word(words));
    }
}

/// A random deletion.
fn push_deletion(rt: &impl Abort, random: &mut Generator, text: &mut Vec<u8>) {
    push(rt, text, b"0 d");
    push_words(rt, random, text, &NAMED_IDS);
    push(rt, text, b"0\n");
}

/// A random group of hints.
fn push_group(rt: &impl Abort, random: &mut Generator, text: &mut Vec<u8>) {
    text.push(b'-').expect(rt, "memory");
    push(rt, text, random.word(&NAMED_IDS));
    push_words(rt, random, text, &NAMED_IDS);
}

/// A few random groups of hints.
fn push_groups(rt: &impl Abort, random: &mut Generator, text: &mut Vec<u8>) {
    for _ in 0..random.few() {
        push_group(rt, random, text);
    }
}

/// A random addition, up to its groups.
fn push_clause(rt: &impl Abort, random: &mut Generator, text: &mut Vec<u8>) {
    push(rt, text, random.word(&NEW_IDS));
    push_words(rt, random, text, &LITERALS);
    push(rt, text, b"0");
    push_words(rt, random, text, &NAMED_IDS);
}

/// A random step: one of two is among those given, and one of eight of the others deletes.
fn push_step(
    rt: &impl Abort,
    random: &mut Generator,
    text: &mut Vec<u8>,
    given: &[&'static [u8]; 16],
) {
    if random.next() % 2 == 0 {
        push(rt, text, random.word(given));
        text.push(b'\n').expect(rt, "memory");
    } else if random.next() % 8 == 0 {
        push_deletion(rt, random, text);
    } else {
        push_clause(rt, random, text);
        push_groups(rt, random, text);
        push(rt, text, b"0\n");
    }
}

fn count(tally: &mut Tally, judged: Judged) {
    let counter = match judged {
        Judged::Refuted => &mut tally.refuted,
        Judged::Rejected { step: _, reason } => match reason {
            Reason::Id => &mut tally.id,
            Reason::Hint => &mut tally.hint,
            Reason::Unit => &mut tally.unit,
            Reason::Empty => &mut tally.empty,
            Reason::Group => &mut tally.group,
            Reason::Candidate => &mut tally.candidate,
            Reason::End | Reason::Unreadable => &mut tally.good,
        },
    };
    *counter = counter.saturating_add(1);
}

/// What the trials draw from and are counted in.
#[derive(Drop)]
struct Trials {
    random: Generator,
    tally: Tally,
}

/// A text, how long it was before its last step, and the length after which a proof is begun anew.
type Growing<'t> = (&'t mut Vec<u8>, usize, usize);

/// Takes the last step of a text back where it isn't good, and all steps where they refute or are
/// long.
fn take_back(text: &mut Vec<u8>, before: usize, longest: usize, judged: Judged) {
    match judged {
        Judged::Rejected {
            step: _,
            reason: Reason::End,
        } if text.len() < longest => {}
        Judged::Rejected { step: _, reason } if reason != Reason::End => text.truncate(before),
        _ => text.clear(),
    }
}

/// A text in parts of 1 to 7 bytes.
fn parts_of<'t>(
    rt: &impl Abort,
    random: &mut Generator,
    alloc: Global,
    text: &'t [u8],
) -> Vec<&'t [u8]> {
    let mut parts = Vec::new(alloc);
    let mut rest = text;
    for _ in 0..text.len() {
        let (part, behind) = rest.split_at(rest.len().min((random.next() % 7) as usize + 1));
        parts.push(part).expect(rt, "memory");
        rest = behind;
    }
    parts
}

/// What is said of a text in such parts.
fn judged_in_random_parts(
    rt: &impl Abort,
    alloc: Global,
    base: &Base,
    path: &[Lit],
    text: &[u8],
    random: &mut Generator,
) -> Judged {
    let parts = parts_of(rt, random, alloc, text);
    judged_in_parts(rt, alloc, base, path, &parts)
}

/// Whether both judges say the same of a text, and so do a fast one that judged other texts over
/// this base and one to which the text is handed over in parts. Its last step is taken back where
/// it isn't good.
fn agree(
    rt: &impl Abort,
    alloc: Global,
    judge: &mut Judge,
    base: &Base,
    path: &[Lit],
    growing: Growing,
    trials: &mut Trials,
) -> bool {
    let (text, before, longest) = growing;
    let slow = plain::judge(rt, alloc, base.formula(), path, text);
    let fast = judged_over(rt, alloc, base, path, text);
    let kept = judged_by(rt, alloc, judge, path, text);
    let parted = judged_in_random_parts(rt, alloc, base, path, text, &mut trials.random);
    count(&mut trials.tally, slow);
    take_back(text, before, longest, slow);
    slow == fast && slow == kept && slow == parted
}

/// Random steps after one another. A step that isn't good is taken back, so that the proofs grow;
/// after a refutation, and where it is long, a proof is begun anew. Each text that is tried goes to
/// both judges; the answer is the number of texts on which they differ.
fn differences(
    rt: &impl Abort,
    alloc: Global,
    judge: &mut Judge,
    base: &Base,
    path: &[Lit],
    given: &[&'static [u8]; 16],
    trials: &mut Trials,
) -> u32 {
    let mut text = Vec::new(alloc);
    let mut differ = 0u32;
    for _ in 0..TRIES {
        let before = text.len();
        push_step(rt, &mut trials.random, &mut text, given);
        let growing = (&mut text, before, LONGEST);
        if !agree(rt, alloc, judge, base, path, growing, trials) {
            differ = differ.saturating_add(1);
        }
    }
    differ
}

const PATHS: &[&[i32]] = &[&[], &[1], &[-1, 2], &[4, -3, 4]];

/// The proofs of all paths over one base, by one judge.
fn differences_over(
    rt: &impl Abort,
    alloc: Global,
    judge: &mut Judge,
    base: &Base,
    given: &[&'static [u8]; 16],
    trials: &mut Trials,
) -> u32 {
    let mut differ = 0u32;
    for numbers in PATHS {
        let path = lits(rt, alloc, numbers);
        let more = differences(rt, alloc, judge, base, &path, given, trials);
        differ = differ.saturating_add(more);
    }
    differ
}

/// The number of texts on which judges differ where no text was judged.
const NOT_JUDGED: u32 = u32::MAX;

/// The proofs of all paths in two rounds, so that each path follows a longer one or a shorter one,
/// and the number of texts on which the judges differed.
#[derive(Drop)]
struct InRounds<'t> {
    given: &'t [&'static [u8]; 16],
    trials: &'t mut Trials,
    differ: u32,
}

impl<'t> Work for InRounds<'t> {
    fn with<R: Abort>(&mut self, rt: &R, alloc: Global, judge: &mut Judge, base: &Base) {
        self.differ = 0;
        for _ in 0..2 {
            let more = differences_over(rt, alloc, judge, base, self.given, self.trials);
            self.differ = self.differ.saturating_add(more);
        }
    }
}

/// The number of them over the base of these clauses.
fn differences_of(
    rt: &impl Abort,
    alloc: Global,
    clauses: &[&[i32]],
    given: &[&'static [u8]; 16],
    trials: &mut Trials,
) -> u32 {
    let mut rounds = InRounds {
        given,
        trials,
        differ: NOT_JUDGED,
    };
    with_judge(rt, alloc, clauses, &mut rounds);
    rounds.differ
}

const NOTHING_YET: Tally = Tally {
    good: 0,
    refuted: 0,
    id: 0,
    hint: 0,
    unit: 0,
    empty: 0,
    group: 0,
    candidate: 0,
};

/// The least of its counters: what shows whether each kind of step came up.
fn least(tally: Tally) -> u32 {
    let first = tally.good.min(tally.refuted).min(tally.id);
    let second = tally.hint.min(tally.unit).min(tally.empty);
    first.min(second).min(tally.group).min(tally.candidate)
}

/// Clauses, and the steps over them that can follow one another.
type Given = (&'static [&'static [i32]], &'static [&'static [u8]; 16]);

const FORMULAS: &[Given] = &[
    (FOUR, &FOUR_STEPS),
    (REPEATED, &REPEATED_STEPS),
    (PAIRS, &PAIRS_STEPS),
];

/// Ends the test where the judges differ on a text over one of the formulas.
fn need_no_difference(rt: &impl Abort, alloc: Global, trials: &mut Trials) {
    for (clauses, given) in FORMULAS {
        let differ = differences_of(rt, alloc, clauses, given, trials);
        assert_eq!(rt; differ, 0);
    }
}

#[test]
fn both_judges_agree(rt: HostRuntime) {
    let mut trials = Trials {
        random: Generator { state: 22 },
        tally: NOTHING_YET,
    };
    need_no_difference(&rt, rt.alloc(), &mut trials);
    let tally = trials.tally;
    assert!(rt; least(tally) > 0, "{tally:?}");
}

/// Ids of clauses over the four: next to one another, in strides, and far apart. Some are far when
/// few clauses were added, and near later.
const SPREAD_IDS: [&[u8]; 16] = [
    b"5",
    b"6",
    b"9",
    b"700",
    b"1027",
    b"1028",
    b"1033",
    b"1036",
    b"1040",
    b"1044",
    b"1060",
    b"1100",
    b"3000",
    b"1000003",
    b"1000005",
    b"4611686018427387904",
];

/// What follows an id: clauses that the four imply, and two that need what another id names.
const SPREAD_STEPS: [(&[u8], &[u8]); 8] = [
    (b"1 0 1 2", b"0"),
    (b"1 3 0 1 2", b"0"),
    (b"-5 1 0 1 2", b"0"),
    (b"1 0", b"0"),
    (b"1 0", b"0"),
    (b"5 0 -", b"1 2 0"),
    (b"0 d", b"0"),
    (b"0 d", b"0"),
];

/// The id of an addition, and what follows it.
fn push_spread_begin(
    rt: &impl Abort,
    random: &mut Generator,
    text: &mut Vec<u8>,
    kind: usize,
    begins: &[u8],
) {
    if kind < 6 {
        push(rt, text, random.word(&SPREAD_IDS));
    }
    text.extend_from_slice(begins).expect(rt, "memory");
}

/// What another id names, where a step needs it.
fn push_spread_named(rt: &impl Abort, random: &mut Generator, text: &mut Vec<u8>, kind: usize) {
    if kind != 5 {
        text.push(b' ').expect(rt, "memory");
    }
    if kind > 2 {
        push(rt, text, random.word(&SPREAD_IDS));
    }
}

/// A random step that adds a clause under one of these ids, or deletes.
fn push_spread_step(rt: &impl Abort, random: &mut Generator, text: &mut Vec<u8>) {
    let kind = (random.next() % 8) as usize;
    let (begins, ends) = SPREAD_STEPS[kind];
    push_spread_begin(rt, random, text, kind, begins);
    push_spread_named(rt, random, text, kind);
    text.extend_from_slice(ends).expect(rt, "memory");
    text.push(b'\n').expect(rt, "memory");
}

/// The steps that are tried with these ids, and the length after which a proof is begun anew.
const SPREAD_TRIES: u32 = 400;

const LONGEST_SPREAD: usize = 1500;

/// Random steps with these ids after one another, as above.
fn spread_differences(
    rt: &impl Abort,
    alloc: Global,
    judge: &mut Judge,
    base: &Base,
    trials: &mut Trials,
) -> u32 {
    let mut text = Vec::new(alloc);
    let mut differ = 0u32;
    for _ in 0..SPREAD_TRIES {
        let before = text.len();
        push_spread_step(rt, &mut trials.random, &mut text);
        let growing = (&mut text, before, LONGEST_SPREAD);
        if !agree(rt, alloc, judge, base, &[], growing, trials) {
            differ = differ.saturating_add(1);
        }
    }
    differ
}

/// These steps, and the number of texts on which the judges differed.
#[derive(Drop)]
struct Spread<'t> {
    trials: &'t mut Trials,
    differ: u32,
}

impl<'t> Work for Spread<'t> {
    fn with<R: Abort>(&mut self, rt: &R, alloc: Global, judge: &mut Judge, base: &Base) {
        self.differ = spread_differences(rt, alloc, judge, base, self.trials);
    }
}

/// The number of them over the base of the four clauses.
fn spread_over_four(rt: &impl Abort, alloc: Global, trials: &mut Trials) -> u32 {
    let mut spread = Spread {
        trials,
        differ: NOT_JUDGED,
    };
    with_judge(rt, alloc, FOUR, &mut spread);
    spread.differ
}

#[test]
fn both_judges_agree_on_spread_ids(rt: HostRuntime) {
    let mut trials = Trials {
        random: Generator { state: 7 },
        tally: NOTHING_YET,
    };
    assert_eq!(rt; spread_over_four(&rt, rt.alloc(), &mut trials), 0);
    let tally = trials.tally;
    let named = tally.id.min(tally.hint).min(tally.candidate);
    assert!(rt; named.min(tally.good) > 0, "{tally:?}");
}
