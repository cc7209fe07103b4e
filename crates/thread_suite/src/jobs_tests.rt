//! The queue of jobs: what its passes claim, one after another and in two threads, and when it is
//! finished.
ghost use Rattle.std.specs.Prelude.{◌≡◌, All};
ghost use Rattle.cube_jobs.specs.Jobs.{IsJobPassOf};

use crate::cases::case;
use cube_jobs::{JobPass, Jobs};
use fixtures::bundles::BOTH_CUBES;
use std::alloc::Global;
use std::process::Abort;
use std::sync::Wait;
use std::thread;
use std::thread::Threads;

/// A case with eight cubes and a section for each.
const EIGHT: &str = concat!(
    "p inccnf\na 1 2 3 0\na 1 2 -3 0\na 1 -2 3 0\na 1 -2 -3 0\n",
    "a -1 2 3 0\na -1 2 -3 0\na -1 -2 3 0\na -1 -2 -3 0\n",
    "l 1\nl 2\nl 3\nl 4\nl 5\nl 6\nl 7\nl 8\n"
);

/// A case without a section.
const NONE: &str = "p inccnf\n";

/// The jobs of a bundle, and this many passes.
fn filled<R: Abort + Wait>(
    rt: &R,
    alloc: Global,
    bundle: &str,
    passes: usize,
) -> (Jobs, Vec<JobPass>)
    ensures { All (λ pass. IsJobPassOf result.0 pass) result.1.items }
{
    assert!(rt; 0 < passes && passes <= 64);
    let case = case(rt, alloc, bundle);
    Jobs::fill(rt, alloc, &case, passes).expect(rt, "memory")
}

/// The last of some passes.
fn taken<R: Abort>(rt: &R, jobs: &Jobs, passes: &mut Vec<JobPass>) -> JobPass
    requires { All (λ pass. IsJobPassOf jobs.now pass) passes.old.items }
    ensures one { IsJobPassOf jobs.now result }
    ensures others { All (λ pass. IsJobPassOf jobs.now pass) passes.new.items }
{
    let _jobs = jobs;
    passes.pop().expect(rt, "no pass is left")
}

/// Puts a pass to the others.
fn hand_in<R: Abort>(rt: &R, jobs: &Jobs, passes: &mut Vec<JobPass>, pass: JobPass)
    requires { All (λ pass. IsJobPassOf jobs.now pass) passes.old.items
        × IsJobPassOf jobs.now pass }
    ensures { All (λ pass. IsJobPassOf jobs.now pass) passes.new.items }
{
    let _jobs = jobs;
    passes.push(pass).expect(rt, "memory");
}

/// A pass, the places that it claimed as the bits of a number, and how many claims it made.
#[derive(Drop)]
struct Claimed {
    pass: JobPass,
    places: u64,
    count: u64,
}

/// Claims until no job is left.
fn claim_all<R: Wait>(rt: &R, jobs: &Jobs, mut pass: JobPass) -> Claimed
    requires { IsJobPassOf jobs.now pass }
    ensures { IsJobPassOf jobs.now result.pass }
{
    let mut places = 0u64;
    let mut count = 0u64;
    for _ in rt.forever() {
        let Some(place) = jobs.claim(rt, &mut pass) else {
            return Claimed {
                pass,
                places,
                count,
            };
        };
        places |= 1u64.wrapping_shl((place % 64) as u32);
        count = count.wrapping_add(1);
    }
    unreachable!()
}

/// What some passes claimed one after another, as for one of them, and all passes again.
fn claim_by_turns<R: Abort + Wait>(
    rt: &R,
    alloc: Global,
    jobs: &Jobs,
    passes: Vec<JobPass>,
) -> (Vec<JobPass>, u64, u64)
    requires { All (λ pass. IsJobPassOf jobs.now pass) passes.items }
    ensures { All (λ pass. IsJobPassOf jobs.now pass) result.0.items }
{
    let mut done = Vec::new(alloc);
    let mut places = 0u64;
    let mut count = 0u64;
    for pass in passes {
        let claimed = claim_all(rt, jobs, pass);
        places |= claimed.places;
        count = count.wrapping_add(claimed.count);
        hand_in(rt, jobs, &mut done, claimed.pass);
    }
    (done, places, count)
}

/// Whether one pass claims these places, in this order, and then no more.
fn claims_in_order<R: Wait>(rt: &R, jobs: &Jobs, pass: &mut JobPass, places: &[usize]) -> bool
    requires { IsJobPassOf jobs.now pass.old }
    ensures { IsJobPassOf jobs.now pass.new }
{
    for place in places {
        if jobs.claim(rt, pass) != Some(*place) {
            return false;
        }
    }
    jobs.claim(rt, pass).is_none() && jobs.claim(rt, pass).is_none()
}

/// Whether the one pass of a bundle claims these places in order, and the jobs are then finished.
fn alone<R: Abort + Wait>(rt: &R, alloc: Global, bundle: &str, places: &[usize]) -> bool {
    let (jobs, mut passes) = filled(rt, alloc, bundle, 1);
    let mut pass = taken(rt, &jobs, &mut passes);
    let in_order = claims_in_order(rt, &jobs, &mut pass, places);
    hand_in(rt, &jobs, &mut passes, pass);
    in_order && jobs.finish(rt, passes)
}

// One pass claims the places of the sections in the order of the text, and then none.
#[test]
fn order_of_one_pass(rt: HostRuntime) {
    assert!(rt; alone(&rt, rt.alloc(), NONE, &[]));
    assert!(rt; alone(&rt, rt.alloc(), BOTH_CUBES, &[0, 1]));
    assert!(rt; alone(&rt, rt.alloc(), EIGHT, &[0, 1, 2, 3, 4, 5, 6, 7]));
}

/// Whether this many passes claim each of these places once, and the jobs are then finished.
fn each_once<R: Abort + Wait>(
    rt: &R,
    alloc: Global,
    bundle: &str,
    count: usize,
    sections: u32,
) -> bool {
    let (jobs, passes) = filled(rt, alloc, bundle, count);
    assert!(rt; passes.len() == count);
    let (done, places, claims) = claim_by_turns(rt, alloc, &jobs, passes);
    let all = 1u64.wrapping_shl(sections).wrapping_sub(1);
    claims == u64::from(sections) && places == all && jobs.finish(rt, done)
}

// More sections than passes, fewer, as many, and none.
#[test]
fn sections_and_passes(rt: HostRuntime) {
    for (bundle, passes, sections) in [
        (EIGHT, 3, 8),
        (EIGHT, 64, 8),
        (BOTH_CUBES, 2, 2),
        (BOTH_CUBES, 5, 2),
        (NONE, 1, 0),
        (NONE, 4, 0),
    ] {
        assert!(rt; each_once(&rt, rt.alloc(), bundle, passes, sections));
    }
}

// Jobs aren't finished where no pass has found the queue empty, though all passes are there.
#[test]
fn nothing_claimed(rt: HostRuntime) {
    for bundle in [BOTH_CUBES, NONE] {
        let (jobs, passes) = filled(&rt, rt.alloc(), bundle, 3);
        assert!(rt; !jobs.finish(&rt, passes));
    }
}

// Nor where one claimed all places and hasn't looked again.
#[test]
fn last_look_left_out(rt: HostRuntime) {
    let (jobs, mut passes) = filled(&rt, rt.alloc(), BOTH_CUBES, 1);
    let mut pass = taken(&rt, &jobs, &mut passes);
    assert_eq!(rt; jobs.claim(&rt, &mut pass), Some(0));
    assert_eq!(rt; jobs.claim(&rt, &mut pass), Some(1));
    hand_in(&rt, &jobs, &mut passes, pass);
    assert!(rt; !jobs.finish(&rt, passes));
}

// Nor where a pass is absent, though the queue was found empty.
#[test]
fn pass_absent(rt: HostRuntime) {
    for bundle in [BOTH_CUBES, NONE] {
        let (jobs, passes) = filled(&rt, rt.alloc(), bundle, 3);
        let (mut done, _, _) = claim_by_turns(&rt, rt.alloc(), &jobs, passes);
        let _absent = taken(&rt, &jobs, &mut done);
        assert!(rt; !jobs.finish(&rt, done));
    }
}

/// What two passes claim in threads of their own.
fn race<R: Threads + Wait + Sync>(
    rt: &R,
    jobs: &Jobs,
    one: JobPass,
    two: JobPass,
) -> (Claimed, Claimed)
    requires { IsJobPassOf jobs.now one × IsJobPassOf jobs.now two }
    ensures { IsJobPassOf jobs.now result.0.pass × IsJobPassOf jobs.now result.1.pass }
{
    thread::join(
        rt,
        move ||
            requires { IsJobPassOf jobs.now one }
            ensures { IsJobPassOf jobs.entry.now result.pass }
        { claim_all(rt, jobs, one) },
        move ||
            requires { IsJobPassOf jobs.now two }
            ensures { IsJobPassOf jobs.entry.now result.pass }
        { claim_all(rt, jobs, two) },
    )
}

// Two threads claim each of eight places once.
#[test]
fn two_threads(rt: HostRuntime) {
    let (jobs, mut passes) = filled(&rt, rt.alloc(), EIGHT, 2);
    let one = taken(&rt, &jobs, &mut passes);
    let two = taken(&rt, &jobs, &mut passes);
    let (first, second) = race(&rt, &jobs, one, two);
    assert_eq!(rt; first.count.wrapping_add(second.count), 8);
    assert_eq!(rt; first.places | second.places, 255);
    hand_in(&rt, &jobs, &mut passes, first.pass);
    hand_in(&rt, &jobs, &mut passes, second.pass);
    assert!(rt; jobs.finish(&rt, passes));
}
