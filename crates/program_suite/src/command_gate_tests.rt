//! The program's words for its workers and its cut, by what a gate sees of them.
ghost use Rattle.std.specs.Prelude.{◌<◌, ◌^◌, ◌-◌};

use crate::command_tests::{Words, answer, unfailing};
use crossbeam_utils::Backoff;
use cube_command::{Found, Gate};
use cube_report::Target;
use devices::Shelf;
use fixtures::bundles::TURNS;
use fixtures::four;
use std::process::Abort;
use std::sync::Wait;
use std::sync::atomic::{AtomicU64, Ordering};
use std::thread::Threads;

/// The cubes of three variables, and a proof for each of them.
const EIGHT_CUBES: &str = four!(
    "a 1 2 3 0\na 1 2 -3 0\na 1 -2 3 0\na 1 -2 -3 0\n",
    "a -1 2 3 0\na -1 2 -3 0\na -1 -2 3 0\na -1 -2 -3 0\n",
    "l 1\n8 0 5 6 4 0\nl 2\n8 0 5 6 4 0\nl 3\n8 0 5 6 3 0\nl 4\n8 0 5 6 3 0\n",
    "l 5\n8 0 5 6 2 0\nl 6\n8 0 5 6 2 0\nl 7\n8 0 5 6 1 0\nl 8\n8 0 5 6 1 0\n"
);

/// One cube at depth 7, and a proof for it.
const DEEP: &str = four!("a 1 2 3 4 5 6 7 0\nl 1\n12 0 5 6 4 0\n");

/// The status of the program on these words and this bundle, with no files, beside this gate.
fn status_beside<R: AllocGlobal + Abort + Threads + Wait + Sync, G: Gate + Sync>(
    rt: &R,
    words: Words,
    bundle: &str,
    gate: &G,
) -> u8 {
    let shelf = Shelf::new(rt.alloc(), &[]).expect(rt, "no memory");
    answer(rt, shelf, &unfailing(words, bundle.as_bytes()), gate).status
}

/// Holds back each worker until as many have come as are awaited, or one of them has waited too
/// long.
#[derive(Drop)]
struct Gathering {
    awaited: u32,
    /// A bit for the number of each worker that has come.
    workers: AtomicU64,
    /// For how many sections all that are awaited had come.
    met: AtomicU64,
    given_up: AtomicU64,
}

impl Gathering {
    fn new(awaited: u32) -> Gathering {
        Gathering {
            awaited,
            workers: AtomicU64::new(0),
            met: AtomicU64::new(0),
            given_up: AtomicU64::new(0),
        }
    }
}

impl Gate for Gathering {
    fn before(&self, worker: u32, _target: Target) {
        self.workers
            .fetch_or(1u64.wrapping_shl(worker), Ordering::SeqCst);
        let backoff = Backoff::new();
        for _ in 0..TURNS {
            if self.workers.load(Ordering::SeqCst).count_ones() >= self.awaited {
                self.met.fetch_add(1, Ordering::SeqCst);
                return;
            }
            if self.given_up.load(Ordering::SeqCst) == 1 {
                return;
            }
            backoff.snooze();
        }
        self.given_up.store(1, Ordering::SeqCst);
    }

    fn after(&self, _worker: u32, _found: &Found<'_>) {}
}

/// The numbers of the workers that come to a gate that awaits so many, as bits. Ends the test where
/// another count of sections had all that are awaited.
fn gathers<R: AllocGlobal + Abort + Threads + Wait + Sync>(
    rt: &R,
    words: Words,
    awaited: u32,
    met: u64,
) -> u64 {
    let gate = Gathering::new(awaited);
    assert_eq!(rt; status_beside(rt, words, EIGHT_CUBES, &gate), 0);
    assert_eq!(rt; gate.met.load(Ordering::SeqCst), met, "{words:?}");
    gate.workers.load(Ordering::SeqCst)
}

/// Ends the test where it isn't so many workers, by the bits of their numbers, that are at work at
/// once, or where one more comes.
fn has_workers<R: AllocGlobal + Abort + Threads + Wait + Sync>(
    rt: &R,
    words: Words,
    count: u32,
    numbers: u64,
)
    requires { count < 2 ^ 32 - 1 }
{
    assert_eq!(rt; gathers(rt, words, count, 8), numbers, "{words:?}");
    gathers(rt, words, count + 1, 0);
}

// As many workers as the words say are at work at once, with the numbers from 0 on, and no more;
// four where the words don't say.
#[test]
fn workers(rt: HostRuntime) {
    has_workers(&rt, &["--workers", "1"], 1, 1);
    has_workers(&rt, &["--workers", "2"], 2, 3);
    has_workers(&rt, &["--workers=3"], 3, 7);
    has_workers(&rt, &[], 4, 15);
    has_workers(&rt, &["--cut", "0"], 4, 15);
    has_workers(&rt, &["--workers", "7"], 7, 127);
}

/// Keeps the open weight that stands on the board of the last target that was posted.
#[derive(Drop)]
struct Weighing {
    weight: AtomicU64,
}

impl Gate for Weighing {
    fn before(&self, _worker: u32, _target: Target) {}

    fn after(&self, _worker: u32, found: &Found<'_>) {
        self.weight.store(found.weight, Ordering::SeqCst);
    }
}

/// The weight that stands on the last board.
fn last_weight<R: AllocGlobal + Abort + Threads + Wait + Sync>(rt: &R, words: Words) -> u64 {
    let gate = Weighing {
        weight: AtomicU64::new(1),
    };
    let status = status_beside(rt, words, DEEP, &gate);
    assert!(rt; status == 1);
    gate.weight.load(Ordering::SeqCst)
}

/// Words for a cut, or none, and the weight that then stands on the last board.
const CUTS: &[(Words, u64)] = &[
    (&["--cut", "0"], 1_143_914_305_352_105_984),
    (&["--cut", "1"], 567_453_553_048_682_496),
    (&["--cut", "2"], 279_223_176_896_970_752),
    (&["--cut", "3"], 135_107_988_821_114_880),
    (&["--cut", "4"], 63_050_394_783_186_944),
    (&["--cut", "5"], 27_021_597_764_222_976),
    (&["--cut", "6"], 9_007_199_254_740_992),
    (&[], 135_107_988_821_114_880),
    (&["--workers", "1"], 135_107_988_821_114_880),
];

// The boards are cut at the depth that the words say, or at depth 3: when the one leaf is refuted,
// which weighs 2^53, its board's open weight is the rest of the weight 2^(60-D) of its part.
#[test]
fn cuts(rt: HostRuntime) {
    for (words, weight) in CUTS {
        assert_eq!(rt; last_weight(&rt, words), *weight, "{words:?}");
    }
}
