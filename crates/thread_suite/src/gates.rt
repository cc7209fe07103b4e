//! A gate that counts its calls.
use crate::cases::need_count;
use case_core::{Case, Leaf, Target};
use check_crew::{Elsewhere, Found, Gate};
use std::alloc::{AllocError, Global};
use std::process::Abort;
use std::sync::atomic::{AtomicU64, Ordering};

/// The number of the cube whose leaf this is, or 0.
pub fn cube_number(leaf: Leaf) -> u32 {
    match leaf {
        Leaf::Cube(number) => number,
        Leaf::Missing(_) => 0,
    }
}

/// The number of the cube whose target this is, or 0.
pub fn cube_of(target: Target) -> u32 {
    match target {
        Target::Leaf(leaf) => cube_number(leaf),
        Target::Node(_) => 0,
    }
}

/// One in the four bits of a cube.
pub fn one_of(cube: u32) -> u64 {
    1u64.wrapping_shl(cube.wrapping_mul(4))
}

/// Counts the calls of a gate: four bits for each cube, the lowest for other targets. It keeps the
/// cubes in the order in which they were examined, as decimal digits, and the workers' numbers
/// added up.
#[derive(Drop)]
pub struct Told {
    pub started: AtomicU64,
    pub elsewhere: AtomicU64,
    pub bytes: AtomicU64,
    pub bytes_after: AtomicU64,
    pub before: AtomicU64,
    pub after: AtomicU64,
    pub order: AtomicU64,
    pub workers: AtomicU64,
    pub fell_back: AtomicU64,
    pub ended: AtomicU64,
}

impl Told {
    /// A gate that nobody has called.
    pub fn new() -> Told {
        Told {
            started: AtomicU64::new(0),
            elsewhere: AtomicU64::new(0),
            bytes: AtomicU64::new(0),
            bytes_after: AtomicU64::new(0),
            before: AtomicU64::new(0),
            after: AtomicU64::new(0),
            order: AtomicU64::new(0),
            workers: AtomicU64::new(0),
            fell_back: AtomicU64::new(0),
            ended: AtomicU64::new(0),
        }
    }
}

impl Gate for Told {
    fn start(
        &self,
        _alloc: Global,
        _case: &Case,
        _cut: u32,
        elsewhere: Elsewhere,
    ) -> Result<(), AllocError> {
        self.started.fetch_add(1, Ordering::SeqCst);
        self.elsewhere.store(elsewhere.proofs, Ordering::SeqCst);
        self.bytes.store(elsewhere.bytes, Ordering::SeqCst);
        Ok(())
    }

    fn before(&self, worker: u32, target: Target) {
        self.workers.fetch_add(u64::from(worker), Ordering::SeqCst);
        let cube = cube_of(target);
        let was = self.order.load(Ordering::SeqCst);
        self.order.store(
            was.wrapping_mul(10).wrapping_add(u64::from(cube)),
            Ordering::SeqCst,
        );
        self.before.fetch_add(one_of(cube), Ordering::SeqCst);
    }

    fn after(&self, worker: u32, found: &Found<'_>) {
        self.workers.fetch_add(u64::from(worker), Ordering::SeqCst);
        self.after
            .fetch_add(one_of(cube_of(found.target)), Ordering::SeqCst);
        self.bytes_after
            .fetch_add(found.length as u64, Ordering::SeqCst);
    }

    fn falls_back(&self, target: Target) {
        self.fell_back
            .fetch_add(one_of(cube_of(target)), Ordering::SeqCst);
    }

    fn end(&self) {
        self.ended.fetch_add(1, Ordering::SeqCst);
    }
}

/// Ends the test where a gate wasn't told of each section once, between one start and one end.
pub fn need_each_once(rt: &impl Abort, gate: &Told, once: u64) {
    need_count(rt, "started", &gate.started, 1);
    need_count(rt, "before", &gate.before, once);
    need_count(rt, "after", &gate.after, once);
    need_count(rt, "fell back", &gate.fell_back, 0);
    need_count(rt, "ended", &gate.ended, 1);
}
