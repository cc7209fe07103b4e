//! How far a run is, told while its workers judge.

ghost use Rattle.std.specs.Prelude.{◌≡◌, ◌<◌, ◌≤◌, length};
ghost use Rattle.cube_report.specs.Halls.{view_of};
ghost use Rattle.cube_report.specs.Seen.{IsTold};
ghost use Rattle.cube_report.specs.SplitTree.{size};
ghost use Rattle.cube_report.specs.Parts.{part_nodes};

use crate::reading::{Meter, Watch};
use cube_report::{Case, Elsewhere, Found, Gate, Judged, Leaf, NodeId, Place, Target, Tree};
use std::alloc::{AllocError, Global};
use std::array;
use std::io::Eprint;
use std::sync::atomic::{AtomicBool, AtomicU64, Ordering};
use std::time::Clock;

/// The most parts of a cut.
const MOST_PARTS: usize = 64;

/// The least time between two lines, in milliseconds.
const PAUSE: u64 = 1000;

/// What of the weight is told: hundred thousandth parts.
const SHARES: u64 = 100_000;

/// A part of the cut: the number of its root, and the weight that is open under it.
#[derive(Drop)]
struct Part {
    root: AtomicU64,
    open: AtomicU64,
}

/// A gate that tells how far the run is on a terminal or in lines: how many proofs are judged, of
/// how many, how many of their bytes, of how many, how many are refuted and rejected, and how much
/// of the tree's weight is still open. It tells that at most once a second while the workers are at
/// work, and once when they have ended; a run that is made anew counts anew. As a meter it tells,
/// once a second at most, how much was read so far, and of how much, as far as lengths of files
/// say so: before the workers start, while proofs are judged of which nobody knows how long they
/// are, or how many, and where all proofs are read again. Of so many as nobody knows it tells how
/// many are judged. What it can't write is left out.
#[derive(Drop)]
pub struct Progress<'a, R> {
    device: &'a R,
    /// Whether a line is written over the one before.
    on_terminal: bool,
    /// How many proofs there are, and how many bytes all of them have.
    proofs: AtomicU64,
    bytes: AtomicU64,
    /// How many bytes the proofs have that are judged.
    bytes_judged: AtomicU64,
    refuted: AtomicU64,
    rejected: AtomicU64,
    /// The tree's weight.
    total: AtomicU64,
    /// The parts of the cut, in tree order, as many as it has; the others weigh nothing.
    parts: [Part; MOST_PARTS],
    /// When the last line was written, or the run began, in milliseconds.
    told_at: AtomicU64,
    /// Whether the run reads what it judges later, or what has no known length, and how many bytes
    /// it has read so.
    is_reading: AtomicBool,
    bytes_read: AtomicU64,
    /// Whether the lengths of the files that are opened are summed up, and their sum.
    sums_lengths: AtomicBool,
    lengths: AtomicU64,
    /// Whether a line on that stands on the terminal.
    is_shown: AtomicBool,
}

impl<'a, R> Progress<'a, R> {
    /// A gate that writes to the standard error of this device, and takes the time of its clock.
    /// `on_terminal` says that its lines are written over one another.
    pub fn new(device: &'a R, on_terminal: bool) -> Progress<'a, R>
        ensures { result.on_terminal ≡ on_terminal }
    {
        Progress {
            device,
            on_terminal,
            proofs: AtomicU64::new(0),
            bytes: AtomicU64::new(0),
            bytes_judged: AtomicU64::new(0),
            refuted: AtomicU64::new(0),
            rejected: AtomicU64::new(0),
            total: AtomicU64::new(0),
            parts: array::from_fn(|_| Part {
                root: AtomicU64::new(0),
                open: AtomicU64::new(0),
            }),
            told_at: AtomicU64::new(0),
            is_reading: AtomicBool::new(false),
            bytes_read: AtomicU64::new(0),
            sums_lengths: AtomicBool::new(false),
            lengths: AtomicU64::new(0),
            is_shown: AtomicBool::new(false),
        }
    }

    /// What stands before and behind a line; the last line is ended also on a terminal.
    fn around(&self, is_last: bool) -> (&'static str, &'static str) {
        match (self.on_terminal, is_last) {
            (true, true) => ("\r", "\x1b[K\n"),
            (true, false) => ("\r", "\x1b[K"),
            (false, _) => ("", "\n"),
        }
    }

    /// How much of the tree's weight is open.
    fn open_weight(&self) -> u64 {
        let mut sum = 0u64;
        for part in &self.parts {
            sum = sum.saturating_add(part.open.load(Ordering::SeqCst));
        }
        sum
    }

    /// Counts what is said of a proof, and its bytes.
    fn count(&self, judged: Judged, length: usize) {
        let counter = match judged {
            Judged::Refuted => &self.refuted,
            Judged::Rejected { .. } => &self.rejected,
        };
        counter.fetch_add(1, Ordering::SeqCst);
        self.bytes_judged.fetch_add(length as u64, Ordering::SeqCst);
    }

    /// Keeps what stays open after a finding was posted: where it is a part's, by the open weight
    /// that the part's board then had, and above the parts by whether the node's own proof refutes
    /// it.
    fn keep_open(&self, found: &Found<'_>)
        requires { found.now.node < size found.now.case.now.tree }
    {
        match (found.place, found.judged) {
            (Place::Part(number), _) => {
                if let Some(part) = self.parts.get(number as usize) {
                    lower(&part.open, found.weight);
                }
            }
            (Place::Top, Judged::Refuted) => close_parts(
                &self.parts,
                found.case.tree(),
                found.node,
            ),
            (Place::Top, Judged::Rejected { .. }) => {}
        }
    }
}

/// Sets the parts of the cut, by their roots, to their whole weights.
fn begin_parts(parts: &[Part; MOST_PARTS], tree: &Tree, cut: u32, roots: &[NodeId])
    requires cut { cut ≤ 6 }
    requires few { length roots.now ≤ 64 }
    requires roots { roots.now ≡ part_nodes cut 0 tree.now }
{
    for number in 0..roots.len() {
        let root = roots[number];
        let weight = tree.weight_under(root);
        parts[number]
            .root
            .store(u64::from(root.number()), Ordering::SeqCst);
        parts[number].open.store(weight, Ordering::SeqCst);
    }
}

/// Closes the parts whose roots are this node or below it.
fn close_parts(parts: &[Part; MOST_PARTS], tree: &Tree, node: NodeId)
    requires { node < size tree.now }
{
    let first = u64::from(node.number());
    let end = u64::from(tree.end_of(node));
    for part in parts {
        let root = part.root.load(Ordering::SeqCst);
        if first <= root && root < end {
            part.open.store(0, Ordering::SeqCst);
        }
    }
}

/// Makes a weight no greater than this one. A try that fails was forestalled by a lesser weight of
/// another worker's.
fn lower(open: &AtomicU64, weight: u64) {
    for _ in 0..u64::MAX {
        let before = open.load(Ordering::SeqCst);
        if before <= weight {
            return;
        }
        if open
            .compare_exchange(before, weight, Ordering::SeqCst, Ordering::SeqCst)
            .is_ok()
        {
            return;
        }
    }
}

impl<'a, R: Clock> Progress<'a, R> {
    /// The time of the clock, in milliseconds; 0 where it can't be read.
    fn now(&self) -> u64 {
        match self.device.monotonic() {
            Ok(time) => u64::try_from(time.as_millis()).unwrap_or(u64::MAX),
            Err(_) => 0,
        }
    }

    /// Whether the pause since the last line is over. Of several workers that ask at once, one is
    /// told so.
    fn is_due(&self) -> bool {
        let before = self.told_at.load(Ordering::SeqCst);
        let now = self.now();
        now.saturating_sub(before) >= PAUSE
            && self
                .told_at
                .compare_exchange(before, now, Ordering::SeqCst, Ordering::SeqCst)
                .is_ok()
    }
}

impl<'a, R: Eprint> Progress<'a, R> {
    /// Writes how far the run is; the last line is ended also on a terminal.
    fn tell(&self, is_last: bool) {
        let done = self.bytes_judged.load(Ordering::SeqCst);
        let bytes = self.bytes.load(Ordering::SeqCst).max(done);
        let refuted = self.refuted.load(Ordering::SeqCst);
        let rejected = self.rejected.load(Ordering::SeqCst);
        let judged = refuted.saturating_add(rejected);
        let proofs = self.proofs.load(Ordering::SeqCst).max(judged);
        let share = share_of(self.open_weight(), self.total.load(Ordering::SeqCst));
        let (percent, rest) = (share / 1000, share % 1000);
        let (front, back) = self.around(is_last);
        let _ = eprint!(self.device;
            "{front}cubeboard: {judged} of {proofs} judged, {done} of {bytes} bytes, \
             {refuted} refuted, {rejected} rejected, {percent}.{rest:03} % open{back}"
        );
    }
}

/// How many bytes the proofs of all sections have.
fn bytes_of_sections(case: &Case) -> u64 {
    let mut sum = 0u64;
    for place in 0..case.sections().len() {
        sum = sum.saturating_add(case.proof_at(place).len() as u64);
    }
    sum
}

/// How many hundred thousandths of the total are open, rounded up: 0 exactly where nothing is.
fn share_of(open: u64, total: u64) -> u64 {
    let shares = (u128::from(open) * u128::from(SHARES)).div_ceil(u128::from(total.max(1)));
    shares.min(u128::from(SHARES)) as u64
}

impl<'a, R: Eprint> Progress<'a, R> {
    /// Says that the proof of a leaf has all proofs of the folder read again, one after the other.
    fn tell_whole(&self, leaf: Leaf) {
        let (kind, number) = match leaf {
            Leaf::Cube(number) => ("", number),
            Leaf::Missing(number) => ("m", number),
        };
        let _ = eprint!(self.device;
            "cubeboard: {kind}{number}.lrat has a label line or is a second proof, \
             so all proofs are read again, one after the other\n"
        );
    }
}

impl<'a, R: Clock + Eprint> Progress<'a, R> {
    /// Begins to tell how much is read, of how much where the lengths of files are summed up.
    fn begin_reading(&self, sums_lengths: bool) {
        self.bytes_read.store(0, Ordering::SeqCst);
        self.lengths.store(0, Ordering::SeqCst);
        self.sums_lengths.store(sums_lengths, Ordering::SeqCst);
        self.told_at.store(self.now(), Ordering::SeqCst);
        self.is_reading.store(true, Ordering::SeqCst);
    }

    /// Writes how much was read so far; of how much, where no more was read than the files that
    /// were opened are long.
    fn tell_read(&self) {
        let bytes = self.bytes_read.load(Ordering::SeqCst);
        let all = self.lengths.load(Ordering::SeqCst);
        let (front, back) = self.around(false);
        let _ = if 0 < all && bytes <= all {
            eprint!(self.device; "{front}cubeboard: reading: {bytes} of {all} bytes so far{back}")
        } else {
            eprint!(self.device; "{front}cubeboard: reading: {bytes} bytes so far{back}")
        };
        self.is_shown.store(self.on_terminal, Ordering::SeqCst);
    }
}

impl<'a, R: Clock + Eprint> Meter for Progress<'a, R> {
    fn is_counting(&self) -> bool {
        self.is_reading.load(Ordering::SeqCst)
    }

    fn expect(&self, length: u64) {
        if self.sums_lengths.load(Ordering::SeqCst) {
            self.lengths.fetch_add(length, Ordering::SeqCst);
        }
    }

    fn count(&self, bytes: usize) {
        if !self.is_reading.load(Ordering::SeqCst) {
            return;
        }
        self.bytes_read.fetch_add(bytes as u64, Ordering::SeqCst);
        if self.is_due() {
            self.tell_read();
        }
    }
}

impl<'a, R: Clock + Eprint> Watch for Progress<'a, R> {
    fn begins_to_read(&self) {
        self.begin_reading(true);
    }

    fn is_over(&self) {
        self.is_reading.store(false, Ordering::SeqCst);
        if self.is_shown.swap(false, Ordering::SeqCst) {
            let _ = eprint!(self.device; "\r\x1b[K");
        }
    }
}

impl<'a, R: Clock + Eprint> Gate for Progress<'a, R> {
    fn start(
        &self,
        alloc: Global,
        case: &Case,
        cut: u32,
        elsewhere: Elsewhere,
    ) -> Result<(), AllocError> {
        let is_unknown = elsewhere.bytes == 0
            && (elsewhere.proofs > 0 || case.sections().is_empty());
        self.is_reading.store(is_unknown, Ordering::SeqCst);
        let tree = case.tree();
        let roots = tree.parts(alloc, cut)?;
        begin_parts(&self.parts, tree, cut, &roots);
        self.total.store(tree.total(), Ordering::SeqCst);
        let proofs = (case.sections().len() as u64).saturating_add(elsewhere.proofs);
        self.proofs.store(proofs, Ordering::SeqCst);
        let bytes = bytes_of_sections(case).saturating_add(elsewhere.bytes);
        self.bytes.store(bytes, Ordering::SeqCst);
        self.bytes_judged.store(0, Ordering::SeqCst);
        self.refuted.store(0, Ordering::SeqCst);
        self.rejected.store(0, Ordering::SeqCst);
        self.told_at.store(self.now(), Ordering::SeqCst);
        Ok(())
    }

    fn before(&self, _worker: u32, _target: Target) {}

    fn after(&self, _worker: u32, found: &Found<'_>) {
        self.count(found.judged, found.length);
        self.keep_open(found);
        if self.is_due() {
            self.tell(false);
        }
    }

    fn falls_back(&self, target: Target) {
        if let Target::Leaf(leaf) = target {
            self.tell_whole(leaf);
        }
        self.begin_reading(false);
    }

    fn end(&self) {
        self.is_reading.store(false, Ordering::SeqCst);
        self.is_shown.store(false, Ordering::SeqCst);
        self.tell(true);
    }
}
