//! What the program tells of a run while it goes on. The lines are written by hand from how the
//! bundles are made and from how the clock goes.

use crate::calls::{Ending, HEADER, ends_beside};
use cube_command::{Counted, FileStore, Metered, MeteredFiles, NoLog, Progress};
use devices::{File, Shelf};
use fixtures::bundles::{FOUR_CUBES, FOUR_CUBES_REPORT};
use fixtures::four;
use std::fmt::Display;
use std::io;
use std::io::Eprint;
use std::process::Abort;
use std::sync::atomic::{AtomicU64, Ordering};
use std::sync::{Mutex, Wait};
use std::thread::Threads;
use std::time::{Clock, Duration};

/// Proofs for the node `1`, which is above the cut, and for two of the four leaves: the first
/// leaf's is refuted, and lies under that node, and the third leaf's hint was never live.
const NODE_ABOVE: &str = four!(
    "a 1 2 0\na 1 -2 0\na -1 2 0\na -1 -2 0\n",
    "l n 1 0\n6 0 5 3 4 0\nl 1\n7 0 5 6 4 0\nl 3\n7 0 9 0\n"
);

const NODE_ABOVE_REPORT: &[u8] = b"t 4 0 1152921504606846976\na 1 refuted\na 2 open\n\
a 3 rejected 1 hint\na 4 open\nn 1 0 refuted\no -1 0\nw 576460752303423488\ns OPEN\n";

/// A standard error whose text can be looked at, and a clock that moves on when it is looked at.
#[derive(Drop)]
struct Device<'a, R> {
    rt: &'a R,
    text: Mutex<String>,
    /// The time, in milliseconds, and by how much it moves on.
    time: AtomicU64,
    step: u64,
    /// Whether each write fails.
    is_broken: bool,
}

impl<'a, R: AllocGlobal> Device<'a, R> {
    fn new(rt: &'a R, step: u64, is_broken: bool) -> Device<'a, R> {
        Device {
            rt,
            text: Mutex::new(String::new(rt.alloc())),
            time: AtomicU64::new(5000),
            step,
            is_broken,
        }
    }
}

impl<'a, R: Wait> Device<'a, R> {
    /// Whether this text, and nothing else, was written.
    fn has(&self, wanted: &str) -> bool {
        **self.text.lock(self.rt) == *wanted
    }
}

impl<'a, R: AllocGlobal + Wait> Eprint for Device<'a, R> {
    fn eprint<D: Display + Drop>(&self, value: D) -> io::Result<()> {
        if self.is_broken {
            return Err(io::Error::from(io::ErrorKind::BrokenPipe));
        }
        let piece = format!(in self.rt.alloc(); "{value}")?;
        self.text.lock(self.rt).push_str(&piece)?;
        Ok(())
    }

    fn eprintln<D: Display + Drop>(&self, value: D) -> io::Result<()> {
        self.eprint(value)
    }
}

impl<'a, R> Clock for Device<'a, R> {
    fn monotonic(&self) -> io::Result<Duration> {
        let now = self.time.fetch_add(self.step, Ordering::SeqCst);
        Ok(Duration::from_millis(now))
    }

    fn since_1970(&self) -> io::Result<Duration> {
        self.monotonic()
    }
}

/// The program, on these words and this bundle, ends so, and tells its progress on the device.
fn ends_telling<R: AllocGlobal + Abort + Threads + Wait + Sync>(
    rt: &R,
    words: &[&str],
    bundle: &str,
    device: &Device<'_, R>,
    on_terminal: bool,
    ending: Ending<'_>,
) {
    let shelf = Shelf::new(rt.alloc(), &[]).expect(rt, "no memory");
    let store = &mut FileStore::new(shelf);
    let input = &mut Counted::new(bundle.as_bytes());
    let progress = &Progress::new(device, on_terminal);
    ends_beside(rt, store, words, input, 0, (progress, &NoLog), ending);
}

/// How a clock goes and what a device is: by how many milliseconds the clock moves on, whether each
/// write fails, and whether it is a terminal.
type Kind = (u64, bool, bool);

/// The program, on these words and this bundle, ends so, and tells this text on such a device.
fn tells<R: AllocGlobal + Abort + Threads + Wait + Sync>(
    rt: &R,
    words: &[&str],
    bundle: &str,
    kind: Kind,
    ending: Ending<'_>,
    text: &str,
) {
    let (step, is_broken, on_terminal) = kind;
    let device = Device::new(rt, step, is_broken);
    ends_telling(rt, words, bundle, &device, on_terminal, ending);
    assert!(rt; device.has(text), "{words:?}");
}

/// How a run on `FOUR_CUBES` ends.
const FOUR_REFUTED: Ending<'static> = (0, FOUR_CUBES_REPORT, b"");

// One worker, and a clock that moves by 600 milliseconds: a line is due at every second section.
// Each of the four leaves is a quarter of the weight. Nobody knows how many sections the input has,
// so the line has as many as are judged.
#[test]
fn a_line_each_second(rt: HostRuntime) {
    let words = ["--workers", "1", "--progress"];
    let told = "cubeboard: 2 of 2 judged, 24 of 24 bytes, 2 refuted, 0 rejected, 50.000 % open\n\
                cubeboard: 4 of 4 judged, 48 of 48 bytes, 4 refuted, 0 rejected, 0.000 % open\n\
                cubeboard: 4 of 4 judged, 48 of 48 bytes, 4 refuted, 0 rejected, 0.000 % open\n";
    let kind = (600, false, false);
    tells(&rt, &words, FOUR_CUBES, kind, FOUR_REFUTED, told);
}

// On a terminal each line is written over the one before, and the last one is ended.
#[test]
fn over_the_line_before(rt: HostRuntime) {
    let words = ["--progress", "--workers=1"];
    let told = "\rcubeboard: 2 of 2 judged, 24 of 24 bytes, 2 refuted, 0 rejected, \
                50.000 % open\x1b[K\
                \rcubeboard: 4 of 4 judged, 48 of 48 bytes, 4 refuted, 0 rejected, \
                0.000 % open\x1b[K\
                \rcubeboard: 4 of 4 judged, 48 of 48 bytes, 4 refuted, 0 rejected, \
                0.000 % open\x1b[K\n";
    let kind = (600, false, true);
    tells(&rt, &words, FOUR_CUBES, kind, FOUR_REFUTED, told);
}

// Where no second passes, there is the last line alone, whatever the workers and the cut. The node
// that is refuted closes what lies under it, also where it is above the cut, and once.
#[test]
fn the_last_line(rt: HostRuntime) {
    let told = "cubeboard: 3 of 3 judged, 32 of 32 bytes, 2 refuted, 1 rejected, 50.000 % open\n";
    let ending = (1, NODE_ABOVE_REPORT, b"".as_slice());
    for workers in ["1", "2", "4"] {
        for cut in ["0", "1", "2", "6"] {
            let words = ["--workers", workers, "--cut", cut, "--progress"];
            tells(&rt, &words, NODE_ABOVE, (0, false, false), ending, told);
        }
    }
}

// Without the word nothing is told, and a device that fails changes nothing.
#[test]
fn nothing_else_changes(rt: HostRuntime) {
    let working = (2000, false, false);
    tells(&rt, &[], FOUR_CUBES, working, FOUR_REFUTED, "");
    let broken = (2000, true, false);
    tells(&rt, &["--progress"], FOUR_CUBES, broken, FOUR_REFUTED, "");
}

/// The program, on these words and a file that gives 16 bytes a read, whose length may be told,
/// ends so, and tells its progress on the device.
fn ends_telling_of_file<R: AllocGlobal + Abort + Threads + Wait + Sync>(
    rt: &R,
    words: &[&str],
    (file, has_length): (File<'_>, bool),
    device: &Device<'_, R>,
    on_terminal: bool,
    ending: Ending<'_>,
) {
    let files = [file];
    let mut shelf = Shelf::new(rt.alloc(), &files).expect(rt, "no memory");
    if has_length {
        shelf = shelf.with_lengths();
    }
    let progress = &Progress::new(device, on_terminal);
    let store = &mut FileStore::new(MeteredFiles::new(shelf, progress));
    let input = &mut Counted::new(Metered::new(b"".as_slice(), progress));
    ends_beside(rt, store, words, input, 0, (progress, &NoLog), ending);
}

/// The program, on these words and such a file, ends so, and tells this text on a device that
/// works.
fn tells_of_file<R: AllocGlobal + Abort + Threads + Wait + Sync>(
    rt: &R,
    words: &[&str],
    file: (File<'_>, bool),
    step: u64,
    on_terminal: bool,
    ending: Ending<'_>,
    text: &str,
) {
    let device = Device::new(rt, step, false);
    ends_telling_of_file(rt, words, file, &device, on_terminal, ending);
    assert!(rt; device.has(text), "{words:?}");
}

// A clock that moves by 300 milliseconds, and 137 bytes, which are read whole, since a folder is
// asked for: a line is due at every fourth read, and then, as reading is over, at the fourth
// section.
#[test]
fn how_much_was_read(rt: HostRuntime) {
    let words = ["--workers", "1", "--progress", "--proofs", "D", "four.icnf"];
    let told = "cubeboard: reading: 64 bytes so far\n\
                cubeboard: reading: 128 bytes so far\n\
                cubeboard: 4 of 4 judged, 48 of 48 bytes, 4 refuted, 0 rejected, 0.000 % open\n\
                cubeboard: 4 of 4 judged, 48 of 48 bytes, 4 refuted, 0 rejected, 0.000 % open\n";
    let file = (("four.icnf", FOUR_CUBES.as_bytes()), false);
    tells_of_file(&rt, &words, file, 300, false, FOUR_REFUTED, told);
}

// The same clock, and the same file alone, whose length is told: it is judged while it is read.
// Four reads are 64 bytes, for which a line is due. The fifth has the first label line, and the
// pause begins anew. Each of the next three ends a section with the label line of the next one. The
// ninth has the rest of the last section, and the tenth says that the file is at its end. The clock
// is looked at with each read, and with each section when it is judged. So a line is due at the
// second section, the fourth look, and at the tenth read, the fourth from there. Nobody knows how
// many sections there are, so a line has as many as are judged.
#[test]
fn judged_while_it_is_read(rt: HostRuntime) {
    let words = ["--workers", "1", "--progress", "four.icnf"];
    let told = "cubeboard: reading: 64 of 137 bytes so far\n\
                cubeboard: 2 of 2 judged, 24 of 24 bytes, 2 refuted, 0 rejected, 50.000 % open\n\
                cubeboard: reading: 137 of 137 bytes so far\n\
                cubeboard: 4 of 4 judged, 48 of 48 bytes, 4 refuted, 0 rejected, 0.000 % open\n";
    let file = (("four.icnf", FOUR_CUBES.as_bytes()), true);
    tells_of_file(&rt, &words, file, 300, false, FOUR_REFUTED, told);
}

// On a terminal the line on what was read is taken away before a fault is told. It is due at each
// read, of which the second says that the file is at its end.
#[test]
fn a_fault_behind_reading(rt: HostRuntime) {
    let words = ["--progress", "cnf.icnf"];
    let told = "\rcubeboard: reading: 10 bytes so far\x1b[K\
                \rcubeboard: reading: 10 bytes so far\x1b[K\r\x1b[K";
    let file = (("cnf.icnf", b"p cnf 1 0\n".as_slice()), false);
    tells_of_file(&rt, &words, file, 1000, true, (3, b"", HEADER), told);
}

// Without the word nothing is told of reading.
#[test]
fn no_word_on_reading(rt: HostRuntime) {
    let file = (("four.icnf", FOUR_CUBES.as_bytes()), true);
    tells_of_file(&rt, &["four.icnf"], file, 1000, false, FOUR_REFUTED, "");
}
