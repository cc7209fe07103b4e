//! A call of the program, and how it ends.
ghost use Rattle.std.specs.Prelude.{◌<◌, ◌^◌, ◌-◌, ℕ, List};

use cube_command::{
    Counted, FileStore, Gate, Log, NoExplain, NoGate, NoLog, Source, Store, Watch, command,
};
use devices::{Narrow, Shelf};
use std::process::Abort;
use std::sync::Wait;
use std::thread::Threads;

pub(crate) const DEVICE: &[u8] = b"cubeboard: F13 device\n";

pub(crate) const HEADER: &[u8] = b"cubeboard: F1 header\n";

/// How a call of the program ends: its status, its report and its line of errors.
pub(crate) type Ending<'t> = (u8, &'t [u8], &'t [u8]);

/// The status of the program on these words, files and streams, beside what watches it and a log.
pub(crate) fn status_of<R, D, I, W, L>(
    rt: &R,
    store: &mut D,
    words: &[&str],
    input: &mut I,
    output: &mut Narrow,
    errors: &mut Vec<u8>,
    watch: &W,
    log: &L,
) -> u8
where
    R: AllocGlobal + Threads + Wait + Sync,
    D: Store,
    I: Source,
    W: Gate + Watch + Sync,
    L: Log + Sync,
    requires store { D.failures store.old < 2 ^ 64 - 1 }
    requires input { I.failures input.old < 2 ^ 64 - 1 }
    requires output { output.old.failed < 2 ^ 64 - 1 }
    requires allowed { (path bytes : List ℕ) → D.allows store.old path bytes }
{
    let errors = &mut Counted::new(errors);
    command(
        rt, store, words, input, output, errors, &NoGate, watch, &NoExplain, log,
    )
}

/// Ends the test where the program's status, report and line of errors aren't these.
fn is_ending<R: Abort>(rt: &R, words: &[&str], told: Ending<'_>, ending: Ending<'_>) {
    let (answer, output, errors) = told;
    let (status, report, line) = ending;
    assert!(rt; answer == status, "{answer} on {words:?}");
    assert!(rt; output == report && errors == line, "{words:?}");
}

/// The program on these words, files and this input, with an output that fails at this call, ends
/// so, beside what watches it and a log.
pub(crate) fn ends_beside<R, D, I, W, L>(
    rt: &R,
    store: &mut D,
    words: &[&str],
    input: &mut I,
    fails_at: u64,
    beside: (&W, &L),
    ending: Ending<'_>,
)
where
    R: AllocGlobal + Abort + Threads + Wait + Sync,
    D: Store,
    I: Source,
    W: Gate + Watch + Sync,
    L: Log + Sync,
    requires store { D.failures store.old < 2 ^ 64 - 1 }
    requires input { I.failures input.old < 2 ^ 64 - 1 }
    requires allowed { (path bytes : List ℕ) → D.allows store.old path bytes }
{
    let (watch, log) = beside;
    let mut output = Narrow::new(rt.alloc(), fails_at);
    let mut errors = Vec::new(rt.alloc());
    let answer = status_of(
        rt,
        store,
        words,
        input,
        &mut output,
        &mut errors,
        watch,
        log,
    );
    is_ending(rt, words, (answer, &output.written, &errors), ending);
}

/// The same with nothing beside it.
pub(crate) fn ends_with<R: AllocGlobal + Abort + Threads + Wait + Sync>(
    rt: &R,
    store: &mut FileStore<Shelf<'_>>,
    words: &[&str],
    input: &[u8],
    fails_at: u64,
    ending: Ending<'_>,
)
    requires { store.old.failed < 2 ^ 64 - 1 }
{
    let input = &mut Counted::new(input);
    ends_beside(rt, store, words, input, fails_at, (&NoGate, &NoLog), ending);
}
