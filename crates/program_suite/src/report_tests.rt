//! Reports of bundles, and runs over streams that fail: each expected report is written by hand
//! from the formats.

ghost use Rattle.std.specs.Prelude.{◌<◌, ◌^◌, ◌-◌, ℕ, List};

use cube_report::{Counted, Fault, NoGate, Settings, Sink, Source, run_io, run_one};
use devices::{Broken, Narrow};
use fixtures::bundles::{OPEN, OPEN_REPORT, REFUTED, REFUTED_REPORT};
use std::alloc::Global;
use std::process::Abort;
use std::sync::Wait;
use std::test::Fail;
use std::thread::Threads;

/// A run over streams, by two workers.
fn run_by_two<R: Abort + Threads + Wait + Sync, I: Source, O: Sink>(
    rt: &R,
    alloc: Global,
    reader: &mut I,
    writer: &mut O,
) -> Result<bool, Fault>
    requires reader { I.failures reader.old < 2 ^ 64 - 1 }
    requires writer { O.failures writer.old < 2 ^ 64 - 1 }
    requires allowed { (text : List ℕ) → O.allows writer.old text }
{
    let settings = Settings::new(2, 1).expect(rt, "no settings");
    run_io(rt, alloc, reader, writer, settings, &NoGate)
}

#[test]
fn reports(rt: HostRuntime) -> Result<(), Fail> {
    assert_eq!(rt; run_one(rt.alloc(), REFUTED)?.as_slice(), REFUTED_REPORT);
    assert_eq!(rt; run_one(rt.alloc(), OPEN)?.as_slice(), OPEN_REPORT);
    Ok(())
}

#[test]
fn a_read_fails(rt: HostRuntime) -> Result<(), Fail> {
    let calls = REFUTED.len() as u64 / 16 + 2;
    for fails_at in 1..=calls {
        read_fails_at(&rt, rt.alloc(), fails_at);
    }
    Ok(())
}

/// A run whose reader fails at this call says so, and has written nothing.
fn read_fails_at<R: Abort + Threads + Wait + Sync>(rt: &R, alloc: Global, fails_at: u64) {
    let mut reader = Broken::new(REFUTED, fails_at);
    let mut written = Vec::new(alloc);
    let result = run_by_two(rt, alloc, &mut reader, &mut Counted::new(&mut written));
    assert!(rt; result == Err(Fault::Device), "at {fails_at}");
    assert!(rt; written.is_empty(), "at {fails_at}");
}

#[test]
fn a_write_fails(rt: HostRuntime) -> Result<(), Fail> {
    for fails_at in 1..=REFUTED_REPORT.len() {
        write_fails_at(
            &rt,
            rt.alloc(),
            fails_at as u64,
            &REFUTED_REPORT[..fails_at - 1],
        );
    }
    Ok(())
}

/// A run whose writer fails at this call says so, and has written these bytes before it.
fn write_fails_at<R: Abort + Threads + Wait + Sync>(
    rt: &R,
    alloc: Global,
    fails_at: u64,
    before: &[u8],
) {
    let mut writer = Narrow::new(alloc, fails_at);
    let result = run_by_two(rt, alloc, &mut Counted::new(REFUTED), &mut writer);
    assert!(rt; result == Err(Fault::Device), "at {fails_at}");
    assert_eq!(rt; writer.written.as_slice(), before, "at {fails_at}");
}

#[test]
fn a_write_of_nothing_fails(rt: HostRuntime) -> Result<(), Fail> {
    let mut room = [0u8; 8];
    let result = run_by_two(
        &rt,
        rt.alloc(),
        &mut Counted::new(REFUTED),
        &mut Counted::new(room.as_mut_slice()),
    );
    assert!(rt; result == Err(Fault::Device));
    assert_eq!(rt; room.as_slice(), &REFUTED_REPORT[..8]);
    Ok(())
}
