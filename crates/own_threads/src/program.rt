//! From standard input to standard output.

ghost use Rattle.std.specs.Prelude.{◌≡◌, ◌≢◌, ◌⊎◌, ◌↔◌, ◌<◌, ◌^◌, ◌-◌, ℕ, List, true};
ghost use Rattle.std.specs.Prelude.{if◌then◌else◌, IfOk, IfErr, IfSome, IsErrOf};
ghost use Rattle.std.specs.Io.KnownBytes.{Keeps, Appends};
ghost use Rattle.cube_report.specs.Correct.{AllowsReports, IsCorrect, IsFaultOn};
ghost use Rattle.cube_report.specs.Correct.{IsUnsatisfiable};
ghost use Rattle.cube_report.specs.Device.{IsLeft};
ghost use Rattle.cube_report.specs.Faults.{IsInputFault};

use crate::report::outcome_of;
use cube_report::{Fault, Sink, Source, read_all, write_all};
use std::alloc::Global;
use std::sync::Wait;
use std::thread::Threads;

/// Reads a bundle to the input's end, and writes the report on it; answers whether the formula is
/// refuted. Nothing but that report is written, whether the call returns or not.
pub fn check<R: Threads + Wait + Sync, I: Source, O: Sink>(
    rt: &R,
    alloc: Global,
    input: &mut I,
    output: &mut O,
) -> Result<bool, Fault>
    requires input { I.failures input.old < 2 ^ 64 - 1 }
    requires output { O.failures output.old < 2 ^ 64 - 1 }
    // Nothing may be written but the report on what is read.
    requires allowed { (bundle : List ℕ) → IsLeft (I.remaining input.old) bundle
        → AllowsReports (O.allows output.old) bundle }
    // What is written is the report on what was read, and the answer is that of its last line.
    ensures correct { IfOk result (λ answer. IfSome (I.remaining input.old) (λ bundle.
        (text : List ℕ) × IsCorrect bundle text answer
        × Appends (O.contents output.old) (O.contents output.new) text)) }
    // It is true only where the formula has no model.
    ensures sound { IfOk result (λ answer. answer ≡ true →
        IfSome (I.remaining input.old) IsUnsatisfiable) }
    // A fault of the input is that of what was read, its first.
    ensures fault { IfErr result (λ fault. IsInputFault fault →
        IfSome (I.remaining input.old) (λ bundle. IsFaultOn bundle fault)) }
    // Without a report nothing is written, unless a device failed.
    ensures nothing { IfErr result (λ fault. fault ≢ Fault.Device →
        Keeps (O.contents output.old) (O.contents output.new)) }
    // A device is at fault exactly where a call failed.
    ensures device { IsErrOf result Fault.Device ↔
        (I.failures input.old < I.failures input.new
        ⊎ O.failures output.old < O.failures output.new) }
{
    let bundle = read_all(alloc, input)?;
    let outcome = outcome_of(rt, alloc, &bundle)?;
    write_all(output, &outcome.text)?;
    Ok(outcome.refuted)
}

/// The status of a run: 0 or 1 for a report that says refuted or open, 3 where the bundle is
/// refused, 4 where memory or the start of the thread was, and 5 where a device failed.
pub fn status_of(run: Result<bool, Fault>) -> u8
    // 0 or 1 where there is a report, by whether it says refuted.
    ensures report { IfOk run (λ refuted. result ≡ (if refuted then 0 else 1)) }
    // Otherwise by the fault: 3 for the input, 4 for memory or a thread, 5 for a device.
    ensures input { IfErr run (λ fault. IsInputFault fault → result ≡ 3) }
    ensures memory { IfErr run (λ fault.
        (fault ≡ Fault.Memory) ⊎ (fault ≡ Fault.Thread) → result ≡ 4) }
    ensures device { IfErr run (λ fault. fault ≡ Fault.Device → result ≡ 5) }
{
    match run {
        Ok(true) => 0,
        Ok(false) => 1,
        Err(Fault::Memory | Fault::Thread) => 4,
        Err(Fault::Device) => 5,
        Err(_) => 3,
    }
}
