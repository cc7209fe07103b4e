//! The bundle of the program's input or of a file, which is judged while it is read.

ghost use Rattle.std.specs.Prelude.{◌≡◌, ◌≢◌, ◌<◌, ◌+◌, ◌^◌, ◌-◌, IfOk, IfErr, IfSome, OnOk};
ghost use Rattle.std.specs.Prelude.{None, Some, true};
ghost use Rattle.std.specs.Bool.{OnFalse, OnTrue};
ghost use Rattle.command_words.specs.Request.{asked_in};
ghost use Rattle.cube_report.specs.Device.{IsLeft};
ghost use Rattle.cube_report.specs.Faults.{IsInputFault};
ghost use Rattle.bundle_files.specs.Files.{StaysAllowed, may_lie_at};
ghost use Rattle.bundle_files.specs.Judging.{IsJudgingFault};
ghost use Rattle.bundle_files.specs.Formula.{ArePlainLines};
ghost use Rattle.bundle_files.specs.WhileRead.{IsBundleBelow, IsRefusedBelow};
ghost use Rattle.cube_command.specs.Headline.{IsRefutedFrom};
ghost use Rattle.cube_command.specs.Program.{IsRefusedFrom};
ghost use Rattle.cube_command.specs.Inner.Recorded.{IsRecordedFrom, IsRunRecorded};

use crate::asked::Telling;
use crate::call::Call;
use crate::program::Recorded;
use crate::record::{begin_record, end_record};
use bundle_files::{BegunBundle, Store, begin_bundle, judge_while_read, read_front};
use command_words::Request;
use cube_report::{Explain, Fault, Gate, Source};
use std::alloc::Global;
use std::sync::Wait;
use std::thread::Threads;

/// What is said of the bundle of a file, or of the input where none is asked for, below a formula's
/// own file where there is one, and the record of it where a file for that is asked for: it is
/// judged while it is read.
pub(crate) fn judge_once<R, D, I, G, X>(
    call: &Call<'_, '_, R, G>,
    store: &mut D,
    input: &mut I,
    telling: &mut Telling<'_, X>,
) -> Result<Recorded, Fault>
where
    R: AllocGlobal + Threads + Wait + Sync,
    D: Store,
    I: Source,
    G: Gate + Sync,
    X: Explain,
    requires store { D.failures store.old < 2 ^ 64 - 1 }
    requires input { I.failures input.old < 2 ^ 64 - 1 }
    requires alone { (asked_in call.now.request.now).folder ≡ None }
    ensures held { D.held store.new ≡ D.held store.old }
    ensures allowed { StaysAllowed (D.allows store.old) (D.allows store.new) }
    ensures made { IfOk result (λ made. IsRecordedFrom (D.held store.old)
        (asked_in call.now.request.now) (I.remaining input.old)
        made.outcome.text.items made.outcome.map.items made.outcome.refuted made.bytes.items) }
    ensures handed { IfOk result (λ made. made.outcome.refuted ≡ true → IsRefutedFrom D.hands
        (asked_in call.now.request.now) (I.remaining input.old)) }
    ensures fault { IfErr result (λ fault. IsInputFault fault → IsRefusedFrom (D.held store.old)
        (asked_in call.now.request.now) (I.remaining input.old) fault) }
    ensures ok { OnOk result ((D.failures store.new ≡ D.failures store.old)
        × (I.failures input.new ≡ I.failures input.old)) }
    ensures err { IfErr result (IsJudgingFault (D.failures store.old + I.failures input.old)
        (D.failures store.new + I.failures input.new)) }
{
    let begun = begin_bundle(call.rt.alloc(), store, call.request.formula)?;
    match call.request.file {
        Some(path) => judge_at(call, store, begun, path, telling),
        None => judge_source(call, begun, input, telling),
    }
}

/// The same of a bundle that is begun so, and goes on with the file at this path, which is opened
/// once.
fn judge_at<R, D, G, X>(
    call: &Call<'_, '_, R, G>,
    store: &mut D,
    begun: BegunBundle,
    path: &str,
    telling: &mut Telling<'_, X>,
) -> Result<Recorded, Fault>
where
    R: AllocGlobal + Threads + Wait + Sync,
    D: Store,
    G: Gate + Sync,
    X: Explain,
    requires count { D.failures store.old < 2 ^ 64 - 1 }
    requires plain { ArePlainLines begun.text.items }
    ensures held { D.held store.new ≡ D.held store.old }
    ensures allowed { StaysAllowed (D.allows store.old) (D.allows store.new) }
    ensures made { IfOk result (λ made. IsRunRecorded (IsBundleBelow begun
        (λ text. may_lie_at (D.held store.old) path.now text × D.hands path.now text))
        (asked_in call.now.request.now) made.outcome.text.items made.outcome.map.items
        made.outcome.refuted made.bytes.items) }
    ensures fault { IfErr result (λ fault. IsInputFault fault
        → IsRefusedBelow begun (may_lie_at (D.held store.old) path.now) fault) }
    ensures ok { OnOk result (D.failures store.new ≡ D.failures store.old) }
    ensures err { IfErr result (IsJudgingFault (D.failures store.old) (D.failures store.new)) }
{
    let mut file = store.open(path)?;
    let made = judge_source(call, begun, &mut file, telling);
    store.close(file);
    made
}

/// The same of a bundle that is begun so, and goes on with what a source gives up to its end.
fn judge_source<R, S, G, X>(
    call: &Call<'_, '_, R, G>,
    begun: BegunBundle,
    source: &mut S,
    telling: &mut Telling<'_, X>,
) -> Result<Recorded, Fault>
where
    R: AllocGlobal + Threads + Wait + Sync,
    S: Source,
    G: Gate + Sync,
    X: Explain,
    requires count { S.failures source.old < 2 ^ 64 - 1 }
    requires plain { ArePlainLines begun.text.items }
    ensures made { IfOk result (λ made. IsRunRecorded
        (IsBundleBelow begun (IsLeft (S.remaining source.old)))
        (asked_in call.now.request.now) made.outcome.text.items made.outcome.map.items
        made.outcome.refuted made.bytes.items) }
    ensures fault { IfErr result (λ fault. IsInputFault fault
        → IsRefusedBelow begun (IsLeft (S.remaining source.old)) fault) }
    ensures ok { OnOk result (S.failures source.new ≡ S.failures source.old) }
    ensures err { IfErr result (IsJudgingFault (S.failures source.old) (S.failures source.new)) }
{
    let (rt, request, gate) = (call.rt, call.request, call.gate);
    let front = read_front(rt.alloc(), begun, source)?;
    let icnf = front.icnf();
    telling.tell_read(rt.alloc(), icnf, b"");
    let mut bytes = begin_record(rt.alloc(), request.out, icnf)?;
    let draws = request.map.is_some();
    let outcome = judge_while_read(rt, front, source, request.settings, gate, draws)?;
    end_record(&mut bytes, request.out, &outcome.text)?;
    Ok(Recorded { outcome, bytes })
}
