//! One proof of the whole formula, in the place of a text of cubes and proofs.

ghost use Rattle.std.specs.Prelude.{◌≡◌, ◌<◌, ◌+◌, ◌++◌, ◌^◌, ◌-◌, ℕ, List, Some, IfOk, IfErr};
ghost use Rattle.std.specs.Prelude.{OnOk, Option, option_map, None, true, codes};
ghost use Rattle.case_core.specs.Case.{proof_for};
ghost use Rattle.case_core.specs.Leaf.TheVariants.{Cube};
ghost use Rattle.case_core.specs.Sections.{IsCaseOf};
ghost use Rattle.case_core.specs.SplitTree.{cube};
ghost use Rattle.case_core.specs.Target.TheVariants.{Leaf as Named};
ghost use Rattle.command_words.specs.Request.{asked_in};
ghost use Rattle.cube_report.specs.Bundle.{icnf_text};
ghost use Rattle.cube_report.specs.Device.{IsDeviceFault, IsLeft};
ghost use Rattle.cube_report.specs.Faults.{IsInputFault};
ghost use Rattle.bundle_files.specs.Files.{IsTextAt, StaysAllowed, may_lie_at};
ghost use Rattle.bundle_files.specs.Judging.{IsJudgingFault, IsRefusedWith};
ghost use Rattle.cube_command.specs.Headline.{IsRefutedFrom};
ghost use Rattle.cube_command.specs.Program.{IsRefusedFrom};
ghost use Rattle.cube_command.specs.Record.{digest_line};
ghost use Rattle.cube_command.specs.Sources.{IsSoBy, file_at};
ghost use Rattle.cube_command.specs.Inner.Recorded.{IsRecordedFrom, IsRecordedWith};

use crate::asked::Telling;
use crate::call::Call;
use crate::program::Recorded;
use crate::record::{begin_record, end_record};
use bundle_files::{OneCube, Store, begin_one, judge_proof_of, of_input};
use command_words::Request;
use cube_report::{DeviceFault, Explain, Fault, Gate, Source, icnf_part};
use std::alloc::{AllocError, Global};
use std::sync::Wait;

/// The file of the proof at this path: none where it is `-`, which is the input.
pub(crate) fn file_at(path: &str) -> Option<&str>
    ensures { option_map (λ path. path.now) result ≡ file_at path.now }
{
    if path == "-" { None } else { Some(path) }
}

/// What is said of the request's one proof of the whole formula, and the record of it where a file
/// for that is asked for. The proof, which is that in the file at this path, or the input's where
/// the path is `-`, is judged while it is read. Where the formula's file has a fault, nothing of
/// the proof is read; where that can't be opened either, this is told.
pub(crate) fn judge_one<R, D, I, G, X>(
    call: &Call<'_, '_, R, G>,
    store: &mut D,
    path: &str,
    input: &mut I,
    telling: &mut Telling<'_, X>,
) -> Result<Recorded, Fault>
where
    R: AllocGlobal + Wait,
    D: Store,
    I: Source,
    G: Gate,
    X: Explain,
    requires store { D.failures store.old < 2 ^ 64 - 1 }
    requires input { I.failures input.old < 2 ^ 64 - 1 }
    requires alone { ((asked_in call.now.request.now).file ≡ None)
        × ((asked_in call.now.request.now).folder ≡ None) }
    ensures held { D.held store.new ≡ D.held store.old }
    ensures allowed { StaysAllowed (D.allows store.old) (D.allows store.new) }
    ensures made { IfOk result (λ made. IsSoBy (D.held store.old) (Some path.now)
        (I.remaining input.old) (λ given. IsRecordedFrom (D.held store.old)
        (asked_in call.now.request.now) given made.outcome.text.items made.outcome.map.items
        made.outcome.refuted made.bytes.items)) }
    ensures handed { IfOk result (λ made. made.outcome.refuted ≡ true → IsRefutedFrom D.hands
        (asked_in call.now.request.now) None) }
    ensures fault { IfErr result (λ fault. IsInputFault fault → IsSoBy (D.held store.old)
        (Some path.now) (I.remaining input.old)
        (λ given. IsRefusedFrom (D.held store.old) (asked_in call.now.request.now) given fault)) }
    ensures ok { OnOk result ((D.failures store.new ≡ D.failures store.old)
        × (I.failures input.new ≡ I.failures input.old)) }
    ensures err { IfErr result (IsJudgingFault (D.failures store.old + I.failures input.old)
        (D.failures store.new + I.failures input.new)) }
{
    match begin_one(call.rt.alloc(), store, call.request.formula) {
        Ok(one) => judge_below(call, store, one, path, input, telling),
        Err(fault) => {
            let fault = of_input(fault)?;
            find_proof(store, path)?;
            Err(fault)
        }
    }
}

/// Looks whether the proof at this path can be opened, if it isn't the input's.
fn find_proof<D: Store>(store: &mut D, path: &str) -> Result<(), DeviceFault>
    requires { D.failures store.old < 2 ^ 64 - 1 }
    ensures held { D.held store.new ≡ D.held store.old }
    ensures allowed { StaysAllowed (D.allows store.old) (D.allows store.new) }
    ensures found { OnOk result ((input : Option (List ℕ)) → (bytes : List ℕ)
        × IsTextAt (may_lie_at (D.held store.old)) (file_at path.now) input bytes) }
    ensures ok { OnOk result (D.failures store.new ≡ D.failures store.old) }
    ensures err { IfErr result
        (λ fault. IsDeviceFault (D.failures store.old) (D.failures store.new) fault) }
{
    if let Some(path) = file_at(path) {
        let file = store.open(path)?;
        store.close(file);
    }
    Ok(())
}

/// The same below the formula and the cube without a literal, which were read.
fn judge_below<R, D, I, G, X>(
    call: &Call<'_, '_, R, G>,
    store: &mut D,
    one: OneCube,
    path: &str,
    input: &mut I,
    telling: &mut Telling<'_, X>,
) -> Result<Recorded, Fault>
where
    R: AllocGlobal + Wait,
    D: Store,
    I: Source,
    G: Gate,
    X: Explain,
    requires store { D.failures store.old < 2 ^ 64 - 1 }
    requires input { I.failures input.old < 2 ^ 64 - 1 }
    requires case { IsCaseOf one.bundle.items one.case }
    requires tree { one.case.tree ≡ cube 1 }
    requires free { proof_for one.case.sections (Named (Cube 1)) ≡ None }
    ensures held { D.held store.new ≡ D.held store.old }
    ensures allowed { StaysAllowed (D.allows store.old) (D.allows store.new) }
    ensures made { IfOk result (λ made. IsRecordedWith
        (IsTextAt (may_lie_at (D.held store.old)) (file_at path.now) (I.remaining input.old))
        (asked_in call.now.request.now) one.bundle.items made.outcome.text.items
        made.outcome.map.items made.outcome.refuted made.bytes.items) }
    ensures fault { IfErr result (λ fault. IsInputFault fault → IsRefusedWith
        (IsTextAt (may_lie_at (D.held store.old)) (file_at path.now) (I.remaining input.old))
        one.bundle.items fault) }
    ensures ok { OnOk result ((D.failures store.new ≡ D.failures store.old)
        × (I.failures input.new ≡ I.failures input.old)) }
    ensures err { IfErr result (IsJudgingFault (D.failures store.old + I.failures input.old)
        (D.failures store.new + I.failures input.new)) }
{
    telling.tell_read(call.rt.alloc(), &one.bundle, b"\n");
    match file_at(path) {
        Some(file) => judge_proof_at(call, store, one, file),
        None => judge_proof_from(call, one, input, 0),
    }
}

/// The same with the proof in the file at this path, which is opened once.
fn judge_proof_at<R, D, G>(
    call: &Call<'_, '_, R, G>,
    store: &mut D,
    one: OneCube,
    path: &str,
) -> Result<Recorded, Fault>
where
    R: AllocGlobal + Wait,
    D: Store,
    G: Gate,
    requires count { D.failures store.old < 2 ^ 64 - 1 }
    requires case { IsCaseOf one.bundle.items one.case }
    requires tree { one.case.tree ≡ cube 1 }
    requires free { proof_for one.case.sections (Named (Cube 1)) ≡ None }
    ensures held { D.held store.new ≡ D.held store.old }
    ensures allowed { StaysAllowed (D.allows store.old) (D.allows store.new) }
    ensures made { IfOk result (λ made. IsRecordedWith (may_lie_at (D.held store.old) path.now)
        (asked_in call.now.request.now) one.bundle.items made.outcome.text.items
        made.outcome.map.items made.outcome.refuted made.bytes.items) }
    ensures fault { IfErr result (λ fault. IsInputFault fault
        → IsRefusedWith (may_lie_at (D.held store.old) path.now) one.bundle.items fault) }
    ensures ok { OnOk result (D.failures store.new ≡ D.failures store.old) }
    ensures err { IfErr result (IsJudgingFault (D.failures store.old) (D.failures store.new)) }
{
    let length = store.length(path).unwrap_or(0);
    let mut file = store.open(path)?;
    let made = judge_proof_from(call, one, &mut file, length);
    store.close(file);
    made
}

/// The same with the proof of so many bytes that a source gives up to its end.
fn judge_proof_from<R, S, G>(
    call: &Call<'_, '_, R, G>,
    one: OneCube,
    source: &mut S,
    length: u64,
) -> Result<Recorded, Fault>
where
    R: AllocGlobal + Wait,
    S: Source,
    G: Gate,
    requires count { S.failures source.old < 2 ^ 64 - 1 }
    requires case { IsCaseOf one.bundle.items one.case }
    requires tree { one.case.tree ≡ cube 1 }
    requires free { proof_for one.case.sections (Named (Cube 1)) ≡ None }
    ensures made { IfOk result (λ made. IsRecordedWith (IsLeft (S.remaining source.old))
        (asked_in call.now.request.now) one.bundle.items made.outcome.text.items
        made.outcome.map.items made.outcome.refuted made.bytes.items) }
    ensures fault { IfErr result (λ fault. IsInputFault fault
        → IsRefusedWith (IsLeft (S.remaining source.old)) one.bundle.items fault) }
    ensures ok { OnOk result (S.failures source.new ≡ S.failures source.old) }
    ensures err { IfErr result (IsJudgingFault (S.failures source.old) (S.failures source.new)) }
{
    let (rt, request, gate) = (call.rt, call.request, call.gate);
    let draws = request.map.is_some();
    let outcome = judge_proof_of(rt, &one, source, length, request.settings, gate, draws)?;
    let OneCube { bundle, case: _ } = one;
    let bytes = record_below(rt.alloc(), request, bundle, &outcome.text)?;
    Ok(Recorded { outcome, bytes })
}

/// The record of this report on a bundle with one section behind it, below the label line of cube
/// 1, where a file for that is asked for.
fn record_below(
    alloc: Global,
    request: &Request<'_>,
    mut bundle: Vec<u8>,
    report: &[u8],
) -> Result<Vec<u8>, AllocError>
    ensures { IfOk result (λ made. (out : List ℕ) → (asked_in request.now).out ≡ Some out
        → made.items ≡ digest_line (icnf_text (bundle.items ++ codes "\nl 1\n")) ++ report.now) }
{
    bundle.extend_from_slice(b"\nl 1\n")?;
    let mut made = begin_record(alloc, request.out, icnf_part(&bundle))?;
    end_record(&mut made, request.out, report)?;
    Ok(made)
}
