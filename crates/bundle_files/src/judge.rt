//! What is said of a bundle that was read, with the proofs of a folder.

ghost use Rattle.std.specs.Prelude.{◌≡◌, ◌≢◌, ◌<◌, ◌^◌, ◌-◌, ◌+◌, ◌⊎◌, ℕ, List, All, IfOk, IfErr};
ghost use Rattle.std.specs.Prelude.{IfSome, OnOk, option_map, Some, vec_len, []};
ghost use Rattle.cube_report.specs.Faults.{IsInputFault};
ghost use Rattle.cube_report.specs.Mark.{Mark};
ghost use Rattle.cube_report.specs.Stated.{IsWrittenBy};
ghost use Rattle.proof_folder.specs.Given.{AreFoundApart};
ghost use Rattle.case_core.specs.Target.{Target};
ghost use Rattle.case_core.specs.Sections.{IsCaseOf, IsFaultOf};
ghost use Rattle.file_store.specs.Files.{StaysAllowed, held_for};
ghost use Rattle.bundle_files.specs.Judging.{IsOutcomeOf, IsRefusedOf, IsJudgingFault};
ghost use Rattle.bundle_files.specs.WhileRead.{IsRefusedBy, IsRunOf};
ghost use Rattle.cube_report.specs.Device.{IsDeviceFault};

use crate::formula::{BegunBundle, ReadBundle};
use crate::while_read::{judge_while_read, read_front};
use case_core::{Case, CaseFault, read_bundle};
use cube_report::{DeviceFault, Fault, Gate, Outcome, Settings, Stream, judge_apart};
use file_store::Store;
use std::alloc::Global;
use std::sync::Wait;
use std::thread::Threads;

/// What a run with a folder's proofs is asked for: the folder, by how many workers and at which cut
/// they are judged, and whether a picture of the tree is drawn.
#[derive(Clone, Copy)]
struct FolderRun<'a> {
    folder: &'a str,
    settings: Settings,
    draws: bool,
}

/// What a run says of a bundle that was read, with the proofs of a folder, by as many workers and
/// at the cut that the settings say, and with a picture of the tree where `draws` asks for one; or
/// the first fault of the bundle with these proofs. Where the bundle's case was made when it was
/// read, it isn't read again.
///
/// Each proof of the folder is judged while it is read, when a worker comes to its leaf, and the
/// gate is called as `judge_apart` says. Where one has a label line, or is for a leaf with a
/// section of its own, the bundle with all of them is judged while it is read, as one text. Then
/// the gate is called for a second run, as `judge_while_read` says.
///
/// `Device` where a file is there and can't be read, before everything else; `Memory` and `Thread`
/// may stand in the place of any other answer.
pub fn judge_with_folder<R, D, G>(
    rt: &R,
    store: &mut D,
    read: ReadBundle,
    folder: &str,
    settings: Settings,
    gate: &G,
    draws: bool,
) -> Result<Outcome, Fault>
where
    R: AllocGlobal + Threads + Wait + Sync,
    D: Store,
    G: Gate + Sync,
    // One more failed read can be counted.
    requires count { D.failures store.old < 2 ^ 64 - 1 }
    // The case that was made is the bundle's.
    requires case { IfSome read.case (IsCaseOf read.bundle.items) }
    // The store holds what it held.
    ensures held { D.held store.new ≡ D.held store.old }
    ensures allowed { StaysAllowed (D.allows store.old) (D.allows store.new) }
    // It is what a run on the bundle with the folder's proofs promises.
    ensures outcome { IfOk result (λ outcome. IsOutcomeOf (D.held store.old) (Some folder.now)
        read.bundle.items draws outcome.text.items outcome.map.items outcome.refuted) }
    // A fault of the input is the first one of that bundle.
    ensures fault { IfErr result (λ fault. IsInputFault fault → IsRefusedOf (D.held store.old)
        (Some folder.now) read.bundle.items fault) }
    // The device is at fault exactly where a read failed.
    ensures ok { OnOk result (D.failures store.new ≡ D.failures store.old) }
    ensures err { IfErr result (IsJudgingFault (D.failures store.old) (D.failures store.new)) }
{
    let ReadBundle { bundle, case } = read;
    let case = case_of(rt.alloc(), &bundle, case)?;
    let _few = (case.tree().cube_count(), case.tree().missing_count());
    let run = FolderRun {
        folder,
        settings,
        draws,
    };
    if let Some(outcome) = judge_leaves(rt, store, &case, run, gate)? {
        return Ok(outcome);
    }
    let text = store.folder(rt.alloc(), bundle, folder, case.tree())?;
    judge_in_order(rt, store, text, settings, gate, draws)
}

/// What a run says of a bundle with a folder's proofs, as one text that is judged while it is read.
fn judge_in_order<R, D, G>(
    rt: &R,
    store: &mut D,
    text: D::Folder,
    settings: Settings,
    gate: &G,
    draws: bool,
) -> Result<Outcome, Fault>
where
    R: AllocGlobal + Threads + Wait + Sync,
    D: Store,
    G: Gate + Sync,
    requires count { D.failures store.old < 2 ^ 64 - 1 }
    requires none { D.Folder.failures text ≡ 0 }
    ensures held { D.held store.new ≡ D.held store.old }
    ensures allowed { StaysAllowed (D.allows store.old) (D.allows store.new) }
    ensures outcome { IfOk result (λ outcome. IsRunOf (D.Folder.gives text) draws
        outcome.text.items outcome.map.items outcome.refuted) }
    ensures fault { IfErr result
        (λ fault. IsInputFault fault → IsRefusedBy (D.Folder.gives text) fault) }
    ensures ok { OnOk result (D.failures store.new ≡ D.failures store.old) }
    ensures err { IfErr result (IsJudgingFault (D.failures store.old) (D.failures store.new)) }
{
    let mut text = text;
    let outcome = judge_text(rt, &mut text, settings, gate, draws);
    store.settle_folder(text);
    outcome
}

/// What a run says of the bundle that a stream gives. Where that has a fault, it is read to its end
/// first: a read that fails is told before it.
fn judge_text<R, S, G>(
    rt: &R,
    source: &mut S,
    settings: Settings,
    gate: &G,
    draws: bool,
) -> Result<Outcome, Fault>
where
    R: AllocGlobal + Threads + Wait + Sync,
    S: Stream,
    G: Gate + Sync,
    requires { S.failures source.old < 2 ^ 64 - 1 }
    ensures outcome { IfOk result (λ outcome. IsRunOf (S.gives source.old) draws
        outcome.text.items outcome.map.items outcome.refuted) }
    ensures fault { IfErr result
        (λ fault. IsInputFault fault → IsRefusedBy (S.gives source.old) fault) }
    ensures ok { OnOk result (S.failures source.new ≡ S.failures source.old) }
    ensures err { IfErr result (IsJudgingFault (S.failures source.old) (S.failures source.new)) }
{
    let begun = BegunBundle {
        text: Vec::new(rt.alloc()),
        said: None,
    };
    let front = read_front(rt.alloc(), begun, source)?;
    match judge_while_read(rt, front, source, settings, gate, draws) {
        Ok(outcome) => Ok(outcome),
        Err(fault) => {
            let fault = of_input(fault)?;
            pass_rest(source)?;
            Err(fault)
        }
    }
}

/// A fault of the input, as it is. Any other is told at once.
pub fn of_input(fault: Fault) -> Result<Fault, Fault>
    // One of the input comes of itself.
    ensures ok { IfOk result (λ kept. (kept ≡ fault) × IsInputFault kept) }
    // Any other fault is the one that is told.
    ensures err { IfErr result (λ told. (told ≡ fault) × (¬ IsInputFault told)) }
{
    match fault {
        Fault::Memory => Err(Fault::Memory),
        Fault::Device => Err(Fault::Device),
        Fault::Thread => Err(Fault::Thread),
        fault => Ok(fault),
    }
}

/// Reads what a stream gives up to its end, and drops it.
fn pass_rest<S: Stream>(source: &mut S) -> Result<(), DeviceFault>
    requires { S.failures source.old < 2 ^ 64 - 1 }
    ensures over { OnOk result (S.gives source.new []) }
    ensures ok { OnOk result (S.failures source.new ≡ S.failures source.old) }
    ensures err { IfErr result
        (λ fault. IsDeviceFault (S.failures source.old) (S.failures source.new) fault) }
{
    let mut buffer = [0u8; 65536];
    for _ in 0..u64::MAX {
        if source.read(&mut buffer)? == 0 {
            return Ok(());
        }
    }
    Err(DeviceFault::Memory)
}

/// The case of a bundle: the one that was made of it, if one was.
fn case_of(alloc: Global, bundle: &[u8], case: Option<Case>) -> Result<Case, CaseFault>
    requires { IfSome case (IsCaseOf bundle.now) }
    ensures ok { IfOk result (IsCaseOf bundle.now) }
    ensures err { IfErr result (λ fault. fault ≢ CaseFault.Memory → IsFaultOf bundle.now fault) }
{
    match case {
        Some(case) => Ok(case),
        None => read_bundle(alloc, bundle),
    }
}

/// The same of the bundle's case: what is written is by marks that are right for its sections and
/// for the proofs of the folder.
fn judge_leaves<R, D, G>(
    rt: &R,
    store: &mut D,
    case: &Case,
    run: FolderRun<'_>,
    gate: &G,
) -> Result<Option<Outcome>, Fault>
where
    R: AllocGlobal + Threads + Wait + Sync,
    D: Store,
    G: Gate + Sync,
    requires { D.failures store.old < 2 ^ 64 - 1 }
    ensures held { D.held store.new ≡ D.held store.old }
    ensures allowed { StaysAllowed (D.allows store.old) (D.allows store.new) }
    ensures apart { IfOk result (λ some. IfSome some (λ outcome. (marks : List Mark)
        × AreFoundApart (held_for (D.held store.old) run.entry.folder.now) case.now marks
        × IsWrittenBy case.now marks run.entry.draws outcome.text.items outcome.map.items
        outcome.refuted)) }
    ensures fault { IfErr result (λ fault. ¬ IsInputFault fault) }
    ensures ok { OnOk result (D.failures store.new ≡ D.failures store.old) }
    ensures err { IfErr result (IsJudgingFault (D.failures store.old) (D.failures store.new)) }
{
    let FolderRun {
        folder,
        settings,
        draws,
    } = run;
    let readers = readers_of(rt.alloc(), store, folder, settings.workers())?;
    match judge_apart(rt, rt.alloc(), case, settings, gate, draws, readers) {
        Ok(outcome) => outcome,
        Err(reader) => {
            store.settle(reader);
            Err(Fault::Device)
        }
    }
}

/// Readers of the proofs in the folder at this path, one for each worker.
pub(crate) fn readers_of<D: Store>(
    alloc: Global,
    store: &D,
    folder: &str,
    workers: u32,
) -> Result<Vec<D::Reader>, Fault>
    ensures count { IfOk result (λ readers. vec_len readers ≡ workers) }
    ensures held { IfOk result (λ readers. All (λ reader. (target : Target)
        → D.Reader.held reader target ≡ held_for (D.held store.now) folder.now target)
        readers.items) }
    ensures fresh { IfOk result (λ readers.
        All (λ reader. D.Reader.failures reader ≡ 0) readers.items) }
    ensures memory { IfErr result (λ fault. fault ≡ Fault.Memory) }
{
    let mut readers = Vec::new(alloc);
    for _ in 0..workers {
        readers.push(store.reader(alloc, folder)?)?;
    }
    Ok(readers)
}
