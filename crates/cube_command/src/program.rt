//! The program: from its words and its streams to its status.

ghost use Rattle.std.specs.Prelude.{◌≡◌, ◌≢◌, ◌⊎◌, ◌<◌, ◌+◌, ◌^◌, ◌-◌, List, ℕ, length, map};
ghost use Rattle.std.specs.Prelude.{option_map, true, false, None, Some, IfOk, IfErr, OnOk, OnErr};
ghost use Rattle.std.specs.Prelude.{IsErrOf, IfSome, [], Option};
ghost use Rattle.std.specs.Io.KnownBytes.{Appends, Keeps};
ghost use Rattle.cube_report.specs.Device.{AppendsBeginning, IsDeviceFault};
ghost use Rattle.bundle_files.specs.Files.{StaysAllowed, may_lie_at};
ghost use Rattle.bundle_files.specs.Formula.{IsReadBy};
ghost use Rattle.bundle_files.specs.Judging.{IsOutcomeOf, IsRefusedOf, IsJudgingFault};
ghost use Rattle.bundle_files.specs.Sections.{IsCaseOf};
ghost use Rattle.cube_report.specs.Faults.{IsInputFault};
ghost use Rattle.cube_command.specs.Headline.{IsPublished, IsRefutedAsHanded, IsSound};
ghost use Rattle.cube_command.specs.Headline.{IsRefutedFrom, IsSoundAsHanded};
ghost use Rattle.cube_command.specs.Words.{HaveTwoPaths, AreTaken, asked_of, IsElsewhere, IsInput};
ghost use Rattle.cube_command.specs.Sources.{IsSoBy};
ghost use Rattle.cube_command.specs.Words.{GoesWith, nothing_asked};
ghost use Rattle.cube_command.specs.Record.{record_text};
ghost use Rattle.cube_command.specs.Program.{IsStatus, IsMade, IsReported, IsRefused, IsBegun};
ghost use Rattle.cube_command.specs.Program.{IsLineWritten, fault_line, AllowsFaults};
ghost use Rattle.cube_command.specs.Program.{AllowsPicturesFor, AllowsRecordsFor};
ghost use Rattle.cube_command.specs.Program.{AllowsReportsFor, IsRefusedFrom};
ghost use Rattle.cube_command.specs.Inner.Recorded.{IsRecordedFor, IsRecordedFrom, IsRunRecorded};
ghost use Rattle.command_words.specs.Request.{asked_in};

use crate::asked::{Telling, fault_in, file_of};
use crate::call::Call;
use crate::one_proof::judge_one;
use crate::open::{names_asked, shown};
use crate::record::{begin_record, end_record};
use crate::telling::{tell_refused, tell_run};
use crate::while_read::judge_once;
use bundle_files::{Inputs, ReadBundle, Spared, Store, judge_with_folder, read_from};
use command_words::{Request, request_of};
use cube_report::{DeviceFault, Explain, Fault, Gate, Outcome, Sink, Source, icnf_part, write_all};
use run_watch::{Beside, Log, Watch};
use std::alloc::Global;
use std::convert::AsStr;
use std::sync::Wait;
use std::thread::Threads;

/// The program on these words, which are those after its name: `[--workers N] [--cut D] [--formula
/// CNF] [--proof LRAT] [--proofs DIR] [--progress] [--explain] [--list-open] [--map SVG] [--record
/// OUT] [--log LOG] [FILE]`. It reads a bundle from FILE, or from `input` where there is none, and
/// writes the report to `output` or, where there is no report, one line to `errors`. Files are
/// found by `store`. Both writers have to write at once, without a buffer of their own. A bundle of
/// `input` or of FILE is judged while it is read, unless `--proofs` is there.
///
/// With `--formula CNF` the clauses come from that file, a DIMACS text, and FILE adds cubes and
/// sections, and no clause: the bundle is that text with its problem line overwritten by `p inccnf`
/// and blanks, a line end, and FILE's text.
///
/// With `--proof LRAT` and without FILE there is one proof of CNF's whole formula, a text or
/// binary: that file, or `input` where LRAT is `-`. It is judged as the only section of the text `a
/// 0`, `l 1` and the proof, in the place of FILE's. It is judged while it is read. Where CNF has a
/// fault, nothing of it is read; where it can't be opened either, that is told.
///
/// With `--proofs DIR` the proofs of that folder are added to the bundle: for each cube K and after
/// that for each missing leaf J, in order, the file `DIR/K.lrat` or `DIR/mJ.lrat`, where it is
/// there, as the section of its leaf. Each of them is read when a worker comes to its leaf, and
/// dropped when it is judged. Where one has a label line, or is for a leaf with a section of its
/// own, all are read again, one after the other, and judged while they are read. N workers check
/// the proofs, with boards cut at the depth D; `gate` is called beside each section, and with
/// `--progress` also `watch`, from the first read on, which may tell a person how far the run is,
/// on a device that it is lent: what it does there is not `errors`. With `--explain` so may
/// `explain` tell what was read, and where rejections and a fault come from; for that the iCNF text
/// of the bundle is kept. With `--map SVG` a picture of the tree is written to that file, made
/// anew, before the report; with `--record OUT` then a record to that one: the line `i ` with the
/// SHA-256 of the iCNF text of the bundle that was read, and the report. With `--log LOG` that file
/// is made anew by `log` before anything is read, and gets the report's line of each proof when it
/// is judged; a run for which all are read again logs them once more. What `log` does is not
/// `store`'s. No two of the three can be one file, nor one that is read: CNF, FILE, LRAT or
/// `DIR/NAME.lrat`, as their paths are written.
///
/// With `--list-open` `output` gets, in the report's place and in its order, the leaves that it
/// doesn't call refuted: a line K for cube K, mJ for missing leaf J. The record has the report.
///
/// Answers the status: 0 for a report that says refuted, 1 for one that says open, 2 where the
/// words can't be taken or ask for help or the version, after the parser's text on `errors`, 3
/// where the input is refused, 4 where memory or the start of a thread is refused, 5 where a device
/// failed: also where CNF, FILE or LRAT can't be opened, and where a file of DIR is there and can't
/// be read. A failed write to `errors` doesn't change it.
pub fn command<R, D, S, I, O, E, G, W, X, L>(
    rt: &R,
    store: &mut D,
    words: &[S],
    input: &mut I,
    output: &mut O,
    errors: &mut E,
    gate: &G,
    watch: &W,
    explain: &X,
    log: &L,
) -> u8
where
    R: AllocGlobal + Threads + Wait + Sync,
    D: Store,
    S: AsStr,
    I: Source,
    O: Sink,
    E: Sink,
    G: Gate + Sync,
    W: Gate + Watch + Sync,
    X: Explain,
    L: Log + Sync,
    requires store { D.failures store.old < 2 ^ 64 - 1 }
    requires input { I.failures input.old < 2 ^ 64 - 1 }
    requires output { O.failures output.old < 2 ^ 64 - 1 }
    requires errors { E.failures errors.old < 2 ^ 64 - 1 }

    // All that is written, also where the call doesn't return. To `output`: what is shown of the
    // report on the bundle that is judged.
    requires reports { AllowsReportsFor (O.allows output.old) (D.held store.old)
        (asked_of (map S.text words.now)) (I.remaining input.old) }
    // To the file for the picture, and to no other: the picture of that bundle.
    requires pictures { AllowsPicturesFor (D.allows store.old) (D.held store.old)
        (asked_of (map S.text words.now)) (I.remaining input.old) }
    // To the file for the record, and to no other: the record of that bundle.
    requires records { AllowsRecordsFor (D.allows store.old) (D.held store.old)
        (asked_of (map S.text words.now)) (I.remaining input.old) }
    // To `errors`: the line of a fault, which is that bundle's where it is one of the input; or the
    // parser's text, which no contract knows, where the words can't be taken.
    requires faults { AllowsFaults (E.allows errors.old) (D.held store.old)
        (asked_of (map S.text words.now)) (I.remaining input.old) }
    requires words { ¬ AreTaken (map S.text words.now)
        → (text : List ℕ) → E.allows errors.old text }

    // Status 0: the formula of the bundle that was read has no model.
    ensures sound { IsSound result (D.held store.old) (asked_of (map S.text words.now))
        (I.remaining input.old) }
    // So it is of what readings handed over, one of each file, whether or not it is known what lies
    // there: of the bundle's formula, and with `--formula` of that of the DIMACS text.
    ensures handed { IsSoundAsHanded result D.hands (asked_of (map S.text words.now))
        (I.remaining input.old) }
    // With `--formula` the text of that file is a DIMACS text of a formula that has no model.
    ensures published { IsPublished result (D.held store.old) (asked_of (map S.text words.now)) }

    ensures status { IsStatus result }
    // 0: exactly what is shown of the report was written, on that bundle with the proofs of DIR: it
    // says refuted. 1: it says open. What is shown is the report, and with `--list-open` its open
    // leaves.
    ensures refuted { result ≡ 0 → IsReported (D.held store.old) (D.held store.new)
        (asked_of (map S.text words.now)) (I.remaining input.old)
        (O.contents output.old) (O.contents output.new) true }
    ensures open { result ≡ 1 → IsReported (D.held store.old) (D.held store.new)
        (asked_of (map S.text words.now)) (I.remaining input.old)
        (O.contents output.old) (O.contents output.new) false }
    // Then nothing is written to `errors`.
    ensures quiet { result < 2 → errors.new ≡ errors.old }

    // No file changes but those for the picture and the record, and these only with a report, or
    // with 5.
    ensures elsewhere { (path : List ℕ) → IsElsewhere (asked_of (map S.text words.now)) path
        → D.held store.new path ≡ D.held store.old path }
    ensures undrawn { 1 < result → result < 5 → D.held store.new ≡ D.held store.old }
    // And no file changes that is read.
    ensures kept { (path : List ℕ) → IsInput (asked_of (map S.text words.now)) path
        → D.held store.new path ≡ D.held store.old path }

    // With every other status but 5 nothing is written to `output`; with 5 nothing is, or a
    // beginning of what is shown of the report where a write failed.
    ensures nothing { 1 < result → result < 5 → Keeps (O.contents output.old)
        (O.contents output.new) }
    ensures beginning { result ≡ 5 → Keeps (O.contents output.old) (O.contents output.new)
        ⊎ ((O.failures output.old < O.failures output.new)
        × IsBegun (D.held store.old) (asked_of (map S.text words.now)) (I.remaining input.old)
        (O.contents output.old) (O.contents output.new)) }

    // Status 2: the words can't be taken. They are refused exactly then, unless memory is refused,
    // and nothing is read; no words can be taken.
    ensures usage { AreTaken (map S.text words.now) → result ≢ 2 }
    ensures unread { result ≡ 2 → (store.new ≡ store.old) × (input.new ≡ input.old) }
    ensures taken { result ≢ 2 → result ≢ 4 → AreTaken (map S.text words.now) }
    ensures none { length words.now ≡ 0 → (result ≢ 2)
        × (asked_of (map S.text words.now) ≡ nothing_asked) }
    // Status 3: the bundle has a fault, and its first one is told; with `--formula` that file has
    // one, or the other text has clauses.
    ensures fault { result ≡ 3 → (fault : Fault) × IsInputFault fault
        × IsRefused (D.held store.old) (asked_of (map S.text words.now)) (I.remaining input.old)
        fault
        × IsLineWritten (E.contents errors.old) (E.contents errors.new) (E.failures errors.old)
        (E.failures errors.new) (fault_line fault) }
    // Status 4: want of memory or of a thread is told.
    ensures memory { result ≡ 4 →
        IsLineWritten (E.contents errors.old) (E.contents errors.new) (E.failures errors.old)
        (E.failures errors.new) (fault_line Fault.Memory)
        ⊎ IsLineWritten (E.contents errors.old) (E.contents errors.new) (E.failures errors.old)
        (E.failures errors.new) (fault_line Fault.Thread) }
    // Status 5: a device failed, and this is told. It stands where a call failed that reads or
    // writes the report, and only there, or where the file for a log that is asked for wasn't made:
    // then nothing was read or written. A file that is asked for and isn't there fails its call.
    ensures device { result ≡ 5 →
        IsLineWritten (E.contents errors.old) (E.contents errors.new) (E.failures errors.old)
        (E.failures errors.new) (fault_line Fault.Device) }
    ensures failed { D.failures store.old + I.failures input.old + O.failures output.old
        < D.failures store.new + I.failures input.new + O.failures output.new → result ≡ 5 }
    ensures broken { result ≡ 5 →
        (D.failures store.old + I.failures input.old + O.failures output.old
        < D.failures store.new + I.failures input.new + O.failures output.new)
        ⊎ (((asked_of (map S.text words.now)).log ≢ None)
        × (store.new ≡ store.old) × (input.new ≡ input.old)) }
{
    match request_of(rt.alloc(), words) {
        Ok(request) => {
            let beside = Beside {
                alloc: rt.alloc(),
                gate,
                watch,
                is_asked: request.progress,
                log,
            };
            let call = Call {
                rt,
                request: &request,
                gate: &beside,
            };
            let mut telling = Telling::new(rt.alloc(), explain, &request);
            beside.begins_to_read();
            let run = run_request(&call, store, input, output, &mut telling);
            beside.is_over();
            let fault = fault_in(&run);
            let status = tell_run(rt.alloc(), errors, run);
            telling.tell_fault(rt.alloc(), fault);
            status
        }
        Err(error) => tell_refused(rt.alloc(), errors, &error, b"cubeboard: F6 memory\n"),
    }
}

/// What the request asks for: whether the report that was written says refuted, or why there is
/// none.
fn run_request<R, D, I, O, G, W, X, L>(
    call: &Call<'_, '_, R, Beside<'_, G, W, L>>,
    store: &mut D,
    input: &mut I,
    output: &mut O,
    telling: &mut Telling<'_, X>,
) -> Result<bool, Fault>
where
    R: AllocGlobal + Threads + Wait + Sync,
    D: Store,
    I: Source,
    O: Sink,
    G: Gate + Sync,
    W: Gate + Sync,
    X: Explain,
    L: Log + Sync,
    requires store { D.failures store.old < 2 ^ 64 - 1 }
    requires input { I.failures input.old < 2 ^ 64 - 1 }
    requires output { O.failures output.old < 2 ^ 64 - 1 }
    requires reports { AllowsReportsFor (O.allows output.old) (D.held store.old)
        (asked_in call.now.request.now) (I.remaining input.old) }
    requires pictures { AllowsPicturesFor (D.allows store.old) (D.held store.old)
        (asked_in call.now.request.now) (I.remaining input.old) }
    requires records { AllowsRecordsFor (D.allows store.old) (D.held store.old)
        (asked_in call.now.request.now) (I.remaining input.old) }
    requires alone { GoesWith (asked_in call.now.request.now).proof
        (asked_in call.now.request.now).formula (asked_in call.now.request.now).file
        (asked_in call.now.request.now).folder }
    requires apart { HaveTwoPaths (asked_in call.now.request.now).picture
        (asked_in call.now.request.now).out }
    ensures report { IfOk result
        (IsReported (D.held store.old) (D.held store.new) (asked_in call.now.request.now)
        (I.remaining input.old) (O.contents output.old) (O.contents output.new)) }
    ensures elsewhere { (path : List ℕ) → IsElsewhere (asked_in call.now.request.now) path
        → D.held store.new path ≡ D.held store.old path }
    ensures undrawn { IfErr result
        (λ fault. fault ≢ Fault.Device → D.held store.new ≡ D.held store.old) }
    ensures fault { IfErr result
        (λ fault. IsInputFault fault → IsRefused (D.held store.old) (asked_in call.now.request.now)
        (I.remaining input.old) fault) }
    ensures nothing { IfErr result
        (λ fault. fault ≢ Fault.Device → Keeps (O.contents output.old) (O.contents output.new)) }
    ensures beginning { OnErr result (Keeps (O.contents output.old) (O.contents output.new)
        ⊎ ((O.failures output.old < O.failures output.new)
        × IsBegun (D.held store.old) (asked_in call.now.request.now) (I.remaining input.old)
        (O.contents output.old) (O.contents output.new))) }
    ensures handed { IfOk result (λ refuted. refuted ≡ true → IsRefutedAsHanded D.hands
        (asked_in call.now.request.now) (I.remaining input.old)) }
    ensures failed { D.failures store.old + I.failures input.old + O.failures output.old
        < D.failures store.new + I.failures input.new + O.failures output.new
        → IsErrOf result Fault.Device }
    ensures broken { IsErrOf result Fault.Device →
        (D.failures store.old + I.failures input.old + O.failures output.old
        < D.failures store.new + I.failures input.new + O.failures output.new)
        ⊎ (((asked_in call.now.request.now).log ≢ None)
        × (store.new ≡ store.old) × (input.new ≡ input.old)) }
{
    let (rt, request, beside) = (call.rt, call.request, call.gate);
    let spared = store.spare(
        rt.alloc(),
        &inputs_of(request),
        &[request.map, request.out, request.log],
    )?;
    let lines = beside.begins_log(request.log, &spared)?;
    let gates = beside.with_lines(lines.as_ref());
    let logged = Call {
        rt,
        request,
        gate: &gates,
    };
    run_sparing(&logged, store, input, output, telling, &spared)
}

/// The same where the log was begun, if one is asked for, writing over no file that is to be
/// spared.
fn run_sparing<R, D, I, O, G, X>(
    call: &Call<'_, '_, R, G>,
    store: &mut D,
    input: &mut I,
    output: &mut O,
    telling: &mut Telling<'_, X>,
    spared: &Spared,
) -> Result<bool, Fault>
where
    R: AllocGlobal + Threads + Wait + Sync,
    D: Store,
    I: Source,
    O: Sink,
    G: Gate + Sync,
    X: Explain,
    requires store { D.failures store.old < 2 ^ 64 - 1 }
    requires input { I.failures input.old < 2 ^ 64 - 1 }
    requires output { O.failures output.old < 2 ^ 64 - 1 }
    requires reports { AllowsReportsFor (O.allows output.old) (D.held store.old)
        (asked_in call.now.request.now) (I.remaining input.old) }
    requires pictures { AllowsPicturesFor (D.allows store.old) (D.held store.old)
        (asked_in call.now.request.now) (I.remaining input.old) }
    requires records { AllowsRecordsFor (D.allows store.old) (D.held store.old)
        (asked_in call.now.request.now) (I.remaining input.old) }
    requires alone { GoesWith (asked_in call.now.request.now).proof
        (asked_in call.now.request.now).formula (asked_in call.now.request.now).file
        (asked_in call.now.request.now).folder }
    requires apart { HaveTwoPaths (asked_in call.now.request.now).picture
        (asked_in call.now.request.now).out }
    ensures report { IfOk result
        (IsReported (D.held store.old) (D.held store.new) (asked_in call.now.request.now)
        (I.remaining input.old) (O.contents output.old) (O.contents output.new)) }
    ensures elsewhere { (path : List ℕ) → IsElsewhere (asked_in call.now.request.now) path
        → D.held store.new path ≡ D.held store.old path }
    ensures undrawn { IfErr result
        (λ fault. fault ≢ Fault.Device → D.held store.new ≡ D.held store.old) }
    ensures fault { IfErr result
        (λ fault. IsInputFault fault → IsRefused (D.held store.old) (asked_in call.now.request.now)
        (I.remaining input.old) fault) }
    ensures nothing { IfErr result
        (λ fault. fault ≢ Fault.Device → Keeps (O.contents output.old) (O.contents output.new)) }
    ensures beginning { OnErr result (Keeps (O.contents output.old) (O.contents output.new)
        ⊎ ((O.failures output.old < O.failures output.new)
        × IsBegun (D.held store.old) (asked_in call.now.request.now) (I.remaining input.old)
        (O.contents output.old) (O.contents output.new))) }
    ensures handed { IfOk result (λ refuted. refuted ≡ true → IsRefutedAsHanded D.hands
        (asked_in call.now.request.now) (I.remaining input.old)) }
    ensures failed { D.failures store.old + I.failures input.old + O.failures output.old
        < D.failures store.new + I.failures input.new + O.failures output.new
        → IsErrOf result Fault.Device }
    ensures broken { IsErrOf result Fault.Device →
        D.failures store.old + I.failures input.old + O.failures output.old
        < D.failures store.new + I.failures input.new + O.failures output.new }
{
    let (rt, request) = (call.rt, call.request);
    let made = judge_request(call, store, input, telling)?;
    let names = names_asked(rt.alloc(), request.list_open, &made.outcome.text)?;
    let given = shown(request.list_open, &made.outcome.text, &names);
    write_outcome(store, output, request, &made, given, spared)?;
    telling.tell_report(rt.alloc(), &made.outcome.text);
    Ok(made.outcome.refuted)
}

/// The files that a request has read.
fn inputs_of<'a>(request: &Request<'a>) -> Inputs<'a> {
    Inputs {
        formula: request.formula,
        file: file_of(request),
        proofs: request.proofs,
    }
}

/// What is said of a bundle, and the record of it where a file for that is asked for.
#[derive(Drop)]
pub(crate) struct Recorded {
    pub(crate) outcome: Outcome,
    pub(crate) bytes: Vec<u8>,
}

/// What the request's bundle is said to be, and the record of it where a file for that is asked
/// for.
fn judge_request<R, D, I, G, X>(
    call: &Call<'_, '_, R, G>,
    store: &mut D,
    input: &mut I,
    telling: &mut Telling<'_, X>,
) -> Result<Recorded, Fault>
where
    R: AllocGlobal + Threads + Wait + Sync,
    D: Store,
    I: Source,
    G: Gate + Sync,
    X: Explain,
    requires store { D.failures store.old < 2 ^ 64 - 1 }
    requires input { I.failures input.old < 2 ^ 64 - 1 }
    requires alone { GoesWith (asked_in call.now.request.now).proof
        (asked_in call.now.request.now).formula (asked_in call.now.request.now).file
        (asked_in call.now.request.now).folder }
    ensures held { D.held store.new ≡ D.held store.old }
    ensures allowed { StaysAllowed (D.allows store.old) (D.allows store.new) }
    ensures made { IfOk result (λ made. IsRecordedFor (D.held store.old)
        (asked_in call.now.request.now) (I.remaining input.old)
        made.outcome.text.items made.outcome.map.items made.outcome.refuted made.bytes.items) }
    ensures handed { IfOk result (λ made. made.outcome.refuted ≡ true → IsRefutedAsHanded D.hands
        (asked_in call.now.request.now) (I.remaining input.old)) }
    ensures fault { IfErr result (λ fault. IsInputFault fault → IsRefused (D.held store.old)
        (asked_in call.now.request.now) (I.remaining input.old) fault) }
    ensures ok { OnOk result ((D.failures store.new ≡ D.failures store.old)
        × (I.failures input.new ≡ I.failures input.old)) }
    ensures err { IfErr result (IsJudgingFault (D.failures store.old + I.failures input.old)
        (D.failures store.new + I.failures input.new)) }
{
    match call.request.proof {
        Some(path) => judge_one(call, store, path, input, telling),
        None => judge_cubes(call, store, input, telling),
    }
}

/// The same with cubes and their proofs. The bundle is read whole first only where a folder's
/// proofs go with it.
fn judge_cubes<R, D, I, G, X>(
    call: &Call<'_, '_, R, G>,
    store: &mut D,
    input: &mut I,
    telling: &mut Telling<'_, X>,
) -> Result<Recorded, Fault>
where
    R: AllocGlobal + Threads + Wait + Sync,
    D: Store,
    I: Source,
    G: Gate + Sync,
    X: Explain,
    requires store { D.failures store.old < 2 ^ 64 - 1 }
    requires input { I.failures input.old < 2 ^ 64 - 1 }
    ensures held { D.held store.new ≡ D.held store.old }
    ensures allowed { StaysAllowed (D.allows store.old) (D.allows store.new) }
    ensures made { IfOk result (λ made. IsRecordedFrom (D.held store.old)
        (asked_in call.now.request.now) (I.remaining input.old)
        made.outcome.text.items made.outcome.map.items made.outcome.refuted made.bytes.items) }
    ensures handed { IfOk result (λ made. made.outcome.refuted ≡ true → IsRefutedFrom D.hands
        (asked_in call.now.request.now) (I.remaining input.old)) }
    ensures fault { IfErr result (λ fault. IsInputFault fault → IsRefusedFrom (D.held store.old)
        (asked_in call.now.request.now) (I.remaining input.old) fault) }
    ensures ok { OnOk result ((D.failures store.new ≡ D.failures store.old)
        × (I.failures input.new ≡ I.failures input.old)) }
    ensures err { IfErr result (IsJudgingFault (D.failures store.old + I.failures input.old)
        (D.failures store.new + I.failures input.new)) }
{
    match call.request.proofs {
        Some(folder) => judge_read(call, store, folder, input, telling),
        None => judge_once(call, store, input, telling),
    }
}

/// What is said of the request's bundle, which is read whole, with the proofs of this folder.
fn judge_read<R, D, I, G, X>(
    call: &Call<'_, '_, R, G>,
    store: &mut D,
    folder: &str,
    input: &mut I,
    telling: &mut Telling<'_, X>,
) -> Result<Recorded, Fault>
where
    R: AllocGlobal + Threads + Wait + Sync,
    D: Store,
    I: Source,
    G: Gate + Sync,
    X: Explain,
    requires store { D.failures store.old < 2 ^ 64 - 1 }
    requires input { I.failures input.old < 2 ^ 64 - 1 }
    requires folder { (asked_in call.now.request.now).folder ≡ Some folder.now }
    ensures held { D.held store.new ≡ D.held store.old }
    ensures allowed { StaysAllowed (D.allows store.old) (D.allows store.new) }
    ensures made { IfOk result (λ made. IsRecordedFrom (D.held store.old)
        (asked_in call.now.request.now) (I.remaining input.old)
        made.outcome.text.items made.outcome.map.items made.outcome.refuted made.bytes.items) }
    ensures handed { IfOk result (λ made. made.outcome.refuted ≡ true → IsRefutedFrom D.hands
        (asked_in call.now.request.now) (I.remaining input.old)) }
    ensures fault { IfErr result (λ fault. IsInputFault fault → IsRefusedFrom (D.held store.old)
        (asked_in call.now.request.now) (I.remaining input.old) fault) }
    ensures ok { OnOk result ((D.failures store.new ≡ D.failures store.old)
        × (I.failures input.new ≡ I.failures input.old)) }
    ensures err { IfErr result (IsJudgingFault (D.failures store.old + I.failures input.old)
        (D.failures store.new + I.failures input.new)) }
{
    let (rt, request) = (call.rt, call.request);
    let (formula, file) = (request.formula, request.file);
    let read = read_from(rt.alloc(), store, input, formula, file, true)?;
    telling.tell_bundle(rt.alloc(), &read.bundle);
    judge_recorded(call, store, read, folder, request.map.is_some())
}

/// Judges what was read, and makes the record where a file for it is asked for.
fn judge_recorded<R, D, G>(
    call: &Call<'_, '_, R, G>,
    store: &mut D,
    read: ReadBundle,
    folder: &str,
    draws: bool,
) -> Result<Recorded, Fault>
where
    R: AllocGlobal + Threads + Wait + Sync,
    D: Store,
    G: Gate + Sync,
    requires count { D.failures store.old < 2 ^ 64 - 1 }
    requires case { IfSome read.case (IsCaseOf read.bundle.items) }
    requires folder { (asked_in call.now.request.now).folder ≡ Some folder.now }
    ensures held { D.held store.new ≡ D.held store.old }
    ensures allowed { StaysAllowed (D.allows store.old) (D.allows store.new) }
    ensures outcome { IfOk result (λ made. IsOutcomeOf (D.held store.old)
        (asked_in call.now.request.now).folder read.bundle.items draws
        made.outcome.text.items made.outcome.map.items made.outcome.refuted) }
    ensures record { IfOk result (λ made. (path : List ℕ)
        → (asked_in call.now.request.now).out ≡ Some path
        → made.bytes.items ≡ record_text read.bundle.items made.outcome.text.items) }
    ensures fault { IfErr result (λ fault. IsInputFault fault → IsRefusedOf (D.held store.old)
        (asked_in call.now.request.now).folder read.bundle.items fault) }
    ensures ok { OnOk result (D.failures store.new ≡ D.failures store.old) }
    ensures err { IfErr result (IsJudgingFault (D.failures store.old) (D.failures store.new)) }
{
    let (rt, request, gate) = (call.rt, call.request, call.gate);
    let mut made = begin_record(rt.alloc(), request.out, icnf_part(&read.bundle))?;
    let settings = request.settings;
    let outcome = judge_with_folder(rt, store, read, folder, settings, gate, draws)?;
    end_record(&mut made, request.out, &outcome.text)?;
    Ok(Recorded {
        outcome,
        bytes: made,
    })
}

/// Writes the picture and the record, where files for them are asked for, and then what is shown of
/// the report.
fn write_outcome<D: Store, O: Sink>(
    store: &mut D,
    output: &mut O,
    request: &Request<'_>,
    made: &Recorded,
    given: &[u8],
    spared: &Spared,
) -> Result<(), DeviceFault>
    requires store { D.failures store.old < 2 ^ 64 - 1 }
    requires output { O.failures output.old < 2 ^ 64 - 1 }
    requires report { O.allows output.old given.now }
    requires picture { (path : List ℕ) → (asked_in request.now).picture ≡ Some path
        → D.allows store.old path made.now.outcome.map.items }
    requires recorded { (path : List ℕ) → (asked_in request.now).out ≡ Some path
        → D.allows store.old path made.now.bytes.items }
    requires apart { HaveTwoPaths (asked_in request.now).picture (asked_in request.now).out }
    ensures drawn { OnOk result (IsMade (D.held store.new) (asked_in request.now).picture
        made.now.outcome.map.items) }
    ensures recorded { OnOk result (IsMade (D.held store.new) (asked_in request.now).out
        made.now.bytes.items) }
    ensures elsewhere { (path : List ℕ) → IsElsewhere (asked_in request.now) path
        → D.held store.new path ≡ D.held store.old path }
    ensures undrawn { IfErr result
        (λ fault. fault ≢ DeviceFault.Device → D.held store.new ≡ D.held store.old) }
    ensures written { OnOk result (Appends (O.contents output.old) (O.contents output.new)
        given.now) }
    ensures ok { OnOk result ((D.failures store.new ≡ D.failures store.old)
        × (O.failures output.new ≡ O.failures output.old)) }
    ensures nothing { IfErr result (λ fault. fault ≢ DeviceFault.Device
        → Keeps (O.contents output.old) (O.contents output.new)) }
    ensures beginning { OnErr result (Keeps (O.contents output.old) (O.contents output.new)
        ⊎ ((O.failures output.old < O.failures output.new)
        × AppendsBeginning (O.contents output.old) (O.contents output.new)
        given.now)) }
    ensures err { IfErr result (λ fault. IsDeviceFault
        (D.failures store.old + O.failures output.old)
        (D.failures store.new + O.failures output.new) fault) }
{
    write_picture(store, request.map, &made.outcome.map, spared)?;
    write_record(store, request.out, &made.bytes, spared)?;
    write_all(output, given)
}

/// Writes the picture, where a file for it is asked for.
fn write_picture<D: Store>(
    store: &mut D,
    path: Option<&str>,
    picture: &[u8],
    spared: &Spared,
) -> Result<(), DeviceFault>
    requires store { D.failures store.old < 2 ^ 64 - 1 }
    requires picture { (at : List ℕ) → option_map (λ path. path.now) path ≡ Some at
        → D.allows store.old at picture.now }
    ensures drawn { OnOk result (IsMade (D.held store.new)
        (option_map (λ path. path.now) path.entry) picture.now) }
    ensures elsewhere { (other : List ℕ) → option_map (λ path. path.now) path.entry ≢ Some other
        → D.held store.new other ≡ D.held store.old other }
    ensures allowed { OnOk result ((other bytes : List ℕ)
        → option_map (λ path. path.now) path.entry ≢ Some other
        → D.allows store.old other bytes → D.allows store.new other bytes) }
    ensures undrawn { IfErr result
        (λ fault. fault ≢ DeviceFault.Device → D.held store.new ≡ D.held store.old) }
    ensures ok { OnOk result (D.failures store.new ≡ D.failures store.old) }
    ensures err { IfErr result
        (λ fault. IsDeviceFault (D.failures store.old) (D.failures store.new) fault) }
{
    match path {
        Some(path) => store.write(path, picture, spared),
        None => Ok(()),
    }
}

/// Writes the record, where a file for it is asked for. The picture may lie in its file by now, so
/// each failure is one of the device.
fn write_record<D: Store>(
    store: &mut D,
    path: Option<&str>,
    made: &[u8],
    spared: &Spared,
) -> Result<(), DeviceFault>
    requires store { D.failures store.old < 2 ^ 64 - 1 }
    requires recorded { (at : List ℕ) → option_map (λ path. path.now) path ≡ Some at
        → D.allows store.old at made.now }
    ensures recorded { OnOk result (IsMade (D.held store.new)
        (option_map (λ path. path.now) path.entry) made.now) }
    ensures elsewhere { (other : List ℕ) → option_map (λ path. path.now) path.entry ≢ Some other
        → D.held store.new other ≡ D.held store.old other }
    ensures ok { OnOk result (D.failures store.new ≡ D.failures store.old) }
    ensures err { IfErr result (λ fault. fault ≡ DeviceFault.Device) }
    ensures failed { OnErr result (D.failures store.new ≡ D.failures store.old + 1) }
{
    match path {
        Some(path) => store.write_counted(path, made, spared),
        None => Ok(()),
    }
}
