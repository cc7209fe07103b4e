//! From the bytes that come in to the bytes that go out.

ghost use Rattle.std.specs.Prelude.{Bool, false, List, replicate, ◌≡◌, ◌≢◌, ◌↔◌, ◌⊎◌, ℕ, ◌<◌, ◌^◌};
ghost use Rattle.std.specs.Prelude.{◌-◌, ◌+◌, true, IfOk, IfErr, OnOk, OnErr, IfSome, IsErrOf};
ghost use Rattle.std.specs.Prelude.{All, vec_len};
ghost use Rattle.std.specs.Io.KnownBytes.{Keeps, Appends};
ghost use Rattle.split_tree.specs.SplitTree.{size};
ghost use Rattle.mark_board.specs.declared.mark.Mark.TheVariants.{Open};
ghost use Rattle.run_terms.specs.Faults.{IsInputFault};
ghost use Rattle.byte_flow.specs.Device.{AppendsBeginning, IsLeft};
ghost use Rattle.cube_report.specs.Stated.{IsStated, IsWrittenBy};
ghost use Rattle.case_core.specs.Target.{Target};
ghost use Rattle.mark_board.specs.declared.mark.Mark.{Mark};
ghost use Rattle.proof_folder.specs.Given.{AreFoundApart};
ghost use Rattle.proof_folder.specs.TargetProofs.{Known};
ghost use Rattle.mark_board.specs.Findings.{AreFindings};
ghost use Rattle.cube_report.specs.Correct.{IsReportOn, IsAnswerOn, IsCorrect, IsOutcome};
ghost use Rattle.cube_report.specs.Correct.{IsFaultOn, IsUnsatisfiable, SaysRefuted, map_if};
ghost use Rattle.cube_report.specs.Correct.{AllowsReports};

use crate::report::report_of;
use byte_flow::{Sink, Source, read_all, write_all};
use case_core::{Case, Examiner, read_bundle, take_bundle};
use check_crew::{CrewFault, Gate, Settings, TargetProofs, conquer, conquer_elsewhere};
use mark_board::Boards;
use run_terms::Fault;
use std::alloc::{AllocError, Global};
use std::sync::Wait;
use std::thread::Threads;
use tree_map::map_of;

/// What a run says of a bundle.
#[derive(Drop)]
pub struct Outcome {
    /// The report.
    pub text: Vec<u8>,
    /// The picture of the tree, as SVG, or nothing where none is drawn.
    pub map: Vec<u8>,
    /// Whether the report says refuted.
    pub refuted: bool,
}

/// Posts the finding of each section of the case to its boards, on which nothing is posted yet.
fn post_findings<'c>(
    alloc: Global,
    case: &'c Case,
    boards: &mut Boards<'c>,
) -> Result<(), AllocError>
    requires case { boards.old.case ≡ case.now }
    requires open { boards.old.marks ≡ replicate (size case.now.tree) Open }
    ensures case { OnOk result (boards.new.case ≡ case.now) }
    ensures findings { OnOk result (AreFindings case.now boards.new.marks) }
{
    let mut examiner = Examiner::over(alloc, case)?;
    let sections = case.sections();
    for section in sections {
        match examiner.examine(alloc, section.target)? {
            Some(finding) => {
                let _ = boards.post(finding);
            }
            None => unreachable!(),
        }
    }
    Ok(())
}

/// The picture by the boards' own marks where one is drawn, and otherwise nothing.
fn picture_by(alloc: Global, boards: &Boards<'_>, draws: bool) -> Result<Vec<u8>, AllocError>
    ensures { IfOk result (λ map. map.items ≡ map_if draws boards.now.case boards.now.marks) }
{
    if draws {
        return map_of(alloc, boards);
    }
    Ok(Vec::new(alloc))
}

/// The report by the boards' own marks, whether it says refuted, and the picture where `draws` asks
/// for one. `AllocError` where a growth was refused.
pub fn written_by(alloc: Global, boards: &Boards<'_>, draws: bool) -> Result<Outcome, AllocError>
    // All three are by the boards' marks.
    ensures { IfOk result (λ outcome. IsWrittenBy boards.now.case boards.now.marks draws
        outcome.text.items outcome.map.items outcome.refuted) }
{
    let text = report_of(alloc, boards)?;
    let map = picture_by(alloc, boards, draws)?;
    Ok(Outcome {
        text,
        map,
        refuted: boards.root_marked(),
    })
}

/// The report on a case, and whether it says refuted, by this thread and by one board for the whole
/// tree: on one thread a cut changes nothing that a caller sees.
fn outcome_alone(alloc: Global, case: &Case) -> Result<Outcome, AllocError>
    ensures { IfOk result (λ outcome. IsStated case.now false
        outcome.text.items outcome.map.items outcome.refuted) }
{
    let mut boards = Boards::new(alloc, case, 0)?;
    post_findings(alloc, case, &mut boards)?;
    written_by(alloc, &boards, false)
}

/// What a run says of a bundle that is handed over, by as many workers and at the cut that the
/// settings say, with a picture of the tree where `draws` asks for one; or the bundle's first
/// fault, where `Memory` or `Thread` may stand in the place of any other answer. The gate is called
/// as `conquer` says. The bundle's bytes are kept where they are while it is judged.
pub fn judge_bundle<T: Threads + Wait + Sync, G: Gate + Sync>(
    rt: &T,
    alloc: Global,
    bundle: Vec<u8>,
    settings: Settings,
    gate: &G,
    draws: bool,
) -> Result<Outcome, Fault>
    // The report and the picture are those of one case by the same marks, and the answer is true
    // only where the formula has no model.
    ensures outcome { IfOk result (λ outcome. IsOutcome bundle.items draws
        outcome.text.items outcome.map.items outcome.refuted) }
    // A fault of the input is one that the bundle has, and no device is at fault.
    ensures fault { IfErr result (λ fault. IsInputFault fault → IsFaultOn bundle.items fault) }
    ensures device { IfErr result (λ fault. fault ≢ Fault.Device) }
{
    let case = take_bundle(alloc, bundle)?;
    let boards = conquer(rt, alloc, &case, settings, gate)?;
    Ok(written_by(alloc, &boards, draws)?)
}

/// What is written of a case by the marks that a run with proofs elsewhere gives it, as
/// `conquer_elsewhere` says, which has one of `proofs` for each worker; or `None` where the run has
/// to be made with all proofs in one bundle. `Memory` or `Thread` may stand in the place of any
/// other answer but the outer fault, which says that a read failed and gives what met that.
pub fn judge_apart<T: Threads + Wait + Sync, G: Gate + Sync, P: TargetProofs + Send + Drop>(
    rt: &T,
    alloc: Global,
    case: &Case,
    settings: Settings,
    gate: &G,
    draws: bool,
    proofs: Vec<P>,
) -> Result<Result<Option<Outcome>, Fault>, P>
    requires workers { vec_len proofs ≡ settings.workers }
    requires fresh { All (λ one. P.failures one ≡ 0) proofs.items }
    // What is written is by marks that are right for the case's sections and for what lies
    // elsewhere.
    ensures apart { (known : Known)
        → All (λ one. (target : Target) → P.held one target ≡ known target) proofs.items
        → IfOk result (λ run. IfOk run (λ some. IfSome some (λ outcome.
        (marks : List Mark) × AreFoundApart known case.now marks
        × IsWrittenBy case.now marks draws outcome.text.items outcome.map.items
        outcome.refuted))) }
    ensures fault { IfOk result (λ run. IfErr run
        (λ fault. (fault ≡ Fault.Memory) ⊎ (fault ≡ Fault.Thread))) }
    ensures failed { IfErr result (λ one. P.failures one ≡ 1) }
{
    match conquer_elsewhere(rt, alloc, case, settings, gate, proofs)? {
        Ok(Some(boards)) => match written_by(alloc, &boards, draws) {
            Ok(outcome) => Ok(Ok(Some(outcome))),
            Err(_) => Ok(Err(Fault::Memory)),
        },
        Ok(None) => Ok(Ok(None)),
        Err(CrewFault::Memory) => Ok(Err(Fault::Memory)),
        Err(CrewFault::Thread) => Ok(Err(Fault::Thread)),
    }
}

/// The report on a bundle, by one thread, or the bundle's first fault; `Memory` may stand in the
/// place of any other answer where a growth is refused.
pub fn run_one(alloc: Global, bundle: &[u8]) -> Result<Vec<u8>, Fault>
    // The text is the report on the case that the bundle stands for.
    ensures text { IfOk result (λ text. IsReportOn bundle.now text.items) }
    // With the answer of its last line, it is all that a run promises.
    ensures correct { IfOk result
        (λ text. (answer : Bool) × IsCorrect bundle.now text.items answer) }
    // It says refuted only where the formula has no model.
    ensures sound { IfOk result (λ text. SaysRefuted text.items → IsUnsatisfiable bundle.now) }
    // Another bundle is refused for its first fault.
    ensures fault { IfErr result (λ fault. fault ≢ Fault.Memory → IsFaultOn bundle.now fault) }
{
    let case = read_bundle(alloc, bundle)?;
    let outcome = outcome_alone(alloc, &case)?;
    Ok(outcome.text)
}

/// The report on a bundle, by as many workers and at the cut that the settings say, or the bundle's
/// first fault; `Memory` or `Thread` may stand in the place of any other answer where a growth or
/// the start of a worker is refused. All workers that were started are joined before it answers.
/// The gate is called beside each section.
///
/// It answers as `run_one` does, whatever the settings and the gate.
pub fn run<T: Threads + Wait + Sync, G: Gate + Sync>(
    rt: &T,
    alloc: Global,
    bundle: &[u8],
    settings: Settings,
    gate: &G,
) -> Result<Vec<u8>, Fault>
    // The text is the report on the case that the bundle stands for.
    ensures text { IfOk result (λ text. IsReportOn bundle.now text.items) }
    // With the answer of its last line, it is all that a run promises.
    ensures correct { IfOk result
        (λ text. (answer : Bool) × IsCorrect bundle.now text.items answer) }
    // It says refuted only where the formula has no model.
    ensures sound { IfOk result (λ text. SaysRefuted text.items → IsUnsatisfiable bundle.now) }
    // Another bundle is refused for its first fault.
    ensures fault { IfErr result
        (λ fault. fault ≢ Fault.Memory → fault ≢ Fault.Thread → IsFaultOn bundle.now fault) }
{
    let outcome = judge_bundle(rt, alloc, bundle.to_vec(alloc)?, settings, gate, false)?;
    Ok(outcome.text)
}

/// Reads a bundle to the reader's end, and writes the report on it, which workers find as `run`
/// says; answers whether the formula is refuted.
///
/// Nothing but that report is written, whether the call returns or not. A read of 0 bytes is the
/// reader's end.
///
/// `Device` where a read or a write failed in this call, and where a write failed, a beginning of
/// the report was written.
pub fn run_io<T: Threads + Wait + Sync, R: Source, W: Sink, G: Gate + Sync>(
    rt: &T,
    alloc: Global,
    reader: &mut R,
    writer: &mut W,
    settings: Settings,
    gate: &G,
) -> Result<bool, Fault>
    requires reader { R.failures reader.old < 2 ^ 64 - 1 }
    requires writer { W.failures writer.old < 2 ^ 64 - 1 }
    // Nothing may be written but the report on what is read.
    requires allowed { (input : List ℕ) → IsLeft (R.remaining reader.old) input
        → AllowsReports (W.allows writer.old) input }

    // What is written is the report on what was read, and the answer tells whether it says refuted:
    // both of one case.
    ensures correct { IfOk result
        (λ answer. IfSome (R.remaining reader.old) (λ input. (text : List ℕ)
        × IsCorrect input text answer
        × Appends (W.contents writer.old) (W.contents writer.new) text)) }
    ensures written { OnOk result (IfSome (R.remaining reader.old) (λ input.
        (text : List ℕ) × IsReportOn input text
        × Appends (W.contents writer.old) (W.contents writer.new) text)) }
    ensures answer { IfOk result
        (λ answer. IfSome (R.remaining reader.old) (λ input. IsAnswerOn input answer)) }

    // It is true only where the formula has no model.
    ensures sound { IfOk result
        (λ answer. answer ≡ true → IfSome (R.remaining reader.old) IsUnsatisfiable) }

    // A fault of the input is that of what was read.
    ensures fault { IfErr result (λ fault. IsInputFault fault →
        IfSome (R.remaining reader.old) (λ input. IsFaultOn input fault)) }

    // Where no write failed, a fault has written nothing, and otherwise a beginning of the report
    // was written.
    ensures nothing { OnErr result (W.failures writer.new ≡ W.failures writer.old →
        Keeps (W.contents writer.old) (W.contents writer.new)) }
    ensures beginning { OnErr result
        (IfSome (R.remaining reader.old) (λ input. W.failures writer.new ≢ W.failures writer.old →
        (text : List ℕ) × IsReportOn input text
        × AppendsBeginning (W.contents writer.old) (W.contents writer.new) text)) }

    // The device is at fault exactly where a call failed.
    ensures device { IsErrOf result Fault.Device ↔
        (R.failures reader.old < R.failures reader.new
        ⊎ W.failures writer.old < W.failures writer.new) }
{
    let input = read_all(alloc, reader)?;
    write_report(rt, alloc, input, writer, settings, gate)
}

/// Writes the report on a bundle that is handed over, which workers find as `run` says; answers
/// whether the formula is refuted. The bundle's bytes are kept where they are while it is judged.
/// Nothing but that report is written, whether the call returns or not. `Device` where a write
/// failed in this call, and then a beginning of the report was written.
pub fn write_report<T: Threads + Wait + Sync, W: Sink, G: Gate + Sync>(
    rt: &T,
    alloc: Global,
    bundle: Vec<u8>,
    writer: &mut W,
    settings: Settings,
    gate: &G,
) -> Result<bool, Fault>
    // One more failed write can be counted.
    requires count { W.failures writer.old < 2 ^ 64 - 1 }
    // Nothing may be written but the report on the bundle.
    requires allowed { AllowsReports (W.allows writer.old) bundle.items }
    // What is written is the report on the bundle, and the answer tells whether it says refuted.
    ensures correct { IfOk result (λ answer. (text : List ℕ)
        × IsCorrect bundle.items text answer
        × Appends (W.contents writer.old) (W.contents writer.new) text) }
    ensures written { OnOk result
        ((text : List ℕ) × IsReportOn bundle.items text
        × Appends (W.contents writer.old) (W.contents writer.new) text) }
    ensures answer { IfOk result (λ answer. IsAnswerOn bundle.items answer) }
    // An answer that says refuted is right: no model of the formula exists.
    ensures sound { IfOk result (λ answer. answer ≡ true → IsUnsatisfiable bundle.items) }
    // A fault of the input is one that the bundle has.
    ensures fault { IfErr result (λ fault. IsInputFault fault → IsFaultOn bundle.items fault) }
    // A fault has written nothing, or where a write failed a beginning of the report.
    ensures nothing { OnErr result (W.failures writer.new ≡ W.failures writer.old →
        Keeps (W.contents writer.old) (W.contents writer.new)) }
    ensures beginning { OnErr result (W.failures writer.new ≢ W.failures writer.old →
        (text : List ℕ) × IsReportOn bundle.items text
        × AppendsBeginning (W.contents writer.old) (W.contents writer.new) text) }
    // The device is at fault exactly where a write failed.
    ensures device { IsErrOf result Fault.Device ↔ (W.failures writer.old < W.failures writer.new) }
    ensures same { IfErr result
        (λ fault. fault ≢ Fault.Device → W.failures writer.new ≡ W.failures writer.old) }
    ensures ok { OnOk result (W.failures writer.new ≡ W.failures writer.old) }
{
    let outcome = judge_bundle(rt, alloc, bundle, settings, gate, false)?;
    write_all(writer, &outcome.text)?;
    Ok(outcome.refuted)
}
