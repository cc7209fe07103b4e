//! What is said of a bundle whose tree is cube 1 alone, with one proof that is read once, and
//! judged while it is read.

ghost use Rattle.std.specs.Prelude.{◌≡◌, ◌≢◌, ◌<◌, ◌^◌, ◌-◌, ◌++◌, ℕ, List, IfOk, IfErr};
ghost use Rattle.std.specs.Prelude.{OnOk, None, Some, codes, option_map};
ghost use Rattle.cube_report.specs.Device.{IsLeft};
ghost use Rattle.case_core.specs.Case.{proof_for};
ghost use Rattle.case_core.specs.Leaf.TheVariants.{Cube};
ghost use Rattle.case_core.specs.Reading.{IsFirstLabel};
ghost use Rattle.case_core.specs.Sections.{IsCaseOf, IsFaultOf};
ghost use Rattle.case_core.specs.SplitTree.{cube};
ghost use Rattle.case_core.specs.Target.TheVariants.{Leaf as Named};
ghost use Rattle.cube_report.specs.Faults.{IsInputFault};
ghost use Rattle.file_store.specs.Files.{StaysAllowed};
ghost use Rattle.bundle_files.specs.Formula.{IsBundleBy, IsReadBy};
ghost use Rattle.bundle_files.specs.Judging.{IsJudgingFault, IsOutcomeWith, IsRefusedWith};
ghost use Rattle.bundle_files.specs.Judging.{IsRefusedWithEach};

use crate::formula::{BegunBundle, begin_bundle};
use crate::while_read::case_of_front;
use case_core::{Case, CaseFault, LabelLine, Leaf, ProofForm, Target, line_ends};
use cube_report::{Elsewhere, Fault, Gate, OneWorker, Outcome, Settings, Source, written_by};
use file_store::Store;
use std::alloc::Global;
use std::sync::Wait;

/// The bundle of one proof without its proof: its tree is cube 1 alone, and it has no section.
#[derive(Drop)]
pub struct OneCube {
    /// The bytes.
    pub bundle: Vec<u8>,
    /// The case that they stand for.
    pub case: Case,
}

/// The bundle of one proof without its proof: the text of the formula's file at this path, a DIMACS
/// text, as a bundle begins with it, and below it the cube without a literal.
///
/// `Device` where the file can't be read or isn't there, `Memory` where a growth was refused. Any
/// other fault is the first one of that bundle, whichever the proof is.
pub fn begin_one<D: Store>(
    alloc: Global,
    store: &mut D,
    formula: Option<&str>,
) -> Result<OneCube, Fault>
    // One more failed read can be counted.
    requires { D.failures store.old < 2 ^ 64 - 1 }
    // The store holds what it held.
    ensures held { D.held store.new ≡ D.held store.old }
    ensures allowed { StaysAllowed (D.allows store.old) (D.allows store.new) }
    // It is the bundle of the file and of that cube, by what lies there and by what one reading of
    // the file handed over.
    ensures read { IfOk result (λ one. IsReadBy (D.held store.old)
        (option_map (λ path. path.now) formula.entry) None (Some (codes "a 0"))
        one.bundle.items) }
    ensures handed { IfOk result (λ one. IsBundleBy D.hands
        (option_map (λ path. path.now) formula.entry) None (Some (codes "a 0"))
        one.bundle.items) }
    // The case is the bundle's: its tree is cube 1 alone, which has no section.
    ensures case { IfOk result (λ one. IsCaseOf one.bundle.items one.case) }
    ensures tree { IfOk result (λ one. one.case.tree ≡ cube 1) }
    ensures free { IfOk result (λ one. proof_for one.case.sections (Named (Cube 1)) ≡ None) }
    // A fault of the input is told with each proof.
    ensures fault { IfErr result (λ fault. IsInputFault fault → IsRefusedWithEach
        (D.held store.old) (option_map (λ path. path.now) formula.entry) fault) }
    // The device is at fault exactly where a read failed.
    ensures ok { OnOk result (D.failures store.new ≡ D.failures store.old) }
    ensures err { IfErr result (IsJudgingFault (D.failures store.old) (D.failures store.new)) }
{
    let BegunBundle { text, said } = begin_bundle(alloc, store, formula)?;
    let mut bundle = text;
    bundle.extend_from_slice(b"a 0")?;
    let case = case_of_front(alloc, bundle.to_vec(alloc)?, said)?;
    Ok(OneCube { bundle, case })
}

/// What a run says of a bundle whose tree is cube 1 alone, with the proof that a source gives below
/// a label line of that cube, at the cut that the settings say, and with a picture of the tree
/// where `draws` asks for one; or the first fault of the bundle with the proof.
///
/// The proof, a text or binary, is judged while it is read, by this thread, in blocks of whole
/// lines; a text is read no further where a block has a label line. The gate is started for one
/// proof of so many bytes, and called as by worker 0.
///
/// `Device` where a read failed; `Memory` may stand in the place of any other answer.
pub fn judge_proof_of<R, S, G>(
    rt: &R,
    one: &OneCube,
    source: &mut S,
    length: u64,
    settings: Settings,
    gate: &G,
    draws: bool,
) -> Result<Outcome, Fault>
where
    R: AllocGlobal + Wait,
    S: Source,
    G: Gate,
    // One more failed read can be counted.
    requires count { S.failures source.old < 2 ^ 64 - 1 }
    // The case is the bundle's: its tree is cube 1 alone, which has no section.
    requires case { IsCaseOf one.now.bundle.items one.now.case }
    requires tree { one.now.case.tree ≡ cube 1 }
    requires free { proof_for one.now.case.sections (Named (Cube 1)) ≡ None }
    // It is what a run on the bundle with that proof promises.
    ensures outcome { IfOk result (λ outcome. IsOutcomeWith (IsLeft (S.remaining source.old))
        one.now.bundle.items draws outcome.text.items outcome.map.items outcome.refuted) }
    // A fault of the input is the first one of that bundle.
    ensures fault { IfErr result (λ fault. IsInputFault fault → IsRefusedWith
        (IsLeft (S.remaining source.old)) one.now.bundle.items fault) }
    // The device is at fault exactly where a read failed.
    ensures ok { OnOk result (S.failures source.new ≡ S.failures source.old) }
    ensures err { IfErr result (IsJudgingFault (S.failures source.old) (S.failures source.new)) }
{
    let elsewhere = Elsewhere {
        proofs: 1,
        bytes: length,
    };
    gate.start(rt.alloc(), &one.case, settings.cut(), elsewhere)?;
    let outcome = judge_begun(rt, one, source, settings, gate, draws);
    gate.end();
    outcome
}

/// The same, where the gate was started.
fn judge_begun<R, S, G>(
    rt: &R,
    one: &OneCube,
    source: &mut S,
    settings: Settings,
    gate: &G,
    draws: bool,
) -> Result<Outcome, Fault>
where
    R: AllocGlobal + Wait,
    S: Source,
    G: Gate,
    requires count { S.failures source.old < 2 ^ 64 - 1 }
    requires case { IsCaseOf one.now.bundle.items one.now.case }
    requires tree { one.now.case.tree ≡ cube 1 }
    requires free { proof_for one.now.case.sections (Named (Cube 1)) ≡ None }
    ensures outcome { IfOk result (λ outcome. IsOutcomeWith (IsLeft (S.remaining source.old))
        one.now.bundle.items draws outcome.text.items outcome.map.items outcome.refuted) }
    ensures fault { IfErr result (λ fault. IsInputFault fault → IsRefusedWith
        (IsLeft (S.remaining source.old)) one.now.bundle.items fault) }
    ensures ok { OnOk result (S.failures source.new ≡ S.failures source.old) }
    ensures err { IfErr result (IsJudgingFault (S.failures source.old) (S.failures source.new)) }
{
    let mut worker = OneWorker::over(rt.alloc(), &one.case, settings)?;
    let cube = Target::Leaf(Leaf::Cube(1));
    match worker.read_proof(rt, rt.alloc(), gate, cube, ProofForm::Unread, source)? {
        None => Ok(written_by(rt.alloc(), &worker.into_boards(), draws)?),
        Some(label) => {
            let fault = fault_below(rt.alloc(), &one.bundle, &one.case, label);
            Err(Fault::from(fault))
        }
    }
}

/// The first fault of a bundle of this case that goes on with the label line of cube 1 and below it
/// with a text whose first label line this is. `Memory` where a growth was refused, or where the
/// lines are too many to be counted.
fn fault_below(alloc: Global, bundle: &[u8], case: &Case, label: LabelLine) -> CaseFault
    requires case { IsCaseOf bundle.now case.now }
    requires one { case.now.tree ≡ cube 1 }
    requires free { proof_for case.now.sections (Named (Cube 1)) ≡ None }
    ensures { result ≢ CaseFault.Memory → (text : List ℕ)
        → IsFirstLabel text label.line.items label.lines
        → IsFaultOf (bundle.now ++ (codes "\nl 1\n" ++ text)) result }
{
    let above = line_ends(bundle) as u64 + 2;
    let Ok(label) = label.below(above) else {
        return CaseFault::Memory;
    };
    match label.target(alloc, case) {
        Ok(_) => label.twice(),
        Err(fault) => fault,
    }
}
