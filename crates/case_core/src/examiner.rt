//! Finds what is to be said of the targets of a case.

ghost use Rattle.std.specs.Prelude.{◌≡◌, ◌<◌, ◌^◌, ◌-◌, ℕ, List, [], length, IfOk, IfErr, IfSome};
ghost use Rattle.std.specs.Prelude.{MatchOption, None, OnOk};
ghost use Rattle.byte_flow.specs.Device.{IsDeviceFault, IsLeft};
ghost use Rattle.lrat_binary.specs.Form.{text_in_form};
ghost use Rattle.split_tree.specs.Leaves.{HasTarget, IsTargetAt};
ghost use Rattle.split_tree.specs.SplitTree.{SplitTree};
ghost use Rattle.case_core.specs.Bundle.{labels_of};
ghost use Rattle.case_core.specs.Case.{proof_for};
ghost use Rattle.case_core.specs.Finding.{IsFinding, HasSection, IsFoundBy, IsSoundFinding};
ghost use Rattle.case_core.specs.Finding.{target_of};
ghost use Rattle.case_core.specs.Reading.{IsPartRead, IsReadProof};
ghost use Rattle.case_core.specs.Inner.Finding.{IsJudgement};

use crate::case::Case;
use crate::finding::Finding;
use crate::label_line::LabelLine;
use crate::labelled::LabelledText;
use crate::reading::{ReadText, begin_proof, read_lines, read_proof};
use byte_flow::{DeviceFault, Source, Stream};
use hint_check::{Judged, Judging};
use lrat_binary::ProofForm;
use split_tree::{Leaf, Target};
use std::alloc::{AllocError, Global};
use std::marker::Model;

/// Examines one target of a case after another, and keeps for the next one what its judge has room
/// for. To a contract it is its case.
pub struct Examiner<'c> {
    case: &'c Case,
    /// Over the case's formula.
    judging: Judging<'c>,
}

// As a derive does, but proved here alone and not in the body of each owner.
impl<'c> Drop for Examiner<'c> {
    fn drop(self) {
        let Examiner {
            case: _,
            judging: _,
        } = self;
    }
}

/// What is found by a proof that was read, and how many bytes it has.
#[derive(Drop)]
pub struct ReadFinding<'c> {
    /// What is found of the target.
    pub finding: Finding<'c>,
    /// How many bytes were judged: those of a binary proof, and not of its text.
    pub length: usize,
}

/// What becomes of a proof that was read.
#[derive(Drop)]
pub enum ReadProof<'c> {
    /// It has no label line, and this is found by it.
    Found(ReadFinding<'c>),
    /// It is a text with label lines, and this is the first of them. Nothing was read behind the
    /// block in which that stands.
    Labelled(LabelLine),
}

impl<'c> Model for Examiner<'c> {
    ghost use Rattle.std.specs.Prelude.{◌≡◌};
    ghost use Rattle.case_core.specs.Case.{CaseOf};
    ghost use Rattle.case_core.specs.CaseCode.{case_code};

    ghost Value = { CaseOf };

    ghost coded = { case_code };

    ghost view = { λ examiner. examiner.case.now };

    ghost invariant = { λ examiner. examiner.judging.formula ≡ examiner.case.now.formula };
}

impl<'c> Examiner<'c> {
    /// An examiner of a case. An error is a refused growth.
    pub fn over(alloc: Global, case: &'c Case) -> Result<Examiner<'c>, AllocError>
        ensures { IfOk result (λ examiner. examiner ≡ case.now) }
    {
        let judging = Judging::over(alloc, case.base())?;
        Ok(Examiner { case, judging })
    }

    /// Judges the section of a target, from the formula and the target's path; `None` exactly where
    /// the target has no section. It asks for a target of the case's tree. `AllocError` where a
    /// growth was refused.
    pub fn examine(
        &mut self,
        alloc: Global,
        target: Target,
    ) -> Result<Option<Finding<'c>>, AllocError>
        requires { HasTarget self.old.tree target }
        ensures found { IfOk result
            (λ found. MatchOption found (proof_for self.old.sections target ≡ None)
            (λ finding. HasSection self.old target × (finding.case.now ≡ self.old)
            × (target_of finding.leaf finding.node ≡ target)
            × IsFinding self.old target finding.judged)) }
        ensures same { self.new ≡ self.old }
    {
        let asked = target;
        let placed = target;
        let Some(judged) = self.judge_section(alloc, asked)? else {
            return Ok(None);
        };
        let case = self.case;
        let node = case.tree().node_of_target(placed).number();
        Ok(Some(Finding {
            case,
            leaf: leaf_of(target),
            node,
            judged,
        }))
    }

    /// Judges a proof that the case doesn't hold, for a target of its tree that has no section
    /// there: what a source gives up to its end. It is opened as a text, or before its first byte:
    /// then a proof that begins with an `a` or a `d` is binary LRAT, and judged as the text that it
    /// stands for. A block of it is in memory at a time, of a text one of whole lines, so it may be
    /// longer than memory. Where one of the text's lines is a label line, that is answered in the
    /// place of a finding, and no block behind it is read.
    ///
    /// `Device` where a read failed, `Memory` where a growth was refused.
    pub fn examine_read<S: Source>(
        &mut self,
        alloc: Global,
        target: Target,
        opened: ProofForm,
        source: &mut S,
    ) -> Result<ReadProof<'c>, DeviceFault>
        requires target { HasTarget self.old.tree target }
        requires none { proof_for self.old.sections target ≡ None }
        // One more failed read can be counted.
        requires count { S.failures source.old < 2 ^ 64 - 1 }
        // It is what becomes of all that the source had left.
        ensures read { IfOk result (λ proof. (bytes : List ℕ)
            × IsLeft (S.remaining source.old) bytes
            × IsReadProof self.old target opened bytes proof) }
        ensures same { self.new ≡ self.old }
        ensures ok { OnOk result (S.failures source.new ≡ S.failures source.old) }
        ensures err { IfErr result
            (λ fault. IsDeviceFault (S.failures source.old) (S.failures source.new) fault) }
    {
        let asked = target;
        begin_proof(alloc, self.case, &mut self.judging, asked)?;
        let read = match read_proof(alloc, &mut self.judging, opened, source)? {
            ReadText::Judged(read) => read,
            ReadText::Labelled(label) => return Ok(ReadProof::Labelled(label)),
        };
        Ok(ReadProof::Found(ReadFinding {
            finding: finding_beside(self.case, target, read.judged),
            length: read.length,
        }))
    }

    /// Judges a part of a text as the proof of a target of the case's tree that has no section
    /// there: lines that were taken of it before, and what is behind them up to the text's next
    /// label line, or up to its end. There the text stands then. It is judged as a text, and never
    /// as a binary proof.
    ///
    /// `Device` where a read failed, `Memory` where a growth was refused, or the bytes or lines are
    /// too many to be counted.
    pub fn examine_part<S: Stream>(
        &mut self,
        alloc: Global,
        target: Target,
        front: &[u8],
        text: &mut LabelledText,
        source: &mut S,
    ) -> Result<ReadFinding<'c>, DeviceFault>
        requires target { HasTarget self.old.tree target }
        requires none { proof_for self.old.sections target ≡ None }
        // One more failed read can be counted.
        requires count { S.failures source.old < 2 ^ 64 - 1 }
        // It is what is found by those lines and that part, behind which the text goes on.
        ensures read { IfOk result (IsPartRead self.old target front.now text.old text.new
            (S.gives source.old) (S.gives source.new)) }
        ensures same { self.new ≡ self.old }
        ensures ok { OnOk result (S.failures source.new ≡ S.failures source.old) }
        ensures err { IfErr result
            (λ fault. IsDeviceFault (S.failures source.old) (S.failures source.new) fault) }
    {
        let asked = target;
        begin_proof(alloc, self.case, &mut self.judging, asked)?;
        self.judging.more(alloc, front)?;
        let read = read_lines(alloc, &mut self.judging, text, source)?;
        let Some(length) = read.length.checked_add(front.len()) else {
            return Err(DeviceFault::Memory);
        };
        Ok(ReadFinding {
            finding: finding_beside(self.case, target, read.judged),
            length,
        })
    }

    /// Judges a text in memory as the proof of a target of the case's tree that has no section
    /// there, and never as a binary proof. `AllocError` where a growth was refused.
    pub fn examine_text(
        &mut self,
        alloc: Global,
        target: Target,
        text: &[u8],
    ) -> Result<ReadFinding<'c>, AllocError>
        requires target { HasTarget self.old.tree target }
        requires none { proof_for self.old.sections target ≡ None }
        // It is what is found by that text.
        ensures read { IfOk result (λ read. (read.finding.case.now ≡ self.old)
            × (target_of read.finding.leaf read.finding.node ≡ target)
            × (length text.now ≡ read.length)
            × IsFoundBy self.old target text.now read.finding.judged) }
        ensures same { self.new ≡ self.old }
    {
        let asked = target;
        let judged = self.judge_proof(alloc, asked, text)?;
        Ok(ReadFinding {
            finding: finding_beside(self.case, target, judged),
            length: text.len(),
        })
    }

    /// What is said of the target's proof, if it has one.
    fn judge_section(&mut self, alloc: Global, target: Target) -> Result<Option<Judged>, AllocError>
        requires { HasTarget self.old.tree target }
        ensures found { IfOk result
            (λ found. MatchOption found (proof_for self.old.sections target ≡ None)
            (λ judged. HasSection self.old target × IsFinding self.old target judged
            × IsSoundFinding self.old target judged)) }
        ensures same { self.new ≡ self.old }
    {
        let case = self.case;
        let Some(proof) = case.proof_for(target) else {
            return Ok(None);
        };
        Ok(Some(self.judge_proof(alloc, target, proof)?))
    }

    /// What is said of a proof from the formula and the target's path.
    fn judge_proof(
        &mut self,
        alloc: Global,
        target: Target,
        proof: &[u8],
    ) -> Result<Judged, AllocError>
        requires { HasTarget self.old.tree target }
        ensures judged { IfOk result (λ judged. IsJudgement self.old target proof.now judged) }
        ensures same { self.new ≡ self.old }
    {
        begin_proof(alloc, self.case, &mut self.judging, target)?;
        self.judging.last(alloc, proof)
    }
}

/// Judges the section of a target, from the formula and the target's path; `None` exactly where the
/// target has no section. It asks for a target of the case's tree. `AllocError` where a growth was
/// refused. It makes an examiner, which goes through the whole formula: for many sections make one,
/// and examine by it.
pub fn examine<'c>(
    alloc: Global,
    case: &'c Case,
    target: Target,
) -> Result<Option<Finding<'c>>, AllocError>
    requires { HasTarget case.now.tree target }
    ensures { IfOk result (λ found. MatchOption found (proof_for case.now.sections target ≡ None)
        (λ finding. HasSection case.now target × (finding.case.now ≡ case.now)
        × (target_of finding.leaf finding.node ≡ target)
        × IsFinding case.now target finding.judged)) }
{
    let mut examiner = Examiner::over(alloc, case)?;
    examiner.examine(alloc, target)
}

/// The leaf of a target, or `None` where it is an inner node.
fn leaf_of(target: Target) -> Option<Leaf>
    ensures { (tree : SplitTree) (node : ℕ) → IsTargetAt tree node target
        → target_of result node ≡ target }
{
    match target {
        Target::Leaf(leaf) => Some(leaf),
        Target::Node(_) => None,
    }
}

/// What is found of a target that has no section, by a text that is judged so.
fn finding_beside(case: &Case, target: Target, judged: Judged) -> Finding<'_>
    requires target { HasTarget case.now.tree target }
    requires none { proof_for case.now.sections target ≡ None }
    requires judged { (text : List ℕ) × IsJudgement case.now target text judged }
    ensures case { result.case.now ≡ case.now }
    ensures target { target_of result.leaf result.node ≡ target }
    ensures judged { result.judged ≡ judged }
    ensures found { (text : List ℕ) → IsJudgement case.now target text judged
        → IsFoundBy case.now target text judged }
{
    let placed = target;
    let node = case.tree().node_of_target(placed).number();
    Finding {
        case,
        leaf: leaf_of(target),
        node,
        judged,
    }
}
