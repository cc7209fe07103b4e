//! A worker without a crew: what it finds, one after the other, of proofs that the case lacks.

ghost use Rattle.std.specs.Prelude.{◌≡◌, ◌<◌, ◌^◌, ◌-◌, ◌↔◌, ℕ, IfOk, IfErr, OnOk, IsTrue, None};
ghost use Rattle.std.specs.Prelude.{List, replicate};
ghost use Rattle.byte_flow.specs.Device.{IsDeviceFault, IsLeft};
ghost use Rattle.case_core.specs.Case.{proof_for};
ghost use Rattle.case_core.specs.Leaves.{HasTarget, IsTargetAt};
ghost use Rattle.case_core.specs.SplitTree.{size};
ghost use Rattle.mark_board.specs.Marking.{mark_at};
ghost use Rattle.mark_board.specs.declared.mark.Mark.TheVariants.{Open};
ghost use Rattle.check_crew.specs.One.{IsProofPosted};
ghost use Rattle.check_crew.specs.Inner.One.{IsPosted};

use crate::gate::Gate;
use crate::site::{Site, post_found};
use board_hall::{Hall, Pass};
use byte_flow::{DeviceFault, Source};
use case_core::{Case, Examiner, LabelLine, ProofForm, ReadFinding, ReadProof, Target};
use mark_board::{Boards, Mark};
use run_terms::Settings;
use std::alloc::{AllocError, Global};
use std::marker::Model;
use std::sync::Wait;

/// A worker that starts no thread: it judges proofs one after the other while they are read, and
/// what it finds stands on its boards. A gate is told of it by a pass of a hall in which that is
/// posted, too. To a contract it is its boards.
#[derive(Drop)]
pub struct OneWorker<'c> {
    examiner: Examiner<'c>,
    boards: Boards<'c>,
    hall: Hall<'c>,
    pass: Pass,
}

impl<'c> Model for OneWorker<'c> {
    ghost use Rattle.mark_board.specs.Boards.{BoardsOf};
    ghost use Rattle.std.specs.Coded.{codes};
    ghost use Rattle.case_core.specs.CaseCode.{case_code};
    ghost use Rattle.check_crew.specs.Inner.One.{IsAtWork};

    ghost Value = { BoardsOf };

    ghost coded = { Prim.hlevel (codes, case_code) };

    ghost view = { λ w. w.boards };

    ghost invariant = { λ w. IsAtWork w.examiner w.boards w.hall w.pass };
}

impl<'c> OneWorker<'c> {
    /// A worker over a case, with boards at the cut of the settings on which nothing is marked.
    /// `AllocError` where a growth was refused.
    pub fn over(
        alloc: Global,
        case: &'c Case,
        settings: Settings,
    ) -> Result<OneWorker<'c>, AllocError>
        ensures case { IfOk result
            (λ worker. (worker.case ≡ case.now) × (worker.cut ≡ settings.cut)) }
        ensures marks { IfOk result
            (λ worker. worker.marks ≡ replicate (size case.now.tree) Open) }
    {
        let boards = Boards::new(alloc, case, settings.cut())?;
        let (hall, mut passes) = Hall::open_for_proofs_elsewhere(alloc, case, settings.cut(), 1)?;
        let Some(pass) = passes.pop() else {
            unreachable!()
        };
        let examiner = Examiner::over(alloc, case)?;
        Ok(OneWorker {
            examiner,
            boards,
            hall,
            pass,
        })
    }

    /// The case.
    pub fn case(&self) -> &'c Case
        ensures { result.now ≡ self.now.case }
    {
        self.boards.case()
    }

    /// The boards.
    pub fn into_boards(self) -> Boards<'c>
        ensures { result ≡ self.entry }
    {
        let OneWorker { boards, .. } = self;
        boards
    }

    /// Whether nothing is posted of a target. It asks for a target of the case's tree.
    pub fn is_open(&self, target: Target) -> bool
        requires { HasTarget self.now.case.tree target }
        ensures { (node : ℕ) → IsTargetAt self.now.case.tree node target
            → IsTrue result ↔ (mark_at self.now.marks node ≡ Open) }
    {
        matches!(self.boards.mark_of(target), Mark::Open)
    }

    /// Judges the proof that a source gives up to its end, as `Examiner::examine_read` does, for a
    /// target that has no section in the case, and of which nothing is posted; and posts what is
    /// found. Where the proof has a label line, that is answered, and nothing is posted. `gate` is
    /// called before it and, where something was posted, after it, as by worker 0.
    ///
    /// `Device` where a read failed, `Memory` where a growth was refused. Then nothing is posted.
    pub fn read_proof<R: Wait, G: Gate, S: Source>(
        &mut self,
        rt: &R,
        alloc: Global,
        gate: &G,
        target: Target,
        opened: ProofForm,
        source: &mut S,
    ) -> Result<Option<LabelLine>, DeviceFault>
        requires target { HasTarget self.old.case.tree target }
        requires none { proof_for self.old.case.sections target ≡ None }
        requires open { (node : ℕ) → IsTargetAt self.old.case.tree node target
            → mark_at self.old.marks node ≡ Open }
        // One more failed read can be counted.
        requires count { S.failures source.old < 2 ^ 64 - 1 }
        // The target has the mark of the proof's judgement, or this is its first label line.
        ensures posted { IfOk result (λ label. (bytes : List ℕ)
            × IsLeft (S.remaining source.old) bytes
            × IsProofPosted self.old self.new target opened bytes label) }
        // They stay the boards of that case and cut.
        ensures same { (self.new.case ≡ self.old.case) × (self.new.cut ≡ self.old.cut) }
        ensures ok { OnOk result (S.failures source.new ≡ S.failures source.old) }
        ensures err { IfErr result
            (λ fault. IsDeviceFault (S.failures source.old) (S.failures source.new) fault) }
    {
        let announced = target;
        gate.before(0, announced);
        match self.examiner.examine_read(alloc, target, opened, source)? {
            ReadProof::Found(read) => {
                self.post(rt, alloc, gate, read);
                Ok(None)
            }
            ReadProof::Labelled(label) => Ok(Some(label)),
        }
    }

    /// Posts what was found of a target of which nothing is posted, and tells the gate.
    fn post<R: Wait, G: Gate>(&mut self, rt: &R, alloc: Global, gate: &G, read: ReadFinding<'c>)
        requires case { read.finding.case.now ≡ self.old.case }
        requires open { mark_at self.old.marks read.finding.node ≡ Open }
        ensures posted { IsPosted self.old self.new read.entry.finding.node
            read.entry.finding.judged }
        ensures same { (self.new.case ≡ self.old.case) × (self.new.cut ≡ self.old.cut) }
    {
        let case = self.case();
        let _ = self.boards.post(read.finding.again());
        let site = Site {
            rt,
            alloc,
            case,
            core: self.hall.core(),
            gate,
        };
        post_found(site, 0, &mut self.pass, read);
    }
}
