//! The worker that reads a bundle: it judges long proofs while it reads them, hands short ones to
//! others, and keeps the boards.

ghost use Rattle.std.specs.Prelude.{◌≡◌, ◌≢◌, ◌<◌, ◌^◌, ◌-◌, [], None, Some, IfSome, IfOk, IfErr};
ghost use Rattle.std.specs.Prelude.{OnOk, get_or, length, ℕ, List, Option, true, false, slice_set};
ghost use Rattle.byte_flow.specs.Device.{GrewBy, IsDeviceFault};
ghost use Rattle.case_core.specs.Case.{SectionOf, proof_for};
ghost use Rattle.case_core.specs.Finding.{HasSection};
ghost use Rattle.case_core.specs.Leaves.{HasTarget, IsTargetAt};
ghost use Rattle.mark_board.specs.Marking.{mark_at};
ghost use Rattle.mark_board.specs.declared.mark.Mark.TheVariants.{Open};
ghost use Rattle.board_hall.specs.Halls.{core_of};
ghost use Rattle.board_hall.specs.declared.view.Proofs.TheVariants.{Elsewhere};
ghost use Rattle.check_crew.specs.WhileRead.{IsReadFault, IsReadRefused, bundle_behind};
ghost use Rattle.check_crew.specs.Inner.WhileRead.{AreMarksBut, IsAllBut, IsBelow, IsBelowLabel};
ghost use Rattle.check_crew.specs.Inner.WhileRead.{IsFree, IsPartPosted, IsPutOut, IsReader};
ghost use Rattle.check_crew.specs.Inner.WhileRead.{IsReadOn, KeepsMarks};

use crate::fault::ReadFault;
use crate::found::{FoundProof, judge_handed};
use crate::gate::Gate;
use crate::handed::{HandedProof, NamesCase};
use crate::rooms::Rooms;
use crate::site::{Site, post_found};
use board_hall::{Core, Pass};
use byte_flow::{DeviceFault, Stream};
use case_core::{Case, Examiner, LabelLine, LabelledText, ReadFinding, Target};
use crossbeam_channel::{Receiver, Sender};
use mark_board::{Boards, Mark};
use std::alloc::{AllocError, Global};
use std::sync::Wait;

/// The boards of a bundle that is read, on which all that was found so far stands, and the proofs
/// that others have.
#[derive(Drop)]
pub(crate) struct Kept<'c, J: NamesCase> {
    pub(crate) boards: Boards<'c>,
    /// The proofs that others have, in as many places as there may be.
    pub(crate) given: Vec<Option<HandedProof<J>>>,
    /// So many bytes they have.
    pub(crate) bytes: usize,
    /// What others have found.
    pub(crate) found: Receiver<FoundProof<'c, J>>,
    /// Lists that proofs were handed out in.
    pub(crate) rooms: Rooms,
}

/// A place without a proof.
fn free_place<J: NamesCase>(given: &[Option<HandedProof<J>>]) -> Option<usize>
    ensures { IfSome result
        (λ place. (place < length given.now) × (get_or given.now place None ≡ None)) }
{
    for place in 0..given.len() {
        if given[place].is_none() {
            return Some(place);
        }
    }
    None
}

/// Whether a place has a proof of this target.
fn has_proof_of<J: NamesCase>(place: &Option<HandedProof<J>>, target: Target) -> bool
    ensures yes { result ≡ true
        → (proof : SectionOf) × (place.now ≡ Some proof) × (proof.target ≡ target) }
    ensures no { result ≡ false
        → (proof : SectionOf) → place.now ≡ Some proof → proof.target ≢ target }
{
    match place {
        Some(proof) => proof.target() == target,
        None => false,
    }
}

/// Whether a place has this proof.
fn has_proof<J: NamesCase>(place: &Option<HandedProof<J>>, wanted: &HandedProof<J>) -> bool
    ensures { result ≡ true → (proof : SectionOf) × (place.now ≡ Some proof)
        × (proof.target ≡ wanted.now.target) × (proof.proof ≡ wanted.now.proof) }
{
    match place {
        Some(proof) => proof.target() == wanted.target() && proof.text() == wanted.text(),
        None => false,
    }
}

/// Whether one of the places has a proof of this target.
fn is_among<J: NamesCase>(given: &[Option<HandedProof<J>>], target: Target) -> bool
    ensures yes { result ≡ true → (place : ℕ) × (proof : SectionOf)
        × (get_or given.now place None ≡ Some proof) × (proof.target ≡ target) }
    ensures no { result ≡ false → (place : ℕ) (proof : SectionOf)
        → get_or given.now place None ≡ Some proof → proof.target ≢ target }
{
    for place in 0..given.len() {
        let asked = target;
        if has_proof_of(&given[place], asked) {
            return true;
        }
    }
    false
}

/// The place that has this proof.
fn place_of<J: NamesCase>(
    given: &[Option<HandedProof<J>>],
    wanted: &HandedProof<J>,
) -> Option<usize>
    ensures { IfSome result (λ place. (place < length given.now) × (proof : SectionOf)
        × (get_or given.now place None ≡ Some proof)
        × (proof.target ≡ wanted.now.target) × (proof.proof ≡ wanted.now.proof)) }
{
    for place in 0..given.len() {
        if has_proof(&given[place], wanted) {
            return Some(place);
        }
    }
    None
}

impl<'c, J: NamesCase> Kept<'c, J> {
    /// Whether a label line above has named a target.
    fn is_named(&self, target: Target) -> bool
        requires { HasTarget self.now.boards.case.tree target }
        ensures open { result ≡ false → (node : ℕ)
            → IsTargetAt self.now.boards.case.tree node target
            → mark_at self.now.boards.marks node ≡ Open }
        ensures free { result ≡ false → (bundle : List ℕ)
            → (marks : AreMarksBut self.now.boards self.now.given.items bundle)
            → proof_for marks.whole.sections target ≡ None }
        ensures named { result ≡ true → (bundle : List ℕ)
            → (marks : AreMarksBut self.now.boards self.now.given.items bundle)
            → HasSection marks.whole target }
    {
        let asked = target;
        !matches!(self.boards.mark_of(asked), Mark::Open) || is_among(&self.given, target)
    }

    /// Posts on the boards what was found by a proof that was handed out. Of another one nothing is
    /// posted.
    fn take_back(&mut self, found: &FoundProof<'c, J>)
        requires { self.old.boards.case ≡ J.case }
        ensures { KeepsMarks self.old.boards self.new.boards self.old.given.items
            self.new.given.items }
    {
        if let Some(place) = place_of(&self.given, found.proof()) {
            let _ = self.boards.post(found.finding());
            self.given[place] = None;
            self.bytes = self.bytes.saturating_sub(found.proof().text().len());
        }
    }

    /// The same, and the proof's list is kept for another one.
    fn settle(&mut self, found: FoundProof<'c, J>)
        requires { self.old.boards.case ≡ J.case }
        ensures { KeepsMarks self.old.boards self.new.boards self.old.given.items
            self.new.given.items }
    {
        self.take_back(&found);
        if let Some(list) = found.into_list() {
            self.rooms.keep(list);
        }
    }

    /// Posts on the boards what others have found so far.
    pub(crate) fn collect<R: Wait>(&mut self, rt: &R)
        requires { self.old.boards.case ≡ J.case }
        ensures { KeepsMarks self.old.boards self.new.boards self.old.given.items
            self.new.given.items }
    {
        for _ in rt.forever() {
            let Ok(found) = self.found.try_recv(rt) else {
                return;
            };
            self.settle(found);
        }
    }

    /// Whether nobody has a proof any more.
    pub(crate) fn is_settled(&self) -> bool
        ensures { result ≡ true → (place : ℕ) → get_or self.now.given.items place None ≡ None }
    {
        for place in 0..self.given.len() {
            if self.given[place].is_some() {
                return false;
            }
        }
        true
    }

    /// Keeps a proof that is to be handed out; false where there is no place for it.
    fn keep(&mut self, proof: HandedProof<J>) -> bool
        ensures same { self.new.boards ≡ self.old.boards }
        ensures kept { result ≡ true
            → IsPutOut self.old.given.items self.new.given.items proof }
    {
        match free_place(&self.given) {
            Some(place) => {
                self.bytes = self.bytes.saturating_add(proof.text().len());
                self.given[place] = Some(proof);
                true
            }
            None => false,
        }
    }
}

/// The worker that reads. Its number is 0.
#[derive(Drop)]
pub(crate) struct Reader<'a, 'c, R, G, J: NamesCase> {
    pub(crate) site: Site<'a, 'c, R, G>,
    pub(crate) kept: Kept<'c, J>,
    pub(crate) pass: Pass,
    /// So many bytes of proofs others may have at a time.
    pub(crate) most: usize,
    /// Where proofs are handed to others, and the other end of it.
    pub(crate) to_others: Sender<HandedProof<J>>,
    pub(crate) not_taken: Receiver<HandedProof<J>>,
}

impl<'a, 'c, R: Wait, G: Gate, J: NamesCase> Reader<'a, 'c, R, G, J> {
    /// Judges a proof that was handed out and that nobody else took.
    fn judge_own(
        &mut self,
        examiner: &mut Examiner<'c>,
        proof: HandedProof<J>,
    ) -> Result<(), AllocError>
        requires reader { IsReader J.case self.old }
        requires examiner { examiner.old ≡ J.case }
        ensures reader { IsReader J.case self.new }
        ensures examiner { examiner.new ≡ examiner.old }
        ensures marks { KeepsMarks self.old.kept.boards self.new.kept.boards
            self.old.kept.given.items self.new.kept.given.items }
    {
        self.site.gate.before(0, proof.target());
        let found = judge_handed(self.site.alloc, examiner, proof)?;
        let read = found.read();
        self.kept.settle(found);
        post_found(self.site, 0, &mut self.pass, read);
        Ok(())
    }

    /// Hands a proof to another worker, or judges it where all of them have enough to do.
    fn hand_out(
        &mut self,
        examiner: &mut Examiner<'c>,
        proof: HandedProof<J>,
    ) -> Result<(), AllocError>
        requires reader { IsReader J.case self.old }
        requires examiner { examiner.old ≡ J.case }
        ensures reader { IsReader J.case self.new }
        ensures examiner { examiner.new ≡ examiner.old }
        ensures cut { self.new.kept.boards.cut ≡ self.old.kept.boards.cut }
        ensures marks { OnOk result ((bundle : List ℕ)
            → ((out : List (Option SectionOf))
            → IsPutOut self.old.kept.given.items out proof
            → AreMarksBut self.old.kept.boards out bundle)
            → AreMarksBut self.new.kept.boards self.new.kept.given.items bundle) }
    {
        let other = proof.again()?;
        if !self.kept.keep(proof) {
            return Err(AllocError);
        }
        match self.to_others.try_send(self.site.rt, other) {
            Ok(()) => Ok(()),
            Err(refused) => self.judge_own(examiner, refused.into_inner()),
        }
    }

    /// Judges the proof of a target that begins with these lines, which were taken of a text, and
    /// goes on with the text up to its next label line, or up to its end; and posts what is found.
    fn judge_part<S: Stream>(
        &mut self,
        examiner: &mut Examiner<'c>,
        target: Target,
        front: &[u8],
        text: &mut LabelledText,
        source: &mut S,
    ) -> Result<(), DeviceFault>
        requires reader { IsReader J.case self.old }
        requires examiner { examiner.old ≡ J.case }
        requires target { HasTarget J.case.tree target }
        requires open { (node : ℕ) → IsTargetAt J.case.tree node target
            → mark_at self.old.kept.boards.marks node ≡ Open }
        requires count { S.failures source.old < 2 ^ 64 - 1 }
        ensures reader { IsReader J.case self.new }
        ensures examiner { examiner.new ≡ examiner.old }
        ensures cut { self.new.kept.boards.cut ≡ self.old.kept.boards.cut }
        ensures given { self.new.kept.given ≡ self.old.kept.given }
        ensures posted { OnOk result (IsPartPosted self.old.kept.boards self.new.kept.boards
            target front.now text.old text.new (S.gives source.old)
            (S.gives source.new)) }
        ensures ok { OnOk result (S.failures source.new ≡ S.failures source.old) }
        ensures err { IfErr result
            (λ fault. IsDeviceFault (S.failures source.old) (S.failures source.new) fault) }
    {
        let announced = target;
        self.site.gate.before(0, announced);
        let read = examiner.examine_part(self.site.alloc, target, front, text, source)?;
        let _ = self.kept.boards.post(read.finding.again());
        post_found(self.site, 0, &mut self.pass, read);
        Ok(())
    }

    /// Reads the section of a target: a short one is handed to another worker where there is one.
    fn read_section<S: Stream>(
        &mut self,
        examiner: &mut Examiner<'c>,
        target: Target,
        text: &mut LabelledText,
        source: &mut S,
    ) -> Result<(), DeviceFault>
        requires reader { IsReader J.case self.old }
        requires examiner { examiner.old ≡ J.case }
        requires target { HasTarget J.case.tree target }
        requires open { (node : ℕ) → IsTargetAt J.case.tree node target
            → mark_at self.old.kept.boards.marks node ≡ Open }
        requires count { S.failures source.old < 2 ^ 64 - 1 }
        ensures reader { IsReader J.case self.new }
        ensures examiner { examiner.new ≡ examiner.old }
        ensures cut { self.new.kept.boards.cut ≡ self.old.kept.boards.cut }
        ensures read { OnOk result ((icnf begun : List ℕ) (start : S)
            → IsBelow self.old.kept.boards self.old.kept.given.items icnf
            (GrewBy (S.gives start) begun) (S.gives source.old) text.old target
            → IsReadOn self.new.kept.boards self.new.kept.given.items icnf
            (GrewBy (S.gives start) begun) (S.gives source.new) text.new) }
        ensures ready { OnOk result (text.new.ready ≡ []) }
        ensures ok { OnOk result (S.failures source.new ≡ S.failures source.old) }
        ensures err { IfErr result
            (λ fault. IsDeviceFault (S.failures source.old) (S.failures source.new) fault) }
    {
        let most = self.most.saturating_sub(self.kept.bytes);
        if most == 0 {
            return self.judge_part(examiner, target, &[], text, source);
        }
        let taken = text.front_within(self.kept.rooms.take(self.site.alloc), source, most)?;
        if !taken.is_part {
            return self.judge_part(examiner, target, &taken.lines, text, source);
        }
        let proof = HandedProof::new(self.site.alloc, target, taken.lines)?;
        Ok(self.hand_out(examiner, proof)?)
    }

    /// Reads the section below a label line that was passed.
    fn read_labelled<S: Stream>(
        &mut self,
        examiner: &mut Examiner<'c>,
        label: &LabelLine,
        text: &mut LabelledText,
        source: &mut S,
    ) -> Result<(), ReadFault>
        requires reader { IsReader J.case self.old }
        requires examiner { examiner.old ≡ J.case }
        requires count { S.failures source.old < 2 ^ 64 - 1 }
        ensures reader { IsReader J.case self.new }
        ensures examiner { examiner.new ≡ examiner.old }
        ensures cut { self.new.kept.boards.cut ≡ self.old.kept.boards.cut }
        ensures read { OnOk result ((icnf begun : List ℕ) (start : S)
            → IsBelowLabel self.old.kept.boards self.old.kept.given.items icnf
            (GrewBy (S.gives start) begun) (S.gives source.old) text.old
            label.now.line.items label.now.lines
            → IsReadOn self.new.kept.boards self.new.kept.given.items icnf
            (GrewBy (S.gives start) begun) (S.gives source.new) text.new) }
        ensures ready { OnOk result (text.new.ready ≡ []) }
        ensures refused { IfErr result (λ fault. (icnf begun : List ℕ) (start : S)
            → IsBelowLabel self.old.kept.boards self.old.kept.given.items icnf
            (GrewBy (S.gives start) begun) (S.gives source.old) text.old
            label.now.line.items label.now.lines
            → IsReadRefused icnf (GrewBy (S.gives start) begun) fault) }
        ensures ok { OnOk result (S.failures source.new ≡ S.failures source.old) }
        ensures err { IfErr result
            (λ fault. IsReadFault (S.failures source.old) (S.failures source.new) fault) }
    {
        source.has_text();
        let target = label.target(self.site.alloc, self.site.case)?;
        let asked = target;
        if self.kept.is_named(asked) {
            return Err(ReadFault::from(label.twice()));
        }
        Ok(self.read_section(examiner, target, text, source)?)
    }

    /// Reads the sections of a text that stands at its first label line, or has none. The examiner,
    /// which holds the formula once more, is made where there is one.
    pub(crate) fn read_all<S: Stream>(
        &mut self,
        text: &mut LabelledText,
        source: &mut S,
    ) -> Result<(), ReadFault>
        requires reader { IsReader J.case self.old }
        requires ready { text.old.ready ≡ [] }
        requires count { S.failures source.old < 2 ^ 64 - 1 }
        ensures case { self.new.kept.boards.case ≡ self.old.kept.boards.case }
        ensures cut { self.new.kept.boards.cut ≡ self.old.kept.boards.cut }
        ensures all { OnOk result ((icnf : List ℕ)
            → IsReadOn self.old.kept.boards self.old.kept.given.items icnf
            (bundle_behind icnf text.old (S.gives source.old)) (S.gives source.old) text.old
            → IsAllBut self.new.kept.boards self.new.kept.given.items icnf
            (bundle_behind icnf text.old (S.gives source.old))) }
        ensures refused { IfErr result (λ fault. (icnf : List ℕ)
            → IsReadOn self.old.kept.boards self.old.kept.given.items icnf
            (bundle_behind icnf text.old (S.gives source.old)) (S.gives source.old) text.old
            → IsReadRefused icnf
            (bundle_behind icnf text.old (S.gives source.old)) fault) }
        ensures ok { OnOk result (S.failures source.new ≡ S.failures source.old) }
        ensures err { IfErr result
            (λ fault. IsReadFault (S.failures source.old) (S.failures source.new) fault) }
    {
        let Some(label) = text.take_label(self.site.alloc)? else {
            return Ok(());
        };
        let mut examiner = Examiner::over(self.site.alloc, self.site.case)?;
        self.read_from(&mut examiner, label, text, source)?;
        Ok(self.judge_left(&mut examiner)?)
    }

    /// Reads the section below a label line that was passed, and those behind it.
    fn read_from<S: Stream>(
        &mut self,
        examiner: &mut Examiner<'c>,
        first: LabelLine,
        text: &mut LabelledText,
        source: &mut S,
    ) -> Result<(), ReadFault>
        requires reader { IsReader J.case self.old }
        requires examiner { examiner.old ≡ J.case }
        requires count { S.failures source.old < 2 ^ 64 - 1 }
        ensures reader { IsReader J.case self.new }
        ensures examiner { examiner.new ≡ examiner.old }
        ensures cut { self.new.kept.boards.cut ≡ self.old.kept.boards.cut }
        ensures all { OnOk result ((icnf begun : List ℕ) (start : S)
            → IsBelowLabel self.old.kept.boards self.old.kept.given.items icnf
            (GrewBy (S.gives start) begun) (S.gives source.old) text.old
            first.line.items first.lines
            → IsAllBut self.new.kept.boards self.new.kept.given.items icnf
            (GrewBy (S.gives start) begun)) }
        ensures refused { IfErr result (λ fault. (icnf begun : List ℕ) (start : S)
            → IsBelowLabel self.old.kept.boards self.old.kept.given.items icnf
            (GrewBy (S.gives start) begun) (S.gives source.old) text.old
            first.line.items first.lines
            → IsReadRefused icnf (GrewBy (S.gives start) begun) fault) }
        ensures ok { OnOk result (S.failures source.new ≡ S.failures source.old) }
        ensures err { IfErr result
            (λ fault. IsReadFault (S.failures source.old) (S.failures source.new) fault) }
    {
        let mut label = first;
        for _ in self.site.rt.forever() {
            self.read_labelled(examiner, &label, text, source)?;
            self.kept.collect(self.site.rt);
            let Some(following) = text.take_label(self.site.alloc)? else {
                return Ok(());
            };
            label = following;
        }
        unreachable!()
    }

    /// Judges the proofs that were handed out and that nobody took yet.
    fn judge_left(&mut self, examiner: &mut Examiner<'c>) -> Result<(), AllocError>
        requires reader { IsReader J.case self.old }
        requires examiner { examiner.old ≡ J.case }
        ensures reader { IsReader J.case self.new }
        ensures marks { KeepsMarks self.old.kept.boards self.new.kept.boards
            self.old.kept.given.items self.new.kept.given.items }
    {
        for _ in self.site.rt.forever() {
            let Ok(proof) = self.not_taken.try_recv(self.site.rt) else {
                return Ok(());
            };
            self.judge_own(examiner, proof)?;
        }
        unreachable!()
    }
}
