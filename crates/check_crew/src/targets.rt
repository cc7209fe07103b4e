//! What a worker does of targets whose proofs don't stand in the case.

ghost use Rattle.std.specs.Prelude.{◌≡◌, ◌<◌, ◌^◌, ◌-◌, [], None, All, IfOk, IfErr, IfSome};
ghost use Rattle.std.specs.Prelude.{false, length, List, Option, ℕ};
ghost use Rattle.byte_flow.specs.Device.{IsDeviceFault};
ghost use Rattle.case_core.specs.Case.{proof_for};
ghost use Rattle.std.specs.Prelude.{OnOk};
ghost use Rattle.case_core.specs.Finding.{target_of};
ghost use Rattle.case_core.specs.Leaves.{HasTarget};
ghost use Rattle.board_hall.specs.Halls.{core_of, shared_of, view_of, IsPassOf};
ghost use Rattle.board_hall.specs.Clauses.{Stays};
ghost use Rattle.board_hall.specs.declared.view.View.{View};
ghost use Rattle.board_hall.specs.declared.view.Proofs.TheVariants.{Elsewhere as AnyElsewhere};
ghost use Rattle.proof_folder.specs.TargetProofs.{IsLeftOf, left_text};
ghost use Rattle.check_crew.specs.Examined.{IsExamined};
ghost use Rattle.check_crew.specs.Inner.Apart.{IsFoundOf, found_in};
ghost use Rattle.check_crew.specs.Inner.Crew.{IsReady};

use crate::gate::Gate;
use crate::site::{Site, post_found};
use crate::worker::Turns;
use board_hall::Pass;
use byte_flow::DeviceFault;
use case_core::{Case, Examiner, Judged, ReadFinding, ReadProof, Target, has_target};
use proof_folder::TargetProofs;
use std::alloc::Global;
use std::sync::Wait;
use std::sync::atomic::Ordering;

/// What became of a target that was taken.
#[derive(Clone, Copy, Debug)]
pub enum Examined {
    /// No proof lies there for it.
    Absent,
    /// Its proof is judged so, and that was posted.
    Found(Judged),
    /// The run has to be made with all proofs in one bundle: the proof has a label line, or the
    /// target has a section of its own.
    Other,
}

/// A target, and what became of it.
#[derive(Clone, Copy)]
pub(crate) struct ExaminedTarget {
    pub(crate) target: Target,
    pub(crate) examined: Examined,
}

/// A target whose proof was opened.
#[derive(Drop)]
struct OpenedTarget<T> {
    target: Target,
    proof: T,
}

/// Whether a target has a section of its own in the case.
fn has_section(case: &Case, target: Target) -> bool
    requires { HasTarget case.now.tree target }
    ensures { result ≡ false → proof_for case.now.sections target ≡ None }
{
    case.proof_for(target).is_some()
}

/// What is found by the proof of a target, which is read to its end and given back; `None` where it
/// has a label line.
fn read_target<'c, P: TargetProofs>(
    alloc: Global,
    examiner: &mut Examiner<'c>,
    proofs: &mut P,
    opened: OpenedTarget<P::Proof>,
) -> Result<Option<ReadFinding<'c>>, DeviceFault>
    requires target { HasTarget examiner.old.tree opened.target }
    requires none { proof_for examiner.old.sections opened.target ≡ None }
    requires left { IsLeftOf (P.held proofs.old opened.target)
        (left_text P.takes_binary (P.Proof.remaining opened.proof)) }
    requires fresh { P.Proof.failures opened.proof ≡ 0 }
    requires count { P.failures proofs.old < 2 ^ 64 - 1 }
    ensures same { examiner.new ≡ examiner.old }
    ensures held { P.held proofs.new ≡ P.held proofs.old }
    ensures found { IfOk result (λ some. IfSome some
        (λ read. IsFoundOf (P.held proofs.old opened.target) examiner.old opened.target read)) }
    ensures ok { OnOk result (P.failures proofs.new ≡ P.failures proofs.old) }
    ensures err { IfErr result
        (λ fault. IsDeviceFault (P.failures proofs.old) (P.failures proofs.new) fault) }
{
    let OpenedTarget { target, mut proof } = opened;
    let form = proofs.form();
    let read = examiner.examine_read(alloc, target, form, &mut proof);
    proofs.close(proof);
    found_in(read)
}

/// What is found by a proof that was read; `None` where it has a label line.
fn found_in(
    read: Result<ReadProof<'_>, DeviceFault>,
) -> Result<Option<ReadFinding<'_>>, DeviceFault>
    ensures { result ≡ found_in read.entry }
{
    match read {
        Ok(ReadProof::Found(found)) => Ok(Some(found)),
        Ok(ReadProof::Labelled(_)) => Ok(None),
        Err(fault) => Err(fault),
    }
}

/// Posts what was found by the proof of a target, and answers what became of it.
fn post_target<'c, R: Wait, G: Gate>(
    site: Site<'_, 'c, R, G>,
    worker: u32,
    pass: &mut Pass,
    target: Target,
    read: ReadFinding<'c>,
) -> Examined
    requires case { site.case.now ≡ (core_of site.core.now).case }
    requires elsewhere { (core_of site.core.now).proofs ≡ AnyElsewhere }
    requires free { proof_for site.case.now.sections target ≡ None }
    requires own { IsPassOf (shared_of site.core.now) pass.old }
    requires owes { (view_of pass.old).owes ≡ None }
    requires of { (read.finding.case.now ≡ site.case.now)
        × (target_of read.finding.leaf read.finding.node ≡ target) }
    ensures own { IsPassOf (shared_of site.entry.core.now) pass.new }
    ensures owes { (view_of pass.new).owes ≡ None }
    ensures stays { Stays (view_of pass.old) (view_of pass.new) }
    ensures examined { (known : Option (Option (List ℕ)))
        → IsFoundOf known site.entry.case.now target read.entry
        → IsExamined known (view_of pass.new) target result }
{
    let judged = read.finding.judged();
    if post_found(site, worker, pass, read) {
        Examined::Found(judged)
    } else {
        Examined::Other
    }
}

/// Judges the proof of a target while it is read, and posts what is found; the gate is called
/// beside it.
fn examine_target<'c, R: Wait, G: Gate, P: TargetProofs>(
    site: Site<'_, 'c, R, G>,
    worker: u32,
    examiner: &mut Examiner<'c>,
    proofs: &mut P,
    pass: &mut Pass,
    opened: OpenedTarget<P::Proof>,
) -> Result<Examined, DeviceFault>
    requires case { site.case.now ≡ (core_of site.core.now).case }
    requires elsewhere { (core_of site.core.now).proofs ≡ AnyElsewhere }
    requires examiner { examiner.old ≡ site.case.now }
    requires target { HasTarget site.case.now.tree opened.target }
    requires left { IsLeftOf (P.held proofs.old opened.target)
        (left_text P.takes_binary (P.Proof.remaining opened.proof)) }
    requires fresh { P.Proof.failures opened.proof ≡ 0 }
    requires count { P.failures proofs.old < 2 ^ 64 - 1 }
    requires own { IsPassOf (shared_of site.core.now) pass.old }
    requires free { (view_of pass.old).owes ≡ None }
    ensures same { examiner.new ≡ examiner.old }
    ensures held { P.held proofs.new ≡ P.held proofs.old }
    ensures own { IsPassOf (shared_of site.entry.core.now) pass.new }
    ensures owes { (view_of pass.new).owes ≡ None }
    ensures stays { Stays (view_of pass.old) (view_of pass.new) }
    ensures examined { IfOk result (λ examined. IsExamined (P.held proofs.old opened.target)
        (view_of pass.new) opened.target examined) }
    ensures ok { OnOk result (P.failures proofs.new ≡ P.failures proofs.old) }
    ensures err { IfErr result
        (λ fault. IsDeviceFault (P.failures proofs.old) (P.failures proofs.new) fault) }
{
    let target = opened.target;
    let asked = target;
    let announced = target;
    if has_section(site.case, asked) {
        site.gate.falls_back(target);
        return Ok(Examined::Other);
    }
    site.gate.before(worker, announced);
    match read_target(site.alloc, examiner, proofs, opened)? {
        Some(read) => Ok(post_target(site, worker, pass, target, read)),
        None => {
            site.gate.falls_back(target);
            Ok(Examined::Other)
        }
    }
}

/// The target of an order whose turn it is, from 0, where the tree has it. `None` behind the last.
fn target_at_turn(case: &Case, order: &[Target], turn: u64) -> Option<Target>
    ensures { IfSome result (λ target. HasTarget case.now.tree target
        × (0 < length order.now)) }
{
    let target = *order.get(turn as usize)?;
    let asked = target;
    if has_target(case.tree(), asked) {
        Some(target)
    } else {
        None
    }
}

/// Takes the next turn, which the workers count, and answers its target; `None` where none is left.
fn next_target<R, G>(turns: Turns<'_, R, G>) -> Option<Target>
    ensures { IfSome result (λ target. HasTarget turns.entry.site.case.now.tree target
        × (0 < length turns.entry.targets.now)) }
{
    let turn = turns.next.fetch_add(1, Ordering::SeqCst);
    target_at_turn(turns.site.case, turns.targets, turn)
}

/// Lets nobody take another turn.
pub(crate) fn end_targets<R, G>(turns: Turns<'_, R, G>) {
    turns
        .next
        .store(turns.targets.len() as u64, Ordering::SeqCst);
}

/// Does so where the run has to be made with all proofs in one bundle.
fn end_at_other<R, G>(turns: Turns<'_, R, G>, found: Examined) {
    if let Examined::Other = found {
        end_targets(turns);
    }
}

/// Examines a target whose turn was taken, by its proof. Where the run has to be made with all
/// proofs in one bundle, nobody takes another one.
fn take_target<'c, R: Wait, G: Gate, P: TargetProofs>(
    turns: Turns<'c, R, G>,
    worker: u32,
    examiner: &mut Examiner<'c>,
    proofs: &mut P,
    pass: &mut Pass,
    opened: OpenedTarget<P::Proof>,
) -> Result<ExaminedTarget, DeviceFault>
    requires case { turns.site.case.now ≡ (core_of turns.site.core.now).case }
    requires elsewhere { (core_of turns.site.core.now).proofs ≡ AnyElsewhere }
    requires examiner { examiner.old ≡ turns.site.case.now }
    requires target { HasTarget turns.site.case.now.tree opened.target }
    requires left { IsLeftOf (P.held proofs.old opened.target)
        (left_text P.takes_binary (P.Proof.remaining opened.proof)) }
    requires fresh { P.Proof.failures opened.proof ≡ 0 }
    requires count { P.failures proofs.old < 2 ^ 64 - 1 }
    requires own { IsPassOf (shared_of turns.site.core.now) pass.old }
    requires free { (view_of pass.old).owes ≡ None }
    ensures same { examiner.new ≡ examiner.old }
    ensures held { P.held proofs.new ≡ P.held proofs.old }
    ensures own { IsPassOf (shared_of turns.entry.site.core.now) pass.new }
    ensures owes { (view_of pass.new).owes ≡ None }
    ensures stays { Stays (view_of pass.old) (view_of pass.new) }
    ensures examined { IfOk result (λ one. IsExamined (P.held proofs.old one.target)
        (view_of pass.new) one.target one.examined) }
    ensures ok { OnOk result (P.failures proofs.new ≡ P.failures proofs.old) }
    ensures err { IfErr result
        (λ fault. IsDeviceFault (P.failures proofs.old) (P.failures proofs.new) fault) }
{
    let target = opened.target;
    let examined = examine_target(turns.site, worker, examiner, proofs, pass, opened)?;
    end_at_other(turns, examined);
    Ok(ExaminedTarget { target, examined })
}

/// Takes turns until a target has a proof, which is opened then, and answers it; those without one
/// are noted. `None` where no turn is left.
fn next_proof<R: Wait, G, P: TargetProofs>(
    turns: Turns<'_, R, G>,
    proofs: &mut P,
    examined: &mut Vec<ExaminedTarget>,
) -> Result<Option<OpenedTarget<P::Proof>>, DeviceFault>
    requires count { P.failures proofs.old < 2 ^ 64 - 1 }
    ensures held { P.held proofs.new ≡ P.held proofs.old }
    ensures target { IfOk result (λ found. IfSome found
        (λ opened. HasTarget turns.entry.site.case.now.tree opened.target)) }
    ensures some { IfOk result (λ found. IfSome found (λ _. 0 < length turns.entry.targets.now)) }
    ensures left { IfOk result (λ found. IfSome found (λ opened.
        IsLeftOf (P.held proofs.old opened.target)
        (left_text P.takes_binary (P.Proof.remaining opened.proof)))) }
    ensures fresh { IfOk result (λ found. IfSome found
        (λ opened. P.Proof.failures opened.proof ≡ 0)) }
    ensures absent { OnOk result ((view : View)
        → All (λ one. IsExamined (P.held proofs.old one.target) view one.target one.examined)
        examined.old.items
        → All (λ one. IsExamined (P.held proofs.old one.target) view one.target one.examined)
        examined.new.items) }
    ensures ok { OnOk result (P.failures proofs.new ≡ P.failures proofs.old) }
    ensures err { IfErr result
        (λ fault. IsDeviceFault (P.failures proofs.old) (P.failures proofs.new) fault) }
{
    for _ in turns.site.rt.forever() {
        let Some(target) = next_target(turns) else {
            return Ok(None);
        };
        let asked = target;
        if let Some(proof) = proofs.open(asked)? {
            return Ok(Some(OpenedTarget { target, proof }));
        }
        examined.push(ExaminedTarget {
            target,
            examined: Examined::Absent,
        })?;
    }
    unreachable!()
}

/// Examines a target whose proof was opened, and then those of further turns, until none is left or
/// a fault comes, by an examiner of its own. That holds the formula once more. One proof is open at
/// a time.
fn take_targets<R: Wait, G: Gate, P: TargetProofs>(
    turns: Turns<'_, R, G>,
    worker: u32,
    proofs: &mut P,
    pass: &mut Pass,
    examined: &mut Vec<ExaminedTarget>,
    first: OpenedTarget<P::Proof>,
) -> Result<(), DeviceFault>
    requires case { turns.site.case.now ≡ (core_of turns.site.core.now).case }
    requires elsewhere { (core_of turns.site.core.now).proofs ≡ AnyElsewhere }
    requires first { HasTarget turns.site.case.now.tree first.target }
    requires left { IsLeftOf (P.held proofs.old first.target)
        (left_text P.takes_binary (P.Proof.remaining first.proof)) }
    requires fresh { P.Proof.failures first.proof ≡ 0 }
    requires own { IsPassOf (shared_of turns.site.core.now) pass.old }
    requires free { (view_of pass.old).owes ≡ None }
    requires count { P.failures proofs.old < 2 ^ 64 - 1 }
    requires examined { All (λ one. IsExamined (P.held proofs.old one.target)
        (view_of pass.old) one.target one.examined) examined.old.items }
    ensures held { P.held proofs.new ≡ P.held proofs.old }
    ensures own { IsPassOf (shared_of turns.entry.site.core.now) pass.new }
    ensures owes { (view_of pass.new).owes ≡ None }
    ensures stays { OnOk result (Stays (view_of pass.old) (view_of pass.new)) }
    ensures examined { OnOk result (All (λ one. IsExamined (P.held proofs.old one.target)
        (view_of pass.new) one.target one.examined) examined.new.items) }
    ensures ok { OnOk result (P.failures proofs.new ≡ P.failures proofs.old) }
    ensures err { IfErr result
        (λ fault. IsDeviceFault (P.failures proofs.old) (P.failures proofs.new) fault) }
{
    let mut examiner = Examiner::over(turns.site.alloc, turns.site.case)?;
    let mut opened = first;
    for _ in turns.site.rt.forever() {
        let one = take_target(turns, worker, &mut examiner, proofs, pass, opened)?;
        examined.push(one)?;
        let Some(following) = next_proof(turns, proofs, examined)? else {
            return Ok(());
        };
        opened = following;
    }
    unreachable!()
}

/// Takes turns until none is left or a fault comes. An examiner is made when a first proof was
/// opened: a worker that meets none costs nothing.
pub(crate) fn examine_targets<R: Wait, G: Gate, P: TargetProofs>(
    turns: Turns<'_, R, G>,
    worker: u32,
    proofs: &mut P,
    pass: &mut Pass,
    examined: &mut Vec<ExaminedTarget>,
) -> Result<(), DeviceFault>
    requires ready { IsReady turns }
    requires own { IsPassOf (shared_of turns.site.core.now) pass.old }
    requires free { (view_of pass.old).owes ≡ None }
    requires count { P.failures proofs.old < 2 ^ 64 - 1 }
    requires none { examined.old.items ≡ [] }
    ensures held { P.held proofs.new ≡ P.held proofs.old }
    ensures own { IsPassOf (shared_of turns.entry.site.core.now) pass.new }
    ensures owes { (view_of pass.new).owes ≡ None }
    ensures stays { OnOk result (Stays (view_of pass.old) (view_of pass.new)) }
    ensures examined { OnOk result (All (λ one. IsExamined (P.held proofs.old one.target)
        (view_of pass.new) one.target one.examined) examined.new.items) }
    ensures ok { OnOk result (P.failures proofs.new ≡ P.failures proofs.old) }
    ensures err { IfErr result
        (λ fault. IsDeviceFault (P.failures proofs.old) (P.failures proofs.new) fault) }
{
    let Some(first) = next_proof(turns, proofs, examined)? else {
        return Ok(());
    };
    take_targets(turns, worker, proofs, pass, examined, first)
}
