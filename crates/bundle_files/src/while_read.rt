//! What is said of a bundle that is read once, and judged while it is read.

ghost use Rattle.std.specs.Prelude.{◌≡◌, ◌≢◌, ◌<◌, ◌^◌, ◌-◌, ℕ, List, Option, IfOk, IfErr, OnOk};
ghost use Rattle.cube_report.specs.Device.{IsDeviceFault};
ghost use Rattle.case_core.specs.Sections.{IsCaseOf};
ghost use Rattle.cube_report.specs.Faults.{IsInputFault};
ghost use Rattle.bundle_files.specs.Judging.{IsJudgingFault};
ghost use Rattle.bundle_files.specs.Formula.{ArePlainLines, HasCount};
ghost use Rattle.bundle_files.specs.WhileRead.{IsBundleBelow, IsFrontOf, IsRefusedBelow};
ghost use Rattle.bundle_files.specs.WhileRead.{IsRunBehind};
ghost use Rattle.bundle_files.specs.Inner.WhileRead.{IsFrontFault};

use crate::formula::{BegunBundle, count_or_read};
use case_core::{Case, LabelledText, Problem, take_bundle};
use cube_report::{
    DeviceFault, Fault, Gate, Outcome, Settings, Stream, conquer_while_read, written_by,
};
use std::alloc::Global;
use std::sync::Wait;
use std::thread::Threads;

/// A bundle of which the iCNF text was read, up to its first label line or its end.
#[derive(Drop)]
pub struct BundleFront {
    /// The bundle, which stands there.
    pub(crate) text: LabelledText,
    /// Its iCNF text.
    pub(crate) icnf: Vec<u8>,
    /// What the problem line of a formula's file says, with which it begins.
    pub(crate) said: Option<Problem>,
}

impl BundleFront {
    /// The iCNF text.
    pub fn icnf(&self) -> &[u8]
        ensures { result.now ≡ self.now.icnf.items }
    {
        &self.icnf
    }
}

/// Reads the iCNF text of a bundle that is begun so and goes on with what a stream gives, and no
/// block behind it.
///
/// `Device` where a read failed, `Memory` where a growth was refused.
pub fn read_front<S: Stream>(
    alloc: Global,
    begun: BegunBundle,
    source: &mut S,
) -> Result<BundleFront, DeviceFault>
    // One more failed read can be counted.
    requires count { S.failures source.old < 2 ^ 64 - 1 }
    // What the bundle begins with has no label line.
    requires plain { ArePlainLines begun.text.items }
    // It is that of the bundle with what the stream might give.
    ensures front { IfOk result
        (IsFrontOf begun (S.gives source.old) (S.gives source.new)) }
    // The device is at fault exactly where a read failed.
    ensures ok { OnOk result (S.failures source.new ≡ S.failures source.old) }
    ensures err { IfErr result
        (λ fault. IsDeviceFault (S.failures source.old) (S.failures source.new) fault) }
{
    let BegunBundle { text: begin, said } = begun;
    let mut text = LabelledText::below(alloc, &begin)?;
    let cubes = text.front(alloc, source)?;
    let mut icnf = begin;
    icnf.extend_from_slice(&cubes)?;
    Ok(BundleFront { text, icnf, said })
}

/// The case of a bundle's iCNF text, which has as many clauses as a problem line says, where there
/// is one.
pub(crate) fn case_of_front(
    alloc: Global,
    icnf: Vec<u8>,
    said: Option<Problem>,
) -> Result<Case, Fault>
    ensures case { IfOk result (IsCaseOf icnf.items) }
    ensures counted { OnOk result (HasCount said icnf.items) }
    ensures fault { IfErr result (λ fault. IsInputFault fault
        → IsFrontFault said icnf.items fault) }
    ensures memory { IfErr result (λ fault. fault ≢ Fault.Device) }
{
    if let Some(case) = count_or_read(alloc, &icnf, said, true)? {
        return Ok(case);
    }
    Ok(take_bundle(alloc, icnf)?)
}

/// What a run says of the bundle whose iCNF text was read, at the cut that the settings say, and
/// with a picture of the tree where `draws` asks for one; or the bundle's first fault, or that it
/// has other clauses than its formula's file says.
///
/// It is read by this thread, in blocks of whole lines, and judged by it and the other workers, as
/// `conquer_while_read` says: so the bundle may be longer than memory. It is read no further where
/// its iCNF text or a label line has a fault. The gate is told of no proof before it is read.
///
/// `Device` where a read failed, `Thread` where the start of a worker was refused; `Memory` may
/// stand in the place of any other answer.
pub fn judge_while_read<R, S, G>(
    rt: &R,
    front: BundleFront,
    source: &mut S,
    settings: Settings,
    gate: &G,
    draws: bool,
) -> Result<Outcome, Fault>
where
    R: AllocGlobal + Threads + Wait + Sync,
    S: Stream,
    G: Gate + Sync,
    // One more failed read can be counted.
    requires count { S.failures source.old < 2 ^ 64 - 1 }
    // The iCNF text is that of a bundle that was begun, with what the stream gave.
    requires front { (begun : BegunBundle) × ((start : S)
        × IsFrontOf begun (S.gives start) (S.gives source.old) front) }
    // It is what a run promises on the bundle that goes on with what the stream gave, which has
    // that iCNF text, and as many clauses as is said.
    ensures outcome { (begun : BegunBundle) (start : S)
        → IsFrontOf begun (S.gives start) (S.gives source.old) front
        → IfOk result (λ outcome. IsRunBehind (IsBundleBelow begun (S.gives start)) front.icnf.items
        draws outcome.text.items outcome.map.items outcome.refuted) }
    // A fault of the input is the first one of that bundle, or that it has other clauses.
    ensures fault { (begun : BegunBundle) (start : S)
        → IsFrontOf begun (S.gives start) (S.gives source.old) front
        → IfErr result (λ fault. IsInputFault fault
        → IsRefusedBelow begun (S.gives start) fault) }
    // The device is at fault exactly where a read failed.
    ensures ok { OnOk result (S.failures source.new ≡ S.failures source.old) }
    ensures err { IfErr result (IsJudgingFault (S.failures source.old) (S.failures source.new)) }
{
    source.has_text();
    let BundleFront { text, icnf, said } = front;
    let case = case_of_front(rt.alloc(), icnf, said)?;
    let boards = conquer_while_read(rt, rt.alloc(), &case, settings, gate, text, source)?;
    Ok(written_by(rt.alloc(), &boards, draws)?)
}
