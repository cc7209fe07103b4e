//! Judges the proof of a target while it is read.

ghost use Rattle.std.specs.Prelude.{◌≡◌, ◌<◌, ◌^◌, ◌-◌, ℕ, List, Option, IfOk, IfErr, OnOk};
ghost use Rattle.std.specs.Io.KnownBytes.{Consumes};
ghost use Rattle.byte_flow.specs.Device.{IsDeviceFault};
ghost use Rattle.split_tree.specs.Leaves.{HasTarget};
ghost use Rattle.case_core.specs.Inner.Reading.{IsBegun, IsOpenedText, IsPartJudged};
ghost use Rattle.case_core.specs.Inner.Reading.{IsRestJudged, IsTextRead, SaysByText};

use crate::case::Case;
use crate::label_line::LabelLine;
use crate::labelled::LabelledText;
use byte_flow::{DeviceFault, LineBuffer, Source, Stream};
use hint_check::{Judged, Judging};
use lrat_binary::ProofForm;
use split_tree::Target;
use std::alloc::{AllocError, Global};

/// How the text of a proof is judged, and how many bytes were read for it.
#[derive(Clone, Copy)]
pub(crate) struct JudgedText {
    pub(crate) judged: Judged,
    pub(crate) length: usize,
}

/// What becomes of the text of a proof that was read.
#[derive(Drop)]
pub(crate) enum ReadText {
    /// It has no label line, and is judged so.
    Judged(JudgedText),
    /// This is its first label line.
    Labelled(LabelLine),
}

/// Begins with a proof for a target, from the case's formula and the target's path. An error is a
/// refused growth.
pub(crate) fn begin_proof(
    alloc: Global,
    case: &Case,
    judging: &mut Judging<'_>,
    target: Target,
) -> Result<(), AllocError>
    requires target { HasTarget case.now.tree target }
    requires formula { judging.old.formula ≡ case.now.formula }
    ensures begun { OnOk result (IsBegun case.now target judging.new) }
    ensures binary { OnOk result (SaysByText judging.new) }
    ensures same { judging.new.formula ≡ judging.old.formula }
{
    let path = case.tree().path_of(alloc, target)?;
    judging.begin(&path)
}

/// Judges the proof that a source gives up to its end, with which the text of a judging goes on and
/// ends. It is opened in this form: before its first byte, which decides whether it is binary, or
/// as a text. A block of it is in memory at a time, of a text one of whole lines; a text is read no
/// further where a block has a label line.
///
/// `Device` where a read failed, `Memory` where a growth was refused.
pub(crate) fn read_proof<S: Source>(
    alloc: Global,
    judging: &mut Judging<'_>,
    opened: ProofForm,
    source: &mut S,
) -> Result<ReadText, DeviceFault>
    requires count { S.failures source.old < 2 ^ 64 - 1 }
    requires begun { SaysByText judging.old }
    ensures read { IfOk result
        (IsTextRead opened (S.remaining source.old) judging.old) }
    ensures same { judging.new.formula ≡ judging.old.formula }
    ensures ok { OnOk result (S.failures source.new ≡ S.failures source.old) }
    ensures err { IfErr result
        (λ fault. IsDeviceFault (S.failures source.old) (S.failures source.new) fault) }
{
    let mut first = [0u8; 1];
    let Ok(count) = source.read(&mut first) else {
        return Err(DeviceFault::Device);
    };
    let begun = &first[..count];
    match opened.begin(begun) {
        ProofForm::Unread => {
            let judged = judging.end(alloc)?;
            Ok(ReadText::Judged(JudgedText { judged, length: 0 }))
        }
        ProofForm::Text => read_text(alloc, judging, begun, source),
        ProofForm::Binary => {
            judging.more_binary(alloc, begun)?;
            let read = read_bytes(alloc, judging, source, count)?;
            Ok(ReadText::Judged(read))
        }
    }
}

/// The same of a text that begins with these bytes.
fn read_text<S: Source>(
    alloc: Global,
    judging: &mut Judging<'_>,
    begun: &[u8],
    source: &mut S,
) -> Result<ReadText, DeviceFault>
    requires count { S.failures source.old < 2 ^ 64 - 1 }
    ensures read { (opened : ProofForm) (first : Option (List ℕ)) → IsOpenedText opened begun.now
        → Consumes first (S.remaining source.old) begun.now
        → IfOk result (IsTextRead opened first judging.old) }
    ensures same { judging.new.formula ≡ judging.old.formula }
    ensures ok { OnOk result (S.failures source.new ≡ S.failures source.old) }
    ensures err { IfErr result
        (λ fault. IsDeviceFault (S.failures source.old) (S.failures source.new) fault) }
{
    let mut text = LabelledText::begun(LineBuffer::begun(alloc, begun)?);
    let read = read_lines(alloc, judging, &mut text, source)?;
    match text.take_label(alloc)? {
        Some(label) => Ok(ReadText::Labelled(label)),
        None => Ok(ReadText::Judged(read)),
    }
}

/// Judges the rest of a binary proof, so many bytes of which were handed over to the judging.
fn read_bytes<S: Source>(
    alloc: Global,
    judging: &mut Judging<'_>,
    source: &mut S,
    handed: usize,
) -> Result<JudgedText, DeviceFault>
    requires count { S.failures source.old < 2 ^ 64 - 1 }
    ensures read { IfOk result (IsRestJudged (S.remaining source.old) judging.old handed) }
    ensures same { judging.new.formula ≡ judging.old.formula }
    ensures ok { OnOk result (S.failures source.new ≡ S.failures source.old) }
    ensures err { IfErr result
        (λ fault. IsDeviceFault (S.failures source.old) (S.failures source.new) fault) }
{
    let mut length = handed;
    let mut buffer = [0u8; 65536];
    loop {
        let Ok(count) = source.read(&mut buffer) else {
            return Err(DeviceFault::Device);
        };
        if count == 0 {
            let judged = judging.end_binary(alloc)?;
            return Ok(JudgedText { judged, length });
        }
        let Some(longer) = length.checked_add(count) else {
            return Err(DeviceFault::Memory);
        };
        judging.more_binary(alloc, &buffer[..count])?;
        length = longer;
    }
}

/// Judges a part of a text, with which the text of a judging goes on and ends: up to the text's
/// next label line, or up to its end. There it stands then.
pub(crate) fn read_lines<S: Stream>(
    alloc: Global,
    judging: &mut Judging<'_>,
    text: &mut LabelledText,
    source: &mut S,
) -> Result<JudgedText, DeviceFault>
    requires count { S.failures source.old < 2 ^ 64 - 1 }
    ensures read { IfOk result (IsPartJudged text.old text.new (S.gives source.old)
        (S.gives source.new) judging.old) }
    ensures same { judging.new.formula ≡ judging.old.formula }
    ensures ok { OnOk result (S.failures source.new ≡ S.failures source.old) }
    ensures err { IfErr result
        (λ fault. IsDeviceFault (S.failures source.old) (S.failures source.new) fault) }
{
    let mut length = 0usize;
    loop {
        let ready = text.ready();
        judging.more(alloc, ready)?;
        let Some(longer) = length.checked_add(ready.len()) else {
            return Err(DeviceFault::Memory);
        };
        length = longer;
        if !text.advance(source)? {
            let judged = judging.end(alloc)?;
            return Ok(JudgedText { judged, length });
        }
    }
}
