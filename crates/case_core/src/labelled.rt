//! A text that is read once, and stands at its label lines.

ghost use Rattle.std.specs.Prelude.{◌≡◌, ◌+◌, ◌≤◌, length, IfSome, MatchOption};
ghost use Rattle.case_core.specs.Inner.Labelled.{IsCutFrom};

use crate::bundle::{cut, line_ends};
use crate::label_line::LabelLine;
use byte_flow::{DeviceFault, LineBuffer, Stream};
use cnf_text::tokens::split_line;
use std::alloc::{AllocError, Global};
use std::marker::Model;

/// Lines that were taken of a text.
#[derive(Drop)]
pub struct TakenLines {
    /// The lines.
    pub lines: Vec<u8>,
    /// They are all up to the text's next label line, or up to its end.
    pub is_part: bool,
}

/// A text that is read once, in blocks of whole lines, and stands at its label lines. A caller
/// hands the stream to each call.
pub struct LabelledText {
    buffer: LineBuffer,
    /// So many bytes of the block were handed out.
    at: usize,
    /// From there up to here no line of the block is a label line.
    end: usize,
    /// No block comes behind this one.
    is_last: bool,
    /// So many lines of the text ended before what is ready.
    lines: u64,
}

// As a derive does, but proved here alone and not in the body of each owner.
impl Drop for LabelledText {
    fn drop(self) {
        let LabelledText {
            buffer: _,
            at: _,
            end: _,
            is_last: _,
            lines: _,
        } = self;
    }
}

impl Model for LabelledText {
    ghost use Rattle.case_core.specs.Labelled.{LabelledOf, labelled_code};
    ghost use Rattle.case_core.specs.Inner.Labelled.{IsTextKept, labelled_text};

    ghost Value = { LabelledOf };

    ghost coded = { labelled_code };

    ghost view = { λ t. labelled_text t.buffer t.at t.end t.is_last t.lines };

    ghost invariant = { λ t. IsTextKept t.buffer t.at t.end t.is_last };
}

impl LabelledText {
    ghost use Rattle.std.specs.Prelude.{◌≡◌, ◌<◌, ◌^◌, ◌-◌, [], IfOk, IfErr, OnOk, MatchOption};
    ghost use Rattle.std.specs.Prelude.{false};
    ghost use Rattle.byte_flow.specs.Device.{IsDeviceFault};
    ghost use Rattle.case_core.specs.Inner.Bundle.{HasNoLabel};
    ghost use Rattle.case_core.specs.Inner.Labelled.{HasAdvanced};
    ghost use Rattle.case_core.specs.Labelled.{IsFrontWithin, IsLabelTaken, IsPart, fresh_text};
    ghost use Rattle.case_core.specs.Labelled.{text_below};

    /// A text below this front, of which nothing was read yet: its lines are counted from the
    /// front's first one. An error is a refused growth.
    pub fn below(alloc: Global, front: &[u8]) -> Result<LabelledText, AllocError>
        ensures { IfOk result (λ text. text ≡ text_below front.now) }
    {
        let mut text = LabelledText::begun(LineBuffer::new(alloc)?);
        text.lines = line_ends(front) as u64;
        Ok(text)
    }

    /// A text of which this buffer has read the beginning, and no block yet.
    pub(crate) fn begun(buffer: LineBuffer) -> LabelledText
        requires { buffer.block ≡ [] }
        ensures { result ≡ fresh_text buffer.begun }
    {
        LabelledText {
            buffer,
            at: 0,
            end: 0,
            is_last: false,
            lines: 0,
        }
    }

    /// What is in memory of the lines before the next label line.
    pub(crate) fn ready(&self) -> &[u8]
        ensures value { result.now ≡ self.now.ready }
        ensures plain { HasNoLabel self.now.ready }
    {
        &self.buffer.block()[self.at..self.end]
    }

    /// Goes behind what is ready, and answers whether more is: where a label line follows, or the
    /// text is over, nothing is.
    ///
    /// `Device` where a read failed, `Memory` where a growth was refused, or the lines are too many
    /// to be counted.
    pub(crate) fn advance<S: Stream>(&mut self, source: &mut S) -> Result<bool, DeviceFault>
        requires { S.failures source.old < 2 ^ 64 - 1 }
        ensures gone { IfOk result
            (HasAdvanced self.old self.new (S.gives source.old) (S.gives source.new)) }
        ensures ok { OnOk result (S.failures source.new ≡ S.failures source.old) }
        ensures err { IfErr result
            (λ fault. IsDeviceFault (S.failures source.old) (S.failures source.new) fault) }
    {
        let block = self.buffer.block();
        let ends = line_ends(&block[self.at..self.end]);
        // (`|` asks both, so that what follows is proved on one way)
        let is_over = self.is_last | !block[self.end..].is_empty();
        let Some(lines) = self.lines.checked_add(ends as u64) else {
            return Err(DeviceFault::Memory);
        };
        self.lines = lines;
        if is_over {
            self.at = self.end;
            return Ok(false);
        }
        self.at = 0;
        self.end = 0;
        let is_whole = self.buffer.refill(source)?;
        self.is_last = !is_whole;
        self.end = cut_from(self.buffer.block(), 0);
        Ok(self.end > 0)
    }

    /// The label line at which the text stands, where nothing is ready before it: the text goes on
    /// behind that line. `None` where it stands at none. An error is a refused growth, or that the
    /// lines are too many to be counted.
    pub fn take_label(&mut self, alloc: Global) -> Result<Option<LabelLine>, AllocError>
        requires { self.old.ready ≡ [] }
        // It is the line with which what is behind begins, and the text goes on with the rest.
        ensures label { IfOk result (λ some. MatchOption some
            ((self.old.at_label ≡ false) × (self.new ≡ self.old))
            (λ label. IsLabelTaken self.old self.new label.line.items label.lines)) }
    {
        let block = self.buffer.block();
        let text = &block[self.end..];
        if text.is_empty() {
            return Ok(None);
        }
        let (line, below) = split_line(text);
        let start = begin_of(block, below);
        let end = cut_from(block, start);
        let line = line.to_vec(alloc)?;
        let before = self.lines;
        let Some(lines) = before.checked_add(1) else {
            return Err(AllocError);
        };
        self.at = start;
        self.end = end;
        self.lines = lines;
        Ok(Some(LabelLine {
            line,
            lines: before,
        }))
    }

    /// The lines of the text up to its next label line, or up to its end, as one text. There it
    /// stands then.
    ///
    /// `Device` where a read failed, `Memory` where a growth was refused, or the lines are too many
    /// to be counted.
    pub fn front<S: Stream>(
        &mut self,
        alloc: Global,
        source: &mut S,
    ) -> Result<Vec<u8>, DeviceFault>
        requires { S.failures source.old < 2 ^ 64 - 1 }
        ensures part { IfOk result (λ front. IsPart self.old self.new (S.gives source.old)
            (S.gives source.new) front.items) }
        ensures ok { OnOk result (S.failures source.new ≡ S.failures source.old) }
        ensures err { IfErr result
            (λ fault. IsDeviceFault (S.failures source.old) (S.failures source.new) fault) }
    {
        let TakenLines { lines, is_part } = self.front_within(Vec::new(alloc), source, usize::MAX)?;
        // (no lines in memory are more than so many bytes)
        if !is_part {
            unreachable!()
        }
        Ok(lines)
    }

    /// The lines of the text up to its next label line, or up to its end: there it stands then. If
    /// they don't end with the block that makes them more than `most` bytes, it is only what they
    /// begin with, up to that block's end, and the text goes on behind it.
    ///
    /// They are put into a list that was used, of which nothing stays but its room.
    ///
    /// `Device` where a read failed, `Memory` where a growth was refused, or the lines are too many
    /// to be counted.
    pub fn front_within<S: Stream>(
        &mut self,
        used: Vec<u8>,
        source: &mut S,
        most: usize,
    ) -> Result<TakenLines, DeviceFault>
        requires { S.failures source.old < 2 ^ 64 - 1 }
        ensures taken { IfOk result (λ taken. IsFrontWithin self.old self.new (S.gives source.old)
            (S.gives source.new) most taken.lines.items taken.is_part) }
        ensures ok { OnOk result (S.failures source.new ≡ S.failures source.old) }
        ensures err { IfErr result
            (λ fault. IsDeviceFault (S.failures source.old) (S.failures source.new) fault) }
    {
        let mut lines = used;
        lines.clear();
        loop {
            lines.extend_from_slice(self.ready())?;
            if !self.advance(source)? {
                return Ok(TakenLines {
                    lines,
                    is_part: true,
                });
            }
            if lines.len() > most {
                return Ok(TakenLines {
                    lines,
                    is_part: false,
                });
            }
        }
    }
}

/// Where the end of a block begins; `None` is an empty one.
fn begin_of(block: &[u8], end: Option<&[u8]>) -> usize
    requires { IfSome end (λ rest. length rest.now ≤ length block.now) }
    ensures { MatchOption end.entry (result ≡ length block.now)
        (λ rest. result + length rest.now ≡ length block.now) }
{
    match end {
        Some(end) => block.len() - end.len(),
        None => block.len(),
    }
}

/// Up to which place no line of a block, from this place on, is a label line: there one begins, or
/// the block ends.
fn cut_from(block: &[u8], at: usize) -> usize
    requires { at ≤ length block.now }
    ensures { IsCutFrom block.now at result }
{
    let (front, _) = cut(&block[at..]);
    at + front.len()
}
