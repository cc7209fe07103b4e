//! Judges proofs that are handed over part by part.
ghost use Rattle.std.specs.Prelude.{◌≡◌, ◌∷◌, ◌++◌, [], true, false, ℕ, List, IfOk};
ghost use Rattle.cnf_text.specs.Tokens.{tokens_of};
ghost use Rattle.lrat_text.specs.Grammar.{step_symbols_of};
ghost use Rattle.lrat_text.specs.Open.{proof_left};
ghost use Rattle.lrat_text.specs.StepWords.{proof_with};
ghost use Rattle.hint_check.specs.Live.{holds_empty_clause};
ghost use Rattle.hint_check.specs.Inner.Judging.{GoesOnAs, GoesOnBinary};

use crate::base::Base;
use crate::live::LiveClauses;
use crate::scratch::Scratch;
use crate::steps::{Halt, judge_steps, judge_to_end};
use crate::{Judged, Reason};
use cnf_text::literal::Lit;
use cnf_text::words::Words;
use lrat_binary_words::BinaryWords;
use lrat_text::OpenSteps;
use memchr::{memchr, memrchr};
use std::alloc::{AllocError, Global};
use std::marker::Model;
use std::mem;

/// What is said where no text was begun, and behind an error: no proof has a step of this number.
const NOT_JUDGED: Judged = Judged::Rejected {
    step: 0,
    reason: Reason::Unreadable,
};

/// Judges one proof after another, each of which is handed over part by part, as a text or as the
/// bytes of a binary proof, over a base that others may share. It keeps the live clauses, the line
/// that is begun and the step that is begun, and nothing else of the proof. To a contract it is the
/// list of the base's clauses, and what it says of each text, and of each binary proof, that may
/// follow what it was handed.
pub struct Judging<'b> {
    live: LiveClauses<'b>,
    scratch: Scratch,
    /// What is said, once it is decided.
    decided: Option<Judged>,
    /// The number of the step that comes next.
    number: u64,
    /// What isn't judged yet of the text, from a place within a line on.
    unread: Vec<u8>,
    /// What isn't judged yet of the bytes of a binary proof: a step that is begun.
    begun: Vec<u8>,
    /// Room for what will be left of that.
    left: Vec<u8>,
    /// Whether a line has ended since steps were read.
    ended: bool,
    /// So many bytes are awaited before steps are read again: then each byte of a step is read some
    /// three times at most, however many parts the step spans.
    wanted: usize,
}

// As a derive does, but proved here alone and not in the body of each owner.
impl<'b> Drop for Judging<'b> {
    fn drop(self) {
        let Judging {
            live: _,
            scratch: _,
            decided: _,
            number: _,
            unread: _,
            begun: _,
            left: _,
            ended: _,
            wanted: _,
        } = self;
    }
}

impl<'b> Model for Judging<'b> {
    ghost use Rattle.hint_check.specs.Judging.{JudgingOf, judging_code};
    ghost use Rattle.hint_check.specs.Inner.Judging.{IsOpen};

    ghost Value = { JudgingOf };

    ghost coded = { judging_code };

    ghost view = { λ j. record {
      formula = j.live.1;
      decided = j.decided;
      live = j.live.0;
      number = j.number;
      unread = j.unread.items;
      begun = j.begun.items;
    } };

    ghost invariant = { λ j. IsOpen j.decided j.live.0 };
}

impl<'b> Judging<'b> {
    ghost use Rattle.std.specs.Prelude.{◌≡◌, ◌++◌, ◌∷◌, [], ℕ, List, IfOk, OnOk, drop};
    ghost use Rattle.lrat_text.specs.Proof.{Proof, IsProofOf};
    ghost use Rattle.hint_check.specs.Judgement.{judgement};
    ghost use Rattle.lrat_binary_words.specs.Binary.{text_of};
    ghost use Rattle.hint_check.specs.Judging.{says, says_binary};

    /// A judging over a base, of no text yet. It takes memory for the base's literals and a slot
    /// for each of its clauses; an error is a refused growth.
    pub fn over(alloc: Global, base: &'b Base<'b>) -> Result<Judging<'b>, AllocError>
        ensures { IfOk result (λ judging. judging.formula ≡ base.now) }
    {
        Ok(Judging {
            live: LiveClauses::over(alloc, base)?,
            scratch: Scratch::new(alloc),
            decided: Some(NOT_JUDGED),
            number: 1,
            unread: Vec::new(alloc),
            begun: Vec::new(alloc),
            left: Vec::new(alloc),
            ended: false,
            wanted: 0,
        })
    }

    /// Begins with a text of which nothing was handed over yet, from the base's formula and a path.
    /// An error is a refused growth; behind one nothing is promised of what it says, here and
    /// below, until it begins again.
    pub fn begin(&mut self, path: &[Lit]) -> Result<(), AllocError>
        // Of each text it says the judgement of the formula, the path and the text's proof.
        ensures told { OnOk result ((text : List ℕ) (proof : Proof) → IsProofOf text proof
            → says self.new text ≡ judgement self.old.formula path.now proof) }
        // Of a binary proof it says what it says of the text that the proof stands for.
        ensures binary { OnOk result ((bytes : List ℕ)
            → says_binary self.new bytes ≡ says self.new (text_of bytes)) }
        ensures same { self.new.formula ≡ self.old.formula }
    {
        self.decided = Some(NOT_JUDGED);
        self.number = 1;
        self.ended = false;
        self.wanted = 0;
        self.begun.clear();
        self.unread.clear();
        self.unread.push(b'\n')?;
        if self.live.base_has_empty() {
            self.decided = Some(Judged::Refuted);
            return Ok(());
        }
        self.live.start_over(path)?;
        self.decided = None;
        Ok(())
    }

    /// The text goes on with these bytes. An error is a refused growth.
    pub fn more(&mut self, alloc: Global, text: &[u8]) -> Result<(), AllocError>
        // Of each rest it says what it would have said of these bytes and the rest.
        ensures told { OnOk result ((rest : List ℕ)
            → says self.new rest ≡ says self.old (text.now ++ rest)) }
        ensures same { self.new.formula ≡ self.old.formula }
    {
        let Some(end) = memchr(b'\n', text) else {
            return self.add(alloc, text);
        };
        self.add(alloc, &text[..end + 1])?;
        self.go_on(alloc, &text[end..])
    }

    /// The text goes on behind the line end with which these bytes begin. They are judged where
    /// they lie if nothing is left of what was handed over before.
    fn go_on(&mut self, alloc: Global, text: &[u8]) -> Result<(), AllocError>
        requires { text.now ≡ 10 ∷ drop 1 text.now }
        ensures told { OnOk result ((rest : List ℕ)
            → says self.new rest ≡ says self.old (drop 1 text.now ++ rest)) }
        ensures same { self.new.formula ≡ self.old.formula }
    {
        if self.decided.is_some() {
            return Ok(());
        }
        if !is_line_end(&self.unread) {
            return self.add(alloc, &text[1..]);
        }
        self.unread.clear();
        self.judge_text(alloc, text)
    }

    /// The text goes on with these bytes, which are put behind what isn't judged yet.
    fn add(&mut self, alloc: Global, text: &[u8]) -> Result<(), AllocError>
        ensures told { OnOk result ((rest : List ℕ)
            → says self.new rest ≡ says self.old (text.now ++ rest)) }
        ensures same { self.new.formula ≡ self.old.formula }
    {
        if self.decided.is_some() {
            return Ok(());
        }
        self.unread.extend_from_slice(text)?;
        self.ended = self.ended || memchr(b'\n', text).is_some();
        if !self.ended || self.unread.len() < self.wanted {
            return Ok(());
        }
        self.judge_lines(alloc)
    }

    /// Judges these bytes, where nothing is left of what was handed over before, as far as lines
    /// have ended and steps are whole.
    fn judge_text(&mut self, alloc: Global, text: &[u8]) -> Result<(), AllocError>
        requires { self.old.unread ≡ [] }
        ensures told { OnOk result ((rest : List ℕ)
            → says self.new rest ≡ says self.old (text.now ++ rest)) }
        ensures same { self.new.formula ≡ self.old.formula }
    {
        if self.decided.is_some() {
            return Ok(());
        }
        self.decided = Some(NOT_JUDGED);
        let (decided, number) = judge_lines(
            alloc,
            &mut self.live,
            &mut self.scratch,
            self.number,
            text,
            &mut self.unread,
        )?;
        self.number = number;
        self.decided = decided;
        self.ended = false;
        self.wanted = awaited(&self.unread);
        Ok(())
    }

    /// Judges what was handed over, as far as lines have ended and steps are whole.
    fn judge_lines(&mut self, alloc: Global) -> Result<(), AllocError>
        ensures told { OnOk result ((rest : List ℕ) → says self.new rest ≡ says self.old rest) }
        ensures same { self.new.formula ≡ self.old.formula }
    {
        if self.decided.is_some() {
            return Ok(());
        }
        self.decided = Some(NOT_JUDGED);
        let (decided, number) = judge_lines(
            alloc,
            &mut self.live,
            &mut self.scratch,
            self.number,
            &self.unread,
            &mut self.left,
        )?;
        self.number = number;
        self.decided = decided;
        mem::swap(&mut self.unread, &mut self.left);
        self.ended = false;
        self.wanted = awaited(&self.unread);
        Ok(())
    }

    /// What is said of the text, which ends with these bytes. They are judged where they lie if
    /// nothing is left of what was handed over before. An error is a refused growth.
    pub fn last(&mut self, alloc: Global, text: &[u8]) -> Result<Judged, AllocError>
        ensures told { IfOk result (λ judged. judged ≡ says self.old text.now) }
        ensures same { self.new.formula ≡ self.old.formula }
    {
        if let Some(judged) = self.decided {
            return Ok(judged);
        }
        self.decided = Some(NOT_JUDGED);
        if is_line_end(&self.unread) {
            let mut steps = OpenSteps::new(text);
            return judge_to_end(
                alloc,
                &mut self.live,
                &mut self.scratch,
                &mut steps,
                self.number,
            );
        }
        self.unread.extend_from_slice(text)?;
        let mut steps = OpenSteps::within(&self.unread);
        judge_to_end(
            alloc,
            &mut self.live,
            &mut self.scratch,
            &mut steps,
            self.number,
        )
    }

    /// What is said of the text, which ends here.
    pub fn end(&mut self, alloc: Global) -> Result<Judged, AllocError>
        ensures told { IfOk result (λ judged. judged ≡ says self.old []) }
        ensures same { self.new.formula ≡ self.old.formula }
    {
        self.last(alloc, &[])
    }

    /// The binary proof goes on with these bytes. They are judged where they lie, but for those of
    /// a step that is begun before them or behind. An error is a refused growth.
    pub fn more_binary(&mut self, alloc: Global, bytes: &[u8]) -> Result<(), AllocError>
        // Of each rest it says what it would have said of these bytes and the rest.
        ensures told { OnOk result ((rest : List ℕ)
            → says_binary self.new rest ≡ says_binary self.old (bytes.now ++ rest)) }
        ensures same { self.new.formula ≡ self.old.formula }
    {
        let behind = self.to_end_mark(alloc, bytes)?;
        let left = self.to_end_mark(alloc, behind)?;
        self.go_on_binary(alloc, left)
    }

    /// Where a step is begun, the binary proof goes on with the first of these bytes, up to one
    /// that may be an end mark; answers the others.
    fn to_end_mark<'t>(&mut self, alloc: Global, bytes: &'t [u8]) -> Result<&'t [u8], AllocError>
        ensures told { IfOk result (λ left. (rest : List ℕ)
            → says_binary self.new (left.now ++ rest) ≡ says_binary self.old (bytes.now ++ rest)) }
        ensures same { self.new.formula ≡ self.old.formula }
    {
        if self.begun.is_empty() {
            return Ok(bytes);
        }
        let Some(end) = memchr(0, bytes) else {
            return Ok(bytes);
        };
        self.add_binary(alloc, &bytes[..end + 1])?;
        Ok(&bytes[end + 1..])
    }

    /// The binary proof goes on with these bytes. They are judged where they lie if no step is
    /// begun before them.
    fn go_on_binary(&mut self, alloc: Global, bytes: &[u8]) -> Result<(), AllocError>
        ensures told { OnOk result ((rest : List ℕ)
            → says_binary self.new rest ≡ says_binary self.old (bytes.now ++ rest)) }
        ensures same { self.new.formula ≡ self.old.formula }
    {
        if self.begun.is_empty() {
            self.judge_bytes(alloc, bytes)
        } else {
            self.add_binary(alloc, bytes)
        }
    }

    /// The binary proof goes on with these bytes, which are put behind the step that is begun.
    fn add_binary(&mut self, alloc: Global, bytes: &[u8]) -> Result<(), AllocError>
        ensures told { OnOk result ((rest : List ℕ)
            → says_binary self.new rest ≡ says_binary self.old (bytes.now ++ rest)) }
        ensures same { self.new.formula ≡ self.old.formula }
    {
        if self.decided.is_some() {
            return Ok(());
        }
        self.begun.extend_from_slice(bytes)?;
        if self.begun.len() < self.wanted || memchr(0, bytes).is_none() {
            return Ok(());
        }
        self.judge_begun(alloc)
    }

    /// Judges these bytes of a binary proof, where no step is begun before them, as far as steps
    /// are whole.
    fn judge_bytes(&mut self, alloc: Global, bytes: &[u8]) -> Result<(), AllocError>
        requires { self.old.begun ≡ [] }
        ensures told { OnOk result ((rest : List ℕ)
            → says_binary self.new rest ≡ says_binary self.old (bytes.now ++ rest)) }
        ensures same { self.new.formula ≡ self.old.formula }
    {
        if self.decided.is_some() {
            return Ok(());
        }
        self.decided = Some(NOT_JUDGED);
        let (decided, number) = judge_binary(
            alloc,
            &mut self.live,
            &mut self.scratch,
            self.number,
            bytes,
            &mut self.begun,
        )?;
        self.number = number;
        self.decided = decided;
        self.wanted = 0;
        Ok(())
    }

    /// Judges the bytes of a binary proof that were put behind a step that is begun, as far as
    /// steps are whole.
    fn judge_begun(&mut self, alloc: Global) -> Result<(), AllocError>
        ensures told { OnOk result ((rest : List ℕ)
            → says_binary self.new rest ≡ says_binary self.old rest) }
        ensures same { self.new.formula ≡ self.old.formula }
    {
        if self.decided.is_some() {
            return Ok(());
        }
        self.decided = Some(NOT_JUDGED);
        let (decided, number) = judge_binary(
            alloc,
            &mut self.live,
            &mut self.scratch,
            self.number,
            &self.begun,
            &mut self.left,
        )?;
        self.number = number;
        self.decided = decided;
        self.wanted = awaited_binary(self.wanted, self.begun.len(), self.left.len());
        mem::swap(&mut self.begun, &mut self.left);
        Ok(())
    }

    /// What is said of the binary proof, which ends here. An error is a refused growth.
    pub fn end_binary(&mut self, alloc: Global) -> Result<Judged, AllocError>
        ensures told { IfOk result (λ judged. judged ≡ says_binary self.old []) }
        ensures same { self.new.formula ≡ self.old.formula }
    {
        if let Some(judged) = self.decided {
            return Ok(judged);
        }
        self.decided = Some(NOT_JUDGED);
        let mut steps = OpenSteps::of(BinaryWords::new(&self.begun));
        judge_to_end(
            alloc,
            &mut self.live,
            &mut self.scratch,
            &mut steps,
            self.number,
        )
    }
}

/// How many bytes are awaited before steps are read again: none where no step is begun, and else
/// twice as many as are left.
fn awaited(unread: &[u8]) -> usize {
    match memrchr(b'\n', unread) {
        Some(0) => 0,
        _ => unread.len().saturating_mul(2),
    }
}

/// Whether a text is a line end and nothing else.
fn is_line_end(text: &[u8]) -> bool
    ensures { result ≡ true → text.now ≡ 10 ∷ [] }
{
    text == b"\n".as_slice()
}

/// Judges the whole lines of a text, from these live clauses and this number of a step on; answers
/// what is decided by them, and the number of the step that comes next. What isn't judged yet is
/// put in the place of `left`.
fn judge_lines(
    alloc: Global,
    live: &mut LiveClauses,
    scratch: &mut Scratch,
    first: u64,
    unread: &[u8],
    left: &mut Vec<u8>,
) -> Result<(Option<Judged>, u64), AllocError>
    requires { holds_empty_clause live.old.0 ≡ false }
    ensures same { IfOk result (λ found. GoesOnAs live.old.0 first unread.now found.0
        live.new.0 found.1 left.new.items) }
    ensures base { live.new.1 ≡ live.old.1 }
{
    left.clear();
    let Some(end) = memrchr(b'\n', unread) else {
        left.extend_from_slice(unread)?;
        return Ok((None, first));
    };
    let lines = &unread[..end];
    let begun = &unread[end + 1..];
    let mut steps = OpenSteps::within(lines);
    let (halt, number) = judge_steps(alloc, live, scratch, &mut steps, first)?;
    if let Halt::Decided(judged) = halt {
        return Ok((Some(judged), number));
    }
    left.extend_from_slice(text_left(&steps, halt))?;
    left.push(b'\n')?;
    left.extend_from_slice(begun)?;
    Ok((None, number))
}

/// What has to be kept of the text that steps have left, which stopped so: nothing of blanks and
/// comments alone.
fn text_left<'t>(steps: &OpenSteps<Words<'t>>, halt: Halt) -> &'t [u8]
    requires { halt ≡ Halt.Blank
        → proof_with steps.now [] ≡ record { steps = []; blank = true } }
    ensures { (rest : List ℕ) → proof_left (result.now ++ 10 ∷ rest)
        ≡ proof_with steps.now (step_symbols_of (tokens_of rest)) }
{
    match halt {
        Halt::Blank => &[],
        Halt::Front | Halt::Decided(_) => steps.text(),
    }
}

/// How many bytes of a binary proof are awaited before steps are read again, where so many were, of
/// those that were read so many are left: where a step was read, no more; where none was, one more
/// at first, since its end mark may be the next, and then twice as many as are left.
fn awaited_binary(awaited: usize, read: usize, left: usize) -> usize {
    if left < read {
        0
    } else if awaited == 0 {
        left.saturating_add(1)
    } else {
        left.saturating_mul(2)
    }
}

/// Judges the whole steps of these bytes of a binary proof, from these live clauses and this number
/// of a step on; answers what is decided by them, and the number of the step that comes next. What
/// isn't judged yet is put in the place of `left`.
fn judge_binary(
    alloc: Global,
    live: &mut LiveClauses,
    scratch: &mut Scratch,
    first: u64,
    bytes: &[u8],
    left: &mut Vec<u8>,
) -> Result<(Option<Judged>, u64), AllocError>
    requires { holds_empty_clause live.old.0 ≡ false }
    ensures same { IfOk result (λ found. GoesOnBinary live.old.0 first bytes.now found.0
        live.new.0 found.1 left.new.items) }
    ensures base { live.new.1 ≡ live.old.1 }
{
    left.clear();
    let mut steps = OpenSteps::of(BinaryWords::new(bytes));
    let (halt, number) = judge_steps(alloc, live, scratch, &mut steps, first)?;
    if let Halt::Decided(judged) = halt {
        return Ok((Some(judged), number));
    }
    left.extend_from_slice(steps.words().bytes())?;
    Ok((None, number))
}
