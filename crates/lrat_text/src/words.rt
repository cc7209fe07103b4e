//! The words of a proof, as the reader of its steps takes them: those of a text, or others that
//! stand for the same.

ghost use Rattle.std.specs.Prelude.{◌≡◌, ◌≢◌, ◌≤◌, [], ◌∷◌, ℕ, suc, List, IfSome, IfNone};
ghost use Rattle.std.specs.Prelude.{MatchOption, Some, None};
ghost use Rattle.std.specs.Option.{option_map};
ghost use Rattle.cnf_text.specs.Numbers.{capped_number, number_of};
ghost use Rattle.cnf_text.specs.Words.{IsToldAs};
ghost use Rattle.lrat_text.specs.Grammar.{StepSymbol, step_symbol_of, positive, greatest_id, IsId};
ghost use Rattle.lrat_text.specs.StepWords.{IsReadAs, HasId, IsNext, IsFront, ends_behind};
ghost use Rattle.lrat_text.specs.StepWords.{Cut, no_cut, IsCutBehind, IsLiteralFirst};
ghost use Rattle.lrat_text.specs.Decoding.{symbols};

use crate::step::MAX_ID;
use cnf_text::literal::Lit;
use cnf_text::numbers::Number;
use cnf_text::words as told;
use cnf_text::words::Words;

/// What a word within a step is to the reader.
#[derive(Clone, Copy)]
pub enum Word {
    /// The end mark of a list.
    End,
    /// An id or a variable, from 1 to the greatest id.
    Positive(u64),
    /// One behind a minus.
    Negative(u64),
    /// The mark of a deletion.
    DeleteMark,
    /// What is none of these, or a number above the greatest id.
    Stray,
}

/// What stands at the front of a step.
#[derive(Clone, Copy)]
pub enum Front {
    /// The id of an addition, and the word behind it.
    Addition(u64, Word),
    /// The number and the mark of a deletion.
    Deletion,
    /// What begins no step, whatever follows.
    Unreadable,
    /// What may begin a step; nothing is left behind it.
    Unfinished,
}

/// The words of a proof that are left, and which may go on. To a contract they are symbols, and
/// where they are cut off. Both may depend on how many end marks are still to come in the step that
/// is begun; between steps none is.
pub trait StepWords: Drop {
    ghost ahead: { ℕ → Self → List StepSymbol };

    ghost cut: { ℕ → Self → Cut };

    /// The same words, to go back to.
    fn saved(&self) -> Self
        ensures { result ≡ self.now };

    /// The next word within a step, and the words behind it; `None` where none is left.
    fn next_word(self) -> Option<(Word, Self)>
        ensures { (ends : ℕ) → MatchOption result
            (ahead (suc ends) self ≡ [])
            (λ found. IsNext found.0 (ahead (suc ends) self)
            (ahead (ends_behind found.0 ends) found.1)
            × (cut (suc ends) self ≡ cut (ends_behind found.0 ends) found.1)) };

    /// The literal with which the words begin at once, within a step, and the words behind it.
    /// `None` says nothing of the words.
    fn next_literal(&self) -> Option<(Lit, Self)>
        ensures { (ends : ℕ) → IfSome result (λ found.
            IsLiteralFirst found.0 (ahead (suc ends) self.now) (ahead (suc ends) found.1)
            × (cut (suc ends) self.now ≡ cut (suc ends) found.1)) }
    {
        None
    }

    /// What stands at the front of the next step, and the words behind it; `None` where no word is
    /// left.
    fn next_front(self) -> Option<(Front, Self)>
        ensures { MatchOption result
            (ahead 0 self ≡ [])
            (λ found. IsFront found.0 (ahead 0 self) (λ ends. ahead ends found.1)
            × IsCutBehind found.0 (cut 0 self) (λ ends. cut ends found.1)) };
}

/// What a token is to the reader that was told as a number or as another word.
#[inline(always)]
fn word_of(told: told::Word<'_>) -> Word
    ensures { (bytes : List ℕ) → IsToldAs bytes told.entry
        → IsReadAs result (step_symbol_of bytes) × HasId result }
{
    match told {
        told::Word::Number(number) => numeral(number),
        told::Word::Other(bytes) => other(bytes),
    }
}

/// What a number is to the reader.
#[inline(always)]
fn numeral(number: Number) -> Word
    ensures { (bytes : List ℕ) → option_map capped_number (number_of bytes) ≡ Some number
        → IsReadAs result (step_symbol_of bytes) × HasId result }
{
    if number.magnitude > MAX_ID {
        Word::Stray
    } else if number.negative {
        Word::Negative(number.magnitude)
    } else if number.magnitude == 0 {
        Word::End
    } else {
        Word::Positive(number.magnitude)
    }
}

/// What a token that spells no number is to the reader.
fn other(bytes: &[u8]) -> Word
    ensures { number_of bytes.now ≡ None
        → IsReadAs result (step_symbol_of bytes.now) × HasId result }
{
    if bytes == b"d".as_slice() {
        Word::DeleteMark
    } else {
        Word::Stray
    }
}

/// The number that may stand at the front of a step.
fn front_of(word: Word) -> Option<u64>
    requires range { HasId word }
    ensures some { IfSome result (λ front. (front ≤ greatest_id) × (front ≢ 0 → IsId front)
        × ((symbol : StepSymbol) → IsReadAs word symbol → symbol ≡ positive front)) }
    ensures none { IfNone result ((symbol : StepSymbol) → IsReadAs word symbol → (front : ℕ)
        → front ≤ greatest_id → symbol ≡ positive front → ⊥) }
{
    match word {
        Word::End => Some(0),
        Word::Positive(number) => Some(number),
        Word::Negative(_) | Word::DeleteMark | Word::Stray => None,
    }
}

/// What stands at the front of a step that isn't a deletion, by its number and the word behind it.
/// There is no clause with the id 0.
#[inline(always)]
fn addition_front(id: u64, word: Word) -> Front
    requires id { id ≢ 0 → IsId id }
    requires range { HasId word }
    requires addition { word ≢ Word.DeleteMark }
    ensures { (symbol : StepSymbol) (left : ℕ → List StepSymbol) → IsReadAs word symbol
        → IsFront result (positive id ∷ symbol ∷ left (ends_behind word 1)) left }
{
    if id == 0 {
        Front::Unreadable
    } else {
        Front::Addition(id, word)
    }
}

impl<'t> StepWords for Words<'t> {
    ghost ahead = { λ ends words. symbols words };

    ghost cut = { λ ends words. no_cut };

    #[inline(always)]
    fn saved(&self) -> Self {
        Words::saved(self)
    }

    #[inline(always)]
    fn next_word(self) -> Option<(Word, Self)> {
        let (told, rest) = self.next()?;
        Some((word_of(told), rest))
    }

    #[inline(always)]
    fn next_literal(&self) -> Option<(Lit, Self)> {
        Words::next_literal(self)
    }

    #[inline(always)]
    fn next_front(self) -> Option<(Front, Self)> {
        let (first, behind) = self.next_word()?;
        let Some(front) = front_of(first) else {
            return Some((Front::Unreadable, behind));
        };
        let same = behind.saved();
        match behind.next_word() {
            None => Some((Front::Unfinished, same)),
            Some((Word::DeleteMark, rest)) => Some((Front::Deletion, rest)),
            Some((word, rest)) => Some((addition_front(front, word), rest)),
        }
    }
}
