//! The words of a binary proof that are left.

ghost use Rattle.std.specs.Prelude.{◌≡◌, ◌∷◌, [], MatchOption};
ghost use Rattle.lrat_text.specs.Grammar.{IsId, positive, end_mark};
ghost use Rattle.lrat_text.specs.StepWords.{IsFront, IsCutBehind};
ghost use Rattle.lrat_binary_words.specs.Words.{cut_of, symbols_with_ends};

use crate::numeral::word_of;
use lrat_binary::next_number;
use lrat_text::{Front, StepWords, Word};
use std::marker::Model;

/// The number of the byte that begins an addition.
const ADDITION: u64 = 97;

/// The number of the byte that begins a deletion.
const DELETION: u64 = 100;

/// The words of a binary proof that are left, and which may go on within a number. To a contract it
/// is the bytes that are left.
#[derive(Drop)]
pub struct BinaryWords<'t> {
    bytes: &'t [u8],
}

impl<'t> Model for BinaryWords<'t> {
    ghost use Rattle.std.specs.Prelude.{ℕ, List};

    ghost Value = { List ℕ };

    ghost view = { λ w. w.bytes.now };
}

impl<'t> BinaryWords<'t> {
    /// The words of these bytes.
    pub fn new(bytes: &'t [u8]) -> Self
        ensures { result ≡ bytes.now }
    {
        BinaryWords { bytes }
    }

    /// The bytes that are left.
    pub fn bytes(&self) -> &'t [u8]
        ensures { result.now ≡ self.now }
    {
        self.bytes
    }

    /// What stands at the front of a step behind the mark of an addition; `None` where nothing
    /// does.
    #[inline(always)]
    fn addition(self) -> Option<(Front, Self)>
        ensures { MatchOption result
            (symbols_with_ends 2 self.entry ≡ [])
            (λ found. IsFront found.0 (symbols_with_ends 2 self.entry)
            (λ ends. symbols_with_ends ends found.1)
            × IsCutBehind found.0 (cut_of 2 self.entry) (λ ends. cut_of ends found.1)) }
    {
        let (number, rest) = next_number(self.bytes)?;
        let behind = BinaryWords { bytes: rest };
        match word_of(number) {
            Word::Positive(id) => Some(behind.behind_id(id)),
            Word::End => Some(behind.behind_zero()),
            Word::Negative(_) | Word::DeleteMark | Word::Stray => Some((Front::Unreadable, behind)),
        }
    }

    /// What stands at the front of an addition with this id, which was read.
    #[inline(always)]
    fn behind_id(self, id: u64) -> (Front, Self)
        requires { IsId id }
        ensures front { IsFront result.0 (positive id ∷ symbols_with_ends 2 self.entry)
            (λ ends. symbols_with_ends ends result.1) }
        ensures cut { IsCutBehind result.0 (cut_of 2 self.entry) (λ ends. cut_of ends result.1) }
    {
        match next_number(self.bytes) {
            Some((number, rest)) => (
                Front::Addition(id, word_of(number)),
                BinaryWords { bytes: rest },
            ),
            None => (Front::Unfinished, self),
        }
    }

    /// What stands at the front of an addition with the id 0, which was read: there is no such
    /// clause.
    fn behind_zero(self) -> (Front, Self)
        ensures front { IsFront result.0 (end_mark ∷ symbols_with_ends 1 self.entry)
            (λ ends. symbols_with_ends ends result.1) }
        ensures cut { IsCutBehind result.0 (cut_of 1 self.entry) (λ ends. cut_of ends result.1) }
    {
        match next_number(self.bytes) {
            Some(_) => (Front::Unreadable, self),
            None => (Front::Unfinished, self),
        }
    }
}

impl<'t> StepWords for BinaryWords<'t> {
    ghost ahead = { λ ends words. symbols_with_ends ends words };

    ghost cut = { λ ends words. cut_of ends words };

    #[inline(always)]
    fn saved(&self) -> Self {
        BinaryWords { bytes: self.bytes }
    }

    #[inline(always)]
    fn next_word(self) -> Option<(Word, Self)> {
        let (number, rest) = next_number(self.bytes)?;
        Some((word_of(number), BinaryWords { bytes: rest }))
    }

    #[inline(always)]
    fn next_front(self) -> Option<(Front, Self)> {
        let (number, rest) = next_number(self.bytes)?;
        let behind = BinaryWords { bytes: rest };
        match number {
            ADDITION => behind.addition(),
            DELETION => Some((Front::Deletion, behind)),
            _ => Some((Front::Unreadable, behind)),
        }
    }
}
