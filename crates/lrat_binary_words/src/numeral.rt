//! What a number within a step is to the reader of steps.

ghost use Rattle.lrat_binary_words.specs.Inner.Numerals.{IsWordOf};

use lrat_text::{MAX_ID, Word};

/// What a number within a step is: half of it, below zero where it is odd.
#[inline(always)]
pub(crate) fn word_of(number: u64) -> Word
    ensures { IsWordOf result number }
{
    let half = number / 2;
    if half > MAX_ID {
        Word::Stray
    } else if number % 2 == 1 {
        if half == 0 {
            Word::Stray
        } else {
            Word::Negative(half)
        }
    } else if half == 0 {
        Word::End
    } else {
        Word::Positive(half)
    }
}
