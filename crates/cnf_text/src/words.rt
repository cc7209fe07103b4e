//! The words of a text that are left, one at a time and without their lines.

ghost use Rattle.std.specs.Prelude.{◌≡◌, ◌∷◌, [], ◌≤◌, ◌<◌, ◌^◌, ℕ, List, length, map, slice_index};
ghost use Rattle.std.specs.Prelude.{true, false, Some, IsSome, IfSome, MatchOption};
ghost use Rattle.std.specs.List.{slice_split};
ghost use Rattle.cnf_text.specs.Tokens.{tokens_of, is_line_end, is_blank};
ghost use Rattle.cnf_text.specs.Numbers.{decimal};
ghost use Rattle.cnf_text.specs.Words.{words_of_lines, words_left, IsToldAs, IsNextWord};
ghost use Rattle.cnf_text.specs.Words.{IsNextLiteral};

use crate::literal::{Lit, MAX_VARIABLE};
use crate::numbers::{Number, digits_at_front, read_number};
use crate::tokens::{is_blank, is_comment, split_line, word_len};
use std::marker::Model;

/// A word as the number that it spells, or as one that spells none.
#[derive(Clone, Copy)]
pub enum Word<'t> {
    /// It spells this number.
    Number(Number),
    /// It spells no number; these are its bytes.
    Other(&'t [u8]),
}

/// What a word is told as.
fn word_of(bytes: &[u8]) -> Word<'_>
    ensures { IsToldAs bytes.now result }
{
    match read_number(bytes) {
        Some(number) => Word::Number(number),
        None => Word::Other(bytes),
    }
}

/// The words of a text that are left, from a place within a line on: those of that line, and those
/// of each line below it that is no comment.
#[derive(Drop)]
pub struct Words<'t> {
    text: &'t [u8],
}

impl<'t> Model for Words<'t> {
    ghost use Rattle.std.specs.Prelude.{ℕ, List};
    ghost use Rattle.cnf_text.specs.Words.{words_left};

    ghost Value = { List (List ℕ) };

    ghost view = { λ w. words_left w.text.now };
}

/// So many bytes are looked at with no loop.
const FRONT: usize = 9;

impl<'t> Words<'t> {
    /// The words of a text outside comments, whose first byte begins a line.
    pub fn new(text: &'t [u8]) -> Self
        ensures value { result ≡ map (λ token. token.bytes) (tokens_of text.now) }
        ensures bound { length result ≤ length text.now }
    {
        Words {
            text: uncommented(text),
        }
    }

    /// The words of a text from a place within a line on: its first line is no comment, whatever it
    /// begins with.
    pub fn within(text: &'t [u8]) -> Self
        ensures { result ≡ words_left text.now }
    {
        Words { text }
    }

    /// The text that is left, from a place within a line on.
    pub fn text(&self) -> &'t [u8]
        ensures { words_left result.now ≡ self.now }
    {
        self.text
    }

    /// The same words, to go back to.
    #[inline(always)]
    pub fn saved(&self) -> Self
        ensures { result ≡ self.now }
    {
        Words { text: self.text }
    }

    /// The next word, as the number that it spells where it spells one, and the words behind it;
    /// `None` where none is left. Most words are short numbers without a sign.
    #[inline(always)]
    pub fn next(self) -> Option<(Word<'t>, Words<'t>)>
        ensures { MatchOption result
            (self.entry ≡ [])
            (λ found. IsNextWord self.entry found.0 found.1) }
    {
        match short_number(self.text) {
            Some((magnitude, rest)) => Some((
                Word::Number(Number {
                    negative: false,
                    magnitude,
                }),
                Words { text: rest },
            )),
            None => next_elsewhere(self.text),
        }
    }

    /// The literal with which the words begin at once, and the words behind it. `None` says nothing
    /// of the words.
    #[inline(always)]
    pub fn next_literal(&self) -> Option<(Lit, Words<'t>)>
        ensures { IfSome result (λ found. IsNextLiteral self.now found.0 found.1) }
    {
        match short_literal(self.text) {
            Some((literal, rest)) => Some((literal, Words { text: rest })),
            None => None,
        }
    }
}

/// The literal with which a text begins at once, and the text behind it. There is no branch on its
/// sign, which is seldom foreseen. `None` says nothing of the text.
#[inline(always)]
fn short_literal(text: &[u8]) -> Option<(Lit, &[u8])>
    ensures { IfSome result (λ found.
        IsNextLiteral (words_left text.now) found.0 (words_left found.1.now)) }
{
    if text.len() < FRONT + 3 {
        return None;
    }
    let negative = text[0] == b'-';
    let (magnitude, rest) = short_number(&text[usize::from(negative)..])?;
    if magnitude == 0 || magnitude > u64::from(MAX_VARIABLE) {
        return None;
    }
    Some((Lit::from_parts(magnitude as u32, !negative), rest))
}

/// The number with which a text begins at once, and the text behind it. It is without a sign and
/// has at most `FRONT` digits, and a space or a line's end follows them. Where a line begins behind
/// that end which is surely no comment, the text behind the number begins there. `None` says
/// nothing of the text.
#[inline(always)]
fn short_number(text: &[u8]) -> Option<(u64, &[u8])>
    ensures found { IfSome result (λ found. (word : List ℕ)
        × (words_left text.now ≡ word ∷ words_left found.1.now)
        × (decimal word ≡ Some found.0) × (found.0 < 2 ^ 64)) }
    ensures at_once { IsSome result → is_blank (slice_index text.now 0) ≡ false }
{
    if text.len() < FRONT + 2 {
        return None;
    }
    let digits = digits_at_front(&text[..FRONT]);
    if digits.count == 0 {
        return None;
    }
    let behind = text[digits.count];
    if behind == b' ' {
        return Some((digits.value, &text[digits.count + 1..]));
    }
    if behind == b'\n' {
        let begin = text[digits.count + 1];
        if begin > b' ' && begin != b'c' {
            return Some((digits.value, &text[digits.count + 1..]));
        }
        return Some((digits.value, &text[digits.count..]));
    }
    None
}

/// The next word where it is no short number without a sign.
#[inline(always)]
fn next_elsewhere(text: &[u8]) -> Option<(Word<'_>, Words<'_>)>
    ensures { MatchOption result
        (words_left text.now ≡ [])
        (λ found. IsNextWord (words_left text.now) found.0 found.1) }
{
    if let Some(found) = short_negative(text) {
        return Some(found);
    }
    next_in_lines(text)
}

/// The number below zero with which a text begins at once, as `short_number` has it.
#[inline(always)]
fn short_negative(text: &[u8]) -> Option<(Word<'_>, Words<'_>)>
    ensures { IfSome result (λ found. IsNextWord (words_left text.now) found.0 found.1) }
{
    match text {
        [first, rest @ ..] if *first == b'-' => {
            let (magnitude, rest) = short_number(rest)?;
            if magnitude == 0 {
                return None;
            }
            Some((
                Word::Number(Number {
                    negative: true,
                    magnitude,
                }),
                Words { text: rest },
            ))
        }
        _ => None,
    }
}

/// The next word, behind blanks, line ends and comments.
#[inline(never)]
fn next_in_lines(text: &[u8]) -> Option<(Word<'_>, Words<'_>)>
    ensures { MatchOption result
        (words_left text.now ≡ [])
        (λ found. IsNextWord (words_left text.now) found.0 found.1) }
{
    let mut left = text;
    loop {
        let [first, rest @ ..] = left else {
            return None;
        };
        if !is_blank(*first) {
            return Some(word_at_once(left));
        }
        if *first == b'\n' {
            left = uncommented(rest);
        } else {
            left = rest;
        }
    }
}

/// The word with which a text begins at once.
fn word_at_once(text: &[u8]) -> (Word<'_>, Words<'_>)
    requires some { 0 < length text.now }
    requires visible { is_blank (slice_index text.now 0) ≡ false }
    ensures { IsNextWord (words_left text.now) result.0 result.1 }
{
    if let Some((magnitude, rest)) = long_number(text) {
        return (
            Word::Number(Number {
                negative: false,
                magnitude,
            }),
            Words { text: rest },
        );
    }
    let (word, rest) = text.split_at(word_len(text));
    (
        word_of(word),
        Words {
            text: behind_space(rest),
        },
    )
}

/// The number with which a text begins at once, and the text behind it. It is without a sign, and
/// it is not too large to be read at once. `None` says nothing of the text.
fn long_number(text: &[u8]) -> Option<(u64, &[u8])>
    ensures { IfSome result (λ found. (word : List ℕ)
        × (words_left text.now ≡ word ∷ words_left found.1.now)
        × (decimal word ≡ Some found.0) × (found.0 < 2 ^ 64)) }
{
    let digits = digits_at_front(text);
    if digits.count == 0 {
        return None;
    }
    let (_, rest) = text.split_at(digits.count);
    if !rest.is_empty() && !is_blank(rest[0]) {
        return None;
    }
    Some((digits.value, behind_space(rest)))
}

/// A text without the space with which it begins, if it does.
#[inline(always)]
fn behind_space(text: &[u8]) -> &[u8]
    ensures { words_left result.now ≡ words_left text.now }
{
    match text {
        [first, rest @ ..] if *first == b' ' => rest,
        _ => text,
    }
}

/// A text of whole lines from its first line on that is no comment; nothing where all are.
fn uncommented(text: &[u8]) -> &[u8]
    ensures words { words_left result.now ≡ words_of_lines (slice_split is_line_end text.now) }
    ensures within { length result.now ≤ length text.now }
{
    let mut left = text;
    loop {
        let (line, below) = split_line(left);
        if !is_comment(line) {
            return left;
        }
        let Some(below) = below else {
            return &[];
        };
        left = below;
    }
}
