//! The fields of a report's lines, each taken off the front of a text. A text that doesn't begin
//! with such a field gives no answer, or any.

ghost use Rattle.std.specs.Prelude.{◌≡◌, ◌≢◌, ◌<◌, ◌≤◌, ◌^◌, ℕ, List, ◌∷◌, ◌++◌, length, decimal};
ghost use Rattle.std.specs.Prelude.{IfOk, IfSome, IsNone, IsSomeAnd, MatchOption};
ghost use Rattle.std.specs.Option.{SomeIff};
ghost use Rattle.case_core.specs.Literal.{Literal, IsVariable};
ghost use Rattle.node_fields.specs.Fields.{literal_field};
ghost use Rattle.cube_join.specs.Inner.Fields.{EndsNumber, AreVariables, path_text};
ghost use Rattle.node_fields.specs.Bytes.{Lacks};

use case_core::Lit;
use std::alloc::{AllocError, Global};

/// What stands behind a front of a text.
pub(crate) fn behind<'t>(text: &'t [u8], front: &[u8]) -> Option<&'t [u8]>
    ensures { MatchOption result ((rest : List ℕ) → text.now ≢ front.now ++ rest)
        (λ rest. text.now ≡ front.now ++ rest.now) }
{
    text.strip_prefix(front)
}

/// What stands behind the first line of a text.
pub(crate) fn behind_line(text: &[u8]) -> Option<&[u8]>
    ensures { (line rest : List ℕ) → Lacks 10 line → text.now ≡ line ++ 10 ∷ rest
        → IsSomeAnd result (λ left. left.now ≡ rest) }
{
    for (index, byte) in text.iter().enumerate() {
        if *byte == b'\n' {
            return Some(&text[index + 1..]);
        }
    }
    None
}

/// The number with whose digits a text begins, and what stands behind them.
pub(crate) fn number_at_front(text: &[u8]) -> (u64, &[u8])
    ensures read { (number : ℕ) (rest : List ℕ) → number < 2 ^ 64 → EndsNumber rest
        → text.now ≡ decimal number ++ rest → (result.0 ≡ number) × (result.1.now ≡ rest) }
    ensures within { length result.1.now ≤ length text.now }
{
    let mut value: u64 = 0;
    for (index, byte) in text.iter().enumerate() {
        if !byte.is_ascii_digit() {
            return (value, &text[index..]);
        }
        value = value
            .saturating_mul(10)
            .saturating_add(u64::from(*byte - b'0'));
    }
    (value, &text[text.len()..])
}

/// The sign of the literal with whose field a text begins, and what stands behind the sign.
fn sign_at_front(text: &[u8]) -> Option<(bool, &[u8])>
    ensures sign { (literal : Literal) (rest : List ℕ) → literal.variable < 2 ^ 64
        → text.now ≡ literal_field literal ++ rest → IsSomeAnd result
        (λ read. (read.0 ≡ literal.positive) × (read.1.now ≡ decimal literal.variable ++ rest)) }
    ensures within { IfSome result (λ read. length read.1.now < length text.now) }
{
    if let Some(digits) = behind(text, b" -") {
        return Some((false, digits));
    }
    Some((true, behind(text, b" ")?))
}

/// The literal of a variable and a sign, where the formats allow the variable.
fn literal_of(variable: u64, positive: bool) -> Option<Lit>
    ensures { SomeIff result (IsVariable variable)
        (record { variable = variable; positive = positive }) }
{
    let number = i32::try_from(variable).ok()?;
    Lit::new(if positive { number } else { -number })
}

/// The literal with whose field a text begins, and what stands behind it.
pub(crate) fn literal_at_front(text: &[u8]) -> Option<(Lit, &[u8])>
    ensures some { (literal : Literal) (rest : List ℕ) → IsVariable literal.variable
        → EndsNumber rest → text.now ≡ literal_field literal ++ rest
        → IsSomeAnd result (λ read. (read.0 ≡ literal) × (read.1.now ≡ rest)) }
    ensures end { (rest : List ℕ) → EndsNumber rest → text.now ≡ 32 ∷ 48 ∷ rest
        → IsNone result }
    ensures shorter { IfSome result (λ read. length read.1.now < length text.now) }
{
    let (positive, digits) = sign_at_front(text)?;
    let (variable, rest) = number_at_front(digits);
    Some((literal_of(variable, positive)?, rest))
}

/// The path with whose fields a text begins, up to the end mark, and what stands behind that.
/// `AllocError` where a growth was refused.
pub(crate) fn path_at_front(
    alloc: Global,
    text: &[u8],
) -> Result<Option<(Vec<Lit>, &[u8])>, AllocError>
    ensures { IfOk result (λ found. (path : List Literal) (rest : List ℕ) → AreVariables path
        → EndsNumber rest → text.now ≡ path_text path rest
        → IsSomeAnd found (λ read. (read.0.items ≡ path) × (read.1.now ≡ rest))) }
{
    let mut path = Vec::new(alloc);
    let mut left = text;
    while let Some((literal, rest)) = literal_at_front(left) {
        path.push(literal)?;
        left = rest;
    }
    let Some(rest) = behind(left, b" 0") else {
        return Ok(None);
    };
    Ok(Some((path, rest)))
}
