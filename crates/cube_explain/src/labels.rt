//! What label lines name.

use case_core::first_word;

/// A word's letter or sign, if it begins with one, and its digits without the zeros in front.
fn plain(word: &[u8]) -> (&[u8], &[u8]) {
    let signs = usize::from(word.starts_with(b"m") || word.starts_with(b"-"));
    let sign = word.get(..signs).unwrap_or(&[]);
    let digits = word.get(signs..).unwrap_or(&[]);
    let zeros = digits.iter().position(|digit| *digit != b'0');
    let rest = digits.get(zeros.unwrap_or(digits.len())..);
    (sign, rest.unwrap_or(&[]))
}

/// Whether two texts have the same words, where zeros in front of a number don't count.
pub(crate) fn have_same_words(one: &[u8], other: &[u8]) -> bool {
    let (mut left, mut behind) = (one, other);
    for _ in 0..=one.len() {
        match (first_word(left), first_word(behind)) {
            (None, None) => return true,
            (Some((word, rest)), Some((beside, others))) if plain(word) == plain(beside) => {
                (left, behind) = (rest, others);
            }
            _ => return false,
        }
    }
    false
}
