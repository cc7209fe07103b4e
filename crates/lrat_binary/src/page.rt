//! A page of text: room on the stack in whose front a text is written.

ghost use Rattle.std.specs.Prelude.{◌≡◌, ◌≤◌, ◌<◌, ◌+◌, ◌++◌, ◌∷◌, ◌==◌, [], ◌%◌, if◌then◌else◌};
ghost use Rattle.std.specs.Prelude.{IfOk, codes, decimal, length, take};
ghost use Rattle.lrat_binary.specs.Binary.{word_of};

use itoa::write_digits;
use std::alloc::AllocError;

/// Appends a byte to the page, of which so many bytes are used.
#[inline(always)]
pub(crate) fn put(page: &mut [u8], used: usize, byte: u8) -> usize
    requires { used < length page.old }
    ensures text { take result page.new ≡ take used page.old ++ byte ∷ [] }
    ensures used { result ≡ used + 1 }
{
    page[used] = byte;
    used + 1
}

/// Appends the front of a deletion.
#[inline(always)]
pub(crate) fn put_deletion(page: &mut [u8], used: usize) -> usize
    requires { used + 4 ≤ length page.old }
    ensures text { take result page.new ≡ take used page.old ++ codes "0 d " }
    ensures used { result ≡ used + 4 }
{
    let zero = put(page, used, b'0');
    let space = put(page, zero, b' ');
    let mark = put(page, space, b'd');
    put(page, mark, b' ')
}

/// Appends a word that no step has.
#[inline(always)]
pub(crate) fn put_stray(page: &mut [u8], used: usize) -> usize
    requires { used + 2 ≤ length page.old }
    ensures text { take result page.new ≡ take used page.old ++ codes "? " }
    ensures used { result ≡ used + 2 }
{
    let mark = put(page, used, b'?');
    put(page, mark, b' ')
}

/// Appends a minus if the number is odd.
#[inline(always)]
fn put_sign(page: &mut [u8], used: usize, number: u64) -> usize
    requires { used < length page.old }
    ensures text { take result page.new
        ≡ take used page.old ++ (if number % 2 == 1 then codes "-" else []) }
    ensures most { result ≤ used + 1 }
{
    page[used] = b'-';
    used + (number % 2) as usize
}

/// Appends the digits of a number.
#[inline(always)]
fn put_digits(page: &mut [u8], used: usize, number: u64) -> usize
    requires { used + 20 ≤ length page.old }
    ensures text { take result page.new ≡ take used page.old ++ decimal number }
    ensures most { result ≤ used + 20 }
{
    let end = used + digit_count(number);
    write_digits(number, page, end);
    end
}

/// Appends the word of a number within a step.
#[inline(always)]
pub(crate) fn put_word(page: &mut [u8], used: usize, number: u64) -> usize
    requires { used + 21 ≤ length page.old }
    ensures text { take result page.new ≡ take used page.old ++ word_of number }
    ensures most { result ≤ used + 21 }
{
    let behind = put_sign(page, used, number);
    put_digits(page, behind, number / 2)
}

/// How many digits a number has.
#[inline(always)]
fn digit_count(number: u64) -> usize
    ensures count { result ≡ length (decimal number) }
    ensures most { result ≤ 20 }
{
    if number < 10 {
        1
    } else if number < 100 {
        2
    } else if number < 1_000 {
        3
    } else if number < 10_000 {
        4
    } else if number < 100_000 {
        5
    } else {
        long_count(number)
    }
}

/// The same for a number that may be large.
#[inline(never)]
fn long_count(number: u64) -> usize
    ensures count { result ≡ length (decimal number) }
    ensures most { result ≤ 20 }
{
    let mut count = 1;
    let mut left = number;
    while left >= 10 {
        left /= 10;
        count += 1;
    }
    count
}

/// Makes room in the page for what stands for a number, which has 22 bytes at most: the text of a
/// page that is nearly full is appended, and none of it is used then.
#[inline(always)]
pub(crate) fn make_room(page: &[u8], used: usize, text: &mut Vec<u8>) -> Result<usize, AllocError>
    requires { used ≤ length page.now }
    ensures text { IfOk result
        (λ left. text.new.items ++ take left page.now ≡ text.old.items ++ take used page.now) }
    ensures room { IfOk result (λ left. left ≤ 4064) }
{
    if used <= 4064 {
        return Ok(used);
    }
    text.extend_from_slice(&page[..used])?;
    Ok(0)
}
