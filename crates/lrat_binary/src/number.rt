//! The numbers of a binary proof: seven bits a byte, the lowest first.

ghost use Rattle.std.specs.Prelude.{◌≡◌, ◌<◌, ◌+◌, ◌*◌, ◌%◌, [], map, MatchOption};
ghost use Rattle.lrat_binary.specs.Binary.{capped, numbers_of};
ghost use Rattle.lrat_binary.specs.Numbers.{IsNumber};

/// Below this no product with seven bits, and no sum with one, has more than 64.
const SMALL: u64 = 1 << 56;

/// The value of a number whose bits so far have this value, with these seven more; past 64 bits it
/// stays at the greatest.
#[inline(always)]
pub(crate) fn value_with(value: u64, scale: u64, bits: u64) -> u64
    requires { bits < 128 }
    ensures { result ≡ capped (value + scale * bits) }
{
    if scale < SMALL && value < SMALL {
        let more = scale * bits;
        return value + more;
    }
    value.saturating_add(scale.saturating_mul(bits))
}

/// What the bits behind these seven count.
#[inline(always)]
pub(crate) fn scale_behind(scale: u64) -> u64
    ensures { result ≡ capped (scale * 128) }
{
    if scale < SMALL {
        scale * 128
    } else {
        scale.saturating_mul(128)
    }
}

/// The number with which bytes of a binary proof (as CaDiCaL 2 and drat-trim write it) begin, and
/// the bytes behind it; `None` where they are no whole number. One that has more than 64 bits
/// counts as the greatest that has 64. Most numbers have one byte or two.
#[inline(always)]
pub fn next_number(bytes: &[u8]) -> Option<(u64, &[u8])>
    ensures { MatchOption result
        (map capped (numbers_of bytes.now) ≡ [])
        (λ found. IsNumber bytes.now found.0 found.1.now) }
{
    match bytes {
        [first, rest @ ..] if *first < 128 => Some((u64::from(*first), rest)),
        [first, second, rest @ ..] if *first >= 128 && *second < 128 => {
            Some((two_bytes(*first, *second), rest))
        }
        [first, second, third, rest @ ..] if *first >= 128 && *second >= 128 && *third < 128 => {
            Some((
                two_bytes(*first, *second % 128) + 16384 * u64::from(*third),
                rest,
            ))
        }
        _ => long_number(bytes),
    }
}

/// The value of two bytes, the first of which isn't the last one of its number.
#[inline(always)]
fn two_bytes(first: u8, second: u8) -> u64
    requires { second < 128 }
    ensures value { result ≡ first % 128 + 128 * second }
    ensures most { result < 16384 }
{
    u64::from(first % 128) + 128 * u64::from(second)
}

/// The number with which bytes begin, byte by byte.
#[inline(never)]
fn long_number(bytes: &[u8]) -> Option<(u64, &[u8])>
    ensures { MatchOption result
        (map capped (numbers_of bytes.now) ≡ [])
        (λ found. IsNumber bytes.now found.0 found.1.now) }
{
    let mut value = 0u64;
    let mut scale = 1u64;
    let mut left = bytes;
    while let [byte, rest @ ..] = left {
        value = value_with(value, scale, u64::from(*byte % 128));
        if *byte < 128 {
            return Some((value, rest));
        }
        scale = scale_behind(scale);
        left = rest;
    }
    None
}
