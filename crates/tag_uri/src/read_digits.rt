//! Reads decimal digits in front of a place of a text, eight octets at a time.

ghost use Rattle.std.specs.Prelude.{◌≡◌, ℕ, ◌+◌, ◌-◌, ◌^◌, ◌<◌, ◌≤◌, ◌++◌, ◌&&◌, ◌==◌, nat_lt, length, drop, slice_index, IfSome};
ghost use Rattle.std.specs.Int.{w64, from_be_bytes};
ghost use Rattle.tag_uri.specs.Decimal.{padded, plain};

/// Eight octets of the character `0`.
const ZEROS: u64 = 0x3030_3030_3030_3030;

/// The number of eight decimal digits, each an octet from 0 to 9 and the first the most
/// significant; `None` if an octet is more than 9.
#[inline(always)]
fn number_of_eight(digits: u64) -> Option<u64>
    ensures below { IfSome result (λ n. n < 10 ^ 8) }
    ensures digits { IfSome result (λ n. digits + 0x3030303030303030
        ≡ from_be_bytes w64 (padded 8 n)) }
{
    // An octet below 128 to which 118 is added is still below 128 only if it was at most 9.
    let more = digits.wrapping_add(0x7676_7676_7676_7676);
    if digits & 0x8080_8080_8080_8080 != 0 || more & 0x8080_8080_8080_8080 != 0 {
        return None;
    }
    // Each product adds 10, 100 or 10,000 times the first of two neighbours to the second.
    let pairs = digits.wrapping_mul(0x100 + 10) >> 8 & 0x00FF_00FF_00FF_00FF;
    let fours = pairs.wrapping_mul(0x1_0000 + 100) >> 16 & 0x0000_FFFF_0000_FFFF;
    Some(fours.wrapping_mul(0x1_0000_0000 + 10_000) >> 32)
}

/// Returns the number of the last `count` of eight octets, if those are digits. `None` does not mean
/// that they are not: callers then read them another way, so only speed depends on when it comes.
#[inline(always)]
pub fn number_of_last(octets: [u8; 8], count: usize) -> Option<u64>
    requires few { count ≤ 8 }
    ensures below { IfSome result (λ n. n < 10 ^ count) }
    ensures digits { IfSome result (λ n. drop (8 - count) octets ≡ padded count n) }
{
    if count == 0 {
        return Some(0);
    }
    let last = u64::MAX >> (64 - 8 * count);
    let Some(number) = number_of_eight(u64::from_be_bytes(octets).wrapping_sub(ZEROS) & last) else {
        return None;
    };
    Some(number)
}

/// The eight octets in front of `end`.
#[inline(always)]
fn eight_before(text: &[u8], end: usize) -> [u8; 8]
    requires ahead { 8 ≤ end }
    requires within { end ≤ length text.now }
    ensures { drop (end - 8) text.now ≡ result ++ drop end text.now }
{
    [
        text[end - 8],
        text[end - 7],
        text[end - 6],
        text[end - 5],
        text[end - 4],
        text[end - 3],
        text[end - 2],
        text[end - 1],
    ]
}

/// The number of the `count` digits in front of `end`, at most 16, if those octets are digits. At
/// least seven octets must come before the digits. Only speed depends on when `None` comes.
#[inline(always)]
pub(crate) fn digits_before(text: &[u8], end: usize, count: usize) -> Option<u64>
    requires few { count ≤ 16 }
    requires eight { 8 ≤ end }
    requires ahead { 7 + count ≤ end }
    requires within { end ≤ length text.now }
    ensures below { IfSome result (λ n. n < 10 ^ count) }
    ensures digits { IfSome result (λ n. drop (end - count) text.now ≡ padded count n
        ++ drop end text.now) }
{
    if count <= 8 {
        let Some(number) = number_of_last(eight_before(text, end), count) else {
            return None;
        };
        return Some(number);
    }
    let Some(lower) = number_of_last(eight_before(text, end), 8) else {
        return None;
    };
    let Some(upper) = number_of_last(eight_before(text, end - 8), count - 8) else {
        return None;
    };
    Some(upper * 100_000_000 + lower)
}

/// Whether `count` octets from a place on are two or more and begin with `0`.
#[inline(always)]
fn is_zero_led(text: &[u8], from: usize, count: usize) -> bool
    requires { from < length text.now }
    ensures { result ≡ (nat_lt 1 count && (slice_index text.now from == 48)) }
{
    count > 1 && text[from] == b'0'
}

/// The number between two places, if it has at most 16 digits and no leading zeros. At least seven
/// octets must come before it. Only speed depends on when `None` comes.
#[inline(always)]
pub fn plain_between(text: &[u8], from: usize, end: usize) -> Option<u64>
    requires ahead { 7 ≤ from }
    requires order { from ≤ end }
    requires within { end ≤ length text.now }
    ensures { IfSome result (λ n. drop from text.now ≡ plain n ++ drop end text.now) }
{
    let count = end - from;
    if count == 0 {
        return None;
    }
    if count > 16 {
        return None;
    }
    if is_zero_led(text, from, count) {
        return None;
    }
    let Some(number) = digits_before(text, end, count) else {
        return None;
    };
    Some(number)
}
