//! Numbers of up to 128 bits anywhere among bytes.

ghost use Rattle.std.specs.Prelude.{◌≡◌, ℕ, ◌+◌, ◌*◌, ◌^◌, ◌<◌, ◌≤◌, length};
ghost use Rattle.tag_bits.specs.Digits.{value, digits, digits_of_bytes, field};
ghost use Rattle.tag_bits.specs.Calls.Digits.{with_field};

use crate::octets::{fill, number_of, number_of_eight};
use crate::parts::{part_of_eight, with_part};

/// Where a field is: it begins at bit `before` of the octet `first`, and its last bits are in the
/// octet `last`, up to the bit `kept`.
#[derive(Clone, Copy)]
struct Span {
    first: usize,
    before: u32,
    last: usize,
    kept: u32,
}

fn span_of(place: usize, width: u32) -> Span
    requires least { 1 ≤ width }
    requires most { width ≤ 128 }
    ensures start { 8 * result.first + result.before ≡ place }
    ensures end { 8 * result.last + result.kept ≡ place + width }
    ensures before { result.before < 8 }
    ensures some_kept { 1 ≤ result.kept }
    ensures kept { result.kept ≤ 8 }
{
    let first = place / 8;
    let before = (place % 8) as u32;
    let others = before + width - 1;
    Span {
        first,
        before,
        last: first + (others / 8) as usize,
        kept: others % 8 + 1,
    }
}

/// Reads a field that begins at bit `before` of the octet `first`, octet by octet.
#[inline(never)]
fn gather(bytes: &[u8], first: usize, before: u32, width: u32) -> u128
    requires least { 1 ≤ width }
    requires most { width ≤ 128 }
    requires begun { before < 8 }
    requires within { 8 * first + before + width ≤ 8 * length bytes.now }
    ensures { result ≡ value (field (digits_of_bytes bytes.now) (8 * first + before) width) }
{
    let others = before + width - 1;
    let last = first + (others / 8) as usize;
    let kept = others % 8 + 1;
    let whole = number_of(&bytes[first..last]);
    let part = bytes[last] as u128 >> (8 - kept);
    (whole << kept | part) & (u128::MAX >> (128 - width))
}

/// Reads a field of at most 64 bits that begins at bit `before` of the octet `first`. Most fields
/// lie within eight octets, which are read as one number.
#[inline(always)]
fn get_narrow(bytes: &[u8], first: usize, before: u32, width: u32) -> u128
    requires least { 1 ≤ width }
    requires most { width ≤ 64 }
    requires begun { before < 8 }
    requires within { 8 * first + before + width ≤ 8 * length bytes.now }
    ensures { result ≡ value (field (digits_of_bytes bytes.now) (8 * first + before) width) }
{
    if before + width <= 64 && first + 8 <= bytes.len() {
        let eight = number_of_eight(&bytes[first..first + 8]);
        part_of_eight(eight, before, width) as u128
    } else {
        gather(bytes, first, before, width)
    }
}

/// Reads a field of more than 64 bits that begins at bit `before` of the octet `first`.
#[inline(never)]
fn get_wide(bytes: &[u8], first: usize, before: u32, width: u32) -> u128
    requires least { 65 ≤ width }
    requires most { width ≤ 128 }
    requires begun { before < 8 }
    requires within { 8 * first + before + width ≤ 8 * length bytes.now }
    ensures { result ≡ value (field (digits_of_bytes bytes.now) (8 * first + before) width) }
{
    let upper = get_narrow(bytes, first, before, width - 64);
    let behind = before + width - 64;
    upper << 64 | get_narrow(bytes, first + (behind / 8) as usize, behind % 8, 64)
}

/// The number of the `width` bits from bit `place` on, bit 0 being the most significant of the first
/// byte (LLRP 1.1, binary encoding).
pub fn get(bytes: &[u8], place: usize, width: u32) -> u128
    requires least { 1 ≤ width }
    requires most { width ≤ 128 }
    requires within { place + width ≤ 8 * length bytes.now }
    ensures digits { digits width result ≡ field (digits_of_bytes bytes.now) place width }
    ensures value { result ≡ value (field (digits_of_bytes bytes.now) place width) }
    ensures below { result < 2 ^ width }
{
    let first = place / 8;
    let before = (place % 8) as u32;
    if width <= 64 {
        get_narrow(bytes, first, before, width)
    } else {
        get_wide(bytes, first, before, width)
    }
}

/// The octet with `value` as its `width` bits from bit `place` on.
fn octet_with(octet: u8, place: u32, width: u32, value: u128) -> u8
    requires within { place + width ≤ 8 }
    requires fits { value < 2 ^ width }
    ensures { digits 8 result ≡ with_field (digits 8 octet) place (digits width value) }
{
    with_part(octet as u128, 8, place, width, value) as u8
}

/// Sets the `width` bits from bit `place` on to `value`, and leaves all others; bit 0 is the most
/// significant of the first byte (LLRP 1.1, binary encoding).
pub fn put(bytes: &mut [u8], place: usize, width: u32, value: u128)
    requires least { 1 ≤ width }
    requires most { width ≤ 128 }
    requires within { place + width ≤ 8 * length bytes.old }
    requires fits { value < 2 ^ width }
    ensures { digits_of_bytes bytes.new
        ≡ with_field (digits_of_bytes bytes.old) place (digits width value) }
{
    let Span {
        first,
        before,
        last,
        kept,
    } = span_of(place, width);
    if first == last {
        bytes[last] = octet_with(bytes[last], before, width, value);
    } else {
        let ahead = bytes[first] as u128 >> (8 - before);
        fill(
            &mut bytes[first..last],
            ahead << (width - kept) | value >> kept,
        );
        bytes[last] = octet_with(bytes[last], 0, kept, value & ((1 << kept) - 1));
    }
}
