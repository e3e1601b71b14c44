//! Looks at 32 octets of a text at once: most lines and names are no longer.

ghost use Rattle.std.specs.Prelude.{◌≡◌, ◌≤◌, ◌==◌, ℕ, MatchOption, length, not, take};
ghost use Rattle.std.specs.List.{prefix_len};
ghost use Rattle.llrp_listing.specs.Calls.Splits.{IsSplit, Lacks};

use crate::split::split_once;
use std::simd::prelude::*;

/// How many octets are looked at.
const NEAR: usize = 32;

/// How many of the first 32 octets come before the first such byte.
#[inline(always)]
fn octets_before(text: &[u8], byte: u8) -> u32
    requires { 32 ≤ length text.now }
    ensures { result ≡ prefix_len (λ x. not (x == byte)) (take 32 text.now) }
{
    let marks = u8x32::from_slice(text)
        .simd_eq(u8x32::splat(byte))
        .to_bitmask();
    if marks == 0 {
        32
    } else {
        marks.trailing_zeros()
    }
}

/// How many of the first octets of a text are those of a row.
#[inline(always)]
pub(crate) fn octets_alike(text: &[u8], row: &[u8]) -> u32
    requires text { 32 ≤ length text.now }
    requires row { 32 ≤ length row.now }
    ensures { (k : ℕ) → k ≤ result → take k text.now ≡ take k row.now }
{
    let marks = u8x32::from_slice(text)
        .simd_ne(u8x32::from_slice(row))
        .to_bitmask();
    if marks == 0 {
        32
    } else {
        marks.trailing_zeros()
    }
}

/// The bytes before the first such byte and those after it; `None` if there is no such byte. The byte is
/// likely to be near.
#[inline(always)]
pub(crate) fn split_near(bytes: &[u8], byte: u8) -> Option<(&[u8], &[u8])>
    ensures { MatchOption result (Lacks byte bytes.now)
        (λ parts. IsSplit byte bytes.now parts.0.now parts.1.now) }
{
    if bytes.len() < NEAR {
        return split_once(bytes, byte);
    }
    let place = octets_before(bytes, byte) as usize;
    if place >= NEAR {
        return split_later(bytes, byte);
    }
    let (before, rest) = bytes.split_at(place);
    let (_, after) = rest.split_at(1);
    Some((before, after))
}

/// Splits at the first such byte, if it is not among the first 32.
#[inline(always)]
fn split_later(bytes: &[u8], byte: u8) -> Option<(&[u8], &[u8])>
    requires long { 32 ≤ length bytes.now }
    requires none { 32 ≤ prefix_len (λ x. not (x == byte)) (take 32 bytes.now) }
    ensures { MatchOption result (Lacks byte bytes.now)
        (λ parts. IsSplit byte bytes.now parts.0.now parts.1.now) }
{
    let (_, others) = bytes.split_at(NEAR);
    if others.len() < NEAR {
        return split_once(bytes, byte);
    }
    let place = octets_before(others, byte) as usize;
    if place >= NEAR {
        return split_once(bytes, byte);
    }
    let (before, rest) = bytes.split_at(NEAR + place);
    let (_, after) = rest.split_at(1);
    Some((before, after))
}
