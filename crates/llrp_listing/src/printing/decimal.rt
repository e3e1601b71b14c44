//! Numbers in decimal, put into lent room at a place, two digits at a time.

ghost use Rattle.std.specs.Prelude.{◌≡◌, ◌+◌, ◌/◌, ◌%◌, ◌^◌, ◌<◌, ◌≤◌, [], ◌∷◌, length, decimal};
ghost use Rattle.tag_uri.specs.Decimal.{padded};
ghost use Rattle.llrp_listing.specs.NodeLine.{signed_text};
ghost use Rattle.llrp_listing.specs.Private.Place.{Puts};

use crate::printing::put::{put_last, put_octet, put_text, put_two};
use itoa::Buffer;
use tag_uri::{count_of_few, pair};

/// How many hundreds a number below 10,000 has; a product and a shift take its place.
#[inline(always)]
fn hundreds(number: u32) -> u32
    requires { number < 10000 }
    ensures { result ≡ number / 100 }
{
    number * 5243 >> 19
}

/// The eight digits of a number below 10 ^ 8.
#[inline(always)]
fn eight(number: u32) -> [u8; 8]
    requires { number < 10 ^ 8 }
    ensures { result ≡ padded 8 number }
{
    let upper = number / 10_000;
    let lower = number % 10_000;
    let [a, b] = pair(upper / 100);
    let [c, d] = pair(upper % 100);
    let [e, f] = pair(lower / 100);
    let [g, h] = pair(lower % 100);
    [a, b, c, d, e, f, g, h]
}

/// Puts the eight digits of a number below 10 ^ 8.
#[inline(always)]
fn put_eight_digits(room: &mut [u8], at: usize, number: u32) -> usize
    requires fits { number < 10 ^ 8 }
    requires room { at + 8 ≤ length room.old }
    ensures text { Puts room.old room.new at result (padded 8 number) }
    ensures ends { result ≡ at + 8 }
{
    let upper = number / 10_000;
    let lower = number % 10_000;
    let first = hundreds(upper);
    let third = hundreds(lower);
    let second_at = put_two(room, at, pair(first));
    let third_at = put_two(room, second_at, pair(upper - 100 * first));
    let fourth_at = put_two(room, third_at, pair(third));
    put_two(room, fourth_at, pair(lower - 100 * third))
}

/// Puts a number below 100.
#[inline(always)]
pub(crate) fn put_below_hundred(room: &mut [u8], at: usize, number: u32) -> usize
    requires fits { number < 100 }
    requires room { at + 2 ≤ length room.old }
    ensures { Puts room.old room.new at result (decimal number) }
{
    if number < 10 {
        put_octet(room, at, b'0' + number as u8)
    } else {
        put_two(room, at, pair(number))
    }
}

/// Puts a number of at most four digits.
#[inline(always)]
fn put_few(room: &mut [u8], at: usize, number: u32) -> usize
    requires fits { number < 10000 }
    requires room { at + 4 ≤ length room.old }
    ensures text { Puts room.old room.new at result (decimal number) }
    ensures most { result ≤ at + 4 }
{
    if number < 100 {
        return put_below_hundred(room, at, number);
    }
    let lower_at = put_below_hundred(room, at, number / 100);
    put_two(room, lower_at, pair(number % 100))
}

/// Puts a number of at most eight digits. Eight octets of the room may change.
#[inline(always)]
fn put_short(room: &mut [u8], at: usize, number: u32) -> usize
    requires fits { number < 10 ^ 8 }
    requires room { at + 8 ≤ length room.old }
    ensures text { Puts room.old room.new at result (decimal number) }
    ensures most { result ≤ at + 8 }
{
    if number >= 10_000_000 {
        return put_eight_digits(room, at, number);
    }
    put_last(room, at, eight(number), count_of_few(number as u64))
}

/// Puts a number of 9 to 20 digits. It stays a call, so that what calls it is small enough to be inlined.
#[inline(never)]
fn put_long(room: &mut [u8], at: usize, number: u64) -> usize
    requires long { 10 ^ 8 ≤ number }
    requires room { at + 20 ≤ length room.old }
    ensures text { Puts room.old room.new at result (decimal number) }
    ensures most { result ≤ at + 20 }
{
    let high = number / 100_000_000;
    let low = (number % 100_000_000) as u32;
    let low_at = put_upper(room, at, high);
    put_eight_digits(room, low_at, low)
}

/// Puts a number of at most 12 digits.
#[inline(always)]
fn put_upper(room: &mut [u8], at: usize, number: u64) -> usize
    requires fits { number < 10 ^ 12 }
    requires room { at + 12 ≤ length room.old }
    ensures text { Puts room.old room.new at result (decimal number) }
    ensures most { result ≤ at + 12 }
{
    if number < 100_000_000 {
        put_short(room, at, number as u32)
    } else {
        put_higher(room, at, number)
    }
}

/// Puts a number of 9 to 12 digits.
#[inline(always)]
fn put_higher(room: &mut [u8], at: usize, number: u64) -> usize
    requires long { 10 ^ 8 ≤ number }
    requires fits { number < 10 ^ 12 }
    requires room { at + 12 ≤ length room.old }
    ensures text { Puts room.old room.new at result (decimal number) }
    ensures most { result ≤ at + 12 }
{
    let low_at = put_few(room, at, (number / 100_000_000) as u32);
    put_eight_digits(room, low_at, (number % 100_000_000) as u32)
}

/// Puts a number. 20 octets of the room may change.
#[inline(always)]
pub(crate) fn put_decimal(room: &mut [u8], at: usize, number: u64) -> usize
    requires { at + 20 ≤ length room.old }
    ensures text { Puts room.old room.new at result (decimal number) }
    ensures most { result ≤ at + 20 }
{
    if number >= 100_000_000 {
        put_long(room, at, number)
    } else if number < 10 {
        put_octet(room, at, b'0' + number as u8)
    } else if number < 10_000 {
        put_few(room, at, number as u32)
    } else {
        put_short(room, at, number as u32)
    }
}

/// Puts a number of any width; no field of the tables has as many bits, so it is never called.
#[inline(never)]
fn put_wide(room: &mut [u8], at: usize, number: u128) -> usize
    requires { at + 40 ≤ length room.old }
    ensures text { Puts room.old room.new at result (decimal number) }
    ensures most { result ≤ at + 40 }
{
    let mut digits = Buffer::new();
    put_text(room, at, digits.format(number).as_bytes())
}

/// Puts a number of any width. 40 octets of the room may change.
#[inline(always)]
pub(crate) fn put_number(room: &mut [u8], at: usize, number: u128) -> usize
    requires { at + 40 ≤ length room.old }
    ensures text { Puts room.old room.new at result (decimal number) }
    ensures most { result ≤ at + 40 }
{
    if number <= u64::MAX as u128 {
        put_decimal(room, at, number as u64)
    } else {
        put_wide(room, at, number)
    }
}

/// Puts eight bits as a number in two's complement.
#[inline(always)]
pub(crate) fn put_signed(room: &mut [u8], at: usize, bits: u8) -> usize
    requires { at + 5 ≤ length room.old }
    ensures text { Puts room.old room.new at result (signed_text bits) }
    ensures most { result ≤ at + 5 }
{
    if bits < 128 {
        return put_few(room, at, bits as u32);
    }
    let digits_at = put_octet(room, at, b'-');
    put_few(room, digits_at, 256 - bits as u32)
}
