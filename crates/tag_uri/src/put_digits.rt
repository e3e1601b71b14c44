//! Writes decimal digits in front of a place of lent room. A number's last digits are where the
//! text after it begins, so nothing has to be known of its leading zeros: what is written in front
//! of the number is overwritten.

ghost use Rattle.std.specs.Prelude.{◌≡◌, ℕ, ◌+◌, ◌-◌, ◌*◌, ◌/◌, ◌%◌, ◌^◌, ◌<◌, ◌≤◌, ◌++◌, ◌∷◌, length, take, drop};
ghost use Rattle.tag_uri.specs.Decimal.{padded, plain};
ghost use Rattle.tag_uri.specs.Room.{HasText};
ghost use Rattle.std.specs.Str.{IsUtf8};

use arrayvec::ArrayString;
use std::str;

/// The two digits of each number from 0 to 99.
static PAIRS: [u8; 200] =
    *b"00010203040506070809101112131415161718192021222324252627282930313233343536373839404142434445464748495051525354555657585960616263646566676869707172737475767778798081828384858687888990919293949596979899";

/// The two digits of a number below 100.
#[inline(always)]
pub fn pair(number: u32) -> [u8; 2]
    requires { number < 100 }
    ensures { result ≡ padded 2 number }
{
    let from = 2 * number as usize;
    [PAIRS[from], PAIRS[from + 1]]
}

/// Writes the two digits of a number below 100 in front of `end`.
#[inline(always)]
fn put_pair(room: &mut [u8], end: usize, number: u32)
    requires fits { number < 100 }
    requires ahead { 2 ≤ end }
    requires within { end ≤ length room.old }
    ensures { room.new ≡ take (end - 2) room.old ++ (padded 2 number ++ drop end room.old) }
{
    let digits = pair(number);
    room[end - 2..end].copy_from_slice(&digits);
}

/// Writes the four digits of a number below 10,000 in front of `end`.
#[inline(always)]
fn put_four(room: &mut [u8], end: usize, number: u32)
    requires fits { number < 10 ^ 4 }
    requires ahead { 4 ≤ end }
    requires within { end ≤ length room.old }
    ensures { room.new ≡ take (end - 4) room.old ++ (padded 4 number ++ drop end room.old) }
{
    put_pair(room, end, number % 100);
    put_pair(room, end - 2, number / 100);
}

/// Writes the eight digits of a number below 10 ^ 8 in front of `end`.
#[inline(always)]
fn put_eight(room: &mut [u8], end: usize, number: u32)
    requires fits { number < 10 ^ 8 }
    requires ahead { 8 ≤ end }
    requires within { end ≤ length room.old }
    ensures { room.new ≡ take (end - 8) room.old ++ (padded 8 number ++ drop end room.old) }
{
    put_four(room, end, number % 10_000);
    put_four(room, end - 4, number / 10_000);
}

/// Writes the last digits of a number in front of `end`: twelve if `count` is at most twelve, and
/// 16 otherwise.
#[inline(always)]
fn put_many(room: &mut [u8], end: usize, number: u64, count: usize)
    requires fits { number < 10 ^ count }
    requires few { count ≤ 16 }
    requires ahead { 16 ≤ end }
    requires within { end ≤ length room.old }
    ensures written { drop (end - count) room.new ≡ padded count number ++ drop end room.old }
    ensures kept { (p : ℕ) → p + 16 ≤ end → take p room.new ≡ take p room.old }
    ensures len { length room.new ≡ length room.old }
{
    put_eight(room, end, (number % 100_000_000) as u32);
    let upper = (number / 100_000_000) as u32;
    if count <= 12 {
        put_four(room, end - 8, upper);
    } else {
        put_eight(room, end - 8, upper);
    }
}

/// Writes the last `count` digits of a number in front of `end`, at most 16. The 16 octets in front of
/// `end` may change.
#[inline(always)]
fn put_last(room: &mut [u8], end: usize, number: u64, count: usize)
    requires fits { number < 10 ^ count }
    requires few { count ≤ 16 }
    requires ahead { 16 ≤ end }
    requires within { end ≤ length room.old }
    ensures written { drop (end - count) room.new ≡ padded count number ++ drop end room.old }
    ensures kept { (p : ℕ) → p + 16 ≤ end → take p room.new ≡ take p room.old }
    ensures len { length room.new ≡ length room.old }
{
    if count <= 4 {
        put_four(room, end, number as u32);
    } else if count <= 8 {
        put_eight(room, end, number as u32);
    } else {
        put_many(room, end, number, count);
    }
}

/// Writes the last `count` digits of a number in front of `end`, at most 16, and returns where they
/// begin. The 16 octets in front of `end` may change.
#[inline(always)]
pub(crate) fn put_padded(room: &mut [u8], end: usize, number: u64, count: usize) -> usize
    requires fits { number < 10 ^ count }
    requires few { count ≤ 16 }
    requires ahead { 16 ≤ end }
    requires within { end ≤ length room.old }
    ensures begin { result + count ≡ end }
    ensures written { drop result room.new ≡ padded count number ++ drop end room.old }
    ensures kept { (p : ℕ) → p + 16 ≤ end → take p room.new ≡ take p room.old }
    ensures len { length room.new ≡ length room.old }
{
    put_last(room, end, number, count);
    end - count
}

/// The text that ends at `end`.
#[inline(always)]
pub(crate) fn text_before(room: &[u8; 64], end: usize) -> ArrayString<64>
    requires within { end ≤ 64 }
    requires text { IsUtf8 (take end room.now) }
    ensures { result.bytes ≡ take end room.now }
{
    let mut text = ArrayString::new();
    // It is proved to be UTF-8, so it need not be checked again.
    text.push_str(unsafe { str::from_utf8_unchecked(&room[..end]) });
    text
}

/// Writes a text into `room` from `at` on, and returns where it ends.
#[inline(always)]
pub(crate) fn put_text(room: &mut [u8], at: usize, text: &[u8]) -> usize
    requires { at + length text.now ≤ length room.old }
    ensures { HasText room.old room.new at result text.now }
{
    let end = at + text.len();
    room[at..end].copy_from_slice(text);
    end
}

/// Writes one octet in front of `end`, and returns where it is.
#[inline(always)]
pub(crate) fn put_octet(room: &mut [u8], end: usize, octet: u8) -> usize
    requires ahead { 1 ≤ end }
    requires within { end ≤ length room.old }
    ensures begin { result + 1 ≡ end }
    ensures written { drop result room.new ≡ octet ∷ drop end room.old }
    ensures kept { (p : ℕ) → p + 1 ≤ end → take p room.new ≡ take p room.old }
    ensures len { length room.new ≡ length room.old }
{
    room[end - 1] = octet;
    end - 1
}

/// Writes a number below 10 ^ 13 without leading zeros in front of `end`, and returns where it begins.
/// `count` is how many digits it has. The 16 octets in front of `end` may change.
#[inline(always)]
pub(crate) fn put_plain(room: &mut [u8], end: usize, number: u64, count: usize) -> usize
    requires fits { number < 10 ^ 13 }
    requires counted { count ≡ length (plain number) }
    requires ahead { 16 ≤ end }
    requires within { end ≤ length room.old }
    ensures begin { result + count ≡ end }
    ensures written { drop result room.new ≡ plain number ++ drop end room.old }
    ensures kept { (p : ℕ) → p + 16 ≤ end → take p room.new ≡ take p room.old }
    ensures len { length room.new ≡ length room.old }
{
    put_padded(room, end, number, count)
}

/// How many digits a number below 10 ^ 13 has.
#[inline(always)]
pub(crate) fn count_of(number: u64) -> usize
    requires { number < 10 ^ 13 }
    ensures count { result ≡ length (plain number) }
    ensures few { result ≤ 13 }
{
    if number < 10_000_000 {
        count_of_few(number)
    } else if number < 1_000_000_000_000 {
        count_of_many(number)
    } else {
        13
    }
}

/// How many digits a number of at most seven has.
#[inline(always)]
pub fn count_of_few(number: u64) -> usize
    requires { number < 10 ^ 7 }
    ensures count { result ≡ length (plain number) }
    ensures few { result ≤ 7 }
{
    if number < 1_000 {
        if number < 10 {
            1
        } else if number < 100 {
            2
        } else {
            3
        }
    } else if number < 100_000 {
        if number < 10_000 { 4 } else { 5 }
    } else if number < 1_000_000 {
        6
    } else {
        7
    }
}

/// How many digits a number of eight to twelve has.
#[inline(always)]
fn count_of_many(number: u64) -> usize
    requires least { 10 ^ 7 ≤ number }
    requires most { number < 10 ^ 12 }
    ensures count { result ≡ length (plain number) }
    ensures few { result ≤ 12 }
{
    if number < 1_000_000_000 {
        if number < 100_000_000 { 8 } else { 9 }
    } else if number < 100_000_000_000 {
        if number < 10_000_000_000 { 10 } else { 11 }
    } else {
        12
    }
}
