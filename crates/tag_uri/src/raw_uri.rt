//! The hexadecimal digits of a raw URI.

ghost use Rattle.std.specs.Prelude.{◌≡◌, ℕ, ◌+◌, ◌^◌, ◌<◌, ◌≤◌, false, length, IfSome, IfNone, slice_index, codes};
ghost use Rattle.std.specs.List.{AllPass};
ghost use Rattle.tag_uri.specs.Hexadecimal.{hexadecimal, is_upper_digit};
ghost use Rattle.tag_uri.specs.Room.{HasText};
ghost use Rattle.tag_uri.specs.TagText.{AreWordDigits};

use crate::put_digits::put_text;
use tag_bits::Word;

/// The sixteen digits.
static DIGITS: [u8; 16] = *b"0123456789ABCDEF";

/// The digit of a number below 16.
#[inline(always)]
fn digit(number: u32) -> u8
    requires { number < 16 }
    ensures { result ≡ slice_index (codes "0123456789ABCDEF") number }
{
    DIGITS[number as usize]
}

/// The eight digits of a number.
#[inline(always)]
fn eight_digits(number: u32) -> [u8; 8]
    ensures { result ≡ hexadecimal 8 number }
{
    [
        digit(number / 0x1000_0000 % 16),
        digit(number / 0x0100_0000 % 16),
        digit(number / 0x0010_0000 % 16),
        digit(number / 0x0001_0000 % 16),
        digit(number / 0x0000_1000 % 16),
        digit(number / 0x0000_0100 % 16),
        digit(number / 0x0000_0010 % 16),
        digit(number % 16),
    ]
}

/// Writes the 24 upper-case hexadecimal digits of a word into `room` from `at` on, and returns where they end.
#[inline(always)]
pub(crate) fn put_hexadecimal(room: &mut [u8], at: usize, word: Word) -> usize
    requires { at + 24 ≤ length room.old }
    ensures text { HasText room.old room.new at result (hexadecimal 24 word) }
    ensures end { result ≡ at + 24 }
{
    let number = word.number();
    let upper = number / 0x1_0000_0000;
    let first = eight_digits((upper / 0x1_0000_0000) as u32);
    let second = eight_digits((upper % 0x1_0000_0000) as u32);
    let third = eight_digits((number % 0x1_0000_0000) as u32);
    let second_at = put_text(room, at, &first);
    let third_at = put_text(room, second_at, &second);
    put_text(room, third_at, &third)
}

/// The number of an upper-case hexadecimal digit.
#[inline(always)]
fn number_of_digit(octet: u8) -> Option<u8>
    ensures below { IfSome result (λ n. n < 16) }
    ensures digit { IfSome result (λ n. octet ≡ slice_index (codes "0123456789ABCDEF") n) }
    ensures none { IfNone result (is_upper_digit octet ≡ false) }
{
    match octet {
        b'0'..=b'9' => Some(octet - b'0'),
        b'A'..=b'F' => Some(octet - b'A' + 10),
        _ => None,
    }
}

/// The number of at most 15 upper-case hexadecimal digits.
fn number_of_digits(octets: &[u8]) -> Option<u64>
    requires { length octets.now ≤ 15 }
    ensures below { IfSome result (λ n. n < 16 ^ length octets.now) }
    ensures digits { IfSome result (λ n. octets.now ≡ hexadecimal (length octets.now) n) }
    ensures none { IfNone result (AllPass is_upper_digit octets.now → ⊥) }
{
    let mut number = 0u64;
    for octet in octets {
        let Some(digit) = number_of_digit(*octet) else {
            return None;
        };
        number = number * 16 + digit as u64;
    }
    Some(number)
}

/// The word of 24 upper-case hexadecimal digits.
pub(crate) fn word_of_hexadecimal(text: &str) -> Option<Word>
    ensures some { IfSome result (λ w. text.now ≡ hexadecimal 24 w) }
    ensures none { IfNone result (AreWordDigits text.now → ⊥) }
{
    let octets = text.as_bytes();
    if octets.len() != 24 {
        return None;
    }
    let Some(upper) = number_of_digits(&octets[..12]) else {
        return None;
    };
    let Some(lower) = number_of_digits(&octets[12..]) else {
        return None;
    };
    let Some(word) = Word::new(upper as u128 * 0x1_0000_0000_0000 + lower as u128) else {
        unreachable!()
    };
    Some(word)
}
