//! Reads the hexadecimal digits of a word as people write them.

ghost use Rattle.std.specs.Prelude.{◌≡◌, ℕ, ◌^◌, ◌<◌, ◌⊎◌, ◌++◌, List, false, IfSome, IfNone, slice_index, codes};
ghost use Rattle.std.specs.Char.{to_ascii_uppercase};
ghost use Rattle.tag_uri.specs.Hexadecimal.{hexadecimal, is_upper_digit};
ghost use Rattle.tag_forms.specs.Hexadecimal.{IsHexOf, is_kept as kept, kept_digits};

use tag_bits::Word;

/// Whether a character is none of those that divide digits.
fn is_kept(octet: u8) -> bool
    ensures { result ≡ kept octet }
{
    !(octet == b' ' || octet == b':')
}

/// The number of a hexadecimal digit of either case.
fn number_of_digit(octet: u8) -> Option<u8>
    ensures below { IfSome result (λ n. n < 16) }
    ensures digit { IfSome result (λ n. to_ascii_uppercase octet
        ≡ slice_index (codes "0123456789ABCDEF") n) }
    ensures none { IfNone result (is_upper_digit (to_ascii_uppercase octet) ≡ false) }
{
    match octet.to_ascii_uppercase() {
        digit @ b'0'..=b'9' => Some(digit - b'0'),
        digit @ b'A'..=b'F' => Some(digit - b'A' + 10),
        _ => None,
    }
}

/// The number of exactly 24 digits, which blanks and colons may divide.
fn number_of_digits(octets: &[u8]) -> Option<u128>
    ensures below { IfSome result (λ n. n < 2 ^ 96) }
    ensures digits { IfSome result (λ n. kept_digits octets.now ≡ hexadecimal 24 n) }
    ensures none { IfNone result ((n : ℕ) → kept_digits octets.now ≡ hexadecimal 24 n → ⊥) }
{
    let mut count = 0u32;
    let mut number = 0u128;
    for octet in octets {
        if is_kept(*octet) {
            if count == 24 {
                return None;
            }
            let Some(digit) = number_of_digit(*octet) else {
                return None;
            };
            count += 1;
            number = number * 16 + digit as u128;
        }
    }
    if count == 24 { Some(number) } else { None }
}

/// The digits of a text: what follows `0x`, if it begins so.
fn without_mark<'a>(text: &'a str) -> &'a str
    ensures digits { (text.now ≡ result.now) ⊎ (text.now ≡ codes "0x" ++ result.now) }
    ensures only { (digits : List ℕ) → text.now ≡ codes "0x" ++ digits → digits ≡ result.now }
{
    match text.strip_prefix("0x") {
        Some(digits) => digits,
        None => text,
    }
}

/// The word of a text that is 24 hexadecimal digits, with or without `0x`, blanks and colons.
pub(crate) fn word_of_hex(text: &str) -> Option<Word>
    ensures some { IfSome result (λ word. IsHexOf text.now word) }
    ensures none { IfNone result ((word : ℕ) → IsHexOf text.now word → ⊥) }
{
    let Some(number) = number_of_digits(without_mark(text).as_bytes()) else {
        return None;
    };
    let Some(word) = Word::new(number) else {
        unreachable!()
    };
    Some(word)
}
