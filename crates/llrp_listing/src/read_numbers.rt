//! The numbers of a line, each read from its word.

ghost use Rattle.std.specs.Prelude.{◌≡◌, ◌<◌, ◌≤◌, ◌^◌, ◌++◌, IfSome, Ok, Some, None, decimal, drop, if◌then◌else◌, length};
ghost use Rattle.std.specs.Str.{all_ascii_digits};
ghost use Rattle.std.specs.Str.Parse.{digits_value};
ghost use Rattle.llrp_schema.specs.Calls.Schema.{field_rule};
ghost use Rattle.tag_uri.specs.Decimal.{padded};
ghost use Rattle.llrp_listing.specs.Private.LineChecks.{ReadsNumber};
ghost use Rattle.llrp_listing.specs.Private.LineReading.{ReadsNegative, ReadsPositive};
ghost use Rattle.llrp_listing.specs.NodeLine.{Epc, Id, Signed, Unsigned, Version, field_form};
ghost use Rattle.llrp_listing.specs.Private.Numeral.{ReadsFront, numeral};

use crate::outcome::Refusal;
use llrp_schema::Field;
use tag_uri::{number_of_last, plain_between, word_of_text};

/// How many bits the field of an EPC-96 has; no other field has as many.
pub(crate) const EPC_BITS: u32 = 96;

/// Returns the number of the first eight octets, if those are digits, and the octets after them.
#[inline(always)]
fn eight_ahead(octets: &[u8]) -> Option<(u64, &[u8])>
    ensures below { IfSome result (λ x. x.0 < 10 ^ 8) }
    ensures digits { IfSome result (λ x. octets.now ≡ padded 8 x.0 ++ x.1.now) }
{
    let [a, b, c, d, e, f, g, h, after @ ..] = octets else {
        return None;
    };
    let number = number_of_last([*a, *b, *c, *d, *e, *f, *g, *h], 8)?;
    Some((number, after))
}

/// Reads digits, eight at a time, and returns their number and the octets after them.
#[inline(always)]
fn read_eights(digits: &[u8]) -> (u64, &[u8])
    requires { length digits.now ≤ 19 }
    ensures { ReadsFront digits.now result.1.now result.0 }
{
    let mut n: u64 = 0;
    let mut rest = digits;
    'eights: while let Some((eight, after)) = eight_ahead(rest) {
        n = n * 100_000_000 + eight;
        rest = after;
    }
    (n, rest)
}

/// Returns the number of these digits, of which there are at most 19; `None` if an octet is no
/// digit.
#[inline(always)]
fn short_number(digits: &[u8]) -> Option<u64>
    requires { length digits.now ≤ 19 }
    ensures { result ≡ (if all_ascii_digits digits.now then Some (digits_value 10 digits.now)
        else None) }
{
    let (front, rest) = read_eights(digits);
    let mut n = front;
    for b in rest {
        if !b.is_ascii_digit() {
            return None;
        }
        n = n * 10 + (*b - b'0') as u64;
    }
    Some(n)
}

/// The number of at most 20 digits, in 128 bits. It is not inlined, since few numbers are that long.
#[inline(never)]
fn long_number(digits: &[u8]) -> Option<u128>
    requires { length digits.now ≤ 20 }
    ensures { result ≡ (if all_ascii_digits digits.now then Some (digits_value 10 digits.now)
        else None) }
{
    let mut n: u128 = 0;
    for b in digits {
        if !b.is_ascii_digit() {
            return None;
        }
        n = n * 10 + (*b - b'0') as u128;
    }
    Some(n)
}

/// The number that the word is in decimal, with at most 20 digits.
#[inline(always)]
#[tactic(auto, unfolding(crate::specs::Private::Numeral::numeral))]
pub(crate) fn numeral(word: &[u8]) -> Option<u128>
    ensures { result ≡ numeral word.now }
{
    if word.is_empty() || word.len() > 20 || (word.len() > 1 && word[0] == b'0') {
        return None;
    }
    if word.len() == 20 {
        return long_number(word);
    }
    let n = short_number(word)?;
    Some(n as u128)
}

/// The number from a place of a line to its end, of at most 16 digits. `None` does not mean that none
/// is there.
#[inline(always)]
pub(crate) fn number_from(line: &[u8], from: usize) -> Option<u64>
    requires { from ≤ length line.now }
    ensures { IfSome result (λ n. drop from line.now ≡ decimal n) }
{
    if from < 7 {
        return None;
    }
    plain_between(line, from, line.len())
}

/// The eight bits of a number from -128 to 127, from a place of a line to its end. `None` does not
/// mean that none is there.
#[inline(always)]
pub(crate) fn signed_from(line: &[u8], from: usize) -> Option<u64>
    requires { from < length line.now }
    ensures { IfSome result (λ n. ReadsNumber Signed (drop from line.now) (Ok n)) }
{
    let negative = line[from] == b'-';
    let size = number_from(line, from + negative as usize)?;
    if negative {
        if size == 0 {
            return None;
        }
        if size > 128 {
            return None;
        }
        return Some(256 - size);
    }
    if size > 127 {
        return None;
    }
    Some(size)
}

/// Reads a message's version, 1 or 2.
pub(crate) fn read_version(word: &str) -> Result<u8, Refusal>
    ensures { ReadsNumber Version word.now result }
{
    let Some(version) = numeral(word.as_bytes()) else {
        return Err(Refusal::Number);
    };
    if version == 0 || version > 2 {
        return Err(Refusal::Number);
    }
    Ok(version as u8)
}

/// Reads a message's id, of 32 bits.
pub(crate) fn read_id(word: &str) -> Result<u32, Refusal>
    ensures { ReadsNumber Id word.now result }
{
    let Some(id) = numeral(word.as_bytes()) else {
        return Err(Refusal::Number);
    };
    if id > u32::MAX as u128 {
        return Err(Refusal::Number);
    }
    Ok(id as u32)
}

/// Reads a field without a sign.
fn read_unsigned(word: &str) -> Result<u128, Refusal>
    ensures { ReadsNumber Unsigned word.now result }
{
    let Some(number) = numeral(word.as_bytes()) else {
        return Err(Refusal::Number);
    };
    Ok(number)
}

/// Reads a number from -128 to 127 as eight bits.
#[inline(always)]
pub(crate) fn read_signed(word: &[u8]) -> Result<u128, Refusal>
    ensures { ReadsNumber Signed word.now result }
{
    let [first, digits @ ..] = word else {
        return from_zero(word);
    };
    if *first != b'-' {
        return from_zero(word);
    }
    below_zero(digits)
}

/// Reads a number from 0 to 127 as eight bits.
#[inline(always)]
fn from_zero(digits: &[u8]) -> Result<u128, Refusal>
    ensures { ReadsPositive digits.now result }
{
    let Some(number) = numeral(digits) else {
        return Err(Refusal::Number);
    };
    if number > 127 {
        return Err(Refusal::Number);
    }
    Ok(number)
}

/// Reads a number from -128 to -1 as eight bits, from the digits after its sign.
#[inline(always)]
fn below_zero(digits: &[u8]) -> Result<u128, Refusal>
    ensures { ReadsNegative digits.now result }
{
    let Some(size) = numeral(digits) else {
        return Err(Refusal::Number);
    };
    if size == 0 || size > 128 {
        return Err(Refusal::Number);
    }
    Ok(256 - size)
}

/// Reads the 96 bits of an EPC.
pub(crate) fn read_epc(word: &str) -> Result<u128, Refusal>
    ensures { ReadsNumber Epc word.now result }
{
    match word_of_text(word) {
        Ok(word) => Ok(word.number()),
        Err(fault) => Err(Refusal::Epc(fault)),
    }
}

/// Reads the value of a field that is not reserved.
pub(crate) fn read_field(field: &Field, word: &str) -> Result<u128, Refusal>
    ensures { ReadsNumber (field_form (field_rule field.now)) word.now result }
{
    if field.width == EPC_BITS {
        read_epc(word)
    } else if field.signed {
        read_signed(word.as_bytes())
    } else {
        read_unsigned(word)
    }
}
