//! The tail of a line, read from its word.

ghost use Rattle.std.specs.Prelude.{◌≡◌, MatchResult};
ghost use Rattle.llrp_schema.specs.declared.kinds.Tail.TheVariants.{Text, Words};
ghost use Rattle.llrp_listing.specs.Private.LineReading.{AppendsWord, AreDigitsOf, IsNoTail, IsNoWord, IsTailWord, IsWordList, has_capital};

use crate::outcome::Refusal;
use crate::parse_line::LineErr;
use crate::read_numbers::numeral;
use crate::split::split_once;
use hex::FromHexError;
use llrp_schema::Tail;
use llrp_tree::Octets;
use std::alloc::Global;

/// Appends the two octets of a decimal number of 16 bits.
fn push_word(octets: &mut Vec<u8>, word: &[u8]) -> Result<(), LineErr>
    ensures { MatchResult result (λ _. AppendsWord word.now octets.old.items octets.new.items)
        (IsNoWord word.now) }
{
    let Some(number) = numeral(word) else {
        return Err(LineErr::Refused(Refusal::Tail));
    };
    if number > u16::MAX as u128 {
        return Err(LineErr::Refused(Refusal::Tail));
    }
    octets.extend_from_slice(&[(number / 256) as u8, (number % 256) as u8])?;
    Ok(())
}

/// Reads decimal numbers of 16 bits, joined by commas, as octets.
fn read_word_list(alloc: Global, list: &[u8]) -> Result<Vec<u8>, LineErr>
    ensures { MatchResult result (λ octets. IsWordList list.now octets.items)
        (IsNoTail (IsWordList list.now)) }
{
    let mut octets = Vec::new(alloc);
    if list.is_empty() {
        return Ok(octets);
    }
    let mut rest = list;
    'words: while let Some((word, after)) = split_once(rest, b',') {
        push_word(&mut octets, word)?;
        rest = after;
    }
    push_word(&mut octets, rest)?;
    Ok(octets)
}

/// Whether one of the bytes is an upper-case letter.
fn has_capital(bytes: &[u8]) -> bool
    ensures { result ≡ has_capital bytes.now }
{
    bytes.iter().any(|b| 65 <= *b && *b <= 90)
}

/// Reads lower-case hexadecimal digits as octets.
fn read_digits(alloc: Global, digits: &[u8]) -> Result<Vec<u8>, LineErr>
    ensures { MatchResult result (λ octets. AreDigitsOf digits.now octets.items)
        (IsNoTail (AreDigitsOf digits.now)) }
{
    if has_capital(digits) {
        return Err(LineErr::Refused(Refusal::Tail));
    }
    match hex::decode(alloc, digits) {
        Ok(octets) => Ok(octets),
        Err(error) => match error {
            FromHexError::OutOfMemory => Err(LineErr::Memory),
            _ => Err(LineErr::Refused(Refusal::Tail)),
        },
    }
}

/// Reads a list of 16-bit words, from its `w` on.
fn read_words(alloc: Global, word: &str) -> Result<Octets, LineErr>
    ensures { MatchResult result (IsTailWord Words word.now)
        (IsNoTail (IsTailWord Words word.now)) }
{
    let Some(list) = word.strip_prefix('w') else {
        return Err(LineErr::Refused(Refusal::Tail));
    };
    let octets = read_word_list(alloc, list.as_bytes())?;
    Ok(Octets::new(octets))
}

/// Reads hexadecimal digits, from their `x` on.
fn read_octets(alloc: Global, word: &str) -> Result<Octets, LineErr>
    ensures { MatchResult result (IsTailWord Text word.now) (IsNoTail (IsTailWord Text word.now)) }
{
    let Some(digits) = word.strip_prefix('x') else {
        return Err(LineErr::Refused(Refusal::Tail));
    };
    let octets = read_digits(alloc, digits.as_bytes())?;
    Ok(Octets::new(octets))
}

/// Reads the octets of a tail from its word.
pub(crate) fn read_tail(alloc: Global, form: Tail, word: &str) -> Result<Octets, LineErr>
    ensures { MatchResult result (IsTailWord form word.now) (IsNoTail (IsTailWord form word.now)) }
{
    match form {
        Tail::Absent => Err(LineErr::Refused(Refusal::Tail)),
        Tail::Words => read_words(alloc, word),
        Tail::Text | Tail::Bits | Tail::Data => read_octets(alloc, word),
    }
}
