//! Guesses the frame of a line, as `show --json` writes it, once from left to right. Nothing rests on a guess: of what it says the line
//! is printed again, and compared. So neither a name of a member nor a value's range is looked at here.

use arrayvec::ArrayVec;
use llrp_listing::split_once;
use llrp_schema::{Field, Kind, KindSet, ParamKind, Tail, msg_with_name_in, param_with_name_in};
use std::str;
use tag_uri::{word_of_octets, word_of_text};

/// How many bits the field of an EPC-96 has; no other field has as many.
const EPC_BITS: u32 = 96;

/// How many octets stand before what is looked for.
const BEFORE_MESSAGE: usize = b"{\"message\":\"".len();

const BEFORE_VERSION: usize = b",\"version\":".len();

const BEFORE_ID: usize = b",\"id\":".len();

const BEFORE_PARAMETER: usize = b"{\"parameter\":\"".len();

const BEFORE_PARAMETERS: usize = b",\"parameters\":[".len();

const BEFORE_EPC: usize = b",\"EPC\":\"".len();

const BEFORE_WORDS: usize = b",\"words\":[".len();

const BEFORE_TEXT: usize = b",\"text\":\"".len();

const BEFORE_BITS: usize = b",\"bits\":\"".len();

const BEFORE_OCTETS: usize = b",\"octets\":\"".len();

/// The nodes that are open, by the places at which their octets begin.
type OpenPlaces = ArrayVec<usize, 17>;

/// What comes after the first octets of a text.
#[inline(always)]
fn after(text: &[u8], count: usize) -> Option<&[u8]> {
    if text.len() < count {
        return None;
    }
    Some(text.split_at(count).1)
}

/// The number of the digits that a text begins with, and what comes after them.
#[inline(always)]
fn digits_ahead(text: &[u8]) -> (u64, &[u8]) {
    let mut number: u64 = 0;
    let mut rest = text;
    'digits: while let [digit, others @ ..] = rest {
        if !digit.is_ascii_digit() {
            return (number, rest);
        }
        number = number.wrapping_mul(10).wrapping_add((*digit - b'0') as u64);
        rest = others;
    }
    (number, rest)
}

/// The eight bits of a number with a sign, and what comes after it.
#[inline(always)]
fn signed_ahead(text: &[u8]) -> (u64, &[u8]) {
    match text {
        [b'-', digits @ ..] => {
            let (number, rest) = digits_ahead(digits);
            (256u64.wrapping_sub(number) % 256, rest)
        }
        _ => digits_ahead(text),
    }
}

/// The bits of a text that is not read by the places of its dots. It is a call, since few texts are such ones.
#[inline(never)]
fn other_epc(epc: &[u8]) -> Option<u128> {
    let Ok(text) = str::from_utf8(epc) else {
        return None;
    };
    match word_of_text(text) {
        Ok(word) => Some(word.number()),
        Err(_) => None,
    }
}

/// The bits of an EPC's text, and what comes after its quote.
#[inline(always)]
fn epc_ahead(text: &[u8]) -> Option<(u128, &[u8])> {
    let (epc, rest) = split_once(text, b'"')?;
    let number = match word_of_octets(epc) {
        Some(word) => word.number(),
        None => other_epc(epc)?,
    };
    Some((number, rest))
}

/// The value of a field, and what comes after it.
#[inline(always)]
fn value_ahead<'a>(rule: &Field, text: &'a [u8]) -> Option<(u128, &'a [u8])> {
    if rule.width == EPC_BITS {
        return epc_ahead(after(text, BEFORE_EPC)?);
    }
    // A comma and two quotes stand around the name, and a colon after it.
    let value = after(text, rule.name.len().saturating_add(4))?;
    let (number, rest) = if rule.signed {
        signed_ahead(value)
    } else {
        digits_ahead(value)
    };
    Some((number as u128, rest))
}

/// Appends the last octets of a number.
#[inline(always)]
fn push_last(frame: &mut Vec<u8>, number: u128, bits: u32) -> Option<()> {
    let octets = number.to_be_bytes();
    let count = bits as usize / 8;
    if count > 16 {
        return None;
    }
    frame.extend_from_slice(&octets[16 - count..16]).ok()
}

/// Appends the octets of a number of 64 bits at most.
#[inline(always)]
fn push_number(frame: &mut Vec<u8>, number: u64, bits: u32) -> Option<()> {
    if bits == 0 || bits > 64 {
        return None;
    }
    let end = frame.len().saturating_add(bits as usize / 8);
    frame
        .extend_from_slice(&(number << (64 - bits)).to_be_bytes())
        .ok()?;
    frame.truncate(end);
    Some(())
}

/// Appends the octets of the one field of a parameter of type and value, and returns what comes after its value.
#[inline(always)]
fn push_value<'a>(frame: &mut Vec<u8>, rule: &Field, text: &'a [u8]) -> Option<&'a [u8]> {
    if rule.width == EPC_BITS {
        let (number, rest) = epc_ahead(after(text, BEFORE_EPC)?)?;
        push_last(frame, number, EPC_BITS)?;
        return Some(rest);
    }
    let value = after(text, rule.name.len().saturating_add(4))?;
    let (number, rest) = if rule.signed {
        signed_ahead(value)
    } else {
        digits_ahead(value)
    };
    push_number(frame, number, rule.width)?;
    Some(rest)
}

/// Appends the octets of fields, and returns what comes after their values.
#[inline(always)]
fn push_fields<'a>(frame: &mut Vec<u8>, rules: &[Field], text: &'a [u8]) -> Option<&'a [u8]> {
    let mut rest = text;
    let mut number: u128 = 0;
    let mut bits: u32 = 0;
    for rule in rules {
        if bits > 7 || rule.width > EPC_BITS {
            return None;
        }
        let mut value: u128 = 0;
        if !rule.reserved {
            let (said, others) = value_ahead(rule, rest)?;
            value = said;
            rest = others;
        }
        number = number << rule.width | value;
        bits += rule.width;
        if bits % 8 == 0 {
            push_last(frame, number, bits)?;
            number = 0;
            bits = 0;
        }
    }
    Some(rest)
}

/// Writes a number of 16 bits over two octets.
#[inline(always)]
fn put_two(frame: &mut [u8], at: usize, number: usize) {
    if at >= frame.len() || frame.len() - at < 2 {
        return;
    }
    frame[at] = (number / 256 % 256) as u8;
    frame[at + 1] = (number % 256) as u8;
}

/// Appends the words of a tail, and their count before them.
fn push_words<'a>(frame: &mut Vec<u8>, text: &'a [u8]) -> Option<&'a [u8]> {
    let at = frame.len();
    frame.extend_from_slice(&[0, 0]).ok()?;
    let mut rest = after(text, BEFORE_WORDS)?;
    let mut count: usize = 0;
    for _ in 0..text.len() {
        match rest {
            [b']', others @ ..] => {
                put_two(frame.as_mut_slice(), at, count);
                return Some(others);
            }
            [b',', others @ ..] => rest = others,
            _ => {}
        }
        let (number, others) = digits_ahead(rest);
        frame
            .extend_from_slice(&[(number / 256 % 256) as u8, (number % 256) as u8])
            .ok()?;
        count = count.wrapping_add(1);
        rest = others;
    }
    None
}

/// Appends the octets of a tail of text that has no escape, and their count before them.
fn push_text<'a>(frame: &mut Vec<u8>, text: &'a [u8]) -> Option<&'a [u8]> {
    let (octets, rest) = split_once(after(text, BEFORE_TEXT)?, b'"')?;
    let count = octets.len();
    frame
        .extend_from_slice(&[(count / 256 % 256) as u8, (count % 256) as u8])
        .ok()?;
    frame.extend_from_slice(octets).ok()?;
    Some(rest)
}

/// The number of a hexadecimal digit.
#[inline(always)]
fn nibble(digit: u8) -> u8 {
    if digit <= b'9' {
        digit.wrapping_sub(b'0')
    } else {
        digit.wrapping_sub(b'a' - 10)
    }
}

/// Appends the octets of hexadecimal digits up to a quote.
fn push_digits<'a>(frame: &mut Vec<u8>, text: &'a [u8]) -> Option<&'a [u8]> {
    let (digits, rest) = split_once(text, b'"')?;
    let mut left = digits;
    'octets: while let [high, low, others @ ..] = left {
        let octet = nibble(*high).wrapping_mul(16).wrapping_add(nibble(*low));
        frame.push(octet).ok()?;
        left = others;
    }
    Some(rest)
}

/// Appends the octets of a tail, and returns what comes after it.
#[inline(always)]
fn push_tail<'a>(frame: &mut Vec<u8>, form: Tail, text: &'a [u8]) -> Option<&'a [u8]> {
    match form {
        Tail::Absent => Some(text),
        Tail::Words => push_words(frame, text),
        Tail::Text => push_text(frame, text),
        Tail::Bits => push_digits(frame, after(text, BEFORE_BITS)?),
        Tail::Data => push_digits(frame, after(text, BEFORE_OCTETS)?),
    }
}

/// Appends the octets of a node's fields and of its tail.
#[inline(always)]
fn push_own<'a>(frame: &mut Vec<u8>, kind: Kind, text: &'a [u8]) -> Option<&'a [u8]> {
    let rest = push_fields(frame, llrp_schema::fields(kind), text)?;
    push_tail(frame, llrp_schema::tail(kind), rest)
}

/// Appends the octets of a message up to its parameters, with a length of 0.
fn push_message<'a>(set: KindSet, frame: &mut Vec<u8>, line: &'a [u8]) -> Option<&'a [u8]> {
    let (name, rest) = split_once(after(line, BEFORE_MESSAGE)?, b'"')?;
    let kind = Kind::Message(msg_with_name_in(set, name)?);
    let (version, rest) = digits_ahead(after(rest, BEFORE_VERSION)?);
    let (id, rest) = digits_ahead(after(rest, BEFORE_ID)?);
    let front = version % 8 * 1024 + llrp_schema::number(kind) as u64;
    let header = front as u128 * 18446744073709551616 + (id % 4294967296) as u128;
    push_last(frame, header, 80)?;
    push_own(frame, kind, rest)
}

/// The kind of a parameter that reports have most of, if a name with its first octets begins a text. Both sets of kinds have one with
/// that name, number and fields.
#[inline(always)]
fn frequent(text: &[u8]) -> Option<ParamKind> {
    match text {
        [b'A', b'n', b't', b'e', b'n', b'n', b'a', b'I', ..] => Some(ParamKind::AntennaId),
        [b'P', b'e', b'a', b'k', ..] => Some(ParamKind::PeakRssi),
        [b'E', b'P', b'C', b'-', ..] => Some(ParamKind::Epc96),
        [b'T', b'a', b'g', b'S', b'e', b'e', ..] => Some(ParamKind::TagSeenCount),
        [
            b'T',
            b'a',
            b'g',
            b'R',
            b'e',
            b'p',
            b'o',
            b'r',
            b't',
            b'D',
            ..
        ] => Some(ParamKind::TagReportData),
        _ => None,
    }
}

/// The kind of the parameter whose name a text begins with, and what comes after its quote.
#[inline(always)]
fn kind_ahead(set: KindSet, text: &[u8]) -> Option<(ParamKind, &[u8])> {
    if let Some(kind) = frequent(text) {
        let name = llrp_schema::name(Kind::Parameter(kind));
        return Some((kind, after(text, name.len().saturating_add(1))?));
    }
    let (name, rest) = split_once(text, b'"')?;
    Some((param_with_name_in(set, name)?, rest))
}

/// Appends the octets of a parameter: all of one of type and value, and of any other those up to its parameters, with a length of 0; it
/// then notes where they begin.
#[inline(always)]
fn push_parameter<'a>(
    set: KindSet,
    frame: &mut Vec<u8>,
    open: &mut OpenPlaces,
    text: &'a [u8],
) -> Option<&'a [u8]> {
    let (kind, rest) = kind_ahead(set, after(text, BEFORE_PARAMETER)?)?;
    let whole = Kind::Parameter(kind);
    let number = llrp_schema::number(whole);
    if llrp_schema::is_tv(kind) {
        let [rule] = llrp_schema::fields(whole) else {
            return None;
        };
        frame.push((128 + number % 128) as u8).ok()?;
        return after(push_value(frame, rule, rest)?, 1);
    }
    open.try_push(frame.len()).ok()?;
    frame
        .extend_from_slice(&[(number / 256) as u8, (number % 256) as u8, 0, 0])
        .ok()?;
    push_own(frame, whole, rest)
}

/// Writes the length of the innermost node, whose octets are the last ones. Returns whether it is the message.
#[inline(always)]
fn close(frame: &mut Vec<u8>, open: &mut OpenPlaces) -> Option<bool> {
    let start = open.pop()?;
    if start >= frame.len() {
        return None;
    }
    let octets = frame.len() - start;
    if open.is_empty() {
        put_two(frame.as_mut_slice(), 2, octets / 65536);
        put_two(frame.as_mut_slice(), 4, octets);
        return Some(true);
    }
    put_two(frame.as_mut_slice(), start.saturating_add(2), octets);
    Some(false)
}

/// Makes the octets of a frame those that a line says, if it is written as `show --json` writes it; whether it is has to be looked at
/// then.
pub(crate) fn guess_frame(set: KindSet, line: &[u8], frame: &mut Vec<u8>) -> Option<()> {
    frame.clear();
    let mut open = OpenPlaces::new();
    open.push(0);
    let mut rest = push_message(set, frame, line)?;
    // A turn takes an octet at least.
    for _ in 0..line.len() {
        match rest {
            [b'}', others @ ..] => {
                if close(frame, &mut open)? {
                    return Some(());
                }
                rest = others;
            }
            [b']', others @ ..] => rest = others,
            [b',', b'{', ..] => rest = push_parameter(set, frame, &mut open, after(rest, 1)?)?,
            [b',', ..] => {
                rest = push_parameter(set, frame, &mut open, after(rest, BEFORE_PARAMETERS)?)?;
            }
            _ => return None,
        }
    }
    None
}
