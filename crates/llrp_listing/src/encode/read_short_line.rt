//! The short way to read a line, once from left to right. It reads the lines of messages without
//! fields, and of parameters with at most one number and no tail. `None` does not mean that a line
//! is refused: `read_line` then reads it, or says why it is refused.

ghost use Rattle.std.specs.Prelude.{◌≡◌, ◌+◌, ◌∷◌, ◌++◌, ◌<◌, ◌≤◌, IfSome, IsTrue, Ok, [], drop, length, take};
ghost use Rattle.llrp_schema.specs.declared.kinds.Kind.TheVariants.{Message, Parameter};
ghost use Rattle.llrp_schema.specs.declared.kinds.Tail.TheVariants.{Absent};
ghost use Rattle.llrp_schema.specs.Calls.Schema.{field_rule};
ghost use Rattle.llrp_schema.specs.Schema.{fields_of, name_of, set_of_kind, tail_of};
ghost use Rattle.llrp_tree.specs.declared.TheConstants.{MAX_DEPTH};
ghost use Rattle.llrp_listing.specs.Private.Encoder.{SaysAt};
ghost use Rattle.llrp_listing.specs.declared.parse_line.TheConstants.{LONGEST_LINE};
ghost use Rattle.llrp_listing.specs.Private.LineChecks.{ReadsNumber};
ghost use Rattle.llrp_listing.specs.NodeLine.{Epc, field_form};
ghost use Rattle.llrp_listing.specs.Private.Numeral.{numeral};
ghost use Rattle.llrp_listing.specs.Private.ShortLines.{AreAllNumbers, short_level, short_node};

use crate::encode::guess::Guess;
use crate::encode::line_octets::is_bare;
use crate::near::octets_alike;
use crate::parse_line::LONGEST_LINE;
use crate::read_numbers::{EPC_BITS, number_from, numeral, read_epc, read_signed, signed_from};
use crate::split::split_once;
use llrp_schema::{
    Field, Kind, KindSet, Label, MsgKind, ParamKind, Tail, msg_with_name_in, param_with_name_in,
};
use llrp_tree::MAX_DEPTH;
use std::str;
use tag_uri::word_of_octets;

/// A line that was read by the short way.
#[derive(Clone, Copy)]
pub enum ShortLine {
    Message {
        kind: MsgKind,
        version: u8,
        id: u32,
    },
    /// A parameter's line without numbers.
    Bare {
        level: usize,
        kind: ParamKind,
    },
    /// A parameter's line with one number.
    Number {
        level: usize,
        kind: ParamKind,
        number: u128,
    },
}

/// Reads the 96 bits of an EPC. It is a call, so that `read_short` stays small enough to be inlined.
#[inline(never)]
fn epc_value(word: &[u8]) -> Option<u128>
    ensures { IfSome result (λ n. ReadsNumber Epc word.now (Ok n)) }
{
    match word_of_octets(word) {
        Some(word) => Some(word.number()),
        None => other_epc(word),
    }
}

/// The same of a text that is not read by the places of its dots. It is a call, since few texts are such ones.
#[inline(never)]
fn other_epc(word: &[u8]) -> Option<u128>
    ensures { IfSome result (λ n. ReadsNumber Epc word.now (Ok n)) }
{
    let Ok(text) = str::from_utf8(word) else {
        return None;
    };
    match read_epc(text) {
        Ok(number) => Some(number),
        Err(_) => None,
    }
}

/// The number of a word that `number_from` does not read, which has more than sixteen digits or comes soon in a line. It is a call
/// of its own, since with it `read_short` would be too large to be inlined.
#[inline(never)]
fn other_number(word: &[u8]) -> Option<u128>
    ensures { result ≡ numeral word.now }
{
    numeral(word)
}

/// The value of a field that is not reserved, from a place of a line to its end.
#[inline(always)]
pub fn value_from(rule: &Field, line: &[u8], from: usize) -> Option<u128>
    requires { from < length line.now }
    ensures { IfSome result (λ n. ReadsNumber (field_form (field_rule rule.now))
        (drop from line.now) (Ok n)) }
{
    if rule.width == EPC_BITS {
        return epc_value(line.split_at(from).1);
    }
    if rule.signed {
        return match signed_from(line, from) {
            Some(number) => Some(number as u128),
            None => None,
        };
    }
    match number_from(line, from) {
        Some(number) => Some(number as u128),
        None => other_number(line.split_at(from).1),
    }
}

/// The number of a parameter's line, from a place of the line to its end.
#[inline(always)]
fn only_number(kind: ParamKind, line: &[u8], from: usize) -> Option<u128>
    requires { from < length line.now }
    ensures { IfSome result (λ n. AreAllNumbers kind (drop from line.now ∷ []) (n ∷ [])) }
{
    let Tail::Absent = llrp_schema::tail(Kind::Parameter(kind)) else {
        return None;
    };
    let [rule] = llrp_schema::fields(Kind::Parameter(kind)) else {
        return None;
    };
    if rule.reserved {
        return None;
    }
    value_from(rule, line, from)
}

/// A level of one digit, from 1 up to the number of open lines.
#[inline(always)]
fn level_of(digit: u8, depth: usize) -> Option<usize>
    ensures digit { IfSome result (λ level. digit ≡ 48 + level) }
    ensures least { IfSome result (λ level. 1 ≤ level) }
    ensures open { IfSome result (λ level. level ≤ depth) }
    ensures deep { IfSome result (λ level. level ≤ MAX_DEPTH) }
    ensures one { IfSome result (λ level. level < 10) }
{
    if digit <= b'0' || digit > b'9' {
        return None;
    }
    let level = (digit - b'0') as usize;
    if level > depth || level > MAX_DEPTH as usize {
        return None;
    }
    Some(level)
}

/// The first octets of a row.
#[inline(always)]
fn first_octets(row: &[u8; 48], octets: usize) -> &[u8]
    requires { octets ≤ 48 }
    ensures { result.now ≡ take octets row.now }
{
    row.as_slice().split_at(octets).0
}

/// Whether the name of a kind follows the level of a line and its space. It is compared at once where
/// the text that the line begins is long enough.
#[inline(always)]
fn has_name(line: &[u8], text: &[u8], label: &Label) -> bool
    requires line { take (length line.now) text.now ≡ line.now }
    requires octets { label.now.octets ≤ 48 }
    requires long { 2 + label.now.octets ≤ length line.now }
    ensures { IsTrue result → take label.now.octets (drop 2 line.now) ≡ take label.now.octets
        label.now.text }
{
    let octets = label.octets as usize;
    if text.len() < 34 || octets > 32 {
        let (name, _) = line.split_at(2).1.split_at(octets);
        return name == first_octets(&label.text, octets);
    }
    octets_alike(text.split_at(2).1, first_octets(&label.text, 32)) >= label.octets as u32
}

/// The place after the name of a kind, if that follows the level of a line and its space.
#[inline(always)]
fn name_end(line: &[u8], text: &[u8], kind: Kind) -> Option<usize>
    requires line { take (length line.now) text.now ≡ line.now }
    ensures within { IfSome result (λ end. end ≤ length line.now) }
    ensures named { IfSome result (λ end. drop 2 line.now ≡ name_of kind ++ drop end line.now) }
{
    let label = llrp_schema::label(kind);
    let end = 2 + label.octets as usize;
    if line.len() < end {
        return None;
    }
    if !has_name(line, text, label) {
        return None;
    }
    Some(end)
}

/// The level of a parameter's line, which has one digit and a space after it. A line for which this
/// is `None` is read word by word.
#[inline(always)]
pub fn level_ahead(line: &[u8], depth: usize) -> Option<usize>
    ensures starts { IfSome result (λ level. line.now ≡ (48 + level) ∷ 32 ∷ drop 2 line.now) }
    ensures least { IfSome result (λ level. 1 ≤ level) }
    ensures open { IfSome result (λ level. level ≤ depth) }
    ensures deep { IfSome result (λ level. level ≤ MAX_DEPTH) }
    ensures one { IfSome result (λ level. level < 10) }
{
    let [digit, b' ', ..] = line else {
        return None;
    };
    let level = level_of(*digit, depth)?;
    Some(level)
}

/// The line of a parameter of this kind, whose name ends at this place.
#[inline(always)]
fn parameter_after(level: usize, line: &[u8], kind: ParamKind, end: usize) -> Option<ShortLine>
    requires least { 1 ≤ level }
    requires deep { level ≤ MAX_DEPTH }
    requires one { level < 10 }
    requires short { length line.now ≤ LONGEST_LINE }
    requires starts { line.now ≡ (48 + level) ∷ 32 ∷ drop 2 line.now }
    requires within { end ≤ length line.now }
    requires named { drop 2 line.now ≡ name_of (Parameter kind) ++ drop end line.now }
    ensures { IfSome result (λ short. SaysAt (set_of_kind (Parameter kind)) level line.now
        (short_level short) (short_node short)) }
{
    if end == line.len() {
        if !is_bare(Kind::Parameter(kind)) {
            return None;
        }
        return Some(ShortLine::Bare { level, kind });
    }
    if line[end] != b' ' {
        return None;
    }
    if end + 1 == line.len() {
        return None;
    }
    let number = only_number(kind, line, end + 1)?;
    Some(ShortLine::Number {
        level,
        kind,
        number,
    })
}

/// The kind of a parameter of a set whose name follows the level of a line and its space, whatever follows the name.
fn kind_named(set: KindSet, line: &[u8]) -> Option<ParamKind>
    requires { 2 ≤ length line.now }
    ensures { IfSome result (λ kind. set_of_kind (Parameter kind) ≡ set) }
{
    let (_, rest) = line.split_at(2);
    match split_once(rest, b' ') {
        Some((name, _)) => param_with_name_in(set, name),
        None => param_with_name_in(set, rest),
    }
}

/// The kind of a parameter's line and the place after its name, by the name.
#[inline(never)]
fn other_kind(set: KindSet, line: &[u8]) -> Option<(ParamKind, usize)>
    requires { 2 ≤ length line.now }
    ensures set { IfSome result (λ x. set_of_kind (Parameter x.0) ≡ set) }
    ensures within { IfSome result (λ x. x.1 ≤ length line.now) }
    ensures named { IfSome result (λ x. drop 2 line.now ≡ name_of (Parameter x.0)
        ++ drop x.1 line.now) }
{
    let kind = kind_named(set, line)?;
    let end = name_end(line, line, Kind::Parameter(kind))?;
    Some((kind, end))
}

/// The kind of a parameter's line at the start of a text, and the place after its name. The kind
/// that is expected is tried first. A line for which this is `None` is read word by word.
#[inline(always)]
pub fn kind_ahead(line: &[u8], text: &[u8], guess: &Guess) -> Option<(ParamKind, usize)>
    requires text { take (length line.now) text.now ≡ line.now }
    requires long { 2 ≤ length line.now }
    ensures set { IfSome result (λ x. set_of_kind (Parameter x.0) ≡ guess.now) }
    ensures within { IfSome result (λ x. x.1 ≤ length line.now) }
    ensures named { IfSome result (λ x. drop 2 line.now ≡ name_of (Parameter x.0)
        ++ drop x.1 line.now) }
{
    let expected = guess.parameter();
    match name_end(line, text, Kind::Parameter(expected)) {
        Some(end) => Some((expected, end)),
        None => other_kind(guess.set(), line),
    }
}

/// The line of a parameter. The kind that is expected is tried first.
#[inline(always)]
fn short_parameter(level: usize, line: &[u8], text: &[u8], guess: &Guess) -> Option<ShortLine>
    requires least { 1 ≤ level }
    requires deep { level ≤ MAX_DEPTH }
    requires one { level < 10 }
    requires text { take (length line.now) text.now ≡ line.now }
    requires short { length line.now ≤ LONGEST_LINE }
    requires starts { line.now ≡ (48 + level) ∷ 32 ∷ drop 2 line.now }
    requires long { 2 ≤ length line.now }
    ensures { IfSome result (λ short. SaysAt guess.now level line.now (short_level short)
        (short_node short)) }
{
    let (kind, end) = kind_ahead(line, text, guess)?;
    parameter_after(level, line, kind, end)
}

/// A message's version of one digit.
#[inline(always)]
fn version_of(digit: u8) -> Option<u8>
    ensures digit { IfSome result (λ version. digit ≡ 48 + version) }
    ensures known { IfSome result (λ version. (1 ≤ version) × (version ≤ 2)) }
{
    match digit {
        b'1' => Some(1),
        b'2' => Some(2),
        _ => None,
    }
}

/// A message's version, between two spaces at a place of a line.
#[inline(always)]
fn version_at(line: &[u8], at: usize) -> Option<u8>
    requires { at ≤ length line.now }
    ensures within { IfSome result (λ version. at + 3 ≤ length line.now) }
    ensures digits { IfSome result (λ version. drop at line.now ≡ 32 ∷ (48 + version) ∷ 32
        ∷ drop (at + 3) line.now) }
    ensures known { IfSome result (λ version. (1 ≤ version) × (version ≤ 2)) }
{
    if line.len() - at < 3 {
        return None;
    }
    if line[at] != b' ' {
        return None;
    }
    if line[at + 2] != b' ' {
        return None;
    }
    let version = version_of(line[at + 1])?;
    Some(version)
}

/// The line of a message of this kind, if it has the kind's name.
#[inline(always)]
fn message_named(line: &[u8], text: &[u8], kind: MsgKind) -> Option<ShortLine>
    requires text { take (length line.now) text.now ≡ line.now }
    requires short { length line.now ≤ LONGEST_LINE }
    requires starts { line.now ≡ 48 ∷ 32 ∷ drop 2 line.now }
    ensures { IfSome result (λ short. SaysAt (set_of_kind (Message kind)) 0 line.now
        (short_level short) (short_node short)) }
{
    let end = name_end(line, text, Kind::Message(kind))?;
    let version = version_at(line, end)?;
    let id = number_from(line, end + 3)?;
    if id > u32::MAX as u64 {
        return None;
    }
    if !is_bare(Kind::Message(kind)) {
        return None;
    }
    Some(ShortLine::Message {
        kind,
        version,
        id: id as u32,
    })
}

/// The line of a message of a set, by its name.
#[inline(never)]
fn other_message(set: KindSet, line: &[u8], text: &[u8]) -> Option<ShortLine>
    requires text { take (length line.now) text.now ≡ line.now }
    requires short { length line.now ≤ LONGEST_LINE }
    requires starts { line.now ≡ 48 ∷ 32 ∷ drop 2 line.now }
    ensures { IfSome result (λ short. SaysAt set 0 line.now (short_level short)
        (short_node short)) }
{
    let (_, rest) = line.split_at(2);
    let (name, _) = split_once(rest, b' ')?;
    let kind = msg_with_name_in(set, name)?;
    message_named(line, text, kind)
}

/// The line of a message: of the kind that is expected, or of the one whose name it has.
#[inline(always)]
fn short_message(line: &[u8], text: &[u8], guess: &Guess) -> Option<ShortLine>
    requires text { take (length line.now) text.now ≡ line.now }
    requires short { length line.now ≤ LONGEST_LINE }
    requires starts { line.now ≡ 48 ∷ 32 ∷ drop 2 line.now }
    ensures { IfSome result (λ short. SaysAt guess.now 0 line.now (short_level short)
        (short_node short)) }
{
    match message_named(line, text, guess.message()) {
        Some(short) => Some(short),
        None => other_message(guess.set(), line, text),
    }
}

/// Reads a whole line, at the front of a text and below this many open lines, by the short way, if
/// that can read it. The kinds that are expected are tried first. A line for which this is `None` is
/// read word by word, so only speed depends on when it comes.
#[inline(always)]
pub fn read_short(line: &[u8], text: &[u8], depth: usize, guess: &Guess) -> Option<ShortLine>
    requires { take (length line.now) text.now ≡ line.now }
    ensures { IfSome result (λ short. SaysAt guess.now depth line.now (short_level short)
        (short_node short)) }
{
    if line.len() > LONGEST_LINE {
        return None;
    }
    let [digit, b' ', ..] = line else {
        return None;
    };
    if *digit == b'0' {
        return short_message(line, text, guess);
    }
    let level = level_of(*digit, depth)?;
    short_parameter(level, line, text, guess)
}
