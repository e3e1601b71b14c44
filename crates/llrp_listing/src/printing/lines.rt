//! The words of a line, put into lent room at a place.

ghost use Rattle.std.specs.Prelude.{◌≡◌, ◌+◌, ◌^◌, ◌<◌, ◌≤◌, ◌++◌, [], ◌∷◌, ℕ, List, true, decimal, length, take};
ghost use Rattle.llrp_tree.specs.declared.TheConstants.{MAX_DEPTH};
ghost use Rattle.llrp_schema.specs.declared.kinds.Kind.TheVariants.{Message as MessageKind, Parameter as ParameterKind};
ghost use Rattle.llrp_schema.specs.Calls.Schema.{field_rule};
ghost use Rattle.llrp_schema.specs.Schema.{name_of, fields_of, bits_of, is_tv};
ghost use Rattle.tag_uri.specs.TagText.{IsTextOf};
ghost use Rattle.llrp_listing.specs.NodeLine.{field_form, number_forms, parameter_line, spaced, AreNumberTexts, IsLine, IsNumberText};
ghost use Rattle.llrp_listing.specs.Private.Place.{Puts};

use crate::printing::decimal::{put_below_hundred, put_decimal, put_number, put_signed};
use crate::printing::put::{put_first, put_octet, put_text};
use crate::read_numbers::EPC_BITS;
use llrp_schema::{Field, Kind, Label, MsgKind, ParamKind, label};
use tag_bits::Word;
use tag_uri::put_text_of_word;

/// Puts a level, of one digit or two, and a space.
#[inline(always)]
fn put_level(room: &mut [u8], at: usize, level: u8) -> usize
    requires deep { level ≤ MAX_DEPTH }
    requires room { at + 3 ≤ length room.old }
    ensures text { Puts room.old room.new at result (decimal level ++ 32 ∷ []) }
    ensures most { result ≤ at + 3 }
{
    let space_at = put_below_hundred(room, at, level as u32);
    put_octet(room, space_at, b' ')
}

/// The first 32 octets of a label, which have all of a name of the profile.
#[inline(always)]
fn near_half(octets: &[u8; 48]) -> [u8; 32]
    ensures { result ≡ take 32 octets.now }
{
    let mut near = [0; 32];
    near.copy_from_slice(octets.as_slice().split_at(32).0);
    near
}

/// Puts a kind's name.
#[inline(always)]
fn put_label(room: &mut [u8], at: usize, label: &Label) -> usize
    requires octets { label.now.octets ≤ 48 }
    requires room { at + 48 ≤ length room.old }
    ensures { Puts room.old room.new at result (take label.now.octets label.now.text) }
{
    let octets = label.octets as usize;
    if octets <= 32 {
        return put_first(room, at, near_half(&label.text), octets);
    }
    put_text(room, at, label.text.as_slice().split_at(octets).0)
}

/// Puts the first two words of a line: the level and the kind's name.
#[inline(always)]
pub(crate) fn put_start(room: &mut [u8], at: usize, level: u8, kind: Kind) -> usize
    requires deep { level ≤ MAX_DEPTH }
    requires room { at + 51 ≤ length room.old }
    ensures text { Puts room.old room.new at result (decimal level ++ spaced (name_of kind ∷ [])) }
    ensures most { result ≤ at + 51 }
{
    let label = label(kind);
    let name_at = put_level(room, at, level);
    put_label(room, name_at, label)
}

/// Puts a space and a number.
#[inline(always)]
fn put_spaced(room: &mut [u8], at: usize, number: u64) -> usize
    requires { at + 21 ≤ length room.old }
    ensures text { Puts room.old room.new at result (32 ∷ decimal number) }
    ensures most { result ≤ at + 21 }
{
    let number_at = put_octet(room, at, b' ');
    put_decimal(room, number_at, number)
}

/// Puts the first four words of a message's line: the level, the name, the version and the id.
#[inline(always)]
pub(crate) fn put_header(room: &mut [u8], at: usize, version: u8, kind: MsgKind, id: u32) -> usize
    requires { at + 93 ≤ length room.old }
    ensures text { Puts room.old room.new at result ((decimal 0
        ++ spaced (name_of (MessageKind kind) ∷ []))
        ++ ((32 ∷ decimal version) ++ (32 ∷ decimal id))) }
    ensures most { result ≤ at + 93 }
{
    let version_at = put_start(room, at, 0, Kind::Message(kind));
    let id_at = put_spaced(room, version_at, version as u64);
    put_spaced(room, id_at, id as u64)
}

/// Puts the text of an EPC's word.
#[inline(always)]
pub(crate) fn put_epc(room: &mut [u8], at: usize, bits: u128) -> usize
    requires fits { bits < 2 ^ 96 }
    requires room { at + 64 ≤ length room.old }
    ensures text { (word : List ℕ) × IsTextOf bits word × Puts room.old room.new at result word }
    ensures most { result ≤ at + 64 }
{
    let Some(word) = Word::new(bits) else {
        unreachable!()
    };
    put_text_of_word(room, at, word)
}

/// Puts the number of a field.
#[inline(always)]
fn put_form(room: &mut [u8], at: usize, rule: &Field, number: u128) -> usize
    requires fits { number < 2 ^ rule.now.width }
    requires signed { rule.now.signed ≡ true → rule.now.width ≡ 8 }
    requires room { at + 64 ≤ length room.old }
    ensures text { (word : List ℕ) × IsNumberText (field_form (field_rule rule.now)) number word
        × Puts room.old room.new at result word }
    ensures most { result ≤ at + 64 }
{
    if rule.width == EPC_BITS {
        put_epc(room, at, number)
    } else if rule.signed {
        put_signed(room, at, number as u8)
    } else {
        put_number(room, at, number)
    }
}

/// Puts a space and the number of a field.
#[inline(always)]
pub(crate) fn put_field(room: &mut [u8], at: usize, rule: &Field, number: u128) -> usize
    requires fits { number < 2 ^ rule.now.width }
    requires signed { rule.now.signed ≡ true → rule.now.width ≡ 8 }
    requires room { at + 65 ≤ length room.old }
    ensures text { (word : List ℕ) × IsNumberText (field_form (field_rule rule.now)) number word
        × Puts room.old room.new at result (32 ∷ word) }
    ensures most { result ≤ at + 65 }
{
    let word_at = put_octet(room, at, b' ');
    put_form(room, word_at, rule, number)
}

/// Puts the value of a parameter of a type and a value.
#[inline(always)]
fn put_value(room: &mut [u8], at: usize, kind: ParamKind, value: u128) -> usize
    requires tv { is_tv kind ≡ true }
    requires fits { value < 2 ^ bits_of (fields_of (ParameterKind kind)) }
    requires room { at + 64 ≤ length room.old }
    ensures text { (word : List ℕ) × AreNumberTexts (number_forms (ParameterKind kind)) (value
        ∷ []) (word ∷ []) × Puts room.old room.new at result word }
    ensures most { result ≤ at + 64 }
{
    match kind {
        ParamKind::Epc96 | ParamKind::WholeEpc96 => put_epc(room, at, value),
        ParamKind::PeakRssi | ParamKind::WholePeakRssi => put_signed(room, at, value as u8),
        _ => put_decimal(room, at, value as u64),
    }
}

/// Puts the line of a parameter of a type and a value.
#[inline(always)]
pub(crate) fn put_value_line(
    room: &mut [u8],
    at: usize,
    level: u8,
    kind: ParamKind,
    value: u128,
) -> usize
    requires deep { level ≤ MAX_DEPTH }
    requires tv { is_tv kind ≡ true }
    requires fits { value < 2 ^ bits_of (fields_of (ParameterKind kind)) }
    requires room { at + 117 ≤ length room.old }
    ensures text { (line : List ℕ) × IsLine (level, parameter_line kind (value ∷ []) []) line
        × Puts room.old room.new at result line }
    ensures most { result ≤ at + 117 }
{
    let space_at = put_start(room, at, level, Kind::Parameter(kind));
    let value_at = put_octet(room, space_at, b' ');
    let end_at = put_value(room, value_at, kind, value);
    put_octet(room, end_at, b'\n')
}
