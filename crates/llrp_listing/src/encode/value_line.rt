//! The short way for the lines of parameters with a type and a value alone, which come most often: at the level after the last line
//! that has a row, with a value that passes its test.

ghost use Rattle.std.specs.Prelude.{◌≡◌, ◌+◌, ◌<◌, ◌≤◌, ◌∷◌, ◌++◌, IfSome, IsTrue, drop, length, take, true};
ghost use Rattle.llrp_schema.specs.declared.kinds.Kind.TheVariants.{Parameter};
ghost use Rattle.llrp_schema.specs.Schema.{is_tv, name_of, set_of_kind};
ghost use Rattle.llrp_listing.specs.declared.parse_line.TheConstants.{LONGEST_LINE};
ghost use Rattle.llrp_listing.specs.Private.Encoder.{SaysAt};
ghost use Rattle.llrp_listing.specs.Private.ShortLines.{IsFitting, value_node};

use crate::encode::guess::Guess;
use crate::encode::read_short_line::{kind_ahead, value_from};
use crate::parse_line::LONGEST_LINE;
use llrp_schema::{Field, Kind, ParamKind};

/// What such a line says, and the rule of the kind's one field.
#[derive(Clone, Copy)]
pub struct ValueLine {
    pub kind: ParamKind,
    pub rule: &'static Field,
    pub value: u128,
}

/// Whether a line begins with a level of one digit and a space.
#[inline(always)]
fn has_level(line: &[u8], level: usize) -> bool
    requires { level < 10 }
    ensures { IsTrue result → line.now ≡ (48 + level) ∷ 32 ∷ drop 2 line.now }
{
    match line {
        [digit, b' ', ..] => *digit as usize == 48 + level,
        _ => false,
    }
}

/// The line of a value of this kind, whose name ends at this place.
#[inline(always)]
fn value_after(level: usize, line: &[u8], kind: ParamKind, end: usize) -> Option<ValueLine>
    requires tv { is_tv kind ≡ true }
    requires least { 1 ≤ level }
    requires one { level < 10 }
    requires short { length line.now ≤ LONGEST_LINE }
    requires starts { line.now ≡ (48 + level) ∷ 32 ∷ drop 2 line.now }
    requires within { end ≤ length line.now }
    requires named { drop 2 line.now ≡ name_of (Parameter kind) ++ drop end line.now }
    ensures fits { IfSome result (λ v. IsFitting v) }
    ensures says { IfSome result (λ v. SaysAt (set_of_kind (Parameter kind)) level line.now level
        (value_node v)) }
{
    if line.len() - end < 2 {
        return None;
    }
    if line[end] != b' ' {
        return None;
    }
    let [rule] = llrp_schema::fields(Kind::Parameter(kind)) else {
        return None;
    };
    let value = value_from(rule, line, end + 1)?;
    if value > rule.greatest {
        return None;
    }
    Some(ValueLine { kind, rule, value })
}

/// Reads a line, which the text begins with, at this level by this way, if it can be read so. A line
/// for which this is `None` is read another way, so only speed depends on when it comes.
#[inline(always)]
pub fn read_value(line: &[u8], text: &[u8], level: usize, guess: &Guess) -> Option<ValueLine>
    requires text { take (length line.now) text.now ≡ line.now }
    ensures least { IfSome result (λ v. 1 ≤ level) }
    ensures fits { IfSome result (λ v. IsFitting v) }
    ensures says { IfSome result (λ v. SaysAt guess.now level line.now level (value_node v)) }
{
    if level == 0 {
        return None;
    }
    if level > 9 {
        return None;
    }
    if line.len() > LONGEST_LINE {
        return None;
    }
    if !has_level(line, level) {
        return None;
    }
    let (kind, end) = kind_ahead(line, text, guess)?;
    if !llrp_schema::is_tv(kind) {
        return None;
    }
    value_after(level, line, kind, end)
}
