//! The lines of parameters that have several numbers without a sign and no tail, read once from left to right. `None` does not
//! mean that a line is refused: `read_line` then reads it, or says why it is refused.

ghost use Rattle.std.specs.Prelude.{◌≡◌, ◌+◌, ◌^◌, ◌∷◌, ◌++◌, ◌<◌, ◌≤◌, IfSome, decimal, drop, length, map};
ghost use Rattle.arrayvec.specs.ArrayVec.{array_vec_len};
ghost use Rattle.llrp_schema.specs.Calls.Schema.{field_rule};
ghost use Rattle.llrp_listing.specs.Private.Encoder.{SaysAt};
ghost use Rattle.llrp_listing.specs.Private.LineReading.{ReadsLine, forms_of, parameter_node};
ghost use Rattle.llrp_listing.specs.Private.ShortLines.{AreSpaced};

use crate::encode::guess::Guess;
use crate::encode::read_short_line::{kind_ahead, level_ahead};
use crate::parse_line::{LONGEST_LINE, Line, LineErr, ParameterLine, read_line};
use crate::read_numbers::EPC_BITS;
use arrayvec::ArrayVec;
use llrp_schema::{Field, Kind, Tail};
use llrp_tree::Octets;
use std::alloc::Global;
use tag_uri::plain_between;

/// Where the word from a place of a line on ends.
fn word_end(line: &[u8], from: usize) -> usize
    requires { from ≤ length line.now }
    ensures least { from ≤ result }
    ensures most { result ≤ length line.now }
{
    for at in from..line.len() {
        if line[at] == b' ' {
            return at;
        }
    }
    line.len()
}

/// The number after a space at a place of a line, and the place after it.
#[inline(always)]
fn number_at(line: &[u8], from: usize) -> Option<(u64, usize)>
    requires { from ≤ length line.now }
    ensures below { IfSome result (λ x. x.0 < 10 ^ 20) }
    ensures within { IfSome result (λ x. x.1 ≤ length line.now) }
    ensures text { IfSome result (λ x. drop from line.now ≡ 32 ∷ (decimal x.0
        ++ drop x.1 line.now)) }
{
    if from < 6 {
        return None;
    }
    if from >= line.len() {
        return None;
    }
    if line[from] != b' ' {
        return None;
    }
    let end = word_end(line, from + 1);
    let number = plain_between(line, from + 1, end)?;
    Some((number, end))
}

/// Reads the numbers of the fields that are not reserved, from a place of a line on, and returns the place after them.
fn numbers_from(
    rules: &[Field],
    line: &[u8],
    from: usize,
    fields: &mut ArrayVec<u128, 12>,
) -> Option<usize>
    requires room { array_vec_len fields.old + length (forms_of (map field_rule rules.now)) ≤ 12 }
    requires within { from ≤ length line.now }
    ensures within { IfSome result (λ end. end ≤ length line.now) }
    ensures spaced { IfSome result (λ end. AreSpaced (forms_of (map field_rule rules.now)) line.now
        from end fields.old.items fields.new.items) }
{
    match rules {
        [] => Some(from),
        [rule, rules @ ..] => {
            if rule.reserved {
                return numbers_from(rules, line, from, fields);
            }
            if rule.signed {
                return None;
            }
            if rule.width == EPC_BITS {
                return None;
            }
            let (number, end) = number_at(line, from)?;
            fields.push(number as u128);
            numbers_from(rules, line, end, fields)
        }
    }
}

/// Reads the line of a parameter, below this many open lines.
fn read_several(alloc: Global, line: &[u8], depth: usize, guess: &Guess) -> Option<ParameterLine>
    ensures { IfSome result (λ read. SaysAt guess.now depth line.now read.level
        (parameter_node read)) }
{
    if line.len() > LONGEST_LINE {
        return None;
    }
    let level = level_ahead(line, depth)?;
    let (kind, end) = kind_ahead(line, line, guess)?;
    let Tail::Absent = llrp_schema::tail(Kind::Parameter(kind)) else {
        return None;
    };
    let mut fields = ArrayVec::new();
    let rules = llrp_schema::fields(Kind::Parameter(kind));
    let stop = numbers_from(rules, line, end, &mut fields)?;
    if stop != line.len() {
        return None;
    }
    let tail = Octets::new(Vec::new(alloc));
    Some(ParameterLine {
        level,
        kind,
        fields,
        tail,
    })
}

/// Reads a whole line, below this many open lines, or returns why it is refused.
pub fn read_whole(alloc: Global, line: &[u8], depth: usize, guess: &Guess) -> Result<Line, LineErr>
    ensures { ReadsLine guess.now depth line.now result }
{
    match read_several(alloc, line, depth, guess) {
        Some(read) => Ok(Line::Parameter(read)),
        None => read_line(alloc, guess.set(), line, depth),
    }
}
