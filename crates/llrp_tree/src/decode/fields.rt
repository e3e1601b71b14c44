//! Reads the fields of a node.

ghost use Rattle.std.specs.Prelude.{◌≡◌, ◌+◌, ◌*◌, ◌≤◌, [], ◌∷◌, length, drop, true, MatchResult};
ghost use Rattle.tag_bits.specs.Digits.{digits_of_bytes};
ghost use Rattle.llrp_schema.specs.declared.kinds.Kind.TheVariants.{Parameter};
ghost use Rattle.llrp_schema.specs.Calls.Schema.{field_rule};
ghost use Rattle.llrp_schema.specs.Schema.{fields_of, plain_fields_of, bits_of, is_tv};
ghost use Rattle.llrp_tree.specs.declared.TheConstants.{MAX_LIMIT};
ghost use Rattle.llrp_tree.specs.Private.Reading.{ReadsField, ReadsOn, StandsAt, fields_read};

use crate::fault::bad;
use crate::{FrameErr, Kind, ParamKind, Reason};
use arrayvec::ArrayVec;
use llrp_schema::Field;
use tag_bits::get;

/// Reads the field at a bit of a node that stops at another bit.
pub(crate) fn field_at(frame: &[u8], at: usize, stop: usize, rule: &Field) -> Result<u128, FrameErr>
    requires before { at ≤ stop }
    requires small { length frame.now ≤ MAX_LIMIT }
    requires inside { stop ≤ 8 * length frame.now }
    requires some { 1 ≤ rule.now.width }
    requires narrow { rule.now.width ≤ 96 }
    ensures { ReadsField (field_rule rule.now) at stop (drop at (digits_of_bytes frame.now))
        result }
{
    if stop - at < rule.width as usize {
        return Err(bad(at, Reason::Short));
    }
    let value = get(frame, at, rule.width);
    if rule.reserved {
        if value != 0 {
            return Err(bad(at, Reason::Reserved));
        }
    } else if value > rule.greatest {
        return Err(bad(at, Reason::Value));
    }
    Ok(value)
}

/// Reads the one field of a parameter with a type and a value alone, which is within these octets.
/// Returns its value and the octet after it.
#[inline(always)]
pub(crate) fn read_value(
    frame: &[u8],
    from: usize,
    stop: usize,
    kind: ParamKind,
) -> Result<(u128, usize), FrameErr>
    requires short { is_tv kind ≡ true }
    requires before { from ≤ stop }
    requires small { length frame.now ≤ MAX_LIMIT }
    requires inside { stop ≤ length frame.now }
    ensures within { MatchResult result (λ x. (from ≤ x.1) × (x.1 ≤ stop)) (λ _. Unit {0}) }
    ensures read { ReadsOn frame.now (Parameter kind) stop [] from result (λ h outer x.
        StandsAt frame.now (fields_read h stop (Parameter kind) (x.0 ∷ [])) outer x.1) }
{
    let rule = &llrp_schema::fields(Kind::Parameter(kind))[0];
    let value = field_at(frame, 8 * from, 8 * stop, rule)?;
    Ok((value, from + rule.width as usize / 8))
}

/// Reads the fields of a node of a kind, which are within these octets, and keeps those that are
/// not reserved. Returns the octet after them.
pub(crate) fn read_fields(
    frame: &[u8],
    from: usize,
    stop: usize,
    kind: Kind,
    values: &mut ArrayVec<u128, 12>,
) -> Result<usize, FrameErr>
    requires before { from ≤ stop }
    requires small { length frame.now ≤ MAX_LIMIT }
    requires inside { stop ≤ length frame.now }
    requires fresh { values.old.items ≡ [] }
    ensures within { MatchResult result (λ at. (from ≤ at) × (at ≤ stop)) (λ _. Unit {0}) }
    ensures width { MatchResult result (λ at. 8 * at
        ≡ 8 * from + bits_of (fields_of kind)) (λ _. Unit {0}) }
    ensures count { MatchResult result (λ _. length values.new.items
        ≡ length (plain_fields_of kind)) (λ _. Unit {0}) }
    ensures read { ReadsOn frame.now kind stop [] from result (λ h outer.
        StandsAt frame.now (fields_read h stop kind values.new.items) outer) }
{
    let rules = llrp_schema::fields(kind);
    let mut at = 8 * from;
    for rule in rules {
        let value = field_at(frame, at, 8 * stop, rule)?;
        if !rule.reserved {
            values.push(value);
        }
        at += rule.width as usize;
    }
    Ok(at / 8)
}
