//! Reads the tail of a node.

ghost use Rattle.std.specs.Prelude.{◌≡◌, ◌+◌, ◌*◌, ◌≤◌, ℕ, Bool, List, [], ◌∷◌, length, drop, Some, MatchResult, unwrap_or};
ghost use Rattle.tag_bits.specs.Digits.{digits_of_bytes};
ghost use Rattle.llrp_schema.specs.declared.kinds.Tail.TheVariants.{Words, Text, Bits};
ghost use Rattle.llrp_schema.specs.Schema.{fields_of, plain_fields_of, bits_of, tail_of};
ghost use Rattle.llrp_tree.specs.declared.TheConstants.{MAX_LIMIT};
ghost use Rattle.llrp_tree.specs.Tree.{none};
ghost use Rattle.llrp_tree.specs.Lawful.{AreOctets};
ghost use Rattle.llrp_tree.specs.Spelling.{spread};
ghost use Rattle.llrp_tree.specs.Calls.OpenTree.{as_read};
ghost use Rattle.llrp_tree.specs.Private.Reading.{FindsTail, ReadsOn, StandsAt, node_of};

use crate::fault::bad;
use crate::{FrameErr, Kind, Octets, Reason};
use llrp_schema::Tail;
use std::alloc::Global;
use tag_bits::get;

/// Octets from one place to another.
#[derive(Clone, Copy, Debug)]
pub(crate) struct Span {
    pub from: usize,
    pub to: usize,
}

/// Finds the octets of a tail of words, whose count is at an octet.
pub(crate) fn words_at(frame: &[u8], at: usize, stop: usize) -> Result<Span, FrameErr>
    requires before { at ≤ stop }
    requires small { length frame.now ≤ MAX_LIMIT }
    requires inside { stop ≤ length frame.now }
    ensures { (fields : List ℕ)
        → FindsTail Words fields at stop (drop (8 * at) (digits_of_bytes frame.now)) result }
{
    if stop - at < 2 {
        return Err(bad(8 * at, Reason::Short));
    }
    let octets = 2 * get(frame, 8 * at, 16) as usize;
    if stop - at - 2 < octets {
        return Err(bad(8 * at, Reason::Count));
    }
    Ok(Span {
        from: at + 2,
        to: at + 2 + octets,
    })
}

/// Finds the octets of a tail of text, whose count is at an octet.
pub(crate) fn text_at(frame: &[u8], at: usize, stop: usize) -> Result<Span, FrameErr>
    requires before { at ≤ stop }
    requires small { length frame.now ≤ MAX_LIMIT }
    requires inside { stop ≤ length frame.now }
    ensures { (fields : List ℕ)
        → FindsTail Text fields at stop (drop (8 * at) (digits_of_bytes frame.now)) result }
{
    if stop - at < 2 {
        return Err(bad(8 * at, Reason::Short));
    }
    let length = get(frame, 8 * at, 16) as usize;
    if stop - at - 2 < length {
        return Err(bad(8 * at, Reason::Count));
    }
    let from = at + 2;
    match std::str::from_utf8(&frame[from..from + length]) {
        Ok(_) => Ok(Span {
            from,
            to: from + length,
        }),
        Err(error) => Err(bad(8 * (from + error.valid_up_to()), Reason::Utf8)),
    }
}

/// Finds the octets of a tail of bits at an octet, whose count is the first of the fields.
pub(crate) fn bits_at(at: usize, stop: usize, fields: &[u128]) -> Result<Span, FrameErr>
    requires behind { 2 ≤ at }
    requires before { at ≤ stop }
    requires small { stop ≤ MAX_LIMIT }
    ensures { (rest : List Bool) → FindsTail Bits fields.now at stop rest result }
{
    let bits = match fields {
        [] => 0,
        [bits, ..] => *bits,
    };
    let octets = bits / 8 + (bits % 8 + 7) / 8;
    if ((stop - at) as u128) < octets {
        return Err(bad(8 * at - 16, Reason::Count));
    }
    Ok(Span {
        from: at,
        to: at + octets as usize,
    })
}

/// Finds the octets of the tail of a kind at an octet.
pub(crate) fn tail_at(
    frame: &[u8],
    at: usize,
    stop: usize,
    form: Tail,
    fields: &[u128],
) -> Result<Span, FrameErr>
    requires behind { 2 ≤ at }
    requires before { at ≤ stop }
    requires small { length frame.now ≤ MAX_LIMIT }
    requires inside { stop ≤ length frame.now }
    ensures { FindsTail form fields.now at stop (drop (8 * at) (digits_of_bytes frame.now)) result }
{
    match form {
        Tail::Absent => Ok(Span { from: at, to: at }),
        Tail::Words => words_at(frame, at, stop),
        Tail::Text => text_at(frame, at, stop),
        Tail::Bits => bits_at(at, stop, fields),
        Tail::Data => Ok(Span { from: at, to: stop }),
    }
}

/// A tail that was read, and the octet after it.
#[derive(Drop)]
pub(crate) struct ReadTail {
    pub octets: Octets,
    pub at: usize,
}

/// Reads the tail of a node of a kind after its fields.
pub(crate) fn read_tail(
    alloc: Global,
    frame: &[u8],
    at: usize,
    stop: usize,
    kind: Kind,
    fields: &[u128],
) -> Result<ReadTail, FrameErr>
    requires behind { 2 ≤ at }
    requires before { at ≤ stop }
    requires small { length frame.now ≤ MAX_LIMIT }
    requires inside { stop ≤ length frame.now }
    requires count { length fields.now ≡ length (plain_fields_of kind) }
    ensures within { MatchResult result (λ x. (at ≤ x.at) × (x.at ≤ stop)) (λ _. Unit {0}) }
    ensures read { ReadsOn frame.now kind stop (spread (fields_of kind) fields.now) at result
        (λ h outer x. StandsAt frame.now (node_of h stop kind fields.now x.octets none) outer
        x.at) }
    ensures whole { MatchResult result (λ x. unwrap_or (as_read (tail_of kind) x.octets) []
        ≡ x.octets) (λ _. Unit {0}) }
{
    let span = tail_at(frame, at, stop, llrp_schema::tail(kind), fields)?;
    let octets = frame[span.from..span.to].to_vec(alloc)?;
    Ok(ReadTail {
        octets: Octets::new(octets),
        at: span.to,
    })
}
