//! Reads the heads of children.

ghost use Rattle.std.specs.Prelude.{◌≡◌, ◌≤◌, ◌<◌, length, false, MatchResult};
ghost use Rattle.llrp_tree.specs.Tree.{forest};
ghost use Rattle.llrp_tree.specs.declared.TheConstants.{MAX_DEPTH, MAX_LIMIT};
ghost use Rattle.llrp_tree.specs.Private.Reading.{BeginsChild, ReadsTlvHead};
ghost use Rattle.llrp_tree.specs.Private.Standing.{is_tv_kind};

use super::groups::child_kind;
use crate::fault::bad;
use crate::{FrameErr, Kind, MAX_DEPTH, Node, ParamKind, Reason};
use llrp_schema::{param_of_tlv_in, param_of_tv_in};
use tag_bits::get;

/// A child whose head was read.
#[derive(Clone, Copy, Debug)]
pub(crate) struct Child {
    pub kind: ParamKind,
    /// The octet after its head.
    pub at: usize,
    /// The octet at which it stops.
    pub stop: usize,
}

/// Reads the kind and the length of the child with type, length and value at an octet.
fn tlv_head(
    frame: &[u8],
    level: u8,
    at: usize,
    stop: usize,
    parent: Kind,
    siblings: &[Node],
) -> Result<(ParamKind, usize), FrameErr>
    requires before { at < stop }
    requires small { length frame.now ≤ MAX_LIMIT }
    requires inside { stop ≤ length frame.now }
    ensures { ReadsTlvHead frame.now parent (forest siblings.now) level at stop result }
{
    let bit = 8 * at;
    if stop - at < 4 {
        return Err(bad(bit, Reason::Short));
    }
    let reserved = get(frame, bit, 6);
    if reserved != 0 {
        return Err(bad(bit, Reason::Reserved));
    }
    let number = get(frame, bit + 6, 10) as u16;
    let set = llrp_schema::kind_set(parent);
    let kind = child_kind(
        param_of_tlv_in(set, number),
        parent,
        siblings,
        level,
        bit,
        bit + 6,
    )?;
    let octets = get(frame, bit + 16, 16) as usize;
    if octets < 4 {
        return Err(bad(bit + 16, Reason::ParamLength));
    }
    if stop - at < octets {
        return Err(bad(bit + 16, Reason::ParamLength));
    }
    Ok((kind, octets))
}

/// Reads the head of the child at an octet of a node at a level.
pub(crate) fn begin_child(
    frame: &[u8],
    level: u8,
    at: usize,
    stop: usize,
    parent: Kind,
    siblings: &[Node],
) -> Result<Child, FrameErr>
    requires before { at < stop }
    requires small { length frame.now ≤ MAX_LIMIT }
    requires inside { stop ≤ length frame.now }
    requires shallow { level ≤ MAX_DEPTH }
    requires has_length { is_tv_kind parent ≡ false }
    ensures within { MatchResult result (λ c. (at < c.at) × (c.at ≤ c.stop) × (c.stop ≤ stop)
        × (level < MAX_DEPTH)) (λ _. Unit {0}) }
    ensures begun { BeginsChild frame.now parent (forest siblings.now) level at stop result }
{
    let bit = 8 * at;
    if llrp_schema::groups(parent).len() == 0 {
        return Err(bad(bit, Reason::Extra));
    }
    let first = get(frame, bit, 1);
    if first != 0 {
        let number = get(frame, bit + 1, 7) as u8;
        let set = llrp_schema::kind_set(parent);
        let kind = child_kind(
            param_of_tv_in(set, number),
            parent,
            siblings,
            level + 1,
            bit,
            bit + 1,
        )?;
        return Ok(Child {
            kind,
            at: at + 1,
            stop,
        });
    }
    let (kind, octets) = tlv_head(frame, level + 1, at, stop, parent, siblings)?;
    Ok(Child {
        kind,
        at: at + 4,
        stop: at + octets,
    })
}
