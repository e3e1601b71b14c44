//! An open node, as the engine keeps it.

ghost use Rattle.std.specs.Prelude.{◌≡◌, ◌<◌, ◌≤◌, IfErr, IfOk, IfSome, Err, Ok, Some, length};
ghost use Rattle.llrp_schema.specs.declared.kinds.Kind.TheVariants.{Message};
ghost use Rattle.llrp_schema.specs.declared.kinds.MsgKind.TheVariants.{Keepalive};
ghost use Rattle.llrp_schema.specs.Schema.{groups_of, set_of_kind, tlv_in, tv_in};
ghost use Rattle.llrp_schema.specs.Calls.Places.{AreRequired};
ghost use Rattle.llrp_stream.specs.declared.engine.stack.Child.TheVariants.{Long};
ghost use Rattle.llrp_tree.specs.declared.TheConstants.{MAX_LIMIT};
ghost use Rattle.llrp_tree.specs.Tree.{Forest, none};
ghost use Rattle.llrp_tree.specs.OpenTree.{is_enough};
ghost use Rattle.llrp_stream.specs.Calls.Reading.{AreSeen};
ghost use Rattle.llrp_stream.specs.Private.Reading.{HasHead, HeadIs, PlacesKind};

use crate::engine::body_reader::bad;
use llrp_schema::{
    Kind, MsgKind, ParamKind, Seen, kind_set, param_of_tlv_in, param_of_tv_in, place, required,
};
use llrp_tree::numbers::{octet, word};
use llrp_tree::{FrameErr, MAX_DEPTH, Reason};

/// An open node: a message or parameter that has begun.
#[derive(Clone, Copy)]
pub struct StackNode {
    pub kind: Kind,
    /// The octet of the frame at which it stops.
    pub stop: u32,
    /// The groups that have a child.
    pub seen: Seen,
}

impl Default for StackNode {
    /// Fills the unused places of a stack; it is never read.
    fn default() -> StackNode
        ensures { result ≡ record {
          kind = Message Keepalive;
          stop = 0;
          seen = record { bits = 0 };
        } }
    {
        StackNode {
            kind: Kind::Message(MsgKind::Keepalive),
            stop: 0,
            seen: Seen { bits: 0 },
        }
    }
}

/// A child that may begin.
#[derive(Clone, Copy)]
pub(crate) struct Placed {
    pub(crate) kind: ParamKind,
    /// The groups of its parent that have a child once it has begun.
    pub(crate) seen: Seen,
}

/// What was read of a child's head.
#[derive(Clone, Copy)]
pub(crate) enum Child {
    /// It is not whole yet.
    Unfinished,
    /// A parameter with type and value.
    Short(Placed),
    /// A parameter with type, length and value, and its length.
    Long(Placed, usize),
}

/// A node that begins here.
#[inline]
pub(crate) fn begun(kind: Kind, stop: u32) -> StackNode
    ensures kind { result.kind ≡ kind }
    ensures stop { result.stop ≡ stop }
    ensures seen { AreSeen (groups_of kind) none result.seen.bits }
{
    StackNode {
        kind,
        stop,
        seen: Seen { bits: 0 },
    }
}

/// Checks a child at bit `at`, this many levels below the message, whose type is at bit `type_at`.
/// Returns its kind, or the first check that it fails.
#[inline(always)]
pub(crate) fn child_kind(
    found: Option<ParamKind>,
    parent: Kind,
    seen: Seen,
    level: u8,
    at: usize,
    type_at: usize,
) -> Result<Placed, FrameErr>
    ensures { PlacesKind found parent seen.bits level at type_at result }
{
    let Some(kind) = found else {
        return Err(bad(type_at, Reason::ParamType));
    };
    let Some(place) = place(parent, kind) else {
        return Err(bad(at, Reason::Misplaced));
    };
    let takes = seen.may_take(place);
    if !takes {
        return Err(bad(at, Reason::TooMany));
    }
    if level > MAX_DEPTH {
        return Err(bad(at, Reason::TooDeep));
    }
    Ok(Placed {
        kind,
        seen: seen.with(place),
    })
}

/// The groups of a kind that need a child; for the most frequent kind by one comparison.
#[inline(always)]
fn needed(kind: Kind) -> u32
    ensures { AreRequired (groups_of kind) result }
{
    match kind {
        Kind::Message(_) => required(kind),
        Kind::Parameter(parameter) => match parameter {
            ParamKind::TagReportData => required(Kind::Parameter(ParamKind::TagReportData)),
            ParamKind::WholeTagReportData => {
                required(Kind::Parameter(ParamKind::WholeTagReportData))
            }
            _ => required(kind),
        },
    }
}

/// Whether each group has as many children as it needs.
#[inline(always)]
pub(crate) fn is_enough(parent: Kind, seen: Seen) -> bool
    ensures { (children : Forest) → AreSeen (groups_of parent) children seen.bits
        → result ≡ is_enough (groups_of parent) children }
{
    seen.has_all(needed(parent))
}

/// The parameter with a type and a value alone that has this number among those of its parent's
/// profile.
#[inline(always)]
fn short_child(parent: Kind, number: u8) -> Option<ParamKind>
    ensures { result ≡ tv_in (set_of_kind parent) number }
{
    param_of_tv_in(kind_set(parent), number)
}

/// The same of a parameter with type, length and value.
#[inline(always)]
fn long_child(parent: Kind, number: u16) -> Option<ParamKind>
    ensures { result ≡ tlv_in (set_of_kind parent) number }
{
    param_of_tlv_in(kind_set(parent), number)
}

/// Reads the head of a child at an octet of a node, this many levels below the message.
#[inline(always)]
pub(crate) fn child_head(
    octets: &[u8],
    at: usize,
    stop: usize,
    parent: Kind,
    seen: Seen,
    level: u8,
) -> Result<Child, FrameErr>
    requires before { at < stop }
    requires small { stop ≤ MAX_LIMIT }
    ensures says { HeadIs parent seen.bits level at stop octets.now result }
    ensures there { IfErr result (λ error. HasHead parent at stop octets.now) }
{
    let bit = 8 * at;
    if llrp_schema::groups(parent).len() == 0 {
        return Err(bad(bit, Reason::Extra));
    }
    if octets.is_empty() {
        return Ok(Child::Unfinished);
    }
    let first = octet(octets, 0);
    if first >= 128 {
        let placed = child_kind(
            short_child(parent, first - 128),
            parent,
            seen,
            level,
            bit,
            bit + 1,
        )?;
        return Ok(Child::Short(placed));
    }
    if stop - at < 4 {
        return Err(bad(bit, Reason::Short));
    }
    if octets.len() < 4 {
        return Ok(Child::Unfinished);
    }
    let head = word(octets, 0);
    if head >= 1024 {
        return Err(bad(bit, Reason::Reserved));
    }
    let placed = child_kind(long_child(parent, head), parent, seen, level, bit, bit + 6)?;
    let size = word(octets, 2) as usize;
    if size < 4 {
        return Err(bad(bit + 16, Reason::ParamLength));
    }
    if stop - at < size {
        return Err(bad(bit + 16, Reason::ParamLength));
    }
    Ok(Child::Long(placed, size))
}

/// Reads the head of a child of a known kind at an octet of its parent. Returns the groups of the parent that
/// have a child once it has begun, and its length, or the fault of its length; `None` where another child comes, the
/// head is not whole, or another check fails. Where parent and kind are written at the call, the compiler knows the
/// child's place.
#[inline(always)]
pub(crate) fn known_head(
    octets: &[u8],
    at: usize,
    stop: usize,
    parent: Kind,
    seen: Seen,
    level: u8,
    number: u16,
    kind: ParamKind,
) -> Result<Option<(Seen, usize)>, FrameErr>
    requires before { at < stop }
    requires small { stop ≤ MAX_LIMIT }
    requires known { tlv_in (set_of_kind parent) number ≡ Some kind }
    requires some { (children : Forest) × AreSeen (groups_of parent) children seen.bits }
    requires few { number < 1024 }
    ensures says { IfOk result (λ found. IfSome found (λ head. HeadIs parent seen.bits level at stop
        octets.now (Ok (Long (record { kind = kind; seen = head.0 }) head.1)))) }
    ensures fails { IfErr result (λ error. HeadIs parent seen.bits level at stop octets.now
        (Err error)) }
    ensures there { IfErr result (λ error. 4 ≤ length octets.now) }
{
    if octets.len() < 4 || stop - at < 4 {
        return Ok(None);
    }
    let head = word(octets, 0);
    if head != number {
        return Ok(None);
    }
    let Ok(placed) = child_kind(Some(kind), parent, seen, level, 0, 0) else {
        return Ok(None);
    };
    let size = word(octets, 2) as usize;
    if size < 4 {
        return Err(bad(8 * at + 16, Reason::ParamLength));
    }
    if stop - at < size {
        return Err(bad(8 * at + 16, Reason::ParamLength));
    }
    Ok(Some((placed.seen, size)))
}
