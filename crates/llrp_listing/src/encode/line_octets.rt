//! A line that was read: its own tests, its record, and its octets.

ghost use Rattle.std.specs.Prelude.{◌≡◌, ◌∷◌, ◌++◌, ◌≤◌, ◌<◌, ◌/◌, IfOk, IsTrue, OnOk, [], drop, length, min, nat_le, take, true};
ghost use Rattle.llrp_schema.specs.declared.kinds.Kind.TheVariants.{Message, Parameter};
ghost use Rattle.llrp_schema.specs.declared.kinds.Tail.TheVariants.{Absent, Text, Words};
ghost use Rattle.llrp_schema.specs.Schema.{fields_of, is_tv, tail_of};
ghost use Rattle.llrp_tree.specs.declared.node.NodeFault.TheVariants.{Value};
ghost use Rattle.llrp_tree.specs.Checks.{first_failed, values_fit};
ghost use Rattle.llrp_tree.specs.Calls.Lawful.{own_octets};
ghost use Rattle.llrp_tree.specs.Calls.HeadOctets.{both_halves, message_start, parameter_start};
ghost use Rattle.llrp_listing.specs.Private.OpenNodes.{IsSaid, MOST};
ghost use Rattle.llrp_listing.specs.Private.LineOctets.{PutsOwn, PutsStart, begun_line, own_octets_of};
ghost use Rattle.llrp_listing.specs.Private.ShortLines.{IsFitting, value_node};

use crate::encode::open_lines::LineRecord;
use crate::encode::value_line::ValueLine;
use llrp_schema::{Field, Kind, KindSet, MsgKind, ParamKind, Tail};
use llrp_tree::{
    Front, HEADER_OCTETS, HeadOctets, NodeFault, bare_front, message_front, message_start,
    own_fault, own_octets, parameter_front, parameter_start, tv_front,
};
use std::alloc::AllocError;

/// How many octets a parameter's line has, up to the greatest number that is counted.
#[inline(always)]
fn parameter_octets(kind: ParamKind, tail: &[u8]) -> u32
    ensures { result ≡ min (own_octets (Parameter kind) tail.now) MOST }
{
    own_octets(Kind::Parameter(kind), tail).min(u32::MAX as u128) as u32
}

/// How many octets a message's line has, up to the greatest number that is counted.
#[inline(always)]
fn message_octets(kind: MsgKind, tail: &[u8]) -> u32
    ensures { result ≡ min (own_octets (Message kind) tail.now) MOST }
{
    own_octets(Kind::Message(kind), tail).min(u32::MAX as u128) as u32
}

/// The record of a line that begins, and whether its octets were put after the others.
#[derive(Clone, Copy)]
pub struct PutLine {
    pub held: LineRecord,
    pub put: bool,
}

/// The first test of its own that a line fails, and how many octets it has.
#[derive(Clone, Copy)]
pub struct Own {
    pub fault: Option<NodeFault>,
    pub octets: u32,
}

/// The record of a line with nothing below it.
#[inline(always)]
pub fn begun_by(kind: Kind, number: u64, own: Own) -> PutLine
    ensures { result ≡ begun_line kind number own }
{
    PutLine {
        held: LineRecord {
            kind,
            number,
            fault: own.fault,
            seen: 0,
            levels: 0,
            octets: own.octets,
        },
        put: own.fault.is_none(),
    }
}

/// Appends the octets before a line's tail. Eight or sixteen are appended, and then those cut off
/// that do not belong to it, so that a fixed number of octets is copied.
#[inline(always)]
fn append_front(room: &mut Vec<u8>, front: &Front) -> Result<(), AllocError>
    requires { front.now.count ≤ 16 }
    ensures { OnOk result (room.new.items ≡ room.old.items
        ++ take front.now.count (both_halves front.now.upper front.now.lower)) }
{
    let end = room.len() + front.count;
    room.extend_from_slice(&front.upper.to_be_bytes())?;
    if front.count <= 8 {
        room.truncate(end);
        return Ok(());
    }
    room.extend_from_slice(&front.lower.to_be_bytes())?;
    room.truncate(end);
    Ok(())
}

/// Appends the octets of a line: those before its tail, then the tail.
#[inline(always)]
fn append(room: &mut Vec<u8>, front: &Front, tail: &[u8]) -> Result<(), AllocError>
    requires { front.now.count ≤ 16 }
    ensures { OnOk result (room.new.items ≡ (room.old.items
        ++ take front.now.count (both_halves front.now.upper front.now.lower)) ++ tail.now) }
{
    append_front(room, front)?;
    if tail.is_empty() {
        return Ok(());
    }
    room.extend_from_slice(tail)
}

/// The same, where the octets before the tail may be more than sixteen.
fn append_start(room: &mut Vec<u8>, start: &HeadOctets, tail: &[u8]) -> Result<(), AllocError>
    requires { start.now.from ≤ length start.now.octets }
    ensures { OnOk result (room.new.items ≡ (room.old.items
        ++ drop start.now.from start.now.octets) ++ tail.now) }
{
    room.extend_from_slice(start.octets.as_slice().split_at(start.from).1)?;
    room.extend_from_slice(tail)
}

/// Whether the octets before the tail of such a line are sixteen at most. In the profile they always
/// are, so they are not counted.
#[inline(always)]
fn fits_front(kind: Kind) -> bool
    ensures { IsTrue result → own_octets kind [] ≤ 16 }
{
    match llrp_schema::kind_set(kind) {
        KindSet::Profile => true,
        KindSet::Standard => own_octets(kind, &[]) <= 16,
    }
}

/// Appends the octets of a parameter's line.
#[inline(always)]
fn append_parameter(
    room: &mut Vec<u8>,
    kind: ParamKind,
    values: &[u128],
    tail: &[u8],
) -> Result<(), AllocError>
    requires values { values_fit (fields_of (Parameter kind)) values.now ≡ true }
    requires words { tail_of (Parameter kind) ≡ Words → length tail.now / 2 ≤ 65535 }
    requires text { tail_of (Parameter kind) ≡ Text → length tail.now ≤ 65535 }
    ensures { OnOk result (PutsStart room.old.items room.new.items
        (parameter_start kind 0 values.now tail.now) tail.now) }
{
    if !fits_front(Kind::Parameter(kind)) {
        return append_long_parameter(room, kind, values, tail);
    }
    let front = parameter_front(kind, values, tail);
    append(room, &front, tail)
}

/// The same, however many octets come before the tail.
#[inline(never)]
fn append_long_parameter(
    room: &mut Vec<u8>,
    kind: ParamKind,
    values: &[u128],
    tail: &[u8],
) -> Result<(), AllocError>
    requires values { values_fit (fields_of (Parameter kind)) values.now ≡ true }
    requires words { tail_of (Parameter kind) ≡ Words → length tail.now / 2 ≤ 65535 }
    requires text { tail_of (Parameter kind) ≡ Text → length tail.now ≤ 65535 }
    ensures { OnOk result (PutsStart room.old.items room.new.items
        (parameter_start kind 0 values.now tail.now) tail.now) }
{
    let start = parameter_start(kind, 0, values, tail);
    append_start(room, &start, tail)
}

/// Appends the octets of a message's line.
#[inline(always)]
fn append_message(
    room: &mut Vec<u8>,
    version: u8,
    kind: MsgKind,
    id: u32,
    values: &[u128],
    tail: &[u8],
) -> Result<(), AllocError>
    requires version { version < 8 }
    requires values { values_fit (fields_of (Message kind)) values.now ≡ true }
    ensures { OnOk result (PutsStart room.old.items room.new.items
        (message_start version kind 0 id values.now) tail.now) }
{
    if !fits_front(Kind::Message(kind)) {
        return append_long_message(room, version, kind, id, values, tail);
    }
    let front = message_front(version, kind, id, values);
    append(room, &front, tail)
}

/// The same, however many octets there are.
#[inline(never)]
fn append_long_message(
    room: &mut Vec<u8>,
    version: u8,
    kind: MsgKind,
    id: u32,
    values: &[u128],
    tail: &[u8],
) -> Result<(), AllocError>
    requires version { version < 8 }
    requires values { values_fit (fields_of (Message kind)) values.now ≡ true }
    ensures { OnOk result (PutsStart room.old.items room.new.items
        (message_start version kind 0 id values.now) tail.now) }
{
    let start = message_start(version, kind, 0, id, values);
    append_start(room, &start, tail)
}

/// The first test that the value of a field fails.
#[inline(always)]
fn value_fault(rule: &Field, value: u128) -> Option<NodeFault>
    ensures { result ≡ first_failed ((nat_le value rule.now.greatest, Value) ∷ []) }
{
    if value > rule.greatest {
        return Some(NodeFault::Value);
    }
    None
}

/// Whether the lines of a kind have no field and no tail. Where this is false a line takes the
/// general way, so only speed depends on it.
#[inline(always)]
pub fn is_bare(kind: Kind) -> bool
    ensures fields { IsTrue result → fields_of kind ≡ [] }
    ensures tail { IsTrue result → tail_of kind ≡ Absent }
{
    if !llrp_schema::fields(kind).is_empty() {
        return false;
    }
    matches!(llrp_schema::tail(kind), Tail::Absent)
}

/// Appends the octets of a parameter that has neither fields nor a tail.
#[inline(always)]
fn put_bare(room: &mut Vec<u8>, kind: ParamKind) -> Result<Own, AllocError>
    requires fields { fields_of (Parameter kind) ≡ [] }
    requires tail { tail_of (Parameter kind) ≡ Absent }
    requires said { IsSaid (record { kind = Parameter kind; numbers = []; tail = [] }) }
    ensures { IfOk result (λ own. PutsOwn room.old.items room.new.items own
        (record { kind = Parameter kind; numbers = []; tail = [] })) }
{
    let front = bare_front(kind);
    append_front(room, &front)?;
    Ok(Own {
        fault: None,
        octets: front.count as u32,
    })
}

/// Appends the octets of a parameter that has a type and a value alone.
#[inline(always)]
fn put_tv(room: &mut Vec<u8>, kind: ParamKind, value: u128) -> Result<Own, AllocError>
    requires tv { is_tv kind ≡ true }
    requires said { IsSaid (record { kind = Parameter kind; numbers = value ∷ []; tail = [] }) }
    ensures { IfOk result (λ own. PutsOwn room.old.items room.new.items own
        (record { kind = Parameter kind; numbers = value ∷ []; tail = [] })) }
{
    let [rule] = llrp_schema::fields(Kind::Parameter(kind)) else {
        return put_any(room, kind, &[value], &[]);
    };
    let octets = 1 + rule.width / 8;
    let fault = value_fault(rule, value);
    match fault {
        Some(_) => Ok(Own { fault, octets }),
        None => {
            let front = tv_front(kind, rule, value);
            append_front(room, &front)?;
            Ok(Own { fault, octets })
        }
    }
}

/// Appends the octets of a parameter that has a type and a value alone, which passes its test, and returns how many there are.
#[inline(always)]
pub fn put_fitting(room: &mut Vec<u8>, line: ValueLine) -> Result<u32, AllocError>
    requires fits { IsFitting line }
    requires said { IsSaid (value_node line) }
    ensures { IfOk result (λ octets. PutsOwn room.old.items room.new.items (own_octets_of octets)
        (value_node line)) }
{
    let front = tv_front(line.kind, line.rule, line.value);
    append_front(room, &front)?;
    Ok(1 + line.rule.width / 8)
}

/// Appends the octets of a parameter's line with one number and no tail.
#[inline(always)]
pub fn put_value(room: &mut Vec<u8>, kind: ParamKind, value: u128) -> Result<Own, AllocError>
    requires { IsSaid (record { kind = Parameter kind; numbers = value ∷ []; tail = [] }) }
    ensures { IfOk result (λ own. PutsOwn room.old.items room.new.items own
        (record { kind = Parameter kind; numbers = value ∷ []; tail = [] })) }
{
    if !llrp_schema::is_tv(kind) {
        return put_any(room, kind, &[value], &[]);
    }
    put_tv(room, kind, value)
}

/// Appends the octets of a parameter's line.
#[inline(always)]
pub fn put_parameter(
    room: &mut Vec<u8>,
    kind: ParamKind,
    values: &[u128],
    tail: &[u8],
) -> Result<Own, AllocError>
    requires { IsSaid (record { kind = Parameter kind; numbers = values.now; tail = tail.now }) }
    ensures { IfOk result (λ own. PutsOwn room.old.items room.new.items own
        (record { kind = Parameter kind; numbers = values.now; tail = tail.now })) }
{
    if tail.len() > 0 {
        return put_any(room, kind, values, tail);
    }
    match values {
        [] => {
            if !is_bare(Kind::Parameter(kind)) {
                return put_any(room, kind, values, tail);
            }
            put_bare(room, kind)
        }
        _ => put_any(room, kind, values, tail),
    }
}

/// Appends the octets of the line of a parameter of any kind.
#[inline(never)]
fn put_any(
    room: &mut Vec<u8>,
    kind: ParamKind,
    values: &[u128],
    tail: &[u8],
) -> Result<Own, AllocError>
    requires { IsSaid (record { kind = Parameter kind; numbers = values.now; tail = tail.now }) }
    ensures { IfOk result (λ own. PutsOwn room.old.items room.new.items own
        (record { kind = Parameter kind; numbers = values.now; tail = tail.now })) }
{
    let fault = own_fault(Kind::Parameter(kind), values, tail);
    let octets = parameter_octets(kind, tail);
    match fault {
        Some(_) => Ok(Own { fault, octets }),
        None => {
            append_parameter(room, kind, values, tail)?;
            Ok(Own { fault, octets })
        }
    }
}

/// Appends the octets of a message that has no fields.
#[inline(always)]
fn put_bare_message(
    room: &mut Vec<u8>,
    kind: MsgKind,
    version: u8,
    id: u32,
) -> Result<Own, AllocError>
    requires fields { fields_of (Message kind) ≡ [] }
    requires tail { tail_of (Message kind) ≡ Absent }
    requires said { IsSaid (record {
      kind = Message kind;
      numbers = version ∷ id ∷ [];
      tail = [];
    }) }
    ensures { IfOk result (λ own. PutsOwn room.old.items room.new.items own
        (record { kind = Message kind; numbers = version ∷ id ∷ []; tail = [] })) }
{
    let front = message_front(version, kind, id, &[]);
    append_front(room, &front)?;
    Ok(Own {
        fault: None,
        octets: HEADER_OCTETS as u32,
    })
}

/// Appends the octets of a message's line.
#[inline(always)]
pub fn put_message(
    room: &mut Vec<u8>,
    kind: MsgKind,
    version: u8,
    id: u32,
    values: &[u128],
    tail: &[u8],
) -> Result<Own, AllocError>
    requires { IsSaid (record {
      kind = Message kind;
      numbers = version ∷ id
          ∷ values.now;
      tail = tail.now;
    }) }
    ensures { IfOk result (λ own. PutsOwn room.old.items room.new.items own
        (record { kind = Message kind; numbers = version ∷ id ∷ values.now; tail = tail.now })) }
{
    if tail.len() > 0 {
        return put_any_message(room, kind, version, id, values, tail);
    }
    match values {
        [] => {
            if !is_bare(Kind::Message(kind)) {
                return put_any_message(room, kind, version, id, values, tail);
            }
            put_bare_message(room, kind, version, id)
        }
        _ => put_any_message(room, kind, version, id, values, tail),
    }
}

/// Appends the octets of the line of a message of any kind.
#[inline(never)]
fn put_any_message(
    room: &mut Vec<u8>,
    kind: MsgKind,
    version: u8,
    id: u32,
    values: &[u128],
    tail: &[u8],
) -> Result<Own, AllocError>
    requires { IsSaid (record {
      kind = Message kind;
      numbers = version ∷ id
          ∷ values.now;
      tail = tail.now;
    }) }
    ensures { IfOk result (λ own. PutsOwn room.old.items room.new.items own
        (record { kind = Message kind; numbers = version ∷ id ∷ values.now; tail = tail.now })) }
{
    let fault = own_fault(Kind::Message(kind), values, tail);
    let octets = message_octets(kind, tail);
    match fault {
        Some(_) => Ok(Own { fault, octets }),
        None => {
            append_message(room, version, kind, id, values, tail)?;
            Ok(Own { fault, octets })
        }
    }
}
