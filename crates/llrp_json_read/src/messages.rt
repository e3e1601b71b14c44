//! The message that a value of JSON says.

ghost use Rattle.std.specs.Prelude.{◌≡◌, MatchResult, Some, codes};
ghost use Rattle.json.specs.Value.{value_view};
ghost use Rattle.llrp_tree.specs.Checks.{first_message_fault};
ghost use Rattle.llrp_tree.specs.Lawful.{IsLawfulMessage};
ghost use Rattle.llrp_tree.specs.Tree.{forest};
ghost use Rattle.llrp_json_read.specs.Calls.ReadErrors.{IsReadErr};
ghost use Rattle.llrp_json_read.specs.ObjectRefused.{RefusesMessage, RefusesOwnMessage, whole};
ghost use Rattle.llrp_json_read.specs.ObjectSays.{SaysMessage};
ghost use Rattle.llrp_json_read.specs.Private.Words.{MessageParts};

use crate::nodes::{check_members, message_kind, read_below, read_start, read_values};
use crate::refusal::{ReadErr, Reason, whole};
use arrayvec::ArrayVec;
use json::Value;
use llrp_schema::{Kind, KindSet, MsgKind};
use llrp_tree::{MAX_DEPTH, Message, NodeFault, Nodes, Octets};
use std::alloc::Global;

/// The parts of a message without its parameters.
#[derive(Drop)]
pub(crate) struct OwnParts {
    pub kind: MsgKind,
    pub version: u8,
    pub id: u32,
    pub fields: ArrayVec<u128, 12>,
    pub tail: Octets,
}

/// The version, the id, the kind, the fields and the tail of the message that a value says.
pub(crate) fn own_parts<'a>(
    alloc: Global,
    set: KindSet,
    value: &Value<'a>,
) -> Result<OwnParts, ReadErr<'a>>
    ensures { MatchResult result
        (λ parts. MessageParts set (value_view value.now) parts.kind parts.version parts.id
        parts.fields.items parts.tail)
        (IsReadErr (RefusesOwnMessage set (value_view value.now))) }
{
    let kind = match message_kind(alloc, set, value) {
        Ok(kind) => kind,
        Err(error) => return Err(error),
    };
    match check_members(alloc, value, Kind::Message(kind)) {
        Ok(()) => {}
        Err(error) => return Err(error),
    }
    let (version, id) = match read_start(alloc, value) {
        Ok(start) => start,
        Err(error) => return Err(error),
    };
    match read_values(alloc, value, Kind::Message(kind)) {
        Ok((fields, tail)) => Ok(OwnParts {
            kind,
            version,
            id,
            fields,
            tail,
        }),
        Err(error) => Err(error),
    }
}

/// The message of these parts, or the first test that they fail.
fn made_message<'a>(
    alloc: Global,
    version: u8,
    id: u32,
    kind: MsgKind,
    fields: &[u128],
    tail: Octets,
    children: Nodes,
) -> Result<Message, ReadErr<'a>>
    ensures { MatchResult result
        (λ m. (m ≡ record { version = version; id = id; kind = kind; fields = fields.now; tail = tail; children = forest children })
        × IsLawfulMessage m)
        (IsReadErr (λ r. (fault : NodeFault)
        × (first_message_fault version kind fields.now tail (forest children) ≡ Some fault)
        × (r ≡ whole (Reason.Node fault)))) }
{
    match Message::with_tail(version, id, kind, fields, tail, children) {
        Ok(message) => Ok(message),
        Err(refusal) => Err(ReadErr::Refused(whole(alloc, Reason::Node(refusal.fault)))),
    }
}

/// The lawful message of a set of kinds that a value says, or the first reason for which it says
/// none. The other error is that memory ran out.
pub fn read_message<'a>(
    alloc: Global,
    set: KindSet,
    value: &Value<'a>,
) -> Result<Message, ReadErr<'a>>
    ensures { MatchResult result (SaysMessage set (value_view value.now))
        (IsReadErr (RefusesMessage set (value_view value.now))) }
{
    let parts = match own_parts(alloc, set, value) {
        Ok(parts) => parts,
        Err(error) => return Err(error),
    };
    let OwnParts {
        kind,
        version,
        id,
        fields,
        tail,
    } = parts;
    let children = match read_below(alloc, set, value, MAX_DEPTH) {
        Ok(children) => children,
        Err(error) => return Err(error),
    };
    made_message(alloc, version, id, kind, fields.as_slice(), tail, children)
}
