//! The parameters and the message that values of JSON say.

ghost use Rattle.std.specs.Prelude.{◌≡◌, ℕ, List, Some, None, MatchResult, codes, option_and_then};
ghost use Rattle.json.specs.Find.{as_str, as_object, get};
ghost use Rattle.json.specs.Json.{Members};
ghost use Rattle.json.specs.Value.{items_view, value_view};
ghost use Rattle.llrp_schema.specs.Schema.{plain_fields_of, tail_of};
ghost use Rattle.llrp_tree.specs.Checks.{first_fault};
ghost use Rattle.llrp_tree.specs.Tree.{forest};
ghost use Rattle.llrp_tree.specs.Lawful.{IsLawfulTree};
ghost use Rattle.llrp_listing.specs.NodeLine.{Version, Id};
ghost use Rattle.llrp_json_read.specs.Calls.ReadErrors.{IsReadErr};
ghost use Rattle.llrp_json_read.specs.MemberRules.{member_rules};
ghost use Rattle.llrp_json_read.specs.ObjectMembers.{member_fault};
ghost use Rattle.llrp_json_read.specs.ObjectRefused.{IsMessage, IsParameter, RefusesEach, RefusesKind, RefusesName, RefusesOwnParts, RefusesParameter, RefusesStart, RefusesValues, at_member, whole};
ghost use Rattle.llrp_json_read.specs.ObjectSays.{IsOfKind, SaysEach, SaysFields, SaysNumber, SaysParameter, SaysParts, SaysTail, below};

use crate::members::{array_of, members_of};
use crate::names::member_fault;
use crate::numbers::{read_fields, read_id, read_version};
use crate::refusal::{ReadErr, Reason, at_member, at_place, whole};
use crate::rules::{member_rules, tail_name};
use crate::tails::read_tail;
use arrayvec::ArrayVec;
use json::Value;
use llrp_schema::{Kind, KindSet, MsgKind, ParamKind, msg_with_name_in, param_with_name_in};
use llrp_tree::{Node, NodeFault, Nodes, Octets};
use std::alloc::Global;

/// The text of the member that names the kind of an object.
fn kind_text<'a>(
    alloc: Global,
    object: &Value<'a>,
    name: &'static str,
) -> Result<&'a str, ReadErr<'a>>
    ensures { MatchResult result
        (λ text. option_and_then as_str (get name.now (value_view object.now)) ≡ Some text.now)
        (IsReadErr (λ r. (why : Reason) × RefusesName name.now (get name.now (value_view object.now)) why
        × (r ≡ at_member name.now why))) }
{
    let Some(value) = object.get(name) else {
        return Err(ReadErr::Refused(at_member(alloc, name, Reason::Missing)));
    };
    match value.as_str() {
        Some(text) => Ok(text),
        None => Err(ReadErr::Refused(at_member(alloc, name, Reason::Mistyped))),
    }
}

/// The kind of a parameter, by the member that names it.
pub(crate) fn parameter_kind<'a>(
    alloc: Global,
    set: KindSet,
    object: &Value<'a>,
) -> Result<ParamKind, ReadErr<'a>>
    ensures { MatchResult result (λ kind. IsOfKind set (Kind.Parameter kind) (value_view object.now))
        (IsReadErr (RefusesKind set IsParameter (codes "parameter") (value_view object.now))) }
{
    if members_of(object).is_none() {
        return Err(ReadErr::Refused(whole(alloc, Reason::Mistyped)));
    }
    let name = kind_text(alloc, object, "parameter")?;
    match param_with_name_in(set, name.as_bytes()) {
        Some(kind) => Ok(kind),
        None => Err(ReadErr::Refused(at_member(alloc, "parameter", Reason::Name))),
    }
}

/// The kind of a message, by the member that names it.
pub(crate) fn message_kind<'a>(
    alloc: Global,
    set: KindSet,
    object: &Value<'a>,
) -> Result<MsgKind, ReadErr<'a>>
    ensures { MatchResult result (λ kind. IsOfKind set (Kind.Message kind) (value_view object.now))
        (IsReadErr (RefusesKind set IsMessage (codes "message") (value_view object.now))) }
{
    if members_of(object).is_none() {
        return Err(ReadErr::Refused(whole(alloc, Reason::Mistyped)));
    }
    let name = kind_text(alloc, object, "message")?;
    match msg_with_name_in(set, name.as_bytes()) {
        Some(kind) => Ok(kind),
        None => Err(ReadErr::Refused(at_member(alloc, "message", Reason::Name))),
    }
}

/// Checks the names and the types of the members of an object of a kind.
pub(crate) fn check_members<'a>(
    alloc: Global,
    object: &Value<'a>,
    kind: Kind,
) -> Result<(), ReadErr<'a>>
    ensures { MatchResult result
        (λ _. (members : Members) → as_object (value_view object.now) ≡ Some members
        → member_fault (value_view object.now) members (member_rules kind) ≡ None)
        (IsReadErr (λ r. (members : Members) → as_object (value_view object.now) ≡ Some members
        → (at : List ℕ × Reason)
        × (member_fault (value_view object.now) members (member_rules kind) ≡ Some at)
        × (r ≡ at_member at.0 at.1))) }
{
    let Some(members) = members_of(object) else {
        return Ok(());
    };
    match member_fault(object, members, member_rules(kind).as_slice()) {
        Some((name, reason)) => Err(ReadErr::Refused(at_member(alloc, name, reason))),
        None => Ok(()),
    }
}

/// The fields and the tail of an object of a kind.
pub(crate) fn read_values<'a>(
    alloc: Global,
    object: &Value<'a>,
    kind: Kind,
) -> Result<(ArrayVec<u128, 12>, Octets), ReadErr<'a>>
    ensures { MatchResult result
        (λ parts. SaysFields (plain_fields_of kind) (value_view object.now) parts.0.items
        × SaysTail (tail_of kind) (value_view object.now) parts.1)
        (IsReadErr (RefusesValues kind (value_view object.now))) }
{
    let fields = match read_fields(object, llrp_schema::fields(kind)) {
        Ok(fields) => fields,
        Err((name, reason)) => return Err(ReadErr::Refused(at_member(alloc, name, reason))),
    };
    let form = llrp_schema::tail(kind);
    match read_tail(alloc, object, form)? {
        Some(tail) => Ok((fields, tail)),
        None => Err(ReadErr::Refused(at_member(alloc, tail_name(form), Reason::Value))),
    }
}

/// The version and the id of a message.
pub(crate) fn read_start<'a>(alloc: Global, object: &Value<'a>) -> Result<(u8, u32), ReadErr<'a>>
    ensures { MatchResult result
        (λ start. SaysNumber Version (codes "version") (value_view object.now) start.0
        × SaysNumber Id (codes "id") (value_view object.now) start.1)
        (IsReadErr (RefusesStart (value_view object.now))) }
{
    let Some(version) = read_version(object) else {
        return Err(ReadErr::Refused(at_member(alloc, "version", Reason::Value)));
    };
    let Some(id) = read_id(object) else {
        return Err(ReadErr::Refused(at_member(alloc, "id", Reason::Value)));
    };
    Ok((version, id))
}

/// The parameter of these parts, or the first test that they fail.
pub(crate) fn made_parameter<'a>(
    alloc: Global,
    kind: ParamKind,
    fields: &[u128],
    tail: Octets,
    children: Nodes,
) -> Result<Node, ReadErr<'a>>
    ensures { MatchResult result
        (λ node. (node ≡ record { kind = kind; fields = fields.now; tail = tail; children = forest children })
        × IsLawfulTree node)
        (IsReadErr (λ r. (fault : NodeFault)
        × (first_fault kind fields.now tail (forest children) ≡ Some fault)
        × (r ≡ whole (Reason.Node fault)))) }
{
    match Node::new(kind, fields, tail, children) {
        Ok(node) => Ok(node),
        Err(refusal) => Err(ReadErr::Refused(whole(alloc, Reason::Node(refusal.fault)))),
    }
}

/// The kind, the fields and the tail of the parameter that a value says.
pub(crate) fn parameter_parts<'a>(
    alloc: Global,
    set: KindSet,
    value: &Value<'a>,
) -> Result<(ParamKind, ArrayVec<u128, 12>, Octets), ReadErr<'a>>
    ensures { MatchResult result
        (λ parts. SaysParts set (Kind.Parameter parts.0) (value_view value.now) parts.1.items parts.2)
        (IsReadErr (RefusesOwnParts set (value_view value.now))) }
{
    let kind = match parameter_kind(alloc, set, value) {
        Ok(kind) => kind,
        Err(error) => return Err(error),
    };
    match check_members(alloc, value, Kind::Parameter(kind)) {
        Ok(()) => {}
        Err(error) => return Err(error),
    }
    match read_values(alloc, value, Kind::Parameter(kind)) {
        Ok((fields, tail)) => Ok((kind, fields, tail)),
        Err(error) => Err(error),
    }
}

/// The parameter that a value says, with this many levels of parameters from it on at most.
#[cycle(read)]
pub(crate) fn read_parameter<'a>(
    alloc: Global,
    set: KindSet,
    value: &Value<'a>,
    levels: u8,
) -> Result<Node, ReadErr<'a>>
    ensures { MatchResult result (SaysParameter set levels (value_view value.now))
        (IsReadErr (RefusesParameter set levels (value_view value.now))) }
{
    if levels == 0 {
        return Err(ReadErr::Refused(whole(alloc, Reason::Node(NodeFault::TooDeep))));
    }
    let (kind, fields, tail) = match parameter_parts(alloc, set, value) {
        Ok(parts) => parts,
        Err(error) => return Err(error),
    };
    let children = match read_below(alloc, set, value, levels - 1) {
        Ok(children) => children,
        Err(error) => return Err(error),
    };
    made_parameter(alloc, kind, fields.as_slice(), tail, children)
}

/// The parameters below an object, each with this many levels of parameters from it on at most.
#[cycle(read)]
pub(crate) fn read_below<'a>(
    alloc: Global,
    set: KindSet,
    object: &Value<'a>,
    levels: u8,
) -> Result<Nodes, ReadErr<'a>>
    ensures { MatchResult result
        (λ nodes. SaysEach (SaysParameter set levels) (below (value_view object.now)) nodes)
        (IsReadErr (RefusesEach (SaysParameter set levels) (RefusesParameter set levels) 0
        (below (value_view object.now)))) }
{
    match array_of(object, "parameters") {
        Some(values) => read_parameters(alloc, set, values, levels),
        None => Ok(Nodes::new(Vec::new(alloc))),
    }
}

/// The parameters that the values of an array say.
#[cycle(read)]
fn read_parameters<'a>(
    alloc: Global,
    set: KindSet,
    values: &[Value<'a>],
    levels: u8,
) -> Result<Nodes, ReadErr<'a>>
    ensures { MatchResult result
        (λ nodes. SaysEach (SaysParameter set levels) (items_view values.now) nodes)
        (IsReadErr (RefusesEach (SaysParameter set levels) (RefusesParameter set levels) 0
        (items_view values.now))) }
{
    let mut nodes = Vec::new(alloc);
    for value in values {
        match read_parameter(alloc, set, value, levels) {
            Ok(node) => nodes.push(node)?,
            Err(error) => return Err(at_place(nodes.len(), error)),
        }
    }
    Ok(Nodes::new(nodes))
}
