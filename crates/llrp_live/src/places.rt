//! Messages of a reader that say which field or parameter is refused.

ghost use Rattle.std.specs.Prelude.{◌≡◌, IfOk, IfSome};
ghost use Rattle.llrp_live.specs.Calls.Places as places;
ghost use Rattle.llrp_live.specs.Calls.Places.{SaysPlace, errors, field_errors};

use crate::fault_places::FaultPlace;
use crate::starts::is_parameter;
use llrp_schema::{Kind, KindSet, kind_set};
use llrp_tree::{Message, Node, Nodes, Octets, ParamKind, Reason};
use std::alloc::{AllocError, Global};

/// The ErrorCode of a field that is refused: A_OutOfRange, or A_Invalid.
fn field_code(reason: Reason) -> u16
    ensures { result ≡ places.field_code reason }
{
    match reason {
        Reason::Value => 301,
        _ => 300,
    }
}

/// The ErrorCode of the parameter that is refused or has the field that is: P_UnexpectedParameter,
/// P_MissingParameter, P_OverflowParameter, P_UnknownParameter, P_FieldError, or P_ParameterError.
fn parameter_code(reason: Reason) -> u16
    ensures { result ≡ places.parameter_code reason }
{
    match reason {
        Reason::Misplaced => 202,
        Reason::Missing => 203,
        Reason::TooMany => 205,
        Reason::ParamType => 207,
        Reason::Value | Reason::Count | Reason::Utf8 => 201,
        _ => 200,
    }
}

/// FieldError of a set of kinds.
fn field_error(set: KindSet) -> ParamKind
    ensures { result ≡ places.field_error set }
{
    match set {
        KindSet::Profile => ParamKind::FieldError,
        KindSet::Standard => ParamKind::WholeFieldError,
    }
}

/// ParameterError of a set of kinds.
fn parameter_error(set: KindSet) -> ParamKind
    ensures { result ≡ places.parameter_error set }
{
    match set {
        KindSet::Profile => ParamKind::ParameterError,
        KindSet::Standard => ParamKind::WholeParameterError,
    }
}

/// A parameter with these two fields and these children. Returns `None` if it would not be lawful.
fn pair(
    alloc: Global,
    kind: ParamKind,
    first: u16,
    second: u16,
    children: Vec<Node>,
) -> Result<Option<Node>, AllocError>
    ensures { IfOk result (λ node. IfSome node (λ n. n ≡ places.pair kind first second
        children.items)) }
{
    let fields = [first as u128, second as u128];
    let tail = Octets::new(Vec::new(alloc));
    match Node::new(kind, &fields, tail, Nodes::new(children)) {
        Ok(node) => Ok(Some(node)),
        Err(_) => Ok(None),
    }
}

/// The FieldError of a place, if a field is refused.
fn field_errors(
    alloc: Global,
    set: KindSet,
    field: Option<u16>,
    reason: Reason,
) -> Result<Option<Vec<Node>>, AllocError>
    ensures { IfOk result (λ nodes. IfSome nodes (λ ns. ns.items ≡ field_errors set field
        reason)) }
{
    let Some(number) = field else {
        return Ok(Some(Vec::new(alloc)));
    };
    let code = field_code(reason);
    match pair(alloc, field_error(set), number, code, Vec::new(alloc))? {
        Some(node) => Ok(Some(Vec::from_array(alloc, [node])?)),
        None => Ok(None),
    }
}

/// The ErrorCode of a parameter in which the place is: of the innermost by the reason, and
/// P_ParameterError of others.
fn code_at(reason: Reason, is_last: bool) -> u16
    ensures { result ≡ places.code_at reason is_last }
{
    if is_last { parameter_code(reason) } else { 200 }
}

/// What an LLRPStatus has for a place.
fn errors_of(
    alloc: Global,
    set: KindSet,
    types: &[u16],
    field: Option<u16>,
    reason: Reason,
) -> Result<Option<Vec<Node>>, AllocError>
    ensures { IfOk result (λ nodes. IfSome nodes (λ ns. ns.items ≡ errors set field reason
        types.now)) }
{
    let Some(mut nodes) = field_errors(alloc, set, field, reason)? else {
        return Ok(None);
    };
    let mut left = types.len();
    'levels: while left > 0 {
        let code = code_at(reason, left == types.len());
        left -= 1;
        let Some(node) = pair(alloc, parameter_error(set), types[left], code, nodes)? else {
            return Ok(None);
        };
        nodes = Vec::from_array(alloc, [node])?;
    }
    Ok(Some(nodes))
}

/// A message whose LLRPStatus, with which it begins, says where a request is refused, beside its status
/// and text. Returns `None` if it begins with none, or would be no message then. The only error is that
/// memory ran out.
pub fn with_place(
    alloc: Global,
    message: &Message,
    place: &FaultPlace,
) -> Result<Option<Message>, AllocError>
    ensures { IfOk result (λ said. IfSome said (SaysPlace message.now place.now)) }
{
    let [first, ..] = message.children().as_slice() else {
        return Ok(None);
    };
    if !is_parameter(first, ParamKind::LlrpStatus) {
        return Ok(None);
    }
    let set = kind_set(Kind::Parameter(first.kind()));
    let types = &place.types[..place.depth.min(place.types.len())];
    let Some(errors) = errors_of(alloc, set, types, place.field, place.reason)? else {
        return Ok(None);
    };
    let tail = Octets::new(first.tail().as_slice().to_vec(alloc)?);
    let Ok(status) = Node::new(first.kind(), first.fields(), tail, Nodes::new(errors)) else {
        return Ok(None);
    };
    let parts = Vec::from_array(alloc, [status])?;
    let (version, id, fields) = (message.version(), message.id(), message.fields());
    match Message::new(version, id, message.kind(), fields, Nodes::new(parts)) {
        Ok(said) => Ok(Some(said)),
        Err(_) => Ok(None),
    }
}
