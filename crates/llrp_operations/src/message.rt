//! What a client says as messages, and what it hears in them.

ghost use Rattle.std.specs.Prelude.{◌≡◌, ◌≤◌, IfOk, OnOk};
ghost use Rattle.llrp_tree.specs.Tree.{trees};
ghost use Rattle.llrp_operations.specs.Calls.Course.{course_of};
ghost use Rattle.llrp_operations.specs.Calls.Messages as messages;
ghost use Rattle.llrp_operations.specs.Calls.Results.{is_result as result_test};
ghost use Rattle.std.specs.List.{list_any};

use crate::course::{Course, Demand, Heard, Saying, Stage};
use crate::inventory::inventory_spec;
use crate::parameters::SpecErr;
use crate::request::{Request, access_spec};
use crate::results::{are_of, field_at, is_parameter, is_result};
use llrp_schema::{Kind, number};
use llrp_session::{field, first};
use llrp_tree::{Message, MsgKind, Node, Nodes, ParamKind};
use std::alloc::{AllocError, Global};

/// The most bits that an EPC has.
const MOST_BITS: u128 = 496;

/// The id of the message of a demand.
fn demand_id(demand: Demand) -> u32
    ensures { result ≡ messages.demand_id demand }
{
    match demand {
        Demand::ClearAccess => 1,
        Demand::ClearInventory => 2,
        Demand::AddInventory => 3,
        Demand::EnableInventory => 4,
        Demand::StartInventory => 5,
        Demand::AddAccess => 6,
        Demand::EnableAccess => 7,
        Demand::RemoveAccess => 8,
        Demand::RemoveInventory => 9,
        Demand::Close => 10,
    }
}

/// The kind of the message of a demand.
fn demand_kind(demand: Demand) -> MsgKind
    ensures { result ≡ messages.demand_kind demand }
{
    match demand {
        Demand::ClearAccess | Demand::RemoveAccess => MsgKind::WholeDeleteAccessSpec,
        Demand::ClearInventory | Demand::RemoveInventory => MsgKind::WholeDeleteRoSpec,
        Demand::AddInventory => MsgKind::WholeAddRoSpec,
        Demand::EnableInventory => MsgKind::WholeEnableRoSpec,
        Demand::StartInventory => MsgKind::WholeStartRoSpec,
        Demand::AddAccess => MsgKind::WholeAddAccessSpec,
        Demand::EnableAccess => MsgKind::WholeEnableAccessSpec,
        Demand::Close => MsgKind::WholeCloseConnection,
    }
}

/// The kind of the message that answers a demand.
fn answer_kind(demand: Demand) -> MsgKind
    ensures { result ≡ messages.answer_kind demand }
{
    match demand {
        Demand::ClearAccess | Demand::RemoveAccess => MsgKind::WholeDeleteAccessSpecResponse,
        Demand::ClearInventory | Demand::RemoveInventory => MsgKind::WholeDeleteRoSpecResponse,
        Demand::AddInventory => MsgKind::WholeAddRoSpecResponse,
        Demand::EnableInventory => MsgKind::WholeEnableRoSpecResponse,
        Demand::StartInventory => MsgKind::WholeStartRoSpecResponse,
        Demand::AddAccess => MsgKind::WholeAddAccessSpecResponse,
        Demand::EnableAccess => MsgKind::WholeEnableAccessSpecResponse,
        Demand::Close => MsgKind::WholeCloseConnectionResponse,
    }
}

/// A message of these parts.
fn message(kind: MsgKind, id: u32, fields: &[u128], children: Vec<Node>) -> Result<Message, SpecErr>
    ensures { IfOk result (λ m. m ≡ messages.message kind id fields.now children.items) }
{
    match Message::new(1, id, kind, fields, Nodes::new(children)) {
        Ok(message) => Ok(message),
        Err(refusal) => Err(SpecErr::Node(refusal.fault)),
    }
}

/// A message with a number alone.
fn numbered(alloc: Global, demand: Demand, id: u32) -> Result<Message, SpecErr>
    ensures { IfOk result (λ m. m ≡ messages.numbered demand id) }
{
    message(
        demand_kind(demand),
        demand_id(demand),
        &[id as u128],
        Vec::new(alloc),
    )
}

/// A message with a parameter alone.
fn adding(alloc: Global, demand: Demand, spec: Node) -> Result<Message, SpecErr>
    ensures { IfOk result (λ m. m ≡ messages.adding demand spec) }
{
    let children = Vec::from_array(alloc, [spec])?;
    message(demand_kind(demand), demand_id(demand), &[], children)
}

/// The message of a demand.
fn demand_message(alloc: Global, demand: Demand, request: Request<'_>) -> Result<Message, SpecErr>
    ensures { IfOk result (λ m. m
        ≡ messages.demand_message_to request.entry.epc.now demand request.entry) }
{
    match demand {
        Demand::ClearAccess | Demand::EnableAccess | Demand::RemoveAccess => {
            numbered(alloc, demand, request.id)
        }
        Demand::ClearInventory | Demand::RemoveInventory => {
            numbered(alloc, demand, request.rospec)
        }
        Demand::EnableInventory | Demand::StartInventory => {
            numbered(alloc, demand, request.rospec)
        }
        Demand::AddInventory => {
            let spec = inventory_spec(alloc, request.rospec, request.antenna)?;
            adding(alloc, demand, spec)
        }
        Demand::AddAccess => adding(alloc, demand, access_spec(alloc, request)?),
        Demand::Close => message(demand_kind(demand), demand_id(demand), &[], Vec::new(alloc)),
    }
}

/// The message of LLRP 1.0.1 that says something: of a request whose ROSpec is the inventory's, and whose EPC
/// is that of the tag that is meant now ([`Course::target`]). The errors are those of [`access_spec`].
pub fn message_of(alloc: Global, saying: Saying, request: Request<'_>) -> Result<Message, SpecErr>
    ensures { IfOk result (λ m. m ≡ messages.message_of saying request.entry) }
{
    match saying {
        Saying::Asks(demand) => demand_message(alloc, demand, request),
        Saying::Acknowledges(id) => {
            message(MsgKind::WholeKeepaliveAck, id, &[], Vec::new(alloc))
        }
    }
}

/// Whether a message is of a kind.
fn is_message(kind: MsgKind, message: &Message) -> bool
    ensures { result ≡ messages.is_message kind message.now }
{
    number(Kind::Message(message.kind())) == number(Kind::Message(kind))
}

/// The status that the first parameter of a kind says; 0 if there is none.
fn status_in(kind: ParamKind, nodes: &Nodes) -> u16
    ensures { result ≡ messages.status_in kind nodes.now }
{
    field(kind, first(kind, nodes), 0).min(65_535) as u16
}

/// The status with which a message answers a demand, if it does: it has the demand's id, and is its response
/// or an ERROR_MESSAGE.
fn answer_in(stage: Stage, message: &Message) -> Option<u16>
    ensures { result ≡ messages.answer_in stage message.now }
{
    let Stage::Asking(demand) = stage else {
        return None;
    };
    let is_own = message.id() == demand_id(demand);
    let answers = is_message(answer_kind(demand), message)
        || is_message(MsgKind::WholeErrorMessage, message);
    if is_own && answers {
        Some(status_in(ParamKind::WholeLlrpStatus, message.children()))
    } else {
        None
    }
}

/// The status of a ConnectionAttemptEvent, if a message has ReaderEventNotificationData; 0 if that has none.
fn attempt_in(message: &Message) -> Option<u16>
    ensures { result ≡ messages.attempt_in message.now }
{
    let data = first(
        ParamKind::WholeReaderEventNotificationData,
        message.children(),
    )?;
    let attempt = first(ParamKind::WholeConnectionAttemptEvent, data.children())?;
    let kind = ParamKind::WholeConnectionAttemptEvent;
    Some(field(kind, Some(attempt), 0).min(65_535) as u16)
}

/// The octets by which an EPC of this many bits names its tag.
fn named(alloc: Global, bits: u128, octets: &[u8]) -> Result<Vec<u8>, AllocError>
    ensures { IfOk result (λ epc. epc.items ≡ messages.named bits octets.now) }
{
    if bits % 16 == 0 && bits <= MOST_BITS {
        octets.to_vec(alloc)
    } else {
        Ok(Vec::new(alloc))
    }
}

/// The octets of a tag's EPC; none if its report has none by which the tag can be named: none of whole words,
/// or one of more than 31.
pub fn epc_of(alloc: Global, tag: &Node) -> Result<Vec<u8>, AllocError>
    ensures { IfOk result (λ epc. epc.items ≡ messages.epc_in (trees tag.now.children)) }
{
    for node in tag.children().as_slice() {
        if is_parameter(ParamKind::WholeEpc96, node) {
            let octets = field_at(node, 0).to_be_bytes();
            return octets[4..].to_vec(alloc);
        }
        if is_parameter(ParamKind::WholeEpcData, node) {
            return named(alloc, field_at(node, 0), node.tail().as_slice());
        }
    }
    Ok(Vec::new(alloc))
}

/// Whether one of these parameters is the result of an operation.
fn has_result(nodes: &[Node]) -> bool
    ensures { result ≡ list_any result_test nodes.now }
{
    nodes.iter().any(|node| is_result(node))
}

/// Whether a parameter is TagReportData with results of the AccessSpec with this id.
pub fn has_results(id: u32, node: &Node) -> bool
    ensures { result ≡ messages.has_results id node.now }
{
    let said = node.children().as_slice();
    let is_report = is_parameter(ParamKind::WholeTagReportData, node);
    let has_one = has_result(said);
    let is_own = are_of(id, said);
    is_report && has_one && is_own
}

/// Hears one parameter of a report.
fn hear_tag(
    alloc: Global,
    course: &mut Course<'_>,
    id: u32,
    node: &Node,
    out: &mut Vec<Saying>,
) -> Result<(), AllocError>
    ensures { OnOk result (course_of course.new out.new.items
        ≡ messages.hear_tag id node.now (course_of course.old out.old.items)) }
{
    if has_results(id, node) {
        return course.hear(Heard::Results, out);
    }
    if is_parameter(ParamKind::WholeTagReportData, node) {
        let epc = epc_of(alloc, node)?;
        return course.hear(Heard::Sees(epc.as_slice()), out);
    }
    Ok(())
}

/// Hears the parameters of a report, one after another.
fn hear_tags(
    alloc: Global,
    course: &mut Course<'_>,
    id: u32,
    nodes: &[Node],
    out: &mut Vec<Saying>,
) -> Result<(), AllocError>
    ensures { OnOk result (course_of course.new out.new.items
        ≡ messages.hear_tags id nodes.now (course_of course.old out.old.items)) }
{
    for node in nodes {
        hear_tag(alloc, course, id, node, out)?;
    }
    Ok(())
}

/// Hears an answer, if one came.
fn hear_answer(
    course: &mut Course<'_>,
    status: Option<u16>,
    out: &mut Vec<Saying>,
) -> Result<(), AllocError>
    ensures { OnOk result (course_of course.new out.new.items
        ≡ messages.hear_answer status (course_of course.old out.old.items)) }
{
    match status {
        Some(status) => course.hear(Heard::Answers(status), out),
        None => Ok(()),
    }
}

/// Hears whether the reader accepts the client, if that came.
fn hear_attempt(
    course: &mut Course<'_>,
    status: Option<u16>,
    out: &mut Vec<Saying>,
) -> Result<(), AllocError>
    ensures { OnOk result (course_of course.new out.new.items
        ≡ messages.hear_attempt status (course_of course.old out.old.items)) }
{
    match status {
        Some(status) => course.hear(Heard::Accepts(status), out),
        None => Ok(()),
    }
}

/// Gives a client a message of its reader, and appends what is said then. The id is that of the AccessSpec.
/// The error is that of [`Course::hear`].
pub fn hear_message(
    alloc: Global,
    course: &mut Course<'_>,
    id: u32,
    message: &Message,
    out: &mut Vec<Saying>,
) -> Result<(), AllocError>
    ensures { OnOk result (course_of course.new out.new.items
        ≡ messages.hear_message id message.now (course_of course.old out.old.items)) }
{
    message.lawful();
    if is_message(MsgKind::WholeKeepalive, message) {
        return course.hear(Heard::Keepalive(message.id()), out);
    }
    if is_message(MsgKind::WholeRoAccessReport, message) {
        return hear_tags(alloc, course, id, message.children().as_slice(), out);
    }
    if is_message(MsgKind::WholeReaderEventNotification, message) {
        return hear_attempt(course, attempt_in(message), out);
    }
    let answer = answer_in(course.stage(), message);
    hear_answer(course, answer, out)
}
