//! The messages of a reader. Each has the version and the id that are given; the only error is
//! `Memory`.

ghost use Rattle.std.specs.Prelude.{◌≡◌, ◌≤◌, ◌⊎◌, IfOk, OnOk, length, [], ◌∷◌, ◌++◌};
ghost use Rattle.llrp_tree.specs.declared.TheConstants.{MAX_LIMIT};
ghost use Rattle.llrp_tree.specs.Lawful.{IsLawfulMessage};
ghost use Rattle.llrp_tree.specs.Tree.{forest};
ghost use Rattle.llrp_session.specs.ReaderMachine.{most_held};
ghost use Rattle.llrp_session.specs.Table.{listing};
ghost use Rattle.llrp_session.specs.Contents.{Response, Listed, Error, Report, KeepaliveSent, Accepted, Started, Ended, Overflowed};
ghost use Rattle.llrp_session.specs.ReaderMessages.{response_kind as the_response_kind, notification_data, reader_message};
ghost use Rattle.llrp_session.specs.Calls.LawfulWords.{AreReports, AreToldOf, FitsLimit};
ghost use Rattle.llrp_session.specs.Calls.SideEvents.{notification as side_notification};

use super::{leaf, message, only, pair, parameter};
use crate::reader::side_events::SideEvent;
use crate::reader::table::Entry;
use crate::types::Operation;
use llrp_tree::{Message, MsgKind, Node, ParamKind};
use std::alloc::{AllocError, Global};

/// The kind of the response to an operation.
fn response_kind(operation: Operation) -> MsgKind
    ensures { result ≡ the_response_kind operation }
{
    match operation {
        Operation::Adding => MsgKind::AddRoSpecResponse,
        Operation::Deleting => MsgKind::DeleteRoSpecResponse,
        Operation::Starting => MsgKind::StartRoSpecResponse,
        Operation::Stopping => MsgKind::StopRoSpecResponse,
        Operation::Enabling => MsgKind::EnableRoSpecResponse,
        Operation::Disabling => MsgKind::DisableRoSpecResponse,
        Operation::Configuring => MsgKind::SetReaderConfigResponse,
        Operation::Closing => MsgKind::CloseConnectionResponse,
        Operation::Listing => MsgKind::GetRoSpecsResponse,
    }
}

/// The response to an operation, with a status.
pub(crate) fn response(
    alloc: Global,
    version: u8,
    id: u32,
    operation: Operation,
    status: u16,
) -> Result<Message, AllocError>
    requires { (version ≡ 1) ⊎ (version ≡ 2) }
    ensures { IfOk result (λ m. m ≡ reader_message (record
        { version = version; id = id; word = Response operation status })) }
{
    let status = leaf(alloc, ParamKind::LlrpStatus, &[status as u128]);
    let children = only(alloc, status)?;
    Ok(message(version, id, response_kind(operation), &[], children))
}

/// GET_ROSPECS_RESPONSE with status 0 and the ROSpecs of a table.
pub(crate) fn table(
    alloc: Global,
    version: u8,
    id: u32,
    entries: &[Entry],
) -> Result<Message, AllocError>
    requires version { (version ≡ 1) ⊎ (version ≡ 2) }
    requires fits { FitsLimit MAX_LIMIT entries.now }
    ensures { IfOk result (λ m. m ≡ reader_message (record
        { version = version; id = id; word = Listed entries.now })) }
{
    let status = leaf(alloc, ParamKind::LlrpStatus, &[0]);
    let mut children = only(alloc, status)?;
    append_rospecs(alloc, entries, &mut children)?;
    Ok(message(version, id, MsgKind::GetRoSpecsResponse, &[], children))
}

/// Appends the ROSpecs of a table, each as it was added but with its present state.
fn append_rospecs(alloc: Global, entries: &[Entry], nodes: &mut Vec<Node>) -> Result<(), AllocError>
    ensures rospecs { OnOk result (nodes.new.items ≡ nodes.old.items ++ listing entries.now) }
    ensures told { OnOk result (AreToldOf entries.now) }
{
    nodes.reserve(entries.len())?;
    for entry in entries {
        entry.spec.told();
        nodes.push(entry.spec.listed(alloc, entry.state)?)?;
    }
    Ok(())
}

/// ERROR_MESSAGE, with a status.
pub(crate) fn error(alloc: Global, version: u8, id: u32, status: u16) -> Result<Message, AllocError>
    requires { (version ≡ 1) ⊎ (version ≡ 2) }
    ensures { IfOk result (λ m. m ≡ reader_message (record
        { version = version; id = id; word = Error status })) }
{
    let status = leaf(alloc, ParamKind::LlrpStatus, &[status as u128]);
    let children = only(alloc, status)?;
    Ok(message(version, id, MsgKind::ErrorMessage, &[], children))
}

/// RO_ACCESS_REPORT with these TagReportData. It takes no memory.
pub(crate) fn report(version: u8, id: u32, tags: Vec<Node>) -> Message
    requires version { (version ≡ 1) ⊎ (version ≡ 2) }
    requires reports { AreReports tags.items }
    requires few { length tags.items ≤ most_held }
    ensures { result ≡ reader_message (record {
      version = version;
      id = id;
      word = Report
          tags.items;
    }) }
{
    message(version, id, MsgKind::RoAccessReport, &[], tags)
}

/// KEEPALIVE. It takes no memory.
pub(crate) fn keepalive(alloc: Global, version: u8, id: u32) -> Message
    requires { (version ≡ 1) ⊎ (version ≡ 2) }
    ensures { result ≡ reader_message (record {
      version = version;
      id = id;
      word = KeepaliveSent;
    }) }
{
    message(version, id, MsgKind::Keepalive, &[], Vec::new(alloc))
}

/// READER_EVENT_NOTIFICATION of an event at a moment.
fn notification(
    alloc: Global,
    version: u8,
    id: u32,
    now: u64,
    event: Node,
) -> Result<Message, AllocError>
    requires { IsLawfulMessage (record {
      version = version;
      id = id;
      kind = MsgKind.ReaderEventNotification;
      fields = [];
      tail = [];
      children = forest
          (notification_data now event ∷ []);
    }) }
    ensures { IfOk result (λ m. m ≡ record {
      version = version;
      id = id;
      kind = MsgKind.ReaderEventNotification;
      fields = [];
      tail = [];
      children = forest
          (notification_data now event ∷ []);
    }) }
{
    let moment = leaf(alloc, ParamKind::UtcTimestamp, &[now as u128]);
    let told = pair(alloc, moment, event)?;
    let told = parameter(alloc, ParamKind::ReaderEventNotificationData, &[], told);
    let children = only(alloc, told)?;
    Ok(message(version, id, MsgKind::ReaderEventNotification, &[], children))
}

/// The event that the connection was accepted.
pub(crate) fn accepted(alloc: Global, version: u8, id: u32, now: u64) -> Result<Message, AllocError>
    requires { (version ≡ 1) ⊎ (version ≡ 2) }
    ensures { IfOk result (λ m. m ≡ reader_message (record
        { version = version; id = id; word = Accepted now })) }
{
    let event = leaf(alloc, ParamKind::ConnectionAttemptEvent, &[0]);
    notification(alloc, version, id, now, event)
}

/// The event that a ROSpec started.
pub(crate) fn started(
    alloc: Global,
    version: u8,
    id: u32,
    now: u64,
    rospec: u32,
) -> Result<Message, AllocError>
    requires { (version ≡ 1) ⊎ (version ≡ 2) }
    ensures { IfOk result (λ m. m ≡ reader_message (record
        { version = version; id = id; word = Started now rospec })) }
{
    let event = leaf(alloc, ParamKind::RoSpecEvent, &[0, rospec as u128, 0]);
    notification(alloc, version, id, now, event)
}

/// The event that a ROSpec ended.
pub(crate) fn ended(
    alloc: Global,
    version: u8,
    id: u32,
    now: u64,
    rospec: u32,
) -> Result<Message, AllocError>
    requires { (version ≡ 1) ⊎ (version ≡ 2) }
    ensures { IfOk result (λ m. m ≡ reader_message (record
        { version = version; id = id; word = Ended now rospec })) }
{
    let event = leaf(alloc, ParamKind::RoSpecEvent, &[1, rospec as u128, 0]);
    notification(alloc, version, id, now, event)
}

/// The event that a sighting was dropped because there was no room for it.
pub(crate) fn overflowed(
    alloc: Global,
    version: u8,
    id: u32,
    now: u64,
) -> Result<Message, AllocError>
    requires { (version ≡ 1) ⊎ (version ≡ 2) }
    ensures { IfOk result (λ m. m ≡ reader_message (record
        { version = version; id = id; word = Overflowed now })) }
{
    let event = leaf(alloc, ParamKind::ReportBufferOverflowErrorEvent, &[]);
    notification(alloc, version, id, now, event)
}

/// The event of an antenna, an input or another client.
pub(crate) fn side_event(
    alloc: Global,
    version: u8,
    id: u32,
    now: u64,
    event: SideEvent,
) -> Result<Message, AllocError>
    requires { (version ≡ 1) ⊎ (version ≡ 2) }
    ensures { IfOk result (λ m. m ≡ side_notification version id now event) }
{
    match event {
        SideEvent::AntennaOff { number } => {
            let event = leaf(alloc, ParamKind::AntennaEvent, &[0, number as u128]);
            notification(alloc, version, id, now, event)
        }
        SideEvent::AntennaOn { number } => {
            let event = leaf(alloc, ParamKind::AntennaEvent, &[1, number as u128]);
            notification(alloc, version, id, now, event)
        }
        SideEvent::InputLow { port } => {
            let event = leaf(alloc, ParamKind::GpiEvent, &[port as u128, 0]);
            notification(alloc, version, id, now, event)
        }
        SideEvent::InputHigh { port } => {
            let event = leaf(alloc, ParamKind::GpiEvent, &[port as u128, 1]);
            notification(alloc, version, id, now, event)
        }
        SideEvent::OtherClient => {
            let event = leaf(alloc, ParamKind::ConnectionAttemptEvent, &[4]);
            notification(alloc, version, id, now, event)
        }
    }
}
