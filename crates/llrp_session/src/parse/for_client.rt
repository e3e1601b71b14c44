//! What a client reads in a message.

ghost use Rattle.std.specs.Prelude.{◌≡◌, find as find_first};
ghost use Rattle.llrp_session.specs.RoSpec.{is_kind, field_of as the_field};
ghost use Rattle.llrp_session.specs.Reading as reading;
ghost use Rattle.llrp_session.specs.Private.ReadWords.{heard_by, notification_by, change_by};
ghost use Rattle.llrp_session.specs.Calls.ReadWords.{behind, IsOfKind};

use super::find::{field, first, first_below};
use super::parsed::{Heard, Notification, RoSpecChange};
use crate::types::Operation;
use llrp_tree::{Message, MsgKind, Node, Nodes, ParamKind};

/// The status in a response or in ERROR_MESSAGE.
#[tactic(auto, unfolding(llrp_schema::specs::Schema::fields_of, llrp_schema::specs::Schema::rule_of, llrp_schema::specs::Schema::param_rule))]
fn status(nodes: &Nodes) -> u16
    ensures { result ≡ the_field 0 (find_first (is_kind ParamKind.LlrpStatus) nodes.now) }
{
    let kind = ParamKind::LlrpStatus;
    field(kind, first(kind, nodes), 0) as u16
}

/// The status of a ConnectionAttemptEvent.
#[tactic(auto, unfolding(llrp_schema::specs::Schema::fields_of, llrp_schema::specs::Schema::rule_of, llrp_schema::specs::Schema::param_rule))]
fn attempt(event: Option<&Node>) -> Option<u16>
    requires { IsOfKind ParamKind.ConnectionAttemptEvent (behind event) }
    ensures { result ≡ reading.attempt_where (behind event.entry) }
{
    let event = event?;
    Some(field(ParamKind::ConnectionAttemptEvent, Some(event), 0) as u16)
}

/// What a ROSpecEvent says.
#[tactic(auto, unfolding(llrp_schema::specs::Schema::fields_of, llrp_schema::specs::Schema::rule_of, llrp_schema::specs::Schema::param_rule))]
fn change(event: Option<&Node>) -> Option<RoSpecChange>
    requires { IsOfKind ParamKind.RoSpecEvent (behind event) }
    ensures { change_by result ≡ reading.change_where (behind event.entry) }
{
    let kind = ParamKind::RoSpecEvent;
    let event = event?;
    Some(RoSpecChange {
        event: field(kind, Some(event), 0) as u8,
        id: field(kind, Some(event), 1) as u32,
    })
}

/// What READER_EVENT_NOTIFICATION says.
fn notification(nodes: &Nodes) -> Notification
    ensures { notification_by result ≡ reading.notification_where
        (find_first (is_kind ParamKind.ReaderEventNotificationData) nodes.now) }
{
    let told = first(ParamKind::ReaderEventNotificationData, nodes);
    Notification {
        attempt: attempt(first_below(ParamKind::ConnectionAttemptEvent, told)),
        closes: first_below(ParamKind::ConnectionCloseEvent, told).is_some(),
        rospec: change(first_below(ParamKind::RoSpecEvent, told)),
    }
}

/// What a client reads in a message.
#[tactic(auto, unfolding(crate::specs::Reading::heard_of))]
pub(crate) fn heard_of(message: &Message) -> Heard
    ensures { reading.heard_of message.now ≡ heard_by message.now result }
{
    let nodes = message.children();
    match message.kind() {
        MsgKind::AddRoSpecResponse => Heard::Response(Operation::Adding, status(nodes)),
        MsgKind::DeleteRoSpecResponse => Heard::Response(Operation::Deleting, status(nodes)),
        MsgKind::StartRoSpecResponse => Heard::Response(Operation::Starting, status(nodes)),
        MsgKind::StopRoSpecResponse => Heard::Response(Operation::Stopping, status(nodes)),
        MsgKind::EnableRoSpecResponse => Heard::Response(Operation::Enabling, status(nodes)),
        MsgKind::DisableRoSpecResponse => Heard::Response(Operation::Disabling, status(nodes)),
        MsgKind::GetRoSpecsResponse => Heard::Response(Operation::Listing, status(nodes)),
        MsgKind::SetReaderConfigResponse => Heard::Response(Operation::Configuring, status(nodes)),
        MsgKind::CloseConnectionResponse => Heard::Response(Operation::Closing, status(nodes)),
        MsgKind::ErrorMessage => Heard::Error(status(nodes)),
        MsgKind::RoAccessReport => Heard::Report,
        MsgKind::Keepalive => Heard::Keepalive,
        MsgKind::ReaderEventNotification => Heard::Notified(notification(nodes)),
        _ => Heard::Other,
    }
}
