//! The rows of the messages (LLRP 1.1, section 17.1).

ghost use Rattle.std.specs.Prelude.{◌≡◌};
ghost use Rattle.llrp_schema.specs.Private.Schema.{kind_rule};
ghost use Rattle.llrp_schema.specs.Schema.{message_rule};

use crate::kinds::{Definition, Field, Group, KindSet, MsgKind, ParamKind, Tail};
use crate::row_macros::{any_number, at_most_one, field, one, reserved};
use crate::whole;

static SET_READER_CONFIG: Definition = Definition {
    set: KindSet::Profile,
    number: 3,
    name: "SET_READER_CONFIG",
    fields: &[field!("ResetToFactoryDefault", 1), reserved!(7)],
    tail: Tail::Absent,
    groups: &[
        at_most_one!(KeepaliveSpec),
        at_most_one!(EventsAndReports),
        at_most_one!(RoReportSpec),
        at_most_one!(ReaderEventNotificationSpec),
        any_number!(AntennaConfiguration),
    ],
};

static CLOSE_CONNECTION_RESPONSE: Definition = Definition {
    set: KindSet::Profile,
    number: 4,
    name: "CLOSE_CONNECTION_RESPONSE",
    fields: &[],
    tail: Tail::Absent,
    groups: &[one!(LlrpStatus)],
};

static SET_READER_CONFIG_RESPONSE: Definition = Definition {
    set: KindSet::Profile,
    number: 13,
    name: "SET_READER_CONFIG_RESPONSE",
    fields: &[],
    tail: Tail::Absent,
    groups: &[one!(LlrpStatus)],
};

static CLOSE_CONNECTION: Definition = Definition {
    set: KindSet::Profile,
    number: 14,
    name: "CLOSE_CONNECTION",
    fields: &[],
    tail: Tail::Absent,
    groups: &[],
};

static ADD_RO_SPEC: Definition = Definition {
    set: KindSet::Profile,
    number: 20,
    name: "ADD_ROSPEC",
    fields: &[],
    tail: Tail::Absent,
    groups: &[one!(RoSpec)],
};

static DELETE_RO_SPEC: Definition = Definition {
    set: KindSet::Profile,
    number: 21,
    name: "DELETE_ROSPEC",
    fields: &[field!("ROSpecID", 32)],
    tail: Tail::Absent,
    groups: &[],
};

static START_RO_SPEC: Definition = Definition {
    set: KindSet::Profile,
    number: 22,
    name: "START_ROSPEC",
    fields: &[field!("ROSpecID", 32)],
    tail: Tail::Absent,
    groups: &[],
};

static STOP_RO_SPEC: Definition = Definition {
    set: KindSet::Profile,
    number: 23,
    name: "STOP_ROSPEC",
    fields: &[field!("ROSpecID", 32)],
    tail: Tail::Absent,
    groups: &[],
};

static ENABLE_RO_SPEC: Definition = Definition {
    set: KindSet::Profile,
    number: 24,
    name: "ENABLE_ROSPEC",
    fields: &[field!("ROSpecID", 32)],
    tail: Tail::Absent,
    groups: &[],
};

static DISABLE_RO_SPEC: Definition = Definition {
    set: KindSet::Profile,
    number: 25,
    name: "DISABLE_ROSPEC",
    fields: &[field!("ROSpecID", 32)],
    tail: Tail::Absent,
    groups: &[],
};

static GET_RO_SPECS: Definition = Definition {
    set: KindSet::Profile,
    number: 26,
    name: "GET_ROSPECS",
    fields: &[],
    tail: Tail::Absent,
    groups: &[],
};

static ADD_RO_SPEC_RESPONSE: Definition = Definition {
    set: KindSet::Profile,
    number: 30,
    name: "ADD_ROSPEC_RESPONSE",
    fields: &[],
    tail: Tail::Absent,
    groups: &[one!(LlrpStatus)],
};

static DELETE_RO_SPEC_RESPONSE: Definition = Definition {
    set: KindSet::Profile,
    number: 31,
    name: "DELETE_ROSPEC_RESPONSE",
    fields: &[],
    tail: Tail::Absent,
    groups: &[one!(LlrpStatus)],
};

static START_RO_SPEC_RESPONSE: Definition = Definition {
    set: KindSet::Profile,
    number: 32,
    name: "START_ROSPEC_RESPONSE",
    fields: &[],
    tail: Tail::Absent,
    groups: &[one!(LlrpStatus)],
};

static STOP_RO_SPEC_RESPONSE: Definition = Definition {
    set: KindSet::Profile,
    number: 33,
    name: "STOP_ROSPEC_RESPONSE",
    fields: &[],
    tail: Tail::Absent,
    groups: &[one!(LlrpStatus)],
};

static ENABLE_RO_SPEC_RESPONSE: Definition = Definition {
    set: KindSet::Profile,
    number: 34,
    name: "ENABLE_ROSPEC_RESPONSE",
    fields: &[],
    tail: Tail::Absent,
    groups: &[one!(LlrpStatus)],
};

static DISABLE_RO_SPEC_RESPONSE: Definition = Definition {
    set: KindSet::Profile,
    number: 35,
    name: "DISABLE_ROSPEC_RESPONSE",
    fields: &[],
    tail: Tail::Absent,
    groups: &[one!(LlrpStatus)],
};

static GET_RO_SPECS_RESPONSE: Definition = Definition {
    set: KindSet::Profile,
    number: 36,
    name: "GET_ROSPECS_RESPONSE",
    fields: &[],
    tail: Tail::Absent,
    groups: &[one!(LlrpStatus), any_number!(RoSpec)],
};

static GET_REPORT: Definition = Definition {
    set: KindSet::Profile,
    number: 60,
    name: "GET_REPORT",
    fields: &[],
    tail: Tail::Absent,
    groups: &[],
};

static RO_ACCESS_REPORT: Definition = Definition {
    set: KindSet::Profile,
    number: 61,
    name: "RO_ACCESS_REPORT",
    fields: &[],
    tail: Tail::Absent,
    groups: &[any_number!(TagReportData)],
};

static KEEPALIVE: Definition = Definition {
    set: KindSet::Profile,
    number: 62,
    name: "KEEPALIVE",
    fields: &[],
    tail: Tail::Absent,
    groups: &[],
};

static READER_EVENT_NOTIFICATION: Definition = Definition {
    set: KindSet::Profile,
    number: 63,
    name: "READER_EVENT_NOTIFICATION",
    fields: &[],
    tail: Tail::Absent,
    groups: &[one!(ReaderEventNotificationData)],
};

static ENABLE_EVENTS_AND_REPORTS: Definition = Definition {
    set: KindSet::Profile,
    number: 64,
    name: "ENABLE_EVENTS_AND_REPORTS",
    fields: &[],
    tail: Tail::Absent,
    groups: &[],
};

static KEEPALIVE_ACK: Definition = Definition {
    set: KindSet::Profile,
    number: 72,
    name: "KEEPALIVE_ACK",
    fields: &[],
    tail: Tail::Absent,
    groups: &[],
};

static ERROR_MESSAGE: Definition = Definition {
    set: KindSet::Profile,
    number: 100,
    name: "ERROR_MESSAGE",
    fields: &[],
    tail: Tail::Absent,
    groups: &[one!(LlrpStatus)],
};

/// The row of a message.
#[tactic(auto, unfolding(crate::specs::Schema::message_rule))]
pub fn message(kind: MsgKind) -> &'static Definition
    ensures { kind_rule result.now ≡ message_rule kind }
{
    match kind {
        MsgKind::SetReaderConfig => &SET_READER_CONFIG,
        MsgKind::CloseConnectionResponse => &CLOSE_CONNECTION_RESPONSE,
        MsgKind::SetReaderConfigResponse => &SET_READER_CONFIG_RESPONSE,
        MsgKind::CloseConnection => &CLOSE_CONNECTION,
        MsgKind::AddRoSpec => &ADD_RO_SPEC,
        MsgKind::DeleteRoSpec => &DELETE_RO_SPEC,
        MsgKind::StartRoSpec => &START_RO_SPEC,
        MsgKind::StopRoSpec => &STOP_RO_SPEC,
        MsgKind::EnableRoSpec => &ENABLE_RO_SPEC,
        MsgKind::DisableRoSpec => &DISABLE_RO_SPEC,
        MsgKind::GetRoSpecs => &GET_RO_SPECS,
        MsgKind::AddRoSpecResponse => &ADD_RO_SPEC_RESPONSE,
        MsgKind::DeleteRoSpecResponse => &DELETE_RO_SPEC_RESPONSE,
        MsgKind::StartRoSpecResponse => &START_RO_SPEC_RESPONSE,
        MsgKind::StopRoSpecResponse => &STOP_RO_SPEC_RESPONSE,
        MsgKind::EnableRoSpecResponse => &ENABLE_RO_SPEC_RESPONSE,
        MsgKind::DisableRoSpecResponse => &DISABLE_RO_SPEC_RESPONSE,
        MsgKind::GetRoSpecsResponse => &GET_RO_SPECS_RESPONSE,
        MsgKind::GetReport => &GET_REPORT,
        MsgKind::RoAccessReport => &RO_ACCESS_REPORT,
        MsgKind::Keepalive => &KEEPALIVE,
        MsgKind::ReaderEventNotification => &READER_EVENT_NOTIFICATION,
        MsgKind::EnableEventsAndReports => &ENABLE_EVENTS_AND_REPORTS,
        MsgKind::KeepaliveAck => &KEEPALIVE_ACK,
        MsgKind::ErrorMessage => &ERROR_MESSAGE,
        MsgKind::WholeGetReaderCapabilities => &whole::messages::GET_READER_CAPABILITIES,
        MsgKind::WholeGetReaderConfig => &whole::messages::GET_READER_CONFIG,
        MsgKind::WholeSetReaderConfig => &whole::messages::SET_READER_CONFIG,
        MsgKind::WholeCloseConnectionResponse => &whole::messages::CLOSE_CONNECTION_RESPONSE,
        MsgKind::WholeGetReaderCapabilitiesResponse =>
            &whole::messages::GET_READER_CAPABILITIES_RESPONSE,
        MsgKind::WholeGetReaderConfigResponse => &whole::messages::GET_READER_CONFIG_RESPONSE,
        MsgKind::WholeSetReaderConfigResponse => &whole::messages::SET_READER_CONFIG_RESPONSE,
        MsgKind::WholeCloseConnection => &whole::messages::CLOSE_CONNECTION,
        MsgKind::WholeAddRoSpec => &whole::messages::ADD_RO_SPEC,
        MsgKind::WholeDeleteRoSpec => &whole::messages::DELETE_RO_SPEC,
        MsgKind::WholeStartRoSpec => &whole::messages::START_RO_SPEC,
        MsgKind::WholeStopRoSpec => &whole::messages::STOP_RO_SPEC,
        MsgKind::WholeEnableRoSpec => &whole::messages::ENABLE_RO_SPEC,
        MsgKind::WholeDisableRoSpec => &whole::messages::DISABLE_RO_SPEC,
        MsgKind::WholeGetRoSpecs => &whole::messages::GET_RO_SPECS,
        MsgKind::WholeAddRoSpecResponse => &whole::messages::ADD_RO_SPEC_RESPONSE,
        MsgKind::WholeDeleteRoSpecResponse => &whole::messages::DELETE_RO_SPEC_RESPONSE,
        MsgKind::WholeStartRoSpecResponse => &whole::messages::START_RO_SPEC_RESPONSE,
        MsgKind::WholeStopRoSpecResponse => &whole::messages::STOP_RO_SPEC_RESPONSE,
        MsgKind::WholeEnableRoSpecResponse => &whole::messages::ENABLE_RO_SPEC_RESPONSE,
        MsgKind::WholeDisableRoSpecResponse => &whole::messages::DISABLE_RO_SPEC_RESPONSE,
        MsgKind::WholeGetRoSpecsResponse => &whole::messages::GET_RO_SPECS_RESPONSE,
        MsgKind::WholeAddAccessSpec => &whole::messages::ADD_ACCESS_SPEC,
        MsgKind::WholeDeleteAccessSpec => &whole::messages::DELETE_ACCESS_SPEC,
        MsgKind::WholeEnableAccessSpec => &whole::messages::ENABLE_ACCESS_SPEC,
        MsgKind::WholeDisableAccessSpec => &whole::messages::DISABLE_ACCESS_SPEC,
        MsgKind::WholeGetAccessSpecs => &whole::messages::GET_ACCESS_SPECS,
        MsgKind::WholeClientRequestOp => &whole::messages::CLIENT_REQUEST_OP,
        MsgKind::WholeGetSupportedVersion => &whole::messages::GET_SUPPORTED_VERSION,
        MsgKind::WholeSetProtocolVersion => &whole::messages::SET_PROTOCOL_VERSION,
        MsgKind::WholeAddAccessSpecResponse => &whole::messages::ADD_ACCESS_SPEC_RESPONSE,
        MsgKind::WholeDeleteAccessSpecResponse => &whole::messages::DELETE_ACCESS_SPEC_RESPONSE,
        MsgKind::WholeEnableAccessSpecResponse => &whole::messages::ENABLE_ACCESS_SPEC_RESPONSE,
        MsgKind::WholeDisableAccessSpecResponse => &whole::messages::DISABLE_ACCESS_SPEC_RESPONSE,
        MsgKind::WholeGetAccessSpecsResponse => &whole::messages::GET_ACCESS_SPECS_RESPONSE,
        MsgKind::WholeClientRequestOpResponse => &whole::messages::CLIENT_REQUEST_OP_RESPONSE,
        MsgKind::WholeGetSupportedVersionResponse =>
            &whole::messages::GET_SUPPORTED_VERSION_RESPONSE,
        MsgKind::WholeSetProtocolVersionResponse => &whole::messages::SET_PROTOCOL_VERSION_RESPONSE,
        MsgKind::WholeGetReport => &whole::messages::GET_REPORT,
        MsgKind::WholeRoAccessReport => &whole::messages::RO_ACCESS_REPORT,
        MsgKind::WholeKeepalive => &whole::messages::KEEPALIVE,
        MsgKind::WholeReaderEventNotification => &whole::messages::READER_EVENT_NOTIFICATION,
        MsgKind::WholeEnableEventsAndReports => &whole::messages::ENABLE_EVENTS_AND_REPORTS,
        MsgKind::WholeKeepaliveAck => &whole::messages::KEEPALIVE_ACK,
        MsgKind::WholeErrorMessage => &whole::messages::ERROR_MESSAGE,
        MsgKind::WholeCustomMessage => &whole::messages::CUSTOM_MESSAGE,
    }
}
