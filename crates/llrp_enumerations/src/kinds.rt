//! The fields of each kind whose numbers have names.

ghost use Rattle.std.specs.Prelude.{◌≡◌, map};
ghost use Rattle.llrp_enumerations.specs.Calls.Enumerations.{fields_of_kind, message_fields, parameter_fields};
ghost use Rattle.llrp_enumerations.specs.Private.Rows.{enumerated_field};

use crate::enumeration::{EnumeratedField, Enumeration};
use llrp_schema::{Kind, MsgKind, ParamKind};

/// A field and the names of its numbers.
macro_rules! field {
    ($name:literal, $enumeration:ident) => {
        EnumeratedField {
            name: $name,
            enumeration: Enumeration::$enumeration,
        }
    };
}

/// Those of a message.
#[tactic(auto, unfolding(crate::specs::Calls::Enumerations::message_fields))]
fn fields_of_message(kind: MsgKind) -> &'static [EnumeratedField]
    ensures { map enumerated_field result.now ≡ message_fields kind }
{
    match kind {
        MsgKind::WholeGetReaderCapabilities => &[field!(
            "RequestedData",
            GetReaderCapabilitiesRequestedData
        )],
        MsgKind::WholeGetReaderConfig => &[field!("RequestedData", GetReaderConfigRequestedData)],
        _ => &[],
    }
}

/// Those of a parameter.
#[tactic(auto, unfolding(crate::specs::Calls::Enumerations::parameter_fields))]
fn fields_of_parameter(kind: ParamKind) -> &'static [EnumeratedField]
    ensures { map enumerated_field result.now ≡ parameter_fields kind }
{
    match kind {
        ParamKind::RoSpec => &[field!("CurrentState", RoSpecState)],
        ParamKind::RoSpecStartTrigger => &[field!("Type", RoSpecStartTriggerType)],
        ParamKind::RoSpecStopTrigger => &[field!("Type", RoSpecStopTriggerType)],
        ParamKind::AiSpecStopTrigger => &[field!("Type", AiSpecStopTriggerType)],
        ParamKind::TagObservationTrigger => &[field!("Type", TagObservationTriggerType)],
        ParamKind::InventoryParameterSpec => &[field!("ProtocolID", AirProtocols)],
        ParamKind::KeepaliveSpec => &[field!("Type", KeepaliveTriggerType)],
        ParamKind::RoReportSpec => &[field!("Trigger", RoReportTriggerType)],
        ParamKind::EventNotificationState => &[field!("EventType", NotificationEventType)],
        ParamKind::RoSpecEvent => &[field!("Type", RoSpecEventType)],
        ParamKind::AiSpecEvent => &[field!("Type", AiSpecEventType)],
        ParamKind::AntennaEvent => &[field!("Type", AntennaEventType)],
        ParamKind::ConnectionAttemptEvent => &[field!("Status", ConnectionAttemptStatusType)],
        ParamKind::LlrpStatus => &[field!("StatusCode", StatusCode)],
        ParamKind::FieldError => &[field!("ErrorCode", StatusCode)],
        ParamKind::ParameterError => &[field!("ErrorCode", StatusCode)],
        ParamKind::WholeRegulatoryCapabilities => &[field!(
            "CommunicationsStandard",
            CommunicationsStandard
        )],
        ParamKind::WholeRoSpec => &[field!("CurrentState", RoSpecState)],
        ParamKind::WholeRoSpecStartTrigger => &[field!(
            "ROSpecStartTriggerType",
            RoSpecStartTriggerType
        )],
        ParamKind::WholeRoSpecStopTrigger => &[field!(
            "ROSpecStopTriggerType",
            RoSpecStopTriggerType
        )],
        ParamKind::WholeAiSpecStopTrigger => &[field!(
            "AISpecStopTriggerType",
            AiSpecStopTriggerType
        )],
        ParamKind::WholeTagObservationTrigger => &[field!(
            "TriggerType",
            TagObservationTriggerType
        )],
        ParamKind::WholeInventoryParameterSpec => &[field!("ProtocolID", AirProtocols)],
        ParamKind::WholeRfSurveySpecStopTrigger => &[field!(
            "StopTriggerType",
            RfSurveySpecStopTriggerType
        )],
        ParamKind::WholeAccessSpec => &[
            field!("ProtocolID", AirProtocols),
            field!("CurrentState", AccessSpecState),
        ],
        ParamKind::WholeAccessSpecStopTrigger => &[field!(
            "AccessSpecStopTrigger",
            AccessSpecStopTriggerType
        )],
        ParamKind::WholeIdentification => &[field!("IDType", IdentificationType)],
        ParamKind::WholeKeepaliveSpec => &[field!("KeepaliveTriggerType", KeepaliveTriggerType)],
        ParamKind::WholeGpiPortCurrentState => &[field!("State", GpiPortState)],
        ParamKind::WholeRoReportSpec => &[field!("ROReportTrigger", RoReportTriggerType)],
        ParamKind::WholeAccessReportSpec => &[field!(
            "AccessReportTrigger",
            AccessReportTriggerType
        )],
        ParamKind::WholeEventNotificationState => &[field!("EventType", NotificationEventType)],
        ParamKind::WholeRoSpecEvent => &[field!("EventType", RoSpecEventType)],
        ParamKind::WholeRfSurveyEvent => &[field!("EventType", RfSurveyEventType)],
        ParamKind::WholeAiSpecEvent => &[field!("EventType", AiSpecEventType)],
        ParamKind::WholeAntennaEvent => &[field!("EventType", AntennaEventType)],
        ParamKind::WholeConnectionAttemptEvent => &[field!("Status", ConnectionAttemptStatusType)],
        ParamKind::WholeLlrpStatus => &[field!("StatusCode", StatusCode)],
        ParamKind::WholeFieldError => &[field!("ErrorCode", StatusCode)],
        ParamKind::WholeParameterError => &[field!("ErrorCode", StatusCode)],
        ParamKind::WholeC1G2UhfRfModeTableEntry => &[
            field!("DRValue", C1G2DrValue),
            field!("MValue", C1G2MValue),
            field!("ForwardLinkModulation", C1G2ForwardLinkModulation),
            field!("SpectralMaskIndicator", C1G2SpectralMaskIndicator),
        ],
        ParamKind::WholeC1G2Filter => &[field!("T", C1G2TruncateAction)],
        ParamKind::WholeC1G2TagInventoryStateAwareFilterAction => &[
            field!("Target", C1G2StateAwareTarget),
            field!("Action", C1G2StateAwareAction),
        ],
        ParamKind::WholeC1G2TagInventoryStateUnawareFilterAction => &[field!(
            "Action",
            C1G2StateUnawareAction
        )],
        ParamKind::WholeC1G2TagInventoryStateAwareSingulationAction => &[
            field!("I", C1G2TagInventoryStateAwareI),
            field!("S", C1G2TagInventoryStateAwareS),
        ],
        ParamKind::WholeC1G2LockPayload => &[
            field!("Privilege", C1G2LockPrivilege),
            field!("DataField", C1G2LockDataField),
        ],
        ParamKind::WholeC1G2ReadOpSpecResult => &[field!("Result", C1G2ReadResultType)],
        ParamKind::WholeC1G2WriteOpSpecResult => &[field!("Result", C1G2WriteResultType)],
        ParamKind::WholeC1G2KillOpSpecResult => &[field!("Result", C1G2KillResultType)],
        ParamKind::WholeC1G2LockOpSpecResult => &[field!("Result", C1G2LockResultType)],
        ParamKind::WholeC1G2BlockEraseOpSpecResult => &[field!("Result", C1G2BlockEraseResultType)],
        ParamKind::WholeC1G2BlockWriteOpSpecResult => &[field!("Result", C1G2BlockWriteResultType)],
        _ => &[],
    }
}

/// The fields of a kind whose numbers have names.
pub(crate) fn enumerated_fields(kind: Kind) -> &'static [EnumeratedField]
    ensures { map enumerated_field result.now ≡ fields_of_kind kind }
{
    match kind {
        Kind::Message(kind) => fields_of_message(kind),
        Kind::Parameter(kind) => fields_of_parameter(kind),
    }
}
