//! Looks up kinds by their names. At most twelve kinds of a set have names of the same length; these
//! are compared.

ghost use Rattle.std.specs.Prelude.{◌≡◌, ◌≤◌, ◌==◌, length, filter, find, nat_eq, nat_le, take};
ghost use Rattle.std.specs.Cmp.Lexicographic.{pointwise};
ghost use Rattle.llrp_schema.specs.Schema.{name_of, message_kinds, param_kinds, whole_message_kinds, whole_param_kinds};
ghost use Rattle.llrp_schema.specs.Calls.Schema.{message_with_name, param_with_name, message_named_in, param_named_in};

use crate::kinds::{Kind, KindSet, MsgKind, ParamKind};
use crate::labels::label;

/// The message with this name, if the profile has one (LLRP 1.1, section 17.1).
pub fn msg_named(name: &str) -> Option<MsgKind>
    ensures { result ≡ message_with_name name.now }
{
    msg_with_name(name.as_bytes())
}

/// The parameter with this name, if the profile has one (LLRP 1.1, section 17.2).
pub fn param_named(name: &str) -> Option<ParamKind>
    ensures { result ≡ param_with_name name.now }
{
    param_with_name(name.as_bytes())
}

/// The message with this name, given as octets, if the profile has one.
pub fn msg_with_name(name: &[u8]) -> Option<MsgKind>
    ensures { result ≡ message_with_name name.now }
{
    first_message(messages_of_length(name.len()), name)
}

/// The parameter with this name, given as octets, if the profile has one.
pub fn param_with_name(name: &[u8]) -> Option<ParamKind>
    ensures { result ≡ param_with_name name.now }
{
    first_parameter(parameters_of_length(name.len()), name)
}

/// The message of a set of kinds with this name, given as octets.
pub fn msg_with_name_in(set: KindSet, name: &[u8]) -> Option<MsgKind>
    ensures { result ≡ message_named_in set name.now }
{
    match set {
        KindSet::Profile => msg_with_name(name),
        KindSet::Standard => first_message(whole_messages_of_length(name.len()), name),
    }
}

/// The parameter of a set of kinds with this name, given as octets.
pub fn param_with_name_in(set: KindSet, name: &[u8]) -> Option<ParamKind>
    ensures { result ≡ param_named_in set name.now }
{
    match set {
        KindSet::Profile => param_with_name(name),
        KindSet::Standard => first_parameter(whole_parameters_of_length(name.len()), name),
    }
}

/// Whether the first octets of a text, as many as this, are the name.
fn is_front(text: &[u8; 48], octets: u8, name: &[u8]) -> bool
    requires { octets ≤ 48 }
    ensures { result ≡ pointwise nat_eq (take octets text.now) name.now }
{
    let (front, _) = text.as_slice().split_at(octets as usize);
    front == name
}

/// Whether a kind has this name.
fn has_name(kind: Kind, name: &[u8]) -> bool
    ensures { result ≡ pointwise nat_eq (name_of kind) name.now }
{
    let label = label(kind);
    is_front(&label.text, label.octets, name)
}

/// The first of some messages that has the name.
fn first_message(kinds: &[MsgKind], name: &[u8]) -> Option<MsgKind>
    ensures { result ≡ find (λ kind. pointwise nat_eq (name_of (Kind.Message kind))
        name.now) kinds.now }
{
    kinds
        .iter()
        .copied()
        .find(|kind| has_name(Kind::Message(*kind), name))
}

/// The first of some parameters that has the name.
fn first_parameter(kinds: &[ParamKind], name: &[u8]) -> Option<ParamKind>
    ensures { result ≡ find (λ kind. pointwise nat_eq (name_of (Kind.Parameter kind))
        name.now) kinds.now }
{
    kinds
        .iter()
        .copied()
        .find(|kind| has_name(Kind::Parameter(*kind), name))
}

/// The messages whose names have this many bytes.
#[tactic(auto, unfolding(crate::specs::Schema::message_kinds, crate::specs::Schema::name_of, crate::specs::Schema::rule_of, crate::specs::Schema::message_rule))]
fn messages_of_length(octets: usize) -> &'static [MsgKind]
    ensures { result.now ≡ filter (λ kind. length (name_of (Kind.Message kind)) == octets)
        message_kinds }
{
    match octets {
        9 => &[MsgKind::Keepalive],
        10 => &[MsgKind::AddRoSpec, MsgKind::GetReport],
        11 => &[MsgKind::StopRoSpec, MsgKind::GetRoSpecs],
        12 => &[MsgKind::StartRoSpec],
        13 => &[
            MsgKind::DeleteRoSpec,
            MsgKind::EnableRoSpec,
            MsgKind::KeepaliveAck,
            MsgKind::ErrorMessage,
        ],
        14 => &[MsgKind::DisableRoSpec],
        16 => &[MsgKind::CloseConnection, MsgKind::RoAccessReport],
        17 => &[MsgKind::SetReaderConfig],
        19 => &[MsgKind::AddRoSpecResponse],
        20 => &[MsgKind::StopRoSpecResponse, MsgKind::GetRoSpecsResponse],
        21 => &[MsgKind::StartRoSpecResponse],
        22 => &[MsgKind::DeleteRoSpecResponse, MsgKind::EnableRoSpecResponse],
        23 => &[MsgKind::DisableRoSpecResponse],
        25 => &[
            MsgKind::CloseConnectionResponse,
            MsgKind::ReaderEventNotification,
            MsgKind::EnableEventsAndReports,
        ],
        26 => &[MsgKind::SetReaderConfigResponse],
        _ => &[],
    }
}

/// The parameters whose names have this many bytes.
#[tactic(auto, unfolding(crate::specs::Schema::param_kinds, crate::specs::Schema::name_of, crate::specs::Schema::rule_of, crate::specs::Schema::param_rule))]
fn parameters_of_length(octets: usize) -> &'static [ParamKind]
    ensures { result.now ≡ filter (λ kind. length (name_of (Kind.Parameter kind)) == octets)
        param_kinds }
{
    match octets {
        6 => &[
            ParamKind::Epc96,
            ParamKind::Uptime,
            ParamKind::RoSpec,
            ParamKind::AiSpec,
        ],
        7 => &[ParamKind::C1G2Pc, ParamKind::EpcData],
        8 => &[
            ParamKind::PeakRssi,
            ParamKind::RoSpecId,
            ParamKind::C1G2Crc,
            ParamKind::GpiEvent,
        ],
        9 => &[ParamKind::AntennaId, ParamKind::SpecIndex],
        10 => &[
            ParamKind::RfReceiver,
            ParamKind::LlrpStatus,
            ParamKind::FieldError,
        ],
        11 => &[ParamKind::RoSpecEvent, ParamKind::AiSpecEvent],
        12 => &[
            ParamKind::ChannelIndex,
            ParamKind::TagSeenCount,
            ParamKind::AccessSpecId,
            ParamKind::UtcTimestamp,
            ParamKind::RoReportSpec,
            ParamKind::AntennaEvent,
        ],
        13 => &[
            ParamKind::KeepaliveSpec,
            ParamKind::RfTransmitter,
            ParamKind::TagReportData,
            ParamKind::C1G2RfControl,
        ],
        _ => longer_parameters(octets),
    }
}

/// The parameters whose names have this many bytes, 14 or more.
#[tactic(auto, unfolding(crate::specs::Schema::param_kinds, crate::specs::Schema::name_of, crate::specs::Schema::rule_of, crate::specs::Schema::param_rule))]
fn longer_parameters(octets: usize) -> &'static [ParamKind]
    ensures { result.now ≡ filter (λ kind. length (name_of (Kind.Parameter kind)) == octets)
        (filter (λ kind. nat_le 14 (length (name_of (Kind.Parameter kind)))) param_kinds) }
{
    match octets {
        14 => &[ParamKind::RoBoundarySpec, ParamKind::ParameterError],
        15 => &[ParamKind::GpiTriggerValue],
        16 => &[ParamKind::EventsAndReports],
        17 => &[ParamKind::RoSpecStopTrigger, ParamKind::AiSpecStopTrigger],
        18 => &[ParamKind::RoSpecStartTrigger],
        20 => &[
            ParamKind::LastSeenTimestampUtc,
            ParamKind::PeriodicTriggerValue,
            ParamKind::AntennaConfiguration,
            ParamKind::ConnectionCloseEvent,
            ParamKind::C1G2InventoryCommand,
        ],
        21 => &[
            ParamKind::FirstSeenTimestampUtc,
            ParamKind::TagObservationTrigger,
            ParamKind::C1G2EpcMemorySelector,
        ],
        22 => &[
            ParamKind::InventoryParameterSpec,
            ParamKind::EventNotificationState,
            ParamKind::ConnectionAttemptEvent,
            ParamKind::C1G2SingulationControl,
        ],
        23 => &[ParamKind::LastSeenTimestampUptime],
        24 => &[
            ParamKind::FirstSeenTimestampUptime,
            ParamKind::InventoryParameterSpecId,
            ParamKind::TagReportContentSelector,
        ],
        27 => &[
            ParamKind::ReaderEventNotificationSpec,
            ParamKind::ReaderEventNotificationData,
        ],
        29 => &[ParamKind::ReportBufferLevelWarningEvent],
        30 => &[ParamKind::ReportBufferOverflowErrorEvent],
        _ => &[],
    }
}

/// The messages of the whole standard whose names have this many bytes.
#[tactic(auto, unfolding(crate::specs::Schema::whole_message_kinds, crate::specs::Schema::name_of, crate::specs::Schema::rule_of, crate::specs::Schema::message_rule))]
fn whole_messages_of_length(octets: usize) -> &'static [MsgKind]
    ensures { result.now ≡ filter (λ kind. length (name_of (Kind.Message kind)) == octets)
        whole_message_kinds }
{
    match octets {
        9 => &[MsgKind::WholeKeepalive],
        10 => &[MsgKind::WholeAddRoSpec, MsgKind::WholeGetReport],
        11 => &[MsgKind::WholeStopRoSpec, MsgKind::WholeGetRoSpecs],
        12 => &[MsgKind::WholeStartRoSpec],
        13 => &[
            MsgKind::WholeDeleteRoSpec,
            MsgKind::WholeEnableRoSpec,
            MsgKind::WholeKeepaliveAck,
            MsgKind::WholeErrorMessage,
        ],
        14 => &[
            MsgKind::WholeDisableRoSpec,
            MsgKind::WholeAddAccessSpec,
            MsgKind::WholeCustomMessage,
        ],
        15 => &[MsgKind::WholeGetAccessSpecs],
        16 => &[MsgKind::WholeCloseConnection, MsgKind::WholeRoAccessReport],
        _ => whole_messages_of_length_from_17(octets),
    }
}

/// The messages of the whole standard whose names have this many bytes, 17 or more.
#[tactic(auto, unfolding(crate::specs::Schema::whole_message_kinds, crate::specs::Schema::name_of, crate::specs::Schema::rule_of, crate::specs::Schema::message_rule))]
fn whole_messages_of_length_from_17(octets: usize) -> &'static [MsgKind]
    ensures { result.now ≡ filter (λ kind. length (name_of (Kind.Message kind)) == octets)
        (filter (λ kind. nat_le 17 (length (name_of (Kind.Message kind)))) whole_message_kinds) }
{
    match octets {
        17 => &[
            MsgKind::WholeGetReaderConfig,
            MsgKind::WholeSetReaderConfig,
            MsgKind::WholeDeleteAccessSpec,
            MsgKind::WholeEnableAccessSpec,
            MsgKind::WholeClientRequestOp,
        ],
        18 => &[MsgKind::WholeDisableAccessSpec],
        19 => &[MsgKind::WholeAddRoSpecResponse],
        20 => &[
            MsgKind::WholeStopRoSpecResponse,
            MsgKind::WholeGetRoSpecsResponse,
            MsgKind::WholeSetProtocolVersion,
        ],
        21 => &[
            MsgKind::WholeStartRoSpecResponse,
            MsgKind::WholeGetSupportedVersion,
        ],
        22 => &[
            MsgKind::WholeDeleteRoSpecResponse,
            MsgKind::WholeEnableRoSpecResponse,
        ],
        23 => &[
            MsgKind::WholeGetReaderCapabilities,
            MsgKind::WholeDisableRoSpecResponse,
            MsgKind::WholeAddAccessSpecResponse,
        ],
        24 => &[MsgKind::WholeGetAccessSpecsResponse],
        25 => &[
            MsgKind::WholeCloseConnectionResponse,
            MsgKind::WholeReaderEventNotification,
            MsgKind::WholeEnableEventsAndReports,
        ],
        26 => &[
            MsgKind::WholeGetReaderConfigResponse,
            MsgKind::WholeSetReaderConfigResponse,
            MsgKind::WholeDeleteAccessSpecResponse,
            MsgKind::WholeEnableAccessSpecResponse,
            MsgKind::WholeClientRequestOpResponse,
        ],
        27 => &[MsgKind::WholeDisableAccessSpecResponse],
        29 => &[MsgKind::WholeSetProtocolVersionResponse],
        30 => &[MsgKind::WholeGetSupportedVersionResponse],
        32 => &[MsgKind::WholeGetReaderCapabilitiesResponse],
        _ => &[],
    }
}

/// The parameters of the whole standard whose names have this many bytes.
#[tactic(auto, unfolding(crate::specs::Schema::whole_param_kinds, crate::specs::Schema::name_of, crate::specs::Schema::rule_of, crate::specs::Schema::param_rule))]
fn whole_parameters_of_length(octets: usize) -> &'static [ParamKind]
    ensures { result.now ≡ filter (λ kind. length (name_of (Kind.Parameter kind)) == octets)
        whole_param_kinds }
{
    match octets {
        6 => &[
            ParamKind::WholeEpc96,
            ParamKind::WholeUptime,
            ParamKind::WholeRoSpec,
            ParamKind::WholeAiSpec,
            ParamKind::WholeCustom,
        ],
        7 => &[ParamKind::WholeC1G2Pc, ParamKind::WholeEpcData],
        8 => &[
            ParamKind::WholePeakRssi,
            ParamKind::WholeRoSpecId,
            ParamKind::WholeC1G2Crc,
            ParamKind::WholeOpSpecID,
            ParamKind::WholeGpiEvent,
            ParamKind::WholeC1G2Read,
            ParamKind::WholeC1G2Kill,
            ParamKind::WholeC1G2Lock,
            ParamKind::WholeLoopSpec,
        ],
        9 => &[
            ParamKind::WholeAntennaId,
            ParamKind::WholeSpecIndex,
            ParamKind::WholeC1g2xpcw1,
            ParamKind::WholeC1g2xpcw2,
            ParamKind::WholeC1G2Write,
        ],
        10 => &[
            ParamKind::WholeAccessSpec,
            ParamKind::WholeRfReceiver,
            ParamKind::WholeLlrpStatus,
            ParamKind::WholeFieldError,
            ParamKind::WholeC1G2Filter,
        ],
        _ => whole_parameters_of_length_from_11(octets),
    }
}

/// The parameters of the whole standard whose names have this many bytes, 11 or more.
#[tactic(auto, unfolding(crate::specs::Schema::whole_param_kinds, crate::specs::Schema::name_of, crate::specs::Schema::rule_of, crate::specs::Schema::param_rule))]
fn whole_parameters_of_length_from_11(octets: usize) -> &'static [ParamKind]
    ensures { result.now ≡ filter (λ kind. length (name_of (Kind.Parameter kind)) == octets)
        (filter (λ kind. nat_le 11 (length (name_of (Kind.Parameter kind)))) whole_param_kinds) }
{
    match octets {
        11 => &[
            ParamKind::WholeRoSpecEvent,
            ParamKind::WholeAiSpecEvent,
            ParamKind::WholeC1G2TagSpec,
        ],
        12 => &[
            ParamKind::WholeChannelIndex,
            ParamKind::WholeTagSeenCount,
            ParamKind::WholeAccessSpecId,
            ParamKind::WholeUtcTimestamp,
            ParamKind::WholeRfSurveySpec,
            ParamKind::WholeGpoWriteData,
            ParamKind::WholeRoReportSpec,
            ParamKind::WholeHoppingEvent,
            ParamKind::WholeAntennaEvent,
        ],
        13 => &[
            ParamKind::WholeAccessCommand,
            ParamKind::WholeKeepaliveSpec,
            ParamKind::WholeRfTransmitter,
            ParamKind::WholeTagReportData,
            ParamKind::WholeRfSurveyEvent,
            ParamKind::WholeC1G2RfControl,
            ParamKind::WholeC1G2TargetTag,
            ParamKind::WholeSpecLoopEvent,
        ],
        14 => &[
            ParamKind::WholeRoBoundarySpec,
            ParamKind::WholeIdentification,
            ParamKind::WholeParameterError,
            ParamKind::WholeC1G2BlockErase,
            ParamKind::WholeC1G2BlockWrite,
        ],
        _ => whole_parameters_of_length_from_15(octets),
    }
}

/// The parameters of the whole standard whose names have this many bytes, 15 or more.
#[tactic(auto, unfolding(crate::specs::Schema::whole_param_kinds, crate::specs::Schema::name_of, crate::specs::Schema::rule_of, crate::specs::Schema::param_rule))]
fn whole_parameters_of_length_from_15(octets: usize) -> &'static [ParamKind]
    ensures { result.now ≡ filter (λ kind. length (name_of (Kind.Parameter kind)) == octets)
        (filter (λ kind. nat_le 15 (length (name_of (Kind.Parameter kind)))) whole_param_kinds) }
{
    match octets {
        15 => &[
            ParamKind::WholeGpiTriggerValue,
            ParamKind::WholeC1G2LockPayload,
        ],
        16 => &[
            ParamKind::WholeGpioCapabilities,
            ParamKind::WholeLlrpCapabilities,
            ParamKind::WholeEventsAndReports,
            ParamKind::WholeAccessReportSpec,
            ParamKind::WholeC1G2Recommission,
        ],
        17 => &[
            ParamKind::WholeFrequencyHopTable,
            ParamKind::WholeRoSpecStopTrigger,
            ParamKind::WholeAiSpecStopTrigger,
            ParamKind::WholeAntennaProperties,
        ],
        18 => &[
            ParamKind::WholeRoSpecStartTrigger,
            ParamKind::WholeRfSurveyReportData,
            ParamKind::WholeC1G2UhfRfModeTable,
            ParamKind::WholeC1G2BlockPermalock,
        ],
        19 => &[
            ParamKind::WholeUhfBandCapabilities,
            ParamKind::WholeFixedFrequencyTable,
            ParamKind::WholeClientRequestOpSpec,
            ParamKind::WholeGpiPortCurrentState,
        ],
        _ => whole_parameters_of_length_from_20(octets),
    }
}

/// The parameters of the whole standard whose names have this many bytes, 20 or more.
#[tactic(auto, unfolding(crate::specs::Schema::whole_param_kinds, crate::specs::Schema::name_of, crate::specs::Schema::rule_of, crate::specs::Schema::param_rule))]
fn whole_parameters_of_length_from_20(octets: usize) -> &'static [ParamKind]
    ensures { result.now ≡ filter (λ kind. length (name_of (Kind.Parameter kind)) == octets)
        (filter (λ kind. nat_le 20 (length (name_of (Kind.Parameter kind)))) whole_param_kinds) }
{
    match octets {
        20 => &[
            ParamKind::WholeLastSeenTimestampUtc,
            ParamKind::WholeFrequencyInformation,
            ParamKind::WholePeriodicTriggerValue,
            ParamKind::WholeAntennaConfiguration,
            ParamKind::WholeReaderExceptionEvent,
            ParamKind::WholeConnectionCloseEvent,
            ParamKind::WholeC1G2LlrpCapabilities,
            ParamKind::WholeC1G2InventoryCommand,
            ParamKind::WholeC1G2TagInventoryMask,
            ParamKind::WholeC1G2ReadOpSpecResult,
            ParamKind::WholeC1G2KillOpSpecResult,
            ParamKind::WholeC1G2LockOpSpecResult,
        ],
        21 => &[
            ParamKind::WholeFirstSeenTimestampUtc,
            ParamKind::WholePerAntennaAirProtocol,
            ParamKind::WholeTagObservationTrigger,
            ParamKind::WholeAccessSpecStopTrigger,
            ParamKind::WholeClientRequestResponse,
            ParamKind::WholeC1G2EpcMemorySelector,
            ParamKind::WholeC1G2WriteOpSpecResult,
        ],
        22 => &[
            ParamKind::WholeC1G2SingulationDetails,
            ParamKind::WholeRegulatoryCapabilities,
            ParamKind::WholeInventoryParameterSpec,
            ParamKind::WholeEventNotificationState,
            ParamKind::WholeConnectionAttemptEvent,
            ParamKind::WholeC1G2SingulationControl,
        ],
        _ => whole_parameters_of_length_from_23(octets),
    }
}

/// The parameters of the whole standard whose names have this many bytes, 23 or more.
#[tactic(auto, unfolding(crate::specs::Schema::whole_param_kinds, crate::specs::Schema::name_of, crate::specs::Schema::rule_of, crate::specs::Schema::param_rule))]
fn whole_parameters_of_length_from_23(octets: usize) -> &'static [ParamKind]
    ensures { result.now ≡ filter (λ kind. length (name_of (Kind.Parameter kind)) == octets)
        (filter (λ kind. nat_le 23 (length (name_of (Kind.Parameter kind)))) whole_param_kinds) }
{
    match octets {
        23 => &[
            ParamKind::WholeLastSeenTimestampUptime,
            ParamKind::WholeRfSurveySpecStopTrigger,
            ParamKind::WholeFrequencyRssiLevelEntry,
            ParamKind::WholeC1G2UhfRfModeTableEntry,
        ],
        24 => &[
            ParamKind::WholeFirstSeenTimestampUptime,
            ParamKind::WholeInventoryParameterSpecId,
            ParamKind::WholeTagReportContentSelector,
        ],
        25 => &[
            ParamKind::WholeClientRequestOpSpecResult,
            ParamKind::WholeGeneralDeviceCapabilities,
            ParamKind::WholeMaximumReceiveSensitivity,
        ],
        26 => &[
            ParamKind::WholeC1G2BlockEraseOpSpecResult,
            ParamKind::WholeC1G2BlockWriteOpSpecResult,
        ],
        27 => &[
            ParamKind::WholeLlrpConfigurationStateValue,
            ParamKind::WholeReaderEventNotificationSpec,
            ParamKind::WholeReaderEventNotificationData,
            ParamKind::WholeC1G2GetBlockPermalockStatus,
        ],
        28 => &[
            ParamKind::WholeReceiveSensitivityTableEntry,
            ParamKind::WholeTransmitPowerLevelTableEntry,
            ParamKind::WholeC1G2RecommissionOpSpecResult,
        ],
        29 => &[
            ParamKind::WholeReportBufferLevelWarningEvent,
            ParamKind::WholeRfSurveyFrequencyCapabilities,
        ],
        30 => &[
            ParamKind::WholeReportBufferOverflowErrorEvent,
            ParamKind::WholeC1G2BlockPermalockOpSpecResult,
        ],
        33 => &[ParamKind::WholePerAntennaReceiveSensitivityRange],
        38 => &[ParamKind::WholeC1G2TagInventoryStateAwareFilterAction],
        39 => &[ParamKind::WholeC1G2GetBlockPermalockStatusOpSpecResult],
        40 => &[ParamKind::WholeC1G2TagInventoryStateUnawareFilterAction],
        43 => &[ParamKind::WholeC1G2TagInventoryStateAwareSingulationAction],
        _ => &[],
    }
}
