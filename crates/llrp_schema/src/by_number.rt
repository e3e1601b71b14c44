//! Looks up kinds by their numbers.

ghost use Rattle.std.specs.Prelude.{◌≡◌, ◌==◌, not, find, drop, filter};
ghost use Rattle.llrp_schema.specs.Schema.{number_of, whole_param_kinds, is_tv, message_in, tlv_in, tv_in};
ghost use Rattle.llrp_schema.specs.Calls.Schema.{message_with_number, tlv_with_number, tv_with_number};
ghost use Rattle.llrp_schema.specs.declared.kinds.KindSet.TheVariants.{Standard};

use crate::kinds::{Kind, KindSet, MsgKind, ParamKind};

/// The message with this number, if the profile has one (LLRP 1.1, section 17.1).
#[inline(always)]
#[tactic(auto, unfolding(crate::specs::Schema::message_in, crate::specs::Schema::set_of_kind, crate::specs::Schema::message_kinds, crate::specs::Schema::number_of, crate::specs::Schema::rule_of, crate::specs::Schema::message_rule))]
pub fn msg_of(number: u16) -> Option<MsgKind>
    ensures { result ≡ message_with_number number }
{
    match number {
        3 => Some(MsgKind::SetReaderConfig),
        4 => Some(MsgKind::CloseConnectionResponse),
        13 => Some(MsgKind::SetReaderConfigResponse),
        14 => Some(MsgKind::CloseConnection),
        20 => Some(MsgKind::AddRoSpec),
        21 => Some(MsgKind::DeleteRoSpec),
        22 => Some(MsgKind::StartRoSpec),
        23 => Some(MsgKind::StopRoSpec),
        24 => Some(MsgKind::EnableRoSpec),
        25 => Some(MsgKind::DisableRoSpec),
        26 => Some(MsgKind::GetRoSpecs),
        30 => Some(MsgKind::AddRoSpecResponse),
        31 => Some(MsgKind::DeleteRoSpecResponse),
        32 => Some(MsgKind::StartRoSpecResponse),
        33 => Some(MsgKind::StopRoSpecResponse),
        34 => Some(MsgKind::EnableRoSpecResponse),
        35 => Some(MsgKind::DisableRoSpecResponse),
        36 => Some(MsgKind::GetRoSpecsResponse),
        60 => Some(MsgKind::GetReport),
        61 => Some(MsgKind::RoAccessReport),
        62 => Some(MsgKind::Keepalive),
        63 => Some(MsgKind::ReaderEventNotification),
        64 => Some(MsgKind::EnableEventsAndReports),
        72 => Some(MsgKind::KeepaliveAck),
        100 => Some(MsgKind::ErrorMessage),
        _ => None,
    }
}

/// The parameter with type, length and value that has this number, if the profile has one (LLRP
/// 1.1, section 17.2).
#[inline(always)]
#[tactic(auto, unfolding(crate::specs::Schema::tlv_in, crate::specs::Schema::set_of_kind, crate::specs::Schema::param_kinds, crate::specs::Schema::is_tv, crate::specs::Schema::number_of, crate::specs::Schema::rule_of, crate::specs::Schema::param_rule))]
pub fn param_of_tlv(number: u16) -> Option<ParamKind>
    ensures { result ≡ tlv_with_number number }
{
    match number {
        128 => Some(ParamKind::UtcTimestamp),
        129 => Some(ParamKind::Uptime),
        177 => Some(ParamKind::RoSpec),
        178 => Some(ParamKind::RoBoundarySpec),
        179 => Some(ParamKind::RoSpecStartTrigger),
        180 => Some(ParamKind::PeriodicTriggerValue),
        181 => Some(ParamKind::GpiTriggerValue),
        182 => Some(ParamKind::RoSpecStopTrigger),
        183 => Some(ParamKind::AiSpec),
        184 => Some(ParamKind::AiSpecStopTrigger),
        185 => Some(ParamKind::TagObservationTrigger),
        186 => Some(ParamKind::InventoryParameterSpec),
        220 => Some(ParamKind::KeepaliveSpec),
        222 => Some(ParamKind::AntennaConfiguration),
        223 => Some(ParamKind::RfReceiver),
        224 => Some(ParamKind::RfTransmitter),
        226 => Some(ParamKind::EventsAndReports),
        237 => Some(ParamKind::RoReportSpec),
        238 => Some(ParamKind::TagReportContentSelector),
        240 => Some(ParamKind::TagReportData),
        241 => Some(ParamKind::EpcData),
        244 => Some(ParamKind::ReaderEventNotificationSpec),
        245 => Some(ParamKind::EventNotificationState),
        246 => Some(ParamKind::ReaderEventNotificationData),
        248 => Some(ParamKind::GpiEvent),
        249 => Some(ParamKind::RoSpecEvent),
        250 => Some(ParamKind::ReportBufferLevelWarningEvent),
        251 => Some(ParamKind::ReportBufferOverflowErrorEvent),
        254 => Some(ParamKind::AiSpecEvent),
        255 => Some(ParamKind::AntennaEvent),
        256 => Some(ParamKind::ConnectionAttemptEvent),
        257 => Some(ParamKind::ConnectionCloseEvent),
        287 => Some(ParamKind::LlrpStatus),
        288 => Some(ParamKind::FieldError),
        289 => Some(ParamKind::ParameterError),
        330 => Some(ParamKind::C1G2InventoryCommand),
        335 => Some(ParamKind::C1G2RfControl),
        336 => Some(ParamKind::C1G2SingulationControl),
        348 => Some(ParamKind::C1G2EpcMemorySelector),
        _ => None,
    }
}

/// The parameter with a type and a value alone that has this number, if the profile has one (LLRP
/// 1.1, section 17.2).
#[inline(always)]
#[tactic(auto, unfolding(crate::specs::Schema::tv_in, crate::specs::Schema::set_of_kind, crate::specs::Schema::param_kinds, crate::specs::Schema::is_tv, crate::specs::Schema::number_of, crate::specs::Schema::rule_of, crate::specs::Schema::param_rule))]
pub fn param_of_tv(number: u8) -> Option<ParamKind>
    ensures { result ≡ tv_with_number number }
{
    match number {
        1 => Some(ParamKind::AntennaId),
        2 => Some(ParamKind::FirstSeenTimestampUtc),
        3 => Some(ParamKind::FirstSeenTimestampUptime),
        4 => Some(ParamKind::LastSeenTimestampUtc),
        5 => Some(ParamKind::LastSeenTimestampUptime),
        6 => Some(ParamKind::PeakRssi),
        7 => Some(ParamKind::ChannelIndex),
        8 => Some(ParamKind::TagSeenCount),
        9 => Some(ParamKind::RoSpecId),
        10 => Some(ParamKind::InventoryParameterSpecId),
        11 => Some(ParamKind::C1G2Crc),
        12 => Some(ParamKind::C1G2Pc),
        13 => Some(ParamKind::Epc96),
        14 => Some(ParamKind::SpecIndex),
        16 => Some(ParamKind::AccessSpecId),
        _ => None,
    }
}

/// Whether a parameter has a type and a value alone, and no length. In each set they come first.
#[inline(always)]
#[tactic(auto, unfolding(crate::specs::Schema::is_tv, crate::specs::Schema::number_of, crate::specs::Schema::rule_of, crate::specs::Schema::param_rule))]
pub fn is_tv(kind: ParamKind) -> bool
    ensures { result ≡ is_tv kind }
{
    match kind as usize {
        0..=14 | 54..=73 => true,
        _ => false,
    }
}

/// The kind of the whole standard with this number.
#[inline(never)]
#[tactic(auto, unfolding(crate::specs::Schema::message_in, crate::specs::Schema::whole_message_kinds, crate::specs::Schema::is_tv, crate::specs::Schema::number_of, crate::specs::Schema::rule_of, crate::specs::Schema::message_rule))]
fn whole_msg_of(number: u16) -> Option<MsgKind>
    ensures { result ≡ message_in Standard number }
{
    match number {
        1 => Some(MsgKind::WholeGetReaderCapabilities),
        2 => Some(MsgKind::WholeGetReaderConfig),
        3 => Some(MsgKind::WholeSetReaderConfig),
        4 => Some(MsgKind::WholeCloseConnectionResponse),
        11 => Some(MsgKind::WholeGetReaderCapabilitiesResponse),
        12 => Some(MsgKind::WholeGetReaderConfigResponse),
        13 => Some(MsgKind::WholeSetReaderConfigResponse),
        14 => Some(MsgKind::WholeCloseConnection),
        20 => Some(MsgKind::WholeAddRoSpec),
        21 => Some(MsgKind::WholeDeleteRoSpec),
        22 => Some(MsgKind::WholeStartRoSpec),
        23 => Some(MsgKind::WholeStopRoSpec),
        24 => Some(MsgKind::WholeEnableRoSpec),
        25 => Some(MsgKind::WholeDisableRoSpec),
        26 => Some(MsgKind::WholeGetRoSpecs),
        30 => Some(MsgKind::WholeAddRoSpecResponse),
        31 => Some(MsgKind::WholeDeleteRoSpecResponse),
        32 => Some(MsgKind::WholeStartRoSpecResponse),
        33 => Some(MsgKind::WholeStopRoSpecResponse),
        34 => Some(MsgKind::WholeEnableRoSpecResponse),
        35 => Some(MsgKind::WholeDisableRoSpecResponse),
        36 => Some(MsgKind::WholeGetRoSpecsResponse),
        40 => Some(MsgKind::WholeAddAccessSpec),
        41 => Some(MsgKind::WholeDeleteAccessSpec),
        42 => Some(MsgKind::WholeEnableAccessSpec),
        43 => Some(MsgKind::WholeDisableAccessSpec),
        44 => Some(MsgKind::WholeGetAccessSpecs),
        45 => Some(MsgKind::WholeClientRequestOp),
        46 => Some(MsgKind::WholeGetSupportedVersion),
        47 => Some(MsgKind::WholeSetProtocolVersion),
        50 => Some(MsgKind::WholeAddAccessSpecResponse),
        51 => Some(MsgKind::WholeDeleteAccessSpecResponse),
        52 => Some(MsgKind::WholeEnableAccessSpecResponse),
        53 => Some(MsgKind::WholeDisableAccessSpecResponse),
        54 => Some(MsgKind::WholeGetAccessSpecsResponse),
        55 => Some(MsgKind::WholeClientRequestOpResponse),
        56 => Some(MsgKind::WholeGetSupportedVersionResponse),
        57 => Some(MsgKind::WholeSetProtocolVersionResponse),
        60 => Some(MsgKind::WholeGetReport),
        61 => Some(MsgKind::WholeRoAccessReport),
        62 => Some(MsgKind::WholeKeepalive),
        63 => Some(MsgKind::WholeReaderEventNotification),
        64 => Some(MsgKind::WholeEnableEventsAndReports),
        72 => Some(MsgKind::WholeKeepaliveAck),
        100 => Some(MsgKind::WholeErrorMessage),
        1023 => Some(MsgKind::WholeCustomMessage),
        _ => None,
    }
}

/// The kind of a set with this number.
#[inline(always)]
pub fn msg_of_in(set: KindSet, number: u16) -> Option<MsgKind>
    ensures { result ≡ message_in set number }
{
    match set {
        KindSet::Profile => msg_of(number),
        KindSet::Standard => whole_msg_of(number),
    }
}

/// The parameter of the whole standard with this number.
#[inline(never)]
#[tactic(auto, unfolding(crate::specs::Schema::tlv_in, crate::specs::Schema::whole_param_kinds, crate::specs::Schema::is_tv, crate::specs::Schema::number_of, crate::specs::Schema::rule_of, crate::specs::Schema::param_rule))]
fn whole_param_of_tlv(number: u16) -> Option<ParamKind>
    ensures { result ≡ tlv_in Standard number }
{
    match number {
        128 => Some(ParamKind::WholeUtcTimestamp),
        129 => Some(ParamKind::WholeUptime),
        137 => Some(ParamKind::WholeGeneralDeviceCapabilities),
        139 => Some(ParamKind::WholeReceiveSensitivityTableEntry),
        140 => Some(ParamKind::WholePerAntennaAirProtocol),
        141 => Some(ParamKind::WholeGpioCapabilities),
        142 => Some(ParamKind::WholeLlrpCapabilities),
        143 => Some(ParamKind::WholeRegulatoryCapabilities),
        144 => Some(ParamKind::WholeUhfBandCapabilities),
        145 => Some(ParamKind::WholeTransmitPowerLevelTableEntry),
        146 => Some(ParamKind::WholeFrequencyInformation),
        147 => Some(ParamKind::WholeFrequencyHopTable),
        148 => Some(ParamKind::WholeFixedFrequencyTable),
        149 => Some(ParamKind::WholePerAntennaReceiveSensitivityRange),
        177 => Some(ParamKind::WholeRoSpec),
        178 => Some(ParamKind::WholeRoBoundarySpec),
        179 => Some(ParamKind::WholeRoSpecStartTrigger),
        180 => Some(ParamKind::WholePeriodicTriggerValue),
        181 => Some(ParamKind::WholeGpiTriggerValue),
        182 => Some(ParamKind::WholeRoSpecStopTrigger),
        183 => Some(ParamKind::WholeAiSpec),
        184 => Some(ParamKind::WholeAiSpecStopTrigger),
        185 => Some(ParamKind::WholeTagObservationTrigger),
        186 => Some(ParamKind::WholeInventoryParameterSpec),
        187 => Some(ParamKind::WholeRfSurveySpec),
        188 => Some(ParamKind::WholeRfSurveySpecStopTrigger),
        207 => Some(ParamKind::WholeAccessSpec),
        208 => Some(ParamKind::WholeAccessSpecStopTrigger),
        209 => Some(ParamKind::WholeAccessCommand),
        210 => Some(ParamKind::WholeClientRequestOpSpec),
        211 => Some(ParamKind::WholeClientRequestResponse),
        217 => Some(ParamKind::WholeLlrpConfigurationStateValue),
        218 => Some(ParamKind::WholeIdentification),
        219 => Some(ParamKind::WholeGpoWriteData),
        220 => Some(ParamKind::WholeKeepaliveSpec),
        221 => Some(ParamKind::WholeAntennaProperties),
        222 => Some(ParamKind::WholeAntennaConfiguration),
        223 => Some(ParamKind::WholeRfReceiver),
        224 => Some(ParamKind::WholeRfTransmitter),
        225 => Some(ParamKind::WholeGpiPortCurrentState),
        226 => Some(ParamKind::WholeEventsAndReports),
        237 => Some(ParamKind::WholeRoReportSpec),
        238 => Some(ParamKind::WholeTagReportContentSelector),
        239 => Some(ParamKind::WholeAccessReportSpec),
        240 => Some(ParamKind::WholeTagReportData),
        241 => Some(ParamKind::WholeEpcData),
        242 => Some(ParamKind::WholeRfSurveyReportData),
        243 => Some(ParamKind::WholeFrequencyRssiLevelEntry),
        244 => Some(ParamKind::WholeReaderEventNotificationSpec),
        245 => Some(ParamKind::WholeEventNotificationState),
        246 => Some(ParamKind::WholeReaderEventNotificationData),
        247 => Some(ParamKind::WholeHoppingEvent),
        _ => later_whole_tlv(number),
    }
}

/// The same of the later half of them.
#[tactic(auto, unfolding(crate::specs::Schema::tlv_in, crate::specs::Schema::whole_param_kinds, crate::specs::Schema::is_tv, crate::specs::Schema::number_of, crate::specs::Schema::rule_of, crate::specs::Schema::param_rule))]
fn later_whole_tlv(number: u16) -> Option<ParamKind>
    ensures { result ≡ find (λ kind. number_of (Kind.Parameter kind) == number) (drop 52 (filter (λ kind. not (is_tv kind)) whole_param_kinds)) }
{
    match number {
        248 => Some(ParamKind::WholeGpiEvent),
        249 => Some(ParamKind::WholeRoSpecEvent),
        250 => Some(ParamKind::WholeReportBufferLevelWarningEvent),
        251 => Some(ParamKind::WholeReportBufferOverflowErrorEvent),
        252 => Some(ParamKind::WholeReaderExceptionEvent),
        253 => Some(ParamKind::WholeRfSurveyEvent),
        254 => Some(ParamKind::WholeAiSpecEvent),
        255 => Some(ParamKind::WholeAntennaEvent),
        256 => Some(ParamKind::WholeConnectionAttemptEvent),
        257 => Some(ParamKind::WholeConnectionCloseEvent),
        287 => Some(ParamKind::WholeLlrpStatus),
        288 => Some(ParamKind::WholeFieldError),
        289 => Some(ParamKind::WholeParameterError),
        327 => Some(ParamKind::WholeC1G2LlrpCapabilities),
        328 => Some(ParamKind::WholeC1G2UhfRfModeTable),
        329 => Some(ParamKind::WholeC1G2UhfRfModeTableEntry),
        330 => Some(ParamKind::WholeC1G2InventoryCommand),
        331 => Some(ParamKind::WholeC1G2Filter),
        332 => Some(ParamKind::WholeC1G2TagInventoryMask),
        333 => Some(ParamKind::WholeC1G2TagInventoryStateAwareFilterAction),
        334 => Some(ParamKind::WholeC1G2TagInventoryStateUnawareFilterAction),
        335 => Some(ParamKind::WholeC1G2RfControl),
        336 => Some(ParamKind::WholeC1G2SingulationControl),
        337 => Some(ParamKind::WholeC1G2TagInventoryStateAwareSingulationAction),
        338 => Some(ParamKind::WholeC1G2TagSpec),
        339 => Some(ParamKind::WholeC1G2TargetTag),
        341 => Some(ParamKind::WholeC1G2Read),
        342 => Some(ParamKind::WholeC1G2Write),
        343 => Some(ParamKind::WholeC1G2Kill),
        344 => Some(ParamKind::WholeC1G2Lock),
        345 => Some(ParamKind::WholeC1G2LockPayload),
        346 => Some(ParamKind::WholeC1G2BlockErase),
        347 => Some(ParamKind::WholeC1G2BlockWrite),
        348 => Some(ParamKind::WholeC1G2EpcMemorySelector),
        349 => Some(ParamKind::WholeC1G2ReadOpSpecResult),
        350 => Some(ParamKind::WholeC1G2WriteOpSpecResult),
        351 => Some(ParamKind::WholeC1G2KillOpSpecResult),
        352 => Some(ParamKind::WholeC1G2LockOpSpecResult),
        353 => Some(ParamKind::WholeC1G2BlockEraseOpSpecResult),
        354 => Some(ParamKind::WholeC1G2BlockWriteOpSpecResult),
        355 => Some(ParamKind::WholeLoopSpec),
        356 => Some(ParamKind::WholeSpecLoopEvent),
        357 => Some(ParamKind::WholeC1G2Recommission),
        358 => Some(ParamKind::WholeC1G2BlockPermalock),
        359 => Some(ParamKind::WholeC1G2GetBlockPermalockStatus),
        360 => Some(ParamKind::WholeC1G2RecommissionOpSpecResult),
        361 => Some(ParamKind::WholeC1G2BlockPermalockOpSpecResult),
        362 => Some(ParamKind::WholeC1G2GetBlockPermalockStatusOpSpecResult),
        363 => Some(ParamKind::WholeMaximumReceiveSensitivity),
        365 => Some(ParamKind::WholeRfSurveyFrequencyCapabilities),
        1023 => Some(ParamKind::WholeCustom),
        _ => None,
    }
}

/// The kind of a set with this number.
#[inline(always)]
pub fn param_of_tlv_in(set: KindSet, number: u16) -> Option<ParamKind>
    ensures { result ≡ tlv_in set number }
{
    match set {
        KindSet::Profile => param_of_tlv(number),
        KindSet::Standard => whole_param_of_tlv(number),
    }
}

/// The kind of the whole standard with this number.
#[inline(never)]
#[tactic(auto, unfolding(crate::specs::Schema::tv_in, crate::specs::Schema::whole_param_kinds, crate::specs::Schema::is_tv, crate::specs::Schema::number_of, crate::specs::Schema::rule_of, crate::specs::Schema::param_rule))]
fn whole_param_of_tv(number: u8) -> Option<ParamKind>
    ensures { result ≡ tv_in Standard number }
{
    match number {
        1 => Some(ParamKind::WholeAntennaId),
        2 => Some(ParamKind::WholeFirstSeenTimestampUtc),
        3 => Some(ParamKind::WholeFirstSeenTimestampUptime),
        4 => Some(ParamKind::WholeLastSeenTimestampUtc),
        5 => Some(ParamKind::WholeLastSeenTimestampUptime),
        6 => Some(ParamKind::WholePeakRssi),
        7 => Some(ParamKind::WholeChannelIndex),
        8 => Some(ParamKind::WholeTagSeenCount),
        9 => Some(ParamKind::WholeRoSpecId),
        10 => Some(ParamKind::WholeInventoryParameterSpecId),
        11 => Some(ParamKind::WholeC1G2Crc),
        12 => Some(ParamKind::WholeC1G2Pc),
        13 => Some(ParamKind::WholeEpc96),
        14 => Some(ParamKind::WholeSpecIndex),
        15 => Some(ParamKind::WholeClientRequestOpSpecResult),
        16 => Some(ParamKind::WholeAccessSpecId),
        17 => Some(ParamKind::WholeOpSpecID),
        18 => Some(ParamKind::WholeC1G2SingulationDetails),
        19 => Some(ParamKind::WholeC1g2xpcw1),
        20 => Some(ParamKind::WholeC1g2xpcw2),
        _ => None,
    }
}

/// The kind of a set with this number.
#[inline(always)]
pub fn param_of_tv_in(set: KindSet, number: u8) -> Option<ParamKind>
    ensures { result ≡ tv_in set number }
{
    match set {
        KindSet::Profile => param_of_tv(number),
        KindSet::Standard => whole_param_of_tv(number),
    }
}
