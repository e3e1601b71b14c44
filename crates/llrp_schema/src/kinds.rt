//! Kinds of messages and parameters, and what a row of the tables says about one.

ghost use Rattle.std.specs.Prelude.{◌≡◌};

/// The kind of a message (LLRP 1.1, section 17.1).
#[derive(Clone, Copy, Debug, PartialEq, Eq)]
pub enum MsgKind {
    SetReaderConfig,
    CloseConnectionResponse,
    SetReaderConfigResponse,
    CloseConnection,
    AddRoSpec,
    DeleteRoSpec,
    StartRoSpec,
    StopRoSpec,
    EnableRoSpec,
    DisableRoSpec,
    GetRoSpecs,
    AddRoSpecResponse,
    DeleteRoSpecResponse,
    StartRoSpecResponse,
    StopRoSpecResponse,
    EnableRoSpecResponse,
    DisableRoSpecResponse,
    GetRoSpecsResponse,
    GetReport,
    RoAccessReport,
    Keepalive,
    ReaderEventNotification,
    EnableEventsAndReports,
    KeepaliveAck,
    ErrorMessage,
    WholeGetReaderCapabilities,
    WholeGetReaderConfig,
    WholeSetReaderConfig,
    WholeCloseConnectionResponse,
    WholeGetReaderCapabilitiesResponse,
    WholeGetReaderConfigResponse,
    WholeSetReaderConfigResponse,
    WholeCloseConnection,
    WholeAddRoSpec,
    WholeDeleteRoSpec,
    WholeStartRoSpec,
    WholeStopRoSpec,
    WholeEnableRoSpec,
    WholeDisableRoSpec,
    WholeGetRoSpecs,
    WholeAddRoSpecResponse,
    WholeDeleteRoSpecResponse,
    WholeStartRoSpecResponse,
    WholeStopRoSpecResponse,
    WholeEnableRoSpecResponse,
    WholeDisableRoSpecResponse,
    WholeGetRoSpecsResponse,
    WholeAddAccessSpec,
    WholeDeleteAccessSpec,
    WholeEnableAccessSpec,
    WholeDisableAccessSpec,
    WholeGetAccessSpecs,
    WholeClientRequestOp,
    WholeGetSupportedVersion,
    WholeSetProtocolVersion,
    WholeAddAccessSpecResponse,
    WholeDeleteAccessSpecResponse,
    WholeEnableAccessSpecResponse,
    WholeDisableAccessSpecResponse,
    WholeGetAccessSpecsResponse,
    WholeClientRequestOpResponse,
    WholeGetSupportedVersionResponse,
    WholeSetProtocolVersionResponse,
    WholeGetReport,
    WholeRoAccessReport,
    WholeKeepalive,
    WholeReaderEventNotification,
    WholeEnableEventsAndReports,
    WholeKeepaliveAck,
    WholeErrorMessage,
    WholeCustomMessage,
}

/// The kind of a parameter (LLRP 1.1, section 17.2).
#[derive(Clone, Copy, Debug, PartialEq, Eq)]
pub enum ParamKind {
    AntennaId,
    FirstSeenTimestampUtc,
    FirstSeenTimestampUptime,
    LastSeenTimestampUtc,
    LastSeenTimestampUptime,
    PeakRssi,
    ChannelIndex,
    TagSeenCount,
    RoSpecId,
    InventoryParameterSpecId,
    C1G2Crc,
    C1G2Pc,
    Epc96,
    SpecIndex,
    AccessSpecId,
    UtcTimestamp,
    Uptime,
    RoSpec,
    RoBoundarySpec,
    RoSpecStartTrigger,
    PeriodicTriggerValue,
    GpiTriggerValue,
    RoSpecStopTrigger,
    AiSpec,
    AiSpecStopTrigger,
    TagObservationTrigger,
    InventoryParameterSpec,
    KeepaliveSpec,
    AntennaConfiguration,
    RfReceiver,
    RfTransmitter,
    EventsAndReports,
    RoReportSpec,
    TagReportContentSelector,
    TagReportData,
    EpcData,
    ReaderEventNotificationSpec,
    EventNotificationState,
    ReaderEventNotificationData,
    GpiEvent,
    RoSpecEvent,
    ReportBufferLevelWarningEvent,
    ReportBufferOverflowErrorEvent,
    AiSpecEvent,
    AntennaEvent,
    ConnectionAttemptEvent,
    ConnectionCloseEvent,
    LlrpStatus,
    FieldError,
    ParameterError,
    C1G2InventoryCommand,
    C1G2RfControl,
    C1G2SingulationControl,
    C1G2EpcMemorySelector,
    WholeAntennaId,
    WholeFirstSeenTimestampUtc,
    WholeFirstSeenTimestampUptime,
    WholeLastSeenTimestampUtc,
    WholeLastSeenTimestampUptime,
    WholePeakRssi,
    WholeChannelIndex,
    WholeTagSeenCount,
    WholeRoSpecId,
    WholeInventoryParameterSpecId,
    WholeC1G2Crc,
    WholeC1G2Pc,
    WholeEpc96,
    WholeSpecIndex,
    WholeClientRequestOpSpecResult,
    WholeAccessSpecId,
    WholeOpSpecID,
    WholeC1G2SingulationDetails,
    WholeC1g2xpcw1,
    WholeC1g2xpcw2,
    WholeUtcTimestamp,
    WholeUptime,
    WholeGeneralDeviceCapabilities,
    WholeReceiveSensitivityTableEntry,
    WholePerAntennaAirProtocol,
    WholeGpioCapabilities,
    WholeLlrpCapabilities,
    WholeRegulatoryCapabilities,
    WholeUhfBandCapabilities,
    WholeTransmitPowerLevelTableEntry,
    WholeFrequencyInformation,
    WholeFrequencyHopTable,
    WholeFixedFrequencyTable,
    WholePerAntennaReceiveSensitivityRange,
    WholeRoSpec,
    WholeRoBoundarySpec,
    WholeRoSpecStartTrigger,
    WholePeriodicTriggerValue,
    WholeGpiTriggerValue,
    WholeRoSpecStopTrigger,
    WholeAiSpec,
    WholeAiSpecStopTrigger,
    WholeTagObservationTrigger,
    WholeInventoryParameterSpec,
    WholeRfSurveySpec,
    WholeRfSurveySpecStopTrigger,
    WholeAccessSpec,
    WholeAccessSpecStopTrigger,
    WholeAccessCommand,
    WholeClientRequestOpSpec,
    WholeClientRequestResponse,
    WholeLlrpConfigurationStateValue,
    WholeIdentification,
    WholeGpoWriteData,
    WholeKeepaliveSpec,
    WholeAntennaProperties,
    WholeAntennaConfiguration,
    WholeRfReceiver,
    WholeRfTransmitter,
    WholeGpiPortCurrentState,
    WholeEventsAndReports,
    WholeRoReportSpec,
    WholeTagReportContentSelector,
    WholeAccessReportSpec,
    WholeTagReportData,
    WholeEpcData,
    WholeRfSurveyReportData,
    WholeFrequencyRssiLevelEntry,
    WholeReaderEventNotificationSpec,
    WholeEventNotificationState,
    WholeReaderEventNotificationData,
    WholeHoppingEvent,
    WholeGpiEvent,
    WholeRoSpecEvent,
    WholeReportBufferLevelWarningEvent,
    WholeReportBufferOverflowErrorEvent,
    WholeReaderExceptionEvent,
    WholeRfSurveyEvent,
    WholeAiSpecEvent,
    WholeAntennaEvent,
    WholeConnectionAttemptEvent,
    WholeConnectionCloseEvent,
    WholeLlrpStatus,
    WholeFieldError,
    WholeParameterError,
    WholeC1G2LlrpCapabilities,
    WholeC1G2UhfRfModeTable,
    WholeC1G2UhfRfModeTableEntry,
    WholeC1G2InventoryCommand,
    WholeC1G2Filter,
    WholeC1G2TagInventoryMask,
    WholeC1G2TagInventoryStateAwareFilterAction,
    WholeC1G2TagInventoryStateUnawareFilterAction,
    WholeC1G2RfControl,
    WholeC1G2SingulationControl,
    WholeC1G2TagInventoryStateAwareSingulationAction,
    WholeC1G2TagSpec,
    WholeC1G2TargetTag,
    WholeC1G2Read,
    WholeC1G2Write,
    WholeC1G2Kill,
    WholeC1G2Lock,
    WholeC1G2LockPayload,
    WholeC1G2BlockErase,
    WholeC1G2BlockWrite,
    WholeC1G2EpcMemorySelector,
    WholeC1G2ReadOpSpecResult,
    WholeC1G2WriteOpSpecResult,
    WholeC1G2KillOpSpecResult,
    WholeC1G2LockOpSpecResult,
    WholeC1G2BlockEraseOpSpecResult,
    WholeC1G2BlockWriteOpSpecResult,
    WholeLoopSpec,
    WholeSpecLoopEvent,
    WholeC1G2Recommission,
    WholeC1G2BlockPermalock,
    WholeC1G2GetBlockPermalockStatus,
    WholeC1G2RecommissionOpSpecResult,
    WholeC1G2BlockPermalockOpSpecResult,
    WholeC1G2GetBlockPermalockStatusOpSpecResult,
    WholeMaximumReceiveSensitivity,
    WholeRfSurveyFrequencyCapabilities,
    WholeCustom,
}

/// The kind of a message or of a parameter.
#[derive(Clone, Copy, Debug, PartialEq, Eq)]
pub enum Kind {
    Message(MsgKind),
    Parameter(ParamKind),
}

impl From<MsgKind> for Kind {
    ghost use Rattle.llrp_schema.specs.declared.kinds.Kind.TheVariants.{Message};

    ghost from_gives = { λ message kind. kind ≡ Message message };

    fn from(kind: MsgKind) -> Kind {
        Kind::Message(kind)
    }
}

impl From<ParamKind> for Kind {
    ghost use Rattle.llrp_schema.specs.declared.kinds.Kind.TheVariants.{Parameter};

    ghost from_gives = { λ parameter kind. kind ≡ Parameter parameter };

    fn from(kind: ParamKind) -> Kind {
        Kind::Parameter(kind)
    }
}

/// Which messages and parameters there are.
#[derive(Clone, Copy, Debug, PartialEq, Eq)]
pub enum KindSet {
    /// Those of an inventory with tag reports.
    Profile,
    /// All of LLRP 1.1.
    Standard,
}

/// What a kind has between its fields and its children.
#[derive(Clone, Copy, Debug, PartialEq, Eq)]
pub enum Tail {
    /// Nothing.
    Absent,
    /// A count of 16 bits, and this many words of 16 bits.
    Words,
    /// A count of 16 bits, and this many octets of UTF-8.
    Text,
    /// As many bits as the only field says, filled up to whole octets.
    Bits,
    /// All octets up to the end of the parameter, which has no children.
    Data,
}

/// A field of a kind.
#[derive(Clone, Copy, Debug)]
pub struct Field {
    pub name: &'static str,
    /// In bits.
    pub width: u32,
    /// Whether it is reserved, and so has to be zero.
    pub reserved: bool,
    /// The greatest lawful value; the least is 0.
    pub greatest: u128,
    /// Whether its bits are a number in two's complement.
    pub signed: bool,
}

/// Kinds of children that are counted together.
#[derive(Clone, Copy, Debug)]
pub struct Group {
    pub members: &'static [ParamKind],
    /// How many such children a parent has at least.
    pub least: u32,
    /// How many it has at most, if there is a bound.
    pub most: Option<u32>,
}

/// The place of a child among the groups of its parent.
#[derive(Clone, Copy, Debug, PartialEq, Eq)]
pub struct Place {
    /// The index of the group in which the child is counted, from 0 on.
    pub index: u8,
    /// Whether that group takes at most one child; otherwise it takes any number.
    pub once: bool,
}

/// The name of a kind at the front of 48 octets, so that a fixed number of octets can be copied.
#[derive(Clone, Copy, Debug)]
pub struct Label {
    pub text: [u8; 48],
    /// How many octets of the text belong to the name.
    pub octets: u8,
}

/// A row of the tables: everything that they say about a kind.
#[derive(Clone, Copy, Debug)]
pub(crate) struct Definition {
    pub(crate) set: KindSet,
    pub(crate) number: u16,
    pub(crate) name: &'static str,
    pub(crate) fields: &'static [Field],
    pub(crate) tail: Tail,
    pub(crate) groups: &'static [Group],
}
