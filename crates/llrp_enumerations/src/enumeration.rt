//! The enumerations, and what the tables say of one.

/// The numbers of a field that have names. Fields of several kinds may have the same.
#[derive(Clone, Copy, Debug, PartialEq, Eq)]
pub enum Enumeration {
    AirProtocols,
    GetReaderCapabilitiesRequestedData,
    GetReaderConfigRequestedData,
    CommunicationsStandard,
    RoSpecState,
    RoSpecStartTriggerType,
    RoSpecStopTriggerType,
    AiSpecStopTriggerType,
    TagObservationTriggerType,
    RfSurveySpecStopTriggerType,
    AccessSpecState,
    AccessSpecStopTriggerType,
    IdentificationType,
    KeepaliveTriggerType,
    GpiPortState,
    RoReportTriggerType,
    AccessReportTriggerType,
    NotificationEventType,
    RoSpecEventType,
    RfSurveyEventType,
    AiSpecEventType,
    AntennaEventType,
    ConnectionAttemptStatusType,
    C1G2DrValue,
    C1G2MValue,
    C1G2ForwardLinkModulation,
    C1G2SpectralMaskIndicator,
    C1G2TruncateAction,
    C1G2StateAwareTarget,
    C1G2StateAwareAction,
    C1G2StateUnawareAction,
    C1G2TagInventoryStateAwareI,
    C1G2TagInventoryStateAwareS,
    C1G2LockPrivilege,
    C1G2LockDataField,
    C1G2ReadResultType,
    C1G2WriteResultType,
    C1G2KillResultType,
    C1G2LockResultType,
    C1G2BlockEraseResultType,
    C1G2BlockWriteResultType,
    StatusCode,
}

/// A number and its name.
pub(crate) struct Value {
    pub(crate) number: u128,
    pub(crate) name: &'static str,
}

/// A field by its name, and the names of its numbers.
pub(crate) struct EnumeratedField {
    pub(crate) name: &'static str,
    pub(crate) enumeration: Enumeration,
}
