//! The rows of the parameters with type, length and value (LLRP 1.1, section 17.2).

use crate::kinds::{Definition, Field, Group, KindSet, ParamKind, Tail};
use crate::row_macros::{any_number, at_most_one, field, one, one_or_more, reserved};

pub(crate) static UTC_TIMESTAMP: Definition = Definition {
    set: KindSet::Profile,
    number: 128,
    name: "UTCTimestamp",
    fields: &[field!("Microseconds", 64)],
    tail: Tail::Absent,
    groups: &[],
};

pub(crate) static UPTIME: Definition = Definition {
    set: KindSet::Profile,
    number: 129,
    name: "Uptime",
    fields: &[field!("Microseconds", 64)],
    tail: Tail::Absent,
    groups: &[],
};

pub(crate) static RO_SPEC: Definition = Definition {
    set: KindSet::Profile,
    number: 177,
    name: "ROSpec",
    fields: &[
        field!("ROSpecID", 32),
        field!("Priority", 8, 7),
        field!("CurrentState", 8, 2),
    ],
    tail: Tail::Absent,
    groups: &[
        one!(RoBoundarySpec),
        one_or_more!(AiSpec),
        at_most_one!(RoReportSpec),
    ],
};

pub(crate) static RO_BOUNDARY_SPEC: Definition = Definition {
    set: KindSet::Profile,
    number: 178,
    name: "ROBoundarySpec",
    fields: &[],
    tail: Tail::Absent,
    groups: &[one!(RoSpecStartTrigger), one!(RoSpecStopTrigger)],
};

pub(crate) static RO_SPEC_START_TRIGGER: Definition = Definition {
    set: KindSet::Profile,
    number: 179,
    name: "ROSpecStartTrigger",
    fields: &[field!("Type", 8, 3)],
    tail: Tail::Absent,
    groups: &[
        at_most_one!(PeriodicTriggerValue),
        at_most_one!(GpiTriggerValue),
    ],
};

pub(crate) static PERIODIC_TRIGGER_VALUE: Definition = Definition {
    set: KindSet::Profile,
    number: 180,
    name: "PeriodicTriggerValue",
    fields: &[field!("Offset", 32), field!("Period", 32)],
    tail: Tail::Absent,
    groups: &[at_most_one!(UtcTimestamp)],
};

pub(crate) static GPI_TRIGGER_VALUE: Definition = Definition {
    set: KindSet::Profile,
    number: 181,
    name: "GPITriggerValue",
    fields: &[
        field!("Port", 16),
        field!("Event", 1),
        reserved!(7),
        field!("Timeout", 32),
    ],
    tail: Tail::Absent,
    groups: &[],
};

pub(crate) static RO_SPEC_STOP_TRIGGER: Definition = Definition {
    set: KindSet::Profile,
    number: 182,
    name: "ROSpecStopTrigger",
    fields: &[field!("Type", 8, 2), field!("Duration", 32)],
    tail: Tail::Absent,
    groups: &[at_most_one!(GpiTriggerValue)],
};

pub(crate) static AI_SPEC: Definition = Definition {
    set: KindSet::Profile,
    number: 183,
    name: "AISpec",
    fields: &[],
    tail: Tail::Words,
    groups: &[
        one!(AiSpecStopTrigger),
        one_or_more!(InventoryParameterSpec),
    ],
};

pub(crate) static AI_SPEC_STOP_TRIGGER: Definition = Definition {
    set: KindSet::Profile,
    number: 184,
    name: "AISpecStopTrigger",
    fields: &[field!("Type", 8, 3), field!("Duration", 32)],
    tail: Tail::Absent,
    groups: &[
        at_most_one!(GpiTriggerValue),
        at_most_one!(TagObservationTrigger),
    ],
};

pub(crate) static TAG_OBSERVATION_TRIGGER: Definition = Definition {
    set: KindSet::Profile,
    number: 185,
    name: "TagObservationTrigger",
    fields: &[
        field!("Type", 8),
        reserved!(8),
        field!("NumberOfTags", 16),
        field!("NumberOfAttempts", 16),
        field!("T", 16),
        field!("Timeout", 32),
    ],
    tail: Tail::Absent,
    groups: &[],
};

pub(crate) static INVENTORY_PARAMETER_SPEC: Definition = Definition {
    set: KindSet::Profile,
    number: 186,
    name: "InventoryParameterSpec",
    fields: &[field!("ID", 16), field!("ProtocolID", 8)],
    tail: Tail::Absent,
    groups: &[any_number!(AntennaConfiguration)],
};

pub(crate) static KEEPALIVE_SPEC: Definition = Definition {
    set: KindSet::Profile,
    number: 220,
    name: "KeepaliveSpec",
    fields: &[field!("Type", 8, 1), field!("Period", 32)],
    tail: Tail::Absent,
    groups: &[],
};

pub(crate) static ANTENNA_CONFIGURATION: Definition = Definition {
    set: KindSet::Profile,
    number: 222,
    name: "AntennaConfiguration",
    fields: &[field!("AntennaID", 16)],
    tail: Tail::Absent,
    groups: &[
        at_most_one!(RfReceiver),
        at_most_one!(RfTransmitter),
        any_number!(C1G2InventoryCommand),
    ],
};

pub(crate) static RF_RECEIVER: Definition = Definition {
    set: KindSet::Profile,
    number: 223,
    name: "RFReceiver",
    fields: &[field!("Sensitivity", 16)],
    tail: Tail::Absent,
    groups: &[],
};

pub(crate) static RF_TRANSMITTER: Definition = Definition {
    set: KindSet::Profile,
    number: 224,
    name: "RFTransmitter",
    fields: &[
        field!("HopTableID", 16),
        field!("ChannelIndex", 16),
        field!("Power", 16),
    ],
    tail: Tail::Absent,
    groups: &[],
};

pub(crate) static EVENTS_AND_REPORTS: Definition = Definition {
    set: KindSet::Profile,
    number: 226,
    name: "EventsAndReports",
    fields: &[field!("Hold", 1), reserved!(7)],
    tail: Tail::Absent,
    groups: &[],
};

pub(crate) static RO_REPORT_SPEC: Definition = Definition {
    set: KindSet::Profile,
    number: 237,
    name: "ROReportSpec",
    fields: &[field!("Trigger", 8), field!("N", 16)],
    tail: Tail::Absent,
    groups: &[one!(TagReportContentSelector)],
};

pub(crate) static TAG_REPORT_CONTENT_SELECTOR: Definition = Definition {
    set: KindSet::Profile,
    number: 238,
    name: "TagReportContentSelector",
    fields: &[
        field!("ROSpecID", 1),
        field!("SpecIndex", 1),
        field!("InventoryParameterSpecID", 1),
        field!("AntennaID", 1),
        field!("ChannelIndex", 1),
        field!("PeakRSSI", 1),
        field!("FirstSeen", 1),
        field!("LastSeen", 1),
        field!("TagSeenCount", 1),
        field!("AccessSpecID", 1),
        reserved!(6),
    ],
    tail: Tail::Absent,
    groups: &[any_number!(C1G2EpcMemorySelector)],
};

pub(crate) static TAG_REPORT_DATA: Definition = Definition {
    set: KindSet::Profile,
    number: 240,
    name: "TagReportData",
    fields: &[],
    tail: Tail::Absent,
    groups: &[
        one!(Epc96, EpcData),
        at_most_one!(AntennaId),
        at_most_one!(FirstSeenTimestampUtc),
        at_most_one!(FirstSeenTimestampUptime),
        at_most_one!(LastSeenTimestampUtc),
        at_most_one!(LastSeenTimestampUptime),
        at_most_one!(PeakRssi),
        at_most_one!(ChannelIndex),
        at_most_one!(TagSeenCount),
        at_most_one!(RoSpecId),
        at_most_one!(InventoryParameterSpecId),
        at_most_one!(SpecIndex),
        at_most_one!(AccessSpecId),
        any_number!(C1G2Crc),
        any_number!(C1G2Pc),
    ],
};

pub(crate) static EPC_DATA: Definition = Definition {
    set: KindSet::Profile,
    number: 241,
    name: "EPCData",
    fields: &[field!("BitCount", 16)],
    tail: Tail::Bits,
    groups: &[],
};

pub(crate) static READER_EVENT_NOTIFICATION_SPEC: Definition = Definition {
    set: KindSet::Profile,
    number: 244,
    name: "ReaderEventNotificationSpec",
    fields: &[],
    tail: Tail::Absent,
    groups: &[one_or_more!(EventNotificationState)],
};

pub(crate) static EVENT_NOTIFICATION_STATE: Definition = Definition {
    set: KindSet::Profile,
    number: 245,
    name: "EventNotificationState",
    fields: &[field!("EventType", 16), field!("State", 1), reserved!(7)],
    tail: Tail::Absent,
    groups: &[],
};

pub(crate) static READER_EVENT_NOTIFICATION_DATA: Definition = Definition {
    set: KindSet::Profile,
    number: 246,
    name: "ReaderEventNotificationData",
    fields: &[],
    tail: Tail::Absent,
    groups: &[
        one!(UtcTimestamp, Uptime),
        at_most_one!(GpiEvent),
        at_most_one!(RoSpecEvent),
        at_most_one!(ReportBufferLevelWarningEvent),
        at_most_one!(ReportBufferOverflowErrorEvent),
        at_most_one!(AiSpecEvent),
        at_most_one!(AntennaEvent),
        at_most_one!(ConnectionAttemptEvent),
        at_most_one!(ConnectionCloseEvent),
    ],
};

pub(crate) static GPI_EVENT: Definition = Definition {
    set: KindSet::Profile,
    number: 248,
    name: "GPIEvent",
    fields: &[field!("Port", 16), field!("Event", 1), reserved!(7)],
    tail: Tail::Absent,
    groups: &[],
};

pub(crate) static RO_SPEC_EVENT: Definition = Definition {
    set: KindSet::Profile,
    number: 249,
    name: "ROSpecEvent",
    fields: &[
        field!("Type", 8, 2),
        field!("ROSpecID", 32),
        field!("PreemptingROSpecID", 32),
    ],
    tail: Tail::Absent,
    groups: &[],
};

pub(crate) static REPORT_BUFFER_LEVEL_WARNING_EVENT: Definition = Definition {
    set: KindSet::Profile,
    number: 250,
    name: "ReportBufferLevelWarningEvent",
    fields: &[field!("Percent", 8)],
    tail: Tail::Absent,
    groups: &[],
};

pub(crate) static REPORT_BUFFER_OVERFLOW_ERROR_EVENT: Definition = Definition {
    set: KindSet::Profile,
    number: 251,
    name: "ReportBufferOverflowErrorEvent",
    fields: &[],
    tail: Tail::Absent,
    groups: &[],
};

pub(crate) static AI_SPEC_EVENT: Definition = Definition {
    set: KindSet::Profile,
    number: 254,
    name: "AISpecEvent",
    fields: &[
        field!("Type", 8),
        field!("ROSpecID", 32),
        field!("SpecIndex", 16),
    ],
    tail: Tail::Absent,
    groups: &[],
};

pub(crate) static ANTENNA_EVENT: Definition = Definition {
    set: KindSet::Profile,
    number: 255,
    name: "AntennaEvent",
    fields: &[field!("Type", 8), field!("AntennaID", 16)],
    tail: Tail::Absent,
    groups: &[],
};

pub(crate) static CONNECTION_ATTEMPT_EVENT: Definition = Definition {
    set: KindSet::Profile,
    number: 256,
    name: "ConnectionAttemptEvent",
    fields: &[field!("Status", 16, 4)],
    tail: Tail::Absent,
    groups: &[],
};

pub(crate) static CONNECTION_CLOSE_EVENT: Definition = Definition {
    set: KindSet::Profile,
    number: 257,
    name: "ConnectionCloseEvent",
    fields: &[],
    tail: Tail::Absent,
    groups: &[],
};

pub(crate) static LLRP_STATUS: Definition = Definition {
    set: KindSet::Profile,
    number: 287,
    name: "LLRPStatus",
    fields: &[field!("StatusCode", 16)],
    tail: Tail::Text,
    groups: &[at_most_one!(FieldError), at_most_one!(ParameterError)],
};

pub(crate) static FIELD_ERROR: Definition = Definition {
    set: KindSet::Profile,
    number: 288,
    name: "FieldError",
    fields: &[field!("FieldNumber", 16), field!("ErrorCode", 16)],
    tail: Tail::Absent,
    groups: &[],
};

pub(crate) static PARAMETER_ERROR: Definition = Definition {
    set: KindSet::Profile,
    number: 289,
    name: "ParameterError",
    fields: &[field!("ParameterType", 16), field!("ErrorCode", 16)],
    tail: Tail::Absent,
    groups: &[at_most_one!(FieldError), at_most_one!(ParameterError)],
};

pub(crate) static C1G2_INVENTORY_COMMAND: Definition = Definition {
    set: KindSet::Profile,
    number: 330,
    name: "C1G2InventoryCommand",
    fields: &[field!("StateAware", 1), reserved!(7)],
    tail: Tail::Absent,
    groups: &[
        at_most_one!(C1G2RfControl),
        at_most_one!(C1G2SingulationControl),
    ],
};

pub(crate) static C1G2_RF_CONTROL: Definition = Definition {
    set: KindSet::Profile,
    number: 335,
    name: "C1G2RFControl",
    fields: &[field!("ModeIndex", 16), field!("Tari", 16)],
    tail: Tail::Absent,
    groups: &[],
};

pub(crate) static C1G2_SINGULATION_CONTROL: Definition = Definition {
    set: KindSet::Profile,
    number: 336,
    name: "C1G2SingulationControl",
    fields: &[
        field!("Session", 2),
        reserved!(6),
        field!("Population", 16),
        field!("TransitTime", 32),
    ],
    tail: Tail::Absent,
    groups: &[],
};

pub(crate) static C1G2_EPC_MEMORY_SELECTOR: Definition = Definition {
    set: KindSet::Profile,
    number: 348,
    name: "C1G2EPCMemorySelector",
    fields: &[field!("Selector", 8)],
    tail: Tail::Absent,
    groups: &[],
};
