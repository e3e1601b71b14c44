//! The rows of the parameters of the whole standard on reports, events and errors (LLRP 1.1, section 17.2).

use crate::kinds::{Definition, Field, Group, KindSet, ParamKind, Tail};
use crate::row_macros::{
    any_number, any_of, at_most_one, field, one, one_or_more, reserved, signed,
};

pub static RO_REPORT_SPEC: Definition = Definition {
    set: KindSet::Standard,
    number: 237,
    name: "ROReportSpec",
    fields: &[field!("ROReportTrigger", 8), field!("N", 16)],
    tail: Tail::Absent,
    groups: &[
        one!(WholeTagReportContentSelector),
        any_number!(WholeCustom),
    ],
};

pub static TAG_REPORT_CONTENT_SELECTOR: Definition = Definition {
    set: KindSet::Standard,
    number: 238,
    name: "TagReportContentSelector",
    fields: &[
        field!("EnableROSpecID", 1),
        field!("EnableSpecIndex", 1),
        field!("EnableInventoryParameterSpecID", 1),
        field!("EnableAntennaID", 1),
        field!("EnableChannelIndex", 1),
        field!("EnablePeakRSSI", 1),
        field!("EnableFirstSeenTimestamp", 1),
        field!("EnableLastSeenTimestamp", 1),
        field!("EnableTagSeenCount", 1),
        field!("EnableAccessSpecID", 1),
        reserved!(6),
    ],
    tail: Tail::Absent,
    groups: &[any_number!(WholeC1G2EpcMemorySelector)],
};

pub static ACCESS_REPORT_SPEC: Definition = Definition {
    set: KindSet::Standard,
    number: 239,
    name: "AccessReportSpec",
    fields: &[field!("AccessReportTrigger", 8, 1)],
    tail: Tail::Absent,
    groups: &[],
};

pub static TAG_REPORT_DATA: Definition = Definition {
    set: KindSet::Standard,
    number: 240,
    name: "TagReportData",
    fields: &[],
    tail: Tail::Absent,
    groups: &[
        one!(WholeEpcData, WholeEpc96),
        at_most_one!(WholeAntennaId),
        at_most_one!(WholeFirstSeenTimestampUtc),
        at_most_one!(WholeFirstSeenTimestampUptime),
        at_most_one!(WholeLastSeenTimestampUtc),
        at_most_one!(WholeLastSeenTimestampUptime),
        at_most_one!(WholePeakRssi),
        at_most_one!(WholeChannelIndex),
        at_most_one!(WholeTagSeenCount),
        at_most_one!(WholeRoSpecId),
        at_most_one!(WholeInventoryParameterSpecId),
        at_most_one!(WholeSpecIndex),
        at_most_one!(WholeAccessSpecId),
        any_number!(WholeC1G2Crc),
        any_number!(WholeC1G2Pc),
        any_of!(WholeC1g2xpcw1, WholeC1g2xpcw2),
        any_of!(
            WholeC1G2ReadOpSpecResult,
            WholeC1G2WriteOpSpecResult,
            WholeC1G2KillOpSpecResult,
            WholeC1G2LockOpSpecResult,
            WholeC1G2BlockEraseOpSpecResult,
            WholeC1G2BlockWriteOpSpecResult,
            WholeC1G2RecommissionOpSpecResult,
            WholeC1G2BlockPermalockOpSpecResult,
            WholeC1G2GetBlockPermalockStatusOpSpecResult,
            WholeClientRequestOpSpecResult
        ),
        any_number!(WholeCustom),
    ],
};

pub static EPC_DATA: Definition = Definition {
    set: KindSet::Standard,
    number: 241,
    name: "EPCData",
    fields: &[field!("BitCount", 16)],
    tail: Tail::Bits,
    groups: &[],
};

pub static RF_SURVEY_REPORT_DATA: Definition = Definition {
    set: KindSet::Standard,
    number: 242,
    name: "RFSurveyReportData",
    fields: &[],
    tail: Tail::Absent,
    groups: &[
        at_most_one!(WholeRoSpecId),
        at_most_one!(WholeSpecIndex),
        one_or_more!(WholeFrequencyRssiLevelEntry),
        any_number!(WholeCustom),
    ],
};

pub static FREQUENCY_RSSI_LEVEL_ENTRY: Definition = Definition {
    set: KindSet::Standard,
    number: 243,
    name: "FrequencyRSSILevelEntry",
    fields: &[
        field!("Frequency", 32),
        field!("Bandwidth", 32),
        signed!("AverageRSSI", 8),
        signed!("PeakRSSI", 8),
    ],
    tail: Tail::Absent,
    groups: &[one!(WholeUtcTimestamp, WholeUptime)],
};

pub static READER_EVENT_NOTIFICATION_SPEC: Definition = Definition {
    set: KindSet::Standard,
    number: 244,
    name: "ReaderEventNotificationSpec",
    fields: &[],
    tail: Tail::Absent,
    groups: &[one_or_more!(WholeEventNotificationState)],
};

pub static EVENT_NOTIFICATION_STATE: Definition = Definition {
    set: KindSet::Standard,
    number: 245,
    name: "EventNotificationState",
    fields: &[
        field!("EventType", 16),
        field!("NotificationState", 1),
        reserved!(7),
    ],
    tail: Tail::Absent,
    groups: &[],
};

pub static READER_EVENT_NOTIFICATION_DATA: Definition = Definition {
    set: KindSet::Standard,
    number: 246,
    name: "ReaderEventNotificationData",
    fields: &[],
    tail: Tail::Absent,
    groups: &[
        one!(WholeUtcTimestamp, WholeUptime),
        at_most_one!(WholeGpiEvent),
        at_most_one!(WholeRoSpecEvent),
        at_most_one!(WholeReportBufferLevelWarningEvent),
        at_most_one!(WholeReportBufferOverflowErrorEvent),
        at_most_one!(WholeAiSpecEvent),
        at_most_one!(WholeAntennaEvent),
        at_most_one!(WholeConnectionAttemptEvent),
        at_most_one!(WholeConnectionCloseEvent),
        at_most_one!(WholeHoppingEvent),
        at_most_one!(WholeReaderExceptionEvent),
        at_most_one!(WholeRfSurveyEvent),
        at_most_one!(WholeSpecLoopEvent),
        any_number!(WholeCustom),
    ],
};

pub static HOPPING_EVENT: Definition = Definition {
    set: KindSet::Standard,
    number: 247,
    name: "HoppingEvent",
    fields: &[field!("HopTableID", 16), field!("NextChannelIndex", 16)],
    tail: Tail::Absent,
    groups: &[],
};

pub static GPI_EVENT: Definition = Definition {
    set: KindSet::Standard,
    number: 248,
    name: "GPIEvent",
    fields: &[
        field!("GPIPortNumber", 16),
        field!("GPIEvent", 1),
        reserved!(7),
    ],
    tail: Tail::Absent,
    groups: &[],
};

pub static RO_SPEC_EVENT: Definition = Definition {
    set: KindSet::Standard,
    number: 249,
    name: "ROSpecEvent",
    fields: &[
        field!("EventType", 8, 2),
        field!("ROSpecID", 32),
        field!("PreemptingROSpecID", 32),
    ],
    tail: Tail::Absent,
    groups: &[],
};

pub static REPORT_BUFFER_LEVEL_WARNING_EVENT: Definition = Definition {
    set: KindSet::Standard,
    number: 250,
    name: "ReportBufferLevelWarningEvent",
    fields: &[field!("ReportBufferPercentageFull", 8)],
    tail: Tail::Absent,
    groups: &[],
};

pub static REPORT_BUFFER_OVERFLOW_ERROR_EVENT: Definition = Definition {
    set: KindSet::Standard,
    number: 251,
    name: "ReportBufferOverflowErrorEvent",
    fields: &[],
    tail: Tail::Absent,
    groups: &[],
};

pub static READER_EXCEPTION_EVENT: Definition = Definition {
    set: KindSet::Standard,
    number: 252,
    name: "ReaderExceptionEvent",
    fields: &[],
    tail: Tail::Text,
    groups: &[
        at_most_one!(WholeRoSpecId),
        at_most_one!(WholeSpecIndex),
        at_most_one!(WholeInventoryParameterSpecId),
        at_most_one!(WholeAntennaId),
        at_most_one!(WholeAccessSpecId),
        at_most_one!(WholeOpSpecID),
        any_number!(WholeCustom),
    ],
};

pub static RF_SURVEY_EVENT: Definition = Definition {
    set: KindSet::Standard,
    number: 253,
    name: "RFSurveyEvent",
    fields: &[
        field!("EventType", 8, 1),
        field!("ROSpecID", 32),
        field!("SpecIndex", 16),
    ],
    tail: Tail::Absent,
    groups: &[],
};

pub static AI_SPEC_EVENT: Definition = Definition {
    set: KindSet::Standard,
    number: 254,
    name: "AISpecEvent",
    fields: &[
        field!("EventType", 8),
        field!("ROSpecID", 32),
        field!("SpecIndex", 16),
    ],
    tail: Tail::Absent,
    groups: &[at_most_one!(WholeC1G2SingulationDetails)],
};

pub static ANTENNA_EVENT: Definition = Definition {
    set: KindSet::Standard,
    number: 255,
    name: "AntennaEvent",
    fields: &[field!("EventType", 8), field!("AntennaID", 16)],
    tail: Tail::Absent,
    groups: &[],
};

pub static CONNECTION_ATTEMPT_EVENT: Definition = Definition {
    set: KindSet::Standard,
    number: 256,
    name: "ConnectionAttemptEvent",
    fields: &[field!("Status", 16, 4)],
    tail: Tail::Absent,
    groups: &[],
};

pub static CONNECTION_CLOSE_EVENT: Definition = Definition {
    set: KindSet::Standard,
    number: 257,
    name: "ConnectionCloseEvent",
    fields: &[],
    tail: Tail::Absent,
    groups: &[],
};

pub static LLRP_STATUS: Definition = Definition {
    set: KindSet::Standard,
    number: 287,
    name: "LLRPStatus",
    fields: &[field!("StatusCode", 16)],
    tail: Tail::Text,
    groups: &[
        at_most_one!(WholeFieldError),
        at_most_one!(WholeParameterError),
    ],
};

pub static FIELD_ERROR: Definition = Definition {
    set: KindSet::Standard,
    number: 288,
    name: "FieldError",
    fields: &[field!("FieldNum", 16), field!("ErrorCode", 16)],
    tail: Tail::Absent,
    groups: &[],
};

pub static PARAMETER_ERROR: Definition = Definition {
    set: KindSet::Standard,
    number: 289,
    name: "ParameterError",
    fields: &[field!("ParameterType", 16), field!("ErrorCode", 16)],
    tail: Tail::Absent,
    groups: &[
        at_most_one!(WholeFieldError),
        at_most_one!(WholeParameterError),
    ],
};
