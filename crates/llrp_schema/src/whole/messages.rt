//! The rows of the messages of the whole standard (LLRP 1.1, section 17.1).

use crate::kinds::{Definition, Field, Group, KindSet, ParamKind, Tail};
use crate::row_macros::{any_number, at_most_one, field, one, reserved};

pub static GET_READER_CAPABILITIES: Definition = Definition {
    set: KindSet::Standard,
    number: 1,
    name: "GET_READER_CAPABILITIES",
    fields: &[field!("RequestedData", 8, 4)],
    tail: Tail::Absent,
    groups: &[any_number!(WholeCustom)],
};

pub static GET_READER_CONFIG: Definition = Definition {
    set: KindSet::Standard,
    number: 2,
    name: "GET_READER_CONFIG",
    fields: &[
        field!("AntennaID", 16),
        field!("RequestedData", 8, 11),
        field!("GPIPortNum", 16),
        field!("GPOPortNum", 16),
    ],
    tail: Tail::Absent,
    groups: &[any_number!(WholeCustom)],
};

pub static SET_READER_CONFIG: Definition = Definition {
    set: KindSet::Standard,
    number: 3,
    name: "SET_READER_CONFIG",
    fields: &[field!("ResetToFactoryDefault", 1), reserved!(7)],
    tail: Tail::Absent,
    groups: &[
        at_most_one!(WholeKeepaliveSpec),
        at_most_one!(WholeEventsAndReports),
        at_most_one!(WholeRoReportSpec),
        at_most_one!(WholeReaderEventNotificationSpec),
        any_number!(WholeAntennaConfiguration),
        any_number!(WholeAntennaProperties),
        at_most_one!(WholeAccessReportSpec),
        any_number!(WholeGpoWriteData),
        any_number!(WholeGpiPortCurrentState),
        any_number!(WholeCustom),
    ],
};

pub static CLOSE_CONNECTION_RESPONSE: Definition = Definition {
    set: KindSet::Standard,
    number: 4,
    name: "CLOSE_CONNECTION_RESPONSE",
    fields: &[],
    tail: Tail::Absent,
    groups: &[one!(WholeLlrpStatus)],
};

pub static GET_READER_CAPABILITIES_RESPONSE: Definition = Definition {
    set: KindSet::Standard,
    number: 11,
    name: "GET_READER_CAPABILITIES_RESPONSE",
    fields: &[],
    tail: Tail::Absent,
    groups: &[
        one!(WholeLlrpStatus),
        at_most_one!(WholeGeneralDeviceCapabilities),
        at_most_one!(WholeLlrpCapabilities),
        at_most_one!(WholeRegulatoryCapabilities),
        at_most_one!(WholeC1G2LlrpCapabilities),
        any_number!(WholeCustom),
    ],
};

pub static GET_READER_CONFIG_RESPONSE: Definition = Definition {
    set: KindSet::Standard,
    number: 12,
    name: "GET_READER_CONFIG_RESPONSE",
    fields: &[],
    tail: Tail::Absent,
    groups: &[
        one!(WholeLlrpStatus),
        at_most_one!(WholeIdentification),
        any_number!(WholeAntennaProperties),
        any_number!(WholeAntennaConfiguration),
        at_most_one!(WholeReaderEventNotificationSpec),
        at_most_one!(WholeRoReportSpec),
        at_most_one!(WholeAccessReportSpec),
        at_most_one!(WholeLlrpConfigurationStateValue),
        at_most_one!(WholeKeepaliveSpec),
        any_number!(WholeGpiPortCurrentState),
        any_number!(WholeGpoWriteData),
        at_most_one!(WholeEventsAndReports),
        any_number!(WholeCustom),
    ],
};

pub static SET_READER_CONFIG_RESPONSE: Definition = Definition {
    set: KindSet::Standard,
    number: 13,
    name: "SET_READER_CONFIG_RESPONSE",
    fields: &[],
    tail: Tail::Absent,
    groups: &[one!(WholeLlrpStatus)],
};

pub static CLOSE_CONNECTION: Definition = Definition {
    set: KindSet::Standard,
    number: 14,
    name: "CLOSE_CONNECTION",
    fields: &[],
    tail: Tail::Absent,
    groups: &[],
};

pub static ADD_RO_SPEC: Definition = Definition {
    set: KindSet::Standard,
    number: 20,
    name: "ADD_ROSPEC",
    fields: &[],
    tail: Tail::Absent,
    groups: &[one!(WholeRoSpec)],
};

pub static DELETE_RO_SPEC: Definition = Definition {
    set: KindSet::Standard,
    number: 21,
    name: "DELETE_ROSPEC",
    fields: &[field!("ROSpecID", 32)],
    tail: Tail::Absent,
    groups: &[],
};

pub static START_RO_SPEC: Definition = Definition {
    set: KindSet::Standard,
    number: 22,
    name: "START_ROSPEC",
    fields: &[field!("ROSpecID", 32)],
    tail: Tail::Absent,
    groups: &[],
};

pub static STOP_RO_SPEC: Definition = Definition {
    set: KindSet::Standard,
    number: 23,
    name: "STOP_ROSPEC",
    fields: &[field!("ROSpecID", 32)],
    tail: Tail::Absent,
    groups: &[],
};

pub static ENABLE_RO_SPEC: Definition = Definition {
    set: KindSet::Standard,
    number: 24,
    name: "ENABLE_ROSPEC",
    fields: &[field!("ROSpecID", 32)],
    tail: Tail::Absent,
    groups: &[],
};

pub static DISABLE_RO_SPEC: Definition = Definition {
    set: KindSet::Standard,
    number: 25,
    name: "DISABLE_ROSPEC",
    fields: &[field!("ROSpecID", 32)],
    tail: Tail::Absent,
    groups: &[],
};

pub static GET_RO_SPECS: Definition = Definition {
    set: KindSet::Standard,
    number: 26,
    name: "GET_ROSPECS",
    fields: &[],
    tail: Tail::Absent,
    groups: &[],
};

pub static ADD_RO_SPEC_RESPONSE: Definition = Definition {
    set: KindSet::Standard,
    number: 30,
    name: "ADD_ROSPEC_RESPONSE",
    fields: &[],
    tail: Tail::Absent,
    groups: &[one!(WholeLlrpStatus)],
};

pub static DELETE_RO_SPEC_RESPONSE: Definition = Definition {
    set: KindSet::Standard,
    number: 31,
    name: "DELETE_ROSPEC_RESPONSE",
    fields: &[],
    tail: Tail::Absent,
    groups: &[one!(WholeLlrpStatus)],
};

pub static START_RO_SPEC_RESPONSE: Definition = Definition {
    set: KindSet::Standard,
    number: 32,
    name: "START_ROSPEC_RESPONSE",
    fields: &[],
    tail: Tail::Absent,
    groups: &[one!(WholeLlrpStatus)],
};

pub static STOP_RO_SPEC_RESPONSE: Definition = Definition {
    set: KindSet::Standard,
    number: 33,
    name: "STOP_ROSPEC_RESPONSE",
    fields: &[],
    tail: Tail::Absent,
    groups: &[one!(WholeLlrpStatus)],
};

pub static ENABLE_RO_SPEC_RESPONSE: Definition = Definition {
    set: KindSet::Standard,
    number: 34,
    name: "ENABLE_ROSPEC_RESPONSE",
    fields: &[],
    tail: Tail::Absent,
    groups: &[one!(WholeLlrpStatus)],
};

pub static DISABLE_RO_SPEC_RESPONSE: Definition = Definition {
    set: KindSet::Standard,
    number: 35,
    name: "DISABLE_ROSPEC_RESPONSE",
    fields: &[],
    tail: Tail::Absent,
    groups: &[one!(WholeLlrpStatus)],
};

pub static GET_RO_SPECS_RESPONSE: Definition = Definition {
    set: KindSet::Standard,
    number: 36,
    name: "GET_ROSPECS_RESPONSE",
    fields: &[],
    tail: Tail::Absent,
    groups: &[one!(WholeLlrpStatus), any_number!(WholeRoSpec)],
};

pub static ADD_ACCESS_SPEC: Definition = Definition {
    set: KindSet::Standard,
    number: 40,
    name: "ADD_ACCESSSPEC",
    fields: &[],
    tail: Tail::Absent,
    groups: &[one!(WholeAccessSpec)],
};

pub static DELETE_ACCESS_SPEC: Definition = Definition {
    set: KindSet::Standard,
    number: 41,
    name: "DELETE_ACCESSSPEC",
    fields: &[field!("AccessSpecID", 32)],
    tail: Tail::Absent,
    groups: &[],
};

pub static ENABLE_ACCESS_SPEC: Definition = Definition {
    set: KindSet::Standard,
    number: 42,
    name: "ENABLE_ACCESSSPEC",
    fields: &[field!("AccessSpecID", 32)],
    tail: Tail::Absent,
    groups: &[],
};

pub static DISABLE_ACCESS_SPEC: Definition = Definition {
    set: KindSet::Standard,
    number: 43,
    name: "DISABLE_ACCESSSPEC",
    fields: &[field!("AccessSpecID", 32)],
    tail: Tail::Absent,
    groups: &[],
};

pub static GET_ACCESS_SPECS: Definition = Definition {
    set: KindSet::Standard,
    number: 44,
    name: "GET_ACCESSSPECS",
    fields: &[],
    tail: Tail::Absent,
    groups: &[],
};

pub static CLIENT_REQUEST_OP: Definition = Definition {
    set: KindSet::Standard,
    number: 45,
    name: "CLIENT_REQUEST_OP",
    fields: &[],
    tail: Tail::Absent,
    groups: &[one!(WholeTagReportData)],
};

pub static GET_SUPPORTED_VERSION: Definition = Definition {
    set: KindSet::Standard,
    number: 46,
    name: "GET_SUPPORTED_VERSION",
    fields: &[],
    tail: Tail::Absent,
    groups: &[],
};

pub static SET_PROTOCOL_VERSION: Definition = Definition {
    set: KindSet::Standard,
    number: 47,
    name: "SET_PROTOCOL_VERSION",
    fields: &[field!("ProtocolVersion", 8)],
    tail: Tail::Absent,
    groups: &[],
};

pub static ADD_ACCESS_SPEC_RESPONSE: Definition = Definition {
    set: KindSet::Standard,
    number: 50,
    name: "ADD_ACCESSSPEC_RESPONSE",
    fields: &[],
    tail: Tail::Absent,
    groups: &[one!(WholeLlrpStatus)],
};

pub static DELETE_ACCESS_SPEC_RESPONSE: Definition = Definition {
    set: KindSet::Standard,
    number: 51,
    name: "DELETE_ACCESSSPEC_RESPONSE",
    fields: &[],
    tail: Tail::Absent,
    groups: &[one!(WholeLlrpStatus)],
};

pub static ENABLE_ACCESS_SPEC_RESPONSE: Definition = Definition {
    set: KindSet::Standard,
    number: 52,
    name: "ENABLE_ACCESSSPEC_RESPONSE",
    fields: &[],
    tail: Tail::Absent,
    groups: &[one!(WholeLlrpStatus)],
};

pub static DISABLE_ACCESS_SPEC_RESPONSE: Definition = Definition {
    set: KindSet::Standard,
    number: 53,
    name: "DISABLE_ACCESSSPEC_RESPONSE",
    fields: &[],
    tail: Tail::Absent,
    groups: &[one!(WholeLlrpStatus)],
};

pub static GET_ACCESS_SPECS_RESPONSE: Definition = Definition {
    set: KindSet::Standard,
    number: 54,
    name: "GET_ACCESSSPECS_RESPONSE",
    fields: &[],
    tail: Tail::Absent,
    groups: &[one!(WholeLlrpStatus), any_number!(WholeAccessSpec)],
};

pub static CLIENT_REQUEST_OP_RESPONSE: Definition = Definition {
    set: KindSet::Standard,
    number: 55,
    name: "CLIENT_REQUEST_OP_RESPONSE",
    fields: &[],
    tail: Tail::Absent,
    groups: &[one!(WholeClientRequestResponse)],
};

pub static GET_SUPPORTED_VERSION_RESPONSE: Definition = Definition {
    set: KindSet::Standard,
    number: 56,
    name: "GET_SUPPORTED_VERSION_RESPONSE",
    fields: &[field!("CurrentVersion", 8), field!("SupportedVersion", 8)],
    tail: Tail::Absent,
    groups: &[one!(WholeLlrpStatus)],
};

pub static SET_PROTOCOL_VERSION_RESPONSE: Definition = Definition {
    set: KindSet::Standard,
    number: 57,
    name: "SET_PROTOCOL_VERSION_RESPONSE",
    fields: &[],
    tail: Tail::Absent,
    groups: &[one!(WholeLlrpStatus)],
};

pub static GET_REPORT: Definition = Definition {
    set: KindSet::Standard,
    number: 60,
    name: "GET_REPORT",
    fields: &[],
    tail: Tail::Absent,
    groups: &[],
};

pub static RO_ACCESS_REPORT: Definition = Definition {
    set: KindSet::Standard,
    number: 61,
    name: "RO_ACCESS_REPORT",
    fields: &[],
    tail: Tail::Absent,
    groups: &[
        any_number!(WholeTagReportData),
        any_number!(WholeRfSurveyReportData),
        any_number!(WholeCustom),
    ],
};

pub static KEEPALIVE: Definition = Definition {
    set: KindSet::Standard,
    number: 62,
    name: "KEEPALIVE",
    fields: &[],
    tail: Tail::Absent,
    groups: &[],
};

pub static READER_EVENT_NOTIFICATION: Definition = Definition {
    set: KindSet::Standard,
    number: 63,
    name: "READER_EVENT_NOTIFICATION",
    fields: &[],
    tail: Tail::Absent,
    groups: &[one!(WholeReaderEventNotificationData)],
};

pub static ENABLE_EVENTS_AND_REPORTS: Definition = Definition {
    set: KindSet::Standard,
    number: 64,
    name: "ENABLE_EVENTS_AND_REPORTS",
    fields: &[],
    tail: Tail::Absent,
    groups: &[],
};

pub static KEEPALIVE_ACK: Definition = Definition {
    set: KindSet::Standard,
    number: 72,
    name: "KEEPALIVE_ACK",
    fields: &[],
    tail: Tail::Absent,
    groups: &[],
};

pub static ERROR_MESSAGE: Definition = Definition {
    set: KindSet::Standard,
    number: 100,
    name: "ERROR_MESSAGE",
    fields: &[],
    tail: Tail::Absent,
    groups: &[one!(WholeLlrpStatus)],
};

pub static CUSTOM_MESSAGE: Definition = Definition {
    set: KindSet::Standard,
    number: 1023,
    name: "CUSTOM_MESSAGE",
    fields: &[field!("VendorIdentifier", 32), field!("MessageSubtype", 8)],
    tail: Tail::Data,
    groups: &[],
};
