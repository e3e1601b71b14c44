//! The rows of the parameters of the whole standard on times and capabilities (LLRP 1.1, section 17.2).

use crate::kinds::{Definition, Field, Group, KindSet, ParamKind, Tail};
use crate::row_macros::{any_number, at_most_one, field, one, one_or_more, reserved};

pub static UTC_TIMESTAMP: Definition = Definition {
    set: KindSet::Standard,
    number: 128,
    name: "UTCTimestamp",
    fields: &[field!("Microseconds", 64)],
    tail: Tail::Absent,
    groups: &[],
};

pub static UPTIME: Definition = Definition {
    set: KindSet::Standard,
    number: 129,
    name: "Uptime",
    fields: &[field!("Microseconds", 64)],
    tail: Tail::Absent,
    groups: &[],
};

pub static GENERAL_DEVICE_CAPABILITIES: Definition = Definition {
    set: KindSet::Standard,
    number: 137,
    name: "GeneralDeviceCapabilities",
    fields: &[
        field!("MaxNumberOfAntennaSupported", 16),
        field!("CanSetAntennaProperties", 1),
        field!("HasUTCClockCapability", 1),
        reserved!(14),
        field!("DeviceManufacturerName", 32),
        field!("ModelName", 32),
    ],
    tail: Tail::Text,
    groups: &[
        one_or_more!(WholeReceiveSensitivityTableEntry),
        any_number!(WholePerAntennaReceiveSensitivityRange),
        one!(WholeGpioCapabilities),
        one_or_more!(WholePerAntennaAirProtocol),
        at_most_one!(WholeMaximumReceiveSensitivity),
    ],
};

pub static RECEIVE_SENSITIVITY_TABLE_ENTRY: Definition = Definition {
    set: KindSet::Standard,
    number: 139,
    name: "ReceiveSensitivityTableEntry",
    fields: &[field!("Index", 16), field!("ReceiveSensitivityValue", 16)],
    tail: Tail::Absent,
    groups: &[],
};

pub static PER_ANTENNA_AIR_PROTOCOL: Definition = Definition {
    set: KindSet::Standard,
    number: 140,
    name: "PerAntennaAirProtocol",
    fields: &[field!("AntennaID", 16), field!("Count", 16)],
    tail: Tail::Data,
    groups: &[],
};

pub static GPIO_CAPABILITIES: Definition = Definition {
    set: KindSet::Standard,
    number: 141,
    name: "GPIOCapabilities",
    fields: &[field!("NumGPIs", 16), field!("NumGPOs", 16)],
    tail: Tail::Absent,
    groups: &[],
};

pub static LLRP_CAPABILITIES: Definition = Definition {
    set: KindSet::Standard,
    number: 142,
    name: "LLRPCapabilities",
    fields: &[
        field!("CanDoRFSurvey", 1),
        field!("CanReportBufferFillWarning", 1),
        field!("SupportsClientRequestOpSpec", 1),
        field!("CanDoTagInventoryStateAwareSingulation", 1),
        field!("SupportsEventAndReportHolding", 1),
        reserved!(3),
        field!("MaxNumPriorityLevelsSupported", 8),
        field!("ClientRequestOpSpecTimeout", 16),
        field!("MaxNumROSpecs", 32),
        field!("MaxNumSpecsPerROSpec", 32),
    ],
    tail: Tail::Data,
    groups: &[],
};

pub static REGULATORY_CAPABILITIES: Definition = Definition {
    set: KindSet::Standard,
    number: 143,
    name: "RegulatoryCapabilities",
    fields: &[
        field!("CountryCode", 16),
        field!("CommunicationsStandard", 16),
    ],
    tail: Tail::Absent,
    groups: &[
        at_most_one!(WholeUhfBandCapabilities),
        any_number!(WholeCustom),
    ],
};

pub static UHF_BAND_CAPABILITIES: Definition = Definition {
    set: KindSet::Standard,
    number: 144,
    name: "UHFBandCapabilities",
    fields: &[],
    tail: Tail::Absent,
    groups: &[
        one_or_more!(WholeTransmitPowerLevelTableEntry),
        one!(WholeFrequencyInformation),
        one_or_more!(WholeC1G2UhfRfModeTable),
        at_most_one!(WholeRfSurveyFrequencyCapabilities),
    ],
};

pub static TRANSMIT_POWER_LEVEL_TABLE_ENTRY: Definition = Definition {
    set: KindSet::Standard,
    number: 145,
    name: "TransmitPowerLevelTableEntry",
    fields: &[field!("Index", 16), field!("TransmitPowerValue", 16)],
    tail: Tail::Absent,
    groups: &[],
};

pub static FREQUENCY_INFORMATION: Definition = Definition {
    set: KindSet::Standard,
    number: 146,
    name: "FrequencyInformation",
    fields: &[field!("Hopping", 1), reserved!(7)],
    tail: Tail::Absent,
    groups: &[
        any_number!(WholeFrequencyHopTable),
        at_most_one!(WholeFixedFrequencyTable),
    ],
};

pub static FREQUENCY_HOP_TABLE: Definition = Definition {
    set: KindSet::Standard,
    number: 147,
    name: "FrequencyHopTable",
    fields: &[field!("HopTableID", 8), reserved!(8), field!("Count", 16)],
    tail: Tail::Data,
    groups: &[],
};

pub static FIXED_FREQUENCY_TABLE: Definition = Definition {
    set: KindSet::Standard,
    number: 148,
    name: "FixedFrequencyTable",
    fields: &[field!("Count", 16)],
    tail: Tail::Data,
    groups: &[],
};

pub static PER_ANTENNA_RECEIVE_SENSITIVITY_RANGE: Definition = Definition {
    set: KindSet::Standard,
    number: 149,
    name: "PerAntennaReceiveSensitivityRange",
    fields: &[
        field!("AntennaID", 16),
        field!("ReceiveSensitivityIndexMin", 16),
        field!("ReceiveSensitivityIndexMax", 16),
    ],
    tail: Tail::Absent,
    groups: &[],
};
