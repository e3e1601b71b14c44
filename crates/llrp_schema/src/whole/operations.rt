//! The rows of the parameters of the whole standard on reader operation, access and configuration (LLRP 1.1, section 17.2).

use crate::kinds::{Definition, Field, Group, KindSet, ParamKind, Tail};
use crate::row_macros::{
    any_number, any_of, at_most_one, field, one, one_or_more, reserved, some_of,
};

pub static RO_SPEC: Definition = Definition {
    set: KindSet::Standard,
    number: 177,
    name: "ROSpec",
    fields: &[
        field!("ROSpecID", 32),
        field!("Priority", 8, 7),
        field!("CurrentState", 8, 2),
    ],
    tail: Tail::Absent,
    groups: &[
        one!(WholeRoBoundarySpec),
        some_of!(WholeAiSpec, WholeRfSurveySpec, WholeLoopSpec, WholeCustom),
        at_most_one!(WholeRoReportSpec),
    ],
};

pub static RO_BOUNDARY_SPEC: Definition = Definition {
    set: KindSet::Standard,
    number: 178,
    name: "ROBoundarySpec",
    fields: &[],
    tail: Tail::Absent,
    groups: &[one!(WholeRoSpecStartTrigger), one!(WholeRoSpecStopTrigger)],
};

pub static RO_SPEC_START_TRIGGER: Definition = Definition {
    set: KindSet::Standard,
    number: 179,
    name: "ROSpecStartTrigger",
    fields: &[field!("ROSpecStartTriggerType", 8, 3)],
    tail: Tail::Absent,
    groups: &[
        at_most_one!(WholePeriodicTriggerValue),
        at_most_one!(WholeGpiTriggerValue),
    ],
};

pub static PERIODIC_TRIGGER_VALUE: Definition = Definition {
    set: KindSet::Standard,
    number: 180,
    name: "PeriodicTriggerValue",
    fields: &[field!("Offset", 32), field!("Period", 32)],
    tail: Tail::Absent,
    groups: &[at_most_one!(WholeUtcTimestamp)],
};

pub static GPI_TRIGGER_VALUE: Definition = Definition {
    set: KindSet::Standard,
    number: 181,
    name: "GPITriggerValue",
    fields: &[
        field!("GPIPortNum", 16),
        field!("GPIEvent", 1),
        reserved!(7),
        field!("Timeout", 32),
    ],
    tail: Tail::Absent,
    groups: &[],
};

pub static RO_SPEC_STOP_TRIGGER: Definition = Definition {
    set: KindSet::Standard,
    number: 182,
    name: "ROSpecStopTrigger",
    fields: &[
        field!("ROSpecStopTriggerType", 8, 2),
        field!("DurationTriggerValue", 32),
    ],
    tail: Tail::Absent,
    groups: &[at_most_one!(WholeGpiTriggerValue)],
};

pub static AI_SPEC: Definition = Definition {
    set: KindSet::Standard,
    number: 183,
    name: "AISpec",
    fields: &[],
    tail: Tail::Words,
    groups: &[
        one!(WholeAiSpecStopTrigger),
        one_or_more!(WholeInventoryParameterSpec),
        any_number!(WholeCustom),
    ],
};

pub static AI_SPEC_STOP_TRIGGER: Definition = Definition {
    set: KindSet::Standard,
    number: 184,
    name: "AISpecStopTrigger",
    fields: &[
        field!("AISpecStopTriggerType", 8, 3),
        field!("DurationTrigger", 32),
    ],
    tail: Tail::Absent,
    groups: &[
        at_most_one!(WholeGpiTriggerValue),
        at_most_one!(WholeTagObservationTrigger),
    ],
};

pub static TAG_OBSERVATION_TRIGGER: Definition = Definition {
    set: KindSet::Standard,
    number: 185,
    name: "TagObservationTrigger",
    fields: &[
        field!("TriggerType", 8),
        reserved!(8),
        field!("NumberOfTags", 16),
        field!("NumberOfAttempts", 16),
        field!("T", 16),
        field!("Timeout", 32),
    ],
    tail: Tail::Absent,
    groups: &[],
};

pub static INVENTORY_PARAMETER_SPEC: Definition = Definition {
    set: KindSet::Standard,
    number: 186,
    name: "InventoryParameterSpec",
    fields: &[
        field!("InventoryParameterSpecID", 16),
        field!("ProtocolID", 8),
    ],
    tail: Tail::Absent,
    groups: &[
        any_number!(WholeAntennaConfiguration),
        any_number!(WholeCustom),
    ],
};

pub static RF_SURVEY_SPEC: Definition = Definition {
    set: KindSet::Standard,
    number: 187,
    name: "RFSurveySpec",
    fields: &[
        field!("AntennaID", 16),
        field!("StartFrequency", 32),
        field!("EndFrequency", 32),
    ],
    tail: Tail::Absent,
    groups: &[one!(WholeRfSurveySpecStopTrigger), any_number!(WholeCustom)],
};

pub static RF_SURVEY_SPEC_STOP_TRIGGER: Definition = Definition {
    set: KindSet::Standard,
    number: 188,
    name: "RFSurveySpecStopTrigger",
    fields: &[
        field!("StopTriggerType", 8, 2),
        field!("DurationPeriod", 32),
        field!("N", 32),
    ],
    tail: Tail::Absent,
    groups: &[],
};

pub static ACCESS_SPEC: Definition = Definition {
    set: KindSet::Standard,
    number: 207,
    name: "AccessSpec",
    fields: &[
        field!("AccessSpecID", 32),
        field!("AntennaID", 16),
        field!("ProtocolID", 8),
        field!("CurrentState", 1),
        reserved!(7),
        field!("ROSpecID", 32),
    ],
    tail: Tail::Absent,
    groups: &[
        one!(WholeAccessSpecStopTrigger),
        one!(WholeAccessCommand),
        at_most_one!(WholeAccessReportSpec),
        any_number!(WholeCustom),
    ],
};

pub static ACCESS_SPEC_STOP_TRIGGER: Definition = Definition {
    set: KindSet::Standard,
    number: 208,
    name: "AccessSpecStopTrigger",
    fields: &[
        field!("AccessSpecStopTrigger", 8, 1),
        field!("OperationCountValue", 16),
    ],
    tail: Tail::Absent,
    groups: &[],
};

pub static ACCESS_COMMAND: Definition = Definition {
    set: KindSet::Standard,
    number: 209,
    name: "AccessCommand",
    fields: &[],
    tail: Tail::Absent,
    groups: &[
        one!(WholeC1G2TagSpec),
        some_of!(
            WholeC1G2Read,
            WholeC1G2Write,
            WholeC1G2Kill,
            WholeC1G2Lock,
            WholeC1G2BlockErase,
            WholeC1G2BlockWrite,
            WholeC1G2Recommission,
            WholeC1G2BlockPermalock,
            WholeC1G2GetBlockPermalockStatus,
            WholeClientRequestOpSpec,
            WholeCustom
        ),
    ],
};

pub static CLIENT_REQUEST_OP_SPEC: Definition = Definition {
    set: KindSet::Standard,
    number: 210,
    name: "ClientRequestOpSpec",
    fields: &[field!("OpSpecID", 16)],
    tail: Tail::Absent,
    groups: &[],
};

pub static CLIENT_REQUEST_RESPONSE: Definition = Definition {
    set: KindSet::Standard,
    number: 211,
    name: "ClientRequestResponse",
    fields: &[field!("AccessSpecID", 32)],
    tail: Tail::Absent,
    groups: &[
        one!(WholeEpcData),
        any_of!(
            WholeC1G2Read,
            WholeC1G2Write,
            WholeC1G2Kill,
            WholeC1G2Lock,
            WholeC1G2BlockErase,
            WholeC1G2BlockWrite,
            WholeC1G2Recommission,
            WholeC1G2BlockPermalock,
            WholeC1G2GetBlockPermalockStatus
        ),
    ],
};

pub static LLRP_CONFIGURATION_STATE_VALUE: Definition = Definition {
    set: KindSet::Standard,
    number: 217,
    name: "LLRPConfigurationStateValue",
    fields: &[field!("LLRPConfigurationStateValue", 32)],
    tail: Tail::Absent,
    groups: &[],
};

pub static IDENTIFICATION: Definition = Definition {
    set: KindSet::Standard,
    number: 218,
    name: "Identification",
    fields: &[field!("IDType", 8, 1), field!("Count", 16)],
    tail: Tail::Data,
    groups: &[],
};

pub static GPO_WRITE_DATA: Definition = Definition {
    set: KindSet::Standard,
    number: 219,
    name: "GPOWriteData",
    fields: &[
        field!("GPOPortNumber", 16),
        field!("GPOData", 1),
        reserved!(7),
    ],
    tail: Tail::Absent,
    groups: &[],
};

pub static KEEPALIVE_SPEC: Definition = Definition {
    set: KindSet::Standard,
    number: 220,
    name: "KeepaliveSpec",
    fields: &[
        field!("KeepaliveTriggerType", 8, 1),
        field!("PeriodicTriggerValue", 32),
    ],
    tail: Tail::Absent,
    groups: &[],
};

pub static ANTENNA_PROPERTIES: Definition = Definition {
    set: KindSet::Standard,
    number: 221,
    name: "AntennaProperties",
    fields: &[
        field!("AntennaConnected", 1),
        reserved!(7),
        field!("AntennaID", 16),
        field!("AntennaGain", 16),
    ],
    tail: Tail::Absent,
    groups: &[],
};

pub static ANTENNA_CONFIGURATION: Definition = Definition {
    set: KindSet::Standard,
    number: 222,
    name: "AntennaConfiguration",
    fields: &[field!("AntennaID", 16)],
    tail: Tail::Absent,
    groups: &[
        at_most_one!(WholeRfReceiver),
        at_most_one!(WholeRfTransmitter),
        any_number!(WholeC1G2InventoryCommand),
        any_number!(WholeCustom),
    ],
};

pub static RF_RECEIVER: Definition = Definition {
    set: KindSet::Standard,
    number: 223,
    name: "RFReceiver",
    fields: &[field!("ReceiverSensitivity", 16)],
    tail: Tail::Absent,
    groups: &[],
};

pub static RF_TRANSMITTER: Definition = Definition {
    set: KindSet::Standard,
    number: 224,
    name: "RFTransmitter",
    fields: &[
        field!("HopTableID", 16),
        field!("ChannelIndex", 16),
        field!("TransmitPower", 16),
    ],
    tail: Tail::Absent,
    groups: &[],
};

pub static GPI_PORT_CURRENT_STATE: Definition = Definition {
    set: KindSet::Standard,
    number: 225,
    name: "GPIPortCurrentState",
    fields: &[
        field!("GPIPortNum", 16),
        field!("GPIConfig", 1),
        reserved!(7),
        field!("State", 8, 2),
    ],
    tail: Tail::Absent,
    groups: &[],
};

pub static EVENTS_AND_REPORTS: Definition = Definition {
    set: KindSet::Standard,
    number: 226,
    name: "EventsAndReports",
    fields: &[field!("HoldEventsAndReportsUponReconnect", 1), reserved!(7)],
    tail: Tail::Absent,
    groups: &[],
};
