//! The rows of the parameters of the whole standard on the air protocol, and those of makers (LLRP 1.1, section 17.2).

use crate::kinds::{Definition, Field, Group, KindSet, ParamKind, Tail};
use crate::row_macros::{any_number, at_most_one, field, one, one_or_more, reserved};

pub static C1G2_LLRP_CAPABILITIES: Definition = Definition {
    set: KindSet::Standard,
    number: 327,
    name: "C1G2LLRPCapabilities",
    fields: &[
        field!("CanSupportBlockErase", 1),
        field!("CanSupportBlockWrite", 1),
        field!("CanSupportBlockPermalock", 1),
        field!("CanSupportTagRecommissioning", 1),
        field!("CanSupportUMIMethod2", 1),
        field!("CanSupportXPC", 1),
        reserved!(2),
        field!("MaxNumSelectFiltersPerQuery", 16),
    ],
    tail: Tail::Absent,
    groups: &[],
};

pub static C1G2_UHF_RF_MODE_TABLE: Definition = Definition {
    set: KindSet::Standard,
    number: 328,
    name: "C1G2UHFRFModeTable",
    fields: &[],
    tail: Tail::Absent,
    groups: &[one_or_more!(WholeC1G2UhfRfModeTableEntry)],
};

pub static C1G2_UHF_RF_MODE_TABLE_ENTRY: Definition = Definition {
    set: KindSet::Standard,
    number: 329,
    name: "C1G2UHFRFModeTableEntry",
    fields: &[
        field!("ModeIdentifier", 32),
        field!("DRValue", 1),
        field!("EPCHAGTCConformance", 1),
        reserved!(6),
        field!("MValue", 8, 3),
        field!("ForwardLinkModulation", 8, 2),
        field!("SpectralMaskIndicator", 8, 3),
        field!("BDRValue", 32),
    ],
    tail: Tail::Data,
    groups: &[],
};

pub static C1G2_INVENTORY_COMMAND: Definition = Definition {
    set: KindSet::Standard,
    number: 330,
    name: "C1G2InventoryCommand",
    fields: &[field!("TagInventoryStateAware", 1), reserved!(7)],
    tail: Tail::Absent,
    groups: &[
        at_most_one!(WholeC1G2RfControl),
        at_most_one!(WholeC1G2SingulationControl),
        any_number!(WholeC1G2Filter),
        any_number!(WholeCustom),
    ],
};

pub static C1G2_FILTER: Definition = Definition {
    set: KindSet::Standard,
    number: 331,
    name: "C1G2Filter",
    fields: &[field!("T", 2, 2), reserved!(6)],
    tail: Tail::Absent,
    groups: &[
        one!(WholeC1G2TagInventoryMask),
        at_most_one!(WholeC1G2TagInventoryStateAwareFilterAction),
        at_most_one!(WholeC1G2TagInventoryStateUnawareFilterAction),
    ],
};

pub static C1G2_TAG_INVENTORY_MASK: Definition = Definition {
    set: KindSet::Standard,
    number: 332,
    name: "C1G2TagInventoryMask",
    fields: &[
        field!("MB", 2),
        reserved!(6),
        field!("Pointer", 16),
        field!("Count", 16),
    ],
    tail: Tail::Data,
    groups: &[],
};

pub static C1G2_TAG_INVENTORY_STATE_AWARE_FILTER_ACTION: Definition = Definition {
    set: KindSet::Standard,
    number: 333,
    name: "C1G2TagInventoryStateAwareFilterAction",
    fields: &[field!("Target", 8, 4), field!("Action", 8, 7)],
    tail: Tail::Absent,
    groups: &[],
};

pub static C1G2_TAG_INVENTORY_STATE_UNAWARE_FILTER_ACTION: Definition = Definition {
    set: KindSet::Standard,
    number: 334,
    name: "C1G2TagInventoryStateUnawareFilterAction",
    fields: &[field!("Action", 8, 5)],
    tail: Tail::Absent,
    groups: &[],
};

pub static C1G2_RF_CONTROL: Definition = Definition {
    set: KindSet::Standard,
    number: 335,
    name: "C1G2RFControl",
    fields: &[field!("ModeIndex", 16), field!("Tari", 16)],
    tail: Tail::Absent,
    groups: &[],
};

pub static C1G2_SINGULATION_CONTROL: Definition = Definition {
    set: KindSet::Standard,
    number: 336,
    name: "C1G2SingulationControl",
    fields: &[
        field!("Session", 2),
        reserved!(6),
        field!("TagPopulation", 16),
        field!("TagTransitTime", 32),
    ],
    tail: Tail::Absent,
    groups: &[at_most_one!(WholeC1G2TagInventoryStateAwareSingulationAction)],
};

pub static C1G2_TAG_INVENTORY_STATE_AWARE_SINGULATION_ACTION: Definition = Definition {
    set: KindSet::Standard,
    number: 337,
    name: "C1G2TagInventoryStateAwareSingulationAction",
    fields: &[
        field!("I", 1),
        field!("S", 1),
        field!("S_All", 1),
        reserved!(5),
    ],
    tail: Tail::Absent,
    groups: &[],
};

pub static C1G2_TAG_SPEC: Definition = Definition {
    set: KindSet::Standard,
    number: 338,
    name: "C1G2TagSpec",
    fields: &[],
    tail: Tail::Absent,
    groups: &[one_or_more!(WholeC1G2TargetTag)],
};

pub static C1G2_TARGET_TAG: Definition = Definition {
    set: KindSet::Standard,
    number: 339,
    name: "C1G2TargetTag",
    fields: &[
        field!("MB", 2),
        field!("Match", 1),
        reserved!(5),
        field!("Pointer", 16),
        field!("Count", 16),
    ],
    tail: Tail::Data,
    groups: &[],
};

pub static C1G2_READ: Definition = Definition {
    set: KindSet::Standard,
    number: 341,
    name: "C1G2Read",
    fields: &[
        field!("OpSpecID", 16),
        field!("AccessPassword", 32),
        field!("MB", 2),
        reserved!(6),
        field!("WordPointer", 16),
        field!("WordCount", 16),
    ],
    tail: Tail::Absent,
    groups: &[],
};

pub static C1G2_WRITE: Definition = Definition {
    set: KindSet::Standard,
    number: 342,
    name: "C1G2Write",
    fields: &[
        field!("OpSpecID", 16),
        field!("AccessPassword", 32),
        field!("MB", 2),
        reserved!(6),
        field!("WordPointer", 16),
    ],
    tail: Tail::Words,
    groups: &[],
};

pub static C1G2_KILL: Definition = Definition {
    set: KindSet::Standard,
    number: 343,
    name: "C1G2Kill",
    fields: &[field!("OpSpecID", 16), field!("KillPassword", 32)],
    tail: Tail::Absent,
    groups: &[],
};

pub static C1G2_LOCK: Definition = Definition {
    set: KindSet::Standard,
    number: 344,
    name: "C1G2Lock",
    fields: &[field!("OpSpecID", 16), field!("AccessPassword", 32)],
    tail: Tail::Absent,
    groups: &[one_or_more!(WholeC1G2LockPayload)],
};

pub static C1G2_LOCK_PAYLOAD: Definition = Definition {
    set: KindSet::Standard,
    number: 345,
    name: "C1G2LockPayload",
    fields: &[field!("Privilege", 8, 3), field!("DataField", 8, 4)],
    tail: Tail::Absent,
    groups: &[],
};

pub static C1G2_BLOCK_ERASE: Definition = Definition {
    set: KindSet::Standard,
    number: 346,
    name: "C1G2BlockErase",
    fields: &[
        field!("OpSpecID", 16),
        field!("AccessPassword", 32),
        field!("MB", 2),
        reserved!(6),
        field!("WordPointer", 16),
        field!("WordCount", 16),
    ],
    tail: Tail::Absent,
    groups: &[],
};

pub static C1G2_BLOCK_WRITE: Definition = Definition {
    set: KindSet::Standard,
    number: 347,
    name: "C1G2BlockWrite",
    fields: &[
        field!("OpSpecID", 16),
        field!("AccessPassword", 32),
        field!("MB", 2),
        reserved!(6),
        field!("WordPointer", 16),
    ],
    tail: Tail::Words,
    groups: &[],
};

pub static C1G2_EPC_MEMORY_SELECTOR: Definition = Definition {
    set: KindSet::Standard,
    number: 348,
    name: "C1G2EPCMemorySelector",
    fields: &[field!("Selector", 8)],
    tail: Tail::Absent,
    groups: &[],
};

pub static C1G2_READ_OP_SPEC_RESULT: Definition = Definition {
    set: KindSet::Standard,
    number: 349,
    name: "C1G2ReadOpSpecResult",
    fields: &[field!("Result", 8), field!("OpSpecID", 16)],
    tail: Tail::Words,
    groups: &[],
};

pub static C1G2_WRITE_OP_SPEC_RESULT: Definition = Definition {
    set: KindSet::Standard,
    number: 350,
    name: "C1G2WriteOpSpecResult",
    fields: &[
        field!("Result", 8),
        field!("OpSpecID", 16),
        field!("NumWordsWritten", 16),
    ],
    tail: Tail::Absent,
    groups: &[],
};

pub static C1G2_KILL_OP_SPEC_RESULT: Definition = Definition {
    set: KindSet::Standard,
    number: 351,
    name: "C1G2KillOpSpecResult",
    fields: &[field!("Result", 8), field!("OpSpecID", 16)],
    tail: Tail::Absent,
    groups: &[],
};

pub static C1G2_LOCK_OP_SPEC_RESULT: Definition = Definition {
    set: KindSet::Standard,
    number: 352,
    name: "C1G2LockOpSpecResult",
    fields: &[field!("Result", 8), field!("OpSpecID", 16)],
    tail: Tail::Absent,
    groups: &[],
};

pub static C1G2_BLOCK_ERASE_OP_SPEC_RESULT: Definition = Definition {
    set: KindSet::Standard,
    number: 353,
    name: "C1G2BlockEraseOpSpecResult",
    fields: &[field!("Result", 8), field!("OpSpecID", 16)],
    tail: Tail::Absent,
    groups: &[],
};

pub static C1G2_BLOCK_WRITE_OP_SPEC_RESULT: Definition = Definition {
    set: KindSet::Standard,
    number: 354,
    name: "C1G2BlockWriteOpSpecResult",
    fields: &[
        field!("Result", 8),
        field!("OpSpecID", 16),
        field!("NumWordsWritten", 16),
    ],
    tail: Tail::Absent,
    groups: &[],
};

pub static LOOP_SPEC: Definition = Definition {
    set: KindSet::Standard,
    number: 355,
    name: "LoopSpec",
    fields: &[field!("LoopCount", 32)],
    tail: Tail::Absent,
    groups: &[],
};

pub static SPEC_LOOP_EVENT: Definition = Definition {
    set: KindSet::Standard,
    number: 356,
    name: "SpecLoopEvent",
    fields: &[field!("ROSpecID", 32), field!("LoopCount", 32)],
    tail: Tail::Absent,
    groups: &[],
};

pub static C1G2_RECOMMISSION: Definition = Definition {
    set: KindSet::Standard,
    number: 357,
    name: "C1G2Recommission",
    fields: &[
        field!("OpSpecID", 16),
        field!("KillPassword", 32),
        reserved!(5),
        field!("SB3", 1),
        field!("SB2", 1),
        field!("LSB", 1),
    ],
    tail: Tail::Absent,
    groups: &[],
};

pub static C1G2_BLOCK_PERMALOCK: Definition = Definition {
    set: KindSet::Standard,
    number: 358,
    name: "C1G2BlockPermalock",
    fields: &[
        field!("OpSpecID", 16),
        field!("AccessPassword", 32),
        field!("MB", 2),
        reserved!(6),
        field!("BlockPointer", 16),
    ],
    tail: Tail::Words,
    groups: &[],
};

pub static C1G2_GET_BLOCK_PERMALOCK_STATUS: Definition = Definition {
    set: KindSet::Standard,
    number: 359,
    name: "C1G2GetBlockPermalockStatus",
    fields: &[
        field!("OpSpecID", 16),
        field!("AccessPassword", 32),
        field!("MB", 2),
        reserved!(6),
        field!("BlockPointer", 16),
        field!("BlockRange", 16),
    ],
    tail: Tail::Absent,
    groups: &[],
};

pub static C1G2_RECOMMISSION_OP_SPEC_RESULT: Definition = Definition {
    set: KindSet::Standard,
    number: 360,
    name: "C1G2RecommissionOpSpecResult",
    fields: &[field!("Result", 8), field!("OpSpecID", 16)],
    tail: Tail::Absent,
    groups: &[],
};

pub static C1G2_BLOCK_PERMALOCK_OP_SPEC_RESULT: Definition = Definition {
    set: KindSet::Standard,
    number: 361,
    name: "C1G2BlockPermalockOpSpecResult",
    fields: &[field!("Result", 8), field!("OpSpecID", 16)],
    tail: Tail::Absent,
    groups: &[],
};

pub static C1G2_GET_BLOCK_PERMALOCK_STATUS_OP_SPEC_RESULT: Definition = Definition {
    set: KindSet::Standard,
    number: 362,
    name: "C1G2GetBlockPermalockStatusOpSpecResult",
    fields: &[field!("Result", 8), field!("OpSpecID", 16)],
    tail: Tail::Words,
    groups: &[],
};

pub static MAXIMUM_RECEIVE_SENSITIVITY: Definition = Definition {
    set: KindSet::Standard,
    number: 363,
    name: "MaximumReceiveSensitivity",
    fields: &[field!("MaximumSensitivityValue", 16)],
    tail: Tail::Absent,
    groups: &[],
};

pub static RF_SURVEY_FREQUENCY_CAPABILITIES: Definition = Definition {
    set: KindSet::Standard,
    number: 365,
    name: "RFSurveyFrequencyCapabilities",
    fields: &[
        field!("MinimumFrequency", 32),
        field!("MaximumFrequency", 32),
    ],
    tail: Tail::Absent,
    groups: &[],
};

pub static CUSTOM: Definition = Definition {
    set: KindSet::Standard,
    number: 1023,
    name: "Custom",
    fields: &[
        field!("VendorIdentifier", 32),
        field!("ParameterSubtype", 32),
    ],
    tail: Tail::Data,
    groups: &[],
};
