//! The rows of the parameters of the whole standard with a type and a value alone (LLRP 1.1, section 17.2).

use crate::kinds::{Definition, Field, KindSet, Tail};
use crate::row_macros::{field, signed, whole_tv};

pub static ANTENNA_ID: Definition = whole_tv!(1, "AntennaID", field!("AntennaID", 16));

pub static FIRST_SEEN_TIMESTAMP_UTC: Definition = whole_tv!(
    2,
    "FirstSeenTimestampUTC",
    field!("FirstSeenTimestampUTC", 64)
);

pub static FIRST_SEEN_TIMESTAMP_UPTIME: Definition = whole_tv!(
    3,
    "FirstSeenTimestampUptime",
    field!("FirstSeenTimestampUptime", 64)
);

pub static LAST_SEEN_TIMESTAMP_UTC: Definition = whole_tv!(
    4,
    "LastSeenTimestampUTC",
    field!("LastSeenTimestampUTC", 64)
);

pub static LAST_SEEN_TIMESTAMP_UPTIME: Definition = whole_tv!(
    5,
    "LastSeenTimestampUptime",
    field!("LastSeenTimestampUptime", 64)
);

pub static PEAK_RSSI: Definition = whole_tv!(6, "PeakRSSI", signed!("PeakRSSI", 8));

pub static CHANNEL_INDEX: Definition = whole_tv!(7, "ChannelIndex", field!("ChannelIndex", 16));

pub static TAG_SEEN_COUNT: Definition = whole_tv!(8, "TagSeenCount", field!("TagSeenCount", 16));

pub static RO_SPEC_ID: Definition = whole_tv!(9, "ROSpecID", field!("ROSpecID", 32));

pub static INVENTORY_PARAMETER_SPEC_ID: Definition = whole_tv!(
    10,
    "InventoryParameterSpecID",
    field!("InventoryParameterSpecID", 16)
);

pub static C1G2_CRC: Definition = whole_tv!(11, "C1G2-CRC", field!("C1G2-CRC", 16));

pub static C1G2_PC: Definition = whole_tv!(12, "C1G2-PC", field!("C1G2-PC", 16));

pub static EPC96: Definition = whole_tv!(13, "EPC-96", field!("EPC-96", 96));

pub static SPEC_INDEX: Definition = whole_tv!(14, "SpecIndex", field!("SpecIndex", 16));

pub static CLIENT_REQUEST_OP_SPEC_RESULT: Definition = whole_tv!(
    15,
    "ClientRequestOpSpecResult",
    field!("ClientRequestOpSpecResult", 16)
);

pub static ACCESS_SPEC_ID: Definition = whole_tv!(16, "AccessSpecID", field!("AccessSpecID", 32));

pub static OP_SPEC_ID: Definition = whole_tv!(17, "OpSpecID", field!("OpSpecID", 16));

pub static C1G2_SINGULATION_DETAILS: Definition = whole_tv!(
    18,
    "C1G2SingulationDetails",
    field!("C1G2SingulationDetails", 32)
);

pub static C1G2XPCW1: Definition = whole_tv!(19, "C1G2XPCW1", field!("C1G2XPCW1", 16));

pub static C1G2XPCW2: Definition = whole_tv!(20, "C1G2XPCW2", field!("C1G2XPCW2", 16));
