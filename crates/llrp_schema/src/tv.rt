//! The rows of the parameters with a type and a value alone (LLRP 1.1, section 17.2).

use crate::kinds::{Definition, Field, KindSet, Tail};
use crate::row_macros::{field, signed, tv};

pub static ANTENNA_ID: Definition = tv!(1, "AntennaID", field!("AntennaID", 16));

pub static FIRST_SEEN_TIMESTAMP_UTC: Definition = tv!(
    2,
    "FirstSeenTimestampUTC",
    field!("FirstSeenTimestampUTC", 64)
);

pub static FIRST_SEEN_TIMESTAMP_UPTIME: Definition = tv!(
    3,
    "FirstSeenTimestampUptime",
    field!("FirstSeenTimestampUptime", 64)
);

pub static LAST_SEEN_TIMESTAMP_UTC: Definition = tv!(
    4,
    "LastSeenTimestampUTC",
    field!("LastSeenTimestampUTC", 64)
);

pub static LAST_SEEN_TIMESTAMP_UPTIME: Definition = tv!(
    5,
    "LastSeenTimestampUptime",
    field!("LastSeenTimestampUptime", 64)
);

pub static PEAK_RSSI: Definition = tv!(6, "PeakRSSI", signed!("PeakRSSI", 8));

pub static CHANNEL_INDEX: Definition = tv!(7, "ChannelIndex", field!("ChannelIndex", 16));

pub static TAG_SEEN_COUNT: Definition = tv!(8, "TagSeenCount", field!("TagSeenCount", 16));

pub static RO_SPEC_ID: Definition = tv!(9, "ROSpecID", field!("ROSpecID", 32));

pub static INVENTORY_PARAMETER_SPEC_ID: Definition = tv!(
    10,
    "InventoryParameterSpecID",
    field!("InventoryParameterSpecID", 16)
);

pub static C1G2_CRC: Definition = tv!(11, "C1G2-CRC", field!("C1G2-CRC", 16));

pub static C1G2_PC: Definition = tv!(12, "C1G2-PC", field!("C1G2-PC", 16));

pub static EPC96: Definition = tv!(13, "EPC-96", field!("EPC-96", 96));

pub static SPEC_INDEX: Definition = tv!(14, "SpecIndex", field!("SpecIndex", 16));

pub static ACCESS_SPEC_ID: Definition = tv!(16, "AccessSpecID", field!("AccessSpecID", 32));
