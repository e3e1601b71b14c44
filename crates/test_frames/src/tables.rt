//! Kinds of each sort against values written out from the standard and this profile's bounds.

use llrp_schema::*;
use std::process::Abort;

/// A field's name, width, whether it is reserved, its greatest value, and whether it is signed.
type WrittenField = (&'static str, u32, bool, u128, bool);

/// A group's members, its least number and its greatest.
type WrittenGroup = (&'static [ParamKind], u32, Option<u32>);

fn expect_fields(rt: &impl Abort, kind: Kind, wanted: &[WrittenField]) {
    assert_eq!(rt; fields(kind).len(), wanted.len());
    for (field, want) in fields(kind).iter().zip(wanted) {
        let found = (
            field.name,
            field.width,
            field.reserved,
            field.greatest,
            field.signed,
        );
        assert_eq!(rt; found, *want);
    }
}

fn expect_groups(rt: &impl Abort, kind: Kind, wanted: &[WrittenGroup]) {
    assert_eq!(rt; groups(kind).len(), wanted.len());
    for (group, want) in groups(kind).iter().zip(wanted) {
        assert_eq!(rt; (group.members, group.least, group.most), *want);
    }
}

static NUMBERS_AND_NAMES: [(Kind, u16, &str); 8] = [
    (
        Kind::Message(MsgKind::SetReaderConfig),
        3,
        "SET_READER_CONFIG",
    ),
    (Kind::Message(MsgKind::AddRoSpec), 20, "ADD_ROSPEC"),
    (Kind::Message(MsgKind::Keepalive), 62, "KEEPALIVE"),
    (Kind::Message(MsgKind::ErrorMessage), 100, "ERROR_MESSAGE"),
    (Kind::Parameter(ParamKind::C1G2Pc), 12, "C1G2-PC"),
    (Kind::Parameter(ParamKind::Epc96), 13, "EPC-96"),
    (
        Kind::Parameter(ParamKind::TagReportData),
        240,
        "TagReportData",
    ),
    (
        Kind::Parameter(ParamKind::C1G2EpcMemorySelector),
        348,
        "C1G2EPCMemorySelector",
    ),
];

#[test]
fn kinds_have_their_numbers_and_names(rt: HostRuntime) {
    for (kind, wanted_number, wanted_name) in NUMBERS_AND_NAMES {
        assert!(rt; number(kind) == wanted_number);
        assert!(rt; name(kind) == wanted_name);
    }
}

static MESSAGES_BY_NUMBER: [(u16, Option<MsgKind>); 10] = [
    (20, Some(MsgKind::AddRoSpec)),
    (100, Some(MsgKind::ErrorMessage)),
    (0, None),
    (1, None),
    (26, Some(MsgKind::GetRoSpecs)),
    (27, None),
    (36, Some(MsgKind::GetRoSpecsResponse)),
    (37, None),
    (1023, None),
    (65535, None),
];

#[test]
fn messages_are_found_by_number(rt: HostRuntime) {
    for (number, wanted) in MESSAGES_BY_NUMBER {
        assert!(rt; msg_of(number) == wanted);
    }
}

static TLV_BY_NUMBER: [(u16, Option<ParamKind>); 8] = [
    (177, Some(ParamKind::RoSpec)),
    (348, Some(ParamKind::C1G2EpcMemorySelector)),
    (0, None),
    (1, None),
    (16, None),
    (187, None),
    (1023, None),
    (65535, None),
];

static TV_BY_NUMBER: [(u8, Option<ParamKind>); 8] = [
    (1, Some(ParamKind::AntennaId)),
    (6, Some(ParamKind::PeakRssi)),
    (16, Some(ParamKind::AccessSpecId)),
    (0, None),
    (15, None),
    (17, None),
    (127, None),
    (177, None),
];

#[test]
fn parameters_are_found_by_number(rt: HostRuntime) {
    for (number, wanted) in TLV_BY_NUMBER {
        assert!(rt; param_of_tlv(number) == wanted);
        assert!(rt; wanted.is_none_or(|kind| !is_tv(kind)));
    }
    for (number, wanted) in TV_BY_NUMBER {
        assert!(rt; param_of_tv(number) == wanted);
        assert!(rt; wanted.is_none_or(|kind| is_tv(kind)));
    }
}

static MESSAGES_BY_NAME: [(&str, Option<MsgKind>); 7] = [
    ("KEEPALIVE", Some(MsgKind::Keepalive)),
    (
        "ENABLE_ROSPEC_RESPONSE",
        Some(MsgKind::EnableRoSpecResponse),
    ),
    ("", None),
    ("keepalive", None),
    ("KEEPALIVE ", None),
    ("GET_ACCESSSPECS", None),
    ("ROSpec", None),
];

static PARAMETERS_BY_NAME: [(&str, Option<ParamKind>); 9] = [
    ("ROSpec", Some(ParamKind::RoSpec)),
    ("ROSpecID", Some(ParamKind::RoSpecId)),
    ("EPC-96", Some(ParamKind::Epc96)),
    ("", None),
    ("rospec", None),
    ("ROSpecI", None),
    ("ROSpecIDs", None),
    ("Custom", None),
    ("KEEPALIVE", None),
];

#[test]
fn kinds_are_found_by_name(rt: HostRuntime) {
    for (name, wanted) in MESSAGES_BY_NAME {
        assert!(rt; msg_named(name) == wanted);
    }
    for (name, wanted) in PARAMETERS_BY_NAME {
        assert!(rt; param_named(name) == wanted);
    }
}

#[test]
fn fields_of_each_sort(rt: HostRuntime) {
    let signed = [("PeakRSSI", 8, false, 255, true)];
    expect_fields(&rt, ParamKind::PeakRssi.into(), &signed);
    let widest = [("EPC-96", 96, false, 0xFFFF_FFFF_FFFF_FFFF_FFFF_FFFF, false)];
    expect_fields(&rt, ParamKind::Epc96.into(), &widest);
    let ranged = [
        ("ROSpecID", 32, false, 0xFFFF_FFFF, false),
        ("Priority", 8, false, 7, false),
        ("CurrentState", 8, false, 2, false),
    ];
    expect_fields(&rt, ParamKind::RoSpec.into(), &ranged);
    let reserved = [
        ("ResetToFactoryDefault", 1, false, 1, false),
        ("R", 7, true, 0, false),
    ];
    expect_fields(&rt, MsgKind::SetReaderConfig.into(), &reserved);
    expect_fields(&rt, MsgKind::Keepalive.into(), &[]);
}

static TAILS: [(Kind, Tail); 5] = [
    (Kind::Parameter(ParamKind::AiSpec), Tail::Words),
    (Kind::Parameter(ParamKind::LlrpStatus), Tail::Text),
    (Kind::Parameter(ParamKind::EpcData), Tail::Bits),
    (Kind::Parameter(ParamKind::Epc96), Tail::Absent),
    (Kind::Message(MsgKind::RoAccessReport), Tail::Absent),
];

#[test]
fn tails_of_each_sort(rt: HostRuntime) {
    for (kind, wanted) in TAILS {
        assert!(rt; tail(kind) == wanted);
    }
}

#[test]
fn groups_of_each_sort(rt: HostRuntime) {
    let rospec: [WrittenGroup; 3] = [
        (&[ParamKind::RoBoundarySpec], 1, Some(1)),
        (&[ParamKind::AiSpec], 1, None),
        (&[ParamKind::RoReportSpec], 0, Some(1)),
    ];
    expect_groups(&rt, ParamKind::RoSpec.into(), &rospec);
    let report: [WrittenGroup; 1] = [(&[ParamKind::TagReportData], 0, None)];
    expect_groups(&rt, MsgKind::RoAccessReport.into(), &report);
    expect_groups(&rt, ParamKind::Epc96.into(), &[]);
}

static ONE_OF_TWO: [(ParamKind, usize, WrittenGroup); 2] = [
    (
        ParamKind::TagReportData,
        15,
        (&[ParamKind::Epc96, ParamKind::EpcData], 1, Some(1)),
    ),
    (
        ParamKind::ReaderEventNotificationData,
        9,
        (&[ParamKind::UtcTimestamp, ParamKind::Uptime], 1, Some(1)),
    ),
];

#[test]
fn one_child_of_several_kinds(rt: HostRuntime) {
    for (parent, count, wanted) in ONE_OF_TWO {
        let groups = groups(parent.into());
        assert_eq!(rt; groups.len(), count);
        assert_eq!(rt;
            groups
                .first()
                .map(|group| (group.members, group.least, group.most)),
            Some(wanted)
        );
    }
}

/// A parent, a child, and the child's place among the parent's groups: an index, and whether the group takes
/// one child at most.
type WrittenPlace = (Kind, ParamKind, Option<(u8, bool)>);

static PLACES: [WrittenPlace; 9] = [
    (
        Kind::Parameter(ParamKind::TagReportData),
        ParamKind::Epc96,
        Some((0, true)),
    ),
    (
        Kind::Parameter(ParamKind::TagReportData),
        ParamKind::EpcData,
        Some((0, true)),
    ),
    (
        Kind::Parameter(ParamKind::TagReportData),
        ParamKind::C1G2Pc,
        Some((14, false)),
    ),
    (
        Kind::Parameter(ParamKind::TagReportData),
        ParamKind::UtcTimestamp,
        None,
    ),
    (
        Kind::Message(MsgKind::SetReaderConfig),
        ParamKind::AntennaConfiguration,
        Some((4, false)),
    ),
    (
        Kind::Message(MsgKind::GetRoSpecsResponse),
        ParamKind::RoSpec,
        Some((1, false)),
    ),
    (
        Kind::Message(MsgKind::ErrorMessage),
        ParamKind::LlrpStatus,
        Some((0, true)),
    ),
    (
        Kind::Message(MsgKind::Keepalive),
        ParamKind::LlrpStatus,
        None,
    ),
    (
        Kind::Parameter(ParamKind::Epc96),
        ParamKind::AntennaId,
        None,
    ),
];

#[test]
fn children_have_their_places(rt: HostRuntime) {
    for (parent, child, wanted) in PLACES {
        let found = place(parent, child).map(|place| (place.index, place.once));
        assert!(rt; found == wanted);
    }
}

/// Parents, and the groups that each needs a child of, as bits.
static REQUIRED: [(Kind, u32); 5] = [
    (Kind::Parameter(ParamKind::RoSpec), 0b011),
    (Kind::Parameter(ParamKind::TagReportData), 0b1),
    (Kind::Message(MsgKind::SetReaderConfig), 0),
    (Kind::Message(MsgKind::GetRoSpecsResponse), 0b01),
    (Kind::Message(MsgKind::Keepalive), 0),
];

#[test]
fn required_groups_are_bits(rt: HostRuntime) {
    for (parent, wanted) in REQUIRED {
        assert_eq!(rt; required(parent), wanted);
    }
}

#[test]
fn labels_are_names(rt: HostRuntime) {
    let message = label(Kind::Message(MsgKind::Keepalive));
    assert_eq!(rt; message.octets, 9);
    assert!(rt; message.text == *b"KEEPALIVE                                       ");
    let parameter = label(Kind::Parameter(ParamKind::ReportBufferOverflowErrorEvent));
    assert_eq!(rt; parameter.octets, 30);
    assert!(rt; parameter.text == *b"ReportBufferOverflowErrorEvent                  ");
}
