//! The first faults of parameters and messages, and the octets of a report.

use llrp_tree::{
    EncodeErr, Message, MsgKind, Node, NodeFault, Nodes, Octets, ParamKind, encode_into,
};
use std::alloc::Global;

/// The length of a parameter of these parts, or its first fault.
fn length_of(
    kind: ParamKind,
    fields: &[u128],
    tail: Vec<u8>,
    children: Vec<Node>,
) -> Result<u32, NodeFault> {
    match Node::new(kind, fields, Octets::new(tail), Nodes::new(children)) {
        Ok(node) => Ok(node.length()),
        Err(refusal) => Err(refusal.fault),
    }
}

/// The same of a parameter without children.
fn length_of_leaf(
    alloc: Global,
    kind: ParamKind,
    fields: &[u128],
    tail: &[u8],
) -> Option<Result<u32, NodeFault>> {
    let tail = tail.to_vec(alloc).ok()?;
    Some(length_of(kind, fields, tail, Vec::new(alloc)))
}

/// A parameter's kind, its fields and its tail, and its first fault.
static LEAVES: [(ParamKind, &[u128], &[u8], NodeFault); 3] = [
    (ParamKind::UtcTimestamp, &[], &[], NodeFault::FieldCount),
    (ParamKind::RoSpecEvent, &[3, 1, 0], &[], NodeFault::Value),
    (ParamKind::AiSpec, &[], &[1], NodeFault::Tail),
];

#[test]
fn faults_of_fields_and_tails(rt: HostRuntime) {
    for (kind, fields, tail, fault) in &LEAVES {
        let found = length_of_leaf(rt.alloc(), *kind, fields, tail);
        assert_eq!(rt; found, Some(Err(*fault)));
    }
}

/// A parameter without a tail.
fn node(alloc: Global, kind: ParamKind, fields: &[u128], children: Vec<Node>) -> Option<Node> {
    let tail = Octets::new(Vec::new(alloc));
    Node::new(kind, fields, tail, Nodes::new(children)).ok()
}

/// Appends a parameter of one field.
fn push_leaf(alloc: Global, nodes: &mut Vec<Node>, kind: ParamKind, field: u128) -> Option<()> {
    nodes
        .push(node(alloc, kind, &[field], Vec::new(alloc))?)
        .ok()
}

/// Parameters of these kinds and fields.
fn leaves(alloc: Global, rows: &[(ParamKind, u128)]) -> Option<Vec<Node>> {
    let mut nodes = Vec::new(alloc);
    for (kind, field) in rows {
        push_leaf(alloc, &mut nodes, *kind, *field)?;
    }
    Some(nodes)
}

/// The length of a TagReportData over these children, or its first fault.
fn length_of_report(alloc: Global, children: Vec<Node>) -> Result<u32, NodeFault> {
    length_of(ParamKind::TagReportData, &[], Vec::new(alloc), children)
}

/// The children of a TagReportData, and its first fault.
static REPORTS: [(&[(ParamKind, u128)], NodeFault); 3] = [
    (&[(ParamKind::UtcTimestamp, 5)], NodeFault::Misplaced),
    (
        &[
            (ParamKind::Epc96, 7),
            (ParamKind::PeakRssi, 196),
            (ParamKind::PeakRssi, 196),
        ],
        NodeFault::TooMany,
    ),
    (&[], NodeFault::Missing),
];

/// The length of a TagReportData over children of these kinds and fields, or its first fault.
fn length_over(alloc: Global, rows: &[(ParamKind, u128)]) -> Option<Result<u32, NodeFault>> {
    Some(length_of_report(alloc, leaves(alloc, rows)?))
}

#[test]
fn faults_of_children(rt: HostRuntime) {
    for (children, fault) in &REPORTS {
        let found = length_over(rt.alloc(), children);
        assert_eq!(rt; found, Some(Err(*fault)));
    }
}

/// A list of one parameter.
fn only(alloc: Global, child: Node) -> Option<Vec<Node>> {
    let mut children = Vec::new(alloc);
    children.push(child).ok()?;
    Some(children)
}

/// The length of an LLRPStatus over this many nested ParameterErrors, or its first fault.
fn length_of_nest(alloc: Global, errors: u32) -> Option<Result<u32, NodeFault>> {
    let mut children = Vec::new(alloc);
    for _ in 0..errors {
        let error = node(alloc, ParamKind::ParameterError, &[1, 2], children)?;
        children = only(alloc, error)?;
    }
    Some(length_of(ParamKind::LlrpStatus, &[0], Vec::new(alloc), children))
}

#[test]
fn nested_errors_have_sixteen_levels(rt: HostRuntime) {
    // Each parameter has a header of 4 octets and fields of 4.
    assert_eq!(rt; length_of_nest(rt.alloc(), 15), Some(Ok(16 * 8)));
    assert_eq!(rt;
        length_of_nest(rt.alloc(), 16),
        Some(Err(NodeFault::TooDeep))
    );
}

/// The length of a TagReportData of an EPC-96 and this many C1G2-CRC, or its first fault.
fn length_of_long(alloc: Global, more: u32) -> Option<Result<u32, NodeFault>> {
    let mut children = Vec::new(alloc);
    push_leaf(alloc, &mut children, ParamKind::Epc96, 7)?;
    for _ in 0..more {
        push_leaf(alloc, &mut children, ParamKind::C1G2Crc, 1)?;
    }
    Some(length_of_report(alloc, children))
}

#[test]
fn longest_report(rt: HostRuntime) {
    assert_eq!(rt; length_of_long(rt.alloc(), 21_839), Some(Ok(65_534)));
    assert_eq!(rt;
        length_of_long(rt.alloc(), 21_840),
        Some(Err(NodeFault::TooLong))
    );
}

/// The length of a report of this many tags of 17 octets and three of 19, or its first fault.
fn length_of_tags(alloc: Global, tags: u32) -> Option<Result<u32, NodeFault>> {
    let quiet = [(ParamKind::Epc96, 7)];
    let loud = [(ParamKind::Epc96, 7), (ParamKind::PeakRssi, 196)];
    let mut data = Vec::new(alloc);
    for _ in 0..tags {
        let tag = node(alloc, ParamKind::TagReportData, &[], leaves(alloc, &quiet)?)?;
        data.push(tag).ok()?;
    }
    for _ in 0..3u32 {
        let tag = node(alloc, ParamKind::TagReportData, &[], leaves(alloc, &loud)?)?;
        data.push(tag).ok()?;
    }
    match Message::new(1, 1, MsgKind::RoAccessReport, &[], Nodes::new(data)) {
        Ok(message) => Some(Ok(message.length())),
        Err(refusal) => Some(Err(refusal.fault)),
    }
}

#[test]
fn longest_message(rt: HostRuntime) {
    assert_eq!(rt; length_of_tags(rt.alloc(), 61_677), Some(Ok(1_048_576)));
    assert_eq!(rt;
        length_of_tags(rt.alloc(), 61_678),
        Some(Err(NodeFault::TooLong))
    );
}

/// RO_ACCESS_REPORT of version 1 and id 1 with one EPC-96.
fn sgtin_report(alloc: Global) -> Option<Message> {
    let epc = leaves(alloc, &[(ParamKind::Epc96, 0x3074257BF7194E4000001A85)])?;
    let data = node(alloc, ParamKind::TagReportData, &[], epc)?;
    let children = Nodes::new(only(alloc, data)?);
    Message::new(1, 1, MsgKind::RoAccessReport, &[], children).ok()
}

static SGTIN_REPORT: [u8; 27] = [
    0x04, 0x3D, 0, 0, 0, 0x1B, 0, 0, 0, 1, 0, 0xF0, 0, 0x11, 0x8D, 0x30, 0x74, 0x25, 0x7B, 0xF7,
    0x19, 0x4E, 0x40, 0, 0, 0x1A, 0x85,
];

/// Whether the report spells its 27 octets.
fn is_spelled(alloc: Global, report: &Message, out: &mut Vec<u8>) -> bool {
    encode_into(alloc, report, out, 27) == Ok(()) && out.as_slice() == SGTIN_REPORT.as_slice()
}

/// Whether the report is longer than 26 octets: then nothing is written after what is there.
fn is_over_limit(alloc: Global, report: &Message, out: &mut Vec<u8>) -> bool {
    out.push(9).is_ok()
        && encode_into(alloc, report, out, 26) == Err(EncodeErr::OverLimit)
        && out.as_slice() == [9].as_slice()
}

/// Whether the report spells its octets, also where another limit was refused before.
fn spells(alloc: Global) -> Option<bool> {
    let report = sgtin_report(alloc)?;
    let mut out = Vec::new(alloc);
    let is_refused = is_over_limit(alloc, &report, &mut out);
    out.clear();
    let is_spelled_later = is_spelled(alloc, &report, &mut out);
    let is_spelled_anew = is_spelled(alloc, &report, &mut Vec::new(alloc));
    Some(is_refused && is_spelled_later && is_spelled_anew)
}

#[test]
fn one_sgtin_report(rt: HostRuntime) {
    assert_eq!(rt; spells(rt.alloc()), Some(true));
}

/// The length of a message of these parts, or its first fault.
fn length_of_message(
    version: u8,
    id: u32,
    kind: MsgKind,
    fields: &[u128],
    children: Vec<Node>,
) -> Result<u32, NodeFault> {
    match Message::new(version, id, kind, fields, Nodes::new(children)) {
        Ok(message) => Ok(message.length()),
        Err(refusal) => Err(refusal.fault),
    }
}

/// Copies of parameters.
fn copies(alloc: Global, nodes: &[Node]) -> Option<Vec<Node>> {
    let mut copies = Vec::new(alloc);
    for node in nodes {
        copies.push(node.try_clone(alloc).ok()?).ok()?;
    }
    Some(copies)
}

/// Whether a copy of the report spells its octets.
fn is_spelled_by_copy(alloc: Global, copy: &Message) -> bool {
    is_spelled(alloc, copy, &mut Vec::new(alloc))
}

/// The length of a report over copies of the children of a copy of the report, if that spells its octets.
fn length_of_copy(alloc: Global) -> Option<Result<u32, NodeFault>> {
    let report = sgtin_report(alloc)?.try_clone(alloc).ok()?;
    if !is_spelled_by_copy(alloc, &report) {
        return None;
    }
    let children = copies(alloc, report.into_children().as_slice())?;
    Some(length_of_message(2, 1, MsgKind::RoAccessReport, &[], children))
}

#[test]
fn clones_spell_the_same_with_ample_memory(rt: HostRuntime) {
    assert_eq!(rt; length_of_copy(rt.alloc()), Some(Ok(27)));
}

#[test]
fn versions_of_messages(rt: HostRuntime) {
    let none = Vec::new(rt.alloc());
    let third = length_of_message(3, 1, MsgKind::Keepalive, &[], none);
    assert_eq!(rt; third, Err(NodeFault::Value));
    let none = Vec::new(rt.alloc());
    let second = length_of_message(2, 7, MsgKind::StartRoSpec, &[9], none);
    assert_eq!(rt; second, Ok(14));
}
