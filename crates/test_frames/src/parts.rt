//! A node's own fields and tail: their tests, their octets, and the octets before a tail.

ghost use Rattle.std.specs.Prelude.{◌≤◌, length};

use llrp_tree::{
    HeadOctets, Kind, MsgKind, NodeFault, ParamKind, message_start, own_fault, own_octets,
    parameter_start, tv_start,
};
use std::process::Abort;

/// A kind, the values of its fields, its tail, and the first of its own tests that fails.
static OWN_FAULTS: [(Kind, &[u128], &[u8], Option<NodeFault>); 7] = [
    (Kind::Message(MsgKind::Keepalive), &[], &[], None),
    (Kind::Parameter(ParamKind::AntennaId), &[65535], &[], None),
    (
        Kind::Parameter(ParamKind::AntennaId),
        &[65536],
        &[],
        Some(NodeFault::Value),
    ),
    (
        Kind::Parameter(ParamKind::EpcData),
        &[12],
        &[0xAB, 0xC0],
        None,
    ),
    (
        Kind::Parameter(ParamKind::EpcData),
        &[12],
        &[0xAB],
        Some(NodeFault::Tail),
    ),
    (Kind::Parameter(ParamKind::LlrpStatus), &[100], b"no", None),
    (
        Kind::Parameter(ParamKind::LlrpStatus),
        &[100],
        &[0xFF],
        Some(NodeFault::Tail),
    ),
];

/// A kind, a tail, and the octets of a node without its children.
static OWN_OCTETS: [(Kind, &[u8], u128); 4] = [
    (Kind::Message(MsgKind::Keepalive), &[], 10),
    (Kind::Parameter(ParamKind::AntennaId), &[], 3),
    (Kind::Parameter(ParamKind::Epc96), &[], 13),
    (Kind::Parameter(ParamKind::LlrpStatus), b"no", 10),
];

#[test]
fn own_tests_and_octets(rt: HostRuntime) {
    for (kind, values, tail, fault) in OWN_FAULTS {
        assert!(rt; own_fault(kind, values, tail) == fault);
    }
    for (kind, tail, octets) in OWN_OCTETS {
        assert!(rt; own_octets(kind, tail) == octets);
    }
}

/// The octets of a start are these.
fn is_start(rt: &impl Abort, start: HeadOctets, octets: &[u8])
    requires { start.from ≤ length start.octets }
{
    let (_, spelled) = start.octets.as_slice().split_at(start.from);
    assert!(rt; spelled == octets);
}

#[test]
#[tactic(auto, unfolding(llrp_schema::specs::Schema::fields_of, llrp_schema::specs::Schema::tail_of, llrp_schema::specs::Schema::rule_of, llrp_schema::specs::Schema::param_rule, llrp_schema::specs::Schema::message_rule))]
fn starts_of_nodes(rt: HostRuntime) {
    let status = parameter_start(ParamKind::LlrpStatus, 10, &[100], b"no");
    is_start(&rt, status, &[0x01, 0x1F, 0, 10, 0, 100, 0, 2]);
    let keepalive = message_start(1, MsgKind::Keepalive, 10, 5, &[]);
    is_start(&rt, keepalive, &[0x04, 0x3E, 0, 0, 0, 10, 0, 0, 0, 5]);
}
