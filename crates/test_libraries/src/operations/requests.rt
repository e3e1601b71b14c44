//! The AccessSpec of a request.

use llrp_operations::{Operation, Request, access_spec};
use llrp_schema::MsgKind;
use llrp_tree::{MAX_LIMIT, Message, Nodes, Octets, encode_into};
use std::alloc::Global;
use std::test::*;
use tag_memory::Bank;

/// ADD_ACCESSSPEC of AccessSpec 10 for antenna 1, C1G2 and ROSpec 7, which ends after one tag: of the tag
/// with the first EPC, the six words from word 2 of the EPC bank on are written (LLRP 1.1, sections 12 and
/// 16). The first mask has the five bits of the EPC's length in words, six, and the second the EPC's 96 bits.
const ADDED: [u8; 121] = [
    0x04, 0x28, 0, 0, 0, 0x79, 0, 0, 0, 3, // the header
    0x00, 0xcf, 0x00, 0x6f, 0, 0, 0, 10, 0, 1, 1, 0, 0, 0, 0, 7, // AccessSpec
    0x00, 0xd0, 0x00, 0x07, 1, 0, 1, // AccessSpecStopTrigger
    0x00, 0xd1, 0x00, 0x53, 0x01, 0x52, 0x00, 0x34, // AccessCommand, C1G2TagSpec
    0x01, 0x53, 0x00, 0x0d, 0x60, 0x00, 0x10, 0x00, 0x05, // C1G2TargetTag
    0xf8, 0x00, 0x05, 0x30, // its mask and its data
    0x01, 0x53, 0x00, 0x23, 0x60, 0x00, 0x20, 0x00, 0x60, // C1G2TargetTag
    0xff, 0xff, 0xff, 0xff, 0xff, 0xff, 0xff, 0xff, 0xff, 0xff, 0xff, 0xff, // its mask
    0x00, 0x60, 0x30, 0x74, 0x25, 0x7b, 0xf7, 0x19, 0x4e, 0x40, 0x00, 0x00, 0x1a, 0x85, // its data
    0x01, 0x56, 0x00, 0x1b, 0, 1, 0, 0, 0, 0, 0x40, 0, 2, 0, 6, // C1G2Write
    0x30, 0x74, 0x25, 0x7b, 0xf7, 0x19, 0x4e, 0x40, 0x00, 0x00, 0x1a, 0x86, // its words
    0x00, 0xef, 0x00, 0x05, 0, // AccessReportSpec
];

/// The octets of ADD_ACCESSSPEC with the AccessSpec of a request.
fn octets_of(alloc: Global, request: Request<'_>) -> Option<Vec<u8>> {
    let spec = access_spec(alloc, request).ok()?;
    let parts = Vec::from_array(alloc, [spec]).ok()?;
    let kind = MsgKind::WholeAddAccessSpec;
    let message = Message::new(1, 3, kind, &[], Nodes::new(parts)).ok()?;
    let mut octets = Vec::new(alloc);
    encode_into(alloc, &message, &mut octets, MAX_LIMIT).ok()?;
    Some(octets)
}

#[test]
fn an_epc_is_written(rt: HostRuntime) {
    let alloc = rt.alloc();
    let epc = [
        0x30, 0x74, 0x25, 0x7b, 0xf7, 0x19, 0x4e, 0x40, 0x00, 0x00, 0x1a, 0x85,
    ];
    let words = [0x3074, 0x257b, 0xf719, 0x4e40, 0x0000, 0x1a86];
    let Ok(words) = words.to_vec(alloc) else {
        panic!(rt; "memory ran out");
    };
    let operation = Operation::Write {
        bank: Bank::Epc,
        pointer: 2,
        words,
    };
    let operations = [operation];
    let octets = octets_of(
        alloc,
        Request {
            id: 10,
            antenna: 1,
            rospec: 7,
            password: 0,
            epc: &epc,
            operations: &operations,
        },
    );
    assert!(rt; octets.is_some_and(|octets| octets.as_slice() == ADDED.as_slice()));
}
