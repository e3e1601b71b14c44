//! The examples of the libraries of tables and of messages.

use json::Scratch;
use llrp_enumerations::name_of;
use llrp_explain::line_of;
use llrp_json_read::read_line;
use llrp_schema::{Kind, KindSet, fields, param_named};
use llrp_tree::{
    EncodeErr, MAX_LIMIT, Message, MsgKind, MsgRefusal, NodeFault, Nodes, ParamKind, encode_into,
};
use std::alloc::Global;
use std::test::Fail;
use test_devices::spell;

#[test]
fn llrp_schema_example(rt: HostRuntime) {
    assert_eq!(rt; fields(Kind::Parameter(ParamKind::AntennaId)).len(), 1);
    let kind = Kind::Parameter(ParamKind::AntennaId);
    let width = fields(kind)[0].width; // 16 bits
    let found = param_named("AntennaID"); // Some(ParamKind::AntennaId)
    assert_eq!(rt; width, 16);
    assert_eq!(rt; found, Some(ParamKind::AntennaId));
}

#[test]
fn llrp_enumerations_example(rt: HostRuntime) {
    let kind = Kind::Parameter(ParamKind::RoReportSpec);
    let name = name_of(kind, b"Trigger", 2); // Some("Upon_N_Tags_Or_End_Of_ROSpec")
    assert!(rt; matches!(name, Some("Upon_N_Tags_Or_End_Of_ROSpec")));
    assert!(rt; name_of(kind, b"Trigger", 3).is_none());
    assert!(rt; name_of(kind, b"N", 2).is_none());
}

#[test]
fn llrp_explain_example(rt: HostRuntime) -> Result<(), Fail> {
    let alloc = rt.alloc();
    let line = line_of(alloc, KindSet::Profile, b"AntennaID")?; // 1 AntennaID: AntennaID 16; -; in TagReportData
    assert!(rt; line.as_slice() == b"1 AntennaID: AntennaID 16; -; in TagReportData\n".as_slice());
    Ok(())
}

#[test]
fn llrp_json_read_example(rt: HostRuntime) -> Result<(), Fail> {
    let alloc = rt.alloc();
    let line = b"{\"id\":7,\"version\":2,\"message\":\"KEEPALIVE\"}".as_slice();
    let mut scratch = Scratch::new(alloc);
    let message = read_line(alloc, KindSet::Profile, line, &mut scratch)?; // {"id":7,"version":2,"message":"KEEPALIVE"}
    assert_eq!(rt; message.id(), 7);
    Ok(())
}

/// Why a message is not made, or not encoded.
#[derive(Clone, Copy, Debug, PartialEq)]
enum Refused {
    Message(NodeFault),
    Encoding(EncodeErr),
}

impl From<MsgRefusal> for Refused {
    fn from(refusal: MsgRefusal) -> Refused {
        Refused::Message(refusal.fault)
    }
}

impl From<EncodeErr> for Refused {
    fn from(error: EncodeErr) -> Refused {
        Refused::Encoding(error)
    }
}

/// The octets of a message.
fn llrp_tree_message(alloc: Global) -> Result<Vec<u8>, Refused> {
    let mut bytes = Vec::new(alloc);
    let keepalive = Message::new(2, 7, MsgKind::Keepalive, &[], Nodes::new(Vec::new(alloc)))?;
    encode_into(alloc, &keepalive, &mut bytes, MAX_LIMIT)?; // 08 3E 00 00 00 0A 00 00 00 07
    Ok(bytes)
}

#[test]
fn llrp_tree_example(rt: HostRuntime) -> Result<(), Fail> {
    let bytes = llrp_tree_message(rt.alloc())?;
    assert!(rt; spell(rt.alloc(), &["083E0000000A00000007"], bytes.as_slice())?);
    Ok(())
}
