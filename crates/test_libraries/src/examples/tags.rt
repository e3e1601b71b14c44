//! The examples of the libraries of tags.

use std::test::Fail;
use tag_bits::{Word, get};
use tag_epc::{Epc, Kind};
use tag_uri::{text_of_word, word_of_text};

#[test]
fn tag_bits_example(rt: HostRuntime) {
    let octets = [0x04, 0x3E, 0x00, 0x0A];
    let kind = get(&octets, 6, 10); // 0x3E: ten bits from bit 6 on
    let word = Word::of_bytes([
        0x30, 0x74, 0x25, 0x7B, 0xF7, 0x19, 0x4E, 0x40, 0x00, 0x00, 0x1A, 0x85,
    ]);
    assert_eq!(rt; kind, 0x3E);
    assert_eq!(rt; word.number(), 0x3074_257B_F719_4E40_0000_1A85);
}

#[test]
fn tag_epc_example(rt: HostRuntime) -> Result<(), Fail> {
    let epc = Epc::partitioned(Kind::Sgtin, 3, 7, 614141, 812345, 6789)?;
    let word = epc.to_word(); // 3074257BF7194E4000001A85
    let again = Epc::from_word(word)?; // the same EPC
    assert_eq!(rt; word.number(), 0x3074_257B_F719_4E40_0000_1A85);
    assert_eq!(rt; again, epc);
    Ok(())
}

#[test]
fn tag_uri_example(rt: HostRuntime) -> Result<(), Fail> {
    let word = Word::of_bytes([
        0x30, 0x74, 0x25, 0x7B, 0xF7, 0x19, 0x4E, 0x40, 0x00, 0x00, 0x1A, 0x85,
    ]);
    let text = text_of_word(word); // urn:epc:tag:sgtin-96:3.0614141.812345.6789
    assert_eq!(rt; text.as_str(), "urn:epc:tag:sgtin-96:3.0614141.812345.6789");
    let word = word_of_text("urn:epc:raw:96.xE20000000000000000000001")?;
    assert_eq!(rt; word.number(), 0xE200_0000_0000_0000_0000_0001);
    Ok(())
}
