//! Worked texts of EPCs and words.

use std::test::Fail;
use tag_bits::Word;
use tag_uri::{UriFault, parse, print, text_of_word, word_of_text};

/// Words and their texts.
const TEXTS: [(u128, &str); 15] = [
    (
        0x3200_0000_0000_0400_0000_0000,
        "urn:epc:tag:sgln-96:0.000000000001..0",
    ),
    (
        0x3200_0000_0000_0600_0000_0000,
        "urn:epc:raw:96.x320000000000060000000000",
    ),
    (
        0x3003_A352_9440_0000_0000_0000,
        "urn:epc:raw:96.x3003A3529440000000000000",
    ),
    (
        0x35FF_FFFF_FFFF_FFFF_FFFF_FFFF,
        "urn:epc:tag:gid-96:268435455.16777215.68719476735",
    ),
    (
        0x3114_257B_F400_0000_0100_0000,
        "urn:epc:tag:sscc-96:0.0614141.0000000001",
    ),
    (
        0x3300_0000_0000_0000_0000_0000,
        "urn:epc:tag:grai-96:0.000000000000..0",
    ),
    (
        0x2C00_0000_0000_0000_0000_0000,
        "urn:epc:tag:gdti-96:0.000000000000..0",
    ),
    (
        0x2D00_0000_0000_0000_0000_0000,
        "urn:epc:tag:gsrn-96:0.000000000000.00000",
    ),
    (
        0x2C74_257B_F460_7200_0000_0190,
        "urn:epc:tag:gdti-96:3.0614141.12345.400",
    ),
    (
        0x2D54_257B_F449_9602_D200_0000,
        "urn:epc:tag:gsrn-96:2.0614141.1234567890",
    ),
    (
        0x2D54_257B_F449_9602_D200_0001,
        "urn:epc:raw:96.x2D54257BF4499602D2000001",
    ),
    (
        0x2C1C_0000_0000_0000_0000_0000,
        "urn:epc:raw:96.x2C1C00000000000000000000",
    ),
    (
        0x30E3_A352_943F_FE7F_FFFF_FFFF,
        "urn:epc:tag:sgtin-96:7.999999999999.9.274877906943",
    ),
    (
        0x3018_0000_0000_0000_0000_0000,
        "urn:epc:tag:sgtin-96:0.000000.0000000.0",
    ),
    (
        0x3074_257B_F719_4E7F_FFFF_FFFF,
        "urn:epc:tag:sgtin-96:3.0614141.812345.274877906943",
    ),
];

/// Texts that are not a word's, with the first rule that refuses each.
const REFUSED: [(&str, UriFault, &str); 15] = [
    ("", UriFault::Start, "Start"),
    (
        "urn:epc:tag:SGTIN-96:3.0614141.812345.1",
        UriFault::Scheme,
        "Scheme",
    ),
    (
        "urn:epc:tag:sgtin-96:3.0614141.812345",
        UriFault::Parts,
        "Parts",
    ),
    (
        "urn:epc:tag:sgtin-96:3.061414a.812345.1",
        UriFault::Digit,
        "Digit",
    ),
    (
        "urn:epc:tag:sgtin-96:3.0614141.812345.007",
        UriFault::LeadingZero,
        "LeadingZero",
    ),
    (
        "urn:epc:tag:sgtin-96:8.0614141.812345.1",
        UriFault::Filter,
        "Filter",
    ),
    (
        "urn:epc:tag:sgtin-96:3.0614141.81234.1",
        UriFault::Digits,
        "Digits",
    ),
    (
        "urn:epc:tag:sgtin-96:3.0614141.812345.274877906944",
        UriFault::Range,
        "Range",
    ),
    (
        "urn:epc:tag:sgtin-96:3.0614141.812345.1000000000000000000000000000000000000000000000000000000000000",
        UriFault::Range,
        "Range",
    ),
    ("urn:epc:raw:96.x30", UriFault::RawForm, "RawForm"),
    (
        "urn:epc:raw:96.x3003a3529440000000000000",
        UriFault::RawForm,
        "RawForm",
    ),
    (
        "urn:epc:raw:96.x3074257BF7194E4000001A85",
        UriFault::RawOfLawful,
        "RawOfLawful",
    ),
    (
        "urn:epc:raw:96.x2C74257BF460720000000190",
        UriFault::RawOfLawful,
        "RawOfLawful",
    ),
    (
        "urn:epc:tag:gsrn-96:2.0614141.1234567890.0",
        UriFault::Parts,
        "Parts",
    ),
    (
        "urn:epc:tag:gdti-96:3.0614141.1234.400",
        UriFault::Digits,
        "Digits",
    ),
];

#[test]
fn words_and_texts(rt: HostRuntime) -> Result<(), Fail> {
    for (number, text) in TEXTS {
        let word = Word::new(number).ok_or("below 2 ^ 96")?;
        assert_eq!(rt; text_of_word(word).as_str(), text);
        assert_eq!(rt; word_of_text(text).ok(), Some(word));
    }
    Ok(())
}

#[test]
fn uri_refusals(rt: HostRuntime) {
    for (text, fault, name) in REFUSED {
        assert_eq!(rt; word_of_text(text).err(), Some(fault), "{text}");
        assert_eq!(rt; fault.name(), name);
    }
}

#[test]
fn one_sgtin(rt: HostRuntime) -> Result<(), Fail> {
    let text = "urn:epc:tag:sgtin-96:3.0614141.812345.6789";
    let epc = parse(text).ok().ok_or("an EPC")?;
    assert_eq!(rt; epc.to_word().number(), 0x3074_257B_F719_4E40_0000_1A85);
    assert_eq!(rt; print(&epc).as_str(), text);
    assert_eq!(rt;
        parse("urn:epc:raw:96.x320000000000060000000000").err(),
        Some(UriFault::Start)
    );
    Ok(())
}
