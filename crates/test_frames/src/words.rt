//! Parts of 96-bit words.

use tag_bits::Word;

/// The word of urn:epc:tag:sgtin-96:3.0614141.812345.6789, an example of TDS 1.13.
const SGTIN: [u8; 12] = [
    0x30, 0x74, 0x25, 0x7B, 0xF7, 0x19, 0x4E, 0x40, 0x00, 0x00, 0x1A, 0x85,
];

#[test]
fn parts_of_an_sgtin(rt: HostRuntime) {
    let word = Word::of_bytes(SGTIN);
    assert_eq!(rt; word.number(), 0x3074_257B_F719_4E40_0000_1A85);
    for (place, width, number) in [
        (0, 8, 0x30),
        (8, 3, 3),
        (11, 3, 5),
        (14, 24, 614_141),
        (38, 20, 812_345),
        (58, 38, 6_789),
        (0, 96, 0x3074_257B_F719_4E40_0000_1A85),
        (95, 1, 1),
        (0, 1, 0),
        (0, 0, 0),
        (96, 0, 0),
    ] {
        assert!(rt; width <= 96 && place <= 96 - width);
        assert_eq!(rt;
            word.part(place, width),
            number,
            "{width} bits from bit {place} on"
        );
    }
}

#[test]
fn sgtin_from_its_parts(rt: HostRuntime) {
    let mut word = Word::of_bytes([0xFF; 12]);
    for (place, width, value) in [
        (0, 8, 0x30),
        (8, 3, 3),
        (11, 3, 5),
        (14, 24, 614_141),
        (38, 20, 812_345),
        (58, 38, 6_789),
        (96, 0, 0),
    ] {
        assert!(rt; width <= 96 && place <= 96 - width && value < 1 << width);
        word = word.with(place, width, value);
    }
    assert_eq!(rt; word.to_bytes(), SGTIN);
}

#[test]
fn numbers_below_two_to_96(rt: HostRuntime) {
    let greatest = 0xFFFF_FFFF_FFFF_FFFF_FFFF_FFFF;
    assert_eq!(rt; Word::new(greatest), Some(Word::of_bytes([0xFF; 12])));
    assert_eq!(rt; Word::new(greatest + 1), None);
    assert_eq!(rt; Word::new(u128::MAX), None);
    assert!(rt; Word::new(0) < Word::new(greatest));
}
