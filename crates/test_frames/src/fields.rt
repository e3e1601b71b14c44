//! Fields of lists of octets.

use tag_bits::{get, put};

#[test]
fn reads_whole_and_part_octets(rt: HostRuntime) {
    let octets = [
        0xA5, 0x3C, 0x0F, 0x96, 0xFF, 0x00, 0x81, 0x7E, 0x12, 0x34, 0x56, 0x78, 0x9A, 0xBC, 0xDE,
        0xF0, 0x5A, 0xC3,
    ];
    for (place, width, number) in [
        // Whole octets.
        (0, 8, 0xA5),
        (8, 8, 0x3C),
        (16, 16, 0x0F96),
        (32, 32, 0xFF00_817E),
        (64, 64, 0x1234_5678_9ABC_DEF0),
        // Part of one octet.
        (0, 3, 0b101),
        (2, 3, 0b100),
        (4, 4, 0x5),
        // Over the edge of an octet.
        (4, 8, 0x53),
        (6, 10, 0x13C),
        (12, 16, 0xC0F9),
        (31, 2, 0b01),
        (39, 10, 0x201),
        // Single bits, the last one too.
        (0, 1, 1),
        (1, 1, 0),
        (142, 1, 1),
        (143, 1, 1),
        (136, 8, 0xC3),
        // 128 bits: sixteen octets, seventeen, and up to the last bit.
        (0, 128, 0xA53C_0F96_FF00_817E_1234_5678_9ABC_DEF0),
        (4, 128, 0x53C0_F96F_F008_17E1_2345_6789_ABCD_EF05),
        (16, 128, 0x0F96_FF00_817E_1234_5678_9ABC_DEF0_5AC3),
    ] {
        assert!(rt; 1 <= width && width <= 128 && place <= 144 - width as usize);
        assert_eq!(rt;
            get(&octets, place, width),
            number,
            "{width} bits from bit {place} on"
        );
    }
}

#[test]
fn writes_whole_and_part_octets(rt: HostRuntime) {
    for (octets, place, width, value, want) in [
        // Whole octets.
        (0x0000_0000_u32, 0, 8, 0xA5, 0xA500_0000_u32),
        (0xFFFF_FFFF, 8, 16, 0x0000, 0xFF00_00FF),
        (0xA53C_0F96, 0, 32, 0xDEAD_BEEF, 0xDEAD_BEEF),
        // Part of one octet.
        (0xFFFF_FFFF, 3, 2, 0b01, 0xEFFF_FFFF),
        (0xFFFF_FFFF, 9, 3, 0b101, 0xFFDF_FFFF),
        // Over the edge of an octet.
        (0xFFFF_FFFF, 4, 8, 0x00, 0xF00F_FFFF),
        (0xFFFF_FFFF, 7, 2, 0b00, 0xFE7F_FFFF),
        (0x0000_0000, 6, 10, 0x13C, 0x013C_0000),
        (0x0000_0000, 12, 12, 0xABC, 0x000A_BC00),
        (0xA53C_0F96, 5, 20, 0x00000, 0xA000_0016),
        (0xA53C_0F96, 5, 20, 0xFFFFF, 0xA7FF_FF96),
        // The first bit and the last.
        (0x0000_0000, 0, 1, 1, 0x8000_0000),
        (0x0000_0000, 31, 1, 1, 0x0000_0001),
        (0xFFFF_FFFF, 1, 31, 0, 0x8000_0000),
    ] {
        let mut written = octets.to_be_bytes();
        assert!(rt;
            1 <= width && width <= 32 && place <= 32 - width as usize && value < 1 << width
        );
        put(&mut written, place, width, value);
        assert_eq!(rt;
            u32::from_be_bytes(written),
            want,
            "{width} bits from bit {place} on"
        );
    }
}

#[test]
fn writes_128_bits(rt: HostRuntime) {
    let mut octets = [0xFF; 18];
    put(
        &mut octets,
        4,
        128,
        0x0123_4567_89AB_CDEF_FEDC_BA98_7654_3210,
    );
    let over_seventeen = [
        0xF0, 0x12, 0x34, 0x56, 0x78, 0x9A, 0xBC, 0xDE, 0xFF, 0xED, 0xCB, 0xA9, 0x87, 0x65, 0x43,
        0x21, 0x0F, 0xFF,
    ];
    assert_eq!(rt; octets, over_seventeen);
    put(&mut octets, 16, 128, 0);
    let up_to_the_end = [0xF0, 0x12, 0, 0, 0, 0, 0, 0, 0, 0, 0, 0, 0, 0, 0, 0, 0, 0];
    assert_eq!(rt; octets, up_to_the_end);
}
