//! Words and EPCs of the standard's coding tables.

use tag_bits::Word;
use tag_epc::{Epc, EpcFault, Kind, Parts, WordFault, WordReason};

/// The parts of an EPC, its scheme, and the number of its word.
type Whole = (Parts, Kind, u128);

fn whole(epc: Epc) -> Whole {
    (epc.parts(), epc.kind(), epc.to_word().number())
}

/// The EPC whose word has the number, or why there is none.
fn read(number: u128) -> Option<Result<Whole, WordFault>> {
    match Epc::from_word(Word::new(number)?) {
        Ok(epc) => Some(Ok(whole(epc))),
        Err(fault) => Some(Err(fault)),
    }
}

/// Numbers of words of schemes with a company prefix: the scheme, the filter value, the digits of the company
/// prefix, the prefix, the reference, and the serial number.
static PARTITIONED: [(u128, Kind, u8, u8, u64, u64, u64); 8] = [
    (
        0x3074_257B_F719_4E40_0000_1A85,
        Kind::Sgtin,
        3,
        7,
        614_141,
        812_345,
        6_789,
    ),
    (
        0x3114_257B_F400_0000_0100_0000,
        Kind::Sscc,
        0,
        7,
        614_141,
        1,
        0,
    ),
    (0x3200_0000_0000_0400_0000_0000, Kind::Sgln, 0, 12, 1, 0, 0),
    (0x3300_0000_0000_0000_0000_0000, Kind::Grai, 0, 12, 0, 0, 0),
    (
        0x2C74_257B_F460_7200_0000_0190,
        Kind::Gdti,
        3,
        7,
        614_141,
        12_345,
        400,
    ),
    (0x2C00_0000_0000_0000_0000_0000, Kind::Gdti, 0, 12, 0, 0, 0),
    (
        0x2D54_257B_F449_9602_D200_0000,
        Kind::Gsrn,
        2,
        7,
        614_141,
        1_234_567_890,
        0,
    ),
    (0x2D00_0000_0000_0000_0000_0000, Kind::Gsrn, 0, 12, 0, 0, 0),
];

#[test]
fn words_with_a_company_prefix(rt: HostRuntime) {
    for (number, kind, filter, company_digits, company, reference, last) in PARTITIONED {
        let parts = Parts::Partitioned {
            kind,
            filter,
            company_digits,
            company,
            reference,
            last,
        };
        assert_eq!(rt; read(number), Some(Ok((parts, kind, number))));
    }
}

/// Numbers whose words have no EPC: the bit at which they fail, and why.
static FAULTY: [(u128, u32, WordReason); 8] = [
    (0x3114_257B_F400_0000_0100_0001, 72, WordReason::Zeros),
    (0x3200_0000_0000_0600_0000_0000, 54, WordReason::Reference),
    (0x3003_A352_9440_0000_0000_0000, 14, WordReason::Prefix),
    (0x307C_0000_0000_0000_0000_0000, 11, WordReason::Partition),
    (0x2D54_257B_F449_9602_D200_0001, 72, WordReason::Zeros),
    (0x2C1C_0000_0000_0000_0000_0000, 11, WordReason::Partition),
    // GIAI-96, which is left out, and a header that is reserved.
    (0x3400_0000_0000_0000_0000_0000, 0, WordReason::Header),
    (0x0000_0000_0000_0000_0000_0000, 0, WordReason::Header),
];

#[test]
fn words_of_no_epc(rt: HostRuntime) {
    for (number, bit, reason) in FAULTY {
        assert_eq!(rt; read(number), Some(Err(WordFault { bit, reason })));
    }
}

/// The EPC of numbers, or the first of them that is refused.
fn made(epc: Result<Epc, EpcFault>) -> Result<Whole, EpcFault> {
    Ok(whole(epc?))
}

/// The filter value, the digits of the company prefix, the prefix, the reference and the serial number of
/// SGTINs, and the number of the word, or the first fault.
static SGTINS: [(u8, u8, u64, u64, u64, Result<u128, EpcFault>); 9] = [
    (
        7,
        12,
        999_999_999_999,
        9,
        274_877_906_943,
        Ok(0x30E3_A352_943F_FE7F_FFFF_FFFF),
    ),
    (0, 6, 0, 0, 0, Ok(0x3018_0000_0000_0000_0000_0000)),
    (8, 7, 614_141, 812_345, 6_789, Err(EpcFault::Filter)),
    (3, 7, 10_000_000, 812_345, 6_789, Err(EpcFault::Prefix)),
    (3, 7, 614_141, 1_000_000, 6_789, Err(EpcFault::Reference)),
    (3, 7, 614_141, 812_345, 274_877_906_944, Err(EpcFault::Last)),
    (3, 5, 614_141, 812_345, 6_789, Err(EpcFault::Digits)),
    (3, 13, 614_141, 812_345, 6_789, Err(EpcFault::Digits)),
    (8, 5, 614_141, 812_345, 6_789, Err(EpcFault::Filter)),
];

#[test]
fn sgtins(rt: HostRuntime) {
    for (filter, company_digits, company, reference, last, wanted) in SGTINS {
        let kind = Kind::Sgtin;
        let parts = Parts::Partitioned {
            kind,
            filter,
            company_digits,
            company,
            reference,
            last,
        };
        let epc = Epc::partitioned(kind, filter, company_digits, company, reference, last);
        assert_eq!(rt; made(epc), wanted.map(|number| (parts, kind, number)));
    }
}

#[test]
fn sscc_of_a_serial_number(rt: HostRuntime) {
    let epc = Epc::partitioned(Kind::Sscc, 0, 7, 614_141, 1, 1);
    assert_eq!(rt; made(epc), Err(EpcFault::Last));
}

/// The numbers of GIDs, and the number of the word, or the first fault.
static GIDS: [(u64, u64, u64, Result<u128, EpcFault>); 4] = [
    (
        268_435_455,
        16_777_215,
        68_719_476_735,
        Ok(0x35FF_FFFF_FFFF_FFFF_FFFF_FFFF),
    ),
    (268_435_456, 16_777_216, 0, Err(EpcFault::Prefix)),
    (0, 16_777_216, 0, Err(EpcFault::Reference)),
    (0, 0, 68_719_476_736, Err(EpcFault::Last)),
];

#[test]
fn gids(rt: HostRuntime) {
    for (manager, object_class, serial, wanted) in GIDS {
        let parts = Parts::General {
            manager,
            object_class,
            serial,
        };
        let made = made(Epc::gid(manager, object_class, serial));
        assert_eq!(rt; made, wanted.map(|number| (parts, Kind::Gid, number)));
    }
}

#[test]
fn word_of_the_greatest_gid(rt: HostRuntime) {
    let parts = Parts::General {
        manager: 268_435_455,
        object_class: 16_777_215,
        serial: 68_719_476_735,
    };
    let number = 0x35FF_FFFF_FFFF_FFFF_FFFF_FFFF;
    assert_eq!(rt; read(number), Some(Ok((parts, Kind::Gid, number))));
}

#[test]
fn scheme_names(rt: HostRuntime) {
    let rows = [
        (Kind::Sgtin, "sgtin-96"),
        (Kind::Sscc, "sscc-96"),
        (Kind::Sgln, "sgln-96"),
        (Kind::Grai, "grai-96"),
        (Kind::Gdti, "gdti-96"),
        (Kind::Gsrn, "gsrn-96"),
        (Kind::Gid, "gid-96"),
    ];
    for (kind, name) in rows {
        assert_eq!(rt; kind.name(), name);
    }
}

#[test]
fn reason_names(rt: HostRuntime) {
    let rows = [
        (WordReason::Header, "Header"),
        (WordReason::Partition, "Partition"),
        (WordReason::Prefix, "Prefix"),
        (WordReason::Reference, "Reference"),
        (WordReason::Zeros, "Zeros"),
    ];
    for (reason, name) in rows {
        assert_eq!(rt; reason.name(), name);
    }
}
