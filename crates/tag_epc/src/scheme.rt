//! The schemes with a company prefix (EPC Tag Data Standard 1.13, section 14.5).

ghost use Rattle.std.specs.Prelude.{◌≡◌, ℕ, ◌^◌, ◌≤◌, Bool, true, refl, slice_get};
ghost use Rattle.tag_epc.specs.Layout.{partition_table};

/// How a partition value divides the bits and the decimal digits between company prefix and
/// reference.
#[derive(Clone, Copy, PartialEq, Eq, Debug)]
pub struct Row {
    pub company_bits: u32,
    pub company_digits: u32,
    pub reference_bits: u32,
    pub reference_digits: u32,
}

/// A scheme with a company prefix: its word is a header of 8 bits, a filter value of 3, a partition
/// value of 3, company prefix and reference by the partition value's row, and a last segment.
pub trait Scheme {
    ghost use Rattle.tag_epc.specs.Layout.{Layout, row_at};
    ghost use Rattle.tag_epc.specs.Calls.Layout.{is_sound};

    ghost layout: { Layout };

    ghost HEADER: { ℕ };

    ghost LAST_BITS: { ℕ };

    ghost ZERO_TAIL: { Bool };

    /// The first eight bits of each word.
    const HEADER: u8;

    /// The width of the last segment.
    const LAST_BITS: u32;

    /// Whether the last segment is all zeros.
    const ZERO_TAIL: bool;

    /// The scheme's name in tag URIs.
    fn name() -> &'static str
        ensures { result.now ≡ layout.name };

    /// The row of a partition value, or `None` from 7 on.
    fn row(partition: u8) -> Option<Row>
        ensures { result ≡ row_at layout partition };

    ghost header_is: { HEADER ≡ layout.header };

    ghost last_bits_is: { LAST_BITS ≡ layout.last_bits };

    ghost zero_tail_is: { ZERO_TAIL ≡ layout.zero_tail };

    ghost sound: { is_sound layout ≡ true };
}

/// Bits of the company prefix by partition value, the same in each scheme.
const COMPANY_BITS: [u32; 7] = [40, 37, 34, 30, 27, 24, 20];

/// The row of a partition value, from the bits and digits of a scheme's references.
pub fn row_of(partition: u8, bits: &[u32; 7], digits: &[u32; 7]) -> Option<Row>
    ensures { result ≡ slice_get (partition_table bits.now digits.now) partition }
{
    let at = partition as usize;
    if at > 6 {
        return None;
    }
    Some(Row {
        company_bits: COMPANY_BITS[at],
        company_digits: 12 - partition as u32,
        reference_bits: bits[at],
        reference_digits: digits[at],
    })
}

/// Trade items: indicator with item reference, then a serial number.
pub struct Sgtin96;

impl Scheme for Sgtin96 {
    ghost use Rattle.tag_epc.specs.Layout.{sgtin_96};

    ghost layout = { sgtin_96 };

    ghost HEADER = { sgtin_96.header };

    ghost LAST_BITS = { sgtin_96.last_bits };

    ghost ZERO_TAIL = { sgtin_96.zero_tail };

    const HEADER: u8 = 0x30;

    const LAST_BITS: u32 = 38;

    const ZERO_TAIL: bool = false;

    fn name() -> &'static str {
        "sgtin-96"
    }

    fn row(partition: u8) -> Option<Row> {
        row_of(
            partition,
            &[4, 7, 10, 14, 17, 20, 24], // bits of the item reference
            &[1, 2, 3, 4, 5, 6, 7], // digits of the item reference
        )
    }

    ghost header_is = { refl };

    ghost last_bits_is = { refl };

    ghost zero_tail_is = { refl };

    ghost sound = { refl };
}

/// Logistic units: extension digit with serial reference, then zeros.
pub struct Sscc96;

impl Scheme for Sscc96 {
    ghost use Rattle.tag_epc.specs.Layout.{sscc_96};

    ghost layout = { sscc_96 };

    ghost HEADER = { sscc_96.header };

    ghost LAST_BITS = { sscc_96.last_bits };

    ghost ZERO_TAIL = { sscc_96.zero_tail };

    const HEADER: u8 = 0x31;

    const LAST_BITS: u32 = 24;

    const ZERO_TAIL: bool = true;

    fn name() -> &'static str {
        "sscc-96"
    }

    fn row(partition: u8) -> Option<Row> {
        row_of(
            partition,
            &[18, 21, 24, 28, 31, 34, 38], // bits of the serial reference
            &[5, 6, 7, 8, 9, 10, 11], // digits of the serial reference
        )
    }

    ghost header_is = { refl };

    ghost last_bits_is = { refl };

    ghost zero_tail_is = { refl };

    ghost sound = { refl };
}

/// Locations: location reference, then an extension.
pub struct Sgln96;

impl Scheme for Sgln96 {
    ghost use Rattle.tag_epc.specs.Layout.{sgln_96};

    ghost layout = { sgln_96 };

    ghost HEADER = { sgln_96.header };

    ghost LAST_BITS = { sgln_96.last_bits };

    ghost ZERO_TAIL = { sgln_96.zero_tail };

    const HEADER: u8 = 0x32;

    const LAST_BITS: u32 = 41;

    const ZERO_TAIL: bool = false;

    fn name() -> &'static str {
        "sgln-96"
    }

    fn row(partition: u8) -> Option<Row> {
        row_of(
            partition,
            &[1, 4, 7, 11, 14, 17, 21], // bits of the location reference
            &[0, 1, 2, 3, 4, 5, 6], // digits of the location reference
        )
    }

    ghost header_is = { refl };

    ghost last_bits_is = { refl };

    ghost zero_tail_is = { refl };

    ghost sound = { refl };
}

/// Returnable assets: asset type, then a serial number.
pub struct Grai96;

impl Scheme for Grai96 {
    ghost use Rattle.tag_epc.specs.Layout.{grai_96};

    ghost layout = { grai_96 };

    ghost HEADER = { grai_96.header };

    ghost LAST_BITS = { grai_96.last_bits };

    ghost ZERO_TAIL = { grai_96.zero_tail };

    const HEADER: u8 = 0x33;

    const LAST_BITS: u32 = 38;

    const ZERO_TAIL: bool = false;

    fn name() -> &'static str {
        "grai-96"
    }

    fn row(partition: u8) -> Option<Row> {
        row_of(
            partition,
            &[4, 7, 10, 14, 17, 20, 24], // bits of the asset type
            &[0, 1, 2, 3, 4, 5, 6], // digits of the asset type
        )
    }

    ghost header_is = { refl };

    ghost last_bits_is = { refl };

    ghost zero_tail_is = { refl };

    ghost sound = { refl };
}

/// Documents: document type, then a serial number.
pub struct Gdti96;

impl Scheme for Gdti96 {
    ghost use Rattle.tag_epc.specs.Layout.{gdti_96};

    ghost layout = { gdti_96 };

    ghost HEADER = { gdti_96.header };

    ghost LAST_BITS = { gdti_96.last_bits };

    ghost ZERO_TAIL = { gdti_96.zero_tail };

    const HEADER: u8 = 0x2c;

    const LAST_BITS: u32 = 41;

    const ZERO_TAIL: bool = false;

    fn name() -> &'static str {
        "gdti-96"
    }

    fn row(partition: u8) -> Option<Row> {
        row_of(
            partition,
            &[1, 4, 7, 11, 14, 17, 21], // bits of the document type
            &[0, 1, 2, 3, 4, 5, 6], // digits of the document type
        )
    }

    ghost header_is = { refl };

    ghost last_bits_is = { refl };

    ghost zero_tail_is = { refl };

    ghost sound = { refl };
}

/// Service relations: service reference, then zeros.
pub struct Gsrn96;

impl Scheme for Gsrn96 {
    ghost use Rattle.tag_epc.specs.Layout.{gsrn_96};

    ghost layout = { gsrn_96 };

    ghost HEADER = { gsrn_96.header };

    ghost LAST_BITS = { gsrn_96.last_bits };

    ghost ZERO_TAIL = { gsrn_96.zero_tail };

    const HEADER: u8 = 0x2d;

    const LAST_BITS: u32 = 24;

    const ZERO_TAIL: bool = true;

    fn name() -> &'static str {
        "gsrn-96"
    }

    fn row(partition: u8) -> Option<Row> {
        row_of(
            partition,
            &[18, 21, 24, 28, 31, 34, 38], // bits of the service reference
            &[5, 6, 7, 8, 9, 10, 11], // digits of the service reference
        )
    }

    ghost header_is = { refl };

    ghost last_bits_is = { refl };

    ghost zero_tail_is = { refl };

    ghost sound = { refl };
}

const POWERS: [u64; 13] = [
    1,
    10,
    100,
    1_000,
    10_000,
    100_000,
    1_000_000,
    10_000_000,
    100_000_000,
    1_000_000_000,
    10_000_000_000,
    100_000_000_000,
    1_000_000_000_000,
];

/// Ten to the power of `digits`.
pub fn power(digits: u32) -> u64
    requires { digits ≤ 12 }
    ensures { result ≡ 10 ^ digits }
{
    POWERS[digits as usize]
}
