//! The further schemes with a company prefix, and their rows.

ghost use Rattle.std.specs.Prelude.{◌≡◌, ◌≢◌, MatchOption};
ghost use Rattle.tag_epc.specs.Layout.{row_at};
ghost use Rattle.tag_schemes.specs.Schemes.{layout_in};

use tag_epc::scheme::{Row, row_of};

/// The further schemes of 96-bit EPCs with a company prefix (EPC Tag Data Standard 1.13, section 14.2).
#[derive(Clone, Copy, PartialEq, Eq, Debug)]
pub enum Scheme {
    /// Individual assets, GIAI-96.
    Giai,
    /// Service relations of providers, GSRNP-96.
    Gsrnp,
    /// Coupons with a serial number, SGCN-96.
    Sgcn,
    /// Components and parts, CPI-96.
    Cpi,
}

impl Scheme {
    /// The scheme's name in tag URIs, as `giai-96`.
    pub fn name(self) -> &'static str
        ensures { result.now ≡ (layout_in self).name }
    {
        match self {
            Scheme::Giai => "giai-96",
            Scheme::Gsrnp => "gsrnp-96",
            Scheme::Sgcn => "sgcn-96",
            Scheme::Cpi => "cpi-96",
        }
    }

    /// The first eight bits of each word of the scheme.
    pub fn header(self) -> u8
        ensures { result ≡ (layout_in self).header }
    {
        match self {
            Scheme::Giai => 0x34,
            Scheme::Gsrnp => 0x2E,
            Scheme::Sgcn => 0x3F,
            Scheme::Cpi => 0x3C,
        }
    }

    /// How many bits the last segment has.
    pub(crate) fn last_bits(self) -> u32
        ensures { result ≡ (layout_in self).last_bits }
    {
        match self {
            Scheme::Giai => 0,
            Scheme::Gsrnp => 24,
            Scheme::Sgcn => 41,
            Scheme::Cpi => 31,
        }
    }

    /// The row of a partition value, or `None` from 7 on.
    pub(crate) fn row(self, partition: u8) -> Option<Row>
        ensures { result ≡ row_at (layout_in self) partition }
    {
        match self {
            Scheme::Giai => row_of(
                partition,
                &[42, 45, 48, 52, 55, 58, 62], // bits of the asset reference
                &[13, 14, 15, 16, 17, 18, 19], // digits that it has at most
            ),
            Scheme::Gsrnp => row_of(
                partition,
                &[18, 21, 24, 28, 31, 34, 38], // bits of the service reference
                &[5, 6, 7, 8, 9, 10, 11], // digits of the service reference
            ),
            Scheme::Sgcn => row_of(
                partition,
                &[1, 4, 7, 11, 14, 17, 21], // bits of the coupon reference
                &[0, 1, 2, 3, 4, 5, 6], // digits of the coupon reference
            ),
            Scheme::Cpi => row_of(
                partition,
                &[11, 14, 17, 21, 24, 27, 31], // bits of the component or part reference
                &[3, 4, 5, 6, 7, 8, 9], // digits that it has at most
            ),
        }
    }
}

/// The further scheme with that header, the first eight bits of a word.
pub(crate) fn scheme_with(header: u8) -> Option<Scheme>
    ensures { MatchOption result ((s : Scheme) → (layout_in s).header ≢ header)
        (λ s. (layout_in s).header ≡ header) }
{
    match header {
        0x34 => Some(Scheme::Giai),
        0x2E => Some(Scheme::Gsrnp),
        0x3F => Some(Scheme::Sgcn),
        0x3C => Some(Scheme::Cpi),
        _ => None,
    }
}
