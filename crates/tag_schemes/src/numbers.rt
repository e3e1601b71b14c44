//! The numbers of an EPC of a further scheme with a company prefix.

use crate::scheme::Scheme;

/// The numbers of an EPC of a further scheme with a company prefix.
#[derive(Clone, Copy, PartialEq, Eq, Debug)]
pub struct Numbers {
    /// The scheme.
    pub scheme: Scheme,
    /// The filter value, 0 to 7.
    pub filter: u8,
    /// How many digits the company prefix has, 6 to 12.
    pub company_digits: u8,
    /// The company prefix.
    pub company: u64,
    /// The part after the company prefix: the asset reference of a GIAI-96, the service reference of a GSRNP-96, the coupon reference of
    /// an SGCN-96, the component or part reference of a CPI-96.
    pub reference: u64,
    /// The last segment: of an SGCN-96 the number of a 1 and the digits of the serial number, of a CPI-96 the serial number, else 0.
    pub last: u64,
}
