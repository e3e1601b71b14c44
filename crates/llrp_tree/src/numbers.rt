//! Reads numbers from octets, whatever follows them; bit 0 is the most significant of the first octet.

ghost use Rattle.std.specs.Prelude.{◌≡◌, ◌+◌, ◌*◌, ◌^◌, ◌<◌, ◌≤◌, Bool, List, ◌++◌, length};
ghost use Rattle.tag_bits.specs.Digits.{digits_of_bytes};
ghost use Rattle.llrp_tree.specs.FirstFault.{number};

use tag_bits::get;

/// The number of the `width` bits from bit `place` on.
fn ahead(octets: &[u8], place: usize, width: u32) -> u128
    requires some { 1 ≤ width }
    requires narrow { width ≤ 128 }
    requires within { place + width ≤ 8 * length octets.now }
    ensures value { (later : List Bool)
        → result ≡ number (digits_of_bytes octets.now ++ later) place width }
    ensures below { result < 2 ^ width }
{
    get(octets, place, width)
}

/// The octet at a place, as a number.
#[inline]
pub fn octet(octets: &[u8], at: usize) -> u8
    requires { at < length octets.now }
    ensures { (later : List Bool)
        → result ≡ number (digits_of_bytes octets.now ++ later) (8 * at) 8 }
{
    octets[at]
}

/// The number of the two octets from a place on.
#[inline]
pub fn word(octets: &[u8], at: usize) -> u16
    requires { at + 2 ≤ length octets.now }
    ensures { (later : List Bool)
        → result ≡ number (digits_of_bytes octets.now ++ later) (8 * at) 16 }
{
    u16::from_be_bytes([octets[at], octets[at + 1]])
}

/// The number of the four octets from a place on.
#[inline]
fn four_octets(octets: &[u8], at: usize) -> u32
    requires { at + 4 ≤ length octets.now }
    ensures { (later : List Bool)
        → result ≡ number (digits_of_bytes octets.now ++ later) (8 * at) 32 }
{
    u32::from_be_bytes([octets[at], octets[at + 1], octets[at + 2], octets[at + 3]])
}

/// The number of the eight octets from a place on.
#[inline]
fn eight_octets(octets: &[u8], at: usize) -> u64
    requires { at + 8 ≤ length octets.now }
    ensures { (later : List Bool)
        → result ≡ number (digits_of_bytes octets.now ++ later) (8 * at) 64 }
{
    four_octets(octets, at) as u64 * 4294967296 + four_octets(octets, at + 4) as u64
}

/// The number of the twelve octets from a place on.
#[inline]
fn twelve_octets(octets: &[u8], at: usize) -> u128
    requires { at + 12 ≤ length octets.now }
    ensures value { (later : List Bool)
        → result ≡ number (digits_of_bytes octets.now ++ later) (8 * at) 96 }
    ensures below { result < 2 ^ 96 }
{
    eight_octets(octets, at) as u128 * 4294967296 + four_octets(octets, at + 8) as u128
}

/// The number of the `width` bits from a bit of the octets on.
#[inline]
pub fn from_bit(octets: &[u8], bit: usize, width: u32) -> u128
    requires some { 1 ≤ width }
    requires narrow { width ≤ 128 }
    requires within { bit + width ≤ 8 * length octets.now }
    ensures value { (later : List Bool)
        → result ≡ number (digits_of_bytes octets.now ++ later) bit width }
    ensures below { result < 2 ^ width }
{
    if bit == 0 {
        return from_octet(octets, 0, width);
    }
    ahead(octets, bit, width)
}

/// The number of the `width` bits from an octet on. Widths of 8, 16, 32, 64 and 96 bits, which most
/// fields have, are read by loads of one, two and four octets.
#[inline(always)]
pub fn from_octet(octets: &[u8], at: u32, width: u32) -> u128
    requires some { 1 ≤ width }
    requires narrow { width ≤ 128 }
    requires within { 8 * at + width ≤ 8 * length octets.now }
    ensures value { (later : List Bool)
        → result ≡ number (digits_of_bytes octets.now ++ later) (8 * at) width }
    ensures below { result < 2 ^ width }
{
    let place = at as usize;
    match width {
        8 => octet(octets, place) as u128,
        16 => word(octets, place) as u128,
        32 => four_octets(octets, place) as u128,
        64 => eight_octets(octets, place) as u128,
        96 => twelve_octets(octets, place),
        _ => ahead(octets, 8 * place, width),
    }
}

/// The numbers of the first three bits of the octets, of the three after them, and of the ten after those: the front of a header.
#[inline(always)]
pub(crate) fn header_front(octets: &[u8]) -> (u16, u8, u16)
    requires { 2 ≤ length octets.now }
    ensures first { (later : List Bool)
        → result.0 ≡ number (digits_of_bytes octets.now ++ later) 0 3 }
    ensures second { (later : List Bool)
        → result.1 ≡ number (digits_of_bytes octets.now ++ later) 3 3 }
    ensures third { (later : List Bool)
        → result.2 ≡ number (digits_of_bytes octets.now ++ later) 6 10 }
{
    let front = word(octets, 0);
    (front / 8192, (front / 1024 % 8) as u8, front % 1024)
}
