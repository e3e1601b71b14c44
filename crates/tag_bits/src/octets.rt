//! Whole octets as one number, the first octet the most significant.

ghost use Rattle.std.specs.Prelude.{◌≡◌, ℕ, ◌*◌, ◌^◌, ◌<◌, ◌≤◌, length};
ghost use Rattle.tag_bits.specs.Digits.{value, digits, digits_of_bytes};

/// The number that the octets spell.
pub(crate) fn number_of(octets: &[u8]) -> u128
    requires { length octets.now ≤ 16 }
    ensures { result ≡ value (digits_of_bytes octets.now) }
{
    let mut number = 0u128;
    for octet in octets {
        number = number << 8 | *octet as u128;
    }
    number
}

/// The number that eight octets spell.
pub(crate) fn number_of_eight(octets: &[u8]) -> u64
    requires { length octets.now ≡ 8 }
    ensures { result ≡ value (digits_of_bytes octets.now) }
{
    let mut number = 0u64;
    for octet in octets {
        number = number << 8 | *octet as u64;
    }
    number
}

/// Writes `number` into all of the octets.
pub(crate) fn fill(octets: &mut [u8], number: u128)
    requires fits { number < 2 ^ (8 * length octets.old) }
    ensures { digits_of_bytes octets.new ≡ digits (8 * length octets.old) number }
{
    let mut rest = number;
    for i in (0..octets.len()).rev() {
        octets[i] = (rest & 255) as u8;
        rest >>= 8;
    }
}
