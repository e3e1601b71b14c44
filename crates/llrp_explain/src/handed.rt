//! The numbers that stand in the octets that decide a fault.

ghost use Rattle.std.specs.Prelude.{◌≡◌, ◌+◌, ◌*◌, ◌^◌, ◌<◌, ◌≤◌, ◌++◌, Bool, List, length};
ghost use Rattle.tag_bits.specs.Digits.{digits_of_bytes};
ghost use Rattle.llrp_tree.specs.FirstFault.{number};

use llrp_tree::numbers::from_bit;

/// The number of this many bits from a bit of the octets on; 0 where the octets end before.
pub(crate) fn handed(octets: &[u8], from: usize, width: u32) -> u128
    requires some { 1 ≤ width }
    requires narrow { width ≤ 96 }
    requires near { from ≤ 16 }
    ensures value { from + width ≤ 8 * length octets.now → (later : List Bool)
        → result ≡ number (digits_of_bytes octets.now ++ later) from width }
    ensures below { result < 2 ^ width }
{
    if octets.len().saturating_mul(8) < from + width as usize {
        return 0;
    }
    from_bit(octets, from, width)
}
