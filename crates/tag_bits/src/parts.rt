//! Parts of a number of fewer than 128 bits; bit 0 is its most significant.

ghost use Rattle.std.specs.Prelude.{◌≡◌, ℕ, ◌+◌, ◌*◌, ◌^◌, ◌<◌, ◌≤◌};
ghost use Rattle.tag_bits.specs.Digits.{value, digits, field};
ghost use Rattle.tag_bits.specs.Calls.Digits.{with_field};

/// The number of the `width` bits from bit `place` on, out of `total` bits.
pub(crate) fn part_of(number: u128, total: u32, place: u32, width: u32) -> u128
    requires room { total < 128 }
    requires whole { number < 2 ^ total }
    requires within { place + width ≤ total }
    ensures digits { digits width result ≡ field (digits total number) place width }
    ensures value { result ≡ value (field (digits total number) place width) }
    ensures below { result < 2 ^ width }
{
    (number >> (total - place - width)) & ((1 << width) - 1)
}

/// The number of the `width` bits from bit `place` on, out of 64 bits.
pub(crate) fn part_of_eight(number: u64, place: u32, width: u32) -> u64
    requires some { 1 ≤ width }
    requires within { place + width ≤ 64 }
    ensures { result ≡ value (field (digits 64 number) place width) }
{
    (number >> (64 - place - width)) & (u64::MAX >> (64 - width))
}

/// The number whose `width` bits from bit `place` on, out of `total` bits, are those of `value`.
pub(crate) fn with_part(number: u128, total: u32, place: u32, width: u32, value: u128) -> u128
    requires room { total < 128 }
    requires whole { number < 2 ^ total }
    requires within { place + width ≤ total }
    requires fits { value < 2 ^ width }
    ensures digits { digits total result ≡ with_field (digits total number) place
        (digits width value) }
    ensures below { result < 2 ^ total }
{
    let rest = total - place - width;
    let above = number >> rest >> width;
    let below = number & ((1 << rest) - 1);
    (above << width | value) << rest | below
}
