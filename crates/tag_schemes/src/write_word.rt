//! Makes the word that carries an EPC.

ghost use Rattle.std.specs.Prelude.{◌≡◌, ◌+◌, ◌^◌, ◌<◌, ◌≤◌, ◌++◌};
ghost use Rattle.tag_bits.specs.Digits.{digits};
ghost use Rattle.tag_schemes.specs.LawfulWord.{IsLawful, HasWord};

use crate::numbers::Numbers;
use tag_bits::Word;

/// The number of `count` binary digits with the `width` digits of `value` after them.
pub(crate) fn pushed(number: u128, count: u32, width: u32, value: u64) -> u128
    requires room { count + width ≤ 96 }
    requires narrow { width < 64 }
    requires below { number < 2 ^ count }
    requires fits { value < 2 ^ width }
    ensures digits { digits (count + width) result ≡ digits count number ++ digits width value }
    ensures below { result < 2 ^ (count + width) }
{
    number << (width % 64) | value as u128
}

/// The word of a lawful EPC (EPC Tag Data Standard 1.13, section 14.5).
pub fn word_of(epc: Numbers) -> Word
    requires { IsLawful epc }
    ensures { HasWord epc result }
{
    let partition = 12 - epc.company_digits;
    let Some(row) = epc.scheme.row(partition) else {
        unreachable!()
    };
    let reference_at = 14 + row.company_bits;
    let last_at = reference_at + row.reference_bits;
    let header = pushed(0, 0, 8, epc.scheme.header() as u64);
    let filter = pushed(header, 8, 3, epc.filter as u64);
    let leading = pushed(filter, 11, 3, partition as u64);
    let company = pushed(leading, 14, row.company_bits, epc.company);
    let reference = pushed(company, reference_at, row.reference_bits, epc.reference);
    let number = pushed(reference, last_at, epc.scheme.last_bits(), epc.last);
    match Word::new(number) {
        Some(word) => word,
        None => unreachable!(),
    }
}
