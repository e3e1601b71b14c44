//! The word of a USDoD-96, and what a word with its header carries.

ghost use Rattle.std.specs.Prelude.{◌≡◌, ◌↔◌, ◌+◌, ◌^◌, ◌<◌, ◌≤◌, ◌++◌, IsTrue, length, IfErr, IfNone, IfOk, IfSome};
ghost use Rattle.tag_bits.specs.Digits.{digits, digits_of_bytes, field, word_digits};
ghost use Rattle.tag_schemes.specs.declared.supplier.Supplier.{Supplier};
ghost use Rattle.tag_schemes.specs.Suppliers.{IsSupplier, HasSupplierWord};
ghost use Rattle.tag_schemes.specs.SupplierRules.{HasSupplierFault, HasSupplierHeader};

use crate::fault::{PartFault, PartReason};
use crate::supplier::{Supplier, first_wrong};
use crate::write_word::pushed;
use tag_bits::Word;

/// Whether a word begins with the header of USDoD-96.
pub(crate) fn is_supplier(word: Word) -> bool
    ensures { IsTrue result ↔ HasSupplierHeader word }
{
    word.part(0, 8) == 0x2F
}

/// The octet that begins at this bit.
fn octet_at(word: Word, bit: u32) -> u8
    requires { bit + 8 ≤ 96 }
    ensures { digits 8 result ≡ field (word_digits word) bit 8 }
{
    word.part(bit, 8) as u8
}

/// The six octets after the filter value.
fn code_in(word: Word) -> [u8; 6]
    ensures digits { digits_of_bytes result ≡ field (word_digits word) 12 48 }
    ensures six { length result ≡ 6 }
{
    [
        octet_at(word, 12),
        octet_at(word, 20),
        octet_at(word, 28),
        octet_at(word, 36),
        octet_at(word, 44),
        octet_at(word, 52),
    ]
}

/// The numbers of the USDoD-96 that a word with its header carries, or the first character that may not stand at its place.
pub(crate) fn read_supplier(word: Word) -> Result<Supplier, PartFault>
    requires { HasSupplierHeader word }
    ensures ok { IfOk result (λ n. HasSupplierWord n word) }
    ensures fault { IfErr result (λ f. HasSupplierFault word f) }
    ensures none { IfErr result (λ _. (n : Supplier) → HasSupplierWord n word → ⊥) }
{
    let code = code_in(word);
    match first_wrong(&code) {
        None => Ok(Supplier {
            filter: word.part(8, 4) as u8,
            code,
            serial: word.part(60, 36) as u64,
        }),
        Some(place) => Err(PartFault {
            bit: 12 + 8 * place as u32,
            reason: PartReason::Code,
        }),
    }
}

/// The numbers of the USDoD-96 that a word carries (US DoD Supplier's Passive RFID Information Guide).
pub fn supplier_of(word: Word) -> Option<Supplier>
    ensures some { IfSome result (λ n. HasSupplierWord n word) }
    ensures none { IfNone result ((n : Supplier) → HasSupplierWord n word → ⊥) }
{
    if !is_supplier(word) {
        return None;
    }
    match read_supplier(word) {
        Ok(supplier) => Some(supplier),
        Err(_) => None,
    }
}

/// The number of twelve binary digits with those of the six octets after them.
fn code_pushed(number: u128, code: &[u8; 6]) -> u128
    requires { number < 2 ^ 12 }
    ensures digits { digits 60 result ≡ digits 12 number ++ digits_of_bytes code.now }
    ensures below { result < 2 ^ 60 }
{
    let one = pushed(number, 12, 8, code[0] as u64);
    let two = pushed(one, 20, 8, code[1] as u64);
    let three = pushed(two, 28, 8, code[2] as u64);
    let four = pushed(three, 36, 8, code[3] as u64);
    let five = pushed(four, 44, 8, code[4] as u64);
    pushed(five, 52, 8, code[5] as u64)
}

/// The word of a lawful USDoD-96 (US DoD Supplier's Passive RFID Information Guide).
pub fn word_of_supplier(epc: Supplier) -> Word
    requires { IsSupplier epc }
    ensures { HasSupplierWord epc result }
{
    let header = pushed(0, 0, 8, 0x2F);
    let filter = pushed(header, 8, 4, epc.filter as u64);
    let code = code_pushed(filter, &epc.code);
    let number = pushed(code, 60, 36, epc.serial);
    match Word::new(number) {
        Some(word) => word,
        None => unreachable!(),
    }
}
