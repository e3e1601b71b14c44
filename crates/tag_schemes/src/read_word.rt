//! Reads the numbers that a word carries.

ghost use Rattle.std.specs.Prelude.{◌≡◌, ℕ, ◌↔◌, ◌+◌, ◌^◌, ◌<◌, ◌≢◌, IsTrue, IfErr, IfOk, IfSome, IfNone, MatchOption, Some};
ghost use Rattle.tag_epc.specs.Layout.{row_at};
ghost use Rattle.tag_schemes.specs.Schemes.{layout_in};
ghost use Rattle.tag_schemes.specs.LawfulWord.{HasSerial, HasWord};
ghost use Rattle.tag_schemes.specs.WordFaults.{HasFurtherFault, HasHeader};
ghost use Rattle.tag_schemes.specs.Private.LastSegments.{FailsLast, IsLastIn};

use crate::fault::{PartFault, PartReason};
use crate::numbers::Numbers;
use crate::scheme::{Scheme, scheme_with};
use itoa::Buffer;
use tag_bits::Word;
use tag_epc::WordReason;
use tag_epc::scheme::{Row, power};

/// The further scheme whose header a word begins with.
pub(crate) fn scheme_of(word: Word) -> Option<Scheme>
    ensures { MatchOption result ((s : Scheme) → HasHeader s word → ⊥) (λ s. HasHeader s word) }
{
    let header = word.part(0, 8) as u8;
    scheme_with(header)
}

/// The numbers of the EPC that a word with the header of a further scheme carries, or the first part of the word that fails.
pub(crate) fn read(scheme: Scheme, word: Word) -> Result<Numbers, PartFault>
    requires { HasHeader scheme word }
    ensures ok { IfOk result (λ n. HasWord n word) }
    ensures fault { IfErr result (λ f. HasFurtherFault scheme word f) }
    ensures none { IfErr result (λ _. (n : Numbers) → HasWord n word → ⊥) }
{
    let filter = word.part(8, 3) as u8;
    let partition = word.part(11, 3) as u8;
    let Some(row) = scheme.row(partition) else {
        return Err(fault_at(11, PartReason::Word(WordReason::Partition)));
    };
    let reference_at = 14 + row.company_bits;
    let last_at = reference_at + row.reference_bits;
    let company = word.part(14, row.company_bits) as u64;
    let reference = word.part(reference_at, row.reference_bits) as u64;
    let last = word.part(last_at, scheme.last_bits()) as u64;
    if company >= power(row.company_digits) {
        return Err(fault_at(14, PartReason::Word(WordReason::Prefix)));
    }
    if !has_digits(scheme, row, reference) {
        return Err(fault_at(reference_at, PartReason::Word(WordReason::Reference)));
    }
    if let Some(reason) = last_fault(scheme, last) {
        return Err(fault_at(last_at, reason));
    }
    Ok(Numbers {
        scheme,
        filter,
        company_digits: row.company_digits as u8,
        company,
        reference,
        last,
    })
}

/// The fault of the part that begins at this bit.
fn fault_at(bit: u32, reason: PartReason) -> PartFault
    ensures { result ≡ record { bit = bit; reason = reason } }
{
    PartFault { bit, reason }
}

/// Whether a reference that fits its bits has no more than the digits of its row.
fn has_digits(scheme: Scheme, row: Row, reference: u64) -> bool
    requires row { (p : ℕ) × (row_at (layout_in scheme) p ≡ Some row) }
    requires bits { reference < 2 ^ row.reference_bits }
    ensures { IsTrue result ↔ (reference < 10 ^ row.reference_digits) }
{
    match scheme {
        Scheme::Giai => true,
        Scheme::Gsrnp | Scheme::Sgcn | Scheme::Cpi => reference < power(row.reference_digits),
    }
}

/// Whether the digits of a number are a 1 and then those of a serial number.
fn has_serial(last: u64) -> bool
    ensures { IsTrue result ↔ HasSerial Scheme.Sgcn last }
{
    let mut digits = Buffer::new();
    let text = digits.format(last).as_bytes();
    text.len() > 1 && text[0] == b'1'
}

/// Why a last segment with this number fails, if it does.
fn last_fault(scheme: Scheme, last: u64) -> Option<PartReason>
    ensures { MatchOption result (IsLastIn scheme last) (FailsLast scheme last) }
{
    match scheme {
        Scheme::Giai | Scheme::Gsrnp => {
            if last == 0 {
                None
            } else {
                Some(PartReason::Word(WordReason::Zeros))
            }
        }
        Scheme::Sgcn => {
            if has_serial(last) {
                None
            } else {
                Some(PartReason::Serial)
            }
        }
        Scheme::Cpi => None,
    }
}

/// The numbers of the EPC of a further scheme that a word carries (EPC Tag Data Standard 1.13, section 14.5).
pub fn numbers_of(word: Word) -> Option<Numbers>
    ensures some { IfSome result (λ n. HasWord n word) }
    ensures none { IfNone result ((n : Numbers) → HasWord n word → ⊥) }
{
    let Some(scheme) = scheme_of(word) else {
        return None;
    };
    match read(scheme, word) {
        Ok(numbers) => Some(numbers),
        Err(_) => None,
    }
}
