//! Why a word has no EPC in the set of all schemes.

ghost use Rattle.std.specs.Prelude.{IfNone, IfSome};
ghost use Rattle.tag_schemes.specs.declared.scheme.Scheme.{Scheme};
ghost use Rattle.tag_schemes.specs.WordFaults.{HasHeader, HasWordFaultInAll, IsLawfulInAll};

use crate::fault::{PartFault, PartReason};
use crate::read_word::{read, scheme_of};
use crate::supplier_word::{is_supplier, read_supplier};
use tag_bits::Word;
use tag_epc::Epc;

/// The first part of a word that fails, and its first bit; `None` if the word carries an EPC of some scheme (EPC Tag Data Standard
/// 1.13, section 14).
pub fn fault_in_all(word: Word) -> Option<PartFault>
    ensures none { IfNone result (IsLawfulInAll word) }
    ensures some { IfSome result (λ fault. HasWordFaultInAll word fault) }
    ensures unlawful { IfSome result (λ _. ¬ IsLawfulInAll word) }
{
    match scheme_of(word) {
        Some(scheme) => match read(scheme, word) {
            Ok(_) => None,
            Err(fault) => Some(fault),
        },
        None => fault_without_company(word),
    }
}

/// The first part of a word that fails, if it begins with the header of no further scheme with a company prefix.
fn fault_without_company(word: Word) -> Option<PartFault>
    requires { (scheme : Scheme) → HasHeader scheme word → ⊥ }
    ensures none { IfNone result (IsLawfulInAll word) }
    ensures some { IfSome result (λ fault. HasWordFaultInAll word fault) }
    ensures unlawful { IfSome result (λ _. ¬ IsLawfulInAll word) }
{
    if is_supplier(word) {
        return match read_supplier(word) {
            Ok(_) => None,
            Err(fault) => Some(fault),
        };
    }
    match Epc::from_word(word) {
        Ok(_) => None,
        Err(fault) => Some(PartFault {
            bit: fault.bit,
            reason: PartReason::Word(fault.reason),
        }),
    }
}
