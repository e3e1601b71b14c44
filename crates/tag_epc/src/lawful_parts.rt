//! Checks whether numbers are an EPC's, and finds the first that is not.

ghost use Rattle.std.specs.Prelude.{◌≡◌, ◌≢◌, ◌↔◌, ℕ, [], ◌∷◌, Some, IsTrue, IfOk, IfErr, MatchOption};
ghost use Rattle.tag_epc.specs.Layout.{layout_of, row_at, last_segment, number_segments};
ghost use Rattle.tag_epc.specs.LawfulWord.{fill, Fits, AllFit, IsLawfulEpc};
ghost use Rattle.tag_epc.specs.Faults.{FirstUnfit};
ghost use Rattle.tag_epc.specs.Calls.Faults.{HasEpcFault};
ghost use Rattle.tag_epc.specs.Private.Numbers.{place_of_number};

use crate::at_scheme;
use crate::epc::Parts;
use crate::fault::EpcFault;
use crate::kind::{GID_CLASS_BITS, GID_MANAGER_BITS, GID_SERIAL_BITS, Kind};
use crate::scheme::{Row, Scheme, power};

/// The numbers after a partition value.
#[derive(Clone, Copy, PartialEq, Eq)]
pub(crate) enum Number {
    Company,
    Reference,
    Last,
}

/// The first number that does not fit its segment.
pub(crate) fn first_unfit<S: Scheme>(
    row: Row,
    company: u64,
    reference: u64,
    last: u64,
) -> Option<Number>
    requires { (p : ℕ) × (row_at S.layout p ≡ Some row) }
    ensures { let fields = fill (number_segments S.layout row) (company ∷ reference ∷ last
        ∷ []) in MatchOption result (AllFit fields) (λ n. FirstUnfit fields (place_of_number n)) }
{
    if company >= power(row.company_digits) {
        Some(Number::Company)
    } else if reference >= power(row.reference_digits) {
        Some(Number::Reference)
    } else if !last_fits::<S>(last) {
        Some(Number::Last)
    } else {
        None
    }
}

/// Whether a last part fits: it has to be 0 if the segment is all zeros, and else fits the
/// segment's bits.
fn last_fits<S: Scheme>(last: u64) -> bool
    ensures { IsTrue result ↔ Fits (record { segment = last_segment S.layout; number = last }) }
{
    if S::ZERO_TAIL {
        last == 0
    } else {
        last >> S::LAST_BITS == 0
    }
}

/// The parts of an EPC with these numbers, or the first check that they fail.
pub(crate) fn checked<S: Scheme>(
    kind: Kind,
    filter: u8,
    company_digits: u8,
    company: u64,
    reference: u64,
    last: u64,
) -> Result<Parts, EpcFault>
    requires { layout_of kind ≡ Some S.layout }
    ensures ok { IfOk result (λ parts. parts
        ≡ Parts.Partitioned kind filter company_digits company reference last) }
    ensures lawful { IfOk result (λ parts. IsLawfulEpc parts) }
    ensures err { IfErr result (λ f. HasEpcFault (Parts.Partitioned kind filter company_digits
        company reference last) f) }
{
    if filter > 7 {
        return Err(EpcFault::Filter);
    }
    if company_digits < 6 || company_digits > 12 {
        return Err(EpcFault::Digits);
    }
    let Some(row) = S::row(12 - company_digits) else {
        unreachable!()
    };
    match first_unfit::<S>(row, company, reference, last) {
        Some(Number::Company) => Err(EpcFault::Prefix),
        Some(Number::Reference) => Err(EpcFault::Reference),
        Some(Number::Last) => Err(EpcFault::Last),
        None => Ok(Parts::Partitioned {
            kind,
            filter,
            company_digits,
            company,
            reference,
            last,
        }),
    }
}

/// The parts of an EPC of the scheme of a kind, or the first one that fails.
pub(crate) fn checked_at(
    kind: Kind,
    filter: u8,
    company_digits: u8,
    company: u64,
    reference: u64,
    last: u64,
) -> Result<Parts, EpcFault>
    requires has_company_prefix { kind ≢ Kind.Gid }
    ensures ok { IfOk result (λ parts. parts
        ≡ Parts.Partitioned kind filter company_digits company reference last) }
    ensures lawful { IfOk result (λ parts. IsLawfulEpc parts) }
    ensures err { IfErr result (λ f. HasEpcFault (Parts.Partitioned kind filter company_digits
        company reference last) f) }
{
    at_scheme!(
        kind,
        checked(kind, filter, company_digits, company, reference, last),
        unreachable!()
    )
}

/// The parts of an EPC of GID-96 with these numbers, or the first that does not fit.
pub(crate) fn checked_general(
    manager: u64,
    object_class: u64,
    serial: u64,
) -> Result<Parts, EpcFault>
    ensures ok { IfOk result (λ parts. parts ≡ Parts.General manager object_class serial) }
    ensures lawful { IfOk result (λ parts. IsLawfulEpc parts) }
    ensures err { IfErr result (λ f. HasEpcFault (Parts.General manager object_class serial) f) }
{
    if manager >> GID_MANAGER_BITS != 0 {
        Err(EpcFault::Prefix)
    } else if object_class >> GID_CLASS_BITS != 0 {
        Err(EpcFault::Reference)
    } else if serial >> GID_SERIAL_BITS != 0 {
        Err(EpcFault::Last)
    } else {
        Ok(Parts::General {
            manager,
            object_class,
            serial,
        })
    }
}
