//! The numbers of a USDoD-96, and which characters its code may have.

ghost use Rattle.std.specs.Prelude.{◌≡◌, ◌^◌, ◌<◌, false, get_or, take, IfNone, IfSome};
ghost use Rattle.tag_schemes.specs.Suppliers.{is_code_character as code_character, may_stand as stands, MayStand};

/// The numbers of the EPC of a supplier to the US Department of Defense, USDoD-96.
#[derive(Clone, Copy, PartialEq, Eq, Debug)]
pub struct Supplier {
    /// The filter value, 0 to 15.
    pub filter: u8,
    /// The six characters of the code: those of a DoDAAC, or a space and the five of a CAGE code.
    pub code: [u8; 6],
    /// The serial number, of 36 bits.
    pub serial: u64,
}

/// Whether an octet is a digit or a capital letter other than I and O.
pub(crate) fn is_code_character(octet: u8) -> bool
    ensures { result ≡ code_character octet }
{
    octet.is_ascii_digit() || octet.is_ascii_uppercase() && !(octet == b'I' || octet == b'O')
}

/// Whether an octet may be the character at this place; at the first a space may stand too.
fn may_stand(place: usize, octet: u8) -> bool
    ensures { result ≡ stands place octet }
{
    is_code_character(octet) || place == 0 && octet == b' '
}

/// The first of six characters that may not stand at its place.
pub(crate) fn first_wrong(code: &[u8; 6]) -> Option<usize>
    ensures none { IfNone result (MayStand 0 code.now) }
    ensures few { IfSome result (λ place. place < 6) }
    ensures before { IfSome result (λ place. MayStand 0 (take place code.now)) }
    ensures octet { IfSome result (λ place. get_or code.now place 0 < 2 ^ 8) }
    ensures wrong { IfSome result (λ place. stands place (get_or code.now place 0) ≡ false) }
{
    for place in 0..6 {
        if !may_stand(place, code[place]) {
            return Some(place);
        }
    }
    None
}
