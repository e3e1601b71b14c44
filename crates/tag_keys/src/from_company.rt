//! The digits of a key from its company prefix on, where a list of prefixes is looked up.

ghost use Rattle.std.specs.Prelude.{◌≡◌, ◌+◌, ◌≤◌, ℕ, List, length, IfSome, IfNone};
ghost use Rattle.tag_keys.specs.KeyFaults.{HasFromCompany};

use crate::digits::{cut_digits, digits_in_front};
use crate::key_pieces::form_in_front;
use crate::spelling::Spelling;

/// The digits of a key from its company prefix on, with the check digit. `None` is for a text that does not begin as a key, or has
/// too few digits.
pub fn digits_from_company<'a>(text: &'a str, spelling: Spelling) -> Option<&'a str>
    ensures some { IfSome result (λ digits. HasFromCompany spelling text.now digits.now) }
    ensures none { IfNone result ((digits : List ℕ) → HasFromCompany spelling text.now digits → ⊥) }
{
    let Some((_, form, rest)) = form_in_front(spelling, text) else {
        return None;
    };
    if rest.len() < form.digits {
        return None;
    }
    let Some((digits, _)) = digits_in_front(rest, form.digits) else {
        return None;
    };
    let (_, company) = cut_digits(digits, form.lead);
    Some(company)
}
