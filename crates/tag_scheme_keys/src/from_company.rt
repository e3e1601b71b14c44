//! The text of a key from its company prefix on, where a list of prefixes is looked up.

ghost use Rattle.std.specs.Prelude.{◌≡◌, ℕ, List, IfSome, IfNone};
ghost use Rattle.tag_schemes.specs.declared.scheme.Scheme.{Scheme};
ghost use Rattle.tag_scheme_keys.specs.KeyFaults.{BeginsKeyIn};

use crate::key_start::key_in_front;
use tag_keys::Spelling;

/// What follows the start of the key of a further scheme: each begins with its company prefix. `None` is for a
/// text that does not begin as such a key.
pub fn from_company_in<'a>(text: &'a str, spelling: Spelling) -> Option<&'a str>
    ensures some { IfSome result (λ rest. (scheme : Scheme)
        × BeginsKeyIn spelling text.now scheme rest.now) }
    ensures none { IfNone result ((scheme : Scheme) (rest : List ℕ)
        → BeginsKeyIn spelling text.now scheme rest → ⊥) }
{
    match key_in_front(spelling, text) {
        Some((_, rest)) => Some(rest),
        None => None,
    }
}
