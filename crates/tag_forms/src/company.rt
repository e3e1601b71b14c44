//! How many digits the company prefix of a key has, which the key does not say.

ghost use Rattle.std.specs.Prelude.{◌≡◌, ℕ, List, IfNone, IfSome};
ghost use Rattle.std.specs.Int.{IsInRange};
ghost use Rattle.tag_forms.specs.Company.{IsCount, IsCountIn, IsFromCompany, IsUsable, spelling_at, within};

use crate::form::{Form, form_of};
use crate::prefixes::Prefixes;
use tag_keys::{Spelling, digits_from_company};
use tag_scheme_keys::from_company_in;

/// How many digits the company prefixes of keys have.
#[derive(Clone, Copy)]
pub enum Company<'a> {
    /// This many, or it is not known.
    Digits(Option<u8>),
    /// As many as the table says, by the digits of a key from its company prefix on.
    Table(&'a Prefixes),
}

/// How a form spells a key, if it is a form of keys.
fn spelling_of(form: Form) -> Option<Spelling>
    ensures { result ≡ spelling_at form }
{
    match form {
        Form::Element => Some(Spelling::Element),
        Form::Link => Some(Spelling::Link),
        Form::Key => Some(Spelling::Named),
        Form::Tag | Form::Pure | Form::Hex => None,
    }
}

/// The number of digits, if the company prefix of an EPC may have this many.
fn within(count: Option<u8>) -> Option<u8>
    ensures { result ≡ within count }
{
    match count {
        Some(count) if count >= 6 && count <= 12 => Some(count),
        _ => None,
    }
}

/// The text of a key from its company prefix on.
fn from_company<'a>(text: &'a str, spelling: Spelling) -> Option<&'a str>
    ensures some { IfSome result (λ digits. IsFromCompany spelling text.now digits.now) }
    ensures none { IfNone result ((digits : List ℕ) → IsFromCompany spelling text.now digits → ⊥) }
{
    if let Some(digits) = digits_from_company(text, spelling) {
        return Some(digits);
    }
    match from_company_in(text, spelling) {
        Some(rest) => Some(rest),
        None => None,
    }
}

/// How many digits the table gives for the company prefix of a text's key.
fn digits_in(table: &Prefixes, text: &str) -> Option<u8>
    ensures { IsCountIn table.now.entries.items text.now result }
{
    let Some(spelling) = spelling_of(form_of(text)) else {
        return None;
    };
    let Some(digits) = from_company(text, spelling) else {
        return None;
    };
    within(table.company_digits(digits.as_bytes()))
}

impl<'a> Company<'a> {
    /// How many digits the company prefix of a text's key has, if that is known: a table knows none for a text that is no key, and none
    /// for a company prefix that it does not have, or has with a length that no company prefix of an EPC has.
    pub fn digits_of(self, text: &str) -> Option<u8>
        requires { IsUsable self }
        ensures count { IsCount self.entry text.now result }
        ensures range { IfSome result (λ count. IsInRange 6 12 count) }
    {
        match self {
            Company::Digits(count) => count,
            Company::Table(table) => digits_in(table, text),
        }
    }
}
