//! What the words say of `epc`.

ghost use Rattle.std.specs.Prelude.{◌≡◌, ◌<◌, IfSome, List, Some, codes, ℕ};
ghost use Rattle.std.specs.Int.{IsInRange};
ghost use Rattle.clap.specs.Words.{found_of, rows_of};
ghost use Rattle.llrp_words.specs.Private.Parse.{HasEpc, MayHaveNumberIn};
ghost use Rattle.llrp_words.specs.Calls.Requests.{IsEpc, IsUnsaid};
ghost use Rattle.llrp_words.specs.Calls.Arguments.{HasOptionalNumber};

use super::optional_text;
use clap::ArgMatches;

/// What the words say of `epc`. What an option gives is `None` if it is left out.
#[derive(Clone, Copy)]
pub struct EpcWords<'a> {
    /// The text.
    pub text: Option<&'a str>,
    /// Whether all forms are asked for.
    pub forms: bool,
    /// Whether texts are read on standard input.
    pub list: bool,
    /// Whether each answer is an object of JSON with all forms.
    pub json: bool,
    /// The name of the form that is asked for.
    pub to: Option<&'a str>,
    /// How many digits the company prefix of a key has.
    pub company_digits: Option<u8>,
    /// The filter value of a text that does not say it.
    pub filter: Option<u8>,
    /// The path of a file that says how many digits company prefixes have.
    pub prefixes: Option<&'a str>,
    /// The word for the set of schemes.
    pub schemes: Option<&'a str>,
}

/// The number of digits of company prefixes, if it is given; the parse has checked it.
fn company_digits(inner: &ArgMatches<'_>) -> Option<u8>
    requires { MayHaveNumberIn 6 12 (codes "prefix-digits") (rows_of (found_of inner.now)) }
    ensures number { (name : List ℕ) → HasOptionalNumber (codes "prefix-digits")
        (Some (name, rows_of (found_of inner.now))) result }
    ensures range { IfSome result (λ count. IsInRange 6 12 count) }
{
    inner.get_one::<u8>("prefix-digits")
}

/// The filter value, if it is given; the parse has checked it.
fn filter(inner: &ArgMatches<'_>) -> Option<u8>
    requires { MayHaveNumberIn 0 7 (codes "filter") (rows_of (found_of inner.now)) }
    ensures number { (name : List ℕ) → HasOptionalNumber (codes "filter")
        (Some (name, rows_of (found_of inner.now))) result }
    ensures range { IfSome result (λ value. value < 8) }
{
    inner.get_one::<u8>("filter")
}

/// What the arguments say of `epc`.
pub(super) fn epc_words<'a>(inner: &ArgMatches<'a>) -> EpcWords<'a>
    requires { HasEpc (rows_of (found_of inner.now)) }
    ensures words { (name : List ℕ) → IsEpc (Some (name, rows_of (found_of inner.now))) result }
    ensures unsaid { IsUnsaid result }
{
    EpcWords {
        text: optional_text(inner, "TEXT"),
        forms: inner.get_flag("forms"),
        list: inner.get_flag("list"),
        json: inner.get_flag("json"),
        to: optional_text(inner, "to"),
        company_digits: company_digits(inner),
        filter: filter(inner),
        prefixes: optional_text(inner, "prefixes"),
        schemes: optional_text(inner, "schemes"),
    }
}
