//! What the words say of `access`.

ghost use Rattle.std.specs.Prelude.{◌≡◌, List, Some, codes, ℕ};
ghost use Rattle.clap.specs.Words.{found_of, rows_of};
ghost use Rattle.llrp_words.specs.Private.Parse.{HasAccess, HasWord};
ghost use Rattle.llrp_words.specs.Calls.Arguments.{IsAccess, word_in};

use super::{optional_number, optional_text};
use clap::ArgMatches;

/// What the words say of operations on one tag, but for what is read, written and locked ([`crate::texts_asked`]). What an option gives is
/// `None` if it is left out.
#[derive(Clone, Copy, Debug, PartialEq, Eq)]
pub struct AccessWords<'a> {
    /// The tag: hexadecimal digits, a tag URI or `any`.
    pub tag: &'a str,
    /// The tag URI of the new EPC.
    pub epc: Option<&'a str>,
    /// The path of the file with the access password.
    pub password_file: Option<&'a str>,
    /// Whether what was written is read back.
    pub verify: bool,
    /// The antenna; every one without it.
    pub antenna: Option<u16>,
    /// For how many seconds further tags are waited for before a change.
    pub settle: Option<u16>,
    /// For how many seconds a tag and each answer are waited for.
    pub timeout: Option<u16>,
    /// Whether each result is a line of JSON.
    pub json: bool,
}

/// The tag, which the parse has checked.
fn tag<'a>(inner: &ArgMatches<'a>) -> &'a str
    requires { HasWord (codes "tag") (rows_of (found_of inner.now)) }
    ensures { (name : List ℕ) → word_in (codes "tag") (Some (name, rows_of (found_of inner.now)))
        ≡ Some result.now }
{
    inner.get_str("tag").unwrap()
}

/// What the arguments say of `access`.
pub(super) fn access_words<'a>(inner: &ArgMatches<'a>) -> AccessWords<'a>
    requires { HasAccess (rows_of (found_of inner.now)) }
    ensures { (name : List ℕ) → IsAccess (Some (name, rows_of (found_of inner.now))) result }
{
    AccessWords {
        tag: tag(inner),
        epc: optional_text(inner, "epc"),
        password_file: optional_text(inner, "password-file"),
        verify: inner.get_flag("verify"),
        antenna: optional_number(inner, "antenna"),
        settle: optional_number(inner, "settle"),
        timeout: optional_number(inner, "timeout"),
        json: inner.get_flag("json"),
    }
}
