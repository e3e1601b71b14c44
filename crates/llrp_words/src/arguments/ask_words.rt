//! What the words say of `ask`.

ghost use Rattle.std.specs.Prelude.{◌≡◌, List, Some, codes, ℕ};
ghost use Rattle.clap.specs.Words.{found_of, rows_of};
ghost use Rattle.llrp_words.specs.Private.Parse.{HasAsk, HasWord};
ghost use Rattle.llrp_words.specs.Calls.Arguments.{IsAsk, word_in};

use super::optional_number;
use clap::ArgMatches;

/// What the words say of a client that asks.
#[derive(Clone, Copy, Debug, PartialEq, Eq)]
pub struct AskWords<'a> {
    /// The path of the file with the messages.
    pub file: &'a str,
    /// Whether each message that comes is a line of JSON.
    pub json: bool,
    /// For how many seconds it waits for a connection and for each answer.
    pub timeout: Option<u16>,
    /// Whether it goes on after a status other than 0.
    pub goes_on: bool,
    /// Whether the file may have lines of octets.
    pub raw: bool,
}

/// The path of the file, which the parse has checked.
fn file<'a>(inner: &ArgMatches<'a>) -> &'a str
    requires { HasWord (codes "FILE") (rows_of (found_of inner.now)) }
    ensures { (name : List ℕ) → word_in (codes "FILE") (Some (name, rows_of (found_of inner.now)))
        ≡ Some result.now }
{
    inner.get_str("FILE").unwrap()
}

/// What the arguments say of `ask`.
pub(super) fn ask_words<'a>(inner: &ArgMatches<'a>) -> AskWords<'a>
    requires { HasAsk (rows_of (found_of inner.now)) }
    ensures { (name : List ℕ) → IsAsk (Some (name, rows_of (found_of inner.now))) result }
{
    AskWords {
        file: file(inner),
        json: inner.get_flag("json"),
        timeout: optional_number(inner, "timeout"),
        goes_on: inner.get_flag("go-on"),
        raw: inner.get_flag("raw"),
    }
}
