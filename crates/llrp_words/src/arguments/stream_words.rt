//! What the words say of `show` and `encode`.

ghost use Rattle.std.specs.Prelude.{◌≡◌, List, Some, ℕ};
ghost use Rattle.clap.specs.Words.{found_of, rows_of};
ghost use Rattle.llrp_words.specs.Calls.Asked.{encode_in, show_in};
ghost use Rattle.llrp_words.specs.Calls.Requests.{IsLimit};
ghost use Rattle.llrp_words.specs.Calls.Said.{said_encode, said_show};
ghost use Rattle.llrp_words.specs.Private.Parse.{HasEncode, HasShow};

use super::{LabelWords, SegmentWords, label_words, limit, optional_text, segment_words};
use clap::ArgMatches;

/// What the words say of `show`. What an option gives is `None` if it is left out.
#[derive(Clone, Copy)]
pub struct ShowWords<'a> {
    /// Whether the input is hexadecimal digits.
    pub hex: bool,
    /// Whether the messages are those of the whole standard.
    pub all: bool,
    /// Whether lines of JSON are written.
    pub json: bool,
    /// The word for the names of their members.
    pub names: Option<&'a str>,
    pub labels: LabelWords<'a>,
    pub capture: SegmentWords<'a>,
    /// A message longer than this many octets is a fault.
    pub limit: u32,
}

/// What the words say of `encode`.
#[derive(Clone, Copy)]
pub struct EncodeWords<'a> {
    /// Whether hexadecimal digits are written.
    pub hex: bool,
    /// Whether the messages are those of the whole standard.
    pub all: bool,
    /// Whether lines of JSON are read.
    pub json: bool,
    pub labels: LabelWords<'a>,
    /// A message longer than this many octets is refused.
    pub limit: u32,
}

/// What the arguments say of `show`.
pub(super) fn show_words<'a>(inner: &ArgMatches<'a>) -> ShowWords<'a>
    requires { HasShow (rows_of (found_of inner.now)) }
    ensures words { (name : List ℕ) → said_show result ≡ show_in (Some (name, rows_of (found_of inner.now))) }
    ensures limit { IsLimit result.limit }
{
    ShowWords {
        hex: inner.get_flag("hex"),
        all: inner.get_flag("all"),
        json: inner.get_flag("json"),
        names: optional_text(inner, "names"),
        labels: label_words(inner),
        capture: segment_words(inner),
        limit: limit(inner),
    }
}

/// What the arguments say of `encode`.
pub(super) fn encode_words<'a>(inner: &ArgMatches<'a>) -> EncodeWords<'a>
    requires { HasEncode (rows_of (found_of inner.now)) }
    ensures words { (name : List ℕ) → said_encode result ≡ encode_in (Some (name, rows_of (found_of inner.now))) }
    ensures limit { IsLimit result.limit }
{
    EncodeWords {
        hex: inner.get_flag("hex"),
        all: inner.get_flag("all"),
        json: inner.get_flag("json"),
        labels: label_words(inner),
        limit: limit(inner),
    }
}
