//! What the words say of `watch` and `stop`.

ghost use Rattle.std.specs.Prelude.{◌≡◌, List, Some, codes, ℕ};
ghost use Rattle.clap.specs.Words.{found_of, rows_of};
ghost use Rattle.llrp_words.specs.Private.Parse.{HasNumberIn, HasStop, HasWatch, HasWord, MayHaveLongCount};
ghost use Rattle.llrp_words.specs.Calls.Arguments.{HasNumber, HasOptionalNumber, IsStop, IsWatch, least_longest, word_in};
ghost use Rattle.llrp_words.specs.declared.arguments.TheConstants.{MOST_OCTETS};
ghost use Rattle.std.specs.Int.{IsInRange};

use super::label_words::{LabelWords, label_words};
use super::{optional_number, optional_text};
use clap::ArgMatches;

/// What the words say of a client that lasts. What an option gives is `None` if it is left out.
#[derive(Clone, Copy, Debug, PartialEq, Eq)]
pub struct WatchWords<'a> {
    /// The path of the file with the ROSpec.
    pub rospec: Option<&'a str>,
    /// The id of the ROSpec that is made if there is no file.
    pub id: Option<u32>,
    /// After how many tags the reader reports.
    pub every: Option<u16>,
    /// How many seconds pass between two KEEPALIVEs; 0 for none.
    pub keepalive: Option<u16>,
    /// The most seconds to wait before it connects again.
    pub again: Option<u16>,
    /// Whether each line is words.
    pub text: bool,
    /// The antennas of the ROSpec that is made, as they were written.
    pub antennas: Option<&'a str>,
    /// The most octets that a message may have.
    pub limit: u32,
    /// The path of the file that the reader's frames are saved in.
    pub save: Option<&'a str>,
    /// Whether more is said of the connection.
    pub verbose: bool,
    /// After how many seconds it ends.
    pub seconds: Option<u32>,
    /// The reader's name, which each object of JSON has.
    pub name: Option<&'a str>,
    /// The most power of the ROSpec that is made, in dBm, as it was written.
    pub power: Option<&'a str>,
    /// Whether the reader's messages are printed, in place of tags.
    pub messages: bool,
    /// The path of the file with messages on AccessSpecs.
    pub access: Option<&'a str>,
    /// The labels of the lines of tags.
    pub labels: LabelWords<'a>,
}

/// What the words say of a client that deletes what a `watch` with the same words left.
#[derive(Clone, Copy, Debug, PartialEq, Eq)]
pub struct StopWords<'a> {
    /// The words of that `watch`.
    pub watch: WatchWords<'a>,
    /// For how many seconds the reader may be silent.
    pub timeout: Option<u16>,
}

/// The reader's name or address, which the parse has checked.
pub(super) fn host<'a>(inner: &ArgMatches<'a>) -> &'a str
    requires { HasWord (codes "HOST") (rows_of (found_of inner.now)) }
    ensures { (name : List ℕ) → word_in (codes "HOST") (Some (name, rows_of (found_of inner.now)))
        ≡ Some result.now }
{
    inner.get_str("HOST").unwrap()
}

/// The number of an option that may be as great as the id of a ROSpec, if it is given; the parse has
/// checked it.
fn optional_long_count(inner: &ArgMatches<'_>, id: &str) -> Option<u32>
    requires { MayHaveLongCount id.now (rows_of (found_of inner.now)) }
    ensures { (name : List ℕ) → HasOptionalNumber id.now
        (Some (name, rows_of (found_of inner.now))) result }
{
    inner.get_one::<u32>(id)
}

/// The most octets of a message, which the parse has checked.
pub(super) fn longest(inner: &ArgMatches<'_>) -> u32
    requires { HasNumberIn least_longest MOST_OCTETS (codes "limit") (rows_of (found_of inner.now)) }
    ensures number { (name : List ℕ) → HasNumber (codes "limit")
        (Some (name, rows_of (found_of inner.now))) result }
    ensures bounds { IsInRange least_longest MOST_OCTETS result }
{
    inner.get_one::<u32>("limit").unwrap()
}

/// What the arguments say of `watch`.
pub(super) fn watch_words<'a>(inner: &ArgMatches<'a>) -> WatchWords<'a>
    requires { HasWatch (rows_of (found_of inner.now)) }
    ensures words { (name : List ℕ) → IsWatch (Some (name, rows_of (found_of inner.now))) result }
    ensures bounds { IsInRange least_longest MOST_OCTETS result.limit }
{
    WatchWords {
        rospec: optional_text(inner, "rospec"),
        id: optional_long_count(inner, "id"),
        every: optional_number(inner, "every"),
        keepalive: optional_number(inner, "keepalive"),
        again: optional_number(inner, "again"),
        text: inner.get_flag("text"),
        antennas: optional_text(inner, "antennas"),
        limit: longest(inner),
        save: optional_text(inner, "save"),
        verbose: inner.get_flag("verbose"),
        seconds: optional_long_count(inner, "for"),
        name: optional_text(inner, "name"),
        power: optional_text(inner, "power"),
        messages: inner.get_flag("messages"),
        access: optional_text(inner, "access"),
        labels: label_words(inner),
    }
}

/// What the arguments say of `stop`.
pub(super) fn stop_words<'a>(inner: &ArgMatches<'a>) -> StopWords<'a>
    requires { HasStop (rows_of (found_of inner.now)) }
    ensures { (name : List ℕ) → IsStop (Some (name, rows_of (found_of inner.now))) result }
{
    StopWords {
        watch: watch_words(inner),
        timeout: optional_number(inner, "timeout"),
    }
}
