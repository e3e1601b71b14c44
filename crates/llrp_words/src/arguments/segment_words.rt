//! What the words say of the segments of a capture.

ghost use Rattle.std.specs.Prelude.{◌≡◌, ◌||◌, List, Some, option_map, ℕ};
ghost use Rattle.std.specs.Option.{is_some};
ghost use Rattle.clap.specs.Words.{found_of, rows_of};
ghost use Rattle.llrp_words.specs.Private.Words.{IsSegmentWords};

use super::optional_text;
use clap::ArgMatches;

/// What the words say of the segments of a capture. What an option gives is `None` if it is left out.
#[derive(Clone, Copy, Debug, PartialEq, Eq)]
pub struct SegmentWords<'a> {
    /// Whether the input is such segments.
    pub segments: bool,
    /// The word for the reader's port.
    pub port: Option<&'a str>,
}

impl SegmentWords<'_> {
    /// Whether one of the two was given.
    pub fn asks(self) -> bool
        ensures { result ≡ (self.entry.segments || is_some self.entry.port) }
    {
        self.segments || self.port.is_some()
    }
}

/// What the arguments say of the segments of a capture.
pub(super) fn segment_words<'a>(inner: &ArgMatches<'a>) -> SegmentWords<'a>
    ensures { (name : List ℕ) → IsSegmentWords (Some (name, rows_of (found_of inner.now))) result }
{
    SegmentWords {
        segments: inner.get_flag("segments"),
        port: optional_text(inner, "port"),
    }
}
