//! What the words say of the labels of lines.

ghost use Rattle.std.specs.Prelude.{◌≡◌, ◌||◌, List, Some, option_map, ℕ};
ghost use Rattle.std.specs.Option.{is_some};
ghost use Rattle.clap.specs.Words.{found_of, rows_of};
ghost use Rattle.llrp_words.specs.Private.Words.{IsLabelWords};

use super::optional_text;
use clap::ArgMatches;

/// What the words say of the labels of lines. What an option gives is `None` if it is left out.
#[derive(Clone, Copy, Debug, PartialEq, Eq)]
pub struct LabelWords<'a> {
    /// Whether the keys of EPCs follow them.
    pub keys: bool,
    /// The word for the set of schemes.
    pub schemes: Option<&'a str>,
}

impl LabelWords<'_> {
    /// Whether they ask for labels.
    pub fn asks(self) -> bool
        ensures { result ≡ (self.entry.keys || is_some self.entry.schemes) }
    {
        self.keys || self.schemes.is_some()
    }
}

/// What the arguments say of the labels of lines.
pub(super) fn label_words<'a>(inner: &ArgMatches<'a>) -> LabelWords<'a>
    ensures { (name : List ℕ) → IsLabelWords (Some (name, rows_of (found_of inner.now))) result }
{
    LabelWords {
        keys: inner.get_flag("keys"),
        schemes: optional_text(inner, "schemes"),
    }
}
