//! What the words say of `sim`.

ghost use Rattle.std.specs.Prelude.{List, Some, ℕ};
ghost use Rattle.clap.specs.Words.{found_of, rows_of};
ghost use Rattle.llrp_words.specs.Private.Parse.{HasSim};
ghost use Rattle.llrp_words.specs.Calls.Arguments.{IsSim};

use super::{number, optional_number, optional_text};
use clap::ArgMatches;

/// What the words say of a simulated reader. What an option gives is `None` if it is left out.
#[derive(Clone, Copy, Debug, PartialEq, Eq)]
pub struct SimWords<'a> {
    /// The port to listen on; 0 for a free one.
    pub port: u16,
    /// Whether requests of general clients outside the profile are answered.
    pub all: bool,
    /// The address to listen on.
    pub bind: Option<&'a str>,
    /// How many clients are served, one after another; 0 for no end.
    pub clients: Option<u16>,
    /// The clock by which time passes by itself.
    pub clock: Option<&'a str>,
    /// The file of answers to messages that the profile does not have.
    pub answers: Option<&'a str>,
    /// Whether it says that it listens.
    pub ready: bool,
    /// Whether it keeps its ROSpecs from client to client.
    pub keep: bool,
}

/// What the arguments say of `sim`.
pub(super) fn sim_words<'a>(inner: &ArgMatches<'a>) -> SimWords<'a>
    requires { HasSim (rows_of (found_of inner.now)) }
    ensures { (name : List ℕ) → IsSim (Some (name, rows_of (found_of inner.now))) result }
{
    SimWords {
        port: number(inner, "PORT"),
        all: inner.get_flag("all"),
        bind: optional_text(inner, "bind"),
        clients: optional_number(inner, "clients"),
        clock: optional_text(inner, "clock"),
        answers: optional_text(inner, "answers"),
        ready: inner.get_flag("ready"),
        keep: inner.get_flag("keep"),
    }
}
