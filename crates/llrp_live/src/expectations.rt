//! What a script expects of its client.

ghost use Rattle.std.specs.Prelude.{◌≡◌, ◌++◌, ◌∷◌, [], OnErr, OnOk, filter};
ghost use Rattle.llrp_live.specs.Calls.Expectations.{first_line, first_over, is_awaited_after, soonest};

use llrp_schema::{Kind, MsgKind, number};
use llrp_session::sooner;
use std::alloc::{AllocError, Global};
use std::marker::Model;

/// A message that is expected.
#[derive(Clone, Copy, Debug, PartialEq, Eq)]
pub struct Expectation {
    /// The message's kind.
    pub kind: MsgKind,
    /// The last moment at which it is in time, in microseconds.
    pub until: u64,
    /// The line of the script that expects it, counted from 1.
    pub line: u64,
}

/// The messages that are expected and did not come yet. Contracts see them as a list.
#[derive(Debug, Drop)]
pub struct Expectations {
    awaited: Vec<Expectation>,
}

impl Model for Expectations {
    ghost use Rattle.std.specs.Prelude.{List};
    ghost use Rattle.llrp_live.specs.declared.expectations.Expectation.{Expectation};

    ghost Value = { List Expectation };

    ghost view = { λ s. s.awaited.items };
}

/// Whether a message is expected as before after one of this kind came.
fn is_awaited_after(kind: MsgKind, expectation: &Expectation) -> bool
    ensures { result ≡ is_awaited_after kind expectation.now }
{
    number(Kind::Message(expectation.kind)) != number(Kind::Message(kind))
}

/// The line of the first of these whose time is over.
fn first_over(now: u64, awaited: &[Expectation]) -> Option<u64>
    ensures { result ≡ first_over now awaited.now }
{
    for expectation in awaited {
        if expectation.until < now {
            return Some(expectation.line);
        }
    }
    None
}

/// The last moment of the one that has to come first.
fn soonest(awaited: &[Expectation]) -> Option<u64>
    ensures { result ≡ soonest awaited.now }
{
    let mut next = None;
    for expectation in awaited {
        next = sooner(next, Some(expectation.until));
    }
    next
}

impl Expectations {
    /// Nothing is expected. It takes no memory.
    pub fn new(alloc: Global) -> Expectations
        ensures { result ≡ [] }
    {
        Expectations {
            awaited: Vec::new(alloc),
        }
    }

    /// Expects a message. The only error is that memory ran out, which changes nothing.
    pub fn add(&mut self, expectation: Expectation) -> Result<(), AllocError>
        ensures ok { OnOk result (self.new ≡ self.old ++ expectation ∷ []) }
        ensures unchanged { OnErr result (self.new ≡ self.old) }
    {
        self.awaited.push(expectation)?;
        Ok(())
    }

    /// A message of this kind came, which each that expects one of its kind awaited.
    pub fn meet(&mut self, kind: MsgKind)
        ensures { self.new ≡ filter (is_awaited_after kind) self.old }
    {
        self.awaited
            .retain(|expectation| is_awaited_after(kind, expectation));
    }

    /// The line of the first whose time is over at the moment `now`, in microseconds.
    pub fn first_over(&self, now: u64) -> Option<u64>
        ensures { result ≡ first_over now self.now }
    {
        first_over(now, self.awaited.as_slice())
    }

    /// The line of the first that is left.
    pub fn first_line(&self) -> Option<u64>
        ensures { result ≡ first_line self.now }
    {
        match self.awaited.as_slice() {
            [first, ..] => Some(first.line),
            [] => None,
        }
    }

    /// The last moment of the one that has to come first, in microseconds.
    pub fn soonest(&self) -> Option<u64>
        ensures { result ≡ soonest self.now }
    {
        soonest(self.awaited.as_slice())
    }
}
