//! What a reader does as time passes.

ghost use Rattle.std.specs.Prelude.{◌≡◌, ℕ, ◌<◌, ◌≤◌, ◌+◌, OnOk, OnErr, List, Some, vec_len, vec_capacity};
ghost use Rattle.std.specs.Option.{option_copied};
ghost use Rattle.llrp_tree.specs.Tree.{MessageTree};
ghost use Rattle.llrp_session.specs.RoSpec.{RoSpec as TheRoSpec};
ghost use Rattle.llrp_session.specs.Table.{active as the_active};
ghost use Rattle.llrp_session.specs.Private.Settings.{settings_of};
ghost use Rattle.llrp_session.specs.ReaderMachine.{Turn, turn_begun, later as the_moment, keepalive_from as the_keepalive, has_run_out as the_test, keep_alive as the_keeping, tick as the_tick};
ghost use Rattle.llrp_session.specs.Private.ReaderParts.{chosen};
ghost use Rattle.llrp_session.specs.Calls.Due.{ends_at, keeps_alive_at, next_due as the_next_due, sooner as the_sooner};
ghost use Rattle.llrp_session.specs.Calls.ReaderSteps.{Stands};

use super::{Reader, table};
use crate::build::reader as build;
use crate::parse::parsed::Settings;
use crate::parse::stored_rospec::RoSpec;
use crate::types::Keepalive;
use llrp_tree::Message;
use std::alloc::AllocError;

/// The moment this many milliseconds later, at most the greatest `u64`.
fn later(now: u64, ms: u32) -> u64
    ensures { result ≡ the_moment now ms }
{
    now.saturating_add(1000 * ms as u64)
}

/// The keepalive that is due next, after this moment.
pub(crate) fn keepalive_from(now: u64, period: u32) -> Keepalive
    ensures { result ≡ the_keepalive now period }
{
    Keepalive {
        period,
        due: later(now, period),
    }
}

/// The sooner of two moments, if there are any.
pub fn sooner(one: Option<u64>, other: Option<u64>) -> Option<u64>
    ensures { result ≡ the_sooner one other }
{
    match (one, other) {
        (Some(one), Some(other)) => Some(one.min(other)),
        (Some(one), None) => Some(one),
        (None, other) => other,
    }
}

/// When a ROSpec that started at a moment ends by its duration, if it does.
fn end_of(started: u64, settings: &Settings) -> Option<u64>
    ensures { (s : TheRoSpec) → settings.now ≡ settings_of s
        → result ≡ ends_at started (Some s) }
{
    if settings.stop_trigger == 1 {
        Some(later(started, settings.duration))
    } else {
        None
    }
}

/// When the next KEEPALIVE is sent.
fn moment_of(keepalive: Option<Keepalive>) -> Option<u64>
    ensures { result ≡ keeps_alive_at keepalive }
{
    match keepalive {
        Some(keepalive) => Some(keepalive.due),
        None => None,
    }
}

impl Reader {
    /// When the active ROSpec ends by its duration, if it does.
    fn end_moment(&self) -> Option<u64>
        ensures { result ≡ ends_at self.now.started (the_active self.now.table) }
    {
        match table::active(self.table()) {
            Some(rospec) => end_of(self.started, rospec.settings()),
            None => None,
        }
    }

    /// When it next does something by itself, in microseconds: it sends a KEEPALIVE, or its active
    /// ROSpec ends. Before that time changes nothing ([`crate::laws::nothing_happens_before_it_is_due`]).
    pub fn next_due(&self) -> Option<u64>
        ensures { result ≡ the_next_due self.now }
    {
        sooner(self.end_moment(), moment_of(self.keepalive))
    }

    /// Whether the active ROSpec has run for as long as its stop trigger says.
    fn is_over(&self, now: u64, settings: &Settings) -> bool
        ensures { (s : TheRoSpec) → settings.now ≡ settings_of s
            → result ≡ the_test now self.now.started s }
    {
        settings.stop_trigger == 1 && later(self.started, settings.duration) <= now
    }

    /// The active ROSpec, if it has run for as long as its stop trigger says.
    fn active_over(&self, now: u64) -> Option<&RoSpec>
        ensures { option_copied result ≡ chosen (the_test now self.now.started)
            (the_active self.now.table) }
    {
        match table::active(self.table()) {
            Some(rospec) if self.is_over(now, rospec.settings()) => Some(rospec),
            _ => None,
        }
    }

    /// Sends a KEEPALIVE if one is due.
    fn keep_alive(&mut self, now: u64, out: &mut Vec<Message>)
        requires { vec_len out.old < vec_capacity out.old }
        ensures { (before : List MessageTree) (t : Turn) → Stands before t out.old.items self.old
            → Stands before (the_keeping now self.old.keepalive t) out.new.items self.new }
    {
        if let Some(keepalive) = self.keepalive {
            if keepalive.due <= now {
                let message = build::keepalive(self.alloc, self.version, self.next_id);
                self.keepalive = Some(keepalive_from(now, keepalive.period));
                self.tell(message, out);
            }
        }
    }

    /// Does what is due at this moment.
    #[tactic(auto, unfolding(crate::specs::ReaderMachine::tick))]
    pub(crate) fn tick(&mut self, now: u64, out: &mut Vec<Message>) -> Result<(), AllocError>
        requires { vec_len out.old + 3 ≤ vec_capacity out.old }
        ensures ok { OnOk result (Stands out.old.items (the_tick now (turn_begun self.old))
            out.new.items self.new) }
        ensures reader_unchanged { OnErr result (self.new ≡ self.old) }
        ensures out_unchanged { OnErr result (out.new.items ≡ out.old.items) }
    {
        let ending = self.ending(now, self.version(), self.active_over(now))?;
        self.end_maybe(ending, out);
        self.keep_alive(now, out);
        Ok(())
    }
}
