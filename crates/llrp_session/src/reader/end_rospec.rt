//! The end of a ROSpec: the held reports are sent if it is to report at its end, then the End
//! event, and it becomes Inactive.

ghost use Rattle.std.specs.Prelude.{◌≡◌, ℕ, ◌≤◌, ◌+◌, ◌⊎◌, ◌==◌, Option, IfOk, vec_len, vec_capacity};
ghost use Rattle.std.specs.Option.{option_copied};
ghost use Rattle.llrp_session.specs.RoSpec.{RoSpec as TheRoSpec};
ghost use Rattle.llrp_session.specs.Table.{names as the_names, active as the_active};
ghost use Rattle.llrp_session.specs.Private.Settings.{settings_of};
ghost use Rattle.llrp_session.specs.ReaderMachine.{turn_begun, sends_at_end as the_test};
ghost use Rattle.llrp_session.specs.Private.ReaderParts.{chosen, end_of, IsEnding, IsEndingOf};
ghost use Rattle.llrp_session.specs.Calls.ReaderSteps.{Stands};

use super::Reader;
use super::table::{self, StateChange};
use super::turn::following_id;
use crate::build::reader as build;
use crate::parse::parsed::Settings;
use crate::parse::stored_rospec::RoSpec;
use crate::types::RoState;
use llrp_tree::Message;
use std::alloc::AllocError;

/// What the end of a ROSpec needs, made before anything changes.
#[derive(Drop)]
pub(crate) struct Ending {
    /// The ROSpecID.
    pub rospec: u32,
    /// Whether the held reports are sent first.
    pub reports: bool,
    /// The End event.
    pub event: Message,
}

impl Reader {
    /// The active ROSpec, if this id means it.
    pub(crate) fn active_named(&self, n: u32) -> Option<&RoSpec>
        ensures { option_copied result ≡ chosen (λ s. the_names n s.id)
            (the_active self.now.table) }
    {
        match table::active(self.table()) {
            Some(rospec) if table::names(n, rospec.settings().id) => Some(rospec),
            _ => None,
        }
    }

    /// The active ROSpec, if it has this id.
    pub(crate) fn active_of(&self, id: u32) -> Option<&RoSpec>
        ensures { option_copied result ≡ chosen (λ s. s.id == id) (the_active self.now.table) }
    {
        match table::active(self.table()) {
            Some(rospec) if rospec.settings().id == id => Some(rospec),
            _ => None,
        }
    }

    /// Whether reports are held that are sent when a ROSpec ends.
    fn sends_at_end(&self, settings: &Settings) -> bool
        ensures { (s : TheRoSpec) → settings.now ≡ settings_of s → result ≡ the_test self.now s }
    {
        let report = self.effective_report(settings);
        (report.trigger == 1 || report.trigger == 2) && !self.held.is_empty()
    }

    /// Prepares the end of a ROSpec, for messages of this version.
    fn end_of(&self, now: u64, version: u8, rospec: &RoSpec) -> Result<Ending, AllocError>
        requires { (version ≡ 1) ⊎ (version ≡ 2) }
        ensures { IfOk result (λ e. IsEnding now rospec.now
            (record self.now { version = version }) e) }
    {
        let settings = rospec.settings();
        let reports = self.sends_at_end(settings);
        let next_id = self.next_id();
        let id = if reports {
            following_id(next_id)
        } else {
            next_id
        };
        let rospec = settings.id;
        let event = build::ended(self.alloc(), version, id, now, rospec)?;
        Ok(Ending {
            rospec,
            reports,
            event,
        })
    }

    /// Prepares the end of a ROSpec, if there is one to end.
    pub(crate) fn ending(
        &self,
        now: u64,
        version: u8,
        rospec: Option<&RoSpec>,
    ) -> Result<Option<Ending>, AllocError>
        requires { (version ≡ 1) ⊎ (version ≡ 2) }
        ensures { IfOk result (λ e. IsEndingOf now (option_copied rospec.entry)
            (record self.now { version = version }) e) }
    {
        match rospec {
            Some(rospec) => {
                let ending = self.end_of(now, version, rospec)?;
                Ok(Some(ending))
            }
            None => Ok(None),
        }
    }

    /// Ends a ROSpec.
    #[tactic(auto, unfolding(crate::specs::ReaderMachine::end))]
    fn end(&mut self, ending: Ending, out: &mut Vec<Message>)
        requires { vec_len out.old + 2 ≤ vec_capacity out.old }
        ensures stands { (now : ℕ) (s : TheRoSpec) → IsEnding now s self.old ending
            → Stands out.old.items (end_of now (Option.Some s) (turn_begun self.old))
            out.new.items self.new }
        ensures len { vec_len out.new ≤ vec_len out.old + 2 }
        ensures capacity { vec_capacity out.old ≤ vec_capacity out.new }
    {
        if ending.reports {
            self.send_held(out);
        }
        self.change(StateChange::Set(ending.rospec, RoState::Inactive));
        self.tell(ending.event, out);
    }

    /// Ends a ROSpec, if there is one to end.
    pub(crate) fn end_maybe(&mut self, ending: Option<Ending>, out: &mut Vec<Message>)
        requires { vec_len out.old + 2 ≤ vec_capacity out.old }
        ensures stands { (now : ℕ) (o : Option TheRoSpec) → IsEndingOf now o self.old ending
            → Stands out.old.items (end_of now o (turn_begun self.old)) out.new.items self.new }
        ensures len { vec_len out.new ≤ vec_len out.old + 2 }
        ensures capacity { vec_capacity out.old ≤ vec_capacity out.new }
    {
        if let Some(ending) = ending {
            self.end(ending, out);
        }
    }
}
