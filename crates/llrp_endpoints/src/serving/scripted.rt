//! A simulated reader that acts by a script.

ghost use Rattle.std.specs.Prelude.{◌≡◌, ◌+◌, ◌≤◌, ◌↔◌, [], IfErr, IsTrue, List, OnOk, length};
ghost use Rattle.llrp_session.specs.ReaderMachine.{Reader as Machine};
ghost use Rattle.llrp_endpoints.specs.Private.Acting.{DidSome};
ghost use Rattle.llrp_endpoints.specs.Serving.{Closes, events};
ghost use Rattle.llrp_endpoints.specs.declared.script.Entry.{Entry};

use super::events::{due, event_of, happen, happen_all};
use crate::script::Script;
use llrp_listing::ToolErr;
use llrp_session::{Reader, ReaderIn};
use llrp_stream::Item;
use llrp_tree::MsgKind;
use std::alloc::Global;

/// A simulated reader and its script.
#[derive(Drop)]
pub(crate) struct ScriptedReader {
    alloc: Global,
    core: Reader,
    script: Script,
    /// How many entries are done.
    done: usize,
    /// How many items were taken; at the greatest `u64`, where no entry is left, it stops counting.
    taken: u64,
    /// The moment of the last entry done.
    moment: u64,
    ghost within: { done ≤ length script },
}

/// Whether an item is CLOSE_CONNECTION.
fn closes(item: &Item) -> bool
    ensures { IsTrue result ↔ Closes item.now }
{
    match item {
        Item::Msg(message) => matches!(message.kind(), MsgKind::CloseConnection),
        Item::Bad { .. } => false,
    }
}

impl ScriptedReader {
    ghost use Rattle.llrp_endpoints.specs.Private.ServingStands.{Connects, DoesDue, DoesSomeDue, TakesNext};
    ghost use Rattle.llrp_endpoints.specs.Calls.ServingStands.{IsNew};

    /// A new reader and its script.
    pub(crate) fn new(alloc: Global, core: Reader, script: Script) -> ScriptedReader
        ensures { IsNew core script result }
    {
        script.entries();
        ScriptedReader {
            alloc,
            core,
            script,
            done: 0,
            taken: 0,
            moment: 0,
        }
    }

    /// Connects, and does the entries that happen before any item.
    pub(crate) fn connect(&mut self, out: &mut Vec<u8>) -> Result<(), ToolErr>
        ensures ok { OnOk result ((reader : Machine) (entries : List Entry)
            → IsNew reader entries self.old
            → Connects reader entries self.new out.old.items out.new.items) }
        ensures err { IfErr result (λ e. (reader : Machine) (entries : List Entry)
            → IsNew reader entries self.old
            → DidSome reader (events entries []) e out.old.items out.new.items) }
    {
        happen(self.alloc, &mut self.core, 0, ReaderIn::Connect, out)?;
        self.happen_due(out)
    }

    /// Does the entries that are due after the items taken.
    fn happen_due(&mut self, out: &mut Vec<u8>) -> Result<(), ToolErr>
        ensures ok { OnOk result (DoesDue self.old self.new out.old.items out.new.items) }
        ensures err { IfErr result (λ e. DoesSomeDue self.old e out.old.items out.new.items) }
        ensures taken { self.new.taken ≡ self.old.taken }
    {
        let left = &self.script.entries()[self.done..];
        let count = due(left, self.taken);
        self.moment = happen_all(self.alloc, &mut self.core, self.moment, &left[..count], out)?;
        self.done += count;
        Ok(())
    }

    /// Takes an item, and then lets the entries happen that are due, unless the item closes the
    /// connection. Returns whether it does.
    pub(crate) fn take(&mut self, item: Item, out: &mut Vec<u8>) -> Result<bool, ToolErr>
        ensures { TakesNext item self.old self.new out.old.items out.new.items result }
    {
        let closing = closes(&item);
        happen(self.alloc, &mut self.core, self.moment, event_of(item), out)?;
        if closing {
            return Ok(true);
        }
        self.taken = self.taken.saturating_add(1);
        self.happen_due(out)?;
        Ok(false)
    }
}
