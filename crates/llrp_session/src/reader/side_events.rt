//! What a reader says beside its machine, under ids of its counter.

ghost use Rattle.std.specs.Prelude.{◌≡◌, OnOk, OnErr};
ghost use Rattle.llrp_session.specs.Calls.SideEvents.{Notifies};

use super::Reader;
use crate::build::reader as build;
use crate::types::ReaderPhase;
use llrp_tree::Message;
use std::alloc::AllocError;

/// What happens to a reader beside its ROSpecs (LLRP 1.1, section 14).
#[derive(Clone, Copy, Debug, PartialEq, Eq)]
pub enum SideEvent {
    /// This antenna was disconnected.
    AntennaOff { number: u16 },
    /// This antenna was connected.
    AntennaOn { number: u16 },
    /// The input at this port became low.
    InputLow { port: u16 },
    /// The input at this port became high.
    InputHigh { port: u16 },
    /// Another client asked for a connection.
    OtherClient,
}

impl Reader {
    /// Appends the READER_EVENT_NOTIFICATION of such an event at the moment `now`, in microseconds,
    /// under the reader's next own id, if a client is connected. The only error is that memory ran
    /// out, which changes nothing.
    pub fn notify(
        &mut self,
        now: u64,
        event: SideEvent,
        out: &mut Vec<Message>,
    ) -> Result<(), AllocError>
        ensures ok { OnOk result (Notifies now event self.old self.new out.old.items
            out.new.items) }
        ensures reader_unchanged { OnErr result (self.new ≡ self.old) }
        ensures out_unchanged { OnErr result (out.new.items ≡ out.old.items) }
    {
        match self.phase() {
            ReaderPhase::Waiting | ReaderPhase::Down => Ok(()),
            ReaderPhase::Up => {
                out.reserve(1)?;
                let message = build::side_event(
                    self.alloc(),
                    self.version(),
                    self.next_id(),
                    now,
                    event,
                )?;
                self.tell(message, out);
                Ok(())
            }
        }
    }
}
