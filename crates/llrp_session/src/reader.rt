//! The simulated reader: it is given what happens at a moment, and returns the messages that it
//! sends.
//!
//! Moments are in microseconds. A step makes everything that takes memory before it changes
//! anything, so a step that fails changes nothing.

mod end_rospec;
pub(crate) mod events;
mod next_client;
mod requests;
mod rospecs;
mod settings;
pub(crate) mod side_events;
mod sightings;
pub(crate) mod status;
pub(crate) mod table;
pub(crate) mod timers;
mod turn;

ghost use Rattle.std.specs.Prelude.{◌≡◌, ◌≤◌, ◌<◌, OnOk, OnErr, IfErr, vec_len, vec_capacity};
ghost use Rattle.llrp_tree.specs.declared.TheConstants.{MAX_LIMIT};
ghost use Rattle.llrp_session.specs.Table.{state_of as the_state_of};
ghost use Rattle.llrp_session.specs.ReaderMachine.{new_reader, next, happen as the_happening, connect as the_connect, turn_begun, reply, fault_status as the_fault_status};
ghost use Rattle.llrp_session.specs.Contents.{Error};
ghost use Rattle.llrp_session.specs.Calls.ReaderSteps.{event_of, Stands, Turns, IsFault};

use crate::build::reader as build;
use crate::types::{ContentSelector, Keepalive, ReaderPhase, ReportSpec, RoState};
use events::{ReaderIn, StepFault, StepRefusal};
use llrp_tree::{Message, Node, Reason};
use status::fault_status;
use std::alloc::{AllocError, Global};
use std::marker::Model;
use table::Entry;
use turn::push_within;

/// A reader that serves one client.
#[derive(Drop)]
pub struct Reader {
    alloc: Global,
    limit: u32,
    phase: ReaderPhase,
    table: Vec<Entry>,
    held: Vec<Node>,
    started: u64,
    keepalive: Option<Keepalive>,
    report: ReportSpec,
    next_id: u32,
    version: u8,
}

impl Model for Reader {
    ghost use Rattle.std.specs.Coded.{codes};
    ghost use Rattle.llrp_tree.specs.Private.Stored.{tree_code};
    ghost use Rattle.llrp_session.specs.ReaderMachine.{Reader as Machine};

    ghost Value = { Machine };

    ghost coded = { Prim.hlevel (codes, tree_code) };

    ghost use Rattle.llrp_session.specs.Private.ReaderParts.{IsKept};

    ghost view = { λ a. record {
      limit = a.limit;
      phase = a.phase;
      table = a.table.items;
      held = a.held.items;
      started = a.started;
      keepalive = a.keepalive;
      report = a.report;
      next_id = a.next_id;
      version = a.version;
    } };

    ghost invariant = { λ a. IsKept a.version a.limit a.table.items a.held.items };
}

/// The ROReportSpec in force if none was set: trigger 2, N 0, AntennaID and PeakRSSI.
const FACTORY_REPORT: ReportSpec = ReportSpec {
    trigger: 2,
    n: 0,
    selector: ContentSelector {
        rospec_id: false,
        spec_index: false,
        inventory_parameter_spec_id: false,
        antenna_id: true,
        channel_index: false,
        peak_rssi: true,
        first_seen: false,
        last_seen: false,
        tag_seen_count: false,
    },
};

impl Reader {
    /// A new reader, for messages of at most `limit` octets. The messages that it starts itself
    /// have the ids `first_id` and the following ones. It takes no memory.
    pub fn new(alloc: Global, limit: u32, first_id: u32) -> Reader
        requires least { 4096 ≤ limit }
        requires greatest { limit ≤ MAX_LIMIT }
        requires id { 1 ≤ first_id }
        ensures { result ≡ new_reader limit first_id }
    {
        Reader {
            alloc,
            limit,
            phase: ReaderPhase::Waiting,
            table: Vec::new(alloc),
            held: Vec::new(alloc),
            started: 0,
            keepalive: None,
            report: FACTORY_REPORT,
            next_id: first_id,
            version: 1,
        }
    }

    /// The state of the ROSpec with this id, or `None` if there is none.
    pub fn state_of(&self, id: u32) -> Option<RoState>
        ensures { result ≡ the_state_of id self.now.table }
    {
        table::state_of(self.table.as_slice(), id)
    }

    /// The greatest length of a message, in octets.
    pub fn limit(&self) -> u32
        ensures limit { result ≡ self.now.limit }
        ensures least { 4096 ≤ result }
        ensures greatest { result ≤ MAX_LIMIT }
    {
        self.limit
    }

    /// Lets an event happen at the moment `now`, in microseconds, and appends the messages that the
    /// reader sends, at most three, to `out`. A refused step changes nothing and hands the event
    /// back. The refusals are `Closed` once the connection was closed, `NotConnected` for anything
    /// but a connect before there is a connection, `AlreadyUp` for a second connect, and `Memory`.
    #[tactic(auto, unfolding(crate::specs::ReaderMachine::next))]
    pub fn step(
        &mut self,
        now: u64,
        event: ReaderIn,
        out: &mut Vec<Message>,
    ) -> Result<(), StepRefusal>
        ensures ok { OnOk result (Turns (next now (event_of event) self.old) out.old.items
            out.new.items self.new) }
        ensures fault { IfErr result (λ refusal. IsFault (next now (event_of event) self.old)
            refusal.fault) }
        ensures handed_back { IfErr result (λ refusal. refusal.event ≡ event) }
        ensures reader_unchanged { OnErr result (self.new ≡ self.old) }
        ensures out_unchanged { OnErr result (out.new.items ≡ out.old.items) }
    {
        match self.phase() {
            ReaderPhase::Down => Err(StepRefusal {
                fault: StepFault::Closed,
                event,
            }),
            ReaderPhase::Waiting => self.step_waiting(now, event, out),
            ReaderPhase::Up => self.step_up(now, event, out),
        }
    }

    /// A step before the connection.
    #[tactic(auto, unfolding(crate::specs::ReaderMachine::next))]
    fn step_waiting(
        &mut self,
        now: u64,
        event: ReaderIn,
        out: &mut Vec<Message>,
    ) -> Result<(), StepRefusal>
        requires { self.old.phase ≡ ReaderPhase.Waiting }
        ensures ok { OnOk result (Turns (next now (event_of event) self.old) out.old.items
            out.new.items self.new) }
        ensures fault { IfErr result (λ refusal. IsFault (next now (event_of event) self.old)
            refusal.fault) }
        ensures handed_back { IfErr result (λ refusal. refusal.event ≡ event) }
        ensures reader_unchanged { OnErr result (self.new ≡ self.old) }
        ensures out_unchanged { OnErr result (out.new.items ≡ out.old.items) }
    {
        match event {
            ReaderIn::Connect => match self.connect(now, out) {
                Ok(()) => Ok(()),
                Err(_) => Err(StepRefusal {
                    fault: StepFault::Memory,
                    event: ReaderIn::Connect,
                }),
            },
            event => Err(StepRefusal {
                fault: StepFault::NotConnected,
                event,
            }),
        }
    }

    /// A step while a client is connected.
    #[tactic(auto, unfolding(crate::specs::ReaderMachine::next))]
    fn step_up(
        &mut self,
        now: u64,
        event: ReaderIn,
        out: &mut Vec<Message>,
    ) -> Result<(), StepRefusal>
        requires { self.old.phase ≡ ReaderPhase.Up }
        ensures ok { OnOk result (Turns (next now (event_of event) self.old) out.old.items
            out.new.items self.new) }
        ensures fault { IfErr result (λ refusal. IsFault (next now (event_of event) self.old)
            refusal.fault) }
        ensures handed_back { IfErr result (λ refusal. refusal.event ≡ event) }
        ensures reader_unchanged { OnErr result (self.new ≡ self.old) }
        ensures out_unchanged { OnErr result (out.new.items ≡ out.old.items) }
    {
        if let ReaderIn::Connect = &event {
            return Err(StepRefusal {
                fault: StepFault::AlreadyUp,
                event,
            });
        }
        match self.happen(now, event, out) {
            Ok(()) => Ok(()),
            Err(event) => Err(StepRefusal {
                fault: StepFault::Memory,
                event,
            }),
        }
    }

    /// A client connects.
    fn connect(&mut self, now: u64, out: &mut Vec<Message>) -> Result<(), AllocError>
        ensures ok { OnOk result (Stands out.old.items (the_connect now self.old)
            out.new.items self.new) }
        ensures reader_unchanged { OnErr result (self.new ≡ self.old) }
        ensures out_unchanged { OnErr result (out.new.items ≡ out.old.items) }
    {
        out.reserve(1)?;
        let event = build::accepted(self.alloc, self.version, self.next_id, now)?;
        self.phase = ReaderPhase::Up;
        self.tell(event, out);
        Ok(())
    }

    /// Lets an event happen while a client is connected. The event is handed back if memory runs
    /// out.
    fn happen(&mut self, now: u64, event: ReaderIn, out: &mut Vec<Message>) -> Result<(), ReaderIn>
        ensures ok { OnOk result (Stands out.old.items (the_happening now (event_of event) self.old)
            out.new.items self.new) }
        ensures handed_back { IfErr result (λ e. e ≡ event) }
        ensures reader_unchanged { OnErr result (self.new ≡ self.old) }
        ensures out_unchanged { OnErr result (out.new.items ≡ out.old.items) }
    {
        if out.reserve(3).is_err() {
            return Err(event);
        }
        match event {
            ReaderIn::Connect => Ok(()),
            ReaderIn::Take(message) => match self.take(now, message, out) {
                Ok(()) => Ok(()),
                Err(message) => Err(ReaderIn::Take(message)),
            },
            ReaderIn::TakeBad { id, reason } => match self.take_bad(id, reason, out) {
                Ok(()) => Ok(()),
                Err(_) => Err(ReaderIn::TakeBad { id, reason }),
            },
            ReaderIn::Seen(sighting) => match self.seen(now, &sighting, out) {
                Ok(()) => Ok(()),
                Err(_) => Err(ReaderIn::Seen(sighting)),
            },
            ReaderIn::Tick => match self.tick(now, out) {
                Ok(()) => Ok(()),
                Err(_) => Err(ReaderIn::Tick),
            },
        }
    }

    /// Takes a frame that is not a message.
    fn take_bad(
        &mut self,
        id: u32,
        reason: Reason,
        out: &mut Vec<Message>,
    ) -> Result<(), AllocError>
        requires { vec_len out.old < vec_capacity out.old }
        ensures ok { OnOk result (Stands out.old.items (reply self.old.version id
            (Error (the_fault_status reason)) (turn_begun self.old)) out.new.items self.new) }
        ensures reader_unchanged { OnErr result (self.new ≡ self.old) }
        ensures out_unchanged { OnErr result (out.new.items ≡ out.old.items) }
    {
        let message = build::error(self.alloc, self.version, id, fault_status(reason))?;
        push_within(out, message);
        Ok(())
    }
}
