//! How a reader serves the requests of its client.

ghost use Rattle.std.specs.Prelude.{◌≡◌, ◌≤◌, ◌+◌, ◌⊎◌, Option, OnOk, OnErr, IfErr, vec_len, vec_capacity};
ghost use Rattle.llrp_session.specs.RoSpec.{RoSpec as TheRoSpec};
ghost use Rattle.llrp_session.specs.Contents as words;
ghost use Rattle.llrp_session.specs.Contents.{Response, Error};
ghost use Rattle.llrp_session.specs.Reading.{request_of as the_request};
ghost use Rattle.llrp_session.specs.Private.ReadWords.{IsRequest};
ghost use Rattle.llrp_session.specs.ReaderMachine as machine;
ghost use Rattle.llrp_session.specs.ReaderMachine.{reply};
ghost use Rattle.llrp_session.specs.Private.ReaderParts.{IsEndingOf, IsOther, end_of, taken};
ghost use Rattle.llrp_session.specs.Calls.ReaderSteps.{Stands};

use super::Reader;
use super::end_rospec::Ending;
use super::status::{SUCCESS, UNSUPPORTED_MESSAGE};
use super::turn::push_within;
use crate::build::reader as build;
use crate::parse::for_reader::request_of;
use crate::parse::parsed::Request;
use crate::types::{Operation, ReaderPhase};
use llrp_tree::Message;
use std::alloc::AllocError;

/// When a request was taken, and the version and id of its message.
#[derive(Clone, Copy)]
pub(crate) struct Head {
    /// In microseconds.
    pub moment: u64,
    pub version: u8,
    pub id: u32,
}

impl Reader {
    /// Sends a response that has a status alone.
    pub(crate) fn respond(
        &mut self,
        head: Head,
        operation: Operation,
        status: u16,
        out: &mut Vec<Message>,
    ) -> Result<(), AllocError>
        requires version { (head.version ≡ 1) ⊎ (head.version ≡ 2) }
        requires room { vec_len out.old + 3 ≤ vec_capacity out.old }
        ensures ok { OnOk result (Stands out.old.items (reply head.version head.id
            (Response operation status) (taken head.version self.old)) out.new.items self.new) }
        ensures len { OnOk result (vec_len out.new ≡ vec_len out.old + 1) }
        ensures capacity { vec_capacity out.old ≤ vec_capacity out.new }
        ensures reader_unchanged { OnErr result (self.new ≡ self.old) }
        ensures out_unchanged { OnErr result (out.new.items ≡ out.old.items) }
    {
        let message = build::response(self.alloc(), head.version, head.id, operation, status)?;
        self.take_version(head.version);
        push_within(out, message);
        Ok(())
    }

    /// Ends a ROSpec, if there is one to end, and then sends the response with status 0.
    pub(crate) fn end_and_respond(
        &mut self,
        head: Head,
        operation: Operation,
        ending: Option<Ending>,
        out: &mut Vec<Message>,
    ) -> Result<(), AllocError>
        requires version { (head.version ≡ 1) ⊎ (head.version ≡ 2) }
        requires room { vec_len out.old + 3 ≤ vec_capacity out.old }
        ensures ok { (o : Option TheRoSpec) → IsEndingOf head.moment o
            (record self.old { version = head.version }) ending
            → OnOk result (Stands out.old.items (reply head.version head.id
            (Response operation machine.success) (end_of head.moment o
            (taken head.version self.old))) out.new.items self.new) }
        ensures reader_unchanged { OnErr result (self.new ≡ self.old) }
        ensures out_unchanged { OnErr result (out.new.items ≡ out.old.items) }
    {
        let answer = build::response(self.alloc(), head.version, head.id, operation, SUCCESS)?;
        self.take_version(head.version);
        self.end_maybe(ending, out);
        push_within(out, answer);
        Ok(())
    }

    /// Serves CLOSE_CONNECTION: the table stays, and no end is reported.
    fn close(&mut self, head: Head, out: &mut Vec<Message>) -> Result<(), AllocError>
        requires version { (head.version ≡ 1) ⊎ (head.version ≡ 2) }
        requires room { vec_len out.old + 3 ≤ vec_capacity out.old }
        ensures ok { OnOk result (Stands out.old.items (machine.close_connection head.version
            head.id (taken head.version self.old)) out.new.items self.new) }
        ensures reader_unchanged { OnErr result (self.new ≡ self.old) }
        ensures out_unchanged { OnErr result (out.new.items ≡ out.old.items) }
    {
        self.respond(head, Operation::Closing, SUCCESS, out)?;
        self.phase = ReaderPhase::Down;
        Ok(())
    }

    /// Serves GET_ROSPECS: lists each ROSpec of the table with its present state.
    fn list(&mut self, head: Head, out: &mut Vec<Message>) -> Result<(), AllocError>
        requires version { (head.version ≡ 1) ⊎ (head.version ≡ 2) }
        requires room { vec_len out.old + 3 ≤ vec_capacity out.old }
        ensures ok { OnOk result (Stands out.old.items (machine.list_rospecs head.version head.id
            (taken head.version self.old)) out.new.items self.new) }
        ensures reader_unchanged { OnErr result (self.new ≡ self.old) }
        ensures out_unchanged { OnErr result (out.new.items ≡ out.old.items) }
    {
        let message = build::table(self.alloc(), head.version, head.id, self.table())?;
        self.take_version(head.version);
        push_within(out, message);
        Ok(())
    }

    /// Answers a request that is not supported.
    fn refuse(&mut self, head: Head, out: &mut Vec<Message>) -> Result<(), AllocError>
        requires version { (head.version ≡ 1) ⊎ (head.version ≡ 2) }
        requires room { vec_len out.old + 3 ≤ vec_capacity out.old }
        ensures ok { OnOk result (Stands out.old.items (reply head.version head.id
            (Error machine.unsupported_message) (taken head.version self.old))
            out.new.items self.new) }
        ensures reader_unchanged { OnErr result (self.new ≡ self.old) }
        ensures out_unchanged { OnErr result (out.new.items ≡ out.old.items) }
    {
        let message = build::error(self.alloc(), head.version, head.id, UNSUPPORTED_MESSAGE)?;
        self.take_version(head.version);
        push_within(out, message);
        Ok(())
    }

    /// Serves a request other than ADD_ROSPEC.
    #[tactic(auto, unfolding(crate::specs::ReaderMachine::serve))]
    fn serve(
        &mut self,
        head: Head,
        request: Request,
        out: &mut Vec<Message>,
    ) -> Result<(), AllocError>
        requires version { (head.version ≡ 1) ⊎ (head.version ≡ 2) }
        requires room { vec_len out.old + 3 ≤ vec_capacity out.old }
        requires other { IsOther request }
        ensures ok { (q : words.Request) → IsRequest request q
            → OnOk result (Stands out.old.items (machine.serve head.moment head.version head.id q
            (taken head.version self.old)) out.new.items self.new) }
        ensures reader_unchanged { OnErr result (self.new ≡ self.old) }
        ensures out_unchanged { OnErr result (out.new.items ≡ out.old.items) }
    {
        match request {
            Request::AddRoSpec(_) => unreachable!(),
            Request::DeleteRoSpec(n) => self.delete(head, n, out),
            Request::StartRoSpec(n) => self.start_rospec(head, n, out),
            Request::StopRoSpec(n) => self.stop(head, n, out),
            Request::EnableRoSpec(n) => self.enable(head, n, out),
            Request::DisableRoSpec(n) => self.disable(head, n, out),
            Request::GetRoSpecs => self.list(head, out),
            Request::SetReaderConfig(config) => self.configure(head, config, out),
            Request::GetReports => {
                self.take_version(head.version);
                self.send_held(out);
                Ok(())
            }
            Request::CloseConnection => self.close(head, out),
            Request::NoRequest => {
                self.take_version(head.version);
                Ok(())
            }
            Request::Unsupported => self.refuse(head, out),
        }
    }

    /// Takes a message. It is handed back if memory runs out.
    #[tactic(auto, unfolding(crate::specs::ReaderMachine::serve))]
    pub(crate) fn take(
        &mut self,
        now: u64,
        message: Message,
        out: &mut Vec<Message>,
    ) -> Result<(), Message>
        requires { vec_len out.old + 3 ≤ vec_capacity out.old }
        ensures ok { OnOk result (Stands out.old.items (machine.serve now message.version message.id
            (the_request message) (taken message.version self.old)) out.new.items self.new) }
        ensures handed_back { IfErr result (λ m. m ≡ message) }
        ensures reader_unchanged { OnErr result (self.new ≡ self.old) }
        ensures out_unchanged { OnErr result (out.new.items ≡ out.old.items) }
    {
        message.lawful();
        let head = Head {
            moment: now,
            version: message.version(),
            id: message.id(),
        };
        match request_of(&message) {
            Request::AddRoSpec(settings) => self.add(head, message, &settings, out),
            request => match self.serve(head, request, out) {
                Ok(()) => Ok(()),
                Err(_) => Err(message),
            },
        }
    }
}
