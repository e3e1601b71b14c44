//! Which events of antennas and inputs a client asked to hear of.

ghost use Rattle.std.specs.Prelude.{◌≡◌};
ghost use Rattle.llrp_tree.specs.Tree.{trees};
ghost use Rattle.llrp_live.specs.Calls.Notices as notices;

use crate::starts::is_parameter;
use llrp_schema::{Kind, number};
use llrp_session::SideEvent;
use llrp_stream::Item;
use llrp_tree::{Message, MsgKind, Node, ParamKind};

/// The EventType of a GPIEvent (LLRP 1.1, section 13).
const INPUTS: u128 = 1;

/// The EventType of an AntennaEvent.
const ANTENNAS: u128 = 8;

/// The events of which a client hears.
#[derive(Clone, Copy, Debug, PartialEq, Eq)]
pub struct Notices {
    /// Of its antennas.
    pub antennas: bool,
    /// Of its inputs.
    pub inputs: bool,
}

/// The field of a parameter at a place, or 0.
fn field(node: &Node, place: usize) -> u128
    ensures { result ≡ notices.field node.now.fields place }
{
    node.fields().get(place).copied().unwrap_or(0)
}

/// Whether a client hears of events of a type after these parameters, which are EventNotificationStates:
/// the last of that type counts.
fn state_in(nodes: &[Node], event: u128, before: bool) -> bool
    ensures { result ≡ notices.state_in event before nodes.now }
{
    let mut state = before;
    for node in nodes {
        if field(node, 0) == event {
            state = field(node, 1) == 1;
        }
    }
    state
}

/// The same of the parameters of a SET_READER_CONFIG, where those states are in a
/// ReaderEventNotificationSpec.
fn state_after(nodes: &[Node], event: u128, before: bool) -> bool
    ensures { result ≡ notices.state_after event before nodes.now }
{
    let mut state = before;
    for node in nodes {
        if is_parameter(node, ParamKind::ReaderEventNotificationSpec) {
            state = state_in(node.children().as_slice(), event, state);
        }
    }
    state
}

/// Whether a SET_READER_CONFIG sets a reader back.
fn is_reset(message: &Message) -> bool
    ensures { result ≡ notices.is_reset message.now }
{
    message.fields().get(0).copied().unwrap_or(0) == 1
}

/// Of which events a client hears after a SET_READER_CONFIG that was done.
fn notices_after(before: Notices, message: &Message) -> Notices
    ensures { result ≡ notices.notices_after before message.now }
{
    let is_reset = is_reset(message);
    let parameters = message.children().as_slice();
    Notices {
        antennas: state_after(parameters, ANTENNAS, before.antennas && !is_reset),
        inputs: state_after(parameters, INPUTS, before.inputs && !is_reset),
    }
}

/// Whether a parameter is an LLRPStatus of success.
fn is_success(node: &Node) -> bool
    ensures { result ≡ notices.is_success node.now }
{
    is_parameter(node, ParamKind::LlrpStatus) && field(node, 0) == 0
}

/// Whether one of these parameters is an LLRPStatus of success.
fn has_success(nodes: &[Node]) -> bool
    ensures { result ≡ notices.has_success nodes.now }
{
    for node in nodes {
        if is_success(node) {
            return true;
        }
    }
    false
}

/// Whether a message is the response to a SET_READER_CONFIG that was done.
fn says_done(message: &Message) -> bool
    ensures { result ≡ notices.says_done message.now }
{
    let kind = MsgKind::SetReaderConfigResponse;
    number(Kind::Message(message.kind())) == number(Kind::Message(kind))
        && has_success(message.children().as_slice())
}

/// Whether such a response is among these messages.
fn has_done(said: &[Message]) -> bool
    ensures { result ≡ notices.has_done said.now }
{
    for message in said {
        if says_done(message) {
            return true;
        }
    }
    false
}

/// Whether a message is SET_READER_CONFIG.
fn configures(message: &Message) -> bool
    ensures { result ≡ notices.configures message.now }
{
    number(Kind::Message(message.kind())) == number(Kind::Message(MsgKind::SetReaderConfig))
}

impl Notices {
    /// It hears of none.
    pub fn none() -> Notices
        ensures { result ≡ notices.none }
    {
        Notices {
            antennas: false,
            inputs: false,
        }
    }

    /// Whether it hears of an event.
    pub fn includes(self, event: SideEvent) -> bool
        ensures { result ≡ notices.includes self event }
    {
        match event {
            SideEvent::AntennaOff { .. } | SideEvent::AntennaOn { .. } => self.antennas,
            SideEvent::InputLow { .. } | SideEvent::InputHigh { .. } => self.inputs,
            SideEvent::OtherClient => true,
        }
    }

    /// Of which it hears after an item to which the reader said these messages.
    pub fn after(self, item: &Item, said: &[Message]) -> Notices
        ensures { result ≡ notices.after self item.now said.now }
    {
        match item {
            Item::Msg(message) if configures(message) && has_done(said) => {
                notices_after(self, message)
            }
            _ => self,
        }
    }
}
