//! The listener that builds messages.

ghost use Rattle.std.specs.Prelude.{◌≡◌, ◌^◌, ◌-◌, [], None, min};
ghost use Rattle.llrp_stream.specs.Building.{nodes_weight};

use crate::engine::listener::{Listener, Stopped};
use crate::engine::open_nodes::OpenNodes;
use llrp_schema::{Field, Kind, MsgKind, ParamKind, Tail};
use llrp_tree::{Fault, Message};
use std::alloc::{AllocError, Global};
use std::marker::Model;

/// Builds the message that it receives, node by node.
#[derive(Drop)]
pub(crate) struct Builder {
    alloc: Global,
    version: u8,
    id: u32,
    nodes: OpenNodes,
    done: Option<Message>,
}

impl Model for Builder {
    ghost use Rattle.std.specs.Coded.{codes};
    ghost use Rattle.llrp_tree.specs.Private.Stored.{forest_code};
    ghost use Rattle.llrp_stream.specs.Building.{Building};

    ghost Value = { Building };

    ghost coded = { Prim.hlevel (codes, forest_code) };

    ghost view = { λ b. record { version = b.version; id = b.id; nodes = b.nodes; done = b.done } };
}

impl Builder {
    /// A builder that has received nothing; it takes no memory.
    pub(crate) fn new(alloc: Global) -> Builder
        ensures nodes { result.nodes ≡ [] }
        ensures done { result.done ≡ None }
    {
        Builder {
            alloc,
            version: 0,
            id: 0,
            nodes: OpenNodes::new(alloc),
            done: None,
        }
    }

    /// What its open nodes weigh: two for each node, the octets of their tails, and the weight of
    /// their closed children.
    pub(crate) fn weight(&self) -> u32
        ensures { result ≡ min (nodes_weight self.now.nodes) (2 ^ 32 - 1) }
    {
        self.nodes.weight()
    }

    /// Takes the message that is whole, if there is one.
    pub(crate) fn take(&mut self) -> Option<Message>
        ensures value { result ≡ self.old.done }
        ensures after { self.new ≡ record self.old { done = None } }
    {
        self.done.take()
    }

    /// Forgets everything that it received.
    pub(crate) fn clear(&mut self)
        ensures nodes { self.new.nodes ≡ [] }
        ensures done { self.new.done ≡ None }
    {
        self.nodes.clear();
        self.done = None;
    }
}

impl Listener for Builder {
    ghost use Rattle.std.specs.Prelude.{◌≡◌, [], Some};
    ghost use Rattle.llrp_stream.specs.Private.Building.{HasOpen};

    ghost begins = { λ self was t. HasOpen self t };

    ghost stands = { λ self was t. HasOpen self t };

    ghost ends = { λ self was m now. (self.done ≡ Some m) × (self.nodes ≡ []) };

    ghost faulty = { λ self was t octets fault. Unit {0} };

    fn message(
        &mut self,
        version: u8,
        kind: MsgKind,
        _octets: u32,
        id: u32,
    ) -> Result<(), AllocError> {
        self.version = version;
        self.id = id;
        self.done = None;
        self.nodes.begin(self.alloc, Kind::Message(kind));
        Ok(())
    }

    fn parameter(&mut self, _level: u8, kind: ParamKind, _stop: u32) -> Result<(), AllocError> {
        self.nodes.begin(self.alloc, Kind::Parameter(kind));
        Ok(())
    }

    fn field(&mut self, rule: &Field, value: u128) -> Result<(), AllocError> {
        if !rule.reserved {
            self.nodes.push_value(value);
        }
        Ok(())
    }

    fn tail(&mut self, _form: Tail) -> Result<(), AllocError> {
        Ok(())
    }

    fn octets(&mut self, _form: Tail, octets: &[u8]) -> Result<(), AllocError> {
        self.nodes.push_octets(octets)
    }

    fn ready(&mut self) -> Result<(), AllocError> {
        Ok(())
    }

    fn value(&mut self, _level: u8, kind: ParamKind, value: u128) -> Result<(), AllocError> {
        self.nodes.push_parameter(self.alloc, kind, value)
    }

    fn close(&mut self) -> Result<(), AllocError> {
        self.nodes.close()
    }

    fn end(&mut self) -> Result<(), AllocError> {
        self.done = Some(self.nodes.finish(self.version, self.id));
        Ok(())
    }

    fn fault(&mut self, _fault: Fault, _stopped: Option<Stopped>, _octets: &[u8]) {
        self.give_up();
    }

    fn give_up(&mut self) {
        self.nodes.clear();
    }
}
