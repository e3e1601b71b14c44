//! Lawful messages.

ghost use Rattle.std.specs.Prelude.{◌≡◌, ◌≤◌, ◌<◌, ◌+◌, [], length, IfOk, IfErr, slice_index, Some, None, unwrap_or};
ghost use Rattle.llrp_tree.specs.Tree.{MessageTree, forest, trees};
ghost use Rattle.llrp_tree.specs.Lawful.{AreOctets, message_octets, IsLawfulMessage};
ghost use Rattle.llrp_tree.specs.Checks.{first_message_fault};

use crate::node::{NodeFault, Nodes, Octets};
use crate::{HEADER_OCTETS, child_checks, own_parts};
use arrayvec::ArrayVec;
use llrp_schema::{Kind, MsgKind};
use std::alloc::{AllocError, Global};
use std::marker::Model;

/// A lawful message with all parameters in it (LLRP 1.1, section 17.1).
#[derive(Drop)]
pub struct Message {
    version: u8,
    id: u32,
    kind: MsgKind,
    fields: ArrayVec<u128, 12>,
    // (none and no octets are the same)
    tail: Option<Octets>,
    children: Nodes,
    octets: u32,
}

impl Model for Message {
    ghost use Rattle.std.specs.Prelude.{◌≡◌, [], unwrap_or};
    ghost use Rattle.llrp_tree.specs.Tree.{MessageTree, forest};
    ghost use Rattle.llrp_tree.specs.Private.Stored.{message_code};
    ghost use Rattle.llrp_tree.specs.Lawful as law;

    ghost Value = { MessageTree };

    ghost coded = { message_code };

    ghost view = { λ m. record {
      version = m.version;
      id = m.id;
      kind = m.kind;
      fields = m.fields.items;
      tail = unwrap_or m.tail [];
      children = forest m.children;
    } };

    ghost invariant = { λ m. (m.octets
        ≡ law.message_octets (record {
          version = m.version;
          id = m.id;
          kind = m.kind;
          fields = m.fields.items;
          tail = unwrap_or m.tail [];
          children = forest m.children;
        }))
        × law.IsLawfulMessage (record {
          version = m.version;
          id = m.id;
          kind = m.kind;
          fields = m.fields.items;
          tail = unwrap_or m.tail [];
          children = forest m.children;
        }) };
}

impl Message {
    /// The version: 1 is LLRP 1.0.1, 2 is LLRP 1.1.
    pub fn version(&self) -> u8
        ensures { result ≡ self.now.version }
    {
        self.version
    }

    /// The message's id.
    pub fn id(&self) -> u32
        ensures { result ≡ self.now.id }
    {
        self.id
    }

    /// The kind.
    pub fn kind(&self) -> MsgKind
        ensures { result ≡ self.now.kind }
    {
        self.kind
    }

    /// The fields in their order, without the reserved ones.
    pub fn fields(&self) -> &[u128]
        ensures { result.now ≡ self.now.fields }
    {
        self.fields.as_slice()
    }

    /// The field with this index, reserved ones not counted.
    pub fn field(&self, i: usize) -> u128
        requires { i < length self.now.fields }
        ensures { result ≡ slice_index self.now.fields i }
    {
        self.fields.as_slice()[i]
    }

    /// The octets after the fields of a message that has data, without a count; none of any other.
    pub fn tail(&self) -> &[u8]
        ensures { result.now ≡ self.now.tail }
    {
        octets_of(&self.tail)
    }

    /// The children in their order.
    pub fn children(&self) -> &Nodes
        ensures { result.now ≡ trees self.now.children }
    {
        &self.children
    }

    /// Takes the message apart and returns its children.
    pub fn into_children(self) -> Nodes
        ensures { result ≡ trees self.children }
    {
        self.children
    }

    /// The number of octets of the message's frame.
    pub fn length(&self) -> u32
        ensures { result ≡ message_octets self.now }
    {
        self.octets
    }

    /// Lets a proof use that this message is lawful; does nothing at run time.
    pub fn lawful(&self)
        ensures { IsLawfulMessage self.now }
    {
        let _ = &self.octets;
    }

    /// A copy of the message. The error is that memory ran out.
    pub fn try_clone(&self, alloc: Global) -> Result<Message, AllocError>
        ensures { IfOk result (λ message. message ≡ self.now) }
    {
        Ok(Message {
            version: self.version,
            id: self.id,
            kind: self.kind,
            fields: child_checks::kept(self.fields.as_slice()),
            tail: clone_of(alloc, &self.tail)?,
            children: self.children.try_clone(alloc)?,
            octets: self.octets,
        })
    }
}

/// The octets of a tail, if there is one.
fn octets_of(tail: &Option<Octets>) -> &[u8]
    ensures value { result.now ≡ unwrap_or tail.now [] }
    ensures octets { AreOctets result.now }
{
    match tail {
        Some(octets) => octets.as_slice(),
        None => &[],
    }
}

/// A copy of a tail, if there is one. The error is that memory ran out.
fn clone_of(alloc: Global, tail: &Option<Octets>) -> Result<Option<Octets>, AllocError>
    ensures { IfOk result (λ copy. copy ≡ tail.now) }
{
    match tail {
        Some(octets) => Ok(Some(octets.try_clone(alloc)?)),
        None => Ok(None),
    }
}

/// A refusal of `Message::new` or `Message::with_tail`: the first test that fails, and the children and the tail that were given.
#[derive(Drop)]
pub struct MsgRefusal {
    pub fault: NodeFault,
    pub tail: Option<Octets>,
    pub children: Nodes,
}

impl Message {
    /// Makes a message of parts that are proved to be lawful, without a test: the one that
    /// `Message::with_tail` makes of them.
    pub fn of_lawful(
        version: u8,
        id: u32,
        kind: MsgKind,
        fields: &[u128],
        tail: Octets,
        children: Nodes,
    ) -> Message
        requires { IsLawfulMessage (record {
          version = version;
          id = id;
          kind = kind;
          fields = fields.now;
          tail = tail;
          children = forest children;
        }) }
        ensures value { result ≡ record {
          version = version;
          id = id;
          kind = kind;
          fields = fields.now;
          tail = tail;
          children = forest children;
        } }
        ensures lawful { IsLawfulMessage result }
    {
        let kept = child_checks::kept(fields);
        let extent = child_checks::extent_of(children.as_slice());
        let body = own_parts::body_octets(Kind::Message(kind), tail.as_slice());
        Message {
            version,
            id,
            kind,
            fields: kept,
            tail: Some(tail),
            children,
            octets: (HEADER_OCTETS as u128 + body + extent.octets) as u32,
        }
    }

    /// Makes a message of these parts, without a tail, or returns the first test that they fail.
    pub fn new(
        version: u8,
        id: u32,
        kind: MsgKind,
        fields: &[u128],
        children: Nodes,
    ) -> Result<Message, MsgRefusal>
        ensures value { IfOk result (λ m. m ≡ record {
          version = version;
          id = id;
          kind = kind;
          fields = fields.now;
          tail = [];
          children = forest children;
        }) }
        ensures lawful { IfOk result (λ m. IsLawfulMessage m) }
        ensures fault { IfErr result (λ e. first_message_fault version kind fields.now []
            (forest children) ≡ Some e.fault) }
        ensures handed_back { IfErr result (λ e. e.children ≡ children) }
    {
        Message::checked(version, id, kind, fields, None, children)
    }

    /// Makes a message of these parts, whose tail is the data after its fields, or returns the first
    /// test that they fail. In all of LLRP 1.1, CUSTOM_MESSAGE alone has data.
    pub fn with_tail(
        version: u8,
        id: u32,
        kind: MsgKind,
        fields: &[u128],
        tail: Octets,
        children: Nodes,
    ) -> Result<Message, MsgRefusal>
        ensures value { IfOk result (λ m. m ≡ record {
          version = version;
          id = id;
          kind = kind;
          fields = fields.now;
          tail = tail;
          children = forest children;
        }) }
        ensures lawful { IfOk result (λ m. IsLawfulMessage m) }
        ensures fault { IfErr result (λ e. first_message_fault version kind fields.now tail
            (forest children) ≡ Some e.fault) }
        ensures handed_back { IfErr result (λ e. e.children ≡ children) }
        ensures tail { IfErr result (λ e. e.tail ≡ Some tail) }
    {
        Message::checked(version, id, kind, fields, Some(tail), children)
    }

    /// Makes a message of these parts, or returns the first test that they fail.
    fn checked(
        version: u8,
        id: u32,
        kind: MsgKind,
        fields: &[u128],
        tail: Option<Octets>,
        children: Nodes,
    ) -> Result<Message, MsgRefusal>
        ensures value { IfOk result (λ m. m ≡ record {
          version = version;
          id = id;
          kind = kind;
          fields = fields.now;
          tail = unwrap_or tail [];
          children = forest children;
        }) }
        ensures lawful { IfOk result (λ m. IsLawfulMessage m) }
        ensures fault { IfErr result (λ e. first_message_fault version kind fields.now
            (unwrap_or tail []) (forest children) ≡ Some e.fault) }
        ensures handed_back { IfErr result (λ e. (e.children ≡ children) × (e.tail ≡ tail)) }
    {
        let extent = child_checks::extent_of(children.as_slice());
        let data = octets_of(&tail);
        let octets = HEADER_OCTETS as u128
            + own_parts::body_octets(Kind::Message(kind), data)
            + extent.octets;
        match child_checks::first_message_fault(
            version,
            kind,
            fields,
            data,
            children.as_slice(),
            octets,
        ) {
            Some(fault) => Err(MsgRefusal {
                fault,
                tail,
                children,
            }),
            None => Ok(Message {
                version,
                id,
                kind,
                fields: child_checks::kept(fields),
                tail,
                children,
                octets: octets as u32,
            }),
        }
    }
}
