//! The open nodes of a message.

ghost use Rattle.std.specs.Prelude.{◌≡◌, ◌+◌, ◌-◌, ◌^◌, ◌<◌, ◌≤◌, ◌++◌, [], ◌∷◌, List, OnOk, OnErr, length, min, true};
ghost use Rattle.llrp_schema.specs.declared.kinds.ParamKind.{ParamKind};
ghost use Rattle.llrp_schema.specs.declared.kinds.MsgKind.{MsgKind};
ghost use Rattle.llrp_schema.specs.declared.kinds.Kind.TheVariants as of_kind;
ghost use Rattle.llrp_tree.specs.declared.TheConstants.{MAX_DEPTH};
ghost use Rattle.llrp_schema.specs.Schema.{bits_of, fields_of, is_tv};
ghost use Rattle.llrp_tree.specs.Tree.{none, add};
ghost use Rattle.llrp_tree.specs.Lawful.{AreLawful, IsLawfulMessage};
ghost use Rattle.llrp_stream.specs.Building.{OpenParts, nodes_weight};
ghost use Rattle.llrp_stream.specs.Private.OpenNodes.{fresh, with_value, with_tail, with_parameter, with_child, message_of, HasRoom, IsWholeParameter, IsWholeMessage};

use arrayvec::ArrayVec;
use llrp_schema::{Kind, MsgKind, ParamKind};
use llrp_tree::{LEVELS, Message, Node, Nodes, Octets};
use std::alloc::{AllocError, Global};
use std::default::MadeWith;
use std::marker::Model;

/// The parameter with this type and value.
fn parameter_of(alloc: Global, kind: ParamKind, value: u128) -> Node
    requires short { is_tv kind ≡ true }
    requires fits { value < 2 ^ bits_of (fields_of (of_kind.Parameter kind)) }
    ensures { result ≡ record { kind = kind; fields = value ∷ []; tail = []; children = none } }
{
    let tail = Octets::new(Vec::new(alloc));
    let children = Nodes::new(Vec::new(alloc));
    Node::of_lawful(kind, &[value], tail, children)
}

/// An open node with the parts that were read so far; reserved fields are not kept.
#[derive(Drop)]
pub(crate) struct OpenNode {
    kind: Kind,
    fields: ArrayVec<u128, 12>,
    tail: Vec<u8>,
    children: Vec<Node>,
}

impl Model for OpenNode {
    ghost use Rattle.std.specs.Coded.{codes};
    ghost use Rattle.llrp_tree.specs.Tree.{forest};
    ghost use Rattle.llrp_tree.specs.Private.Stored.{forest_code};
    ghost use Rattle.llrp_stream.specs.Building.{OpenParts};

    ghost Value = { OpenParts };

    ghost coded = { Prim.hlevel (codes, forest_code) };

    ghost view = { λ n. record {
      kind = n.kind;
      fields = n.fields.items;
      tail = n.tail.items;
      children = forest n.children.items;
    } };
}

impl MadeWith<Global> for OpenNode {
    fn made_with(alloc: Global) -> OpenNode {
        OpenNode::new(alloc, Kind::Message(MsgKind::Keepalive))
    }
}

impl OpenNode {
    /// A node of which only the head was read.
    fn new(alloc: Global, kind: Kind) -> OpenNode
        ensures { result ≡ fresh kind }
    {
        OpenNode {
            kind,
            fields: ArrayVec::new(),
            tail: Vec::new(alloc),
            children: Vec::new(alloc),
        }
    }

    /// Adds the value of a field that is not reserved.
    fn push_value(&mut self, value: u128)
        requires { length self.old.fields < 12 }
        ensures { self.new ≡ record self.old { fields = self.old.fields ++ value ∷ [] } }
    {
        self.fields.push(value);
    }

    /// Adds octets to the tail.
    fn push_octets(&mut self, octets: &[u8]) -> Result<(), AllocError>
        ensures ok { OnOk result
            (self.new ≡ record self.old { tail = self.old.tail ++ octets.now }) }
        ensures err { OnErr result (self.new ≡ self.old) }
    {
        self.tail.extend_from_slice(octets)
    }

    /// Adds a child.
    fn push_child(&mut self, child: Node) -> Result<(), AllocError>
        ensures ok { OnOk result
            (self.new ≡ record self.old { children = add self.old.children child }) }
        ensures err { OnErr result (self.new ≡ self.old) }
    {
        self.children.push(child)?;
        Ok(())
    }

    /// Makes a parameter of the parts.
    fn into_parameter(self) -> Node
        requires { (kind : ParamKind) × (self.kind ≡ of_kind.Parameter kind)
            × AreLawful kind self.fields self.tail self.children }
        ensures { (kind : ParamKind) → self.kind ≡ of_kind.Parameter kind
            → result ≡ record {
              kind = kind;
              fields = self.fields;
              tail = self.tail;
              children = self.children;
            } }
    {
        let Kind::Parameter(kind) = self.kind else {
            unreachable!()
        };
        let tail = Octets::new(self.tail);
        let children = Nodes::new(self.children);
        Node::of_lawful(kind, self.fields.as_slice(), tail, children)
    }

    /// Makes a message of the parts, with a version and an id.
    fn into_message(self, version: u8, id: u32) -> Message
        requires { (kind : MsgKind) × (self.kind ≡ of_kind.Message kind)
            × IsLawfulMessage (message_of version id kind self) }
        ensures { (kind : MsgKind) → self.kind ≡ of_kind.Message kind
            → result ≡ message_of version id kind self }
    {
        let Kind::Message(kind) = self.kind else {
            unreachable!()
        };
        let tail = Octets::new(self.tail);
        let children = Nodes::new(self.children);
        Message::of_lawful(version, id, kind, self.fields.as_slice(), tail, children)
    }
}

/// The chain of open nodes, from the message to the innermost one, and what they weigh.
#[derive(Drop)]
pub(crate) struct OpenNodes {
    top: Option<OpenNode>,
    /// The nodes around the innermost one, the message first.
    outer: ArrayVec<OpenNode, LEVELS, Global>,
    /// What they weigh, up to `u32::MAX`.
    weight: u32,
}

impl Model for OpenNodes {
    ghost use Rattle.std.specs.Prelude.{◌≡◌, ◌-◌, ◌^◌, List, min};
    ghost use Rattle.std.specs.Coded.{codes};
    ghost use Rattle.llrp_tree.specs.Private.Stored.{forest_code};
    ghost use Rattle.llrp_stream.specs.Building.{OpenParts, nodes_weight};
    ghost use Rattle.llrp_stream.specs.Private.OpenNodes.{AreNested, nested};

    ghost Value = { List OpenParts };

    ghost coded = { Prim.hlevel (codes, forest_code) };

    ghost view = { λ n. nested n.top n.outer.items };

    ghost invariant = { λ n. AreNested n.top n.outer.items
        × (n.weight ≡ min (nodes_weight (nested n.top n.outer.items)) (2 ^ 32 - 1)) };
}

impl OpenNodes {
    /// No open node; it takes no memory.
    pub(crate) fn new(alloc: Global) -> OpenNodes
        ensures { result ≡ [] }
    {
        OpenNodes {
            top: None,
            outer: ArrayVec::new_in(alloc),
            weight: 0,
        }
    }

    /// What they weigh: two for each node, the octets of their tails, and the weight of their
    /// children.
    pub(crate) fn weight(&self) -> u32
        ensures { result ≡ min (nodes_weight self.now) (2 ^ 32 - 1) }
    {
        self.weight
    }

    /// Begins a node inside the innermost one.
    pub(crate) fn begin(&mut self, alloc: Global, kind: Kind)
        requires { length self.old ≤ MAX_DEPTH }
        ensures { self.new ≡ fresh kind ∷ self.old }
    {
        if let Some(parent) = self.top.replace(OpenNode::new(alloc, kind)) {
            self.outer.push(parent);
        }
        self.weight = self.weight.saturating_add(2);
    }

    /// Adds the value of a field that is not reserved to the innermost node.
    pub(crate) fn push_value(&mut self, value: u128)
        requires { HasRoom self.old }
        ensures { self.new ≡ with_value value self.old }
    {
        if let Some(node) = &mut self.top {
            node.push_value(value);
        }
    }

    /// Adds octets to the tail of the innermost node.
    pub(crate) fn push_octets(&mut self, octets: &[u8]) -> Result<(), AllocError>
        ensures ok { OnOk result (self.new ≡ with_tail octets.now self.old) }
        ensures err { OnErr result (self.new ≡ self.old) }
    {
        if let Some(node) = &mut self.top {
            node.push_octets(octets)?;
            let count = octets.len().min(u32::MAX as usize) as u32;
            self.weight = self.weight.saturating_add(count);
        }
        Ok(())
    }

    /// Adds a parameter of type and value to the innermost node.
    pub(crate) fn push_parameter(
        &mut self,
        alloc: Global,
        kind: ParamKind,
        value: u128,
    ) -> Result<(), AllocError>
        requires short { is_tv kind ≡ true }
        requires fits { value < 2 ^ bits_of (fields_of (of_kind.Parameter kind)) }
        ensures ok { OnOk result (self.new ≡ with_parameter kind value self.old) }
        ensures err { OnErr result (self.new ≡ self.old) }
    {
        if let Some(node) = &mut self.top {
            node.push_child(parameter_of(alloc, kind, value))?;
            self.weight = self.weight.saturating_add(2);
        }
        Ok(())
    }

    /// Ends the innermost node, which becomes the last child of the one around it. If memory runs out,
    /// no node is left.
    pub(crate) fn close(&mut self) -> Result<(), AllocError>
        requires { IsWholeParameter self.old }
        ensures ok { (node parent : OpenParts) (outer : List OpenParts) (kind : ParamKind)
            → self.old ≡ node ∷ parent ∷ outer → node.kind ≡ of_kind.Parameter kind
            → OnOk result (self.new ≡ with_child parent kind node ∷ outer) }
        ensures err { OnErr result (self.new ≡ []) }
    {
        let Some(node) = self.top.take() else {
            unreachable!()
        };
        let Some(mut parent) = self.outer.pop() else {
            unreachable!()
        };
        match parent.push_child(node.into_parameter()) {
            Ok(()) => {
                self.top = Some(parent);
                Ok(())
            }
            Err(error) => {
                self.outer.clear();
                self.weight = 0;
                Err(error)
            }
        }
    }

    /// Makes a message of the only node, and leaves no node.
    pub(crate) fn finish(&mut self, version: u8, id: u32) -> Message
        requires { IsWholeMessage version id self.old }
        ensures value { (node : OpenParts) (kind : MsgKind) → self.old ≡ node ∷ []
            → node.kind ≡ of_kind.Message kind → result ≡ message_of version id kind node }
        ensures after { self.new ≡ [] }
    {
        let Some(node) = self.top.take() else {
            unreachable!()
        };
        self.weight = 0;
        node.into_message(version, id)
    }

    /// Forgets all nodes.
    pub(crate) fn clear(&mut self)
        ensures { self.new ≡ [] }
    {
        self.top = None;
        self.outer.clear();
        self.weight = 0;
    }
}
