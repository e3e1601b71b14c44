//! Parameters, and why they cannot be made.

ghost use Rattle.std.specs.Prelude.{◌≡◌, IfOk};
ghost use Rattle.llrp_tree.specs.Tree.{forest};
ghost use Rattle.llrp_operations.specs.Calls.Operations.{leaf, words_octets};
ghost use Rattle.llrp_operations.specs.declared.parameters.SpecErr.TheVariants.{Memory};

use llrp_tree::{Node, NodeFault, Nodes, Octets, ParamKind};
use std::alloc::{AllocError, AllocFailed, Global};

/// Why there is no AccessSpec.
#[derive(Clone, Copy, Debug, PartialEq, Eq)]
pub enum SpecErr {
    /// The EPC has more than 62 octets, or is not of whole words.
    Epc,
    /// There are more than 65,535 operations.
    Operations,
    /// One of its parameters would not be lawful.
    Node(NodeFault),
    /// Memory ran out.
    Memory,
}

impl From<AllocError> for SpecErr {
    ghost from_gives = { λ _ e. e ≡ Memory };

    fn from(_e: AllocError) -> SpecErr {
        SpecErr::Memory
    }
}

impl<T: Drop> From<AllocFailed<T>> for SpecErr {
    ghost from_gives = { λ _ e. e ≡ Memory };

    fn from(_e: AllocFailed<T>) -> SpecErr {
        SpecErr::Memory
    }
}

/// A parameter of these parts.
pub(crate) fn parameter(
    kind: ParamKind,
    fields: &[u128],
    tail: Vec<u8>,
    children: Vec<Node>,
) -> Result<Node, SpecErr>
    ensures { IfOk result (λ node. node ≡ record {
      kind = kind;
      fields = fields.now;
      tail = tail.items;
      children = forest children.items;
    }) }
{
    match Node::new(kind, fields, Octets::new(tail), Nodes::new(children)) {
        Ok(node) => Ok(node),
        Err(refusal) => Err(SpecErr::Node(refusal.fault)),
    }
}

/// A parameter with fields alone.
pub(crate) fn leaf(alloc: Global, kind: ParamKind, fields: &[u128]) -> Result<Node, SpecErr>
    ensures { IfOk result (λ node. node ≡ leaf kind fields.now) }
{
    parameter(kind, fields, Vec::new(alloc), Vec::new(alloc))
}

/// The octets of words.
pub(crate) fn words_octets(alloc: Global, words: &[u16]) -> Result<Vec<u8>, SpecErr>
    ensures { IfOk result (λ octets. octets.items ≡ words_octets words.now) }
{
    let mut octets = Vec::new(alloc);
    for word in words {
        octets.push((*word / 256) as u8)?;
        octets.push((*word % 256) as u8)?;
    }
    Ok(octets)
}
