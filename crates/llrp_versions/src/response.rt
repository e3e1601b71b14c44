//! Responses to the requests about versions.

ghost use Rattle.std.specs.Prelude.{◌≡◌, IfOk, [], ◌∷◌};
ghost use Rattle.llrp_schema.specs.declared.kinds.ParamKind.TheVariants as parameters;
ghost use Rattle.llrp_tree.specs.Tree.{forest};
ghost use Rattle.llrp_tree.specs.Lawful.{AreLawful, IsLawfulMessage};
ghost use Rattle.llrp_versions.specs.Calls.Versions as versions;

use llrp_tree::{Message, MsgKind, Node, Nodes, Octets, ParamKind};
use std::alloc::{AllocError, Global};

/// LLRPStatus without a text.
fn status(alloc: Global, code: u16) -> Node
    requires { AreLawful parameters.WholeLlrpStatus (code ∷ []) [] (forest []) }
    ensures { result ≡ versions.status code }
{
    let tail = Octets::new(Vec::new(alloc));
    let children = Nodes::new(Vec::new(alloc));
    match Node::new(ParamKind::WholeLlrpStatus, &[code as u128], tail, children) {
        Ok(node) => node,
        Err(_) => unreachable!(),
    }
}

/// The response of this kind to a request, under its id and with its version.
pub(crate) fn response(
    alloc: Global,
    request: &Message,
    kind: MsgKind,
    fields: &[u128],
    code: u16,
) -> Result<Message, AllocError>
    requires status { AreLawful parameters.WholeLlrpStatus (code ∷ []) [] (forest []) }
    requires message { IsLawfulMessage (versions.response request.now kind fields.now code) }
    ensures { IfOk result (λ m. m ≡ versions.response request.now kind fields.now code) }
{
    let mut parts = Vec::with_capacity(alloc, 1)?;
    parts.push(status(alloc, code))?;
    let (version, id) = (request.version(), request.id());
    match Message::new(version, id, kind, fields, Nodes::new(parts)) {
        Ok(message) => Ok(message),
        Err(_) => unreachable!(),
    }
}
