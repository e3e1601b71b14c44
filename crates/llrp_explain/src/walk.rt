//! The lines of a message.

ghost use Rattle.std.specs.Prelude.{◌≡◌, ◌+◌, ◌≤◌, OnOk, map};
ghost use Rattle.llrp_schema.specs.Calls.Schema.{field_rule};
ghost use Rattle.llrp_tree.specs.declared.TheConstants.{MAX_DEPTH};
ghost use Rattle.llrp_tree.specs.Tree.{forest};
ghost use Rattle.llrp_tree.specs.Lawful.{first, levels, message_octets, others};
ghost use Rattle.llrp_tree.specs.Spelling.{head_of, message, spread, tlv, tv};
ghost use Rattle.llrp_explain.specs.Calls.ExplainLines.{field_lines, forest_lines, head_lines, message_lines, tail_lines};
ghost use Rattle.llrp_explain.specs.Calls.Printed.{Adds};
ghost use Rattle.llrp_explain.specs.Private.Trees.{tree_lines};

use crate::lines::Lines;
use llrp_schema::{Field, Kind, MsgKind, ParamKind, Tail, fields, is_tv, tail};
use llrp_tree::{Message, Node};
use std::alloc::AllocError;

/// Appends the lines of a message's header.
pub(crate) fn push_header(
    lines: &mut Lines,
    version: u8,
    kind: MsgKind,
    octets: u32,
    id: u32,
) -> Result<(), AllocError>
    ensures { OnOk result (Adds (head_lines 0 (message version kind octets id))
        lines.old lines.new) }
{
    lines.number(0, b"reserved", 3, 0)?;
    lines.number(0, b"Version", 3, version as u128)?;
    lines.kind_number(0, b"MessageType", 10, Kind::Message(kind))?;
    lines.number(0, b"MessageLength", 32, octets as u128)?;
    lines.number(0, b"MessageID", 32, id as u128)
}

/// Appends the lines of the head of a parameter with type and value.
pub(crate) fn push_short_head(
    lines: &mut Lines,
    level: u8,
    kind: ParamKind,
) -> Result<(), AllocError>
    ensures { OnOk result (Adds (head_lines level (tv kind)) lines.old lines.new) }
{
    lines.number(level, b"type and value", 1, 1)?;
    lines.kind_number(level, b"ParameterType", 7, Kind::Parameter(kind))
}

/// Appends the lines of the head of a parameter with type, length and value.
pub(crate) fn push_long_head(
    lines: &mut Lines,
    level: u8,
    kind: ParamKind,
    octets: u32,
) -> Result<(), AllocError>
    ensures { OnOk result (Adds (head_lines level (tlv kind octets)) lines.old lines.new) }
{
    lines.number(level, b"reserved", 6, 0)?;
    lines.kind_number(level, b"ParameterType", 10, Kind::Parameter(kind))?;
    lines.number(level, b"ParameterLength", 16, octets as u128)
}

/// Appends the lines of the head of a parameter of this many octets.
pub(crate) fn push_head(
    lines: &mut Lines,
    level: u8,
    kind: ParamKind,
    octets: u32,
) -> Result<(), AllocError>
    ensures { OnOk result (Adds (head_lines level (head_of kind octets)) lines.old lines.new) }
{
    if is_tv(kind) {
        return push_short_head(lines, level, kind);
    }
    push_long_head(lines, level, kind, octets)
}

/// The first of some values, 0 where there is none, and those after it.
fn next_value(values: &[u128]) -> (u128, &[u128])
    ensures first { result.0 ≡ first values.now }
    ensures others { result.1.now ≡ others values.now }
{
    match values {
        [] => (0, values),
        [value, others @ ..] => (*value, others),
    }
}

/// Appends the lines of fields, reserved ones among them.
pub(crate) fn push_fields(
    lines: &mut Lines,
    level: u8,
    rules: &[Field],
    values: &[u128],
) -> Result<(), AllocError>
    ensures { OnOk result (Adds (field_lines level (map field_rule rules.now)
        (spread (map field_rule rules.now) values.now)) lines.old lines.new) }
{
    let [rule, rest @ ..] = rules else {
        return Ok(());
    };
    if rule.reserved {
        lines.number(level, rule.name.as_bytes(), rule.width, 0)?;
        return push_fields(lines, level, rest, values);
    }
    let (value, others) = next_value(values);
    lines.number(level, rule.name.as_bytes(), rule.width, value)?;
    push_fields(lines, level, rest, others)
}

/// Appends the lines of a tail, after its count if it has one.
pub(crate) fn push_tail(
    lines: &mut Lines,
    level: u8,
    form: Tail,
    tail: &[u8],
) -> Result<(), AllocError>
    ensures { OnOk result (Adds (tail_lines level form tail.now) lines.old lines.new) }
{
    match form {
        Tail::Absent | Tail::Data => lines.octets(level, b"octets", tail),
        Tail::Words => {
            lines.number(level, b"count", 16, (tail.len() / 2) as u128)?;
            lines.octets(level, b"words", tail)
        }
        Tail::Text => {
            lines.number(level, b"count", 16, tail.len() as u128)?;
            lines.octets(level, b"text", tail)
        }
        Tail::Bits => lines.octets(level, b"bits", tail),
    }
}

/// Appends the lines of a parameter.
#[cycle(walk)]
fn push_node(lines: &mut Lines, level: u8, node: &Node) -> Result<(), AllocError>
    requires deep { level + levels node.now.children ≤ MAX_DEPTH }
    ensures { OnOk result (Adds (tree_lines level node.now) lines.old lines.new) }
{
    let kind = Kind::Parameter(node.kind());
    push_head(lines, level, node.kind(), node.length())?;
    push_fields(lines, level, fields(kind), node.fields())?;
    push_tail(lines, level, tail(kind), node.tail().as_slice())?;
    push_nodes(lines, level + 1, node.children().as_slice())
}

/// Appends the lines of parameters in a row.
#[cycle(walk)]
fn push_nodes(lines: &mut Lines, level: u8, nodes: &[Node]) -> Result<(), AllocError>
    requires deep { level + levels (forest nodes.now) ≤ MAX_DEPTH + 1 }
    ensures { OnOk result (Adds (forest_lines level (forest nodes.now)) lines.old lines.new) }
{
    for node in nodes {
        push_node(lines, level, node)?;
    }
    Ok(())
}

/// Appends the lines of a message.
pub fn push_message(lines: &mut Lines, message: &Message) -> Result<(), AllocError>
    ensures { OnOk result (Adds (message_lines message.now) lines.old lines.new) }
{
    message.lawful();
    let kind = Kind::Message(message.kind());
    push_header(
        lines,
        message.version(),
        message.kind(),
        message.length(),
        message.id(),
    )?;
    push_fields(lines, 0, fields(kind), message.fields())?;
    push_tail(lines, 0, tail(kind), message.tail())?;
    push_nodes(lines, 1, message.children().as_slice())
}
