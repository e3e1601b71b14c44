//! The objects of parameters that are there as trees.

ghost use Rattle.std.specs.Prelude.{◌≡◌, ◌++◌, ◌∷◌, ℕ, List, IfOk, OnOk, map};
ghost use Rattle.std.specs.List.{AllByRecursion};
ghost use Rattle.llrp_schema.specs.Calls.Schema.{field_rule};
ghost use Rattle.llrp_tree.specs.Lawful.{AreInRange};
ghost use Rattle.llrp_tree.specs.Tree.{forest};
ghost use Rattle.llrp_json.specs.JsonItems.{AreFields, AreParameters, more_members, parameters_members, tail_members};
ghost use Rattle.llrp_json.specs.Calls.OpenJson.{is_parent, listed};
ghost use Rattle.llrp_json.specs.Private.Nodes.{AreOwnMembers, IsObject, IsPrintable, kind_member, plain};

use crate::printer::{
    push_end, push_octets, push_parameter, push_separator, push_tail, push_tail_end,
};
use crate::values::push_field;
use llrp_listing::Text;
use llrp_schema::{Field, Kind, Tail, fields, tail};
use llrp_tree::Node;
use std::alloc::AllocError;

/// Appends the members of fields that are not reserved.
fn push_fields(text: &mut Text, rules: &[Field], values: &[u128]) -> Result<(), AllocError>
    requires printable { AllByRecursion IsPrintable (map field_rule rules.now) }
    requires ranges { AreInRange (plain (map field_rule rules.now)) values.now }
    ensures { OnOk result ((members : List (List ℕ))
        × AreFields (plain (map field_rule rules.now)) values.now members
        × (text.new ≡ text.old ++ more_members members)) }
{
    let [rule, rest @ ..] = rules else {
        return Ok(());
    };
    if rule.reserved {
        return push_fields(text, rest, values);
    }
    let [value, others @ ..] = values else {
        return Ok(());
    };
    push_field(text, rule, *value)?;
    push_fields(text, rest, others)
}

/// Appends the member of a tail, if its form has one.
fn push_whole_tail(text: &mut Text, form: Tail, octets: &[u8]) -> Result<(), AllocError>
    ensures { OnOk result (text.new ≡ text.old ++ more_members (tail_members form octets.now)) }
{
    push_tail(text, form)?;
    push_octets(text, form, false, octets)?;
    push_tail_end(text, form)
}

/// Appends the object of a parameter up to its parameters.
fn push_own_members(text: &mut Text, node: &Node) -> Result<(), AllocError>
    ensures { OnOk result ((own : List (List ℕ)) × AreOwnMembers node.now own
        × (text.new ≡ text.old ++ ((123 ∷ kind_member node.now) ++ more_members own))) }
{
    node.lawful();
    let kind = Kind::Parameter(node.kind());
    push_parameter(text, node.kind())?;
    push_fields(text, fields(kind), node.fields())?;
    push_whole_tail(text, tail(kind), node.tail().as_slice())
}

/// Appends the object of a parameter.
#[cycle(nodes)]
fn push_node(text: &mut Text, node: &Node) -> Result<(), AllocError>
    ensures { OnOk result ((object : List ℕ) × IsObject node.now object
        × (text.new ≡ text.old ++ object)) }
{
    push_own_members(text, node)?;
    let is_parent = push_nodes(text, node.children().as_slice())?;
    push_end(text, is_parent)
}

/// Appends the member of parameters in a row up to its end. Returns whether there are any.
#[cycle(nodes)]
fn push_nodes(text: &mut Text, nodes: &[Node]) -> Result<bool, AllocError>
    ensures texts { OnOk result ((texts : List (List ℕ)) × AreParameters (forest nodes.now) texts
        × (text.new ≡ text.old ++ listed texts)) }
    ensures parent { IfOk result (λ parent. parent ≡ is_parent (forest nodes.now)) }
{
    let mut is_parent = false;
    for node in nodes {
        push_separator(text, is_parent)?;
        push_node(text, node)?;
        is_parent = true;
    }
    Ok(is_parent)
}

/// Appends the member `parameters` of an object that has other members before it: a comma, its name,
/// and an array of the objects of these parameters, as lines of JSON have them. Nothing is appended
/// where there are no parameters. The error means that memory ran out; part of the member may then
/// stand in the text.
pub fn push_parameters(text: &mut Text, nodes: &[Node]) -> Result<(), AllocError>
    ensures { OnOk result ((texts : List (List ℕ)) × AreParameters (forest nodes.now) texts
        × (text.new ≡ text.old ++ more_members (parameters_members texts))) }
{
    if push_nodes(text, nodes)? {
        text.push_text(b"]")
    } else {
        Ok(())
    }
}
