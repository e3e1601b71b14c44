//! The plan of an inventory with all antennas, whose ROSpec starts and stops on commands.

ghost use Rattle.std.specs.Prelude.{◌≡◌, IfErr, IfOk, true, false, [], ◌∷◌};
ghost use Rattle.llrp_tree.specs.Tree.{forest};
ghost use Rattle.llrp_tree.specs.Lawful.{AreLawful};
ghost use Rattle.llrp_session.specs.ReaderMessages.{parameter as the_parameter};
ghost use Rattle.llrp_endpoints.specs.Plan as plan;
ghost use Rattle.llrp_endpoints.specs.Calls.Plans as plans;
ghost use Rattle.llrp_listing.specs.declared.outcome.ToolErr.TheVariants.{Memory};

use super::Plan;
use crate::form::LineForm;
use llrp_listing::ToolErr;
use llrp_schema::KindSet;
use llrp_tree::{Node, Nodes, Octets, ParamKind};
use std::alloc::{AllocError, Global};

/// A parameter of parts that are proved to be lawful.
fn parameter(kind: ParamKind, fields: &[u128], tail: Vec<u8>, children: Vec<Node>) -> Node
    requires { AreLawful kind fields.now tail.items (forest children.items) }
    ensures { result ≡ record {
      kind = kind;
      fields = fields.now;
      tail = tail.items;
      children = forest children.items;
    } }
{
    match Node::new(kind, fields, Octets::new(tail), Nodes::new(children)) {
        Ok(node) => node,
        Err(_) => unreachable!(),
    }
}

/// A parameter with these fields, no tail and no children.
pub(crate) fn leaf(alloc: Global, kind: ParamKind, fields: &[u128]) -> Node
    requires { AreLawful kind fields.now [] (forest []) }
    ensures { result ≡ the_parameter kind fields.now [] }
{
    parameter(kind, fields, Vec::new(alloc), Vec::new(alloc))
}

/// When the ROSpec starts and stops: only on commands.
pub(crate) fn boundary(alloc: Global) -> Result<Node, AllocError>
    ensures { IfOk result (λ node. node ≡ plan.boundary) }
{
    let start = leaf(alloc, ParamKind::RoSpecStartTrigger, &[0]);
    let stop = leaf(alloc, ParamKind::RoSpecStopTrigger, &[0, 0]);
    let triggers = Vec::from_array(alloc, [start, stop])?;
    Ok(parameter(ParamKind::RoBoundarySpec, &[], Vec::new(alloc), triggers))
}

/// What the antennas do: all of them take inventory until the ROSpec stops.
pub(crate) fn antenna_inventory(alloc: Global) -> Result<Node, AllocError>
    ensures { IfOk result (λ node. node ≡ plan.antenna_inventory) }
{
    let stop = leaf(alloc, ParamKind::AiSpecStopTrigger, &[0, 0]);
    let inventory = leaf(alloc, ParamKind::InventoryParameterSpec, &[1, 1]);
    let all_antennas = Vec::from_array(alloc, [0, 0])?;
    let parts = Vec::from_array(alloc, [stop, inventory])?;
    Ok(parameter(ParamKind::AiSpec, &[], all_antennas, parts))
}

/// What is reported of each tag, and when: the antenna and the greatest RSSI.
fn reporting(alloc: Global, every: u16) -> Result<Node, AllocError>
    ensures { IfOk result (λ node. node ≡ plan.reporting every) }
{
    let chosen = [0, 0, 0, 1, 0, 1, 0, 0, 0, 0];
    let selector = leaf(alloc, ParamKind::TagReportContentSelector, &chosen);
    let parts = Vec::from_array(alloc, [selector])?;
    let fields = [2, every as u128];
    Ok(parameter(ParamKind::RoReportSpec, &fields, Vec::new(alloc), parts))
}

/// The ROSpec of a plan.
fn rospec(alloc: Global, every: u16) -> Result<Node, AllocError>
    ensures { IfOk result (λ node. node ≡ plan.rospec every) }
{
    let boundary = boundary(alloc)?;
    let antennas = antenna_inventory(alloc)?;
    let reporting = reporting(alloc, every)?;
    let parts = Vec::from_array(alloc, [boundary, antennas, reporting])?;
    Ok(parameter(ParamKind::RoSpec, &[1, 0, 0], Vec::new(alloc), parts))
}

/// A plan, with the check or without it.
fn plan_of(alloc: Global, every: u16, polls: u16, checked: bool) -> Result<Plan, ToolErr>
    ensures plan { IfOk result (λ p. p ≡ plans.standard every polls checked) }
    ensures memory { IfErr result (λ e. e ≡ Memory) }
{
    let rospec = rospec(alloc, every)?;
    Ok(Plan {
        rospec,
        whole: None,
        asides: None,
        cleans: false,
        renews: false,
        passes: false,
        adds: true,
        starts: true,
        keepalive: 0,
        reports: 0,
        polls,
        checked,
        disables: false,
        form: LineForm::Words,
        set: KindSet::Profile,
    })
}

/// The plan of an inventory with all antennas. The reader reports after `every` tags (0 for no
/// number) and at the end, and is asked `polls` times for the reports that it holds. The only error
/// is `Memory`.
pub fn standard_plan(alloc: Global, every: u16, polls: u16) -> Result<Plan, ToolErr>
    ensures plan { IfOk result (λ p. p ≡ plans.standard every polls false) }
    ensures memory { IfErr result (λ e. e ≡ Memory) }
{
    plan_of(alloc, every, polls, false)
}

/// The same plan with a check: after the ROSpec is stopped, the reader is asked for its ROSpecs,
/// which have to be those of the client's view, in the same states. The only error is `Memory`.
pub fn checked_plan(alloc: Global, every: u16, polls: u16) -> Result<Plan, ToolErr>
    ensures plan { IfOk result (λ p. p ≡ plans.standard every polls true) }
    ensures memory { IfErr result (λ e. e ≡ Memory) }
{
    plan_of(alloc, every, polls, true)
}
