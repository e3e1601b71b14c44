//! The ROSpec under which a tag is operated on.

ghost use Rattle.std.specs.Prelude.{◌≡◌, IfOk};
ghost use Rattle.llrp_operations.specs.Calls.Inventory as inventory;

use crate::parameters::{SpecErr, leaf, parameter, words_octets};
use llrp_tree::{Node, ParamKind};
use std::alloc::Global;

/// The ROBoundarySpec of a ROSpec that starts and stops on commands.
fn boundary(alloc: Global) -> Result<Node, SpecErr>
    ensures { IfOk result (λ node. node ≡ inventory.boundary) }
{
    let start = leaf(alloc, ParamKind::WholeRoSpecStartTrigger, &[0])?;
    let stop = leaf(alloc, ParamKind::WholeRoSpecStopTrigger, &[0, 0])?;
    let triggers = Vec::from_array(alloc, [start, stop])?;
    parameter(
        ParamKind::WholeRoBoundarySpec,
        &[],
        Vec::new(alloc),
        triggers,
    )
}

/// The AISpec for an antenna, or for all.
fn antenna_spec(alloc: Global, antenna: u16) -> Result<Node, SpecErr>
    ensures { IfOk result (λ node. node ≡ inventory.antenna_spec antenna) }
{
    let stop = leaf(alloc, ParamKind::WholeAiSpecStopTrigger, &[0, 0])?;
    let protocol = leaf(alloc, ParamKind::WholeInventoryParameterSpec, &[1, 1])?;
    let parts = Vec::from_array(alloc, [stop, protocol])?;
    let antennas = words_octets(alloc, &[antenna])?;
    parameter(ParamKind::WholeAiSpec, &[], antennas, parts)
}

/// The ROReportSpec by which each tag is reported at once, with its antenna and the AccessSpec that was done
/// to it.
fn report_spec(alloc: Global) -> Result<Node, SpecErr>
    ensures { IfOk result (λ node. node ≡ inventory.report_spec) }
{
    let selected = [0, 0, 0, 1, 0, 1, 0, 0, 0, 1];
    let selector = leaf(alloc, ParamKind::WholeTagReportContentSelector, &selected)?;
    let selectors = Vec::from_array(alloc, [selector])?;
    parameter(
        ParamKind::WholeRoReportSpec,
        &[1, 1],
        Vec::new(alloc),
        selectors,
    )
}

/// The ROSpec with this id that inventories the C1G2 tags at an antenna, or with 0 at all, from START_ROSPEC
/// until it is stopped or deleted. It is disabled at first. The error is that memory ran out.
pub fn inventory_spec(alloc: Global, id: u32, antenna: u16) -> Result<Node, SpecErr>
    ensures { IfOk result (λ node. node ≡ inventory.inventory_spec id antenna) }
{
    let boundary = boundary(alloc)?;
    let antennas = antenna_spec(alloc, antenna)?;
    let report = report_spec(alloc)?;
    let parts = Vec::from_array(alloc, [boundary, antennas, report])?;
    parameter(
        ParamKind::WholeRoSpec,
        &[id as u128, 0, 0],
        Vec::new(alloc),
        parts,
    )
}
