//! Following a plan over sources and sinks that fail in mid-stream.

ghost use Rattle.std.specs.Prelude.{◌≤◌};
ghost use Rattle.llrp_tree.specs.declared.TheConstants.{MAX_LIMIT};

use crate::run::{DOWN, LINES, UP};
use llrp_tool::{Input, Output, Plan, Summary, ToolErr, run_inventory, standard_plan};
use std::alloc::Global;
use std::test::*;
use test_devices::{Dripping, Taking, octets, spell};

/// How a client ended that followed a plan, and what it wrote.
#[derive(Drop)]
pub(super) struct Inventory {
    pub end: Result<Summary, ToolErr>,
    pub up: Vec<u8>,
    pub lines: Vec<u8>,
}

impl Inventory {
    /// Whether it ended so, hexadecimal texts spell what was sent, and these lines were printed.
    pub(super) fn is(
        &self,
        alloc: Global,
        end: Result<Summary, ToolErr>,
        up: &[&str],
        lines: &[u8],
    ) -> Result<bool, ToolErr> {
        let told = self.end == end && self.lines.as_slice() == lines;
        Ok(told && spell(alloc, up, self.up.as_slice())?)
    }
}

/// A client follows a plan, and its reader sends the bytes of hexadecimal texts.
pub(super) fn inventory_of(
    alloc: Global,
    plan: Plan,
    limit: u32,
    down: &[&str],
) -> Result<Inventory, ToolErr>
    requires least { 4096 ≤ limit }
    requires most { limit ≤ MAX_LIMIT }
{
    let down = octets(alloc, down)?;
    let mut up = Output::new(Vec::new(alloc));
    let mut lines = Output::new(Vec::new(alloc));
    let mut source = Input::new(down.as_slice());
    let end = run_inventory(alloc, plan, limit, &mut source, &mut up, &mut lines);
    Ok(Inventory {
        end,
        up: up.into_inner(),
        lines: lines.into_inner(),
    })
}

/// How the run of [`DOWN`] ends over devices of one byte a call that fail in the call after this many, how much was
/// written to each sink, and whether each has a front of what a whole run writes.
fn failed_run(
    alloc: Global,
    reads: usize,
    writes: usize,
    reports: usize,
) -> Result<(Result<Summary, ToolErr>, usize, usize, bool), ToolErr> {
    let down = octets(alloc, &DOWN)?;
    let wanted = octets(alloc, &UP)?;
    let plan = standard_plan(alloc, 0, 1)?;
    let mut source = Dripping::after(down.as_slice(), reads);
    let mut up = Taking::after(alloc, writes);
    let mut lines = Taking::after(alloc, reports);
    let end = run_inventory(alloc, plan, 4096, &mut source, &mut up, &mut lines);
    let fronts = wanted.starts_with(up.taken()) && LINES.starts_with(lines.taken());
    Ok((end, up.taken().len(), lines.taken().len(), fronts))
}

#[test]
fn a_read_that_fails_leaves_fronts(rt: HostRuntime) -> Result<(), Fail> {
    let alloc = rt.alloc();
    let count = octets(alloc, &DOWN)?.len();
    for left in 0..count {
        let (end, _, _, fronts) = failed_run(alloc, left, usize::MAX, usize::MAX)?;
        assert!(rt; end == Err(ToolErr::Read));
        assert!(rt; fronts);
    }
    Ok(())
}

#[test]
fn a_write_that_fails_leaves_fronts(rt: HostRuntime) -> Result<(), Fail> {
    let alloc = rt.alloc();
    let count = octets(alloc, &UP)?.len();
    for left in 0..count {
        let (end, sent, _, fronts) = failed_run(alloc, usize::MAX, left, usize::MAX)?;
        assert!(rt; end == Err(ToolErr::Write));
        assert!(rt; sent == left && fronts);
    }
    Ok(())
}

#[test]
fn a_report_that_fails_leaves_fronts(rt: HostRuntime) -> Result<(), Fail> {
    let alloc = rt.alloc();
    for left in 0..LINES.len() {
        let (end, _, told, fronts) = failed_run(alloc, usize::MAX, usize::MAX, left)?;
        assert!(rt; end == Err(ToolErr::Write));
        assert!(rt; told == left && fronts);
    }
    Ok(())
}
