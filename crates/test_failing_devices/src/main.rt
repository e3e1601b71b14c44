//! Runs the commands over sources and sinks that give or take an octet a call and fail in one call, for each
//! call in turn, and the two ends in pieces of some sizes; prints how many cases of each row passed and
//! failed.
#![tactic(auto)]

mod beside;
mod connections;
mod pieces;
mod streams;
mod tally;

use anyhow::{Result, bail};
use connections::Ways;
use tally::Tally;

/// Prints a row, and returns how many of its cases failed.
fn print(rt: &HostRuntime, name: &str, tally: Tally) -> Result<u32> {
    println!(rt; "{name}: {} passed, {} failed", tally.passed, tally.failed)?;
    Ok(tally.failed)
}

fn main(rt: HostRuntime) -> Result<()> {
    let alloc = rt.alloc();
    let (Ok(ways), Ok(own)) = (Ways::standard(alloc), Ways::own(alloc)) else {
        bail!("the octets are not hexadecimal");
    };
    let Ok(general) = Ways::general(alloc) else {
        bail!("the octets are not hexadecimal");
    };
    let failed = [
        print(
            &rt,
            "show, a sink that fails",
            streams::show_to_sinks(alloc),
        )?,
        print(
            &rt,
            "show, a source that fails",
            streams::show_of_sources(alloc),
        )?,
        print(&rt, "show, many reads", streams::show_of_many_reads(alloc))?,
        print(&rt, "encode", streams::encode(alloc))?,
        print(&rt, "epc", streams::epc(alloc))?,
        print(&rt, "serve", ways.serve(alloc))?,
        print(&rt, "serve, a general client", general.serve_all(alloc))?,
        print(&rt, "inventory", ways.inventory(alloc))?,
        print(&rt, "loop", ways.both(alloc))?,
        print(&rt, "serve, all options of a plan", own.serve(alloc))?,
        print(&rt, "inventory, all options", own.inventory(alloc))?,
        print(&rt, "loop, all options", own.both(alloc))?,
        print(&rt, "both ends, in pieces", pieces::in_pieces(alloc))?,
        print(&rt, "both ends, what is seen", beside::seen(alloc))?,
    ];
    if failed.iter().any(|count| *count > 0) {
        bail!("some cases failed");
    }
    Ok(())
}
