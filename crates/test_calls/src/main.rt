//! Makes one call of frames, listings or commands, and prints what it answered: for rows of tests that say what
//! has to come, and for a test that refuses the call's requests for memory one after another.
//!
//! Each line of standard input is a word. The first names the call, and the others are what it is given.
//! Only the call itself is made between the lines `@refuse` and `@ample` on standard output: making its input
//! and printing its answer take memory too. The other lines say what the call answered, and what it wrote.
//! Where it answered Memory, `after` says what state it left, and `again` what the same call then answers
//! with enough memory. Calls whose names end in `-cut` cut their input at each of its places, and fail where
//! that makes a difference.
#![tactic(auto)]

mod commands;
mod cuts;
mod epcs;
mod explained;
mod frames;
mod labels;
mod listings;

use anyhow::{Result, bail};
use test_devices::rows::words_given;

fn main(rt: HostRuntime) -> Result<()> {
    let words = words_given(&rt)?;
    let [call, row @ ..] = words.as_slice() else {
        bail!("no call is named");
    };
    let call = call.as_str();
    let is_made = frames::make(&rt, call, row)?
        || listings::make(&rt, call, row)?
        || cuts::make(&rt, call, row)?
        || epcs::make(&rt, call, row)?
        || labels::make(&rt, call, row)?
        || commands::make(&rt, call, row)?
        || explained::make(&rt, call, row)?;
    if !is_made {
        bail!("no such call");
    }
    Ok(())
}
