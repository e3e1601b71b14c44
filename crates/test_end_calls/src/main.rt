//! Makes one call of an end of a connection, of a script or of a plan, and prints what it answered, as `test_calls` does of frames.
#![tactic(auto)]

mod client;
mod ends;
mod failing;
mod pieces;
mod reader;
mod talks;
mod texts;

use anyhow::{Result, bail};
use test_devices::rows::words_given;

fn main(rt: HostRuntime) -> Result<()> {
    let words = words_given(&rt)?;
    let [call, row @ ..] = words.as_slice() else {
        bail!("no call is named");
    };
    let call = call.as_str();
    let is_made = texts::make(&rt, call, row)?
        || ends::make(&rt, call, row)?
        || pieces::make(&rt, call, row)?
        || talks::make(&rt, call, row)?
        || failing::make(&rt, call, row)?
        || reader::make(&rt, call, row)?
        || client::make(&rt, call, row)?;
    if !is_made {
        bail!("no such call");
    }
    Ok(())
}
