//! Makes one call of words, texts and keys of tags, and prints what it answered, as `test_calls` does of frames.
#![tactic(auto)]

mod forms;
mod keys;
mod prefixes;
mod schemes;

use anyhow::{Result, bail};
use test_devices::rows::words_given;

fn main(rt: HostRuntime) -> Result<()> {
    let words = words_given(&rt)?;
    let [call, row @ ..] = words.as_slice() else {
        bail!("no call is named");
    };
    let call = call.as_str();
    let is_made = schemes::make(&rt, call, row)?
        || keys::make(&rt, call, row)?
        || forms::make(&rt, call, row)?
        || prefixes::make(&rt, call, row)?;
    if !is_made {
        bail!("no such call");
    }
    Ok(())
}
