//! Four small programs, of which the first word names one: `epc`, `stream` and `tree` repeat calls for the
//! scripts below bench/, and `texts` is the example of docs/library.md.
#![tactic(auto)]

mod epc;
mod numbers;
mod stream;
mod texts;
mod tree;

use anyhow::{Result, bail};
use std::env;

fn main(rt: HostRuntime) -> Result<()> {
    let words: Vec<String> = env::args(&rt)?.skip(1).collect(rt.alloc())?;
    let [name, given @ ..] = words.as_slice() else {
        bail!("no program is named");
    };
    match name.as_str() {
        "epc" => epc::turn_over(&rt),
        "stream" => stream::read_often(&rt, given),
        "tree" => tree::code_often(&rt, given),
        "texts" => texts::print_texts(&rt),
        _ => bail!("no such program"),
    }
}
