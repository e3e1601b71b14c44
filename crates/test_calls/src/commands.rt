//! The commands, and what words ask for.

use anyhow::{Result, bail};
use llrp_commands::{files_asked, network_command, reads_input, run_command, texts_asked};
use llrp_stream::Input;
use test_devices::Room;
use test_devices::rows::{allow_growths, octets_of, print_octets, refuse_growths};

/// Makes a call of this module, and returns whether it has one of this name.
pub fn make(rt: &HostRuntime, call: &str, row: &[String]) -> Result<bool> {
    match call {
        "command" => command(rt, row)?,
        "network" => network(rt, row)?,
        "reads" => reads(rt, row)?,
        "files" => files(rt, row)?,
        "texts" => texts(rt, row)?,
        _ => return Ok(false),
    }
    Ok(true)
}

/// Calls `run_command` on an input and words.
fn command(rt: &HostRuntime, row: &[String]) -> Result<()> {
    let alloc = rt.alloc();
    let [input, words @ ..] = row else {
        bail!("no input");
    };
    let input = octets_of(alloc, input.as_str())?;
    let mut source = Input::new(input.as_slice());
    let mut sink = Room::new(alloc, 1 << 20)?;
    let mut errors = Room::new(alloc, 1 << 16)?;
    refuse_growths(rt)?;
    let status = run_command(alloc, words, &mut source, &mut sink, &mut errors);
    allow_growths(rt)?;
    println!(rt; "answer {status:?}")?;
    print_octets(rt, "wrote", sink.taken())?;
    print_octets(rt, "errors", errors.taken())
}

/// Calls `network_command` on words.
fn network(rt: &HostRuntime, row: &[String]) -> Result<()> {
    let command = network_command(rt.alloc(), row)?;
    println!(rt; "answer {command:?}")?;
    Ok(())
}

/// Calls `reads_input` on words.
fn reads(rt: &HostRuntime, row: &[String]) -> Result<()> {
    let reads = reads_input(rt.alloc(), row)?;
    println!(rt; "answer {reads}")?;
    Ok(())
}

/// Prints texts, a line each.
fn print_texts(rt: &HostRuntime, texts: &[&str]) -> Result<()> {
    for text in texts {
        println!(rt; "answer {text}")?;
    }
    Ok(())
}

/// Calls `files_asked` on words.
fn files(rt: &HostRuntime, row: &[String]) -> Result<()> {
    let files = files_asked(rt.alloc(), row)?;
    print_texts(rt, files.as_slice())
}

/// Calls `texts_asked` on an option and words.
fn texts(rt: &HostRuntime, row: &[String]) -> Result<()> {
    let [option, words @ ..] = row else {
        bail!("no option");
    };
    let texts = texts_asked(rt.alloc(), words, option.as_str())?;
    print_texts(rt, texts.as_slice())
}
