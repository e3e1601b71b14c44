//! Words of tags and their texts.

use anyhow::{Result, bail};
use llrp_listing::{ToolErr, bytes_of_hex, run_epc};
use test_devices::Room;
use test_devices::rows::{allow_growths, only_octets, print_octets, refuse_growths, text_of};

/// Makes a call of this module, and returns whether it has one of this name.
pub fn make(rt: &HostRuntime, call: &str, row: &[String]) -> Result<bool> {
    match call {
        "epc" => epc(rt, row)?,
        "digits" => digits(rt, row)?,
        _ => return Ok(false),
    }
    Ok(true)
}

/// Calls `run_epc` on a text.
fn epc(rt: &HostRuntime, row: &[String]) -> Result<()> {
    let alloc = rt.alloc();
    let [word] = row else {
        bail!("no text");
    };
    let text = text_of(alloc, word.as_str())?;
    let mut sink = Room::new(alloc, 4096)?;
    refuse_growths(rt)?;
    let verdict = run_epc(alloc, text.as_str(), &mut sink);
    allow_growths(rt)?;
    println!(rt; "answer {verdict:?}")?;
    print_octets(rt, "wrote", sink.taken())
}

/// Prints what `bytes_of_hex` answered, and returns whether that was Memory.
fn print_digits(rt: &HostRuntime, what: &str, bytes: Result<Vec<u8>, ToolErr>) -> Result<bool> {
    match bytes {
        Ok(bytes) => {
            print_octets(rt, what, bytes.as_slice())?;
            Ok(false)
        }
        Err(error) => {
            println!(rt; "{what} {error:?}")?;
            Ok(error == ToolErr::Memory)
        }
    }
}

/// Calls `bytes_of_hex` on a text.
fn digits(rt: &HostRuntime, row: &[String]) -> Result<()> {
    let alloc = rt.alloc();
    let text = only_octets(alloc, row)?;
    refuse_growths(rt)?;
    let bytes = bytes_of_hex(alloc, text.as_slice());
    allow_growths(rt)?;
    if print_digits(rt, "answer", bytes)? {
        println!(rt; "after same")?;
        print_digits(rt, "again", bytes_of_hex(alloc, text.as_slice()))?;
    }
    Ok(())
}
