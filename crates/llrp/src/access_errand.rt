//! The words of `access` as `llrp_operations` takes them, and the file of the password.

ghost use Rattle.llrp.specs.Calls.AccessEnding.{AreErrandWords};

use llrp_commands::AccessWords;
use llrp_listing::{bytes_of_hex, read_all};
use llrp_operations::ErrandWords;
use llrp_stream::Input;
use std::fs::File;

/// The texts of the options that may be given several times.
#[derive(Drop)]
pub struct OperationTexts<'a> {
    pub reads: Vec<&'a str>,
    pub writes: Vec<&'a str>,
    pub locks: Vec<&'a str>,
}

/// The words of what is to be done to the tag.
pub fn errand_words<'a>(words: AccessWords<'a>, texts: &'a OperationTexts<'a>) -> ErrandWords<'a>
    ensures { AreErrandWords words.entry texts.now result }
{
    ErrandWords {
        tag: words.tag,
        reads: texts.reads.as_slice(),
        writes: texts.writes.as_slice(),
        epc: words.epc,
        locks: texts.locks.as_slice(),
        antenna: words.antenna,
        verifies: words.verify,
        json: words.json,
    }
}

/// The access password in a file: eight hexadecimal digits; 0 where there is no file. None if the file cannot
/// be read, or has no password.
pub fn password_in(rt: &HostRuntime, path: Option<&str>) -> Option<u32> {
    let Some(path) = path else {
        return Some(0);
    };
    let file = File::open(rt, path).ok()?;
    let text = read_all(rt.alloc(), &mut Input::new(file)).ok()?;
    let octets = bytes_of_hex(rt.alloc(), text.as_slice()).ok()?;
    match octets.as_slice() {
        [a, b, c, d] => Some(u32::from_be_bytes([*a, *b, *c, *d])),
        _ => None,
    }
}
