//! The inputs of a process: its files, and its standard input by the name `-`.

ghost use Rattle.std.specs.Prelude.{⊤};

use crate::files::{Inputs, Opening};
use crate::hints::Noticing;
use crate::terminal::{say_hint, say_waiting};
use llrp_listing::ToolErr;
use llrp_stream::Input;
use std::fs::File;
use std::io;
use std::io::{ErrorKind, Read, Stdin};

/// The name of standard input.
const STANDARD_INPUT: &str = "-";

/// A file that is open, or standard input.
#[derive(Drop)]
pub enum Opened {
    /// Standard input.
    Standard(Stdin),
    /// A file.
    File(File),
}

impl Read for Opened {
    fn read(&mut self, buf: &mut [u8]) -> io::Result<usize> {
        match self {
            Opened::Standard(input) => input.read(buf),
            Opened::File(file) => file.read(buf),
        }
    }
}

/// The inputs of a process, for a command that these words ask for.
#[derive(Drop)]
pub struct HostInputs<'a> {
    pub rt: &'a HostRuntime,
    pub words: &'a [String],
}

impl HostInputs<'_> {
    /// Opens standard input or a file: none where it cannot be opened. The error is `Memory`.
    fn handle(&self, name: &str) -> Result<Option<Opened>, ToolErr> {
        if name == STANDARD_INPUT {
            say_waiting(self.rt, self.words)?;
            return Ok(Some(Opened::Standard(self.rt.stdin())));
        }
        match File::open(self.rt, name) {
            Ok(file) => Ok(Some(Opened::File(file))),
            Err(error) => match error.kind() {
                ErrorKind::OutOfMemory => Err(ToolErr::Memory),
                _ => Ok(None),
            },
        }
    }
}

impl Inputs<Noticing<Input<Opened>>> for HostInputs<'_> {
    // (what a file holds is not known here)
    ghost stands = { λ _ _ _. ⊤ };

    fn open(&self, name: &str) -> Opening<Noticing<Input<Opened>>> {
        match self.handle(name) {
            Ok(Some(opened)) => Opening::Opened(Noticing::new(Input::new(opened))),
            Ok(None) => Opening::Unread,
            Err(_) => Opening::NoMemory,
        }
    }

    fn ended(&self, input: &Noticing<Input<Opened>>, answer: &Result<u8, ToolErr>) {
        if let Ok(status) = answer {
            say_hint(self.rt, self.words, *status, input);
        }
    }
}
