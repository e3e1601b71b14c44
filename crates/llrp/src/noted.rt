//! A sink that says what became of it.

ghost use Rattle.std.specs.Prelude.{◌≡◌};

use llrp_stream::Sink;
use std::io;

/// Passes each write on to a sink, and notes whether one took bytes and whether one failed.
#[derive(Drop)]
pub struct Noted<W: Sink + Drop> {
    sink: W,
    took: bool,
    failed: bool,
}

impl<W: Sink + Drop> Noted<W> {
    /// A sink to which nothing was written yet.
    pub fn new(sink: W) -> Noted<W>
        ensures { ⟦<Noted<W> as Sink>⟧.log result ≡ W.log sink }
    {
        Noted {
            sink,
            took: false,
            failed: false,
        }
    }

    /// Whether a write took bytes.
    pub fn took(&self) -> bool {
        self.took
    }

    /// Whether a write failed.
    pub fn failed(&self) -> bool {
        self.failed
    }
}

impl<W: Sink + Drop> Sink for Noted<W> {
    ghost log = { λ s. W.log s.sink };

    fn write(&mut self, buf: &[u8]) -> io::Result<usize> {
        let outcome = self.sink.write(buf);
        match &outcome {
            Ok(_) => self.took = true,
            Err(_) => self.failed = true,
        }
        outcome
    }
}
