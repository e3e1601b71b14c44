//! Sources and sinks: where bytes come from and go to, with a count of what happened to them.

ghost use Rattle.std.specs.Prelude.{◌≡◌, ◌<◌, length};
ghost use Rattle.llrp_stream.specs.Calls.Device.{CanRead, CanWrite, ReadStep, WriteStep, new_sink, new_source};
ghost use Rattle.llrp_stream.specs.Device.{SinkLog, SourceLog};

use std::io;
use std::io::{Read, Write};

/// Gives bytes. Its log counts the reads that gave bytes, those that met the end and those that
/// failed, and has the bytes that are left, if the source knows them.
pub trait Source {
    ghost log: { Self → SourceLog };

    /// Reads into `buf`, and returns how many bytes it gave: 0 only at the end.
    fn read(&mut self, buf: &mut [u8]) -> io::Result<usize>
        requires room { CanRead (log self.old) }
        requires buffer { 0 < length buf.old }
        ensures { ReadStep (log self.old) (log self.new) result buf.new };
}

/// Takes bytes. Its log counts the writes that failed, and has the bytes that were taken, if the
/// sink knows them.
pub trait Sink {
    ghost log: { Self → SinkLog };

    /// Writes the first bytes of `buf`, and returns how many: 0 counts as a failure.
    fn write(&mut self, buf: &[u8]) -> io::Result<usize>
        requires room { CanWrite (log self.old) }
        requires buffer { 0 < length buf.now }
        ensures { WriteStep (log self.old) (log self.new) result buf.now };
}

/// A source over any reader, which knows the bytes that the reader knows.
#[derive(Drop)]
pub struct Input<R: Read + Drop> {
    stream: R,
    reads: u64,
    ends: u64,
    failures: u64,
}

impl<R: Read + Drop> Input<R> {
    /// A source over this reader, of which nothing was read.
    pub fn new(stream: R) -> Input<R>
        ensures { ⟦<Input<R> as Source>⟧.log result ≡ new_source (R.remaining stream) }
    {
        Input {
            stream,
            reads: 0,
            ends: 0,
            failures: 0,
        }
    }
}

impl<R: Read + Drop> Source for Input<R> {
    ghost log = { λ s. record { reads = s.reads; ends = s.ends; failures = s.failures; left = R.remaining s.stream } };

    fn read(&mut self, buf: &mut [u8]) -> io::Result<usize> {
        match self.stream.read(buf) {
            Ok(0) => {
                self.ends += 1;
                Ok(0)
            }
            Ok(n) => {
                self.reads += 1;
                Ok(n)
            }
            Err(e) => {
                self.failures += 1;
                Err(e)
            }
        }
    }
}

/// A sink over any writer, which knows the bytes that the writer knows.
#[derive(Drop)]
pub struct Output<W: Write + Drop> {
    stream: W,
    failures: u64,
}

impl<W: Write + Drop> Output<W> {
    /// A sink over this writer, to which nothing was written.
    pub fn new(stream: W) -> Output<W>
        ensures { ⟦<Output<W> as Sink>⟧.log result ≡ new_sink (W.contents stream) }
    {
        Output {
            stream,
            failures: 0,
        }
    }

    /// The writer.
    pub fn into_inner(self) -> W
        ensures { W.contents result ≡ (⟦<Output<W> as Sink>⟧.log self).taken }
    {
        self.stream
    }
}

impl<W: Write + Drop> Sink for Output<W> {
    ghost log = { λ s. record { failures = s.failures; taken = W.contents s.stream } };

    fn write(&mut self, buf: &[u8]) -> io::Result<usize> {
        match self.stream.write(buf) {
            Ok(0) => {
                self.failures += 1;
                Ok(0)
            }
            Ok(n) => Ok(n),
            Err(e) => {
                self.failures += 1;
                Err(e)
            }
        }
    }
}
