//! A source that first gives octets that were read before.

ghost use Rattle.std.specs.Prelude.{◌≡◌, ◌<◌, ◌≤◌, ◌+◌, None};
ghost use Rattle.llrp_stream.specs.Device.{IsFreshSource};

use llrp_stream::Source;
use std::io;

/// Octets, and then the reads of a source.
#[derive(Drop)]
pub struct Replayed<'a, R: Source + Drop> {
    octets: &'a [u8],
    /// How many reads gave some of the octets.
    replays: u64,
    source: R,
}

impl<'a, R: Source + Drop> Replayed<'a, R> {
    /// These octets, of which none was given yet, and the source.
    pub fn new(octets: &'a [u8], source: R) -> Replayed<'a, R>
        ensures { IsFreshSource (R.log source)
            → IsFreshSource (⟦<Replayed<'a, R> as Source>⟧.log result) }
    {
        Replayed {
            octets,
            replays: 0,
            source,
        }
    }

    /// The source.
    pub fn into_source(self) -> R {
        self.source
    }
}

impl<'a, R: Source + Drop> Source for Replayed<'a, R> {
    ghost use Rattle.std.specs.Prelude.{◌+◌, None};

    ghost log = { λ s. record {
      reads = s.replays + (R.log s.source).reads;
      ends = (R.log s.source).ends;
      failures = (R.log s.source).failures;
      left = None;
    } };

    fn read(&mut self, buf: &mut [u8]) -> io::Result<usize> {
        if self.octets.is_empty() {
            return self.source.read(buf);
        }
        let n = self.octets.len().min(buf.len());
        let (first, later) = self.octets.split_at(n);
        buf.split_at_mut(n).0.copy_from_slice(first);
        self.octets = later;
        self.replays += 1;
        Ok(n)
    }
}
