//! The file of --save: the whole frames of a reader, as they came.

ghost use Rattle.std.specs.Prelude.{◌≡◌};

use crate::whole_frames::FrameCutter;
use llrp_listing::{ToolErr, write_all};
use llrp_stream::{Output, Source};
use std::alloc::{AllocError, Global};
use std::fs::{File, OpenOptions};
use std::io;
use std::io::Stderr;

/// What is written where the frames cannot be saved.
pub const SAVE_LINE: &[u8] = b"llrp: save\n";

/// Appends frames to a file. If only a part of them can be written, that is taken off again.
fn append_to(file: &File, frames: &[u8]) -> Result<(), ToolErr> {
    let before = file.metadata();
    if write_all(&mut Output::new(file), frames).is_ok() {
        return Ok(());
    }
    if let Ok(data) = before {
        let _cut = file.set_len(data.len());
    }
    Err(ToolErr::Write)
}

/// Where frames are saved, if they are.
#[derive(Drop)]
pub struct Saving {
    file: Option<File>,
    errors: Stderr,
}

impl Saving {
    /// The file with this path, if there is one, opened for what is appended to it.
    pub fn open(rt: &HostRuntime, path: Option<&str>) -> io::Result<Saving> {
        let file = match path {
            Some(path) => Some(OpenOptions::new().append(true).create(true).open(rt, path)?),
            None => None,
        };
        Ok(Saving {
            file,
            errors: rt.stderr(),
        })
    }

    /// Says that no more is saved.
    fn give_up(&mut self) {
        self.file = None;
        let _said = write_all(&mut Output::new(&self.errors), SAVE_LINE);
    }

    /// Appends frames. The first failure is said, and ends the saving.
    fn append(&mut self, frames: &[u8]) {
        let failed = match &self.file {
            Some(file) => append_to(file, frames).is_err(),
            None => false,
        };
        if failed {
            self.give_up();
        }
    }
}

/// Passes each read on to a source, and saves the frames that are whole with it.
#[derive(Drop)]
pub struct Saved<R: Source + Drop> {
    source: R,
    cutter: FrameCutter,
    saving: Saving,
}

impl<R: Source + Drop> Saved<R> {
    /// A source of which nothing was read yet. A frame that is longer than the limit is not saved.
    pub fn new(alloc: Global, limit: u32, source: R, saving: Saving) -> Saved<R>
        ensures { ⟦<Saved<R> as Source>⟧.log result ≡ R.log source }
    {
        Saved {
            source,
            cutter: FrameCutter::new(alloc, limit),
            saving,
        }
    }

    /// Where it saved.
    pub fn into_saving(self) -> Saving {
        self.saving
    }

    /// Saves what is whole with these octets.
    fn keep(&mut self, octets: &[u8])
        ensures { self.new.source ≡ self.old.source }
    {
        if self.saving.file.is_none() {
            return;
        }
        match self.cutter.take(octets) {
            Ok(frames) => self.saving.append(frames.as_slice()),
            Err(AllocError) => self.saving.give_up(),
        }
    }
}

impl<R: Source + Drop> Source for Saved<R> {
    ghost log = { λ s. R.log s.source };

    fn read(&mut self, buf: &mut [u8]) -> io::Result<usize> {
        let n = self.source.read(buf)?;
        self.keep(buf.split_at(n).0);
        Ok(n)
    }
}
