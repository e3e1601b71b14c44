//! Encodes lines of JSON that are in memory.

ghost use Rattle.std.specs.Prelude.{◌≡◌};
ghost use Rattle.llrp_json_read.specs.Calls.TextEncoding.{AppendsFrames};
ghost use Rattle.llrp_json_read.specs.Private.Lines.{lines_error};

use crate::run::{Lines, LinesErr, TakeErr};
use llrp_listing::ToolErr;
use llrp_schema::KindSet;
use std::alloc::Global;

impl From<TakeErr> for LinesErr {
    ghost from_gives = { λ error e. e ≡ lines_error error };

    fn from(error: TakeErr) -> LinesErr {
        match error {
            TakeErr::Line(line) => LinesErr::Line(line),
            TakeErr::Memory => LinesErr::Stopped(ToolErr::Memory),
        }
    }
}

/// Appends the frames of the messages that the lines of a text say, each of `limit` octets at most. A last line may lack its LF.
///
/// The errors are `Line` with the first line that is refused, as by `run_encode_json`, once the frames of the lines before it were
/// appended, and `Stopped` with `Memory`, after which those of some first lines were.
pub fn encode_lines(
    alloc: Global,
    set: KindSet,
    text: &[u8],
    frames: &mut Vec<u8>,
    limit: u32,
) -> Result<(), LinesErr>
    ensures { AppendsFrames set limit text.now frames.old.items frames.new.items result }
{
    let mut lines = Lines::new(alloc);
    lines.take(alloc, set, limit, text, frames)?;
    lines.end(alloc, set, limit, frames)?;
    Ok(())
}
