//! Writes messages to a sink as their octets are made, without a buffer of a message's size.

ghost use Rattle.llrp_stream.specs.Calls.Device.{CanWrite};
ghost use Rattle.std.specs.Prelude.{◌≡◌, ◌<◌, IsErrOf, ◌↔◌};
ghost use Rattle.llrp_tree.specs.Lawful.{message_octets};
ghost use Rattle.llrp_stream.specs.Private.Writing.{Written};
ghost use Rattle.llrp_stream.specs.Calls.Writing.{WritesAll, WritesFrame};
ghost use Rattle.llrp_stream.specs.declared.message_writer.WriteErr.TheVariants.{OverLimit};

use crate::device::Sink;
use llrp_tree::{Message, Spelling};

/// Why a message was not written.
#[derive(Clone, Copy, Debug, PartialEq, Eq)]
pub enum WriteErr {
    /// The message is longer than the limit.
    OverLimit,
    /// A write failed or took nothing.
    Write,
}

/// A write failed or took nothing.
#[derive(Clone, Copy, Debug, PartialEq, Eq)]
pub struct WriteFailed;

/// How many octets of a message are made at a time.
const PART_SIZE: usize = 4096;

/// Writes all of the bytes, in as many calls as it takes. After an error some first part of them
/// was written.
pub fn write_all<W: Sink>(w: &mut W, bytes: &[u8]) -> Result<(), WriteFailed>
    requires { CanWrite (W.log w.old) }
    ensures { WritesAll bytes.now (W.log w.old) (W.log w.new) result }
{
    let mut rest = bytes;
    while !rest.is_empty() {
        match w.write(rest) {
            Ok(0) => return Err(WriteFailed),
            Ok(n) => rest = rest.split_at(n).1,
            Err(_) => return Err(WriteFailed),
        }
    }
    Ok(())
}

/// Writes the remaining octets of a message.
fn write_left<W: Sink>(spelling: &mut Spelling<'_>, w: &mut W) -> Result<(), WriteErr>
    requires { CanWrite (W.log w.old) }
    ensures { Written spelling.old (W.log w.old) (W.log w.new) result }
{
    let mut part = [0u8; PART_SIZE];
    while spelling.left() > 0 {
        let count = spelling.fill(&mut part);
        if let Err(WriteFailed) = write_all(w, &part[..count]) {
            return Err(WriteErr::Write);
        }
    }
    Ok(())
}

/// Writes the frame of a message (LLRP 1.1, section 17.1). It takes no memory.
///
/// The error is `OverLimit` if the message is longer than the limit, and then nothing was written;
/// after `Write`, some first part of the frame was.
pub fn write_message<W: Sink>(message: &Message, limit: u32, w: &mut W) -> Result<(), WriteErr>
    requires { CanWrite (W.log w.old) }
    ensures over { IsErrOf result OverLimit ↔ (limit < message_octets message.now) }
    ensures written { WritesFrame message.now limit (W.log w.old) (W.log w.new) result }
{
    if message.length() > limit {
        return Err(WriteErr::OverLimit);
    }
    write_left(&mut Spelling::new(message), w)
}
