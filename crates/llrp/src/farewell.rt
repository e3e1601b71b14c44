//! How a client that ends by itself leaves a reader whose connection stands.

ghost use Rattle.std.specs.Prelude.{◌≡◌, ◌++◌, IfOk, OnOk, true};
ghost use Rattle.llrp_stream.specs.Device.{IsFreshSink};
ghost use Rattle.llrp.specs.Calls.Farewell.{Leaves, farewell_text, disabling_text};

use crate::timed::{TimedReads, TimedWrites};
use crate::waiting::{NO_BOUNDS, Waiting};
use llrp_commands::LIMIT;
use llrp_listing::{Text, ToolErr, encode_listing, write_all};
use llrp_schema::KindSet;
use llrp_stream::Sink;
use std::alloc::{AllocError, Global};
use std::net::TcpStream;

/// How many milliseconds leaving takes at most.
const PATIENCE: u64 = 5_000;

/// Appends the line by which the ROSpec with this id is disabled.
fn push_line(text: &mut Text, id: u32) -> Result<(), AllocError>
    ensures { OnOk result (text.new ≡ text.old ++ disabling_text true id) }
{
    text.push_text(b"0 DISABLE_ROSPEC 1 4294967293 ")?;
    text.push_number(id as u128)?;
    text.push_text(b"\n")?;
    Ok(())
}

/// The same, if it is disabled.
fn push_disabling(text: &mut Text, disables: bool, id: u32) -> Result<(), AllocError>
    ensures { OnOk result (text.new ≡ text.old ++ disabling_text disables id) }
{
    match disables {
        true => push_line(text, id),
        false => Ok(()),
    }
}

/// The lines of what is said last: the ROSpec with this id may be disabled, and is deleted, and the
/// connection is closed. The ids are the greatest, to which the plan of `watch` does not come.
fn farewell_text(alloc: Global, disables: bool, id: u32) -> Result<Text, AllocError>
    ensures { IfOk result (λ text. text ≡ farewell_text disables id) }
{
    let mut text = Text::new(alloc);
    push_disabling(&mut text, disables, id)?;
    text.push_text(b"0 DELETE_ROSPEC 1 4294967294 ")?;
    text.push_number(id as u128)?;
    text.push_text(b"\n0 CLOSE_CONNECTION 1 4294967295\n")?;
    Ok(text)
}

/// Writes those messages.
pub fn say_farewell<W: Sink>(
    alloc: Global,
    disables: bool,
    id: u32,
    w: &mut W,
) -> Result<(), ToolErr>
    requires { IsFreshSink (W.log w.old) }
    ensures { Leaves disables id (W.log w.old) (W.log w.new) result }
{
    let Ok(text) = farewell_text(alloc, disables, id) else {
        return Err(ToolErr::Memory);
    };
    encode_listing(alloc, KindSet::Profile, text.as_slice(), w, LIMIT)
}

/// Reads until the reader has closed the connection, or the time for that is over. What is read is not looked
/// at. Returns whether the connection was closed.
fn await_end(source: &TimedReads<'_>) -> bool {
    let mut piece = [0; 4_096];
    for _ in 0..u64::MAX {
        match source.read_in_time(&mut piece) {
            Ok(0) => return true,
            Ok(_) => {}
            Err(_) => return false,
        }
    }
    false
}

/// Deletes the ROSpec with this id, which is disabled first or not, and closes the connection, as far as
/// the reader takes it within 5 seconds, or what is left of the time of the run. The frames in `before` are
/// sent first. Returns whether the reader then closed the connection.
pub fn leave(
    rt: &HostRuntime,
    stream: &TcpStream,
    left: Option<u64>,
    before: &[u8],
    disables: bool,
    id: u32,
) -> bool {
    let alloc = rt.alloc();
    let waiting = Waiting::new(rt, NO_BOUNDS).within(left.unwrap_or(PATIENCE).min(PATIENCE));
    write_all(&mut TimedWrites::new(alloc, &waiting, stream), before).is_ok()
        && say_farewell(
            alloc,
            disables,
            id,
            &mut TimedWrites::new(alloc, &waiting, stream),
        )
        .is_ok()
        && await_end(&TimedReads::new(alloc, &waiting, stream))
}
