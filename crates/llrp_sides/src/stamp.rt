//! When and from where a frame came.

ghost use Rattle.std.specs.Prelude.{◌≡◌, ◌++◌, OnOk};
ghost use Rattle.llrp_sides.specs.Calls.Blocks.{side_word, stamp_line, stamp_members, stamped};

use crate::form::Form;
use llrp_capture::Sender;
use llrp_listing::Text;
use std::alloc::AllocError;

/// The time and the side of the segment with which a frame is whole.
#[derive(Clone, Copy)]
pub struct Stamp<'a> {
    /// Seconds since 1970 in decimal, with a point.
    pub time: &'a str,
    /// The number of the connection in the capture.
    pub stream: u32,
    pub from: Sender,
}

/// The word of a side.
fn word_of(from: Sender) -> &'static str
    ensures { result.now ≡ side_word from }
{
    match from {
        Sender::Reader => "reader",
        Sender::Client => "client",
    }
}

/// Appends the line that stands before a frame.
fn push_line(text: &mut Text, stamp: Stamp<'_>) -> Result<(), AllocError>
    ensures { OnOk result (text.new ≡ text.old ++ stamp_line stamp.entry) }
{
    text.push_text(b"# ")?;
    text.push_text(stamp.time.as_bytes())?;
    text.push_text(b" ")?;
    text.push_number(stamp.stream as u128)?;
    text.push_text(b" ")?;
    text.push_text(word_of(stamp.from).as_bytes())?;
    text.push_text(b"\n")
}

/// Appends what an object begins with, as far as its second member's comma.
fn push_members(text: &mut Text, stamp: Stamp<'_>) -> Result<(), AllocError>
    ensures { OnOk result (text.new ≡ text.old ++ stamp_members stamp.entry) }
{
    text.push_text(b"{\"time\":\"")?;
    text.push_text(stamp.time.as_bytes())?;
    text.push_text(b"\",\"stream\":")?;
    text.push_number(stamp.stream as u128)?;
    text.push_text(b",\"from\":\"")?;
    text.push_text(word_of(stamp.from).as_bytes())?;
    text.push_text(b"\",")
}

/// Appends what is listed of a frame or an end, with its time and side.
pub(crate) fn push_stamped(
    text: &mut Text,
    form: Form,
    stamp: Stamp<'_>,
    block: &[u8],
) -> Result<(), AllocError>
    ensures { OnOk result (text.new ≡ text.old ++ stamped form.json stamp.entry block.now) }
{
    if !form.json {
        push_line(text, stamp)?;
        return text.push_text(block);
    }
    push_members(text, stamp)?;
    match block.split_first() {
        Some((_, members)) => text.push_text(members),
        None => Ok(()),
    }
}

/// Appends that octets of a side are in no frame that is listed.
pub(crate) fn push_gap(
    text: &mut Text,
    form: Form,
    stamp: Stamp<'_>,
    octets: u64,
) -> Result<(), AllocError> {
    if form.json {
        push_members(text, stamp)?;
        text.push_text(b"\"gap\":")?;
        text.push_number(octets as u128)?;
        return text.push_text(b"}\n");
    }
    push_line(text, stamp)?;
    text.push_text(b"? GAP ")?;
    text.push_number(octets as u128)?;
    text.push_text(b"\n")
}
