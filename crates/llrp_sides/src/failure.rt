//! Why a listing of segments ends early.

ghost use Rattle.std.specs.Prelude.{◌≡◌, IfOk, Ok};

use llrp_capture::{OpenErr, SegmentErr, TakeErr};
use llrp_listing::ToolErr;
use std::alloc::AllocError;

/// Why a line is refused.
#[derive(Clone, Copy, Debug, PartialEq, Eq)]
pub enum LineFault {
    /// It is longer than a line may be.
    Long,
    /// It is no text.
    Utf8,
    /// It says no segment.
    Segment(SegmentErr),
    /// It begins a connection, and as many as may be are open.
    Connections,
    /// A side of its connection has more octets than a side may have.
    Octets,
}

impl LineFault {
    /// Its name in the line of an error.
    pub fn name(self) -> &'static str {
        match self {
            LineFault::Long => "Long",
            LineFault::Utf8 => "Utf8",
            LineFault::Segment(error) => segment_name(error),
            LineFault::Connections => "Connections",
            LineFault::Octets => "Octets",
        }
    }
}

/// The name of what is wrong with a segment.
fn segment_name(error: SegmentErr) -> &'static str {
    match error {
        SegmentErr::Fields => "Fields",
        SegmentErr::Time => "Time",
        SegmentErr::Stream => "Stream",
        SegmentErr::Port => "Port",
        SegmentErr::Flags => "Flags",
        SegmentErr::Sequence => "Sequence",
        SegmentErr::Payload => "Payload",
        SegmentErr::Memory => "Memory",
    }
}

/// Why a listing of segments ended.
#[derive(Debug, Drop)]
pub enum ShowErr {
    /// A line, counted from 1, is refused.
    Line { line: u64, fault: LineFault },
    /// A device failed, or memory ran out.
    Tool(ToolErr),
}

/// Why a segment is not taken.
#[derive(Clone, Copy, Debug, PartialEq, Eq)]
pub enum StepErr {
    /// The line is at fault.
    Fault(LineFault),
    /// Memory ran out.
    Memory,
}

/// Why a segment is not taken whose connection is not opened.
pub(crate) fn of_open(error: OpenErr) -> StepErr {
    match error {
        OpenErr::Full => StepErr::Fault(LineFault::Connections),
        OpenErr::Memory => StepErr::Memory,
    }
}

/// Why a segment is not taken that its side refuses.
pub(crate) fn of_take(error: TakeErr) -> StepErr {
    match error {
        TakeErr::Long => StepErr::Fault(LineFault::Octets),
        TakeErr::Memory => StepErr::Memory,
    }
}

/// Why no segment is taken from a line that does not say one.
pub(crate) fn of_segment(error: SegmentErr) -> StepErr {
    match error {
        SegmentErr::Memory => StepErr::Memory,
        error => StepErr::Fault(LineFault::Segment(error)),
    }
}

/// The outcome of writing to a text, which fails only if memory runs out.
pub(crate) fn of_memory<T>(outcome: Result<T, AllocError>) -> Result<T, StepErr>
    ensures { IfOk result (λ value. outcome ≡ Ok value) }
{
    match outcome {
        Ok(value) => Ok(value),
        Err(_) => Err(StepErr::Memory),
    }
}
