//! How a command ends: what it found, or why it stopped.

ghost use Rattle.std.specs.Prelude.{◌≡◌, ◌++◌, Some};
ghost use Rattle.llrp_listing.specs.declared.outcome.ToolErr.TheVariants.{Memory};
ghost use Rattle.llrp_listing.specs.Calls.Fault.{error_by};
ghost use Rattle.llrp_listing.specs.Refused.{node_fault_name, refusal_name};

use llrp_stream::FeedErr;
use llrp_tree::NodeFault;
use std::alloc::{AllocError, AllocFailed};
use std::fmt;
use tag_uri::UriFault;
use thiserror::Error;

/// What a command that read its whole input found.
#[derive(Clone, Copy, Debug, PartialEq, Eq)]
pub enum Verdict {
    /// Each frame is a message and the stream ends after a whole frame; or the text is a word's.
    Lawful,
    /// Some frame has a fault or the stream ends otherwise; or the text is not a word's.
    Faulty,
}

/// Why a line of a listing is refused; the first reason in this order that applies.
#[derive(Clone, Copy, Debug, PartialEq, Eq)]
pub enum Refusal {
    /// It has no LF at its end, is too long, or has a byte other than printable ASCII.
    Line,
    /// Its first word is not a level that may come here.
    Level,
    /// Its second word is not a name that may come at this level.
    Name,
    /// It does not have as many words as its kind has.
    Fields,
    /// A word is not a number that its field can have.
    Number,
    /// Its last word is not a tail that its kind can have.
    Tail,
    /// The word of an EPC is not the text of one; this rule refuses it.
    Epc(UriFault),
    /// With the lines below it, it is not a lawful message or parameter.
    Node(NodeFault),
    /// The message that it begins is longer than the limit.
    OverLimit,
}

/// The name of a fault.
fn node_fault_name(fault: NodeFault) -> &'static str
    ensures { result.now ≡ node_fault_name fault }
{
    match fault {
        NodeFault::FieldCount => "FieldCount",
        NodeFault::Value => "Value",
        NodeFault::Tail => "Tail",
        NodeFault::Misplaced => "Misplaced",
        NodeFault::TooMany => "TooMany",
        NodeFault::Missing => "Missing",
        NodeFault::TooDeep => "TooDeep",
        NodeFault::TooLong => "TooLong",
    }
}

impl Refusal {
    /// The words that an error line has for it: its own name and, if it has a fault inside, that
    /// fault's.
    pub fn names(self) -> (&'static str, &'static str)
        ensures { result.0.now ++ result.1.now ≡ refusal_name self }
    {
        match self {
            Refusal::Line => ("Line", ""),
            Refusal::Level => ("Level", ""),
            Refusal::Name => ("Name", ""),
            Refusal::Fields => ("Fields", ""),
            Refusal::Number => ("Number", ""),
            Refusal::Tail => ("Tail", ""),
            Refusal::Epc(fault) => ("Epc ", fault.name()),
            Refusal::Node(fault) => ("Node ", node_fault_name(fault)),
            Refusal::OverLimit => ("OverLimit", ""),
        }
    }
}

impl fmt::Display for Refusal {
    ghost output = { λ refusal. Some (refusal_name refusal) };

    fn fmt<W: fmt::Write>(&self, f: &mut fmt::Formatter<W>) -> fmt::Result {
        let (name, inner) = self.names();
        f.write_str(name)?;
        f.write_str(inner)
    }
}

/// Why a command stopped.
#[derive(Clone, Copy, Debug, PartialEq, Eq, Error)]
pub enum ToolErr {
    /// A line of a listing, counted from 1, is refused.
    #[error("line {line} of the listing is refused: {reason}")]
    Listing { line: u64, reason: Refusal },
    /// A line of a script, counted from 1, is refused.
    #[error("line {line} of the script is refused")]
    Script { line: u64 },
    /// A text is not hexadecimal digits in pairs.
    #[error("the input is not an even number of hexadecimal digits")]
    Hex,
    /// A read failed.
    #[error("reading failed")]
    Read,
    /// A write failed or took nothing.
    #[error("writing failed")]
    Write,
    /// The source gave bytes in more reads than a command allows.
    #[error("the input is too long")]
    Bound,
    /// A length field below 10, which no frame has.
    #[error("the stream of messages breaks off")]
    Broken,
    /// Memory ran out.
    #[error("out of memory")]
    Memory,
    /// The reader answered with this status, which is not 0.
    #[error("the reader answered with status {0}")]
    Peer(u16),
    /// The reader sent an unexpected message or a faulty frame.
    #[error("the reader sent an unexpected message or a faulty frame")]
    Strange,
    /// The input or the connection ended before the work was done.
    #[error("the input ended too early")]
    Early,
}

impl From<AllocError> for ToolErr {
    ghost from_gives = { λ _ e. e ≡ Memory };

    fn from(_e: AllocError) -> ToolErr {
        ToolErr::Memory
    }
}

impl<T: Drop> From<AllocFailed<T>> for ToolErr {
    ghost from_gives = { λ _ e. e ≡ Memory };

    fn from(_e: AllocFailed<T>) -> ToolErr {
        ToolErr::Memory
    }
}

/// The command's error for a decoder's, after which the decoder takes nothing more.
pub fn error_of(error: FeedErr) -> ToolErr
    ensures { result ≡ error_by error }
{
    match error {
        FeedErr::Broken => ToolErr::Broken,
        FeedErr::Memory | FeedErr::Dead => ToolErr::Memory,
    }
}
