//! Why a line is refused, and where.

ghost use Rattle.std.specs.Prelude.{◌≡◌, ◌++◌};
ghost use Rattle.llrp_json_read.specs.Calls.ReadErrors.{told};
ghost use Rattle.llrp_json_read.specs.Path.{reason_name};
ghost use Rattle.llrp_json_read.specs.Private.Words.{IsMoved};
ghost use Rattle.llrp_json_read.specs.ObjectRefused.{at_member, whole};
ghost use Rattle.llrp_json_read.specs.declared.refusal.ReadErr.TheVariants.{Memory};

use llrp_tree::NodeFault;
use std::alloc::{AllocError, AllocFailed, Global};
use tag_uri::UriFault;

/// Why a line is refused; the first reason in this order that applies to an object.
#[derive(Clone, Copy, Debug, PartialEq, Eq)]
pub enum Reason {
    /// The line is longer than 64 times what a message may have.
    Line,
    /// It is not one text of JSON.
    Json,
    /// A member that objects of its kind do not have.
    Unknown,
    /// A member that is not there.
    Missing,
    /// A member that is there twice or more.
    Twice,
    /// A value of another type: no object, or a member that is no string, no whole number, no array of such, or no array.
    Mistyped,
    /// No message, or no parameter, of the set has this name.
    Name,
    /// A number that is out of its range, or a string that is not the digits of octets.
    Value,
    /// A string that is not the text of an EPC; this rule refuses it.
    Epc(UriFault),
    /// With the parameters below it, it is not a lawful message or parameter.
    Node(NodeFault),
    /// The message is longer than the limit.
    OverLimit,
}

impl Reason {
    /// The words that an error line has for it: its own name and, if it has a fault inside, that fault's.
    pub fn names(self) -> (&'static str, &'static str)
        ensures { result.0.now ++ result.1.now ≡ reason_name self }
    {
        match self {
            Reason::Line => ("Line", ""),
            Reason::Json => ("Json", ""),
            Reason::Unknown => ("Unknown", ""),
            Reason::Missing => ("Missing", ""),
            Reason::Twice => ("Twice", ""),
            Reason::Mistyped => ("Mistyped", ""),
            Reason::Name => ("Name", ""),
            Reason::Value => ("Value", ""),
            Reason::Epc(fault) => llrp_listing::Refusal::Epc(fault).names(),
            Reason::Node(fault) => llrp_listing::Refusal::Node(fault).names(),
            Reason::OverLimit => ("OverLimit", ""),
        }
    }
}

/// Where a value is refused, and why.
#[derive(Debug, Drop)]
pub struct Refusal<'a> {
    /// The place of its object among the parameters of its parent, counted from 0, then the place of
    /// that one, and so on up to the message.
    pub places: Vec<usize>,
    /// The member of the object at which it is refused, if it is at one.
    pub member: Option<&'a str>,
    /// The reason.
    pub reason: Reason,
}

/// A line that is refused.
#[derive(Debug, Drop)]
pub struct RefusedLine {
    /// Its number, counted from 1.
    pub number: u64,
    /// The path of the member at which it is refused, as `parameters[1].AntennaID`; of an object, if it is at no member; empty if it is
    /// the line as a whole. A character of a name that is not printable ASCII is `\u` and four digits for each unit of UTF-16.
    pub path: Vec<u8>,
    /// The reason.
    pub reason: Reason,
}

/// Why no message was read.
#[derive(Debug, Drop)]
pub enum ReadErr<'a> {
    /// The line is refused.
    Refused(Refusal<'a>),
    /// Memory ran out.
    Memory,
}

impl<'a> From<AllocError> for ReadErr<'a> {
    ghost from_gives = { λ _ e. e ≡ Memory };

    fn from(_e: AllocError) -> ReadErr<'a> {
        ReadErr::Memory
    }
}

impl<'a, T: Drop> From<AllocFailed<T>> for ReadErr<'a> {
    ghost from_gives = { λ _ e. e ≡ Memory };

    fn from(_e: AllocFailed<T>) -> ReadErr<'a> {
        ReadErr::Memory
    }
}

/// A value that is refused as a whole.
pub(crate) fn whole<'a>(alloc: Global, reason: Reason) -> Refusal<'a>
    ensures { told result ≡ whole reason }
{
    Refusal {
        places: Vec::new(alloc),
        member: None,
        reason,
    }
}

/// A value that is refused at a member.
pub(crate) fn at_member<'a>(alloc: Global, member: &'a str, reason: Reason) -> Refusal<'a>
    ensures { told result ≡ at_member member.now reason }
{
    Refusal {
        places: Vec::new(alloc),
        member: Some(member),
        reason,
    }
}

/// The error of the parameter that has this place below an object, as an error of the object.
pub(crate) fn at_place<'a>(place: usize, error: ReadErr<'a>) -> ReadErr<'a>
    ensures { IsMoved place error.entry result }
{
    let ReadErr::Refused(refusal) = error else {
        return ReadErr::Memory;
    };
    let Refusal {
        mut places,
        member,
        reason,
    } = refusal;
    match places.push(place) {
        Ok(()) => ReadErr::Refused(Refusal {
            places,
            member,
            reason,
        }),
        Err(_) => ReadErr::Memory,
    }
}
