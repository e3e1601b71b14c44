//! The first octets of a frame.

ghost use Rattle.llrp_stream.specs.Calls.Lengths.{IsFront};
ghost use Rattle.llrp_stream.specs.Private.Headers.{Starts};

use byteorder::{BigEndian, ByteOrder};
use llrp_schema::KindSet;
use llrp_tree::{Fault, HEADER_OCTETS, Header, read_header_in};

/// What the length field at the front of a stream says.
#[derive(Clone, Copy)]
pub enum Front {
    /// It is not whole.
    Short,
    /// It is below 10, which no frame has.
    Broken,
    /// A frame of this many octets begins there.
    Frame(u32),
}

/// What is kept of a faulty frame.
#[derive(Clone, Copy)]
pub(crate) struct FaultyHeader {
    pub octets: u32,
    pub id: u32,
    pub fault: Fault,
}

/// What the first octets of a frame say.
#[derive(Clone, Copy)]
pub(crate) enum FrameStart {
    /// The header is not whole.
    Short,
    /// The length field is below 10.
    Breaking,
    /// The header fails a check.
    Faulty(FaultyHeader),
    /// The header passes its checks.
    Sound(Header),
}

/// Reads the length field at the front of a stream.
#[inline(always)]
pub fn front_of(octets: &[u8]) -> Front
    ensures { IsFront octets.now result }
{
    if octets.len() < 6 {
        return Front::Short;
    }
    let count = BigEndian::read_u32(&octets[2..]);
    if count < HEADER_OCTETS as u32 {
        return Front::Broken;
    }
    Front::Frame(count)
}

/// Reads the header at the front of a frame of a set of kinds.
#[inline(always)]
pub(crate) fn start_of(set: KindSet, bytes: &[u8], limit: u32) -> FrameStart
    ensures { Starts set limit bytes.now result }
{
    match front_of(bytes) {
        Front::Short => FrameStart::Short,
        Front::Broken => FrameStart::Breaking,
        Front::Frame(_) if bytes.len() < HEADER_OCTETS => FrameStart::Short,
        Front::Frame(octets) => match read_header_in(set, bytes, limit) {
            Ok(header) => FrameStart::Sound(header),
            Err(fault) => FrameStart::Faulty(FaultyHeader {
                octets,
                id: BigEndian::read_u32(&bytes[6..]),
                fault,
            }),
        },
    }
}
