//! The header of a frame.

ghost use Rattle.std.specs.Prelude.{◌≤◌, length, IfOk, IfErr};
ghost use Rattle.llrp_tree.specs.Calls.Header.{HasHeader, HasHeaderFault, HasHeaderIn, HasHeaderFaultIn};

use crate::child_checks::is_known_version;
use crate::fault::fault_at;
use crate::numbers::{from_octet, header_front};
use crate::{Fault, HEADER_OCTETS, MsgKind, Reason};
use llrp_schema::{KindSet, msg_of_in};

/// What the header of a frame says (LLRP 1.1, section 17.1).
#[derive(Clone, Copy, Debug)]
pub struct Header {
    /// The version: 1 is LLRP 1.0.1, 2 is LLRP 1.1.
    pub version: u8,
    /// The kind of the message.
    pub kind: MsgKind,
    /// The number of octets of the frame, including the ten of the header.
    pub octets: u32,
    /// The message's id.
    pub id: u32,
}

/// Reads the header at the front of these bytes, whatever follows them, or returns the first check
/// that it fails: reserved bits, version, type, and a length above `limit`. A length below ten
/// octets is no fault here.
#[inline]
pub fn read_header(bytes: &[u8], limit: u32) -> Result<Header, Fault>
    requires whole { HEADER_OCTETS ≤ length bytes.now }
    ensures header { IfOk result (HasHeader limit bytes.now) }
    ensures fault { IfErr result (HasHeaderFault limit bytes.now) }
{
    read_header_in(KindSet::Profile, bytes, limit)
}

/// Reads the header of a frame of a set of kinds.
#[inline(always)]
pub fn read_header_in(set: KindSet, bytes: &[u8], limit: u32) -> Result<Header, Fault>
    requires whole { HEADER_OCTETS ≤ length bytes.now }
    ensures header { IfOk result (HasHeaderIn set limit bytes.now) }
    ensures fault { IfErr result (HasHeaderFaultIn set limit bytes.now) }
{
    let (reserved, version, number) = header_front(bytes);
    if reserved != 0 {
        return Err(fault_at(0, Reason::Reserved));
    }
    let known = is_known_version(version);
    if !known {
        return Err(fault_at(3, Reason::Version));
    }
    let Some(kind) = msg_of_in(set, number) else {
        return Err(fault_at(6, Reason::MessageType));
    };
    let octets = from_octet(bytes, 2, 32) as u32;
    if octets > limit {
        return Err(fault_at(16, Reason::MessageLength));
    }
    let id = from_octet(bytes, 6, 32) as u32;
    Ok(Header {
        version,
        kind,
        octets,
        id,
    })
}
