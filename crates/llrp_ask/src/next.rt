//! What comes next in the octets of a stream.

ghost use Rattle.llrp_ask.specs.Calls.Next.{IsNextIn};

use llrp_listing::ToolErr;
use llrp_stream::{Front, front_of};
use llrp_tree::MAX_LIMIT;

/// What comes next in octets.
#[derive(Clone, Copy)]
pub enum Next {
    /// A frame that is not whole, or nothing.
    Partial,
    /// A frame of this many octets.
    Frame(usize),
    /// No frame that can be taken: the stream breaks off, or a frame is longer than a message may be.
    Stop(ToolErr),
}

/// What comes next in these octets. It stops for `Broken`, a length field below 10, and for `Strange`, a
/// frame of more octets than a message may have.
pub fn next_in(octets: &[u8]) -> Next
    ensures { IsNextIn octets.now result }
{
    match front_of(octets) {
        Front::Short => Next::Partial,
        Front::Broken => Next::Stop(ToolErr::Broken),
        Front::Frame(count) => {
            if count > MAX_LIMIT {
                return Next::Stop(ToolErr::Strange);
            }
            if octets.len() < count as usize {
                return Next::Partial;
            }
            Next::Frame(count as usize)
        }
    }
}
