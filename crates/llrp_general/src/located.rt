//! What a simulated reader says of a frame that is no message, or of a request that is refused: which field or parameter it is.

ghost use Rattle.std.specs.Prelude.{IfOk};
ghost use Rattle.llrp_general.specs.Calls.Located.{IsSentTo, MayPlace, MaySay, WithPlace};

use llrp_live::{FaultPlace, fault_place, refused_place, with_place};
use llrp_stream::Item;
use llrp_tree::Message;
use std::alloc::{AllocError, Global};
use std::mem;

/// The octets of a client's frame so far, but of none that is longer than a reader takes.
#[derive(Drop)]
pub struct Located {
    alloc: Global,
    limit: u32,
    frame: Vec<u8>,
    is_long: bool,
}

/// A message, which says this place if it has an LLRPStatus.
fn with_its_place(
    alloc: Global,
    place: &FaultPlace,
    message: &Message,
) -> Result<Message, AllocError>
    ensures { IfOk result (MaySay place.now message.now) }
{
    let located = with_place(alloc, message, place)?;
    match located {
        Some(other) => Ok(other),
        None => Ok(message.try_clone(alloc)?),
    }
}

/// These messages, each of which says this place if it has an LLRPStatus.
fn all_with_place(
    alloc: Global,
    place: &FaultPlace,
    said: &[Message],
) -> Result<Vec<Message>, AllocError>
    ensures { IfOk result (λ sent. WithPlace place.now said.now sent.items) }
{
    let mut located = Vec::new(alloc);
    for message in said {
        let sent = with_its_place(alloc, place, message)?;
        located.push(sent)?;
    }
    Ok(located)
}

/// These messages with this place, if there is one.
fn may_place(
    alloc: Global,
    place: Option<FaultPlace>,
    said: Vec<Message>,
) -> Result<Vec<Message>, AllocError>
    ensures { IfOk result (λ sent. MayPlace place said.items sent.items) }
{
    match place {
        Some(place) => all_with_place(alloc, &place, said.as_slice()),
        None => Ok(said),
    }
}

impl Located {
    /// Nothing came of a frame, of which a reader takes at most this many octets. It takes no memory.
    pub fn new(alloc: Global, limit: u32) -> Located {
        Located {
            alloc,
            limit,
            frame: Vec::new(alloc),
            is_long: false,
        }
    }

    /// Takes octets of at most one frame.
    pub fn take(&mut self, octets: &[u8]) -> Result<(), AllocError> {
        let limit = self.limit as usize;
        if self.is_long || octets.len() > limit - self.frame.len().min(limit) {
            self.is_long = true;
            self.frame.clear();
            return Ok(());
        }
        self.frame.extend_from_slice(octets)?;
        Ok(())
    }

    /// What is sent in place of these messages to the frame, which has ended as this item: where the
    /// reader's machine refuses a request, with the place of that, and where the frame is no message,
    /// with the place of its fault, if it was found. The error is that memory ran out.
    pub fn end(&mut self, item: &Item, said: Vec<Message>) -> Result<Vec<Message>, AllocError>
        ensures { IfOk result (λ sent. IsSentTo item.now said.items sent.items) }
    {
        let frame = mem::replace(&mut self.frame, Vec::new(self.alloc));
        let is_long = mem::replace(&mut self.is_long, false);
        match item {
            Item::Bad { .. } => {
                let place = if is_long {
                    None
                } else {
                    fault_place(frame.as_slice())
                };
                may_place(self.alloc, place, said)
            }
            Item::Msg(message) => {
                let place = refused_place(self.alloc, message, said.as_slice())?;
                may_place(self.alloc, place, said)
            }
        }
    }
}
