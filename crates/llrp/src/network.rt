//! What the commands over sockets share: how they end.

ghost use Rattle.llrp.specs.Calls.Network.{Concludes};
ghost use Rattle.llrp_stream.specs.Calls.Device.{CanWrite};

use llrp_commands::answer;
use llrp_files::FAILED;
use llrp_listing::{ToolErr, write_all};
use llrp_stream::Sink;

/// The id of the first message that a simulated reader starts itself.
pub const FIRST_ID: u32 = 1;

/// The exit status of a command that ended like this, after its error, if it has one, was written
/// to `e` as a line. `None` means that the network failed.
pub fn conclude<E: Sink>(outcome: Option<Result<(), ToolErr>>, e: &mut E) -> Result<u8, ToolErr>
    requires { CanWrite (E.log e.old) }
    ensures { Concludes outcome (E.log e.old) (E.log e.new) result }
{
    match outcome {
        Some(Ok(())) => Ok(0),
        Some(Err(error)) => answer(Err(error), e),
        None => {
            write_all(e, b"llrp: network\n")?;
            Ok(FAILED)
        }
    }
}
