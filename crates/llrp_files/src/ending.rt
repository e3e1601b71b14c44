//! How a run ends that failed.

ghost use Rattle.llrp_files.specs.Calls.Ending.{EndsWithoutMemory};
ghost use Rattle.llrp_stream.specs.Device.{IsFreshSink};

use llrp_commands::answer;
use llrp_listing::ToolErr;
use llrp_stream::Sink;

/// The exit status if the network, a device or memory failed.
pub const FAILED: u8 = 3;

/// Writes the error line of memory that ran out to `e`, and returns the exit status, which is the
/// same if that write fails.
pub fn end_without_memory<E: Sink>(e: &mut E) -> u8
    requires { IsFreshSink (E.log e.old) }
    ensures { EndsWithoutMemory (E.log e.old) (E.log e.new) result }
{
    match answer(Err(ToolErr::Memory), e) {
        Ok(status) => status,
        Err(_) => FAILED,
    }
}
