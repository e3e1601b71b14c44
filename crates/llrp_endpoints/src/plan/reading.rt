//! The text of a ROSpec, read from a source.

ghost use Rattle.std.specs.Prelude.{◌+◌, ◌≤◌, IfErr, IfOk, List, length, ℕ};
ghost use Rattle.llrp_stream.specs.Device.{IsFreshSource};
ghost use Rattle.llrp_listing.specs.Calls.Copying.{ReadStopped};
ghost use Rattle.llrp_endpoints.specs.Calls.ReadRoSpec.{IsEnough};

use llrp_listing::{Pieces, READ_SIZE, ToolErr};
use llrp_stream::Source;
use std::alloc::Global;

/// The greatest length of a ROSpec's text, in octets: no text that is longer has a plan, since a
/// listing has at most 2,001 for each octet of its message.
pub const LONGEST_ROSPEC_TEXT: usize = 8_388_608;

/// The text of a ROSpec that a source has, read to its end, or until it is longer than the text of any
/// plan's ROSpec. So of an endless input no more is kept.
///
/// The errors are `Read`, `Memory`, and `Bound` after the greatest number of reads.
pub fn read_rospec<R: Source>(alloc: Global, r: &mut R) -> Result<Vec<u8>, ToolErr>
    requires { IsFreshSource (R.log r.old) }
    ensures enough { IfOk result (λ text. IsEnough (R.log r.old) (R.log r.new) text.items) }
    ensures short { IfOk result (λ text. length text.items ≤ LONGEST_ROSPEC_TEXT + READ_SIZE) }
    ensures stopped { IfErr result (λ e. (text : List ℕ)
        × ReadStopped (R.log r.old) (R.log r.new) text e) }
{
    let mut text = Vec::new(alloc);
    let mut pieces = Pieces::new();
    while text.len() <= LONGEST_ROSPEC_TEXT {
        let Some(piece) = pieces.next(r)? else {
            return Ok(text);
        };
        text.extend_from_slice(piece)?;
    }
    Ok(text)
}
