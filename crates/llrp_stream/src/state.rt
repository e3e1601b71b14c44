//! How far a frame is read.

ghost use Rattle.std.specs.Prelude.{◌≡◌, ◌<◌, [], length};
ghost use Rattle.llrp_stream.specs.declared.state.State.TheVariants as State;

use crate::header::FaultyHeader;

/// How far a frame is read.
#[derive(Clone, Copy)]
pub(crate) enum State {
    /// No frame has begun.
    Between,
    /// Some octets of the header came, which are kept.
    Header,
    /// The whole header came and passed its checks, and perhaps octets after it; no fault is
    /// decided yet.
    Reading { id: u32 },
    /// `count` octets came, which have a fault and are not kept.
    Skipping { count: u32, header: FaultyHeader },
    /// A length field was below 10.
    Broken,
    /// Memory ran out.
    Dead,
}

/// The state after these octets of a header.
#[inline(always)]
pub(crate) fn before_body(octets: &[u8]) -> State
    ensures none { octets.now ≡ [] → result ≡ State.Between }
    ensures some { 0 < length octets.now → result ≡ State.Header }
{
    if octets.is_empty() {
        State::Between
    } else {
        State::Header
    }
}
