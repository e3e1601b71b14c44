//! Frames: a stream is cut by their length fields (LLRP 1.1, section 17.1).

ghost use Rattle.std.specs.Prelude.{◌≡◌, ◌<◌, ◌≤◌, IfNone, IfSome, drop, length};
ghost use Rattle.llrp_stream.specs.Cuts.{Breaks, IsPartial, length_field};
ghost use Rattle.llrp_c.specs.declared.status.Status.TheVariants.{Broken, Done};
ghost use Rattle.llrp_c.specs.Private.Frames.{AreFrames, IsFirst, IsLeft};
ghost use Rattle.llrp_c.specs.Status.{code_of};

use crate::status::Status;
use llrp_stream::{Front, front_of};

/// Writes the length of the first frame of a stream, in octets, to `count`; 0 if the stream is too
/// short to say.
#[unsafe(no_mangle)]
pub extern "C" fn llrp_frame_length(stream: &[u8], count: &mut usize) -> u32
    ensures short { length stream.now < 6 → (result ≡ code_of Done) × (count.new ≡ 0) }
    ensures known { 6 ≤ length stream.now → 10 ≤ length_field stream.now
        → (result ≡ code_of Done) × (count.new ≡ length_field stream.now) }
    ensures broken { Breaks stream.now → (result ≡ code_of Broken) × (count.new ≡ 0) }
{
    *count = 0;
    match front_of(stream) {
        Front::Short => Status::Done.code(),
        Front::Broken => Status::Broken.code(),
        Front::Frame(octets) => {
            *count = octets as usize;
            Status::Done.code()
        }
    }
}

/// The whole frames of a stream.
#[derive(Clone, Copy)]
pub(crate) struct WholeFrames {
    /// How many octets they are.
    pub(crate) octets: usize,
    /// Whether a length field below 10 follows them.
    pub(crate) broken: bool,
}

/// Finds the whole frames at the front of a stream.
pub(crate) fn whole_frames(stream: &[u8]) -> WholeFrames
    ensures frames { AreFrames stream.now result.octets }
    ensures left { IsLeft result.broken (drop result.octets stream.now) }
{
    let mut octets = 0;
    let broken = loop {
        let rest = &stream[octets..];
        match front_of(rest) {
            Front::Short => break false,
            Front::Broken => break true,
            Front::Frame(more) if rest.len() < more as usize => break false,
            Front::Frame(more) => octets += more as usize,
        }
    };
    WholeFrames { octets, broken }
}

/// Finds the first frame of a stream, or that the stream breaks there; `None` if less than a frame is there.
pub(crate) fn first_frame(stream: &[u8]) -> Option<WholeFrames>
    ensures found { IfSome result (λ first. IsFirst stream.now first.octets first.broken) }
    ensures none { IfNone result (IsPartial stream.now) }
{
    match front_of(stream) {
        Front::Short => None,
        Front::Broken => Some(WholeFrames {
            octets: 0,
            broken: true,
        }),
        Front::Frame(octets) if stream.len() < octets as usize => None,
        Front::Frame(octets) => Some(WholeFrames {
            octets: octets as usize,
            broken: false,
        }),
    }
}
