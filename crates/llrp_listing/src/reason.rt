//! The names of the reasons of faults.

ghost use Rattle.std.specs.Prelude.{◌≡◌, ◌≤◌, length};
ghost use Rattle.llrp_listing.specs.StreamListing.{frame_fault_name};

use llrp_tree::Reason;

/// The name of the reason of a fault, as a listing has it.
#[tactic(auto, unfolding(crate::specs::StreamListing::frame_fault_name))]
pub fn reason_name(reason: Reason) -> &'static str
    ensures name { result.now ≡ frame_fault_name reason }
    ensures few { length result.now ≤ 16 }
{
    match reason {
        Reason::Reserved => "Reserved",
        Reason::Version => "Version",
        Reason::MessageType => "MessageType",
        Reason::MessageLength => "MessageLength",
        Reason::Short => "Short",
        Reason::Value => "Value",
        Reason::Count => "Count",
        Reason::Utf8 => "Utf8",
        Reason::ParamType => "ParamType",
        Reason::Misplaced => "Misplaced",
        Reason::TooMany => "TooMany",
        Reason::TooDeep => "TooDeep",
        Reason::ParamLength => "ParamLength",
        Reason::Extra => "Extra",
        Reason::Missing => "Missing",
    }
}
