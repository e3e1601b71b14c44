//! The lines of faulty frames and of a stream's end.

ghost use Rattle.std.specs.Prelude.{◌≡◌, ◌++◌, ◌∷◌, [], OnOk, codes, decimal};
ghost use Rattle.llrp_stream.specs.declared.item.End.TheVariants.{Broken as BrokenEnd, Rest as RestEnd};
ghost use Rattle.llrp_listing.specs.StreamListing.{frame_fault_name};
ghost use Rattle.llrp_json.specs.JsonValues.{member, string};
ghost use Rattle.llrp_json.specs.JsonLines.{end_json, fault_json};
ghost use Rattle.llrp_json.specs.JsonItems.{more_members};

use crate::values::push_string;
use llrp_listing::{Text, reason_name};
use llrp_stream::End;
use llrp_tree::{Fault, Reason};
use std::alloc::AllocError;

/// Appends what the object of a fault begins with, and the name of its reason.
fn push_reason(text: &mut Text, reason: Reason) -> Result<(), AllocError>
    ensures { OnOk result (text.new ≡ text.old
        ++ (123 ∷ member (codes "fault") (string (frame_fault_name reason)))) }
{
    text.push_text(b"{\"fault\":")?;
    push_string(text, reason_name(reason).as_bytes())
}

/// Appends the members of a faulty frame's id and of the bit of its fault.
fn push_place(text: &mut Text, id: u32, bit: u64) -> Result<(), AllocError>
    ensures { OnOk result (text.new ≡ text.old
        ++ more_members (member (codes "id") (decimal id)
        ∷ member (codes "bit") (decimal bit) ∷ [])) }
{
    text.push_text(b",\"id\":")?;
    text.push_number(id as u128)?;
    text.push_text(b",\"bit\":")?;
    text.push_number(bit as u128)
}

/// Appends the line of a faulty frame.
pub(crate) fn push_fault(text: &mut Text, id: u32, fault: Fault) -> Result<(), AllocError>
    ensures { OnOk result (text.new ≡ text.old ++ (fault_json id fault ++ 10 ∷ [])) }
{
    push_reason(text, fault.reason)?;
    push_place(text, id, fault.bit)?;
    text.push_text(b"}\n")
}

/// Appends the line of the octets after the last whole frame.
fn push_rest(text: &mut Text, octets: u64) -> Result<(), AllocError>
    ensures { OnOk result (text.new ≡ text.old ++ end_json (RestEnd octets)) }
{
    text.push_text(b"{\"rest\":")?;
    text.push_number(octets as u128)?;
    text.push_text(b"}\n")
}

/// Appends the line of a break.
fn push_broken(text: &mut Text) -> Result<(), AllocError>
    ensures { OnOk result (text.new ≡ text.old ++ end_json BrokenEnd) }
{
    text.push_text(b"{\"broken\":true}\n")
}

/// Appends the line of a stream's end, if it has one.
pub(crate) fn push_end(text: &mut Text, end: End) -> Result<(), AllocError>
    ensures { OnOk result (text.new ≡ text.old ++ end_json end) }
{
    match end {
        End::Clean => Ok(()),
        End::Dead => Ok(()),
        End::Rest(octets) => push_rest(text, octets),
        End::Broken => push_broken(text),
    }
}
