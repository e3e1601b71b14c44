//! The text of a frame that has a fault.

ghost use Rattle.std.specs.Prelude.{◌≡◌, ◌++◌, ◌≤◌, ◌<◌, ℕ, Bool, List, [], IfOk, OnOk, false, codes, length};
ghost use Rattle.tag_bits.specs.Digits.{digits_of_bytes};
ghost use Rattle.llrp_tree.specs.declared.TheConstants.{HEADER_OCTETS, MAX_LIMIT};
ghost use Rattle.llrp_stream.specs.Cuts.{IsFrame, length_field};
ghost use Rattle.llrp_stream.specs.Calls.Frames.{IsRefused};
ghost use Rattle.llrp_explain.specs.Calls.Explained.{fault_text};
ghost use Rattle.llrp_explain.specs.Calls.HeaderFaults.{header_sentence};
ghost use Rattle.llrp_explain.specs.Calls.Printing.{IsRefusal};
ghost use Rattle.llrp_explain.specs.Private.Printing.{IsGiven, IsOutcomeText, IsRefusedText};

use crate::printer::FramePrinter;
use crate::push::push_digits;
use crate::refusals::push_place;
use crate::refused::{header_count, push_header, push_heading};
use crate::sentences::{push_not_zero, set_words};
use llrp_schema::KindSet;
use llrp_stream::Outcome;
use llrp_tree::numbers::from_bit;
use llrp_tree::{Fault, HEADER_OCTETS, Reason};
use std::alloc::AllocError;

/// Appends what is wrong in a header.
#[tactic(auto, unfolding(crate::specs::Calls::HeaderFaults::header_sentence))]
fn push_header_sentence(
    text: &mut Vec<u8>,
    set: KindSet,
    limit: u32,
    reason: Reason,
    header: &[u8],
) -> Result<(), AllocError>
    requires { HEADER_OCTETS ≤ length header.now }
    ensures { OnOk result ((later : List Bool) → text.new.items ≡ text.old.items
        ++ header_sentence set limit reason (digits_of_bytes header.now ++ later)) }
{
    match reason {
        Reason::Version => {
            text.extend_from_slice(b"Version: ")?;
            push_digits(text, from_bit(header, 3, 3))?;
            text.extend_from_slice(b", not 1 or 2")
        }
        Reason::MessageType => {
            text.extend_from_slice(b"MessageType: ")?;
            push_digits(text, from_bit(header, 6, 10))?;
            text.extend_from_slice(b" is of no message of ")?;
            text.extend_from_slice(set_words(set).as_bytes())
        }
        Reason::MessageLength => {
            text.extend_from_slice(b"MessageLength: ")?;
            push_digits(text, from_bit(header, 16, 32))?;
            text.extend_from_slice(b" octets, the limit is ")?;
            push_digits(text, limit as u128)
        }
        _ => push_not_zero(text, 3, from_bit(header, 0, 3)),
    }
}

/// Appends the words before the lines of what is refused, if there are any.
fn push_heading_of(text: &mut Vec<u8>, count: usize) -> Result<(), AllocError>
    ensures some { OnOk result (0 < count → text.new.items ≡ text.old.items
        ++ codes "then, refused:\n") }
    ensures none { OnOk result (count ≡ 0 → text.new.items ≡ text.old.items) }
{
    if count == 0 {
        return Ok(());
    }
    push_heading(text)
}

/// Appends the text of a fault in a header.
fn push_faulty_header(
    text: &mut Vec<u8>,
    set: KindSet,
    limit: u32,
    fault: Fault,
    header: &[u8],
) -> Result<(), AllocError>
    requires { HEADER_OCTETS ≤ length header.now }
    ensures { OnOk result ((later : List Bool) → text.new.items ≡ text.old.items
        ++ fault_text set limit [] fault.bit fault.reason (digits_of_bytes header.now ++ later)) }
{
    let count = header_count(fault.reason);
    push_heading_of(text, count)?;
    push_header(text, header, count)?;
    push_place(text, fault.bit)?;
    push_header_sentence(text, set, limit, fault.reason, header)?;
    text.extend_from_slice(b"\n")
}

/// Appends the text of a faulty frame, of which a printer received what is before its fault.
fn push_fault(
    text: &mut Vec<u8>,
    set: KindSet,
    limit: u32,
    fault: Fault,
    printer: &FramePrinter,
) -> Result<(), AllocError>
    requires most { limit ≤ MAX_LIMIT }
    requires kept { printer.now.failed ≡ false }
    requires refused { (frame : List ℕ) × IsRefused (IsRefusal printer.now) set limit frame fault
        × (length_field frame ≡ length frame) }
    ensures { OnOk result ((frame : List ℕ) → IsRefused (IsRefusal printer.now) set limit frame fault
        → length_field frame ≡ length frame
        → IsRefusedText set limit frame fault.bit fault.reason text.old.items text.new.items) }
{
    if printer.of_header {
        return push_faulty_header(text, set, limit, fault, printer.tail.as_slice());
    }
    text.extend_from_slice(printer.lines.text.as_slice())?;
    text.extend_from_slice(printer.refused.as_slice())
}

/// Appends the text of a frame, which a printer received. Returns whether it spells a message.
pub(crate) fn push_outcome(
    text: &mut Vec<u8>,
    set: KindSet,
    limit: u32,
    outcome: Outcome,
    printer: &FramePrinter,
) -> Result<bool, AllocError>
    requires most { limit ≤ MAX_LIMIT }
    requires some { (frame : List ℕ) × IsGiven printer.now set limit frame outcome × IsFrame frame }
    ensures { IfOk result (λ this. (frame : List ℕ) → IsGiven printer.now set limit frame outcome
        → IsFrame frame → IsOutcomeText set limit frame text.old.items text.new.items this) }
{
    match outcome {
        Outcome::Whole => {
            text.extend_from_slice(printer.lines.text.as_slice())?;
            Ok(true)
        }
        Outcome::Bad { fault, .. } => {
            if printer.failed {
                return Err(AllocError);
            }
            push_fault(text, set, limit, fault, printer)?;
            Ok(false)
        }
    }
}
