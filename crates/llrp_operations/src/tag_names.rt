//! How lines name a tag.

ghost use Rattle.std.specs.Prelude.{◌≡◌, ◌++◌, IfOk, MatchOption, OnOk};
ghost use Rattle.llrp_operations.specs.Calls.TagNames.{HasNoUri, IsTagName, IsUri, digits_name};

use arrayvec::ArrayString;
use llrp_listing::Text;
use std::alloc::{AllocError, Global};
use tag_bits::Word;
use tag_epc::Epc;
use tag_uri::print;

/// The tag URI of an EPC of 96 bits, if it has one.
fn uri_of(epc: &[u8]) -> Option<ArrayString<64>>
    ensures { MatchOption result (HasNoUri epc.now) (λ uri. IsUri epc.now uri.bytes) }
{
    if epc.len() != 12 {
        return None;
    }
    let mut octets = [0u8; 12];
    octets.copy_from_slice(epc);
    match Epc::from_word(Word::of_bytes(octets)) {
        Ok(epc) => Some(print(&epc)),
        Err(_) => None,
    }
}

/// Appends the digits of an EPC, or a dash where there is none.
fn push_digits(text: &mut Text, epc: &[u8]) -> Result<(), AllocError>
    ensures { OnOk result (text.new ≡ text.old ++ digits_name epc.now) }
{
    if epc.is_empty() {
        text.push_text(b"-")
    } else {
        text.push_hexadecimal(epc)
    }
}

/// The name of the tag with this EPC: its tag URI if it has one, else its hexadecimal digits, and a dash for an
/// EPC of no octets.
pub fn tag_name(alloc: Global, epc: &[u8]) -> Result<Text, AllocError>
    ensures { IfOk result (IsTagName epc.now) }
{
    let mut text = Text::new(alloc);
    match uri_of(epc) {
        Some(uri) => text.push_text(uri.as_bytes())?,
        None => push_digits(&mut text, epc)?,
    }
    Ok(text)
}
