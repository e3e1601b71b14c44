//! Octets of a stream, field by field.

ghost use Rattle.llrp_schema.specs.declared.kinds.KindSet.TheVariants.{Profile, Standard};
ghost use Rattle.llrp_tree.specs.declared.TheConstants.{MAX_LIMIT};
ghost use Rattle.std.specs.Prelude.{◌≡◌};
ghost use Rattle.llrp_c.specs.Calls.Explaining.{ExplainsIn};
ghost use Rattle.llrp_c.specs.Listings.{lawful_status};

use crate::room::put;
use crate::status::Status;
use llrp_explain::explain_stream;
use llrp_schema::KindSet;
use llrp_tree::MAX_LIMIT;
use std::alloc::Global;

/// The status of octets that are messages, or are not.
fn lawful_status(lawful: bool) -> Status
    ensures { result ≡ lawful_status lawful }
{
    if lawful { Status::Done } else { Status::Faulty }
}

/// The code of `llrp_explain` in a set of kinds, and what it writes.
fn explain_in(
    alloc: Global,
    set: KindSet,
    octets: &[u8],
    text: &mut [u8],
    written: &mut usize,
) -> u32
    ensures { ExplainsIn set octets.now text.old text.new written.new result }
{
    *written = 0;
    let Ok(whole) = explain_stream(alloc, set, octets, MAX_LIMIT) else {
        return Status::Memory.code();
    };
    *written = whole.text.len();
    if text.len() < whole.text.len() {
        return Status::Room.code();
    }
    put(whole.text.as_slice(), text);
    lawful_status(whole.lawful).code()
}

/// Writes to `text` what `llrp explain` prints of these octets: of each frame a line for each field, and of a
/// fault the fields before it, those that are refused and a sentence. Its length is written to `written`.
#[unsafe(no_mangle)]
pub extern "C" fn llrp_explain(
    alloc: Global,
    octets: &[u8],
    text: &mut [u8],
    written: &mut usize,
) -> u32
    ensures { ExplainsIn Profile octets.now text.old text.new written.new result }
{
    explain_in(alloc, KindSet::Profile, octets, text, written)
}

/// The same, with every message and parameter of LLRP 1.1 in place of those of the profile.
#[unsafe(no_mangle)]
pub extern "C" fn llrp_explain_all(
    alloc: Global,
    octets: &[u8],
    text: &mut [u8],
    written: &mut usize,
) -> u32
    ensures { ExplainsIn Standard octets.now text.old text.new written.new result }
{
    explain_in(alloc, KindSet::Standard, octets, text, written)
}
