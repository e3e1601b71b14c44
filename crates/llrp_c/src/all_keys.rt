//! Keys in the set of all schemes: the forms of a tag's word, and the word of a text in any of them.

ghost use Rattle.std.specs.Prelude.{◌≡◌, ◌≢◌, ◌<◌, ◌≤◌, IfSome, length, true, false};
ghost use Rattle.std.specs.Int.{IsInRange};
ghost use Rattle.std.specs.Str.{IsUtf8};
ghost use Rattle.llrp_c.specs.declared.status.Status.TheVariants.{Length, Uri, Utf8};
ghost use Rattle.llrp_c.specs.AllKeys.{ReadsInFormInAll, WritesFormsInAll, right_in_all, status_in_all, supplier_status};
ghost use Rattle.llrp_c.specs.Keys.{is_count, known};
ghost use Rattle.llrp_c.specs.Status.{code_of};
ghost use Rattle.tag_uri.specs.declared.fault.UriFault.TheVariants.{Filter, Digits};

use crate::all_schemes::fault_status;
use crate::keys::{form_status, known, put_lines, readable, right_of};
use crate::status::Status;
use crate::tags::{WORD_OCTETS, word_of};
use std::alloc::Global;
use tag_forms::{AllFault, form_of, push_forms_in_all, read_in_all};
use tag_scheme_keys::SupplierFault;
use tag_uri::UriFault;

/// Writes a line for each form of a tag's word in the set of all schemes to `lines`, as `epc --forms --schemes all`
/// prints them, and their length to `written`.
#[unsafe(no_mangle)]
pub extern "C" fn llrp_forms_in_all(
    alloc: Global,
    word: &[u8],
    lines: &mut [u8],
    written: &mut usize,
) -> u32
    ensures forms { length word.now ≡ 12
        → WritesFormsInAll word.now lines.old lines.new written.new result }
    ensures length { length word.now ≢ 12
        → (result ≡ code_of Length) × (lines.new ≡ lines.old) × (written.new ≡ 0) }
{
    *written = 0;
    if word.len() != WORD_OCTETS {
        return Status::Length.code();
    }
    let mut text = Vec::new(alloc);
    let Ok(()) = push_forms_in_all(&mut text, word_of(word)) else {
        return Status::Memory.code();
    };
    put_lines(text.as_slice(), lines, written)
}

/// The status of a rule that refuses a pure identity URI of USDoD-96.
fn supplier_status(fault: SupplierFault) -> Status
    ensures { result ≡ supplier_status fault }
{
    match fault {
        SupplierFault::Long => Status::Long,
        SupplierFault::Start => Status::Uri(UriFault::Start),
        SupplierFault::Tag(fault) => fault_status(fault),
    }
}

/// The status of a rule that refuses a text in a form.
fn status_in_all(fault: AllFault) -> Status
    ensures { result ≡ status_in_all fault }
{
    match fault {
        AllFault::Tag(fault) => fault_status(fault),
        AllFault::Form(fault) => form_status(fault),
        AllFault::Supplier(fault) => supplier_status(fault),
    }
}

/// The right check digit, as a character, where a wrong one refuses a text; else 0.
fn right_in_all(fault: AllFault) -> u32
    ensures { result ≡ right_in_all fault }
{
    match fault {
        AllFault::Form(fault) => right_of(fault),
        _ => 0,
    }
}

/// Writes the word of a text in the form that it begins as, or returns the first rule that refuses it, with
/// the right check digit.
fn read(text: &str, filter: u8, company_digits: Option<u8>, word: &mut [u8]) -> (Status, u32)
    requires twelve { length word.old ≡ 12 }
    requires filter { filter < 8 }
    requires digits { IfSome company_digits (λ count. IsInRange 6 12 count) }
    ensures { ReadsInFormInAll text.now filter company_digits word.old word.new result.1 result.0 }
{
    match read_in_all(text, form_of(text), filter, company_digits) {
        Ok(read) => {
            word.copy_from_slice(&read.to_bytes());
            (Status::Done, 0)
        }
        Err(fault) => (status_in_all(fault), right_in_all(fault)),
    }
}

/// Writes the twelve octets of the word of a text in the set of all schemes to `word`, and to `right` the right
/// check digit where that is wrong, else 0. The text is read in the form that it begins as, with this filter value
/// and this number of digits of the company prefix, 0 for one that is not known.
#[unsafe(no_mangle)]
pub extern "C" fn llrp_word_of_key_in_all(
    text: &[u8],
    filter: u32,
    prefix_digits: u32,
    word: &mut [u8],
    right: &mut u32,
) -> u32
    // The word was written, or the status is the first rule that refuses the text.
    ensures read { length word.old ≡ 12 → filter < 8 → is_count prefix_digits ≡ true → IsUtf8 text.now
        → (status : Status) × (result ≡ code_of status)
        × ReadsInFormInAll text.now filter (known prefix_digits) word.old word.new right.new status }

    // Otherwise nothing was written.
    ensures length { length word.old ≢ 12
        → (result ≡ code_of Length) × (word.new ≡ word.old) × (right.new ≡ 0) }
    ensures filter { length word.old ≡ 12 → 8 ≤ filter
        → (result ≡ code_of (Uri Filter)) × (word.new ≡ word.old) × (right.new ≡ 0) }
    ensures digits { length word.old ≡ 12 → filter < 8 → is_count prefix_digits ≡ false
        → (result ≡ code_of (Uri Digits)) × (word.new ≡ word.old) × (right.new ≡ 0) }
    ensures utf8 { length word.old ≡ 12 → filter < 8 → is_count prefix_digits ≡ true → ¬ IsUtf8 text.now
        → (result ≡ code_of Utf8) × (word.new ≡ word.old) × (right.new ≡ 0) }
{
    *right = 0;
    match readable(text, filter, prefix_digits, word) {
        Ok(text) => {
            let (status, digit) = read(text, filter as u8, known(prefix_digits), word);
            *right = digit;
            status.code()
        }
        Err(status) => status.code(),
    }
}
