//! Keys: the forms of a tag's word, and the word of a text in any of them.

ghost use Rattle.std.specs.Prelude.{◌≡◌, ◌≢◌, ◌<◌, ◌≤◌, IfErr, IfOk, IfSome, length, true, false};
ghost use Rattle.std.specs.Int.{IsInRange};
ghost use Rattle.std.specs.Str.{IsUtf8};
ghost use Rattle.llrp_c.specs.declared.status.Status.TheVariants.{Length, Uri, Utf8};
ghost use Rattle.llrp_c.specs.Keys.{ReadsInForm, WritesForms, form_status, is_count, key_status, known, right_of};
ghost use Rattle.llrp_c.specs.Private.Keys.{IsReadable, IsUnreadable, PutsLines};
ghost use Rattle.llrp_c.specs.Status.{code_of};
ghost use Rattle.tag_uri.specs.declared.fault.UriFault.TheVariants.{Filter, Digits};

use crate::room::put;
use crate::status::{KeyRule, Status};
use crate::tags::{WORD_OCTETS, word_of};
use std::alloc::Global;
use std::str;
use tag_forms::{FormFault, form_of, push_forms, word_in};
use tag_keys::KeyFault;
use tag_uri::UriFault;

/// Writes a text to the front of the room, unless that is too small, and its length to `written`.
pub(crate) fn put_lines(text: &[u8], lines: &mut [u8], written: &mut usize) -> u32
    ensures { PutsLines text.now lines.old lines.new written.new result }
{
    *written = text.len();
    if lines.len() < text.len() {
        return Status::Room.code();
    }
    put(text, lines);
    Status::Done.code()
}

/// Writes a line for each form of a tag's word to `lines`, as `epc --forms` prints them, and their length to
/// `written`.
#[unsafe(no_mangle)]
pub extern "C" fn llrp_forms(
    alloc: Global,
    word: &[u8],
    lines: &mut [u8],
    written: &mut usize,
) -> u32
    ensures forms { length word.now ≡ 12 → WritesForms word.now lines.old lines.new written.new result }
    ensures length { length word.now ≢ 12
        → (result ≡ code_of Length) × (lines.new ≡ lines.old) × (written.new ≡ 0) }
{
    *written = 0;
    if word.len() != WORD_OCTETS {
        return Status::Length.code();
    }
    let mut text = Vec::new(alloc);
    let Ok(()) = push_forms(&mut text, word_of(word)) else {
        return Status::Memory.code();
    };
    put_lines(text.as_slice(), lines, written)
}

/// The status of a rule that refuses a key.
fn key_status(fault: KeyFault) -> Status
    ensures { result ≡ key_status fault }
{
    match fault {
        KeyFault::Long => Status::Long,
        KeyFault::Start => Status::Uri(UriFault::Start),
        KeyFault::Scheme => Status::Uri(UriFault::Scheme),
        KeyFault::Length => Status::Key(KeyRule::Length),
        KeyFault::Digit => Status::Uri(UriFault::Digit),
        KeyFault::Check(_) => Status::Key(KeyRule::Check),
        KeyFault::Serial => Status::Key(KeyRule::Serial),
        KeyFault::Tag(fault) => Status::Uri(fault),
    }
}

/// The status of a rule that refuses a text in a form.
pub(crate) fn form_status(fault: FormFault) -> Status
    ensures { result ≡ form_status fault }
{
    match fault {
        FormFault::Hex => Status::Key(KeyRule::Hex),
        FormFault::Prefix => Status::Key(KeyRule::Prefix),
        FormFault::Tag(fault) => Status::Uri(fault),
        FormFault::Key(fault) => key_status(fault),
    }
}

/// The right check digit, as a character, where a wrong one refuses a text; else 0.
pub(crate) fn right_of(fault: FormFault) -> u32
    ensures { result ≡ right_of fault }
{
    match fault {
        FormFault::Key(KeyFault::Check(right)) => right as u32,
        _ => 0,
    }
}

/// Whether a number of digits is 0, for one that is not known, or one that a company prefix may have.
fn is_count(prefix_digits: u32) -> bool
    ensures { result ≡ is_count prefix_digits }
{
    prefix_digits == 0 || (prefix_digits >= 6 && prefix_digits <= 12)
}

/// The number of digits, if it is known.
pub(crate) fn known(prefix_digits: u32) -> Option<u8>
    requires { is_count prefix_digits ≡ true }
    ensures count { result ≡ known prefix_digits }
    ensures range { IfSome result (λ count. IsInRange 6 12 count) }
{
    if prefix_digits == 0 {
        None
    } else {
        Some(prefix_digits as u8)
    }
}

/// The text of a key, if it, the filter value, the number of digits and the room for the word are as they have to be;
/// else the status of the first that is not.
pub(crate) fn readable<'a>(
    text: &'a [u8],
    filter: u32,
    prefix_digits: u32,
    word: &[u8],
) -> Result<&'a str, Status>
    ensures same { IfOk result (λ read. read.now ≡ text.now) }
    ensures ok { IfOk result (λ _. IsReadable text.now filter prefix_digits word.now) }
    ensures err { IfErr result (λ status. IsUnreadable text.now filter prefix_digits word.now status) }
{
    if word.len() != WORD_OCTETS {
        return Err(Status::Length);
    }
    if filter >= 8 {
        return Err(Status::Uri(UriFault::Filter));
    }
    if !is_count(prefix_digits) {
        return Err(Status::Uri(UriFault::Digits));
    }
    match str::from_utf8(text) {
        Ok(text) => Ok(text),
        Err(_) => Err(Status::Utf8),
    }
}

/// Writes the word of a text in the form that it begins as, or returns the first rule that refuses it, with
/// the right check digit.
fn read(text: &str, filter: u8, company_digits: Option<u8>, word: &mut [u8]) -> (Status, u32)
    requires twelve { length word.old ≡ 12 }
    requires filter { filter < 8 }
    requires digits { IfSome company_digits (λ count. IsInRange 6 12 count) }
    ensures { ReadsInForm text.now filter company_digits word.old word.new result.1 result.0 }
{
    match word_in(text, form_of(text), filter, company_digits) {
        Ok(read) => {
            word.copy_from_slice(&read.to_bytes());
            (Status::Done, 0)
        }
        Err(fault) => (form_status(fault), right_of(fault)),
    }
}

/// Writes the twelve octets of the word of a text to `word`, and to `right` the right check digit where that
/// is wrong, else 0. The text is read in the form that it begins as, with this filter value and this number
/// of digits of the company prefix, 0 for one that is not known.
#[unsafe(no_mangle)]
pub extern "C" fn llrp_word_of_key(
    text: &[u8],
    filter: u32,
    prefix_digits: u32,
    word: &mut [u8],
    right: &mut u32,
) -> u32
    // The word was written, or the status is the first rule that refuses the text.
    ensures read { length word.old ≡ 12 → filter < 8 → is_count prefix_digits ≡ true → IsUtf8 text.now
        → (status : Status) × (result ≡ code_of status)
        × ReadsInForm text.now filter (known prefix_digits) word.old word.new right.new status }

    // Otherwise nothing was written.
    ensures length { length word.old ≢ 12
        → (result ≡ code_of Length) × (word.new ≡ word.old) × (right.new ≡ 0) }
    ensures filter { length word.old ≡ 12 → 8 ≤ filter
        → (result ≡ code_of (Uri Filter)) × (word.new ≡ word.old) × (right.new ≡ 0) }
    ensures digits { length word.old ≡ 12 → filter < 8 → is_count prefix_digits ≡ false
        → (result ≡ code_of (Uri Digits)) × (word.new ≡ word.old) × (right.new ≡ 0) }
    ensures utf8 { length word.old ≡ 12 → filter < 8 → is_count prefix_digits ≡ true → ¬ IsUtf8 text.now
        → (result ≡ code_of Utf8) × (word.new ≡ word.old) × (right.new ≡ 0) }
{
    *right = 0;
    match readable(text, filter, prefix_digits, word) {
        Ok(text) => {
            let (status, digit) = read(text, filter as u8, known(prefix_digits), word);
            *right = digit;
            status.code()
        }
        Err(status) => status.code(),
    }
}
