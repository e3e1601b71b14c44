//! The serial number of a key.

ghost use Rattle.std.specs.Prelude.{◌≡◌, ℕ, List, IfSome, IfNone, MatchOption, ◌++◌};
ghost use Rattle.tag_keys.specs.KeyText.{serial_text, is_zero as zero};
ghost use Rattle.tag_keys.specs.KeyFaults.{AreSerials, IsNumber};
ghost use Rattle.tag_keys.specs.Private.Forms.{serial_in};
ghost use Rattle.tag_keys.specs.Private.Pieces.{one_text};

use crate::digits::is_number;
use crate::form::Serial;

/// The serial number that the text after a check digit gives, `None` in it if there is none.
pub(crate) fn read_serial<'a>(text: &'a str, form: Serial) -> Option<Option<&'a str>>
    ensures some { IfSome result (λ x. AreSerials (serial_in form) (one_text x)) }
    ensures written { IfSome result (λ x. text.now ≡ serial_text (serial_in form) (one_text x)) }
    ensures none { IfNone result ((serials : List (List ℕ)) → AreSerials (serial_in form) serials
        → text.now ≡ serial_text (serial_in form) serials → ⊥) }
{
    match form {
        Serial::Absent => { if text.is_empty() { Some(None) } else { None } }
        Serial::Joined => {
            if is_number(text) {
                Some(Some(text))
            } else {
                None
            }
        }
        Serial::Marked(mark) => {
            let serial = marked(text, mark)?;
            Some(Some(serial))
        }
        Serial::MarkedUnlessZero(mark) => {
            if text.is_empty() {
                return Some(Some("0"));
            }
            let serial = marked(text, mark)?;
            if is_zero(serial) {
                return None;
            }
            Some(Some(serial))
        }
    }
}

/// The number after a mark.
fn marked<'a>(text: &'a str, mark: &str) -> Option<&'a str>
    ensures number { IfSome result (λ x. IsNumber x.now) }
    ensures written { IfSome result (λ x. text.now ≡ mark.now ++ x.now) }
    ensures none { IfNone result ((x : List ℕ) → IsNumber x → text.now ≡ mark.now ++ x → ⊥) }
{
    let Some(serial) = text.strip_prefix(mark) else {
        return None;
    };
    if is_number(serial) {
        Some(serial)
    } else {
        None
    }
}

/// Whether a text is the digit 0.
pub(crate) fn is_zero(text: &str) -> bool
    ensures { result ≡ zero text.now }
{
    text.len() == 1 && text.as_bytes()[0] == b'0'
}
