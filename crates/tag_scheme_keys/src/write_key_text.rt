//! Writes the texts of keys.

ghost use Rattle.std.specs.Prelude.{◌≡◌};
ghost use Rattle.tag_schemes.specs.LawfulWord.{IsLawful};
ghost use Rattle.tag_scheme_keys.specs.KeyText.{key_in};

use crate::asset::push_asset;
use crate::coupon::push_coupon;
use crate::key_start::key_start;
use crate::part::push_part;
use crate::service::push_service;
use arrayvec::ArrayString;
use tag_keys::Spelling;
use tag_schemes::{Numbers, Scheme};

/// The text of the GS1 key of a lawful EPC of a further scheme, as `(8004)06141415678` (EPC Tag Data
/// Standard 1.13, section 7). It takes no memory; no such text is longer than 72 octets.
pub fn print_key_in(epc: Numbers, spelling: Spelling) -> ArrayString<72>
    requires { IsLawful epc }
    ensures { result.bytes ≡ key_in spelling epc }
{
    let mut text = ArrayString::new();
    text.push_str(key_start(spelling, epc.scheme));
    match epc.scheme {
        Scheme::Giai => push_asset(&mut text, spelling, epc),
        Scheme::Gsrnp => push_service(&mut text, spelling, epc),
        Scheme::Sgcn => push_coupon(&mut text, spelling, epc),
        Scheme::Cpi => push_part(&mut text, spelling, epc),
    }
    text
}
