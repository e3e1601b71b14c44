//! The texts of GID-96, after the scheme's colon.

ghost use Rattle.std.specs.Prelude.{◌≡◌, ℕ, ◌+◌, false, [], ◌∷◌, Some, None, is_none, IfOk, IfErr, IfSome};
ghost use Rattle.tag_epc.specs.declared.kind.Kind.TheVariants.{Gid};
ghost use Rattle.tag_epc.specs.LawfulWord.{IsLawfulEpc, kind_of_parts};
ghost use Rattle.tag_uri.specs.TagText.{components, components_of, refusal, forms_of, some_component, is_stray as stray, has_leading_zero as leading_zero, is_above as over};

use crate::components::three;
use crate::decimal::number_below;
use crate::fault::UriFault;
use crate::rules::{is_stray, is_zero_led};
use tag_epc::Parts;
use tag_epc::kind::{GID_CLASS_BITS, GID_MANAGER_BITS, GID_SERIAL_BITS};

/// The parts of an EPC of GID-96 by its components, or the first rule that refuses them.
pub(crate) fn read_general(text: &str) -> Result<Parts, UriFault>
    ensures kind { IfOk result (λ parts. kind_of_parts parts ≡ Gid) }
    ensures lawful { IfOk result (λ parts. IsLawfulEpc parts) }
    ensures ok { IfOk result (λ parts. components text.now ≡ components_of parts) }
    ensures err { IfErr result (λ f. refusal None (components text.now) ≡ Some f) }
{
    let Some((manager, object_class, serial)) = three(text) else {
        return Err(UriFault::Parts);
    };
    if have_stray(manager, object_class, serial) {
        return Err(UriFault::Digit);
    }
    if have_leading_zero(manager, object_class, serial) {
        return Err(UriFault::LeadingZero);
    }
    match parts_of(manager, object_class, serial) {
        Some(parts) => Ok(parts),
        None => Err(UriFault::Range),
    }
}

/// Whether one of the numbers is empty or has a character other than 0 to 9.
fn have_stray(manager: &str, object_class: &str, serial: &str) -> bool
    ensures { result ≡ some_component stray (forms_of None) (manager.now ∷ object_class.now
        ∷ serial.now ∷ []) }
{
    is_stray(manager) || is_stray(object_class) || is_stray(serial)
}

/// Whether one of the numbers has two or more digits and begins with 0.
fn have_leading_zero(manager: &str, object_class: &str, serial: &str) -> bool
    ensures { result ≡ some_component leading_zero (forms_of None) (manager.now ∷ object_class.now
        ∷ serial.now ∷ []) }
{
    is_zero_led(manager) || is_zero_led(object_class) || is_zero_led(serial)
}

/// The parts with these three numbers, if each has at most the bits of its segment.
fn parts_of(manager: &str, object_class: &str, serial: &str) -> Option<Parts>
    requires digits { some_component stray (forms_of None) (manager.now ∷ object_class.now
        ∷ serial.now ∷ []) ≡ false }
    requires plain { some_component leading_zero (forms_of None) (manager.now ∷ object_class.now
        ∷ serial.now ∷ []) ≡ false }
    ensures over { is_none result ≡ some_component over (forms_of None) (manager.now
        ∷ object_class.now ∷ serial.now ∷ []) }
    ensures kind { IfSome result (λ parts. kind_of_parts parts ≡ Gid) }
    ensures lawful { IfSome result (λ parts. IsLawfulEpc parts) }
    ensures ok { IfSome result (λ parts. components_of parts ≡ manager.now ∷ object_class.now
        ∷ serial.now ∷ []) }
{
    let manager = number_below(manager, GID_MANAGER_BITS)?;
    let object_class = number_below(object_class, GID_CLASS_BITS)?;
    let serial = number_below(serial, GID_SERIAL_BITS)?;
    Some(Parts::General {
        manager,
        object_class,
        serial,
    })
}
