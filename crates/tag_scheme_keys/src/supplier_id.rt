//! The pure identity URI of a USDoD-96, and what one is read as.

ghost use Rattle.std.specs.Prelude.{◌≡◌, ℕ, List, ◌<◌, ◌≤◌, ◌++◌, Ok, IfErr, IfNone, IfOk, IfSome, codes, drop, length};
ghost use Rattle.std.specs.List.{join_with_byte};
ghost use Rattle.tag_uri.specs.TagText.{tag_start};
ghost use Rattle.tag_schemes.specs.declared.supplier.Supplier.{Supplier};
ghost use Rattle.tag_schemes.specs.Suppliers.{supplier_components, supplier_text, IsSupplier};
ghost use Rattle.tag_schemes.specs.SupplierRules.{HasSupplierTextFault};
ghost use Rattle.tag_scheme_keys.specs.SupplierIdentity.{supplier_id_uri, BeginsAsSupplierId, HasSupplierIdFault};

use crate::components::first_of;
use crate::supplier_fault::SupplierFault;
use arrayvec::ArrayString;
use tag_schemes::{SchemeFault, Supplier, print_supplier, supplier_of, word_in_all};

/// The pure identity URI of a lawful USDoD-96, as `urn:epc:id:usdod:2S194.12345678901` (EPC Tag Data Standard 1.13, section 6). It
/// takes no memory; no such URI is longer than 72 octets.
pub fn print_supplier_id(epc: Supplier) -> ArrayString<72>
    requires { IsSupplier epc }
    ensures { result.bytes ≡ supplier_id_uri epc }
{
    let tag = print_supplier(epc);
    let Some(components) = tag.as_str().strip_prefix("urn:epc:tag:usdod-96:") else {
        unreachable!()
    };
    let (_, rest) = first_of(components);
    let mut text = ArrayString::new();
    text.push_str("urn:epc:id:usdod:");
    text.push_str(rest);
    text
}

/// What follows the start of a text that begins as a pure identity URI of USDoD-96.
pub fn supplier_id_in_front<'a>(text: &'a str) -> Option<&'a str>
    ensures some { IfSome result (λ rest. BeginsAsSupplierId text.now rest.now) }
    ensures none { IfNone result ((rest : List ℕ) → BeginsAsSupplierId text.now rest → ⊥) }
{
    match text.strip_prefix("urn:epc:id:usdod:") {
        Some(rest) => Some(rest),
        None => None,
    }
}

/// The tag URI with the filter value 0 and these components after it.
fn tag_with_zero(rest: &str) -> ArrayString<96>
    requires room { length rest.now ≤ 72 }
    ensures text { result.bytes ≡ tag_start ++ supplier_text (codes "0." ++ rest.now) }
    ensures short { length result.bytes ≤ 96 }
{
    let mut text = ArrayString::new();
    text.push_str("urn:epc:tag:usdod-96:0.");
    text.push_str(rest);
    text
}

/// The numbers of that tag URI, or the first rule that refuses it.
fn supplier_with_zero(rest: &str) -> Result<Supplier, SchemeFault>
    requires room { length rest.now ≤ 72 }
    ensures lawful { IfOk result (λ n. IsSupplier n) }
    ensures ok { IfOk result (λ n. rest.now ≡ join_with_byte 46 (drop 1 (supplier_components n))) }
    ensures err { IfErr result (λ f. HasSupplierTextFault (codes "0." ++ rest.now) f) }
{
    let text = tag_with_zero(rest);
    match word_in_all(text.as_str()) {
        Ok(word) => match supplier_of(word) {
            Some(epc) => Ok(epc),
            None => unreachable!(),
        },
        Err(fault) => Err(fault),
    }
}

/// The numbers of the USDoD-96 with this filter value that has a pure identity URI, or the first rule that refuses the text (EPC Tag
/// Data Standard 1.13, section 6).
pub fn parse_supplier_id(text: &str, filter: u8) -> Result<Supplier, SupplierFault>
    requires { filter < 16 }
    ensures lawful { IfOk result (λ epc. IsSupplier epc) }
    ensures ok { IfOk result (λ epc. (text.now ≡ supplier_id_uri epc) × (epc.filter ≡ filter)) }
    ensures accepts { (epc : Supplier) → IsSupplier epc → epc.filter ≡ filter
        → text.now ≡ supplier_id_uri epc → result ≡ Ok epc }
    ensures err { IfErr result (λ fault. HasSupplierIdFault text.now fault) }
{
    match read_supplier_id(text, filter) {
        Ok(epc) => Ok(epc),
        Err(fault) => Err(fault),
    }
}

/// Those numbers, or the first rule that refuses the text.
fn read_supplier_id(text: &str, filter: u8) -> Result<Supplier, SupplierFault>
    requires { filter < 16 }
    ensures lawful { IfOk result (λ epc. IsSupplier epc) }
    ensures ok { IfOk result (λ epc. (text.now ≡ supplier_id_uri epc) × (epc.filter ≡ filter)) }
    ensures err { IfErr result (λ fault. HasSupplierIdFault text.now fault) }
{
    if text.len() > 72 {
        return Err(SupplierFault::Long);
    }
    let Some(rest) = supplier_id_in_front(text) else {
        return Err(SupplierFault::Start);
    };
    match supplier_with_zero(rest) {
        Ok(epc) => Ok(Supplier { filter, ..epc }),
        Err(fault) => Err(SupplierFault::Tag(fault)),
    }
}
