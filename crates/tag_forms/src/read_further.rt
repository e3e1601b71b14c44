//! Reads the words of texts that begin as those of further schemes, beside tag URIs.

ghost use Rattle.std.specs.Prelude.{◌<◌, List, ℕ, IfErr, IfOk, IfSome};
ghost use Rattle.std.specs.Int.{IsInRange};
ghost use Rattle.tag_scheme_keys.specs.SupplierIdentity.{BeginsAsSupplierId};
ghost use Rattle.tag_forms.specs.FurtherFaults.{RefusesFurther, RefusesFurtherId, RefusesFurtherKey};
ghost use Rattle.tag_forms.specs.FurtherForms.{BeginsFurther, BeginsFurtherId, BeginsFurtherKey, ReadsFurther, ReadsFurtherId, ReadsFurtherKey};
ghost use Rattle.tag_forms.specs.Private.Reading.{ReadsOrRefuses};

use crate::all_forms::AllFault;
use crate::fault::FormFault;
use crate::form::Form;
use tag_bits::Word;
use tag_keys::Spelling;
use tag_scheme_keys::{
    from_company_in, id_in_front, parse_id_in, parse_key_in, parse_supplier_id,
    supplier_id_in_front,
};
use tag_schemes::{word_of, word_of_supplier};

/// The word of a text that begins as a pure identity URI of a further scheme with a company prefix.
fn word_of_id(text: &str, filter: u8) -> Result<Word, AllFault>
    requires filter { filter < 8 }
    requires begins { BeginsFurtherId text.now }
    ensures ok { IfOk result (λ word. ReadsFurtherId filter text.now word) }
    ensures err { IfErr result (λ fault. RefusesFurtherId filter text.now fault) }
{
    match parse_id_in(text, filter) {
        Ok(epc) => Ok(word_of(epc)),
        Err(fault) => Err(AllFault::Form(FormFault::Key(fault))),
    }
}

/// The word of a text that begins as a pure identity URI of USDoD-96.
fn word_of_supplier_id(text: &str, filter: u8) -> Result<Word, AllFault>
    requires filter { filter < 8 }
    requires begins { (rest : List ℕ) × BeginsAsSupplierId text.now rest }
    ensures ok { IfOk result (λ word. ReadsFurtherId filter text.now word) }
    ensures err { IfErr result (λ fault. RefusesFurtherId filter text.now fault) }
{
    match parse_supplier_id(text, filter) {
        Ok(epc) => Ok(word_of_supplier(epc)),
        Err(fault) => Err(AllFault::Supplier(fault)),
    }
}

/// The word of a text that begins as a pure identity URI of a further scheme.
fn read_id(text: &str, filter: u8) -> Option<Result<Word, AllFault>>
    requires { filter < 8 }
    ensures { ReadsOrRefuses (BeginsFurther Form.Pure text.now) (ReadsFurtherId filter text.now)
        (RefusesFurtherId filter text.now) result }
{
    if let Some(_) = id_in_front(text) {
        return Some(word_of_id(text, filter));
    }
    match supplier_id_in_front(text) {
        Some(_) => Some(word_of_supplier_id(text, filter)),
        None => None,
    }
}

/// The word of a text that begins as the key of a further scheme.
fn word_of_key(
    text: &str,
    spelling: Spelling,
    filter: u8,
    company_digits: Option<u8>,
) -> Result<Word, AllFault>
    requires filter { filter < 8 }
    requires digits { IfSome company_digits (λ count. IsInRange 6 12 count) }
    requires begins { BeginsFurtherKey spelling text.now }
    ensures ok { IfOk result (λ word. ReadsFurtherKey spelling filter company_digits text.now word) }
    ensures err { IfErr result (λ fault. RefusesFurtherKey spelling filter company_digits text.now
        fault) }
{
    let Some(count) = company_digits else {
        return match parse_key_in(text, spelling, filter, 7) {
            Ok(_) => Err(AllFault::Form(FormFault::Prefix)),
            Err(fault) => Err(AllFault::Form(FormFault::Key(fault))),
        };
    };
    match parse_key_in(text, spelling, filter, count) {
        Ok(epc) => Ok(word_of(epc)),
        Err(fault) => Err(AllFault::Form(FormFault::Key(fault))),
    }
}

/// The word of a text if it begins as the key of a further scheme.
fn read_key(
    text: &str,
    spelling: Spelling,
    filter: u8,
    company_digits: Option<u8>,
) -> Option<Result<Word, AllFault>>
    requires filter { filter < 8 }
    requires digits { IfSome company_digits (λ count. IsInRange 6 12 count) }
    ensures { ReadsOrRefuses (BeginsFurtherKey spelling text.now)
        (ReadsFurtherKey spelling filter company_digits text.now)
        (RefusesFurtherKey spelling filter company_digits text.now) result }
{
    match from_company_in(text, spelling) {
        Some(_) => Some(word_of_key(text, spelling, filter, company_digits)),
        None => None,
    }
}

/// The word of a text in a form, beside the tag form, or the first rule that refuses the text; `None` if the text does not begin as
/// one of a further scheme.
pub(crate) fn read_further(
    text: &str,
    form: Form,
    filter: u8,
    company_digits: Option<u8>,
) -> Option<Result<Word, AllFault>>
    requires filter { filter < 8 }
    requires digits { IfSome company_digits (λ count. IsInRange 6 12 count) }
    ensures { ReadsOrRefuses (BeginsFurther form text.now)
        (ReadsFurther form filter company_digits text.now)
        (RefusesFurther form filter company_digits text.now) result }
{
    match form {
        Form::Pure => read_id(text, filter),
        Form::Element => read_key(text, Spelling::Element, filter, company_digits),
        Form::Link => read_key(text, Spelling::Link, filter, company_digits),
        Form::Key => read_key(text, Spelling::Named, filter, company_digits),
        Form::Tag | Form::Hex => None,
    }
}
