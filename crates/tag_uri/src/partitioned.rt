//! The texts of EPCs with a company prefix, after the scheme's colon.

ghost use Rattle.std.specs.Prelude.{◌≡◌, ◌≢◌, if◌then◌else◌, ℕ, ◌+◌, ◌^◌, ◌<◌, ◌≤◌, not, Some, None, length, false, is_some, is_none, MatchOption, IfOk, IfErr, IfSome, IfNone};
ghost use Rattle.tag_epc.specs.Layout.{layout_of};
ghost use Rattle.tag_epc.specs.LawfulWord.{IsLawfulEpc, kind_of_parts};
ghost use Rattle.tag_uri.specs.TagText.{components, components_of, refusal, some_component, is_stray as stray, has_leading_zero as leading_zero, is_above as over};
ghost use Rattle.tag_uri.specs.Private.ComponentForms.{texts_of, forms_with, LastIs};

use crate::components::{four, three};
use crate::decimal::{number_below, number_of};
use crate::fault::UriFault;
use crate::rules::{is_no_filter, is_no_row, is_strange, is_stray, is_zero_led};
use tag_epc::scheme::Scheme;
use tag_epc::{Kind, Parts};

/// The components of a text; `None` as the last if the scheme's last segment is all zeros.
#[derive(Clone, Copy)]
pub(crate) struct Components<'a> {
    filter: &'a str,
    company: &'a str,
    reference: &'a str,
    last: Option<&'a str>,
}

/// The components of a text: three if the scheme's last segment is all zeros, four otherwise.
fn split<'a>(text: &'a str, zero_tail: bool) -> Option<Components<'a>>
    ensures some { IfSome result (λ x. components text.now ≡ texts_of x) }
    ensures last { IfSome result (λ x. is_some x.last ≡ not zero_tail) }
    ensures none { IfNone result (length (components text.now) ≢ (if zero_tail then 3 else 4)) }
{
    if zero_tail {
        let (filter, company, reference) = three(text)?;
        Some(Components {
            filter,
            company,
            reference,
            last: None,
        })
    } else {
        let (filter, company, reference, last) = four(text)?;
        Some(Components {
            filter,
            company,
            reference,
            last: Some(last),
        })
    }
}

impl Components<'_> {
    /// Whether a component has a character other than 0 to 9, or is empty although it is not the
    /// reference.
    fn has_stray(&self) -> bool
        ensures { (w : ℕ) → result ≡ some_component stray (forms_with self.now w)
            (texts_of self.now) }
    {
        let of_last = match self.last {
            Some(last) => is_stray(last),
            None => false,
        };
        is_stray(self.filter) || is_stray(self.company) || is_strange(self.reference) || of_last
    }

    /// Whether the last component has two or more digits and begins with 0.
    fn has_leading_zero(&self) -> bool
        ensures { (w : ℕ) → result ≡ some_component leading_zero (forms_with self.now w)
            (texts_of self.now) }
    {
        match self.last {
            Some(last) => is_zero_led(last),
            None => false,
        }
    }

    /// The number of the last component, if it has at most `width` bits; 0 if there is none.
    fn last_below(&self, width: u32) -> Option<u64>
        requires digits { some_component stray (forms_with self.now width)
            (texts_of self.now) ≡ false }
        requires plain { some_component leading_zero (forms_with self.now width)
            (texts_of self.now) ≡ false }
        requires narrow { width < 64 }
        ensures over { is_none result ≡ some_component over (forms_with self.now width)
            (texts_of self.now) }
        ensures last { IfSome result (λ n. LastIs self.now.last width n) }
    {
        match self.last {
            Some(last) => number_below(last, width),
            None => Some(0),
        }
    }
}

/// The parts of an EPC of a scheme with a company prefix by its components, or the first rule that refuses them.
pub(crate) fn read_partitioned<S: Scheme>(kind: Kind, text: &str) -> Result<Parts, UriFault>
    requires { layout_of kind ≡ Some S.layout }
    ensures kind { IfOk result (λ parts. kind_of_parts parts ≡ kind) }
    ensures lawful { IfOk result (λ parts. IsLawfulEpc parts) }
    ensures ok { IfOk result (λ parts. components text.now ≡ components_of parts) }
    ensures err { IfErr result (λ f. refusal (layout_of kind) (components text.now) ≡ Some f) }
{
    let Some(texts) = split(text, S::ZERO_TAIL) else {
        return Err(UriFault::Parts);
    };
    if texts.has_stray() {
        return Err(UriFault::Digit);
    }
    if texts.has_leading_zero() {
        return Err(UriFault::LeadingZero);
    }
    if is_no_filter(texts.filter) {
        return Err(UriFault::Filter);
    }
    if is_no_row::<S>(texts.company.len(), texts.reference.len()) {
        return Err(UriFault::Digits);
    }
    let Some(last) = texts.last_below(S::LAST_BITS) else {
        return Err(UriFault::Range);
    };
    Ok(Parts::Partitioned {
        kind,
        filter: number_of(texts.filter) as u8,
        company_digits: texts.company.len() as u8,
        company: number_of(texts.company),
        reference: number_of(texts.reference),
        last,
    })
}
