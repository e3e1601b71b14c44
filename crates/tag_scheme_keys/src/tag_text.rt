//! The tag URIs that texts of other forms come from and go to.

ghost use Rattle.std.specs.Prelude.{◌≡◌, ℕ, List, ◌+◌, ◌<◌, ◌≤◌, ◌++◌, length, IfOk, IfErr};
ghost use Rattle.std.specs.List.{join_with_byte};
ghost use Rattle.tag_uri.specs.TagText.{tag_start};
ghost use Rattle.tag_schemes.specs.LawfulWord.{IsLawful};
ghost use Rattle.tag_schemes.specs.Texts.{components_in, text_in, HasFaultIn};
ghost use Rattle.tag_scheme_keys.specs.KeyFaults.{with_filter_in};

use arrayvec::ArrayString;
use tag_schemes::{Numbers, Scheme, SchemeFault, numbers_of, word_in_all};
use tag_uri::UriFault;

/// The filter value and a dot in front of other components.
pub(crate) fn with_filter(filter: u8, rest: &str) -> ArrayString<96>
    requires fits { filter < 8 }
    requires room { length rest.now ≤ 73 }
    ensures text { result.bytes ≡ with_filter_in filter rest.now }
    ensures len { length result.bytes ≡ length rest.now + 2 }
{
    let mut text = ArrayString::new();
    text.push(char::from(b'0' + filter));
    text.push_str(".");
    text.push_str(rest);
    text
}

/// The tag URI of a scheme with these components.
fn tag_of(scheme: Scheme, components: &str) -> ArrayString<96>
    requires room { length components.now ≤ 75 }
    ensures { result.bytes ≡ tag_start ++ text_in scheme components.now }
{
    let mut text = ArrayString::new();
    text.push_str("urn:epc:tag:");
    text.push_str(scheme.name());
    text.push_str(":");
    text.push_str(components);
    text
}

/// The numbers of the EPC whose tag URI has these components, or the first rule that refuses them.
pub(crate) fn numbers_with(scheme: Scheme, components: &str) -> Result<Numbers, UriFault>
    requires room { length components.now ≤ 75 }
    ensures lawful { IfOk result (λ n. IsLawful n) }
    ensures scheme { IfOk result (λ n. n.scheme ≡ scheme) }
    ensures ok { IfOk result (λ n. components.now ≡ join_with_byte 46 (components_in n)) }
    ensures err { IfErr result (λ f. HasFaultIn scheme components.now f) }
{
    let text = tag_of(scheme, components);
    match word_in_all(text.as_str()) {
        Ok(word) => match numbers_of(word) {
            Some(numbers) => Ok(numbers),
            None => unreachable!(),
        },
        Err(SchemeFault::Tag(fault)) => Err(fault),
        Err(SchemeFault::Long) => unreachable!(),
        Err(SchemeFault::Code) => unreachable!(),
    }
}
