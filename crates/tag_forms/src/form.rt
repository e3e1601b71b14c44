//! The forms of a word's text.

ghost use Rattle.std.specs.Prelude.{◌≡◌, MatchOption};
ghost use Rattle.tag_forms.specs.declared.form.Form.{Form};
ghost use Rattle.tag_forms.specs.Forms.{form_name, form_at};

/// The forms of a word's text.
#[derive(Clone, Copy, PartialEq, Eq, Debug)]
pub enum Form {
    /// A tag URI, or the raw URI of a word that has none.
    Tag,
    /// A pure identity URI, as `urn:epc:id:sgtin:0614141.812345.6789`.
    Pure,
    /// An element string, as `(01)80614141123458(21)6789`.
    Element,
    /// A Digital Link URI, as `https://id.gs1.org/01/80614141123458/21/6789`.
    Link,
    /// 24 hexadecimal digits.
    Hex,
    /// The key by its name with the serial number apart, as `gtin 80614141123458 6789`.
    Key,
}

/// Every form, in the order of a listing.
pub const FORMS: [Form; 6] = [
    Form::Tag,
    Form::Pure,
    Form::Element,
    Form::Link,
    Form::Hex,
    Form::Key,
];

impl Form {
    /// The name of the form.
    pub fn name(self) -> &'static str
        ensures { result.now ≡ form_name self }
    {
        match self {
            Form::Tag => "tag",
            Form::Pure => "pure",
            Form::Element => "element",
            Form::Link => "link",
            Form::Hex => "hex",
            Form::Key => "key",
        }
    }
}

/// The form with this name.
pub fn form_named(name: &str) -> Option<Form>
    ensures { MatchOption result ((form : Form) → name.now ≡ form_name form → ⊥)
        (λ form. name.now ≡ form_name form) }
{
    match name {
        "tag" => Some(Form::Tag),
        "pure" => Some(Form::Pure),
        "element" => Some(Form::Element),
        "link" => Some(Form::Link),
        "hex" => Some(Form::Hex),
        "key" => Some(Form::Key),
        _ => None,
    }
}

/// The form that a text begins as; a text that begins as no other is read as hexadecimal digits.
pub fn form_of(text: &str) -> Form
    ensures { result ≡ form_at text.now }
{
    let octets = text.as_bytes();
    if octets.starts_with(b"urn:epc:id:") {
        Form::Pure
    } else if octets.starts_with(b"urn:") {
        Form::Tag
    } else if octets.starts_with(b"(") {
        Form::Element
    } else if octets.starts_with(b"http") {
        Form::Link
    } else if octets.starts_with(b"g") || octets.starts_with(b"s") || octets.starts_with(b"cpi") {
        Form::Key
    } else {
        Form::Hex
    }
}
