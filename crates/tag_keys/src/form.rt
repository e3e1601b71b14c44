//! The forms of keys.

ghost use Rattle.std.specs.Prelude.{◌≡◌, Some, None, MatchOption};
ghost use Rattle.tag_keys.specs.declared.spelling.Spelling.TheVariants.{Element, Link, Named};
ghost use Rattle.tag_keys.specs.KeyText.{key_form};
ghost use Rattle.tag_keys.specs.Private.Forms.{form_in};

use crate::spelling::Spelling;
use tag_epc::Kind;

/// How a key's serial number is written.
#[derive(Clone, Copy)]
pub(crate) enum Serial {
    /// Not at all.
    Absent,
    /// After the check digit.
    Joined,
    /// After a mark.
    Marked(&'static str),
    /// After a mark unless it is 0.
    MarkedUnlessZero(&'static str),
}

/// What the text of a key is made of.
#[derive(Clone, Copy)]
pub(crate) struct Form {
    /// What it begins with.
    pub(crate) start: &'static str,
    /// How many digits of the reference come before the company prefix.
    pub(crate) lead: usize,
    /// How many digits it has, with its check digit.
    pub(crate) digits: usize,
    /// Its serial number.
    pub(crate) serial: Serial,
}

/// The form of the key of a scheme, as it is spelled.
pub(crate) fn form_of(spelling: Spelling, kind: Kind) -> Option<Form>
    ensures { MatchOption result (key_form spelling kind ≡ None) (λ x. key_form spelling kind
        ≡ Some (form_in x)) }
{
    match spelling {
        Spelling::Element => element_form(kind),
        Spelling::Link => link_form(kind),
        Spelling::Named => named_form(kind),
    }
}

/// The form of an element string.
fn element_form(kind: Kind) -> Option<Form>
    ensures { MatchOption result (key_form Element kind ≡ None) (λ x. key_form Element kind
        ≡ Some (form_in x)) }
{
    match kind {
        Kind::Sgtin => Some(Form {
            start: "(01)",
            lead: 1,
            digits: 14,
            serial: Serial::Marked("(21)"),
        }),
        Kind::Sscc => Some(Form {
            start: "(00)",
            lead: 1,
            digits: 18,
            serial: Serial::Absent,
        }),
        Kind::Sgln => Some(Form {
            start: "(414)",
            lead: 0,
            digits: 13,
            serial: Serial::MarkedUnlessZero("(254)"),
        }),
        Kind::Grai => Some(Form {
            start: "(8003)0",
            lead: 0,
            digits: 13,
            serial: Serial::Joined,
        }),
        Kind::Gdti => Some(Form {
            start: "(253)",
            lead: 0,
            digits: 13,
            serial: Serial::Joined,
        }),
        Kind::Gsrn => Some(Form {
            start: "(8018)",
            lead: 0,
            digits: 18,
            serial: Serial::Absent,
        }),
        Kind::Gid => None,
    }
}

/// The form of a Digital Link URI.
fn link_form(kind: Kind) -> Option<Form>
    ensures { MatchOption result (key_form Link kind ≡ None) (λ x. key_form Link kind
        ≡ Some (form_in x)) }
{
    match kind {
        Kind::Sgtin => Some(Form {
            start: "https://id.gs1.org/01/",
            lead: 1,
            digits: 14,
            serial: Serial::Marked("/21/"),
        }),
        Kind::Sscc => Some(Form {
            start: "https://id.gs1.org/00/",
            lead: 1,
            digits: 18,
            serial: Serial::Absent,
        }),
        Kind::Sgln => Some(Form {
            start: "https://id.gs1.org/414/",
            lead: 0,
            digits: 13,
            serial: Serial::MarkedUnlessZero("/254/"),
        }),
        Kind::Grai => Some(Form {
            start: "https://id.gs1.org/8003/0",
            lead: 0,
            digits: 13,
            serial: Serial::Joined,
        }),
        Kind::Gdti => Some(Form {
            start: "https://id.gs1.org/253/",
            lead: 0,
            digits: 13,
            serial: Serial::Joined,
        }),
        Kind::Gsrn => Some(Form {
            start: "https://id.gs1.org/8018/",
            lead: 0,
            digits: 18,
            serial: Serial::Absent,
        }),
        Kind::Gid => None,
    }
}

/// The form of a key by its name.
fn named_form(kind: Kind) -> Option<Form>
    ensures { MatchOption result (key_form Named kind ≡ None) (λ x. key_form Named kind
        ≡ Some (form_in x)) }
{
    match kind {
        Kind::Sgtin => Some(Form {
            start: "gtin ",
            lead: 1,
            digits: 14,
            serial: Serial::Marked(" "),
        }),
        Kind::Sscc => Some(Form {
            start: "sscc ",
            lead: 1,
            digits: 18,
            serial: Serial::Absent,
        }),
        Kind::Sgln => Some(Form {
            start: "gln ",
            lead: 0,
            digits: 13,
            serial: Serial::MarkedUnlessZero(" "),
        }),
        Kind::Grai => Some(Form {
            start: "grai ",
            lead: 0,
            digits: 13,
            serial: Serial::Marked(" "),
        }),
        Kind::Gdti => Some(Form {
            start: "gdti ",
            lead: 0,
            digits: 13,
            serial: Serial::Marked(" "),
        }),
        Kind::Gsrn => Some(Form {
            start: "gsrn ",
            lead: 0,
            digits: 18,
            serial: Serial::Absent,
        }),
        Kind::Gid => None,
    }
}
