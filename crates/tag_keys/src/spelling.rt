//! How a key is spelled.

/// How the text of a key is written.
#[derive(Clone, Copy, PartialEq, Eq, Debug)]
pub enum Spelling {
    /// As an element string in the form that people read, as `(01)80614141123458(21)6789`.
    Element,
    /// As a Digital Link URI, as `https://id.gs1.org/01/80614141123458/21/6789`.
    Link,
    /// By its name with the serial number apart, as `gtin 80614141123458 6789`; this form is the project's own.
    Named,
}
