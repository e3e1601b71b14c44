//! What is said in the lines of a listing beside what they have without labels.

/// The labels of a listing.
#[derive(Clone, Copy, PartialEq, Eq, Debug)]
pub struct Labels {
    /// Whether the texts of words, and the keys of EPCs, are those of the set of all schemes.
    pub schemes: bool,
    /// Whether the keys of EPCs follow the texts of their words.
    pub keys: bool,
}
