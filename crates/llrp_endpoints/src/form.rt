//! The form of the lines of an inventory.

/// In what form tags, reports and their numbers are printed, a line each.
#[derive(Clone, Copy, Debug, PartialEq, Eq)]
pub enum LineForm {
    /// Words with a space between two.
    Words,
    /// An object of JSON (RFC 8259).
    Json,
    /// The same, with all that the reader gives of a tag, and no line but those of tags.
    Full,
    /// The words of tags, and no other line.
    Tags,
}
