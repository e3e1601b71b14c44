//! How a stream is explained.

/// What is written of a frame.
#[derive(Clone, Copy, Debug, PartialEq, Eq)]
pub enum Form {
    /// A line for each field.
    Text,
    /// One object of JSON on a line, with the same fields.
    Json,
}
