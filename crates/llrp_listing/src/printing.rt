//! Prints what is read, line by line, straight into a text.

mod decimal;
mod fault_lines;
mod lines;
mod printer;
mod put;
mod tails;
mod text;

pub use printer::Printer;
pub use text::Text;
