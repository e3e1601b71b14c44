//! The listing of a stream of LLRP messages, the stream of a listing, and the texts of EPC words, over any source and
//! sink; the words of a line and the errors of a command, which the layer above shares.
//!
//! Use it to print what a reader sent, a line for each message and parameter, or to make a stream of such lines. [`run_show`] and
//! [`run_encode`] go from a source to a sink, in as many pieces as come; a [`Verdict`] says whether all was lawful, a [`ToolErr`]
//! what ended a run early, with the line and the reason of a refusal.
//!
//! ```
//! let verdict = list_stream(alloc, stream, &mut sink, 65_536)?;  // 0 KEEPALIVE 2 7
//! run_encode(alloc, &mut source, &mut sink, 65_536)?;            // the same stream again
//! ```
#![tactic(auto)]

mod decimal;
mod devices;
mod encode;
mod epc;
mod hex_input;
mod item_printer;
pub mod laws;
mod near;
mod outcome;
mod parse_line;
mod printing;
mod read_numbers;
mod read_tail;
mod reason;
mod show;
mod split;

pub use decimal::{number_of, signed_byte_of};
pub use devices::{MOST_READS, Pieces, READ_SIZE, hand_on, read_all, write_all};
pub use encode::in_memory::encode_listing;
pub use encode::{run_encode, run_encode_in};
pub use epc::run_epc;
pub use hex_input::{bytes_of_hex, push_hexadecimal};
pub use item_printer::ItemPrinter;
pub use outcome::{Refusal, ToolErr, Verdict, error_of};
pub use parse_line::{LONGEST_LINE, LONGEST_WHOLE_LINE};
pub use printing::{Printer, Text};
pub use reason::reason_name;
pub use show::{
    list_stream, list_stream_in, list_stream_with, run_show, run_show_in, run_show_with,
};
pub use split::split_once;
