//! Reads a frame part by part, in whatever pieces its octets come.

mod bare;
mod body;
mod body_reader;
mod builder;
mod frame;
mod frames;
mod listener;
mod open_nodes;
mod stack;
mod tail;
mod tv_values;

pub use body_reader::Stage;
pub(crate) use builder::Builder;
pub use frames::{Came, Frames, Outcome};
pub use listener::{Listener, Stopped};
pub use stack::StackNode;
