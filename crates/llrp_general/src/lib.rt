//! A simulated reader of the whole standard that acts by a script, over bytes.
//!
//! Use it to test a general client against a reader ([`run_serve_whole`]), over any transport: it begins with requests outside the
//! profile, agrees on a version, and sends parameters of the whole standard. What is done for each frame is what
//! [`llrp_live::LiveReader`] does; time moves only by the entries of the [`llrp_endpoints::Script`]. [`Located`] puts the place where a
//! frame or a request is refused into the LLRPStatus of what is sent. Where other clients may come meanwhile, which are refused, the client
//! that is served hears of each ([`run_serve_among`]).
//!
//! ```
//! let script = Script::parse(alloc, b"3 1000 seen 1 -60 urn:epc:tag:gid-96:1.2.3\n")?;
//! let core = Reader::new(alloc, 65_536, 1);
//! let (outcome, left) = run_serve_whole(alloc, core, script, Answers::new(alloc), &mut source, &mut sink);
//! ```
#![tactic(auto)]

mod acting;
mod frames;
pub mod laws;
mod located;
mod others;
mod serve;
mod serving;

pub use located::Located;
pub use others::{Nobody, OtherClients};
pub use serve::{run_serve_among, run_serve_whole};
