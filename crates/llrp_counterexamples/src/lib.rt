//! Readers and clients with one mistake each, for which the two ends do not agree.
//!
//! Read it to see that `llrp_session::laws::ends_agree_whole` says something: each law in [`laws`] has a mistake, such as
//! a client that delivers only the first tag of a report, and says which clause of that law then fails. No crate uses it.
#![tactic(auto)]

pub mod laws;
