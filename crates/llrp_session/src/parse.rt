//! What reader and client read in a message. It takes no memory.

pub(crate) mod find;
pub(crate) mod for_client;
pub(crate) mod for_reader;
pub(crate) mod parsed;
pub(crate) mod rospec;
pub(crate) mod stored_rospec;
