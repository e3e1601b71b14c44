//! What reader and client ask, answer and note, in types of their own. Contracts and code share them.

use llrp_tree::{Node, Nodes};
use tag_bits::Word;

/// The state of a ROSpec (LLRP 1.1, section 11).
#[derive(Clone, Copy, Debug, PartialEq, Eq)]
pub enum RoState {
    Disabled,
    Inactive,
    Active,
}

/// One sighting of a tag.
#[derive(Clone, Copy, Debug, PartialEq, Eq)]
pub struct Sighting {
    /// The antenna that saw the tag.
    pub antenna: u16,
    /// The signal strength, in dBm.
    pub rssi: i8,
    /// The tag's EPC memory.
    pub epc: Word,
}

/// What a client asks of a reader.
#[derive(Drop)]
pub enum Command {
    /// Adds a ROSpec, which is Disabled at first.
    Add { spec: Node },
    /// Deletes the ROSpec with this id, or all if it is 0.
    Delete { id: u32 },
    /// Starts an Inactive ROSpec.
    Start { id: u32 },
    /// Stops an Active ROSpec.
    Stop { id: u32 },
    /// Enables the ROSpec with this id, or all if it is 0.
    Enable { id: u32 },
    /// Disables the ROSpec with this id, or all if it is 0.
    Disable { id: u32 },
    /// Asks for the reader's ROSpecs, to compare them with the view.
    GetRospecs,
    /// Asks for a KEEPALIVE every `ms` milliseconds, or for none if it is 0.
    SetKeepalive { ms: u32 },
    /// Asks for the reports that the reader holds.
    GetReport,
    /// Closes the connection.
    Close,
}

/// What a message of the reader means to the client.
#[derive(Drop)]
pub enum Taken {
    /// The reader accepted the connection.
    Connected,
    /// The reader refused the connection, with this status.
    Refused(u16),
    /// The response to the pending request, with this status.
    Reply(u16),
    /// Reports of tags.
    Tags(Nodes),
    /// The reader's ROSpecs, which have the ids and states of the client's view.
    Table(Nodes),
    /// The reader's ROSpecs, which do not have the ids and states of the client's view.
    Differs(Nodes),
    /// The new state of a ROSpec of the client's view.
    Event(u32, RoState),
    /// A notification of something else.
    Note,
    /// A KEEPALIVE, which was acknowledged.
    Kept,
    /// The connection is closed.
    Closed,
}

/// The state of a reader's connection.
#[derive(Clone, Copy)]
pub enum ReaderPhase {
    /// No client has connected yet.
    Waiting,
    /// A client is connected.
    Up,
    /// The connection was closed.
    Down,
}

/// The state of a client's connection.
#[derive(Clone, Copy)]
pub enum ClientPhase {
    /// The reader has not accepted it yet.
    Fresh,
    /// The reader takes requests.
    Ready,
    /// The connection was refused or closed.
    Closed,
}

/// What a request asks for, and what its response answers.
#[derive(Clone, Copy, PartialEq, Eq)]
pub enum Operation {
    /// ADD_ROSPEC
    Adding,
    /// DELETE_ROSPEC
    Deleting,
    /// START_ROSPEC
    Starting,
    /// STOP_ROSPEC
    Stopping,
    /// ENABLE_ROSPEC
    Enabling,
    /// DISABLE_ROSPEC
    Disabling,
    /// SET_READER_CONFIG
    Configuring,
    /// CLOSE_CONNECTION
    Closing,
    /// GET_ROSPECS
    Listing,
}

/// The request that waits for its response.
#[derive(Clone, Copy)]
pub struct Pending {
    /// The request's message id.
    pub id: u32,
    /// What it asks for.
    pub operation: Operation,
    /// The ROSpecID in it; 0 if it has none.
    pub rospec: u32,
}

/// A ROSpec of a client's view.
#[derive(Clone, Copy)]
pub struct Viewed {
    /// Its ROSpecID.
    pub id: u32,
    /// Its state, as far as the client knows.
    pub state: RoState,
}

/// Which parts of a TagReportData are reported (LLRP 1.1, section 14).
#[derive(Clone, Copy)]
pub struct ContentSelector {
    // (each named after the parameter that it asks for)
    pub rospec_id: bool,
    pub spec_index: bool,
    pub inventory_parameter_spec_id: bool,
    pub antenna_id: bool,
    pub channel_index: bool,
    pub peak_rssi: bool,
    pub first_seen: bool,
    pub last_seen: bool,
    pub tag_seen_count: bool,
}

/// When reports are sent, and what they hold (LLRP 1.1, section 14).
#[derive(Clone, Copy)]
pub struct ReportSpec {
    /// 0: on request only; 1 and 2: after `n` tags and at the end.
    pub trigger: u8,
    /// 0 means no number of tags.
    pub n: u16,
    /// Which parts of each tag they hold.
    pub selector: ContentSelector,
}

/// When the next KEEPALIVE is sent (LLRP 1.1, section 13).
#[derive(Clone, Copy)]
pub struct Keepalive {
    /// In milliseconds.
    pub period: u32,
    /// The moment of the next one, in microseconds.
    pub due: u64,
}
