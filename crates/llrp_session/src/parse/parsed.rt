//! What is read in a message.

use crate::types::{Operation, ReportSpec};

/// Everything that is read in a ROSpec but its antennas (LLRP 1.1, section 11).
#[derive(Clone, Copy)]
pub(crate) struct Settings {
    pub id: u32,
    /// 0 means Disabled.
    pub current_state: u8,
    /// 0: none; 1: at once; 2: periodic; 3: by a GPI.
    pub start_trigger: u8,
    /// 0: none; 1: after a duration; 2: by a GPI.
    pub stop_trigger: u8,
    /// The duration of the stop trigger, in milliseconds.
    pub duration: u32,
    /// Whether an AISpec has a stop trigger other than 0.
    pub has_ai_stop: bool,
    /// The InventoryParameterSpecID of the first AISpec's first InventoryParameterSpec.
    pub inventory: u16,
    /// Its own ROReportSpec, if it has one.
    pub report: Option<ReportSpec>,
    /// How many octets the ROSpec has.
    pub octets: u32,
}

/// A KeepaliveSpec (LLRP 1.1, section 13).
#[derive(Clone, Copy)]
pub(crate) struct KeepaliveSpec {
    /// 0: none; 1: periodic.
    pub trigger: u8,
    /// In milliseconds.
    pub period: u32,
}

/// What is read in SET_READER_CONFIG.
#[derive(Clone, Copy)]
pub(crate) struct Config {
    /// Whether the reader first goes back to the factory default.
    pub reset: bool,
    pub keepalive: Option<KeepaliveSpec>,
    pub report: Option<ReportSpec>,
}

/// What a reader reads in a message.
#[derive(Clone, Copy)]
pub(crate) enum Request {
    /// ADD_ROSPEC, with what was read in its ROSpec.
    AddRoSpec(Settings),
    DeleteRoSpec(u32),
    StartRoSpec(u32),
    StopRoSpec(u32),
    EnableRoSpec(u32),
    DisableRoSpec(u32),
    GetRoSpecs,
    SetReaderConfig(Config),
    GetReports,
    CloseConnection,
    /// KEEPALIVE_ACK, ENABLE_EVENTS_AND_REPORTS or ERROR_MESSAGE.
    NoRequest,
    /// Any other kind of message.
    Unsupported,
}

/// What is read in a ROSpecEvent.
#[derive(Clone, Copy)]
pub(crate) struct RoSpecChange {
    /// 0: it started; 1 or 2: it ended.
    pub event: u8,
    pub id: u32,
}

/// What is read in READER_EVENT_NOTIFICATION.
#[derive(Clone, Copy)]
pub(crate) struct Notification {
    /// The status of a ConnectionAttemptEvent, if there is one.
    pub attempt: Option<u16>,
    /// Whether there is a ConnectionCloseEvent.
    pub closes: bool,
    pub rospec: Option<RoSpecChange>,
}

/// What a client reads in a message.
#[derive(Clone, Copy)]
pub(crate) enum Heard {
    /// The response to an operation, with its status; ROSpecs that it lists are among the message's
    /// children.
    Response(Operation, u16),
    /// ERROR_MESSAGE, with its status.
    Error(u16),
    /// RO_ACCESS_REPORT; its TagReportData are the message's children.
    Report,
    Keepalive,
    Notified(Notification),
    /// Any other kind of message.
    Other,
}
