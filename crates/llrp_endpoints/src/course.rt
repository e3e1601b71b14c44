//! The words of a course, which is how far a client is that follows a plan: the steps of a plan, what is awaited, and how it ends.
//! Contracts and code share them.

use llrp_listing::ToolErr;
use llrp_session::Command;

/// A step of a plan.
#[derive(Drop)]
pub enum Step {
    /// A command is sent.
    Send(Command),
    /// Nothing is sent, and a report with at least one tag is awaited.
    AwaitTags,
}

/// What has to come before the next step is taken.
#[derive(Clone, Copy, Debug, PartialEq, Eq)]
pub enum Awaits {
    /// The reader's acceptance of the connection, or its response to a command.
    Answer,
    /// A report with at least one tag.
    TaggedReport,
    /// A report.
    Report,
    /// The end of the connection.
    End,
}

/// How far the plan is followed.
#[derive(Clone, Copy, Debug, PartialEq, Eq)]
pub enum Phase {
    /// It takes bytes.
    Open,
    /// The connection was closed as planned.
    Closed,
    /// It ended with this error.
    Failed(ToolErr),
}
