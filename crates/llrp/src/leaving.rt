//! How a connection of `watch` ends.

use crate::access::{Access, deletions};
use crate::deadline::Deadline;
use crate::farewell::leave;
use crate::notes::{Notes, Urgency};
use crate::powered::Stopped;
use crate::waiting::Waiting;
use llrp_listing::{Text, ToolErr};
use std::alloc::Global;
use std::net::TcpStream;

/// Whether the reader gave or took nothing more.
fn is_lost(outcome: Result<(), Stopped>, has_failed: bool) -> bool {
    match outcome {
        Err(Stopped::Run(ToolErr::Read)) => true,
        Err(Stopped::Run(ToolErr::Write)) => !has_failed,
        _ => false,
    }
}

/// What a connection of `watch` goes over.
#[derive(Clone, Copy)]
pub struct Connection<'a> {
    pub stream: &'a TcpStream,
    pub waiting: &'a Waiting<'a>,
    pub deadline: &'a Deadline,
}

/// Whether the client ended a run while the connection stands: the lines of tags could not be
/// written, a request was refused, something strange came, or the reader has no power that low.
fn is_the_clients_end(outcome: Result<(), Stopped>, failed: bool) -> bool {
    match outcome {
        Err(Stopped::Run(ToolErr::Write)) => failed,
        Err(Stopped::Run(ToolErr::Peer(_) | ToolErr::Strange) | Stopped::Power(_)) => true,
        _ => false,
    }
}

/// How a connection ended.
#[derive(Clone, Copy)]
pub struct Parting {
    pub outcome: Result<(), Stopped>,
    /// The reader closed the connection after all that was said last.
    pub is_left: bool,
}

/// Leaves the reader if the client ends the connection, where printing failed or for another reason, or if its
/// time is up and the plan did not come to its end. A client that does not know this, since nothing came, ends
/// as its plan would, if the reader then closes the connection.
pub fn leave_after(
    rt: &HostRuntime,
    connection: Connection<'_>,
    access: Option<&Access>,
    outcome: Result<(), Stopped>,
    has_failed: bool,
    id: u32,
) -> Parting {
    let deadline = connection.deadline;
    let is_late = is_lost(outcome, has_failed) && deadline.is_up(rt);
    if !is_late && !is_the_clients_end(outcome, has_failed) {
        return Parting {
            outcome,
            is_left: false,
        };
    }
    let is_missed = is_late && deadline.is_missed(rt);
    let before = deletions(rt.alloc(), access);
    let left = deadline.left_to_leave(rt);
    let is_left = leave(rt, connection.stream, left, before.as_slice(), is_late, id);
    Parting {
        outcome: if is_left && is_missed {
            Ok(())
        } else {
            outcome
        },
        is_left,
    }
}

/// Says that the reader may still have the ROSpec with this id.
pub fn say_left(alloc: Global, warnings: &Notes<'_>, id: u32) {
    let mut number = Text::new(alloc);
    if number.push_number(id as u128).is_ok() {
        warnings.say_all(
            Urgency::Warning,
            b"the ROSpec ",
            number.as_slice(),
            b" may still be active on the reader; llrp stop deletes it",
            b"",
        );
    }
}
