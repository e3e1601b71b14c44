//! What is odd to a client, which a client that is to last passes over.

ghost use Rattle.std.specs.Prelude.{◌≡◌};
ghost use Rattle.llrp_session.specs.Reading.{heard_of};
ghost use Rattle.llrp_endpoints.specs.Gathering.{is_other, is_pending, is_ready};

use llrp_session::{ClientPhase, Pending};
use llrp_tree::{Message, MsgKind};

/// Whether the reader has accepted the client, and the connection is up.
pub(super) fn is_ready(phase: ClientPhase) -> bool
    ensures { result ≡ is_ready phase }
{
    match phase {
        ClientPhase::Ready => true,
        ClientPhase::Fresh | ClientPhase::Closed => false,
    }
}

/// Whether a request is pending under this id.
pub(super) fn is_pending(id: u32, pending: Option<Pending>) -> bool
    ensures { result ≡ is_pending id pending }
{
    match pending {
        Some(pending) => pending.id == id,
        None => false,
    }
}

/// Whether a message is no response, and nothing that a reader says by itself.
#[tactic(auto, unfolding(llrp_session::specs::Reading::heard_of))]
pub(super) fn is_other(message: &Message) -> bool
    ensures { result ≡ is_other (heard_of message.now) }
{
    match message.kind() {
        MsgKind::AddRoSpecResponse
        | MsgKind::DeleteRoSpecResponse
        | MsgKind::StartRoSpecResponse
        | MsgKind::StopRoSpecResponse
        | MsgKind::EnableRoSpecResponse
        | MsgKind::DisableRoSpecResponse
        | MsgKind::GetRoSpecsResponse
        | MsgKind::SetReaderConfigResponse
        | MsgKind::CloseConnectionResponse
        | MsgKind::ErrorMessage
        | MsgKind::RoAccessReport
        | MsgKind::Keepalive
        | MsgKind::ReaderEventNotification => false,
        _ => true,
    }
}
