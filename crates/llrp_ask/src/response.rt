//! What a client waits for after a message.

ghost use Rattle.std.specs.Prelude.{◌≡◌};
ghost use Rattle.llrp_ask.specs.Calls.Responses.{awaited as the_awaited, response_to};

use crate::step::Wait;
use llrp_schema::MsgKind;
use llrp_tree::Message;

/// The kind of the message that responds to one of this kind, if one does.
pub(crate) fn response_to(kind: MsgKind) -> Option<MsgKind>
    ensures { result ≡ response_to kind }
{
    Some(match kind {
        MsgKind::WholeGetReaderCapabilities => MsgKind::WholeGetReaderCapabilitiesResponse,
        MsgKind::WholeGetReaderConfig => MsgKind::WholeGetReaderConfigResponse,
        MsgKind::WholeSetReaderConfig => MsgKind::WholeSetReaderConfigResponse,
        MsgKind::WholeCloseConnection => MsgKind::WholeCloseConnectionResponse,
        MsgKind::WholeAddRoSpec => MsgKind::WholeAddRoSpecResponse,
        MsgKind::WholeDeleteRoSpec => MsgKind::WholeDeleteRoSpecResponse,
        MsgKind::WholeStartRoSpec => MsgKind::WholeStartRoSpecResponse,
        MsgKind::WholeStopRoSpec => MsgKind::WholeStopRoSpecResponse,
        MsgKind::WholeEnableRoSpec => MsgKind::WholeEnableRoSpecResponse,
        MsgKind::WholeDisableRoSpec => MsgKind::WholeDisableRoSpecResponse,
        MsgKind::WholeGetRoSpecs => MsgKind::WholeGetRoSpecsResponse,
        MsgKind::WholeAddAccessSpec => MsgKind::WholeAddAccessSpecResponse,
        MsgKind::WholeDeleteAccessSpec => MsgKind::WholeDeleteAccessSpecResponse,
        MsgKind::WholeEnableAccessSpec => MsgKind::WholeEnableAccessSpecResponse,
        MsgKind::WholeDisableAccessSpec => MsgKind::WholeDisableAccessSpecResponse,
        MsgKind::WholeGetAccessSpecs => MsgKind::WholeGetAccessSpecsResponse,
        MsgKind::WholeClientRequestOp => MsgKind::WholeClientRequestOpResponse,
        MsgKind::WholeGetSupportedVersion => MsgKind::WholeGetSupportedVersionResponse,
        MsgKind::WholeSetProtocolVersion => MsgKind::WholeSetProtocolVersionResponse,
        MsgKind::WholeCustomMessage => MsgKind::WholeCustomMessage,
        _ => return None,
    })
}

/// What a client waits for after it sent a message.
pub(crate) fn awaited(message: &Message) -> Option<Wait>
    ensures { result ≡ the_awaited message.now }
{
    let kind = response_to(message.kind())?;
    Some(Wait::Answer {
        kind,
        id: message.id(),
    })
}
