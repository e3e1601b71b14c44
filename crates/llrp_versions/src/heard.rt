//! What a simulated reader makes of a message by its version.

ghost use Rattle.std.specs.Prelude.{◌≡◌, IfOk};
ghost use Rattle.llrp_versions.specs.Calls.Versions.{IsHeard, hear as the_hear, set as the_set, supported as the_supported};

use crate::response::response;
use crate::version::{Version, version_of};
use llrp_tree::{Message, MsgKind};
use std::alloc::{AllocError, Global};

/// What a message is where this version is in use.
#[derive(Drop)]
pub enum Heard {
    /// It is of the version in use, and about no version.
    InUse,
    /// It is of another version.
    Other,
    /// It is about versions: it has this reply, and then this version is in use.
    Answered { reply: Message, version: Version },
}

/// LLRP 1.1, the chapter on status codes: M_Success and M_UnsupportedVersion.
const SUCCESS: u16 = 0;

const UNSUPPORTED_VERSION: u16 = 110;

/// The answer to GET_SUPPORTED_VERSION.
fn supported(alloc: Global, version: Version, request: &Message) -> Result<Heard, AllocError>
    ensures { IfOk result (λ answer. IsHeard answer (the_supported version request.now)) }
{
    request.lawful();
    let greatest = Version::Second.number() as u128;
    let kind = MsgKind::WholeGetSupportedVersionResponse;
    let fields = [version.number() as u128, greatest];
    let reply = response(alloc, request, kind, &fields, SUCCESS)?;
    Ok(Heard::Answered { reply, version })
}

/// The answer to SET_PROTOCOL_VERSION.
fn set(alloc: Global, version: Version, request: &Message) -> Result<Heard, AllocError>
    ensures { IfOk result (λ answer. IsHeard answer (the_set version request.now)) }
{
    request.lawful();
    let kind = MsgKind::WholeSetProtocolVersionResponse;
    let wanted = match request.fields().first() {
        Some(number) => version_of(*number),
        None => None,
    };
    match wanted {
        Some(version) => {
            let reply = response(alloc, request, kind, &[], SUCCESS)?;
            Ok(Heard::Answered { reply, version })
        }
        None => {
            let reply = response(alloc, request, kind, &[], UNSUPPORTED_VERSION)?;
            Ok(Heard::Answered { reply, version })
        }
    }
}

/// What a message is where a version is in use. GET_SUPPORTED_VERSION and SET_PROTOCOL_VERSION are
/// answered in any version. The error is that memory ran out.
pub fn hear(alloc: Global, version: Version, message: &Message) -> Result<Heard, AllocError>
    ensures { IfOk result (λ answer. IsHeard answer (the_hear version message.now)) }
{
    match message.kind() {
        MsgKind::WholeGetSupportedVersion => supported(alloc, version, message),
        MsgKind::WholeSetProtocolVersion => set(alloc, version, message),
        _ => {
            if message.version() == version.number() {
                Ok(Heard::InUse)
            } else {
                Ok(Heard::Other)
            }
        }
    }
}
