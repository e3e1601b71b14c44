//! Status codes (LLRP 1.1, section 15).

ghost use Rattle.std.specs.Prelude.{◌≡◌};
ghost use Rattle.llrp_session.specs.ReaderMachine.{fault_status as the_fault_status};

use llrp_tree::Reason;

/// M_Success.
pub(crate) const SUCCESS: u16 = 0;

/// M_ParameterError.
pub(crate) const PARAMETER_ERROR: u16 = 100;

/// M_FieldError.
pub(crate) const FIELD_ERROR: u16 = 101;

/// M_UnsupportedMessage.
pub(crate) const UNSUPPORTED_MESSAGE: u16 = 109;

/// M_UnsupportedVersion.
const UNSUPPORTED_VERSION: u16 = 110;

/// The status that answers a faulty frame, by the reason of its fault.
pub(crate) fn fault_status(reason: Reason) -> u16
    ensures { result ≡ the_fault_status reason }
{
    match reason {
        Reason::Version => UNSUPPORTED_VERSION,
        Reason::MessageType => UNSUPPORTED_MESSAGE,
        Reason::Reserved | Reason::Value | Reason::Count | Reason::Utf8 => FIELD_ERROR,
        _ => PARAMETER_ERROR,
    }
}
