//! The header of a message, and which message answers which.

ghost use Rattle.std.specs.Prelude.{◌≡◌};
ghost use Rattle.llrp_waits.specs.Calls.Heads.{answer_number, answers, is_awaited, is_report};

/// What the header of a message says of it (LLRP 1.1, section 17.1).
#[derive(Clone, Copy, Debug, PartialEq, Eq)]
pub struct Head {
    /// The number of its type.
    pub number: u16,
    pub id: u32,
}

/// CLOSE_CONNECTION, and its response.
const CLOSING: u16 = 14;

const CLOSED: u16 = 4;

/// GET_REPORT, and RO_ACCESS_REPORT, which answers it.
const ASKING: u16 = 60;

const REPORT: u16 = 61;

/// ERROR_MESSAGE, which may answer any request.
const ERROR: u16 = 100;

/// The number of the message that answers one with this number, if one is awaited.
fn answer_number(number: u16) -> Option<u16>
    ensures { result ≡ answer_number number }
{
    match number {
        1..=3 | 20..=26 | 46..=47 => Some(number + 10),
        CLOSING => Some(CLOSED),
        ASKING => Some(REPORT),
        _ => None,
    }
}

impl Head {
    /// Whether a response to it is awaited: to none of the messages on AccessSpecs, which are sent beside a
    /// client's plan, and to none that has no response.
    pub fn is_awaited(self) -> bool
        ensures { result ≡ is_awaited self }
    {
        answer_number(self.number).is_some()
    }

    /// Whether it is a report: RO_ACCESS_REPORT.
    pub fn is_report(self) -> bool
        ensures { result ≡ is_report self }
    {
        self.number == REPORT
    }

    /// Whether a message with this header answers a request: it has the number of the response and the
    /// request's id, as an ERROR_MESSAGE may have; a report has an id of its own.
    pub fn answers(self, request: Head) -> bool
        ensures { result ≡ answers request self }
    {
        let is_its = self.id == request.id;
        if self.is_report() {
            return request.number == ASKING;
        }
        is_its && (self.number == ERROR || answer_number(request.number) == Some(self.number))
    }
}
