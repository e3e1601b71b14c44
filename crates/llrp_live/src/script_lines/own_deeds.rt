//! What a line in real time says beside what a script says of a reader.

ghost use Rattle.std.specs.Prelude.{◌≡◌, ◌++◌, IfSome, Ok, codes, take};
ghost use Rattle.hex.specs.Hex.{decode_of};
ghost use Rattle.llrp_live.specs.Calls.Lines.{IsDeed, IsSideEvent};

use super::tags::rounds_of;
use super::time_of;
use crate::lines::{Deed, MOST_OCTETS, ShortOctets};
use llrp_listing::{number_of, split_once};
use llrp_schema::{KindSet, msg_with_name_in};
use llrp_session::SideEvent;

/// The greatest number of octets that `cut` leaves of a message.
const MOST_CUT: u64 = 1_000_000_000;

/// What happens to an antenna or an input, such as `antenna 2 off`.
fn side_event_of(text: &[u8]) -> Option<SideEvent>
    ensures { IfSome result (λ event. IsSideEvent event text.now) }
{
    let (word, rest) = split_once(text, b' ')?;
    let (digits, state) = split_once(rest, b' ')?;
    let number = number_of(digits, 65_535)? as u16;
    if word == b"antenna".as_slice() && state == b"off".as_slice() {
        return Some(SideEvent::AntennaOff { number });
    }
    if word == b"antenna".as_slice() && state == b"on".as_slice() {
        return Some(SideEvent::AntennaOn { number });
    }
    if word == b"gpi".as_slice() && state == b"low".as_slice() {
        return Some(SideEvent::InputLow { port: number });
    }
    if word == b"gpi".as_slice() && state == b"high".as_slice() {
        return Some(SideEvent::InputHigh { port: number });
    }
    None
}

/// The message that is expected, such as `SET_READER_CONFIG within 2s`.
fn expectation_of(text: &[u8]) -> Option<Deed>
    ensures { IfSome result (λ deed. IsDeed deed (codes "expect " ++ text.now)) }
{
    let (name, rest) = split_once(text, b' ')?;
    let kind = msg_with_name_in(KindSet::Standard, name)?;
    let wait = time_of(rest.strip_prefix(b"within ".as_slice())?)?;
    Some(Deed::Expect { kind, wait })
}

/// A few octets in hexadecimal digits of either case.
fn octets_of(digits: &[u8]) -> Option<ShortOctets>
    ensures { IfSome result (λ short. decode_of digits.now ≡ Ok (take short.count short.octets)) }
{
    let count = digits.len() / 2;
    if count > MOST_OCTETS {
        return None;
    }
    let mut octets = [0; MOST_OCTETS];
    match hex::decode_to_slice(digits, &mut octets[..count]) {
        Ok(()) => Some(ShortOctets { octets, count }),
        Err(_) => None,
    }
}

/// The octets of a text.
pub(super) fn short_of(text: &[u8]) -> Option<ShortOctets>
    ensures { IfSome result (λ short. take short.count short.octets ≡ text.now) }
{
    let count = text.len();
    if count > MOST_OCTETS {
        return None;
    }
    let mut octets = [0; MOST_OCTETS];
    octets[..count].copy_from_slice(text);
    Some(ShortOctets { octets, count })
}

/// The status of the reader's next message of a kind, such as `101 ADD_ROSPEC_RESPONSE no room`, of
/// which the text may be left out.
fn status_of(words: &[u8]) -> Option<Deed>
    ensures { IfSome result (λ deed. IsDeed deed (codes "status " ++ words.now)) }
{
    let (digits, rest) = split_once(words, b' ')?;
    let (name, text) = match split_once(rest, b' ') {
        Some(parts) => parts,
        None => return bare_status_of(digits, rest),
    };
    let status = number_of(digits, 65_535)? as u16;
    let kind = msg_with_name_in(KindSet::Standard, name)?;
    let text = short_of(text)?;
    Some(Deed::Status { kind, status, text })
}

/// The same without a text.
fn bare_status_of(digits: &[u8], name: &[u8]) -> Option<Deed>
    ensures { IfSome result (λ deed. IsDeed deed
        (codes "status " ++ (digits.now ++ (codes " " ++ name.now)))) }
{
    let status = number_of(digits, 65_535)? as u16;
    let kind = msg_with_name_in(KindSet::Standard, name)?;
    let text = ShortOctets {
        octets: [0; MOST_OCTETS],
        count: 0,
    };
    Some(Deed::Status { kind, status, text })
}

/// What happens by a line with a moment, unless it is the action of a script.
pub(crate) fn own_deed_of(text: &[u8]) -> Option<Deed>
    ensures { IfSome result (λ deed. IsDeed deed text.now) }
{
    if text == b"close".as_slice() {
        return Some(Deed::Close);
    }
    if text == b"send".as_slice() {
        return Some(Deed::Send);
    }
    if let Some(words) = text.strip_prefix(b"seen ".as_slice()) {
        return Some(Deed::Tags(rounds_of(words)?));
    }
    if let Some(time) = text.strip_prefix(b"silent ".as_slice()) {
        let wait = time_of(time)?;
        return Some(Deed::Silent { wait });
    }
    if let Some(rest) = text.strip_prefix(b"expect ".as_slice()) {
        return expectation_of(rest);
    }
    if let Some(digits) = text.strip_prefix(b"octets ".as_slice()) {
        return Some(Deed::Octets(octets_of(digits)?));
    }
    if let Some(words) = text.strip_prefix(b"status ".as_slice()) {
        return status_of(words);
    }
    if let Some(digits) = text.strip_prefix(b"cut ".as_slice()) {
        let count = number_of(digits, MOST_CUT)?;
        return Some(Deed::Cut { count });
    }
    Some(Deed::Side(side_event_of(text)?))
}
