//! What --verbose says of the frames of a connection.

ghost use Rattle.std.specs.Prelude.{◌<◌, IfSome, length};

use crate::notes::{Kind as Passed, Notes, Urgency};
use llrp_listing::{Text, run_show_in};
use llrp_schema::{Kind, KindSet, msg_of_in, name};
use llrp_stream::{Front, Input, Output, front_of};
use llrp_waits::Head;
use std::alloc::{AllocError, Global};
use std::cell::Cell;

/// The most octets of a frame that is looked at.
pub const MOST_OCTETS: u32 = 1_048_576;

/// The most octets of a reader's text that are said.
const MOST_TEXT: usize = 200;

/// The number of KEEPALIVE_ACK, which is no request (LLRP 1.1, section 17).
const KEEPALIVE_ACK: u16 = 72;

/// Whether a message with this number is on AccessSpecs, and no plan waits for an answer to it: from
/// ADD_ACCESSSPEC to GET_ACCESSSPECS (LLRP 1.1, section 17).
fn is_on_access(number: u16) -> bool {
    40 <= number && number <= 44
}

/// The header of a frame.
pub fn head_of(frame: &[u8]) -> Option<Head> {
    match frame {
        [first, second, _, _, _, _, a, b, c, d, ..] => Some(Head {
            number: u16::from_be_bytes([*first, *second]) & 1_023,
            id: u32::from_be_bytes([*a, *b, *c, *d]),
        }),
        _ => None,
    }
}

/// The request that a frame is, if it is one.
pub fn request_of(frame: &[u8]) -> Option<Head> {
    let head = head_of(frame)?;
    if head.number == KEEPALIVE_ACK || is_on_access(head.number) {
        return None;
    }
    Some(head)
}

/// The name of the request.
fn request_name(request: Head) -> &'static str {
    match msg_of_in(KindSet::Standard, request.number) {
        Some(kind) => name(Kind::Message(kind)),
        None => "a request",
    }
}

/// What a listing says of a frame: the first line of a message is `0 NAME VERSION ID FIELDS`.
#[derive(Clone, Copy, Debug, PartialEq, Eq)]
struct Heading<'a> {
    name: &'a str,
    id: &'a str,
}

/// The heading of a message's listing.
fn heading_of(listing: &str) -> Option<Heading<'_>> {
    let line = listing.split('\n').next()?;
    let mut words = line.split(' ');
    if words.next()? != "0" {
        return None;
    }
    let name = words.next()?;
    let _version = words.next()?;
    Some(Heading {
        name,
        id: words.next()?,
    })
}

/// The first field of the first parameter with this name.
fn field_of<'a>(listing: &'a str, name: &str) -> Option<&'a str> {
    for line in listing.split('\n') {
        let mut words = line.split(' ');
        let _level = words.next()?;
        if words.next() == Some(name) {
            return words.next();
        }
    }
    None
}

/// What the status of a ConnectionAttemptEvent means (LLRP 1.1, section 14).
fn attempt_words(status: &str) -> &'static str {
    match status {
        "1" => "a connection that the reader began exists",
        "2" => "another client is connected",
        "3" => "for another reason",
        "4" => "another client tried to connect",
        _ => "an unknown status",
    }
}

/// The name of a status (LLRP 1.1, section 15).
fn status_name(status: &str) -> &'static str {
    match status {
        "100" => "M_ParameterError",
        "101" => "M_FieldError",
        "102" => "M_UnexpectedParameter",
        "103" => "M_MissingParameter",
        "104" => "M_DuplicateParameter",
        "105" => "M_OverflowParameter",
        "106" => "M_OverflowField",
        "107" => "M_UnknownParameter",
        "108" => "M_UnknownField",
        "109" => "M_UnsupportedMessage",
        "110" => "M_UnsupportedVersion",
        "111" => "M_UnsupportedParameter",
        "112" => "M_UnexpectedMessage",
        "200" => "P_ParameterError",
        "201" => "P_FieldError",
        "202" => "P_UnexpectedParameter",
        "203" => "P_MissingParameter",
        "204" => "P_DuplicateParameter",
        "205" => "P_OverflowParameter",
        "206" => "P_OverflowField",
        "207" => "P_UnknownParameter",
        "208" => "P_UnknownField",
        "209" => "P_UnsupportedParameter",
        "300" => "A_Invalid",
        "301" => "A_OutOfRange",
        "401" => "R_DeviceError",
        _ => "an unknown status",
    }
}

/// Says what an event of the reader is.
fn say_event(notes: &Notes<'_>, listing: &str) {
    match field_of(listing, "ConnectionAttemptEvent") {
        Some("0") => notes.say(Urgency::Info, b"the reader accepted the connection"),
        Some(status) => notes.say_all(
            Urgency::Error,
            b"the reader refused the connection: ConnectionAttemptEvent ",
            status.as_bytes(),
            b", ",
            attempt_words(status).as_bytes(),
        ),
        None => {
            notes.say(Urgency::Notice, b"an event");
            notes.say_lines(Urgency::Notice, listing.as_bytes());
        }
    }
}

/// Says what a message that is no answer is, if it is neither a report nor a KEEPALIVE.
fn say_message(notes: &Notes<'_>, heading: Heading<'_>, listing: &str) {
    match heading.name {
        "RO_ACCESS_REPORT" | "KEEPALIVE" => {}
        "READER_EVENT_NOTIFICATION" => say_event(notes, listing),
        _ => {
            if notes.say_one(Urgency::Notice, Passed::PassedOver) {
                notes.say_lines(Urgency::Notice, listing.as_bytes());
            }
        }
    }
}

/// Whether a message with this name answers a request.
fn is_answer(name: &str) -> bool {
    name == "ERROR_MESSAGE" || name.ends_with("_RESPONSE")
}

/// Whether a message with this heading answers this request.
fn answers(heading: Heading<'_>, request: Head) -> bool {
    let has_id = heading.id.parse::<u32>() == Ok(request.id);
    let named = heading.name.strip_suffix("_RESPONSE");
    has_id && (heading.name == "ERROR_MESSAGE" || named == Some(request_name(request)))
}

/// Says that an answer is not awaited.
fn say_unawaited(notes: &Notes<'_>, heading: Heading<'_>, listing: &str, pending: Option<Head>) {
    let awaited = match pending {
        Some(request) => request_name(request),
        None => "none",
    };
    notes.say_all(
        Urgency::Error,
        heading.name.as_bytes(),
        b" answers no request; pending is ",
        awaited.as_bytes(),
        b"",
    );
    notes.say_lines(Urgency::Error, listing.as_bytes());
}

/// The words of the first parameter with this name that stand after its first field.
fn tail_of<'a>(listing: &'a str, name: &str) -> Option<&'a str> {
    for line in listing.split('\n') {
        let mut words = line.split(' ');
        let _level = words.next()?;
        if words.next() == Some(name) {
            let _field = words.next()?;
            return words.next();
        }
    }
    None
}

/// The value of a hexadecimal digit.
fn digit_value(digit: u8) -> u8 {
    match digit {
        b'0'..=b'9' => digit - b'0',
        b'a'..=b'f' => digit - b'a' + 10,
        _ => 0,
    }
}

/// The text that a listing has as x and hexadecimal digits. What is not printable ASCII becomes
/// `\xHH`, and no more than the first octets are taken.
fn readable(alloc: Global, tail: &str) -> Result<Text, AllocError> {
    let mut text = Text::new(alloc);
    let digits = tail.strip_prefix('x').unwrap_or("").as_bytes();
    for pair in digits.chunks(2).take(MOST_TEXT) {
        if let [high, low] = pair {
            let octet = digit_value(*high)
                .wrapping_mul(16)
                .wrapping_add(digit_value(*low));
            if octet.is_ascii_graphic() || octet == b' ' {
                text.push_text(&[octet])?;
            } else {
                text.push_text(b"\\x")?;
                text.push_text(pair)?;
            }
        }
    }
    Ok(text)
}

/// Says the text that a reader gives to a refusal, if it gives one.
fn say_text(alloc: Global, notes: &Notes<'_>, urgency: Urgency, listing: &str) {
    let Some(tail) = tail_of(listing, "LLRPStatus") else {
        return;
    };
    if let Ok(text) = readable(alloc, tail) {
        if !text.as_slice().is_empty() {
            notes.say_all(urgency, b"  the reader says: ", text.as_slice(), b"", b"");
        }
    }
}

/// How urgent it is that a request was refused: not, where it deletes a ROSpec or an AccessSpec that need not
/// be there.
fn refusal_urgency(heading: Heading<'_>) -> Urgency {
    match heading.name {
        "DELETE_ROSPEC_RESPONSE" | "DELETE_ACCESSSPEC_RESPONSE" => Urgency::Info,
        _ => Urgency::Warning,
    }
}

/// Says that a request was refused.
fn say_refused(
    alloc: Global,
    notes: &Notes<'_>,
    heading: Heading<'_>,
    listing: &str,
    status: &str,
) {
    let urgency = refusal_urgency(heading);
    notes.say_all(
        urgency,
        b"a request was refused: status ",
        status.as_bytes(),
        b", ",
        status_name(status).as_bytes(),
    );
    say_text(alloc, notes, urgency, listing);
    notes.say_lines(urgency, listing.as_bytes());
}

/// Says an answer with another status than 0.
fn say_status(alloc: Global, notes: &Notes<'_>, heading: Heading<'_>, listing: &str) {
    match field_of(listing, "LLRPStatus") {
        Some("0") | None => {}
        Some(status) => say_refused(alloc, notes, heading, listing, status),
    }
}

/// Says what is wrong with an answer, if something is.
fn say_answer(
    alloc: Global,
    notes: &Notes<'_>,
    heading: Heading<'_>,
    listing: &str,
    pending: Option<Head>,
) {
    if !pending.is_some_and(|request| answers(heading, request)) {
        say_unawaited(notes, heading, listing, pending);
        return;
    }
    say_status(alloc, notes, heading, listing);
}

/// The listing of a frame, as `show --all` has it.
fn listing_of(alloc: Global, frame: &[u8]) -> Option<String> {
    let mut listing = Output::new(Vec::new(alloc));
    run_show_in(
        alloc,
        KindSet::Standard,
        &mut Input::new(frame),
        &mut listing,
        MOST_OCTETS,
    )
    .ok()?;
    String::from_utf8(listing.into_inner()).ok()
}

/// Says of a frame what there is to say. An answer ends the waiting for it, but not one to a message on
/// AccessSpecs that was sent beside the plan.
pub fn say_frame(
    alloc: Global,
    notes: &Notes<'_>,
    pending: &Cell<Option<Head>>,
    heeds_access: bool,
    frame: &[u8],
) {
    let Some(text) = listing_of(alloc, frame) else {
        return;
    };
    let listing = text.as_str();
    match heading_of(listing) {
        // `FaultFinder` writes notes on a frame that is no message.
        None => {}
        Some(heading) if heeds_access && heading.name.ends_with("_ACCESSSPEC_RESPONSE") => {
            say_status(alloc, notes, heading, listing);
        }
        Some(heading) if is_answer(heading.name) => {
            say_answer(alloc, notes, heading, listing, pending.get());
            pending.set(None);
        }
        Some(heading) => say_message(notes, heading, listing),
    }
}

/// The frame at the front of whole frames, and what follows it.
pub fn split_frame(frames: &[u8]) -> Option<(&[u8], &[u8])>
    ensures { IfSome result (λ parts. length parts.1.now < length frames.now) }
{
    match front_of(frames) {
        Front::Frame(count) if count as usize <= frames.len() => {
            Some(frames.split_at(count as usize))
        }
        _ => None,
    }
}
