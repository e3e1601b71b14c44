//! The segments that lines of tshark say.

ghost use Rattle.std.specs.Prelude.{◌≡◌, ◌⊎◌, ℕ, List, Ok, IfErr, IfOk, MatchOption};
ghost use Rattle.hex.specs.Hex.{decode_of};
ghost use Rattle.llrp_capture.specs.declared.segment.SegmentErr.{SegmentErr};
ghost use Rattle.llrp_capture.specs.Calls.Segments.{IsFlags, IsNumber, Refuses, Says, after_x, is_digits as is_digits_text, is_time as is_time_text, sender_of as the_sender, value_of};

use crate::row::{Row, row_of};
use hex::FromHexError;
use std::alloc::Global;

/// Which side of a connection sent a segment.
#[derive(Clone, Copy, Debug, PartialEq, Eq)]
pub enum Sender {
    /// The reader, whose port is known.
    Reader,
    /// The other side.
    Client,
}

/// A TCP segment of a capture.
#[derive(Drop)]
pub struct Segment<'a> {
    /// Seconds since 1970, with a point and decimals.
    pub time: &'a str,
    /// The number of its connection in the capture.
    pub stream: u32,
    /// Which side sent it.
    pub from: Sender,
    /// The flags of its header (RFC 9293, section 3.1): FIN is 1, SYN 2, RST 4.
    pub flags: u16,
    /// Its sequence number.
    pub sequence: u32,
    /// Its octets.
    pub octets: Vec<u8>,
}

/// Why a line says no segment.
#[derive(Clone, Copy, Debug, PartialEq, Eq)]
pub enum SegmentErr {
    /// It has not eight fields.
    Fields,
    /// frame.time_epoch is not decimal digits with a point between them.
    Time,
    /// tcp.stream is not a decimal number of 32 bits.
    Stream,
    /// tcp.srcport is not a decimal number of 16 bits.
    Port,
    /// tcp.flags is not 0x and a hexadecimal number of 16 bits.
    Flags,
    /// tcp.seq is not a decimal number of 32 bits.
    Sequence,
    /// tcp.payload is not pairs of hexadecimal digits.
    Payload,
    /// Memory ran out.
    Memory,
}

/// Whether a text is digits, at least one.
fn is_digits(text: &str) -> bool
    ensures { result ≡ is_digits_text text.now }
{
    for octet in text.as_bytes() {
        if !octet.is_ascii_digit() {
            return false;
        }
    }
    !text.is_empty()
}

/// Whether a text is seconds and decimals.
fn is_time(text: &str) -> bool
    ensures { result ≡ is_time_text text.now }
{
    match text.split_once('.') {
        Some((seconds, decimals)) => is_digits(seconds) && is_digits(decimals),
        None => false,
    }
}

/// The decimal number of 32 bits that a text writes.
fn number_in(text: &str) -> Option<u32>
    ensures { MatchOption result (¬ IsNumber 10 32 text.now)
        (λ n. IsNumber 10 32 text.now × (n ≡ value_of 10 text.now)) }
{
    text.parse::<u32>().ok()
}

/// The decimal number of 16 bits that a text writes.
fn port_in(text: &str) -> Option<u16>
    ensures { MatchOption result (¬ IsNumber 10 16 text.now)
        (λ n. IsNumber 10 16 text.now × (n ≡ value_of 10 text.now)) }
{
    text.parse::<u16>().ok()
}

/// The hexadecimal number of 16 bits that a text has after 0x.
fn flags_in(text: &str) -> Option<u16>
    ensures { MatchOption result (¬ IsFlags text.now)
        (λ n. IsFlags text.now × (n ≡ value_of 16 (after_x text.now))) }
{
    match text.split_once('x') {
        Some((zero, digits)) if zero == "0" => u16::from_str_radix(digits, 16).ok(),
        _ => None,
    }
}

/// The octets that pairs of hexadecimal digits spell.
fn octets_in(alloc: Global, text: &str) -> Result<Vec<u8>, SegmentErr>
    ensures ok { IfOk result (λ octets. decode_of text.now ≡ Ok octets.items) }
    ensures err { IfErr result (λ e. (e ≡ SegmentErr.Memory) ⊎ ((e ≡ SegmentErr.Payload)
        × ((octets : List ℕ) → decode_of text.now ≡ Ok octets → ⊥))) }
{
    match hex::decode(alloc, text) {
        Ok(octets) => Ok(octets),
        Err(FromHexError::OutOfMemory) => Err(SegmentErr::Memory),
        Err(_) => Err(SegmentErr::Payload),
    }
}

/// The side whose port this is, where the reader's port is known.
fn sender_of(port: u16, source: u16) -> Sender
    ensures { result ≡ the_sender port source }
{
    if source == port {
        Sender::Reader
    } else {
        Sender::Client
    }
}

/// The segment that a line without its end says, where the reader has this port.
pub fn segment_of<'a>(alloc: Global, port: u16, line: &'a str) -> Result<Segment<'a>, SegmentErr>
    ensures says { IfOk result (Says port line.now) }
    ensures refuses { IfErr result (λ e. Refuses e line.now) }
{
    let Some(row) = row_of(line) else {
        return Err(SegmentErr::Fields);
    };
    if !is_time(row.time) {
        return Err(SegmentErr::Time);
    }
    let Some(stream) = number_in(row.stream) else {
        return Err(SegmentErr::Stream);
    };
    let Some(source) = port_in(row.port) else {
        return Err(SegmentErr::Port);
    };
    let Some(flags) = flags_in(row.flags) else {
        return Err(SegmentErr::Flags);
    };
    let Some(sequence) = number_in(row.sequence) else {
        return Err(SegmentErr::Sequence);
    };
    match octets_in(alloc, row.payload) {
        Ok(octets) => Ok(Segment {
            time: row.time,
            stream,
            from: sender_of(port, source),
            flags,
            sequence,
            octets,
        }),
        Err(error) => Err(error),
    }
}
