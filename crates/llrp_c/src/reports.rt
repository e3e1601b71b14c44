//! What a report says of its tags.

ghost use Rattle.std.specs.Prelude.{◌≡◌, ◌↔◌, IfOk, IsTrue, MatchResult, Some};
ghost use Rattle.llrp_schema.specs.declared.kinds.ParamKind.TheVariants.{WholeEpc96, WholeTagReportData};
ghost use Rattle.llrp_stream.specs.Cuts.{IsFrame};
ghost use Rattle.llrp_session.specs.Calls.ReadWords.{behind, IsOfKind};
ghost use Rattle.llrp_session.specs.RoSpec.{is_kind};
ghost use Rattle.llrp_session.specs.TagReport.{signed_octet};
ghost use Rattle.llrp_c.specs.Reports.{AreTags, HasTags, IsTag, IsWordOf, WritesTags, bit_where};
ghost use Rattle.llrp_c.specs.Private.Reports.{IsWithoutTags, PutsTags, status_of_frame};

use crate::status::Status;
use llrp_schema::KindSet;
use llrp_session::{field, first};
use llrp_stream::{Front, front_of};
use llrp_tree::{FrameErr, MAX_LIMIT, Message, Node, Nodes, ParamKind, decode_frame_in};
use std::alloc::{AllocError, Global};
use tag_bits::Word;
use tag_uri::put_text_of_word;

/// What a report says of a tag (LLRP 1.1, section 14: TagReportData). What it does not say is 0.
#[derive(Clone, Copy)]
#[repr(C)]
pub struct Tag {
    /// FirstSeenTimestampUTC, in microseconds.
    pub first_seen: u64,
    /// Which of the others the report says: the sum of 1 for `word` and `text`, 2 for `antenna`, 4 for
    /// `rssi`, 8 for `first_seen` and 16 for `count`.
    pub has: u32,
    /// AntennaID.
    pub antenna: u16,
    /// TagSeenCount.
    pub count: u16,
    /// PeakRSSI, in dBm.
    pub rssi: i8,
    /// How many octets the text has.
    pub text_length: u8,
    /// The twelve octets of the EPC-96.
    pub word: [u8; 12],
    /// The text of the word, and then zeros.
    pub text: [u8; 64],
}

/// The word of an EPC, and its text.
#[derive(Clone, Copy)]
struct Epc {
    word: [u8; 12],
    text: [u8; 64],
    length: u8,
}

/// The word of an EPC-96, and its text.
fn epc_of(epc: &Node) -> Epc
    requires { IsOfKind WholeEpc96 (Some epc.now) }
    ensures { IsWordOf (Some epc.now) result.word result.text result.length }
{
    let Some(word) = Word::new(field(ParamKind::WholeEpc96, Some(epc), 0)) else {
        unreachable!()
    };
    let mut text = [0; 64];
    let length = put_text_of_word(&mut text, 0, word) as u8;
    Epc {
        word: word.to_bytes(),
        text,
        length,
    }
}

/// The word of an EPC-96, and its text; zeros if there is none.
fn epc_in(epc: Option<&Node>) -> Epc
    requires { IsOfKind WholeEpc96 (behind epc) }
    ensures { IsWordOf (behind epc.entry) result.word result.text result.length }
{
    match epc {
        Some(epc) => epc_of(epc),
        None => Epc {
            word: [0; 12],
            text: [0; 64],
            length: 0,
        },
    }
}

/// The bit for a parameter that is there.
fn bit_where(part: Option<&Node>, bit: u32) -> u32
    ensures { result ≡ bit_where (behind part.entry) bit }
{
    if part.is_some() { bit } else { 0 }
}

/// The number that an octet is in two's complement.
fn signed(octet: u8) -> i8
    ensures { signed_octet result ≡ octet }
{
    octet.cast_signed()
}

/// What a TagReportData says.
fn tag_of(report: &Node) -> Tag
    ensures { IsTag report.now result }
{
    let parts = report.children();
    let epc = first(ParamKind::WholeEpc96, parts);
    let antenna = first(ParamKind::WholeAntennaId, parts);
    let rssi = first(ParamKind::WholePeakRssi, parts);
    let seen = first(ParamKind::WholeFirstSeenTimestampUtc, parts);
    let count = first(ParamKind::WholeTagSeenCount, parts);
    let has = bit_where(epc, 1)
        + bit_where(antenna, 2)
        + bit_where(rssi, 4)
        + bit_where(seen, 8)
        + bit_where(count, 16);
    let Epc { word, text, length } = epc_in(epc);
    Tag {
        first_seen: field(ParamKind::WholeFirstSeenTimestampUtc, seen, 0) as u64,
        has,
        antenna: field(ParamKind::WholeAntennaId, antenna, 0) as u16,
        count: field(ParamKind::WholeTagSeenCount, count, 0) as u16,
        rssi: signed(field(ParamKind::WholePeakRssi, rssi, 0) as u8),
        text_length: length,
        word,
        text,
    }
}

/// Whether a parameter is of a kind.
#[tactic(auto, using(llrp_tree::proofs::KindLemmas::same_by_number))]
fn is_kind(kind: ParamKind, node: &Node) -> bool
    ensures { result ≡ is_kind kind node.now }
{
    kind == node.kind()
}

/// What the TagReportData among these parameters say, in their order.
fn tags_of(alloc: Global, nodes: &Nodes) -> Result<Vec<Tag>, AllocError>
    ensures { IfOk result (λ tags. AreTags nodes.now tags.items) }
{
    let mut tags = Vec::new(alloc);
    for node in nodes.as_slice() {
        if is_kind(ParamKind::WholeTagReportData, node) {
            tags.push(tag_of(node))?;
        }
    }
    Ok(tags)
}

/// Whether the octets are one frame.
fn is_frame(octets: &[u8]) -> bool
    ensures { IsTrue result ↔ IsFrame octets.now }
{
    match front_of(octets) {
        Front::Frame(length) => length as usize == octets.len(),
        _ => false,
    }
}

/// The tags of a frame's message, or the status that says why there are none.
fn read_tags(alloc: Global, frame: &[u8]) -> Result<Vec<Tag>, Status>
    ensures { MatchResult result (λ tags. HasTags frame.now tags.items)
        (IsWithoutTags frame.now) }
{
    if !is_frame(frame) {
        return Err(Status::Length);
    }
    let message = match decode_frame_in(alloc, KindSet::Standard, frame, MAX_LIMIT) {
        Ok(message) => message,
        Err(error) => return Err(status_of_frame(error)),
    };
    match tags_of(alloc, message.children()) {
        Ok(tags) => Ok(tags),
        Err(_) => Err(Status::Memory),
    }
}

/// The status of a frame that is no message.
fn status_of_frame(error: FrameErr) -> Status
    ensures { result ≡ status_of_frame error }
{
    match error {
        FrameErr::Memory => Status::Memory,
        FrameErr::Bad(_) => Status::Faulty,
    }
}

/// Writes tags to the front of the room, if there is room, and returns the code of that.
fn put_tags(tags: &[Tag], room: &mut [Tag]) -> u32
    ensures { PutsTags tags.now room.old room.new result }
{
    if room.len() < tags.len() {
        return Status::Room.code();
    }
    room.split_at_mut(tags.len()).0.copy_from_slice(tags);
    Status::Done.code()
}

/// Writes what the message of a frame says of its tags to the front of `tags`, and how many they are to
/// `written`.
#[unsafe(no_mangle)]
pub extern "C" fn llrp_tags(
    alloc: Global,
    frame: &[u8],
    tags: &mut [Tag],
    written: &mut usize,
) -> u32
    ensures { WritesTags frame.now tags.old tags.new written.new result }
{
    *written = 0;
    match read_tags(alloc, frame) {
        Ok(read) => {
            *written = read.len();
            put_tags(read.as_slice(), tags)
        }
        Err(status) => status.code(),
    }
}
