//! What GET_READER_CAPABILITIES_RESPONSE says of transmitting.

ghost use Rattle.std.specs.Prelude.{◌≡◌, IfOk, min, slice_index};
ghost use Rattle.llrp_tree.specs.Tree.{trees};
ghost use Rattle.llrp_power.specs.Calls.Capabilities as capabilities;
ghost use Rattle.llrp_power.specs.Calls.Entries.{entry_within as the_entry};

use crate::entries::{PowerEntry, entry_within, least_level};
use llrp_schema::{Kind, number};
use llrp_tree::{Message, Node, ParamKind};
use std::alloc::{AllocError, Global};

/// The fields of an RFTransmitter, by their names (LLRP 1.1, section 16).
#[derive(Clone, Copy, Debug, PartialEq, Eq)]
pub struct Transmitter {
    pub hop_table_id: u16,
    pub channel_index: u16,
    pub transmit_power: u16,
}

/// What a reader offers to a client that wants a power.
#[derive(Clone, Copy, Debug, PartialEq, Eq)]
pub enum Offer {
    /// A power that is not above it.
    Transmits(Transmitter),
    /// Nothing: the least that it has is this level, which is above it. `None` means that it names no
    /// power at all.
    TooLow(Option<u16>),
}

/// Whether a parameter is of a kind.
fn is_parameter(node: &Node, kind: ParamKind) -> bool
    ensures { result ≡ capabilities.is_parameter node.now kind }
{
    number(Kind::Parameter(node.kind())) == number(Kind::Parameter(kind))
}

/// The field of 16 bits or less at a place of a parameter.
fn word_at(node: &Node, place: usize) -> u16
    ensures { result ≡ capabilities.word_at place node.now }
{
    let field = node.fields().get(place).copied().unwrap_or(0);
    field.min(65_535) as u16
}

/// The parameters below the first one of a kind.
fn below_first(nodes: &[Node], kind: ParamKind) -> &[Node]
    ensures { result.now ≡ capabilities.below_first kind nodes.now }
{
    for node in nodes {
        if is_parameter(node, kind) {
            return node.children().as_slice();
        }
    }
    &[]
}

/// The first field of the first parameter of a kind; 0 if there is none.
fn first_word(nodes: &[Node], kind: ParamKind) -> u16
    ensures { result ≡ capabilities.first_word kind nodes.now }
{
    for node in nodes {
        if is_parameter(node, kind) {
            return word_at(node, 0);
        }
    }
    0
}

/// A signed word of 16 bits as its distance from the least one.
fn level_of(word: u16) -> u16
    ensures { result ≡ capabilities.level_of word }
{
    if word < 32_768 {
        word + 32_768
    } else {
        word - 32_768
    }
}

/// The entry that a TransmitPowerLevelTableEntry is.
fn entry_of(node: &Node) -> PowerEntry
    ensures { result ≡ capabilities.entry_of node.now }
{
    PowerEntry {
        index: word_at(node, 0),
        level: level_of(word_at(node, 1)),
    }
}

/// The entries of the power table among parameters in a row.
fn entries_in(alloc: Global, nodes: &[Node]) -> Result<Vec<PowerEntry>, AllocError>
    ensures { IfOk result (λ entries. entries.items ≡ capabilities.entries_in nodes.now) }
{
    let mut entries = Vec::new(alloc);
    for node in nodes {
        if is_parameter(node, ParamKind::WholeTransmitPowerLevelTableEntry) {
            entries.push(entry_of(node))?;
        }
    }
    Ok(entries)
}

/// The UHF band of a reader's regulatory capabilities.
fn band_of(message: &Message) -> &[Node]
    ensures { result.now ≡ capabilities.band_of message.now }
{
    let regulatory = below_first(
        message.children().as_slice(),
        ParamKind::WholeRegulatoryCapabilities,
    );
    below_first(regulatory, ParamKind::WholeUhfBandCapabilities)
}

/// The RFTransmitter with this entry of the power table, for a band.
fn transmitter_of(band: &[Node], entry: PowerEntry) -> Transmitter
    ensures { result ≡ capabilities.transmitter_of band.now entry }
{
    let hops = first_word(band, ParamKind::WholeFrequencyInformation) == 1;
    let information = below_first(band, ParamKind::WholeFrequencyInformation);
    let table = first_word(information, ParamKind::WholeFrequencyHopTable);
    if hops {
        Transmitter {
            hop_table_id: table,
            channel_index: 0,
            transmit_power: entry.index,
        }
    } else {
        Transmitter {
            hop_table_id: 0,
            channel_index: 1,
            transmit_power: entry.index,
        }
    }
}

/// What a reader with these capabilities offers to a client that wants at most this power, as a level: the
/// entry with the greatest power that is not above it; the first hop table where the reader hops, and channel
/// 1 where it does not. The message is one of the whole standard. The error is that memory ran out.
pub fn offer_in(alloc: Global, message: &Message, most: u16) -> Result<Offer, AllocError>
    ensures { IfOk result (λ offer. offer ≡ capabilities.offer_in message.now most) }
{
    let band = band_of(message);
    let entries = entries_in(alloc, band)?;
    Ok(match entry_within(entries.as_slice(), most) {
        Some(entry) => Offer::Transmits(transmitter_of(band, entry)),
        None => Offer::TooLow(least_level(entries.as_slice())),
    })
}
