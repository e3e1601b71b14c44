//! What is said of the frames of a connection that are no messages.

ghost use Rattle.std.specs.Prelude.{◌≡◌, ◌≤◌, [], IfOk, None, is_none, true};
ghost use Rattle.llrp_schema.specs.declared.kinds.KindSet.TheVariants.{Standard};
ghost use Rattle.llrp_stream.specs.Calls.Decoding.{StandsIn};
ghost use Rattle.llrp_words.specs.Calls.Arguments.{IsLongest};
ghost use Rattle.llrp_listing.specs.StreamListing.{fault_text};

use crate::access::refused_status;
use crate::notes::{Kind, Notes, Urgency};
use llrp_listing::{Text, reason_name};
use llrp_schema::KindSet;
use llrp_stream::{Decoder, Fed, Item};
use llrp_tree::Fault;
use std::alloc::{AllocError, Global};

/// The line of a faulty frame, as `show` has it.
fn fault_line(alloc: Global, id: u32, fault: Fault) -> Result<Text, AllocError>
    ensures { IfOk result (λ text. text ≡ fault_text id fault) }
{
    let mut text = Text::new(alloc);
    text.push_text(b"! ")?;
    text.push_number(id as u128)?;
    text.push_text(b" ")?;
    text.push_number(fault.bit as u128)?;
    text.push_text(b" ")?;
    text.push_text(reason_name(fault.reason).as_bytes())?;
    text.push_text(b"\n")?;
    Ok(text)
}

/// Says that a frame is no message, and its first fault, at most once a minute.
fn say_fault(alloc: Global, notes: &Notes<'_>, id: u32, fault: Fault) {
    if !notes.say_one(Urgency::Warning, Kind::Fault) {
        return;
    }
    if let Ok(line) = fault_line(alloc, id, fault) {
        notes.say_lines(Urgency::Warning, line.as_slice());
    }
}

/// Finds the frames that are no messages in octets that come in pieces, and writes notes on them, if notes
/// are asked for. It may also find the first message by which a reader refuses what was sent beside a plan.
#[derive(Drop)]
pub struct FaultFinder<'a> {
    alloc: Global,
    decoder: Decoder,
    notes: &'a Notes<'a>,
    /// Whether messages on AccessSpecs are sent beside the plan.
    heeds_access: bool,
    /// With which status the reader refused the first of them.
    refused: Option<u16>,
}

impl<'a> FaultFinder<'a> {
    ghost use Rattle.llrp.specs.Calls.Refusals.{HasHeard, Hears, refused_by};

    /// A finder to which no octet came. A frame of more than `limit` octets is faulty.
    pub fn new(alloc: Global, limit: u32, notes: &'a Notes<'a>) -> FaultFinder<'a>
        requires limit { IsLongest limit }
        ensures stands { StandsIn Standard result.decoder [] }
        ensures limit { result.decoder.limit ≡ limit }
        ensures refused { result.refused ≡ None }
    {
        FaultFinder {
            alloc,
            decoder: Decoder::new_in(alloc, KindSet::Standard, limit),
            notes,
            heeds_access: false,
            refused: None,
        }
    }

    /// A finder to which no octet came, for a connection with messages on AccessSpecs.
    pub fn heeding(alloc: Global, limit: u32, notes: &'a Notes<'a>) -> FaultFinder<'a>
        requires limit { IsLongest limit }
        ensures { HasHeard limit [] result }
    {
        FaultFinder {
            heeds_access: true,
            ..FaultFinder::new(alloc, limit, notes)
        }
    }

    /// Whether messages on AccessSpecs are sent beside the plan.
    pub fn heeds_access(&self) -> bool
        ensures { result ≡ self.now.heeds_access }
    {
        self.heeds_access
    }

    /// With which status the reader refused the first of them, once it did.
    pub fn refused(&self) -> Option<u16>
        ensures { result ≡ self.now.refused }
    {
        self.refused
    }

    /// Whether it takes octets: it does until a refusal came.
    fn listens(&self) -> bool
        ensures refused { self.now.heeds_access ≡ true → result ≡ is_none self.now.refused }
    {
        self.refused.is_none() && (self.heeds_access || self.notes.are_asked())
    }

    /// Writes notes on a frame that is no message, and keeps the status of a message that refuses one on
    /// AccessSpecs.
    fn hear(&mut self, item: Item)
        ensures decoder { self.new.decoder ≡ self.old.decoder }
        ensures heeds { self.new.heeds_access ≡ self.old.heeds_access }
        ensures refused { self.old.heeds_access ≡ true → self.old.refused ≡ None
            → self.new.refused ≡ refused_by item }
    {
        match item {
            Item::Msg(message) if self.heeds_access => self.refused = refused_status(&message),
            Item::Msg(_) => {}
            Item::Bad { id, fault } => say_fault(self.alloc, self.notes, id, fault),
        }
    }

    /// Takes the next piece, and writes notes on each frame that ends in it and is no message, up to the
    /// first message by which the reader refuses one on AccessSpecs, if it heeds these.
    pub fn take(&mut self, piece: &[u8])
        ensures { Hears piece.now self.old self.new }
    {
        let mut rest = piece;
        while !rest.is_empty() && self.listens() {
            let Fed { used, item } = match self.decoder.feed(rest) {
                Ok(fed) => fed,
                Err(_) => return,
            };
            let Some(item) = item else {
                return;
            };
            self.hear(item);
            rest = rest.split_at(used).1;
        }
    }
}
