//! The listener that prints.

ghost use Rattle.std.specs.Prelude.{◌≡◌, []};

use crate::item_printer::ItemPrinter;
use crate::printing::tails::{push_octets, push_tail};
use crate::printing::text::Text;
use llrp_schema::{Field, Kind, MsgKind, ParamKind, Tail};
use llrp_stream::{End, Listener, Stopped};
use llrp_tree::Fault;
use std::alloc::{AllocError, Global};

/// Appends the lines of what it receives to a text, and cuts off those of a message that is given
/// up.
#[derive(Drop)]
pub struct Printer {
    text: Text,
    /// Where the text of the unfinished message begins.
    mark: usize,
}

impl Printer {
    /// A printer that has received nothing; it takes no memory.
    pub fn new(alloc: Global) -> Printer
        ensures text { result.text ≡ [] }
        ensures mark { result.mark ≡ 0 }
    {
        Printer {
            text: Text::new(alloc),
            mark: 0,
        }
    }
}

impl Listener for Printer {
    ghost use Rattle.llrp_listing.specs.MessageListing.{message_lines};
    ghost use Rattle.llrp_listing.specs.Calls.ItemPrinter.{IsMarked};
    ghost use Rattle.llrp_listing.specs.Private.OpenListing.{Begins, Opened};
    ghost use Rattle.llrp_listing.specs.Private.Printing.{AppendsLines};

    ghost begins = { λ self was t. IsMarked self.mark self.text was (Begins t) };

    ghost stands = { λ self was t. IsMarked self.mark self.text was (Opened t) };

    ghost ends = { λ self was m now. AppendsLines (message_lines m) was now };

    ghost faulty = { λ self was t octets fault. Unit {0} };

    #[inline(always)]
    fn message(
        &mut self,
        version: u8,
        kind: MsgKind,
        _octets: u32,
        id: u32,
    ) -> Result<(), AllocError> {
        self.text.push_header(version, kind, id)
    }

    #[inline(always)]
    fn parameter(&mut self, level: u8, kind: ParamKind, _stop: u32) -> Result<(), AllocError> {
        self.text.push_start(level, Kind::Parameter(kind))
    }

    #[inline(always)]
    fn field(&mut self, rule: &Field, value: u128) -> Result<(), AllocError> {
        if rule.reserved {
            return Ok(());
        }
        self.text.push_field(rule, value)
    }

    fn tail(&mut self, form: Tail) -> Result<(), AllocError> {
        push_tail(&mut self.text, form)
    }

    fn octets(&mut self, form: Tail, octets: &[u8]) -> Result<(), AllocError> {
        push_octets(&mut self.text, form, octets)
    }

    #[inline(always)]
    fn ready(&mut self) -> Result<(), AllocError> {
        self.text.push(b'\n')
    }

    #[inline(always)]
    fn value(&mut self, level: u8, kind: ParamKind, value: u128) -> Result<(), AllocError> {
        self.text.push_value_line(level, kind, value)
    }

    #[inline]
    fn close(&mut self) -> Result<(), AllocError> {
        Ok(())
    }

    #[inline]
    fn end(&mut self) -> Result<(), AllocError> {
        self.mark = self.text.len();
        Ok(())
    }

    fn fault(&mut self, _fault: Fault, _stopped: Option<Stopped>, _octets: &[u8]) {
        self.give_up();
    }

    fn give_up(&mut self) {
        self.text.truncate(self.mark);
    }
}

impl ItemPrinter for Printer {
    ghost use Rattle.llrp_listing.specs.StreamListing.{IsItemText, end_text};

    ghost is_text = { IsItemText };

    ghost text_of_end = { end_text };

    fn push_fault(&mut self, id: u32, fault: Fault) -> Result<(), AllocError> {
        self.text.push_fault(id, fault)?;
        self.mark = self.text.len();
        Ok(())
    }

    fn push_end(&mut self, end: End) -> Result<(), AllocError> {
        self.text.push_end(end)?;
        self.mark = self.text.len();
        Ok(())
    }

    #[inline]
    fn whole(&self) -> &[u8] {
        &self.text.as_slice()[..self.mark]
    }

    fn drop_whole(&mut self) {
        self.text.drop_front(self.mark);
        self.mark = 0;
    }

    ghost message_text = { λ printer was m now appended. appended };
}
