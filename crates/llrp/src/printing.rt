//! What the printers of `watch` have in common.

ghost use Rattle.llrp_stream.specs.Device.{IsFreshSink, IsFreshSource};
ghost use Rattle.llrp_words.specs.Calls.Arguments.{IsLongest};

use crate::message_printer::MessagePrinter;
use crate::tag_printer::TagPrinter;
use crate::watch::{take_lasting, take_messages};
use llrp_endpoints::Plan;
use llrp_listing::ToolErr;
use llrp_stream::{Sink, Source};
use std::alloc::Global;
use std::io::Write;

/// What prints what a reader sends.
pub trait Printing {
    /// Follows a plan that lasts with the reader whose octets the source gives, and prints what comes.
    fn follow<R: Source, S: Sink>(
        &mut self,
        alloc: Global,
        plan: Plan,
        limit: u32,
        source: &mut R,
        sink: &mut S,
    ) -> Result<(), ToolErr>
        requires limit { IsLongest limit }
        requires source { IsFreshSource (R.log source.old) }
        requires sink { IsFreshSink (S.log sink.old) };

    /// Whether tags were among what came.
    fn has_printed_tags(&self) -> bool;

    /// Whether printing failed.
    fn has_failed(&self) -> bool;
}

impl<W: Write + Drop> Printing for TagPrinter<'_, W> {
    fn follow<R: Source, S: Sink>(
        &mut self,
        alloc: Global,
        plan: Plan,
        limit: u32,
        source: &mut R,
        sink: &mut S,
    ) -> Result<(), ToolErr> {
        take_lasting(alloc, plan, limit, source, sink, self)
    }

    fn has_printed_tags(&self) -> bool {
        self.has_printed()
    }

    fn has_failed(&self) -> bool {
        TagPrinter::has_failed(self)
    }
}

impl<W: Write + Drop> Printing for MessagePrinter<'_, W> {
    fn follow<R: Source, S: Sink>(
        &mut self,
        alloc: Global,
        plan: Plan,
        limit: u32,
        source: &mut R,
        sink: &mut S,
    ) -> Result<(), ToolErr> {
        take_messages(alloc, plan, limit, source, sink, self)
    }

    fn has_printed_tags(&self) -> bool {
        self.has_seen_tags()
    }

    fn has_failed(&self) -> bool {
        MessagePrinter::has_failed(self)
    }
}
