//! Prints the messages of a reader, as lines of JSON.

ghost use Rattle.std.specs.Prelude.{◌≡◌, ◌≤◌, [], IfErr, OnOk};
ghost use Rattle.std.specs.Io.KnownBytes.{Appends};
ghost use Rattle.llrp_json.specs.Calls.PieceLines.{HasListed};
ghost use Rattle.llrp_listing.specs.declared.outcome.ToolErr.TheVariants.{Write as WriteFails};
ghost use Rattle.llrp_tree.specs.declared.TheConstants.{MAX_LIMIT};

use crate::deadline::Deadline;
use llrp_endpoints::Watcher;
use llrp_json::JsonLister;
use llrp_listing::ToolErr;
use std::alloc::Global;
use std::io::Write;

/// Prints a line for each frame that is whole with a read, as `show --json --all` has it, and says
/// whether the time is up.
#[derive(Drop)]
pub struct MessagePrinter<'a, W: Write + Drop> {
    rt: &'a HostRuntime,
    alloc: Global,
    deadline: &'a Deadline,
    lister: JsonLister,
    output: W,
    has_seen_tags: bool,
    has_failed: bool,
}

impl<'a, W: Write + Drop> MessagePrinter<'a, W> {
    /// A printer for a connection of which nothing was read, where a message has at most `limit` octets.
    pub fn new(
        rt: &'a HostRuntime,
        deadline: &'a Deadline,
        limit: u32,
        output: W,
    ) -> MessagePrinter<'a, W>
        requires least { 10 ≤ limit }
        requires most { limit ≤ MAX_LIMIT }
        ensures listed { HasListed limit [] [] result.lister }
        ensures contents { W.contents result.output ≡ W.contents output }
    {
        MessagePrinter {
            rt,
            alloc: rt.alloc(),
            deadline,
            lister: JsonLister::new(rt.alloc(), limit),
            output,
            has_seen_tags: false,
            has_failed: false,
        }
    }

    /// Whether tags were among what came.
    pub fn has_seen_tags(&self) -> bool {
        self.has_seen_tags
    }

    /// Whether printing failed.
    pub fn has_failed(&self) -> bool {
        self.has_failed
    }

    /// Prints a text.
    fn print(&mut self, text: &[u8]) -> Result<(), ToolErr>
        ensures printed { OnOk result (Appends (W.contents self.old.output)
            (W.contents self.new.output) text.now) }
        ensures write { IfErr result (λ error. error ≡ WriteFails) }
        ensures lister { self.new.lister ≡ self.old.lister }
    {
        if self.output.write_all(text).is_err() {
            self.has_failed = true;
            return Err(ToolErr::Write);
        }
        Ok(())
    }
}

impl<W: Write + Drop> Watcher for MessagePrinter<'_, W> {
    ghost use Rattle.llrp.specs.Calls.Watch.{PrintsMessages};

    ghost has = { λ p. PrintsMessages p.lister (W.contents p.output) };

    fn turn(&mut self, piece: &[u8], lines: &[u8]) -> Result<bool, ToolErr> {
        let mut text = Vec::new(self.alloc);
        self.lister.feed(piece, &mut text)?;
        self.print(text.as_slice())?;
        self.has_seen_tags = self.has_seen_tags || !lines.is_empty();
        Ok(self.deadline.tell(self.rt))
    }
}
