//! Prints the tags of a client that lasts, each line with its labels and the host's time.

ghost use Rattle.std.specs.Prelude.{◌≡◌, ◌≤◌, [], IfErr, OnOk};
ghost use Rattle.std.specs.Io.KnownBytes.{Appends};
ghost use Rattle.llrp_endpoints.specs.Calls.TagListing.{HasTags};
ghost use Rattle.llrp_listing.specs.declared.outcome.ToolErr.TheVariants.{Write as WriteFails};
ghost use Rattle.llrp_tree.specs.declared.TheConstants.{MAX_LIMIT};

use crate::deadline::Deadline;
use crate::labels::labelled_lines;
use llrp_endpoints::{LineForm, TagLister, Watcher, marked_lines};
use llrp_labels::Labels;
use llrp_listing::{Text, ToolErr};
use std::alloc::Global;
use std::io::Write;
use std::time::{Duration, SystemTime};

/// The microseconds since 1970-01-01T00:00:00Z; 0 if the clock cannot be read.
fn micros_now(rt: &HostRuntime) -> u64 {
    let Ok(now) = SystemTime::now(rt) else {
        return 0;
    };
    let since = now
        .duration_since(SystemTime::UNIX_EPOCH)
        .unwrap_or(Duration::ZERO);
    u64::try_from(since.as_micros()).unwrap_or(u64::MAX)
}

/// Prints the lines of the tags of the reports that a read completed, with their labels, the moment at which
/// the read ended and the name of the reader, and says whether the time is up.
#[derive(Drop)]
pub struct TagPrinter<'a, W: Write + Drop> {
    rt: &'a HostRuntime,
    alloc: Global,
    deadline: &'a Deadline,
    lister: TagLister,
    labels: Option<Labels>,
    name: Option<&'a [u8]>,
    output: W,
    has_printed: bool,
    has_failed: bool,
}

impl<'a, W: Write + Drop> TagPrinter<'a, W> {
    /// A printer for a connection of which nothing was read, where a message has at most `limit` octets.
    pub fn new(
        rt: &'a HostRuntime,
        deadline: &'a Deadline,
        form: LineForm,
        labels: Option<Labels>,
        name: Option<&'a [u8]>,
        limit: u32,
        output: W,
    ) -> TagPrinter<'a, W>
        requires least { 10 ≤ limit }
        requires most { limit ≤ MAX_LIMIT }
        ensures lister { HasTags limit [] [] result.lister }
        ensures form { result.lister.form ≡ form }
        ensures labels { result.labels ≡ labels }
        ensures name { result.name ≡ name.entry }
        ensures contents { W.contents result.output ≡ W.contents output }
    {
        TagPrinter {
            rt,
            alloc: rt.alloc(),
            deadline,
            lister: TagLister::new(rt.alloc(), form, limit),
            labels,
            name,
            output,
            has_printed: false,
            has_failed: false,
        }
    }

    /// Whether something was printed.
    pub fn has_printed(&self) -> bool {
        self.has_printed
    }

    /// Whether printing failed.
    pub fn has_failed(&self) -> bool {
        self.has_failed
    }

    /// Prints a text.
    fn print(&mut self, text: &[u8]) -> Result<(), ToolErr>
        ensures printed { OnOk result (Appends (W.contents self.old.output)
            (W.contents self.new.output) text.now) }
        ensures write { IfErr result (λ error. error ≡ WriteFails) }
        ensures lister { self.new.lister ≡ self.old.lister }
        ensures labels { self.new.labels ≡ self.old.labels }
        ensures name { self.new.name ≡ self.old.name }
    {
        if self.output.write_all(text).is_err() {
            self.has_failed = true;
            return Err(ToolErr::Write);
        }
        self.has_printed = self.has_printed || !text.is_empty();
        Ok(())
    }
}

impl<W: Write + Drop> Watcher for TagPrinter<'_, W> {
    ghost use Rattle.llrp_endpoints.specs.MarkedLines.{name_in};
    ghost use Rattle.llrp.specs.Calls.Watch.{PrintsTo};

    ghost has = { λ p. PrintsTo p.lister p.labels (name_in p.name) (W.contents p.output) };

    fn turn(&mut self, piece: &[u8], _lines: &[u8]) -> Result<bool, ToolErr> {
        let micros = micros_now(self.rt);
        let mut lines = Text::new(self.alloc);
        self.lister.feed(piece, &mut lines)?;
        let form = self.lister.form();
        let labelled = labelled_lines(self.alloc, self.labels, form, lines.as_slice())?;
        let text = marked_lines(self.alloc, form, micros, self.name, labelled.as_slice())?;
        self.print(text.as_slice())?;
        Ok(self.deadline.tell(self.rt))
    }
}
