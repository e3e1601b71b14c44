//! A report of an inventory whose lines of tags have labels.

ghost use Rattle.std.specs.Prelude.{◌≡◌, ◌⊎◌, IfErr, List, OnOk, ℕ};
ghost use Rattle.std.specs.Io.KnownBytes.{Appends};
ghost use Rattle.llrp_labels.specs.LabelledTags.{AreLabelledTags};
ghost use Rattle.llrp_listing.specs.declared.outcome.ToolErr.TheVariants.{Memory, Write as WriteFails};
ghost use Rattle.llrp.specs.Calls.Labels.{are_objects};

use crate::labels::are_objects;
use crate::progress::TagCount;
use llrp_endpoints::{LineForm, Watcher};
use llrp_labels::{Labels, label_tags};
use llrp_listing::ToolErr;
use std::alloc::Global;
use std::io::Write;

/// Prints the lines of the reports that a read completed, with their labels. If there is a terminal, it shows
/// there how many tags came so far.
#[derive(Drop)]
pub struct LabelledReport<W: Write + Drop, T: Write + Drop> {
    alloc: Global,
    labels: Labels,
    form: LineForm,
    output: W,
    count: TagCount<T>,
}

impl<W: Write + Drop, T: Write + Drop> LabelledReport<W, T> {
    /// A printer of lines in this form.
    pub fn new(
        alloc: Global,
        labels: Labels,
        form: LineForm,
        output: W,
        terminal: Option<T>,
    ) -> LabelledReport<W, T>
        ensures labels { result.labels ≡ labels }
        ensures form { result.form ≡ form }
        ensures contents { W.contents result.output ≡ W.contents output }
    {
        LabelledReport {
            alloc,
            labels,
            form,
            output,
            count: TagCount::new(terminal),
        }
    }

    /// Shows how many tags came.
    pub fn show(&mut self)
        ensures output { self.new.output ≡ self.old.output }
        ensures labels { self.new.labels ≡ self.old.labels }
        ensures form { self.new.form ≡ self.old.form }
    {
        self.count.show();
    }

    /// Removes what is shown.
    pub fn wipe(&mut self)
        ensures output { self.new.output ≡ self.old.output }
        ensures labels { self.new.labels ≡ self.old.labels }
        ensures form { self.new.form ≡ self.old.form }
    {
        self.count.wipe();
    }

    /// Prints these lines with their labels.
    fn print(&mut self, lines: &[u8]) -> Result<(), ToolErr>
        ensures printed { OnOk result ((text : List ℕ)
            × AreLabelledTags self.old.labels (are_objects self.old.form) lines.now text
            × Appends (W.contents self.old.output) (W.contents self.new.output) text) }
        ensures errors { IfErr result (λ error. (error ≡ WriteFails) ⊎ (error ≡ Memory)) }
        ensures labels { self.new.labels ≡ self.old.labels }
        ensures form { self.new.form ≡ self.old.form }
    {
        let text = label_tags(self.alloc, self.labels, are_objects(self.form), lines)?;
        if self.output.write_all(text.as_slice()).is_err() {
            return Err(ToolErr::Write);
        }
        Ok(())
    }
}

impl<W: Write + Drop, T: Write + Drop> Watcher for LabelledReport<W, T> {
    ghost use Rattle.llrp.specs.Calls.Labels.{ReportsTo};

    ghost has = { λ r. ReportsTo r.labels r.form (W.contents r.output) };

    fn turn(&mut self, _piece: &[u8], lines: &[u8]) -> Result<bool, ToolErr> {
        self.count.wipe();
        self.print(lines)?;
        self.count.add(lines);
        self.count.show();
        Ok(false)
    }
}
