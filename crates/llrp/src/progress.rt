//! How many tags came so far, shown to a person at a terminal, and a sink for tag lines that shows it.

ghost use Rattle.std.specs.Prelude.{◌≡◌};

use llrp_stream::Sink;
use std::io;
use std::io::Write;

/// Shows at a terminal, if there is one, that the client is connected and how many tags came so far.
#[derive(Drop)]
pub struct TagCount<T: Write + Drop> {
    terminal: Option<T>,
    tags: u64,
    /// How many bytes of the last line came, or the greatest number.
    column: u8,
}

/// Whether a byte at this place of its line shows that the line is that of a tag: the first one in
/// words (`=` begins a report's count, `t` the total), the third one in an object of JSON (`e` of
/// `epc`; the others have `report` or `tags` there).
fn shows_tag(column: u8, byte: u8) -> bool {
    match column {
        0 => byte != b'=' && byte != b't' && byte != b'{',
        2 => byte == b'e',
        _ => false,
    }
}

impl<T: Write + Drop> TagCount<T> {
    /// A count of no tags, which is not shown yet.
    pub fn new(terminal: Option<T>) -> TagCount<T> {
        TagCount {
            terminal,
            tags: 0,
            column: 0,
        }
    }

    /// Counts the lines of tags in these bytes, each once.
    pub fn add(&mut self, lines: &[u8]) {
        for &byte in lines {
            if shows_tag(self.column, byte) {
                self.tags = self.tags.saturating_add(1);
            }
            self.column = if byte == b'\n' {
                0
            } else {
                self.column.saturating_add(1)
            };
        }
    }

    /// Shows how many tags came. If writing to the terminal fails, that is ignored.
    pub fn show(&mut self) {
        if let Some(terminal) = &mut self.terminal {
            let _shown = write!(terminal, "\rllrp: connected, {} tags", self.tags);
        }
    }

    /// Removes what is shown.
    pub fn wipe(&mut self) {
        if let Some(terminal) = &mut self.terminal {
            let _wiped = terminal.write_all(b"\r\x1b[K");
        }
    }
}

/// Passes each write on to a sink. If there is a terminal, it shows there that the client is
/// connected and how many tags came so far, and removes that before each write.
#[derive(Drop)]
pub struct Progress<W: Sink + Drop, T: Write + Drop> {
    sink: W,
    count: TagCount<T>,
}

impl<W: Sink + Drop, T: Write + Drop> Progress<W, T> {
    /// A sink to which nothing was written yet, and which shows nothing yet.
    pub fn new(sink: W, terminal: Option<T>) -> Progress<W, T>
        ensures { ⟦<Progress<W, T> as Sink>⟧.log result ≡ W.log sink }
    {
        Progress {
            sink,
            count: TagCount::new(terminal),
        }
    }

    /// Shows how many tags came.
    pub fn show(&mut self)
        ensures { ⟦<Progress<W, T> as Sink>⟧.log self.new
            ≡ ⟦<Progress<W, T> as Sink>⟧.log self.old }
    {
        self.count.show();
    }

    /// Removes what is shown.
    pub fn wipe(&mut self)
        ensures { ⟦<Progress<W, T> as Sink>⟧.log self.new
            ≡ ⟦<Progress<W, T> as Sink>⟧.log self.old }
    {
        self.count.wipe();
    }
}

impl<W: Sink + Drop, T: Write + Drop> Sink for Progress<W, T> {
    ghost log = { λ s. W.log s.sink };

    fn write(&mut self, buf: &[u8]) -> io::Result<usize> {
        self.count.wipe();
        let n = self.sink.write(buf)?;
        self.count.add(buf.split_at(n).0);
        self.count.show();
        Ok(n)
    }
}
