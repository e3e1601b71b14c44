//! The script of a simulated reader in real time, with the files that it names.

ghost use Rattle.std.specs.Prelude.{◌<◌, IfSome, length};

use crate::network::conclude;
use crate::tag_files::{NoTags, TagFiles, refuse_tags};
use llrp_listing::ToolErr;
use llrp_live::{Line, Rounds, ScriptReader, Sent, Timetable};
use llrp_session::Sighting;
use llrp_stream::Output;
use llrp_tree::Message;
use std::alloc::Global;
use std::io::{Read, Stdin};

/// How many octets of a script are read at once.
const READ_SIZE: usize = 4_096;

/// The lines of a script with what they send, and the tags of the files that they name.
#[derive(Drop)]
pub struct LiveScript {
    timetable: Timetable,
    tags: TagFiles,
}

/// Why there is no script.
pub enum NoScript {
    /// A line is refused, or reading or memory failed.
    Lines(ToolErr),
    /// A line is refused for the file that it names.
    Tags(NoTags),
}

/// Reads the lines of a script to its end, or until a line is refused.
fn read_lines(alloc: Global, input: Stdin) -> Result<Timetable, ToolErr> {
    let mut input = input;
    let mut reader = ScriptReader::new(alloc);
    let mut buffer = [0u8; READ_SIZE];
    for _ in 0..u64::MAX {
        match input.read(&mut buffer) {
            Ok(0) => break,
            Ok(n) => reader.take(&buffer[..n])?,
            Err(_) => return Err(ToolErr::Read),
        }
    }
    reader.finish()
}

/// The place of what the line with this number sends.
fn place_of(line: u64, sent: &[Sent]) -> Option<usize>
    ensures { IfSome result (λ place. place < length sent.now) }
{
    sent.iter().position(|it| it.line == line)
}

impl LiveScript {
    /// Reads a script from standard input, and the files that it names.
    pub fn read(rt: &HostRuntime) -> Result<LiveScript, NoScript> {
        let timetable = match read_lines(rt.alloc(), rt.stdin()) {
            Ok(timetable) => timetable,
            Err(error) => return Err(NoScript::Lines(error)),
        };
        match TagFiles::open(rt, rt.alloc(), timetable.lines.as_slice()) {
            Ok(tags) => Ok(LiveScript { timetable, tags }),
            Err(no_tags) => Err(NoScript::Tags(no_tags)),
        }
    }

    /// Its lines in order.
    pub fn lines(&self) -> &[Line] {
        self.timetable.lines.as_slice()
    }

    /// The messages that a line sends; none if it sends none.
    pub fn sent_by(&self, line: u64) -> &[Message] {
        let sent = self.timetable.sent.as_slice();
        match place_of(line, sent) {
            Some(place) => sent[place].messages.as_slice(),
            None => &[],
        }
    }

    /// What is seen by a line that names a file of tags when it has happened `turn` times before. `None` if
    /// the file was not read, or if there is no antenna, no signal strength or no tag.
    pub fn sighting(&self, rounds: &Rounds, turn: u64) -> Option<Sighting> {
        self.tags.sighting(rounds, turn)
    }
}

/// Writes why there is no script, and returns the exit status.
pub fn refuse_script(rt: &HostRuntime, no_script: NoScript) -> Result<u8, ToolErr> {
    let mut errors = Output::new(rt.stderr());
    match no_script {
        NoScript::Lines(error) => conclude(Some(Err(error)), &mut errors),
        NoScript::Tags(no_tags) => refuse_tags(rt.alloc(), no_tags, &mut errors),
    }
}
