//! The files of tags that the lines of a script in real time name.

ghost use Rattle.std.specs.Prelude.{◌<◌, IfSome, length};
ghost use Rattle.llrp_stream.specs.Calls.Device.{CanWrite};

use llrp_commands::answer;
use llrp_files::FAILED;
use llrp_listing::{Text, ToolErr, read_all, write_all};
use llrp_live::{Deed, Line, Rounds, ShortOctets, TagsErr, sighting_at, words_of_tags};
use llrp_session::Sighting;
use llrp_stream::{Input, Sink};
use std::alloc::{AllocError, Global};
use std::fs::File;
use std::io::ErrorKind;
use std::rt::Files;
use std::str;
use tag_bits::Word;

/// The exit status if a line of a file is refused.
const REFUSED: u8 = 1;

/// Why a line of a script is refused for the file that it names.
#[derive(Clone, Copy)]
pub enum NoTags {
    /// The file cannot be opened or read.
    Unread {
        line: u64,
        file: ShortOctets,
    },
    /// This line of the file is refused.
    Refused {
        line: u64,
        file: ShortOctets,
        at: u64,
    },
    /// Memory ran out.
    Memory,
}

/// The words of a file's tags.
#[derive(Drop)]
struct TagFile {
    name: ShortOctets,
    words: Vec<Word>,
}

/// The files of tags that the lines of a script name.
#[derive(Drop)]
pub struct TagFiles {
    files: Vec<TagFile>,
}

/// The octets of a short text.
fn octets_of(short: &ShortOctets) -> &[u8] {
    &short.octets[..short.count.min(short.octets.len())]
}

/// The place of the file with this name.
fn place_of(name: &ShortOctets, files: &[TagFile]) -> Option<usize>
    ensures { IfSome result (λ place. place < length files.now) }
{
    files
        .iter()
        .position(|it| octets_of(&it.name) == octets_of(name))
}

/// What a file has. `None` means that it cannot be opened or read.
fn text_of<F: Files>(files: &F, alloc: Global, name: &[u8]) -> Result<Option<Vec<u8>>, AllocError> {
    let Ok(path) = str::from_utf8(name) else {
        return Ok(None);
    };
    match File::open(files, path) {
        Ok(file) => match read_all(alloc, &mut Input::new(file)) {
            Ok(text) => Ok(Some(text)),
            Err(ToolErr::Memory) => Err(AllocError),
            Err(_) => Ok(None),
        },
        Err(error) => match error.kind() {
            ErrorKind::OutOfMemory => Err(AllocError),
            _ => Ok(None),
        },
    }
}

/// Reads the file that a line names.
fn words_in<F: Files>(
    files: &F,
    alloc: Global,
    line: u64,
    file: ShortOctets,
) -> Result<Vec<Word>, NoTags> {
    let text = match text_of(files, alloc, octets_of(&file)) {
        Ok(Some(text)) => text,
        Ok(None) => return Err(NoTags::Unread { line, file }),
        Err(_) => return Err(NoTags::Memory),
    };
    match words_of_tags(alloc, text.as_slice()) {
        Ok(words) => Ok(words),
        Err(TagsErr::Line { line: at }) => Err(NoTags::Refused { line, file, at }),
        Err(TagsErr::Memory) => Err(NoTags::Memory),
    }
}

impl TagFiles {
    /// Reads each file that these lines name, once.
    pub fn open<F: Files>(files: &F, alloc: Global, lines: &[Line]) -> Result<TagFiles, NoTags> {
        let mut read = Vec::new(alloc);
        for line in lines {
            if let Deed::Tags(rounds) = line.deed {
                let name = rounds.file;
                if place_of(&name, read.as_slice()).is_none() {
                    let words = words_in(files, alloc, line.number, name)?;
                    if read.push(TagFile { name, words }).is_err() {
                        return Err(NoTags::Memory);
                    }
                }
            }
        }
        Ok(TagFiles { files: read })
    }

    /// What is seen by a line that names a file when it has happened `turn` times before. `None` if the file
    /// was not read, or if there is no antenna, no signal strength or no tag.
    pub fn sighting(&self, rounds: &Rounds, turn: u64) -> Option<Sighting> {
        let place = place_of(&rounds.file, self.files.as_slice())?;
        sighting_at(rounds, self.files[place].words.as_slice(), turn)
    }
}

/// The line of an error in a line of the script, by the file that it names, and a line of that if there
/// is one.
fn refusal_text(
    alloc: Global,
    line: u64,
    file: &ShortOctets,
    at: Option<u64>,
) -> Result<Text, ToolErr> {
    let mut text = Text::new(alloc);
    text.push_text(b"llrp: script line ")?;
    text.push_number(line as u128)?;
    text.push_text(b": ")?;
    text.push_text(octets_of(file))?;
    if let Some(at) = at {
        text.push_text(b":")?;
        text.push_number(at as u128)?;
    }
    text.push_text(b"\n")?;
    Ok(text)
}

/// Writes why a line of the script is refused, and returns the exit status: 1 if a line of its file is
/// refused, and else 3.
pub fn refuse_tags<E: Sink>(alloc: Global, no_tags: NoTags, errors: &mut E) -> Result<u8, ToolErr>
    requires { CanWrite (E.log errors.old) }
{
    match no_tags {
        NoTags::Unread { line, file } => {
            write_all(errors, refusal_text(alloc, line, &file, None)?.as_slice())?;
            Ok(FAILED)
        }
        NoTags::Refused { line, file, at } => {
            let text = refusal_text(alloc, line, &file, Some(at))?;
            write_all(errors, text.as_slice())?;
            Ok(REFUSED)
        }
        NoTags::Memory => answer(Err(ToolErr::Memory), errors),
    }
}
