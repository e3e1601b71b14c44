//! The file of `sim --answers`.

ghost use Rattle.std.specs.Prelude.{IfOk};
ghost use Rattle.llrp_answers.specs.Calls.Answers.{IsFile};
ghost use Rattle.llrp_stream.specs.Calls.Device.{CanWrite};

use llrp_answers::Answers;
use llrp_commands::{answer, write_refusal};
use llrp_files::FAILED;
use llrp_listing::{ToolErr, read_all, write_all};
use llrp_stream::{Input, Sink};
use llrp_texts::TextErr;
use std::alloc::Global;
use std::fs::File;
use std::io::ErrorKind;
use std::rt::Files;

/// The exit status if a line of the file is refused.
const REFUSED: u8 = 1;

/// Why there are no answers.
pub enum NoAnswers {
    /// The file cannot be opened or read.
    Unread,
    /// Its text is refused, or memory ran out.
    Text(TextErr),
}

/// The text of a file of answers, which was read once to see that it is one.
#[derive(Drop)]
pub struct AnswerText {
    text: Vec<u8>,
}

impl AnswerText {
    /// Reads the file with this path; without a path it is empty.
    pub fn open<F: Files>(files: &F, alloc: Global, path: Option<&str>) -> Result<Self, NoAnswers> {
        let Some(path) = path else {
            return Ok(AnswerText {
                text: Vec::new(alloc),
            });
        };
        let text = match File::open(files, path) {
            Ok(file) => match read_all(alloc, &mut Input::new(file)) {
                Ok(text) => text,
                Err(ToolErr::Memory) => return Err(NoAnswers::Text(TextErr::Memory)),
                Err(_) => return Err(NoAnswers::Unread),
            },
            Err(error) => match error.kind() {
                ErrorKind::OutOfMemory => return Err(NoAnswers::Text(TextErr::Memory)),
                _ => return Err(NoAnswers::Unread),
            },
        };
        match Answers::read(alloc, text.as_slice()) {
            Ok(_) => Ok(AnswerText { text }),
            Err(error) => Err(NoAnswers::Text(error)),
        }
    }

    /// The answers, for one more client.
    pub fn answers(&self, alloc: Global) -> Result<Answers, ToolErr>
        ensures { IfOk result (λ answers. IsFile self.now.text.items answers.pairs.items) }
    {
        match Answers::read(alloc, self.text.as_slice()) {
            Ok(answers) => Ok(answers),
            Err(TextErr::Line { line, reason }) => Err(ToolErr::Listing { line, reason }),
            Err(TextErr::Memory) => Err(ToolErr::Memory),
        }
    }
}

/// Writes why there are no answers, and returns the exit status: 1 if a line is refused, and else 3.
pub fn refuse_answers<E: Sink>(no_answers: NoAnswers, errors: &mut E) -> Result<u8, ToolErr>
    requires { CanWrite (E.log errors.old) }
{
    match no_answers {
        NoAnswers::Unread => {
            write_all(errors, b"llrp: answers\n")?;
            Ok(FAILED)
        }
        NoAnswers::Text(TextErr::Line { line, reason }) => {
            write_refusal(errors, b"llrp: answers line ", line, reason)?;
            Ok(REFUSED)
        }
        NoAnswers::Text(TextErr::Memory) => answer(Err(ToolErr::Memory), errors),
    }
}
