//! The answers of a file.

ghost use Rattle.std.specs.Prelude.{◌≡◌, [], IfErr, IfOk, MatchOption, None, Some, map};
ghost use Rattle.llrp_answers.specs.Calls.Answers.{IsFile, RefusesFile, answers_to, under};

use crate::file::pairs_of;
use crate::form::fits;
use crate::words::words_of;
use llrp_texts::TextErr;
use llrp_tree::{Message, Octets};
use std::alloc::{AllocError, Global};

/// The form of a request, and the messages to answer with.
#[derive(Drop)]
pub struct Pair {
    pub(crate) form: Vec<u8>,
    pub(crate) messages: Vec<Message>,
}

/// Answers to requests, by the forms of these.
#[derive(Drop)]
pub struct Answers {
    pairs: Vec<Pair>,
}

/// A copy of a message, under another id.
fn under(alloc: Global, id: u32, message: &Message) -> Result<Message, AllocError>
    ensures { IfOk result (λ copy. copy ≡ under id message.now) }
{
    message.lawful();
    let tail = Octets::new(message.tail().to_vec(alloc)?);
    let children = message.try_clone(alloc)?.into_children();
    let (version, kind) = (message.version(), message.kind());
    Ok(Message::of_lawful(version, id, kind, message.fields(), tail, children))
}

/// Copies of messages, under another id.
fn all_under(alloc: Global, id: u32, messages: &[Message]) -> Result<Vec<Message>, AllocError>
    ensures { IfOk result (λ copies. copies.items ≡ map (under id) messages.now) }
{
    let mut copies = Vec::new(alloc);
    for message in messages {
        copies.push(under(alloc, id, message)?)?;
    }
    Ok(copies)
}

impl Answers {
    /// No answers.
    pub fn new(alloc: Global) -> Answers
        ensures { result.pairs.items ≡ [] }
    {
        Answers {
            pairs: Vec::new(alloc),
        }
    }

    /// The answers of a file. The error is the first line that is refused, with the reason, or `Memory`.
    pub fn read(alloc: Global, text: &[u8]) -> Result<Answers, TextErr>
        ensures file { IfOk result (λ answers. IsFile text.now answers.pairs.items) }
        ensures refused { IfErr result (RefusesFile text.now) }
    {
        let pairs = pairs_of(alloc, text)?;
        Ok(Answers { pairs })
    }

    /// The messages to answer a request with, under its id, if the file has a form for it; of several
    /// forms the first counts. The error is that memory ran out.
    pub fn answers_to(
        &self,
        alloc: Global,
        request: &Message,
    ) -> Result<Option<Vec<Message>>, AllocError>
        ensures { IfOk result (λ answers. MatchOption answers
            (answers_to self.now.pairs.items request.now ≡ None)
            (λ messages. answers_to self.now.pairs.items request.now ≡ Some messages.items)) }
    {
        let words = words_of(alloc, request)?;
        for pair in &self.pairs {
            if fits(pair.form.as_slice(), words.as_slice()) {
                let messages = all_under(alloc, request.id(), pair.messages.as_slice())?;
                return Ok(Some(messages));
            }
        }
        Ok(None)
    }
}
