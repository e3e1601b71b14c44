//! The words of a message's line.

ghost use Rattle.std.specs.Prelude.{◌≡◌, ◌++◌, IfOk, OnOk, decimal, map};
ghost use Rattle.llrp_answers.specs.Calls.Forms.{message_words, tail_words};

use llrp_listing::Text;
use llrp_schema::{Kind, Tail, name, tail};
use llrp_tree::Message;
use std::alloc::{AllocError, Global};

/// A word of this text.
fn word(alloc: Global, text: &[u8]) -> Result<Text, AllocError>
    ensures { IfOk result (λ word. word ≡ text.now) }
{
    let mut word = Text::new(alloc);
    word.push_text(text)?;
    Ok(word)
}

/// A number as a word, in decimal.
fn number_word(alloc: Global, number: u128) -> Result<Text, AllocError>
    ensures { IfOk result (λ word. word ≡ decimal number) }
{
    let mut word = Text::new(alloc);
    word.push_number(number)?;
    Ok(word)
}

/// Appends numbers as words.
fn push_numbers(alloc: Global, numbers: &[u128], words: &mut Vec<Text>) -> Result<(), AllocError>
    ensures { OnOk result (words.new.items ≡ words.old.items ++ map decimal numbers.now) }
{
    for number in numbers {
        words.push(number_word(alloc, *number)?)?;
    }
    Ok(())
}

/// Appends the octets of a tail as a word, where the kind has one.
fn push_tail(
    alloc: Global,
    kind: Kind,
    octets: &[u8],
    words: &mut Vec<Text>,
) -> Result<(), AllocError>
    ensures { OnOk result (words.new.items ≡ words.old.items ++ tail_words kind octets.now) }
{
    match tail(kind) {
        Tail::Absent => Ok(()),
        _ => {
            let mut word = word(alloc, b"x")?;
            word.push_hexadecimal(octets)?;
            words.push(word)?;
            Ok(())
        }
    }
}

/// The words of the line of a message, as `show --all` prints it. The error is that memory ran out.
pub(crate) fn words_of(alloc: Global, message: &Message) -> Result<Vec<Text>, AllocError>
    ensures { IfOk result (λ words. words.items ≡ message_words message.now) }
{
    let kind = Kind::Message(message.kind());
    let mut words = Vec::new(alloc);
    words.push(number_word(alloc, 0)?)?;
    words.push(word(alloc, name(kind).as_bytes())?)?;
    words.push(number_word(alloc, message.version() as u128)?)?;
    words.push(number_word(alloc, message.id() as u128)?)?;
    push_numbers(alloc, message.fields(), &mut words)?;
    push_tail(alloc, kind, message.tail(), &mut words)?;
    Ok(words)
}
