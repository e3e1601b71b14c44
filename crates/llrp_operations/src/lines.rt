//! The lines of results.

ghost use Rattle.std.specs.Prelude.{◌≡◌, ◌++◌, IfOk, OnOk, Some};
ghost use Rattle.llrp_operations.specs.Calls.Lines as lines;
ghost use Rattle.llrp_operations.specs.Calls.Words.{bank_name, field_name, manner_name};

use crate::names::{has_name, result_name};
use crate::operation::{LockField, LockManner, Operation};
use crate::results::field_at;
use llrp_listing::Text;
use llrp_tree::Node;
use std::alloc::{AllocError, Global};
use tag_memory::Bank;

/// The name of a bank.
fn bank_name(bank: Bank) -> &'static str
    ensures { result.now ≡ bank_name bank }
{
    match bank {
        Bank::Reserved => "reserved",
        Bank::Epc => "epc",
        Bank::Tid => "tid",
        Bank::User => "user",
    }
}

/// The name of what is locked.
fn field_name(field: LockField) -> &'static str
    ensures { result.now ≡ field_name field }
{
    match field {
        LockField::KillPassword => "kill",
        LockField::AccessPassword => "access",
        LockField::Epc => "epc",
        LockField::Tid => "tid",
        LockField::User => "user",
    }
}

/// The name of how it is locked.
fn manner_name(manner: LockManner) -> &'static str
    ensures { result.now ≡ manner_name manner }
{
    match manner {
        LockManner::Lock => "lock",
        LockManner::Unlock => "unlock",
        LockManner::PermanentLock => "permanent-lock",
        LockManner::PermanentUnlock => "permanent-unlock",
    }
}

/// Appends a bank and the place of a word in it.
fn push_place(text: &mut Text, bank: Bank, pointer: u16) -> Result<(), AllocError>
    ensures { OnOk result (text.new ≡ text.old ++ lines.place bank pointer) }
{
    text.push_text(bank_name(bank).as_bytes())?;
    text.push_text(b":")?;
    text.push_number(pointer as u128)?;
    Ok(())
}

/// Appends what an operation does.
fn push_operation(text: &mut Text, operation: &Operation) -> Result<(), AllocError>
    ensures { OnOk result (text.new ≡ text.old ++ lines.operation_text operation.now) }
{
    match operation {
        Operation::Read {
            bank,
            pointer,
            count,
        } => {
            text.push_text(b"read ")?;
            push_place(text, *bank, *pointer)?;
            text.push_text(b":")?;
            text.push_number(*count as u128)
        }
        Operation::Write { bank, pointer, .. } => {
            text.push_text(b"write ")?;
            push_place(text, *bank, *pointer)
        }
        Operation::Lock { field, manner } => {
            text.push_text(b"lock ")?;
            text.push_text(field_name(*field).as_bytes())?;
            text.push_text(b"=")?;
            text.push_text(manner_name(*manner).as_bytes())
        }
    }
}

/// Appends the name of a result, and its number where it has no name.
fn push_result(text: &mut Text, operation: &Operation, node: &Node) -> Result<(), AllocError>
    ensures { OnOk result (text.new ≡ text.old ++ lines.name_of operation.now (Some node.now)) }
{
    let number = field_at(node, 0);
    text.push_text(result_name(operation, number).as_bytes())?;
    if !has_name(operation, number) {
        text.push_text(b" ")?;
        text.push_number(number)?;
    }
    Ok(())
}

/// Appends what became of an operation: the name of its result, or that there is none.
fn push_name(text: &mut Text, operation: &Operation, said: Option<&Node>) -> Result<(), AllocError>
    ensures { OnOk result (text.new ≡ text.old ++ lines.name_of operation.now (lines.referred said.entry)) }
{
    match said {
        Some(node) => push_result(text, operation, node),
        None => text.push_text(b"NoResult"),
    }
}

/// The octets of the words that a result gives back.
fn words_of(said: Option<&Node>) -> &[u8]
    ensures { result.now ≡ lines.words_of (lines.referred said.entry) }
{
    match said {
        Some(node) => node.tail().as_slice(),
        None => &[],
    }
}

/// Appends words in hexadecimal digits between these texts, if there are some.
fn push_words(text: &mut Text, before: &[u8], words: &[u8], after: &[u8]) -> Result<(), AllocError>
    ensures { OnOk result (text.new ≡ text.old ++ lines.words_text before.now words.now after.now) }
{
    if words.is_empty() {
        return Ok(());
    }
    text.push_text(before)?;
    text.push_hexadecimal(words)?;
    text.push_text(after)
}

/// The line of an operation with its result, if it has one: the tag's name, what the operation does, the
/// result's name, and the words that were read in hexadecimal digits.
pub fn result_line(
    alloc: Global,
    tag: &[u8],
    operation: &Operation,
    said: Option<&Node>,
) -> Result<Text, AllocError>
    ensures { IfOk result (λ text. text
        ≡ lines.result_line tag.now operation.now (lines.referred said.entry)) }
{
    let mut text = Text::new(alloc);
    text.push_text(tag)?;
    text.push_text(b" ")?;
    push_operation(&mut text, operation)?;
    text.push_text(b" ")?;
    push_name(&mut text, operation, said)?;
    push_words(&mut text, b" ", words_of(said), b"")?;
    text.push_text(b"\n")?;
    Ok(text)
}

/// Appends the member of the tag's name.
fn push_whose(text: &mut Text, tag: &[u8]) -> Result<(), AllocError>
    ensures { OnOk result (text.new ≡ text.old ++ lines.whose tag.now) }
{
    text.push_text(b"{\"epc\":\"")?;
    text.push_text(tag)?;
    text.push_text(b"\"")?;
    Ok(())
}

/// Appends the member of what an operation does.
fn push_what(text: &mut Text, operation: &Operation) -> Result<(), AllocError>
    ensures { OnOk result (text.new ≡ text.old ++ lines.what operation.now) }
{
    text.push_text(b",\"operation\":\"")?;
    push_operation(text, operation)?;
    text.push_text(b"\"")?;
    Ok(())
}

/// Appends both.
fn push_head(text: &mut Text, tag: &[u8], operation: &Operation) -> Result<(), AllocError>
    ensures { OnOk result (text.new ≡ text.old ++ lines.head tag.now operation.now) }
{
    push_whose(text, tag)?;
    push_what(text, operation)?;
    Ok(())
}

/// Appends the member of its result's name.
fn push_called(
    text: &mut Text,
    operation: &Operation,
    said: Option<&Node>,
) -> Result<(), AllocError>
    ensures { OnOk result (text.new ≡ text.old ++ lines.called operation.now (lines.referred said.entry)) }
{
    text.push_text(b",\"result\":\"")?;
    push_name(text, operation, said)?;
    text.push_text(b"\"")?;
    Ok(())
}

/// The same as an object of JSON.
pub fn result_object(
    alloc: Global,
    tag: &[u8],
    operation: &Operation,
    said: Option<&Node>,
) -> Result<Text, AllocError>
    ensures { IfOk result (λ text. text
        ≡ lines.result_object tag.now operation.now (lines.referred said.entry)) }
{
    let mut text = Text::new(alloc);
    push_head(&mut text, tag, operation)?;
    push_called(&mut text, operation, said)?;
    push_words(&mut text, b",\"words\":\"", words_of(said), b"\"")?;
    text.push_text(b"}\n")?;
    Ok(text)
}
