//! Answers a list of texts, a line each.

ghost use Rattle.std.specs.Prelude.{◌≡◌, ◌∷◌, ◌++◌, ◌<◌, ◌≤◌, ◌||◌, ◌⊎◌, Bool, false, [], List, ℕ, IfOk, OnOk, length};
ghost use Rattle.tag_forms.specs.Company.{IsUsable};
ghost use Rattle.tag_forms.specs.Lists.{Answers, IsEnded, IsLineAnswer, IsTextAnswer, IsWithoutReturn, longer};

use crate::company::Company;
use crate::wanted::{Wanted, push_line_refusal, push_wanted};
use std::alloc::{AllocError, Global};
use std::str;

/// The most octets that a line may have, with a carriage return at its end and without the line feed.
pub const LONGEST_LINE: usize = 4096;

/// A list of texts, of which some octets were taken.
#[derive(Drop)]
pub struct TextList<'a> {
    /// What the texts are answered by.
    to: Wanted,
    /// The filter value of texts that have none.
    filter: u8,
    /// How many digits the company prefixes of keys have.
    company: Company<'a>,
    /// The octets of the line that was begun, at most one more than a line may have.
    line: Vec<u8>,
    /// Whether a text was refused.
    refused: bool,
}

/// Whether a text was refused.
fn either(before: bool, now: bool) -> bool
    ensures { result ≡ (before || now) }
{
    before || now
}

/// A line without the carriage return at its end.
fn without_return<'a>(line: &'a [u8]) -> &'a [u8]
    ensures { IsWithoutReturn line.now result.now }
{
    match line.split_last() {
        Some((b'\r', text)) => text,
        _ => line,
    }
}

/// Appends the answer to a line without its end, and returns whether the line is refused.
fn push_line(
    answers: &mut Vec<u8>,
    line: &[u8],
    to: Wanted,
    filter: u8,
    company: Company<'_>,
) -> Result<bool, AllocError>
    requires filter { filter < 8 }
    requires company { IsUsable company }
    ensures { IfOk result (λ refused. (answer : List ℕ)
        × IsLineAnswer to filter company.entry line.now refused answer
        × (answers.new.items ≡ answers.old.items ++ answer)) }
{
    if line.len() > LONGEST_LINE {
        push_line_refusal(answers, to, "Long")?;
        return Ok(true);
    }
    match str::from_utf8(without_return(line)) {
        Ok(text) => push_wanted(answers, text, to, filter, company.digits_of(text)),
        Err(_) => {
            push_line_refusal(answers, to, "Utf8")?;
            Ok(true)
        }
    }
}

impl<'a> TextList<'a> {
    ghost use Rattle.tag_forms.specs.Lists.{IsReady, IsSameList};
    ghost use Rattle.tag_forms.specs.Private.Lists.{Took};

    /// A list of which nothing was taken. Texts are read with the filter value and what is known of company prefixes, and answered by
    /// what is wanted of them.
    pub fn new(alloc: Global, to: Wanted, filter: u8, company: Company<'a>) -> TextList<'a>
        requires filter { filter < 8 }
        requires company { IsUsable company }
        ensures ready { IsReady result }
        ensures to { result.to ≡ to }
        ensures filter { result.filter ≡ filter }
        ensures company { result.company ≡ company.entry }
        ensures line { result.line.items ≡ [] }
        ensures refused { result.refused ≡ false }
    {
        TextList {
            to,
            filter,
            company,
            line: Vec::new(alloc),
            refused: false,
        }
    }

    /// Whether a line was refused.
    pub fn refused(&self) -> bool
        ensures { result ≡ self.now.refused }
    {
        self.refused
    }

    /// Answers the line that was begun, and begins another.
    fn end_line(&mut self, answers: &mut Vec<u8>) -> Result<(), AllocError>
        requires { IsReady self.old }
        ensures ready { OnOk result (IsReady self.new) }
        ensures same { OnOk result (IsSameList self.old self.new) }
        ensures line { OnOk result (self.new.line.items ≡ []) }
        ensures answer { OnOk result ((refused : Bool) × (answer : List ℕ)
            × IsLineAnswer self.old.to self.old.filter self.old.company self.old.line.items
            refused answer
            × (self.new.refused ≡ (self.old.refused || refused))
            × (answers.new.items ≡ answers.old.items ++ (answer ++ 10 ∷ []))) }
    {
        let refused = push_line(
            answers,
            self.line.as_slice(),
            self.to,
            self.filter,
            self.company,
        )?;
        answers.push(b'\n')?;
        self.refused = either(self.refused, refused);
        self.line.clear();
        Ok(())
    }

    /// Takes one octet.
    fn take_octet(&mut self, octet: u8, answers: &mut Vec<u8>) -> Result<(), AllocError>
        requires { IsReady self.old }
        ensures ready { OnOk result (IsReady self.new) }
        ensures same { OnOk result (IsSameList self.old self.new) }
        ensures took { OnOk result (Took self.old octet self.new answers.old.items answers.new.items) }
    {
        if octet == b'\n' {
            return self.end_line(answers);
        }
        if self.line.len() <= LONGEST_LINE {
            self.line.push(octet)?;
        }
        Ok(())
    }

    /// Takes a piece of the list, and appends the answers to the lines that end in it. After an error nothing more is to be taken.
    pub fn take(&mut self, piece: &[u8], answers: &mut Vec<u8>) -> Result<(), AllocError>
        requires { IsReady self.old }
        ensures ready { OnOk result (IsReady self.new) }
        ensures same { OnOk result (IsSameList self.old self.new) }
        ensures answers { OnOk result ((refused : Bool) × (lines : List ℕ)
            × Answers self.old.to self.old.filter self.old.company self.old.line.items piece.now
            self.new.line.items refused lines
            × (self.new.refused ≡ (self.old.refused || refused))
            × (answers.new.items ≡ answers.old.items ++ lines)) }
    {
        for octet in piece {
            self.take_octet(*octet, answers)?;
        }
        Ok(())
    }

    /// Ends the list: appends the answer to a last line without a line feed, if there is one.
    pub fn end(&mut self, answers: &mut Vec<u8>) -> Result<(), AllocError>
        requires { IsReady self.old }
        ensures answers { OnOk result ((refused : Bool) × (lines : List ℕ)
            × IsEnded self.old.to self.old.filter self.old.company self.old.line.items refused
            lines
            × (self.new.refused ≡ (self.old.refused || refused))
            × (answers.new.items ≡ answers.old.items ++ lines)) }
    {
        if self.line.is_empty() {
            return Ok(());
        }
        self.end_line(answers)
    }
}
