//! A command as rows: what each of its arguments takes, and what help says of it.

ghost use Rattle.std.specs.Prelude.{◌≡◌, IfOk, false};
ghost use Rattle.clap.specs.Words.{app_of, rule_of};
ghost use Rattle.clap.specs.declared.builder.command.Command.TheViews.{out-Command};
ghost use Rattle.llrp_words.specs.Private.Rows.{app_of_rows, rule};

use clap::builder::ValueParser;
use clap::{Arg, ArgAction, Command};
use std::alloc::{AllocError, Global};

/// What an argument takes. A text after a name is what help calls the value; numbers are the least and the
/// most that are allowed.
#[derive(Clone, Copy)]
pub(super) enum Takes {
    /// Nothing: it is given or not.
    Flag,
    /// A text.
    Text(&'static str),
    /// A text that has to be given.
    NeededText(&'static str),
    /// A text in each use, of which there may be several.
    Texts(&'static str),
    /// A number.
    Number(&'static str, i64, i64),
    /// A number, which is the last text where it is left out.
    NumberOr(&'static str, i64, i64, &'static str),
    /// A text by its place.
    Place,
    /// A text by its place that has to be given.
    NeededPlace,
    /// A number by its place that has to be given.
    NeededNumber(i64, i64),
    /// Texts by their place, of which there may be several.
    Places,
}

/// An argument of a command: its name, what it takes, and what help says of it.
#[derive(Clone, Copy)]
pub(super) struct Row {
    pub(super) name: &'static str,
    pub(super) takes: Takes,
    pub(super) help: &'static str,
}

/// The argument that a row says.
pub(super) fn argument<'a>(alloc: Global, row: Row) -> Arg<'a>
    ensures rule { rule_of result ≡ rule row }
    ensures local { result.global ≡ false }
{
    let name = row.name;
    let argument = Arg::new(alloc, name).help(row.help);
    match row.takes {
        Takes::Flag => argument.long(name).action(ArgAction::SetTrue),
        Takes::Text(value) => argument.long(name).value_name(value),
        Takes::NeededText(value) => argument.long(name).value_name(value).required(true),
        Takes::Texts(value) => {
            argument
                .long(name)
                .value_name(value)
                .action(ArgAction::Append)
        }
        Takes::Number(value, least, most) => {
            argument
                .long(name)
                .value_name(value)
                .value_parser(ValueParser::Signed(least, most))
        }
        Takes::NumberOr(value, least, most, default) => {
            argument
                .long(name)
                .value_name(value)
                .value_parser(ValueParser::Signed(least, most))
                .default_value(default)
        }
        Takes::Place => argument,
        Takes::NeededPlace => argument.required(true),
        Takes::NeededNumber(least, most) => {
            argument
                .required(true)
                .value_parser(ValueParser::Signed(least, most))
        }
        Takes::Places => argument.action(ArgAction::Append),
    }
}

/// A command with these arguments, what help says of it before them, and what it says after them.
pub(super) fn command<'a>(
    alloc: Global,
    name: &'a str,
    about: &'a str,
    after: &'a str,
    rows: &[Row],
) -> Result<Command<'a>, AllocError>
    ensures app { IfOk result (λ c. app_of c ≡ app_of_rows name.entry.now rows.now) }
    ensures local { IfOk result (λ c. (out-Command c).has_globals ≡ false) }
{
    let mut made = Command::new(alloc, name).about(about).after_help(after);
    for row in rows {
        made = made.arg(argument(alloc, *row))?;
    }
    Ok(made)
}
