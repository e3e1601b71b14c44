//! The commands of the program.

ghost use Rattle.std.specs.Prelude.{◌≡◌, IfOk, false};
ghost use Rattle.clap.specs.Words.{App, app_of, with_subcommand};
ghost use Rattle.clap.specs.declared.builder.command.Command.TheViews.{out-Command};
ghost use Rattle.llrp_words.specs.Calls.Arguments.{access_app, ask_app, encode_app, epc_app, explain_app, fields_app, inventory_app, loop_app, show_app, sim_app, stop_app, watch_app, llrp_app, runs_app, streams_app, top_app};

use super::access_help::ACCESS_HELP;
use super::ask_help::ASK_HELP;
use super::help::{
    ENCODE_HELP, EPC_HELP, EXPLAIN_HELP, FIELDS_HELP, INVENTORY_HELP, LOOP_HELP, SHOW_HELP,
    SIM_HELP,
};
use super::rows::{argument, command};
use super::tables::{
    ACCESS, ASK, ENCODE, EPC, EXPLAIN, FIELDS, INVENTORY, LOOP, SHOW, SIM, STOP_TIMEOUT, WATCH,
};
use super::watch_help::{STOP_HELP, WATCH_HELP};
use clap::Command;
use std::alloc::{AllocError, Global};

/// The version, which `--version` prints.
const VERSION: &str = "0.1.0";

/// Adds a command below the command, if there is one.
fn with_command<'a>(
    command: Result<Command<'a>, AllocError>,
    below: Result<Command<'a>, AllocError>,
) -> Result<Command<'a>, AllocError>
    ensures { (a b : App) → IfOk command.entry (λ c. app_of c ≡ a)
        → IfOk below.entry (λ c. app_of c ≡ b)
        → IfOk below.entry (λ c. (out-Command c).has_globals ≡ false)
        → IfOk result (λ c. app_of c ≡ with_subcommand a b.top) }
{
    command?.subcommand(below?)
}

/// The command `show`.
fn show_command<'a>(alloc: Global) -> Result<Command<'a>, AllocError>
    ensures app { IfOk result (λ c. app_of c ≡ show_app) }
    ensures local { IfOk result (λ c. (out-Command c).has_globals ≡ false) }
{
    let about = "List the messages of a stream of bytes";
    command(alloc, "show", about, SHOW_HELP, &SHOW)
}

/// The command `encode`.
fn encode_command<'a>(alloc: Global) -> Result<Command<'a>, AllocError>
    ensures app { IfOk result (λ c. app_of c ≡ encode_app) }
    ensures local { IfOk result (λ c. (out-Command c).has_globals ≡ false) }
{
    let about = "Write the bytes of a listing of messages";
    command(alloc, "encode", about, ENCODE_HELP, &ENCODE)
}

/// The command `epc`.
fn epc_command<'a>(alloc: Global) -> Result<Command<'a>, AllocError>
    ensures app { IfOk result (λ c. app_of c ≡ epc_app) }
    ensures local { IfOk result (λ c. (out-Command c).has_globals ≡ false) }
{
    let about = "Print the text of a tag's word, or the word of a text";
    command(alloc, "epc", about, EPC_HELP, &EPC)
}

/// The command `fields`.
fn fields_command<'a>(alloc: Global) -> Result<Command<'a>, AllocError>
    ensures app { IfOk result (λ c. app_of c ≡ fields_app) }
    ensures local { IfOk result (λ c. (out-Command c).has_globals ≡ false) }
{
    let about = "Print the fields of a message or parameter, or of all";
    command(alloc, "fields", about, FIELDS_HELP, &FIELDS)
}

/// The command `explain`.
fn explain_command<'a>(alloc: Global) -> Result<Command<'a>, AllocError>
    ensures app { IfOk result (λ c. app_of c ≡ explain_app) }
    ensures local { IfOk result (λ c. (out-Command c).has_globals ≡ false) }
{
    let about = "Print each field of the messages of a stream, bit by bit";
    command(alloc, "explain", about, EXPLAIN_HELP, &EXPLAIN)
}

/// The command `sim`.
fn sim_command<'a>(alloc: Global) -> Result<Command<'a>, AllocError>
    ensures app { IfOk result (λ c. app_of c ≡ sim_app) }
    ensures local { IfOk result (λ c. (out-Command c).has_globals ≡ false) }
{
    let about = "Serve clients as a simulated reader, by a script";
    command(alloc, "sim", about, SIM_HELP, &SIM)
}

/// The command `inventory`.
fn inventory_command<'a>(alloc: Global) -> Result<Command<'a>, AllocError>
    ensures app { IfOk result (λ c. app_of c ≡ inventory_app) }
    ensures local { IfOk result (λ c. (out-Command c).has_globals ≡ false) }
{
    let about = "Print the tags that a reader sees";
    command(alloc, "inventory", about, INVENTORY_HELP, &INVENTORY)
}

/// The command `loop`.
fn loop_command<'a>(alloc: Global) -> Result<Command<'a>, AllocError>
    ensures app { IfOk result (λ c. app_of c ≡ loop_app) }
    ensures local { IfOk result (λ c. (out-Command c).has_globals ≡ false) }
{
    let about = "Print the tags that a simulated reader sees, by a script";
    command(alloc, "loop", about, LOOP_HELP, &LOOP)
}

/// The command `watch`.
fn watch_command<'a>(alloc: Global) -> Result<Command<'a>, AllocError>
    ensures app { IfOk result (λ c. app_of c ≡ watch_app) }
    ensures local { IfOk result (λ c. (out-Command c).has_globals ≡ false) }
{
    let about = "Print the tags that a reader sees, day and night";
    command(alloc, "watch", about, WATCH_HELP, &WATCH)
}

/// The command `stop`, which takes what `watch` takes.
fn stop_command<'a>(alloc: Global) -> Result<Command<'a>, AllocError>
    ensures app { IfOk result (λ c. app_of c ≡ stop_app) }
    ensures local { IfOk result (λ c. (out-Command c).has_globals ≡ false) }
{
    let about = "Delete the ROSpec that watch left on a reader";
    let as_watch = command(alloc, "stop", about, STOP_HELP, &WATCH)?;
    as_watch.arg(argument(alloc, STOP_TIMEOUT))
}

/// The command `ask`.
fn ask_command<'a>(alloc: Global) -> Result<Command<'a>, AllocError>
    ensures app { IfOk result (λ c. app_of c ≡ ask_app) }
    ensures local { IfOk result (λ c. (out-Command c).has_globals ≡ false) }
{
    let about = "Send the messages of a file to a reader, and show what comes";
    command(alloc, "ask", about, ASK_HELP, &ASK)
}

/// The command `access`.
fn access_command<'a>(alloc: Global) -> Result<Command<'a>, AllocError>
    ensures app { IfOk result (λ c. app_of c ≡ access_app) }
    ensures local { IfOk result (λ c. (out-Command c).has_globals ≡ false) }
{
    let about = "Read, write or lock one tag";
    command(alloc, "access", about, ACCESS_HELP, &ACCESS)
}

/// The program without its commands.
fn top_command<'a>(alloc: Global) -> Result<Command<'a>, AllocError>
    ensures { IfOk result (λ c. app_of c ≡ top_app) }
{
    Command::new(alloc, "llrp")
        .about("Reads and writes streams of LLRP 1.1 messages")
        .version(VERSION)
        .no_binary_name(true)
        .subcommand_required(true)
        .bin_name("llrp")
}

/// The program without the commands that it runs itself.
fn streams_command<'a>(alloc: Global) -> Result<Command<'a>, AllocError>
    ensures { IfOk result (λ c. app_of c ≡ streams_app) }
{
    let with_first = with_command(top_command(alloc), show_command(alloc));
    let with_both = with_command(with_first, encode_command(alloc));
    let with_epc = with_command(with_both, epc_command(alloc));
    let with_fields = with_command(with_epc, fields_command(alloc));
    with_command(with_fields, explain_command(alloc))
}

/// The program without the commands that last.
fn runs_command<'a>(alloc: Global) -> Result<Command<'a>, AllocError>
    ensures { IfOk result (λ c. app_of c ≡ runs_app) }
{
    let with_first = with_command(streams_command(alloc), sim_command(alloc));
    let with_both = with_command(with_first, inventory_command(alloc));
    with_command(with_both, loop_command(alloc))
}

/// The program with all its commands.
pub(crate) fn llrp_command<'a>(alloc: Global) -> Result<Command<'a>, AllocError>
    ensures { IfOk result (λ c. app_of c ≡ llrp_app) }
{
    let with_first = with_command(runs_command(alloc), watch_command(alloc));
    let with_both = with_command(with_first, stop_command(alloc));
    let with_ask = with_command(with_both, ask_command(alloc));
    with_command(with_ask, access_command(alloc))
}
