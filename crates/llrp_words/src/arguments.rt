//! What the words of the command line ask for.

ghost use Rattle.std.specs.Prelude.{◌≡◌, ◌↔◌, IfOk, IfSome, IsTrue, List, Some, [], codes, false, map, true, unwrap_or, ℕ};
ghost use Rattle.clap.specs.Words.{all_of, found_of, rows_of, subcommand_rows_of};
ghost use Rattle.llrp_words.specs.Private.Parse.{HasLimitWord, HasNumberWord, IsFound, IsNetworkParse, IsParse, HasPlan, MayHaveId, MayHaveNumberWord};
ghost use Rattle.llrp_words.specs.Calls.Arguments.{AsksForInput, FilesAsked, HasNumber, HasOptionalNumber, HasOptionalText, IsBounded, IsNetwork, IsPlan, NetworkAsked, TextsAsked, command_in, parses, reads_files};
ghost use Rattle.llrp_words.specs.Calls.Asked.{asked};
ghost use Rattle.llrp_words.specs.Calls.Said.{said};
ghost use Rattle.llrp_words.specs.Calls.Requests.{HasLimit, IsText, IsLimit, IsRequest};
ghost use Rattle.llrp_words.specs.Private.Words.{IsFiles, IsTexts};

mod access_help;
mod access_words;
mod ask_help;
mod ask_words;
mod commands;
mod epc_words;
mod help;
mod label_words;
mod rows;
mod segment_words;
mod sim_words;
mod stream_words;
mod tables;
mod watch_help;
mod watch_words;

pub use access_words::AccessWords;
use access_words::access_words;
pub use ask_words::AskWords;
use ask_words::ask_words;
use clap::ArgMatches;
use clap::error::ErrorKind;
use commands::llrp_command;
pub use epc_words::EpcWords;
use epc_words::epc_words;
pub use label_words::LabelWords;
use label_words::label_words;
pub use segment_words::SegmentWords;
use segment_words::segment_words;
pub use sim_words::SimWords;
use sim_words::sim_words;
use std::alloc::{AllocError, Global};
use std::convert::AsStr;
pub use stream_words::{EncodeWords, ShowWords};
use stream_words::{encode_words, show_words};
pub use watch_words::{StopWords, WatchWords};
use watch_words::{host, longest, stop_words, watch_words};

/// The most octets of a message that --limit takes: the greatest limit that `llrp_tree` has.
pub const MOST_OCTETS: u32 = 1_048_576;

/// What the words say of a plan. What an option gives is `None` if it is left out.
#[derive(Clone, Copy, Debug, PartialEq, Eq)]
pub struct PlanWords<'a> {
    /// The path of the file with the plan's ROSpec.
    pub rospec: Option<&'a str>,
    /// After how many tags the reader reports.
    pub every: Option<u16>,
    /// How often the client asks for reports.
    pub polls: Option<u16>,
    /// How many reports with tags the client awaits before that.
    pub reports: Option<u16>,
    /// Whether the reader's table is compared with the client's view.
    pub check: bool,
    /// Whether the reader's ROSpecs are deleted first.
    pub clean: bool,
    /// Whether each line is an object of JSON.
    pub json: bool,
    /// Whether the reader's messages may be any of LLRP 1.1.
    pub all: bool,
}

/// A command that the program runs itself, over sockets.
#[derive(Clone, Copy, Debug, PartialEq, Eq)]
pub enum NetworkCommand<'a> {
    /// A simulated reader that serves clients by a script.
    Sim {
        words: SimWords<'a>,
    },
    /// An inventory of the reader at this host and port, by this plan. A connection or a read fails
    /// if it gets nothing for this many seconds, and a message has at most this many octets. More may
    /// be said of the connection, and the lines of tags may have labels.
    Inventory {
        host: &'a str,
        port: u16,
        plan: PlanWords<'a>,
        timeout: Option<u16>,
        limit: u32,
        verbose: bool,
        labels: LabelWords<'a>,
    },
    /// An inventory of a simulated reader, by a script and this plan.
    Loop {
        plan: PlanWords<'a>,
    },
    /// What the reader at this host sees, for as long as the connection lasts.
    Watch {
        host: &'a str,
        words: WatchWords<'a>,
    },
    /// Deletes the ROSpec that `watch` left on the reader at this host.
    Stop {
        host: &'a str,
        words: StopWords<'a>,
    },
    /// Sends the messages of a file to the reader at this host.
    Ask {
        host: &'a str,
        words: AskWords<'a>,
    },
    /// Reads, writes or locks one tag by the reader at this host.
    Access {
        host: &'a str,
        words: AccessWords<'a>,
    },
}

/// What the words ask for.
#[derive(Drop)]
pub enum Request<'a> {
    /// Lists a stream of bytes, or the frames of a capture's segments.
    Show(ShowWords<'a>),
    /// Writes the bytes of a listing, or of lines of JSON, or their hexadecimal digits.
    Encode(EncodeWords<'a>),
    /// Prints the text of a word's digits, or the digits of a word's text, or texts in other forms.
    Epc(EpcWords<'a>),
    /// Prints what the tables of the profile or of the whole standard say of the kind with this name,
    /// or of all.
    Fields {
        all: bool,
        name: Option<&'a str>,
    },
    /// Explains a stream of bytes, or of hexadecimal digits, field by field, in the profile or in the whole
    /// standard, as text or as lines of JSON; all of its frames, or those with this id. A message longer than this many octets
    /// is a fault.
    Explain {
        hex: bool,
        all: bool,
        json: bool,
        only: Option<u32>,
        limit: u32,
    },
    /// A command that the program runs itself.
    Network(NetworkCommand<'a>),
    /// Prints this help.
    Help(String),
    /// Asks for no command; this text says why.
    Usage(String),
}

/// The number of an argument, which the parse has checked.
fn number(inner: &ArgMatches<'_>, id: &str) -> u16
    requires { HasNumberWord id.now (rows_of (found_of inner.now)) }
    ensures { (name : List ℕ) → HasNumber id.now (Some
        (name, rows_of (found_of inner.now))) result }
{
    inner.get_one::<u16>(id).unwrap()
}

/// The limit of a command over a stream, which the parse has checked.
fn limit(inner: &ArgMatches<'_>) -> u32
    requires { HasLimitWord (codes "limit") (rows_of (found_of inner.now)) }
    ensures number { (name : List ℕ) → HasNumber (codes "limit")
        (Some (name, rows_of (found_of inner.now))) result }
    ensures limit { IsLimit result }
{
    inner.get_one::<u32>("limit").unwrap()
}

/// The id of the option --only, if it is given; the parse has checked it.
fn only_id(inner: &ArgMatches<'_>) -> Option<u32>
    requires { MayHaveId (codes "only") (rows_of (found_of inner.now)) }
    ensures { (name : List ℕ) → HasOptionalNumber (codes "only")
        (Some (name, rows_of (found_of inner.now))) result }
{
    inner.get_one::<u32>("only")
}

/// The number of an option, if it is given; the parse has checked it.
fn optional_number(inner: &ArgMatches<'_>, id: &str) -> Option<u16>
    requires { MayHaveNumberWord id.now (rows_of (found_of inner.now)) }
    ensures { (name : List ℕ) → HasOptionalNumber id.now
        (Some (name, rows_of (found_of inner.now))) result }
{
    inner.get_one::<u16>(id)
}

/// The text of an option, if it is given.
fn optional_text<'a>(inner: &ArgMatches<'a>, id: &str) -> Option<&'a str>
    ensures { (name : List ℕ) → HasOptionalText id.now
        (Some (name, rows_of (found_of inner.now))) result }
{
    inner.get_str(id)
}

/// What the arguments say of a plan.
fn plan_words<'a>(inner: &ArgMatches<'a>) -> PlanWords<'a>
    requires { HasPlan (rows_of (found_of inner.now)) }
    ensures { (name : List ℕ) → IsPlan (Some (name, rows_of (found_of inner.now))) result }
{
    PlanWords {
        rospec: optional_text(inner, "rospec"),
        every: optional_number(inner, "every"),
        polls: optional_number(inner, "polls"),
        reports: optional_number(inner, "reports"),
        check: inner.get_flag("check"),
        clean: inner.get_flag("clean"),
        json: inner.get_flag("json"),
        all: inner.get_flag("all"),
    }
}

/// The command with this name, which the program runs itself.
fn network_named<'a>(name: &str, inner: &ArgMatches<'a>) -> NetworkCommand<'a>
    requires { IsNetworkParse name.now (rows_of (found_of inner.now)) }
    ensures command { IsNetwork (Some (name.now, rows_of (found_of inner.now))) result }
    ensures bounds { IsBounded result }
{
    if name == "sim" {
        return NetworkCommand::Sim {
            words: sim_words(inner),
        };
    }
    if name == "watch" {
        return NetworkCommand::Watch {
            host: host(inner),
            words: watch_words(inner),
        };
    }
    if name == "stop" {
        return NetworkCommand::Stop {
            host: host(inner),
            words: stop_words(inner),
        };
    }
    if name == "ask" {
        return NetworkCommand::Ask {
            host: host(inner),
            words: ask_words(inner),
        };
    }
    if name == "access" {
        return NetworkCommand::Access {
            host: host(inner),
            words: access_words(inner),
        };
    }
    let plan = plan_words(inner);
    if name == "loop" {
        return NetworkCommand::Loop { plan };
    }
    NetworkCommand::Inventory {
        host: host(inner),
        port: number(inner, "PORT"),
        plan,
        timeout: optional_number(inner, "timeout"),
        limit: longest(inner),
        verbose: inner.get_flag("verbose"),
        labels: label_words(inner),
    }
}

/// The request for the command with this name.
fn request_named<'a>(name: &str, inner: &ArgMatches<'a>) -> Request<'a>
    requires { IsParse name.now (rows_of (found_of inner.now)) }
    ensures request { IsRequest (Some (name.now, rows_of (found_of inner.now))) result }
    ensures limit { HasLimit result }
{
    if name == "epc" {
        return Request::Epc(epc_words(inner));
    }
    if name == "show" {
        Request::Show(show_words(inner))
    } else if name == "encode" {
        Request::Encode(encode_words(inner))
    } else if name == "fields" {
        Request::Fields {
            all: inner.get_flag("all"),
            name: optional_text(inner, "NAME"),
        }
    } else if name == "explain" {
        Request::Explain {
            hex: inner.get_flag("hex"),
            all: inner.get_flag("all"),
            json: inner.get_flag("json"),
            only: only_id(inner),
            limit: limit(inner),
        }
    } else {
        Request::Network(network_named(name, inner))
    }
}

/// The request for the command that the words name.
fn chosen<'a>(matches: &ArgMatches<'a>) -> Request<'a>
    requires { IsFound (subcommand_rows_of matches.now) }
    ensures request { IsRequest (subcommand_rows_of matches.now) result }
    ensures limit { HasLimit result }
{
    let (name, inner) = matches.subcommand().unwrap();
    request_named(name, inner)
}

/// Whether the command with this name reads files.
fn reads_files(name: &str) -> bool
    ensures { result ≡ reads_files (Some name.now) }
{
    name == "show" || name == "encode" || name == "explain"
}

/// The words of the argument FILE.
fn given_files<'a>(alloc: Global, inner: &ArgMatches<'a>) -> Result<Vec<&'a str>, AllocError>
    ensures { IfOk result (λ files. map (λ file. file.now) files.items
        ≡ unwrap_or (all_of (codes "FILE") (rows_of (found_of inner.now))) []) }
{
    match inner.get_strs("FILE") {
        Some(files) => files.to_vec(alloc),
        None => Ok(Vec::new(alloc)),
    }
}

/// The files of a command that was found.
fn files_of<'a>(
    alloc: Global,
    name: &str,
    inner: &ArgMatches<'a>,
) -> Result<Vec<&'a str>, AllocError>
    ensures { IfOk result (λ files. IsFiles (Some (name.now, rows_of (found_of inner.now)))
        (map (λ file. file.now) files.items)) }
{
    if reads_files(name) {
        given_files(alloc, inner)
    } else {
        Ok(Vec::new(alloc))
    }
}

/// The files of the command that the words name.
fn chosen_files<'a>(alloc: Global, matches: &ArgMatches<'a>) -> Result<Vec<&'a str>, AllocError>
    ensures { IfOk result (λ files. IsFiles (subcommand_rows_of matches.now)
        (map (λ file. file.now) files.items)) }
{
    match matches.subcommand() {
        Some((name, inner)) => files_of(alloc, name, inner),
        None => Ok(Vec::new(alloc)),
    }
}

/// What the words after the program's name ask for, and the files that they ask `show`, `encode` or `explain` to read, in their order:
/// none where they ask for standard input, or for no such command. The words are parsed once. The only error is that memory ran out.
pub fn asked_of<'a, S: AsStr>(
    alloc: Global,
    words: &'a [S],
) -> Result<(Request<'a>, Vec<&'a str>), AllocError>
    ensures named { IfOk result (λ found. parses (map S.text words.entry.now) ≡ true
        → IsRequest (command_in (map S.text words.entry.now)) found.0) }
    ensures refused { IfOk result (λ found. parses (map S.text words.entry.now) ≡ false
        → IsText found.0) }
    ensures asked { IfOk result (λ found. said found.0 ≡ asked (map S.text words.entry.now)) }
    ensures limit { IfOk result (λ found. HasLimit found.0) }
    ensures files { IfOk result (λ found. FilesAsked (map S.text words.entry.now)
        (map (λ file. file.now) found.1.items)) }
{
    let command = llrp_command(alloc)?;
    match command.try_get_matches_from(words) {
        Ok(matches) => {
            let files = chosen_files(alloc, &matches)?;
            Ok((chosen(&matches), files))
        }
        Err(error) => {
            if let ErrorKind::OutOfMemory = error.kind() {
                return Err(AllocError);
            }
            let text = error.to_string(alloc)?;
            let files = Vec::new(alloc);
            if error.use_stderr() {
                Ok((Request::Usage(text), files))
            } else {
                Ok((Request::Help(text), files))
            }
        }
    }
}

/// What the words after the program's name ask for. The only error is that memory ran out.
pub fn request_of<'a, S: AsStr>(alloc: Global, words: &'a [S]) -> Result<Request<'a>, AllocError>
    ensures named { IfOk result (λ request. parses (map S.text words.entry.now) ≡ true
        → IsRequest (command_in (map S.text words.entry.now)) request) }
    ensures refused { IfOk result (λ request. parses (map S.text words.entry.now) ≡ false
        → IsText request) }
    ensures asked { IfOk result (λ request. said request ≡ asked (map S.text words.entry.now)) }
    ensures limit { IfOk result (λ request. HasLimit request) }
{
    let (request, _files) = asked_of(alloc, words)?;
    Ok(request)
}

/// The command over sockets that the words after the program's name ask for, if they ask for one.
/// The only error is that memory ran out.
pub fn network_command<'a, S: AsStr>(
    alloc: Global,
    words: &'a [S],
) -> Result<Option<NetworkCommand<'a>>, AllocError>
    ensures command { IfOk result (λ command. NetworkAsked (map S.text words.entry.now) command) }
    ensures bounds { IfOk result (λ command. IfSome command IsBounded) }
{
    match request_of(alloc, words)? {
        Request::Network(command) => Ok(Some(command)),
        _ => Ok(None),
    }
}

/// The files that the words ask `show`, `encode` or `explain` to read, as [`asked_of`] returns them.
pub fn files_asked<'a, S: AsStr>(alloc: Global, words: &'a [S]) -> Result<Vec<&'a str>, AllocError>
    ensures { IfOk result (λ files. FilesAsked (map S.text words.entry.now)
        (map (λ file. file.now) files.items)) }
{
    let (_request, files) = asked_of(alloc, words)?;
    Ok(files)
}

/// The texts of an option that may be given several times.
fn given_texts<'a>(
    alloc: Global,
    inner: &ArgMatches<'a>,
    id: &str,
) -> Result<Vec<&'a str>, AllocError>
    ensures { IfOk result (λ texts. map (λ text. text.now) texts.items
        ≡ unwrap_or (all_of id.now (rows_of (found_of inner.now))) []) }
{
    match inner.get_strs(id) {
        Some(texts) => texts.to_vec(alloc),
        None => Ok(Vec::new(alloc)),
    }
}

/// The texts of such an option of the command that the words name.
fn chosen_texts<'a>(
    alloc: Global,
    matches: &ArgMatches<'a>,
    id: &str,
) -> Result<Vec<&'a str>, AllocError>
    ensures { IfOk result (λ texts. IsTexts id.now (subcommand_rows_of matches.now)
        (map (λ text. text.now) texts.items)) }
{
    match matches.subcommand() {
        Some((_name, inner)) => given_texts(alloc, inner, id),
        None => Ok(Vec::new(alloc)),
    }
}

/// The texts that the words give an option of their command, in their order: `read`, `write` or `lock` of `access`. There are none
/// where it is left out. The only error is that memory ran out.
pub fn texts_asked<'a, S: AsStr>(
    alloc: Global,
    words: &'a [S],
    id: &str,
) -> Result<Vec<&'a str>, AllocError>
    ensures { IfOk result (λ texts. TextsAsked id.now (map S.text words.entry.now)
        (map (λ text. text.now) texts.items)) }
{
    let command = llrp_command(alloc)?;
    match command.try_get_matches_from(words) {
        Ok(matches) => chosen_texts(alloc, &matches, id),
        Err(error) => match error.kind() {
            ErrorKind::OutOfMemory => Err(AllocError),
            _ => Ok(Vec::new(alloc)),
        },
    }
}

/// Whether the words ask for a command that reads its input to its end, `show`, `encode` or `explain`. That is standard input,
/// unless [`files_asked`] returns files.
/// The only error is that memory ran out.
pub fn reads_input<S: AsStr>(alloc: Global, words: &[S]) -> Result<bool, AllocError>
    ensures { IfOk result (λ reads. IsTrue reads ↔ AsksForInput (map S.text words.entry.now)) }
{
    let request = request_of(alloc, words)?;
    Ok(matches!(
        &request,
        Request::Show(_) | Request::Encode(_) | Request::Explain { .. }
    ))
}
