//! The command `access`: reads, writes or locks one tag.

ghost use Rattle.std.specs.Prelude.{◌≡◌, IfErr, IfOk};
ghost use Rattle.llrp_stream.specs.Calls.Device.{CanWrite};
ghost use Rattle.llrp_stream.specs.Device.{IsFreshSink, Wrote};
ghost use Rattle.llrp.specs.Calls.AccessEnding.{AccessesReader, FailsReader, SaysEnding, ending_after};

use crate::access_errand::{OperationTexts, errand_words, password_in};
use crate::address::Address;
use crate::connecting::connect;
use crate::network::conclude;
use crate::timed::{TimedReads, TimedWrites};
use crate::waiting::{Waiting, own_bounds};
use llrp_commands::{AccessWords, USAGE, answer, texts_asked};
use llrp_files::FAILED;
use llrp_listing::{ToolErr, write_all};
use llrp_operations::{
    AccessErr, Ending, Errand, ErrandErr, OperationOption, Patience, WordErr, errand_of, run_access,
};
use llrp_stream::{Output, Sink};
use std::alloc::{AllocError, Global};
use std::net::TcpStream;

/// For how many seconds further tags are waited for before a change, where nothing is said of it.
const SETTLE: u16 = 1;

/// For how many seconds a tag and each answer are waited for, where nothing is said of it.
const TIMEOUT: u16 = 10;

/// The exit status if all was done.
const DONE: u8 = 0;

/// The exit status if the tag was not operated on as asked.
const UNDONE: u8 = 1;

/// What is written if the words say no operation.
const NOTHING: &[u8] = b"error: one of '--read', '--write', '--epc' and '--lock' is required\n";

/// What is written if --tag is no tag.
const NO_TAG: &[u8] =
    b"error: invalid value for '--tag <TAG>': expected hexadecimal digits of whole words, 31 at most, a tag URI or any\n";

/// What is written if --epc is no tag URI.
const NO_URI: &[u8] = b"error: invalid value for '--epc <URI>': expected a tag URI\n";

/// What is written if there is more than an AccessSpec can have.
const TOO_LONG: &[u8] = b"error: the operations are too long for an AccessSpec\n";

/// What is written where a reader refused an AccessSpec of two C1G2TargetTags.
const TARGETS: &[u8] =
    b"llrp: hint: the AccessSpec has two C1G2TargetTags, and the reader may take one alone\n";

/// The exit status if it is not known whether the tag was changed.
const UNKNOWN: u8 = 4;

/// The texts of the operations in the program's words.
pub fn operation_texts(alloc: Global, words: &[String]) -> Result<OperationTexts<'_>, AllocError> {
    Ok(OperationTexts {
        reads: texts_asked(alloc, words, "read")?,
        writes: texts_asked(alloc, words, "write")?,
        locks: texts_asked(alloc, words, "lock")?,
    })
}

/// What was expected of a text of an option.
fn expected(error: WordErr) -> &'static [u8] {
    match error {
        WordErr::Form => b"expected the form of its name".as_slice(),
        WordErr::Bank => b"BANK is reserved, epc, tid or user".as_slice(),
        WordErr::Place => b"WORD is a number from 0 to 65535".as_slice(),
        WordErr::Count => b"COUNT is a number from 0 to 65535".as_slice(),
        WordErr::Digits => b"HEX is the digits of whole words of 16 bits".as_slice(),
        WordErr::Field => b"FIELD is kill, access, epc, tid or user".as_slice(),
        WordErr::Manner => { b"HOW is lock, unlock, permanent-lock or permanent-unlock".as_slice() }
        WordErr::Memory => b"memory".as_slice(),
    }
}

/// The option, with the form of its text.
fn form_of(option: OperationOption) -> &'static [u8] {
    match option {
        OperationOption::Read => b"--read <BANK:WORD:COUNT>".as_slice(),
        OperationOption::Write => b"--write <BANK:WORD=HEX>".as_slice(),
        OperationOption::Lock => b"--lock <FIELD=HOW>".as_slice(),
    }
}

/// Writes what is wrong with the words, and where there is help, and returns the exit status.
fn refuse<E: Sink>(said: &[u8], errors: &mut E) -> Result<u8, ToolErr>
    requires { CanWrite (E.log errors.old) }
{
    write_all(errors, said)?;
    write_all(errors, b"\nFor more information, try '--help'.\n")?;
    Ok(USAGE)
}

/// Writes why a text of an option says no operation, and returns the exit status.
fn refuse_text<E: Sink>(
    option: OperationOption,
    error: WordErr,
    errors: &mut E,
) -> Result<u8, ToolErr>
    requires { CanWrite (E.log errors.old) }
{
    write_all(errors, b"error: invalid value for '")?;
    write_all(errors, form_of(option))?;
    write_all(errors, b"': ")?;
    write_all(errors, expected(error))?;
    refuse(b"\n", errors)
}

/// Writes why the words ask for nothing, and returns the exit status.
fn refuse_errand<E: Sink>(error: ErrandErr, errors: &mut E) -> Result<u8, ToolErr>
    requires { CanWrite (E.log errors.old) }
{
    match error {
        ErrandErr::Tag => refuse(NO_TAG, errors),
        ErrandErr::Uri => refuse(NO_URI, errors),
        ErrandErr::Text(option, error) => refuse_text(option, error, errors),
        ErrandErr::Nothing => refuse(NOTHING, errors),
        ErrandErr::TooLong => refuse(TOO_LONG, errors),
        ErrandErr::Memory => answer(Err(ToolErr::Memory), errors),
    }
}

/// Writes a line, and returns the exit status that goes with it.
fn say<E: Sink>(line: &[u8], status: u8, errors: &mut E) -> Result<u8, ToolErr>
    requires { CanWrite (E.log errors.old) }
    ensures { IfOk result (λ s. (s ≡ status) × Wrote (E.log errors.old) (E.log errors.new) line.now) }
{
    write_all(errors, line)?;
    Ok(status)
}

/// Writes the line of a status by which a reader refused an AccessSpec of two C1G2TargetTags, and a hint at them.
#[tactic(auto, using(llrp_stream::proofs::WritingLemmas::wrote_more))]
fn say_targets<E: Sink>(status: u16, errors: &mut E) -> Result<u8, ToolErr>
    requires { CanWrite (E.log errors.old) }
    ensures { IfOk result (SaysEnding (Ending.RefusedTargets status) (E.log errors.old) (E.log errors.new)) }
{
    answer(Err(ToolErr::Peer(status)), errors)?;
    say(TARGETS, UNDONE, errors)
}

/// Says what came of it in a line, if not all was done, and returns the exit status.
#[tactic(auto, using(llrp_stream::proofs::WritingLemmas::wrote_nothing))]
pub fn say_ending<E: Sink>(ending: Ending, errors: &mut E) -> Result<u8, ToolErr>
    requires { CanWrite (E.log errors.old) }
    ensures { IfOk result (SaysEnding ending (E.log errors.old) (E.log errors.new)) }
{
    match ending {
        Ending::Done => Ok(DONE),
        Ending::Undone => say(b"llrp: not done\n", UNDONE, errors),
        Ending::Several => say(b"llrp: several tags\n", UNDONE, errors),
        Ending::NoEpc => say(b"llrp: no epc\n", UNDONE, errors),
        Ending::NoTag => say(b"llrp: no tag\n", UNDONE, errors),
        Ending::Unknown => say(b"llrp: unknown, read again\n", UNKNOWN, errors),
        Ending::Refused(status) => answer(Err(ToolErr::Peer(status)), errors),
        Ending::RefusedTargets(status) => say_targets(status, errors),
        Ending::Broken(cause) => answer(Err(cause), errors),
    }
}

/// What it comes to that there is no ending: where a tag may have been changed, that it is not known.
pub fn ending_after(error: AccessErr) -> Ending
    ensures { result ≡ ending_after error }
{
    if error.may_have_changed {
        Ending::Unknown
    } else {
        Ending::Broken(error.error)
    }
}

/// Does to a tag what an errand says, by the reader at the other end of the stream. Writes the lines of the
/// results to `shown`. The errors are those of [`run_access`].
pub fn access_reader<P: Sink>(
    rt: &HostRuntime,
    stream: &TcpStream,
    waiting: &Waiting<'_>,
    errand: Errand<'_>,
    patience: Patience,
    shown: &mut P,
) -> Result<Ending, AccessErr>
    requires { IsFreshSink (P.log shown.old) }
    ensures accesses { IfOk result (AccessesReader errand.entry (P.log shown.old) (P.log shown.new)) }
    ensures failed { IfErr result (FailsReader errand.entry) }
{
    let mut source = TimedReads::new(rt.alloc(), waiting, stream);
    let mut sink = TimedWrites::new(rt.alloc(), waiting, stream);
    run_access(rt.alloc(), errand, patience, &mut source, &mut sink, shown)
}

/// For how long the words wait.
fn patience_of(words: AccessWords<'_>) -> Patience {
    Patience {
        settle: words.settle.unwrap_or(SETTLE),
        timeout: words.timeout.unwrap_or(TIMEOUT),
    }
}

/// Does what the words ask to one tag, and returns the exit status.
pub fn access(
    rt: &HostRuntime,
    reader: Address<'_>,
    words: AccessWords<'_>,
    texts: &OperationTexts<'_>,
) -> Result<u8, ToolErr> {
    let mut errors = Output::new(rt.stderr());
    let asked = match errand_of(rt.alloc(), errand_words(words, texts)) {
        Ok(asked) => asked,
        Err(error) => return refuse_errand(error, &mut errors),
    };
    let Some(password) = password_in(rt, words.password_file) else {
        return say(b"llrp: password\n", FAILED, &mut errors);
    };
    let patience = patience_of(words);
    let waiting = Waiting::new(rt, own_bounds(1_000 * patience.timeout as u64));
    let Some(stream) = connect(rt, reader, &waiting) else {
        return conclude(None, &mut errors);
    };
    let mut shown = Output::new(rt.stdout());
    match access_reader(
        rt,
        &stream,
        &waiting,
        asked.errand(password),
        patience,
        &mut shown,
    ) {
        Ok(ending) => say_ending(ending, &mut errors),
        Err(error) => say_ending(ending_after(error), &mut errors),
    }
}
