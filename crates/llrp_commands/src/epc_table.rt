//! The command `epc` with a file of company prefixes.

ghost use Rattle.std.specs.Prelude.{◌++◌, ◌≡◌, IfErr, IfOk, codes, decimal, map, option_map};
ghost use Rattle.llrp_words.specs.Calls.Arguments.{FileAsked};
ghost use Rattle.llrp_commands.specs.Calls.Command.{FailsAsTold};
ghost use Rattle.llrp_commands.specs.Calls.Epc.{DoesEpcBy, RefusesTable, RunsEpcByFile};
ghost use Rattle.llrp_words.specs.Calls.Requests.{IsUnsaid};
ghost use Rattle.llrp_listing.specs.Calls.Copying.{Writes};
ghost use Rattle.llrp_stream.specs.Device.{IsFreshSink, IsFreshSource};
ghost use Rattle.llrp_stream.specs.Calls.Device.{CanWrite};

use crate::command::{USAGE, answer, write_parts};
use crate::epc::{answer_epc, epc, mistake_of};
use itoa::Buffer;
use llrp_keys::{TableErr, read_prefixes};
use llrp_listing::{ToolErr, Verdict, write_all};
use llrp_stream::{Sink, Source};
use llrp_words::{EpcWords, Request, request_of};
use std::alloc::{AllocError, Global};
use std::convert::AsStr;
use tag_forms::{Company, Prefixes};

/// The exit status if a line of the file is refused, and if the file cannot be read.
const REFUSED: u8 = 1;

const UNREAD: u8 = 3;

/// The path of the file of company prefixes that the words after the program's name ask for with `epc`, if
/// they ask for one. The only error is that memory ran out.
pub fn prefixes_file<'a, S: AsStr>(
    alloc: Global,
    words: &'a [S],
) -> Result<Option<&'a str>, AllocError>
    ensures { IfOk result (λ file. FileAsked (map S.text words.entry.now) file) }
{
    match request_of(alloc, words)? {
        Request::Epc(words) => Ok(words.prefixes),
        _ => Ok(None),
    }
}

/// Writes the number of a line that is refused, and the reason.
fn write_table_line<E: Sink>(e: &mut E, line: u64, reason: &[u8]) -> Result<(), ToolErr>
    requires { CanWrite (E.log e.old) }
    ensures { Writes (codes "llrp: prefixes line " ++ (decimal line ++ reason.now)) (E.log e.old)
        (E.log e.new) result }
{
    let mut digits = Buffer::new();
    let number = digits.format(line).as_bytes();
    write_parts(e, &[b"llrp: prefixes line ", number, reason])
}

/// Writes why there is no table of company prefixes as a line, and returns the exit status: 1 if a line of
/// the file is refused, 3 if it cannot be read or memory ran out.
pub fn refuse_table<E: Sink>(no_table: TableErr, e: &mut E) -> Result<u8, ToolErr>
    requires { CanWrite (E.log e.old) }
    ensures { RefusesTable no_table (E.log e.old) (E.log e.new) result }
{
    match no_table {
        TableErr::Unread => {
            write_all(e, b"llrp: prefixes\n")?;
            Ok(UNREAD)
        }
        TableErr::Line(line) => {
            write_table_line(e, line, b": Line\n")?;
            Ok(REFUSED)
        }
        TableErr::Two(line) => {
            write_table_line(e, line, b": Two\n")?;
            Ok(REFUSED)
        }
        TableErr::Memory => answer(Err(ToolErr::Memory), e),
    }
}

/// The command `epc` with a table of company prefixes; `None` if its options do not go together.
fn epc_by<R: Source, W: Sink>(
    alloc: Global,
    words: EpcWords<'_>,
    table: &Prefixes,
    r: &mut R,
    w: &mut W,
) -> Result<Option<Verdict>, ToolErr>
    requires unsaid { IsUnsaid words }
    requires source { IsFreshSource (R.log r.old) }
    requires sink { IsFreshSink (W.log w.old) }
    ensures { DoesEpcBy (option_map (λ t. t.now) words.entry.text) words.entry.forms words.entry.list words.entry.json
        (option_map (λ t. t.now) words.entry.to) (option_map (λ t. t.now) words.entry.schemes)
        words.entry.company_digits words.entry.filter table.now (R.log r.old) (R.log r.new) (W.log w.old) (W.log w.new) result }
{
    match words.company_digits {
        Some(_) => Ok(None),
        None => epc(alloc, words, Company::Table(table), r, w),
    }
}

/// Runs `epc` with a file of company prefixes, which is read from `p` to its end, and returns its exit status
/// as [`run_command`] does: 1 too if a line of the file is refused, and 3 if it cannot be read. For other
/// words the status is 2, and nothing is read or written.
pub fn run_epc_by<S: AsStr, P: Source, R: Source, W: Sink, E: Sink>(
    alloc: Global,
    words: &[S],
    p: &mut P,
    r: &mut R,
    w: &mut W,
    e: &mut E,
) -> Result<u8, ToolErr>
    requires file { IsFreshSource (P.log p.old) }
    requires source { IsFreshSource (R.log r.old) }
    requires sink { IsFreshSink (W.log w.old) }
    requires errors { IsFreshSink (E.log e.old) }
    ensures ran { RunsEpcByFile (map S.text words.entry.now) (P.log p.old) (P.log p.new) (R.log r.old)
        (R.log r.new) (W.log w.old) (W.log w.new) (E.log e.old) (E.log e.new) result }
    ensures errors { IfErr result (λ error. FailsAsTold (E.log e.old) (E.log e.new) error) }
{
    let Request::Epc(words) = request_of(alloc, words)? else {
        return Ok(USAGE);
    };
    match read_prefixes(alloc, p) {
        Ok(table) => {
            let outcome = epc_by(alloc, words, &table, r, w);
            answer_epc(outcome, mistake_of(words), e)
        }
        Err(no_table) => refuse_table(no_table, e),
    }
}
