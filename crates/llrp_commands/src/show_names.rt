//! The command `show` with --names.

ghost use Rattle.std.specs.Prelude.{◌≤◌, ◌≡◌, MatchOption, IfErr};
ghost use Rattle.llrp_tree.specs.declared.TheConstants.{MAX_LIMIT};
ghost use Rattle.llrp_stream.specs.Calls.Device.{CanWrite};
ghost use Rattle.llrp_stream.specs.Device.{IsFreshSink, IsFreshSource};
ghost use Rattle.llrp_json.specs.declared.names.Names.{Names};
ghost use Rattle.llrp_commands.specs.Calls.Command.{FailsAsTold};
ghost use Rattle.llrp_commands.specs.Calls.ShowNames.{AsksNames, NamedTo};

use crate::command::{USAGE, answer, show, verdict_status};
use llrp_json::Names;
use llrp_listing::{ToolErr, write_all};
use llrp_schema::KindSet;
use llrp_stream::{Sink, Source};
use std::alloc::Global;

/// What is written where --names goes with no --json, or has another word.
const MISTAKE: &[u8] = b"\
error: show takes --json --names profile, or --json --names standard

For more information, try '--help'.
";

/// The names that --names asks for with this word, beside --json or without it.
fn names_asked(json: bool, word: &str) -> Option<Names>
    ensures { MatchOption result ((names : Names) → AsksNames json word.now names → ⊥)
        (AsksNames json word.now) }
{
    if !json {
        return None;
    }
    match word {
        "profile" => Some(Names::Own),
        "standard" => Some(Names::Standard),
        _ => None,
    }
}

/// The command `show` with this word of --names, and its exit status.
pub(crate) fn show_by_names<R: Source, W: Sink, E: Sink>(
    alloc: Global,
    json: bool,
    word: &str,
    hex: bool,
    set: KindSet,
    limit: u32,
    r: &mut R,
    w: &mut W,
    e: &mut E,
) -> Result<u8, ToolErr>
    requires least { 10 ≤ limit }
    requires most { limit ≤ MAX_LIMIT }
    requires source { IsFreshSource (R.log r.old) }
    requires sink { IsFreshSink (W.log w.old) }
    requires errors { CanWrite (E.log e.old) }
    ensures named { NamedTo json word.now hex set limit (R.log r.old) (R.log r.new) (W.log w.old)
        (W.log w.new) (E.log e.old) (E.log e.new) result }
    ensures errors { IfErr result (λ error. FailsAsTold (E.log e.old) (E.log e.new) error) }
{
    match names_asked(json, word) {
        Some(names) => {
            let outcome = show(alloc, Some(names), hex, set, limit, r, w);
            answer(verdict_status(outcome), e)
        }
        None => {
            write_all(e, MISTAKE)?;
            Ok(USAGE)
        }
    }
}
