//! The command `fields`.

ghost use Rattle.std.specs.Prelude.{◌≡◌, IfOk, Ok, Err, false, option_map, true};
ghost use Rattle.llrp_commands.specs.Calls.Fields.{AnswersFields, DoesFields, no_name};
ghost use Rattle.llrp_stream.specs.Device.{IsFreshSink};
ghost use Rattle.llrp_stream.specs.Calls.Device.{CanWrite};

use crate::command::answer;
use llrp_explain::{line_of, nearest_names, table};
use llrp_listing::{ToolErr, write_all};
use llrp_schema::KindSet;
use llrp_stream::Sink;
use std::alloc::{AllocError, Global};

/// The exit status where no kind has the name.
const NO_KIND: u8 = 1;

/// Writes what the tables say of the kind with this name, or with no name of all kinds. Returns
/// whether there is such a kind.
pub(crate) fn fields<W: Sink>(
    alloc: Global,
    set: KindSet,
    name: Option<&str>,
    w: &mut W,
) -> Result<bool, ToolErr>
    requires sink { IsFreshSink (W.log w.old) }
    ensures { DoesFields set (option_map (λ t. t.now) name.entry) (W.log w.old) (W.log w.new) result }
{
    let text = match name {
        Some(name) => line_of(alloc, set, name.as_bytes())?,
        None => table(alloc, set)?,
    };
    write_all(w, text.as_slice())?;
    Ok(!text.is_empty())
}

/// The line that says that no kind has a name, and which names are nearest.
fn no_name_line(alloc: Global, set: KindSet, name: &str) -> Result<Vec<u8>, AllocError>
    ensures { IfOk result (λ line. line.items ≡ no_name set name.now) }
{
    let names = nearest_names(alloc, set, name.as_bytes())?;
    let mut line = Vec::new(alloc);
    line.extend_from_slice(b"llrp: name; nearest: ")?;
    line.extend_from_slice(names.as_slice())?;
    line.push(b'\n')?;
    Ok(line)
}

/// The exit status of `fields` with this name, after the line of its error, if it has one, was written.
pub(crate) fn answer_fields<E: Sink>(
    alloc: Global,
    set: KindSet,
    name: &str,
    outcome: Result<bool, ToolErr>,
    e: &mut E,
) -> Result<u8, ToolErr>
    requires { CanWrite (E.log e.old) }
    ensures { AnswersFields set name.now outcome (E.log e.old) (E.log e.new) result }
{
    match outcome {
        Ok(true) => Ok(0),
        Ok(false) => {
            let line = no_name_line(alloc, set, name)?;
            write_all(e, line.as_slice())?;
            Ok(NO_KIND)
        }
        Err(error) => answer(Err(error), e),
    }
}
