//! Answers to the lines of a list that a source gives.

ghost use Rattle.std.specs.Prelude.{◌<◌};
ghost use Rattle.tag_forms.specs.Company.{IsUsable};
ghost use Rattle.llrp_keys.specs.ListLines.{AnswersList};
ghost use Rattle.llrp_stream.specs.Device.{IsFreshSink, IsFreshSource};

use crate::text::verdict_of;
use llrp_listing::{Pieces, ToolErr, Verdict, hand_on};
use llrp_stream::{Sink, Source};
use std::alloc::Global;
use tag_forms::{Company, TextList, Wanted};

/// Writes a line for each line of the list that the source gives: what is wanted of it, which says why it is refused where
/// the verdict is `Faulty`. The answers to the lines that end in the octets of one read are written before the next read. The errors are
/// `Read` and `Bound`, after which the lines that end in what was read are answered, and `Write` and `Memory`, after which some first
/// part of the answers was written.
pub fn run_list<R: Source, W: Sink>(
    alloc: Global,
    to: Wanted,
    filter: u8,
    company: Company<'_>,
    r: &mut R,
    w: &mut W,
) -> Result<Verdict, ToolErr>
    requires filter { filter < 8 }
    requires company { IsUsable company }
    requires source { IsFreshSource (R.log r.old) }
    requires sink { IsFreshSink (W.log w.old) }
    ensures { AnswersList to filter company.entry (R.log r.old) (R.log r.new) (W.log w.old)
        (W.log w.new) result }
{
    let mut list = TextList::new(alloc, to, filter, company);
    let mut answers = Vec::new(alloc);
    let mut pieces = Pieces::new();
    while let Some(piece) = pieces.next(r)? {
        list.take(piece, &mut answers)?;
        hand_on(&mut answers, w)?;
    }
    list.end(&mut answers)?;
    hand_on(&mut answers, w)?;
    Ok(verdict_of(list.refused()))
}
