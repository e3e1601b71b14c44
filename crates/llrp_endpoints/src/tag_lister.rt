//! Lists the tags of a stream that comes in pieces, with all that the reader says of each.

ghost use Rattle.std.specs.Prelude.{◌≡◌, ◌≤◌, ◌++◌, [], IfOk, List, OnOk, ℕ};
ghost use Rattle.llrp_schema.specs.Schema.{groups_of};
ghost use Rattle.llrp_tree.specs.Tree.{forest};
ghost use Rattle.llrp_tree.specs.declared.TheConstants.{MAX_LIMIT};
ghost use Rattle.llrp_endpoints.specs.ReportedTags.{AreLinesOfItem, AreReportedLines, IsLineWhere, IsReportedLine, others, reported_tag};

use crate::form::LineForm;
use crate::gathering::objects::push_full_with;
use crate::gathering::tag_lines::push_tag;
use crate::heard::own_node;
use llrp_listing::Text;
use llrp_schema::{Kind, KindSet, MsgKind, ParamKind, number};
use llrp_stream::{Decoder, Fed, FeedErr, Item};
use llrp_tree::Node;
use std::alloc::{AllocError, Global};

/// Of the parameters of a TagReportData those of which the profile has nothing.
fn other_parameters(alloc: Global, nodes: &[Node]) -> Result<Vec<Node>, AllocError>
    ensures { IfOk result (λ row. forest row.items ≡ others (forest nodes.now)) }
{
    let mut row = Vec::new(alloc);
    for node in nodes {
        if own_node(alloc, Kind::Parameter(ParamKind::TagReportData), node)?.is_none() {
            row.push(node.try_clone(alloc)?)?;
        }
    }
    Ok(row)
}

/// Appends the line of a tag of which the profile has this.
fn push_reported(
    alloc: Global,
    text: &mut Text,
    form: LineForm,
    tag: &Node,
    own: &Node,
) -> Result<(), AllocError>
    ensures { OnOk result ((line : List ℕ) × IsReportedLine form tag.now own.now line
        × (text.new ≡ text.old ++ line)) }
{
    match form {
        LineForm::Full => {
            let others = other_parameters(alloc, tag.children().as_slice())?;
            push_full_with(text, own, others.as_slice())
        }
        LineForm::Words | LineForm::Json | LineForm::Tags => push_tag(text, form, own),
    }
}

/// Appends the line of a parameter of a report, if it is a tag.
fn push_if_tag(
    alloc: Global,
    text: &mut Text,
    form: LineForm,
    node: &Node,
) -> Result<(), AllocError>
    ensures { OnOk result ((line : List ℕ)
        × IsLineWhere form node.now (reported_tag node.now) line
        × (text.new ≡ text.old ++ line)) }
{
    match own_node(alloc, Kind::Message(MsgKind::RoAccessReport), node)? {
        Some(own) => push_reported(alloc, text, form, node, &own),
        None => Ok(()),
    }
}

/// Appends the lines of the parameters of a report that are tags.
fn push_report(
    alloc: Global,
    text: &mut Text,
    form: LineForm,
    nodes: &[Node],
) -> Result<(), AllocError>
    ensures { OnOk result ((lines : List ℕ) × AreReportedLines form (forest nodes.now) lines
        × (text.new ≡ text.old ++ lines)) }
{
    for node in nodes {
        push_if_tag(alloc, text, form, node)?;
    }
    Ok(())
}

/// Appends the lines of an item, if it is a report.
fn push_item(alloc: Global, text: &mut Text, form: LineForm, item: Item) -> Result<(), AllocError>
    ensures { OnOk result ((lines : List ℕ) × AreLinesOfItem form item lines
        × (text.new ≡ text.old ++ lines)) }
{
    let Item::Msg(message) = item else {
        return Ok(());
    };
    let report = number(Kind::Message(MsgKind::RoAccessReport));
    if number(Kind::Message(message.kind())) != report {
        return Ok(());
    }
    push_report(alloc, text, form, message.children().as_slice())
}

/// Lists the tags of a stream of the whole standard that comes in pieces: a line for each tag of an
/// RO_ACCESS_REPORT, once that is whole. In the form `Full` a line has the parameters of the tag of
/// which the profile has nothing too, results of operations and Custom among them, as the member
/// `parameters` of its object, under the names of the tables; a tag without such has no such member. It keeps
/// what its `Decoder` keeps.
#[derive(Drop)]
pub struct TagLister {
    alloc: Global,
    decoder: Decoder,
    form: LineForm,
}

impl TagLister {
    ghost use Rattle.llrp_endpoints.specs.Calls.TagListing.{HasTags};
    ghost use Rattle.llrp_endpoints.specs.Private.TagListing.{TakesOn};
    ghost use Rattle.llrp_endpoints.specs.TagPieces.{TakesTags};

    /// A lister of a stream of which nothing came; it takes no memory. A frame of more than `limit`
    /// octets is faulty, and has no lines.
    pub fn new(alloc: Global, form: LineForm, limit: u32) -> TagLister
        requires least { 10 ≤ limit }
        requires most { limit ≤ MAX_LIMIT }
        ensures has { HasTags limit [] [] result }
        ensures form { result.form ≡ form }
    {
        TagLister {
            alloc,
            decoder: Decoder::new_in(alloc, KindSet::Standard, limit),
            form,
        }
    }

    /// In what form its lines are.
    pub fn form(&self) -> LineForm
        ensures { result ≡ self.now.form }
    {
        self.form
    }

    /// Appends the lines of the tags of the reports that are whole with a piece.
    fn take(&mut self, piece: &[u8], lines: &mut Text) -> Result<(), AllocError>
        ensures takes { OnOk result (TakesOn piece.now self.old self.new lines.old lines.new) }
        ensures form { self.new.form ≡ self.old.form }
    {
        let mut rest = piece;
        while !rest.is_empty() {
            let Fed { used, item } = match self.decoder.feed(rest) {
                Ok(fed) => fed,
                Err(FeedErr::Broken) => return Ok(()),
                Err(FeedErr::Memory | FeedErr::Dead) => return Err(AllocError),
            };
            let Some(item) = item else {
                return Ok(());
            };
            push_item(self.alloc, lines, self.form, item)?;
            rest = rest.split_at(used).1;
        }
        Ok(())
    }

    /// Takes the next octets of the stream, and appends to `lines` the line of each tag of the reports
    /// that are whole with them, whatever the client makes of them. Other frames have no lines, and
    /// after a length field below 10 there are none.
    ///
    /// The error means that memory ran out; lines may then be missing.
    pub fn feed(&mut self, piece: &[u8], lines: &mut Text) -> Result<(), AllocError>
        ensures takes { OnOk result (TakesTags piece.now self.old self.new lines.old lines.new) }
        ensures form { self.new.form ≡ self.old.form }
    {
        self.take(piece, lines)
    }
}
