//! The lines of tag reports.

ghost use Rattle.std.specs.Prelude.{◌≡◌, ◌++◌, ◌∷◌, IfOk, List, OnOk, Some, slice_index, ℕ};
ghost use Rattle.llrp_tree.specs.Tree.{Tree};
ghost use Rattle.llrp_session.specs.Calls.ReadWords.{IsOfKind, behind};
ghost use Rattle.tag_uri.specs.TagText.{IsTextOf};
ghost use Rattle.llrp_endpoints.specs.declared.form.LineForm.TheVariants as form;
ghost use Rattle.llrp_endpoints.specs.Private.Objects.{AppendsWithEpc};
ghost use Rattle.llrp_endpoints.specs.TagLines.{AreReportLines, IsTagLine, antenna_text, count_line, data_text, rssi_text, summary_of, tag_line, total_line as the_total_line};

use super::objects::{push_full, push_object, push_totals};
use crate::form::LineForm;
use crate::summary::Summary;
use llrp_listing::Text;
use llrp_session::{field, first};
use llrp_tree::{Node, ParamKind};
use std::alloc::{AllocError, Global};
use tag_bits::Word;
use tag_uri::put_text_of_word;

/// Appends the text of an EPC-96's word.
fn push_word(text: &mut Text, epc: &Node) -> Result<(), AllocError>
    requires { IsOfKind ParamKind.Epc96 (Some epc.now) }
    ensures { OnOk result ((word : List ℕ) × IsTextOf (slice_index epc.now.fields 0) word
        × (text.new ≡ text.old ++ word)) }
{
    let Some(word) = Word::new(field(ParamKind::Epc96, Some(epc), 0)) else {
        unreachable!()
    };
    let mut room = [0; 64];
    let end = put_text_of_word(&mut room, 0, word);
    text.push_text(&room[..end])
}

/// Appends the number of bits of an EPCData and its octets, or `-` if there is none.
fn push_data(text: &mut Text, part: Option<&Node>) -> Result<(), AllocError>
    requires { IsOfKind ParamKind.EpcData (behind part) }
    ensures { OnOk result (text.new ≡ text.old ++ data_text (behind part.entry)) }
{
    match part {
        None => text.push(b'-'),
        Some(part) => {
            text.push_text(b"bits ")?;
            text.push_number(field(ParamKind::EpcData, Some(part), 0))?;
            text.push_text(b" x")?;
            text.push_hexadecimal(part.tail().as_slice())
        }
    }
}

/// Appends the EPC of a tag.
pub(super) fn push_epc(text: &mut Text, tag: &Node) -> Result<(), AllocError>
    ensures { OnOk result (AppendsWithEpc tag.now (λ epc. epc) text.old text.new) }
{
    match first(ParamKind::Epc96, tag.children()) {
        Some(epc) => push_word(text, epc),
        None => push_data(text, first(ParamKind::EpcData, tag.children())),
    }
}

/// Appends a space and the antenna, or `-` if there is none.
fn push_antenna(text: &mut Text, antenna: Option<&Node>) -> Result<(), AllocError>
    requires { IsOfKind ParamKind.AntennaId (behind antenna) }
    ensures { OnOk result (text.new ≡ text.old ++ (32 ∷ antenna_text (behind antenna.entry))) }
{
    match antenna {
        None => text.push_text(b" -"),
        Some(_) => {
            text.push(b' ')?;
            text.push_number(field(ParamKind::AntennaId, antenna, 0))
        }
    }
}

/// Appends a space and the greatest RSSI, or `-` if there is none.
fn push_rssi(text: &mut Text, rssi: Option<&Node>) -> Result<(), AllocError>
    requires { IsOfKind ParamKind.PeakRssi (behind rssi) }
    ensures { OnOk result (text.new ≡ text.old ++ (32 ∷ rssi_text (behind rssi.entry))) }
{
    match rssi {
        None => text.push_text(b" -"),
        Some(_) => {
            text.push(b' ')?;
            text.push_signed(field(ParamKind::PeakRssi, rssi, 0))
        }
    }
}

/// Appends the line of a tag in words.
fn push_words(text: &mut Text, tag: &Node) -> Result<(), AllocError>
    ensures { OnOk result (AppendsWithEpc tag.now (tag_line form.Words tag.now) text.old text.new) }
{
    push_epc(text, tag)?;
    push_antenna(text, first(ParamKind::AntennaId, tag.children()))?;
    push_rssi(text, first(ParamKind::PeakRssi, tag.children()))?;
    text.push(b'\n')
}

/// Appends the line of a tag.
pub(crate) fn push_tag(text: &mut Text, form: LineForm, tag: &Node) -> Result<(), AllocError>
    ensures { OnOk result ((line : List ℕ) × IsTagLine form tag.now line
        × (text.new ≡ text.old ++ line)) }
{
    match form {
        LineForm::Words | LineForm::Tags => push_words(text, tag),
        LineForm::Json => push_object(text, tag),
        LineForm::Full => push_full(text, tag),
    }
}

/// Appends the line that counts the tags of a report, if the form has one.
fn push_count(text: &mut Text, form: LineForm, count: usize) -> Result<(), AllocError>
    ensures { OnOk result (text.new ≡ text.old ++ count_line form count) }
{
    match form {
        LineForm::Words => {
            text.push_text(b"= ")?;
            text.push_number(count as u128)?;
            text.push(b'\n')
        }
        LineForm::Json => {
            text.push_text(b"{\"report\":")?;
            text.push_number(count as u128)?;
            text.push_text(b"}\n")
        }
        LineForm::Full | LineForm::Tags => Ok(()),
    }
}

/// The lines of a report: one for each tag, and one with the number of tags if the form has it.
pub(crate) fn report_lines(alloc: Global, form: LineForm, tags: &[Node]) -> Result<Text, AllocError>
    ensures { IfOk result (λ text. AreReportLines form tags.now text) }
{
    let mut text = Text::new(alloc);
    for tag in tags {
        push_tag(&mut text, form, tag)?;
    }
    push_count(&mut text, form, tags.len())?;
    Ok(text)
}

/// Appends the last line, if the form has one.
#[tactic(auto, unfolding(crate::specs::TagLines::total_line))]
fn push_total(text: &mut Text, form: LineForm, summary: Summary) -> Result<(), AllocError>
    ensures { OnOk result ((told : List (List Tree)) → summary ≡ summary_of told
        → text.new ≡ text.old ++ the_total_line form told) }
{
    match form {
        LineForm::Words => {
            text.push_text(b"total ")?;
            text.push_number(summary.tags as u128)?;
            text.push(b' ')?;
            text.push_number(summary.reports as u128)?;
            text.push(b'\n')
        }
        LineForm::Json => push_totals(text, summary),
        LineForm::Full | LineForm::Tags => Ok(()),
    }
}

/// The last line: how many tags and how many reports there were.
pub(crate) fn total_line(
    alloc: Global,
    form: LineForm,
    summary: Summary,
) -> Result<Text, AllocError>
    ensures { IfOk result (λ text. (told : List (List Tree)) → summary ≡ summary_of told
        → text ≡ the_total_line form told) }
{
    let mut text = Text::new(alloc);
    push_total(&mut text, form, summary)?;
    Ok(text)
}
