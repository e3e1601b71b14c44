//! The command `epc`, with an option or without.

ghost use Rattle.std.specs.Prelude.{◌≡◌, ◌<◌, Some, None, true, false, option_map};
ghost use Rattle.tag_forms.specs.Company.{IsUsable};
ghost use Rattle.llrp_commands.specs.Calls.Epc.{DoesEpc, AnswersEpc, DoesFormInSet, DoesFormOf, DoesFormsInSet, DoesInSchemes, DoesListIn, DoesListInSet, DoesObjectInSet, DoesObjectsInSet, some_of, wanted_in};
ghost use Rattle.llrp_words.specs.Calls.Requests.{IsUnsaid};
ghost use Rattle.llrp_stream.specs.Device.{IsFreshSink, IsFreshSource, SourceLog};
ghost use Rattle.llrp_stream.specs.Calls.Device.{CanWrite};

use crate::command::{USAGE, answer, verdict_status};
use llrp_keys::{run_answer, run_epc_in_all, run_forms, run_forms_in_all, run_list};
use llrp_listing::{ToolErr, Verdict, run_epc, write_all};
use llrp_stream::{Sink, Source};
use llrp_words::EpcWords;
use std::alloc::Global;
use tag_forms::{Company, Form, Wanted, form_named};

/// What is written where `epc` has neither a text nor an option.
const NO_TEXT: &[u8] = b"\
error: the following required arguments were not provided:
  <TEXT>

Usage: llrp epc <TEXT>

For more information, try '--help'.
";

/// What is written where the options of `epc` do not go together.
const MISMATCH: &[u8] = b"\
error: epc takes TEXT, --forms [--json] TEXT, --to FORM [--json] TEXT, --list --to FORM [--json], or --list --json, each with --schemes all or without; FORM is tag, pure, element, link, hex or key

For more information, try '--help'.
";

/// What is written where the words of `epc` do not go together.
pub(crate) fn mistake_of(words: EpcWords<'_>) -> &'static [u8] {
    match (
        words.forms,
        words.list,
        words.json,
        words.to,
        words.company_digits,
        words.filter,
        words.prefixes,
        words.schemes,
    ) {
        (false, false, false, None, None, None, None, None) => NO_TEXT,
        _ => MISMATCH,
    }
}

/// What a command did whose words go together.
fn some_of(outcome: Result<Verdict, ToolErr>) -> Result<Option<Verdict>, ToolErr>
    ensures { result ≡ some_of outcome }
{
    match outcome {
        Ok(verdict) => Ok(Some(verdict)),
        Err(error) => Err(error),
    }
}

/// What is wanted in a form, in the seven schemes or in all: its text, or an object of JSON with it.
fn wanted_in(all: bool, json: bool, to: Form) -> Wanted
    ensures { result ≡ wanted_in all json to }
{
    if all {
        if json {
            Wanted::MemberInAll(to)
        } else {
            Wanted::TextInAll(to)
        }
    } else if json {
        Wanted::Member(to)
    } else {
        Wanted::Text(to)
    }
}

/// Answers a text in the form with this name.
fn answer_in<W: Sink>(
    alloc: Global,
    text: &str,
    name: &str,
    all: bool,
    json: bool,
    filter: u8,
    company: Company<'_>,
    w: &mut W,
) -> Result<Option<Verdict>, ToolErr>
    requires filter { filter < 8 }
    requires company { IsUsable company }
    requires sink { IsFreshSink (W.log w.old) }
    ensures { DoesFormOf text.now name.now all json filter company.entry (W.log w.old)
        (W.log w.new) result }
{
    match form_named(name) {
        Some(to) => some_of(run_answer(alloc, text, wanted_in(all, json, to), filter, company, w)),
        None => Ok(None),
    }
}

/// Answers a list of texts in the form with this name.
fn list_in<R: Source, W: Sink>(
    alloc: Global,
    name: &str,
    all: bool,
    json: bool,
    filter: u8,
    company: Company<'_>,
    r: &mut R,
    w: &mut W,
) -> Result<Option<Verdict>, ToolErr>
    requires filter { filter < 8 }
    requires company { IsUsable company }
    requires source { IsFreshSource (R.log r.old) }
    requires sink { IsFreshSink (W.log w.old) }
    ensures { DoesListIn name.now all json filter company.entry (R.log r.old) (R.log r.new) (W.log w.old)
        (W.log w.new) result }
{
    match form_named(name) {
        Some(to) => some_of(run_list(alloc, wanted_in(all, json, to), filter, company, r, w)),
        None => Ok(None),
    }
}

/// Answers a text in the set of schemes with this name.
fn answer_in_schemes<W: Sink>(
    alloc: Global,
    text: &str,
    name: &str,
    w: &mut W,
) -> Result<Option<Verdict>, ToolErr>
    requires { IsFreshSink (W.log w.old) }
    ensures { DoesInSchemes text.now name.now (W.log w.old) (W.log w.new) result }
{
    match name {
        "all" => some_of(run_epc_in_all(alloc, text, w)),
        _ => Ok(None),
    }
}

/// Writes all forms of a text's word in the set of schemes with this name.
fn forms_in_set<W: Sink>(
    alloc: Global,
    text: &str,
    set: &str,
    filter: u8,
    company: Company<'_>,
    w: &mut W,
) -> Result<Option<Verdict>, ToolErr>
    requires filter { filter < 8 }
    requires company { IsUsable company }
    requires sink { IsFreshSink (W.log w.old) }
    ensures { DoesFormsInSet text.now set.now filter company.entry (W.log w.old) (W.log w.new) result }
{
    match set {
        "all" => some_of(run_forms_in_all(alloc, text, filter, company, w)),
        _ => Ok(None),
    }
}

/// Writes an object with all forms of a text's word in the set of schemes with this name.
fn object_in_set<W: Sink>(
    alloc: Global,
    text: &str,
    set: &str,
    filter: u8,
    company: Company<'_>,
    w: &mut W,
) -> Result<Option<Verdict>, ToolErr>
    requires filter { filter < 8 }
    requires company { IsUsable company }
    requires sink { IsFreshSink (W.log w.old) }
    ensures { DoesObjectInSet text.now set.now filter company.entry (W.log w.old) (W.log w.new) result }
{
    match set {
        "all" => some_of(run_answer(alloc, text, Wanted::ObjectInAll, filter, company, w)),
        _ => Ok(None),
    }
}

/// Answers a text in the form and the set of schemes with these names.
fn form_in_set<W: Sink>(
    alloc: Global,
    text: &str,
    set: &str,
    name: &str,
    json: bool,
    filter: u8,
    company: Company<'_>,
    w: &mut W,
) -> Result<Option<Verdict>, ToolErr>
    requires filter { filter < 8 }
    requires company { IsUsable company }
    requires sink { IsFreshSink (W.log w.old) }
    ensures { DoesFormInSet text.now set.now name.now json filter company.entry (W.log w.old)
        (W.log w.new) result }
{
    match set {
        "all" => answer_in(alloc, text, name, true, json, filter, company, w),
        _ => Ok(None),
    }
}

/// Answers a list of texts in the form and the set of schemes with these names.
fn list_in_set<R: Source, W: Sink>(
    alloc: Global,
    set: &str,
    name: &str,
    json: bool,
    filter: u8,
    company: Company<'_>,
    r: &mut R,
    w: &mut W,
) -> Result<Option<Verdict>, ToolErr>
    requires filter { filter < 8 }
    requires company { IsUsable company }
    requires source { IsFreshSource (R.log r.old) }
    requires sink { IsFreshSink (W.log w.old) }
    ensures { DoesListInSet set.now name.now json filter company.entry (R.log r.old) (R.log r.new)
        (W.log w.old) (W.log w.new) result }
{
    match set {
        "all" => list_in(alloc, name, true, json, filter, company, r, w),
        _ => Ok(None),
    }
}

/// Answers a list of texts by objects in the set of schemes with this name.
fn objects_in_set<R: Source, W: Sink>(
    alloc: Global,
    set: &str,
    filter: u8,
    company: Company<'_>,
    r: &mut R,
    w: &mut W,
) -> Result<Option<Verdict>, ToolErr>
    requires filter { filter < 8 }
    requires company { IsUsable company }
    requires source { IsFreshSource (R.log r.old) }
    requires sink { IsFreshSink (W.log w.old) }
    ensures { DoesObjectsInSet set.now filter company.entry (R.log r.old) (R.log r.new) (W.log w.old)
        (W.log w.new) result }
{
    match set {
        "all" => some_of(run_list(alloc, Wanted::ObjectInAll, filter, company, r, w)),
        _ => Ok(None),
    }
}

/// Answers a text that no form is asked for; `None` if a filter value or company prefixes were given too, or
/// another set than all.
fn answer_alone<W: Sink>(
    alloc: Global,
    text: &str,
    schemes: Option<&str>,
    company: Company<'_>,
    filter: Option<u8>,
    w: &mut W,
) -> Result<Option<Verdict>, ToolErr>
    requires { IsFreshSink (W.log w.old) }
    ensures { (log : SourceLog) → DoesEpc (Some text.now) false false false None
        (option_map (λ t. t.now) schemes.entry) company.entry filter log log (W.log w.old)
        (W.log w.new) result }
{
    match (company, filter, schemes) {
        (Company::Digits(None), None, None) => some_of(run_epc(alloc, text, w)),
        (Company::Digits(None), None, Some(name)) => answer_in_schemes(alloc, text, name, w),
        _ => Ok(None),
    }
}

/// The command `epc`; `None` if its options do not go together.
pub(crate) fn epc<R: Source, W: Sink>(
    alloc: Global,
    words: EpcWords<'_>,
    company: Company<'_>,
    r: &mut R,
    w: &mut W,
) -> Result<Option<Verdict>, ToolErr>
    requires unsaid { IsUnsaid words }
    requires company { IsUsable company }
    requires source { IsFreshSource (R.log r.old) }
    requires sink { IsFreshSink (W.log w.old) }
    ensures { DoesEpc (option_map (λ t. t.now) words.entry.text) words.entry.forms words.entry.list words.entry.json
        (option_map (λ t. t.now) words.entry.to) (option_map (λ t. t.now) words.entry.schemes)
        company.entry words.entry.filter (R.log r.old) (R.log r.new) (W.log w.old) (W.log w.new) result }
{
    let filter = words.filter.unwrap_or(0);
    match (
        words.text,
        words.forms,
        words.list,
        words.json,
        words.to,
        words.schemes,
    ) {
        (Some(text), false, false, false, None, schemes) => {
            answer_alone(alloc, text, schemes, company, words.filter, w)
        }
        (Some(text), true, false, false, None, None) => {
            some_of(run_forms(alloc, text, filter, company, w))
        }
        (Some(text), true, false, true, None, None) => {
            some_of(run_answer(alloc, text, Wanted::Object, filter, company, w))
        }
        (Some(text), false, false, json, Some(name), None) => {
            answer_in(alloc, text, name, false, json, filter, company, w)
        }
        (None, false, true, json, Some(name), None) => {
            list_in(alloc, name, false, json, filter, company, r, w)
        }
        (None, false, true, true, None, None) => {
            some_of(run_list(alloc, Wanted::Object, filter, company, r, w))
        }
        (Some(text), true, false, false, None, Some(set)) => {
            forms_in_set(alloc, text, set, filter, company, w)
        }
        (Some(text), true, false, true, None, Some(set)) => {
            object_in_set(alloc, text, set, filter, company, w)
        }
        (Some(text), false, false, json, Some(name), Some(set)) => {
            form_in_set(alloc, text, set, name, json, filter, company, w)
        }
        (None, false, true, json, Some(name), Some(set)) => {
            list_in_set(alloc, set, name, json, filter, company, r, w)
        }
        (None, false, true, true, None, Some(set)) => {
            objects_in_set(alloc, set, filter, company, r, w)
        }
        _ => Ok(None),
    }
}

/// The exit status of `epc`, after the line of its error or what is said of a mistake in its words was
/// written.
pub(crate) fn answer_epc<E: Sink>(
    outcome: Result<Option<Verdict>, ToolErr>,
    mistake: &[u8],
    e: &mut E,
) -> Result<u8, ToolErr>
    requires { CanWrite (E.log e.old) }
    ensures { AnswersEpc outcome (E.log e.old) (E.log e.new) result }
{
    match outcome {
        Ok(Some(verdict)) => answer(verdict_status(Ok(verdict)), e),
        Ok(None) => {
            write_all(e, mistake)?;
            Ok(USAGE)
        }
        Err(error) => answer(Err(error), e),
    }
}
