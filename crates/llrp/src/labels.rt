//! The labels of lines of tags: what the words ask for, and lines that have them.

ghost use Rattle.std.specs.Prelude.{◌≡◌, IfOk};
ghost use Rattle.llrp.specs.Calls.Labels.{AreLabelledLines, are_objects, asked_labels};

use llrp_commands::LabelWords;
use llrp_endpoints::LineForm;
use llrp_labels::{Labels, label_tags};
use std::alloc::{AllocError, Global};

/// The labels that the words ask for, of which a word for the schemes is that for all; `None` where they ask
/// for none.
pub fn asked_labels(words: LabelWords<'_>) -> Option<Labels>
    ensures { result ≡ asked_labels words.entry }
{
    let schemes = words.schemes.is_some();
    if words.keys || schemes {
        Some(Labels {
            schemes,
            keys: words.keys,
        })
    } else {
        None
    }
}

/// Whether the lines of a form are objects of JSON.
pub fn are_objects(form: LineForm) -> bool
    ensures { result ≡ are_objects form }
{
    match form {
        LineForm::Json | LineForm::Full => true,
        LineForm::Words | LineForm::Tags => false,
    }
}

/// Lines of tags in a form, with these labels; without any they stay.
pub fn labelled_lines(
    alloc: Global,
    labels: Option<Labels>,
    form: LineForm,
    lines: &[u8],
) -> Result<Vec<u8>, AllocError>
    ensures { IfOk result (λ text. AreLabelledLines labels form lines.now text.items) }
{
    match labels {
        None => {
            let mut text = Vec::new(alloc);
            text.extend_from_slice(lines)?;
            Ok(text)
        }
        Some(labels) => label_tags(alloc, labels, are_objects(form), lines),
    }
}
