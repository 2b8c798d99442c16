//! Names, with the prefix that they are written with.

ghost use Rattle.std.specs.Prelude.{◌≡◌, ◌++◌, Some, IfOk, OnOk};
ghost use Rattle.std.specs.Option.{option_to_list};
ghost use Rattle.xs_compile.specs.Labels.{label_in, labels_in};
ghost use Rattle.xs_xpath.specs.Names.{uri_of};

use std::alloc::{AllocError, Global};
use xs_elements::words::first_word;
use xs_text::{TextBuf, split_qname};
use xs_trace::event::Label;
use xs_xpath::scope::Scope;

/// The URI that a prefix is bound to, none without a prefix.
#[tactic(auto, using(xs_xpath::proofs::RunLemmas::nil_by_length))]
pub(crate) fn uri_of<'s>(scope: &'s Scope, prefix: &str) -> &'s str
    ensures { result.now ≡ uri_of scope.now.pairs.items prefix.now }
{
    if prefix.is_empty() {
        return "";
    }
    match scope.uri_in(prefix) {
        Some(uri) => uri,
        None => "",
    }
}

/// A name with its prefix, which is in no namespace without one (XSLT 1.0, 2.4); none where the
/// text is no name.
pub(crate) fn label_in(
    alloc: Global,
    scope: &Scope,
    text: &str,
) -> Result<Option<Label>, AllocError>
    ensures { IfOk result (λ label. label ≡ label_in scope.now.pairs.items text.now) }
{
    let Some((prefix, local)) = split_qname(text) else {
        return Ok(None);
    };
    let uri = TextBuf::of(alloc, uri_of(scope, prefix))?;
    let local = TextBuf::of(alloc, local)?;
    let prefix = TextBuf::of(alloc, prefix)?;
    Ok(Some(Label::of(alloc, uri, local, prefix)?))
}

/// Adds a name, if there is one.
fn push_label(label: Option<Label>, labels: &mut Vec<Label>) -> Result<(), AllocError>
    ensures { OnOk result (labels.new.items ≡ labels.old.items ++ option_to_list label) }
{
    match label {
        Some(label) => {
            labels.push(label)?;
            Ok(())
        }
        None => Ok(()),
    }
}

/// Names with white space between them.
pub(crate) fn labels_in(alloc: Global, scope: &Scope, text: &str) -> Result<Vec<Label>, AllocError>
    ensures { IfOk result (λ labels. labels.items
        ≡ labels_in scope.now.pairs.items (Some text.now)) }
{
    let mut labels = Vec::new(alloc);
    let mut rest = text;
    while let Some((word, behind)) = first_word(rest) {
        push_label(label_in(alloc, scope, word)?, &mut labels)?;
        rest = behind;
    }
    Ok(labels)
}
