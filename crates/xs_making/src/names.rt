//! The names of elements, attributes and processing instructions of the result.
ghost use Rattle.std.specs.Prelude.{◌≡◌, None, Some, option_map, true};
ghost use Rattle.xs_making.specs.Names.{bound_uri, default_uri, is_forbidden, is_target};
ghost use Rattle.xs_making.specs.Names.{is_xml, pi_target, result_name, uri_for};
ghost use Rattle.xs_making.specs.Results.{IsMade};

use crate::ends::MakeEnd;
use crate::plain_names::is_plain;
use crate::recent::RecentLabels;
use std::alloc::Global;
use xs_text::{TextBuf, XML_URI, XMLNS_URI, is_ncname, split_qname};
use xs_trace::event::Label;
use xs_trace::fault::Fault;
use xs_xpath::scope::Scope;

/// The name of an element or an attribute of the result, from the text that a name's value template
/// gave, the namespace that one gave, if there is one, and the prefixes in scope (XSLT 1.0, 7.1.2
/// and 7.1.3). One that was put before is shared, by `labels`.
///
/// Fault 60 where the text is no QName, or `xmlns` for an attribute, or the namespace given is that
/// of `xmlns`; else 61 where the text has a prefix that is bound to nothing and no namespace is
/// given.
#[inline(always)]
pub fn result_name(
    labels: &mut RecentLabels,
    text: &str,
    uri: Option<&str>,
    scope: &Scope,
    is_attribute: bool,
) -> Result<Label, MakeEnd>
    ensures { IsMade (result_name scope.now.pairs.items is_attribute
        (option_map (λ u. u.now) uri.entry) text.now) result }
{
    match uri {
        Some(_) => made_name(labels, text, uri, scope, is_attribute),
        None => unplaced_name(labels, text, scope, is_attribute),
    }
}

/// The name to which no namespace is given.
#[inline(always)]
fn unplaced_name(
    labels: &mut RecentLabels,
    text: &str,
    scope: &Scope,
    is_attribute: bool,
) -> Result<Label, MakeEnd>
    ensures { IsMade (result_name scope.now.pairs.items is_attribute None text.now) result }
{
    if is_attribute {
        return attribute_name(labels, text, scope);
    }
    made_name(labels, text, None, scope, is_attribute)
}

/// The same of an attribute: one without a prefix is the same in any scope, and is made once.
#[inline(always)]
fn attribute_name(labels: &mut RecentLabels, text: &str, scope: &Scope) -> Result<Label, MakeEnd>
    ensures { IsMade (result_name scope.now.pairs.items true None text.now) result }
{
    if let Some(name) = labels.plain(text)? {
        return Ok(name);
    }
    let made = made_name(labels, text, None, scope, true)?;
    if is_plain(&made, text) {
        labels.keep_plain(&made)?;
    }
    Ok(made)
}

/// The name that is made of a text anew.
#[inline(never)]
fn made_name(
    labels: &mut RecentLabels,
    text: &str,
    uri: Option<&str>,
    scope: &Scope,
    is_attribute: bool,
) -> Result<Label, MakeEnd>
    ensures { IsMade (result_name scope.now.pairs.items is_attribute
        (option_map (λ u. u.now) uri.entry) text.now) result }
{
    if is_forbidden(text, uri, is_attribute) {
        return Err(MakeEnd::Fault(Fault::BadResultName));
    }
    let Some((prefix, local)) = split_qname(text) else {
        return Err(MakeEnd::Fault(Fault::BadResultName));
    };
    match uri_for(prefix, uri, scope, is_attribute) {
        Some(uri) => Ok(labels.label(uri, local, prefix)?),
        None => Err(MakeEnd::Fault(Fault::UnboundResultPrefix)),
    }
}

/// The target of a processing instruction of the result, from the text that a name's value template
/// gave (XSLT 1.0, 7.3). Fault 60 where the text is no NCName, or `xml` in any case.
pub fn pi_target(alloc: Global, text: &str) -> Result<TextBuf, MakeEnd>
    ensures { IsMade (pi_target text.now) result }
{
    if !is_target(text) {
        return Err(MakeEnd::Fault(Fault::BadResultName));
    }
    Ok(TextBuf::of(alloc, text)?)
}

/// Whether an attribute is named `xmlns`, or a name is given the namespace of that prefix.
fn is_forbidden(text: &str, uri: Option<&str>, is_attribute: bool) -> bool
    ensures { result ≡ is_forbidden is_attribute (option_map (λ u. u.now) uri.entry) text.now }
{
    (is_attribute && text == "xmlns") || uri.unwrap_or("") == XMLNS_URI
}

/// The namespace of a name: the one that is given, and else that of its prefix or the default one;
/// `None` where its prefix is bound to nothing.
fn uri_for<'a>(
    prefix: &str,
    uri: Option<&'a str>,
    scope: &'a Scope,
    is_attribute: bool,
) -> Option<&'a str>
    ensures { option_map (λ u. u.now) result ≡ uri_for scope.now.pairs.items is_attribute
        (option_map (λ u. u.now) uri.entry) prefix.now }
{
    if uri.is_some() {
        return uri;
    }
    if prefix.is_empty() {
        return Some(default_uri(scope, is_attribute));
    }
    bound_uri(scope, prefix)
}

/// The namespace of a name without a prefix: of an element the default one, of an attribute none.
fn default_uri(scope: &Scope, is_attribute: bool) -> &str
    ensures { result.now ≡ default_uri scope.now.pairs.items is_attribute }
{
    if is_attribute {
        return "";
    }
    match scope.uri_in("") {
        Some(uri) => uri,
        None => "",
    }
}

/// The URI that a prefix is bound to; `xml` is bound everywhere.
fn bound_uri<'a>(scope: &'a Scope, prefix: &str) -> Option<&'a str>
    ensures { option_map (λ u. u.now) result ≡ bound_uri scope.now.pairs.items prefix.now }
{
    if prefix == "xml" {
        return Some(XML_URI);
    }
    scope.uri_in(prefix)
}

/// Whether a text is `xml`, in any case.
fn is_xml(text: &str) -> bool
    ensures { result ≡ is_xml text.now }
{
    text.eq_ignore_ascii_case("xml")
}

/// Whether a processing instruction may have this target.
fn is_target(text: &str) -> bool
    ensures { result ≡ is_target text.now }
{
    is_ncname(text) && !is_xml(text)
}
