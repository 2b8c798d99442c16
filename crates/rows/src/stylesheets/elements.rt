//! What XSLT says of the elements of a stylesheet, as texts.

ghost use Rattle.std.specs.Prelude.{◌<◌, length};

use crate::answer::Answer;
use crate::lookups::name_of;
use xs_elements::attributes::{Need, attributes, form_named};
use xs_elements::contents::{Before, Content, content_of, holds_text, may_stand};
use xs_elements::forms::{Form, forbids_current, forbids_key, forbids_variables, sees_locals};
use xs_elements::kept::{is_kept, own_space};
use xs_elements::scope::{expand_name, has, own_name, scope_at, uri_of, value_of};
use xs_elements::tags::{Tag, is_document_element, is_top_level, tag_of};
use xs_elements::value::{is_bad, is_unbound, is_unsupported};
use xs_elements::words::first_word;
use xs_tree::{Kind, Node, Tree};

/// Adds the name that an element gives to what it declares, if it gives one.
fn put_own_name(out: &Answer, tree: &Tree, node: Node)
    requires { node < length tree.now }
{
    if let Some(value) = value_of(tree, node, "", "name") {
        let name = expand_name(tree, node, value);
        out.put(", name ");
        match name {
            Some((uri, local)) => out.put_name(uri, "", local),
            None => out.put_byte(b'?'),
        }
        out.put_if(own_name(tree, node) != name, " and another of its own");
    }
}

/// Adds what an element is, and what holds in it.
fn put_element(out: &Answer, tree: &Tree, node: Node)
    requires { node < length tree.now }
{
    out.put(tree.local(node));
    out.put(match tag_of(tree, node) {
        Tag::Unknown => " unknown",
        Tag::Other => " literal",
        _ => " of XSLT",
    });
    out.put_if(is_document_element(tree, node), ", document element");
    out.put_if(is_top_level(tree, node), ", top level");
    put_own_name(out, tree, node);
    out.put_if(has(tree, node, "select"), ", select");
    if let Some(uri) = uri_of(tree, node, "") {
        out.put_both(", default ", uri);
    }
    out.put(match own_space(tree, node) {
        Some(true) => ", space preserved",
        Some(false) => ", space not preserved",
        None => "",
    });
}

/// Adds whether a text is kept in its element.
fn put_text(out: &Answer, tree: &Tree, node: Node)
    requires { node < length tree.now }
{
    let Some(parent) = tree.parent(node) else {
        return;
    };
    let preserves = own_space(tree, parent) == Some(true);
    let kept = is_kept(tree, node, tag_of(tree, parent), preserves);
    out.put(if kept { "text kept" } else { "text stripped" });
}

/// Adds what each element and text is.
pub(crate) fn put_elements(out: &Answer, tree: &Tree) {
    for place in 0..tree.len() as u32 {
        let node = Node::at(place);
        let kind = tree.kind(node);
        if kind == Kind::Element || kind == Kind::Text {
            out.put_between("; ");
            if kind == Kind::Element {
                put_element(out, tree, node);
            } else {
                put_text(out, tree, node);
            }
        }
    }
}

/// The contents of elements, by their names.
const CONTENTS: &[(&str, Content)] = &[
    ("nothing", Content::Nothing),
    ("declarations", Content::TopLevel),
    ("attributes", Content::Attributes),
    ("sorts and parameters", Content::SortsAndParameters),
    ("parameters", Content::Parameters),
    ("branches", Content::Branches),
    ("text alone", Content::TextAlone),
    ("body", Content::Body),
    ("parameters and body", Content::ParametersAndBody),
    ("sorts and body", Content::SortsAndBody),
    ("unread", Content::Unread),
];

/// Adds the content of the document element, and whether each element in it may stand there.
pub(crate) fn put_contents(out: &Answer, tree: &Tree) {
    let mut content = Content::Unread;
    let mut before = Before::none();
    for place in 0..tree.len() as u32 {
        let node = Node::at(place);
        if is_document_element(tree, node) {
            content = content_of(tag_of(tree, node), has(tree, node, "select"));
            out.put(name_of(CONTENTS, &content));
            out.put_if(holds_text(content), " with text");
            out.put_byte(b':');
        } else if tree.kind(node) == Kind::Element {
            let row = tag_of(tree, node);
            let has_namespace = !tree.uri(node).is_empty();
            let stands = may_stand(content, row, has_namespace, before);
            out.put(if stands { " yes" } else { " no" });
            before = before.and(row);
        }
    }
}

/// The forms of values, by their names.
const FORMS: &[(&str, Form)] = &[
    ("anything", Form::Anything),
    ("version", Form::Version),
    ("expression", Form::Expression),
    ("expression of a key", Form::KeyUse),
    ("pattern of a template", Form::TemplatePattern),
    ("pattern of a key", Form::KeyPattern),
    ("pattern of a number", Form::NumberPattern),
    ("value template", Form::ValueTemplate),
    ("yes or no", Form::YesOrNo),
    ("level", Form::Level),
    ("name", Form::Name),
    ("names", Form::Names),
    ("sets", Form::Sets),
    ("name tests", Form::Tests),
    ("prefix", Form::Prefix),
    ("prefixes", Form::Prefixes),
    ("priority", Form::Priority),
];

/// Whether an element has to have an attribute with this local part.
fn is_required(row: Tag, local: &str) -> bool {
    for attribute in attributes(row) {
        if attribute.0 == local {
            return attribute.1 == Need::Required;
        }
    }
    false
}

/// Adds what an attribute of an element has to be, what it may not have, and whether it is good.
fn put_value(out: &Answer, tree: &Tree, element: Node, attribute: Node)
    requires element { element < length tree.now }
    requires attribute { attribute < length tree.now }
{
    let row = tag_of(tree, element);
    let local = tree.local(attribute);
    let Some(form) = form_named(row, local) else {
        return;
    };
    out.put_if(is_required(row, local), "required ");
    out.put(name_of(FORMS, &form));
    out.put_if(forbids_variables(form), ", no variables");
    out.put_if(!sees_locals(form), ", no local ones");
    out.put_if(forbids_current(form), ", no current()");
    out.put_if(forbids_key(form), ", no key()");
    let Ok(scope) = scope_at(out.alloc, tree, element) else {
        return out.refuse();
    };
    let value = tree.text(attribute);
    out.put(if is_bad(form, value) {
        ": bad"
    } else if is_unsupported(form, value) {
        ": unsupported"
    } else if is_unbound(form, &scope, value) {
        ": unbound"
    } else {
        ": good"
    });
}

/// Adds what each attribute of an element below the document element has to be.
pub(crate) fn put_values(out: &Answer, tree: &Tree) {
    for place in 0..tree.len() as u32 {
        let attribute = Node::at(place);
        if tree.kind(attribute) == Kind::Attribute
            && let Some(element) = tree.parent(attribute)
            && !is_document_element(tree, element)
        {
            put_value(out, tree, element, attribute);
        }
    }
}

/// Adds the first word of each attribute below the document element, and what is after it.
pub(crate) fn put_first_words(out: &Answer, tree: &Tree) {
    for place in 0..tree.len() as u32 {
        let node = Node::at(place);
        if tree.kind(node) == Kind::Attribute
            && let Some((word, rest)) = first_word(tree.text(node))
        {
            out.put_quoted(word);
            out.put(" and ");
            out.put_quoted(rest);
        }
    }
}
