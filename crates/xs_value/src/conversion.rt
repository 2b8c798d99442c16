//! What a value is as a boolean, a number and a string (XPath 1.0, 4.2 to 4.4).

ghost use Rattle.std.specs.Prelude.{◌≡◌, ◌<◌, ◌++◌, length, IfOk, OnOk, OnErr, IsTrue};
ghost use Rattle.std.specs.Prelude.{codes, if◌then◌else◌, ◌↔◌};
ghost use Rattle.std.specs.List.{All};
ghost use Rattle.std.specs.Str.{IsUtf8};
ghost use Rattle.std.specs.String.{string_bytes};
ghost use Rattle.std.specs.Cow.{cow_str_bytes};
ghost use Rattle.xs_num.specs.Text.{number_in, text_of};
ghost use Rattle.xs_tree.specs.Kinds.{has_content};
ghost use Rattle.xs_tree.specs.Record.{at, string_value};
ghost use Rattle.xs_value.specs.Conversion.{IsIn, bool_value, event_text, fragment_text};
ghost use Rattle.xs_value.specs.Conversion.{is_nonzero};
ghost use Rattle.xs_value.specs.Conversion.{nodes_text, number_value, text_value};
ghost use Rattle.xs_value.specs.Results.{Answers};

use crate::value::{Value, ValueFault};
use std::alloc::{AllocError, Global};
use std::borrow::CowStr;
use xs_num::number::{Num, Number};
use xs_num::reading::read_num;
use xs_num::writing::write_num;
use xs_text::{Characters, TextBuf};
use xs_trace::event::Event;
use xs_tree::{Node, Tree};

/// Whether the nodes of a value are in the tree.
pub fn is_in(tree: &Tree, v: &Value) -> bool
    ensures { IsTrue result ↔ IsIn tree.now v.now }
{
    match v {
        Value::Nodes(nodes) => are_in(tree, nodes.nodes()),
        _ => true,
    }
}

// Whether nodes are in the tree.
fn are_in(tree: &Tree, nodes: &[Node]) -> bool
    ensures { IsTrue result ↔ All (λ n. n < length tree.now) nodes.now }
{
    let count = tree.len();
    nodes.iter().all(|node| (node.place() as usize) < count)
}

/// A value as a boolean (XPath 1.0, 4.3). It takes no memory.
pub fn to_bool(v: &Value) -> bool
    ensures { result ≡ bool_value v.now }
{
    match v {
        Value::Bool(boolean) => *boolean,
        Value::Number(number) => is_nonzero(*number),
        Value::Chars(text) => !text.as_str().is_empty(),
        Value::Nodes(nodes) => !nodes.nodes().is_empty(),
        Value::Piece(_) => true,
    }
}

// Whether a number is neither zero nor NaN.
fn is_nonzero(number: Num) -> bool
    ensures { result ≡ is_nonzero number }
{
    match number.get() {
        Number::Whole(value) => value != 0,
        Number::NaN => false,
    }
}

/// A value as a number (XPath 1.0, 4.4). A text that spells a fraction is `ValueFault::Fraction`,
/// and one that spells too large a number `ValueFault::Range`.
pub fn to_number(alloc: Global, tree: &Tree, v: &Value) -> Result<Num, ValueFault>
    requires { IsIn tree.now v.now }
    ensures number { Answers (number_value tree.now v.now) result }
{
    match v {
        Value::Bool(boolean) => Ok(Num::from(u32::from(*boolean))),
        Value::Number(number) => Ok(*number),
        Value::Chars(text) => Ok(read_num(text.as_str())?),
        Value::Nodes(nodes) => first_number(alloc, tree, nodes.nodes()),
        Value::Piece(fragment) => Ok(read_num(events_text(alloc, fragment.events())?.as_str())?),
    }
}

/// A value as a string (XPath 1.0, 4.2), which shares the bytes of one.
pub fn to_text(alloc: Global, tree: &Tree, v: &Value) -> Result<TextBuf, AllocError>
    requires { IsIn tree.now v.now }
    ensures text { IfOk result (λ text. text ≡ text_value tree.now v.now) }
{
    match v {
        Value::Chars(text) => text.copy(),
        _ => own_text(alloc, lend_text(alloc, tree, v)?),
    }
}

/// A value as a string (XPath 1.0, 4.2), as it is put into a result.
pub fn to_characters(alloc: Global, tree: &Tree, v: &Value) -> Result<Characters, AllocError>
    requires { IsIn tree.now v.now }
    ensures text { IfOk result (λ text. text ≡ text_value tree.now v.now) }
{
    match v {
        Value::Chars(text) => Characters::sharing(text),
        _ => own_characters(alloc, lend_text(alloc, tree, v)?),
    }
}

// A text that is lent or owned, as it is put into a result.
fn own_characters(alloc: Global, text: CowStr<'_, Global>) -> Result<Characters, AllocError>
    ensures text { IfOk result (λ own. own ≡ cow_str_bytes text.entry) }
{
    match text {
        CowStr::Borrowed(text) => Characters::of(alloc, text),
        CowStr::Owned(text) => Characters::from_string(text),
    }
}

/// A text that is lent or owned, in memory of its own.
pub fn own_text(alloc: Global, text: CowStr<'_, Global>) -> Result<TextBuf, AllocError>
    ensures text { IfOk result (λ own. own ≡ cow_str_bytes text.entry) }
{
    match text {
        CowStr::Borrowed(text) => TextBuf::of(alloc, text),
        CowStr::Owned(text) => TextBuf::from_string(text),
    }
}

/// Appends a value as a string (XPath 1.0, 4.2). After a refusal `out` is as it was.
pub fn text_into(tree: &Tree, v: &Value, out: &mut Vec<u8>) -> Result<(), AllocError>
    requires { IsIn tree.now v.now }
    ensures appended { OnOk result (out.new.items ≡ out.old.items ++ text_value tree.now v.now) }
    ensures refused { OnErr result (out.new.items ≡ out.old.items) }
    ensures utf8 { IsUtf8 out.old.items → IsUtf8 out.new.items }
{
    match v {
        Value::Bool(boolean) => append_text(boolean_text(*boolean), out),
        Value::Number(number) => write_num(out, *number),
        Value::Chars(text) => append_text(text.as_str(), out),
        Value::Nodes(nodes) => first_text_into(tree, nodes.nodes(), out),
        Value::Piece(fragment) => events_text_into(fragment.events(), out),
    }
}

/// A value as a string, lent where it stands in one piece (XPath 1.0, 4.2).
pub fn lend_text<'a>(
    alloc: Global,
    tree: &'a Tree,
    v: &'a Value,
) -> Result<CowStr<'a, Global>, AllocError>
    requires { IsIn tree.now v.now }
    ensures text { IfOk result (λ text. cow_str_bytes text ≡ text_value tree.now v.now) }
{
    match v {
        Value::Bool(boolean) => Ok(CowStr::Borrowed(boolean_text(*boolean))),
        Value::Number(number) => Ok(CowStr::Owned(number_text(alloc, *number)?)),
        Value::Chars(text) => Ok(CowStr::Borrowed(text.as_str())),
        Value::Nodes(nodes) => first_text(alloc, tree, nodes.nodes()),
        Value::Piece(fragment) => events_text(alloc, fragment.events()),
    }
}

/// The string-value of a node, lent where it stands in one piece (XPath 1.0, 5.1 to 5.7).
pub fn node_text<'a>(
    alloc: Global,
    tree: &'a Tree,
    node: Node,
) -> Result<CowStr<'a, Global>, AllocError>
    requires { node < length tree.now }
    ensures text { IfOk result (λ text. cow_str_bytes text ≡ string_value tree.now node) }
{
    if tree.kind(node).has_content() {
        content_text(alloc, tree, node)
    } else {
        Ok(CowStr::Borrowed(tree.text(node)))
    }
}

// The string-value of a root or an element.
fn content_text<'a>(
    alloc: Global,
    tree: &'a Tree,
    node: Node,
) -> Result<CowStr<'a, Global>, AllocError>
    requires within { node < length tree.now }
    requires content { IsTrue (has_content (at tree.now node).kind) }
    ensures text { IfOk result (λ text. cow_str_bytes text ≡ string_value tree.now node) }
{
    let mut texts = tree.texts(node);
    let Some(text) = texts.next() else {
        return Ok(CowStr::Borrowed(""));
    };
    if texts.next().is_some() {
        return Ok(CowStr::Owned(whole_text(alloc, tree, node)?));
    }
    Ok(CowStr::Borrowed(tree.text(text)))
}

// The string-value of a node, in memory of its own.
fn whole_text(alloc: Global, tree: &Tree, node: Node) -> Result<String, AllocError>
    requires { node < length tree.now }
    ensures { IfOk result (λ text. string_bytes text ≡ string_value tree.now node) }
{
    let mut bytes = Vec::new(alloc);
    tree.string_value_into(node, &mut bytes)?;
    match String::from_utf8(bytes) {
        Ok(text) => Ok(text),
        Err(_) => unreachable!(),
    }
}

// The string-value of the first of some nodes.
fn first_text<'a>(
    alloc: Global,
    tree: &'a Tree,
    nodes: &[Node],
) -> Result<CowStr<'a, Global>, AllocError>
    requires { All (λ n. n < length tree.now) nodes.now }
    ensures text { IfOk result (λ text. cow_str_bytes text ≡ nodes_text tree.now nodes.now) }
{
    match nodes.first() {
        Some(node) => node_text(alloc, tree, *node),
        None => Ok(CowStr::Borrowed("")),
    }
}

// Appends the string-value of the first of some nodes.
fn first_text_into(tree: &Tree, nodes: &[Node], out: &mut Vec<u8>) -> Result<(), AllocError>
    requires { All (λ n. n < length tree.now) nodes.now }
    ensures added { OnOk result (out.new.items ≡ out.old.items ++ nodes_text tree.now nodes.now) }
    ensures refused { OnErr result (out.new.items ≡ out.old.items) }
    ensures utf8 { IsUtf8 out.old.items → IsUtf8 out.new.items }
{
    match nodes.first() {
        Some(node) => tree.string_value_into(*node, out),
        None => Ok(()),
    }
}

// The number that the string-value of the first of some nodes spells.
fn first_number(alloc: Global, tree: &Tree, nodes: &[Node]) -> Result<Num, ValueFault>
    requires { All (λ n. n < length tree.now) nodes.now }
    ensures number { Answers (number_in (nodes_text tree.now nodes.now)) result }
{
    let text = first_text(alloc, tree, nodes)?;
    Ok(read_num(text.as_str())?)
}

// The text of a boolean (XPath 1.0, 4.2).
fn boolean_text(boolean: bool) -> &'static str
    ensures { result.now ≡ (if boolean then codes "true" else codes "false") }
{
    if boolean { "true" } else { "false" }
}

// The text of a number (XPath 1.0, 4.2).
fn number_text(alloc: Global, number: Num) -> Result<String, AllocError>
    ensures { IfOk result (λ text. string_bytes text ≡ text_of number) }
{
    let mut bytes = Vec::new(alloc);
    write_num(&mut bytes, number)?;
    match String::from_utf8(bytes) {
        Ok(text) => Ok(text),
        Err(_) => unreachable!(),
    }
}

// The characters that an event adds as a text node.
fn event_text(event: &Event) -> &str
    ensures { result.now ≡ event_text event.now }
{
    match event {
        Event::Chars(text) => text.as_str(),
        _ => "",
    }
}

/// The string-value of a fragment's root (XSLT 1.0, 11.1), lent where it has one event.
#[tactic(auto, using(crate::proofs::TextLemmas::one_event))]
pub(crate) fn events_text<'a>(
    alloc: Global,
    events: &'a [Event],
) -> Result<CowStr<'a, Global>, AllocError>
    ensures text { IfOk result (λ text. cow_str_bytes text ≡ fragment_text events.now) }
{
    match events {
        [] => Ok(CowStr::Borrowed("")),
        [event] => Ok(CowStr::Borrowed(event_text(event))),
        _ => Ok(CowStr::Owned(joined_events(alloc, events)?)),
    }
}

// The texts of events, one after another.
fn joined_events(alloc: Global, events: &[Event]) -> Result<String, AllocError>
    ensures { IfOk result (λ text. string_bytes text ≡ fragment_text events.now) }
{
    let mut text = String::new(alloc);
    for event in events {
        text.push_str(event_text(event))?;
    }
    Ok(text)
}

// Appends the texts of events. After a refusal `out` is as it was.
fn events_text_into(events: &[Event], out: &mut Vec<u8>) -> Result<(), AllocError>
    ensures appended { OnOk result (out.new.items ≡ out.old.items ++ fragment_text events.now) }
    ensures refused { OnErr result (out.new.items ≡ out.old.items) }
    ensures utf8 { IsUtf8 out.old.items → IsUtf8 out.new.items }
{
    let text = events_text(*out.allocator(), events)?;
    append_text(text.as_str(), out)
}

// Appends a text. After a refusal `out` is as it was.
fn append_text(text: &str, out: &mut Vec<u8>) -> Result<(), AllocError>
    ensures appended { OnOk result (out.new.items ≡ out.old.items ++ text.now) }
    ensures refused { OnErr result (out.new.items ≡ out.old.items) }
    ensures utf8 { IsUtf8 out.old.items → IsUtf8 out.new.items }
{
    out.extend_from_slice(text.as_bytes())
}
