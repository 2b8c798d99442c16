//! Values: as rows write them, converted, compared and joined.

ghost use Rattle.xs_value.specs.Conversion.{IsIn};

use crate::answer::Answer;
use crate::expressions::calls::Call;
use crate::expressions::names::COMPARISONS;
use crate::expressions::numbers::{add_outcome, number};
use crate::expressions::settings::Settings;
use crate::fields::{cut, whole};
use crate::lookups::value_named;
use crate::runs::events::events;
use std::alloc::AllocError;
use xs_num::number::NumFault;
use xs_text::TextBuf;
use xs_trace::event::Fragment;
use xs_tree::{Node, Tree};
use xs_value::comparison::{CompareOp, compare_values};
use xs_value::conversion::{is_in, text_into, to_bool, to_number, to_text};
use xs_value::node_list::NodeList;
use xs_value::node_set::NodeSet;
use xs_value::shared::SharedFragment;
use xs_value::value::{Value, ValueFault};

// What stands between an opening and a closing sign.
fn inside<'a>(text: &'a str, open: char, close: char) -> Option<&'a str> {
    text.strip_prefix(open)?.strip_suffix(close)
}

/// The value that a row writes: `true`, `7`, `'text'`, `{2 4}` for nodes by their places, or a
/// fragment's PYX lines between `<` and `>`.
pub(crate) fn operand(out: &Answer, text: &str) -> Result<Value, AllocError> {
    if let Some(chars) = inside(text, '\'', '\'') {
        return Ok(Value::Chars(TextBuf::of(out.alloc, chars)?));
    }
    if let Some(places) = inside(text, '{', '}') {
        return Ok(Value::Nodes(node_set(out, places)?));
    }
    if let Some(lines) = inside(text, '<', '>') {
        let fragment = Fragment::of(events(out, lines));
        return Ok(Value::Piece(SharedFragment::of(out.alloc, fragment)?));
    }
    Ok(match text {
        "true" => Value::Bool(true),
        "false" => Value::Bool(false),
        _ => Value::Number(number(text)),
    })
}

// The nodes at some places.
fn nodes(out: &Answer, places: &str) -> Vec<Node> {
    let mut nodes = Vec::new(out.alloc);
    for place in places.split_whitespace() {
        out.take(&mut nodes, Ok(Node::at(whole(place))));
    }
    nodes
}

// The set of the nodes at some places.
fn node_set(out: &Answer, places: &str) -> Result<NodeSet, AllocError> {
    NodeSet::in_order(nodes(out, places))
}

/// Adds the places of nodes.
pub(crate) fn add_places(out: &Answer, nodes: &[Node]) {
    out.put_if(nodes.is_empty(), "none");
    let mut before = "";
    for node in nodes {
        out.put_count(before, node.place() as u64);
        before = " ";
    }
}

/// Adds the answer of a call with values.
pub(crate) fn add_answer(out: &Answer, settings: &Settings, call: Call, rest: &str) {
    match call {
        Call::Convert => put_operand(out, settings, rest),
        Call::Compared => put_compared(out, settings, rest),
        Call::Join => put_joined(out, rest),
        _ => put_gathered(out, rest),
    }
}

// Adds why a value has no number, or a comparison no outcome.
fn put_value_fault(out: &Answer, fault: ValueFault) {
    match fault {
        ValueFault::Fraction => add_outcome(out, Err(NumFault::Fraction)),
        ValueFault::Range => add_outcome(out, Err(NumFault::Range)),
        ValueFault::NoMemory => out.refuse(),
    }
}

// Adds a copy of a value as a boolean, a string and a number.
fn put_operand(out: &Answer, settings: &Settings, text: &str) {
    match copied(out, text) {
        Ok(value) => {
            put_converted(out, &settings.tree, &value);
            drop(value);
        }
        Err(_) => out.refuse(),
    }
}

// A copy of the value that a row writes.
fn copied(out: &Answer, text: &str) -> Result<Value, AllocError> {
    let value = operand(out, text)?;
    let copy = value.copy();
    drop(value);
    copy
}

// Adds a value as a boolean, a string and a number.
fn put_converted(out: &Answer, tree: &Tree, value: &Value) {
    if !is_in(tree, value) {
        return out.put("no such node");
    }
    out.put_bool(to_bool(value));
    out.put(" | ");
    put_text(out, tree, value);
    out.put(" | ");
    match to_number(out.alloc, tree, value) {
        Ok(number) => out.put_number(number),
        Err(fault) => put_value_fault(out, fault),
    }
}

// Adds a value as a string in quotes.
fn put_text(out: &Answer, tree: &Tree, value: &Value)
    requires { IsIn tree.now value.now }
{
    match to_text(out.alloc, tree, value) {
        Ok(text) => out.put_quoted(text.as_str()),
        Err(_) => out.refuse(),
    }
}

// Adds whether two values compare so.
fn put_compared(out: &Answer, settings: &Settings, text: &str) {
    let (left, rest) = cut(text, " | ");
    let (name, right) = cut(rest, " | ");
    let mut values = Vec::new(out.alloc);
    for text in &[left, right] {
        out.take(&mut values, operand(out, text));
    }
    if let [left, right] = values.as_slice() {
        put_comparison(out, &settings.tree, name, left, right);
    }
    drop(values);
}

// Adds whether two values compare as an operator says.
fn put_comparison(out: &Answer, tree: &Tree, operator: &str, left: &Value, right: &Value) {
    if !is_in(tree, left) || !is_in(tree, right) {
        return out.put("no such node");
    }
    let op = *value_named(COMPARISONS, operator).unwrap_or(&CompareOp::Eq);
    match compare_values(out.alloc, tree, op, left, right) {
        Ok(holds) => out.put_bool(holds),
        Err(fault) => put_value_fault(out, fault),
    }
}

// Adds a set of nodes.
fn put_set(out: &Answer, made: Result<NodeSet, AllocError>) {
    match made {
        Ok(set) => add_places(out, set.nodes()),
        Err(_) => out.refuse(),
    }
}

// Adds the nodes of two sets.
fn put_joined(out: &Answer, text: &str) {
    let (left, right) = cut(text, " | ");
    put_set(out, union_of(out, left, right));
}

// The nodes of two sets.
fn union_of(out: &Answer, left: &str, right: &str) -> Result<NodeSet, AllocError> {
    let left = node_set(out, left)?;
    left.union(out.alloc, &node_set(out, right)?)
}

// Adds a list of nodes, gathered from a slice, one by one and from a slice again, how many it has,
// and its set.
fn put_gathered(out: &Answer, text: &str) {
    let (first, rest) = cut(text, " | ");
    let (next, last) = cut(rest, " | ");
    let first = nodes(out, first);
    let next = nodes(out, next);
    let last = nodes(out, last);
    match NodeList::from_slice(out.alloc, &first) {
        Ok(list) => put_list(out, list, &next, &last),
        Err(_) => out.refuse(),
    }
}

// Adds a list of nodes, how many it has, and its set, when these nodes are added one by one and
// from a slice.
fn put_list(out: &Answer, list: NodeList, next: &[Node], last: &[Node]) {
    let mut list = list;
    for node in next {
        out.note(list.push(*node));
    }
    out.note(list.extend_from_slice(last));
    add_places(out, list.as_slice());
    out.put_count(" | ", list.len() as u64);
    out.put(" | ");
    put_set(out, set_of(list));
}

// A copy of the set of a list.
fn set_of(list: NodeList) -> Result<NodeSet, AllocError> {
    NodeSet::of_list(list)?.copy()
}

/// Adds a value: nodes by their places, any other by its kind and its string.
pub(crate) fn show_value(out: &Answer, tree: &Tree, value: &Value)
    requires { IsIn tree.now value.now }
{
    match value {
        Value::Nodes(set) => add_places(out, set.nodes()),
        Value::Bool(_) | Value::Number(_) => show_text(out, tree, value),
        Value::Chars(text) => out.put_quoted(text.as_str()),
        Value::Piece(_) => {
            out.put_byte(b'<');
            show_text(out, tree, value);
            out.put_byte(b'>');
        }
    }
}

// Adds a value as a string.
fn show_text(out: &Answer, tree: &Tree, value: &Value)
    requires { IsIn tree.now value.now }
{
    let mut text = Vec::new(out.alloc);
    out.note(text_into(tree, value, &mut text));
    out.put_bytes(&text);
}
