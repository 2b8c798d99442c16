//! The nodes of axes, and those that match patterns.

ghost use Rattle.std.specs.Prelude.{◌<◌, length};

use crate::answer::Answer;
use crate::expressions::calls::Call;
use crate::expressions::parsed::{Form, put_parsed};
use crate::expressions::settings::Settings;
use crate::expressions::shown::show_all;
use crate::expressions::tables;
use crate::fields::{cut, whole};
use crate::lookups::value_named;
use xs_axes::axis_nodes;
use xs_eval::evaluate::evaluate;
use xs_eval_spec::context::Context;
use xs_parser::axes;
use xs_pattern::matcher::Matcher;
use xs_trace::item::Site;
use xs_trace::meter::Meter;
use xs_tree::{Axis, Node};
use xs_value::keys::NoKeys;
use xs_value::value::Value;
use xs_xpath::expr::Expr;
use xs_xpath::pattern::Pattern;

/// Adds the nodes of an axis from the node at a place, in the axis' order.
pub(crate) fn put_axis(out: &Answer, settings: &Settings, axis: &str) {
    let (name, place) = cut(axis, " ");
    let Some(axis) = value_named(axes(), name) else {
        return out.put("no such axis");
    };
    let place = whole(place);
    if place as usize >= settings.tree.len() {
        return out.put("no such node");
    }
    for node in axis_nodes(&settings.tree, Node::at(place), *axis) {
        put_place(out, node);
    }
}

// Adds the place of a node after others; at the beginning there are none.
fn put_place(out: &Answer, node: Node) {
    out.put_between(" ");
    out.put_whole(node.place() as u64);
}

/// Adds what a call says of a pattern.
pub(crate) fn put_of_pattern(
    out: &Answer,
    settings: &Settings,
    call: Call,
    place: u32,
    pattern: &Pattern,
) {
    match call {
        Call::Pattern => show_all(out, " or ", &pattern.alternatives),
        Call::MatchAt => put_match(out, settings, place, pattern),
        Call::Match | Call::MatchFaulty => put_matches(out, settings, pattern),
        _ => tables::put_answer(out, settings, call, pattern),
    }
}

// Whether a node of the document matches a pattern.
fn is_match(out: &Answer, settings: &Settings, pattern: &Pattern, node: Node) -> bool
    requires { node < length settings.now.tree }
{
    let keys = NoKeys;
    let matcher = Matcher {
        alloc: settings.alloc,
        tree: &settings.tree,
        keys: &keys,
    };
    out.holds(matcher.matches(pattern, &settings.scope, node))
}

// Adds the nodes of the document that match a pattern.
fn put_matches(out: &Answer, settings: &Settings, pattern: &Pattern) {
    for place in 0..settings.tree.len() as u32 {
        let node = Node::at(place);
        if is_match(out, settings, pattern, node) {
            put_place(out, node);
        }
    }
}

// Adds whether the node at a place matches a pattern.
fn put_match(out: &Answer, settings: &Settings, place: u32, pattern: &Pattern) {
    if place as usize >= settings.tree.len() {
        return out.put("no such node");
    }
    let is_matched = is_match(out, settings, pattern, Node::at(place));
    out.put_bool(is_matched);
}

// Whether a node is in the value of an expression from another one.
fn is_in_value(settings: &Settings, expr: &Expr, from: Node, node: Node) -> bool {
    if from.place() as usize >= settings.tree.len() {
        return false;
    }
    let context = Context {
        tree: &settings.tree,
        node: from,
        position: 1,
        size: 1,
        current: from,
        locals: &[],
        globals: &[],
        scope: &settings.scope,
    };
    let site = Site { module: 0, line: 0 };
    let mut meter = Meter {
        limit: None,
        spent: 0,
    };
    let value = evaluate(settings.alloc, expr, &context, &NoKeys, site, &mut meter);
    let is_there = matches!(&value, Ok(Value::Nodes(nodes)) if nodes.nodes().contains(&node));
    drop(value);
    is_there
}

// Whether a node is in the value of an expression from itself or an ancestor (XSLT 1.0, 5.2).
fn is_selected(settings: &Settings, expr: &Expr, node: Node) -> bool
    requires { node < length settings.now.tree }
{
    for from in axis_nodes(&settings.tree, node, Axis::AncestorOrSelf) {
        if is_in_value(settings, expr, from, node) {
            return true;
        }
    }
    false
}

/// Adds the nodes that are in the value of an expression from themselves or an ancestor.
pub(crate) fn put_selected(out: &Answer, settings: &Settings, expr: &Expr) {
    for place in 0..settings.tree.len() as u32 {
        let node = Node::at(place);
        if is_selected(settings, expr, node) {
            put_place(out, node);
        }
    }
}

/// Adds the nodes that match a pattern to nothing, and those that are in its value as an
/// expression, where these are others.
pub(crate) fn put_both(out: &Answer, settings: &Settings, text: &str) {
    put_parsed(out, settings, Form::Pattern, Call::Match, 0, text);
    let selected = Answer::new(settings.alloc);
    put_parsed(&selected, settings, Form::Expression, Call::Match, 0, text);
    let selected = selected.into_bytes(out);
    if out.copy(out) != selected {
        out.put(", as expressions ");
        out.put_bytes(&selected);
    }
}
