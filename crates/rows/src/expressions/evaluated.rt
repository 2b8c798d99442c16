//! Values of expressions and value templates, with their ticks.

ghost use Rattle.std.specs.Prelude.{◌↔◌, [], IsTrue};
ghost use Rattle.std.specs.List.{All};
ghost use Rattle.xs_eval_spec.specs.Conditions.{IsContext, IsInIf};
ghost use Rattle.xs_value.specs.Conversion.{IsIn};

use crate::answer::{Answer, text_of};
use crate::expressions::calls::Call;
use crate::expressions::parsed::{Form, Parsed, parse, put_fault};
use crate::expressions::settings::Settings;
use crate::expressions::values::show_value;
use crate::fields::{cut, whole};
use crate::lookups::value_named;
use xs_eval::evaluate::evaluate;
use xs_eval::templates::evaluate_avt;
use xs_eval_spec::context::Context;
use xs_trace::item::Site;
use xs_trace::meter::Meter;
use xs_trace::recorder::Halt;
use xs_tree::{Node, Tree};
use xs_value::conversion::is_in;
use xs_value::keys::NoKeys;
use xs_value::value::Value;
use xs_xpath::avt::AvtPart;
use xs_xpath::expr::Expr;

// The ends of comparisons, and their letters.
const LETTERS: &[(&str, &str)] = &[
    ("true", "T"),
    ("false", "F"),
    ("fault 51", "1"),
    ("fault 52", "2"),
];

// A limit above the ticks of each row.
const AMPLE: u64 = 1_000_000;

// Where expressions stand.
const SITE: Site = Site { module: 0, line: 1 };

// Whether the nodes of values are in the tree.
fn are_in(tree: &Tree, values: &[Value]) -> bool
    ensures { IsTrue result ↔ All (IsIn tree.now) values.now }
{
    values.iter().all(|v| is_in(tree, v))
}

// Whether the nodes of a value are in the tree, where there is one.
fn is_in_if(tree: &Tree, value: &Option<Value>) -> bool
    ensures { IsTrue result ↔ IsInIf tree.now value.now }
{
    match value {
        Some(v) => is_in(tree, v),
        None => true,
    }
}

// Whether the nodes of those values that are there are in the tree.
fn are_in_if(tree: &Tree, values: &[Option<Value>]) -> bool
    ensures { IsTrue result ↔ All (IsInIf tree.now) values.now }
{
    values.iter().all(|value| is_in_if(tree, value))
}

// Adds how an evaluation without a value ended.
fn put_halt(out: &Answer, halt: Halt) {
    let end = match halt {
        Halt::Fault(fault, _) => return out.put_count("fault ", fault.number() as u64),
        Halt::Needs(global, _) => return out.put_count("needs ", global as u64),
        Halt::NoMemory => return out.refuse(),
        Halt::Spent(_) => "spent",
        Halt::Full(_) => "full",
        Halt::Over { .. } => "over",
    };
    out.put(end);
}

// Adds the end of an evaluation at the node at a place, under a limit of ticks, and says how many
// it took.
fn put_end(out: &Answer, settings: &Settings, parsed: &Parsed, place: u32, limit: u64) -> u64 {
    let tree: &Tree = &settings.tree;
    let is_there = (place as usize) < tree.len() && (settings.current as usize) < tree.len();
    if !is_there || !are_in(tree, &settings.locals) || !are_in_if(tree, &settings.globals) {
        out.put("no such node");
        return 0;
    }
    let context = Context {
        tree,
        node: Node::at(place),
        position: settings.position,
        size: settings.size,
        current: Node::at(settings.current),
        locals: &settings.locals,
        globals: &settings.globals,
        scope: &settings.scope,
    };
    let mut meter = Meter {
        limit: Some(limit),
        spent: 0,
    };
    match parsed {
        Parsed::Expression(expr) => put_value(out, expr, &context, &mut meter),
        Parsed::Template(parts) => put_text(out, parts, &context, &mut meter),
        Parsed::Pattern(_) => out.put("a pattern has no value"),
    }
    meter.spent
}

// Adds the value of an expression, or how it ended without one.
fn put_value(out: &Answer, expr: &Expr, context: &Context<'_>, meter: &mut Meter)
    requires { IsContext [] context.now }
{
    match evaluate(out.alloc, expr, context, &NoKeys, SITE, meter) {
        Ok(value) => {
            show_value(out, context.tree, &value);
            drop(value);
        }
        Err(halt) => put_halt(out, halt),
    }
}

// Adds the text of a value template, or how it ended without one.
fn put_text(out: &Answer, parts: &[AvtPart], context: &Context<'_>, meter: &mut Meter)
    requires { IsContext [] context.now }
{
    match evaluate_avt(out.alloc, parts, context, &NoKeys, SITE, meter) {
        Ok(text) => out.put_quoted(text.as_str()),
        Err(halt) => put_halt(out, halt),
    }
}

// Whether an evaluation under a limit spends it and has this end.
fn ends_so(
    out: &Answer,
    settings: &Settings,
    parsed: &Parsed,
    place: u32,
    limit: u64,
    end: &[u8],
) -> bool {
    let found = Answer::new(settings.alloc);
    let ticks = put_end(&found, settings, parsed, place, limit);
    found.into_bytes(out).as_slice() == end && ticks == limit
}

// Adds the end of an evaluation under an ample limit, and says its ticks. Where it ends otherwise
// under a limit of just these ticks, or not as spent under one tick less, it adds this too.
fn put_tried(out: &Answer, settings: &Settings, parsed: &Parsed, place: u32) -> u64 {
    let end = Answer::new(settings.alloc);
    let ticks = put_end(&end, settings, parsed, place, AMPLE);
    let end = end.into_bytes(out);
    out.put_bytes(&end);
    if !ends_so(out, settings, parsed, place, ticks, &end) {
        out.put(", otherwise at its limit");
    }
    if ticks > 0 && !ends_so(out, settings, parsed, place, ticks - 1, b"spent") {
        out.put(", not spent by one tick less");
    }
    ticks
}

/// Adds the answer of a call that evaluates.
pub(crate) fn add_answer(out: &Answer, settings: &Settings, call: Call, rest: &str) {
    let (place, text) = cut(rest, " | ");
    let place = whole(place);
    let ticks = match call {
        Call::Value => put_parsed(out, settings, Form::Bound, text, place),
        Call::Text => put_parsed(out, settings, Form::Template, text, place),
        _ => compare(out, settings, place, text),
    };
    out.put_count(" | ", ticks);
}

// Adds what a text of a form gives, and says its ticks.
fn put_parsed(out: &Answer, settings: &Settings, form: Form, text: &str, place: u32) -> u64 {
    match parse(settings, form, text) {
        Ok(parsed) => {
            let ticks = put_tried(out, settings, &parsed, place);
            drop(parsed);
            ticks
        }
        Err(fault) => {
            put_fault(out, fault);
            0
        }
    }
}

// Adds how two operands compare under each operator, a letter for each, and says the ticks of one
// comparison. After a letter stands `?` where its comparison takes other ticks than the one before.
fn compare(out: &Answer, settings: &Settings, place: u32, text: &str) -> u64 {
    let (left, right) = cut(text, " | ");
    let mut ticks = put_letter(out, settings, place, left, " = ", right);
    for operator in &[" != ", " < ", " <= ", " > ", " >= "] {
        let next = put_letter(out, settings, place, left, operator, right);
        out.put_if(next != ticks, "?");
        ticks = next;
    }
    ticks
}

// Adds the letter of how two operands compare under an operator, and says its ticks.
fn put_letter(
    out: &Answer,
    settings: &Settings,
    place: u32,
    left: &str,
    operator: &str,
    right: &str,
) -> u64 {
    let text = Answer::new(settings.alloc);
    text.put_both(left, operator);
    text.put(right);
    let end = Answer::new(settings.alloc);
    let text = text.into_bytes(out);
    let ticks = put_parsed(&end, settings, Form::Bound, text_of(&text), place);
    let end = end.into_bytes(out);
    out.put(value_named(LETTERS, text_of(&end)).unwrap_or(&"?"));
    ticks
}
