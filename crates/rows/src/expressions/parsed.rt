//! What texts are parsed to, and the scopes that they are parsed in.

ghost use Rattle.std.specs.Prelude.{◌<◌, ◌^◌, length};

use crate::answer::{Answer, text_of};
use crate::expressions::calls::Call;
use crate::expressions::matched::{put_both, put_of_pattern, put_selected};
use crate::expressions::settings::Settings;
use crate::expressions::shown::{show, show_parts};
use crate::fields::{cut, whole};
use xs_parser::avt::parse_avt;
use xs_parser::fault::ParseFault;
use xs_parser::parse::{parse_expr, parse_pattern};
use xs_trace::event::Label;
use xs_xpath::avt::AvtPart;
use xs_xpath::bind::{Slots, bind};
use xs_xpath::expr::Expr;
use xs_xpath::name::Slot;
use xs_xpath::pattern::Pattern;
use xs_xpath::scope::Scope;
use xs_xpath::uses::{has_unbound, uses_current, uses_key, uses_variables};

// The most bytes of a text.
const MOST: usize = 100_000_000;

/// As what a text is parsed.
#[derive(Clone, Copy)]
pub(crate) enum Form {
    /// As an expression.
    Expression,
    /// As an expression, and its variables are bound to their slots.
    Bound,
    /// As a pattern.
    Pattern,
    /// As a value template.
    Template,
}

/// What a text is parsed to.
#[derive(Drop)]
pub(crate) enum Parsed {
    Expression(Expr),
    Pattern(Pattern),
    Template(Vec<AvtPart>),
}

/// Adds a fault by `!`, its number, `@` and its place.
pub(crate) fn put_fault(out: &Answer, fault: ParseFault) {
    match fault {
        ParseFault::Bad { number, at } => {
            out.put_count("!", number as u64);
            out.put_count("@", at as u64);
        }
        ParseFault::NoMemory => out.refuse(),
    }
}

/// What a text is parsed to.
pub(crate) fn parse(settings: &Settings, form: Form, text: &str) -> Result<Parsed, ParseFault> {
    if text.len() > MOST {
        return Err(ParseFault::NoMemory);
    }
    match form {
        Form::Expression => expression(settings, text, &[]),
        Form::Bound => expression(settings, text, &settings.slots),
        Form::Pattern => pattern(settings, text),
        Form::Template => template(settings, text),
    }
}

// The expression of a text, its variables bound to these slots.
fn expression(
    settings: &Settings,
    text: &str,
    slots: &[(Label, Slot)],
) -> Result<Parsed, ParseFault>
    requires short { length text.now < 2 ^ 32 }
{
    match Slots::of(settings.alloc, slots) {
        Ok(slots) => bound(settings, text, &slots),
        Err(_) => Err(ParseFault::NoMemory),
    }
}

// The expression of a text, its variables bound to these slots.
fn bound(settings: &Settings, text: &str, slots: &Slots<'_>) -> Result<Parsed, ParseFault>
    requires short { length text.now < 2 ^ 32 }
{
    match parse_expr(settings.alloc, text, &settings.scope) {
        Ok(expr) => Ok(Parsed::Expression(bind(expr, slots))),
        Err(fault) => Err(fault),
    }
}

// The pattern of a text.
fn pattern(settings: &Settings, text: &str) -> Result<Parsed, ParseFault>
    requires short { length text.now < 2 ^ 32 }
{
    match parse_pattern(settings.alloc, text, &settings.scope) {
        Ok(pattern) => Ok(Parsed::Pattern(pattern)),
        Err(fault) => Err(fault),
    }
}

// The parts of the value template of a text.
fn template(settings: &Settings, text: &str) -> Result<Parsed, ParseFault>
    requires short { length text.now < 2 ^ 32 }
{
    match parse_avt(settings.alloc, text, &settings.scope) {
        Ok(parts) => Ok(Parsed::Template(parts)),
        Err(fault) => Err(fault),
    }
}

/// Adds the answer of a call with a text that is parsed.
pub(crate) fn add_answer(out: &Answer, settings: &Settings, form: Form, call: Call, rest: &str) {
    match call {
        Call::Match => put_both(out, settings, rest),
        Call::MatchAt => {
            let (place, text) = cut(rest, " | ");
            put_parsed(out, settings, form, call, whole(place), text);
        }
        _ => put_parsed(out, settings, form, call, 0, rest),
    }
}

/// Adds what a call says of a text, at a place where it asks of one, or the fault of the text.
pub(crate) fn put_parsed(
    out: &Answer,
    settings: &Settings,
    form: Form,
    call: Call,
    place: u32,
    text: &str,
) {
    match parse(settings, form, text) {
        Ok(parsed) => {
            match &parsed {
                Parsed::Expression(expr) => put_of_expression(out, settings, call, expr),
                Parsed::Pattern(pattern) => put_of_pattern(out, settings, call, place, pattern),
                Parsed::Template(parts) => show_parts(out, parts),
            }
            drop(parsed);
        }
        Err(fault) => put_fault(out, fault),
    }
}

// Adds what a call says of an expression.
fn put_of_expression(out: &Answer, settings: &Settings, call: Call, expr: &Expr) {
    match call {
        Call::Expression => show(out, expr),
        Call::Bound => show_with_uses(out, expr),
        Call::Long => out.put("read"),
        _ => put_selected(out, settings, expr),
    }
}

// Adds a tree, and letters for what it refers to: variables, some of them unbound, the current
// node, and keys.
fn show_with_uses(out: &Answer, e: &Expr) {
    let (variables, current, key) = (uses_variables(e), uses_current(e), uses_key(e));
    show(out, e);
    out.put_if(variables || current || key, " | ");
    out.put_if(variables, "v");
    out.put_if(has_unbound(e), "u");
    out.put_if(current, "c");
    out.put_if(key, "k");
}

/// Adds the URI of a prefix.
pub(crate) fn put_uri(out: &Answer, scope: &Scope, prefix: &str) {
    out.put(scope.uri_in(prefix).unwrap_or(""));
}

/// Adds how many of the prefixes with the numbers from one to another have the URI with that
/// number.
pub(crate) fn put_found(out: &Answer, scope: &Scope, numbers: &str) {
    let (first, last) = cut(numbers, " ");
    let mut found = 0_u64;
    for number in whole(first)..=whole(last) {
        found = found.saturating_add(is_found(out, scope, number as u64) as u64);
    }
    out.put_whole(found);
}

// Whether the prefix with a number has the URI with that number.
fn is_found(out: &Answer, scope: &Scope, number: u64) -> bool {
    let pair = Answer::new(out.alloc);
    pair.put_count("p", number);
    pair.put_count(" u", number);
    let pair = pair.into_bytes(out);
    let (prefix, uri) = cut(text_of(&pair), " ");
    scope.uri_in(prefix) == Some(uri)
}
