//! Bodies and instructions, as texts.

use crate::answer::Answer;
use crate::lookups::name_of;
use crate::stylesheets::values::{Shown, put_sets, put_some};
use xs_sheet::body::{
    Applied, Binding, Body, Choice, Content, Instr, InstrKind, Level, LiteralStart, MadeName,
    NumberDecl, Passed, SortDecl,
};
use xs_sheet::scoped::ScopedExpr;
use xs_trace::item::Site;

/// Adds a body, in square brackets: each instruction after its line.
#[cycle(bodies)]
pub(crate) fn put_body(out: &Answer, body: &Body) {
    out.put_byte(b'[');
    for instr in body.instrs.as_slice() {
        put_instr(out, instr);
    }
    out.put_byte(b']');
}

/// Adds an instruction after its line.
#[cycle(bodies)]
pub(crate) fn put_instr(out: &Answer, instr: &Instr) {
    put_line(out, instr.site);
    put_kind(out, &instr.kind);
}

/// Adds a line.
fn put_line(out: &Answer, site: Site) {
    out.put_byte(b' ');
    out.put_whole(site.line as u64);
    out.put_byte(b':');
}

/// Adds what an instruction does.
#[cycle(bodies)]
fn put_kind(out: &Answer, kind: &InstrKind) {
    match kind {
        InstrKind::ApplyTemplates { nodes, passed } => {
            put_nodes(out, nodes);
            put_passed(out, passed);
        }
        InstrKind::CallTemplate { template, passed } => {
            out.put_count("call ", *template as u64);
            put_passed(out, passed);
        }
        InstrKind::ForEach {
            select,
            sorts,
            body,
        } => {
            put_tested(out, "each", select);
            put_sorts(out, sorts.as_slice());
            put_body(out, body);
        }
        InstrKind::Choose(choice) => put_choice(out, choice),
        InstrKind::If { test, body } => {
            put_tested(out, "if", test);
            put_body(out, body);
        }
        InstrKind::Variable(binding) => put_binding(out, binding),
        InstrKind::Extension(fallbacks) => {
            out.put("extension");
            for body in fallbacks.bodies.as_slice() {
                put_body(out, body);
            }
        }
        _ => put_made(out, kind),
    }
}

/// Adds an instruction that makes nodes.
#[cycle(bodies)]
fn put_made(out: &Answer, kind: &InstrKind) {
    match kind {
        InstrKind::Copy { sets, body } => {
            out.put("copy");
            put_sets(out, sets.as_slice());
            put_body(out, body);
        }
        InstrKind::Element { name, sets, body } => {
            put_made_name(out, "element ", name);
            put_sets(out, sets.as_slice());
            put_body(out, body);
        }
        InstrKind::Attribute { name, body } => {
            put_made_name(out, "attribute ", name);
            put_body(out, body);
        }
        InstrKind::Comment(body) => {
            out.put("comment");
            put_body(out, body);
        }
        InstrKind::Pi { name, body } => {
            out.put("pi ");
            name.put(out);
            put_body(out, body);
        }
        InstrKind::Message { terminate, body } => {
            out.put("message ");
            out.put_bool(*terminate);
            put_body(out, body);
        }
        InstrKind::Literal { start, body } => {
            put_start(out, start);
            put_body(out, body);
        }
        _ => put_simple(out, kind),
    }
}

/// Adds an instruction without a body.
fn put_simple(out: &Answer, kind: &InstrKind) {
    match kind {
        InstrKind::ApplyImports => out.put("imports"),
        InstrKind::ValueOf(select) => put_tested(out, "value", select),
        InstrKind::CopyOf(select) => put_tested(out, "copy-of", select),
        InstrKind::Number(number) => put_number(out, number),
        InstrKind::Text(text) => out.put_quoted(text.as_str()),
        _ => (),
    }
}

/// Adds the branches of a choice.
#[cycle(bodies)]
fn put_choice(out: &Answer, choice: &Choice) {
    out.put("choose");
    for when in choice.whens.as_slice() {
        when.test.put(out);
        put_body(out, &when.body);
    }
    out.put("else");
    put_body(out, &choice.otherwise);
}

/// Adds the parameters that are passed.
#[cycle(bodies)]
fn put_passed(out: &Answer, passed: &Passed) {
    for binding in passed.params.as_slice() {
        out.put(" with");
        put_line(out, binding.site);
        put_binding(out, binding);
    }
}

/// Adds a binding.
#[cycle(bodies)]
pub(crate) fn put_binding(out: &Answer, binding: &Binding) {
    out.put_byte(b'$');
    out.put_label(&binding.name);
    match &binding.content {
        Content::Empty => (),
        Content::Select(e) => e.put(out),
        Content::Body(body) => put_body(out, body),
    }
}

/// Adds an expression after a word.
fn put_tested(out: &Answer, word: &str, e: &ScopedExpr) {
    out.put(word);
    e.put(out);
}

/// Adds the nodes to which templates are applied.
fn put_nodes(out: &Answer, nodes: &Applied) {
    out.put("apply");
    put_some(out, "", &nodes.select);
    put_mode(out, nodes.mode);
    put_sorts(out, nodes.sorts.as_slice());
}

/// Adds a mode, except that of templates without one.
pub(crate) fn put_mode(out: &Answer, mode: u32) {
    if mode != 0 {
        out.put_count(" mode ", mode as u64);
    }
}

/// Adds sort keys.
fn put_sorts(out: &Answer, sorts: &[SortDecl]) {
    for sort in sorts {
        put_tested(out, " sort", &sort.select);
        put_some(out, " type ", &sort.data_type);
        put_some(out, " order ", &sort.order);
    }
}

/// The levels of numbers.
const LEVELS: &[(&str, Level)] = &[
    ("single", Level::Single),
    ("multiple", Level::Multiple),
    ("any", Level::Any),
];

/// Adds a number.
fn put_number(out: &Answer, number: &NumberDecl) {
    out.put_both("number ", name_of(LEVELS, &number.level));
    put_some(out, " count", &number.count);
    put_some(out, " from", &number.from);
    put_some(out, " value", &number.value);
    put_some(out, " format ", &number.format);
    put_some(out, " separator ", &number.grouping_separator);
    put_some(out, " size ", &number.grouping_size);
}

/// Adds a name that is made, after a word.
fn put_made_name(out: &Answer, word: &str, name: &MadeName) {
    out.put(word);
    name.name.put(out);
    put_some(out, " in ", &name.namespace);
}

/// Adds a literal element except for its content.
fn put_start(out: &Answer, start: &LiteralStart) {
    out.put_byte(b'<');
    out.put_label(&start.name);
    for (prefix, uri) in start.spaces.as_slice() {
        out.put_signed(b' ', prefix.as_str());
        out.put_signed(b'=', uri.as_str());
    }
    put_sets(out, start.sets.as_slice());
    for (name, value) in start.attributes.as_slice() {
        out.put_byte(b' ');
        out.put_label(name);
        out.put_byte(b'=');
        value.put(out);
    }
    out.put_byte(b'>');
}
