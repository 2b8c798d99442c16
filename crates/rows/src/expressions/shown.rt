//! The trees of expressions, in a compact form. `./a` is a path that begins at the context node,
//! `root/a` one that begins at the root; `{a + b}` has operators with their operands, `(a)` is in
//! brackets, and `u:a` is a name with the URI `u`.

use crate::answer::Answer;
use crate::expressions::names::{OPERATORS, function_name};
use crate::lookups::name_of;
use xs_parser::axes;
use xs_text::TextBuf;
use xs_tree::Axis;
use xs_xpath::avt::AvtPart;
use xs_xpath::expr::Expr;
use xs_xpath::name::{NodeTest, Slot};
use xs_xpath::token::Operator;

// Appends a name, with its URI where it has one.
fn show_name(out: &Answer, uri: &TextBuf, local: &str) {
    let uri = uri.as_str();
    if !uri.is_empty() {
        out.put_ended(uri, b':');
    }
    out.put(local);
}

// Appends an axis; the child axis is left out.
fn show_axis(out: &Answer, axis: Axis) {
    if axis != Axis::Child {
        out.put_both(name_of(axes(), &axis), "::");
    }
}

// Appends a node test.
fn show_test(out: &Answer, test: &NodeTest) {
    match test {
        NodeTest::Any => out.put_byte(b'*'),
        NodeTest::Uri(uri) => show_name(out, uri, "*"),
        NodeTest::Name(uri, local) => show_name(out, uri, local.as_str()),
        NodeTest::Node => out.put("node()"),
        NodeTest::Text => out.put("text()"),
        NodeTest::Comment => out.put("comment()"),
        NodeTest::Pi => out.put("pi()"),
        NodeTest::Target(target) => {
            out.put("pi(");
            out.put_ended(target.as_str(), b')');
        }
    }
}

// Appends the slot of a variable, if it has one.
fn show_slot(out: &Answer, slot: Option<Slot>) {
    let (kind, number) = match slot {
        None => return,
        Some(Slot::Local(number)) => ("#L", number),
        Some(Slot::Global(number)) => ("#G", number),
    };
    out.put_count(kind, number as u64);
}

// Appends trees, each between two texts.
#[cycle(show)]
fn show_each(out: &Answer, before: &str, es: &[Expr], after: &str) {
    for e in es {
        out.put(before);
        show(out, e);
        out.put(after);
    }
}

// Appends operands, and the operators between them.
#[cycle(show)]
fn show_chain(out: &Answer, operators: &[Operator], operands: &[Expr]) {
    let mut left = operators;
    for e in operands {
        show(out, e);
        if let Some((operator, after)) = left.split_first() {
            out.put_in(b' ', name_of(OPERATORS, &(*operator as u8)), b' ');
            left = after;
        }
    }
}

/// Appends trees, and a text between them.
#[cycle(show)]
pub(crate) fn show_all(out: &Answer, between: &str, es: &[Expr]) {
    let mut is_first = true;
    for e in es {
        out.put_if(!is_first, between);
        show(out, e);
        is_first = false;
    }
}

/// Appends a tree.
#[cycle(show)]
pub(crate) fn show(out: &Answer, e: &Expr) {
    match e {
        Expr::Variable(uri, local, slot) => {
            out.put_byte(b'$');
            show_name(out, uri, local.as_str());
            show_slot(out, *slot);
        }
        Expr::Call(function, arguments) => {
            out.put_ended(function_name(*function), b'(');
            show_all(out, ",", arguments);
            out.put_byte(b')');
        }
        Expr::Negative(signs, e) => {
            out.put_times("-", *signs);
            show(out, e);
        }
        Expr::Chain(operators, operands) => {
            out.put_byte(b'{');
            show_chain(out, operators, operands);
            out.put_byte(b'}');
        }
        Expr::Group(e) => {
            out.put_byte(b'(');
            show(out, e);
            out.put_byte(b')');
        }
        Expr::Step(axis, test, predicates) => {
            show_axis(out, *axis);
            show_test(out, test);
            show_each(out, "[", predicates, "]");
        }
        Expr::Filter(e, predicates) => {
            show(out, e);
            show_each(out, "[", predicates, "]");
        }
        Expr::Path(e, steps) => {
            show(out, e);
            show_each(out, "/", steps, "");
        }
        _ => show_leaf(out, e),
    }
}

// Appends a tree without others in it.
fn show_leaf(out: &Answer, e: &Expr) {
    match e {
        Expr::Number(number) => out.put_number(*number),
        Expr::Literal(text) => out.put_quoted(text.as_str()),
        Expr::Here => out.put_byte(b'.'),
        Expr::Root => out.put("root"),
        Expr::Descend => out.put("descend"),
        _ => (),
    }
}

/// Appends the parts of a value template.
pub(crate) fn show_parts(out: &Answer, parts: &[AvtPart]) {
    for part in parts {
        match part {
            AvtPart::Fixed(text) => out.put_quoted(text.as_str()),
            AvtPart::Computed(e) => {
                out.put_byte(b'{');
                show(out, e);
                out.put_byte(b'}');
            }
        }
    }
}
