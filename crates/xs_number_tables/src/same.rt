//! Whether two instructions count by the same level and patterns (XSLT 1.0, 7.7). They are compared
//! part by part, and contracts speak of the answer `true` alone.

ghost use Rattle.std.specs.Prelude.{◌≡◌, true};
ghost use Rattle.xs_number_tables.specs.Tables.{IsSameCounting};
ghost use Rattle.xs_xpath.specs.Exprs.{tree_from, trees_from};

use xs_num::number::{Num, Number};
use xs_sheet::body::NumberDecl;
use xs_sheet::scoped::ScopedPattern;
use xs_text::TextBuf;
use xs_xpath::expr::Expr;
use xs_xpath::name::{Function, NodeTest, Slot};
use xs_xpath::token::Operator;

/// Whether two instructions count by the same level, `count` and `from`.
pub(crate) fn is_same_counting(a: &NumberDecl, b: &NumberDecl) -> bool
    ensures { result ≡ true → IsSameCounting a.now b.now }
{
    a.level == b.level && is_same_optional(&a.count, &b.count) && is_same_optional(&a.from, &b.from)
}

// Whether two patterns are the same, or both are absent.
fn is_same_optional(a: &Option<ScopedPattern>, b: &Option<ScopedPattern>) -> bool
    ensures { result ≡ true → a.now ≡ b.now }
{
    match (a, b) {
        (Some(a), Some(b)) => is_same_pattern(a, b),
        (None, None) => true,
        _ => false,
    }
}

// Whether two patterns are the same, and the namespaces in scope for them.
fn is_same_pattern(a: &ScopedPattern, b: &ScopedPattern) -> bool
    ensures { result ≡ true → a.now ≡ b.now }
{
    are_same(a.pattern.alternatives(), b.pattern.alternatives())
        && are_same_pairs(&a.scope.scope().pairs, &b.scope.scope().pairs)
}

// Whether two lists of texts in pairs are the same.
fn are_same_pairs(a: &[(TextBuf, TextBuf)], b: &[(TextBuf, TextBuf)]) -> bool
    ensures { result ≡ true → a.now ≡ b.now }
{
    let mut rest = b;
    for pair in a {
        match rest.split_first() {
            Some((other, others)) => {
                if !is_same_pair(pair, other) {
                    return false;
                }
                rest = others;
            }
            None => return false,
        }
    }
    rest.is_empty()
}

// Whether two pairs of texts are the same.
fn is_same_pair(a: &(TextBuf, TextBuf), b: &(TextBuf, TextBuf)) -> bool
    ensures { result ≡ true → a.now ≡ b.now }
{
    is_same_text(&a.0, &b.0) && is_same_text(&a.1, &b.1)
}

// Whether two texts are the same.
fn is_same_text(a: &TextBuf, b: &TextBuf) -> bool
    ensures { result ≡ true → a.now ≡ b.now }
{
    a.as_str() == b.as_str()
}

// Whether two numbers are the same.
fn is_same_number(a: Num, b: Num) -> bool
    ensures { result ≡ true → a ≡ b }
{
    match (a.get(), b.get()) {
        (Number::Whole(a), Number::Whole(b)) => a == b,
        (Number::NaN, Number::NaN) => true,
        _ => false,
    }
}

// Whether two variables have the same slot.
fn is_same_slot(a: Option<Slot>, b: Option<Slot>) -> bool
    ensures { result ≡ true → a ≡ b }
{
    match (a, b) {
        (None, None) => true,
        (Some(Slot::Local(a)), Some(Slot::Local(b))) => a == b,
        (Some(Slot::Global(a)), Some(Slot::Global(b))) => a == b,
        _ => false,
    }
}

// Whether two functions are the same.
fn is_same_function(a: Function, b: Function) -> bool
    ensures { result ≡ true → a ≡ b }
{
    a as u8 == b as u8
}

// Whether two operators are the same.
fn is_same_operator(a: Operator, b: Operator) -> bool
    ensures { result ≡ true → a ≡ b }
{
    a as u8 == b as u8
}

// Whether two node tests are the same.
fn is_same_test(a: &NodeTest, b: &NodeTest) -> bool
    ensures { result ≡ true → a.now ≡ b.now }
{
    match (a, b) {
        (NodeTest::Any, NodeTest::Any) => true,
        (NodeTest::Uri(a), NodeTest::Uri(b)) => is_same_text(a, b),
        (NodeTest::Name(uri, local), NodeTest::Name(other, name)) => {
            is_same_text(uri, other) && is_same_text(local, name)
        }
        (NodeTest::Node, NodeTest::Node) => true,
        (NodeTest::Text, NodeTest::Text) => true,
        (NodeTest::Comment, NodeTest::Comment) => true,
        (NodeTest::Pi, NodeTest::Pi) => true,
        (NodeTest::Target(a), NodeTest::Target(b)) => is_same_text(a, b),
        _ => false,
    }
}

// Whether two lists of operators are the same.
fn are_same_operators(a: &[Operator], b: &[Operator]) -> bool
    ensures { result ≡ true → a.now ≡ b.now }
{
    let mut rest = b;
    for operator in a {
        match rest.split_first() {
            Some((other, others)) => {
                if !is_same_operator(*operator, *other) {
                    return false;
                }
                rest = others;
            }
            None => return false,
        }
    }
    rest.is_empty()
}

// Whether two lists of expressions are the same.
#[cycle(same)]
fn are_same(a: &[Expr], b: &[Expr]) -> bool
    ensures { result ≡ true → trees_from a.now ≡ trees_from b.now }
{
    let mut rest = b;
    for expr in a {
        match rest.split_first() {
            Some((other, others)) => {
                if !is_same(expr, other) {
                    return false;
                }
                rest = others;
            }
            None => return false,
        }
    }
    rest.is_empty()
}

// Whether two expressions are the same.
#[cycle(same)]
fn is_same(a: &Expr, b: &Expr) -> bool
    ensures { result ≡ true → tree_from a.now ≡ tree_from b.now }
{
    match (a, b) {
        (Expr::Number(a), Expr::Number(b)) => is_same_number(*a, *b),
        (Expr::Literal(a), Expr::Literal(b)) => is_same_text(a, b),
        (Expr::Variable(uri, local, slot), Expr::Variable(other, name, place)) => {
            is_same_text(uri, other) && is_same_text(local, name) && is_same_slot(*slot, *place)
        }
        (Expr::Call(function, arguments), Expr::Call(other, given)) => {
            is_same_function(*function, *other) && are_same(arguments, given)
        }
        (Expr::Negative(signs, a), Expr::Negative(other, b)) => signs == other && is_same(a, b),
        (Expr::Chain(operators, a), Expr::Chain(others, b)) => {
            are_same_operators(operators, others) && are_same(a, b)
        }
        (Expr::Group(a), Expr::Group(b)) => is_same(a, b),
        (Expr::Here, Expr::Here) => true,
        (Expr::Root, Expr::Root) => true,
        (Expr::Step(axis, test, a), Expr::Step(other, wanted, b)) => {
            axis == other && is_same_test(test, wanted) && are_same(a, b)
        }
        (Expr::Descend, Expr::Descend) => true,
        (Expr::Filter(a, tests), Expr::Filter(b, others)) => is_same(a, b)
            && are_same(tests, others),
        (Expr::Path(a, steps), Expr::Path(b, others)) => is_same(a, b) && are_same(steps, others),
        _ => false,
    }
}
