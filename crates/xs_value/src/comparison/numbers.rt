//! Values compared as numbers.

ghost use Rattle.std.specs.Prelude.{◌≡◌, ◌==◌, ◌<◌, ◌∷◌, [], List, length, false, true, IfOk, Ok};
ghost use Rattle.std.specs.List.{All};
ghost use Rattle.xs_num.specs.Text.{number_in};
ghost use Rattle.xs_tree.specs.Record.{Record, string_value};
ghost use Rattle.xs_value.specs.Comparison.{by_number, compared, is_boolean, is_ordering, some};
ghost use Rattle.xs_value.specs.Conversion.{IsIn};
ghost use Rattle.xs_value.specs.Results.{Answers};
ghost use Rattle.xs_value.specs.steps.Operands.{AnswersRow, AreIn, CanStand, Keeps};
ghost use Rattle.xs_value.specs.steps.Operands.{compared_as, further};
ghost use Rattle.xs_value.specs.steps.Operands.{is_nan, kept_numbers, node_numbers};
ghost use Rattle.xs_value.specs.declared.comparison.ComparedAs.TheVariants.{Numbers as AsNumbers};
ghost use Rattle.xs_value.specs.steps.Operands.{some_numbers};

use super::CompareOp;
use crate::conversion::{events_text, node_text};
use crate::value::{Value, ValueFault};
use std::alloc::{AllocError, Global};
use xs_num::arithmetic::compare;
use xs_num::number::{Num, NumFault, Number};
use xs_num::reading::read_num;
use xs_tree::{Node, Tree};

// The numbers that represent an operand.
#[derive(Drop)]
enum Numbers<'a> {
    // That of a value that is no node-set.
    One(Result<Num, NumFault>),
    // Those of nodes.
    Nodes(&'a [Node]),
}

/// Compares two values as numbers, of which neither is a boolean and, for `=` and `!=`, one is a
/// number: in time linear in their sizes.
pub(super) fn compare_numbers(
    alloc: Global,
    tree: &Tree,
    op: CompareOp,
    left: &Value,
    right: &Value,
) -> Result<bool, ValueFault>
    requires left { IsIn tree.now left.now }
    requires right { IsIn tree.now right.now }
    requires numbers { compared_as op left.now right.now ≡ AsNumbers }
    ensures { Answers (compared tree.now op left.now right.now) result }
{
    let Ok(left) = numbers_of(alloc, left) else {
        return Err(ValueFault::NoMemory);
    };
    let Ok(right) = numbers_of(alloc, right) else {
        return Err(ValueFault::NoMemory);
    };
    if is_empty(&right) {
        return Ok(false);
    }
    match left {
        Numbers::One(x) => compare_one(alloc, tree, op, x, &right),
        Numbers::Nodes(nodes) => compare_nodes(alloc, tree, op, nodes, &right),
    }
}

// The numbers that represent a value that is no boolean.
fn numbers_of(alloc: Global, v: &Value) -> Result<Numbers<'_>, AllocError>
    requires { is_boolean v.now ≡ false }
    ensures { IfOk result (Keeps v.now) }
{
    match v {
        Value::Bool(_) => unreachable!(),
        Value::Number(number) => Ok(Numbers::One(Ok(*number))),
        Value::Chars(text) => Ok(Numbers::One(read_num(text.as_str()))),
        Value::Nodes(nodes) => Ok(Numbers::Nodes(nodes.nodes())),
        Value::Piece(fragment) => {
            let text = events_text(alloc, fragment.events())?;
            Ok(Numbers::One(read_num(text.as_str())))
        }
    }
}

// Whether there is no number.
fn is_empty(numbers: &Numbers<'_>) -> bool
    ensures { (rs : List Record) → result ≡ (length (kept_numbers rs numbers.now) == 0) }
{
    match numbers {
        Numbers::One(_) => false,
        Numbers::Nodes(nodes) => nodes.is_empty(),
    }
}

// The number that the string-value of a node spells.
fn node_number(alloc: Global, tree: &Tree, node: Node) -> Result<Num, ValueFault>
    requires { node < length tree.now }
    ensures { Answers (number_in (string_value tree.now node)) result }
{
    let text = node_text(alloc, tree, node)?;
    Ok(read_num(text.as_str())?)
}

// Compares one number with those on the right, of which there are some.
fn compare_one(
    alloc: Global,
    tree: &Tree,
    op: CompareOp,
    x: Result<Num, NumFault>,
    right: &Numbers<'_>,
) -> Result<bool, ValueFault>
    requires right { AreIn tree.now right.now }
    requires some { 0 < length (kept_numbers tree.now right.now) }
    ensures { Answers (some_numbers op (x ∷ []) (kept_numbers tree.now right.now)) result }
{
    let x = x?;
    let row = compare_row(alloc, tree, op, x, right)?;
    Ok(row.is_none())
}

// Compares the numbers of nodes with those on the right, of which there are some. The first node is
// compared with each of them; then one number represents all.
fn compare_nodes(
    alloc: Global,
    tree: &Tree,
    op: CompareOp,
    nodes: &[Node],
    right: &Numbers<'_>,
) -> Result<bool, ValueFault>
    requires left { All (λ n. n < length tree.now) nodes.now }
    requires right { AreIn tree.now right.now }
    requires some { 0 < length (kept_numbers tree.now right.now) }
    requires can { CanStand op right.now }
    ensures { Answers (some_numbers op (node_numbers tree.now nodes.now)
        (kept_numbers tree.now right.now)) result }
{
    let [first, rest @ ..] = nodes else {
        return Ok(false);
    };
    let x = node_number(alloc, tree, *first)?;
    match compare_row(alloc, tree, op, x, right)? {
        None => Ok(true),
        Some(y) => compare_rest(alloc, tree, op, rest, y),
    }
}

// Compares one number with those on the right: none where it holds for one of them, and else the
// number that represents all of them.
fn compare_row(
    alloc: Global,
    tree: &Tree,
    op: CompareOp,
    x: Num,
    right: &Numbers<'_>,
) -> Result<Option<Num>, ValueFault>
    requires right { AreIn tree.now right.now }
    requires some { 0 < length (kept_numbers tree.now right.now) }
    ensures { AnswersRow op x (kept_numbers tree.now right.now) (CanStand op right.now) result }
{
    match right {
        Numbers::One(y) => {
            let y = (*y)?;
            Ok(if op.holds(compare(x, y)) {
                None
            } else {
                Some(y)
            })
        }
        Numbers::Nodes(nodes) => compare_with_nodes(alloc, tree, op, x, nodes),
    }
}

// Compares one number with those of nodes: none where it holds for one of them, and else the
// furthest of them.
fn compare_with_nodes(
    alloc: Global,
    tree: &Tree,
    op: CompareOp,
    x: Num,
    nodes: &[Node],
) -> Result<Option<Num>, ValueFault>
    requires inside { All (λ n. n < length tree.now) nodes.now }
    requires some { 0 < length nodes.now }
    ensures { AnswersRow op x (node_numbers tree.now nodes.now) (is_ordering op ≡ true) result }
{
    let mut furthest = Num::NAN;
    for node in nodes {
        let y = node_number(alloc, tree, *node)?;
        if op.holds(compare(x, y)) {
            return Ok(None);
        }
        furthest = further(op, furthest, y);
    }
    Ok(Some(furthest))
}

// Of two numbers the one that represents both on the right of an operator that orders: the greater
// one for `<` and `<=`, the lesser for `>` and `>=`, and the other one where one is NaN.
fn further(op: CompareOp, x: Num, y: Num) -> Num
    ensures { result ≡ further op x y }
{
    if is_nan(x) || op.holds(compare(x, y)) {
        y
    } else {
        x
    }
}

// Whether it is not a number.
fn is_nan(x: Num) -> bool
    ensures { result ≡ is_nan x }
{
    matches!(x.get(), Number::NaN)
}

// Compares the numbers of nodes with one number.
fn compare_rest(
    alloc: Global,
    tree: &Tree,
    op: CompareOp,
    nodes: &[Node],
    y: Num,
) -> Result<bool, ValueFault>
    requires { All (λ n. n < length tree.now) nodes.now }
    ensures { Answers (some (λ x. by_number op x (Ok y)) (node_numbers tree.now nodes.now)) result }
{
    for node in nodes {
        let x = node_number(alloc, tree, *node)?;
        if op.holds(compare(x, y)) {
            return Ok(true);
        }
    }
    Ok(false)
}
