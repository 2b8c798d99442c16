//! How two operands compare (XPath 1.0, 3.4). A string literal is compared where it is with nodes
//! and with strings, by `=` and `!=`; for other comparisons it becomes a value.

ghost use Rattle.std.specs.Prelude.{◌≡◌, ◌<◌, IfOk, Ok, false, length};
ghost use Rattle.std.specs.List.{All};
ghost use Rattle.xs_tree.specs.Record.{string_value};
ghost use Rattle.xs_value.specs.Comparison.{compared, is_ordering};
ghost use Rattle.xs_value.specs.Conversion.{IsIn};
ghost use Rattle.xs_value.specs.Results.{Answers};
ghost use Rattle.xs_value.specs.declared.value.Value.TheVariants.{Chars, Nodes};
ghost use Rattle.xs_eval.specs.steps.Operands.{compares_to, some_compares};

use crate::operand::{Operand, Seen, text_of};
use std::alloc::{AllocError, Global};
use xs_text::TextBuf;
use xs_tree::{Node, Tree};
use xs_value::comparison::{CompareOp, compare_values};
use xs_value::conversion::node_text;
use xs_value::value::{Value, ValueFault};

/// Whether two operands compare so.
pub(crate) fn compare_operands(
    alloc: Global,
    tree: &Tree,
    operator: CompareOp,
    left: &Operand<'_>,
    right: &Operand<'_>,
) -> Result<bool, ValueFault>
    requires left { IsIn tree.now left.now }
    requires right { IsIn tree.now right.now }
    ensures compared { Answers (compared tree.now operator left.now right.now) result }
{
    match left.seen() {
        Seen::Value(value) => compare_to(alloc, tree, operator, value, right),
        Seen::Text(text) => {
            let value = Value::Chars(text_of(alloc, text)?);
            let holds = compare_to(alloc, tree, operator, &value, right);
            drop(value);
            holds
        }
    }
}

// Whether a value and an operand compare so.
fn compare_to(
    alloc: Global,
    tree: &Tree,
    operator: CompareOp,
    left: &Value,
    right: &Operand<'_>,
) -> Result<bool, ValueFault>
    requires left { IsIn tree.now left.now }
    requires right { IsIn tree.now right.now }
    ensures compared { Answers (compared tree.now operator left.now right.now) result }
{
    match right.seen() {
        Seen::Value(value) => compare_values(alloc, tree, operator, left, value),
        Seen::Text(text) => compare_to_literal(alloc, tree, operator, left, text),
    }
}

// Whether a value and a string literal compare so.
#[tactic(auto, using(crate::proofs::LiteralLemmas::compared_nodes, crate::proofs::LiteralLemmas::compared_strings))]
fn compare_to_literal(
    alloc: Global,
    tree: &Tree,
    operator: CompareOp,
    left: &Value,
    literal: &TextBuf,
) -> Result<bool, ValueFault>
    requires left { IsIn tree.now left.now }
    ensures compared { Answers (compared tree.now operator left.now (Chars literal.now)) result }
{
    let text = literal.as_str();
    if is_ordering(operator) {
        return compare_to_copy(alloc, tree, operator, left, literal);
    }
    match left {
        Value::Nodes(nodes) => Ok(some_compares(alloc, tree, operator, nodes.nodes(), text)?),
        Value::Chars(string) => Ok(compares_to(operator, string.as_str(), text)),
        Value::Bool(_) => compare_to_copy(alloc, tree, operator, left, literal),
        Value::Number(_) => compare_to_copy(alloc, tree, operator, left, literal),
        Value::Piece(_) => compare_to_copy(alloc, tree, operator, left, literal),
    }
}

// The same, where the literal becomes a value.
fn compare_to_copy(
    alloc: Global,
    tree: &Tree,
    operator: CompareOp,
    left: &Value,
    literal: &TextBuf,
) -> Result<bool, ValueFault>
    requires left { IsIn tree.now left.now }
    ensures compared { Answers (compared tree.now operator left.now (Chars literal.now)) result }
{
    let right = Value::Chars(text_of(alloc, literal)?);
    let holds = compare_values(alloc, tree, operator, left, &right);
    drop(right);
    holds
}

// Whether the string-value of some node and a text compare so.
fn some_compares(
    alloc: Global,
    tree: &Tree,
    operator: CompareOp,
    nodes: &[Node],
    text: &str,
) -> Result<bool, AllocError>
    requires inside { All (λ n. n < length tree.now) nodes.now }
    ensures { IfOk result (λ holds. holds ≡ some_compares operator text.now tree.now nodes.now) }
{
    for node in nodes {
        if node_compares(alloc, tree, operator, *node, text)? {
            return Ok(true);
        }
    }
    Ok(false)
}

// Whether the string-value of a node and a text compare so.
fn node_compares(
    alloc: Global,
    tree: &Tree,
    operator: CompareOp,
    node: Node,
    text: &str,
) -> Result<bool, AllocError>
    requires inside { node < length tree.now }
    ensures { IfOk result (λ holds. holds
        ≡ compares_to operator text.now (string_value tree.now node)) }
{
    let string = node_text(alloc, tree, node)?;
    let holds = compares_to(operator, string.as_str(), text);
    drop(string);
    Ok(holds)
}

// Whether two strings compare so by `=` or `!=`.
fn compares_to(operator: CompareOp, string: &str, text: &str) -> bool
    ensures { result ≡ compares_to operator text.now string.now }
{
    match operator {
        CompareOp::Eq => string == text,
        CompareOp::Ne => string != text,
        CompareOp::Lt => false,
        CompareOp::Le => false,
        CompareOp::Gt => false,
        CompareOp::Ge => false,
    }
}

// Whether an operator compares numbers alone.
fn is_ordering(operator: CompareOp) -> bool
    ensures { result ≡ is_ordering operator }
{
    !matches!(operator, CompareOp::Eq | CompareOp::Ne)
}
