//! How two values compare (XPath 1.0, 3.4).

ghost use Rattle.std.specs.Prelude.{◌≡◌, []};
ghost use Rattle.xs_value.specs.Conversion.{IsIn, number_value};
ghost use Rattle.xs_value.specs.Comparison.{compared, compared_single, holds, is_boolean};
ghost use Rattle.xs_value.specs.Comparison.{is_ordering, is_numeral};
ghost use Rattle.xs_value.specs.Results.{Answers};
ghost use Rattle.xs_value.specs.steps.Operands.{beside, compared_as};

mod numbers;
mod texts;

use crate::conversion::to_bool;
use crate::value::{Value, ValueFault};
use numbers::compare_numbers;
use std::alloc::Global;
use std::cmp::Ordering;
use texts::compare_texts;
use xs_num::arithmetic::compare;
use xs_num::number::{Num, NumFault};
use xs_num::reading::read_num;
use xs_tree::Tree;

/// The operators that compare (XPath 1.0, 3.4).
#[derive(Clone, Copy, PartialEq, Eq, Debug)]
pub enum CompareOp {
    /// `=`.
    Eq,
    /// `!=`.
    Ne,
    /// `<`.
    Lt,
    /// `<=`.
    Le,
    /// `>`.
    Gt,
    /// `>=`.
    Ge,
}

impl CompareOp {
    // Whether it is neither `=` nor `!=`.
    fn is_ordering(self) -> bool
        ensures { result ≡ is_ordering self }
    {
        !matches!(self, CompareOp::Eq | CompareOp::Ne)
    }

    // Whether two numbers in this order compare so; those of which one is NaN have none.
    fn holds(self, order: Option<Ordering>) -> bool
        ensures { result ≡ holds self order }
    {
        match self {
            CompareOp::Eq => matches!(order, Some(Ordering::Equal)),
            CompareOp::Ne => !matches!(order, Some(Ordering::Equal)),
            CompareOp::Lt => matches!(order, Some(Ordering::Less)),
            CompareOp::Le => matches!(order, Some(Ordering::Less | Ordering::Equal)),
            CompareOp::Gt => matches!(order, Some(Ordering::Greater)),
            CompareOp::Ge => matches!(order, Some(Ordering::Greater | Ordering::Equal)),
        }
    }
}

// In which way two values are compared.
#[derive(Clone, Copy)]
enum ComparedAs {
    // One is a boolean.
    BesideBoolean,
    // As numbers.
    Numbers,
    // As strings.
    Strings,
}

/// Whether two values compare so: some pair of what represents them does. Pairs are tried in
/// document order, the left operand first, until one decides; a fault on the way is the answer.
///
/// The time is linear in the sizes of both, with the texts of their nodes.
pub fn compare_values(
    alloc: Global,
    tree: &Tree,
    op: CompareOp,
    left: &Value,
    right: &Value,
) -> Result<bool, ValueFault>
    requires left { IsIn tree.now left.now }
    requires right { IsIn tree.now right.now }
    ensures compared { Answers (compared tree.now op left.now right.now) result }
{
    match compared_as(op, left, right) {
        ComparedAs::BesideBoolean => Ok(compare_beside_boolean(op, left, right)?),
        ComparedAs::Numbers => compare_numbers(alloc, tree, op, left, right),
        ComparedAs::Strings => Ok(compare_texts(alloc, tree, op, left, right)?),
    }
}

// In which way two values are compared.
fn compared_as(op: CompareOp, left: &Value, right: &Value) -> ComparedAs
    ensures { result ≡ compared_as op left.now right.now }
{
    if is_boolean(left) || is_boolean(right) {
        return ComparedAs::BesideBoolean;
    }
    if op.is_ordering() || is_number(left) || is_number(right) {
        ComparedAs::Numbers
    } else {
        ComparedAs::Strings
    }
}

// Whether a value is a boolean.
fn is_boolean(v: &Value) -> bool
    ensures { result ≡ is_boolean v.now }
{
    matches!(v, Value::Bool(_))
}

// Whether a value is a number.
fn is_number(v: &Value) -> bool
    ensures { result ≡ is_numeral v.now }
{
    matches!(v, Value::Number(_))
}

// Compares two values of which one is a boolean: as booleans for `=` and `!=`, and else as numbers.
fn compare_beside_boolean(op: CompareOp, left: &Value, right: &Value) -> Result<bool, NumFault>
    requires { compared_as op left.now right.now ≡ ComparedAs.BesideBoolean }
    ensures { result ≡ compared_single [] op (beside left.now) (beside right.now) }
{
    match op {
        CompareOp::Eq => Ok(to_bool(left) == to_bool(right)),
        CompareOp::Ne => Ok(to_bool(left) != to_bool(right)),
        _ => {
            let left = number_beside(left)?;
            let right = number_beside(right)?;
            Ok(op.holds(compare(left, right)))
        }
    }
}

// The number of a value beside a boolean: what is a node-set becomes a boolean first.
fn number_beside(v: &Value) -> Result<Num, NumFault>
    ensures { result ≡ number_value [] (beside v.now) }
{
    match v {
        Value::Number(number) => Ok(*number),
        Value::Chars(text) => read_num(text.as_str()),
        _ => Ok(Num::from(u32::from(to_bool(v)))),
    }
}
