//! The operators (XPath 1.0, 3.3 to 3.5), on values.

ghost use Rattle.std.specs.Prelude.{◌≡◌, IfOk, List};
ghost use Rattle.xs_tree.specs.Record.{Record};
ghost use Rattle.xs_value.specs.Conversion.{IsIn};
ghost use Rattle.xs_eval_spec.specs.Operators.{as_value, comparison, decided, negated_by, negation};
ghost use Rattle.xs_eval_spec.specs.Operators.{numbers, operated, union};
ghost use Rattle.xs_eval_spec.specs.Results.{Answers};

use crate::comparisons::compare_operands;
use crate::operand::Operand;
use std::alloc::Global;
use xs_eval_spec::trouble::Trouble;
use xs_num::arithmetic::{add, div, mul, neg, rem, sub};
use xs_num::number::{Num, NumFault};
use xs_num::quotients::{div_ceiling, div_floor, div_nearest};
use xs_trace::fault::Fault;
use xs_tree::Tree;
use xs_value::comparison::CompareOp;
use xs_value::value::{Value, ValueFault};
use xs_xpath::token::Operator;

/// What the left operand of `or` and `and` decides alone (XPath 1.0, 3.4).
#[inline(always)]
pub(crate) fn decided(operator: Operator, left: &Operand<'_>) -> Option<bool>
    ensures { result ≡ decided operator left.now }
{
    match operator {
        Operator::Or => { if left.truth() { Some(true) } else { None } }
        Operator::And => { if left.truth() { None } else { Some(false) } }
        Operator::Equal => None,
        Operator::Unequal => None,
        Operator::Less => None,
        Operator::LessEqual => None,
        Operator::Greater => None,
        Operator::GreaterEqual => None,
        Operator::Plus => None,
        Operator::Minus => None,
        Operator::Times => None,
        Operator::Div => None,
        Operator::FloorDiv => None,
        Operator::CeilingDiv => None,
        Operator::NearestDiv => None,
        Operator::Mod => None,
        Operator::Union => None,
    }
}

/// An operator on the values of its operands. What the left one decides alone is decided before.
#[inline(always)]
pub(crate) fn operate(
    alloc: Global,
    operator: Operator,
    tree: &Tree,
    left: &Operand<'_>,
    right: &Operand<'_>,
) -> Result<Value, Trouble>
    requires left { IsIn tree.now left.now }
    requires right { IsIn tree.now right.now }
    ensures value { Answers (operated operator tree.now left.now right.now) result }
    ensures inside { IfOk result (IsIn tree.now) }
{
    match operator {
        Operator::Or => Ok(Value::Bool(right.truth())),
        Operator::And => Ok(Value::Bool(right.truth())),
        Operator::Equal => compare(alloc, CompareOp::Eq, tree, left, right),
        Operator::Unequal => compare(alloc, CompareOp::Ne, tree, left, right),
        Operator::Less => compare(alloc, CompareOp::Lt, tree, left, right),
        Operator::LessEqual => compare(alloc, CompareOp::Le, tree, left, right),
        Operator::Greater => compare(alloc, CompareOp::Gt, tree, left, right),
        Operator::GreaterEqual => compare(alloc, CompareOp::Ge, tree, left, right),
        Operator::Plus => {
            let (a, b) = numbers(alloc, tree, left, right)?;
            as_value(add(a, b))
        }
        Operator::Minus => {
            let (a, b) = numbers(alloc, tree, left, right)?;
            as_value(sub(a, b))
        }
        Operator::Times => {
            let (a, b) = numbers(alloc, tree, left, right)?;
            as_value(mul(a, b))
        }
        Operator::Div => {
            let (a, b) = numbers(alloc, tree, left, right)?;
            as_value(div(a, b))
        }
        Operator::FloorDiv => {
            let (a, b) = numbers(alloc, tree, left, right)?;
            as_value(div_floor(a, b))
        }
        Operator::CeilingDiv => {
            let (a, b) = numbers(alloc, tree, left, right)?;
            as_value(div_ceiling(a, b))
        }
        Operator::NearestDiv => {
            let (a, b) = numbers(alloc, tree, left, right)?;
            as_value(div_nearest(a, b))
        }
        Operator::Mod => {
            let (a, b) = numbers(alloc, tree, left, right)?;
            as_value(rem(a, b))
        }
        Operator::Union => unite(alloc, tree, left, right),
    }
}

// Both operands as numbers, the left one first.
fn numbers(
    alloc: Global,
    tree: &Tree,
    left: &Operand<'_>,
    right: &Operand<'_>,
) -> Result<(Num, Num), Trouble>
    requires left { IsIn tree.now left.now }
    requires right { IsIn tree.now right.now }
    ensures numbers { Answers (numbers tree.now left.now right.now) result }
{
    let a = left.number(alloc, tree)?;
    let b = right.number(alloc, tree)?;
    Ok((a, b))
}

// The value of an operation on numbers.
fn as_value(operation: Result<Num, NumFault>) -> Result<Value, Trouble>
    ensures value { Answers (as_value operation) result }
    ensures inside { (tree : List Record) → IfOk result (IsIn tree) }
{
    match operation {
        Ok(number) => Ok(Value::Number(number)),
        Err(NumFault::Fraction) => Err(Trouble::Fault(Fault::Fraction)),
        Err(NumFault::Range) => Err(Trouble::Fault(Fault::Range)),
    }
}

// A comparison (XPath 1.0, 3.4).
fn compare(
    alloc: Global,
    operator: CompareOp,
    tree: &Tree,
    left: &Operand<'_>,
    right: &Operand<'_>,
) -> Result<Value, Trouble>
    requires left { IsIn tree.now left.now }
    requires right { IsIn tree.now right.now }
    ensures value { Answers (comparison operator tree.now left.now right.now) result }
    ensures inside { IfOk result (IsIn tree.now) }
{
    match compare_operands(alloc, tree, operator, left, right) {
        Ok(holds) => Ok(Value::Bool(holds)),
        Err(ValueFault::Fraction) => Err(Trouble::Fault(Fault::Fraction)),
        Err(ValueFault::Range) => Err(Trouble::Fault(Fault::Range)),
        Err(ValueFault::NoMemory) => Err(Trouble::NoMemory),
    }
}

// The union of two node-sets (XPath 1.0, 3.3).
fn unite(
    alloc: Global,
    tree: &Tree,
    left: &Operand<'_>,
    right: &Operand<'_>,
) -> Result<Value, Trouble>
    requires left { IsIn tree.now left.now }
    requires right { IsIn tree.now right.now }
    ensures value { Answers (union left.now right.now) result }
    ensures inside { IfOk result (IsIn tree.now) }
{
    let _tree = tree;
    let a = left.set()?;
    let b = right.set()?;
    Ok(Value::Nodes(a.union(alloc, b)?))
}

/// So many minus signs before a value (XPath 1.0, 3.5).
pub(crate) fn negate(
    alloc: Global,
    signs: usize,
    tree: &Tree,
    v: &Operand<'_>,
) -> Result<Value, Trouble>
    requires { IsIn tree.now v.now }
    ensures value { Answers (negation signs tree.now v.now) result }
    ensures inside { IfOk result (IsIn tree.now) }
{
    let number = v.number(alloc, tree)?;
    Ok(Value::Number(negated_by(signs, number)))
}

// So many minus signs before a number.
fn negated_by(signs: usize, number: Num) -> Num
    ensures { result ≡ negated_by signs number }
{
    if signs % 2 == 0 { number } else { neg(number) }
}
