//! Numbers, by the calls of `xs_num`.

use crate::answer::Answer;
use crate::expressions::calls::Call;
use crate::fields::cut;
use std::cmp::Ordering;
use xs_num::arithmetic::{add, compare, div, mul, neg, rem, sub};
use xs_num::number::{Num, NumFault};
use xs_num::reading::read_num;

/// Appends a number, or why there is none.
pub(crate) fn add_outcome(out: &Answer, outcome: Result<Num, NumFault>) {
    match outcome {
        Ok(number) => out.put_number(number),
        Err(NumFault::Fraction) => out.put("fraction"),
        Err(NumFault::Range) => out.put("range"),
    }
}

/// The number that a text spells, 0 where it spells none.
pub(crate) fn number(text: &str) -> Num {
    read_num(text).unwrap_or(Num::from(0))
}

/// Appends the answer of a call with numbers.
pub(crate) fn add_answer(out: &Answer, call: Call, rest: &str) {
    let (left, right) = cut(rest, " ");
    match call {
        Call::Number => add_outcome(out, read_num(rest)),
        Call::Negate => out.put_number(neg(number(rest))),
        _ => operate(out, call, number(left), number(right)),
    }
}

// Appends the answer of a call with two numbers.
fn operate(out: &Answer, call: Call, a: Num, b: Num) {
    let outcome = match call {
        Call::Add => add(a, b),
        Call::Subtract => sub(a, b),
        Call::Multiply => mul(a, b),
        Call::Divide => div(a, b),
        Call::Remainder => rem(a, b),
        _ => return out.put(order(compare(a, b))),
    };
    add_outcome(out, outcome);
}

// How two numbers compare.
fn order(of: Option<Ordering>) -> &'static str {
    match of {
        Some(Ordering::Less) => "less",
        Some(Ordering::Equal) => "equal",
        Some(Ordering::Greater) => "greater",
        None => "unordered",
    }
}
