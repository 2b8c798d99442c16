//! The operators of XPath 1.0, 3.5, and the comparison of numbers.

ghost use Rattle.std.specs.Prelude.{◌≡◌};
ghost use Rattle.xs_num.specs.Range.{IsInRange};
ghost use Rattle.xs_num.specs.Number.{sum_of, difference_of, product_of, quotient_of, remainder_of};
ghost use Rattle.xs_num.specs.Number.{negated, comparison_of, over_zero};

use crate::number::{Num, NumFault, Number};
use std::cmp::Ordering;

/// The sum of two numbers, `a + b`.
pub fn add(a: Num, b: Num) -> Result<Num, NumFault>
    ensures { result ≡ sum_of a b }
{
    match (a.get(), b.get()) {
        (Number::Whole(x), Number::Whole(y)) => Num::bounded(x + y),
        _ => Ok(Num::NAN),
    }
}

/// The difference of two numbers, `a - b`.
pub fn sub(a: Num, b: Num) -> Result<Num, NumFault>
    ensures { result ≡ difference_of a b }
{
    match (a.get(), b.get()) {
        (Number::Whole(x), Number::Whole(y)) => Num::bounded(x - y),
        _ => Ok(Num::NAN),
    }
}

/// The product of two numbers, `a * b`.
pub fn mul(a: Num, b: Num) -> Result<Num, NumFault>
    ensures { result ≡ product_of a b }
{
    match (a.get(), b.get()) {
        (Number::Whole(x), Number::Whole(y)) => match x.checked_mul(y) {
            Some(product) => Num::bounded(product),
            None => Err(NumFault::Range),
        },
        _ => Ok(Num::NAN),
    }
}

/// The exact quotient of two numbers, `a div b`: `NumFault::Fraction` where it is not whole,
/// NaN for 0 over 0, and `NumFault::Range` for any other number over 0.
pub fn div(a: Num, b: Num) -> Result<Num, NumFault>
    ensures { result ≡ quotient_of a b }
{
    match (a.get(), b.get()) {
        (Number::Whole(x), Number::Whole(y)) => quotient(x, y),
        _ => Ok(Num::NAN),
    }
}

/// The exact quotient of two whole numbers.
fn quotient(x: i64, y: i64) -> Result<Num, NumFault>
    requires { IsInRange x }
    ensures { result ≡ quotient_of (Number.Whole x) (Number.Whole y) }
{
    if y == 0 {
        return over_zero(x);
    }
    if x % y == 0 {
        Ok(Num::whole(x / y))
    } else {
        Err(NumFault::Fraction)
    }
}

/// A quotient over 0: NaN of 0, and `NumFault::Range` of any other number.
pub(crate) fn over_zero(x: i64) -> Result<Num, NumFault>
    ensures { result ≡ over_zero x }
{
    if x == 0 {
        Ok(Num::NAN)
    } else {
        Err(NumFault::Range)
    }
}

/// The remainder of the truncating division, `a mod b`, which has the sign of `a`; NaN over 0.
pub fn rem(a: Num, b: Num) -> Result<Num, NumFault>
    ensures { result ≡ remainder_of a b }
{
    match (a.get(), b.get()) {
        (Number::Whole(_), Number::Whole(0)) => Ok(Num::NAN),
        (Number::Whole(x), Number::Whole(y)) => Ok(Num::whole(x % y)),
        _ => Ok(Num::NAN),
    }
}

/// The number of the other sign, `-a`.
pub fn neg(a: Num) -> Num
    ensures { result ≡ negated a }
{
    match a.get() {
        Number::Whole(x) => Num::whole(-x),
        Number::NaN => Num::NAN,
    }
}

/// How two numbers compare; `None` exactly where one is NaN.
pub fn compare(a: Num, b: Num) -> Option<Ordering>
    ensures { result ≡ comparison_of a b }
{
    match (a.get(), b.get()) {
        (Number::Whole(x), Number::Whole(y)) => Some(x.cmp(&y)),
        _ => None,
    }
}
