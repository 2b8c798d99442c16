//! Quotients that are rounded, as by `floor`, `ceiling` and `round` (XPath 1.0, 4.4). Each is NaN
//! where an operand is NaN and for 0 over 0, and `NumFault::Range` for any other number over 0.

ghost use Rattle.std.specs.Prelude.{◌≡◌, ◌≢◌, ◌*◌, pos};
ghost use Rattle.xs_num.specs.Quotients.{ceiled_quotient, floor_of};
ghost use Rattle.xs_num.specs.Quotients.{floored_quotient, nearest_of, nearest_quotient};
ghost use Rattle.xs_num.specs.Range.{IsInRange, IsWithin, greatest};

use crate::arithmetic::{neg, over_zero};
use crate::number::{Num, NumFault, Number};

/// The greatest whole number that is not above the quotient of two numbers.
pub fn div_floor(a: Num, b: Num) -> Result<Num, NumFault>
    ensures { result ≡ floored_quotient a b }
{
    match (a.get(), b.get()) {
        (Number::Whole(x), Number::Whole(0)) => over_zero(x),
        (Number::Whole(x), Number::Whole(y)) => Num::bounded(floor(x, y)),
        _ => Ok(Num::NAN),
    }
}

/// The least whole number that is not below the quotient of two numbers.
pub fn div_ceiling(a: Num, b: Num) -> Result<Num, NumFault>
    ensures { result ≡ ceiled_quotient a b }
{
    match div_floor(neg(a), b) {
        Ok(quotient) => Ok(neg(quotient)),
        Err(fault) => Err(fault),
    }
}

/// The whole number that is nearest to the quotient of two numbers, and of two the greater.
pub fn div_nearest(a: Num, b: Num) -> Result<Num, NumFault>
    ensures { result ≡ nearest_quotient a b }
{
    match (a.get(), b.get()) {
        (Number::Whole(x), Number::Whole(0)) => over_zero(x),
        (Number::Whole(x), Number::Whole(y)) => Num::bounded(nearest(x, y)),
        _ => Ok(Num::NAN),
    }
}

/// The greatest whole number that is not above a quotient.
#[tactic(auto, unfolding(crate::specs::Quotients::floor_of))]
fn floor(x: i64, y: i64) -> i64
    requires dividend { IsWithin (3 * greatest) x }
    requires divisor { IsWithin (3 * greatest) y }
    requires nonzero { y ≢ pos 0 }
    ensures { result ≡ floor_of x y }
{
    if y < 0 {
        (-x).div_euclid(-y)
    } else {
        x.div_euclid(y)
    }
}

/// The whole number that is nearest to a quotient, and of two the greater.
fn nearest(x: i64, y: i64) -> i64
    requires dividend { IsInRange x }
    requires divisor { IsInRange y }
    requires nonzero { y ≢ pos 0 }
    ensures { result ≡ nearest_of x y }
{
    floor(2 * x + y, 2 * y)
}
