//! A number of XPath, and the faults of arithmetic.

ghost use Rattle.std.specs.Prelude.{◌≡◌};

use std::marker::Model;
use thiserror::Error;

/// The greatest magnitude of a number, 2^53 - 1.
pub const GREATEST: i64 = 9_007_199_254_740_991;

/// What a number is (XPath 1.0, 3.5).
#[derive(Clone, Copy, Debug)]
pub enum Number {
    /// A whole number.
    Whole(i64),
    /// Not a number.
    NaN,
}

/// A number of XPath 1.0: a `Number` whose magnitude, where it is whole, is at most `GREATEST`.
/// A contract sees it as that `Number`.
#[derive(Clone, Copy, Debug)]
pub struct Num {
    number: Number,
}

impl Model for Num {
    ghost use Rattle.xs_num.specs.declared.number.Number.{Number};
    ghost use Rattle.xs_num.specs.Range.{IsNumber};

    ghost Value = { Number };

    ghost view = { λ n. n.number };

    ghost invariant = { λ n. IsNumber n.number };

    ghost inverse = { λ n. record { number = n } };
}

impl Num {
    ghost use Rattle.xs_num.specs.Range.{IsInRange, IsNumber};
    ghost use Rattle.xs_num.specs.Number.{bounded};

    /// Not a number.
    pub const NAN: Num = Num {
        number: Number::NaN,
    };

    /// The whole number of that value.
    pub fn whole(value: i64) -> Self
        requires { IsInRange value }
        ensures { result ≡ Number.Whole value }
    {
        Num {
            number: Number::Whole(value),
        }
    }

    /// The whole number of that value, or `NumFault::Range` where its magnitude is above
    /// `GREATEST`.
    pub fn bounded(value: i64) -> Result<Self, NumFault>
        ensures { result ≡ bounded value }
    {
        if -GREATEST <= value && value <= GREATEST {
            Ok(Num::whole(value))
        } else {
            Err(NumFault::Range)
        }
    }

    /// What the number is.
    pub fn get(self) -> Number
        ensures value { result ≡ self }
        ensures in_range { IsNumber result }
    {
        self.number
    }
}

impl From<u32> for Num {
    ghost use Rattle.std.specs.Prelude.{◌≡◌, pos};
    ghost use Rattle.xs_num.specs.declared.number.Number.TheVariants.{Whole};

    ghost from_gives = { λ n result. result ≡ Whole (pos n) };

    fn from(value: u32) -> Self {
        Num::whole(i64::from(value))
    }
}

/// Why an operation has no number for its result.
#[derive(Clone, Copy, PartialEq, Eq, Debug, Error)]
pub enum NumFault {
    /// The result is no whole number.
    #[error("the result is a fraction")]
    Fraction,
    /// The result is a whole number of a magnitude above `GREATEST`, or infinite.
    #[error("the result is out of range")]
    Range,
}
