//! The number that a text spells (XPath 1.0, 4.4).

ghost use Rattle.std.specs.Prelude.{◌≡◌, ℕ, ◌≤◌, IsTrue, SomeIff, drop, take};
ghost use Rattle.std.specs.List.{before_first, after_first, list_any};
ghost use Rattle.std.specs.Str.Parse.{digits_value};
ghost use Rattle.xs_num.specs.Range.{greatest};
ghost use Rattle.xs_num.specs.Text.{is_point, are_digits, is_nonzero_digit, is_numeral, signed};
ghost use Rattle.xs_num.specs.Text.{without_leading_space, without_trailing_space, number_from};
ghost use Rattle.xs_num.specs.Text.{number_after_sign, number_within_space, number_in};

use crate::number::{GREATEST, Num, NumFault};
use xs_text::is_space_byte;

/// The number that a text spells: white space, an optional minus sign, digits with an optional
/// point, and white space. Any other text spells NaN. A digit other than 0 after the point is
/// `NumFault::Fraction`, and else a magnitude above `GREATEST` is `NumFault::Range`.
#[tactic(auto, unfolding(crate::specs::Text::number_in))]
pub fn read_num(s: &str) -> Result<Num, NumFault>
    ensures { result ≡ number_in s.now }
{
    read_within_space(trim_end(trim_start(s.as_bytes())))
}

/// The number of a text without white space at its ends.
#[tactic(auto, unfolding(crate::specs::Text::number_within_space))]
fn read_within_space(text: &[u8]) -> Result<Num, NumFault>
    ensures { result ≡ number_within_space text.now }
{
    match text {
        [b'-', numeral @ ..] => read_numeral(true, numeral),
        numeral => read_numeral(false, numeral),
    }
}

/// The text without the white space at its front.
fn trim_start(text: &[u8]) -> &[u8]
    ensures { result.now ≡ without_leading_space text.now }
{
    for (i, byte) in text.iter().enumerate() {
        if !is_space_byte(*byte) {
            return &text[i..];
        }
    }
    &text[text.len()..]
}

/// The text without the white space at its end.
fn trim_end(text: &[u8]) -> &[u8]
    ensures { result.now ≡ without_trailing_space text.now }
{
    let mut end = text.len();
    while end > 0 && is_space_byte(text[end - 1]) {
        end -= 1;
    }
    &text[..end]
}

/// The number of the text after the sign.
#[tactic(auto, unfolding(crate::specs::Text::number_after_sign))]
fn read_numeral(negative: bool, numeral: &[u8]) -> Result<Num, NumFault>
    ensures { result ≡ number_after_sign negative numeral.now }
{
    let (whole, fraction) = split_at_point(numeral);
    read_parts(negative, whole, fraction)
}

/// The number of what is before the point and after it.
#[tactic(auto, unfolding(crate::specs::Text::number_from))]
fn read_parts(negative: bool, whole: &[u8], fraction: &[u8]) -> Result<Num, NumFault>
    ensures { result ≡ number_from negative whole.now fraction.now }
{
    if !is_numeral(whole, fraction) {
        return Ok(Num::NAN);
    }
    if has_nonzero_digit(fraction) {
        return Err(NumFault::Fraction);
    }
    match magnitude(whole) {
        Some(n) => Num::bounded(signed(negative, n)),
        None => Err(NumFault::Range),
    }
}

/// Whether some digit is not 0.
fn has_nonzero_digit(digits: &[u8]) -> bool
    ensures { result ≡ list_any is_nonzero_digit digits.now }
{
    digits.iter().any(|digit| *digit != b'0')
}

/// The whole number of this sign and magnitude.
fn signed(negative: bool, magnitude: u64) -> i64
    requires { magnitude ≤ greatest }
    ensures { result ≡ signed negative magnitude }
{
    if negative {
        -(magnitude as i64)
    } else {
        magnitude as i64
    }
}

/// What is before the first point, and what is after it; all and nothing where there is none.
fn split_at_point(numeral: &[u8]) -> (&[u8], &[u8])
    ensures whole { result.0.now ≡ before_first is_point numeral.now }
    ensures fraction { result.1.now ≡ after_first is_point numeral.now }
{
    for (i, byte) in numeral.iter().enumerate() {
        if *byte == b'.' {
            return (&numeral[..i], &numeral[i + 1..]);
        }
    }
    (numeral, &numeral[numeral.len()..])
}

/// Whether both parts are digits, and not both empty.
fn is_numeral(whole: &[u8], fraction: &[u8]) -> bool
    ensures { result ≡ is_numeral whole.now fraction.now }
{
    are_digits(whole) && are_digits(fraction) && !(whole.is_empty() && fraction.is_empty())
}

/// Whether each byte of a text is a decimal digit.
fn are_digits(text: &[u8]) -> bool
    ensures { result ≡ are_digits text.now }
{
    text.iter().all(|byte| byte.is_ascii_digit())
}

/// The value of the digits where it is at most the greatest magnitude.
fn magnitude(digits: &[u8]) -> Option<u64>
    requires { IsTrue (are_digits digits.now) }
    ensures { SomeIff result (digits_value 10 digits.now ≤ greatest) (digits_value 10 digits.now) }
{
    let mut value = 0;
    for digit in digits {
        value = value * 10 + u64::from(*digit - b'0');
        if value > GREATEST as u64 {
            return None;
        }
    }
    Some(value)
}
