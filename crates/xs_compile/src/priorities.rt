//! Priorities, as numbers (XSLT 1.0, 5.5).

ghost use Rattle.std.specs.Prelude.{◌≡◌, ◌+◌, ◌*◌, ◌^◌, ◌≤◌, true, codes, drop, length};
ghost use Rattle.std.specs.List.{list_all};
ghost use Rattle.std.specs.Str.Parse.{digits_value_after};
ghost use Rattle.xs_compile.specs.Priorities.{priority_in, tenthousandths};
ghost use Rattle.xs_elements.specs.Values.{is_number, unsigned};
ghost use Rattle.xs_xpath.specs.Digits.{is_digit};

use xs_elements::value::split_point;

/// A priority in ten-thousandths (XSLT 1.0, 5.5): a number of at most nine digits before its point
/// and four behind it, perhaps behind a minus sign.
pub(crate) fn priority_in(text: &str) -> i64
    requires { is_number (unsigned text.now) ≡ true }
    ensures { result ≡ priority_in text.now }
{
    match text.strip_prefix('-') {
        Some(digits) => -(tenthousandths(digits) as i64),
        None => tenthousandths(text) as i64,
    }
}

/// A number without a sign, in ten-thousandths: what stands before the point, and four digits
/// behind it.
fn tenthousandths(text: &str) -> u64
    requires { is_number text.now ≡ true }
    ensures value { result ≡ tenthousandths text.now }
    ensures few { result ≤ 10 ^ 17 }
{
    let (whole, part) = split_point(text);
    let before = digits_after(0, whole.as_bytes());
    let all = digits_after(before, part.as_bytes());
    digits_after(all, zeros_behind(part))
}

/// Zeros for the digits that a part lacks to four.
fn zeros_behind(part: &str) -> &'static [u8]
    requires { length part.now ≤ 4 }
    ensures { result.now ≡ drop (length part.now) (codes "0000") }
{
    let zeros = "0000".as_bytes();
    &zeros[part.len()..]
}

/// The number that some digits write behind those of another one.
fn digits_after(before: u64, digits: &[u8]) -> u64
    requires digits { list_all is_digit digits.now ≡ true }
    requires few { (before + 1) * 10 ^ length digits.now ≤ 10 ^ 17 }
    ensures value { result ≡ digits_value_after 10 before digits.now }
    ensures few { result + 1 ≤ (before + 1) * 10 ^ length digits.now }
{
    let mut value = before;
    for digit in digits {
        value = value * 10 + u64::from(*digit - b'0');
    }
    value
}
