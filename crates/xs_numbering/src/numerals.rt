//! One number as text: by letters, as a Roman numeral, or in decimal (XSLT 1.0, 7.7.1).

ghost use Rattle.std.specs.Prelude.{◌≡◌, ◌<◌, ◌+◌, ◌∷◌, ◌++◌, [], OnOk, option_map, replicate};
ghost use Rattle.std.specs.Prelude.{string_bytes};
ghost use Rattle.std.specs.Fmt.{decimal};
ghost use Rattle.std.specs.Str.{IsAscii};
ghost use Rattle.xs_numbering.specs.Numerals.{alphabetic, decimal_text, digit_text, ends_group};
ghost use Rattle.xs_numbering.specs.Numerals.{first_letter, grouped, letters, padded};
ghost use Rattle.xs_numbering.specs.Numerals.{roman, roman_digit, styled};

use itoa::Buffer;
use std::alloc::AllocError;

/// Small or capital letters.
#[derive(Clone, Copy, Debug)]
pub enum Case {
    Lower,
    Upper,
}

/// How numbers are written.
#[derive(Clone, Copy, Debug)]
pub enum Style {
    /// `A`, `B`, .., `Z`, `AA`, ..
    Alphabetic(Case),
    /// As Roman numerals.
    Roman(Case),
    /// In decimal, with at least so many digits.
    Decimal(usize),
}

/// Appends a number above 0 in a style.
pub(crate) fn append_styled(
    out: &mut String,
    style: Style,
    number: u64,
    group: Option<(&str, u64)>,
) -> Result<(), AllocError>
    ensures { OnOk result (string_bytes out.new ≡ string_bytes out.old
        ++ styled (option_map (λ g. (g.0.now, g.1)) group.entry) style number) }
{
    match style {
        Style::Alphabetic(case) => append_letters(out, case, number),
        Style::Roman(case) => {
            if number < 4000 {
                return append_roman(out, case, number);
            }
            append_plain(out, number)
        }
        Style::Decimal(width) => append_decimal(out, width, number, group),
    }
}

/// Appends the letters of a number; of 0 there are none.
fn append_letters(out: &mut String, case: Case, number: u64) -> Result<(), AllocError>
    ensures { OnOk result
        (string_bytes out.new ≡ string_bytes out.old ++ alphabetic case number) }
{
    if number == 0 {
        return Ok(());
    }
    let before = number - 1;
    append_letters(out, case, before / 26)?;
    append_letter(out, case, before % 26)
}

/// Appends the letter at a place in the alphabet.
fn append_letter(out: &mut String, case: Case, place: u64) -> Result<(), AllocError>
    requires { place < 26 }
    ensures { OnOk result
        (string_bytes out.new ≡ string_bytes out.old ++ (first_letter case + place) ∷ []) }
{
    out.push(letter(case, place))?;
    Ok(())
}

/// The letter at a place in the alphabet.
fn letter(case: Case, place: u64) -> char
    requires { place < 26 }
    ensures letter { result ≡ first_letter case + place }
    ensures ascii { result < 128 }
{
    match case {
        Case::Lower => char::from(b'a' + place as u8),
        Case::Upper => char::from(b'A' + place as u8),
    }
}

/// Appends a Roman numeral.
fn append_roman(out: &mut String, case: Case, number: u64) -> Result<(), AllocError>
    ensures { OnOk result
        (string_bytes out.new ≡ string_bytes out.old ++ roman (letters case) number) }
{
    match case {
        Case::Lower => append_lower_roman(out, number),
        Case::Upper => append_upper_roman(out, number),
    }
}

/// Appends a Roman numeral in small letters.
#[tactic(auto, unfolding(crate::specs::Numerals::roman))]
fn append_lower_roman(out: &mut String, number: u64) -> Result<(), AllocError>
    ensures { OnOk result
        (string_bytes out.new ≡ string_bytes out.old ++ roman (letters Case.Lower) number) }
{
    append_times(out, number / 1000, 'm')?;
    append_digit(out, number / 100 % 10, 'c', 'd', 'm')?;
    append_digit(out, number / 10 % 10, 'x', 'l', 'c')?;
    append_digit(out, number % 10, 'i', 'v', 'x')
}

/// Appends a Roman numeral in capital letters.
#[tactic(auto, unfolding(crate::specs::Numerals::roman))]
fn append_upper_roman(out: &mut String, number: u64) -> Result<(), AllocError>
    ensures { OnOk result
        (string_bytes out.new ≡ string_bytes out.old ++ roman (letters Case.Upper) number) }
{
    append_times(out, number / 1000, 'M')?;
    append_digit(out, number / 100 % 10, 'C', 'D', 'M')?;
    append_digit(out, number / 10 % 10, 'X', 'L', 'C')?;
    append_digit(out, number % 10, 'I', 'V', 'X')
}

/// Appends a digit in Roman letters, by those for one, five and ten of its place.
fn append_digit(
    out: &mut String,
    digit: u64,
    one: char,
    five: char,
    ten: char,
) -> Result<(), AllocError>
    requires one { one < 128 }
    requires five { five < 128 }
    requires ten { ten < 128 }
    ensures { OnOk result
        (string_bytes out.new ≡ string_bytes out.old ++ roman_digit one five ten digit) }
{
    if digit == 9 {
        return append_both(out, one, ten);
    }
    if digit == 4 {
        return append_both(out, one, five);
    }
    if digit < 5 {
        return append_times(out, digit, one);
    }
    out.push(five)?;
    append_times(out, digit - 5, one)
}

/// Appends two letters.
fn append_both(out: &mut String, first: char, second: char) -> Result<(), AllocError>
    requires first { first < 128 }
    requires second { second < 128 }
    ensures { OnOk result
        (string_bytes out.new ≡ string_bytes out.old ++ first ∷ second ∷ []) }
{
    out.push(first)?;
    out.push(second)?;
    Ok(())
}

/// Appends a letter or digit so many times.
fn append_times(out: &mut String, count: u64, flag: char) -> Result<(), AllocError>
    requires { flag < 128 }
    ensures { OnOk result
        (string_bytes out.new ≡ string_bytes out.old ++ replicate count flag) }
{
    let mut done = 0;
    while done < count {
        out.push(flag)?;
        done += 1;
    }
    Ok(())
}

/// Appends a number in decimal, without groups.
fn append_plain(out: &mut String, number: u64) -> Result<(), AllocError>
    ensures { OnOk result (string_bytes out.new ≡ string_bytes out.old ++ decimal number) }
{
    let mut buffer = Buffer::new();
    out.push_str(buffer.format(number))?;
    Ok(())
}

/// Appends a number in decimal, with at least so many digits.
fn append_decimal(
    out: &mut String,
    width: usize,
    number: u64,
    group: Option<(&str, u64)>,
) -> Result<(), AllocError>
    ensures { OnOk result (string_bytes out.new ≡ string_bytes out.old
        ++ decimal_text (option_map (λ g. (g.0.now, g.1)) group.entry) width number) }
{
    match group {
        None => append_padded(out, width, number),
        Some((separator, size)) => { append_groups(out, width, number, separator, size) }
    }
}

/// Appends a number in decimal, with its digits in groups.
fn append_groups(
    out: &mut String,
    width: usize,
    number: u64,
    separator: &str,
    size: u64,
) -> Result<(), AllocError>
    ensures { OnOk result (string_bytes out.new ≡ string_bytes out.old
        ++ grouped separator.now size (padded width number)) }
{
    let mut digits = String::new(*out.allocator());
    append_padded(&mut digits, width, number)?;
    append_grouped(out, digits.as_bytes(), separator, size)
}

/// Appends at least so many digits of a number.
fn append_padded(out: &mut String, width: usize, number: u64) -> Result<(), AllocError>
    ensures { OnOk result (string_bytes out.new ≡ string_bytes out.old ++ padded width number) }
{
    let mut buffer = Buffer::new();
    let digits = buffer.format(number);
    let zeros = width.saturating_sub(digits.len());
    append_times(out, zeros as u64, '0')?;
    out.push_str(digits)?;
    Ok(())
}

/// Appends digits in groups.
fn append_grouped(
    out: &mut String,
    digits: &[u8],
    separator: &str,
    size: u64,
) -> Result<(), AllocError>
    requires { IsAscii digits.now }
    ensures { OnOk result (string_bytes out.new ≡ string_bytes out.old
        ++ grouped separator.now size digits.now) }
{
    let mut rest = digits;
    while let Some((digit, after)) = rest.split_first() {
        append_one(out, *digit, separator, ends_group(size, after.len()))?;
        rest = after;
    }
    Ok(())
}

/// Appends a digit, and a separator where its group ends.
fn append_one(out: &mut String, digit: u8, separator: &str, ends: bool) -> Result<(), AllocError>
    requires { digit < 128 }
    ensures { OnOk result (string_bytes out.new ≡ string_bytes out.old
        ++ digit_text separator.now ends digit) }
{
    out.push(char::from(digit))?;
    if ends {
        out.push_str(separator)?;
    }
    Ok(())
}

/// Whether a group of digits ends before so many.
fn ends_group(size: u64, left: usize) -> bool
    ensures { result ≡ ends_group size left }
{
    if size == 0 {
        return false;
    }
    if left == 0 {
        return false;
    }
    left % (size as usize) == 0
}
