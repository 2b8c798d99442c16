//! The text of a list of numbers under a format (XSLT 1.0, 7.7.1).

ghost use Rattle.std.specs.Prelude.{◌≡◌, ◌++◌, codes, true, IfOk, OnErr, OnOk, option_map};
ghost use Rattle.std.specs.Prelude.{string_bytes};
ghost use Rattle.std.specs.Str.{IsUtf8};
ghost use Rattle.xs_numbering.specs.Formats.{following, is_apart, pieces, suffix};
ghost use Rattle.xs_numbering.specs.Numbers.{group_of, list_text, number_text, numbers_text};
ghost use Rattle.xs_numbering.specs.Numbers.{others_text, text_alone, value_text};
ghost use Rattle.xs_numbering.specs.steps.Pairs.{IsNext};

use crate::formats::{split_first_token, split_pair, split_prefix, style_of, suffix};
use crate::numerals::append_styled;
use itoa::Buffer;
use std::alloc::{AllocError, Global};
use xs_num::number::{Num, Number};
use xs_strings::positions::char_count;

/// Appends the text of a list of numbers under a format (XSLT 1.0, 7.7.1). Numbers in decimal have
/// their digits in groups of a size, where that is given with a separator of one character. After
/// a refusal `out` is as it was. It serves callers of the library; a run takes `list_text`.
pub fn format_list(
    out: &mut Vec<u8>,
    list: &[u64],
    format: &str,
    group: Option<(&str, u64)>,
) -> Result<(), AllocError>
    ensures ok { OnOk result (out.new.items ≡ out.old.items
        ++ list_text (option_map (λ g. (g.0.now, g.1)) group.entry) format.now list.now) }
    ensures err { OnErr result (out.new.items ≡ out.old.items) }
    ensures utf8 { IsUtf8 out.old.items → IsUtf8 out.new.items }
{
    let text = list_text(*out.allocator(), list, format, group)?;
    out.extend_from_slice(text.as_str().as_bytes())
}

/// The text of a list of numbers under a format.
#[tactic(auto, unfolding(crate::specs::Numbers::list_text))]
pub fn list_text(
    alloc: Global,
    list: &[u64],
    format: &str,
    group: Option<(&str, u64)>,
) -> Result<String, AllocError>
    ensures { IfOk result (λ text. string_bytes text
        ≡ list_text (option_map (λ g. (g.0.now, g.1)) group.entry) format.now list.now) }
{
    let mut out = String::new(alloc);
    if let Some((first, others)) = list.split_first() {
        let (prefix, format) = split_prefix(format);
        out.push_str(prefix)?;
        append_numbers(&mut out, *first, others, format, group_of(group))?;
    }
    Ok(out)
}

/// The text of the number that `value` gives, under a format.
pub fn value_text(
    alloc: Global,
    value: Num,
    format: &str,
    group: Option<(&str, u64)>,
) -> Result<String, AllocError>
    ensures { IfOk result (λ text. string_bytes text
        ≡ value_text (option_map (λ g. (g.0.now, g.1)) group.entry) format.now value) }
{
    match value.get() {
        Number::Whole(whole) => {
            if whole >= 0 {
                return list_text(alloc, &[whole as u64], format, group);
            }
            let mut buffer = Buffer::new();
            text_alone(alloc, buffer.format(whole), format)
        }
        Number::NaN => text_alone(alloc, "NaN", format),
    }
}

/// A text under a format, in the place of a number.
fn text_alone(alloc: Global, text: &str, format: &str) -> Result<String, AllocError>
    ensures { IfOk result (λ made. string_bytes made ≡ text_alone format.now text.now) }
{
    let (prefix, format) = split_prefix(format);
    let (_token, rest) = split_first_token(format);
    let mut out = String::new(alloc);
    out.push_str(prefix)?;
    out.push_str(text)?;
    out.push_str(suffix(rest))?;
    Ok(out)
}

/// The separator and the size of groups, where groups are made.
fn group_of(group: Option<(&str, u64)>) -> Option<(&str, u64)>
    ensures { option_map (λ g. (g.0.now, g.1)) result
        ≡ group_of (option_map (λ g. (g.0.now, g.1)) group.entry) }
{
    match group {
        None => None,
        Some((separator, size)) => {
            if char_count(separator) == 1 {
                Some((separator, size))
            } else {
                None
            }
        }
    }
}

/// Appends numbers under a format without a prefix, and its suffix.
fn append_numbers(
    out: &mut String,
    first: u64,
    others: &[u64],
    format: &str,
    group: Option<(&str, u64)>,
) -> Result<(), AllocError>
    ensures { OnOk result (string_bytes out.new ≡ string_bytes out.old
        ++ numbers_text (option_map (λ g. (g.0.now, g.1)) group.entry)
        (pieces format.now) first others.now) }
{
    let (token, rest) = split_first_token(format);
    append_number(out, token, first, group)?;
    append_others(out, others, token, rest, group)?;
    out.push_str(suffix(rest))?;
    Ok(())
}

/// Appends a number as a token asks for; 0 is `0` whatever the token.
#[tactic(auto, unfolding(crate::specs::Numbers::number_text))]
fn append_number(
    out: &mut String,
    token: &str,
    number: u64,
    group: Option<(&str, u64)>,
) -> Result<(), AllocError>
    ensures { OnOk result (string_bytes out.new ≡ string_bytes out.old
        ++ number_text (option_map (λ g. (g.0.now, g.1)) group.entry) token.now number) }
{
    if number == 0 {
        out.push_str("0")?;
        return Ok(());
    }
    append_styled(out, style_of(token), number, group)
}

/// Appends the numbers after the first one, each with the separator before it.
fn append_others(
    out: &mut String,
    others: &[u64],
    first: &str,
    rest: &str,
    group: Option<(&str, u64)>,
) -> Result<(), AllocError>
    requires { is_apart rest.now ≡ true }
    ensures { OnOk result (string_bytes out.new ≡ string_bytes out.old
        ++ others_text (option_map (λ g. (g.0.now, g.1)) group.entry)
        (following (pieces rest.now)) (codes ".", first.now) others.now) }
{
    let mut separator = ".";
    let mut token = first;
    let mut ahead = rest;
    let mut left = others;
    while let Some((number, after)) = left.split_first() {
        let next = next_pair(separator, token, ahead);
        separator = next.0;
        token = next.1;
        ahead = next.2;
        out.push_str(separator)?;
        append_number(out, token, *number, group)?;
        left = after;
    }
    Ok(())
}

/// The next separator and token of a format, and what follows them; those at hand where no pair is
/// left.
fn next_pair<'a>(separator: &'a str, token: &'a str, rest: &'a str) -> (&'a str, &'a str, &'a str)
    requires { is_apart rest.now ≡ true }
    ensures { IsNext separator.now token.now rest.now result.0.now result.1.now result.2.now }
{
    match split_pair(rest) {
        None => (separator, token, rest),
        Some(pair) => pair,
    }
}
