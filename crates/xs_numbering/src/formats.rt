//! The tokens and separators of a format (XSLT 1.0, 7.7.1).

ghost use Rattle.std.specs.Prelude.{◌≡◌, MatchOption, take_while, true};
ghost use Rattle.std.specs.Char.{is_ascii_alphanumeric};
ghost use Rattle.std.specs.List.{prefix_len};
ghost use Rattle.xs_numbering.specs.Formats.{after_token, first_token, is_apart, is_padded};
ghost use Rattle.xs_numbering.specs.Formats.{is_separator, letter_style, pieces, prefix, rest_of};
ghost use Rattle.xs_numbering.specs.Formats.{style_of, suffix, without_prefix};
ghost use Rattle.xs_numbering.specs.steps.Pairs.{IsEnd, IsPair};

use crate::numerals::{Case, Style};

/// The style that a token asks for; a token that is not supported is read as `1`.
pub(crate) fn style_of(token: &str) -> Style
    ensures { result ≡ style_of token.now }
{
    style_of_bytes(token.as_bytes())
}

/// The same of the token's bytes.
fn style_of_bytes(token: &[u8]) -> Style
    ensures { result ≡ style_of token.now }
{
    if token.len() == 1 {
        return letter_style(token[0]);
    }
    if is_padded(token) {
        return Style::Decimal(token.len());
    }
    Style::Decimal(1)
}

/// The style of a token of one letter or digit.
fn letter_style(letter: u8) -> Style
    ensures { result ≡ letter_style letter }
{
    if letter == b'a' {
        return Style::Alphabetic(Case::Lower);
    }
    if letter == b'A' {
        return Style::Alphabetic(Case::Upper);
    }
    if letter == b'i' {
        return Style::Roman(Case::Lower);
    }
    if letter == b'I' {
        return Style::Roman(Case::Upper);
    }
    Style::Decimal(1)
}

/// Whether a token is zeros and at last a 1.
fn is_padded(token: &[u8]) -> bool
    ensures { result ≡ is_padded token.now }
{
    let mut rest = token;
    while let Some((digit, after)) = rest.split_first() {
        if after.is_empty() {
            return *digit == b'1';
        }
        if *digit != b'0' {
            return false;
        }
        rest = after;
    }
    false
}

/// How many letters and digits are at the front.
fn token_len(text: &[u8]) -> usize
    ensures { result ≡ prefix_len is_ascii_alphanumeric text.now }
{
    let mut rest = text;
    let mut count = 0;
    while let Some((byte, after)) = rest.split_first() {
        if !byte.is_ascii_alphanumeric() {
            return count;
        }
        rest = after;
        count += 1;
    }
    count
}

/// How many other bytes are at the front.
fn separator_len(text: &[u8]) -> usize
    ensures { result ≡ prefix_len is_separator text.now }
{
    let mut rest = text;
    let mut count = 0;
    while let Some((byte, after)) = rest.split_first() {
        if byte.is_ascii_alphanumeric() {
            return count;
        }
        rest = after;
        count += 1;
    }
    count
}

/// The letters and digits at the front of a text, and what follows them.
fn split_token(text: &str) -> (&str, &str)
    ensures token { result.0.now ≡ take_while is_ascii_alphanumeric text.now }
    ensures rest { result.1.now ≡ rest_of is_ascii_alphanumeric text.now }
{
    text.split_at(token_len(text.as_bytes()))
}

/// What is before the first letter or digit of a text, and what comes from there on.
fn split_separator(text: &str) -> (&str, &str)
    ensures separator { result.0.now ≡ take_while is_separator text.now }
    ensures rest { result.1.now ≡ rest_of is_separator text.now }
{
    text.split_at(separator_len(text.as_bytes()))
}

/// What comes before the first token of a format, and the rest.
#[tactic(auto, using(crate::proofs::PieceLemmas::prefix_is, crate::proofs::PieceLemmas::without_prefix_is))]
pub(crate) fn split_prefix(format: &str) -> (&str, &str)
    ensures prefix { prefix (pieces format.now) ≡ result.0.now }
    ensures rest { without_prefix (pieces format.now) ≡ pieces result.1.now }
{
    split_separator(format)
}

/// The first token of a format without a prefix, which is `1` where there is none, and the rest.
pub(crate) fn split_first_token(format: &str) -> (&str, &str)
    ensures token { first_token (pieces format.now) ≡ result.0.now }
    ensures rest { after_token (pieces format.now) ≡ pieces result.1.now }
    ensures apart { is_apart result.1.now ≡ true }
{
    let (token, rest) = split_token(format);
    if token.is_empty() {
        return ("1", "");
    }
    (token, rest)
}

/// From after a token, the next separator and token and what follows them, if there is one more.
pub(crate) fn split_pair(rest: &str) -> Option<(&str, &str, &str)>
    requires { is_apart rest.now ≡ true }
    ensures { MatchOption result (IsEnd rest.now)
        (λ p. IsPair rest.now p.0.now p.1.now p.2.now) }
{
    let (separator, after) = split_separator(rest);
    if after.is_empty() {
        return None;
    }
    let (token, behind) = split_token(after);
    Some((separator, token, behind))
}

/// From after a token, what comes after the last one.
pub(crate) fn suffix(rest: &str) -> &str
    requires { is_apart rest.now ≡ true }
    ensures { result.now ≡ suffix (pieces rest.now) }
{
    let mut left = rest;
    while let Some((_, _, after)) = split_pair(left) {
        left = after;
    }
    left
}
