//! Values of attributes that are no expressions.

ghost use Rattle.std.specs.List.{after_first, before_first, list_all, list_any};
ghost use Rattle.std.specs.Prelude.{◌≡◌, option_map};
ghost use Rattle.xs_elements.specs.Values.{are_digits, is_any_of, is_any_of_unbound, is_bad};
ghost use Rattle.xs_elements.specs.Values.{is_bad_word, is_name_test, is_number, is_point};
ghost use Rattle.xs_elements.specs.Values.{is_prefix, is_qname, is_unbound, is_unbound_name};
ghost use Rattle.xs_elements.specs.Values.{is_unbound_prefix, is_unbound_test, is_unbound_word};
ghost use Rattle.xs_elements.specs.Values.{is_unsupported, prefix_of_test, unsigned};
ghost use Rattle.xs_elements.specs.WhiteSpace.{words};
ghost use Rattle.xs_xpath.specs.Digits.{is_digit};
ghost use Rattle.xs_xpath.specs.Names.{is_bound};

use crate::forms::Form;
use crate::words::first_word;
use xs_text::{is_ncname, split_qname};
use xs_xpath::scope::Scope;

/// Whether a prefix is bound; the empty one needs no binding.
fn is_bound(scope: &Scope, prefix: &str) -> bool
    ensures { result ≡ is_bound scope.now.pairs.items prefix.now }
{
    prefix.is_empty() || scope.uri_in(prefix).is_some()
}

/// Whether a text is a name (XSLT 1.0, 2.4).
fn is_qname(text: &str) -> bool
    ensures { result ≡ is_qname text.now }
{
    split_qname(text).is_some()
}

/// Whether a text is a name whose prefix is not bound.
fn is_unbound_name(scope: &Scope, text: &str) -> bool
    ensures { result ≡ is_unbound_name scope.now.pairs.items text.now }
{
    match split_qname(text) {
        Some((prefix, _)) => !is_bound(scope, prefix),
        None => false,
    }
}

/// The prefix of `p:*`, if a text ends so.
pub fn prefix_of_test(text: &str) -> Option<&str>
    ensures { option_map (λ prefix. prefix.now) result ≡ prefix_of_test text.now }
{
    text.strip_suffix(":*")
}

/// Whether a text is `p:*` (XPath 1.0, 2.3).
fn is_any_of(text: &str) -> bool
    ensures { result ≡ is_any_of text.now }
{
    match prefix_of_test(text) {
        Some(prefix) => is_ncname(prefix),
        None => false,
    }
}

/// Whether a text is a name test: `*`, `p:*` or a name (XPath 1.0, 2.3).
fn is_name_test(text: &str) -> bool
    ensures { result ≡ is_name_test text.now }
{
    text == "*" || is_any_of(text) || is_qname(text)
}

/// Whether a text is `p:*` whose prefix is not bound.
fn is_any_of_unbound(scope: &Scope, text: &str) -> bool
    ensures { result ≡ is_any_of_unbound scope.now.pairs.items text.now }
{
    match prefix_of_test(text) {
        Some(prefix) => is_unbound_prefix(scope, prefix),
        None => false,
    }
}

/// Whether a text is a name test whose prefix is not bound.
fn is_unbound_test(scope: &Scope, text: &str) -> bool
    ensures { result ≡ is_unbound_test scope.now.pairs.items text.now }
{
    is_any_of_unbound(scope, text) || is_unbound_name(scope, text)
}

/// Whether a text is a prefix, or `#default` (XSLT 1.0, 7.1.1).
fn is_prefix(text: &str) -> bool
    ensures { result ≡ is_prefix text.now }
{
    text == "#default" || is_ncname(text)
}

/// Whether a text is a prefix that is not bound.
fn is_unbound_prefix(scope: &Scope, text: &str) -> bool
    ensures { result ≡ is_unbound_prefix scope.now.pairs.items text.now }
{
    is_ncname(text) && !is_bound(scope, text)
}

/// Whether a text is digits alone.
fn is_all_digits(text: &[u8]) -> bool
    ensures { result ≡ list_all is_digit text.now }
{
    text.iter().all(|byte| byte.is_ascii_digit())
}

/// Whether a text is digits, at most so many.
fn are_digits(most: usize, text: &[u8]) -> bool
    ensures { result ≡ are_digits most text.now }
{
    is_all_digits(text) && text.len() <= most
}

/// What a number has before its point and after it; all of it and nothing where it has no point.
pub fn split_point(text: &str) -> (&str, &str)
    ensures whole { result.0.now ≡ before_first is_point text.now }
    ensures part { result.1.now ≡ after_first is_point text.now }
{
    match text.split_once('.') {
        Some(parts) => parts,
        None => (text, ""),
    }
}

/// Whether a text is a number, of at most nine digits before its point and four behind it
/// (XPath 1.0, 3.7; the numbers of digits are this project's own).
fn is_number(text: &str) -> bool
    ensures { result ≡ is_number text.now }
{
    let (whole, part) = split_point(text);
    are_digits(9, whole.as_bytes())
        && are_digits(4, part.as_bytes())
        && !(whole.is_empty() && part.is_empty())
}

/// A text without the minus sign that it may begin with (XSLT 1.0, 5.5).
fn unsigned(text: &str) -> &str
    ensures { result.now ≡ unsigned text.now }
{
    match text.strip_prefix('-') {
        Some(behind) => behind,
        None => text,
    }
}

/// Whether a value is another version than 1.0 (XSLT 1.0, 2.5).
pub fn is_unsupported(form: Form, value: &str) -> bool
    ensures { result ≡ is_unsupported form value.now }
{
    matches!(form, Form::Version) && value != "1.0"
}

/// Whether a word of a value is not a name, a name test or a prefix, as the form asks for.
fn is_bad_word(form: Form, word: &str) -> bool
    ensures { result ≡ is_bad_word form word.now }
{
    match form {
        Form::Tests => !is_name_test(word),
        Form::Prefix | Form::Prefixes => !is_prefix(word),
        _ => !is_qname(word),
    }
}

/// Whether a word of a list is so.
fn has_bad_word(form: Form, value: &str) -> bool
    ensures { result ≡ list_any (is_bad_word form) (words value.now) }
{
    let mut rest = value;
    while let Some((word, behind)) = first_word(rest) {
        if is_bad_word(form, word) {
            return true;
        }
        rest = behind;
    }
    false
}

/// Whether a value is not as it has to be.
pub fn is_bad(form: Form, value: &str) -> bool
    ensures { result ≡ is_bad form value.now }
{
    match form {
        Form::YesOrNo => !(value == "yes" || value == "no"),
        Form::Level => !(value == "single" || value == "multiple" || value == "any"),
        Form::Name | Form::Prefix => is_bad_word(form, value),
        Form::Names | Form::Sets | Form::Tests | Form::Prefixes => has_bad_word(form, value),
        Form::Priority => !is_number(unsigned(value)),
        _ => false,
    }
}

/// Whether the prefix of a word is not bound.
fn is_unbound_word(form: Form, scope: &Scope, word: &str) -> bool
    ensures { result ≡ is_unbound_word form scope.now.pairs.items word.now }
{
    match form {
        Form::Tests => is_unbound_test(scope, word),
        Form::Prefix | Form::Prefixes => is_unbound_prefix(scope, word),
        _ => is_unbound_name(scope, word),
    }
}

/// Whether a word of a list is so.
fn has_unbound_word(form: Form, scope: &Scope, value: &str) -> bool
    ensures { result ≡ list_any (is_unbound_word form scope.now.pairs.items) (words value.now) }
{
    let mut rest = value;
    while let Some((word, behind)) = first_word(rest) {
        if is_unbound_word(form, scope, word) {
            return true;
        }
        rest = behind;
    }
    false
}

/// Whether a prefix of a value is not bound.
pub fn is_unbound(form: Form, scope: &Scope, value: &str) -> bool
    ensures { result ≡ is_unbound form scope.now.pairs.items value.now }
{
    match form {
        Form::Name | Form::Prefix => is_unbound_word(form, scope, value),
        Form::Names | Form::Sets | Form::Tests | Form::Prefixes => {
            has_unbound_word(form, scope, value)
        }
        _ => false,
    }
}
