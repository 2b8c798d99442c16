//! The functions on strings (XPath 1.0, 4.2), on evaluated arguments.

ghost use Rattle.std.specs.Prelude.{◌≡◌, ◌<◌, Ok, length, slice_get};
ghost use Rattle.std.specs.List.{All, flat_map};
ghost use Rattle.std.specs.Str.{chars};
ghost use Rattle.xs_strings.specs.Normalization.{normalized};
ghost use Rattle.xs_strings.specs.Positions.{substring_of};
ghost use Rattle.xs_strings.specs.Searching.{text_after, text_before};
ghost use Rattle.xs_strings.specs.Translation.{translated};
ghost use Rattle.xs_value.specs.Conversion.{IsIn, text_value};
ghost use Rattle.xs_value.specs.declared.value.Value.TheVariants.{Bool as Boolean, Chars};
ghost use Rattle.xs_eval_spec.specs.Functions.{count_given, does_contain, does_start_with, first};
ghost use Rattle.xs_eval_spec.specs.Functions.{first_or_node, second, string_length, substring};
ghost use Rattle.xs_eval_spec.specs.Functions.{third};
ghost use Rattle.xs_eval_spec.specs.Functions.{written};
ghost use Rattle.xs_eval_spec.specs.Results.{Answers, AnswersBy};

use crate::arguments::{chars_of, natural, number_at, text_at, text_or_node};
use crate::operand::Operand;
use std::alloc::Global;
use xs_eval_spec::context::Context;
use xs_eval_spec::trouble::Trouble;
use xs_num::number::Num;
use xs_strings::{normalization, positions, searching, translation};
use xs_tree::Tree;
use xs_value::conversion::{node_text, own_text};
use xs_value::value::Value;

/// `string`.
pub(crate) fn string(
    alloc: Global,
    context: &Context<'_>,
    values: &[Operand<'_>],
) -> Result<Value, Trouble>
    requires node { context.now.node < length context.now.tree }
    requires inside { All (IsIn context.now.tree) values.now }
    ensures value { Answers (Ok (Chars
        (text_value context.now.tree (first_or_node context.now values.now)))) result }
{
    match values.first() {
        Some(v) => Ok(Value::Chars(v.to_text(alloc, context.tree)?)),
        None => {
            let text = node_text(alloc, context.tree, context.node)?;
            Ok(Value::Chars(own_text(alloc, text)?))
        }
    }
}

/// `concat`.
pub(crate) fn concat(alloc: Global, tree: &Tree, values: &[Operand<'_>]) -> Result<Value, Trouble>
    requires { All (IsIn tree.now) values.now }
    ensures value { Answers (Ok (Chars (flat_map (text_value tree.now) values.now))) result }
{
    let mut bytes = Vec::new(alloc);
    for v in values {
        v.text_into(tree, &mut bytes)?;
    }
    chars_of(bytes)
}

/// `starts-with`.
pub(crate) fn starts_with(
    alloc: Global,
    tree: &Tree,
    values: &[Operand<'_>],
) -> Result<Value, Trouble>
    requires { All (IsIn tree.now) values.now }
    ensures value { Answers (Ok (Boolean (does_start_with
        (text_value tree.now (first values.now))
        (text_value tree.now (second values.now))))) result }
{
    let text = text_at(alloc, tree, values, 0)?;
    let start = text_at(alloc, tree, values, 1)?;
    let does_begin = begins(text.as_str(), start.as_str());
    drop(start);
    drop(text);
    Ok(Value::Bool(does_begin))
}

// Whether a text begins with another.
fn begins(text: &str, start: &str) -> bool
    ensures { result ≡ does_start_with text.now start.now }
{
    text.as_bytes().starts_with(start.as_bytes())
}

/// `contains`.
pub(crate) fn contains(alloc: Global, tree: &Tree, values: &[Operand<'_>]) -> Result<Value, Trouble>
    requires { All (IsIn tree.now) values.now }
    ensures value { Answers (Ok (Boolean (does_contain
        (text_value tree.now (first values.now))
        (text_value tree.now (second values.now))))) result }
{
    let text = text_at(alloc, tree, values, 0)?;
    let sought = text_at(alloc, tree, values, 1)?;
    let does_hold = holds(text.as_str(), sought.as_str());
    drop(sought);
    drop(text);
    Ok(Value::Bool(does_hold))
}

// Whether a text holds another.
fn holds(text: &str, sought: &str) -> bool
    ensures { result ≡ does_contain text.now sought.now }
{
    match text.split_once(sought) {
        Some((before, _)) => {
            let _bytes = before.as_bytes();
            true
        }
        None => false,
    }
}

/// `substring-before`.
pub(crate) fn substring_before(
    alloc: Global,
    tree: &Tree,
    values: &[Operand<'_>],
) -> Result<Value, Trouble>
    requires { All (IsIn tree.now) values.now }
    ensures value { Answers (Ok (written (text_before
        (chars (text_value tree.now (first values.now)))
        (chars (text_value tree.now (second values.now)))))) result }
{
    let text = text_at(alloc, tree, values, 0)?;
    let sought = text_at(alloc, tree, values, 1)?;
    let before = text_before(alloc, text.as_str(), sought.as_str());
    drop(sought);
    drop(text);
    before
}

// The text before another in a text.
fn text_before(alloc: Global, text: &str, sought: &str) -> Result<Value, Trouble>
    ensures value { Answers (Ok (written (text_before (chars text.now)
        (chars sought.now)))) result }
{
    let mut bytes = Vec::new(alloc);
    searching::substring_before(&mut bytes, text, sought)?;
    chars_of(bytes)
}

/// `substring-after`.
pub(crate) fn substring_after(
    alloc: Global,
    tree: &Tree,
    values: &[Operand<'_>],
) -> Result<Value, Trouble>
    requires { All (IsIn tree.now) values.now }
    ensures value { Answers (Ok (written (text_after
        (chars (text_value tree.now (first values.now)))
        (chars (text_value tree.now (second values.now)))))) result }
{
    let text = text_at(alloc, tree, values, 0)?;
    let sought = text_at(alloc, tree, values, 1)?;
    let after = text_after(alloc, text.as_str(), sought.as_str());
    drop(sought);
    drop(text);
    after
}

// The text after another in a text.
fn text_after(alloc: Global, text: &str, sought: &str) -> Result<Value, Trouble>
    ensures value { Answers (Ok (written (text_after (chars text.now)
        (chars sought.now)))) result }
{
    let mut bytes = Vec::new(alloc);
    searching::substring_after(&mut bytes, text, sought)?;
    chars_of(bytes)
}

/// `substring`.
pub(crate) fn substring(
    alloc: Global,
    tree: &Tree,
    values: &[Operand<'_>],
) -> Result<Value, Trouble>
    requires { All (IsIn tree.now) values.now }
    ensures value { Answers (substring tree.now values.now) result }
{
    let from = number_at(alloc, tree, values, 1)?;
    let count = count_given(alloc, tree, values)?;
    let text = text_at(alloc, tree, values, 0)?;
    let part = part_of(alloc, text.as_str(), from, count);
    drop(text);
    part
}

// The characters of a text from a position on, and at most so many where their number is given.
fn part_of(alloc: Global, text: &str, from: Num, count: Option<Num>) -> Result<Value, Trouble>
    ensures value { Answers (Ok (written (substring_of (chars text.now) from count))) result }
{
    let mut bytes = Vec::new(alloc);
    positions::substring(&mut bytes, text, from, count)?;
    chars_of(bytes)
}

// How many characters a substring has at most, where that is given.
fn count_given(alloc: Global, tree: &Tree, values: &[Operand<'_>]) -> Result<Option<Num>, Trouble>
    requires { All (IsIn tree.now) values.now }
    ensures count { AnswersBy (λ n. n)
        (count_given tree.now (slice_get values.now 2)) result }
{
    match values.get(2) {
        Some(v) => Ok(Some(v.number(alloc, tree)?)),
        None => Ok(None),
    }
}

/// `string-length`.
pub(crate) fn string_length(
    alloc: Global,
    context: &Context<'_>,
    values: &[Operand<'_>],
) -> Result<Value, Trouble>
    requires node { context.now.node < length context.now.tree }
    requires inside { All (IsIn context.now.tree) values.now }
    ensures value { Answers (string_length
        (text_value context.now.tree (first_or_node context.now values.now))) result }
{
    let text = text_or_node(alloc, context, values)?;
    let count = positions::char_count(text.as_str());
    drop(text);
    Ok(Value::Number(natural(count)?))
}

/// `normalize-space`.
pub(crate) fn normalize_space(
    alloc: Global,
    context: &Context<'_>,
    values: &[Operand<'_>],
) -> Result<Value, Trouble>
    requires node { context.now.node < length context.now.tree }
    requires inside { All (IsIn context.now.tree) values.now }
    ensures value { Answers (Ok (written (normalized
        (chars (text_value context.now.tree (first_or_node context.now values.now)))))) result }
{
    let text = text_or_node(alloc, context, values)?;
    let value = normalize(alloc, text.as_str());
    drop(text);
    value
}

// A text whose white space is normalized.
fn normalize(alloc: Global, text: &str) -> Result<Value, Trouble>
    ensures value { Answers (Ok (written (normalized (chars text.now)))) result }
{
    let mut bytes = Vec::new(alloc);
    normalization::normalize_space(&mut bytes, text)?;
    chars_of(bytes)
}

/// `translate`.
pub(crate) fn translate(
    alloc: Global,
    tree: &Tree,
    values: &[Operand<'_>],
) -> Result<Value, Trouble>
    requires { All (IsIn tree.now) values.now }
    ensures value { Answers (Ok (written (translated
        (chars (text_value tree.now (first values.now)))
        (chars (text_value tree.now (second values.now)))
        (chars (text_value tree.now (third values.now)))))) result }
{
    let text = text_at(alloc, tree, values, 0)?;
    let from = text_at(alloc, tree, values, 1)?;
    let to = text_at(alloc, tree, values, 2)?;
    let value = replace_chars(alloc, text.as_str(), from.as_str(), to.as_str());
    drop(to);
    drop(from);
    drop(text);
    value
}

// A text whose characters are replaced by those at the same places of another.
fn replace_chars(alloc: Global, text: &str, from: &str, to: &str) -> Result<Value, Trouble>
    ensures value { Answers (Ok (written (translated (chars text.now) (chars from.now)
        (chars to.now)))) result }
{
    let mut bytes = Vec::new(alloc);
    translation::translate(&mut bytes, text, from, to)?;
    chars_of(bytes)
}
