//! Names that a text spells, in the namespace declarations of the expression, and what they name
//! (XSLT 1.0, 2.4, 12.4 and 15).

ghost use Rattle.std.specs.Prelude.{◌≡◌, ◌||◌, Ok, map};
ghost use Rattle.std.specs.Option.{option_map};
ghost use Rattle.xs_eval_spec.specs.Names.{expanded_name, is_element_available};
ghost use Rattle.xs_eval_spec.specs.Names.{is_function_available};
ghost use Rattle.xs_eval_spec.specs.Names.{is_copying, is_flow, is_instruction, is_making};
ghost use Rattle.xs_eval_spec.specs.Names.{property};
ghost use Rattle.xs_eval_spec.specs.Names.{system_property};
ghost use Rattle.xs_eval_spec.specs.Results.{Answers};
ghost use Rattle.xs_eval.specs.steps.Names.{instructions, lent_text, texts};

use crate::arguments::chars;
use std::alloc::Global;
use xs_eval_spec::trouble::Trouble;
use xs_num::number::Num;
use xs_text::split_qname;
use xs_value::value::Value;
use xs_xpath::scope::{Scope, function_of};

/// The namespace of XSLT (XSLT 1.0, 2.1).
const XSLT: &str = "http://www.w3.org/1999/XSL/Transform";

/// The vendor of this processor.
const VENDOR: &str = "xslt whole-number profile";

/// The instructions, by their local parts (XSLT 1.0, 2.2 and appendix C.1).
static INSTRUCTIONS: [&str; 18] = [
    // Those that decide what is instantiated, and how often.
    "apply-templates",
    "call-template",
    "apply-imports",
    "for-each",
    "choose",
    "if",
    // Those that copy or compute text.
    "value-of",
    "copy-of",
    "copy",
    "number",
    "text",
    "message",
    // Those that make nodes, bind a variable, or stand in for an extension.
    "element",
    "attribute",
    "comment",
    "processing-instruction",
    "variable",
    "fallback",
];

/// The expanded name of a text: its namespace URI, empty for none, and its local part; none where
/// it is no QName, or its prefix is not in scope.
#[tactic(auto, unfolding(xs_eval_spec::specs::Names::expanded_name))]
pub(crate) fn expanded_name<'a>(scope: &'a Scope, text: &'a str) -> Option<(&'a str, &'a str)>
    ensures name { option_map texts result ≡ expanded_name scope.now.pairs.items text.now }
{
    match split_qname(text) {
        Some((prefix, local)) => {
            if prefix.is_empty() {
                return Some(("", local));
            }
            match scope.uri_in(prefix) {
                Some(uri) => Some((uri, local)),
                None => None,
            }
        }
        None => None,
    }
}

/// `element-available`: whether a text names an instruction of XSLT.
pub(crate) fn is_element_available(scope: &Scope, text: &str) -> bool
    ensures { result ≡ is_element_available scope.now.pairs.items text.now }
{
    match expanded_name(scope, text) {
        Some((uri, local)) => is_instruction(uri, local),
        None => false,
    }
}

// Whether a name is that of an instruction (XSLT 1.0, appendix C.1).
fn is_instruction(uri: &str, local: &str) -> bool
    ensures { result ≡ is_instruction (uri.now, local.now) }
{
    if uri != XSLT {
        return false;
    }
    is_instruction_name(local)
}

// Whether a local part is that of an instruction.
fn is_instruction_name(local: &str) -> bool
    ensures { result ≡ (is_flow local.now || is_copying local.now || is_making local.now) }
{
    for name in instructions() {
        if local == *name {
            return true;
        }
    }
    false
}

// The instructions, by their local parts.
#[tactic(auto, unfolding(crate::specs::steps::Names::instructions))]
fn instructions() -> &'static [&'static str]
    ensures { map lent_text result.now ≡ instructions }
{
    &INSTRUCTIONS
}

/// `function-available`: whether a text names a function.
pub(crate) fn is_function_available(text: &str) -> bool
    ensures { result ≡ is_function_available text.now }
{
    function_of(text.as_bytes()).is_some()
}

/// `system-property`.
pub(crate) fn system_property(alloc: Global, scope: &Scope, text: &str) -> Result<Value, Trouble>
    ensures value { Answers (Ok (system_property scope.now.pairs.items text.now)) result }
{
    match expanded_name(scope, text) {
        Some((uri, local)) => property(alloc, uri, local),
        None => chars(alloc, ""),
    }
}

// A property by its name.
fn property(alloc: Global, uri: &str, local: &str) -> Result<Value, Trouble>
    ensures value { Answers (Ok (property (uri.now, local.now))) result }
{
    if uri != XSLT {
        return chars(alloc, "");
    }
    if local == "version" {
        return Ok(Value::Number(Num::from(1)));
    }
    if local == "vendor" {
        return chars(alloc, VENDOR);
    }
    chars(alloc, "")
}
