//! Which white space of the source is stripped (XSLT 1.0, 3.4).

ghost use Rattle.std.specs.Prelude.{◌≡◌, ◌++◌, IfOk, OnOk};
ghost use Rattle.std.specs.List.{All};
ghost use Rattle.xs_compile.specs.Spaces.{rules_by, rules_of, strip_rules, test_in};
ghost use Rattle.xs_structure.specs.Order.{declarations};
ghost use Rattle.xs_structure.specs.Parts.{tag_at};
ghost use Rattle.xs_compile.specs.steps.Spaces.{named_test, rule_as};
ghost use Rattle.xs_structure.specs.Places.{IsIn};
ghost use Rattle.xs_modules.specs.Results.{modules_data};

use crate::labels::{label_in, uri_of};
use std::alloc::{AllocError, Global};
use xs_elements::tags::Tag;
use xs_elements::value::prefix_of_test;
use xs_elements::words::first_word;
use xs_modules::Modules;
use xs_sheet::declarations::{NameTest, StripRule};
use xs_structure::places::{Place, pairs_at, precedence_at, said_at, tag_at};
use xs_text::TextBuf;
use xs_tree::Node;
use xs_xpath::scope::Scope;

/// A QName as a name test.
fn named_test(alloc: Global, scope: &Scope, word: &str) -> Result<NameTest, AllocError>
    ensures { IfOk result (λ test. test ≡ named_test scope.now.pairs.items word.now) }
{
    match label_in(alloc, scope, word)? {
        Some(name) => Ok(NameTest::Name(name)),
        None => Ok(NameTest::Any),
    }
}

/// A name test (XPath 1.0, 2.3).
fn test_in(alloc: Global, scope: &Scope, word: &str) -> Result<NameTest, AllocError>
    ensures { IfOk result (λ test. test ≡ test_in scope.now.pairs.items word.now) }
{
    if word == "*" {
        return Ok(NameTest::Any);
    }
    match prefix_of_test(word) {
        Some(prefix) => {
            let uri = TextBuf::of(alloc, uri_of(scope, prefix))?;
            Ok(NameTest::Uri(uri))
        }
        None => named_test(alloc, scope, word),
    }
}

/// The rule of one name test, with the precedence of its declaration.
fn rule_of(
    alloc: Global,
    scope: &Scope,
    precedence: u32,
    strip: bool,
    word: &str,
) -> Result<StripRule, AllocError>
    ensures { IfOk result (λ rule. rule
        ≡ rule_as strip scope.now.pairs.items precedence word.now) }
{
    let test = test_in(alloc, scope, word)?;
    Ok(StripRule {
        test,
        precedence,
        strip,
    })
}

/// Adds the rules of one declaration.
fn push_rules(
    alloc: Global,
    modules: &Modules,
    number: u32,
    n: Node,
    strip: bool,
    strips: &mut Vec<StripRule>,
) -> Result<(), AllocError>
    requires at { IsIn (modules_data modules.now) («number», n) }
    ensures { OnOk result (strips.new.items ≡ strips.old.items
        ++ rules_of strip (modules_data modules.now) («number», n)) }
{
    let scope = pairs_at(alloc, modules, number, n)?;
    let precedence = precedence_at(modules, number);
    let mut rest = said_at(modules, number, n, "elements");
    while let Some((word, behind)) = first_word(rest) {
        strips.push(rule_of(alloc, &scope, precedence, strip, word)?)?;
        rest = behind;
    }
    Ok(())
}

/// Adds the rules of a declaration, if it is `xsl:strip-space` or `xsl:preserve-space`.
fn push_declared(
    alloc: Global,
    modules: &Modules,
    number: u32,
    n: Node,
    strips: &mut Vec<StripRule>,
) -> Result<(), AllocError>
    requires at { IsIn (modules_data modules.now) («number», n) }
    ensures { OnOk result (strips.new.items ≡ strips.old.items
        ++ rules_by (tag_at (modules_data modules.now) («number», n))
        (modules_data modules.now) («number», n)) }
{
    match tag_at(modules, number, n) {
        Tag::StripSpace => push_rules(alloc, modules, number, n, true, strips),
        Tag::PreserveSpace => push_rules(alloc, modules, number, n, false, strips),
        _ => Ok(()),
    }
}

/// The name tests of `xsl:strip-space` and `xsl:preserve-space`, one rule each.
pub(crate) fn strips(
    alloc: Global,
    modules: &Modules,
    places: &[Place],
) -> Result<Vec<StripRule>, AllocError>
    requires inside { All (IsIn (modules_data modules.now)) places.now }
    requires all { places.now ≡ declarations (modules_data modules.now) }
    ensures { IfOk result (λ found. found.items ≡ strip_rules (modules_data modules.now)) }
{
    let mut strips = Vec::new(alloc);
    for place in places {
        push_declared(alloc, modules, place.0, place.1, &mut strips)?;
    }
    Ok(strips)
}
