//! Default priorities (XSLT 1.0, 5.5).

ghost use Rattle.std.specs.Prelude.{◌≡◌};
ghost use Rattle.std.specs.Option.{option_copied};
ghost use Rattle.xs_rules.specs.Ranks.{bare_of, bare_test, default_priority, lone_step};
ghost use Rattle.xs_rules.specs.Ranks.{lone_test, test_priority};
ghost use Rattle.xs_xpath.specs.Exprs.{tree_from, trees_from};
ghost use Rattle.xs_xpath.specs.Tree.{trees};

use xs_pattern::paths::{start_of, steps_of};
pub use xs_pattern_spec::ranks::Rank;
use xs_xpath::expr::Expr;
use xs_xpath::name::NodeTest;

/// The priority of an alternative of a pattern without one that is written (XSLT 1.0, 5.5).
pub(crate) fn default_priority(alternative: &Expr) -> i64
    ensures { result ≡ default_priority (tree_from alternative.now) }
{
    match lone_test(alternative) {
        Some(test) => test_priority(test),
        None => 5_000,
    }
}

// The priority of a node test alone.
fn test_priority(test: &NodeTest) -> i64
    ensures { result ≡ test_priority test.now }
{
    match test {
        NodeTest::Name(_, _) => 0,
        NodeTest::Target(_) => 0,
        NodeTest::Uri(_) => -2_500,
        NodeTest::Any => -5_000,
        NodeTest::Node => -5_000,
        NodeTest::Text => -5_000,
        NodeTest::Comment => -5_000,
        NodeTest::Pi => -5_000,
    }
}

/// The node test of a path that is one step without predicates.
pub(crate) fn lone_test(alternative: &Expr) -> Option<&NodeTest>
    ensures { option_copied result ≡ lone_test (tree_from alternative.now) }
{
    if !start_of(alternative).is_here() {
        return None;
    }
    lone_step(steps_of(alternative))
}

// The same of its steps.
fn lone_step(steps: &[Expr]) -> Option<&NodeTest>
    ensures { option_copied result ≡ lone_step (trees_from steps.now) }
{
    match steps {
        [step] => bare_test(step),
        _ => None,
    }
}

// The node test of a step without predicates.
fn bare_test(step: &Expr) -> Option<&NodeTest>
    ensures { option_copied result ≡ bare_test (tree_from step.now) }
{
    match step.as_step() {
        None => None,
        Some((_, test, predicates)) => bare_of(test, predicates),
    }
}

// A node test, where there are no predicates after it.
fn bare_of<'a>(test: &'a NodeTest, predicates: &[Expr]) -> Option<&'a NodeTest>
    ensures { option_copied result ≡ bare_of test.now (trees (trees_from predicates.now)) }
{
    if predicates.is_empty() {
        Some(test)
    } else {
        None
    }
}
