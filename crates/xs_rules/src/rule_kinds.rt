//! The kinds of nodes that an alternative may match, and whether it matches all nodes of its key
//! or its kinds.

ghost use Rattle.std.specs.Prelude.{◌≡◌};
ghost use Rattle.xs_xpath.specs.Exprs.{tree_from};
ghost use Rattle.xs_rules.specs.steps.Kinds.{allows_kind, axis_allows, is_certain, is_decided};
ghost use Rattle.xs_rules.specs.steps.Kinds.{start_allows, step_allows, test_allows};

use crate::ranks::lone_test;
use xs_pattern::paths::{start_of, steps_of};
use xs_tree::{Axis, Kind};
use xs_xpath::expr::Expr;
use xs_xpath::name::NodeTest;

/// Whether an alternative may match nodes of a kind.
pub(crate) fn allows_kind(alternative: &Expr, kind: Kind) -> bool
    ensures { result ≡ allows_kind (tree_from alternative.now) kind }
{
    match steps_of(alternative).split_last() {
        None => start_allows(start_of(alternative), kind),
        Some((step, _)) => step_allows(step, kind),
    }
}

// Whether a path without steps may match nodes of a kind, by where it begins.
fn start_allows(start: &Expr, kind: Kind) -> bool
    ensures { result ≡ start_allows (tree_from start.now) kind }
{
    match start {
        Expr::Root => kind == Kind::Root,
        Expr::Number(_) => true,
        Expr::Literal(_) => true,
        Expr::Variable(_, _, _) => true,
        Expr::Call(_, _) => true,
        Expr::Negative(_, _) => true,
        Expr::Chain(_, _) => true,
        Expr::Group(_) => true,
        Expr::Here => true,
        Expr::Step(_, _, _) => true,
        Expr::Descend => true,
        Expr::Filter(_, _) => true,
        Expr::Path(_, _) => true,
    }
}

// Whether a path may match nodes of a kind, by its last step.
fn step_allows(step: &Expr, kind: Kind) -> bool
    ensures { result ≡ step_allows (tree_from step.now) kind }
{
    match step {
        Expr::Step(axis, test, _) => axis_allows(*axis, test, kind),
        Expr::Number(_) => true,
        Expr::Literal(_) => true,
        Expr::Variable(_, _, _) => true,
        Expr::Call(_, _) => true,
        Expr::Negative(_, _) => true,
        Expr::Chain(_, _) => true,
        Expr::Group(_) => true,
        Expr::Here => true,
        Expr::Root => true,
        Expr::Descend => true,
        Expr::Filter(_, _) => true,
        Expr::Path(_, _) => true,
    }
}

// Whether a node of a kind may stand on an axis, of which patterns have two, and pass a test.
fn axis_allows(axis: Axis, test: &NodeTest, kind: Kind) -> bool
    ensures { result ≡ axis_allows axis test.now kind }
{
    match axis {
        Axis::Child => kind.is_child() && test_allows(kind == Kind::Element, test, kind),
        Axis::Attribute => {
            kind == Kind::Attribute && test_allows(kind == Kind::Attribute, test, kind)
        }
        Axis::Descendant => false,
        Axis::Parent => false,
        Axis::Ancestor => false,
        Axis::FollowingSibling => false,
        Axis::PrecedingSibling => false,
        Axis::Following => false,
        Axis::Preceding => false,
        Axis::Namespace => false,
        Axis::SelfNode => false,
        Axis::DescendantOrSelf => false,
        Axis::AncestorOrSelf => false,
    }
}

// Whether nodes of a kind, which is the principal one of the axis or not, may pass a test.
fn test_allows(is_principal: bool, test: &NodeTest, kind: Kind) -> bool
    ensures { result ≡ test_allows is_principal test.now kind }
{
    match test {
        NodeTest::Any => is_principal,
        NodeTest::Uri(_) => is_principal,
        NodeTest::Name(_, _) => is_principal,
        NodeTest::Node => true,
        NodeTest::Text => kind == Kind::Text,
        NodeTest::Comment => kind == Kind::Comment,
        NodeTest::Pi => kind == Kind::Pi,
        NodeTest::Target(_) => kind == Kind::Pi,
    }
}

/// Whether each node that has the key of an alternative, or a kind that it may match, matches it:
/// of one step without predicates, except where its test asks for a namespace or a target.
pub(crate) fn is_certain(alternative: &Expr) -> bool
    ensures { result ≡ is_certain (tree_from alternative.now) }
{
    match lone_test(alternative) {
        Some(test) => is_decided(test),
        None => false,
    }
}

// Whether a test is true of all nodes of the key or the kinds that it asks for.
fn is_decided(test: &NodeTest) -> bool
    ensures { result ≡ is_decided test.now }
{
    match test {
        NodeTest::Any => true,
        NodeTest::Uri(_) => false,
        NodeTest::Name(_, _) => true,
        NodeTest::Node => true,
        NodeTest::Text => true,
        NodeTest::Comment => true,
        NodeTest::Pi => true,
        NodeTest::Target(_) => false,
    }
}
