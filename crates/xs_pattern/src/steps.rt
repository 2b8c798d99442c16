//! Whether a step of a pattern selects a node from the node's parent.

ghost use Rattle.std.specs.Prelude.{◌≡◌, ◌<◌, Some, IfOk, length};
ghost use Rattle.xs_tree.specs.Record.{at};
ghost use Rattle.xs_tree.specs.Shape.{IsTree};
ghost use Rattle.xs_xpath.specs.Exprs.{tree_from};
ghost use Rattle.xs_eval_spec.specs.Conditions.{IsContext};
ghost use Rattle.xs_eval_spec.specs.Evaluation.{runs_of};
ghost use Rattle.xs_pattern_spec.specs.Matching.{is_descend, placed_at, selected, step_nodes};
ghost use Rattle.xs_pattern_spec.specs.Predicates.{is_among};
ghost use Rattle.xs_pattern.specs.steps.Climb.{stands_on};

use crate::matcher::Matcher;
use crate::node_tests::tested;
use std::alloc::AllocError;
use xs_eval::node_tests::passes;
use xs_eval_spec::context::Context;
use xs_tree::{Axis, Kind, Node};
use xs_value::keys::KeyFinder;
use xs_xpath::expr::Expr;
use xs_xpath::name::NodeTest;

/// Whether a step is the one that `//` represents.
pub(crate) fn is_descend(step: &Expr) -> bool
    ensures { result ≡ is_descend (tree_from step.now) }
{
    match step {
        Expr::Descend => true,
        Expr::Number(_) => false,
        Expr::Literal(_) => false,
        Expr::Variable(_, _, _) => false,
        Expr::Call(_, _) => false,
        Expr::Negative(_, _) => false,
        Expr::Chain(_, _) => false,
        Expr::Group(_) => false,
        Expr::Here => false,
        Expr::Root => false,
        Expr::Step(_, _, _) => false,
        Expr::Filter(_, _) => false,
        Expr::Path(_, _) => false,
    }
}

impl<'a, K: KeyFinder> Matcher<'a, K> {
    /// Whether a step selects a node from the node's parent.
    pub(crate) fn leads_to(
        &self,
        step: &Expr,
        parent: Node,
        node: Node,
        context: &Context<'_>,
    ) -> Result<bool, AllocError>
        requires context { IsContext (K.tables self.now.keys.now) context.now }
        requires tree { IsTree context.now.tree }
        requires node { node < length context.now.tree }
        requires parent { (at context.now.tree node).parent ≡ Some parent }
        ensures leads { IfOk result (λ b. b ≡ is_among node
            (selected (K.tables self.now.keys.now) (tree_from step.now) (placed_at context.now
            parent))) }
    {
        match step {
            Expr::Step(axis, test, predicates) => {
                self.leads_by(*axis, test, predicates, parent, node, context)
            }
            Expr::Number(_) => Ok(false),
            Expr::Literal(_) => Ok(false),
            Expr::Variable(_, _, _) => Ok(false),
            Expr::Call(_, _) => Ok(false),
            Expr::Negative(_, _) => Ok(false),
            Expr::Chain(_, _) => Ok(false),
            Expr::Group(_) => Ok(false),
            Expr::Here => Ok(false),
            Expr::Root => Ok(false),
            Expr::Descend => Ok(false),
            Expr::Filter(_, _) => Ok(false),
            Expr::Path(_, _) => Ok(false),
        }
    }

    // The same of a step by its parts. The node alone is looked at where no predicate depends on
    // its position; otherwise its position among its siblings counts, and the last predicate is
    // evaluated for the node alone.
    fn leads_by(
        &self,
        axis: Axis,
        test: &NodeTest,
        predicates: &[Expr],
        parent: Node,
        node: Node,
        context: &Context<'_>,
    ) -> Result<bool, AllocError>
        requires context { IsContext (K.tables self.now.keys.now) context.now }
        requires tree { IsTree context.now.tree }
        requires node { node < length context.now.tree }
        requires parent { (at context.now.tree node).parent ≡ Some parent }
        ensures leads { IfOk result (λ b. b ≡ is_among node (step_nodes axis test.now
            (runs_of (K.tables self.now.keys.now) predicates.now) (placed_at context.now parent))) }
    {
        if !stands_on(axis, context.tree.kind(node)) {
            return Ok(false);
        }
        if !passes(context.tree, axis, test, node) {
            return Ok(false);
        }
        match predicates.split_last() {
            None => Ok(true),
            Some((last, before)) => {
                let around = context.at_node(parent, context.position, context.size);
                if let Some(said) = self.say(predicates, node, &around)? {
                    return Ok(said);
                }
                let nodes = tested(self.alloc, axis, test, &around)?;
                let nodes = self.all_kept(before, nodes, &around)?;
                self.is_kept(last, &nodes, node, &around)
            }
        }
    }
}

/// Whether a node of a kind stands on an axis of its parent, of the two that patterns have.
pub(crate) fn stands_on(axis: Axis, kind: Kind) -> bool
    ensures { result ≡ stands_on axis kind }
{
    match axis {
        Axis::Child => kind.is_child(),
        Axis::Attribute => kind == Kind::Attribute,
        Axis::Descendant => false,
        Axis::Parent => false,
        Axis::Ancestor => false,
        Axis::FollowingSibling => false,
        Axis::PrecedingSibling => false,
        Axis::Following => false,
        Axis::Preceding => false,
        Axis::Namespace => false,
        Axis::SelfNode => false,
        Axis::DescendantOrSelf => false,
        Axis::AncestorOrSelf => false,
    }
}
