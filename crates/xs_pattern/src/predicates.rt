//! What the predicates of a pattern's step keep (XPath 1.0, 2.4).

ghost use Rattle.std.specs.Prelude.{◌≡◌, ◌<◌, ◌==◌, ◌&&◌, IfOk, length};
ghost use Rattle.xs_eval_spec.specs.Conditions.{IsContext};
ghost use Rattle.xs_eval_spec.specs.Evaluation.{run_of, runs_of};
ghost use Rattle.xs_eval_spec.specs.Paths.{kept_if};
ghost use Rattle.xs_eval_spec.specs.Nodes.{AreSome};
ghost use Rattle.xs_pattern_spec.specs.Predicates.{all_kept, holds, is_among, kept};
ghost use Rattle.xs_pattern.specs.steps.Alone.{AreSaid};

use crate::matcher::Matcher;
use std::alloc::AllocError;
use xs_eval::predicates::count_of;
use xs_eval_spec::context::Context;
use xs_tree::Node;
use xs_value::keys::KeyFinder;
use xs_xpath::expr::Expr;

impl<'a, K: KeyFinder> Matcher<'a, K> {
    /// What predicates say of a node wherever it stands among others; nothing, where that depends
    /// on its position.
    pub(crate) fn say(
        &self,
        predicates: &[Expr],
        node: Node,
        context: &Context<'_>,
    ) -> Result<Option<bool>, AllocError>
        requires context { IsContext (K.tables self.now.keys.now) context.now }
        requires node { node < length context.now.tree }
        ensures say { IfOk result
            (AreSaid node context.now (runs_of (K.tables self.now.keys.now) predicates.now)) }
    {
        for predicate in predicates {
            match self.says(predicate, node, context)? {
                None => return Ok(None),
                Some(false) => return Ok(Some(false)),
                Some(true) => {}
            }
        }
        Ok(Some(true))
    }

    /// The nodes that predicates keep: the first one of all, then the next of those.
    pub(crate) fn all_kept(
        &self,
        predicates: &[Expr],
        nodes: Vec<Node>,
        context: &Context<'_>,
    ) -> Result<Vec<Node>, AllocError>
        requires context { IsContext (K.tables self.now.keys.now) context.now }
        requires some { AreSome context.now.tree nodes.items }
        ensures nodes { IfOk result (λ ns. ns.items
            ≡ all_kept context.now nodes.items (runs_of (K.tables self.now.keys.now)
            predicates.now)) }
        ensures some { IfOk result (λ ns. AreSome context.now.tree ns.items) }
    {
        let mut nodes = nodes;
        for predicate in predicates {
            nodes = self.kept(predicate, &nodes, context)?;
        }
        Ok(nodes)
    }

    // The nodes that a predicate keeps, their positions from 1 on.
    fn kept(
        &self,
        predicate: &Expr,
        nodes: &[Node],
        context: &Context<'_>,
    ) -> Result<Vec<Node>, AllocError>
        requires context { IsContext (K.tables self.now.keys.now) context.now }
        requires some { AreSome context.now.tree nodes.now }
        ensures nodes { IfOk result (λ ns. ns.items
            ≡ kept context.now nodes.now (run_of (K.tables self.now.keys.now) predicate.now)) }
        ensures some { IfOk result (λ ns. AreSome context.now.tree ns.items) }
    {
        let size = count_of(context.tree, nodes);
        let mut found = Vec::new(self.alloc);
        let mut position = 0;
        for node in nodes {
            position += 1;
            let is_kept = self.holds(predicate, *node, position, size, context)?;
            found = kept_if(is_kept, found, *node)?;
        }
        Ok(found)
    }

    /// Whether a node is among those that a predicate keeps: it is evaluated for that node alone.
    pub(crate) fn is_kept(
        &self,
        predicate: &Expr,
        nodes: &[Node],
        node: Node,
        context: &Context<'_>,
    ) -> Result<bool, AllocError>
        requires context { IsContext (K.tables self.now.keys.now) context.now }
        requires some { AreSome context.now.tree nodes.now }
        ensures kept { IfOk result (λ b. b ≡ is_among node
            (kept context.now nodes.now (run_of (K.tables self.now.keys.now) predicate.now))) }
    {
        let size = count_of(context.tree, nodes);
        let mut position = 0;
        for other in nodes {
            position += 1;
            if self.is_kept_at(predicate, *other, position, size, node, context)? {
                return Ok(true);
            }
        }
        Ok(false)
    }

    // Whether it is the node that stands at a position, and a predicate holds of it there.
    fn is_kept_at(
        &self,
        predicate: &Expr,
        other: Node,
        position: u32,
        size: u32,
        node: Node,
        context: &Context<'_>,
    ) -> Result<bool, AllocError>
        requires context { IsContext (K.tables self.now.keys.now) context.now }
        requires other { other < length context.now.tree }
        ensures kept { IfOk result (λ b. b ≡ ((other == node)
            && holds context.now (run_of (K.tables self.now.keys.now) predicate.now)
            size (position, other))) }
    {
        if other != node {
            return Ok(false);
        }
        self.holds(predicate, other, position, size, context)
    }
}

// The nodes, with one more where it is kept.
fn kept_if(is_kept: bool, nodes: Vec<Node>, node: Node) -> Result<Vec<Node>, AllocError>
    ensures nodes { IfOk result (λ ns. ns.items ≡ kept_if is_kept nodes.items node) }
{
    let mut nodes = nodes;
    if is_kept {
        nodes.push(node)?;
    }
    Ok(nodes)
}
