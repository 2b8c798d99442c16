//! Predicates, and what they keep of nodes (XPath 1.0, 2.4 and 3.3).

ghost use Rattle.std.specs.Prelude.{◌≡◌, ◌<◌, IfOk, length};
ghost use Rattle.std.specs.List.{All};
ghost use Rattle.xs_trace.specs.Play.{IsStep};
ghost use Rattle.xs_trace.specs.Run.{limited};
ghost use Rattle.xs_value.specs.Conversion.{IsIn};
ghost use Rattle.xs_eval_spec.specs.Conditions.{IsContext};
ghost use Rattle.xs_eval_spec.specs.Evaluation.{run_of, runs_of};
ghost use Rattle.xs_eval_spec.specs.Paths.{filter_expr, filtered, kept_of};
ghost use Rattle.xs_eval_spec.specs.Nodes.{AreSome};

use crate::evaluator::Evaluator;
use crate::operand::SetOperand;
use crate::predicates::{count_of, kept_if, number_of, picked, selects};
use xs_eval_spec::context::Context;
use xs_trace::recorder::{Halt, Tally};
use xs_tree::Node;
use xs_value::keys::KeyFinder;
use xs_value::node_list::NodeList;
use xs_value::node_set::NodeSet;
use xs_value::value::Value;
use xs_xpath::expr::Expr;

impl<K: KeyFinder> Evaluator<'_, K> {
    /// An expression and its predicates (XPath 1.0, 3.3).
    #[cycle(evaluate)]
    pub(crate) fn evaluate_filter<'e, T: Tally>(
        &self,
        inner: &'e Expr,
        predicates: &[Expr],
        context: &Context<'e>,
        tally: &mut T,
    ) -> Result<Value, Halt>
        requires context { IsContext (K.tables self.now.keys.now) context.now }
        ensures reported { IsStep (limited self.now.site
            (filter_expr (run_of (K.tables self.now.keys.now) inner.now)
            (runs_of (K.tables self.now.keys.now) predicates.now) context.now)
            (T.state tally.old)) result (T.state tally.new) }
        ensures kept { T.kept tally.new ≡ T.kept tally.old }
        ensures inside { IfOk result (IsIn context.now.tree) }
    {
        let set = self.evaluate_nodes(inner, context, tally)?;
        self.keep_of_set(predicates, set, context, tally)
    }

    // The node-set of what predicates keep of a set, which the first one reads where it is.
    #[cycle(evaluate)]
    fn keep_of_set<T: Tally>(
        &self,
        predicates: &[Expr],
        set: SetOperand<'_>,
        context: &Context<'_>,
        tally: &mut T,
    ) -> Result<Value, Halt>
        requires context { IsContext (K.tables self.now.keys.now) context.now }
        requires inside { All (λ k. k < length context.now.tree) set }
        ensures reported { IsStep (limited self.now.site
            (kept_of context.now (runs_of (K.tables self.now.keys.now) predicates.now) set.entry)
            (T.state tally.old)) result (T.state tally.new) }
        ensures kept { T.kept tally.new ≡ T.kept tally.old }
        ensures inside { IfOk result (IsIn context.now.tree) }
    {
        match predicates {
            [] => {
                // (that its nodes are in order is what this call's contract says)
                let _nodes = set.nodes();
                Ok(Value::Nodes(set.into_set()?))
            }
            [first, rest @ ..] => {
                let nodes = self.filter(first, set.nodes(), context, tally)?;
                drop(set);
                self.keep(rest, nodes, context, tally)
            }
        }
    }

    /// The node-set of what predicates keep of some nodes: the first one for each node, then the
    /// next.
    #[cycle(evaluate)]
    #[inline(always)]
    pub(crate) fn keep<T: Tally>(
        &self,
        predicates: &[Expr],
        nodes: NodeList,
        context: &Context<'_>,
        tally: &mut T,
    ) -> Result<Value, Halt>
        requires context { IsContext (K.tables self.now.keys.now) context.now }
        requires some { AreSome context.now.tree nodes }
        ensures reported { IsStep (limited self.now.site
            (kept_of context.now (runs_of (K.tables self.now.keys.now) predicates.now) nodes)
            (T.state tally.old)) result (T.state tally.new) }
        ensures kept { T.kept tally.new ≡ T.kept tally.old }
        ensures inside { IfOk result (IsIn context.now.tree) }
    {
        let mut nodes = nodes;
        for predicate in predicates {
            nodes = self.filter(predicate, nodes.as_slice(), context, tally)?;
        }
        Ok(Value::Nodes(NodeSet::of_list(nodes)?))
    }

    // The nodes that a predicate keeps, their positions from 1 on (XPath 1.0, 2.4). A number keeps
    // the node at its position, and no other is looked at.
    #[cycle(evaluate)]
    fn filter<T: Tally>(
        &self,
        predicate: &Expr,
        nodes: &[Node],
        context: &Context<'_>,
        tally: &mut T,
    ) -> Result<NodeList, Halt>
        requires context { IsContext (K.tables self.now.keys.now) context.now }
        requires some { AreSome context.now.tree nodes.now }
        ensures reported { IsStep (limited self.now.site
            (filtered context.now nodes.now (run_of (K.tables self.now.keys.now) predicate.now))
            (T.state tally.old)) result (T.state tally.new) }
        ensures kept { T.kept tally.new ≡ T.kept tally.old }
        ensures some { IfOk result (AreSome context.now.tree) }
    {
        match number_of(predicate) {
            Some(number) => Ok(picked(self.alloc, nodes, number)?),
            None => self.filter_each(predicate, nodes, context, tally),
        }
    }

    // The same, where the predicate is evaluated for each node.
    #[cycle(evaluate)]
    fn filter_each<T: Tally>(
        &self,
        predicate: &Expr,
        nodes: &[Node],
        context: &Context<'_>,
        tally: &mut T,
    ) -> Result<NodeList, Halt>
        requires context { IsContext (K.tables self.now.keys.now) context.now }
        requires some { AreSome context.now.tree nodes.now }
        ensures reported { IsStep (limited self.now.site
            (filtered context.now nodes.now (run_of (K.tables self.now.keys.now) predicate.now))
            (T.state tally.old)) result (T.state tally.new) }
        ensures kept { T.kept tally.new ≡ T.kept tally.old }
        ensures some { IfOk result (AreSome context.now.tree) }
    {
        let size = count_of(context.tree, nodes);
        let mut kept = NodeList::new(self.alloc);
        let mut position = 0;
        for node in nodes {
            position += 1;
            let around = context.at_node(*node, position, size);
            let v = self.evaluate(predicate, &around, tally)?;
            let is_kept = selects(&v, position);
            drop(v);
            kept = kept_if(is_kept, kept, *node)?;
        }
        Ok(kept)
    }
}
