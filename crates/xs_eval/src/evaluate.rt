//! The evaluation of an expression (XPath 1.0, 2 and 3), which reports its ticks to a tally.

ghost use Rattle.std.specs.Prelude.{◌≡◌, IfOk};
ghost use Rattle.xs_trace.specs.Play.{IsStep};
ghost use Rattle.xs_trace.specs.Run.{limited};
ghost use Rattle.xs_value.specs.Conversion.{IsIn};
ghost use Rattle.xs_eval_spec.specs.Conditions.{IsContext};
ghost use Rattle.xs_eval_spec.specs.Evaluation.{called_of, negative, run_of, runs_of};

use crate::arguments::single;
use crate::evaluator::Evaluator;
use crate::operand::{Operand, text_of};
use crate::operators::negate;
use crate::variables::{lend, variable};
use std::alloc::Global;
use xs_eval_spec::context::Context;
use xs_eval_spec::trouble::or_halt;
use xs_trace::item::Site;
use xs_trace::recorder::{Halt, Tally};
use xs_tree::Axis;
use xs_value::keys::KeyFinder;
use xs_value::value::Value;
use xs_xpath::expr::Expr;
use xs_xpath::name::{Function, NodeTest};

/// The value of an expression in a context, at an instruction. The tally gets a tick for each
/// call of a function, for each node that passes the node test of a step, and for each node that a
/// key gives; it may end the evaluation.
#[inline(always)]
pub fn evaluate<K: KeyFinder, T: Tally>(
    alloc: Global,
    expr: &Expr,
    context: &Context<'_>,
    keys: &K,
    site: Site,
    tally: &mut T,
) -> Result<Value, Halt>
    requires context { IsContext (K.tables keys.now) context.now }
    ensures reported { IsStep (limited site (run_of (K.tables keys.now) expr.now context.now)
        (T.state tally.old)) result (T.state tally.new) }
    ensures kept { T.kept tally.new ≡ T.kept tally.old }
    ensures inside { IfOk result (IsIn context.now.tree) }
{
    let evaluator = Evaluator { alloc, keys, site };
    evaluator.evaluate(expr, context, tally)
}

impl<K: KeyFinder> Evaluator<'_, K> {
    /// The value of an expression in a context (XPath 1.0, 2 and 3).
    #[cycle(evaluate)]
    pub(crate) fn evaluate<T: Tally>(
        &self,
        expr: &Expr,
        context: &Context<'_>,
        tally: &mut T,
    ) -> Result<Value, Halt>
        requires context { IsContext (K.tables self.now.keys.now) context.now }
        ensures reported { IsStep (limited self.now.site
            (run_of (K.tables self.now.keys.now) expr.now context.now)
            (T.state tally.old)) result (T.state tally.new) }
        ensures kept { T.kept tally.new ≡ T.kept tally.old }
        ensures inside { IfOk result (IsIn context.now.tree) }
    {
        match expr {
            Expr::Number(number) => Ok(Value::Number(*number)),
            Expr::Literal(text) => Ok(Value::Chars(text_of(self.alloc, text)?)),
            Expr::Variable(_, _, slot) => variable(self.alloc, *slot, context, self.site),
            Expr::Call(function, arguments) => {
                self.evaluate_call(*function, arguments, context, tally)
            }
            Expr::Negative(signs, inner) => {
                self.evaluate_negative(*signs, inner, context, tally)
            }
            Expr::Chain(operators, operands) => {
                self.evaluate_chain(operators, operands, context, tally)
            }
            Expr::Group(inner) => self.evaluate(inner, context, tally),
            Expr::Here => Ok(single(self.alloc, context.node)?),
            Expr::Root => Ok(single(self.alloc, context.tree.root_of(context.node))?),
            Expr::Step(axis, test, predicates) => {
                self.evaluate_step(*axis, test, predicates, context, tally)
            }
            Expr::Descend => self.evaluate_step(
                Axis::DescendantOrSelf,
                &NodeTest::Node,
                &[],
                context,
                tally,
            ),
            Expr::Filter(inner, predicates) => {
                self.evaluate_filter(inner, predicates, context, tally)
            }
            Expr::Path(start, steps) => { self.evaluate_path(start, steps, context, tally) }
        }
    }

    /// An expression as an operand: what it lends, or its value.
    #[cycle(evaluate)]
    pub(crate) fn operand<'e, T: Tally>(
        &self,
        expr: &'e Expr,
        context: &Context<'e>,
        tally: &mut T,
    ) -> Result<Operand<'e>, Halt>
        requires context { IsContext (K.tables self.now.keys.now) context.now }
        ensures reported { IsStep (limited self.now.site
            (run_of (K.tables self.now.keys.now) expr.now context.now)
            (T.state tally.old)) result (T.state tally.new) }
        ensures kept { T.kept tally.new ≡ T.kept tally.old }
        ensures inside { IfOk result (IsIn context.now.tree) }
    {
        match lend(expr, context) {
            Some(lent) => Ok(lent),
            None => {
                let v = self.evaluate(expr, context, tally)?;
                Ok(Operand::own(v))
            }
        }
    }

    // A call: its tick, its arguments from left to right, and then its function (XPath 1.0, 3.2).
    #[cycle(evaluate)]
    fn evaluate_call<'e, T: Tally>(
        &self,
        function: Function,
        arguments: &'e [Expr],
        context: &Context<'e>,
        tally: &mut T,
    ) -> Result<Value, Halt>
        requires context { IsContext (K.tables self.now.keys.now) context.now }
        ensures reported { IsStep (limited self.now.site
            (called_of (K.tables self.now.keys.now) function
            (runs_of (K.tables self.now.keys.now) arguments.now) context.now)
            (T.state tally.old)) result (T.state tally.new) }
        ensures kept { T.kept tally.new ≡ T.kept tally.old }
        ensures inside { IfOk result (IsIn context.now.tree) }
    {
        tally.tick(self.site)?;
        let mut values = Vec::new(self.alloc);
        for argument in arguments {
            let v = self.operand(argument, context, tally)?;
            values.push(v)?;
        }
        self.answer(function, &values, context, tally)
    }

    // Minus signs before an operand (XPath 1.0, 3.5).
    #[cycle(evaluate)]
    fn evaluate_negative<'e, T: Tally>(
        &self,
        signs: usize,
        inner: &'e Expr,
        context: &Context<'e>,
        tally: &mut T,
    ) -> Result<Value, Halt>
        requires context { IsContext (K.tables self.now.keys.now) context.now }
        ensures reported { IsStep (limited self.now.site
            (negative signs (run_of (K.tables self.now.keys.now) inner.now) context.now)
            (T.state tally.old)) result (T.state tally.new) }
        ensures kept { T.kept tally.new ≡ T.kept tally.old }
        ensures inside { IfOk result (IsIn context.now.tree) }
    {
        let v = self.operand(inner, context, tally)?;
        let negated = negate(self.alloc, signs, context.tree, &v);
        drop(v);
        or_halt(negated, self.site)
    }
}
