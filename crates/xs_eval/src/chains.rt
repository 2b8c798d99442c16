//! Operands that operators join (XPath 1.0, 3.3 to 3.5).

ghost use Rattle.std.specs.Prelude.{◌≡◌, IfOk};
ghost use Rattle.xs_trace.specs.Play.{IsStep};
ghost use Rattle.xs_trace.specs.Run.{limited};
ghost use Rattle.xs_value.specs.Conversion.{IsIn};
ghost use Rattle.xs_eval_spec.specs.Conditions.{IsContext};
ghost use Rattle.xs_eval_spec.specs.Evaluation.{chain, joined, joined_from, right_operated};
ghost use Rattle.xs_eval_spec.specs.Evaluation.{run_of, runs_of};

use crate::evaluator::Evaluator;
use crate::operand::Operand;
use crate::operators::{decided, operate};
use crate::steps::{is_union_of_steps, unite_steps};
use xs_eval_spec::context::Context;
use xs_eval_spec::trouble::or_halt;
use xs_text::TextBuf;
use xs_trace::recorder::{Halt, Tally};
use xs_value::keys::KeyFinder;
use xs_value::value::Value;
use xs_xpath::expr::Expr;
use xs_xpath::token::Operator;

impl<K: KeyFinder> Evaluator<'_, K> {
    /// Operands that operators of one level join, to the left (XPath 1.0, 3.3 to 3.5).
    #[cycle(evaluate)]
    pub(crate) fn evaluate_chain<'e, T: Tally>(
        &self,
        operators: &[Operator],
        operands: &'e [Expr],
        context: &Context<'e>,
        tally: &mut T,
    ) -> Result<Value, Halt>
        requires context { IsContext (K.tables self.now.keys.now) context.now }
        ensures reported { IsStep (limited self.now.site
            (chain operators.now (runs_of (K.tables self.now.keys.now) operands.now) context.now)
            (T.state tally.old)) result (T.state tally.new) }
        ensures kept { T.kept tally.new ≡ T.kept tally.old }
        ensures inside { IfOk result (IsIn context.now.tree) }
    {
        if is_union_of_steps(operators, operands) {
            return unite_steps(self.alloc, operands, context, self.site, tally);
        }
        match operands {
            [] => Ok(Value::Chars(TextBuf::of(self.alloc, "")?)),
            [first, rest @ ..] => {
                let left = self.operand(first, context, tally)?;
                self.join_all(left, operators, rest, context, tally)
            }
        }
    }

    // A left operand, joined with each operand after it.
    #[cycle(evaluate)]
    fn join_all<'e, T: Tally>(
        &self,
        left: Operand<'e>,
        operators: &[Operator],
        operands: &'e [Expr],
        context: &Context<'e>,
        tally: &mut T,
    ) -> Result<Value, Halt>
        requires context { IsContext (K.tables self.now.keys.now) context.now }
        requires inside { IsIn context.now.tree left }
        ensures reported { IsStep (limited self.now.site
            (joined_from context.now left.entry operators.now
            (runs_of (K.tables self.now.keys.now) operands.now))
            (T.state tally.old)) result (T.state tally.new) }
        ensures kept { T.kept tally.new ≡ T.kept tally.old }
        ensures inside { IfOk result (IsIn context.now.tree) }
    {
        let mut left = left;
        let mut operators = operators;
        for right in operands {
            match operators {
                [] => return Ok(left.into_value(self.alloc)?),
                [operator, rest @ ..] => {
                    let v = self.join(*operator, left, right, context, tally)?;
                    left = Operand::own(v);
                    operators = rest;
                }
            }
        }
        Ok(left.into_value(self.alloc)?)
    }

    // Two operands joined. Where the left one decides `or` or `and`, the right one is not evaluated
    // (XPath 1.0, 3.4).
    #[cycle(evaluate)]
    fn join<'e, T: Tally>(
        &self,
        operator: Operator,
        left: Operand<'e>,
        right: &'e Expr,
        context: &Context<'e>,
        tally: &mut T,
    ) -> Result<Value, Halt>
        requires context { IsContext (K.tables self.now.keys.now) context.now }
        requires inside { IsIn context.now.tree left }
        ensures reported { IsStep (limited self.now.site
            (joined operator left.entry (run_of (K.tables self.now.keys.now) right.now) context.now)
            (T.state tally.old)) result (T.state tally.new) }
        ensures kept { T.kept tally.new ≡ T.kept tally.old }
        ensures inside { IfOk result (IsIn context.now.tree) }
    {
        match decided(operator, &left) {
            Some(holds) => {
                drop(left);
                Ok(Value::Bool(holds))
            }
            None => self.join_right(operator, left, right, context, tally),
        }
    }

    // The right operand, and then the operator on both.
    #[cycle(evaluate)]
    fn join_right<'e, T: Tally>(
        &self,
        operator: Operator,
        left: Operand<'e>,
        right: &'e Expr,
        context: &Context<'e>,
        tally: &mut T,
    ) -> Result<Value, Halt>
        requires context { IsContext (K.tables self.now.keys.now) context.now }
        requires inside { IsIn context.now.tree left }
        ensures reported { IsStep (limited self.now.site
            (right_operated operator left.entry
            (run_of (K.tables self.now.keys.now) right.now) context.now)
            (T.state tally.old)) result (T.state tally.new) }
        ensures kept { T.kept tally.new ≡ T.kept tally.old }
        ensures inside { IfOk result (IsIn context.now.tree) }
    {
        let v = self.operand(right, context, tally)?;
        let joined = operate(self.alloc, operator, context.tree, &left, &v);
        drop(left);
        drop(v);
        or_halt(joined, self.site)
    }
}
