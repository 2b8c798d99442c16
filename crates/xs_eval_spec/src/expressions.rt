//! What evaluates expressions and value templates.

ghost use Rattle.std.specs.Prelude.{◌≡◌, IfOk};
ghost use Rattle.std.specs.Cow.{cow_str_bytes};
ghost use Rattle.xs_eval_spec.specs.Conditions.{IsContext};
ghost use Rattle.xs_eval_spec.specs.Evaluation.{run_of};
ghost use Rattle.xs_eval_spec.specs.Templates.{template};
ghost use Rattle.xs_trace.specs.Play.{IsStep, IsStepBy};
ghost use Rattle.xs_trace.specs.Run.{limited};
ghost use Rattle.xs_value.specs.Conversion.{IsIn};
ghost use Rattle.xs_xpath.specs.AvtParts.{parts_from};

use crate::context::Context;
use std::alloc::Global;
use std::borrow::CowStr;
use xs_text::TextBuf;
use xs_trace::item::Site;
use xs_trace::recorder::{Halt, Tally};
use xs_value::keys::KeyFinder;
use xs_value::value::Value;
use xs_xpath::avt::AvtPart;
use xs_xpath::expr::Expr;

/// Evaluates expressions, over the tables of its keys. Each tick is reported to a tally, which may
/// end the evaluation.
///
/// What evaluates expressions is given to what runs a stylesheet, so that neither crate stands on
/// the other.
pub trait ExprEvaluator: KeyFinder {
    /// The value of an expression in a context, at an instruction (XPath 1.0, 2 and 3).
    fn evaluate<T: Tally>(
        &self,
        alloc: Global,
        expr: &Expr,
        context: &Context<'_>,
        site: Site,
        tally: &mut T,
    ) -> Result<Value, Halt>
        requires context { IsContext (Self.tables self.now) context.now }
        ensures reported { IsStep (limited site
            (run_of (Self.tables self.now) expr.now context.now)
            (T.state tally.old)) result (T.state tally.new) }
        ensures kept { T.kept tally.new ≡ T.kept tally.old }
        ensures inside { IfOk result (IsIn context.now.tree) };

    /// The text of a value template, in memory of its own (XSLT 1.0, 7.6.2).
    fn evaluate_avt<T: Tally>(
        &self,
        alloc: Global,
        parts: &[AvtPart],
        context: &Context<'_>,
        site: Site,
        tally: &mut T,
    ) -> Result<TextBuf, Halt>
        requires context { IsContext (Self.tables self.now) context.now }
        ensures reported { IsStepBy (λ text. text) (limited site
            (template (Self.tables self.now) (parts_from parts.now) context.now)
            (T.state tally.old)) result (T.state tally.new) }
        ensures kept { T.kept tally.new ≡ T.kept tally.old };

    /// The same; fixed text alone is lent.
    fn lend_avt<'t, T: Tally>(
        &self,
        alloc: Global,
        parts: &'t [AvtPart],
        context: &Context<'_>,
        site: Site,
        tally: &mut T,
    ) -> Result<CowStr<'t, Global>, Halt>
        requires context { IsContext (Self.tables self.now) context.now }
        ensures reported { IsStepBy (λ text. cow_str_bytes text) (limited site
            (template (Self.tables self.now) (parts_from parts.now) context.now)
            (T.state tally.old)) result (T.state tally.new) }
        ensures kept { T.kept tally.new ≡ T.kept tally.old };
}
