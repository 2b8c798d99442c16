//! What sort keys ask for (XSLT 1.0, 10): their data types and orders, evaluated once at the
//! instruction.

ghost use Rattle.std.specs.Prelude.{◌≡◌, length, IfOk, codes};
ghost use Rattle.std.specs.Str.{bytes_eq};
ghost use Rattle.xs_eval_spec.specs.Conditions.{IsContext};
ghost use Rattle.xs_sort.specs.Sorting.{direction_in, order_of, orders_of, template_text};
ghost use Rattle.xs_sort.specs.Given.{IsGiven};
ghost use Rattle.xs_trace.specs.Play.{IsStep, IsStepBy};
ghost use Rattle.xs_trace.specs.Run.{limited};

use crate::sorter::Sorter;
use xs_eval_spec::context::Context;
use xs_eval_spec::expressions::ExprEvaluator;
use xs_sheet::body::SortDecl;
use xs_sheet::scoped::ValueTemplate;
use xs_sort_order::keys::Direction;
use xs_text::TextBuf;
use xs_trace::fault::Fault;
use xs_trace::item::Site;
use xs_trace::recorder::{Halt, Tally};

/// How the values of a key are compared.
#[derive(Clone, Copy, Debug)]
pub struct Order {
    /// Whether they are numbers; else they are texts.
    pub is_numeric: bool,
    /// In which direction they go.
    pub direction: Direction,
}

impl<K: ExprEvaluator> Sorter<'_, K> {
    /// The orders of sort keys: of each its data type and its order, which is tested at once.
    pub(crate) fn orders_of<T: Tally>(
        &self,
        sorts: &[SortDecl],
        context: &Context<'_>,
        tally: &mut T,
    ) -> Result<Vec<Order>, Halt>
        requires context { IsContext (K.tables self.now.keys.now) context.now }
        ensures reported { IsStepBy (λ v. v.items) (limited self.now.site
            (orders_of (K.tables self.now.keys.now) context.now sorts.now)
            (T.state tally.old)) result (T.state tally.new) }
        ensures kept { T.kept tally.new ≡ T.kept tally.old }
        ensures long { IfOk result (λ v. length v.items ≡ length sorts.now) }
    {
        let mut orders = Vec::new(self.alloc);
        for decl in sorts {
            let order = self.order_of(decl, context, tally)?;
            orders.push(order)?;
        }
        Ok(orders)
    }

    // The order of a sort key.
    fn order_of<T: Tally>(
        &self,
        decl: &SortDecl,
        context: &Context<'_>,
        tally: &mut T,
    ) -> Result<Order, Halt>
        requires context { IsContext (K.tables self.now.keys.now) context.now }
        ensures reported { IsStep (limited self.now.site
            (order_of (K.tables self.now.keys.now) context.now decl.now)
            (T.state tally.old)) result (T.state tally.new) }
        ensures kept { T.kept tally.new ≡ T.kept tally.old }
    {
        let kind = self.template_text(&decl.data_type, "text", context, tally)?;
        let order = self.template_text(&decl.order, "ascending", context, tally)?;
        let direction = direction_of(&order, self.site)?;
        let is_numeric = is_number(&kind);
        Ok(Order {
            is_numeric,
            direction,
        })
    }

    // The text of a value template; where it is absent, that of the default.
    fn template_text<T: Tally>(
        &self,
        template: &Option<ValueTemplate>,
        absent: &str,
        context: &Context<'_>,
        tally: &mut T,
    ) -> Result<TextBuf, Halt>
        requires context { IsContext (K.tables self.now.keys.now) context.now }
        ensures reported { IsStep (limited self.now.site
            (template_text (K.tables self.now.keys.now) context.now absent.now template.now)
            (T.state tally.old)) result (T.state tally.new) }
        ensures kept { T.kept tally.new ≡ T.kept tally.old }
    {
        match template {
            None => Ok(TextBuf::of(self.alloc, absent)?),
            Some(template) => {
                let around = Context {
                    scope: template.scope.scope(),
                    ..*context
                };
                let parts = template.parts.as_slice();
                self.keys
                    .evaluate_avt(self.alloc, parts, &around, self.site, tally)
            }
        }
    }
}

// Whether a data type is that of numbers.
fn is_number(kind: &TextBuf) -> bool
    ensures { result ≡ bytes_eq kind.now (codes "number") }
{
    kind.as_str() == "number"
}

// The direction of an order; any other text is a fault.
fn direction_of(order: &TextBuf, site: Site) -> Result<Direction, Halt>
    ensures { IsGiven site (direction_in order.now) result }
{
    direction_in(order.as_str(), site)
}

// The direction that an order's text names; any other text is a fault.
fn direction_in(order: &str, site: Site) -> Result<Direction, Halt>
    ensures { IsGiven site (direction_in order.now) result }
{
    if order == "ascending" {
        return Ok(Direction::Ascending);
    }
    if order == "descending" {
        return Ok(Direction::Descending);
    }
    Err(Halt::Fault(Fault::BadValue, site))
}
