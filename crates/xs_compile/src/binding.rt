//! References to variables, bound to the slots that are visible where they stand.

ghost use Rattle.std.specs.Prelude.{◌≡◌, map};
ghost use Rattle.xs_compile.specs.Parsed.{bound_part};
ghost use Rattle.xs_compile.specs.Slots.{slot_at};
ghost use Rattle.xs_compile.specs.steps.State.{IsReady, modules_of};
ghost use Rattle.xs_xpath.specs.AvtParts.{part_from, parts_from};
ghost use Rattle.xs_xpath.specs.Binding.{bound, bounds};
ghost use Rattle.xs_xpath.specs.Exprs.{tree_from, trees_from};
ghost use Rattle.xs_xpath.specs.Tree.{trees};

use crate::compiler::Compiler;
use xs_tree::Node;
use xs_xpath::avt::AvtPart;
use xs_xpath::expr::Expr;

impl<'m> Compiler<'m> {
    /// Binds the references in expressions.
    #[cycle(binding)]
    fn bind_all(&self, es: &mut Vec<Expr>, number: u32, n: Node)
        requires ready { IsReady self.now («number», n) }
        ensures { trees (trees_from es.new.items)
            ≡ bounds (slot_at (modules_of self.now) («number», n))
            (trees (trees_from es.old.items)) }
    {
        for i in 0..es.len() {
            self.bind(&mut es[i], number, n);
        }
    }

    /// Binds the references in an expression that stands in a box.
    #[cycle(binding)]
    fn bind_boxed(&self, e: &mut Box<Expr>, number: u32, n: Node)
        requires ready { IsReady self.now («number», n) }
        ensures { tree_from e.new.value
            ≡ bound (slot_at (modules_of self.now) («number», n)) (tree_from e.old.value) }
    {
        self.bind(e, number, n);
    }

    /// Binds the references in an expression.
    #[cycle(binding)]
    pub(crate) fn bind(&self, e: &mut Expr, number: u32, n: Node)
        requires ready { IsReady self.now («number», n) }
        ensures { tree_from e.new
            ≡ bound (slot_at (modules_of self.now) («number», n)) (tree_from e.old) }
    {
        match e {
            Expr::Variable(uri, local, slot) => {
                *slot = self.slot_at(number, n, uri.as_str(), local.as_str());
            }
            Expr::Call(_, es) => self.bind_all(es, number, n),
            Expr::Negative(_, e) => self.bind_boxed(e, number, n),
            Expr::Chain(_, es) => self.bind_all(es, number, n),
            Expr::Group(e) => self.bind_boxed(e, number, n),
            Expr::Step(_, _, es) => self.bind_all(es, number, n),
            Expr::Filter(e, es) => {
                self.bind_boxed(e, number, n);
                self.bind_all(es, number, n);
            }
            Expr::Path(e, es) => {
                self.bind_boxed(e, number, n);
                self.bind_all(es, number, n);
            }
            Expr::Number(_) | Expr::Literal(_) | Expr::Here | Expr::Root | Expr::Descend => {}
        }
    }

    /// Binds the references in a part of a value template.
    fn bind_part(&self, piece: &mut AvtPart, number: u32, n: Node)
        requires ready { IsReady self.now («number», n) }
        ensures { part_from piece.new
            ≡ bound_part (slot_at (modules_of self.now) («number», n)) (part_from piece.old) }
    {
        match piece {
            AvtPart::Fixed(_) => {}
            AvtPart::Computed(e) => self.bind(e, number, n),
        }
    }

    /// Binds the references in the parts of a value template.
    pub(crate) fn bind_parts(&self, parts: &mut Vec<AvtPart>, number: u32, n: Node)
        requires ready { IsReady self.now («number», n) }
        ensures { parts_from parts.new.items
            ≡ map (bound_part (slot_at (modules_of self.now) («number», n)))
            (parts_from parts.old.items) }
    {
        for i in 0..parts.len() {
            self.bind_part(&mut parts[i], number, n);
        }
    }
}
