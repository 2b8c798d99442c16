//! The attributes of elements that need their scope for one of them alone.

ghost use Rattle.std.specs.Prelude.{◌≡◌, true, Some, IfOk};
ghost use Rattle.xs_compile.specs.Bodies.{AreSets, IsExprIf, IsExprOf, IsTemplateOf};
ghost use Rattle.xs_compile.specs.Labels.{label_at};
ghost use Rattle.xs_structure.specs.Parts.{tag_at};
ghost use Rattle.xs_compile.specs.steps.Tags.{has_name, needs, takes_expression, takes_template};
ghost use Rattle.xs_compile.specs.steps.State.{IsReady, modules_of, source_of};

use crate::compiler::Compiler;
use std::alloc::AllocError;
use xs_sheet::scoped::{ScopedExpr, ValueTemplate};
use xs_trace::event::Label;
use xs_tree::Node;

impl<'m> Compiler<'m> {
    /// The expression in an attribute that has to be there.
    pub(crate) fn own_expr(
        &self,
        number: u32,
        n: Node,
        local: &str,
    ) -> Result<ScopedExpr, AllocError>
        requires ready { IsReady self.now («number», n) }
        requires form { takes_expression (tag_at (modules_of self.now) («number», n)) local.now
            ≡ true }
        requires needed { needs (tag_at (modules_of self.now) («number», n)) local.now ≡ true }
        ensures { IfOk result (IsExprOf (source_of self.now) («number», n) local.now) }
    {
        let scope = self.scope(number, n)?;
        self.expr_of(number, n, &scope, local)
    }

    /// The expression in an attribute, if it is there.
    pub(crate) fn own_expr_if(
        &self,
        number: u32,
        n: Node,
        local: &str,
    ) -> Result<Option<ScopedExpr>, AllocError>
        requires ready { IsReady self.now («number», n) }
        requires form { takes_expression (tag_at (modules_of self.now) («number», n)) local.now
            ≡ true }
        ensures { IfOk result (IsExprIf (source_of self.now) («number», n) local.now) }
    {
        let scope = self.scope(number, n)?;
        self.expr_if(number, n, &scope, local)
    }

    /// The value template in an attribute that has to be there.
    pub(crate) fn own_template(
        &self,
        number: u32,
        n: Node,
        local: &str,
    ) -> Result<ValueTemplate, AllocError>
        requires ready { IsReady self.now («number», n) }
        requires form { takes_template (tag_at (modules_of self.now) («number», n)) local.now
            ≡ true }
        requires needed { needs (tag_at (modules_of self.now) («number», n)) local.now ≡ true }
        ensures { IfOk result (IsTemplateOf (source_of self.now) («number», n) local.now) }
    {
        let scope = self.scope(number, n)?;
        self.template_of(number, n, &scope, local)
    }

    /// The name in the attribute `name`, which has to be there.
    pub(crate) fn own_name(&self, number: u32, n: Node) -> Result<Label, AllocError>
        requires ready { IsReady self.now («number», n) }
        requires named { has_name (tag_at (modules_of self.now) («number», n)) ≡ true }
        ensures { IfOk result (λ name. label_at (modules_of self.now) («number», n) ≡ Some name) }
    {
        let scope = self.scope(number, n)?;
        self.name(number, n, &scope)
    }

    /// The names of the attribute sets that an instruction of XSLT uses (XSLT 1.0, 7.1.4).
    pub(crate) fn own_sets(&self, number: u32, n: Node) -> Result<Vec<Label>, AllocError>
        requires ready { IsReady self.now («number», n) }
        ensures { IfOk result (λ sets. AreSets (source_of self.now) («number», n) sets.items) }
    {
        let scope = self.scope(number, n)?;
        self.sets_of(number, n, &scope)
    }
}
