//! The attributes of an element, read in its scope.

ghost use Rattle.std.specs.Prelude.{◌≡◌, true, Some, IfOk, IsOk};
ghost use Rattle.std.specs.Arc.{arc_value};
ghost use Rattle.xs_compile.specs.Bodies.{AreSets};
ghost use Rattle.xs_compile.specs.Labels.{label_at, label_in, labels_in};
ghost use Rattle.xs_compile.specs.Parsed.{Both, IsExpr, IsPattern, IsScope, IsValueTemplate};
ghost use Rattle.xs_structure.specs.Parts.{pairs_at, tag_at, said_at, value_at};
ghost use Rattle.xs_compile.specs.steps.Tags.{has_name, needs, takes_expression, takes_pattern};
ghost use Rattle.xs_compile.specs.steps.Tags.{takes_template};
ghost use Rattle.xs_compile.specs.steps.State.{IsReady, modules_of, source_of};
ghost use Rattle.xs_structure.specs.Places.{IsIn};
ghost use Rattle.xs_parser.specs.Faults.{expr_in, pattern_in};
ghost use Rattle.xs_parser.specs.Templates.{template_in};
ghost use Rattle.xs_xpath.specs.Names.{uri_of};

use crate::compiler::Compiler;
use crate::labels::{label_in, labels_in};
use crate::parsed;
use std::alloc::AllocError;
use std::sync::Arc;
use xs_sheet::scoped::{
    Namespaces, ParsedExpr, ParsedPattern, Parts, ScopedExpr, ScopedPattern, ValueTemplate,
};
use xs_structure::places::{said_at, value_at};
use xs_trace::event::Label;
use xs_tree::Node;
use xs_xpath::scope::Scope;

impl<'m> Compiler<'m> {
    /// An expression.
    pub(crate) fn expr(
        &self,
        number: u32,
        n: Node,
        scope: &Arc<Scope>,
        text: &str,
    ) -> Result<ScopedExpr, AllocError>
        requires ready { IsReady self.now («number», n) }
        requires scope { IsScope (modules_of self.now) («number», n) (arc_value scope.now) }
        requires valid { IsOk (expr_in (pairs_at (modules_of self.now) («number», n)) text.now) }
        ensures { IfOk result (IsExpr (modules_of self.now) («number», n) text.now) }
    {
        let kept = Arc::try_clone(scope)?;
        let mut expr = parsed::expr(self.alloc, text, scope)?;
        self.bind(&mut expr, number, n);
        Ok(ScopedExpr {
            expr: ParsedExpr::of(expr),
            scope: Namespaces::of(kept),
        })
    }

    /// The expression in an attribute that has to be there.
    pub(crate) fn expr_of(
        &self,
        number: u32,
        n: Node,
        scope: &Arc<Scope>,
        local: &str,
    ) -> Result<ScopedExpr, AllocError>
        requires ready { IsReady self.now («number», n) }
        requires scope { IsScope (modules_of self.now) («number», n) (arc_value scope.now) }
        requires form { takes_expression (tag_at (modules_of self.now) («number», n)) local.now
            ≡ true }
        requires needed { needs (tag_at (modules_of self.now) («number», n)) local.now ≡ true }
        ensures { IfOk result (IsExpr (modules_of self.now) («number», n)
            (said_at (modules_of self.now) («number», n) local.now)) }
    {
        let text = said_at(self.modules, number, n, local);
        self.expr(number, n, scope, text)
    }

    /// The expression in an attribute, if it is there.
    pub(crate) fn expr_if(
        &self,
        number: u32,
        n: Node,
        scope: &Arc<Scope>,
        local: &str,
    ) -> Result<Option<ScopedExpr>, AllocError>
        requires ready { IsReady self.now («number», n) }
        requires scope { IsScope (modules_of self.now) («number», n) (arc_value scope.now) }
        requires form { takes_expression (tag_at (modules_of self.now) («number», n)) local.now
            ≡ true }
        ensures { IfOk result (Both (IsExpr (modules_of self.now) («number», n))
            (value_at (modules_of self.now) («number», n) local.now)) }
    {
        match value_at(self.modules, number, n, local) {
            Some(text) => Ok(Some(self.expr(number, n, scope, text)?)),
            None => Ok(None),
        }
    }

    /// A pattern.
    pub(crate) fn pattern(
        &self,
        number: u32,
        n: Node,
        scope: &Arc<Scope>,
        text: &str,
    ) -> Result<ScopedPattern, AllocError>
        requires ready { IsReady self.now («number», n) }
        requires scope { IsScope (modules_of self.now) («number», n) (arc_value scope.now) }
        requires valid { IsOk (pattern_in (pairs_at (modules_of self.now) («number», n)) text.now) }
        ensures { IfOk result (IsPattern (modules_of self.now) («number», n) text.now) }
    {
        let pattern = parsed::pattern(self.alloc, text, scope)?;
        let scope = Arc::try_clone(scope)?;
        Ok(ScopedPattern {
            pattern: ParsedPattern::of(pattern),
            scope: Namespaces::of(scope),
        })
    }

    /// The pattern in an attribute that has to be there.
    pub(crate) fn pattern_of(
        &self,
        number: u32,
        n: Node,
        scope: &Arc<Scope>,
        local: &str,
    ) -> Result<ScopedPattern, AllocError>
        requires ready { IsReady self.now («number», n) }
        requires scope { IsScope (modules_of self.now) («number», n) (arc_value scope.now) }
        requires form { takes_pattern (tag_at (modules_of self.now) («number», n)) local.now
            ≡ true }
        requires needed { needs (tag_at (modules_of self.now) («number», n)) local.now ≡ true }
        ensures { IfOk result (IsPattern (modules_of self.now) («number», n)
            (said_at (modules_of self.now) («number», n) local.now)) }
    {
        let text = said_at(self.modules, number, n, local);
        self.pattern(number, n, scope, text)
    }

    /// The pattern in an attribute, if it is there.
    pub(crate) fn pattern_if(
        &self,
        number: u32,
        n: Node,
        scope: &Arc<Scope>,
        local: &str,
    ) -> Result<Option<ScopedPattern>, AllocError>
        requires ready { IsReady self.now («number», n) }
        requires scope { IsScope (modules_of self.now) («number», n) (arc_value scope.now) }
        requires form { takes_pattern (tag_at (modules_of self.now) («number», n)) local.now
            ≡ true }
        ensures { IfOk result (Both (IsPattern (modules_of self.now) («number», n))
            (value_at (modules_of self.now) («number», n) local.now)) }
    {
        match value_at(self.modules, number, n, local) {
            Some(text) => Ok(Some(self.pattern(number, n, scope, text)?)),
            None => Ok(None),
        }
    }

    /// A value template.
    pub(crate) fn template(
        &self,
        number: u32,
        n: Node,
        scope: &Arc<Scope>,
        text: &str,
    ) -> Result<ValueTemplate, AllocError>
        requires ready { IsReady self.now («number», n) }
        requires scope { IsScope (modules_of self.now) («number», n) (arc_value scope.now) }
        requires valid { IsOk (template_in (pairs_at (modules_of self.now) («number», n))
            text.now) }
        ensures { IfOk result (IsValueTemplate (modules_of self.now) («number», n) text.now) }
    {
        let mut parts = parsed::template(self.alloc, text, scope)?;
        self.bind_parts(&mut parts, number, n);
        let scope = Arc::try_clone(scope)?;
        Ok(ValueTemplate {
            parts: Parts::of(parts),
            scope: Namespaces::of(scope),
        })
    }

    /// The value template in an attribute that has to be there.
    pub(crate) fn template_of(
        &self,
        number: u32,
        n: Node,
        scope: &Arc<Scope>,
        local: &str,
    ) -> Result<ValueTemplate, AllocError>
        requires ready { IsReady self.now («number», n) }
        requires scope { IsScope (modules_of self.now) («number», n) (arc_value scope.now) }
        requires form { takes_template (tag_at (modules_of self.now) («number», n)) local.now
            ≡ true }
        requires needed { needs (tag_at (modules_of self.now) («number», n)) local.now ≡ true }
        ensures { IfOk result (IsValueTemplate (modules_of self.now) («number», n)
            (said_at (modules_of self.now) («number», n) local.now)) }
    {
        let text = said_at(self.modules, number, n, local);
        self.template(number, n, scope, text)
    }

    /// The value template in an attribute, if it is there.
    pub(crate) fn template_if(
        &self,
        number: u32,
        n: Node,
        scope: &Arc<Scope>,
        local: &str,
    ) -> Result<Option<ValueTemplate>, AllocError>
        requires ready { IsReady self.now («number», n) }
        requires scope { IsScope (modules_of self.now) («number», n) (arc_value scope.now) }
        requires form { takes_template (tag_at (modules_of self.now) («number», n)) local.now
            ≡ true }
        ensures { IfOk result (Both (IsValueTemplate (modules_of self.now) («number», n))
            (value_at (modules_of self.now) («number», n) local.now)) }
    {
        match value_at(self.modules, number, n, local) {
            Some(text) => Ok(Some(self.template(number, n, scope, text)?)),
            None => Ok(None),
        }
    }

    /// The name in the attribute `name`, if it is there.
    pub(crate) fn name_if(
        &self,
        number: u32,
        n: Node,
        scope: &Arc<Scope>,
    ) -> Result<Option<Label>, AllocError>
        requires at { IsIn (modules_of self.now) («number», n) }
        requires scope { IsScope (modules_of self.now) («number», n) (arc_value scope.now) }
        ensures { IfOk result (λ name. name ≡ label_at (modules_of self.now) («number», n)) }
    {
        match value_at(self.modules, number, n, "name") {
            Some(text) => label_in(self.alloc, scope, text),
            None => Ok(None),
        }
    }

    /// The name in the attribute `name`, which has to be there.
    pub(crate) fn name(&self, number: u32, n: Node, scope: &Arc<Scope>) -> Result<Label, AllocError>
        requires ready { IsReady self.now («number», n) }
        requires scope { IsScope (modules_of self.now) («number», n) (arc_value scope.now) }
        requires named { has_name (tag_at (modules_of self.now) («number», n)) ≡ true }
        ensures { IfOk result (λ name. label_at (modules_of self.now) («number», n) ≡ Some name) }
    {
        match self.name_if(number, n, scope)? {
            Some(name) => Ok(name),
            None => unreachable!(),
        }
    }

    /// The names of the attribute sets that an instruction of XSLT uses (7.1.4).
    pub(crate) fn sets_of(
        &self,
        number: u32,
        n: Node,
        scope: &Arc<Scope>,
    ) -> Result<Vec<Label>, AllocError>
        requires at { IsIn (modules_of self.now) («number», n) }
        requires scope { IsScope (modules_of self.now) («number», n) (arc_value scope.now) }
        ensures { IfOk result (λ sets. AreSets (source_of self.now) («number», n) sets.items) }
    {
        match value_at(self.modules, number, n, "use-attribute-sets") {
            Some(text) => labels_in(self.alloc, scope, text),
            None => Ok(Vec::new(self.alloc)),
        }
    }
}
