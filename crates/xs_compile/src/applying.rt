//! Instructions that hold no body, and the parts of others that hold none: nodes and sort keys.

ghost use Rattle.std.specs.Prelude.{◌≡◌, true, codes, IfOk};
ghost use Rattle.std.specs.Arc.{arc_value};
ghost use Rattle.std.specs.Option.{unwrap_or};
ghost use Rattle.xs_compile.specs.Bodies.{AreSorts, IsApplied, IsKind, IsNumber, IsTag, IsSort};
ghost use Rattle.xs_compile.specs.Bodies.{is_text_or_element, level_named};
ghost use Rattle.xs_compile.specs.Parsed.{IsExpr, IsScope};
ghost use Rattle.xs_structure.specs.Parts.{reading_at, tag_at, value_at};
ghost use Rattle.xs_compile.specs.steps.State.{IsReady, modules_of, source_of};
ghost use Rattle.xs_elements.specs.declared.reading.Reading.TheVariants.{Known};

use crate::compiler::Compiler;
use crate::parts::Part;
use std::alloc::AllocError;
use std::sync::Arc;
use xs_elements::tags::Tag;
use xs_sheet::body::{Applied, InstrKind, Level, NumberDecl, SortDecl};
use xs_sheet::items::Items;
use xs_sheet::scoped::ScopedExpr;
use xs_structure::places::{said_at, text_at, value_at};
use xs_tree::Node;
use xs_xpath::scope::Scope;

/// The level of a number; without one it is `single` (XSLT 1.0, 7.7).
fn level_named(value: &str) -> Level
    ensures { result ≡ level_named value.now }
{
    if value == "multiple" {
        Level::Multiple
    } else if value == "any" {
        Level::Any
    } else {
        Level::Single
    }
}

impl<'m> Compiler<'m> {
    /// The nodes to which templates are applied, and the mode (5.4).
    pub(crate) fn nodes(&self, number: u32, n: Node) -> Result<Applied, AllocError>
        requires ready { IsReady self.now («number», n) }
        requires tag { IsTag (source_of self.now) («number», n) Tag.ApplyTemplates }
        ensures { IfOk result (IsApplied (source_of self.now) («number», n)) }
    {
        Ok(Applied {
            mode: self.mode(number, n)?,
            sorts: Items::of(self.sorts(number, n)?),
            select: self.own_expr_if(number, n, "select")?,
        })
    }

    /// The sort keys of an instruction (10).
    pub(crate) fn sorts(&self, number: u32, n: Node) -> Result<Vec<SortDecl>, AllocError>
        requires ready { IsReady self.now («number», n) }
        requires known { reading_at (modules_of self.now) («number», n) ≡ Known }
        ensures { IfOk result (λ sorts. AreSorts (source_of self.now) («number», n) sorts.items) }
    {
        let places = self.parts(number, n, Part::Sort)?;
        let mut sorts = Vec::new(self.alloc);
        for place in &places {
            let sort = self.sort(place.0, place.1)?;
            sorts.push(sort)?;
        }
        Ok(sorts)
    }

    /// One of them.
    fn sort(&self, number: u32, n: Node) -> Result<SortDecl, AllocError>
        requires ready { IsReady self.now («number», n) }
        requires tag { IsTag (source_of self.now) («number», n) Tag.Sort }
        ensures { IfOk result (IsSort (source_of self.now) («number», n)) }
    {
        let scope = self.scope(number, n)?;
        Ok(SortDecl {
            data_type: self.template_if(number, n, &scope, "data-type")?,
            order: self.template_if(number, n, &scope, "order")?,
            select: self.sort_select(number, n, &scope)?,
        })
    }

    /// What a sort key is; without `select` it is the string value of the node.
    fn sort_select(
        &self,
        number: u32,
        n: Node,
        scope: &Arc<Scope>,
    ) -> Result<ScopedExpr, AllocError>
        requires ready { IsReady self.now («number», n) }
        requires scope { IsScope (modules_of self.now) («number», n) (arc_value scope.now) }
        requires tag { IsTag (source_of self.now) («number», n) Tag.Sort }
        ensures { IfOk result (IsExpr (modules_of self.now) («number», n)
            (unwrap_or (value_at (modules_of self.now) («number», n) (codes "select"))
            (codes "."))) }
    {
        match value_at(self.modules, number, n, "select") {
            Some(text) => self.expr(number, n, scope, text),
            None => self.expr(number, n, scope, "."),
        }
    }

    /// A number that is put (7.7).
    pub(crate) fn number(&self, number: u32, n: Node) -> Result<NumberDecl, AllocError>
        requires ready { IsReady self.now («number», n) }
        requires tag { IsTag (source_of self.now) («number», n) Tag.Number }
        ensures { IfOk result (IsNumber (source_of self.now) («number», n)) }
    {
        let scope = self.scope(number, n)?;
        Ok(NumberDecl {
            level: level_named(said_at(self.modules, number, n, "level")),
            count: self.pattern_if(number, n, &scope, "count")?,
            from: self.pattern_if(number, n, &scope, "from")?,
            format: self.template_if(number, n, &scope, "format")?,
            grouping_separator: self.template_if(number, n, &scope, "grouping-separator")?,
            grouping_size: self.template_if(number, n, &scope, "grouping-size")?,
            value: self.expr_if(number, n, &scope, "value")?,
        })
    }

    /// A text, or an `xsl:text` (7.2).
    pub(crate) fn text(&self, number: u32, n: Node) -> Result<InstrKind, AllocError>
        requires ready { IsReady self.now («number», n) }
        requires tag { is_text_or_element (tag_at (modules_of self.now) («number», n)) ≡ true }
        ensures { IfOk result (IsKind (source_of self.now) («number», n)) }
    {
        let text = text_at(self.alloc, self.modules, number, n)?;
        Ok(InstrKind::Text(text))
    }

    /// The string value of an expression (7.6.1).
    pub(crate) fn value_of(&self, number: u32, n: Node) -> Result<InstrKind, AllocError>
        requires ready { IsReady self.now («number», n) }
        requires tag { IsTag (source_of self.now) («number», n) Tag.ValueOf }
        ensures { IfOk result (IsKind (source_of self.now) («number», n)) }
    {
        Ok(InstrKind::ValueOf(self.own_expr(number, n, "select")?))
    }

    /// A copy of the value of an expression (11.3).
    pub(crate) fn copy_of(&self, number: u32, n: Node) -> Result<InstrKind, AllocError>
        requires ready { IsReady self.now («number», n) }
        requires tag { IsTag (source_of self.now) («number», n) Tag.CopyOf }
        ensures { IfOk result (IsKind (source_of self.now) («number», n)) }
    {
        Ok(InstrKind::CopyOf(self.own_expr(number, n, "select")?))
    }

    /// A number (7.7).
    #[inline(never)]
    pub(crate) fn numbered(&self, number: u32, n: Node) -> Result<InstrKind, AllocError>
        requires ready { IsReady self.now («number», n) }
        requires tag { IsTag (source_of self.now) («number», n) Tag.Number }
        ensures { IfOk result (IsKind (source_of self.now) («number», n)) }
    {
        Ok(InstrKind::Number(self.number(number, n)?))
    }
}
