//! Variables and parameters (XSLT 1.0, 11).

ghost use Rattle.std.specs.Prelude.{◌≡◌, false, true, IfOk};
ghost use Rattle.xs_compile.specs.Bodies.{IsContent, IsPassed, has_select};
ghost use Rattle.xs_compile.specs.Declarations.{IsBinding};
ghost use Rattle.xs_structure.specs.Parts.{children_with, reading_at, tag_at};
ghost use Rattle.xs_compile.specs.steps.Tags.{is_binding};
ghost use Rattle.xs_compile.specs.steps.State.{IsReady, modules_of, source_of};
ghost use Rattle.xs_elements.specs.declared.reading.Reading.TheVariants.{Known};
ghost use Rattle.xs_elements.specs.Contents.{is_with_param};

use crate::compiler::Compiler;
use crate::parts::Part;
use std::alloc::AllocError;
use xs_sheet::body::{Binding, Content, Passed};
use xs_sheet::items::Items;
use xs_structure::places::site_at;
use xs_tree::Node;

impl<'m> Compiler<'m> {
    /// The parameters that an instruction passes (11.6).
    #[cycle(bodies)]
    pub(crate) fn passed(&self, number: u32, n: Node) -> Result<Passed, AllocError>
        requires ready { IsReady self.now («number», n) }
        requires known { reading_at (modules_of self.now) («number», n) ≡ Known }
        ensures { IfOk result (IsPassed (source_of self.now)
            (children_with is_with_param (modules_of self.now) («number», n))) }
    {
        let places = self.parts(number, n, Part::WithParam)?;
        let mut params = Vec::new(self.alloc);
        for place in &places {
            let param = self.binding(place.0, place.1)?;
            params.push(param)?;
        }
        Ok(Passed {
            params: Items::of(params),
        })
    }

    /// A binding of a variable or a parameter (11).
    #[cycle(bodies)]
    pub(crate) fn binding(&self, number: u32, n: Node) -> Result<Binding, AllocError>
        requires ready { IsReady self.now («number», n) }
        requires tag { is_binding (tag_at (modules_of self.now) («number», n)) ≡ true }
        ensures { IfOk result (IsBinding (source_of self.now) («number», n)) }
    {
        let site = site_at(self.modules, number, n);
        let name = self.own_name(number, n)?;
        let content = self.content(number, n)?;
        Ok(Binding {
            site,
            name,
            content,
        })
    }

    /// What a name is bound to (11.2).
    #[cycle(bodies)]
    fn content(&self, number: u32, n: Node) -> Result<Content, AllocError>
        requires ready { IsReady self.now («number», n) }
        requires tag { is_binding (tag_at (modules_of self.now) («number», n)) ≡ true }
        ensures { IfOk result (IsContent (source_of self.now) («number», n)) }
    {
        match self.own_expr_if(number, n, "select")? {
            Some(select) => Ok(Content::Select(select)),
            None => self.own_content(number, n),
        }
    }

    /// What a name without `select` is bound to: a fragment, or the empty string.
    #[cycle(bodies)]
    fn own_content(&self, number: u32, n: Node) -> Result<Content, AllocError>
        requires ready { IsReady self.now («number», n) }
        requires tag { is_binding (tag_at (modules_of self.now) («number», n)) ≡ true }
        requires none { has_select (source_of self.now) («number», n) ≡ false }
        ensures { IfOk result (IsContent (source_of self.now) («number», n)) }
    {
        let body = self.body(number, n)?;
        if body.instrs.as_slice().is_empty() {
            Ok(Content::Empty)
        } else {
            Ok(Content::Body(body))
        }
    }
}
