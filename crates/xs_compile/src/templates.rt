//! Templates, and the other declarations that hold bodies.

ghost use Rattle.std.specs.Prelude.{◌≡◌, ℕ, List, true, codes, IfOk, option_map};
ghost use Rattle.std.specs.List.{AllZip};
ghost use Rattle.xs_compile.specs.Bodies.{IsTag};
ghost use Rattle.xs_compile.specs.Counted.{counted, globals, named, templates};
ghost use Rattle.xs_structure.specs.Order.{is_template_place, all_with, declarations};
ghost use Rattle.xs_structure.specs.Order.{is_simplified};
ghost use Rattle.xs_compile.specs.Declarations.{IsBinding, IsGlobal, IsInstr, IsKey, IsSet};
ghost use Rattle.xs_compile.specs.Declarations.{IsTemplate, is_attribute, is_key};
ghost use Rattle.xs_compile.specs.Priorities.{priority_in};
ghost use Rattle.xs_structure.specs.Parts.{children_with, tag_at, value_at};
ghost use Rattle.xs_compile.specs.Tables.{place_in};
ghost use Rattle.xs_compile.specs.steps.State.{IsReady, IsState, modules_of, source_of};
ghost use Rattle.xs_elements.specs.Tags.{is_attribute_set, is_param, is_variable};
ghost use Rattle.xs_structure.specs.Places.{IsIn};
ghost use Rattle.xs_modules.specs.Results.{modules_data};
ghost use Rattle.xs_structure.specs.Modules.{records_at};

use crate::compiler::Compiler;
use crate::counted::{Counted, is_global};
use crate::parts::Part;
use crate::priorities::priority_in;
use std::alloc::AllocError;
use xs_elements::tags::Tag;
use xs_modules::Modules;
use xs_sheet::body::{Binding, Body, Instr};
use xs_sheet::declarations::{AttrSet, Global, KeyDecl, Template};
use xs_sheet::items::Items;
use xs_structure::places::{
    Place, imports_from_at, is_template, precedence_at, site_at, tag_at, value_at,
};
use xs_tree::Node;

/// Whether a declaration is one of a key.
fn is_key(modules: &Modules, number: u32, n: Node) -> bool
    requires { IsIn (modules_data modules.now) («number», n) }
    ensures { result ≡ is_key (tag_at (modules_data modules.now) («number», n)) }
{
    matches!(tag_at(modules, number, n), Tag::Key)
}

/// Whether a declaration is one of an attribute set.
fn is_set(modules: &Modules, number: u32, n: Node) -> bool
    requires { IsIn (modules_data modules.now) («number», n) }
    ensures { result ≡ is_attribute_set (tag_at (modules_data modules.now) («number», n)) }
{
    matches!(tag_at(modules, number, n), Tag::AttributeSet)
}

impl<'m> Compiler<'m> {
    /// The templates of a stylesheet.
    pub(crate) fn templates(&self, declared: &[Place]) -> Result<Vec<Template>, AllocError>
        requires state { IsState self.now }
        requires all { declared.now ≡ declarations (modules_of self.now) }
        ensures { IfOk result (λ found. AllZip (IsTemplate (source_of self.now))
            (templates (modules_of self.now)) found.items) }
    {
        let mut templates = Vec::new(self.alloc);
        for place in declared {
            if !is_template(self.modules, place.0, place.1) {
                continue;
            }
            let template = self.template_at(place.0, place.1)?;
            templates.push(template)?;
        }
        Ok(templates)
    }

    /// One of them: an `xsl:template`, or an element that is a whole module.
    fn template_at(&self, number: u32, n: Node) -> Result<Template, AllocError>
        requires ready { IsReady self.now («number», n) }
        requires template { is_template_place (modules_of self.now) («number», n) ≡ true }
        ensures { IfOk result (IsTemplate (source_of self.now) («number», n)) }
    {
        if matches!(tag_at(self.modules, number, n), Tag::Template) {
            self.rule(number, n)
        } else {
            self.whole_module(number, n)
        }
    }

    /// An `xsl:template` (5.3, 6).
    fn rule(&self, number: u32, n: Node) -> Result<Template, AllocError>
        requires ready { IsReady self.now («number», n) }
        requires tag { IsTag (source_of self.now) («number», n) Tag.Template }
        ensures { IfOk result (IsTemplate (source_of self.now) («number», n)) }
    {
        let scope = self.scope(number, n)?;
        Ok(Template {
            site: site_at(self.modules, number, n),
            precedence: precedence_at(self.modules, number),
            imports_from: imports_from_at(self.modules, number),
            priority: self.priority(number, n),
            mode: self.mode(number, n)?,
            params: Items::of(self.params(number, n)?),
            body: self.body(number, n)?,
            pattern: self.pattern_if(number, n, &scope, "match")?,
            name: self.name_if(number, n, &scope)?,
        })
    }

    /// The priority that was written (5.5).
    fn priority(&self, number: u32, n: Node) -> Option<i64>
        requires ready { IsReady self.now («number», n) }
        requires tag { IsTag (source_of self.now) («number», n) Tag.Template }
        ensures { result ≡ option_map priority_in
            (value_at (modules_of self.now) («number», n) (codes "priority")) }
    {
        match value_at(self.modules, number, n, "priority") {
            Some(text) => Some(priority_in(text)),
            None => None,
        }
    }

    /// A template for the root, with an element that is a whole module as its content (2.3).
    fn whole_module(&self, number: u32, n: Node) -> Result<Template, AllocError>
        requires ready { IsReady self.now («number», n) }
        requires simplified { is_simplified (records_at (modules_of self.now) «number») n ≡ true }
        ensures { IfOk result (IsTemplate (source_of self.now) («number», n)) }
    {
        let mut instrs = Vec::new(self.alloc);
        self.add_instr(&mut instrs, number, n)?;
        let scope = self.scope(number, n)?;
        Ok(Template {
            site: site_at(self.modules, number, n),
            precedence: precedence_at(self.modules, number),
            imports_from: imports_from_at(self.modules, number),
            pattern: Some(self.pattern(number, n, &scope, "/")?),
            name: None,
            priority: None,
            mode: 0,
            params: Items::new(self.alloc),
            body: Body {
                instrs: Items::of(instrs),
            },
        })
    }

    /// The parameters of a template (11.6).
    fn params(&self, number: u32, n: Node) -> Result<Vec<Binding>, AllocError>
        requires ready { IsReady self.now («number», n) }
        requires tag { IsTag (source_of self.now) («number», n) Tag.Template }
        ensures { IfOk result (λ params. AllZip (IsBinding (source_of self.now))
            (children_with is_param (modules_of self.now) («number», n)) params.items) }
    {
        let places = self.parts(number, n, Part::Param)?;
        let mut params = Vec::new(self.alloc);
        for place in &places {
            let param = self.binding(place.0, place.1)?;
            params.push(param)?;
        }
        Ok(params)
    }

    /// The global variables and parameters that count (11.4).
    pub(crate) fn globals(
        &self,
        declared: &[Place],
        found: &Counted<'m>,
    ) -> Result<Vec<Global>, AllocError>
        requires state { IsState self.now }
        requires all { declared.now ≡ declarations (modules_of self.now) }
        requires counted { (uri local : List ℕ) → place_in found.now uri local
            ≡ counted (modules_of self.now) (named is_variable (modules_of self.now) (uri, local)) }
        ensures { IfOk result (λ found. AllZip (IsGlobal (source_of self.now))
            (globals (modules_of self.now)) found.items) }
    {
        let mut globals = Vec::new(self.alloc);
        for place in declared {
            if !is_global(self.modules, found, place.0, place.1) {
                continue;
            }
            let global = self.global(place.0, place.1)?;
            globals.push(global)?;
        }
        Ok(globals)
    }

    /// One of them.
    fn global(&self, number: u32, n: Node) -> Result<Global, AllocError>
        requires ready { IsReady self.now («number», n) }
        requires tag { is_variable (tag_at (modules_of self.now) («number», n)) ≡ true }
        ensures { IfOk result (IsGlobal (source_of self.now) («number», n)) }
    {
        let binding = self.binding(number, n)?;
        let param = matches!(tag_at(self.modules, number, n), Tag::Param);
        Ok(Global { binding, param })
    }

    /// The declarations of keys (12.2).
    pub(crate) fn keys(&self, declared: &[Place]) -> Result<Vec<KeyDecl>, AllocError>
        requires state { IsState self.now }
        requires all { declared.now ≡ declarations (modules_of self.now) }
        ensures { IfOk result (λ found. AllZip (IsKey (source_of self.now))
            (all_with is_key (modules_of self.now)) found.items) }
    {
        let mut keys = Vec::new(self.alloc);
        for place in declared {
            if !is_key(self.modules, place.0, place.1) {
                continue;
            }
            let key = self.key(place.0, place.1)?;
            keys.push(key)?;
        }
        Ok(keys)
    }

    /// One of them.
    fn key(&self, number: u32, n: Node) -> Result<KeyDecl, AllocError>
        requires ready { IsReady self.now («number», n) }
        requires tag { IsTag (source_of self.now) («number», n) Tag.Key }
        ensures { IfOk result (IsKey (source_of self.now) («number», n)) }
    {
        let scope = self.scope(number, n)?;
        Ok(KeyDecl {
            site: site_at(self.modules, number, n),
            name: self.name(number, n, &scope)?,
            pattern: self.pattern_of(number, n, &scope, "match")?,
            value: self.expr_of(number, n, &scope, "use")?,
        })
    }

    /// The declarations of attribute sets (7.1.4).
    pub(crate) fn sets(&self, declared: &[Place]) -> Result<Vec<AttrSet>, AllocError>
        requires state { IsState self.now }
        requires all { declared.now ≡ declarations (modules_of self.now) }
        ensures { IfOk result (λ found. AllZip (IsSet (source_of self.now))
            (all_with is_attribute_set (modules_of self.now)) found.items) }
    {
        let mut sets = Vec::new(self.alloc);
        for place in declared {
            if !is_set(self.modules, place.0, place.1) {
                continue;
            }
            let set = self.set(place.0, place.1)?;
            sets.push(set)?;
        }
        Ok(sets)
    }

    /// One of them.
    fn set(&self, number: u32, n: Node) -> Result<AttrSet, AllocError>
        requires ready { IsReady self.now («number», n) }
        requires tag { IsTag (source_of self.now) («number», n) Tag.AttributeSet }
        ensures { IfOk result (IsSet (source_of self.now) («number», n)) }
    {
        let scope = self.scope(number, n)?;
        Ok(AttrSet {
            site: site_at(self.modules, number, n),
            precedence: precedence_at(self.modules, number),
            name: self.name(number, n, &scope)?,
            sets: Items::of(self.sets_of(number, n, &scope)?),
            attributes: Items::of(self.set_attributes(number, n)?),
        })
    }

    /// The attributes that a declaration of a set has.
    fn set_attributes(&self, number: u32, n: Node) -> Result<Vec<Instr>, AllocError>
        requires ready { IsReady self.now («number», n) }
        requires tag { IsTag (source_of self.now) («number», n) Tag.AttributeSet }
        ensures { IfOk result (λ found. AllZip (IsInstr (source_of self.now))
            (children_with is_attribute (modules_of self.now) («number», n)) found.items) }
    {
        let places = self.parts(number, n, Part::Attribute)?;
        let mut attributes = Vec::new(self.alloc);
        for place in &places {
            self.add_instr(&mut attributes, place.0, place.1)?;
        }
        Ok(attributes)
    }
}
