//! Bodies and the instructions in them (XSLT 1.0, 2.1).

ghost use Rattle.std.specs.Prelude.{◌≡◌, true, IfOk};
ghost use Rattle.std.specs.List.{AllZip};
ghost use Rattle.xs_compile.specs.Bodies.{AreFallbacks, IsBody, IsKind, IsTag, IsWhen, first_body};
ghost use Rattle.xs_compile.specs.Bodies.{is_otherwise};
ghost use Rattle.xs_structure.specs.Parts.{body_at, children_with, reading_at, tag_at};
ghost use Rattle.xs_compile.specs.steps.Gains.{Gains, GainsInstr};
ghost use Rattle.xs_compile.specs.steps.Tags.{holds_body};
ghost use Rattle.xs_compile.specs.steps.State.{IsInstruction, IsReady, modules_of, source_of};
ghost use Rattle.xs_elements.specs.declared.reading.Reading.TheVariants.{Extension, Literal};
ghost use Rattle.xs_elements.specs.Reading.{content_at};
ghost use Rattle.xs_elements.specs.Tags.{is_fallback, is_when};
ghost use Rattle.xs_structure.specs.Modules.{records_at};

use crate::compiler::Compiler;
use crate::parts::Part;
use std::alloc::AllocError;
use xs_elements::reading::Reading;
use xs_elements::tags::Tag;
use xs_sheet::body::{Body, Choice, Fallbacks, Instr, InstrKind, When};
use xs_sheet::items::Items;
use xs_structure::places::{said_at, site_at, tag_at};
use xs_trace::item::Site;
use xs_tree::Node;

/// Adds an instruction that does this, if it was compiled. An instruction takes some hundred bytes
/// of the stack: here, behind all calls that its bodies need, so that no level of them holds one.
#[inline(never)]
fn push_instr(
    instrs: &mut Vec<Instr>,
    site: Site,
    kind: Result<InstrKind, AllocError>,
) -> Result<(), AllocError>
    ensures { IfOk result (λ _. Gains kind site instrs.old.items instrs.new.items) }
{
    instrs.push(Instr { site, kind: kind? })?;
    Ok(())
}

impl<'m> Compiler<'m> {
    /// The body of an element: its content behind parameters and sort keys.
    #[cycle(bodies)]
    pub(crate) fn body(&self, number: u32, n: Node) -> Result<Body, AllocError>
        requires ready { IsReady self.now («number», n) }
        requires content { holds_body
            (content_at (records_at (modules_of self.now) «number») n) ≡ true }
        ensures { IfOk result (IsBody (source_of self.now)
            (body_at (modules_of self.now) («number», n))) }
    {
        let places = self.body_places(number, n)?;
        let mut instrs = Vec::new(self.alloc);
        for place in &places {
            self.add_instr(&mut instrs, place.0, place.1)?;
        }
        Ok(Body {
            instrs: Items::of(instrs),
        })
    }

    /// Adds the instruction that a node of a body represents.
    #[cycle(bodies)]
    pub(crate) fn add_instr(
        &self,
        instrs: &mut Vec<Instr>,
        number: u32,
        n: Node,
    ) -> Result<(), AllocError>
        requires { IsInstruction self.now («number», n) }
        ensures { IfOk result (λ _. GainsInstr (source_of self.now) («number», n)
            instrs.old.items instrs.new.items) }
    {
        let site = site_at(self.modules, number, n);
        let kind = self.kind(number, n);
        push_instr(instrs, site, kind)
    }

    /// What it does.
    #[cycle(bodies)]
    fn kind(&self, number: u32, n: Node) -> Result<InstrKind, AllocError>
        requires { IsInstruction self.now («number», n) }
        ensures { IfOk result (IsKind (source_of self.now) («number», n)) }
    {
        match tag_at(self.modules, number, n) {
            Tag::NoElement | Tag::Text => self.text(number, n),
            Tag::ApplyTemplates => self.apply_templates(number, n),
            Tag::CallTemplate => self.call_template(number, n),
            Tag::ApplyImports => Ok(InstrKind::ApplyImports),
            Tag::ForEach => self.for_each(number, n),
            Tag::ValueOf => self.value_of(number, n),
            Tag::CopyOf => self.copy_of(number, n),
            Tag::Copy => self.copy(number, n),
            Tag::Number => self.numbered(number, n),
            Tag::Choose => self.choose(number, n),
            Tag::If => self.test(number, n),
            Tag::Variable => self.variable(number, n),
            Tag::Element => self.element(number, n),
            Tag::Attribute => self.attribute(number, n),
            Tag::Comment => self.comment(number, n),
            Tag::ProcessingInstruction => self.pi(number, n),
            Tag::Message => self.message(number, n),
            Tag::Other => self.other(number, n),
            _ => unreachable!(),
        }
    }

    /// Templates are applied to nodes (5.4).
    #[cycle(bodies)]
    #[inline(never)]
    fn apply_templates(&self, number: u32, n: Node) -> Result<InstrKind, AllocError>
        requires ready { IsReady self.now («number», n) }
        requires tag { IsTag (source_of self.now) («number», n) Tag.ApplyTemplates }
        ensures { IfOk result (IsKind (source_of self.now) («number», n)) }
    {
        let passed = self.passed(number, n)?;
        let nodes = self.nodes(number, n)?;
        Ok(InstrKind::ApplyTemplates { nodes, passed })
    }

    /// A template is called (6).
    #[cycle(bodies)]
    fn call_template(&self, number: u32, n: Node) -> Result<InstrKind, AllocError>
        requires ready { IsReady self.now («number», n) }
        requires tag { IsTag (source_of self.now) («number», n) Tag.CallTemplate }
        ensures { IfOk result (IsKind (source_of self.now) («number», n)) }
    {
        let template = self.called(number, n);
        let passed = self.passed(number, n)?;
        Ok(InstrKind::CallTemplate { template, passed })
    }

    /// A body is done for each node (8).
    #[cycle(bodies)]
    #[inline(never)]
    fn for_each(&self, number: u32, n: Node) -> Result<InstrKind, AllocError>
        requires ready { IsReady self.now («number», n) }
        requires tag { IsTag (source_of self.now) («number», n) Tag.ForEach }
        ensures { IfOk result (IsKind (source_of self.now) («number», n)) }
    {
        let sorts = self.sorts(number, n)?;
        let body = self.body(number, n)?;
        let select = self.own_expr(number, n, "select")?;
        Ok(InstrKind::ForEach {
            select,
            sorts: Items::of(sorts),
            body,
        })
    }

    /// A body is done where a test holds (9.1).
    #[cycle(bodies)]
    fn test(&self, number: u32, n: Node) -> Result<InstrKind, AllocError>
        requires ready { IsReady self.now («number», n) }
        requires tag { IsTag (source_of self.now) («number», n) Tag.If }
        ensures { IfOk result (IsKind (source_of self.now) («number», n)) }
    {
        let body = self.body(number, n)?;
        let test = self.own_expr(number, n, "test")?;
        Ok(InstrKind::If { test, body })
    }

    /// A variable is bound (11.2).
    #[cycle(bodies)]
    fn variable(&self, number: u32, n: Node) -> Result<InstrKind, AllocError>
        requires ready { IsReady self.now («number», n) }
        requires tag { IsTag (source_of self.now) («number», n) Tag.Variable }
        ensures { IfOk result (IsKind (source_of self.now) («number», n)) }
    {
        Ok(InstrKind::Variable(self.binding(number, n)?))
    }

    /// One of several bodies is done (9.2).
    #[cycle(bodies)]
    #[inline(never)]
    fn choose(&self, number: u32, n: Node) -> Result<InstrKind, AllocError>
        requires ready { IsReady self.now («number», n) }
        requires tag { IsTag (source_of self.now) («number», n) Tag.Choose }
        ensures { IfOk result (IsKind (source_of self.now) («number», n)) }
    {
        let whens = self.whens(number, n)?;
        let otherwise = self.otherwise(number, n)?;
        Ok(InstrKind::Choose(Choice {
            whens: Items::of(whens),
            otherwise,
        }))
    }

    /// The branches with a test of `xsl:choose` (9.2).
    #[cycle(bodies)]
    fn whens(&self, number: u32, n: Node) -> Result<Vec<When>, AllocError>
        requires ready { IsReady self.now («number», n) }
        requires tag { IsTag (source_of self.now) («number», n) Tag.Choose }
        ensures { IfOk result (λ whens. AllZip (IsWhen (source_of self.now))
            (children_with is_when (modules_of self.now) («number», n)) whens.items) }
    {
        let places = self.parts(number, n, Part::When)?;
        let mut whens = Vec::new(self.alloc);
        for place in &places {
            let when = self.when(place.0, place.1)?;
            whens.push(when)?;
        }
        Ok(whens)
    }

    /// One of them.
    #[cycle(bodies)]
    fn when(&self, number: u32, n: Node) -> Result<When, AllocError>
        requires ready { IsReady self.now («number», n) }
        requires tag { IsTag (source_of self.now) («number», n) Tag.When }
        ensures { IfOk result (IsWhen (source_of self.now) («number», n)) }
    {
        let body = self.body(number, n)?;
        let test = self.own_expr(number, n, "test")?;
        Ok(When { test, body })
    }

    /// The branch without a test, empty where there is none.
    #[cycle(bodies)]
    fn otherwise(&self, number: u32, n: Node) -> Result<Body, AllocError>
        requires ready { IsReady self.now («number», n) }
        requires tag { IsTag (source_of self.now) («number», n) Tag.Choose }
        ensures { IfOk result (IsBody (source_of self.now) (first_body (source_of self.now)
            (children_with is_otherwise (modules_of self.now) («number», n)))) }
    {
        let places = self.parts(number, n, Part::Otherwise)?;
        match places.first() {
            Some(place) => self.body(place.0, place.1),
            None => Ok(Body {
                instrs: Items::new(self.alloc),
            }),
        }
    }

    /// A copy of the current node (7.5).
    #[cycle(bodies)]
    fn copy(&self, number: u32, n: Node) -> Result<InstrKind, AllocError>
        requires ready { IsReady self.now («number», n) }
        requires tag { IsTag (source_of self.now) («number», n) Tag.Copy }
        ensures { IfOk result (IsKind (source_of self.now) («number», n)) }
    {
        let sets = self.own_sets(number, n)?;
        let body = self.body(number, n)?;
        Ok(InstrKind::Copy {
            sets: Items::of(sets),
            body,
        })
    }

    /// An element (7.1.2).
    #[cycle(bodies)]
    fn element(&self, number: u32, n: Node) -> Result<InstrKind, AllocError>
        requires ready { IsReady self.now («number», n) }
        requires tag { IsTag (source_of self.now) («number», n) Tag.Element }
        ensures { IfOk result (IsKind (source_of self.now) («number», n)) }
    {
        let body = self.body(number, n)?;
        let sets = self.own_sets(number, n)?;
        let name = self.made_name(number, n)?;
        Ok(InstrKind::Element {
            name,
            sets: Items::of(sets),
            body,
        })
    }

    /// An attribute (7.1.3).
    #[cycle(bodies)]
    fn attribute(&self, number: u32, n: Node) -> Result<InstrKind, AllocError>
        requires ready { IsReady self.now («number», n) }
        requires tag { IsTag (source_of self.now) («number», n) Tag.Attribute }
        ensures { IfOk result (IsKind (source_of self.now) («number», n)) }
    {
        let body = self.body(number, n)?;
        let name = self.made_name(number, n)?;
        Ok(InstrKind::Attribute { name, body })
    }

    /// A comment (7.4).
    #[cycle(bodies)]
    fn comment(&self, number: u32, n: Node) -> Result<InstrKind, AllocError>
        requires ready { IsReady self.now («number», n) }
        requires tag { IsTag (source_of self.now) («number», n) Tag.Comment }
        ensures { IfOk result (IsKind (source_of self.now) («number», n)) }
    {
        Ok(InstrKind::Comment(self.body(number, n)?))
    }

    /// A processing instruction (7.3).
    #[cycle(bodies)]
    fn pi(&self, number: u32, n: Node) -> Result<InstrKind, AllocError>
        requires ready { IsReady self.now («number», n) }
        requires tag { IsTag (source_of self.now) («number», n) Tag.ProcessingInstruction }
        ensures { IfOk result (IsKind (source_of self.now) («number», n)) }
    {
        let name = self.own_template(number, n, "name")?;
        let body = self.body(number, n)?;
        Ok(InstrKind::Pi { name, body })
    }

    /// A message (13).
    #[cycle(bodies)]
    fn message(&self, number: u32, n: Node) -> Result<InstrKind, AllocError>
        requires ready { IsReady self.now («number», n) }
        requires tag { IsTag (source_of self.now) («number», n) Tag.Message }
        ensures { IfOk result (IsKind (source_of self.now) («number», n)) }
    {
        let terminate = said_at(self.modules, number, n, "terminate") == "yes";
        let body = self.body(number, n)?;
        Ok(InstrKind::Message { terminate, body })
    }

    /// An element that is no XSLT: a literal one (7.1.1), or an extension element (14.1).
    #[cycle(bodies)]
    #[inline(never)]
    fn other(&self, number: u32, n: Node) -> Result<InstrKind, AllocError>
        requires instruction { IsInstruction self.now («number», n) }
        requires tag { IsTag (source_of self.now) («number», n) Tag.Other }
        ensures { IfOk result (IsKind (source_of self.now) («number», n)) }
    {
        match self.standing(number, n).reading {
            Reading::Literal => {
                let body = self.body(number, n)?;
                let start = self.literal_start(number, n)?;
                Ok(InstrKind::Literal { start, body })
            }
            Reading::Extension => Ok(InstrKind::Extension(self.fallbacks(number, n)?)),
            _ => unreachable!(),
        }
    }

    /// The bodies of an extension element's fallbacks (15).
    #[cycle(bodies)]
    #[inline(never)]
    fn fallbacks(&self, number: u32, n: Node) -> Result<Fallbacks, AllocError>
        requires ready { IsReady self.now («number», n) }
        requires extension { reading_at (modules_of self.now) («number», n) ≡ Extension }
        ensures { IfOk result (AreFallbacks (source_of self.now)
            (children_with is_fallback (modules_of self.now) («number», n))) }
    {
        let places = self.parts(number, n, Part::Fallback)?;
        let mut bodies = Vec::new(self.alloc);
        for place in &places {
            let body = self.body(place.0, place.1)?;
            bodies.push(body)?;
        }
        Ok(Fallbacks {
            bodies: Items::of(bodies),
        })
    }
}
