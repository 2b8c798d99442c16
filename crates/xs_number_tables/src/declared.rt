//! The instructions of a stylesheet that count (XSLT 1.0, 7.7).

use std::alloc::{AllocError, Global as Memory};
use xs_sheet::body::{Binding, Body, Choice, Content, Instr, InstrKind, NumberDecl, When};
use xs_sheet::declarations::{AttrSet, Global, Template};
use xs_sheet::sheet::Sheet;
use xs_trace::item::Site;

/// An instruction that counts.
#[derive(Drop)]
pub(crate) struct Counting<'a> {
    /// Where it stands.
    pub(crate) site: Site,
    /// By what it counts.
    pub(crate) decl: &'a NumberDecl,
}

/// Those of a stylesheet, in whatever templates, globals and attribute sets.
pub(crate) fn counting_in<'a>(
    alloc: Memory,
    sheet: &'a Sheet,
) -> Result<Vec<Counting<'a>>, AllocError> {
    let mut found = Vec::new(alloc);
    add_of_templates(&mut found, sheet.templates.as_slice())?;
    add_of_globals(&mut found, sheet.globals.as_slice())?;
    add_of_sets(&mut found, sheet.sets.as_slice())?;
    Ok(found)
}

// Adds those of templates: of their parameters and bodies.
fn add_of_templates<'a>(
    found: &mut Vec<Counting<'a>>,
    templates: &'a [Template],
) -> Result<(), AllocError> {
    for template in templates {
        add_of_bindings(found, template.params.as_slice())?;
        add_of_body(found, &template.body)?;
    }
    Ok(())
}

// Adds those of globals.
fn add_of_globals<'a>(
    found: &mut Vec<Counting<'a>>,
    globals: &'a [Global],
) -> Result<(), AllocError> {
    for global in globals {
        add_of_content(found, &global.binding.content)?;
    }
    Ok(())
}

// Adds those of the attributes of sets.
fn add_of_sets<'a>(found: &mut Vec<Counting<'a>>, sets: &'a [AttrSet]) -> Result<(), AllocError> {
    for set in sets {
        add_of_instrs(found, set.attributes.as_slice())?;
    }
    Ok(())
}

// Adds those of a body.
#[cycle(counting)]
fn add_of_body<'a>(found: &mut Vec<Counting<'a>>, body: &'a Body) -> Result<(), AllocError> {
    add_of_instrs(found, body.instrs.as_slice())
}

// Adds those of instructions.
#[cycle(counting)]
fn add_of_instrs<'a>(found: &mut Vec<Counting<'a>>, instrs: &'a [Instr]) -> Result<(), AllocError> {
    for instr in instrs {
        add_of_instr(found, instr)?;
    }
    Ok(())
}

// Adds an instruction, if it counts, and those that it holds.
#[cycle(counting)]
fn add_of_instr<'a>(found: &mut Vec<Counting<'a>>, instr: &'a Instr) -> Result<(), AllocError> {
    match &instr.kind {
        InstrKind::Number(decl) => add_counting(found, instr.site, decl),
        InstrKind::ApplyTemplates { passed, .. } => {
            add_of_bindings(found, passed.params.as_slice())
        }
        InstrKind::CallTemplate { passed, .. } => add_of_bindings(found, passed.params.as_slice()),
        InstrKind::ForEach { body, .. } => add_of_body(found, body),
        InstrKind::Choose(choice) => add_of_choice(found, choice),
        InstrKind::If { body, .. } => add_of_body(found, body),
        InstrKind::Message { body, .. } => add_of_body(found, body),
        InstrKind::Variable(binding) => add_of_content(found, &binding.content),
        InstrKind::Literal { body, .. } => add_of_body(found, body),
        InstrKind::Copy { body, .. } => add_of_body(found, body),
        InstrKind::Element { body, .. } => add_of_body(found, body),
        InstrKind::Attribute { body, .. } => add_of_body(found, body),
        InstrKind::Comment(body) => add_of_body(found, body),
        InstrKind::Pi { body, .. } => add_of_body(found, body),
        InstrKind::Extension(fallbacks) => add_of_bodies(found, fallbacks.bodies.as_slice()),
        InstrKind::ApplyImports | InstrKind::ValueOf(_) | InstrKind::Text(_) => Ok(()),
        InstrKind::CopyOf(_) => Ok(()),
    }
}

// Adds a number, unless its value is given.
fn add_counting<'a>(
    found: &mut Vec<Counting<'a>>,
    site: Site,
    decl: &'a NumberDecl,
) -> Result<(), AllocError> {
    if decl.value.is_none() {
        found.push(Counting { site, decl })?;
    }
    Ok(())
}

// Adds those of the content of a binding.
#[cycle(counting)]
fn add_of_content<'a>(
    found: &mut Vec<Counting<'a>>,
    content: &'a Content,
) -> Result<(), AllocError> {
    match content {
        Content::Empty | Content::Select(_) => Ok(()),
        Content::Body(body) => add_of_body(found, body),
    }
}

// Adds those of the contents of bindings.
#[cycle(counting)]
fn add_of_bindings<'a>(
    found: &mut Vec<Counting<'a>>,
    bindings: &'a [Binding],
) -> Result<(), AllocError> {
    for binding in bindings {
        add_of_content(found, &binding.content)?;
    }
    Ok(())
}

// Adds those of the bodies of a choice.
#[cycle(counting)]
fn add_of_choice<'a>(found: &mut Vec<Counting<'a>>, choice: &'a Choice) -> Result<(), AllocError> {
    add_of_whens(found, choice.whens.as_slice())?;
    add_of_body(found, &choice.otherwise)
}

// Adds those of the bodies of tests.
#[cycle(counting)]
fn add_of_whens<'a>(found: &mut Vec<Counting<'a>>, whens: &'a [When]) -> Result<(), AllocError> {
    for when in whens {
        add_of_body(found, &when.body)?;
    }
    Ok(())
}

// Adds those of bodies.
#[cycle(counting)]
fn add_of_bodies<'a>(found: &mut Vec<Counting<'a>>, bodies: &'a [Body]) -> Result<(), AllocError> {
    for body in bodies {
        add_of_body(found, body)?;
    }
    Ok(())
}
