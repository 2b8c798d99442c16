//! What is still to be done: frames.

ghost use Rattle.std.specs.Prelude.{◌≡◌, IfOk};

use crate::lists::NodeList;
use crate::passed::Passed;
use std::alloc::{AllocError, Global};
use xs_body_spec::focus::Focus;
use xs_body_spec::made::Made;
use xs_sheet::body::{Binding, Body, Instr};
use xs_sheet::scoped::ValueTemplate;
use xs_trace::event::Label;
use xs_trace::item::Site;
use xs_value::value::Value;

/// Where a body is evaluated, and which of the values on the stack are its local variables.
#[derive(Clone, Copy)]
pub struct Scope {
    /// The current node and what goes with it.
    pub focus: Focus,
    /// How many of the values that came last it sees.
    pub seen: usize,
    /// How many of these are its own, and go with it.
    pub own: usize,
}

/// What a call does once it has its parameters.
#[derive(Drop)]
pub enum Callee {
    /// The template of this number (XSLT 1.0, 6).
    Template(u32),
    /// The rules for nodes, in a mode (5.4).
    Rules(u32, NodeList),
}

/// The parameters of a call that are left, with the values of those before them.
#[derive(Drop)]
pub struct Passing<'a> {
    /// Those that are left.
    pub left: &'a [Binding],
    /// All of them.
    pub all: &'a [Binding],
    /// The values of those before.
    pub values: Vec<Value>,
    /// What is called with them.
    pub callee: Callee,
    /// The call.
    pub site: Site,
    /// Where it is evaluated.
    pub scope: Scope,
}

/// A body for each node that is left (8).
#[derive(Drop)]
pub struct EachLeft<'a> {
    /// All nodes.
    pub nodes: NodeList,
    /// Which of them comes next.
    pub next: usize,
    /// Its position.
    pub position: u32,
    /// The body.
    pub body: &'a Body,
    /// The instruction.
    pub site: Site,
    /// Where it is evaluated, except the node and its position.
    pub scope: Scope,
}

/// The rules of a mode, with what is passed to them (5.7).
#[derive(Drop)]
pub struct Rules<'a> {
    /// The mode.
    pub mode: u32,
    /// What is passed.
    pub passed: Passed<'a>,
}

impl<'a> Rules<'a> {
    /// The same, in constant time.
    #[inline(always)]
    pub(crate) fn copy(&self, alloc: Global) -> Result<Rules<'a>, AllocError>
        ensures { IfOk result (λ copy. copy ≡ self.now) }
    {
        Ok(Rules {
            mode: self.mode,
            passed: self.passed.copy(alloc)?,
        })
    }
}

/// The rule for each node that is left (5.4).
#[derive(Drop)]
pub struct ApplyLeft<'a> {
    /// All nodes.
    pub nodes: NodeList,
    /// Which of them comes next.
    pub next: usize,
    /// Its position.
    pub position: u32,
    /// The rules.
    pub rules: Rules<'a>,
    /// The instruction.
    pub site: Site,
    /// Where it is evaluated, except the node and its position.
    pub focus: Focus,
}

/// The parameters of a template that are left, and its body (11.4).
#[derive(Drop)]
pub struct ParamsLeft<'a> {
    /// Those that are left.
    pub left: &'a [Binding],
    /// What is passed to the template.
    pub passed: Passed<'a>,
    /// Its body.
    pub body: &'a Body,
    /// Where that is evaluated.
    pub scope: Scope,
}

/// The attributes of a literal element (7.1.1).
#[derive(Drop)]
pub struct AttributesLeft<'a> {
    /// Their names and values.
    pub attributes: &'a [(Label, ValueTemplate)],
    /// The element.
    pub site: Site,
    /// Where their values are evaluated.
    pub scope: Scope,
}

/// One thing that is still to be done. The large ones are in boxes, since each step moves a frame.
#[derive(Drop)]
pub enum Frame<'a> {
    /// What is left of a body.
    Rest(&'a [Instr], Scope),
    /// The end of the content of a binding, whose value is a slot more.
    Fill,
    /// A body for each node that is left.
    Each(Box<EachLeft<'a>>),
    /// The rule for each node that is left.
    Apply(Box<ApplyLeft<'a>>),
    /// Bodies that are left, one after another.
    Bodies(&'a [Body], Scope),
    /// The end of an element.
    End,
    /// The attribute sets of these names (7.1.4).
    Sets(&'a [Label], Focus),
    /// The declarations of the set of this name, except for so many that were passed.
    Declared(&'a Label, usize, Focus),
    /// The attributes of a literal element.
    Attributes(AttributesLeft<'a>),
    /// The end of the content of an attribute, a comment or a processing instruction.
    Make(Made, Site),
    /// The end of a message, which may end the run.
    Say { site: Site, terminate: bool },
    /// The parameters of a call that are left.
    Pass(Box<Passing<'a>>),
    /// The end of the content of such a parameter, and the rest of the call.
    Take(Box<Passing<'a>>),
    /// The parameters of a template that are left, and its body.
    Params(Box<ParamsLeft<'a>>),
}
