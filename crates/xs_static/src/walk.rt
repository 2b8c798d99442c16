//! The walk over a module: each node in document order, with what is in force there.

ghost use Rattle.std.specs.Prelude.{◌≡◌, ◌+◌, ◌<◌, length, option_map, IfOk, OnOk};
ghost use Rattle.xs_elements.specs.Nodes.{name_data};
ghost use Rattle.xs_elements.specs.Tags.{tag_of};
ghost use Rattle.xs_static.specs.steps.Elements.{IsAt};
ghost use Rattle.xs_static.specs.steps.Found.{calls_other, element_faults, line_in, node_faults};
ghost use Rattle.xs_static.specs.steps.Found.{nodes_faults, seen_faults};
ghost use Rattle.xs_static.specs.steps.Least.{least_of};
ghost use Rattle.xs_static.specs.steps.Locals.{AreLocals, EndFrom, open_in};
ghost use Rattle.xs_static.specs.steps.Walk.{IsSite};
ghost use Rattle.xs_static.specs.steps.Whole.{IsWalked};
ghost use Rattle.xs_structure.specs.Bindings.{local_name, shadows};
ghost use Rattle.xs_structure.specs.Standing.{standing_of};

use crate::element::Element;
use crate::fault::Least;
use crate::locals::Locals;
use crate::names::Names;
use crate::numbers::{MODULE_TOO_DEEP, SHADOWING, UNKNOWN_TEMPLATE};
use crate::variables::Visible;
use std::alloc::{AllocError, Global};
use xs_elements::scope::{Expanded, own_name};
use xs_elements::tags::Tag;
use xs_modules::Module;
use xs_structure::bindings::local_name;
use xs_structure::scopes::Scopes;
use xs_structure::standing::{Standing, is_element, standing_in, standings};
use xs_tree::{Node, Tree};

/// How many nodes are around an element that stands in 256 others, itself among them; the root
/// is one of them.
const TOO_DEEP: u32 = 258;

/// The module that is walked, with what its nodes have, and the names that its stylesheet declares.
#[derive(Clone, Copy)]
struct Site<'w, 'm> {
    alloc: Global,
    number: u32,
    tree: &'m Tree,
    lines: &'m [u32],
    standings: &'w [Standing],
    scopes: &'w Scopes,
    names: &'w Names<'m>,
}

impl<'w, 'm> Site<'w, 'm> {
    /// The line of a node.
    fn line(&self, n: Node) -> u32
        requires site { IsSite self.now }
        requires inside { n < length self.now.tree.now }
        ensures { result ≡ line_in self.now.lines.now n }
    {
        self.lines[n.place() as usize]
    }

    /// Whether an element calls a template that the stylesheet does not have.
    fn calls_other(&self, n: Node, tag: Tag) -> bool
        requires inside { n < length self.now.tree.now }
        requires tag { tag ≡ tag_of self.now.tree.now n }
        ensures { result ≡ calls_other self.now.names.now self.now.tree.now n }
    {
        if !matches!(tag, Tag::CallTemplate) {
            return false;
        }
        match own_name(self.tree, n) {
            Some(name) => !self.names.has_template(&name),
            None => false,
        }
    }

    /// Whether a local binding shadows another one.
    fn shadows(&self, n: Node, name: Option<Expanded<'m>>, locals: &Locals<'m>) -> bool
        requires inside { n < length self.now.tree.now }
        requires name { option_map name_data name ≡ local_name self.now.tree.now n }
        requires locals { AreLocals self.now.tree.now n locals.now }
        requires passed { EndFrom (n + 1) (open_in locals.now) }
        ensures { result ≡ shadows self.now.tree.now n }
    {
        let _count = self.tree.len();
        match name {
            Some((uri, local)) => locals.in_force.has(uri, local, n.place()),
            None => false,
        }
    }

    /// Meets the faults of an element that is looked at.
    fn meet_seen(
        &self,
        element: &Element<'m>,
        name: Option<Expanded<'m>>,
        locals: &Locals<'m>,
        least: &mut Least,
    ) -> Result<(), AllocError>
        requires site { IsSite self.now }
        requires same { element.now.tree ≡ self.now.tree }
        requires element { IsAt element.now }
        requires name { option_map name_data name ≡ local_name self.now.tree.now element.now.node }
        requires locals { AreLocals self.now.tree.now element.now.node locals.now }
        requires passed { EndFrom (element.now.node + 1) (open_in locals.now) }
        ensures { OnOk result (least.new.fault ≡ least_of least.old.fault
            (seen_faults self.now.number self.now.tree.now self.now.lines.now self.now.names.now
            element.now.node)) }
    {
        let line = self.line(element.node);
        let visible = Visible::all(self.names.globals(), &locals.in_force, element.node.place());
        least.meet_any(self.number, line, element.own_fault());
        let scope = self.scopes.get(self.tree, element.node);
        let fault = element.attributes_fault(self.alloc, scope, &visible)?;
        least.meet_any(self.number, line, fault);
        element.meet_misplaced(self.number, self.lines, least);
        let calls_other = self.calls_other(element.node, element.tag);
        least.meet_where(calls_other, self.number, line, UNKNOWN_TEMPLATE);
        let shadows = self.shadows(element.node, name, locals);
        least.meet_where(shadows, self.number, line, SHADOWING);
        Ok(())
    }

    /// Meets the faults of an element.
    fn meet_element(
        &self,
        n: Node,
        standing: Standing,
        locals: &Locals<'m>,
        least: &mut Least,
    ) -> Result<(), AllocError>
        requires site { IsSite self.now }
        requires inside { n < length self.now.tree.now }
        requires standing { standing ≡ standing_of self.now.tree.now n }
        requires locals { AreLocals self.now.tree.now n locals.now }
        requires passed { EndFrom (n + 1) (open_in locals.now) }
        ensures { OnOk result (least.new.fault ≡ least_of least.old.fault
            (element_faults self.now.number self.now.tree.now self.now.lines.now
            self.now.names.now n)) }
    {
        let is_too_deep = standing.depth == TOO_DEEP;
        least.meet_where(is_too_deep, self.number, self.line(n), MODULE_TOO_DEEP);
        if !standing.is_seen {
            return Ok(());
        }
        let element = Element {
            tree: self.tree,
            node: n,
            tag: standing.tag,
            reading: standing.reading,
            preserves: standing.preserves,
        };
        let name = local_name(self.tree, n, standing.tag, true);
        self.meet_seen(&element, name, locals, least)
    }

    /// Meets the faults of a node.
    fn meet_node(
        &self,
        n: Node,
        standing: Standing,
        locals: &Locals<'m>,
        least: &mut Least,
    ) -> Result<(), AllocError>
        requires site { IsSite self.now }
        requires inside { n < length self.now.tree.now }
        requires standing { standing ≡ standing_of self.now.tree.now n }
        requires locals { AreLocals self.now.tree.now n locals.now }
        requires passed { EndFrom (n + 1) (open_in locals.now) }
        ensures { OnOk result (least.new.fault ≡ least_of least.old.fault
            (node_faults self.now.number self.now.tree.now self.now.lines.now
            self.now.names.now n)) }
    {
        if is_element(self.tree, n) {
            return self.meet_element(n, standing, locals, least);
        }
        Ok(())
    }

    /// Meets the faults of the next node, before which the local bindings are these.
    fn visit(&self, n: Node, locals: &mut Locals<'m>, least: &mut Least) -> Result<(), AllocError>
        requires site { IsSite self.now }
        requires inside { n < length self.now.tree.now }
        requires locals { AreLocals self.now.tree.now n locals.old }
        ensures locals { OnOk result (AreLocals self.now.tree.now (n + 1) locals.new) }
        ensures faults { OnOk result (least.new.fault ≡ least_of least.old.fault
            (node_faults self.now.number self.now.tree.now self.now.lines.now
            self.now.names.now n)) }
    {
        locals.pass(self.tree, n)?;
        let standing = standing_in(self.standings, self.tree, n);
        self.meet_node(n, standing, locals, least)?;
        let name = local_name(self.tree, n, standing.tag, standing.is_seen);
        locals.note(self.tree, n, name)?;
        Ok(())
    }

    /// Meets the faults of all nodes.
    fn visit_all(&self, least: &mut Least) -> Result<(), AllocError>
        requires { IsSite self.now }
        ensures { OnOk result (least.new.fault ≡ least_of least.old.fault
            (nodes_faults self.now.number self.now.tree.now self.now.lines.now
            self.now.names.now (length self.now.tree.now))) }
    {
        let mut locals = Locals::new(self.alloc, self.names.hashes());
        for place in 0..self.tree.len() as u32 {
            self.visit(Node::at(place), &mut locals, least)?;
        }
        Ok(())
    }
}

/// What the walk over a module leaves: how its nodes stand, and the namespaces in scope at them.
#[derive(Drop)]
pub(crate) struct Walked {
    pub(crate) standings: Vec<Standing>,
    pub(crate) scopes: Scopes,
}

/// Meets the faults of the nodes of a module, except those of its attribute sets.
pub(crate) fn walk_module<'m>(
    alloc: Global,
    module: &'m Module,
    number: u32,
    names: &Names<'m>,
    least: &mut Least,
) -> Result<Walked, AllocError>
    requires each { length module.now.lines.items ≡ length module.now.tree }
    ensures walked { IfOk result (IsWalked module.now.tree) }
    ensures faults { OnOk result (least.new.fault ≡ least_of least.old.fault
        (nodes_faults number module.now.tree module.now.lines.items names.now
        (length module.now.tree))) }
{
    let scopes = Scopes::of(alloc, &module.tree)?;
    let standings = standings(alloc, names.hashes(), &module.tree, &scopes)?;
    let site = Site {
        alloc,
        number,
        tree: &module.tree,
        lines: &module.lines,
        standings: &standings,
        scopes: &scopes,
        names,
    };
    site.visit_all(least)?;
    Ok(Walked { standings, scopes })
}
