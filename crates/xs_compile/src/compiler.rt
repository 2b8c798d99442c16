//! What is known of the whole stylesheet while its parts are compiled.

ghost use Rattle.std.specs.Prelude.{◌≡◌, ℕ, List, None, Some, map, IfOk};
ghost use Rattle.std.specs.Arc.{arc_value};
ghost use Rattle.std.specs.List.{All, AllZip};
ghost use Rattle.std.specs.Option.{option_and_then};
ghost use Rattle.xs_compile.specs.Bodies.{IsTag};
ghost use Rattle.xs_compile.specs.Counted.{counted, named, template_number};
ghost use Rattle.xs_compile.specs.Labels.{IsMode, mode_at};
ghost use Rattle.xs_structure.specs.Order.{declarations};
ghost use Rattle.xs_structure.specs.Parts.{name_at};
ghost use Rattle.xs_compile.specs.Parsed.{IsScope};
ghost use Rattle.xs_compile.specs.Slots.{slot_at};
ghost use Rattle.xs_compile.specs.Tables.{place_in};
ghost use Rattle.xs_compile.specs.Modes.{modes_of};
ghost use Rattle.xs_structure.specs.Standing.{standing_of};
ghost use Rattle.xs_compile.specs.steps.State.{IsReady, IsState, modules_of, source_of};
ghost use Rattle.xs_compile.specs.steps.Tables.{HasLocals};
ghost use Rattle.xs_structure.specs.Scopes.{scopes_in, scopes_of};
ghost use Rattle.xs_structure.specs.Places.{IsIn};
ghost use Rattle.xs_elements.specs.Tags.{is_variable};
ghost use Rattle.xs_modules.specs.Results.{modules_data};
ghost use Rattle.xs_modules.specs.Sound.{IsSound};
ghost use Rattle.xs_static.specs.Faults.{IsFirstFault};
ghost use Rattle.xs_structure.specs.Modules.{records_at};
ghost use Rattle.xs_tree.specs.Record.{places};

use crate::counted::{Counted, Numbers, global_numbers, template_numbers};
use crate::modes::{Modes, mode_at};
use crate::slots::Locals;
use std::alloc::{AllocError, Global};
use std::sync::Arc;
use xs_elements::tags::Tag;
use xs_modules::Modules;
use xs_structure::places::{Place, name_at, tree_of};
use xs_structure::scopes::Scopes;
use xs_structure::standing::{Standing, standings};
use xs_tree::{InputHashes, Node};
use xs_xpath::name::Slot;
use xs_xpath::scope::Scope;

/// What is known of the whole stylesheet: the names that it declares, its modes, and of each module
/// what its nodes have by the elements around them, the namespaces in scope there, and where its
/// local variables are bound.
#[derive(Drop)]
pub(crate) struct Compiler<'m> {
    pub(crate) alloc: Global,
    pub(crate) modules: &'m Modules,
    /// The numbers of the global variables and parameters that count.
    globals: Numbers<'m>,
    /// The numbers of the templates that are called by a name.
    templates: Numbers<'m>,
    modes: Modes<'m>,
    /// Of each module, how its nodes stand.
    standings: Vec<Vec<Standing>>,
    /// Of each module, the namespaces in scope at its nodes.
    scopes: Vec<Scopes>,
    /// Of each module, its local bindings.
    locals: Vec<Locals<'m>>,
}

/// The namespaces in scope at the nodes of all modules.
fn all_scopes(alloc: Global, modules: &Modules) -> Result<Vec<Scopes>, AllocError>
    ensures { IfOk result (λ all. map scopes_in all.items
        ≡ map (λ d. scopes_of d.records) (modules_data modules.now)) }
{
    let mut all = Vec::new(alloc);
    for module in &modules.list {
        all.push(Scopes::of(alloc, &module.tree)?)?;
    }
    Ok(all)
}

/// How the nodes of all modules stand, by the namespaces in scope at them.
fn all_standings(
    alloc: Global,
    hashes: InputHashes,
    modules: &Modules,
    scopes: &[Scopes],
) -> Result<Vec<Vec<Standing>>, AllocError>
    requires { map scopes_in scopes.now
        ≡ map (λ d. scopes_of d.records) (modules_data modules.now) }
    ensures { IfOk result (λ all. map (λ table. table.items) all.items
        ≡ map (λ d. map (standing_of d.records) (places d.records)) (modules_data modules.now)) }
{
    let mut all = Vec::new(alloc);
    for number in 0..modules.list.len() {
        let tree = &modules.list[number].tree;
        all.push(standings(alloc, hashes, tree, &scopes[number])?)?;
    }
    Ok(all)
}

/// The local bindings of all modules, whose nodes stand so.
fn all_locals<'m>(
    alloc: Global,
    hashes: InputHashes,
    modules: &'m Modules,
    standings: &[Vec<Standing>],
) -> Result<Vec<Locals<'m>>, AllocError>
    requires { map (λ table. table.items) standings.now
        ≡ map (λ d. map (standing_of d.records) (places d.records)) (modules_data modules.now) }
    ensures { IfOk result (λ all. AllZip HasLocals (modules_data modules.now) all.items) }
{
    let mut all = Vec::new(alloc);
    for number in 0..modules.list.len() {
        let tree = &modules.list[number].tree;
        let _count = tree.len();
        all.push(Locals::of(alloc, hashes, tree, &standings[number])?)?;
    }
    Ok(all)
}

impl<'m> Compiler<'m> {
    /// What is known of a stylesheet without static faults, whose declarations these are; of
    /// globals those that count.
    pub(crate) fn new(
        alloc: Global,
        modules: &'m Modules,
        declared: &[Place],
        globals: &Counted<'m>,
    ) -> Result<Compiler<'m>, AllocError>
        requires inside { All (IsIn (modules_data modules.now)) declared.now }
        requires all { declared.now ≡ declarations (modules_data modules.now) }
        requires globals { (uri local : List ℕ) → place_in globals.now uri local
            ≡ counted (modules_data modules.now) (named is_variable
            (modules_data modules.now) (uri, local)) }
        requires sound { IsSound (modules_data modules.now) }
        requires accepted { IsFirstFault (modules_data modules.now) None }
        ensures modules { IfOk result (λ c. modules_of c ≡ modules_data modules.now) }
        ensures state { IfOk result IsState }
    {
        let hashes = globals.hashes();
        let globals = global_numbers(alloc, modules, declared, globals)?;
        let templates = template_numbers(alloc, hashes, modules, declared)?;
        let modes = Modes::of(alloc, hashes, modules)?;
        let scopes = all_scopes(alloc, modules)?;
        let standings = all_standings(alloc, hashes, modules, &scopes)?;
        let locals = all_locals(alloc, hashes, modules, &standings)?;
        Ok(Compiler {
            alloc,
            modules,
            globals,
            templates,
            modes,
            standings,
            scopes,
            locals,
        })
    }

    /// How a node stands.
    pub(crate) fn standing(&self, number: u32, n: Node) -> Standing
        requires state { IsState self.now }
        requires at { IsIn (modules_of self.now) («number», n) }
        ensures { result ≡ standing_of (records_at (modules_of self.now) «number») n }
    {
        self.standings[number as usize][n.place() as usize]
    }

    /// The namespaces that are in scope at a node.
    pub(crate) fn scope(&self, number: u32, n: Node) -> Result<Arc<Scope>, AllocError>
        requires state { IsState self.now }
        requires at { IsIn (modules_of self.now) («number», n) }
        ensures { IfOk result (λ scope. IsScope (modules_of self.now) («number», n)
            (arc_value scope)) }
    {
        self.scopes[number as usize].at(n)
    }

    /// The slot of the binding of a variable that is visible at an element: a local one, else the
    /// global one (11.5).
    pub(crate) fn slot_at(&self, number: u32, n: Node, uri: &str, local: &str) -> Option<Slot>
        requires ready { IsReady self.now («number», n) }
        ensures { result ≡ slot_at (modules_of self.now) («number», n) uri.now local.now }
    {
        let tree = tree_of(self.modules, number);
        match self.locals[number as usize].slot_at(tree, n, uri, local) {
            Some(slot) => Some(slot),
            None => match self.globals.get(uri, local) {
                Some(global) => Some(Slot::Global(global)),
                None => None,
            },
        }
    }

    /// The number of an element's mode, 0 without one (5.7).
    pub(crate) fn mode(&self, number: u32, n: Node) -> Result<u32, AllocError>
        requires ready { IsReady self.now («number», n) }
        ensures { IfOk result (IsMode (modes_of (modules_of self.now))
            (mode_at (modules_of self.now) («number», n))) }
    {
        match mode_at(tree_of(self.modules, number), n) {
            Some(name) => self.modes.number(name),
            None => Ok(0),
        }
    }

    /// The number of the template that an element calls (6).
    pub(crate) fn called(&self, number: u32, n: Node) -> u32
        requires ready { IsReady self.now («number», n) }
        requires tag { IsTag (source_of self.now) («number», n) Tag.CallTemplate }
        ensures { option_and_then (template_number (modules_of self.now))
            (name_at (modules_of self.now) («number», n)) ≡ Some result }
    {
        match name_at(self.modules, number, n) {
            Some((uri, local)) => match self.templates.get(uri, local) {
                Some(template) => template,
                None => unreachable!(),
            },
            None => unreachable!(),
        }
    }
}
