//! A stylesheet, compiled.

ghost use Rattle.std.specs.List.{All};
ghost use Rattle.std.specs.Prelude.{◌≡◌, ◌<◌, ◌^◌, ℕ, List, None, find, length, map, IfOk, IfSome};
ghost use Rattle.std.specs.Prelude.{OnOk};
ghost use Rattle.xs_compile.specs.Represents.{Represents, is_root_element, root_line};
ghost use Rattle.xs_static.specs.Faults.{IsFirstFault};
ghost use Rattle.xs_compile.specs.Answers.{Answers};
ghost use Rattle.xs_compile.specs.declared.compiled.CompileEnd.TheVariants.{NoMemory};
ghost use Rattle.xs_compile.specs.steps.State.{IsState, modules_of};
ghost use Rattle.xs_compile.specs.steps.Trees.{AreTrees};
ghost use Rattle.xs_compile.specs.Counted.{counted, named};
ghost use Rattle.xs_structure.specs.Order.{declarations};
ghost use Rattle.xs_structure.specs.Places.{IsIn};
ghost use Rattle.xs_compile.specs.Tables.{place_in};
ghost use Rattle.xs_elements.specs.Tags.{is_variable};
ghost use Rattle.xs_modules.specs.Results.{modules_data};
ghost use Rattle.xs_modules.specs.Sound.{IsSound};
ghost use Rattle.xs_tree.specs.Record.{places};

use crate::aliases::aliases;
use crate::compiler::Compiler;
use crate::counted::{Counted, Kind as Declared, counted_of};
use crate::output::method;
use crate::spaces::strips;
use std::alloc::{AllocError, AllocFailed, Global};
use thiserror::Error;
use xs_modules::Modules;
use xs_sheet::items::Items;
use xs_sheet::sheet::Sheet;
use xs_static::{StaticFault, first_fault};
use xs_structure::declarations::declarations;
use xs_structure::hashes::hashes_of;
use xs_structure::places::Place;
use xs_structure::standing::is_element;
use xs_text::TextBuf;
use xs_tree::{Node, Tree};

/// Why a stylesheet is not compiled.
#[derive(Debug, Drop, Error)]
pub enum CompileEnd {
    /// It has a static fault, of which this is the least.
    #[error("the stylesheet is refused")]
    Refused(StaticFault),
    /// Memory ran out.
    #[error("out of memory")]
    NoMemory,
}

impl From<AllocError> for CompileEnd {
    ghost from_gives = { λ _ e. e ≡ NoMemory };

    /// Memory ran out.
    fn from(_error: AllocError) -> CompileEnd {
        CompileEnd::NoMemory
    }
}

impl<T: Drop> From<AllocFailed<T>> for CompileEnd {
    ghost from_gives = { λ _ e. e ≡ NoMemory };

    /// Memory ran out, and the value is let go.
    fn from(_error: AllocFailed<T>) -> CompileEnd {
        CompileEnd::NoMemory
    }
}

/// The names of the modules.
fn names(alloc: Global, modules: &Modules) -> Result<Vec<TextBuf>, AllocError>
    ensures { IfOk result (λ names. names.items
        ≡ map (λ d. d.name) (modules_data modules.now)) }
{
    let mut names = Vec::new(alloc);
    for module in &modules.list {
        names.push(module.name.copy()?)?;
    }
    Ok(names)
}

/// The element of a module.
fn root_element(tree: &Tree) -> Option<Node>
    ensures found { result ≡ find (is_root_element tree.now) (places tree.now) }
    ensures inside { IfSome result (λ n. n < length tree.now) }
{
    let _count = tree.len();
    for child in tree.children(Node::root()) {
        if is_element(tree, child) {
            return Some(child);
        }
    }
    None
}

/// The line of the first module's element.
fn root_line(modules: &Modules) -> u32
    requires sound { IsSound (modules_data modules.now) }
    ensures { result ≡ root_line (modules_data modules.now) }
{
    let first = &modules.list[0];
    match root_element(&first.tree) {
        Some(element) => first.lines[element.place() as usize],
        None => 0,
    }
}

/// That the nodes of each module are a tree, of no more nodes than one may have.
fn modules_are_trees(modules: &Modules)
    ensures { AreTrees (modules_data modules.now) }
{
    for number in 0..modules.list.len() {
        let _count = modules.list[number].tree.len();
    }
}

/// Refuses more declarations than have a number: past 2^32 there is no memory for what is
/// numbered.
fn check_few(declared: &[Place]) -> Result<(), AllocError>
    ensures { IfOk result (λ _. length declared.now < 2 ^ 32) }
{
    if declared.len() > u32::MAX as usize {
        return Err(AllocError);
    }
    Ok(())
}

/// What a stylesheet without static faults is compiled to, whose declarations these are.
fn sheet_of(alloc: Global, modules: &Modules, declared: &[Place]) -> Result<Sheet, AllocError>
    requires inside { All (IsIn (modules_data modules.now)) declared.now }
    requires all { declared.now ≡ declarations (modules_data modules.now) }
    requires sound { IsSound (modules_data modules.now) }
    requires accepted { IsFirstFault (modules_data modules.now) None }
    ensures { IfOk result (Represents (modules_data modules.now)) }
{
    let counted = counted_of(
        alloc,
        hashes_of(modules),
        modules,
        declared,
        Declared::Global,
    )?;
    let compiler = Compiler::new(alloc, modules, declared, &counted)?;
    sheet_by(&compiler, declared, &counted)
}

/// What a compiler makes of these declarations, of whose globals those count.
fn sheet_by<'m>(
    compiler: &Compiler<'m>,
    declared: &[Place],
    found: &Counted<'m>,
) -> Result<Sheet, AllocError>
    requires state { IsState compiler.now }
    requires inside { All (IsIn (modules_of compiler.now)) declared.now }
    requires all { declared.now ≡ declarations (modules_of compiler.now) }
    requires counted { (uri local : List ℕ) → place_in found.now uri local
        ≡ counted (modules_of compiler.now) (named is_variable (modules_of compiler.now)
        (uri, local)) }
    ensures { IfOk result (Represents (modules_of compiler.now)) }
{
    let alloc = compiler.alloc;
    let modules = compiler.modules;
    Ok(Sheet {
        templates: Items::of(compiler.templates(declared)?),
        globals: Items::of(compiler.globals(declared, found)?),
        keys: Items::of(compiler.keys(declared)?),
        sets: Items::of(compiler.sets(declared)?),
        strips: Items::of(strips(alloc, modules, declared)?),
        aliases: Items::of(aliases(alloc, found.hashes(), modules, declared)?),
        method: method(modules, declared),
        modules: Items::of(names(alloc, modules)?),
        root_line: root_line(modules),
    })
}

/// A stylesheet, compiled. It is refused exactly where it has a static fault, for the least of
/// them; what is compiled represents the modules, and refers to nothing that is not there.
///
/// The time is linear in the size of the modules.
pub fn compile(alloc: Global, modules: &Modules) -> Result<Sheet, CompileEnd>
    requires sound { IsSound (modules_data modules.now) }
    ensures { Answers (modules_data modules.now) result }
{
    if let Some(fault) = first_fault(alloc, modules)? {
        return Err(CompileEnd::Refused(fault));
    }
    let declared = declarations(alloc, modules)?;
    check_few(&declared)?;
    modules_are_trees(modules);
    Ok(sheet_of(alloc, modules, &declared)?)
}
