//! The least static fault of a stylesheet.

ghost use Rattle.std.specs.Prelude.{◌≡◌, ◌≤◌, IfOk, OnOk, None, length, map};
ghost use Rattle.std.specs.Option.{option_to_list};
ghost use Rattle.xs_modules.specs.Reading.{most_modules};
ghost use Rattle.xs_modules.specs.Results.{module_data, modules_data};
ghost use Rattle.xs_modules.specs.Sound.{IsSound};
ghost use Rattle.xs_static.specs.Faults.{IsFirstFault, is_at_most};
ghost use Rattle.xs_static.specs.steps.Found.{modules_faults};
ghost use Rattle.xs_static.specs.steps.Least.{any_fault, earlier, fault_of, fault_where, least_of};
ghost use Rattle.xs_static.specs.steps.Whole.{AreTrees, AreWalked};
ghost use Rattle.xs_structure.specs.Places.{HaveLines};

use crate::names::Names;
use crate::sets::first_circle;
use crate::walk::{Walked, walk_module};
use std::alloc::{AllocError, Global};
use xs_modules::{Module, Modules};
use xs_structure::declarations::declarations;

/// A static fault: the number of its module, its line there, and its own number.
#[derive(Clone, Copy, PartialEq, Eq, Debug)]
pub struct StaticFault {
    /// The number of the module.
    pub module: u32,
    /// The line of the element.
    pub line: u32,
    /// The number of the fault, one of 20 to 25 and 32 to 46.
    pub number: u8,
}

/// The least of the faults that were met.
#[derive(Clone, Copy)]
pub(crate) struct Least {
    fault: Option<StaticFault>,
}

impl Least {
    /// None was met.
    pub(crate) fn none() -> Least
        ensures { result.fault ≡ None }
    {
        Least { fault: None }
    }

    /// One more was met.
    pub(crate) fn meet(&mut self, module: u32, line: u32, number: u8)
        ensures { self.new.fault ≡ earlier self.old.fault (fault_of «module» line number) }
    {
        let fault = StaticFault {
            module,
            line,
            number,
        };
        self.fault = earlier(self.fault, fault);
    }

    /// One more was met, if there is one.
    #[tactic(auto, unfolding(crate::specs::steps::Least::least_of))]
    pub(crate) fn meet_any(&mut self, module: u32, line: u32, number: Option<u8>)
        ensures { self.new.fault ≡ least_of self.old.fault (any_fault «module» line number) }
    {
        if let Some(number) = number {
            self.meet(module, line, number);
        }
    }

    /// One more was met, where something holds.
    #[tactic(auto, unfolding(crate::specs::steps::Least::least_of))]
    pub(crate) fn meet_where(&mut self, holds: bool, module: u32, line: u32, number: u8)
        ensures { self.new.fault
            ≡ least_of self.old.fault (fault_where holds «module» line number) }
    {
        if holds {
            self.meet(module, line, number);
        }
    }

    /// One more was met, if there is one.
    #[tactic(auto, unfolding(crate::specs::steps::Least::least_of))]
    fn meet_fault(&mut self, fault: Option<StaticFault>)
        ensures { self.new.fault ≡ least_of self.old.fault (option_to_list fault) }
    {
        if let Some(fault) = fault {
            self.fault = earlier(self.fault, fault);
        }
    }
}

/// The lesser of the fault that there is, if there is one, and another.
fn earlier(least: Option<StaticFault>, fault: StaticFault) -> Option<StaticFault>
    ensures { result ≡ earlier least fault }
{
    match least {
        Some(least) => {
            if is_at_most(least, fault) {
                Some(least)
            } else {
                Some(fault)
            }
        }
        None => Some(fault),
    }
}

/// Whether a fault comes before another or is the same, by the module, the line and the number.
fn is_at_most(a: StaticFault, b: StaticFault) -> bool
    ensures { result ≡ is_at_most a b }
{
    a.module < b.module
        || (a.module == b.module && (a.line < b.line || (a.line == b.line && a.number <= b.number)))
}

/// The walk over each module.
fn walk_modules<'m>(
    alloc: Global,
    modules: &'m [Module],
    names: &Names<'m>,
    least: &mut Least,
) -> Result<Vec<Walked>, AllocError>
    requires few { length modules.now ≤ most_modules }
    requires lines { HaveLines (map module_data modules.now) }
    ensures walked { IfOk result (λ all. AreWalked (map module_data modules.now) all.items) }
    ensures trees { OnOk result (AreTrees (map module_data modules.now)) }
    ensures faults { OnOk result (least.new.fault ≡ least_of least.old.fault
        (modules_faults (map module_data modules.now) names.now
        (length (map module_data modules.now)))) }
{
    let mut all = Vec::new(alloc);
    for number in 0..modules.len() {
        let module = &modules[number];
        let _count = module.tree.len();
        let walked = walk_module(alloc, module, number as u32, names, least)?;
        all.push(walked)?;
    }
    Ok(all)
}

/// The least static fault of a stylesheet by module, line and number, none where it has none.
pub fn first_fault(alloc: Global, modules: &Modules) -> Result<Option<StaticFault>, AllocError>
    requires sound { IsSound (modules_data modules.now) }
    ensures first { IfOk result (λ fault. IsFirstFault (modules_data modules.now) fault) }
{
    let mut least = Least::none();
    let declared = declarations(alloc, modules)?;
    let names = Names::of(alloc, modules, &declared, &mut least)?;
    let walked = walk_modules(alloc, &modules.list, &names, &mut least)?;
    least.meet_fault(first_circle(alloc, modules, &declared, &walked)?);
    Ok(least.fault)
}
