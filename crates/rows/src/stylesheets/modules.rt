//! Modules that were read, and faults, as texts.

use crate::answer::Answer;
use xs_modules::{Module, Modules, ModulesEnd};
use xs_static::StaticFault;

// The most modules that an answer names.
const MOST: usize = 6;

/// Adds a module: its name, the precedences that it imports and has, and the number of the module
/// that mentions it.
fn put_module(out: &Answer, module: &Module) {
    out.put_ended(module.name.as_str(), b' ');
    out.put_pair(module.imports_from, b'-', module.precedence);
    if let Some((number, _)) = module.mention {
        out.put_count(" by ", number as u64);
    }
    out.put_if(module.lines.len() != module.tree.len(), " with other lines");
}

/// Adds the first modules, and how many there are where there are more.
pub(crate) fn put_modules(out: &Answer, modules: &Modules) {
    let mut is_first = true;
    for module in modules.list.iter().take(MOST) {
        out.put_if(!is_first, "; ");
        put_module(out, module);
        is_first = false;
    }
    if modules.list.len() > MOST {
        out.put_count("; .. ", modules.list.len() as u64);
    }
}

/// Adds a fault: its number, module and line.
pub(crate) fn put_numbered(out: &Answer, number: u8, module: &str, line: u32) {
    out.put_count("fault ", number as u64);
    out.put_in(b' ', module, b' ');
    out.put_whole(line as u64);
}

/// Adds why modules were not read.
pub(crate) fn put_end(out: &Answer, end: &ModulesEnd) {
    match end {
        ModulesEnd::Failed { name } => out.put_both("failed ", name.as_str()),
        ModulesEnd::Refused {
            number,
            module,
            line,
        } => put_numbered(out, *number, module.as_str(), *line),
        ModulesEnd::NoMemory => out.refuse(),
    }
}

/// Adds a static fault, if there is one.
pub(crate) fn put_fault(out: &Answer, modules: &Modules, fault: Option<StaticFault>) {
    let Some(fault) = fault else {
        return;
    };
    match modules.list.get(fault.module as usize) {
        Some(module) => put_numbered(out, fault.number, module.name.as_str(), fault.line),
        None => put_numbered(out, fault.number, "?", fault.line),
    }
}
