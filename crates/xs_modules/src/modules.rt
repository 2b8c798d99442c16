//! What is known of a stylesheet's modules.

ghost use Rattle.std.specs.Prelude.{◌≡◌};
ghost use Rattle.xs_modules.specs.declared.modules.ModulesEnd.TheVariants.{NoMemory};

use std::alloc::{AllocError, AllocFailed};
use thiserror::Error;
use xs_text::TextBuf;
use xs_tree::{Node, Tree};

/// A module of a stylesheet.
#[derive(Drop)]
pub struct Module {
    /// Its nodes.
    pub tree: Tree,
    /// The line of each node, in document order.
    pub lines: Vec<u32>,
    /// The name that it was asked for by.
    pub name: TextBuf,
    /// The import precedence of the stylesheet that it is a part of; a higher number is a higher
    /// precedence (XSLT 1.0, 2.6.2).
    pub precedence: u32,
    /// The precedences that its stylesheet imports, directly or not, are those from this one up to
    /// just below its own.
    pub imports_from: u32,
    /// The number of the module and the element that include or import it, none for the first.
    pub mention: Option<(u32, Node)>,
}

/// The modules of a stylesheet.
#[derive(Drop)]
pub struct Modules {
    /// The modules by their numbers: depth first in the order of lines, the first one being the
    /// stylesheet that was asked for.
    pub list: Vec<Module>,
}

/// Why modules were not read.
#[derive(Debug, Drop, Error)]
pub enum ModulesEnd {
    /// A module could not be read.
    #[error("a module could not be read")]
    Failed {
        /// The name that was asked for.
        name: TextBuf,
    },
    /// A module is no document (1 to 12), or one of its elements mentions a module that is on its
    /// own path (30) or one more than there may be (31).
    #[error("a module is refused")]
    Refused {
        /// The number of the fault.
        number: u8,
        /// The name of the module.
        module: TextBuf,
        /// The line that has it; 0 is the module as a whole.
        line: u32,
    },
    /// Memory ran out.
    #[error("out of memory")]
    NoMemory,
}

impl From<AllocError> for ModulesEnd {
    ghost from_gives = { λ _ e. e ≡ NoMemory };

    /// Memory ran out.
    fn from(_error: AllocError) -> ModulesEnd {
        ModulesEnd::NoMemory
    }
}

impl<T: Drop> From<AllocFailed<T>> for ModulesEnd {
    ghost from_gives = { λ _ e. e ≡ NoMemory };

    /// Memory ran out, and the value is let go.
    fn from(_error: AllocFailed<T>) -> ModulesEnd {
        ModulesEnd::NoMemory
    }
}
