//! One module, fetched and read as a document.

ghost use Rattle.std.specs.Prelude.{◌≡◌, length, IfOk};
ghost use Rattle.xs_modules.specs.steps.Fetching.{Fetches};

use std::alloc::Global;
use xs_build::{BuildFault, Built, build_tree};
use xs_outside::{FetchEnd, Library};

/// The most bytes of one module of a stylesheet.
pub(crate) const MODULE_LIMIT: u64 = 4_194_304;

/// Why a module is no document.
#[derive(Clone, Copy)]
pub(crate) enum Unread {
    /// It could not be read.
    Failed,
    /// A line of it is bad.
    Bad {
        /// The number of the fault, 1 to 12.
        number: u8,
        /// The line that has it; 0 is the module as a whole.
        line: u32,
    },
    /// Memory ran out.
    NoMemory,
}

/// The document of a module of this name.
pub(crate) fn fetch_document<L: Library>(
    alloc: Global,
    library: &mut L,
    name: &str,
) -> Result<Built, Unread>
    ensures files { L.files library.new ≡ L.files library.old }
    ensures fetches { Fetches result (L.files library.old) name.now
        (L.asked library.old) (L.asked library.new) (L.failed library.old) (L.failed library.new) }
    ensures lines { IfOk result (λ built. length built.lines.items ≡ length built.tree) }
{
    let bytes = match library.fetch(alloc, name, MODULE_LIMIT) {
        Ok(bytes) => bytes,
        Err(FetchEnd::Failed) => return Err(Unread::Failed),
        Err(FetchEnd::NoMemory) => return Err(Unread::NoMemory),
    };
    match build_tree(alloc, &bytes, MODULE_LIMIT) {
        Ok(built) => Ok(built),
        Err(BuildFault::Bad { number, line }) => Err(Unread::Bad { number, line }),
        Err(BuildFault::NoMemory) => Err(Unread::NoMemory),
    }
}
