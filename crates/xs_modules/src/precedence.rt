//! Import precedence (XSLT 1.0, 2.6.2).

ghost use Rattle.std.specs.Prelude.{◌≡◌, ◌<◌, ◌≤◌, length, IfOk, OnOk};
ghost use Rattle.xs_modules.specs.Precedence.{in_order, joined, mentioned_imports, no_imports};
ghost use Rattle.xs_modules.specs.Precedence.{rank_at, rank_of};
ghost use Rattle.xs_modules.specs.Reading.{most_modules};
ghost use Rattle.xs_modules.specs.steps.Views.{imports_data, rank_data, sheet_data, sheets_data};

use std::alloc::{AllocError, Global};

/// A stylesheet: a module that is imported, or the first one, with the modules that it includes.
#[derive(Clone, Copy)]
pub(crate) struct Sheet {
    /// The number of that module.
    pub(crate) number: u32,
    /// How many stylesheets it imports, directly or not.
    pub(crate) below: usize,
}

/// The stylesheets that a module imports, directly or not, each after all that it imports itself.
#[derive(Drop)]
pub(crate) struct Imports {
    /// Those of its own imports.
    own: Vec<Sheet>,
    /// Those of the modules that it includes.
    included: Vec<Sheet>,
}

impl Imports {
    /// None.
    pub(crate) fn new(alloc: Global) -> Imports
        ensures { imports_data result ≡ no_imports }
    {
        Imports {
            own: Vec::new(alloc),
            included: Vec::new(alloc),
        }
    }

    /// Adds what one more mention brings: `within` is what the module imports that it names, whose
    /// number is `number`. An import is a stylesheet of its own, an include is not.
    pub(crate) fn put(
        &mut self,
        is_import: bool,
        number: u32,
        within: Imports,
    ) -> Result<(), AllocError>
        ensures { OnOk result (imports_data self.new ≡ joined (imports_data self.old)
            (mentioned_imports is_import number (imports_data within))) }
    {
        let mut sheets = within.in_order()?;
        if is_import {
            let below = sheets.len();
            sheets.push(Sheet { number, below })?;
            self.own.append(&mut sheets)
        } else {
            self.included.append(&mut sheets)
        }
    }

    /// All of them in post-order of the import tree: a module's own come first.
    pub(crate) fn in_order(self) -> Result<Vec<Sheet>, AllocError>
        ensures { IfOk result (λ sheets.
            sheets_data sheets.items ≡ in_order (imports_data self)) }
    {
        let Imports { own, included } = self;
        let mut sheets = own;
        let mut last = included;
        sheets.append(&mut last)?;
        Ok(sheets)
    }
}

/// The import precedence of a stylesheet.
#[derive(Clone, Copy)]
pub(crate) struct Rank {
    /// Its place in post-order of the import tree.
    pub(crate) precedence: u32,
    /// The precedence of the first of those that it imports, directly or not; its own where it
    /// imports none.
    pub(crate) imports_from: u32,
}

/// The rank of the stylesheet of this number among all of them, in post-order.
pub(crate) fn rank_of(sheets: &[Sheet], number: u32) -> Rank
    requires { length sheets.now ≤ most_modules }
    ensures { rank_data result ≡ rank_of (sheets_data sheets.now) number }
{
    for (place, sheet) in sheets.iter().enumerate() {
        if sheet.number == number {
            return rank_at(place, sheet);
        }
    }
    Rank {
        precedence: 0,
        imports_from: 0,
    }
}

// The rank of the stylesheet at a place in post-order.
fn rank_at(place: usize, sheet: &Sheet) -> Rank
    requires { place < most_modules }
    ensures { rank_data result ≡ rank_at place (sheet_data sheet.now) }
{
    Rank {
        precedence: place as u32,
        imports_from: place.saturating_sub(sheet.below) as u32,
    }
}
