//! The answers to rows, by what the rows are.

ghost use Rattle.xs_modules.specs.Sound.{IsSound};
ghost use Rattle.xs_modules.specs.Results.{modules_data};

use crate::answer::{Answer, text_of};
use crate::stylesheets::bodies::put_body;
use crate::stylesheets::circles::put_first_circle;
use crate::stylesheets::compact::{library, module};
use crate::stylesheets::elements::{put_contents, put_elements, put_first_words, put_values};
use crate::stylesheets::modules::{put_end, put_fault, put_modules};
use crate::stylesheets::rules::{put_count, put_imported, put_rules};
use crate::stylesheets::settings::{RowKind, Settings};
use crate::stylesheets::sheets::put_sheet;
use crate::stylesheets::white_space::put_kept;
use xs_build::{BuildFault, build_tree};
use xs_compile::{CompileEnd, compile};
use xs_modules::{Modules, read_modules};
use xs_sheet::sheet::Sheet;
use xs_static::first_fault;
use xs_tree::Tree;

// The most bytes of a document.
const MOST: u64 = 10_000_000;

/// The answer to a row.
pub(crate) fn put_answer(out: &Answer, settings: &Settings<'_>, input: &str) {
    let Some(kind) = settings.kind else {
        return out.put("no such rows");
    };
    match kind {
        RowKind::Circles => put_first_circle(out, input),
        RowKind::Elements | RowKind::Contents | RowKind::Values | RowKind::Words => {
            put_of_document(out, kind, input)
        }
        _ => put_of_modules(out, settings, kind, input),
    }
}

/// The tree of a document; adds that there is none where it is no document.
fn tree_of(out: &Answer, lines: &str) -> Option<Tree> {
    let text = module(out.alloc, lines).into_bytes(out);
    match build_tree(out.alloc, &text, MOST) {
        Ok(built) => return Some(built.tree),
        Err(BuildFault::NoMemory) => out.refuse(),
        Err(BuildFault::Bad { .. }) => out.put("no document"),
    }
    None
}

/// The answer to a row that is one document.
fn put_of_document(out: &Answer, kind: &RowKind, input: &str) {
    if let Some(tree) = tree_of(out, input) {
        match kind {
            RowKind::Elements => put_elements(out, &tree),
            RowKind::Contents => put_contents(out, &tree),
            RowKind::Values => put_values(out, &tree),
            _ => put_first_words(out, &tree),
        }
        drop(tree);
    }
}

/// The answer to a row of modules.
fn put_of_modules(out: &Answer, settings: &Settings<'_>, kind: &RowKind, input: &str) {
    let mut library = library(out, input);
    let read = read_modules(out.alloc, &mut library, "s");
    drop(library);
    match read {
        Ok(modules) => put_of_read(out, settings, kind, &modules),
        Err(end) => put_end(out, &end),
    }
}

/// The answer to a row of modules that were read.
fn put_of_read(out: &Answer, settings: &Settings<'_>, kind: &RowKind, modules: &Modules)
    requires sound { IsSound (modules_data modules.now) }
{
    match kind {
        RowKind::Modules => put_modules(out, modules),
        RowKind::Faults => match first_fault(out.alloc, modules) {
            Ok(fault) => put_fault(out, modules, fault),
            Err(_) => out.refuse(),
        },
        _ => put_of_compiled(out, settings, kind, modules),
    }
}

/// The answer to a row of modules that are compiled.
fn put_of_compiled(out: &Answer, settings: &Settings<'_>, kind: &RowKind, modules: &Modules)
    requires sound { IsSound (modules_data modules.now) }
{
    match compile(out.alloc, modules) {
        Ok(sheet) => {
            put_of_sheet(out, settings, kind, &sheet);
            drop(sheet);
        }
        Err(CompileEnd::Refused(fault)) => put_fault(out, modules, Some(fault)),
        Err(CompileEnd::NoMemory) => out.refuse(),
    }
}

/// The answer to a row that is a stylesheet.
fn put_of_sheet(out: &Answer, settings: &Settings<'_>, kind: &RowKind, sheet: &Sheet) {
    match kind {
        RowKind::Sheets => put_sheet(out, sheet),
        RowKind::Bodies => {
            for template in sheet.templates.as_slice() {
                put_body(out, &template.body);
            }
        }
        _ => put_of_set_document(out, settings, kind, sheet),
    }
}

/// The answer to a row that is a stylesheet, over the document that was set.
fn put_of_set_document(out: &Answer, settings: &Settings<'_>, kind: &RowKind, sheet: &Sheet) {
    let document = settings.expanded(out, settings.document, "");
    if let Some(mut tree) = tree_of(out, text_of(&document)) {
        match kind {
            RowKind::Rules => put_rules(out, sheet, &tree),
            RowKind::ImportedRules => put_imported(out, sheet, &tree),
            RowKind::Counts => put_count(out, sheet, &tree),
            _ => put_kept(out, sheet.strips.as_slice(), &mut tree),
        }
        drop(tree);
    }
}
