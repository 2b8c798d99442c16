//! Rows on documents: their faults, and their trees.

use crate::answer::{Answer, text_of};
use crate::fields::cut;
use crate::reading::notation::put_decoded;
use crate::reading::trees::put_tree_of;
use crate::repeats::put_repeated;
use std::alloc::{AllocError, Global};
use xs_build::{BuildFault, Built, build_tree};
use xs_tree::Tree;

/// The most bytes of a document whose row gives no limit.
const LIMIT: u16 = 65_000;

/// Adds a repeated text to what documents begin with.
pub(crate) fn put_start(start: &Answer, repeated: &str) {
    let text = Answer::new(start.alloc);
    put_repeated(&text, repeated);
    put_decoded(start, text_of(&text.into_bytes(start)));
}

/// Adds the first fault of a document, which begins with `start`; its limit comes after ` | `.
pub(crate) fn put_fault_of(out: &Answer, start: &Answer, input: &str) {
    let (document, limit) = cut(input, " | ");
    let bytes = Answer::new(out.alloc);
    bytes.put_bytes(&start.copy(out));
    put_decoded(&bytes, document);
    let limit = limit.parse::<u16>().unwrap_or(LIMIT);
    match build_tree(out.alloc, &bytes.into_bytes(out), limit as u64).err() {
        None => out.put("no fault"),
        Some(fault) => put_fault(out, fault),
    }
}

// Adds a fault.
fn put_fault(out: &Answer, fault: BuildFault) {
    match fault {
        BuildFault::Bad { number, line } => {
            out.put_count("fault ", number as u64);
            out.put_count(" at line ", line as u64);
        }
        BuildFault::NoMemory => out.refuse(),
    }
}

/// The input of a row of several lines.
#[derive(Drop)]
pub(crate) struct Row<'t> {
    /// The document.
    pub(crate) document: Answer,
    /// The nodes, a line for each.
    pub(crate) nodes: Answer,
    /// The nodes that are added after stripping.
    pub(crate) later_nodes: Answer,
    /// An `x` at the place of each node that is marked.
    pub(crate) marks: &'t str,
}

impl<'t> Row<'t> {
    /// A row without input.
    pub(crate) fn new(alloc: Global) -> Row<'t> {
        Row {
            document: Answer::new(alloc),
            nodes: Answer::new(alloc),
            later_nodes: Answer::new(alloc),
            marks: "",
        }
    }

    /// Removes the input.
    pub(crate) fn clear(&mut self) {
        self.document.clear();
        self.nodes.clear();
        self.later_nodes.clear();
        self.marks = "";
    }

    /// Adds a line to the document.
    pub(crate) fn put_line(&self, line: &str) {
        put_decoded(&self.document, line);
        self.document.put("\n");
    }

    /// Adds the tree of the document, or its fault.
    pub(crate) fn put_document(&self, out: &Answer) {
        match build_tree(out.alloc, &self.document.copy(out), LIMIT as u64) {
            Ok(built) => put_tree_of(out, self, built),
            Err(fault) => {
                out.put("= ");
                put_fault(out, fault);
                out.put("\n");
            }
        }
    }

    /// Adds the tree of the nodes.
    pub(crate) fn put_nodes(&self, out: &Answer) {
        match root_alone(out.alloc) {
            Ok(built) => put_tree_of(out, self, built),
            Err(_) => out.refuse(),
        }
    }
}

// The tree of a root alone.
fn root_alone(alloc: Global) -> Result<Built, AllocError> {
    let mut lines = Vec::new(alloc);
    lines.push(0)?;
    Ok(Built {
        tree: Tree::new(alloc)?,
        lines,
    })
}
