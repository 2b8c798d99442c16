//! Indexes of the string-values of nodes.

ghost use Rattle.std.specs.Prelude.{◌<◌, IfOk, length, map};
ghost use Rattle.std.specs.List.{All};
ghost use Rattle.xs_tree.specs.Record.{string_value};
ghost use Rattle.xs_value.specs.TextIndexes.{IsIndexOf};

use crate::conversion::node_text;
use std::alloc::{AllocError, Global};
use std::borrow::CowStr;
use std::collections::HashSet;
use xs_tree::{Node, Tree};

/// String-values of nodes, each once.
pub type TextIndex<'a> = HashSet<CowStr<'a, Global>>;

/// The string-values of nodes, in time linear in their sizes.
pub fn index_texts<'a>(
    alloc: Global,
    tree: &'a Tree,
    nodes: &[Node],
) -> Result<TextIndex<'a>, AllocError>
    requires inside { All (λ n. n < length tree.now) nodes.now }
    ensures texts { IfOk result (λ index.
        IsIndexOf index.keys (map (string_value tree.now) nodes.now)) }
{
    let mut index = HashSet::new(alloc);
    for node in nodes {
        let text = node_text(alloc, tree, *node)?;
        index.insert(text)?;
    }
    Ok(index)
}
