//! Local bindings of variables (XSLT 1.0, 11.5).

ghost use Rattle.std.specs.Prelude.{◌≡◌, ◌<◌, length, option_map};
ghost use Rattle.xs_elements.specs.Nodes.{name_data};
ghost use Rattle.xs_elements.specs.Reading.{is_seen};
ghost use Rattle.xs_elements.specs.Tags.{tag_of};
ghost use Rattle.xs_structure.specs.Bindings.{is_local, local_name};

use xs_elements::scope::{Expanded, own_name};
use xs_elements::tags::{Tag, is_top_level};
use xs_tree::{Node, Tree};

/// Whether a node binds a local variable: a variable or a parameter that is not of the top level,
/// and is looked at.
pub fn is_local(tree: &Tree, n: Node, tag: Tag, seen: bool) -> bool
    requires inside { n < length tree.now }
    requires tag { tag ≡ tag_of tree.now n }
    requires seen { seen ≡ is_seen tree.now n }
    ensures { result ≡ is_local tree.now n }
{
    if !matches!(tag, Tag::Variable | Tag::Param) {
        return false;
    }
    !is_top_level(tree, n) && seen
}

/// The name of the local binding that a node is, if it is one.
pub fn local_name(tree: &Tree, n: Node, tag: Tag, seen: bool) -> Option<Expanded<'_>>
    requires inside { n < length tree.now }
    requires tag { tag ≡ tag_of tree.now n }
    requires seen { seen ≡ is_seen tree.now n }
    ensures { option_map name_data result ≡ local_name tree.now n }
{
    if is_local(tree, n, tag, seen) {
        own_name(tree, n)
    } else {
        None
    }
}
