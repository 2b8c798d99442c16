//! Which texts of a stylesheet are kept (XSLT 1.0, 3.4).

ghost use Rattle.std.specs.Prelude.{◌≡◌, ◌<◌, ◌||◌, not, length};
ghost use Rattle.xs_elements.specs.WhiteSpace.{is_text_tag, own_space, space_value};
ghost use Rattle.xs_text.specs.WhiteSpace.{is_blank};
ghost use Rattle.xs_tree.specs.Record.{at};

use crate::scope::value_of;
use crate::tags::Tag;
use xs_text::{XML_URI, is_blank};
use xs_tree::{Node, Tree};

/// What an element says of white space by `xml:space`: whether it is preserved, or nothing.
pub fn own_space(tree: &Tree, n: Node) -> Option<bool>
    requires { n < length tree.now }
    ensures { result ≡ own_space tree.now n }
{
    let value = value_of(tree, n, XML_URI, "space")?;
    space_value(value)
}

/// What the value of an `xml:space` says; one other than `preserve` and `default` says nothing.
pub fn space_value(value: &str) -> Option<bool>
    ensures { result ≡ space_value value.now }
{
    if value == "preserve" {
        return Some(true);
    }
    if value == "default" {
        return Some(false);
    }
    None
}

/// Whether a text node is kept, inside a parent where white space is preserved or not.
pub fn is_kept(tree: &Tree, text: Node, parent: Tag, preserves: bool) -> bool
    requires { text < length tree.now }
    ensures { result ≡ (preserves || is_text_tag parent || not (is_blank (at tree.now text).text)) }
{
    preserves || matches!(parent, Tag::Text) || !is_blank(tree.text(text).as_bytes())
}
