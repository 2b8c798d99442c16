//! String values.

ghost use Rattle.std.specs.Prelude.{◌≡◌, ◌+◌, ◌<◌, ◌++◌, length, OnOk, OnErr};
ghost use Rattle.std.specs.Str.{IsUtf8};
ghost use Rattle.xs_tree.specs.Record.{at, own_text, string_value};
ghost use Rattle.xs_tree.specs.Shape.{IsTree};
ghost use Rattle.xs_tree.specs.Walk.{texts_from};

use super::Tree;
use crate::kinds::Kind;
use crate::nodes::Node;
use std::alloc::AllocError;

impl Tree {
    /// Appends the string value of a node (XPath 1.0, 5.1 to 5.7), in time linear in what is inside
    /// it.
    pub fn string_value_into(&self, n: Node, out: &mut Vec<u8>) -> Result<(), AllocError>
        requires { n < length self.now }
        ensures appended { OnOk result (out.new.items ≡ out.old.items ++ string_value self.now n) }
        ensures utf8 { IsUtf8 out.old.items → IsUtf8 out.new.items }
        ensures refused { OnErr result (out.new.items ≡ out.old.items) }
    {
        self.texts_are_utf8();
        if self.kind(n).has_content() {
            self.texts_into(n, out)
        } else {
            out.extend_from_slice(self.text(n).as_bytes())
        }
    }

    // Appends the texts inside a node.
    fn texts_into(&self, n: Node, out: &mut Vec<u8>) -> Result<(), AllocError>
        requires { n < length self.now }
        ensures appended { OnOk result
            (out.new.items ≡ out.old.items ++ texts_from self.now n (n + 1)) }
        ensures tree { IsTree self.now }
        ensures refused { OnErr result (out.new.items ≡ out.old.items) }
    {
        let before = out.len();
        let end = self.subtree_end(n);
        for place in n.place() + 1..end {
            if self.own_text_into(Node::at(place), out).is_err() {
                out.truncate(before);
                return Err(AllocError);
            }
        }
        Ok(())
    }

    // Appends the characters of a node if it is a text node.
    fn own_text_into(&self, node: Node, out: &mut Vec<u8>) -> Result<(), AllocError>
        requires { node < length self.now }
        ensures appended { OnOk result
            (out.new.items ≡ out.old.items ++ own_text (at self.now node)) }
        ensures refused { OnErr result (out.new.items ≡ out.old.items) }
    {
        if self.kind(node) == Kind::Text {
            out.extend_from_slice(self.text(node).as_bytes())?;
        }
        Ok(())
    }
}
