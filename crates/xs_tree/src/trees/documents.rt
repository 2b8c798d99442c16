//! The document that a node is in.

ghost use Rattle.std.specs.Prelude.{◌≡◌, ◌<◌, ◌≤◌, length};
ghost use Rattle.xs_tree.specs.Axis.{root_of};

use super::Tree;
use crate::nodes::Node;

impl Tree {
    /// The root of the document that a node is in (XPath 1.0, 5.1).
    ///
    /// Goes from one document's end to the next, and takes constant time for each document before
    /// the node's.
    pub fn root_of(&self, n: Node) -> Node
        requires { n < length self.now }
        ensures root { result ≡ root_of self.now n }
        ensures before { result ≤ n }
    {
        let mut root = Node::root();
        let mut end = self.subtree_end(root);
        while end <= n.place() {
            root = Node::at(end);
            end = self.subtree_end(root);
        }
        root
    }
}
