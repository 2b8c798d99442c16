//! What is true of trees. The functions do nothing: their contracts are the laws.

ghost use Rattle.xs_tree.specs.Record.{attributes, children, namespaces, texts};
ghost use Rattle.xs_tree.specs.StrippingLaws.{HasTextsThatStay, KeepsInside, KeepsNodes};

/// A node of a tree without some of its text nodes has the children, attributes, namespace nodes
/// and texts that it had, except those that are left out.
pub fn stripping_keeps_nodes()
    ensures children { KeepsNodes children }
    ensures attributes { KeepsNodes attributes }
    ensures namespaces { KeepsNodes namespaces }
    ensures texts { KeepsNodes texts }
{}

/// What was inside a node is inside it still, if it is not left out.
pub fn stripping_keeps_inside()
    ensures { KeepsInside }
{}

/// A string value is that of the texts that are not left out (XPath 1.0, 5.1 to 5.7).
pub fn stripped_string_values()
    ensures { HasTextsThatStay }
{}
