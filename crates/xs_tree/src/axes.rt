//! The axes of XPath.
/// An axis: which nodes stand to a node in a certain way (XPath 1.0, 2.2).
#[derive(Clone, Copy, PartialEq, Eq, Debug)]
pub enum Axis {
    /// The children of the node.
    Child,
    /// The children of the node, their children, and so on.
    Descendant,
    /// The parent of the node.
    Parent,
    /// The parent of the node, the parent of that, and so on. Goes backwards.
    Ancestor,
    /// The children of the node's parent after the node.
    FollowingSibling,
    /// The children of the node's parent before the node. Goes backwards.
    PrecedingSibling,
    /// All after the node in document order, except its descendants, attributes and namespace
    /// nodes.
    Following,
    /// All before the node in document order, except its ancestors, attributes and namespace
    /// nodes. Goes backwards.
    Preceding,
    /// The attributes of the node.
    Attribute,
    /// The namespace nodes of the node.
    Namespace,
    /// The node itself.
    SelfNode,
    /// The node and its descendants.
    DescendantOrSelf,
    /// The node and its ancestors. Goes backwards.
    AncestorOrSelf,
}
