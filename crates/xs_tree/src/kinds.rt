//! The kinds of node.

ghost use Rattle.std.specs.Prelude.{◌≡◌};
ghost use Rattle.xs_tree.specs.Kinds.{bears_name, can_hold, has_content, has_local_name};
ghost use Rattle.xs_tree.specs.Kinds.{is_child_kind, rank};

/// The kinds of node of a tree (XPath 1.0, 5.1 to 5.7).
#[derive(Clone, Copy, PartialEq, Eq, Debug)]
pub enum Kind {
    /// The root of a document.
    Root,
    /// An element.
    Element,
    /// An attribute of an element.
    Attribute,
    /// A namespace node: a prefix that is in scope at an element, and its URI.
    Space,
    /// A run of characters.
    Text,
    /// A comment.
    Comment,
    /// A processing instruction.
    Pi,
}

impl Kind {
    /// Whether a node of this kind has an expanded name (XPath 1.0, 5).
    pub fn bears_name(self) -> bool
        ensures { result ≡ bears_name self }
    {
        matches!(
            self,
            Kind::Element | Kind::Attribute | Kind::Space | Kind::Pi
        )
    }

    /// Whether what names a node of this kind is a local part alone (XPath 1.0, 5.4 and 5.5).
    pub fn has_local_name(self) -> bool
        ensures { result ≡ has_local_name self }
    {
        matches!(self, Kind::Space | Kind::Pi)
    }

    /// Whether a node of this kind can be a child (XPath 1.0, 5.1 and 5.2).
    pub fn is_child(self) -> bool
        ensures { result ≡ is_child_kind self }
    {
        matches!(self, Kind::Element | Kind::Text | Kind::Comment | Kind::Pi)
    }

    /// Whether a node of this kind can be the parent of one of another (XPath 1.0, 5.1 to 5.4).
    pub fn can_hold(self, held: Kind) -> bool
        ensures { result ≡ can_hold self held }
    {
        match self {
            Kind::Root => held.is_child(),
            Kind::Element => held != Kind::Root,
            _ => false,
        }
    }

    /// The place of nodes of this kind inside an element: namespace nodes 0, attributes 1, children
    /// 2 (XPath 1.0, 5).
    pub fn rank(self) -> u8
        ensures { result ≡ rank self }
    {
        match self {
            Kind::Space => 0,
            Kind::Attribute => 1,
            _ => 2,
        }
    }

    /// Whether the string value of a node of this kind is that of the texts inside it (XPath 1.0,
    /// 5.1 and 5.2).
    pub fn has_content(self) -> bool
        ensures { result ≡ has_content self }
    {
        matches!(self, Kind::Root | Kind::Element)
    }
}
