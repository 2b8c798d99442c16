//! Where a body is evaluated.

ghost use Rattle.std.specs.Prelude.{◌≡◌, ◌-◌};
ghost use Rattle.xs_body_spec.specs.World.{alone_at, at_node, by_rule, captured_in, in_list};
ghost use Rattle.xs_body_spec.specs.World.{with_levels, without_rule};

use xs_tree::Node;

/// The current node, with its place in the current node list (XSLT 1.0, 1 and 5.1), and the current
/// rule and mode (5.6 and 5.7).
#[derive(Clone, Copy, Debug)]
pub struct Focus {
    /// The place of the current node.
    pub node: u32,
    /// Its position in the current node list.
    pub position: u32,
    /// How many nodes the list has.
    pub size: u32,
    /// The number of the template that is the current rule, where there is one.
    pub rule: Option<u32>,
    /// The number of the mode.
    pub mode: u32,
    /// How many levels of templates may still be begun.
    pub depth: u32,
    /// How many levels of attribute sets may still be begun.
    pub set_levels: usize,
    /// Whether what is put is captured.
    pub is_captured: bool,
}

impl Focus {
    /// A node alone in its list.
    pub fn alone_at(node: Node, depth: u32, set_levels: usize) -> Focus
        ensures { result ≡ alone_at node depth set_levels }
    {
        Focus {
            node: node.place(),
            position: 1,
            size: 1,
            rule: None,
            mode: 0,
            depth,
            set_levels,
            is_captured: false,
        }
    }

    /// At another node of the list.
    pub fn at_node(self, node: Node, position: u32) -> Focus
        ensures { result ≡ at_node node position self }
    {
        Focus {
            node: node.place(),
            position,
            ..self
        }
    }

    /// In a list of so many nodes.
    pub fn in_list(self, size: u32) -> Focus
        ensures { result ≡ in_list size self }
    {
        Focus { size, ..self }
    }

    /// In captured content.
    pub fn in_capture(self) -> Focus
        ensures { result ≡ captured_in self }
    {
        Focus {
            is_captured: true,
            ..self
        }
    }

    /// Where so many levels of templates and of attribute sets may be begun.
    pub fn with_levels(self, depth: u32, set_levels: usize) -> Focus
        ensures { result ≡ with_levels depth set_levels self }
    {
        Focus {
            depth,
            set_levels,
            ..self
        }
    }

    /// In a template that is a rule in a mode.
    pub fn by_rule(self, rule: u32, mode: u32) -> Focus
        ensures { result ≡ by_rule rule mode self }
    {
        Focus {
            rule: Some(rule),
            mode,
            ..self
        }
    }

    /// Where no rule is current.
    pub fn without_rule(self) -> Focus
        ensures { result ≡ without_rule self }
    {
        Focus { rule: None, ..self }
    }
}
