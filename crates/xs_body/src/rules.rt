//! The rules for nodes (XSLT 1.0, 5.5 and 5.6).

ghost use Rattle.std.specs.Prelude.{◌≡◌, ◌<◌, length, IfOk};
ghost use Rattle.xs_body_spec.specs.Rules.{import_for, rule_for};

use crate::evaluator::Evaluator;
use std::alloc::AllocError;
use xs_body_spec::finder::Finder;
use xs_body_spec::focus::Focus;
use xs_tree::Node;

impl<'a, K: Finder> Evaluator<'a, K> {
    /// The template that is the rule for a node in a mode; none where a built-in rule is.
    pub(crate) fn rule_for(&self, mode: u32, node: u32) -> Result<Option<u32>, AllocError>
        requires node { node < length self.now.world.tree }
        ensures { IfOk result (λ rule. rule ≡ rule_for self.now.world mode node) }
    {
        self.finder.rule_for(self.alloc, Node::at(node), mode)
    }

    /// The rule that the current one overrides.
    pub(crate) fn import_for(&self, current: u32, focus: Focus) -> Result<Option<u32>, AllocError>
        requires node { focus.node < length self.now.world.tree }
        ensures { IfOk result (λ rule. rule ≡ import_for self.now.world current focus) }
    {
        let node = Node::at(focus.node);
        self.finder
            .import_for(self.alloc, current, node, focus.mode)
    }
}
