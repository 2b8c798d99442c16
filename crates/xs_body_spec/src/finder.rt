//! What finds rules, nodes by key and numbers, and evaluates expressions.

ghost use Rattle.std.specs.Prelude.{◌≡◌, ◌<◌, List, IfOk, length};
ghost use Rattle.xs_pattern_spec.specs.Counted.{number_list};
ghost use Rattle.xs_pattern_spec.specs.Rules.{chosen, chosen_import};
ghost use Rattle.xs_body_spec.specs.Rules.{template_of};
ghost use Rattle.xs_sheet.specs.declared.sheet.Sheet.{Sheet};
ghost use Rattle.xs_tree.specs.Record.{Record};

use std::alloc::{AllocError, Global};
use xs_eval_spec::expressions::ExprEvaluator;
use xs_sheet::body::NumberDecl;
use xs_trace::item::Site;
use xs_tree::Node;

/// Finds the rules of nodes, nodes by key and the numbers that are counted, for a stylesheet and
/// over a tree.
pub trait Finder: ExprEvaluator {
    /// The stylesheet.
    ghost sheet: { Self → Sheet };

    /// The tree.
    ghost tree: { Self → List Record };

    /// Whether what it finds by was made of them.
    ghost is_ready: { Self → Type 0 };

    /// The template whose rule a node takes in a mode (XSLT 1.0, 5.5); none, where the built-in
    /// rule is.
    fn rule_for(&self, alloc: Global, node: Node, mode: u32) -> Result<Option<u32>, AllocError>
        requires ready { is_ready self.now }
        requires node { node < length (tree self.now) }
        ensures rule { IfOk result (λ rule. rule ≡ template_of (chosen (Self.tables self.now)
            (sheet self.now).templates (tree self.now) mode node)) };

    /// The same of the rules that were imported into the module of the template with a number
    /// (5.6).
    fn import_for(
        &self,
        alloc: Global,
        under: u32,
        node: Node,
        mode: u32,
    ) -> Result<Option<u32>, AllocError>
        requires ready { is_ready self.now }
        requires node { node < length (tree self.now) }
        ensures rule { IfOk result (λ rule. rule ≡ template_of (chosen_import under
            (Self.tables self.now) (sheet self.now).templates (tree self.now) mode node)) };

    /// The numbers that an instruction at a place counts for a node (7.7).
    fn numbers_of(
        &self,
        alloc: Global,
        site: Site,
        decl: &NumberDecl,
        node: Node,
    ) -> Result<Vec<u64>, AllocError>
        requires ready { is_ready self.now }
        requires node { node < length (tree self.now) }
        ensures numbers { IfOk result (λ list. list.items
            ≡ number_list (Self.tables self.now) (tree self.now) decl.now node) };
}
