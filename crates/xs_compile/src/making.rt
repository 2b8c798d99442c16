//! Parts of instructions that make elements and attributes, except their content.

ghost use Rattle.std.specs.Prelude.{◌≡◌, ◌<◌, ◌&&◌, ◌++◌, ◌∷◌, [], true, false, codes, length};
ghost use Rattle.std.specs.Prelude.{IfOk, IfSome, OnOk, filter, not, option_map, if◌then◌else◌};
ghost use Rattle.std.specs.Arc.{arc_value};
ghost use Rattle.std.specs.List.{AllZip};
ghost use Rattle.std.specs.Str.{bytes_eq};
ghost use Rattle.xs_compile.specs.Bodies.{IsLiteralStart, IsMadeName, IsPutAttribute};
ghost use Rattle.xs_compile.specs.Bodies.{put_attributes};
ghost use Rattle.xs_structure.specs.Excluded.{copied_spaces, is_left_out};
ghost use Rattle.xs_compile.specs.Labels.{labels_in, own_label};
ghost use Rattle.xs_compile.specs.Parsed.{IsScope};
ghost use Rattle.xs_structure.specs.Parts.{pairs_at, reading_at, tag_at};
ghost use Rattle.xs_compile.specs.steps.Tags.{is_making_named};
ghost use Rattle.xs_compile.specs.steps.State.{IsReady, modules_of, source_of};
ghost use Rattle.xs_structure.specs.Places.{IsIn};
ghost use Rattle.xs_elements.specs.declared.reading.Reading.TheVariants.{Literal};
ghost use Rattle.xs_elements.specs.Nodes.{pair_at, value_of};
ghost use Rattle.xs_elements.specs.Reading.{is_xslt};
ghost use Rattle.xs_elements.specs.Tags.{xslt_uri};
ghost use Rattle.xs_modules.specs.Results.{modules_data};
ghost use Rattle.xs_structure.specs.Modules.{records_at};
ghost use Rattle.xs_tree.specs.Record.{at, attributes, is_attribute, is_namespace, uri_at};

use crate::compiler::Compiler;
use crate::labels::labels_in;
use std::alloc::{AllocError, Global};
use std::sync::Arc;
use xs_elements::scope::value_of;
use xs_elements::tags::XSLT_URI;
use xs_modules::Modules;
use xs_sheet::body::{LiteralStart, MadeName};
use xs_sheet::items::Items;
use xs_sheet::scoped::{Namespaces, ValueTemplate};
use xs_structure::places::tree_of;
use xs_text::TextBuf;
use xs_trace::event::Label;
use xs_tree::{Node, Tree};
use xs_xpath::scope::Scope;

/// The names of the attribute sets that a literal element uses, if it says them (XSLT 1.0, 7.1.4).
fn sets_value(modules: &Modules, number: u32, n: Node) -> Option<&str>
    requires at { IsIn (modules_data modules.now) («number», n) }
    ensures { option_map (λ value. value.now) result
        ≡ value_of (records_at (modules_data modules.now) «number») n
        xslt_uri (codes "use-attribute-sets") }
{
    value_of(tree_of(modules, number), n, XSLT_URI, "use-attribute-sets")
}

/// The text of a node itself.
fn own_text(modules: &Modules, number: u32, n: Node) -> &str
    requires at { IsIn (modules_data modules.now) («number», n) }
    ensures { result.now ≡ (at (records_at (modules_data modules.now) «number») n).text }
{
    tree_of(modules, number).text(n)
}

/// Adds an attribute of a literal element, unless it is one of XSLT.
fn push_put(tree: &Tree, attribute: Node, out: &mut Vec<Node>) -> Result<(), AllocError>
    requires { attribute < length tree.now }
    ensures { OnOk result (out.new.items ≡ (if not (is_xslt (uri_at tree.now attribute))
        then out.old.items ++ attribute ∷ [] else out.old.items)) }
{
    if tree.uri(attribute) != XSLT_URI {
        out.push(attribute)?;
    }
    Ok(())
}

/// The attributes of a literal element except those of XSLT.
fn put_nodes(alloc: Global, tree: &Tree, n: Node) -> Result<Vec<Node>, AllocError>
    requires { n < length tree.now }
    ensures { IfOk result (λ nodes. nodes.items
        ≡ filter (λ a. not (is_xslt (uri_at tree.now a))) (attributes tree.now n)) }
{
    let mut nodes = Vec::new(alloc);
    for attribute in tree.attributes(n) {
        push_put(tree, attribute, &mut nodes)?;
    }
    Ok(nodes)
}

/// The texts of a prefix and its URI, shared.
fn shared(pair: &(TextBuf, TextBuf)) -> Result<(TextBuf, TextBuf), AllocError>
    ensures { IfOk result (λ copy. copy ≡ pair.now) }
{
    Ok((pair.0.copy()?, pair.1.copy()?))
}

/// Whether a pair is of this prefix and this URI.
fn is_pair(pair: &(TextBuf, TextBuf), prefix: &str, uri: &str) -> bool
    ensures { result ≡ (bytes_eq pair.now.0 prefix.now && bytes_eq pair.now.1 uri.now) }
{
    pair.0.as_str() == prefix && pair.1.as_str() == uri
}

/// A scope's pair of this prefix and this URI, if it has that.
fn pair_of<'s>(scope: &'s Scope, prefix: &str, uri: &str) -> Option<&'s (TextBuf, TextBuf)>
    ensures { IfSome result (λ pair. pair.now ≡ (prefix.now, uri.now)) }
{
    for pair in &scope.pairs {
        if is_pair(pair, prefix, uri) {
            return Some(pair);
        }
    }
    None
}

/// A prefix and a URI: the texts of a scope, where it has that pair.
fn pair_in(
    alloc: Global,
    scope: &Scope,
    prefix: &str,
    uri: &str,
) -> Result<(TextBuf, TextBuf), AllocError>
    ensures { IfOk result (λ pair. pair ≡ (prefix.now, uri.now)) }
{
    match pair_of(scope, prefix, uri) {
        Some(pair) => shared(pair),
        None => Ok((TextBuf::of(alloc, prefix)?, TextBuf::of(alloc, uri)?)),
    }
}

impl<'m> Compiler<'m> {
    /// A name that is made when the instruction runs (XSLT 1.0, 7.1.2 and 7.1.3).
    pub(crate) fn made_name(&self, number: u32, n: Node) -> Result<MadeName, AllocError>
        requires ready { IsReady self.now («number», n) }
        requires tag { is_making_named (tag_at (modules_of self.now) («number», n)) ≡ true }
        ensures { IfOk result (IsMadeName (source_of self.now) («number», n)) }
    {
        let scope = self.scope(number, n)?;
        Ok(MadeName {
            name: self.template_of(number, n, &scope, "name")?,
            namespace: self.template_if(number, n, &scope, "namespace")?,
            scope: Namespaces::of(scope),
        })
    }

    /// A literal element except its content (7.1.1).
    #[inline(never)]
    pub(crate) fn literal_start(&self, number: u32, n: Node) -> Result<LiteralStart, AllocError>
        requires ready { IsReady self.now («number», n) }
        requires literal { reading_at (modules_of self.now) («number», n) ≡ Literal }
        ensures { IfOk result (IsLiteralStart (source_of self.now) («number», n)) }
    {
        let scope = self.scope(number, n)?;
        Ok(LiteralStart {
            name: self.element_label(number, n, &scope)?,
            spaces: Items::of(self.spaces(number, n, &scope)?),
            sets: Items::of(self.literal_sets(number, n, &scope)?),
            attributes: Items::of(self.put_attributes(number, n, &scope)?),
        })
    }

    /// The names of the attribute sets that a literal element uses (7.1.4).
    fn literal_sets(
        &self,
        number: u32,
        n: Node,
        scope: &Arc<Scope>,
    ) -> Result<Vec<Label>, AllocError>
        requires at { IsIn (modules_of self.now) («number», n) }
        requires scope { IsScope (modules_of self.now) («number», n) (arc_value scope.now) }
        ensures { IfOk result (λ sets. sets.items
            ≡ labels_in (pairs_at (modules_of self.now) («number», n))
            (value_of (records_at (modules_of self.now) «number») n
            xslt_uri (codes "use-attribute-sets"))) }
    {
        match sets_value(self.modules, number, n) {
            Some(names) => labels_in(self.alloc, scope, names),
            None => Ok(Vec::new(self.alloc)),
        }
    }

    /// The name of a literal element, with its prefix; the texts of its namespace are those of the
    /// scope.
    fn element_label(&self, number: u32, n: Node, scope: &Arc<Scope>) -> Result<Label, AllocError>
        requires at { IsIn (modules_of self.now) («number», n) }
        ensures { IfOk result (λ label. label
            ≡ own_label (records_at (modules_of self.now) «number») n) }
    {
        let tree = tree_of(self.modules, number);
        let (prefix, uri) = pair_in(self.alloc, scope, tree.prefix(n), tree.uri(n))?;
        let local = TextBuf::of(self.alloc, tree.local(n))?;
        Label::of(self.alloc, uri, local, prefix)
    }

    /// The name of an attribute, with its prefix.
    fn label(&self, number: u32, attribute: Node) -> Result<Label, AllocError>
        requires at { IsIn (modules_of self.now) («number», attribute) }
        ensures { IfOk result (λ label. label
            ≡ own_label (records_at (modules_of self.now) «number») attribute) }
    {
        let tree = tree_of(self.modules, number);
        let uri = TextBuf::of(self.alloc, tree.uri(attribute))?;
        let local = TextBuf::of(self.alloc, tree.local(attribute))?;
        let prefix = TextBuf::of(self.alloc, tree.prefix(attribute))?;
        Label::of(self.alloc, uri, local, prefix)
    }

    /// The namespace nodes of a literal element that are copied, by their scope, which has a pair
    /// for each of its namespace nodes.
    fn spaces(
        &self,
        number: u32,
        n: Node,
        scope: &Arc<Scope>,
    ) -> Result<Vec<(TextBuf, TextBuf)>, AllocError>
        requires ready { IsReady self.now («number», n) }
        requires scope { IsScope (modules_of self.now) («number», n) (arc_value scope.now) }
        ensures { IfOk result (λ spaces. spaces.items
            ≡ copied_spaces (records_at (modules_of self.now) «number») n) }
    {
        let tree = tree_of(self.modules, number);
        let mut rest = scope.pairs.as_slice();
        let mut spaces = Vec::new(self.alloc);
        for space in tree.namespaces(n) {
            match rest.split_first() {
                Some((pair, others)) => {
                    self.push_space(number, n, space, pair, &mut spaces)?;
                    rest = others;
                }
                None => unreachable!(),
            }
        }
        Ok(spaces)
    }

    /// Adds the pair of a namespace node of a literal element, unless it is left out.
    fn push_space(
        &self,
        number: u32,
        n: Node,
        space: Node,
        pair: &(TextBuf, TextBuf),
        spaces: &mut Vec<(TextBuf, TextBuf)>,
    ) -> Result<(), AllocError>
        requires ready { IsReady self.now («number», n) }
        requires inside { space < length (records_at (modules_of self.now) «number») }
        requires space { is_namespace (records_at (modules_of self.now) «number») n space ≡ true }
        requires pair { pair.now ≡ pair_at (records_at (modules_of self.now) «number») space }
        ensures { OnOk result (spaces.new.items
            ≡ (if is_left_out (records_at (modules_of self.now) «number») n
            (at (records_at (modules_of self.now) «number») space).text then spaces.old.items
            else spaces.old.items
            ++ pair_at (records_at (modules_of self.now) «number») space ∷ [])) }
    {
        if self.standing(number, space).is_left_out {
            return Ok(());
        }
        let pair = shared(pair)?;
        spaces.push(pair)?;
        Ok(())
    }

    /// The attributes of a literal element except those of XSLT, each a value template (7.6.2).
    fn put_attributes(
        &self,
        number: u32,
        n: Node,
        scope: &Arc<Scope>,
    ) -> Result<Vec<(Label, ValueTemplate)>, AllocError>
        requires ready { IsReady self.now («number», n) }
        requires scope { IsScope (modules_of self.now) («number», n) (arc_value scope.now) }
        requires literal { reading_at (modules_of self.now) («number», n) ≡ Literal }
        ensures { IfOk result (λ put. AllZip (IsPutAttribute (source_of self.now) («number», n))
            (put_attributes (source_of self.now) («number», n)) put.items) }
    {
        let nodes = put_nodes(self.alloc, tree_of(self.modules, number), n)?;
        let mut put = Vec::new(self.alloc);
        for node in &nodes {
            let attribute = self.put_attribute(number, n, scope, *node)?;
            put.push(attribute)?;
        }
        Ok(put)
    }

    /// One of them.
    fn put_attribute(
        &self,
        number: u32,
        n: Node,
        scope: &Arc<Scope>,
        attribute: Node,
    ) -> Result<(Label, ValueTemplate), AllocError>
        requires ready { IsReady self.now («number», n) }
        requires scope { IsScope (modules_of self.now) («number», n) (arc_value scope.now) }
        requires literal { reading_at (modules_of self.now) («number», n) ≡ Literal }
        requires inside { attribute < length (records_at (modules_of self.now) «number») }
        requires attribute { is_attribute (records_at (modules_of self.now) «number») n attribute
            ≡ true }
        requires put { is_xslt (uri_at (records_at (modules_of self.now) «number») attribute)
            ≡ false }
        ensures { IfOk result (IsPutAttribute (source_of self.now) («number», n) attribute) }
    {
        let name = self.label(number, attribute)?;
        let text = own_text(self.modules, number, attribute);
        Ok((name, self.template(number, n, scope, text)?))
    }
}
