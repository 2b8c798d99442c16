//! The call of a function on evaluated arguments (XPath 1.0, 4; XSLT 1.0, 12 and 15).

ghost use Rattle.std.specs.Prelude.{◌≡◌, ◌<◌, ◌∷◌, [], IfOk, Ok, length};
ghost use Rattle.std.specs.List.{All};
ghost use Rattle.xs_trace.specs.Play.{IsStep};
ghost use Rattle.xs_trace.specs.Run.{limited};
ghost use Rattle.xs_value.specs.Conversion.{IsIn, text_value};
ghost use Rattle.xs_value.specs.declared.value.Value.TheVariants.{Bool as Boolean, Nodes};
ghost use Rattle.xs_eval_spec.specs.Calls.{called, is_key};
ghost use Rattle.xs_eval_spec.specs.Conditions.{IsContext};
ghost use Rattle.xs_eval_spec.specs.Evaluation.{answered};
ghost use Rattle.xs_eval_spec.specs.Functions.{first, first_or_node, number};
ghost use Rattle.xs_eval_spec.specs.Languages.{is_in_language};
ghost use Rattle.xs_eval_spec.specs.Names.{is_element_available, is_function_available};
ghost use Rattle.xs_eval_spec.specs.Names.{system_property};
ghost use Rattle.xs_eval_spec.specs.Results.{Answers};

use crate::arguments::{chars, number_at, number_or_node, single, text_at, truth_at};
use crate::evaluator::Evaluator;
use crate::languages::is_in_language;
use crate::names::{is_element_available, is_function_available, system_property};
use crate::operand::Operand;
use crate::{nodes, strings};
use std::alloc::Global;
use xs_eval_spec::context::Context;
use xs_eval_spec::trouble::{Trouble, or_halt};
use xs_num::number::Num;
use xs_trace::recorder::{Halt, Tally};
use xs_tree::Tree;
use xs_value::keys::KeyFinder;
use xs_value::node_set::NodeSet;
use xs_value::value::Value;
use xs_xpath::name::Function;

impl<K: KeyFinder> Evaluator<'_, K> {
    /// The answer of a function: that of `key` has its ticks.
    pub(crate) fn answer<T: Tally>(
        &self,
        function: Function,
        values: &[Operand<'_>],
        context: &Context<'_>,
        tally: &mut T,
    ) -> Result<Value, Halt>
        requires context { IsContext (K.tables self.now.keys.now) context.now }
        requires inside { All (IsIn context.now.tree) values.now }
        ensures reported { IsStep (limited self.now.site
            (answered (K.tables self.now.keys.now) context.now function values.now)
            (T.state tally.old)) result (T.state tally.new) }
        ensures kept { T.kept tally.new ≡ T.kept tally.old }
        ensures inside { IfOk result (IsIn context.now.tree) }
    {
        if is_key(function) {
            return self.find_by_key(context, values, tally);
        }
        or_halt(apply(self.alloc, function, context, values), self.site)
    }
}

// What a function gives of the values of its arguments.
fn apply(
    alloc: Global,
    function: Function,
    context: &Context<'_>,
    values: &[Operand<'_>],
) -> Result<Value, Trouble>
    requires node { context.now.node < length context.now.tree }
    requires inside { All (IsIn context.now.tree) values.now }
    ensures value { Answers (called context.now function values.now) result }
{
    let tree = context.tree;
    match function {
        Function::Last => Ok(Value::Number(Num::from(context.size))),
        Function::Position => Ok(Value::Number(Num::from(context.position))),
        Function::Count => nodes::count(values),
        Function::Id => no_nodes(alloc),
        Function::LocalName => nodes::local_name(alloc, context, values),
        Function::NamespaceUri => nodes::namespace_uri(alloc, context, values),
        Function::Name => nodes::name(alloc, context, values),
        Function::String => strings::string(alloc, context, values),
        Function::Concat => strings::concat(alloc, tree, values),
        Function::StartsWith => strings::starts_with(alloc, tree, values),
        Function::Contains => strings::contains(alloc, tree, values),
        Function::SubstringBefore => strings::substring_before(alloc, tree, values),
        Function::SubstringAfter => strings::substring_after(alloc, tree, values),
        Function::Substring => strings::substring(alloc, tree, values),
        Function::StringLength => strings::string_length(alloc, context, values),
        Function::NormalizeSpace => strings::normalize_space(alloc, context, values),
        Function::Translate => strings::translate(alloc, tree, values),
        Function::Boolean => Ok(Value::Bool(truth_at(values, 0))),
        Function::Not => Ok(Value::Bool(!truth_at(values, 0))),
        Function::True => Ok(Value::Bool(true)),
        Function::False => Ok(Value::Bool(false)),
        Function::Lang => lang(alloc, context, values),
        Function::Number => number(alloc, context, values),
        Function::Sum => nodes::sum(alloc, tree, values),
        Function::Floor => whole(alloc, tree, values),
        Function::Ceiling => whole(alloc, tree, values),
        Function::Round => whole(alloc, tree, values),
        Function::Key => no_nodes(alloc),
        Function::Current => current(alloc, context),
        Function::GenerateId => nodes::generate_id(alloc, context, values),
        Function::SystemProperty => property(alloc, context, values),
        Function::ElementAvailable => element_available(alloc, context, values),
        Function::FunctionAvailable => function_available(alloc, tree, values),
        Function::UnparsedEntityUri => chars(alloc, ""),
    }
}

// No nodes, as `id` gives: no document has a DTD.
fn no_nodes(alloc: Global) -> Result<Value, Trouble>
    ensures value { Answers (Ok (Nodes [])) result }
{
    Ok(Value::Nodes(NodeSet::empty(alloc)?))
}

// `lang`.
fn lang(alloc: Global, context: &Context<'_>, values: &[Operand<'_>]) -> Result<Value, Trouble>
    requires node { context.now.node < length context.now.tree }
    requires inside { All (IsIn context.now.tree) values.now }
    ensures value { Answers (Ok (Boolean (is_in_language context.now.tree context.now.node
        (text_value context.now.tree (first values.now))))) result }
{
    let wanted = text_at(alloc, context.tree, values, 0)?;
    let is_in = is_in_language(context.tree, context.node, wanted.as_str());
    drop(wanted);
    Ok(Value::Bool(is_in))
}

// `number`.
fn number(alloc: Global, context: &Context<'_>, values: &[Operand<'_>]) -> Result<Value, Trouble>
    requires node { context.now.node < length context.now.tree }
    requires inside { All (IsIn context.now.tree) values.now }
    ensures value { Answers
        (number context.now.tree (first_or_node context.now values.now)) result }
{
    Ok(Value::Number(number_or_node(alloc, context, values)?))
}

// `floor`, `ceiling` and `round`, since each number is whole; a quotient that is all of the
// argument was rounded.
fn whole(alloc: Global, tree: &Tree, values: &[Operand<'_>]) -> Result<Value, Trouble>
    requires { All (IsIn tree.now) values.now }
    ensures value { Answers (number tree.now (first values.now)) result }
{
    Ok(Value::Number(number_at(alloc, tree, values, 0)?))
}

// `current`.
fn current(alloc: Global, context: &Context<'_>) -> Result<Value, Trouble>
    ensures value { Answers (Ok (Nodes (context.now.current ∷ []))) result }
{
    Ok(single(alloc, context.current)?)
}

// `system-property`.
fn property(alloc: Global, context: &Context<'_>, values: &[Operand<'_>]) -> Result<Value, Trouble>
    requires { All (IsIn context.now.tree) values.now }
    ensures value { Answers (Ok (system_property context.now.scope
        (text_value context.now.tree (first values.now)))) result }
{
    let name = text_at(alloc, context.tree, values, 0)?;
    let property = system_property(alloc, context.scope, name.as_str());
    drop(name);
    property
}

// `element-available`.
fn element_available(
    alloc: Global,
    context: &Context<'_>,
    values: &[Operand<'_>],
) -> Result<Value, Trouble>
    requires { All (IsIn context.now.tree) values.now }
    ensures value { Answers (Ok (Boolean (is_element_available context.now.scope
        (text_value context.now.tree (first values.now))))) result }
{
    let name = text_at(alloc, context.tree, values, 0)?;
    let is_available = is_element_available(context.scope, name.as_str());
    drop(name);
    Ok(Value::Bool(is_available))
}

// `function-available`.
fn function_available(alloc: Global, tree: &Tree, values: &[Operand<'_>]) -> Result<Value, Trouble>
    requires { All (IsIn tree.now) values.now }
    ensures value { Answers (Ok (Boolean (is_function_available
        (text_value tree.now (first values.now))))) result }
{
    let name = text_at(alloc, tree, values, 0)?;
    let is_available = is_function_available(name.as_str());
    drop(name);
    Ok(Value::Bool(is_available))
}

// Whether a function is `key`.
fn is_key(function: Function) -> bool
    ensures { result ≡ is_key function }
{
    matches!(function, Function::Key)
}
