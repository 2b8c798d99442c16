//! The names of axes, operators and functions.

use xs_value::comparison::CompareOp;
use xs_xpath::name::Function;
use xs_xpath::scope::function_of;
use xs_xpath::token::Operator;

/// The operators that compare.
pub(crate) const COMPARISONS: &[(&str, CompareOp)] = &[
    ("=", CompareOp::Eq),
    ("!=", CompareOp::Ne),
    ("<", CompareOp::Lt),
    ("<=", CompareOp::Le),
    (">", CompareOp::Gt),
    (">=", CompareOp::Ge),
];

/// The operators (XPath 1.0, 3.3 to 3.5), by their numbers.
pub(crate) const OPERATORS: &[(&str, u8)] = &[
    ("or", Operator::Or as u8),
    ("and", Operator::And as u8),
    ("=", Operator::Equal as u8),
    ("!=", Operator::Unequal as u8),
    ("<", Operator::Less as u8),
    ("<=", Operator::LessEqual as u8),
    (">", Operator::Greater as u8),
    (">=", Operator::GreaterEqual as u8),
    ("+", Operator::Plus as u8),
    ("-", Operator::Minus as u8),
    ("*", Operator::Times as u8),
    ("div", Operator::Div as u8),
    ("floor div", Operator::FloorDiv as u8),
    ("ceiling div", Operator::CeilingDiv as u8),
    ("nearest div", Operator::NearestDiv as u8),
    ("mod", Operator::Mod as u8),
    ("|", Operator::Union as u8),
];

// The names of the functions (XPath 1.0, 4; XSLT 1.0, 12).
const FUNCTIONS: &[&str] = &[
    "last",
    "position",
    "count",
    "id",
    "local-name",
    "namespace-uri",
    "name",
    "string",
    "concat",
    "starts-with",
    "contains",
    "substring-before",
    "substring-after",
    "substring",
    "string-length",
    "normalize-space",
    "translate",
    "boolean",
    "not",
    "true",
    "false",
    "lang",
    "number",
    "sum",
    "floor",
    "ceiling",
    "round",
    "key",
    "current",
    "generate-id",
    "system-property",
    "element-available",
    "function-available",
    "unparsed-entity-uri",
];

/// The name of a function: the first by which it is found.
pub(crate) fn function_name(function: Function) -> &'static str {
    for name in FUNCTIONS {
        if let Some(other) = function_of(name.as_bytes())
            && other as u8 == function as u8
        {
            return name;
        }
    }
    ""
}
