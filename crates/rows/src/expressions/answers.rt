//! The answers of rows, by what their calls are about.

use crate::answer::Answer;
use crate::expressions::calls::{CALLS, Call, Subject};
use crate::expressions::matched::put_axis;
use crate::expressions::parsed::{put_found, put_uri};
use crate::expressions::settings::Settings;
use crate::expressions::{evaluated, numbers, parsed, strings, values};
use crate::fields::cut;
use crate::lookups::value_named;

/// Adds the answer of a row, whose first word is its call.
pub(crate) fn add_answer(out: &Answer, settings: &Settings, input: &str) {
    let (name, rest) = cut(input, " ");
    let Some((subject, call)) = value_named(CALLS, name) else {
        return out.put("no such call");
    };
    match subject {
        Subject::Evaluated => evaluated::add_answer(out, settings, *call, rest),
        Subject::Parsed(form) => parsed::add_answer(out, settings, *form, *call, rest),
        Subject::Found => match call {
            Call::Axis => put_axis(out, settings, rest),
            Call::Uri => put_uri(out, &settings.scope, rest),
            _ => put_found(out, &settings.scope, rest),
        },
        Subject::Values => values::add_answer(out, settings, *call, rest),
        Subject::Numbers => numbers::add_answer(out, *call, rest),
        Subject::Strings => strings::add_answer(out, *call, rest),
    }
}
