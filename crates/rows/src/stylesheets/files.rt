//! Row files.

use crate::answer::{Answer, text_of};
use crate::fields::{is_comment, put_input};
use crate::stylesheets::answers::put_answer;
use crate::stylesheets::settings::Settings;

/// Adds a row file with its answers computed: comments, settings and empty lines are as they were.
pub(crate) fn put_rows(out: &Answer, text: &str) {
    let mut settings = Settings::new(out.alloc);
    for line in text.lines() {
        put_line(out, &mut settings, line);
        out.put_byte(b'\n');
    }
}

/// Adds a line as it is or with its answer, and takes what a setting says.
fn put_line<'t>(out: &Answer, settings: &mut Settings<'t>, line: &'t str) {
    if let Some(setting) = line.strip_prefix("= ") {
        settings.set(out, setting);
        out.put(line);
    } else if is_comment(line) {
        out.put(line);
    } else {
        let input = put_input(out, line);
        let input = settings.input(out, input);
        let answer = Answer::new(out.alloc);
        put_answer(&answer, settings, text_of(&input));
        out.put_result(answer);
    }
}
