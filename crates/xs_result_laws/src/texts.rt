//! The texts of events are UTF-8. The functions do nothing: a program has no other texts, and they
//! say it to a caller of the law.
ghost use Rattle.xs_result_laws.specs.Events.{HasLabelTexts, HasTexts};

use xs_trace::event::{Event, Label};

/// The texts of a name are UTF-8.
fn label_texts(name: &Label)
    ensures { HasLabelTexts name.now }
{
    let _uri = name.uri();
    let _local = name.local();
    let _prefix = name.prefix();
}

/// The texts of an event are UTF-8.
pub fn event_texts(event: &Event)
    ensures { HasTexts event.now }
{
    match event {
        Event::Start(name) => label_texts(name),
        Event::Space { prefix, uri } => {
            let _prefix = prefix.as_str();
            let _uri = uri.as_str();
        }
        Event::Attr { name, value } => {
            label_texts(name);
            let _value = value.as_str();
        }
        Event::Chars(text) => {
            let _text = text.as_str();
        }
        Event::End => {}
        Event::Comment(text) => {
            let _text = text.as_str();
        }
        Event::Pi { target, value } => {
            let _target = target.as_str();
            let _value = value.as_str();
        }
    }
}
