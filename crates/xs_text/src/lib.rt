//! The small words of XML texts: names, white space, and the escapes of PYX data.
#![tactic(auto)]

mod characters;
mod escapes;
mod names;
mod same;
mod short_text;
mod text;
mod white_space;

pub use characters::Characters;
pub use escapes::{TextFault, escape_into, is_well_escaped, unescape_into};
pub use names::{XML_URI, XMLNS_URI, is_name_char, is_name_start, is_ncname, split_qname};
pub use same::is_same;
pub use text::TextBuf;
pub use white_space::{is_blank, is_space, is_space_byte};
