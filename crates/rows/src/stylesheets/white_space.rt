//! White space of a document that is stripped (XSLT 1.0, 3.4).

use crate::answer::Answer;
use xs_rules::white_space::{strip_space, stripped_flags};
use xs_sheet::declarations::StripRule;
use xs_tree::{Kind, Node, Tree};

/// Adds the number of each text that is kept, and `x` for each that is marked; counts the latter.
fn put_marked(out: &Answer, tree: &Tree, marks: &[bool]) -> usize {
    let mut number = 0_u32;
    let mut marked = 0_usize;
    for place in 0..tree.len() as u32 {
        if tree.kind(Node::at(place)) == Kind::Text {
            if marks.get(place as usize) == Some(&true) {
                out.put_byte(b'x');
                marked = marked.wrapping_add(1);
            } else {
                out.put_whole(number as u64);
            }
            number = number.wrapping_add(1);
        }
    }
    marked
}

/// Adds which texts are stripped, and whether just these are gone.
pub(crate) fn put_kept(out: &Answer, rules: &[StripRule], tree: &mut Tree) {
    let Ok(marks) = stripped_flags(out.alloc, tree, rules) else {
        return out.refuse();
    };
    let gone = put_marked(out, tree, &marks);
    let before = tree.len();
    out.note(strip_space(out.alloc, tree, rules));
    out.put_if(
        tree.len().wrapping_add(gone) != before,
        " but other nodes are stripped",
    );
}
