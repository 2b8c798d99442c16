//! Laws, each called at one type.

use xs_trace::laws;

/// The laws of traces: of joining and cutting them, of playing them, of limits, needs and fills, of
/// items and outcomes.
pub(crate) fn of_traces() {
    laws::then_joins::<u8>();
    laws::cut_is_longest::<u8>();
    laws::cut_of_then::<u8>();
    laws::cut_of_cut::<u8>();
    laws::cut_without_puts::<u8>();
    laws::parts_of_joined::<u8>();
    laws::play_of_then::<u8>();
    laws::play_of_ticks::<u8>();
    laws::play_of_texts::<u8>();
    laws::play_of_captured::<u8>();
    laws::captures_from::<u8>();
    laws::play_grows::<u8>();
    laws::play_is_cut::<u8>();
    laws::limited_laws::<u8, u8, bool>();
    laws::fold_laws::<u8, u8, bool>();
    laws::reported_is_cut::<u8>();
    laws::need_comes_from_need::<u8>();
    laws::fill_laws::<u8, bool>();
    laws::packed_once::<u8>();
    laws::cut_serves::<u8, bool>();
    laws::cuts_report_same::<u8>();
    laws::numbered_laws::<u8>();
    xs_record::laws::outcomes_agree::<u8>();
    xs_record::laws::never_over::<u8>();
}

#[test]
fn laws_hold() {
    xs_build::laws::documents_are_trees();
    xs_build::laws::names_resolve();
    xs_build::laws::documents_follow_grammar();
    xs_build::laws::grammar_is_enough();
    xs_build::laws::lines_go_by_step();
    xs_axes::laws::axes_share_out();
    xs_axes::laws::axes_stay_inside();
    xs_axes::laws::reverse_axes_go_back();
    xs_making::laws::comments_fit();
    xs_making::laws::instructions_fit();
    xs_making::laws::names_are_well();
    xs_making::laws::copies_are_well();
    xs_result_lines::laws::lines_go_on();
    xs_result_lines::laws::names_resolve();
    xs_result_lines::laws::worked_examples();
}
