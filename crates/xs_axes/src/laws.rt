//! What is true of the axes. The functions do nothing: their contracts are the laws.

ghost use Rattle.xs_axes.specs.AxisLaws.{AxesShareOut, AxesStayInside, ReverseAxesGoBack};

/// The axes ancestor, descendant, following, preceding and self share a document out: each of its
/// nodes but attribute and namespace nodes is on exactly one of them (XPath 1.0, 2.2).
pub fn axes_share_out()
    ensures { AxesShareOut }
{}

/// What is on an axis of a node is in its document.
pub fn axes_stay_inside()
    ensures { AxesStayInside }
{}

/// An axis that goes backwards has only the node and nodes before it (XPath 1.0, 2.4).
pub fn reverse_axes_go_back()
    ensures { ReverseAxesGoBack }
{}
