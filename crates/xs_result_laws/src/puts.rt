//! What is true of each event that a stylesheet puts. The functions do nothing: their contracts
//! are the laws.
ghost use Rattle.xs_result_laws.specs.PutLaws.{RunsPutResults, SettledAreNamed, StrippedAreWell};
ghost use Rattle.xs_result_laws.specs.PutLaws.{TasksPutWell};

/// What a task puts can be written, and the elements that it begins end in it, where the names of
/// the compiled stylesheet and of the documents are well.
pub fn tasks_put_well()
    ensures { TasksPutWell }
{
    xs_making::laws::names_are_well();
    xs_making::laws::copies_are_well();
}

/// The fragments that are values of settled globals are results too.
pub fn settled_are_named()
    ensures { SettledAreNamed }
{
    xs_making::laws::names_are_well();
    xs_making::laws::copies_are_well();
}

/// What a run puts that comes to its end is a result.
pub fn runs_put_results()
    ensures { RunsPutResults }
{
    tasks_put_well();
    settled_are_named();
}

/// The nodes that are left of a tree have the names that they had.
pub fn stripped_are_well()
    ensures { StrippedAreWell }
{}
