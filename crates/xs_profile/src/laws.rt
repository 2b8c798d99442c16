//! What is true of the places of ticks. The functions do nothing: their contracts are the laws.
ghost use Rattle.xs_profile.specs.Counts.{CountsHaveAllTicks};
ghost use Rattle.xs_profile.specs.Sites.{SitesAreAsManyAsTicks, SitesAreThoseOfMarks};

/// The places of the ticks that items keep are those of the marks that the items represent.
pub fn sites_are_those_of_marks<H>()
    ensures { SitesAreThoseOfMarks H }
{}

/// A trace has a place for each of its ticks.
pub fn sites_are_as_many_as_ticks<H>()
    ensures { SitesAreAsManyAsTicks H }
{}

/// The counts of all places are all ticks together.
pub fn counts_have_all_ticks()
    ensures { CountsHaveAllTicks }
{}
