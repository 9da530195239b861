//! Laws of the definitions, which the contract of an empty function states.
ghost use Rattle.page_meaning.specs.Meaning.{FragmentsAreWhole, TargetsAreWhole, FramesAreFilled, PagesAreClosed};
ghost use Rattle.page_meaning.specs.Total.{EveryPlanShows};

/// What is kept of a fragment is the whole fragment, whatever path is asked for, and what is kept of a target that is asked
/// for is the whole page of the path that is asked for.
pub fn kept_is_whole()
    ensures fragments { FragmentsAreWhole }
    ensures targets { TargetsAreWhole }
{}

/// What is kept of the page of a path makes the whole page once what is left open there is filled in, and then no place stays
/// open but that of the libraries.
pub fn frames_are_filled()
    ensures filled { FramesAreFilled }
    ensures closed { PagesAreClosed }
{}

/// Every plan shows something on each visit: there is a page of each path at each moment, and a text of each fragment.
pub fn every_plan_shows()
    ensures { EveryPlanShows }
{}
