//! Laws of the definitions, which the contract of an empty function states.
ghost use Rattle.late_pages.specs.Laws.{EveryPartShows, LateIsPage, PlacesAreLazy};

/// A page whose parts are sent late, with each part put into its place and the lines of all libraries, is the page of the request.
pub fn late_is_page()
    ensures { LateIsPage }
{}

/// Each place has a part on each visit.
pub fn every_part_shows()
    ensures { EveryPartShows }
{}

/// The parts that are sent late are just those of the lazy blocks that stand on the page, in their order, whenever what is kept of the
/// page was made.
pub fn places_are_lazy()
    ensures { PlacesAreLazy }
{}
