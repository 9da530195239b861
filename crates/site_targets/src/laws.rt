//! Laws of the definitions of targets, which the contracts of empty functions state.
ghost use Rattle.site_targets.specs.Open.{EveryPageShows, StatusesFollowAccess};
ghost use Rattle.site_targets.specs.Targets.{TargetsMean};

/// The status of a page is 404 where its path leads nowhere, else 200 where the viewer may access what it leads to, and 403
/// where it may not.
/// <https://www.drupal.org/docs/drupal-apis/routing-system/access-checking-on-routes>
pub fn statuses_follow_access()
    ensures { StatusesFollowAccess }
{}

/// Each request has a page at each moment, whatever rows there are: what is said of each page of a request is never said in
/// vain.
pub fn every_page_shows()
    ensures { EveryPageShows }
{}

/// Of the canonical targets exactly those are among the targets of rows whose pages, for a visitor without a session, have
/// status 200 at every moment; each of the others never has it.
pub fn targets_mean()
    ensures { TargetsMean }
{}
