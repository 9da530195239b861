//! Laws of the definitions, which the contract of an empty function states.
ghost use Rattle.site_lists.specs.ListingPlan.{CandidatesAnswer, ListingAnswers};
ghost use Rattle.site_lists.specs.Visible.{VisibleAnswers};

/// The plans of what a listing reads, and of what a block's visibility reads, give the plain answers, and meet the
/// tags and the contexts that are told.
/// <https://www.drupal.org/docs/drupal-apis/cache-api/cache-tags>
pub fn plans_answer()
    ensures candidates { CandidatesAnswer }
    ensures listing { ListingAnswers }
    ensures visible { VisibleAnswers }
{}
