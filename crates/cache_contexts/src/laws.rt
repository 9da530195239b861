//! Laws of contexts, which the contracts of empty functions state.
ghost use Rattle.cache_contexts.specs.LeftOut.{LeftOutStay};

/// A context that is left out has the same value on two states of one log where those that are kept have the same values
/// and none of the tags that stand in for it was invalidated in between, whichever state is the earlier.
/// <https://www.drupal.org/docs/drupal-apis/cache-api/cache-contexts>
pub fn left_out_contexts_stay()
    ensures { LeftOutStay }
{}
