//! Laws of the definitions of keepers, which the contracts of empty functions state.
ghost use Rattle.site_keeper.specs.Steps.{BatchesKeepSteps};

/// Where a state is kept, and then the batch of an edit, the state after the edit is kept.
pub fn batches_keep_steps()
    ensures { BatchesKeepSteps }
{}
