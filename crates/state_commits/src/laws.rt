//! Laws of edits, which the contracts of empty functions state. What is kept of a page rests on them.
ghost use Rattle.state_commits.specs.Edits.{
  StepsKeepOrder,
  LogsKeepOrder,
  StepsLowerNoCount,
  LogsLowerNoCount,
  SumsTellCounts,
  CoveredReadsStay,
};

/// Edits keep the rows and the counts in order.
pub fn edits_keep_order()
    ensures step { StepsKeepOrder }
    ensures log { LogsKeepOrder }
{}

/// Edits lower no count.
pub fn edits_lower_no_count()
    ensures step { StepsLowerNoCount }
    ensures log { LogsLowerNoCount }
{}

/// Equal sums of counts on two states of one log mean that each count is equal.
pub fn sums_tell_counts()
    ensures { SumsTellCounts }
{}

/// On two states of one log a read is the same where no tag that covers it was invalidated in between, whichever state is
/// the earlier.
/// <https://www.drupal.org/docs/drupal-apis/cache-api/cache-tags>
pub fn covered_reads_stay()
    ensures { CoveredReadsStay }
{}
