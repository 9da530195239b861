//! Completeness.
ghost use Rattle.job_laws.specs.Answers.{RunsComplete};
ghost use Rattle.job_laws.specs.Complete.{ReplaysComplete};

/// The law that a replay over a site answers each request of its input and ends with the status of what follows the last of
/// them, 0 or 8, where neither the input nor the output failed; or memory was wanting, and the status is 9.
pub fn replays_complete()
    ensures { ReplaysComplete }
{}

/// The law of every job of the program: a status that tells a fault comes only where a count of faults rose; and where none rose
/// it is 0 with all done, 2 where the words name no job, 3 where rows are no site, 8 where the input ends within a request or in one
/// that is refused, each with what was printed; or memory was wanting, and it is 9.
pub fn runs_complete()
    ensures { RunsComplete }
{}
