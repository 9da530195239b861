//! Accepted edits: what one makes of a state, and what every edit leaves as it was, which is what caches rest on.
#![tactic(auto)]

mod applying;
mod laws;
mod tags;

pub use applying::{ApplyFault, apply, apply_counted, full_tag};
pub use laws::{covered_reads_stay, edits_keep_order, edits_lower_no_count, sums_tell_counts};
pub use tags::{tags_of_commit, tags_of_write};
