//! What is kept of pages, and under which keys: entries, when they are sound, and when they are fresh.
#![tactic(auto)]

mod entry;
mod kept;
mod key;
mod threads;

pub use entry::{Entry, fresh, fresh_on_log};
pub use kept::{Bin, Found, Kept};
pub use key::{Key, Subject};
pub use threads::{
    entries_go_between_threads, keys_go_between_threads, what_is_kept_goes_between_threads,
};
