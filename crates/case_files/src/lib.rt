//! Cases in files of text: how they are read, and how what a test program finds is compared with them.
//!
//! docs/TESTS.md has the format.
#![tactic(auto)]

mod escape;
mod judge;
mod read;
mod section;
mod words;

pub use judge::{Found, Tally};
pub use read::read_cases;
pub use section::{Case, Section, Unread};
pub use words::{Words, arguments, finds, first_word, number, numbers, word_list};
