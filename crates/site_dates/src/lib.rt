//! Civil dates and times of moments, and their texts: what a page shows of a second since 1970.
//!
//! A moment is a number of seconds since 1970-01-01T00:00:00Z. It is shown in UTC, with days of
//! 86,400 seconds, and one above [`LAST_MOMENT`] is shown as that.
#![tactic(auto)]

mod civil;
mod text;

pub use civil::{CivilDate, ClockTime, LAST_MOMENT, date_of, time_of};
pub use text::{date_text, moment_text};
