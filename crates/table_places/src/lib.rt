//! A place whose store lies in a database, and its keeper. Both tell what the database stands for: what it was made of, and the
//! batches that were kept since.
//!
//! The tables of the database stand for just that, as far as the device gives back what it took. So what is proved of a program
//! over every keeper that tells, or over a place of such keepers, says what the tables held, before and after.
#![tactic(auto)]

mod keeper;
mod table_place;

pub use keeper::{TellingKeeper, telling};
pub use table_place::TablePlace;
