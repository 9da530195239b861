//! A keeper in a database: the rows of a site in one table, the counts of its tags in another.
//!
//! What it keeps of a row, a count and a head is read back as that, and a batch is one transaction: it is kept whole where
//! the keeper says so, else not at all, and a crash leaves what was kept before or after it. That is proved over every store
//! of two tables, as far as the device gives back what it took.
#![tactic(auto)]

mod body;
mod finding;
mod keeper;
mod keeping;
mod laws;
mod number;
mod site;
mod tag;
mod typed;

pub use finding::{found, head};
pub use keeper::{FileKeeper, SqliteKeeper, open_keeper, open_or_make_keeper, over};
pub use keeping::keep;
pub use laws::{
    batches_stand, new_tables_stand_for_none, number_is_read, tables_stand_for_one,
    tables_stand_for_what_is_read, tags_are_read_back,
};
pub use tables_sqlite::{NoKeeper, StoreTable};
pub use tag::tag_of;
