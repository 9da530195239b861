//! The states of a site: its rows, the counts of its tags and its number, what a request asks of one, and, as plans of
//! reads, what depends on what.
#![tactic(auto)]

mod ask;
mod chain;
mod comment_rules;
mod comments;
mod commit;
mod element;
mod entity;
mod forms;
mod having;
mod laws;
mod ranked;
mod reads;
mod route;
mod seen;
mod site_rules;
mod state;
mod threads;

pub use ask::{Ask, Viewer};
pub use commit::Commit;
pub use element::{Depth, Fragment, Hole, Library, Mode, Placing};
pub use entity::{Entity, is_json};
pub use having::RowsWith;
pub use indexed_rows::{Rows, RowsInOrder, RowsIter, Unique, Write, text_of};
pub use laws::routes_lead_there;
pub use reads::NodeReads;
pub use route::{Route, route_of};
pub use site_rules::{NotASite, Numbered, Refusal, Refused, SiteField, SiteRule};
pub use state::State;
pub use threads::states_go_between_threads;
