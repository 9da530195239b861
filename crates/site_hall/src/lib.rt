//! The engine of a site: the one place where its edits are judged, kept and published, one after the other, and where what is
//! kept of its pages lies; and a caller that has an engine for itself. An engine has two sides, which come apart where threads share
//! it: the hall, which all of them read, and the desk, where one of them keeps an edit meanwhile.
#![tactic(auto)]

mod alone;
mod desk;
mod edit;
mod engine;
mod hall;
mod judging;
mod log;
mod making;
mod stock;
mod stop;
mod tally;
mod threads;

pub use alone::Alone;
pub use desk::Desk;
pub use engine::{Engine, NoEngine};
pub use hall::Hall;
pub use judging::judge_next;
pub use making::Ready;
pub use stock::Rooms;
pub use stop::Stop;
pub use tally::Tally;
pub use threads::engines_go_between_threads;
