//! The table that the hall and the desk of a site lie in, which callers in many threads share: how a caller takes either of them out of
//! its slot, and gives it back.
#![tactic(auto)]

mod home;
mod kinds;
mod rules;
mod turns;

pub use home::{DeskHome, HallHome};
pub use kinds::{Deed, Hands, Kind, Quiet, kept_by, looked_by};
pub use rules::{
    Drawing, GivingDesk, GivingHall, Lodging, Meeting, Opening, Place, Room, Seating, SiteTable,
    TurnRule, new_table,
};
pub use turns::{count_deed, follow_back, forget_back, give_desk, take_desk, take_hall};
