//! Sockets that stay with a door, and hatches through which the doors of an address pass them to each other.
//!
//! A `Guest` is a socket with the bytes that came there and were not given yet, and those of a reply that are to go. A `Share` stands for
//! an address: its doors, which of them is the editing door, and how many sockets all hold. A `Place` is that of one door among them.
#![tactic(auto)]

mod guest;
mod hatch;
mod place;
mod share;
mod wire;

pub use guest::{Guest, Step};
pub use hatch::Passed;
pub use place::Place;
pub use share::Share;
