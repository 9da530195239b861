//! Doors over TCP that hold many sockets at once, and give a connection only where a whole request is there.
//!
//! A worker that takes its connections from such a door never waits for a peer: what it reads is in memory, and what a peer doesn't
//! take of a reply is sent by the door. What a request is, and all that bounds what peers may hold, stands in `request_framing`.
//!
//! Nor does a worker that others read from wait for a disk: of two doors of an address or more one is the editing door. To it the
//! others pass each request that may be an edit, with its socket, which comes back to them with the reply.
#![tactic(auto)]

mod crossing;
mod door;
mod guests;
mod listener;
mod lobby;
mod reply;

pub use crossing::doors_go_between_threads;
pub use door::LobbyDoor;
pub use door_sockets::Share;
pub use listener::listener_at;
pub use reply::Outgoing;
