//! Tests of a door that holds many sockets, over loopback, with its clients in the same thread: what a client sends is in the system
//! before the door is asked, so nothing waits.
#![tactic(auto)]

#[cfg(test)]
mod edits;
#[cfg(test)]
mod lines;
#[cfg(test)]
mod lobby;
