//! What goes between threads.

use crate::claims::Claimer;
use crate::rule::ClaimRoom;

fn needs_send<T: Send + Drop>(_: T) {}

fn needs_sync<T: Sync>(_: &T) {}

/// A claimer may be sent to another thread, and what claimers share may be used there.
pub fn claimers_go_between_threads(claimer: Claimer, room: &ClaimRoom) {
    needs_send(claimer);
    needs_sync(room);
}
