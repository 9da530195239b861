//! What goes between threads.

use crate::desk::Desk;
use crate::engine::Engine;
use crate::hall::Hall;
use site_keeper::Keeper;

fn needs_send<T: Send + Drop>(_: T) {}

/// An engine may be sent to another thread where its keeper may, and so may a desk; a hall always may.
pub fn engines_go_between_threads<K: Keeper + Send + Drop>(
    engine: Engine<K>,
    hall: Hall,
    desk: Desk<K>,
) {
    needs_send(engine);
    needs_send(hall);
    needs_send(desk);
}
