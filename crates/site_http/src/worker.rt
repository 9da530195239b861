//! A worker: connections, one after the other.
ghost use Rattle.std.specs.Prelude.{◌≡◌, false, true};
ghost use Rattle.site_house.specs.House.{Moves, history_of};
ghost use Rattle.site_io.specs.Series.{GivesInTurn, last_moment, last_word};
ghost use Rattle.site_http.specs.Kept.{shelves_of};
ghost use Rattle.site_http.specs.Work.{CountsDoor, CountsMore, Works};

use crate::connection::serve_next;
use site_house::House;
use site_io::{Clock, Door, Entropy, Gate, More};
use std::alloc::Global;
use std::sync::Wait;

/// Why a worker stopped.
#[derive(Clone, Copy, Debug, PartialEq, Eq)]
pub enum Worked {
    /// It got no leave to take one connection more.
    NoMore,
    /// The door failed, and its count of faults rose.
    DoorFault,
}

/// Serves the connections of a door, one after the other: it asks for leave to take one more, waits for it, answers its
/// requests, and gives it back with its end.
///
/// `NoMore` comes exactly where it asked last and wasn't given leave, `DoorFault` exactly where the door's count of faults rose; of the leave that was
/// given for the connection that didn't come, nothing came. However a connection ends, the next one is taken.
pub fn work<R: Wait, H: House, D: Door, C: Clock, E: Entropy, G: Gate, M: More>(
    rt: &R,
    alloc: Global,
    house: &mut H,
    door: &mut D,
    clock: &mut C,
    entropy: &mut E,
    gate: &mut G,
    more: &mut M,
) -> Worked
    requires { D.is_out door.old ≡ false }
    ensures works { Works result
        (record { coming = D.coming door.old; returned = D.returned door.old; given = C.given clock.old; words = E.given entropy.old; points = G.reached gate.old; handed = (H.sees house.old).handed; keepers = (H.sees house.old).keepers; kept = shelves_of (H.sees house.old); history = history_of (H.sees house.old) })
        (record { coming = D.coming door.new; returned = D.returned door.new; given = C.given clock.new; words = E.given entropy.new; points = G.reached gate.new; handed = (H.sees house.new).handed; keepers = (H.sees house.new).keepers; kept = shelves_of (H.sees house.new); history = history_of (H.sees house.new) })
        (M.claims more.old) (M.claims more.new) }
    ensures door { CountsDoor result (D.faults door.old) (D.faults door.new) }
    ensures none_out { D.is_out door.new ≡ false }
    ensures over { result ≡ Worked.NoMore → M.is_over more.new ≡ true }
    ensures refused { CountsMore result (M.refusals more.old) (M.refusals more.new) }
    ensures same { M.name more.new ≡ M.name more.old }
    ensures moves { Moves (H.sees house.old) (H.sees house.new) }
    ensures moments { GivesInTurn last_moment (C.moments clock.old) (C.moments clock.new) (C.given clock.old) (C.given clock.new) }
    ensures words { GivesInTurn last_word (E.words entropy.old) (E.words entropy.new) (E.given entropy.old) (E.given entropy.new) }
{
    let mut desk = None;
    'connections: for _ in rt.forever() {
        if !more.more() {
            drop(desk);
            return Worked::NoMore;
        }
        let Ok((mut source, mut sink)) = door.accept() else {
            drop(desk);
            return Worked::DoorFault;
        };
        let ended = serve_next(
            alloc,
            &mut desk,
            house,
            &mut source,
            &mut sink,
            clock,
            entropy,
            gate,
        );
        door.done(source, sink, ended);
    }
    unreachable!()
}
