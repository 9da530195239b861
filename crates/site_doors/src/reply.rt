//! What replies of a connection are written to.
ghost use Rattle.std.specs.Prelude.{None};

use door_sockets::Guest;
use site_io::{Failed, Sink};

/// Where a guest is parked once it is given back.
#[derive(Clone, Copy, Debug)]
pub(crate) enum Home {
    /// Here, where it has this key and is told of its events.
    Key(usize),
    /// At the door of this number, which may be this one. No door is told of its events.
    Door(usize),
}

/// The socket of a connection that a door gave. What is written is gathered, and leaves where it is flushed. What the socket doesn't
/// take at once is kept, and sent once the door has it back: so no write waits. It fails where the socket has failed, where the door
/// holds too much, or where memory is wanting.
pub struct Outgoing {
    guest: Box<Guest>,
    home: Home,
    /// How many bytes may be kept.
    may_keep: usize,
    faults: u64,
}

impl Drop for Outgoing {
    fn drop(self) {
        let Outgoing {
            guest: _,
            home: _,
            may_keep: _,
            faults: _,
        } = self;
    }
}

impl Outgoing {
    /// The socket of a guest with this home. So many bytes may be kept, and nothing has failed.
    pub(crate) fn new(home: Home, guest: Box<Guest>, may_keep: usize) -> Outgoing {
        Outgoing {
            guest,
            home,
            may_keep,
            faults: 0,
        }
    }

    /// The guest, and its home.
    pub(crate) fn into_guest(self) -> (Home, Box<Guest>) {
        let Outgoing {
            guest,
            home,
            may_keep: _,
            faults: _,
        } = self;
        (home, guest)
    }
}

impl Sink for Outgoing {
    ghost written = { λ _. None };

    ghost faults = { λ o. o.faults };

    fn write(&mut self, piece: &[u8]) -> Result<usize, Failed> {
        if piece.is_empty() {
            return Ok(0);
        }
        match self.guest.take_piece(piece, self.may_keep) {
            Some(n) => Ok(n),
            None => {
                self.faults = self.faults.saturating_add(1);
                Err(Failed)
            }
        }
    }

    fn flush(&mut self) -> Result<(), Failed> {
        if self.guest.flush() {
            Ok(())
        } else {
            self.faults = self.faults.saturating_add(1);
            Err(Failed)
        }
    }

    fn faults(&self) -> u64 {
        self.faults
    }
}
