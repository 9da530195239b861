//! A door that holds many sockets.
ghost use Rattle.std.specs.Prelude.{◌≡◌, ◌≤◌, true, false, None, Some, IfOk, OnErr, OnOk, if◌then◌else◌};
ghost use Rattle.site_io.specs.Told.{Rose};
ghost use Rattle.site_io.specs.Memory.{up};
ghost use Rattle.site_io.specs.Doors.{IsNext};
ghost use Rattle.request_framing.specs.Gives.{IsRequest, no_faults};

use crate::lobby::Lobby;
use crate::reply::Outgoing;
use door_sockets::Share;
use request_framing::{Framing, Parcel};
use site_io::{Door, Ended, Failed};
use std::alloc::Global;
use std::io;
use std::net::{Net, TcpListener};
use std::time::Clock;

/// A door that listens on an address of TCP and holds the sockets that come there. What it gives is one request that is there as a
/// whole, or what is refused, and its socket; so whoever serves it never waits for a peer. It fails where the system doesn't let it
/// wait for events or take what came. While a connection is out exactly one socket is in hand, and else none: each that was given back
/// is parked again, closed, or has left for its home door.
pub struct LobbyDoor<C, F: Framing> {
    lobby: Lobby<C, F>,
    is_out: bool,
    faults: u64,
    ghost charge: { lobby.guests.in_hand ≡ (if is_out then 1 else 0) },
}

impl<C: Drop, F: Framing + Drop> Drop for LobbyDoor<C, F> {
    fn drop(self) {
        let LobbyDoor {
            lobby: _,
            is_out: _,
            faults: _,
        } = self;
    }
}

impl<C: Clock + Drop, F: Framing + Drop> LobbyDoor<C, F> {
    /// Takes the sockets of this listener, beside the other doors of this share, and waits by this clock. No fault is
    /// counted yet, and no connection is out. `Err` where the system doesn't let it listen and wait, or memory is wanting.
    pub fn new(
        net: &impl Net,
        alloc: Global,
        clock: C,
        listener: TcpListener,
        share: Share<F>,
        framing: F,
    ) -> io::Result<LobbyDoor<C, F>>
        ensures faults { IfOk result (λ door. door.faults ≡ 0) }
        ensures none_out { IfOk result (λ door. door.is_out ≡ false) }
    {
        Ok(LobbyDoor {
            lobby: Lobby::new(net, alloc, clock, listener, share, framing)?,
            is_out: false,
            faults: 0,
        })
    }

    /// Is called before the door is let go, where it gives no connection any more: what is left of replies is sent, to those peers
    /// that take it within the time that each has. Nothing is done while a connection is out.
    pub fn finish(&mut self)
        ensures faults { self.new.faults ≡ self.old.faults }
        ensures out { self.new.is_out ≡ self.old.is_out }
    {
        if !self.is_out {
            self.lobby.finish();
        }
    }
}

impl<C: Clock + Drop, F: Framing + Drop> Door for LobbyDoor<C, F> {
    type In = Parcel;

    type Out = Outgoing;

    ghost coming = { λ _. None };

    ghost returned = { λ _. None };

    ghost is_out = { λ d. d.is_out };

    ghost faults = { λ d. d.faults };

    fn accept(&mut self) -> Result<(Parcel, Outgoing), Failed>
        requires { self.old.is_out ≡ false }
        ensures next { IfOk result (λ line. IsNext None (record { left = Some line.0; written = None; reading = no_faults; writing = line.1.faults })) }
        ensures request { IfOk result (λ line. IsRequest F.reaches line.0) }
        ensures out { OnOk result (self.new.is_out ≡ true) }
        ensures none_out { OnErr result (self.new.is_out ≡ self.old.is_out) }
        ensures cause { OnErr result (Rose self.old.faults self.new.faults) }
        ensures once { OnErr result (self.new.faults ≡ up self.old.faults) }
        ensures steady { OnOk result (self.new.faults ≡ self.old.faults) }
        ensures never_falls { self.old.faults ≤ self.new.faults }
    {
        match self.lobby.next() {
            Ok(ends) => {
                self.is_out = true;
                Ok(ends)
            }
            Err(_) => {
                self.faults = self.faults.saturating_add(1);
                Err(Failed)
            }
        }
    }

    fn done(&mut self, input: Parcel, output: Outgoing, end: Ended) {
        self.lobby.take_back(input, output, end);
        self.is_out = false;
    }

    fn faults(&self) -> u64 {
        self.faults
    }
}
