//! The sockets that a door has charge of.
ghost use Rattle.std.specs.Prelude.{◌≡◌, ◌<◌, ◌+◌, false, true, IfNone, OnSome};
ghost use Rattle.site_doors.specs.Charge.{HasCome, HasLeft, IsClosed, IsParked, IsTaken};
ghost use Rattle.request_framing.specs.Limits.{sockets};

use door_sockets::{Guest, Share};
use request_framing::{Framing, HELD_BYTES, SOCKETS};
use slab::Slab;
use std::alloc::Global;
use std::marker::Model;

/// The sockets that a door has charge of: those that are parked, each under a key, and those in hand. There are no others: a socket
/// in hand is parked, closed, or leaves for another door. Contracts see how many there are of both.
pub(crate) struct Guests<F: Framing> {
    parked: Slab<Box<Guest>>,
    in_hand: usize,
    /// How many there are in all.
    count: usize,
    /// How many bytes of memory those hold that are parked.
    held: usize,
    share: Share<F>,
}

impl<F: Framing> Model for Guests<F> {
    ghost use Rattle.std.specs.Prelude.{◌≡◌, ◌≤◌, ◌+◌};
    ghost use Rattle.slab.specs.Slab.{slab_len};
    ghost use Rattle.site_doors.specs.Charge.{Charge};
    ghost use Rattle.request_framing.specs.Limits.{sockets, held_bytes};

    ghost Value = { Charge };

    ghost view = { λ g. record { parked = slab_len g.parked; in_hand = g.in_hand } };

    ghost invariant = { λ g. ((g.count ≡ slab_len g.parked + g.in_hand) × (g.count ≤ sockets)) × (g.held ≤ held_bytes) };
}

impl<F: Framing> Drop for Guests<F> {
    fn drop(self) {
        let Guests {
            parked: _,
            in_hand: _,
            count: _,
            held: _,
            share: _,
        } = self;
    }
}

impl<F: Framing> Guests<F> {
    /// None yet, for a door with this share.
    pub(crate) fn new(alloc: Global, share: Share<F>) -> Guests<F>
        ensures { result ≡ record { parked = 0; in_hand = 0 } }
    {
        Guests {
            parked: Slab::new(alloc),
            in_hand: 0,
            count: 0,
            held: 0,
            share,
        }
    }

    /// Whether there are none that are parked.
    pub(crate) fn is_empty(&self) -> bool {
        self.parked.is_empty()
    }

    /// Whether there are as many as there may be.
    pub(crate) fn is_full(&self) -> bool
        ensures { result ≡ false → self.now.parked + self.now.in_hand < sockets }
    {
        self.count >= SOCKETS
    }

    /// Whether one more may be taken beside the other doors.
    pub(crate) fn may_take(&self) -> bool {
        self.share.may_take(self.count)
    }

    /// How many bytes more they may hold.
    pub(crate) fn may_hold(&self) -> usize {
        HELD_BYTES - self.held
    }

    /// The key of the one that is parked next.
    pub(crate) fn next_key(&self) -> usize {
        self.parked.vacant_key()
    }

    /// Parks one that came. Whether there was memory; else it is let go, and nothing changed.
    pub(crate) fn admit(&mut self, guest: Box<Guest>) -> bool
        requires { self.old.parked + self.old.in_hand < sockets }
        ensures parked { result ≡ true → self.new ≡ record self.old { parked = self.old.parked + 1 } }
        ensures same { result ≡ false → self.new ≡ self.old }
    {
        if self.parked.insert(guest).is_err() {
            return false;
        }
        self.count += 1;
        self.share.one_more();
        true
    }

    /// Takes the one of a key in hand, if there is one.
    pub(crate) fn take(&mut self, key: usize) -> Option<Box<Guest>>
        ensures taken { OnSome result (IsTaken self.old self.new) }
        ensures none { IfNone result (self.new ≡ self.old) }
    {
        let guest = self.parked.try_remove(key)?;
        self.in_hand += 1;
        self.held = self.held.saturating_sub(guest.weight());
        Some(guest)
    }

    /// Closes one that is in hand.
    pub(crate) fn close(&mut self, guest: Box<Guest>)
        requires { 0 < self.old.in_hand }
        ensures { IsClosed self.old self.new }
    {
        self.in_hand -= 1;
        self.count -= 1;
        self.share.one_less();
        drop(guest);
    }

    /// One that was in hand has left for another door.
    pub(crate) fn left(&mut self)
        requires { 0 < self.old.in_hand }
        ensures { HasLeft self.old self.new }
    {
        self.in_hand -= 1;
        self.count -= 1;
        self.share.one_less();
    }

    /// One that came from another door is in hand.
    pub(crate) fn came(&mut self)
        requires { self.old.parked + self.old.in_hand < sockets }
        ensures { HasCome self.old self.new }
    {
        self.in_hand += 1;
        self.count += 1;
        self.share.one_more();
    }

    /// Parks one that is in hand, and tells its key. `None` where memory is wanting or too much is held, and then it is closed.
    pub(crate) fn park(&mut self, guest: Box<Guest>) -> Option<usize>
        requires { 0 < self.old.in_hand }
        ensures parked { OnSome result (IsParked self.old self.new) }
        ensures closed { IfNone result (IsClosed self.old self.new) }
    {
        let held = self.held.saturating_add(guest.weight());
        if held > HELD_BYTES {
            self.close(guest);
            return None;
        }
        match self.parked.insert(guest) {
            Ok(key) => {
                self.held = held;
                self.in_hand -= 1;
                Some(key)
            }
            Err(failed) => {
                self.close(failed.value);
                None
            }
        }
    }

    /// Closes the one of a key, if there is one.
    pub(crate) fn let_go(&mut self, key: usize)
        ensures { self.new.in_hand ≡ self.old.in_hand }
    {
        if let Some(guest) = self.take(key) {
            self.close(guest);
        }
    }

    /// Closes those whose time is over in this second.
    pub(crate) fn sweep(&mut self, now: u64)
        ensures { self.new.in_hand ≡ self.old.in_hand }
    {
        'keys: for key in 0..self.parked.capacity() {
            let is_over = match self.parked.get(key) {
                Some(guest) => guest.is_over(now),
                None => false,
            };
            if is_over {
                self.let_go(key);
            }
        }
    }

    /// The key of the one that is missed least: the one that has been idle for longest, or where none is idle the one that has been
    /// for longest at what it is at.
    fn least(&self) -> Option<usize> {
        let mut found = None;
        let mut least = (true, u64::MAX);
        'keys: for key in 0..self.parked.capacity() {
            if let Some(guest) = self.parked.get(key) {
                let standing = (!guest.is_idle(), guest.since());
                if found.is_none() || standing < least {
                    least = standing;
                    found = Some(key);
                }
            }
        }
        found
    }

    /// Whether there is one that is parked and is sent the rest of a reply.
    pub(crate) fn are_taking(&self) -> bool {
        'keys: for key in 0..self.parked.capacity() {
            if let Some(guest) = self.parked.get(key) {
                if guest.is_taking() {
                    return true;
                }
            }
        }
        false
    }

    /// Closes the one that is missed least, if there is one.
    pub(crate) fn shed(&mut self)
        ensures { self.new.in_hand ≡ self.old.in_hand }
    {
        if let Some(key) = self.least() {
            self.let_go(key);
        }
    }
}
