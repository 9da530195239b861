//! The place of a door among those of its address.
ghost use Rattle.std.specs.Prelude.{◌≡◌, IfErr};

use crate::guest::Guest;
use crate::hatch::{Hatch, Passed};
use crate::share::Share;
use mio::Waker;
use request_framing::{Framing, REST_MILLIS};
use std::alloc::Global;
use std::io;
use std::io::ErrorKind;
use std::sync::Arc;

/// What was last seen of workers at rest: how often they had begun and ended their calls, and since which millisecond that holds.
#[derive(Clone, Copy, Debug)]
struct Rest {
    calls: u64,
    since: u64,
}

/// The place of a door among those of its address: its number, its hatch, and that of the editing door, where that is another.
pub struct Place<F: Framing> {
    share: Share<F>,
    number: usize,
    hatch: Arc<Hatch<F>>,
    editing: Option<Arc<Hatch<F>>>,
    /// The number of the editing door when it was last looked for.
    editing_number: Option<usize>,
    rest: Option<Rest>,
    has_ended: bool,
}

impl<F: Framing> Drop for Place<F> {
    fn drop(self) {
        let Place {
            share,
            number,
            hatch,
            editing: _,
            editing_number: _,
            rest: _,
            has_ended: _,
        } = self;
        end(&share, number, &hatch);
    }
}

/// The door of a number ends: nothing is passed to it from here on, and the requests that wait at its hatch go to the doors where
/// they came, those of ended doors excepted.
fn end<F: Framing>(share: &Share<F>, number: usize, hatch: &Hatch<F>) {
    share.end(number);
    hatch.end();
    'passed: for _ in 0..u64::MAX {
        let Some(passed) = hatch.next_asking() else {
            return;
        };
        if let Some(home) = share.hatch(passed.home) {
            drop(home.ask(passed));
        }
    }
}

impl<F: Framing> Place<F> {
    /// The place of one door more, which is woken so.
    pub fn new(alloc: Global, share: Share<F>, waker: Waker) -> io::Result<Place<F>> {
        let hatch = Arc::new(alloc, Hatch::new(alloc, waker))?;
        let Some(number) = share.open(Arc::try_clone(&hatch)?) else {
            return Err(io::Error::from(ErrorKind::OutOfMemory));
        };
        Ok(Place {
            share,
            number,
            hatch,
            editing: None,
            editing_number: None,
            rest: None,
            has_ended: false,
        })
    }

    /// The number of the door.
    pub fn number(&self) -> usize {
        self.number
    }

    /// Notes whether the worker asks for a connection or has one.
    pub fn note(&self, is_at_work: bool) {
        self.hatch.note(is_at_work);
    }

    /// Ends: nothing is passed here from here on.
    pub fn end(&mut self) {
        self.has_ended = true;
        self.editing = None;
        end(&self.share, self.number, &self.hatch);
    }

    /// Looks for the editing door, if it is another than when it was last looked for.
    fn look_for_editing(&mut self) {
        let number = self.share.editing();
        if number != self.editing_number {
            self.editing_number = number;
            self.rest = None;
            self.editing = match number {
                Some(number) if number != self.number => self.share.hatch(number),
                _ => None,
            };
        }
    }

    /// Whether this is the editing door.
    pub fn is_editing(&mut self) -> bool {
        self.look_for_editing();
        self.editing_number == Some(self.number)
    }

    /// The workers that this door watches: the one at the editing door, or, where that is this one, all others. Whether they are at
    /// rest in this millisecond, and have been for a while.
    pub fn are_at_rest(&mut self, now: u64) -> bool {
        let calls = match &self.editing {
            Some(editing) => editing.at_rest(),
            None => self.share.others_at_rest(self.number),
        };
        let Some(calls) = calls else {
            self.rest = None;
            return false;
        };
        match self.rest {
            Some(rest) if rest.calls == calls => now.saturating_sub(rest.since) >= REST_MILLIS,
            _ => {
                self.rest = Some(Rest { calls, since: now });
                false
            }
        }
    }

    /// Whether requests that may be edits are passed to another door in this millisecond.
    pub fn passes_on(&mut self, now: u64) -> bool {
        if self.has_ended {
            return false;
        }
        self.look_for_editing();
        self.editing.is_some() && !self.are_at_rest(now)
    }

    /// Passes a request to the editing door. It comes back where that has as many as it may have, or memory is wanting.
    pub fn ask(&self, passed: Passed<F>) -> Result<(), Passed<F>>
        ensures { IfErr result (λ back. back ≡ passed) }
    {
        match &self.editing {
            Some(editing) => editing.ask(passed),
            None => Err(passed),
        }
    }

    /// Passes a socket back to the door of a number. It comes back where that has ended, as many are on their way to it as it may hold,
    /// or memory is wanting.
    pub fn send_back(&self, number: usize, guest: Box<Guest>) -> Result<(), Box<Guest>>
        ensures { IfErr result (λ back. back ≡ guest) }
    {
        match self.share.hatch(number) {
            Some(hatch) => hatch.come_back(guest),
            None => Err(guest),
        }
    }

    /// The next request that was passed here, or that waits at the editing door, whose worker is at rest in this millisecond.
    pub fn next_asking(&mut self, now: u64) -> Option<Passed<F>> {
        if let Some(passed) = self.hatch.next_asking() {
            return Some(passed);
        }
        if self.waits_at_editing() && self.are_at_rest(now) {
            match &self.editing {
                Some(editing) => editing.next_asking(),
                None => None,
            }
        } else {
            None
        }
    }

    /// The next socket that came back.
    pub fn next_back(&self) -> Option<Box<Guest>> {
        self.hatch.next_back()
    }

    /// Whether something was passed here.
    pub fn has_passed(&self) -> bool {
        self.hatch.waiting() > 0
    }

    /// Whether a request was passed here, or waits at the editing door.
    pub fn has_asking(&self) -> bool {
        self.has_passed() || self.waits_at_editing()
    }

    /// Whether requests wait at the editing door, where that was another when it was last looked for.
    pub fn waits_at_editing(&self) -> bool {
        match &self.editing {
            Some(editing) => editing.waiting() > 0,
            None => false,
        }
    }

    /// Whether those that this door watches may be at rest, so that they are looked at again soon.
    pub fn may_be_at_rest(&self) -> bool {
        self.rest.is_some()
    }
}
