//! What the doors of one address share.
ghost use Rattle.std.specs.Prelude.{◌≡◌};

use crate::hatch::{Hatch, locked};
use request_framing::Framing;
use std::alloc::{AllocError, Global};
use std::sync::atomic::{AtomicU64, Ordering};
use std::sync::{Arc, Mutex};

/// No number of a door.
const NO_DOOR: u64 = u64::MAX;

/// The doors that are open, how many of them take sockets, which is the editing door, and how many sockets all hold.
#[derive(Drop)]
struct Address<F: Framing> {
    /// The hatch of each door, by its number. `None` once it has ended.
    hatches: Mutex<Vec<Option<Arc<Hatch<F>>>>>,
    takers: AtomicU64,
    editing: AtomicU64,
    sockets: AtomicU64,
}

/// What the doors of one address share: through it each takes its part of the sockets, and passes what may be an edit to the editing
/// door. That is the last that was opened of those that are open, where there are two or more.
#[derive(Drop)]
pub struct Share<F: Framing> {
    address: Arc<Address<F>>,
}

/// How many doors are open, and the number of the last.
fn open_of<F: Framing>(hatches: &[Option<Arc<Hatch<F>>>]) -> (u64, u64) {
    let mut count: u64 = 0;
    let mut last = NO_DOOR;
    let mut number: u64 = 0;
    'doors: for hatch in hatches {
        if hatch.is_some() {
            count = count.saturating_add(1);
            last = number;
        }
        number = number.saturating_add(1);
    }
    (count, last)
}

impl<F: Framing> Share<F> {
    /// What the doors of a new address share, which has no door yet. `Err` only where memory is wanting.
    pub fn new(alloc: Global) -> Result<Share<F>, AllocError> {
        let address = Address {
            hatches: Mutex::new(Vec::new(alloc)),
            takers: AtomicU64::new(0),
            editing: AtomicU64::new(NO_DOOR),
            sockets: AtomicU64::new(0),
        };
        Ok(Share {
            address: Arc::new(alloc, address)?,
        })
    }

    /// A copy for one door more, which shares the address. `Err` only where memory is wanting.
    pub fn another(&self) -> Result<Share<F>, AllocError> {
        Ok(Share {
            address: Arc::try_clone(&self.address)?,
        })
    }

    /// Notes how many doors are open, and which is the last.
    fn note_open(&self, hatches: &[Option<Arc<Hatch<F>>>]) {
        let (count, last) = open_of(hatches);
        let has_editing = count > 1;
        let editing = if has_editing { last } else { NO_DOOR };
        let takers = if has_editing { count - 1 } else { count };
        self.address.takers.store(takers, Ordering::SeqCst);
        self.address.editing.store(editing, Ordering::SeqCst);
    }

    /// A door more is open, with this hatch. Its number. `None` where memory is wanting.
    pub(crate) fn open(&self, hatch: Arc<Hatch<F>>) -> Option<usize> {
        let mut hatches = locked(&self.address.hatches)?;
        let doors = &mut *hatches;
        let number = doors.len();
        if doors.push(Some(hatch)).is_err() {
            return None;
        }
        self.note_open(doors.as_slice());
        Some(number)
    }

    /// The door of this number has ended. The others are woken, since one of them may be the only one now.
    pub(crate) fn end(&self, number: usize) {
        let Some(mut hatches) = locked(&self.address.hatches) else {
            return;
        };
        let doors = &mut *hatches;
        if let Some(hatch) = doors.get_mut(number) {
            *hatch = None;
        }
        self.note_open(doors.as_slice());
        'doors: for hatch in doors.as_slice() {
            if let Some(hatch) = hatch {
                hatch.wake();
            }
        }
    }

    /// The hatch of a door that is open.
    pub(crate) fn hatch(&self, number: usize) -> Option<Arc<Hatch<F>>> {
        let hatches = locked(&self.address.hatches)?;
        match hatches.get(number) {
            Some(Some(hatch)) => Arc::try_clone(hatch).ok(),
            _ => None,
        }
    }

    /// The number of the editing door, where there is one.
    pub(crate) fn editing(&self) -> Option<usize> {
        let number = self.address.editing.load(Ordering::SeqCst);
        if number == NO_DOOR {
            None
        } else {
            Some(number as usize)
        }
    }

    /// How often the workers of the other doors began to ask for a connection and were done with one, in all, where none of them asks
    /// or has one.
    pub(crate) fn others_at_rest(&self, own: usize) -> Option<u64> {
        let hatches = locked(&self.address.hatches)?;
        let mut calls: u64 = 0;
        let mut number: usize = 0;
        'doors: for hatch in hatches.as_slice() {
            if let Some(hatch) = hatch {
                if number != own {
                    calls = calls.wrapping_add(hatch.at_rest()?);
                }
            }
            number = number.saturating_add(1);
        }
        Some(calls)
    }

    /// Whether a door that holds so many sockets may take one more: where it holds no more than the average, and a third beyond that
    /// where there are many, so that doors don't wait for each other when many sockets come at once.
    pub fn may_take(&self, own: usize) -> bool {
        let takers = self.address.takers.load(Ordering::SeqCst);
        let all = self.address.sockets.load(Ordering::SeqCst);
        let own = own as u64;
        (own - own / 4).saturating_mul(takers) <= all
    }

    /// One socket more is held.
    pub fn one_more(&self) {
        self.address.sockets.fetch_add(1, Ordering::SeqCst);
    }

    /// One socket less.
    pub fn one_less(&self) {
        self.address.sockets.fetch_sub(1, Ordering::SeqCst);
    }
}
