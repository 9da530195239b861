//! Through which doors pass sockets to each other.
ghost use Rattle.std.specs.Prelude.{◌≡◌, ◌≤◌, ◌++◌, ◌∷◌, [], IfErr, IfNone, IfSome, OnErr, OnOk};
ghost use Rattle.std.specs.VecDeque.{deque_len};
ghost use Rattle.request_framing.specs.Limits.{sockets, passed_sockets, passed_bytes};
ghost use Rattle.request_framing.specs.Gives.{IsRequest};

use crate::guest::Guest;
use mio::Waker;
use request_framing::{Framing, PASSED_BYTES, PASSED_SOCKETS, Parcel, SOCKETS};
use std::alloc::Global;
use std::collections::VecDeque;
use std::marker::PhantomData;
use std::sync::atomic::{AtomicU64, Ordering};
use std::sync::{Mutex, MutexGuard};
use std::thread;

/// A socket with a request that was found there, on its way from door to door. Whoever takes it out of a queue knows of its request
/// what was known where it was found: that it is whole, or refused.
#[derive(Drop)]
pub struct Passed<F: Framing> {
    /// The number of the door where it is parked once it was answered.
    pub home: usize,
    /// The socket. Its time is told in seconds since it began to be at what it is at.
    pub guest: Box<Guest>,
    /// Its request.
    pub parcel: Parcel,
    /// What told that it is one.
    pub of: PhantomData<F>,
    ghost request: { IsRequest F.reaches parcel },
}

impl<F: Framing> Passed<F> {
    /// A guest of the door of this number, and its request.
    pub fn new(home: usize, guest: Box<Guest>, parcel: Parcel) -> Passed<F>
        requires { IsRequest F.reaches parcel }
        ensures home { result.home ≡ home }
        ensures request { result.parcel ≡ parcel }
        ensures behind { result.guest ≡ guest }
    {
        Passed {
            home,
            guest,
            parcel,
            of: PhantomData,
        }
    }

    /// How many bytes of memory it takes.
    fn weight(&self) -> usize {
        self.parcel.capacity().saturating_add(self.guest.weight())
    }
}

/// What waits at a hatch, in the order in which it came. Each step of a queue is exact; no clause follows it through the lock.
#[derive(Drop)]
struct Queues<F: Framing> {
    asking: VecDeque<Passed<F>>,
    /// How many bytes of memory those take.
    held: usize,
    back: VecDeque<Box<Guest>>,
    has_ended: bool,
    ghost asked: { deque_len asking ≤ passed_sockets },
    ghost bytes: { held ≤ passed_bytes },
    ghost returned: { deque_len back ≤ sockets },
}

impl<F: Framing> Queues<F> {
    /// A request more waits, behind the others, where there may be one more. Else it comes back.
    fn ask(&mut self, passed: Passed<F>) -> Result<(), Passed<F>>
        ensures last { OnOk result (self.new.asking.items ≡ self.old.asking.items ++ passed ∷ []) }
        ensures same { OnErr result (self.new.asking.items ≡ self.old.asking.items) }
        ensures others { self.new.back.items ≡ self.old.back.items }
        ensures refused { IfErr result (λ back. back ≡ passed) }
    {
        let held = self.held.saturating_add(passed.weight());
        if self.has_ended || self.asking.len() >= PASSED_SOCKETS || held > PASSED_BYTES {
            return Err(passed);
        }
        match self.asking.push_back(passed) {
            Ok(()) => {
                self.held = held;
                Ok(())
            }
            Err(failed) => Err(failed.value),
        }
    }

    /// A socket more comes back, behind the others, unless the door has ended or so many are on their way as it may hold.
    fn come_back(&mut self, guest: Box<Guest>) -> Result<(), Box<Guest>>
        ensures last { OnOk result (self.new.back.items ≡ self.old.back.items ++ guest ∷ []) }
        ensures same { OnErr result (self.new.back.items ≡ self.old.back.items) }
        ensures others { self.new.asking.items ≡ self.old.asking.items }
        ensures refused { IfErr result (λ back. back ≡ guest) }
    {
        if self.has_ended || self.back.len() >= SOCKETS {
            return Err(guest);
        }
        match self.back.push_back(guest) {
            Ok(()) => Ok(()),
            Err(failed) => Err(failed.value),
        }
    }

    /// The request that has waited for longest. `None` where none waits.
    fn next_asking(&mut self) -> Option<Passed<F>>
        ensures first { IfSome result (λ passed. self.old.asking.items ≡ passed ∷ self.new.asking.items) }
        ensures none { IfNone result (deque_len self.old.asking ≡ 0) }
        ensures others { self.new.back.items ≡ self.old.back.items }
    {
        let passed = self.asking.pop_front()?;
        self.held = self.held.saturating_sub(passed.weight());
        Some(passed)
    }

    /// The socket that came back first. `None` where none did.
    fn next_back(&mut self) -> Option<Box<Guest>>
        ensures first { IfSome result (λ guest. self.old.back.items ≡ guest ∷ self.new.back.items) }
        ensures none { IfNone result (deque_len self.old.back ≡ 0) }
        ensures others { self.new.asking.items ≡ self.old.asking.items }
    {
        self.back.pop_front()
    }

    /// How much waits.
    fn len(&self) -> u64 {
        (self.asking.len() as u64).saturating_add(self.back.len() as u64)
    }
}

/// Where sockets wait that other doors pass to a door: with a request that its worker is to answer, or on their way back.
#[derive(Drop)]
pub(crate) struct Hatch<F: Framing> {
    waker: Waker,
    /// How often its worker began to ask for a connection, and how often it was done with one: odd from the one to the other.
    calls: AtomicU64,
    /// How much waits.
    waiting: AtomicU64,
    queues: Mutex<Queues<F>>,
}

/// Takes a lock that nobody holds for longer than a step. `None` after 2^64 tries, which no run makes.
pub(crate) fn locked<T>(mutex: &Mutex<T>) -> Option<MutexGuard<'_, T>> {
    'tries: for _ in 0..u64::MAX {
        if let Some(guard) = mutex.try_lock() {
            return Some(guard);
        }
        thread::yield_now();
    }
    None
}

impl<F: Framing> Hatch<F> {
    /// The hatch of a door that is woken so.
    pub(crate) fn new(alloc: Global, waker: Waker) -> Hatch<F> {
        Hatch {
            waker,
            calls: AtomicU64::new(0),
            waiting: AtomicU64::new(0),
            queues: Mutex::new(Queues {
                asking: VecDeque::new(alloc),
                held: 0,
                back: VecDeque::new(alloc),
                has_ended: false,
            }),
        }
    }

    /// Wakes the door, if it waits for events.
    pub(crate) fn wake(&self) {
        // Where the system can't, the door finds what waits within a second.
        drop(self.waker.wake());
    }

    /// Passes a request to the door, and wakes it. The request comes back where as many wait as may, the door has ended, or memory is
    /// wanting.
    pub(crate) fn ask(&self, passed: Passed<F>) -> Result<(), Passed<F>>
        ensures { IfErr result (λ back. back ≡ passed) }
    {
        let Some(mut queues) = locked(&self.queues) else {
            return Err(passed);
        };
        queues.ask(passed)?;
        self.waiting.store(queues.len(), Ordering::SeqCst);
        drop(queues);
        self.wake();
        Ok(())
    }

    /// Passes a socket back to the door, and wakes it. The socket comes back where the door has ended, as many are on their way to it as
    /// it may hold, or memory is wanting.
    pub(crate) fn come_back(&self, guest: Box<Guest>) -> Result<(), Box<Guest>>
        ensures { IfErr result (λ back. back ≡ guest) }
    {
        let Some(mut queues) = locked(&self.queues) else {
            return Err(guest);
        };
        queues.come_back(guest)?;
        self.waiting.store(queues.len(), Ordering::SeqCst);
        drop(queues);
        self.wake();
        Ok(())
    }

    /// How much waits.
    pub(crate) fn waiting(&self) -> u64 {
        self.waiting.load(Ordering::SeqCst)
    }

    /// The request that has waited for longest.
    pub(crate) fn next_asking(&self) -> Option<Passed<F>> {
        if self.waiting() == 0 {
            return None;
        }
        let mut queues = locked(&self.queues)?;
        let passed = queues.next_asking();
        self.waiting.store(queues.len(), Ordering::SeqCst);
        passed
    }

    /// The socket that came back first.
    pub(crate) fn next_back(&self) -> Option<Box<Guest>> {
        if self.waiting() == 0 {
            return None;
        }
        let mut queues = locked(&self.queues)?;
        let guest = queues.next_back();
        self.waiting.store(queues.len(), Ordering::SeqCst);
        guest
    }

    /// Nothing is passed to the door from here on.
    pub(crate) fn end(&self) {
        if let Some(mut queues) = locked(&self.queues) {
            queues.has_ended = true;
        }
    }

    /// Notes whether its worker asks for a connection or has one. Only the door itself does so.
    pub(crate) fn note(&self, is_at_work: bool) {
        let calls = self.calls.load(Ordering::SeqCst);
        let was_at_work = calls % 2 == 1;
        if was_at_work != is_at_work {
            self.calls.store(calls.wrapping_add(1), Ordering::SeqCst);
        }
    }

    /// How often that changed, where its worker neither asks for a connection nor has one.
    pub(crate) fn at_rest(&self) -> Option<u64> {
        let calls = self.calls.load(Ordering::SeqCst);
        if calls % 2 == 0 { Some(calls) } else { None }
    }
}
