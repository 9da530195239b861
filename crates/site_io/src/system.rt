//! The clock of the system, and a gate that does nothing, which tell nothing of what they hold.
ghost use Rattle.std.specs.Prelude.{◌≡◌, ◌/◌, None, min};
ghost use Rattle.std.specs.Duration.{as_nanos};
ghost use Rattle.site_io.specs.Series.{last_moment};

use crate::device::{Clock, Gate, LAST_MOMENT, Point};
use std::time::{Duration, SystemTime, UNIX_EPOCH};

/// The system's clock. A moment that it can't give, or before 1970, is 0; one after the year 2099 is 4,102,444,800.
#[derive(Drop)]
pub struct SystemClock<C> {
    clock: C,
}

impl<C> SystemClock<C> {
    /// Reads this clock, as the runtime that `main` is given.
    pub fn new(clock: C) -> SystemClock<C> {
        SystemClock { clock }
    }
}

/// The moment that is so long after 1970-01-01 UTC: its whole seconds, or the greatest moment where that is earlier.
pub fn moment_of(since: Duration) -> u64
    ensures { result ≡ min (as_nanos since / 1_000_000_000) last_moment }
{
    since.as_secs().min(LAST_MOMENT)
}

impl<C: std::time::Clock> Clock for SystemClock<C> {
    ghost moments = { λ _. None };

    ghost given = { λ _. None };

    fn now(&mut self) -> u64 {
        let Ok(time) = SystemTime::now(&self.clock) else {
            return 0;
        };
        match time.duration_since(UNIX_EPOCH) {
            Ok(since) => moment_of(since),
            Err(_) => 0,
        }
    }
}

/// A gate that does nothing and tells nothing.
#[derive(Clone, Copy, Debug, PartialEq, Eq)]
pub struct OpenGate;

impl Gate for OpenGate {
    ghost reached = { λ _. None };

    fn reach(&mut self, _point: Point) {}
}
