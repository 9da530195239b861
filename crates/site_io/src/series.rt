//! A clock and entropy in memory, which give the values of a list and tell what they gave.
ghost use Rattle.std.specs.Prelude.{◌≡◌, ◌≤◌, ◌++◌, ◌∷◌, ◌-◌, [], Some, length, map, min};
ghost use Rattle.site_io.specs.Told.{after};
ghost use Rattle.site_io.specs.Series.{Series as SeriesValue, value_at, GivesInTurn, last_moment, last_word};

use crate::device::{Clock, Entropy, LAST_MOMENT};
use http_server::Log;
use std::marker::Model;

// Values, of which the last, or 0, is repeated. What was given is known to proofs alone, and takes no memory.
#[derive(Drop)]
struct Series {
    values: Vec<u64>,
    next: usize,
    given: Log<u64, ()>,
}

impl Model for Series {
    ghost Value = { SeriesValue };

    ghost view = { λ s. record { values = s.values.items; given = map (λ p. p.0) s.given.items } };

    ghost invariant = { λ s. s.next ≡ min (length s.given.items) (length s.values.items - 1) };
}

impl Series {
    // Nothing is given yet.
    fn new(values: Vec<u64>) -> Series
        ensures { result ≡ record { values = values.items; given = [] } }
    {
        Series {
            values,
            next: 0,
            given: Log::new(),
        }
    }

    // The value that is next.
    fn value(&self) -> u64
        ensures { result ≡ value_at self.now.values (length self.now.given) }
    {
        match self.values.get(self.next) {
            Some(value) => *value,
            None => 0,
        }
    }

    // This was given in its turn.
    fn give(&mut self, given: u64)
        ensures { self.new ≡ record self.old { given = self.old.given ++ given ∷ [] } }
    {
        self.given = self.given.and(&given, &());
        if self.next + 1 < self.values.len() {
            self.next += 1;
        }
    }
}

/// A clock that gives the moments of a list, one after the other, and then the last one, or of no list 0.
#[derive(Drop)]
pub struct ListClock {
    series: Series,
}

impl Model for ListClock {
    ghost Value = { SeriesValue };

    ghost view = { λ c. c.series };
}

impl ListClock {
    /// Gives these moments. One above 4,102,444,800 is given as that.
    pub fn new(moments: Vec<u64>) -> ListClock
        ensures { result ≡ record { values = moments.items; given = [] } }
    {
        ListClock {
            series: Series::new(moments),
        }
    }
}

impl Clock for ListClock {
    ghost moments = { λ c. Some c.values };

    ghost given = { λ c. Some c.given };

    fn now(&mut self) -> u64
        ensures told { Some self.new.given ≡ after (Some self.old.given) (result ∷ []) }
        ensures in_turn { GivesInTurn last_moment (Some self.old.values) (Some self.new.values) (Some self.old.given) (Some self.new.given) }
        ensures within { result ≤ last_moment }
        ensures exact { result ≡ min (value_at self.old.values (length self.old.given)) last_moment }
        ensures clock { self.new ≡ record self.old { given = self.old.given ++ result ∷ [] } }
    {
        let moment = self.series.value().min(LAST_MOMENT);
        self.series.give(moment);
        moment
    }
}

/// Entropy that gives the words of a list, one after the other, and then the last one, or of no list 0.
#[derive(Drop)]
pub struct ListEntropy {
    series: Series,
}

impl Model for ListEntropy {
    ghost Value = { SeriesValue };

    ghost view = { λ e. e.series };
}

impl ListEntropy {
    /// Gives these words.
    pub fn new(words: Vec<u64>) -> ListEntropy
        ensures { result ≡ record { values = words.items; given = [] } }
    {
        ListEntropy {
            series: Series::new(words),
        }
    }
}

impl Entropy for ListEntropy {
    ghost words = { λ e. Some e.values };

    ghost given = { λ e. Some e.given };

    fn word(&mut self) -> u64
        ensures told { Some self.new.given ≡ after (Some self.old.given) (result ∷ []) }
        ensures in_turn { GivesInTurn last_word (Some self.old.values) (Some self.new.values) (Some self.old.given) (Some self.new.given) }
        ensures exact { result ≡ value_at self.old.values (length self.old.given) }
        ensures entropy { self.new ≡ record self.old { given = self.old.given ++ result ∷ [] } }
    {
        let word = self.series.value();
        self.series.give(word);
        word
    }
}
