//! How long something may be kept.
ghost use Rattle.std.specs.Prelude.{◌≡◌};

/// How long something may be kept (Drupal's Cache API, "Cache max-age"). `Permanent` is greater
/// than every number of seconds; `Seconds(0)` means that it may not be kept at all.
#[derive(Clone, Copy, Debug, PartialEq, Eq)]
pub enum MaxAge {
    /// For ever.
    Permanent,
    /// For this many seconds.
    Seconds(u32),
}

impl MaxAge {
    ghost use Rattle.cacheability.specs.MaxAge.{least};

    /// The lesser of two ages.
    pub fn least(self, other: MaxAge) -> MaxAge
        ensures { result ≡ least self other }
    {
        match (self, other) {
            (MaxAge::Permanent, age) => age,
            (age, MaxAge::Permanent) => age,
            (MaxAge::Seconds(a), MaxAge::Seconds(b)) => MaxAge::Seconds(a.min(b)),
        }
    }
}
