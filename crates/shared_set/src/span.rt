//! Stretches of keys.
ghost use Rattle.std.specs.Prelude.{◌≡◌};
ghost use Rattle.std.specs.declared.cmp.Ordering.{Ordering};
ghost use Rattle.std.specs.declared.cmp.Ordering.TheVariants.{Less, Greater};

use std::cmp::Ordering;

/// A stretch of keys that stand together in their order, as all that share their first fields.
pub trait Span<K: Ord>: Copy {
    /// Where the stretch stands beside a key: `Greater` where the key comes before it, `Equal` where the key is in it,
    /// and `Less` where the key comes behind it.
    ghost beside: { Self → K → Ordering };

    fn beside(&self, key: &K) -> Ordering
        ensures { result ≡ beside self.now key.now };

    /// What stands after a key behind the stretch is behind it, too.
    ghost behind: { (s : Self) (a b : K) → K.cmp a b ≡ Less → beside s a ≡ Less → beside s b ≡ Less };

    /// What stands before a key before the stretch is before it, too.
    ghost before: { (s : Self) (a b : K) → K.cmp a b ≡ Less → beside s b ≡ Greater → beside s a ≡ Greater };
}
