//! What deciding gives.
ghost use Rattle.std.specs.Prelude.{◌≡◌};

/// What deciding about access gives. Only `Allowed` gives access; `Neutral` has no opinion.
/// <https://api.drupal.org/api/drupal/core%21lib%21Drupal%21Core%21Access%21AccessResult.php/class/AccessResult/10>
#[derive(Clone, Copy, Debug, PartialEq, Eq)]
pub enum Verdict {
    /// Gives access.
    Allowed,
    /// Neither gives access nor forbids it.
    Neutral,
    /// Forbids access.
    Forbidden,
}

impl Verdict {
    ghost use Rattle.access_result.specs.Verdict.{or_verdict, and_verdict};

    /// Forbidden if either is, else allowed if either is, else neutral.
    pub fn or(self, other: Verdict) -> Verdict
        ensures { result ≡ or_verdict self other }
    {
        match (self, other) {
            (Verdict::Forbidden, _) | (_, Verdict::Forbidden) => Verdict::Forbidden,
            (Verdict::Allowed, _) | (_, Verdict::Allowed) => Verdict::Allowed,
            (Verdict::Neutral, Verdict::Neutral) => Verdict::Neutral,
        }
    }

    /// Forbidden if either is, else allowed if both are, else neutral.
    pub fn and(self, other: Verdict) -> Verdict
        ensures { result ≡ and_verdict self other }
    {
        match (self, other) {
            (Verdict::Forbidden, _) | (_, Verdict::Forbidden) => Verdict::Forbidden,
            (Verdict::Allowed, Verdict::Allowed) => Verdict::Allowed,
            (Verdict::Neutral, _) | (_, Verdict::Neutral) => Verdict::Neutral,
        }
    }
}
