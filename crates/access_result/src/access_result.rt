//! What deciding gives, with why not and what it depends on.
ghost use Rattle.std.specs.Prelude.{◌≡◌, ◌↔◌, IfOk, IsTrue};
ghost use Rattle.std.specs.Option.{option_copied};
ghost use Rattle.access_result.specs.declared.verdict.Verdict.TheVariants as verdict_is;

use crate::reason::Reason;
use crate::verdict::Verdict;
use cacheability::Cacheability;
use std::alloc::{AllocError, Global};

/// What deciding about access gives: the verdict, why not, and what the decision depends on.
/// <https://api.drupal.org/api/drupal/core%21lib%21Drupal%21Core%21Access%21AccessResult.php/class/AccessResult/10>
#[derive(Drop)]
pub struct AccessResult {
    /// The verdict.
    pub verdict: Verdict,
    /// Why it isn't allowed, where that is told.
    pub reason: Option<Reason>,
    /// What was looked at in deciding.
    pub cacheability: Cacheability,
}

impl AccessResult {
    ghost use Rattle.access_result.specs.AccessResult.{or_result, and_result, combined, reason_for, first_reason};

    /// Forbidden if either is, else allowed if either is, else neutral. Its reason is that of a side
    /// with its verdict, the left's first, and none where it is allowed. Its cacheability is the
    /// left's alone where the left is forbidden, else that of both. `Err` only where memory is
    /// wanting.
    pub fn or_if(&self, alloc: Global, other: &AccessResult) -> Result<AccessResult, AllocError>
        ensures { IfOk result (λ both. both ≡ or_result self.now other.now) }
    {
        self.combined(alloc, self.verdict.or(other.verdict), other)
    }

    /// Forbidden if either is, else allowed if both are, else neutral. Its reason and cacheability
    /// are as those of `or_if`. `Err` only where memory is wanting.
    pub fn and_if(&self, alloc: Global, other: &AccessResult) -> Result<AccessResult, AllocError>
        ensures { IfOk result (λ both. both ≡ and_result self.now other.now) }
    {
        self.combined(alloc, self.verdict.and(other.verdict), other)
    }

    /// Whether it gives access.
    pub fn allowed(&self) -> bool
        ensures { IsTrue result ↔ (self.now.verdict ≡ verdict_is.Allowed) }
    {
        self.verdict == Verdict::Allowed
    }

    /// Why it doesn't, where that is told.
    pub fn reason(&self) -> Option<&Reason>
        ensures { option_copied result ≡ self.now.reason }
    {
        self.reason.as_ref()
    }

    /// The combination with another that has this verdict.
    fn combined(
        &self,
        alloc: Global,
        verdict: Verdict,
        other: &AccessResult,
    ) -> Result<AccessResult, AllocError>
        ensures { IfOk result (λ both. both ≡ combined verdict self.now other.now) }
    {
        let mut cacheability = self.cacheability.duplicate(alloc)?;
        if self.verdict != Verdict::Forbidden {
            cacheability.merge(alloc, &other.cacheability)?;
        }
        let reason = match self.reason_for(verdict) {
            Some(reason) => Some(reason.duplicate(alloc)?),
            None => match other.reason_for(verdict) {
                Some(reason) => Some(reason.duplicate(alloc)?),
                None => None,
            },
        };
        Ok(AccessResult {
            verdict,
            reason,
            cacheability,
        })
    }

    /// The reason, where the result has this verdict and isn't allowed.
    fn reason_for(&self, verdict: Verdict) -> Option<&Reason>
        ensures { option_copied result ≡ reason_for verdict self.now }
    {
        match (verdict, self.verdict) {
            (Verdict::Neutral, Verdict::Neutral) | (Verdict::Forbidden, Verdict::Forbidden) => {
                self.reason.as_ref()
            }
            _ => None,
        }
    }

    /// A copy of the result. `Err` only where memory is wanting.
    pub fn duplicate(&self, alloc: Global) -> Result<AccessResult, AllocError>
        ensures { IfOk result (λ copy. copy ≡ self.now) }
    {
        let reason = match &self.reason {
            Some(reason) => Some(reason.duplicate(alloc)?),
            None => None,
        };
        Ok(AccessResult {
            verdict: self.verdict,
            reason,
            cacheability: self.cacheability.duplicate(alloc)?,
        })
    }
}
