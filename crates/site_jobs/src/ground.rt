//! The ground of a job: the state that a keeper holds.
ghost use Rattle.std.specs.Prelude.{◌≡◌, IfOk, IfErr, OnOk};
ghost use Rattle.indexed_rows.specs.Rows.{AreValidRows};
ghost use Rattle.site_keeper.specs.Steps.{stored_of};
ghost use Rattle.site_jobs.specs.Faults.{SaysRefusal, SaysText};
ghost use Rattle.site_jobs.specs.Ground.{Holds, IsGround, IsNoGround, IsNoSiteOf, IsSite};
ghost use Rattle.site_jobs.specs.Jobs.{CountsKeeper, IsNoBase, IsNoStored};
ghost use Rattle.site_jobs.specs.Texts.{cell_fault_text};

use crate::fault::NoJob;
use crate::texts::cell_fault_text;
use content_rows::{Cell, Text};
use content_state::{NotASite, Refusal, SiteField, SiteRule, State};
use site_keeper::{Keeper, Stored};
use std::alloc::Global;

/// The greatest number that a site may begin with: 2^62.
const GREATEST_NUMBER: u64 = 4_611_686_018_427_387_904;

/// Why a fault of what is stored ends a job.
fn refused(alloc: Global, fault: &NotASite) -> NoJob
    ensures { SaysText (cell_fault_text fault.now) result }
{
    match cell_fault_text(alloc, fault) {
        Ok(text) => NoJob::Refused(Text::from_vec(text)),
        Err(_) => NoJob::OutOfMemory,
    }
}

/// Why rows that are no site end a job.
pub fn no_site(alloc: Global, why: Refusal) -> NoJob
    ensures { SaysRefusal why result }
{
    match why {
        Refusal::NoSite(fault) => refused(alloc, &fault),
        Refusal::OutOfMemory => NoJob::OutOfMemory,
    }
}

/// The site that is stored.
fn site_of(alloc: Global, stored: Stored) -> Result<State, NoJob>
    requires { AreValidRows stored.rows }
    ensures same { IfOk result (λ base. stored_of base ≡ stored) }
    ensures site { IfOk result IsSite }
    ensures none { IfErr result (IsNoStored IsNoSiteOf stored) }
{
    let Stored { rows, counts, head } = stored;
    match State::from_rows(alloc, rows, counts, head) {
        Ok(base) => Ok(base),
        Err(back) => Err(no_site(alloc, back.why)),
    }
}

/// The site that is stored, or the state of no row at all, whose number is one that a site may begin with.
fn ground_of(alloc: Global, stored: Stored) -> Result<State, NoJob>
    requires { AreValidRows stored.rows }
    ensures same { IfOk result (λ base. stored_of base ≡ stored) }
    ensures ground { IfOk result IsGround }
    ensures none { IfErr result (IsNoStored IsNoGround stored) }
{
    if !stored.rows.is_empty() {
        return site_of(alloc, stored);
    }
    if stored.head > GREATEST_NUMBER {
        let fault = NotASite {
            cell: Cell::Head,
            rule: SiteRule::Range,
            field: SiteField::Number,
        };
        return Err(refused(alloc, &fault));
    }
    let Stored { rows, counts, head } = stored;
    Ok(State::new(alloc, rows, counts, head)?)
}

/// The site that a keeper holds, which keeps it.
///
/// `Refused` comes exactly where it holds no site, with the first fault, and `Keeper` exactly where the keeper's count of
/// faults rose in this call.
pub(crate) fn load_site<K: Keeper>(alloc: Global, keeper: &mut K) -> Result<State, NoJob>
    ensures holds { IfOk result (Holds (K.kept keeper.old)) }
    ensures site { IfOk result IsSite }
    ensures none { IfErr result (IsNoBase IsNoSiteOf (K.kept keeper.old)) }
    ensures stays { K.kept keeper.new ≡ K.kept keeper.old }
    ensures cause { IfErr result (λ why. CountsKeeper why (K.faults keeper.old) (K.faults keeper.new)) }
    ensures steady { OnOk result (K.faults keeper.new ≡ K.faults keeper.old) }
{
    let stored = keeper.load(alloc)?;
    site_of(alloc, stored)
}

/// The site that a keeper holds, or the state of no row at all, which it keeps.
///
/// `Refused` comes exactly where it holds neither, with the first fault, and `Keeper` exactly where the keeper's count of
/// faults rose in this call.
pub(crate) fn load_ground<K: Keeper>(alloc: Global, keeper: &mut K) -> Result<State, NoJob>
    ensures holds { IfOk result (Holds (K.kept keeper.old)) }
    ensures ground { IfOk result IsGround }
    ensures none { IfErr result (IsNoBase IsNoGround (K.kept keeper.old)) }
    ensures stays { K.kept keeper.new ≡ K.kept keeper.old }
    ensures cause { IfErr result (λ why. CountsKeeper why (K.faults keeper.old) (K.faults keeper.new)) }
    ensures steady { OnOk result (K.faults keeper.new ≡ K.faults keeper.old) }
{
    let stored = keeper.load(alloc)?;
    ground_of(alloc, stored)
}
