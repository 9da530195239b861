//! Opening the site that a store holds.
ghost use Rattle.std.specs.Prelude.{◌≡◌, IfOk, IfErr};
ghost use Rattle.site_hall.specs.Hall.{IsHall};
ghost use Rattle.site_jobs.specs.Ground.{IsNoSiteOf};
ghost use Rattle.site_jobs.specs.Jobs.{CountsKeeper, IsNoBase};
ghost use Rattle.serve_store.specs.Job.{IsOpened};

use site_hall::{Engine, NoEngine};
use site_jobs::{NoJob, no_site};
use site_keeper::Keeper;
use std::alloc::Global;

/// Why the site that a keeper holds isn't opened. The keeper comes back.
#[derive(Drop)]
pub(crate) struct Unopened<K> {
    pub(crate) keeper: K,
    pub(crate) why: NoJob,
}

/// The engine of the site that a keeper holds, where nothing was edited yet.
///
/// `Refused` comes exactly where it holds no site, with the first fault, and `Keeper` exactly where the keeper's count of
/// faults rose in this call.
pub(crate) fn hall_of<K: Keeper>(alloc: Global, mut keeper: K) -> Result<Engine<K>, Unopened<K>>
    ensures opened { IfOk result (IsOpened (K.kept keeper) (K.faults keeper)) }
    ensures is_hall { IfOk result (λ hall. IsHall hall) }
    ensures none { IfErr result (λ none. IsNoBase IsNoSiteOf (K.kept keeper) none.why) }
    ensures stays { IfErr result (λ none. K.kept none.keeper ≡ K.kept keeper) }
    ensures cause { IfErr result (λ none. CountsKeeper none.why (K.faults keeper) (K.faults none.keeper)) }
{
    match keeper.load(alloc) {
        Ok(stored) => match Engine::new(alloc, keeper, stored) {
            Ok(hall) => Ok(hall),
            Err(NoEngine { keeper, why, .. }) => Err(Unopened {
                keeper,
                why: no_site(alloc, why),
            }),
        },
        Err(fault) => Err(Unopened {
            keeper,
            why: NoJob::from(fault),
        }),
    }
}
