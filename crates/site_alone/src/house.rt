//! The house of a caller that is alone with a site.
ghost use Rattle.std.specs.Prelude.{◌≡◌, IfOk};
ghost use Rattle.indexed_rows.specs.Rows.{AreValidRows};
ghost use Rattle.content_state.specs.SiteRules.{IsValidState};
ghost use Rattle.site_keeper.specs.Steps.{stored_of};
ghost use Rattle.site_hall.specs.Alone.{house_of};
ghost use Rattle.site_alone.specs.House.{opened_on};

use content_state::State;
use site_hall::{Alone, Engine};
use site_keeper::{MemoryKeeper, Stored};
use std::alloc::{AllocError, Global};

/// The greatest number that a site may begin with: 2^62.
const GREATEST_NUMBER: u64 = 4_611_686_018_427_387_904;

/// All that a keeper holds of a state.
fn stored(alloc: Global, state: &State) -> Result<Stored, AllocError>
    requires { AreValidRows state.now.rows }
    ensures same { IfOk result (λ stored. stored ≡ stored_of state.now) }
    ensures right { IfOk result (λ stored. AreValidRows stored.rows) }
{
    Ok(Stored {
        rows: state.rows().duplicate(alloc)?,
        counts: state.counts().duplicate(alloc)?,
        head: state.number(),
    })
}

/// The house of a caller that is alone with a valid site, over a keeper in memory that fails at no call. It shares the state,
/// and looks at no row of it again. `Err` only where memory is wanting, or where no site begins with the number of the state.
pub fn alone_with(alloc: Global, state: &State) -> Result<Alone<MemoryKeeper>, AllocError>
    requires { IsValidState state.now }
    ensures { IfOk result (λ alone. house_of alone ≡ opened_on state.now) }
{
    if state.number() > GREATEST_NUMBER {
        return Err(AllocError);
    }
    let keeper = MemoryKeeper::new(alloc, stored(alloc, state)?, Vec::new(alloc));
    match Engine::over(alloc, keeper, state.duplicate(alloc)?) {
        Ok(hall) => Ok(Alone::new(alloc, hall)),
        Err(_) => Err(AllocError),
    }
}
