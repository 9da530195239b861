//! A new site with a session, and what is wanted of it.
ghost use Rattle.std.specs.Prelude.{◌≡◌, IfOk};
ghost use Rattle.content_state.specs.SiteRules.{IsValidState};
ghost use Rattle.indexed_rows.specs.Rows.{AreValidRows};
ghost use Rattle.site_keeper.specs.Keeper.{IfTold};

use cache_entries::{Key, Subject};
use cacheability::Name;
use content_rows::Items;
use content_state::{Fragment, Rows, State};
use site_access::Shared;
use site_files::{STARTER, read_rows, read_site};
use site_hall::Engine;
use site_io::MemorySource;
use site_keeper::{Fail, Keeper, MemoryKeeper, Stored};
use site_turn::Site;
use std::alloc::{AllocError, Global};
use tag_counts::Counts;

/// A session `abc` of the first user.
const SESSION: &[u8] = b"{\"cell\":\"session:abc\",\"expires\":2000,\"uid\":1}\n";

// The lines of the rows that a site begins with, and of the session.
fn lines(alloc: Global) -> Result<MemorySource, AllocError> {
    let mut lines = Vec::from_slice(alloc, STARTER)?;
    lines.extend_from_slice(SESSION)?;
    Ok(MemorySource::new(lines, 4_096))
}

// The rows that a site begins with, and the session.
fn rows(alloc: Global) -> Result<Rows, AllocError>
    ensures { IfOk result (λ rows. AreValidRows rows) }
{
    let mut source = lines(alloc)?;
    read_rows(alloc, &mut source).map_err(|_| AllocError)
}

/// The state of that site, at the number 0.
pub fn state(alloc: Global) -> Result<State, AllocError>
    ensures { IfOk result IsValidState }
{
    let mut source = lines(alloc)?;
    read_site(alloc, &mut source).map_err(|_| AllocError)
}

/// What a keeper holds of that site, at the number 0.
pub fn stored(alloc: Global) -> Result<Stored, AllocError>
    ensures { IfOk result (λ stored. AreValidRows stored.rows) }
{
    let rows = rows(alloc)?;
    Ok(Stored {
        rows,
        counts: Counts::new(alloc),
        head: 0,
    })
}

/// The site over a keeper that holds this, where it tells what it holds. No pass is made yet.
pub fn site_over<K: Keeper + Drop>(
    alloc: Global,
    keeper: K,
    stored: Stored,
) -> Result<Site<K>, AllocError>
    requires told { IfTold (K.kept keeper) (λ held. held ≡ stored) }
    requires rows { AreValidRows stored.rows }
    ensures { IfOk result (λ site. site.founder.made ≡ 0) }
{
    let Ok(hall) = Engine::new(alloc, keeper, stored) else {
        return Err(AllocError);
    };
    Site::new(alloc, hall).map_err(|_| AllocError)
}

/// The site, at the number 0, over a keeper in memory, of whose calls these fail. No pass is made yet.
pub fn site_that_fails(alloc: Global, fails: Vec<Fail>) -> Result<Site<MemoryKeeper>, AllocError>
    ensures { IfOk result (λ site. site.founder.made ≡ 0) }
{
    let stored = stored(alloc)?;
    let copy = stored.duplicate(alloc)?;
    let keeper = MemoryKeeper::new(alloc, copy, fails);
    site_over(alloc, keeper, stored)
}

/// The site, at the number 0, over a keeper in memory. No pass is made yet.
pub fn site(alloc: Global) -> Result<Site<MemoryKeeper>, AllocError>
    ensures { IfOk result (λ site. site.founder.made ≡ 0) }
{
    site_that_fails(alloc, Vec::new(alloc))
}

/// The key of the block of this name, whose values are none.
pub fn key(alloc: Global, block: &[u8]) -> Result<Key, AllocError> {
    let Ok(name) = Name::new(block) else {
        return Err(AllocError);
    };
    Ok(Key {
        subject: Subject::Fragment(Fragment::Block(name)),
        values: Shared::new(alloc, Items::none(alloc))?,
    })
}
