//! What engines keep of pages, where each bin has room for one thing.
ghost use Rattle.std.specs.Prelude.{◌≡◌, IfOk, None};

use crate::site::{key, stored};
use cache_entries::{Bin, Found, Kept};
use cacheability::OrderedSet;
use site_hall::{Alone, Engine, Rooms, Tally};
use site_house::House;
use site_keeper::MemoryKeeper;
use std::alloc::{AllocError, Global};
use std::num::NonZeroUsize;
use std::sync::Arc;

// The engine of a new site, where each bin has room for one thing.
fn hall(alloc: Global) -> Result<Engine<MemoryKeeper>, AllocError>
    ensures { IfOk result (λ hall. hall.pending ≡ None) }
{
    let Some(one) = NonZeroUsize::new(1) else {
        return Err(AllocError);
    };
    let rooms = Rooms {
        fragments: one,
        dynamic: one,
        anonymous: one,
    };
    let stored = stored(alloc)?;
    let copy = stored.duplicate(alloc)?;
    let keeper = MemoryKeeper::new(alloc, copy, Vec::new(alloc));
    Engine::with_rooms(alloc, keeper, stored, rooms).map_err(|_| AllocError)
}

// Keeps that a block stands under another key.
fn keep<H: House>(alloc: Global, house: &mut H, bin: Bin, block: &[u8]) -> Result<(), AllocError> {
    let contexts = Arc::new(alloc, OrderedSet::new(alloc))?;
    let key = key(alloc, block)?;
    house.keep(alloc, bin, key, Kept::Redirect(contexts))
}

// Whether it is found where a block stands.
fn finds<H: House>(
    alloc: Global,
    house: &mut H,
    bin: Bin,
    block: &[u8],
) -> Result<bool, AllocError> {
    let key = key(alloc, block)?;
    match house.look(alloc, bin, &key)? {
        Found::Redirect(_) => Ok(true),
        Found::Entry(_) | Found::Absent => Ok(false),
    }
}

// What is found of two blocks, of which a bin has room for one: before, once the first is kept, in another bin, and both once the second
// is kept.
fn found<H: House>(alloc: Global, house: &mut H) -> Result<[bool; 5], AllocError> {
    let before = finds(alloc, house, Bin::Fragments, b"a")?;
    keep(alloc, house, Bin::Fragments, b"a")?;
    let first = finds(alloc, house, Bin::Fragments, b"a")?;
    let elsewhere = finds(alloc, house, Bin::Dynamic, b"a")?;
    keep(alloc, house, Bin::Fragments, b"b")?;
    let dropped = finds(alloc, house, Bin::Fragments, b"a")?;
    let last = finds(alloc, house, Bin::Fragments, b"b")?;
    Ok([before, first, elsewhere, dropped, last])
}

// Whether an engine finds what was kept last in a bin, and nothing in the others, and counts looks, finds and keeps.
fn keeps_the_last(alloc: Global) -> Result<bool, AllocError> {
    let mut alone = Alone::new(alloc, hall(alloc)?);
    let Ok(found) = found(alloc, &mut alone) else {
        drop(alone);
        return Err(AllocError);
    };
    let unkept = alone.unkept();
    let tally = alone.into_hall().tally();
    let counted = Tally {
        looks: 5,
        found: 2,
        kept: 2,
    };
    Ok(found == [false, true, false, false, true] && unkept == 0 && tally == counted)
}

#[test]
fn the_last_is_found(rt: HostRuntime) {
    let right = keeps_the_last(rt.alloc()).expect(&rt, "memory");
    assert!(rt; right);
}
