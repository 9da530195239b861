//! Sites that are closed.
ghost use Rattle.std.specs.Prelude.{◌≡◌};
ghost use Rattle.site_turn.specs.Closing.{AreOf};

use crate::site::site;
use site_hall::Engine;
use site_keeper::MemoryKeeper;
use site_turn::{Pass, Site};
use std::alloc::{AllocError, Global};
use std::sync::Wait;

/// The engine of a site, with two passes of it, which are all.
pub fn closed<R: Wait>(
    rt: &R,
    alloc: Global,
    site: Site<MemoryKeeper>,
    one: Pass,
    two: Pass,
) -> Result<Engine<MemoryKeeper>, AllocError>
    requires one { one.table ≡ site.table }
    requires two { two.table ≡ site.table }
{
    let mut passes = Vec::new(alloc);
    passes.push(one)?;
    passes.push(two)?;
    site.close(rt, passes).map_err(|_| AllocError)
}

// Whether a site isn't closed with its second pass alone, which comes back, and then is with both.
fn closes_with_both<R: Wait>(rt: &R, alloc: Global) -> Result<bool, AllocError> {
    let mut site = site(alloc)?;
    let first = site.new_pass();
    let second = site.new_pass();
    let mut passes = Vec::new(alloc);
    passes.push(second)?;
    let Err(mut left) = site.close(rt, passes) else {
        return Ok(false);
    };
    let right = left.missing == 0 && left.passes.len() == 1 && left.site.made() == 2;
    left.passes.push(first)?;
    match left.site.close(rt, left.passes) {
        Ok(hall) => Ok(right && hall.len() == 0),
        Err(_) => Ok(false),
    }
}

#[test]
fn a_pass_is_missing(rt: HostRuntime) {
    let right = closes_with_both(&rt, rt.alloc()).expect(&rt, "memory");
    assert!(rt; right);
}
