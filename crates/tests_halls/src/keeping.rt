//! What passes keep of pages, and find.
ghost use Rattle.std.specs.Prelude.{◌≡◌};

use crate::closing::closed;
use crate::site::{key, site};
use crate::work::{Connection, answered_by};
use cache_entries::{Bin, Found, Kept};
use cacheability::OrderedSet;
use site_hall::Tally;
use site_house::House;
use site_keeper::MemoryKeeper;
use site_turn::{Guest, Pass, Site};
use std::alloc::{AllocError, Global};
use std::sync::{Arc, Wait};

// A pass keeps that the block `a` stands under another key.
fn keep<R: Wait>(
    rt: &R,
    alloc: Global,
    site: &Site<MemoryKeeper>,
    pass: &mut Pass,
) -> Result<(), AllocError>
    requires { pass.old.table ≡ site.now.table }
    ensures { pass.new.table ≡ site.now.table }
{
    let contexts = Arc::new(alloc, OrderedSet::new(alloc))?;
    let key = key(alloc, b"a")?;
    let mut guest = Guest::new(rt, site.room(), pass);
    guest.keep(alloc, Bin::Fragments, key, Kept::Redirect(contexts))
}

// Whether a pass finds that.
fn finds<R: Wait>(
    rt: &R,
    alloc: Global,
    site: &Site<MemoryKeeper>,
    pass: &mut Pass,
) -> Result<bool, AllocError>
    requires { pass.old.table ≡ site.now.table }
    ensures { pass.new.table ≡ site.now.table }
{
    let key = key(alloc, b"a")?;
    let mut guest = Guest::new(rt, site.room(), pass);
    match guest.look(alloc, Bin::Fragments, &key)? {
        Found::Redirect(_) => Ok(true),
        Found::Entry(_) | Found::Absent => Ok(false),
    }
}

// What the hall of a site counted, whose only passes these are.
fn tally<R: Wait>(
    rt: &R,
    alloc: Global,
    site: Site<MemoryKeeper>,
    one: Pass,
    two: Pass,
) -> Result<Tally, AllocError>
    requires one { one.table ≡ site.table }
    requires two { two.table ≡ site.table }
{
    let hall = closed(rt, alloc, site, one, two)?;
    Ok(hall.tally())
}

// Whether what one pass keeps the other finds, and the hall counted what both did.
fn is_shared<R: Wait>(rt: &R, alloc: Global) -> Result<bool, AllocError> {
    let mut site = site(alloc)?;
    let mut one = site.new_pass();
    let mut two = site.new_pass();
    let before = finds(rt, alloc, &site, &mut two);
    let kept = keep(rt, alloc, &site, &mut one);
    let after = finds(rt, alloc, &site, &mut two);
    let tally = tally(rt, alloc, site, one, two)?;
    let counted = Tally {
        looks: 2,
        found: 1,
        kept: 1,
    };
    Ok(before == Ok(false) && kept.is_ok() && after == Ok(true) && tally == counted)
}

/// The first node, with a cookie that names nobody.
const NODE: &[u8] = b"GET /node/1 HTTP/1.1\r\nHost: a\r\nCookie: SESS=nobody\r\n\r\n";

// What the hall of a new site counted, once one pass answered a connection, and then another pass the other.
fn counted<R: Wait>(
    rt: &R,
    alloc: Global,
    first: &mut Connection,
    second: &mut Connection,
) -> Result<Tally, AllocError> {
    let mut site = site(alloc)?;
    let mut one = site.new_pass();
    let mut two = site.new_pass();
    answered_by(rt, alloc, &site, &mut one, first);
    answered_by(rt, alloc, &site, &mut two, second);
    tally(rt, alloc, site, one, two)
}

// A redirect that one pass keeps the other finds; and so it is with a page, which the first builds, keeping it under one key and two parts
// of it behind redirects, and the second finds whole, by one look.
#[test]
fn what_is_kept_is_shared(rt: HostRuntime) {
    let alloc = rt.alloc();
    let right = is_shared(&rt, alloc).expect(&rt, "memory");
    assert!(rt; right);
    let mut first = Connection::new(alloc, NODE).expect(&rt, "memory");
    let mut second = Connection::new(alloc, NODE).expect(&rt, "memory");
    let tally = counted(&rt, alloc, &mut first, &mut second).expect(&rt, "memory");
    assert!(rt; first.built() == (1, [2, 0, 0, 0]));
    assert!(rt; second.built() == (1, [0, 0, 0, 0]));
    let both = Tally {
        looks: 3 + 1,
        found: 1,
        kept: 5,
    };
    assert!(rt; tally == both);
}
