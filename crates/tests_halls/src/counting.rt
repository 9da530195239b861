//! How many elements are built for the pages that one pass is asked for.
ghost use Rattle.std.specs.Prelude.{◌≡◌};

use crate::site::site;
use crate::work::{Connection, answered_by};
use site_hall::Tally;
use site_keeper::MemoryKeeper;
use site_turn::{Pass, Site};
use std::alloc::{AllocError, Global};
use std::sync::Wait;

/// The first node twice; then all is to be made anew; and then the first node again. Each page is asked for with a cookie that names nobody,
/// so that no reply is given again.
const REQUESTS: &[u8] =
    b"GET /node/1 HTTP/1.1\r\nHost: a\r\nCookie: SESS=nobody\r\n\r\nGET /node/1 HTTP/1.1\r\nHost: a\r\nCookie: SESS=nobody\r\n\r\nPOST /cache/rebuild HTTP/1.1\r\nHost: a\r\nCookie: SESS=abc\r\nX-CSRF-Token: ba7816bf8f01cfea414140de5dae2223\r\n\r\nGET /node/1 HTTP/1.1\r\nHost: a\r\nCookie: SESS=nobody\r\n\r\n";

// What the hall of a site counted, whose only pass this is.
fn tally<R: Wait>(
    rt: &R,
    alloc: Global,
    site: Site<MemoryKeeper>,
    pass: Pass,
) -> Result<Tally, AllocError>
    requires { pass.table ≡ site.table }
{
    let mut passes = Vec::new(alloc);
    passes.push(pass)?;
    match site.close(rt, passes) {
        Ok(hall) => Ok(hall.tally()),
        Err(_) => Err(AllocError),
    }
}

// What the hall of a new site counted, once its only pass answered a connection.
fn counted<R: Wait>(
    rt: &R,
    alloc: Global,
    connection: &mut Connection,
) -> Result<Tally, AllocError> {
    let mut site = site(alloc)?;
    let mut pass = site.new_pass();
    answered_by(rt, alloc, &site, &mut pass, connection);
    tally(rt, alloc, site, pass)
}

// The page and its node are built once, found again, and built again once all is to be made anew. Of a page three things are kept: the
// page of its target, under one key, and that of its path and the node, each behind a redirect. None of the three is found at first; then the
// first one is, by one look; and at last all three, which aren't fresh, and are kept anew.
#[test]
fn what_one_pass_keeps_it_finds(rt: HostRuntime) {
    let alloc = rt.alloc();
    let mut connection = Connection::new(alloc, REQUESTS).expect(&rt, "memory");
    let tally = counted(&rt, alloc, &mut connection).expect(&rt, "memory");
    assert!(rt; connection.built() == (4, [2, 0, 0, 2]));
    let all = Tally {
        looks: 3 + 1 + 5,
        found: 1 + 5,
        kept: 5 + 5,
    };
    assert!(rt; tally == all);
}
