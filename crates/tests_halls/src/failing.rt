//! An edit that the keeper keeps though its call fails, and another caller's edit after it.
ghost use Rattle.std.specs.Prelude.{◌≡◌, IfOk};

use crate::closing::closed;
use crate::site::site_that_fails;
use crate::work::{Connection, answered_by};
use crate::workers::TITLE;
use site_keeper::{Fail, MemoryKeeper};
use site_turn::Site;
use std::alloc::{AllocError, Global};
use std::sync::Wait;

/// To give the first node the title B, in place of its version 2.
const NEXT: &[u8] =
    b"PATCH /node/1 HTTP/1.1\r\nHost: a\r\nCookie: SESS=abc\r\nX-CSRF-Token: ba7816bf8f01cfea414140de5dae2223\r\nContent-Type: application/json\r\nContent-Length: 21\r\n\r\n{\"title\":\"B\",\"vid\":2}";

const KEEPER_REPLY: &[u8] =
    b"HTTP/1.1 503 Service Unavailable\r\nContent-Type: application/json\r\nContent-Length: 17\r\n\r\n{\"code\":\"keeper\"}";

const NEXT_REPLY: &[u8] =
    b"HTTP/1.1 200 OK\r\nContent-Type: application/json\r\nContent-Length: 17\r\nX-Site-State: 2\r\n\r\n{\"nid\":1,\"vid\":3}";

// The site over a keeper whose first call fails, and keeps its batch all the same.
fn failing_site(alloc: Global) -> Result<Site<MemoryKeeper>, AllocError>
    ensures { IfOk result (λ site. site.founder.made ≡ 0) }
{
    let fail = Fail {
        call: 1,
        kept: true,
    };
    let mut fails = Vec::new(alloc);
    fails.push(fail)?;
    site_that_fails(alloc, fails)
}

// How many edits are published, once one pass answered a connection, and then another pass the other.
fn published<R: Wait>(
    rt: &R,
    alloc: Global,
    first: &mut Connection,
    second: &mut Connection,
) -> Result<usize, AllocError> {
    let mut site = failing_site(alloc)?;
    let mut one = site.new_pass();
    let mut two = site.new_pass();
    answered_by(rt, alloc, &site, &mut one, first);
    answered_by(rt, alloc, &site, &mut two, second);
    Ok(closed(rt, alloc, site, one, two)?.len())
}

// The first edit is pending, and the other pass publishes it before its own.
#[test]
fn another_pass_publishes_what_was_kept(rt: HostRuntime) {
    let alloc = rt.alloc();
    let mut first = Connection::new(alloc, TITLE).expect(&rt, "memory");
    let mut second = Connection::new(alloc, NEXT).expect(&rt, "memory");
    let count = published(&rt, alloc, &mut first, &mut second).expect(&rt, "memory");
    assert!(rt; first.written() == KEEPER_REPLY);
    assert!(rt; second.written() == NEXT_REPLY);
    assert!(rt; count == 2);
}
