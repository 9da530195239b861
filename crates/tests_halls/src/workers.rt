//! Workers that answer connections side by side.
ghost use Rattle.std.specs.Prelude.{◌≡◌};

use crate::closing::closed;
use crate::site::site;
use crate::work::Connection;
use site_house::House;
use site_keeper::{Keeper, MemoryKeeper};
use site_turn::{Guest, Pass, Site, Worker, work_all};
use std::alloc::{AllocError, Global};
use std::sync::Wait;
use std::thread::Threads;

/// To give the first node the title A, in place of its version 1.
pub const TITLE: &[u8] =
    b"PATCH /node/1 HTTP/1.1\r\nHost: a\r\nCookie: SESS=abc\r\nX-CSRF-Token: ba7816bf8f01cfea414140de5dae2223\r\nContent-Type: application/json\r\nContent-Length: 21\r\n\r\n{\"title\":\"A\",\"vid\":1}";

/// To give the first node the title A, in place of its version 1, and then the title B.
const TITLES: &[u8] =
    b"PATCH /node/1 HTTP/1.1\r\nHost: a\r\nCookie: SESS=abc\r\nX-CSRF-Token: ba7816bf8f01cfea414140de5dae2223\r\nContent-Type: application/json\r\nContent-Length: 21\r\n\r\n{\"title\":\"A\",\"vid\":1}PATCH /node/1 HTTP/1.1\r\nHost: a\r\nCookie: SESS=abc\r\nX-CSRF-Token: ba7816bf8f01cfea414140de5dae2223\r\nContent-Type: application/json\r\nContent-Length: 21\r\n\r\n{\"title\":\"B\",\"vid\":2}";

/// To make the users `bob` and `ann`.
const USERS: &[u8] =
    b"POST /user HTTP/1.1\r\nHost: a\r\nCookie: SESS=abc\r\nX-CSRF-Token: ba7816bf8f01cfea414140de5dae2223\r\nContent-Type: application/json\r\nContent-Length: 39\r\n\r\n{\"name\":\"bob\",\"pass\":\"pw\",\"uuid\":\"u-2\"}POST /user HTTP/1.1\r\nHost: a\r\nCookie: SESS=abc\r\nX-CSRF-Token: ba7816bf8f01cfea414140de5dae2223\r\nContent-Type: application/json\r\nContent-Length: 39\r\n\r\n{\"name\":\"ann\",\"pass\":\"pw\",\"uuid\":\"u-3\"}";

/// The first node, twice.
const NODES: &[u8] =
    b"GET /node/1 HTTP/1.1\r\nHost: a\r\n\r\nGET /node/1 HTTP/1.1\r\nHost: a\r\n\r\n";

/// The edit is of the state 1; of the two pages the first is of the state 0 and has the old title, and the second of the state 1 and the
/// new one.
pub const TITLE_REPLY: &[u8] =
    b"HTTP/1.1 200 OK\r\nContent-Type: application/json\r\nContent-Length: 17\r\nX-Site-State: 1\r\n\r\n{\"nid\":1,\"vid\":2}";

const NODES_REPLY: &[u8] =
    b"HTTP/1.1 200 OK\r\nContent-Type: text/html; charset=UTF-8\r\nContent-Length: 258\r\nX-Site-State: 0\r\n\r\n<!DOCTYPE html><html lang=\"en\"><head><title>First | Site</title><meta name=\"library\" content=\"node\"></head><body><header></header><main><h1>First</h1><article><div class=\"field\">Body: Hello</div></article></main><aside></aside><footer></footer></body></html>HTTP/1.1 200 OK\r\nContent-Type: text/html; charset=UTF-8\r\nContent-Length: 250\r\nX-Site-State: 1\r\n\r\n<!DOCTYPE html><html lang=\"en\"><head><title>A | Site</title><meta name=\"library\" content=\"node\"></head><body><header></header><main><h1>A</h1><article><div class=\"field\">Body: Hello</div></article></main><aside></aside><footer></footer></body></html>";

/// Two workers with passes of this site are done.
pub fn done<K: Keeper + Send + Drop, R: Threads + Wait + Sync>(
    rt: &R,
    alloc: Global,
    site: &Site<K>,
    one: Worker<Connection>,
    two: Worker<Connection>,
) -> (Worker<Connection>, Worker<Connection>)
    requires one { one.pass.table ≡ site.now.table }
    requires two { two.pass.table ≡ site.now.table }
    ensures one { result.0.pass.table ≡ site.now.table }
    ensures two { result.1.pass.table ≡ site.now.table }
{
    let mut workers = [one, two];
    work_all(rt, alloc, site, &mut workers);
    let [one, two] = workers;
    (one, two)
}

// Whether a pass of this site finds an edit.
fn finds_edit<R: Wait>(rt: &R, alloc: Global, site: &Site<MemoryKeeper>, pass: &mut Pass) -> bool
    requires { pass.old.table ≡ site.now.table }
    ensures { pass.new.table ≡ site.now.table }
{
    let mut guest = Guest::new(rt, site.room(), pass);
    match guest.snapshot(alloc) {
        Ok(state) => state.number() >= 1,
        Err(_) => false,
    }
}

// The connections of two workers that edit.
fn two_edit(alloc: Global) -> Result<(Connection, Connection), AllocError> {
    let titles = Connection::new(alloc, TITLES)?;
    let users = Connection::new(alloc, USERS)?;
    Ok((titles, users))
}

// Whether the last edit of each was accepted.
fn end_well(titles: Connection, users: Connection) -> bool {
    titles.written().ends_with(b"{\"nid\":1,\"vid\":3}")
        && users.written().ends_with(b"{\"uid\":3}")
}

// Whether all edits of two workers are accepted, each worker's after each other.
fn all_accepted<R: Threads + Wait + Sync>(
    rt: &R,
    alloc: Global,
    site: Site<MemoryKeeper>,
    one: Worker<Connection>,
    two: Worker<Connection>,
) -> Result<bool, AllocError>
    requires one { one.pass.table ≡ site.table }
    requires two { two.pass.table ≡ site.table }
{
    let (one, two) = done(rt, alloc, &site, one, two);
    let right = end_well(one.work, two.work);
    let hall = closed(rt, alloc, site, one.pass, two.pass)?;
    Ok(right && hall.len() == 4)
}

fn edits_are_accepted<R: Threads + Wait + Sync>(rt: &R, alloc: Global) -> Result<bool, AllocError> {
    let (titles, users) = two_edit(alloc)?;
    let mut site = site(alloc)?;
    let one = Worker {
        pass: site.new_pass(),
        work: titles,
    };
    let two = Worker {
        pass: site.new_pass(),
        work: users,
    };
    all_accepted(rt, alloc, site, one, two)
}

#[test]
fn two_workers_edit(rt: HostRuntime) {
    let right = edits_are_accepted(&rt, rt.alloc()).expect(&rt, "memory");
    assert!(rt; right);
}

// A connection that reads, and goes on once another one, which edits, was answered.
fn read_and_edit(alloc: Global) -> Result<(Connection, Connection), AllocError> {
    let mut edit = Connection::new(alloc, TITLE)?;
    let mut read = Connection::new(alloc, NODES)?;
    read.hold_for(&mut edit)?;
    Ok((read, edit))
}

// Whether a page of the state 0 is written after an edit is answered that came once the page's state was taken, and each pass finds the
// edit once they have met.
fn both_go_on<R: Threads + Wait + Sync>(
    rt: &R,
    alloc: Global,
    site: &Site<MemoryKeeper>,
    read: Worker<Connection>,
    edit: Worker<Connection>,
) -> bool
    requires read { read.pass.table ≡ site.now.table }
    requires edit { edit.pass.table ≡ site.now.table }
{
    let (mut read, mut edit) = done(rt, alloc, site, read, edit);
    site.meet(&mut read.pass, &mut edit.pass);
    read.work.written() == NODES_REPLY
        && edit.work.written() == TITLE_REPLY
        && finds_edit(rt, alloc, site, &mut read.pass)
        && finds_edit(rt, alloc, site, &mut edit.pass)
}

fn readers_go_on<R: Threads + Wait + Sync>(rt: &R, alloc: Global) -> Result<bool, AllocError> {
    let mut site = site(alloc)?;
    let (read, edit) = read_and_edit(alloc)?;
    let read = Worker {
        pass: site.new_pass(),
        work: read,
    };
    let edit = Worker {
        pass: site.new_pass(),
        work: edit,
    };
    Ok(both_go_on(rt, alloc, &site, read, edit))
}

#[test]
fn a_reader_goes_on_while_an_edit_is_made(rt: HostRuntime) {
    let right = readers_go_on(&rt, rt.alloc()).expect(&rt, "memory");
    assert!(rt; right);
}
