//! A reader beside an edit that the keeper takes long to keep.
ghost use Rattle.std.specs.Prelude.{◌≡◌, None, true, IfOk};

use crate::site::{site_over, stored};
use crate::work::{Connection, Mark, is_set_within, mark};
use crate::workers::{TITLE, TITLE_REPLY, done};
use site_keeper::{Batch, Keeper, KeeperFault, Stored};
use site_turn::{Site, Worker};
use std::alloc::{AllocError, Global};
use std::sync::atomic::Ordering::SeqCst;
use std::sync::{Arc, Wait};
use std::thread::Threads;

/// A keeper that marks when it begins to keep a batch, and has kept it once another mark is set. It looks for that one a million times at
/// most, and then marks that it was in vain.
#[derive(Drop)]
struct SlowKeeper {
    begun: Mark,
    until: Mark,
    in_vain: Mark,
    head: u64,
}

impl SlowKeeper {
    // The keeper that holds the state 0, and waits for this mark.
    fn new(alloc: Global, until: Mark) -> Result<SlowKeeper, AllocError> {
        let begun = mark(alloc)?;
        let in_vain = mark(alloc)?;
        Ok(SlowKeeper {
            begun,
            until,
            in_vain,
            head: 0,
        })
    }
}

impl Keeper for SlowKeeper {
    ghost kept = { λ _. None };

    ghost faults = { λ _. 0 };

    ghost steadfast = { λ _. true };

    fn load(&mut self, _alloc: Global) -> Result<Stored, KeeperFault> {
        Err(KeeperFault::OutOfMemory)
    }

    fn apply(&mut self, _alloc: Global, batch: &Batch) -> Result<(), KeeperFault> {
        self.begun.store(true, SeqCst);
        if !is_set_within(&self.until, 1_000_000) {
            self.in_vain.store(true, SeqCst);
        }
        self.head = batch.head;
        Ok(())
    }

    fn head(&mut self, _alloc: Global) -> Result<u64, KeeperFault> {
        Ok(self.head)
    }

    fn faults(&self) -> u64 {
        0
    }
}

/// The first node.
const NODE: &[u8] = b"GET /node/1 HTTP/1.1\r\nHost: a\r\n\r\n";

/// Its page in the state 0.
const NODE_REPLY: &[u8] =
    b"HTTP/1.1 200 OK\r\nContent-Type: text/html; charset=UTF-8\r\nContent-Length: 258\r\nX-Site-State: 0\r\n\r\n<!DOCTYPE html><html lang=\"en\"><head><title>First | Site</title><meta name=\"library\" content=\"node\"></head><body><header></header><main><h1>First</h1><article><div class=\"field\">Body: Hello</div></article></main><aside></aside><footer></footer></body></html>";

// The site over a slow keeper.
fn slow_site(alloc: Global, keeper: SlowKeeper) -> Result<Site<SlowKeeper>, AllocError>
    ensures { IfOk result (λ site. site.founder.made ≡ 0) }
{
    let stored = stored(alloc)?;
    site_over(alloc, keeper, stored)
}

// A keeper that keeps an edit once a connection is answered, which begins only when the keeper has begun; and the mark that it waited in
// vain.
fn slow_until(alloc: Global, read: &mut Connection) -> Result<(SlowKeeper, Mark), AllocError> {
    let until = read.answered()?;
    let keeper = SlowKeeper::new(alloc, until)?;
    let begun = Arc::try_clone(&keeper.begun)?;
    let in_vain = Arc::try_clone(&keeper.in_vain)?;
    read.begin_after(begun);
    Ok((keeper, in_vain))
}

// Whether an edit is answered on the state 1, and a page on the state 0.
fn answered<R: Threads + Wait + Sync>(
    rt: &R,
    alloc: Global,
    mut site: Site<SlowKeeper>,
    edit: Connection,
    read: Connection,
) -> bool
    requires { site.founder.made ≡ 0 }
{
    let edit = Worker {
        pass: site.new_pass(),
        work: edit,
    };
    let read = Worker {
        pass: site.new_pass(),
        work: read,
    };
    let (edit, read) = done(rt, alloc, &site, edit, read);
    read.work.written() == NODE_REPLY && edit.work.written() == TITLE_REPLY
}

// Whether the keeper waited in vain for a page to be answered while it keeps an edit, and whether the page is of the state 0 and the edit
// of the state 1.
fn kept_slowly<R: Threads + Wait + Sync>(
    rt: &R,
    alloc: Global,
) -> Result<(bool, bool), AllocError> {
    let edit = Connection::new(alloc, TITLE)?;
    let mut read = Connection::new(alloc, NODE)?;
    let (keeper, in_vain) = slow_until(alloc, &mut read)?;
    let site = slow_site(alloc, keeper)?;
    let right = answered(rt, alloc, site, edit, read);
    Ok((in_vain.load(SeqCst), right))
}

#[test]
fn a_reader_is_answered_while_an_edit_is_kept(rt: HostRuntime) {
    let (in_vain, right) = kept_slowly(&rt, rt.alloc()).expect(&rt, "memory");
    assert!(rt; !in_vain);
    assert!(rt; right);
}
