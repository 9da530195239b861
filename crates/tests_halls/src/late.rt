//! In which order a page whose parts are sent late is made and sent.
ghost use Rattle.std.specs.Prelude.{None};
ghost use Rattle.site_hall.specs.Alone.{house_of};

use cache_entries::{Bin, Found, Kept, Key};
use content_state::{Ask, State};
use site_alone::alone_with;
use site_commands::{Answer, Command};
use site_files::read_site;
use site_hall::Alone;
use site_house::House;
use site_http::serve_connection;
use site_io::{Ended, Failed, Gate, ListClock, ListEntropy, MemorySource, Point, Sink};
use site_keeper::MemoryKeeper;
use std::alloc::{AllocError, Global};
use std::cell::Cell;
use std::rc::Rc;
use std::sync::Arc;

// A house that counts how often something is looked for.
#[derive(Drop)]
struct Counting {
    alone: Alone<MemoryKeeper>,
    looks: Rc<Cell<u64>>,
}

impl House for Counting {
    ghost sees = { λ c. house_of c.alone };

    fn snapshot(&mut self, alloc: Global) -> Result<Arc<State>, AllocError> {
        self.alone.snapshot(alloc)
    }

    fn commit(
        &mut self,
        alloc: Global,
        ask: &Ask,
        csrf: Option<&[u8]>,
        command: &Command,
        now: u64,
    ) -> Answer {
        self.alone.commit(alloc, ask, csrf, command, now)
    }

    fn look(&mut self, alloc: Global, bin: Bin, key: &Key) -> Result<Found, AllocError> {
        self.looks.set(self.looks.get().saturating_add(1));
        self.alone.look(alloc, bin, key)
    }

    fn keep(&mut self, alloc: Global, bin: Bin, key: Key, kept: Kept) -> Result<(), AllocError> {
        self.alone.keep(alloc, bin, key, kept)
    }

    fn faults(&self) -> u64 {
        self.alone.faults()
    }

    fn unkept(&self) -> u64 {
        self.alone.unkept()
    }
}

// A sink that takes all, and notes how often something had been looked for when it was first written to, and when it was first
// flushed.
#[derive(Drop)]
struct Noting {
    looks: Rc<Cell<u64>>,
    written: Option<u64>,
    flushed: Option<u64>,
}

impl Sink for Noting {
    ghost written = { λ _. None };

    ghost faults = { λ _. 0 };

    fn write(&mut self, piece: &[u8]) -> Result<usize, Failed> {
        if self.written.is_none() {
            self.written = Some(self.looks.get());
        }
        Ok(piece.len())
    }

    fn faults(&self) -> u64 {
        0
    }

    fn flush(&mut self) -> Result<(), Failed> {
        if self.flushed.is_none() {
            self.flushed = Some(self.looks.get());
        }
        Ok(())
    }
}

// A gate that notes how often something had been looked for when the first part was begun.
#[derive(Drop)]
struct Beginning {
    looks: Rc<Cell<u64>>,
    begun: Option<u64>,
}

impl Gate for Beginning {
    ghost reached = { λ _. None };

    fn reach(&mut self, point: Point) {
        if point == Point::BeforePart && self.begun.is_none() {
            self.begun = Some(self.looks.get());
        }
    }
}

// The rows of a new site, a session of its first user, and in the header of each page who is logged in.
const ROWS: &[u8] = b"{\"cell\":\"site\",\"front\":\"/node/1\",\"name\":\"Site\"}
{\"cell\":\"seq\",\"node\":2,\"term\":1,\"user\":2}
{\"cell\":\"type:page\",\"fields\":[{\"edit\":null,\"label\":\"Body\",\"name\":\"body\",\"owner\":false,\"teaser\":true,\"view\":null}],\"label\":\"Page\",\"submitted\":false}
{\"admin\":false,\"cell\":\"role:anonymous\",\"grants\":[],\"label\":\"Anonymous\",\"permissions\":[\"access content\"]}
{\"admin\":false,\"cell\":\"role:authenticated\",\"grants\":[],\"label\":\"Member\",\"permissions\":[\"access content\"]}
{\"cell\":\"user:1\",\"created\":0,\"digest\":null,\"grants\":[],\"name\":\"admin\",\"roles\":[],\"salt\":\"\",\"status\":true,\"uuid\":\"u-1\"}
{\"cell\":\"node:1\",\"changed\":100,\"created\":100,\"fields\":{\"body\":\"Hello\"},\"grants\":[],\"path\":null,\"promote\":true,\"refs\":[],\"status\":true,\"sticky\":false,\"terms\":[],\"title\":\"First\",\"type\":\"page\",\"uid\":1,\"uuid\":\"n-1\",\"vid\":1}
{\"cell\":\"session:abc\",\"expires\":4000000000,\"uid\":1}
{\"age\":null,\"cell\":\"block:hi\",\"hide\":false,\"kind\":\"greeting\",\"label\":\"\",\"name\":null,\"paths\":[],\"region\":\"header\",\"roles\":[],\"text\":null,\"weight\":0}
";

const LATE: &[u8] = b"GET /node/1 HTTP/1.1\r\nHost: a\r\nCookie: SESS=abc\r\nX-Late: 1\r\n\r\n";

// A house over the site.
fn alone(alloc: Global) -> Result<Alone<MemoryKeeper>, AllocError> {
    let mut source = MemorySource::new(Vec::from_slice(alloc, ROWS)?, 4_096);
    let Ok(state) = read_site(alloc, &mut source) else {
        return Err(AllocError);
    };
    let alone = alone_with(alloc, &state);
    drop(state);
    alone
}

// How a connection over a house ends that asks for a page whose parts may be sent late.
fn ended_over<H: House>(
    rt: &HostRuntime,
    house: &mut H,
    sink: &mut Noting,
    gate: &mut Beginning,
) -> Result<Ended, AllocError> {
    let alloc = rt.alloc();
    let mut source = MemorySource::new(Vec::from_slice(alloc, LATE)?, 64);
    let mut clock = ListClock::new(Vec::from_slice(alloc, &[1000])?);
    let mut entropy = ListEntropy::new(Vec::new(alloc));
    Ok(serve_connection(
        rt,
        alloc,
        house,
        &mut source,
        sink,
        &mut clock,
        &mut entropy,
        gate,
    ))
}

// The same over a house that counts looks.
fn ended(
    rt: &HostRuntime,
    looks: Rc<Cell<u64>>,
    sink: &mut Noting,
    gate: &mut Beginning,
) -> Result<Ended, AllocError> {
    let alone = alone(rt.alloc())?;
    let mut house = Counting { alone, looks };
    let ended = ended_over(rt, &mut house, sink, gate);
    drop(house);
    ended
}

// Whether what is sent first was written and handed on before a part was begun, and something was looked for only then.
fn is_sent_first(rt: &HostRuntime) -> Result<bool, AllocError> {
    let looks = Rc::new(rt.alloc(), Cell::new(0))?;
    let mut sink = Noting {
        looks: looks.clone()?,
        written: None,
        flushed: None,
    };
    let mut gate = Beginning {
        looks: looks.clone()?,
        begun: None,
    };
    let ended = ended(rt, looks.clone()?, &mut sink, &mut gate)?;
    let Some(begun) = gate.begun else {
        return Ok(false);
    };
    Ok(
        ended == Ended::Asked
            && sink.written == Some(begun)
            && sink.flushed == Some(begun)
            && looks.get() > begun,
    )
}

#[test]
fn what_needs_no_part_is_sent_before_a_part_is_looked_for(rt: HostRuntime) {
    assert!(rt; is_sent_first(&rt) == Ok(true));
}
