//! Replies that are written piece by piece.
ghost use Rattle.std.specs.Prelude.{◌≡◌, ◌≤◌, ◌<◌, None, length};
ghost use Rattle.site_io.specs.Memory.{up};
ghost use Rattle.site_io.specs.Told.{Rose};

use crate::site::state;
use html_out::Bytes;
use site_alone::alone_with;
use site_hall::Alone;
use site_house::House;
use site_http::{WriteFault, serve_connection, write_parts};
use site_io::{Ended, Failed, ListClock, ListEntropy, MemorySink, MemorySource, OpenGate, Sink};
use site_keeper::MemoryKeeper;
use std::alloc::{AllocError, Global};
use std::sync::Arc;

// A sink that takes each piece whole and lists it, and notes how many there were whenever it was flushed.
#[derive(Drop)]
struct Listing {
    alloc: Global,
    pieces: Vec<Vec<u8>>,
    flushed: Vec<usize>,
    faults: u64,
}

impl Listing {
    fn new(alloc: Global) -> Listing {
        Listing {
            alloc,
            pieces: Vec::new(alloc),
            flushed: Vec::new(alloc),
            faults: 0,
        }
    }

    // Counts a fault.
    fn fault(&mut self) -> Failed
        ensures cause { Rose self.old.faults self.new.faults }
        ensures once { self.new.faults ≡ up self.old.faults }
        ensures never_falls { self.old.faults ≤ self.new.faults }
    {
        self.faults = self.faults.saturating_add(1);
        Failed
    }
}

impl Sink for Listing {
    ghost written = { λ _. None };

    ghost faults = { λ s. s.faults };

    fn write(&mut self, piece: &[u8]) -> Result<usize, Failed> {
        let Ok(copy) = Vec::from_slice(self.alloc, piece) else {
            return Err(self.fault());
        };
        match self.pieces.push(copy) {
            Ok(()) => Ok(piece.len()),
            Err(_) => Err(self.fault()),
        }
    }

    fn faults(&self) -> u64 {
        self.faults
    }

    fn flush(&mut self) -> Result<(), Failed> {
        match self.flushed.push(self.pieces.len()) {
            Ok(()) => Ok(()),
            Err(_) => Err(self.fault()),
        }
    }
}

// By somebody, and twice by nobody.
const REQUESTS: &[u8] =
    b"GET /node/1 HTTP/1.1\r\nHost: a\r\nCookie: SESS=abc\r\n\r\nGET /node/1 HTTP/1.1\r\nHost: a\r\n\r\nGET /node/1 HTTP/1.1\r\nHost: a\r\n\r\n";

const ARTICLE: &[u8] = b"<article><div class=\"field\">Body: Hello</div></article>";

// A house over a new site with a session.
fn house(alloc: Global) -> Result<Alone<MemoryKeeper>, AllocError> {
    let state = state(alloc)?;
    let house = alone_with(alloc, &state);
    drop(state);
    house
}

// How the connection with the requests ends over a house.
fn ended_over<H: House>(
    rt: &HostRuntime,
    house: &mut H,
    sink: &mut Listing,
) -> Result<Ended, AllocError> {
    let alloc = rt.alloc();
    let mut source = MemorySource::new(Vec::from_slice(alloc, REQUESTS)?, 64);
    let mut clock = ListClock::new(Vec::from_slice(alloc, &[1000])?);
    let mut entropy = ListEntropy::new(Vec::new(alloc));
    Ok(serve_connection(
        rt,
        alloc,
        house,
        &mut source,
        sink,
        &mut clock,
        &mut entropy,
        &mut OpenGate,
    ))
}

// The pieces of the replies over a new site with a session, and how the connection ended.
fn written(rt: &HostRuntime, sink: &mut Listing) -> Result<Ended, AllocError> {
    let mut house = house(rt.alloc())?;
    let ended = ended_over(rt, &mut house, sink);
    drop(house);
    ended
}

// How many of the pieces are this.
fn count_of(pieces: &[Vec<u8>], text: &[u8]) -> usize {
    pieces
        .iter()
        .filter(|piece| piece.as_slice() == text)
        .count()
}

// Whether a piece has this, which isn't empty, in it.
fn has_part(piece: &[u8], text: &[u8]) -> bool
    requires { 0 < length text.now }
{
    for part in piece.windows(text.len()) {
        if part == text {
            return true;
        }
    }
    false
}

// How many of the pieces have this, which isn't empty, in them.
fn count_around(pieces: &[Vec<u8>], text: &[u8]) -> usize
    requires { 0 < length text.now }
{
    let mut found: usize = 0;
    for piece in pieces {
        if has_part(piece.as_slice(), text) {
            found = found.saturating_add(1);
        }
    }
    found
}

#[test]
fn a_page_is_written_in_its_pieces(rt: HostRuntime) {
    let mut sink = Listing::new(rt.alloc());
    assert!(rt; written(&rt, &mut sink) == Ok(Ended::Closed));
    let pieces = sink.pieces.as_slice();
    assert!(rt; pieces.len() == 14);
    let (first, others) = pieces.split_at(6);
    // the article is a piece by itself, and neither its beginning nor its end stands in another one
    assert!(rt; count_of(first, ARTICLE) == 1);
    assert!(rt; count_around(first, b"article>") == 1);
    // what is kept of the page for nobody is one piece before the lines of its libraries and one behind them; built, it has the same
    let (second, third) = others.split_at(4);
    assert!(rt; count_around(second, ARTICLE) == 1);
    assert!(rt; second == third);
    // each reply is handed on once, behind its last piece
    assert!(rt; sink.flushed.as_slice() == [6, 10, 14].as_slice());
}

// A thousand pieces, which share their bytes.
fn thousand(alloc: Global, text: &[u8]) -> Result<Vec<Arc<Bytes>>, AllocError> {
    let bytes = Vec::from_slice(alloc, text)?;
    let Ok(piece) = Arc::new(alloc, Bytes::new(bytes)) else {
        return Err(AllocError);
    };
    let mut pieces = Vec::new(alloc);
    for _ in 0..1_000 {
        let Ok(shared) = Arc::try_clone(&piece) else {
            return Err(AllocError);
        };
        pieces.push(shared)?;
    }
    Ok(pieces)
}

#[test]
fn a_full_sink_has_a_front_of_the_pieces(rt: HostRuntime) {
    let pieces = thousand(rt.alloc(), b"abcdefg").expect(&rt, "memory");
    let mut sink = MemorySink::new(rt.alloc(), 6_999).expect(&rt, "memory");
    assert!(rt; write_parts(&mut sink, pieces.as_slice()) == Err(WriteFault));
    let written = sink.bytes();
    assert!(rt; written.len() == 6_999);
    let text = b"abcdefg".as_slice();
    assert!(rt;
        written
            .iter()
            .enumerate()
            .all(|(at, byte)| text.get(at % 7) == Some(byte))
    );
}
