//! Connections in memory that workers answer.
ghost use Rattle.std.specs.Prelude.{◌≡◌, None};

use site_house::House;
use site_http::serve_connection;
use site_io::{Gate, ListClock, ListEntropy, MemorySink, MemorySource, Point};
use site_keeper::MemoryKeeper;
use site_turn::{Guest, Pass, Site, Work};
use std::alloc::{AllocError, Global};
use std::sync::atomic::AtomicBool;
use std::sync::atomic::Ordering::SeqCst;
use std::sync::{Arc, Wait};
use std::thread;

/// A mark that one thread sets and another waits for.
pub type Mark = Arc<AtomicBool>;

/// A mark that isn't set.
pub fn mark(alloc: Global) -> Result<Mark, AllocError> {
    Ok(Arc::new(alloc, AtomicBool::new(false))?)
}

/// Whether a mark is set within so many looks, with a turn for others between two of them.
pub fn is_set_within(mark: &Mark, looks: u32) -> bool {
    for _ in 0..looks {
        if mark.load(SeqCst) {
            return true;
        }
        thread::yield_now();
    }
    false
}

// Waits until a mark is set, for many turns at most: some seconds on a processor that has nothing else to do.
fn wait_for(mark: &Mark) {
    let _set = is_set_within(mark, 20_000_000);
}

/// A gate that tells that a point is reached; at the first one it waits for a mark, if it waits at all. It counts the replies, and writes
/// down how many elements were built for each of the first four.
#[derive(Drop)]
pub struct Hold {
    reached: Mark,
    until: Option<Mark>,
    replies: usize,
    built: [u64; 4],
}

impl Hold {
    // The gate that isn't held, and where nothing was reached.
    fn new(alloc: Global) -> Result<Hold, AllocError> {
        Ok(Hold {
            reached: mark(alloc)?,
            until: None,
            replies: 0,
            built: [0; 4],
        })
    }

    // Counts a reply for which so many elements were built.
    fn note(&mut self, built: u64) {
        if let Some(place) = self.built.get_mut(self.replies) {
            *place = built;
        }
        self.replies = self.replies.saturating_add(1);
    }
}

impl Gate for Hold {
    ghost reached = { λ _. None };

    fn reach(&mut self, point: Point) {
        self.reached.store(true, SeqCst);
        if let Some(until) = self.until.take() {
            wait_for(&until);
        }
        match point {
            Point::AfterSnapshot | Point::BeforePart => {}
            Point::BeforeReply(built) => self.note(built),
        }
    }
}

/// A connection to be answered, at the moment 1,000.
#[derive(Drop)]
pub struct Connection {
    source: MemorySource,
    sink: MemorySink,
    clock: ListClock,
    entropy: ListEntropy,
    gate: Hold,
    after: Option<Mark>,
    answered: Mark,
}

impl Connection {
    /// The connection with these requests, which begins at once and isn't held.
    pub fn new(alloc: Global, requests: &[u8]) -> Result<Connection, AllocError> {
        let requests = Vec::from_slice(alloc, requests)?;
        let moments = vec![in alloc; 1_000]?;
        let sink = MemorySink::new(alloc, 4_000)?;
        let answered = mark(alloc)?;
        let gate = Hold::new(alloc)?;
        Ok(Connection {
            source: MemorySource::new(requests, 64),
            sink,
            clock: ListClock::new(moments),
            entropy: ListEntropy::new(Vec::new(alloc)),
            gate,
            after: None,
            answered,
        })
    }

    /// Holds this connection, once its first page's state is taken, until the other one is answered, and lets that one begin only then.
    pub fn hold_for(&mut self, other: &mut Connection) -> Result<(), AllocError> {
        self.gate.until = Some(other.answered()?);
        other.begin_after(Arc::try_clone(&self.gate.reached)?);
        Ok(())
    }

    /// Lets this connection begin only once a mark is set.
    pub fn begin_after(&mut self, mark: Mark) {
        self.after = Some(mark);
    }

    /// The mark that is set once this connection is answered.
    pub fn answered(&self) -> Result<Mark, AllocError> {
        Ok(Arc::try_clone(&self.answered)?)
    }

    /// What was written.
    pub fn written(&self) -> &[u8] {
        self.sink.bytes()
    }

    /// How many replies there were, and how many elements were built for each of the first four.
    pub fn built(&self) -> (usize, [u64; 4]) {
        (self.gate.replies, self.gate.built)
    }
}

/// A connection is answered by a pass of a site.
pub fn answered_by<R: Wait>(
    rt: &R,
    alloc: Global,
    site: &Site<MemoryKeeper>,
    pass: &mut Pass,
    connection: &mut Connection,
)
    requires { pass.old.table ≡ site.now.table }
    ensures { pass.new.table ≡ site.now.table }
{
    let mut guest = Guest::new(rt, site.room(), pass);
    connection.work(rt, alloc, &mut guest);
}

impl<R> Work<R> for Connection {
    ghost may = { λ _ _. Unit {0} };

    ghost does = { λ _ _ _ _. Unit {0} };

    fn work<H: House>(&mut self, rt: &R, alloc: Global, house: &mut H) {
        if let Some(mark) = &self.after {
            wait_for(mark);
        }
        let _ended = serve_connection(
            rt,
            alloc,
            house,
            &mut self.source,
            &mut self.sink,
            &mut self.clock,
            &mut self.entropy,
            &mut self.gate,
        );
        self.answered.store(true, SeqCst);
    }
}
