//! The next request, in whatever pieces it comes.
ghost use Rattle.std.specs.Prelude.{◌≡◌, ◌++◌, ◌≤◌, ◌<◌, [], OnOk, IfOk, OnErr, IfErr, IfSome, length, drop};
ghost use Rattle.site_io.specs.Told.{before, IsNothingLeft};
ghost use Rattle.site_http.specs.Turn.{Takes, ReadsMore, NotRead, Fetches, Faulted, FaultedNext, Decided, KnowsBy};

use crate::known::{KnownRequest, plain_bytes};
use crate::recent::RecentReplies;
use http_heads::{HeadRoom, Parsed, Request, parse_in};
use site_io::Source;
use std::alloc::{AllocError, Global};
use std::marker::Model;
use std::sync::Arc;

/// Why reading a connection gave nothing.
#[derive(Clone, Copy, Debug, PartialEq, Eq)]
pub enum Trouble {
    ReadFault,
    OutOfMemory,
}

/// What comes next from a connection: a request, a refusal of one, the end, or a fault.
#[derive(Drop)]
pub enum Next {
    /// A whole request, which is taken out of the inbox, and its bytes, where it is to be known by them.
    Request(Request, Option<Vec<u8>>),
    /// The known request, which is taken out of the inbox.
    Known(Arc<KnownRequest>),
    /// What is refused with a code.
    Refused(u16),
    /// The end of the input, after so many bytes of a request.
    End(usize),
    /// Nothing, for this cause.
    Trouble(Trouble),
}

/// How many bytes are read at once, at most.
const PIECE: usize = 16_384;

/// What a connection reads into: the bytes that came and were not taken yet, which is all that contracts see of it; room for
/// what comes next; and room for the places of a head's fields.
pub struct Inbox {
    bytes: Vec<u8>,
    /// How many of the bytes were taken. They are let go where more is read, so that requests in one piece move nothing.
    start: usize,
    piece: Vec<u8>,
    room: HeadRoom,
    /// How many requests were parsed: of each eight the second is to be known.
    parsed: u8,
}

impl Drop for Inbox {
    fn drop(self) {
        let Inbox {
            bytes: _,
            start: _,
            piece: _,
            room: _,
            parsed: _,
        } = self;
    }
}

impl Model for Inbox {
    ghost use Rattle.std.specs.Prelude.{List, ℕ, length, drop, ◌≤◌, ◌<◌};

    ghost Value = { List ℕ };

    ghost view = { λ i. drop i.start i.bytes.items };

    ghost invariant = { λ i. (i.start ≤ length i.bytes.items) × (0 < length i.piece.items) };
}

impl Inbox {
    /// An empty inbox, into which nothing came yet. `Err` only where memory is wanting.
    pub fn new(alloc: Global) -> Result<Inbox, AllocError>
        ensures { IfOk result (λ inbox. inbox ≡ []) }
    {
        Ok(Inbox {
            bytes: Vec::new(alloc),
            start: 0,
            piece: vec![in alloc; 0; PIECE]?,
            room: HeadRoom::new(alloc)?,
            parsed: 0,
        })
    }

    /// Drops all that came, and keeps the room for it.
    pub fn clear(&mut self)
        ensures { self.new ≡ [] }
    {
        self.bytes.clear();
        self.start = 0;
    }

    /// Lets go of what was taken.
    fn forget_taken(&mut self)
        ensures { self.new ≡ self.old }
    {
        drop(self.bytes.drain(..self.start));
        self.start = 0;
    }

    /// Adds the next piece of the source, and answers whether there was one.
    fn read_more<S: Source>(&mut self, source: &mut S) -> Result<bool, Trouble>
        ensures ok { IfOk result (λ some. ReadsMore (S.left source.old) (S.left source.new) self.old self.new some) }
        ensures err { IfErr result (λ e. NotRead e (S.left source.old) (S.left source.new)) }
        ensures same { OnErr result (self.new ≡ self.old) }
        ensures cause { IfErr result (λ e. Faulted e (S.faults source.old) (S.faults source.new)) }
        ensures steady { OnOk result (S.faults source.new ≡ S.faults source.old) }
    {
        self.forget_taken();
        let Ok(n) = source.read(&mut self.piece) else {
            return Err(Trouble::ReadFault);
        };
        let (came, _) = self.piece.split_at(n);
        let Ok(()) = self.bytes.extend_from_slice(came) else {
            return Err(Trouble::OutOfMemory);
        };
        Ok(n > 0)
    }

    /// Takes the bytes of a request.
    fn take_front(&mut self, n: usize)
        requires { n ≤ length self.old }
        ensures { self.new ≡ drop n self.old }
    {
        self.start += n;
    }

    /// What the bytes begin with, and without it where it is a request; or that more must be read.
    fn take_next(&mut self, alloc: Global, recent: &RecentReplies) -> Option<Next>
        ensures decided { Decided result self.old self.new }
        ensures known { IfSome result (λ next. KnowsBy recent.now next) }
    {
        if let Some(known) = recent.known(&self.bytes[self.start..]) {
            self.take_front(known.bytes.len());
            return Some(Next::Known(known));
        }
        match parse_in(alloc, &self.bytes[self.start..], &mut self.room) {
            Err(_) => Some(Next::Trouble(Trouble::OutOfMemory)),
            Ok(Parsed::More) => None,
            Ok(Parsed::Refused(code)) => Some(Next::Refused(code)),
            Ok(Parsed::Whole(request, n)) => {
                let parsed = self.parsed;
                self.parsed = parsed.wrapping_add(1);
                let bytes = if parsed % 8 == 1 {
                    plain_bytes(alloc, &self.bytes[self.start..], n, &request)
                } else {
                    None
                };
                self.take_front(n);
                Some(Next::Request(request, bytes))
            }
        }
    }

    /// How many bytes came and were not taken yet.
    fn waiting(&self) -> usize
        ensures { result ≡ length self.now }
    {
        self.bytes.len() - self.start
    }

    /// The next request of what came and of what the source has left. More is read only where the bytes so far are a part
    /// of a request.
    pub fn next_request<S: Source>(
        &mut self,
        alloc: Global,
        source: &mut S,
        recent: &RecentReplies,
    ) -> Next
        ensures fetches { Fetches (S.left source.old) (S.left source.new) self.old self.new result }
        ensures cause { FaultedNext result (S.faults source.old) (S.faults source.new) }
        ensures known { KnowsBy recent.now result }
    {
        'pieces: loop {
            if let Some(next) = self.take_next(alloc, recent) {
                return next;
            }
            match self.read_more(source) {
                Ok(true) => {}
                Ok(false) => return Next::End(self.waiting()),
                Err(trouble) => return Next::Trouble(trouble),
            }
        }
    }
}
