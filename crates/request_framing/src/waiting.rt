//! What came on a socket and was not given yet.
ghost use Rattle.std.specs.Prelude.{◌≡◌, ◌≤◌, ◌<◌, ◌++◌, [], true, length, take, drop, IfSome};
ghost use Rattle.request_framing.specs.Gives.{Comes, IsKept};

use crate::bytes::Bytes;
use crate::framing::{Extent, Framing};
use crate::limits::HEAD_BYTES;
use crate::parcel::Parcel;
use std::alloc::{AllocError, Global};
use std::marker::Model;
use std::mem;

/// How often a head that isn't whole is looked at before it is as long as a head may be: so one that comes byte by byte isn't read
/// again for each of them.
const LOOKS: u32 = 128;

/// What comes of bytes.
#[derive(Drop)]
pub enum Came {
    /// One request.
    Request(Parcel),
    /// What is refused, whatever follows.
    Refused(Parcel),
    /// No whole request is there.
    More,
    /// Memory is wanting.
    NoMemory,
}

/// Bytes that came on a socket and were not given yet. Contracts see just them.
#[derive(Drop)]
pub struct Waiting {
    bytes: Bytes,
    /// Nothing is looked at before so many are there.
    wanted: usize,
    /// How often they were looked at since the last request was given.
    looks: u32,
}

impl Model for Waiting {
    ghost use Rattle.std.specs.Prelude.{List, ℕ};

    ghost Value = { List ℕ };

    ghost view = { λ w. w.bytes };
}

impl Waiting {
    /// Nothing came yet.
    pub fn new(alloc: Global) -> Waiting
        ensures { result ≡ [] }
    {
        Waiting {
            bytes: Bytes::new(alloc),
            wanted: 0,
            looks: 0,
        }
    }

    /// How many bytes there are.
    pub fn len(&self) -> usize
        ensures { result ≡ length self.now }
    {
        self.bytes.len()
    }

    /// How many bytes of memory they take.
    pub fn capacity(&self) -> usize {
        self.bytes.capacity()
    }

    /// How many there are of a request whose head is whole, else none.
    pub fn of_body(&self) -> usize
        ensures { result ≤ length self.now }
    {
        if self.wanted > 0 { self.bytes.len() } else { 0 }
    }

    /// Whether there are bytes that nobody looked at.
    pub fn is_unseen(&self) -> bool
        ensures { result ≡ true → 0 < length self.now }
    {
        self.looks == 0 && self.bytes.len() > 0
    }

    /// Drops all.
    pub fn forget(&mut self, alloc: Global)
        ensures { self.new ≡ [] }
    {
        self.bytes = Bytes::new(alloc);
        self.wanted = 0;
        self.looks = 0;
    }

    /// Takes the first bytes of all, into the room where they fit there. `None` where memory is wanting, and then all stay.
    fn take_front(&mut self, alloc: Global, room: &mut Vec<u8>, size: usize) -> Option<Parcel>
        requires { size ≤ length self.old }
        ensures given { IfSome result (λ parcel. (parcel ≡ take size self.old) × (self.new ≡ drop size self.old)) }
    {
        self.wanted = 0;
        self.looks = 0;
        if size == self.bytes.len() {
            return Some(self.bytes.take_all(alloc));
        }
        let (front, _) = self.bytes.as_slice().split_at(size);
        let bytes = if size <= room.len() {
            let (into, _) = room.split_at_mut(size);
            into.copy_from_slice(front);
            mem::replace(room, Vec::new(alloc))
        } else {
            Vec::from_slice(alloc, front).ok()?
        };
        self.bytes.pass(size);
        Some(Parcel::new(bytes, 0, size))
    }

    /// Looks at them, and gives a request, if one is there.
    pub fn look<F: Framing>(&mut self, alloc: Global, room: &mut Vec<u8>, framing: &mut F) -> Came
        ensures { Comes F.reaches self.old result self.new }
    {
        self.looks = self.looks.saturating_add(1);
        match framing.extent(self.bytes.as_slice()) {
            Extent::Whole(size) => match self.take_front(alloc, room, size) {
                Some(parcel) => Came::Request(parcel),
                None => Came::NoMemory,
            },
            Extent::Refused => Came::Refused(self.bytes.take_all(alloc)),
            Extent::Head => Came::More,
            Extent::Body(size) => {
                self.wanted = size;
                Came::More
            }
        }
    }

    /// What comes of the first piece of a request, so many bytes of the room, which goes with what is given.
    fn first_piece<F: Framing>(
        &mut self,
        alloc: Global,
        room: &mut Vec<u8>,
        n: usize,
        framing: &mut F,
    ) -> Came
        requires none { self.old ≡ [] }
        requires within { n ≤ length room.old.items }
        ensures { Comes F.reaches (take n room.old.items) result self.new }
    {
        self.wanted = 0;
        self.looks = 0;
        let (piece, _) = room.as_slice().split_at(n);
        match framing.extent(piece) {
            Extent::Whole(size) => {
                let (_, rest) = piece.split_at(size);
                if !rest.is_empty() && self.bytes.add(rest).is_err() {
                    return Came::NoMemory;
                }
                let bytes = mem::replace(room, Vec::new(alloc));
                Came::Request(Parcel::new(bytes, 0, size))
            }
            Extent::Refused => {
                let bytes = mem::replace(room, Vec::new(alloc));
                Came::Refused(Parcel::new(bytes, 0, n))
            }
            Extent::Head => self.keep(piece, 0),
            Extent::Body(size) => self.keep(piece, size),
        }
    }

    /// Keeps a piece behind them, of which a look told how many are wanted.
    fn keep(&mut self, piece: &[u8], wanted: usize) -> Came
        ensures { IsKept result self.old piece.now self.new }
    {
        self.wanted = wanted;
        self.looks = self.looks.saturating_add(1);
        match self.bytes.add(piece) {
            Ok(()) => Came::More,
            Err(AllocError) => Came::NoMemory,
        }
    }

    /// Whether they are to be looked at again, once a piece came with a line's end, or without one.
    fn is_due(&self, has_line_end: bool) -> bool {
        let len = self.bytes.len();
        if self.wanted > 0 {
            len >= self.wanted
        } else {
            len >= HEAD_BYTES || (has_line_end && self.looks < LOOKS)
        }
    }

    /// What comes of a piece more, so many bytes of the room.
    fn next_piece<F: Framing>(
        &mut self,
        alloc: Global,
        room: &mut Vec<u8>,
        n: usize,
        framing: &mut F,
    ) -> Came
        requires { n ≤ length room.old.items }
        ensures { Comes F.reaches (self.old ++ take n room.old.items) result self.new }
    {
        let (piece, _) = room.as_slice().split_at(n);
        let has_line_end = piece.contains(&b'\n');
        if self.bytes.add(piece).is_err() {
            return Came::NoMemory;
        }
        if self.is_due(has_line_end) {
            self.look(alloc, room, framing)
        } else {
            Came::More
        }
    }

    /// What comes of so many bytes that were read into the room. It goes with what is given.
    pub fn arrived<F: Framing>(
        &mut self,
        alloc: Global,
        room: &mut Vec<u8>,
        n: usize,
        framing: &mut F,
    ) -> Came
        requires { n ≤ length room.old.items }
        ensures { Comes F.reaches (self.old ++ take n room.old.items) result self.new }
    {
        if self.bytes.len() == 0 {
            self.first_piece(alloc, room, n, framing)
        } else {
            self.next_piece(alloc, room, n, framing)
        }
    }
}
