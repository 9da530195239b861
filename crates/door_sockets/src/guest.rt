//! A socket that stays with its door.
ghost use Rattle.std.specs.Prelude.{◌≡◌, ◌≤◌, ◌<◌, ◌+◌, true, false, length, IfNone, IfSome, OnSome};
ghost use Rattle.door_sockets.specs.Steps.{IsRest, Kept, ReadsAway, Steps, gathered_bytes, linger_bytes};

use crate::wire::{Moved, read_from, write_to};
use mio::net::TcpStream;
use request_framing::{
    Bytes, Came, Framing, GATHERED_BYTES, LINGER_BYTES, Parcel, Stage, Waiting, is_over,
};
use std::alloc::{AllocError, Global};
use std::mem;
use std::net::Shutdown;

/// What a guest is at.
#[derive(Clone, Copy, Debug, PartialEq, Eq)]
enum Phase {
    /// It sends requests, which are answered.
    Asks,
    /// It is sent the rest of a reply, and then goes on, or ends.
    Takes(bool),
    /// Nothing more is sent to it, and what it sends is read away.
    Lingers,
}

/// What is to become of a guest.
#[derive(Drop)]
pub enum Step {
    /// A request is there.
    Give(Parcel),
    /// What is there is refused, whatever follows.
    Refuse(Parcel),
    /// There may be more to do at once.
    Again,
    /// Nothing before the next event.
    Stay,
    /// Memory is wanting for it.
    NoMemory,
    /// Nothing any more.
    Close,
}

/// A socket that stays with its door: bytes that came and were not given yet, and bytes of a reply that are to go.
#[derive(Drop)]
pub struct Guest {
    stream: TcpStream,
    phase: Phase,
    waiting: Waiting,
    unsent: Bytes,
    /// How many bytes were read away.
    away: usize,
    /// The second in which it began to be at what it is at.
    since: u64,
    /// Whether nothing can be read before the next event.
    is_drained: bool,
    /// Whether an event said that the peer sends no more.
    is_ending: bool,
    /// Whether events tell of room to write into.
    is_told_of_room: bool,
    /// Whether it is noted that something is to be done for it.
    is_noted: bool,
}

impl Guest {
    /// A socket that came in this second. `Err` only where memory is wanting.
    pub fn new(alloc: Global, stream: TcpStream, now: u64) -> Result<Box<Guest>, AllocError> {
        let guest = Guest {
            stream,
            phase: Phase::Asks,
            waiting: Waiting::new(alloc),
            unsent: Bytes::new(alloc),
            away: 0,
            since: now,
            is_drained: true,
            is_ending: false,
            is_told_of_room: false,
            is_noted: false,
        };
        Ok(Box::new(alloc, guest)?)
    }

    /// The socket.
    pub fn stream_mut(&mut self) -> &mut TcpStream {
        &mut self.stream
    }

    /// Begins what is to be done for it: what an event told, which may say that the peer sends no more, or what was noted before. Whether
    /// to go on with it now: not for an event, where something is noted that comes in its turn.
    pub fn begins_task(&mut self, event: Option<bool>) -> bool {
        match event {
            Some(is_ending) => {
                self.is_drained = false;
                self.is_ending = self.is_ending || is_ending;
                !self.is_noted
            }
            None => {
                self.is_noted = false;
                true
            }
        }
    }

    /// Whether it is to be noted that something is to be done for it before the next event. It counts as noted then.
    pub fn notes_task(&mut self) -> bool {
        let is_new = self.is_busy() && !self.is_noted;
        self.is_noted = self.is_noted || is_new;
        is_new
    }

    /// How many bytes of memory it holds.
    pub fn weight(&self) -> usize {
        self.waiting
            .capacity()
            .saturating_add(self.unsent.capacity())
    }

    /// Whether it is sent the rest of a reply.
    pub fn is_taking(&self) -> bool {
        matches!(self.phase, Phase::Takes(_))
    }

    /// Whether something is to be done before the next event.
    fn is_busy(&self) -> bool {
        match self.phase {
            Phase::Asks => !self.is_drained || self.waiting.is_unseen(),
            Phase::Takes(_) => false,
            Phase::Lingers => !self.is_drained,
        }
    }

    /// Whether its events have to be asked for anew, and are from here on: those of room to write into, where a reply's rest is sent,
    /// and no longer once it is.
    pub fn asks_anew(&mut self) -> bool {
        let is_taking = self.is_taking();
        let is_new = self.is_told_of_room != is_taking;
        self.is_told_of_room = is_taking;
        is_new
    }

    /// What it is at, as its time is counted.
    fn stage(&self) -> Stage {
        match self.phase {
            Phase::Takes(ends) => Stage::Takes(ends),
            Phase::Lingers => Stage::Lingers,
            Phase::Asks => {
                if self.waiting.len() == 0 {
                    Stage::Idle
                } else {
                    Stage::Asks(self.waiting.of_body() as u64)
                }
            }
        }
    }

    /// Whether it is between two requests, or before the first.
    pub fn is_idle(&self) -> bool {
        self.stage() == Stage::Idle
    }

    /// The second in which it began to be at what it is at.
    pub fn since(&self) -> u64 {
        self.since
    }

    /// Turns the second in which it began to be at what it is at into the seconds since then, or those into that second again: each
    /// door counts seconds of its own.
    pub fn turns_time(&mut self, now: u64)
        ensures { self.new.waiting ≡ self.old.waiting }
    {
        self.since = now.saturating_sub(self.since);
    }

    /// Whether its time is over in this second.
    pub fn is_over(&self, now: u64) -> bool {
        is_over(self.stage(), now.saturating_sub(self.since))
    }

    /// Goes on with it in this second, with room to read into, which is lent, and goes with what is given.
    pub fn step<F: Framing>(
        &mut self,
        alloc: Global,
        room: &mut Vec<u8>,
        framing: &mut F,
        now: u64,
    ) -> Step
        ensures { Steps F.reaches self.old.waiting result self.new.waiting }
    {
        match self.phase {
            Phase::Lingers => self.read_away(room.as_mut_slice()),
            Phase::Takes(ends) => self.send_on(alloc, ends, now),
            Phase::Asks => self.ask_on(alloc, room, framing, now),
        }
    }

    /// Looks for a request, and reads on.
    fn ask_on<F: Framing>(
        &mut self,
        alloc: Global,
        room: &mut Vec<u8>,
        framing: &mut F,
        now: u64,
    ) -> Step
        ensures { Steps F.reaches self.old.waiting result self.new.waiting }
    {
        if self.waiting.is_unseen() {
            match self.waiting.look(alloc, room, framing) {
                Came::Request(parcel) => Step::Give(parcel),
                Came::Refused(parcel) => Step::Refuse(parcel),
                Came::NoMemory => Step::NoMemory,
                Came::More => self.rests(),
            }
        } else if self.is_drained {
            Step::Stay
        } else {
            self.read_on(alloc, room, framing, now)
        }
    }

    /// What is next where nothing is to be given.
    fn rests(&self) -> Step
        ensures { IsRest result }
    {
        if self.is_drained {
            Step::Stay
        } else {
            Step::Again
        }
    }

    /// Reads once.
    fn read_on<F: Framing>(
        &mut self,
        alloc: Global,
        room: &mut Vec<u8>,
        framing: &mut F,
        now: u64,
    ) -> Step
        ensures { Steps F.reaches self.old.waiting result self.new.waiting }
    {
        match read_from(&self.stream, room.as_mut_slice()) {
            Moved::Bytes(n) => {
                if self.waiting.len() == 0 {
                    self.since = now;
                }
                self.is_drained = n < room.len() && !self.is_ending;
                match self.waiting.arrived(alloc, room, n, framing) {
                    Came::Request(parcel) => Step::Give(parcel),
                    Came::Refused(parcel) => Step::Refuse(parcel),
                    Came::NoMemory => Step::NoMemory,
                    Came::More => self.rests(),
                }
            }
            Moved::Waits => {
                self.is_drained = true;
                Step::Stay
            }
            Moved::End | Moved::Failed => Step::Close,
        }
    }

    /// Counts so many bytes more that were read away. Whether they are no more than may be.
    fn counts_away(&mut self, n: usize) -> bool
        ensures counted { result ≡ true → self.new.away ≡ self.old.away + n }
        ensures within { result ≡ true → self.new.away ≤ linger_bytes }
        ensures beyond { result ≡ false → linger_bytes < self.old.away + n }
        ensures waiting { self.new.waiting ≡ self.old.waiting }
    {
        self.away = self.away.saturating_add(n);
        self.away <= LINGER_BYTES
    }

    /// Reads away what comes, up to so much.
    fn read_away(&mut self, room: &mut [u8]) -> Step
        ensures kept { Kept result self.old.waiting self.new.waiting }
        ensures away { ReadsAway result self.old.away self.new.away }
    {
        match read_from(&self.stream, room) {
            Moved::Bytes(n) => {
                if self.counts_away(n) {
                    Step::Again
                } else {
                    Step::Close
                }
            }
            Moved::Waits => {
                self.is_drained = true;
                Step::Stay
            }
            Moved::End | Moved::Failed => Step::Close,
        }
    }

    /// Sends what is unsent as far as the socket takes it. Whether it has not failed.
    fn push_out(&mut self) -> bool
        ensures waiting { self.new.waiting ≡ self.old.waiting }
        ensures fewer { length self.new.unsent ≤ length self.old.unsent }
    {
        if self.unsent.len() == 0 {
            return true;
        }
        match write_to(&self.stream, self.unsent.as_slice()) {
            Moved::Bytes(n) => {
                self.unsent.pass(n);
                if self.unsent.len() == 0 {
                    self.unsent.clear();
                }
                true
            }
            Moved::Waits => true,
            Moved::End | Moved::Failed => false,
        }
    }

    /// Sends the rest of a reply on, as far as the peer takes it, and then goes on, or ends.
    fn send_on(&mut self, alloc: Global, ends: bool, now: u64) -> Step
        ensures { Kept result self.old.waiting self.new.waiting }
    {
        let before = self.unsent.len();
        if !self.push_out() {
            return Step::Close;
        }
        let left = self.unsent.len();
        if left == 0 {
            self.unsent = Bytes::new(alloc);
            if self.goes_on(ends, now) {
                Step::Again
            } else {
                Step::Close
            }
        } else if left < before {
            Step::Again
        } else {
            Step::Stay
        }
    }

    /// What is next once all of a reply is sent, in this second: it asks again, or else nothing more is sent and what comes is read
    /// away. Whether the peer could be told.
    fn goes_on(&mut self, ends: bool, now: u64) -> bool
        ensures { self.new.waiting ≡ self.old.waiting }
    {
        self.since = now;
        if ends {
            self.phase = Phase::Lingers;
            self.stream.shutdown(Shutdown::Write).is_ok()
        } else {
            self.phase = Phase::Asks;
            true
        }
    }

    /// Goes on in this second after a reply, whose rest is sent as the peer takes it, or ends then. Whether it stays. What came
    /// behind the request is kept where it goes on.
    pub fn settle(&mut self, alloc: Global, ends: bool, now: u64) -> bool
        ensures { ends ≡ false → self.new.waiting ≡ self.old.waiting }
    {
        if ends {
            self.waiting.forget(alloc);
        }
        if !self.push_out() {
            return false;
        }
        if self.unsent.len() == 0 {
            return self.goes_on(ends, now);
        }
        self.since = now;
        self.phase = Phase::Takes(ends);
        true
    }

    /// Changes the room for its replies with that of the door.
    pub fn change_room(&mut self, room: &mut Bytes)
        ensures { self.new.waiting ≡ self.old.waiting }
    {
        mem::swap(&mut self.unsent, room);
    }

    /// Gives the door its room for replies back, where nothing in it is to be sent.
    pub fn give_room(&mut self, room: &mut Bytes)
        ensures { self.new.waiting ≡ self.old.waiting }
    {
        if self.unsent.len() == 0 {
            mem::swap(&mut self.unsent, room);
        }
    }

    /// Keeps a piece of a reply behind what is unsent. `None` where memory is wanting.
    fn keep(&mut self, piece: &[u8]) -> Option<usize>
        ensures all { IfSome result (λ n. n ≡ length piece.now) }
        ensures kept { OnSome result (length self.new.unsent ≡ length self.old.unsent + length piece.now) }
        ensures same { IfNone result (length self.new.unsent ≡ length self.old.unsent) }
    {
        match self.unsent.add(piece) {
            Ok(()) => Some(piece.len()),
            Err(AllocError) => None,
        }
    }

    /// Takes a front of a piece of a reply, which is not empty: it is kept, where so many bytes may be, and else sent. `None` where
    /// the socket has failed or too much is kept.
    pub fn take_piece(&mut self, piece: &[u8], may_keep: usize) -> Option<usize>
        requires { 0 < length piece.now }
        ensures taken { IfSome result (λ n. (0 < n) × (n ≤ length piece.now)) }
        ensures kept { OnSome result (gathered_bytes < length self.new.unsent → length self.new.unsent ≤ may_keep) }
        ensures no_more { IfNone result (length self.new.unsent ≤ length self.old.unsent) }
    {
        if self.unsent.len().saturating_add(piece.len()) <= GATHERED_BYTES {
            return self.keep(piece);
        }
        if !self.push_out() {
            return None;
        }
        if self.unsent.len() == 0 {
            match write_to(&self.stream, piece) {
                Moved::Bytes(n) => return Some(n),
                Moved::Waits => {}
                Moved::End | Moved::Failed => return None,
            }
        }
        if piece.len() > may_keep.saturating_sub(self.unsent.len()) {
            None
        } else {
            self.keep(piece)
        }
    }

    /// Sends what is gathered of a reply, as far as the socket takes it. Whether it has not failed.
    pub fn flush(&mut self) -> bool {
        self.push_out()
    }
}
