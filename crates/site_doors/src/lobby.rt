//! A listener and the sockets that came there.
ghost use Rattle.std.specs.Prelude.{◌≡◌, ◌<◌, ◌+◌, true, IfNone, IfOk, IfSome, OnOk, OnErr, OnSome};
ghost use Rattle.request_framing.specs.Limits.{sockets};
ghost use Rattle.request_framing.specs.Gives.{IsRequest};

use crate::guests::Guests;
use crate::reply::{Home, Outgoing};
use door_sockets::{Guest, Passed, Place, Share, Step};
use mio::net::{TcpListener, TcpStream};
use mio::{Events, Interest, Poll, Token, Waker};
use request_framing::{
    Bytes, Framing, GATHERED_BYTES, HEAD_BYTES, PATIENCE_MILLIS, Parcel, REST_MILLIS,
};
use site_io::Ended;
use std::alloc::{AllocError, Global};
use std::collections::VecDeque;
use std::io;
use std::io::ErrorKind;
use std::net::Net;
use std::time::{Clock, Duration, Instant};

/// How many events come at once, at most.
const EVENTS: usize = 256;

/// How many sockets are taken at once, at most.
const TAKEN: usize = 64;

/// The listener's token, and that of what wakes the door; a socket's is its key and two more.
const LISTENER: usize = 0;

const WAKER: usize = 1;

/// The system's numbers for want of memory, of descriptors in all and for one process, and of buffers (errno of Linux).
const ENOMEM: i32 = 12;

const ENFILE: i32 = 23;

const EMFILE: i32 = 24;

const ENOBUFS: i32 = 105;

/// What is to be done for the guest of a key.
#[derive(Clone, Copy, Debug)]
struct Task {
    key: usize,
    /// Whether an event told of it, and said that the peer sends no more.
    event: Option<bool>,
}

/// A listener and the sockets that came there, which stay until they end or leave for another door. What is handed out is a request that is there as a whole, or
/// what is refused, with its socket.
pub(crate) struct Lobby<C, F: Framing> {
    alloc: Global,
    clock: C,
    began: Option<Instant>,
    /// The millisecond, since it began, of the last look at the clock.
    now: u64,
    listener: TcpListener,
    poll: Poll,
    events: Events,
    place: Place<F>,
    pub(crate) guests: Guests<F>,
    /// What is to be done, in order, and how much of it before events are asked for again.
    tasks: VecDeque<Task>,
    round: usize,
    /// Whether a socket may have come that nobody took, and until when it is left to others that hold fewer.
    may_come: bool,
    patient_until: u64,
    room: Vec<u8>,
    reply_room: Bytes,
    framing: F,
}

impl<C: Drop, F: Framing + Drop> Drop for Lobby<C, F> {
    fn drop(self) {
        let Lobby {
            alloc: _,
            clock: _,
            began: _,
            now: _,
            listener: _,
            poll: _,
            events: _,
            place: _,
            guests: _,
            tasks: _,
            round: _,
            may_come: _,
            patient_until: _,
            room: _,
            reply_room: _,
            framing: _,
        } = self;
    }
}

/// Whether an error of `accept` is one of the socket alone, so that the next one may be taken.
fn is_of_socket(error: &io::Error) -> bool {
    matches!(
        error.kind(),
        ErrorKind::Interrupted | ErrorKind::ConnectionAborted | ErrorKind::ConnectionReset
    )
}

/// Whether an error says that the system has no descriptor left, or no memory.
fn is_want(error: &io::Error) -> bool {
    matches!(
        error.raw_os_error(),
        Some(ENOMEM | ENFILE | EMFILE | ENOBUFS)
    )
}

/// The token of a key.
fn token_of(key: usize) -> Token {
    Token(key.saturating_add(2))
}

/// Which events of a guest are told.
fn interest_of(guest: &Guest) -> Interest {
    if guest.is_taking() {
        Interest::READABLE | Interest::WRITABLE
    } else {
        Interest::READABLE
    }
}

/// The milliseconds of a time.
fn millis_of(time: Duration) -> u64 {
    time.as_secs()
        .saturating_mul(1_000)
        .saturating_add(u64::from(time.subsec_millis()))
}

impl<C: Clock + Drop, F: Framing + Drop> Lobby<C, F> {
    /// Takes the sockets of this listener, beside the other doors of this share, and waits by this clock.
    pub(crate) fn new(
        net: &impl Net,
        alloc: Global,
        clock: C,
        listener: std::net::TcpListener,
        share: Share<F>,
        framing: F,
    ) -> io::Result<Lobby<C, F>>
        ensures { IfOk result (λ lobby. lobby.guests.in_hand ≡ 0) }
    {
        listener.set_nonblocking(true)?;
        let mut listener = TcpListener::from_std(listener);
        let poll = Poll::new(net)?;
        poll.registry()
            .register(&mut listener, Token(LISTENER), Interest::READABLE)?;
        let waker = Waker::new(poll.registry(), Token(WAKER))?;
        let place = Place::new(alloc, share.another()?, waker)?;
        let began = Instant::now(&clock).ok();
        Ok(Lobby {
            alloc,
            clock,
            began,
            now: 0,
            listener,
            poll,
            events: Events::with_capacity(alloc, EVENTS)?,
            place,
            guests: Guests::new(alloc, share),
            tasks: VecDeque::new(alloc),
            round: 0,
            may_come: true,
            patient_until: 0,
            room: vec![in alloc; 0; HEAD_BYTES]?,
            reply_room: Bytes::new(alloc),
            framing,
        })
    }

    /// The millisecond, since it began.
    fn millis(&self) -> u64 {
        let Some(began) = self.began else {
            return self.now;
        };
        match Instant::now(&self.clock) {
            Ok(now) => millis_of(now.saturating_duration_since(began)),
            Err(_) => self.now,
        }
    }

    /// The second, since it began.
    fn second(&self) -> u64 {
        self.now / 1_000
    }

    /// Holds a guest that is in hand again, which had that key. It is closed where the system doesn't let it be watched, memory is
    /// wanting, or too much is held.
    fn hold(&mut self, key: usize, mut guest: Box<Guest>)
        requires { self.old.guests.in_hand ≡ 1 }
        ensures { self.new.guests.in_hand ≡ 0 }
    {
        let next = self.guests.next_key();
        let is_anew = guest.asks_anew() || next != key;
        if is_anew {
            let interest = interest_of(&guest);
            let told = self
                .poll
                .registry()
                .reregister(guest.stream_mut(), token_of(next), interest);
            if told.is_err() {
                self.guests.close(guest);
                return;
            }
        }
        self.park(guest);
    }

    /// Holds a guest that is in hand and of whose events no door is told.
    fn welcome(&mut self, mut guest: Box<Guest>)
        requires { self.old.guests.in_hand ≡ 1 }
        ensures { self.new.guests.in_hand ≡ 0 }
    {
        guest.asks_anew();
        let token = token_of(self.guests.next_key());
        let interest = interest_of(&guest);
        let told = self
            .poll
            .registry()
            .register(guest.stream_mut(), token, interest);
        if told.is_err() {
            self.guests.close(guest);
            return;
        }
        self.park(guest);
    }

    /// Parks a guest that is in hand, and notes whether something is to be done for it.
    fn park(&mut self, mut guest: Box<Guest>)
        requires { self.old.guests.in_hand ≡ 1 }
        ensures { self.new.guests.in_hand ≡ 0 }
    {
        let is_busy = guest.notes_task();
        if let Some(key) = self.guests.park(guest) {
            if is_busy {
                self.add_task(Task { key, event: None });
            }
        }
    }

    /// Notes what is to be done. Where memory is wanting for that, the guest is let go.
    fn add_task(&mut self, task: Task)
        ensures { self.new.guests.in_hand ≡ self.old.guests.in_hand }
    {
        if self.tasks.push_back(task).is_err() {
            self.guests.let_go(task.key);
        }
    }

    /// Whether one more may be held. The one that is missed least goes where there are too many.
    fn makes_room(&mut self) -> bool
        ensures same { self.new.guests.in_hand ≡ self.old.guests.in_hand }
        ensures room { result ≡ true → self.new.guests.parked + self.new.guests.in_hand < sockets }
    {
        if self.guests.is_full() {
            self.guests.shed();
        }
        !self.guests.is_full()
    }

    /// Holds a socket that came. The one that is missed least goes where there are too many, or the system lacks something for it.
    fn admit(&mut self, mut stream: TcpStream)
        ensures { self.new.guests.in_hand ≡ self.old.guests.in_hand }
    {
        if stream.set_nodelay(true).is_err() {
            return;
        }
        if !self.makes_room() {
            return;
        }
        let token = token_of(self.guests.next_key());
        let told = self
            .poll
            .registry()
            .register(&mut stream, token, Interest::READABLE);
        if told.is_err() {
            self.guests.shed();
            return;
        }
        match Guest::new(self.alloc, stream, self.second()) {
            Ok(guest) => {
                if !self.guests.admit(guest) {
                    self.guests.shed();
                }
            }
            Err(AllocError) => self.guests.shed(),
        }
    }

    /// Whether sockets that came are left to others: to those that hold fewer, for a while, and where this is the editing door as long
    /// as another takes any.
    fn leaves_them(&mut self) -> bool
        ensures { self.new.guests.in_hand ≡ self.old.guests.in_hand }
    {
        if self.place.is_editing() {
            return !self.place.are_at_rest(self.now);
        }
        if self.guests.may_take() {
            self.patient_until = 0;
            return false;
        }
        if self.patient_until == 0 {
            self.patient_until = self.now.saturating_add(PATIENCE_MILLIS);
        }
        self.now < self.patient_until
    }

    /// Takes sockets that came, those that others don't take.
    fn take_in(&mut self) -> io::Result<()>
        ensures { self.new.guests.in_hand ≡ self.old.guests.in_hand }
    {
        'sockets: for _ in 0..TAKEN {
            if self.leaves_them() {
                return Ok(());
            }
            match self.listener.accept() {
                Ok((stream, _)) => self.admit(stream),
                Err(error) => {
                    if error.kind() == ErrorKind::WouldBlock {
                        self.may_come = false;
                        self.patient_until = 0;
                        return Ok(());
                    } else if is_want(&error) {
                        self.guests.shed();
                        return Ok(());
                    } else if !is_of_socket(&error) {
                        return Err(error);
                    }
                }
            }
        }
        Ok(())
    }

    /// How long may be waited for events.
    fn patience(&mut self) -> Option<Duration>
        ensures { self.new.guests.in_hand ≡ self.old.guests.in_hand }
    {
        let is_editing = self.place.is_editing();
        let watches = self.place.waits_at_editing() || (is_editing && self.may_come);
        if !self.tasks.is_empty() || self.place.has_passed() {
            Some(Duration::from_millis(0))
        } else if self.may_come && !is_editing {
            Some(Duration::from_millis(PATIENCE_MILLIS))
        } else if watches && self.place.may_be_at_rest() {
            Some(Duration::from_millis(REST_MILLIS))
        } else if self.guests.is_empty() && !watches {
            None
        } else {
            Some(Duration::from_secs(1))
        }
    }

    /// Waits for events, and notes what is to be done.
    fn wait(&mut self) -> io::Result<()>
        ensures { self.new.guests.in_hand ≡ self.old.guests.in_hand }
    {
        let patience = self.patience();
        self.poll.poll(&mut self.events, patience)?;
        let mut lost = None;
        'events: for event in self.events.iter() {
            let Token(token) = event.token();
            if token == LISTENER {
                self.may_come = true;
            } else if token != WAKER {
                let task = Task {
                    key: token - 2,
                    event: Some(event.is_read_closed()),
                };
                if self.tasks.push_back(task).is_err() {
                    lost = Some(task.key);
                }
            }
        }
        if let Some(key) = lost {
            self.guests.let_go(key);
        }
        let before = self.second();
        self.now = self.millis();
        let second = self.second();
        if second != before {
            self.guests.sweep(second);
        }
        Ok(())
    }

    /// Whether there is room to read into, which is made where it went with what was given.
    fn has_room(&mut self) -> bool
        ensures { self.new.guests.in_hand ≡ self.old.guests.in_hand }
    {
        if self.room.len() < HEAD_BYTES {
            match vec![in self.alloc; 0; HEAD_BYTES] {
                Ok(room) => self.room = room,
                Err(_) => return false,
            }
        }
        true
    }

    /// The connection of a guest that is in hand, with its request.
    fn give(&mut self, home: Home, mut guest: Box<Guest>, parcel: Parcel) -> (Parcel, Outgoing)
        requires { IsRequest F.reaches parcel }
        ensures same { self.new.guests.in_hand ≡ self.old.guests.in_hand }
        ensures given { result.0 ≡ parcel }
        ensures request { IsRequest F.reaches result.0 }
    {
        guest.change_room(&mut self.reply_room);
        (parcel, Outgoing::new(home, guest, self.guests.may_hold()))
    }

    /// Passes a guest that is in hand to the editing door, with its request. Where that can't be its connection is given here.
    fn pass_on(
        &mut self,
        key: usize,
        mut guest: Box<Guest>,
        parcel: Parcel,
    ) -> Option<(Parcel, Outgoing)>
        requires one { self.old.guests.in_hand ≡ 1 }
        requires request { IsRequest F.reaches parcel }
        ensures given { OnSome result (self.new.guests.in_hand ≡ 1) }
        ensures none { IfNone result (self.new.guests.in_hand ≡ 0) }
        ensures same { IfSome result (λ ends. ends.0 ≡ parcel) }
        ensures request { IfSome result (λ ends. IsRequest F.reaches ends.0) }
    {
        let home = self.place.number();
        let now = self.second();
        if self.poll.registry().deregister(guest.stream_mut()).is_err() {
            return Some(self.give(Home::Key(key), guest, parcel));
        }
        guest.turns_time(now);
        match self.place.ask(Passed::new(home, guest, parcel)) {
            Ok(()) => {
                self.guests.left();
                None
            }
            Err(passed) => {
                let Passed {
                    home,
                    mut guest,
                    parcel,
                    of: _,
                } = passed;
                guest.turns_time(now);
                Some(self.give(Home::Door(home), guest, parcel))
            }
        }
    }

    /// Gives the connection of a socket that was passed here with its request, if there is one. It is closed where none can be held.
    fn next_passed(&mut self) -> Option<(Parcel, Outgoing)>
        requires { self.old.guests.in_hand ≡ 0 }
        ensures given { OnSome result (self.new.guests.in_hand ≡ 1) }
        ensures none { IfNone result (self.new.guests.in_hand ≡ 0) }
        ensures request { IfSome result (λ ends. IsRequest F.reaches ends.0) }
    {
        let Passed {
            home,
            mut guest,
            parcel,
            of: _,
        } = self.place.next_asking(self.now)?;
        if !self.makes_room() {
            return None;
        }
        self.guests.came();
        guest.turns_time(self.second());
        Some(self.give(Home::Door(home), guest, parcel))
    }

    /// Holds the sockets that came back.
    fn take_home(&mut self)
        requires { self.old.guests.in_hand ≡ 0 }
        ensures { self.new.guests.in_hand ≡ 0 }
    {
        'sockets: for _ in 0..u64::MAX {
            let Some(mut guest) = self.place.next_back() else {
                return;
            };
            if self.makes_room() {
                self.guests.came();
                guest.turns_time(self.second());
                self.welcome(guest);
            }
        }
    }

    /// Goes on with a guest that is in hand, and gives its connection where a request is there.
    #[tactic(auto, using(door_sockets::proofs::Asking::whole_asks, door_sockets::proofs::Asking::refused_asks))]
    fn go_on(&mut self, key: usize, mut guest: Box<Guest>) -> Option<(Parcel, Outgoing)>
        requires { self.old.guests.in_hand ≡ 1 }
        ensures given { OnSome result (self.new.guests.in_hand ≡ 1) }
        ensures none { IfNone result (self.new.guests.in_hand ≡ 0) }
        ensures request { IfSome result (λ ends. IsRequest F.reaches ends.0) }
    {
        let now = self.second();
        match guest.step(self.alloc, &mut self.room, &mut self.framing, now) {
            Step::Give(parcel) => {
                if parcel.begins_get() || !self.place.passes_on(self.now) {
                    Some(self.give(Home::Key(key), guest, parcel))
                } else {
                    self.pass_on(key, guest, parcel)
                }
            }
            Step::Refuse(parcel) => Some(self.give(Home::Key(key), guest, parcel)),
            Step::Again | Step::Stay => {
                self.hold(key, guest);
                None
            }
            Step::NoMemory => {
                self.guests.close(guest);
                self.guests.shed();
                None
            }
            Step::Close => {
                self.guests.close(guest);
                None
            }
        }
    }

    /// Does what is to be done for a guest, and gives its connection where a request is there.
    fn attend(&mut self, task: Task) -> Option<(Parcel, Outgoing)>
        requires { self.old.guests.in_hand ≡ 0 }
        ensures given { OnSome result (self.new.guests.in_hand ≡ 1) }
        ensures none { IfNone result (self.new.guests.in_hand ≡ 0) }
        ensures request { IfSome result (λ ends. IsRequest F.reaches ends.0) }
    {
        let Some(mut guest) = self.guests.take(task.key) else {
            return None;
        };
        if !guest.begins_task(task.event) {
            self.hold(task.key, guest);
            return None;
        }
        if self.has_room() {
            self.go_on(task.key, guest)
        } else {
            self.guests.close(guest);
            self.guests.shed();
            None
        }
    }

    /// The next connection of those for whom there is something to do in this round.
    fn next_of_round(&mut self) -> Option<(Parcel, Outgoing)>
        requires { self.old.guests.in_hand ≡ 0 }
        ensures given { OnSome result (self.new.guests.in_hand ≡ 1) }
        ensures none { IfNone result (self.new.guests.in_hand ≡ 0) }
        ensures request { IfSome result (λ ends. IsRequest F.reaches ends.0) }
    {
        'round: for _ in 0..self.round {
            self.round = self.round.saturating_sub(1);
            let Some(task) = self.tasks.pop_front() else {
                return None;
            };
            if let Some(ends) = self.attend(task) {
                return Some(ends);
            }
        }
        None
    }

    /// The next connection, once there is one: of its own sockets and of those that were passed here in turn.
    fn next_of_all(&mut self) -> io::Result<(Parcel, Outgoing)>
        requires { self.old.guests.in_hand ≡ 0 }
        ensures given { OnOk result (self.new.guests.in_hand ≡ 1) }
        ensures none { OnErr result (self.new.guests.in_hand ≡ 0) }
        ensures request { IfOk result (λ ends. IsRequest F.reaches ends.0) }
    {
        'waits: for _ in 0..u64::MAX {
            if let Some(ends) = self.next_of_round() {
                return Ok(ends);
            }
            self.wait()?;
            if self.place.has_passed() {
                self.take_home();
            }
            if self.may_come {
                self.take_in()?;
            }
            self.round = self.tasks.len();
            if self.place.has_asking() {
                if let Some(ends) = self.next_passed() {
                    return Ok(ends);
                }
            }
        }
        Err(io::Error::from(ErrorKind::TimedOut))
    }

    /// The next connection.
    pub(crate) fn next(&mut self) -> io::Result<(Parcel, Outgoing)>
        requires { self.old.guests.in_hand ≡ 0 }
        ensures given { OnOk result (self.new.guests.in_hand ≡ 1) }
        ensures none { OnErr result (self.new.guests.in_hand ≡ 0) }
        ensures request { IfOk result (λ ends. IsRequest F.reaches ends.0) }
    {
        self.place.note(true);
        let next = self.next_of_all();
        if next.is_err() {
            self.place.note(false);
        }
        next
    }

    /// Takes back what was given, with its end: where all of it was read and answered the socket stays, and what is left of a reply is
    /// sent as the peer takes it; after the last reply what the peer still sends is read away; else it is closed.
    pub(crate) fn take_back(&mut self, input: Parcel, output: Outgoing, end: Ended)
        requires { self.old.guests.in_hand ≡ 1 }
        ensures { self.new.guests.in_hand ≡ 0 }
    {
        let goes_on = end == Ended::Closed && input.is_read();
        let ends = matches!(end, Ended::Asked | Ended::Spent | Ended::Refused(_));
        self.take_room(input.into_room());
        let (home, mut guest) = output.into_guest();
        let stays = (goes_on || ends) && guest.settle(self.alloc, ends, self.second());
        self.take_reply_room(&mut guest);
        if stays {
            self.send_home(home, guest);
        } else {
            self.guests.close(guest);
        }
        self.place.note(false);
    }

    /// Has a guest that is in hand held where it is at home. It is closed where that door has ended.
    fn send_home(&mut self, home: Home, mut guest: Box<Guest>)
        requires { self.old.guests.in_hand ≡ 1 }
        ensures { self.new.guests.in_hand ≡ 0 }
    {
        match home {
            Home::Key(key) => self.hold(key, guest),
            Home::Door(number) => {
                if number == self.place.number() {
                    self.welcome(guest);
                    return;
                }
                guest.turns_time(self.second());
                match self.place.send_back(number, guest) {
                    Ok(()) => self.guests.left(),
                    Err(guest) => self.guests.close(guest),
                }
            }
        }
    }

    /// Goes on with those for whom there is something to do in this round. What they ask isn't answered any more.
    fn end_round(&mut self)
        requires { self.old.guests.in_hand ≡ 0 }
        ensures { self.new.guests.in_hand ≡ 0 }
    {
        'given: for _ in 0..self.tasks.len() {
            let Some((input, output)) = self.next_of_round() else {
                return;
            };
            self.take_back(input, output, Ended::Truncated(0));
        }
    }

    /// Gives no connection any more: what is left of replies is sent, to those peers that take it in time.
    pub(crate) fn finish(&mut self)
        requires { self.old.guests.in_hand ≡ 0 }
        ensures { self.new.guests.in_hand ≡ 0 }
    {
        self.place.end();
        self.take_home();
        'waits: for _ in 0..u64::MAX {
            self.round = self.tasks.len();
            self.end_round();
            if !self.guests.are_taking() || self.began.is_none() || self.wait().is_err() {
                return;
            }
        }
    }

    /// Takes the room back to read into.
    fn take_room(&mut self, room: Vec<u8>)
        ensures { self.new.guests.in_hand ≡ self.old.guests.in_hand }
    {
        if room.len() == HEAD_BYTES {
            self.room = room;
        }
    }

    /// Takes the room for replies back, unless some of a reply is to be sent, or it has grown too large.
    fn take_reply_room(&mut self, guest: &mut Guest)
        ensures { self.new.guests.in_hand ≡ self.old.guests.in_hand }
    {
        guest.give_room(&mut self.reply_room);
        if self.reply_room.capacity() > 2 * GATHERED_BYTES {
            self.reply_room = Bytes::new(self.alloc);
        }
    }
}
