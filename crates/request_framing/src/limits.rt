//! What bounds how long and how much peers may hold.
ghost use Rattle.std.specs.Prelude.{◌≡◌, ◌≤◌, ◌<◌, ◌+◌, ◌/◌, IsTrue, nat_lt};
ghost use Rattle.request_framing.specs.Limits.{allowed_seconds};

/// How many seconds a socket may be without a byte before its first request or between two. Browsers keep a connection for about
/// that long after a page, and a parked socket costs a door some 200 bytes.
pub const IDLE_SECONDS: u64 = 60;

/// How many seconds a request may take from its first byte to its last. A request of a browser comes in one piece or two; what takes
/// longer is a peer that is broken or hostile.
pub const REQUEST_SECONDS: u64 = 15;

/// So many bytes of a body give its request a second more: a body of 1 MiB may take 79 seconds, over a line of 16 KiB a second.
pub const BODY_BYTES_A_SECOND: u64 = 16_384;

/// How many seconds a peer may take for the rest of a reply that its socket didn't take at once. What lies in the system's buffers
/// when they are over is still sent.
pub const REPLY_SECONDS: u64 = 15;

/// For how many seconds what a peer still sends is read away, once nothing more is said to it. Without that the system answers these
/// bytes with a reset, and the peer may lose the reply.
pub const LINGER_SECONDS: u64 = 5;

/// How many bytes are read away then at most: sixteen times the largest body that is taken.
pub const LINGER_BYTES: usize = 16_777_216;

/// How many sockets a door holds at most: four doors hold 10,000 with room to spare, at some 1.6 MB a door where all are idle. Beyond
/// it the one that has been idle for longest goes.
pub const SOCKETS: usize = 8_192;

/// How many bytes the sockets of a door hold in memory at most: parts of requests and rests of replies. A socket that wants more is
/// closed, so that memory is bounded whatever peers do.
pub const HELD_BYTES: usize = 67_108_864;

/// How many bytes a head may have, and are read at once.
pub const HEAD_BYTES: usize = 16_384;

/// How many bytes of replies are gathered before they are sent. A reply of one page leaves with one call of the system.
pub const GATHERED_BYTES: usize = 65_536;

/// How many milliseconds a door leaves a new socket to the doors that hold fewer. Whoever sees it wait for longer takes it, so that
/// it doesn't wait for a worker that is busy.
pub const PATIENCE_MILLIS: u64 = 5;

/// How many requests may wait at the editing door at most, each with its socket, once other doors have passed them to it. A request
/// that finds no room there stays at the door where it came, and is answered there.
pub const PASSED_SOCKETS: usize = 1_024;

/// How many bytes of memory the requests that wait at the editing door take at most, with their sockets: 32 requests whose body is
/// the largest that is taken, or 1,024 of 32 KiB each. A request beyond that stays at its own door, too.
pub const PASSED_BYTES: usize = 33_554_432;

/// A worker that has no connection and asks for none is at rest once so many milliseconds have passed, as one is that has stopped.
/// What its door would do is done by other doors then. Between two connections a worker takes a few microseconds.
pub const REST_MILLIS: u64 = 100;

/// What a socket is at.
#[derive(Clone, Copy, Debug, PartialEq, Eq)]
pub enum Stage {
    /// It is between two requests, or before the first.
    Idle,
    /// Some of a request came, so many bytes of it with its head, or none of its body.
    Asks(u64),
    /// It is sent the rest of a reply, and then goes on, or ends.
    Takes(bool),
    /// Nothing more is sent, and what comes is read away.
    Lingers,
}

/// How many seconds it may be at that.

fn allowed_seconds(stage: Stage) -> u64
    ensures { result ≡ allowed_seconds stage }
{
    match stage {
        Stage::Idle => IDLE_SECONDS,
        Stage::Asks(body) => REQUEST_SECONDS + body / BODY_BYTES_A_SECOND,
        Stage::Takes(_) => REPLY_SECONDS,
        Stage::Lingers => LINGER_SECONDS,
    }
}

/// Whether its time is over after so many seconds.
pub fn is_over(stage: Stage, age: u64) -> bool
    ensures { result ≡ nat_lt (allowed_seconds stage) age }
{
    allowed_seconds(stage) < age
}
