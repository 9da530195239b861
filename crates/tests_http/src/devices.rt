//! What the devices give and take, call after call.
ghost use Rattle.std.specs.Prelude.{◌≤◌, IfOk};

use site_io::{
    Clock, Entropy, Failed, Gate, LAST_MOMENT, ListClock, ListEntropy, MemorySink, MemorySource,
    NoChance, OpenGate, Point, Reading, Seed, Sink, Source, SystemClock, SystemEntropy, Writing,
    write_whole,
};
use std::alloc::{AllocError, Global};
use std::io;
use std::io::{ErrorKind, Read, Write};
use std::random::RandomSource;
use std::time::Duration;

// What one call of a reader or a writer does.
#[derive(Clone, Copy)]
enum Step {
    // It takes or gives so many bytes, or as many as there is room for.
    Moves(usize),
    Fails(ErrorKind),
}

use Step::{Fails, Moves};

// A reader and a writer by a script of its calls; past the script it moves nothing and fails not.
#[derive(Drop)]
struct Scripted {
    moves: &'static [Step],
    flushes: &'static [Step],
}

impl Scripted {
    fn move_bytes(&mut self, room: usize) -> io::Result<usize>
        ensures { IfOk result (λ n. n ≤ room) }
    {
        let Some((step, later)) = self.moves.split_first() else {
            return Ok(0);
        };
        self.moves = later;
        match *step {
            Moves(n) => Ok(n.min(room)),
            Fails(kind) => Err(io::Error::from(kind)),
        }
    }
}

impl Read for Scripted {
    fn read(&mut self, buffer: &mut [u8]) -> io::Result<usize> {
        let n = self.move_bytes(buffer.len())?;
        for place in buffer.iter_mut() {
            *place = b'x';
        }
        Ok(n)
    }
}

impl Write for Scripted {
    fn write(&mut self, piece: &[u8]) -> io::Result<usize> {
        self.move_bytes(piece.len())
    }

    fn flush(&mut self) -> io::Result<()> {
        let Some((step, later)) = self.flushes.split_first() else {
            return Ok(());
        };
        self.flushes = later;
        match *step {
            Moves(_) => Ok(()),
            Fails(kind) => Err(io::Error::from(kind)),
        }
    }
}

// A clock that stands still, or can't be read.
#[derive(Drop)]
struct Still(Option<Duration>);

impl std::time::Clock for Still {
    fn monotonic(&self) -> io::Result<Duration> {
        self.since_1970()
    }

    fn since_1970(&self) -> io::Result<Duration> {
        self.0.ok_or(io::Error::from(ErrorKind::Other))
    }
}

// Chance that is known, or can't be had.
#[derive(Drop)]
struct Known(Option<[u8; 32]>);

impl RandomSource for Known {
    fn fill_bytes(&self, places: &mut [u8]) -> io::Result<()> {
        let bytes = self.0.ok_or(io::Error::from(ErrorKind::Other))?;
        for (place, byte) in places.iter_mut().zip(&bytes) {
            *place = *byte;
        }
        Ok(())
    }
}

fn sendable<T: Send>(_: &T) {}

// Seven bytes in pieces of three, whose second read fails.
fn source(alloc: Global) -> Result<MemorySource, AllocError> {
    let bytes = Vec::from_slice(alloc, b"abcdefg")?;
    let failing = Vec::from_slice(alloc, &[2])?;
    Ok(MemorySource::new(bytes, 3).failing_at(failing))
}

// Room for eight bytes; the first write fails.
fn sink(alloc: Global) -> Result<MemorySink, AllocError> {
    let failing = Vec::from_slice(alloc, &[1])?;
    let sink = MemorySink::new(alloc, 8)?;
    Ok(sink.failing_at(failing))
}

#[test]
fn a_source_in_memory(rt: HostRuntime) {
    let mut source = source(rt.alloc()).expect(&rt, "memory");
    sendable(&source);
    let calls: [(Result<usize, Failed>, &[u8], u64); 6] = [
        (Ok(3), b"defg", 0),
        (Err(Failed), b"defg", 1),
        (Ok(3), b"g", 1),
        (Ok(1), b"", 1),
        (Ok(0), b"", 1),
        (Ok(0), b"", 1),
    ];
    for (answer, left, faults) in calls {
        let mut buffer = [0; 4];
        assert!(rt; source.read(&mut buffer) == answer);
        assert!(rt; source.left() == left);
        assert!(rt; source.faults() == faults);
    }
    let mut source = MemorySource::new(
        Vec::from_slice(rt.alloc(), b"abc").expect(&rt, "memory"),
        9,
    );
    let mut buffer = [0; 2];
    assert!(rt; source.read(&mut buffer) == Ok(2));
    assert!(rt; buffer == *b"ab");
}

#[test]
fn a_sink_in_memory(rt: HostRuntime) {
    let mut sink = sink(rt.alloc()).expect(&rt, "memory");
    sendable(&sink);
    let calls: [(&[u8], Result<(), Failed>, &[u8], u64); 4] = [
        (b"abc", Err(Failed), b"", 1),
        (b"abcde", Ok(()), b"abcde", 1),
        (b"", Ok(()), b"abcde", 1),
        (b"fghij", Err(Failed), b"abcdefgh", 2),
    ];
    for (bytes, answer, written, faults) in calls {
        assert!(rt; write_whole(&mut sink, bytes) == answer);
        assert!(rt; sink.bytes() == written);
        assert!(rt; sink.faults() == faults);
    }
}

// Whether a clock shows these moments, one after another.
fn shows(mut clock: ListClock, moments: &[u64]) -> bool {
    sendable(&clock);
    for moment in moments {
        if clock.now() != *moment {
            return false;
        }
    }
    true
}

#[test]
fn lists_of_moments(rt: HostRuntime) {
    let moments = Vec::from_slice(rt.alloc(), &[5, 9_999_999_999, 7]).expect(&rt, "memory");
    assert!(rt; shows(ListClock::new(moments), &[5, LAST_MOMENT, 7, 7]));
    assert!(rt; shows(ListClock::new(Vec::new(rt.alloc())), &[0]));
}

// Whether these words are drawn, one after another.
fn draws(mut entropy: ListEntropy, words: &[u64]) -> bool {
    for word in words {
        if entropy.word() != *word {
            return false;
        }
    }
    true
}

#[test]
fn lists_of_words(rt: HostRuntime) {
    let words = Vec::from_slice(rt.alloc(), &[u64::MAX, 2]).expect(&rt, "memory");
    assert!(rt; draws(ListEntropy::new(words), &[u64::MAX, 2, 2]));
    assert!(rt; draws(ListEntropy::new(Vec::new(rt.alloc())), &[0]));
}

#[test]
fn reading_and_writing(rt: HostRuntime) {
    let mut source = Reading::new(b"abc".as_slice());
    let mut buffer = [0; 8];
    assert!(rt; source.read(&mut buffer) == Ok(3));
    assert!(rt; buffer == *b"abc\0\0\0\0\0");
    assert!(rt; source.read(&mut buffer) == Ok(0));
    drop(source);
    let mut places = [0; 4];
    let mut sink = Writing::new(places.as_mut_slice());
    assert!(rt; write_whole(&mut sink, b"abc") == Ok(()));
    assert!(rt; write_whole(&mut sink, b"de") == Err(Failed));
    assert!(rt; sink.faults() == 1);
}

#[test]
fn devices_of_the_system(rt: HostRuntime) {
    let moment = SystemClock::new(&rt).now();
    assert!(rt; 1_700_000_000 < moment && moment <= LAST_MOMENT);
    let seed = Seed::draw(&rt).expect(&rt, "chance");
    let mut first = SystemEntropy::new(&seed, 0);
    let mut second = SystemEntropy::new(&seed, 1);
    sendable(&first);
    assert!(rt; first.word() != second.word());
    assert!(rt; first.word() != first.word());
    OpenGate.reach(Point::BeforeReply(1));
}

#[test]
fn readers_that_fail(rt: HostRuntime) {
    let mut source = Reading::new(Scripted {
        moves: &[
            Fails(ErrorKind::Interrupted),
            Moves(3),
            Fails(ErrorKind::Interrupted),
            Fails(ErrorKind::Interrupted),
            Fails(ErrorKind::ConnectionReset),
            Fails(ErrorKind::BrokenPipe),
            Moves(9),
        ],
        flushes: &[],
    });
    // the answer of each call, and the faults after it
    let calls: [(Result<usize, Failed>, u64); 6] = [
        (Ok(3), 0),
        (Err(Failed), 1),
        (Err(Failed), 2),
        (Ok(4), 2),
        (Ok(0), 2),
        (Ok(0), 2),
    ];
    for (answer, faults) in calls {
        let mut buffer = [0; 4];
        assert!(rt; source.read(&mut buffer) == answer);
        assert!(rt; source.faults() == faults);
    }
}

#[test]
fn writers_that_fail(rt: HostRuntime) {
    let mut sink = Writing::new(Scripted {
        moves: &[
            Fails(ErrorKind::Interrupted),
            Moves(2),
            Moves(9),
            Fails(ErrorKind::ConnectionReset),
            Moves(0),
            Moves(9),
        ],
        flushes: &[],
    });
    // what is written, the answer, and the faults after it
    let calls: [(&[u8], Result<usize, Failed>, u64); 5] = [
        (b"abc", Ok(2), 0),
        (b"c", Ok(1), 0),
        (b"de", Err(Failed), 1),
        (b"de", Err(Failed), 2),
        (b"de", Ok(2), 2),
    ];
    for (piece, answer, faults) in calls {
        assert!(rt; sink.write(piece) == answer);
        assert!(rt; sink.faults() == faults);
    }
}

#[test]
fn flushes_that_fail(rt: HostRuntime) {
    let mut sink = Writing::new(Scripted {
        moves: &[Moves(9)],
        flushes: &[
            Fails(ErrorKind::StorageFull),
            Fails(ErrorKind::Interrupted),
            Moves(0),
            Moves(0),
        ],
    });
    assert!(rt; write_whole(&mut sink, b"abc") == Ok(()));
    let calls: [(Result<(), Failed>, u64); 3] = [(Err(Failed), 1), (Ok(()), 1), (Ok(()), 1)];
    for (answer, faults) in calls {
        assert!(rt; sink.flush() == answer);
        assert!(rt; sink.faults() == faults);
    }
}

#[test]
fn moments_of_the_system(rt: HostRuntime) {
    // what the clock shows, in seconds and nanoseconds, and the moment
    let moments: [(Option<(u64, u32)>, u64); 6] = [
        (Some((0, 0)), 0),
        (Some((1_000, 0)), 1_000),
        (Some((1_000, 999_999_999)), 1_000),
        (Some((4_102_444_800, 0)), 4_102_444_800),
        (Some((4_102_444_801, 5)), 4_102_444_800),
        (None, 0),
    ];
    for (shown, moment) in moments {
        let since = match shown {
            Some((seconds, nanos)) => Some(Duration::new(seconds, nanos)),
            None => None,
        };
        assert!(rt; SystemClock::new(Still(since)).now() == moment);
    }
}

// The words of a stream of this seed, from one of them on.
fn gives(seed: [u8; 32], number: u64, before: usize, words: [u64; 4]) -> Result<bool, NoChance> {
    let mut entropy = SystemEntropy::new(&Seed::draw(&Known(Some(seed)))?, number);
    for _ in 0..before {
        entropy.word();
    }
    let mut given = true;
    for word in words {
        given &= entropy.word() == word;
    }
    Ok(given)
}

// The test vectors 1 to 5 of RFC 8439, A.1, whose blocks have eight of these words; the nonce of the fifth, as a number
// of 64 bits, is its stream.
#[test]
fn words_of_a_seed(rt: HostRuntime) {
    let zero = [0; 32];
    let mut last = zero;
    last[31] = 1;
    let mut second = zero;
    second[1] = 0xff;
    let cases: [([u8; 32], u64, usize, [u64; 4]); 5] = [
        (
            zero,
            0,
            0,
            [
                0x903df1a0ade0b876,
                0x28bd8653e56a5d40,
                0x1aed8da0b819d2bd,
                0xc70d778bccef36a8,
            ],
        ),
        (
            zero,
            0,
            8,
            [
                0x7a385155bee7079f,
                0x0d082d737c97ba98,
                0x6965e348a0290fcb,
                0xed7aee323e53c612,
            ],
        ),
        (
            last,
            0,
            8,
            [
                0x9249f8ec2452eb3a,
                0xddd4ceb18d829d9b,
                0x60818b01e8252083,
                0x5aaa49c9f38422b8,
            ],
        ),
        (
            second,
            0,
            16,
            [
                0x4bc42ef1fb4dd572,
                0x327f1394df922636,
                0x5e269039a78dea8f,
                0xcaf09aaea1bebbc1,
            ],
        ),
        (
            zero,
            2 << 56,
            0,
            [
                0x3736d58c374dc6c2,
                0xcd3f93efb904e24a,
                0x96a4dfb388228b1a,
                0xc727ee545b76ab72,
            ],
        ),
    ];
    for (seed, number, before, words) in cases {
        assert!(rt; gives(seed, number, before, words) == Ok(true));
    }
    assert!(rt; Seed::draw(&Known(None)).is_err());
}
