//! Clients that are idle, slow or deaf, or are refused, beside one that asks.

use crate::lines::{is_answered, opened};
use request_framing::HEAD_BYTES;
use site_io::Ended;
use std::io;
use std::io::{ErrorKind, Read, Write};
use std::net::TcpStream;

// Whether a client gets as many bytes as it has room for.
fn gets(client: &mut TcpStream, room: &mut [u8]) -> bool {
    client.read_exact(room).is_ok()
}

// Reads what is there, as far as there is any, and waits for no more. How many bytes it was.
fn takes(client: &mut TcpStream, room: &mut [u8]) -> io::Result<usize> {
    let mut all: usize = 0;
    'reads: for _ in 0..10_000u32 {
        match client.read(room) {
            Ok(0) => return Ok(all),
            Ok(n) => all = all.saturating_add(n),
            Err(error) if error.kind() == ErrorKind::WouldBlock => return Ok(all),
            Err(error) => return Err(error),
        }
    }
    Ok(all)
}

// Sends so many bytes, a piece again and again, as far as the system takes them now. How many are left.
fn sends_on(client: &mut TcpStream, piece: &[u8], size: usize) -> io::Result<usize> {
    let mut left = size;
    'pieces: for _ in 0..10_000u32 {
        let (front, _) = piece.split_at(left.min(piece.len()));
        if front.is_empty() {
            return Ok(0);
        }
        match client.write(front) {
            Ok(n) => left = left.saturating_sub(n),
            Err(error) if error.kind() == ErrorKind::WouldBlock => return Ok(left),
            Err(error) => return Err(error),
        }
    }
    Ok(left)
}

// One client asks beside fifty that are idle, and is answered each time.
fn one_beside_idle(rt: &HostRuntime) -> io::Result<bool> {
    let (mut door, address) = opened(rt)?;
    let mut idle = Vec::new(rt.alloc());
    'clients: for _ in 0..50u32 {
        idle.push(TcpStream::connect(rt, address)?)?;
    }
    let mut room = [0; 10];
    let mut asks = TcpStream::connect(rt, address)?;
    let mut good = true;
    'asks: for _ in 0..3u32 {
        asks.write_all(b"asks\n")?;
        good = is_answered(rt, &mut door, b"asks\n", 10, Ended::Closed)? && good;
        good = gets(&mut asks, &mut room) && good;
    }
    Ok(good)
}

// A line that comes in two pieces, with a second one behind it: both are given whole, in order, one a connection, and beside the
// first piece another is answered.
fn one_beside_slow(rt: &HostRuntime) -> io::Result<bool> {
    let (mut door, address) = opened(rt)?;
    let mut room = [0; 5];
    let mut slow = TcpStream::connect(rt, address)?;
    slow.write_all(b"slo")?;
    let mut asks = TcpStream::connect(rt, address)?;
    asks.write_all(b"asks\n")?;
    let mut good = is_answered(rt, &mut door, b"asks\n", 5, Ended::Closed)?;
    good = gets(&mut asks, &mut room) && good;
    slow.write_all(b"w\nand\nmo")?;
    good = is_answered(rt, &mut door, b"slow\n", 5, Ended::Closed)? && good;
    good = is_answered(rt, &mut door, b"and\n", 5, Ended::Closed)? && good;
    slow.write_all(b"re\n")?;
    good = is_answered(rt, &mut door, b"more\n", 5, Ended::Closed)? && good;
    good = gets(&mut slow, &mut room) && gets(&mut slow, &mut room) && good;
    Ok(gets(&mut slow, &mut room) && good)
}

// A client that asks for 20,000,000 bytes and reads nothing holds nobody, and gets all of them once it reads, while the other is
// answered on.
fn one_beside_deaf(rt: &HostRuntime) -> io::Result<bool> {
    let (mut door, address) = opened(rt)?;
    let mut room = [0; 10];
    let mut deaf = TcpStream::connect(rt, address)?;
    deaf.write_all(b"deaf\n")?;
    let mut good = is_answered(rt, &mut door, b"deaf\n", 20_000_000, Ended::Closed)?;
    let mut asks = TcpStream::connect(rt, address)?;
    asks.write_all(b"asks\n")?;
    good = is_answered(rt, &mut door, b"asks\n", 10, Ended::Closed)? && good;
    good = gets(&mut asks, &mut room) && good;
    deaf.set_nonblocking(true)?;
    let mut came = vec![in rt.alloc(); 0; 65_536]?;
    let mut all: usize = 0;
    'asks: for _ in 0..10_000u32 {
        all = all.saturating_add(takes(&mut deaf, &mut came)?);
        if all >= 20_000_000 {
            return Ok(good && all == 20_000_000);
        }
        asks.write_all(b"asks\n")?;
        good = is_answered(rt, &mut door, b"asks\n", 10, Ended::Closed)? && good;
        good = gets(&mut asks, &mut room) && good;
    }
    Ok(false)
}

// A client sends 1,000,000 bytes that are refused by the first: before the reply as many as the system takes, of which the door read
// 16,384, and the others while the door goes on. It gets all of the reply, and then the end and no reset.
fn refusal_is_read(rt: &HostRuntime, code: u16) -> io::Result<bool> {
    let (mut door, address) = opened(rt)?;
    let mut piece = vec![in rt.alloc(); b'!'; 100_000]?;
    let mut refused = TcpStream::connect(rt, address)?;
    refused.set_nonblocking(true)?;
    let mut left = sends_on(&mut refused, &piece, 1_000_000)?;
    let (front, _) = piece.as_slice().split_at(HEAD_BYTES);
    let mut good = is_answered(rt, &mut door, front, 100, Ended::Refused(code))?;
    let mut asks = TcpStream::connect(rt, address)?;
    let mut room = [0; 10];
    'asks: for _ in 0..500u32 {
        left = sends_on(&mut refused, &piece, left)?;
        asks.write_all(b"asks\n")?;
        good = is_answered(rt, &mut door, b"asks\n", 10, Ended::Closed)? && good;
        good = gets(&mut asks, &mut room) && good;
    }
    refused.set_nonblocking(false)?;
    piece.clear();
    refused.read_to_end(&mut piece)?;
    Ok(good && left == 0 && piece.len() == 100)
}

#[test]
fn one_asks_beside_fifty_idle(rt: HostRuntime) {
    assert!(rt; one_beside_idle(&rt).is_ok_and(|good| good));
}

#[test]
fn one_asks_beside_a_slow_head(rt: HostRuntime) {
    assert!(rt; one_beside_slow(&rt).is_ok_and(|good| good));
}

#[test]
fn one_asks_beside_a_deaf_client(rt: HostRuntime) {
    assert!(rt; one_beside_deaf(&rt).is_ok_and(|good| good));
}

#[test]
fn a_refused_client_gets_its_reply(rt: HostRuntime) {
    assert!(rt; refusal_is_read(&rt, 400).is_ok_and(|good| good));
}

#[test]
fn a_client_whose_body_is_too_long_gets_its_reply(rt: HostRuntime) {
    assert!(rt; refusal_is_read(&rt, 413).is_ok_and(|good| good));
}
