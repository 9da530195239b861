//! Two doors of one address: what may be an edit is passed to the one that was opened last, with its socket.

use crate::lines::{Pair, is_answered, is_begun, paired};
use site_io::{Door, Ended};
use std::io;
use std::io::{Read, Write};
use std::net::TcpStream;

// Whether a client gets as many bytes as it has room for.
fn gets(client: &mut TcpStream, room: &mut [u8]) -> bool {
    client.read_exact(room).is_ok()
}

// A client reads, edits and reads by what it sends at once: the one door gives what it reads, the other its edit, in order.
fn edit_between_reads(rt: &HostRuntime) -> io::Result<bool> {
    let Pair {
        mut home,
        mut editing,
        address,
    } = paired(rt)?;
    let mut edits = TcpStream::connect(rt, address)?;
    edits.write_all(b"GET a\nedit\nGET b\n")?;
    let mut reads = TcpStream::connect(rt, address)?;
    let mut good = is_answered(rt, &mut home, b"GET a\n", 5, Ended::Closed)?;
    reads.write_all(b"GET c\n")?;
    good = is_answered(rt, &mut home, b"GET c\n", 5, Ended::Closed)? && good;
    good = is_answered(rt, &mut editing, b"edit\n", 5, Ended::Closed)? && good;
    good = is_answered(rt, &mut home, b"GET b\n", 5, Ended::Closed)? && good;
    let mut room = [0; 15];
    good = gets(&mut edits, &mut room) && good;
    edits.write_all(b"GET d\n")?;
    good = is_answered(rt, &mut home, b"GET d\n", 5, Ended::Closed)? && good;
    let mut rest = [0; 5];
    good = gets(&mut edits, &mut rest) && good;
    Ok(gets(&mut reads, &mut rest) && good)
}

// While the worker at the one door has a connection the editing door takes no socket, though it gives an edit.
fn editing_takes_none(rt: &HostRuntime) -> io::Result<bool> {
    let Pair {
        mut home,
        mut editing,
        address,
    } = paired(rt)?;
    let mut edits = TcpStream::connect(rt, address)?;
    edits.write_all(b"edit\n")?;
    let mut reads = TcpStream::connect(rt, address)?;
    reads.write_all(b"GET a\n")?;
    let Ok((input, output)) = home.accept() else {
        return Ok(false);
    };
    let mut comes = TcpStream::connect(rt, address)?;
    comes.write_all(b"GET b\n")?;
    let good = is_answered(rt, &mut editing, b"edit\n", 5, Ended::Closed)?;
    home.done(input, output, Ended::Truncated(0));
    Ok(is_answered(rt, &mut home, b"GET b\n", 5, Ended::Closed)? && good)
}

// Where no other worker asks the editing door takes sockets, and gives what they ask, edits too.
fn editing_takes_all(rt: &HostRuntime) -> io::Result<bool> {
    let Pair {
        mut home,
        mut editing,
        address,
    } = paired(rt)?;
    let mut room = [0; 5];
    let mut reads = TcpStream::connect(rt, address)?;
    reads.write_all(b"GET a\n")?;
    let mut good = is_answered(rt, &mut editing, b"GET a\n", 5, Ended::Closed)?;
    good = gets(&mut reads, &mut room) && good;
    home.finish();
    let mut edits = TcpStream::connect(rt, address)?;
    edits.write_all(b"edit\n")?;
    good = is_answered(rt, &mut editing, b"edit\n", 5, Ended::Closed)? && good;
    Ok(gets(&mut edits, &mut room) && good)
}

// What waits at an editing door that ends comes back.
fn ended_gives_back(rt: &HostRuntime) -> io::Result<bool> {
    let Pair {
        mut home,
        mut editing,
        address,
    } = paired(rt)?;
    let mut edits = TcpStream::connect(rt, address)?;
    edits.write_all(b"edit\n")?;
    let mut reads = TcpStream::connect(rt, address)?;
    reads.write_all(b"GET a\n")?;
    let mut good = is_answered(rt, &mut home, b"GET a\n", 5, Ended::Closed)?;
    editing.finish();
    good = is_answered(rt, &mut home, b"edit\n", 5, Ended::Closed)? && good;
    let mut room = [0; 5];
    Ok(gets(&mut edits, &mut room) && gets(&mut reads, &mut room) && good)
}

// What waits at an editing door whose worker asks for nothing is given by the other.
fn resting_leaves_all(rt: &HostRuntime) -> io::Result<bool> {
    let Pair {
        mut home,
        editing,
        address,
    } = paired(rt)?;
    let mut room = [0; 5];
    let mut edits = TcpStream::connect(rt, address)?;
    let mut good = true;
    'edits: for _ in 0..2u32 {
        edits.write_all(b"edit\n")?;
        good = is_answered(rt, &mut home, b"edit\n", 5, Ended::Closed)? && good;
        good = gets(&mut edits, &mut room) && good;
    }
    drop(editing);
    Ok(good)
}

// While the editing door's worker has an edit, no more requests wait for it than may: of 260 that take 128 KiB of memory each one is
// given where it came.
fn beyond_bounds_stay(rt: &HostRuntime) -> io::Result<bool> {
    let Pair {
        mut home,
        mut editing,
        address,
    } = paired(rt)?;
    let mut edits = TcpStream::connect(rt, address)?;
    edits.write_all(b"edit\n")?;
    let mut reads = TcpStream::connect(rt, address)?;
    reads.write_all(b"GET a\n")?;
    let mut good = is_answered(rt, &mut home, b"GET a\n", 5, Ended::Closed)?;
    let Ok((input, output)) = editing.accept() else {
        return Ok(false);
    };
    let mut line = vec![in rt.alloc(); b'e'; 66_000]?;
    line.push(b'\n')?;
    let mut clients = Vec::new(rt.alloc());
    'clients: for _ in 0..260u32 {
        let mut client = TcpStream::connect(rt, address)?;
        client.write_all(&line)?;
        clients.push(client)?;
    }
    let (front, _) = line.as_slice().split_at(20_000);
    good = is_begun(rt, &mut home, front)? && good;
    editing.done(input, output, Ended::Truncated(0));
    Ok(good)
}

#[test]
fn an_edit_is_given_by_the_editing_door(rt: HostRuntime) {
    assert!(rt; edit_between_reads(&rt).is_ok_and(|good| good));
}

#[test]
fn the_editing_door_takes_no_socket(rt: HostRuntime) {
    assert!(rt; editing_takes_none(&rt).is_ok_and(|good| good));
}

#[test]
fn the_editing_door_takes_all_where_nobody_else_does(rt: HostRuntime) {
    assert!(rt; editing_takes_all(&rt).is_ok_and(|good| good));
}

#[test]
fn what_waits_at_an_ended_door_comes_back(rt: HostRuntime) {
    assert!(rt; ended_gives_back(&rt).is_ok_and(|good| good));
}

#[test]
fn what_waits_at_a_resting_door_is_given_by_another(rt: HostRuntime) {
    assert!(rt; resting_leaves_all(&rt).is_ok_and(|good| good));
}

#[test]
fn what_is_beyond_the_bounds_stays(rt: HostRuntime) {
    assert!(rt; beyond_bounds_stay(&rt).is_ok_and(|good| good));
}
