//! A door in memory.
ghost use Rattle.std.specs.Prelude.{◌≡◌, false, IfOk};

use site_io::{Door, Ended, MemoryDoor, MemorySink, MemorySource, Sink, Source};
use std::alloc::{AllocError, Global};

fn connection(alloc: Global, input: &[u8]) -> Result<(MemorySource, MemorySink), AllocError> {
    let input = Vec::from_slice(alloc, input)?;
    let sink = MemorySink::new(alloc, 8)?;
    Ok((MemorySource::new(input, 64), sink))
}

fn connections(
    alloc: Global,
    inputs: &[&[u8]],
) -> Result<Vec<(MemorySource, MemorySink)>, AllocError> {
    let mut connections = Vec::new(alloc);
    for input in inputs {
        let connection = connection(alloc, input)?;
        connections.push(connection)?;
    }
    Ok(connections)
}

// A door with the connections of these inputs, whose calls with these numbers fail.
fn door(alloc: Global, inputs: &[&[u8]], failing: &[u64]) -> Result<MemoryDoor, AllocError>
    ensures { IfOk result (λ door. door.is_out ≡ false) }
{
    let failing = Vec::from_slice(alloc, failing)?;
    let connections = connections(alloc, inputs)?;
    let door = MemoryDoor::new(alloc, connections)?;
    Ok(door.failing_at(failing))
}

// Serves one connection: two bytes are read and written again. Whether there was one.
fn serve(door: &mut MemoryDoor, end: Ended) -> bool
    requires { door.now.is_out ≡ false }
    ensures { door.new.is_out ≡ false }
{
    let Ok((mut source, mut sink)) = door.accept() else {
        return false;
    };
    let mut bytes = [0; 2];
    let read = source.read(&mut bytes).unwrap_or(0);
    let _written = sink.write(bytes.get(..read).unwrap_or(&[]));
    door.done(source, sink, end);
    true
}

// Which of three callings are answered with a connection.
fn served(door: &mut MemoryDoor) -> [bool; 3]
    requires { door.now.is_out ≡ false }
{
    [
        serve(door, Ended::Closed),
        serve(door, Ended::Asked),
        serve(door, Ended::Spent),
    ]
}

// What was left and written of the connection that was given back at this place, and its end.
fn returned(door: &MemoryDoor, at: usize) -> Option<(&[u8], &[u8], Ended)> {
    let back = door.returned().get(at)?;
    Some((back.source.left(), back.sink.bytes(), back.end))
}

#[test]
fn connections_come_in_turn(rt: HostRuntime) {
    let inputs: [&[u8]; 2] = [b"abc", b"d"];
    let mut door = door(rt.alloc(), &inputs, &[]).expect(&rt, "memory");
    assert!(rt; served(&mut door) == [true, true, false]);
    assert!(rt; returned(&door, 0) == Some((b"c", b"ab", Ended::Closed)));
    assert!(rt; returned(&door, 1) == Some((b"", b"d", Ended::Asked)));
    assert!(rt; returned(&door, 2).is_none());
    assert!(rt; door.faults() == 1);
}

#[test]
fn calls_that_are_to_fail(rt: HostRuntime) {
    let inputs: [&[u8]; 2] = [b"abc", b"d"];
    let mut door = door(rt.alloc(), &inputs, &[2]).expect(&rt, "memory");
    assert!(rt; served(&mut door) == [true, false, true]);
    assert!(rt; returned(&door, 1) == Some((b"", b"d", Ended::Spent)));
    assert!(rt; door.faults() == 1);
}
