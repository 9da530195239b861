//! Calls of a socket that never wait, made again where a signal interrupts them.
ghost use Rattle.std.specs.Prelude.{◌≤◌, ◌<◌, length};
ghost use Rattle.door_sockets.specs.Wire.{IsWithin};

use mio::net::TcpStream;
use std::io;
use std::io::{ErrorKind, Read, Write};

/// What came of a call.
#[derive(Clone, Copy, Debug, PartialEq, Eq)]
pub(crate) enum Moved {
    /// So many bytes were read or written.
    Bytes(usize),
    /// The peer sends no more.
    End,
    /// It would have to wait.
    Waits,
    /// The socket has failed.
    Failed,
}

/// Whether an error says that the call would wait.
fn would_wait(error: &io::Error) -> bool {
    error.kind() == ErrorKind::WouldBlock
}

/// Reads what is there, as far as there is room.
pub(crate) fn read_from(mut stream: &TcpStream, room: &mut [u8]) -> Moved
    ensures { IsWithin (length room.new) result }
{
    'tries: for _ in 0..u64::MAX {
        match stream.read(room) {
            Ok(0) => return Moved::End,
            Ok(n) => return Moved::Bytes(n),
            Err(error) if error.kind() == ErrorKind::Interrupted => {}
            Err(error) if would_wait(&error) => return Moved::Waits,
            Err(_) => return Moved::Failed,
        }
    }
    Moved::Failed
}

/// Writes a front of a piece, as far as the socket takes it.
pub(crate) fn write_to(mut stream: &TcpStream, piece: &[u8]) -> Moved
    ensures { IsWithin (length piece.now) result }
{
    'tries: for _ in 0..u64::MAX {
        match stream.write(piece) {
            Ok(0) => return Moved::Failed,
            Ok(n) => return Moved::Bytes(n),
            Err(error) if error.kind() == ErrorKind::Interrupted => {}
            Err(error) if would_wait(&error) => return Moved::Waits,
            Err(_) => return Moved::Failed,
        }
    }
    Moved::Failed
}
