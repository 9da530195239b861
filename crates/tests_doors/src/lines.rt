//! A door whose requests are lines.
ghost use Rattle.std.specs.Prelude.{◌≡◌, false, IfOk};

use request_framing::{Extent, Framing};
use site_doors::{LobbyDoor, Share, listener_at};
use site_io::{Door, Ended, Sink, Source, write_whole};
use std::io;
use std::net::{SocketAddr, TcpListener};

/// A request is a line. One that begins with `!` is refused.
#[derive(Drop)]
pub(crate) struct Lines;

impl Framing for Lines {
    ghost reaches = { λ _ _. Unit {0} };

    fn extent(&mut self, bytes: &[u8]) -> Extent {
        if bytes.first() == Some(&b'!') {
            return Extent::Refused;
        }
        match bytes.iter().position(|b| *b == b'\n') {
            Some(place) => Extent::Whole(place + 1),
            None => Extent::Head,
        }
    }
}

/// A door of lines.
pub(crate) type TheDoor = LobbyDoor<HostRuntime, Lines>;

/// A door on loopback, and where it is.
pub(crate) fn opened(rt: &HostRuntime) -> io::Result<(TheDoor, SocketAddr)>
    ensures { IfOk result (λ made. made.0.is_out ≡ false) }
{
    let listener = TcpListener::bind(rt, "127.0.0.1:0")?;
    let address = listener.local_addr()?;
    let share = Share::new(rt.alloc())?.another()?;
    let door = LobbyDoor::new(rt, rt.alloc(), *rt, listener, share, Lines)?;
    Ok((door, address))
}

/// Two doors of one address, the first of which takes the sockets, and where they are.
#[derive(Drop)]
pub(crate) struct Pair {
    pub(crate) home: TheDoor,
    pub(crate) editing: TheDoor,
    pub(crate) address: SocketAddr,
}

/// Two doors on loopback.
pub(crate) fn paired(rt: &HostRuntime) -> io::Result<Pair>
    ensures home { IfOk result (λ pair. pair.home.is_out ≡ false) }
    ensures editing { IfOk result (λ pair. pair.editing.is_out ≡ false) }
{
    let listener = listener_at(rt, "127.0.0.1:0")?;
    let address = listener.local_addr()?;
    let again = listener.try_clone()?;
    let share = Share::new(rt.alloc())?;
    let home = LobbyDoor::new(rt, rt.alloc(), *rt, listener, share.another()?, Lines)?;
    let editing = LobbyDoor::new(rt, rt.alloc(), *rt, again, share, Lines)?;
    Ok(Pair {
        home,
        editing,
        address,
    })
}

/// Whether the next connection asks this and no more, and takes a reply of so many bytes. It ends so.
pub(crate) fn is_answered(
    rt: &HostRuntime,
    door: &mut TheDoor,
    line: &[u8],
    size: usize,
    end: Ended,
) -> io::Result<bool>
    requires { door.old.is_out ≡ false }
    ensures { door.new.is_out ≡ false }
{
    let mut came = vec![in rt.alloc(); 0; 20_000]?;
    let reply = vec![in rt.alloc(); b'.'; size]?;
    let Ok((mut input, mut output)) = door.accept() else {
        return Ok(false);
    };
    let n = input.read(&mut came).unwrap_or(0);
    let mut rest = [0; 1];
    let is_all = input.read(&mut rest) == Ok(0);
    let written = write_whole(&mut output, &reply).is_ok();
    let flushed = output.flush().is_ok();
    door.done(input, output, end);
    let (asked, _) = came.as_slice().split_at(n.min(came.len()));
    Ok(written && flushed && is_all && asked == line)
}

/// Whether the next connection begins with these bytes. It ends unanswered.
pub(crate) fn is_begun(rt: &HostRuntime, door: &mut TheDoor, front: &[u8]) -> io::Result<bool>
    requires { door.old.is_out ≡ false }
    ensures { door.new.is_out ≡ false }
{
    let mut came = vec![in rt.alloc(); 0; 20_000]?;
    let Ok((mut input, output)) = door.accept() else {
        return Ok(false);
    };
    let n = input.read(&mut came).unwrap_or(0);
    door.done(input, output, Ended::Truncated(0));
    let (begun, _) = came.as_slice().split_at(n.min(came.len()));
    Ok(begun == front)
}
