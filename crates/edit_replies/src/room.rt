//! Texts that are put together in a place of a fixed size, with no memory.
ghost use Rattle.std.specs.Prelude.{◌≡◌, ◌≤◌, ◌+◌, ◌++◌, length, decimal};
ghost use Rattle.arrayvec.specs.ArrayVec.{array_vec_len};

use arrayvec::ArrayVec;
use itoa::Buffer;

/// Appends a piece, for which there is room.
pub(crate) fn put<const ROOM: usize>(out: &mut ArrayVec<u8, ROOM>, piece: &[u8])
    requires { array_vec_len out.old + length piece.now ≤ ROOM }
    ensures { out.new.items ≡ out.old.items ++ piece.now }
{
    match out.try_extend_from_slice(piece) {
        Ok(()) => {}
        Err(_) => unreachable!(),
    }
}

/// Appends a number, whose text has 20 bytes at most.
pub(crate) fn put_number<const ROOM: usize>(out: &mut ArrayVec<u8, ROOM>, number: u64)
    requires { array_vec_len out.old + 20 ≤ ROOM }
    ensures text { out.new.items ≡ out.old.items ++ decimal number }
    ensures short { array_vec_len out.new ≤ array_vec_len out.old + 20 }
{
    let mut buffer = Buffer::new();
    put(out, buffer.format(number).as_bytes());
}
