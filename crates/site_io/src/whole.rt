//! Writing all bytes of a piece.
ghost use Rattle.std.specs.Prelude.{◌≡◌, ◌≤◌, OnErr, OnOk};
ghost use Rattle.site_io.specs.Memory.{up};
ghost use Rattle.site_io.specs.Told.{after, AddsFront, Rose};

use crate::device::{Failed, Sink};

/// Writes the bytes, in as many pieces as the sink takes them: mostly it takes all of them in its first call.
///
/// At `Ok` all of them were written, once and in order. `Failed` comes exactly where a write failed and the sink's count of
/// faults rose, by one; then a front of them was written. Each turn writes at least a byte, so no sink holds it up for ever.
#[tactic(auto, using(crate::proofs::Told::after_more, crate::proofs::Told::after_none))]
pub fn write_whole<O: Sink>(sink: &mut O, bytes: &[u8]) -> Result<(), Failed>
    ensures whole { OnOk result (O.written sink.new ≡ after (O.written sink.old) bytes.now) }
    ensures front { OnErr result (AddsFront (O.written sink.old) (O.written sink.new) bytes.now) }
    ensures cause { OnErr result (Rose (O.faults sink.old) (O.faults sink.new)) }
    ensures once { OnErr result (O.faults sink.new ≡ up (O.faults sink.old)) }
    ensures steady { OnOk result (O.faults sink.new ≡ O.faults sink.old) }
    ensures never_falls { O.faults sink.old ≤ O.faults sink.new }
{
    if bytes.is_empty() {
        return Ok(());
    }
    let mut sent = sink.write(bytes)?;
    'pieces: while sent < bytes.len() {
        let (_, rest) = bytes.split_at(sent);
        sent += sink.write(rest)?;
    }
    Ok(())
}
