//! Writing texts that lie in pieces.
ghost use Rattle.std.specs.Prelude.{◌≡◌, ◌++◌, OnOk, OnErr};
ghost use Rattle.html_out.specs.Segment.{joined};
ghost use Rattle.site_io.specs.Told.{after, AddsFront, Rose};

use html_out::Bytes;
use site_io::{Failed, Sink, write_whole};
use std::sync::Arc;

/// A sink failed, and its count of faults rose.
#[derive(Clone, Copy, Debug, PartialEq, Eq)]
pub struct WriteFault;

impl From<Failed> for WriteFault {
    fn from(_: Failed) -> WriteFault {
        WriteFault
    }
}

/// Writes the pieces of a text, one after the other, each in as many calls as the sink takes it in. It takes no memory, and
/// copies nothing.
///
/// At `Ok` all bytes were written, once and in order. `WriteFault` comes exactly where a write failed and the sink's count of
/// faults rose; then a front of them was written.
#[tactic(auto, unfolding(html_out::specs::Segment::joined), using(crate::proofs::Joining::one_more, site_io::proofs::Told::after_none))]
pub fn write_parts<O: Sink>(sink: &mut O, parts: &[Arc<Bytes>]) -> Result<(), WriteFault>
    ensures whole { OnOk result (O.written sink.new ≡ after (O.written sink.old) (joined parts.now)) }
    ensures front { OnErr result (AddsFront (O.written sink.old) (O.written sink.new) (joined parts.now)) }
    ensures cause { OnErr result (Rose (O.faults sink.old) (O.faults sink.new)) }
    ensures steady { OnOk result (O.faults sink.new ≡ O.faults sink.old) }
{
    for part in parts {
        write_whole(sink, part.as_slice())?;
    }
    Ok(())
}

/// Writes a head, and then the pieces of a body, as `write_parts` does.
#[tactic(auto, using(crate::proofs::Joining::one_more))]
pub fn write_page<O: Sink>(sink: &mut O, head: &[u8], body: &[Arc<Bytes>]) -> Result<(), WriteFault>
    ensures whole { OnOk result (O.written sink.new ≡ after (O.written sink.old) (head.now ++ joined body.now)) }
    ensures front { OnErr result (AddsFront (O.written sink.old) (O.written sink.new) (head.now ++ joined body.now)) }
    ensures cause { OnErr result (Rose (O.faults sink.old) (O.faults sink.new)) }
    ensures steady { OnOk result (O.faults sink.new ≡ O.faults sink.old) }
{
    write_whole(sink, head)?;
    write_parts(sink, body)
}

/// Writes a text that is one piece.
pub fn write_text<O: Sink>(sink: &mut O, text: &[u8]) -> Result<(), WriteFault>
    ensures whole { OnOk result (O.written sink.new ≡ after (O.written sink.old) text.now) }
    ensures front { OnErr result (AddsFront (O.written sink.old) (O.written sink.new) text.now) }
    ensures cause { OnErr result (Rose (O.faults sink.old) (O.faults sink.new)) }
    ensures steady { OnOk result (O.faults sink.new ≡ O.faults sink.old) }
{
    write_whole(sink, text)?;
    Ok(())
}

/// Writes a head, and then the pieces of a body, and hands on what the sink holds back, before anything more is made or read.
#[tactic(auto, using(crate::proofs::Joining::all_is_front))]
pub fn hand_on<O: Sink>(sink: &mut O, head: &[u8], body: &[Arc<Bytes>]) -> Result<(), WriteFault>
    ensures whole { OnOk result (O.written sink.new ≡ after (O.written sink.old) (head.now ++ joined body.now)) }
    ensures front { OnErr result (AddsFront (O.written sink.old) (O.written sink.new) (head.now ++ joined body.now)) }
    ensures cause { OnErr result (Rose (O.faults sink.old) (O.faults sink.new)) }
    ensures steady { OnOk result (O.faults sink.new ≡ O.faults sink.old) }
{
    write_page(sink, head, body)?;
    sink.flush()?;
    Ok(())
}
