//! Texts in shared pieces.
ghost use Rattle.std.specs.Prelude.{◌≡◌, ◌++◌, [], IfOk, OnOk, OnErr, length};
ghost use Rattle.std.specs.Arc.{arc_value};
ghost use Rattle.html_out.specs.Segment.{joined, part_of, parts_of};
ghost use Rattle.renderer.specs.Filled.{text_in, text_of};

use content_state::Hole;
use html_out::{Bytes, Segment};
use std::alloc::{AllocError, Global};
use std::marker::Model;
use std::sync::Arc;

/// A text in pieces, which are shared: none is copied. Contracts see it as the list of its bytes.
pub struct Parts {
    pieces: Vec<Arc<Bytes>>,
}

impl Drop for Parts {
    fn drop(self) {
        let Parts { pieces: _ } = self;
    }
}

impl Model for Parts {
    ghost use Rattle.std.specs.Prelude.{ℕ, List};
    ghost use Rattle.html_out.specs.Segment.{joined};

    ghost Value = { List ℕ };

    ghost view = { λ p. joined p.pieces.items };
}

impl Parts {
    /// No piece yet, and room for so many. `Err` only where memory is wanting.
    #[tactic(auto, unfolding(html_out::specs::Segment::joined))]
    pub fn with_capacity(alloc: Global, room: usize) -> Result<Parts, AllocError>
        ensures { IfOk result (λ p. p ≡ []) }
    {
        Ok(Parts {
            pieces: Vec::with_capacity(alloc, room)?,
        })
    }

    /// A piece behind those that are there. `Err` only where memory is wanting; then nothing is added.
    #[tactic(auto, unfolding(html_out::specs::Segment::joined), using(crate::proofs::Pieces::one_behind))]
    pub fn push(&mut self, piece: Arc<Bytes>) -> Result<(), AllocError>
        ensures ok { OnOk result (self.new ≡ self.old ++ arc_value piece) }
        ensures err { OnErr result (self.new ≡ self.old) }
    {
        self.pieces.reserve(1)?;
        match self.pieces.push(piece) {
            Ok(()) => Ok(()),
            Err(_) => unreachable!(),
        }
    }

    /// The pieces, in order.
    pub fn as_slice(&self) -> &[Arc<Bytes>]
        ensures { joined result.now ≡ self.now }
    {
        self.pieces.as_slice()
    }

    /// How many bytes all pieces have.
    #[tactic(auto, unfolding(html_out::specs::Segment::joined))]
    pub fn len(&self) -> u128
        ensures { result ≡ length self.now }
    {
        let mut total = 0;
        for piece in self.pieces.as_slice() {
            total += piece.len() as u128;
        }
        total
    }
}

/// The text of parts, with these bytes at the place of the libraries, in the pieces that the parts are: none is copied, and none
/// joined with another. Where no other place is open it is what the parts show. `Err` only where memory is wanting.
pub fn shared_text(
    alloc: Global,
    parts: &[Segment<Hole>],
    meta: &Arc<Bytes>,
) -> Result<Parts, AllocError>
    ensures { IfOk result (λ text. text ≡ text_of (arc_value meta.now) (parts_of parts.now)) }
{
    let mut text = Parts::with_capacity(alloc, parts.len())?;
    for part in parts {
        share_part(&mut text, part, meta)?;
    }
    Ok(text)
}

/// What stands in the place of a part behind what is there.
fn share_part(text: &mut Parts, part: &Segment<Hole>, meta: &Arc<Bytes>) -> Result<(), AllocError>
    ensures { OnOk result (text.new ≡ text.old ++ text_in (arc_value meta.now) (part_of part.now)) }
{
    match part {
        Segment::Bytes(bytes) => text.push(Arc::try_clone(bytes)?),
        Segment::Hole(Hole::Meta) => text.push(Arc::try_clone(meta)?),
        Segment::Hole(Hole::Fragment(_)) => Ok(()),
    }
}
