//! Shared bytes in one piece.
ghost use Rattle.std.specs.Prelude.{◌≡◌, IfOk};
ghost use Rattle.html_out.specs.Segment.{joined};

use crate::shared::Bytes;
use std::alloc::{AllocError, Global};
use std::sync::Arc;

/// The bytes of all pieces, one after the other.
///
/// `AllocError` comes only for want of memory.
#[tactic(auto, unfolding(crate::specs::Segment::joined))]
pub fn flatten(alloc: Global, pieces: &[Arc<Bytes>]) -> Result<Vec<u8>, AllocError>
    ensures { IfOk result (λ all. all.items ≡ joined pieces.now) }
{
    let mut all = Vec::new(alloc);
    for piece in pieces {
        all.extend_from_slice(piece.as_slice())?;
    }
    Ok(all)
}
