//! The text of a page up to its end.
ghost use Rattle.std.specs.Prelude.{◌≡◌, ◌++◌, ◌≤◌, ℕ, List, IfOk, OnOk, length, take};
ghost use Rattle.std.specs.Arc.{arc_value};
ghost use Rattle.late_out.specs.Marks.{body_end as page_end};
ghost use Rattle.late_pages.specs.Late.{EndsPage};

use html_out::Bytes;
use late_out::body_end;
use renderer::Parts;
use std::alloc::{AllocError, Global};
use std::sync::Arc;

/// The text of a page up to its end, in the pieces of the whole: none is copied but the one that the end begins in. `Err` only where
/// memory is wanting.
pub fn without_end(alloc: Global, text: &Parts) -> Result<Parts, AllocError>
    requires { EndsPage text.now }
    ensures { IfOk result (λ front. text.now ≡ front ++ page_end) }
{
    let mut left = text.len() - body_end().len() as u128;
    let pieces = text.as_slice();
    let mut front = Parts::with_capacity(alloc, pieces.len())?;
    for piece in pieces {
        left = add_front(alloc, &mut front, piece, left)?;
    }
    Ok(front)
}

/// Appends a piece, but at most `left` bytes of it, and tells how many bytes are still wanted then.
fn add_front(
    alloc: Global,
    front: &mut Parts,
    piece: &Arc<Bytes>,
    left: u128,
) -> Result<u128, AllocError>
    ensures { IfOk result (λ after. (rest : List ℕ) → front.new ++ take after rest ≡ front.old ++ take left (arc_value piece.now ++ rest)) }
{
    let length = piece.len() as u128;
    if length <= left {
        front.push(Arc::try_clone(piece)?)?;
        return Ok(left - length);
    }
    add_copy(alloc, front, piece, left as usize)?;
    Ok(0)
}

/// Appends a copy of the first `count` bytes of a piece.
fn add_copy(
    alloc: Global,
    front: &mut Parts,
    piece: &Arc<Bytes>,
    count: usize,
) -> Result<(), AllocError>
    requires { count ≤ length (arc_value piece.now) }
    ensures { OnOk result (front.new ≡ front.old ++ take count (arc_value piece.now)) }
{
    if count == 0 {
        return Ok(());
    }
    let bytes = Vec::from_slice(alloc, &piece.as_slice()[..count])?;
    front.push(Arc::new(alloc, Bytes::new(bytes))?)
}
