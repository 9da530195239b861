//! Text in few pieces, as it is kept of a whole page: one that is found is then written in few pieces too.
ghost use Rattle.std.specs.Prelude.{◌≡◌, ◌++◌, ◌∷◌, ◌≤◌, ◌<◌, [], List, IfOk, OnOk};
ghost use Rattle.html_out.specs.Part.{Part, text_length};
ghost use Rattle.html_out.specs.Segment.{part_of};
ghost use Rattle.content_state.specs.declared.element.Hole.{Hole as Open};
ghost use Rattle.render_canvas.specs.Board.{pieces_of};
ghost use Rattle.kept_pages.specs.Compact.{AreApart, ShowsSame, compacted, text_part};

use crate::joining::push_hole;
use content_state::Hole;
use element_entries::Joined;
use html_out::{Bytes, Segment, Segments};
use std::alloc::{AllocError, Global};
use std::sync::Arc;

/// The longest text, in bytes, that is copied to be kept in few pieces. The pieces of a longer one are large as it is, so that
/// little is gained, and a copy of it would double what is kept of the page.
const MOST_COPIED: u128 = 65_536;

/// Puts the text of what is to be kept in few pieces, one between two open places, where it has at most `MOST_COPIED` bytes.
/// The pieces that it had aren't changed. `Err` only where memory is wanting; then it stays as it is.
pub fn compact(alloc: Global, joined: &mut Joined) -> Result<(), AllocError>
    ensures same { ShowsSame joined.old joined.new }
    ensures apart { OnOk result (text_length joined.old.segments ≤ 65536 → AreApart joined.new.segments) }
    ensures long { 65536 < text_length joined.old.segments → joined.new ≡ joined.old }
{
    if joined.segments.len() <= MOST_COPIED {
        joined.segments = in_few_pieces(alloc, &joined.segments)?;
    }
    Ok(())
}

/// A copy of segments that shows what they show, with all text between two open places in one piece. `Err` only where memory is
/// wanting.
fn in_few_pieces(alloc: Global, segments: &Segments<Hole>) -> Result<Segments<Hole>, AllocError>
    ensures shows { IfOk result (λ s. pieces_of s ≡ pieces_of segments.now) }
    ensures apart { IfOk result (λ s. AreApart s) }
{
    let room = usize::try_from(segments.len()).unwrap_or(usize::MAX);
    let mut text = Vec::with_capacity(alloc, room)?;
    let mut few = Segments::new(alloc);
    for part in segments.parts() {
        take_part(alloc, &mut few, &mut text, part)?;
    }
    end_text(alloc, &mut few, &mut text)?;
    Ok(few)
}

/// A part behind the text that was begun: a text goes on with it, and an open place ends that one.
fn take_part(
    alloc: Global,
    few: &mut Segments<Hole>,
    text: &mut Vec<u8>,
    part: &Segment<Hole>,
) -> Result<(), AllocError>
    ensures { OnOk result ((rest : List (Part Open)) → few.new ++ compacted text.new.items rest ≡ few.old ++ compacted text.old.items (part_of part.now ∷ rest)) }
{
    match part {
        Segment::Bytes(bytes) => text.extend_from_slice(bytes.as_slice()),
        Segment::Hole(hole) => {
            end_text(alloc, few, text)?;
            push_hole(few, hole)
        }
    }
}

/// Appends the text that was begun as one piece, in no more memory than it needs, and begins the next one.
fn end_text(alloc: Global, few: &mut Segments<Hole>, text: &mut Vec<u8>) -> Result<(), AllocError>
    ensures ended { OnOk result (few.new ≡ few.old ++ text_part text.old.items) }
    ensures begun { OnOk result (text.new.items ≡ []) }
{
    if text.is_empty() {
        return Ok(());
    }
    let mut piece = Vec::with_capacity(alloc, text.len())?;
    piece.extend_from_slice(text.as_slice())?;
    few.push(Arc::new(alloc, Bytes::new(piece))?)?;
    text.clear();
    Ok(())
}
