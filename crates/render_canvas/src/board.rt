//! What is shown, under way: bytes, and places that are left open.
ghost use Rattle.std.specs.Prelude.{◌≡◌, ◌++◌, ◌∷◌, [], IfOk, OnOk};
ghost use Rattle.html_out.specs.Escape.{escaped};
ghost use Rattle.html_out.specs.Part.{Hole as Opening};
ghost use Rattle.content_state.specs.Plan.{bytes, Place};
ghost use Rattle.render_canvas.specs.Board.{pieces_of};

use content_state::Hole;
use html_out::{Bytes, Segments, escape};
use std::alloc::{AllocError, Global};
use std::marker::Model;
use std::mem;
use std::sync::Arc;

/// What is shown, under way, which contracts see as the list of its pieces: finished segments, and the bytes behind
/// them.
pub struct Board {
    alloc: Global,
    segments: Segments<Hole>,
    text: Vec<u8>,
}

impl Drop for Board {
    fn drop(self) {
        let Board {
            alloc: _,
            segments: _,
            text: _,
        } = self;
    }
}

impl Model for Board {
    ghost use Rattle.std.specs.Prelude.{List, ◌++◌};
    ghost use Rattle.content_state.specs.Plan.{Piece, bytes};
    ghost use Rattle.render_canvas.specs.Board.{pieces_of};

    ghost Value = { List Piece };

    ghost view = { λ b. pieces_of b.segments ++ bytes b.text.items };
}

impl Board {
    /// Nothing.
    pub fn new(alloc: Global) -> Board
        ensures { result ≡ [] }
    {
        Board {
            alloc,
            segments: Segments::new(alloc),
            text: Vec::new(alloc),
        }
    }

    /// These bytes behind what is there. Refused, it may have lost some.
    pub fn write(&mut self, text: &[u8]) -> Result<(), AllocError>
        ensures { OnOk result (self.new ≡ self.old ++ bytes text.now) }
    {
        self.make_room()?;
        self.text.extend_from_slice(text)?;
        Ok(())
    }

    /// The escaped bytes of a text behind what is there. Refused, it may have lost some.
    pub fn escaped(&mut self, text: &[u8]) -> Result<(), AllocError>
        ensures { OnOk result (self.new ≡ self.old ++ bytes (escaped text.now)) }
    {
        self.make_room()?;
        escape(&mut self.text, text)?;
        Ok(())
    }

    /// Room for the bytes of a short piece, where there is none yet: a list that grows from nothing asks for memory at each
    /// doubling. `Err` only where memory is wanting.
    fn make_room(&mut self) -> Result<(), AllocError>
        ensures { self.new ≡ self.old }
    {
        if self.text.capacity() == 0 {
            self.text.reserve(128)?;
        }
        Ok(())
    }

    /// An open place behind what is there. Refused, it may have lost some.
    pub fn open(&mut self, hole: &Hole) -> Result<(), AllocError>
        ensures { OnOk result (self.new ≡ self.old ++ Place hole.now ∷ []) }
    {
        let text = mem::replace(&mut self.text, Vec::new(self.alloc));
        let shared = Arc::new(self.alloc, Bytes::new(text))?;
        self.segments.push(shared)?;
        push_hole(&mut self.segments, hole)?;
        Ok(())
    }

    /// What was shown, in segments.
    pub fn finish(self) -> Result<Segments<Hole>, AllocError>
        ensures { IfOk result (λ segments. pieces_of segments ≡ self) }
    {
        let Board {
            alloc,
            mut segments,
            text,
        } = self;
        let shared = Arc::new(alloc, Bytes::new(text))?;
        segments.push(shared)?;
        Ok(segments)
    }
}

/// A hole behind the segments. For want of memory nothing is added.
fn push_hole<T: Copy + Drop>(segments: &mut Segments<T>, hole: &T) -> Result<(), AllocError>
    ensures { OnOk result (segments.new ≡ segments.old ++ Opening hole.now ∷ []) }
{
    segments.push_hole(*hole)?;
    Ok(())
}
