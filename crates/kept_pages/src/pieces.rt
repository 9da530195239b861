//! The text of a page, in the pieces that it is kept in.
ghost use Rattle.std.specs.Prelude.{◌≡◌, IfOk};
ghost use Rattle.html_out.specs.Segment.{parts_of};
ghost use Rattle.render_array.specs.Shown.{meta_text};
ghost use Rattle.renderer.specs.Filled.{text_of};
ghost use Rattle.kept_pages.specs.Wholes.{parts_in, libraries_in, status_in, last_in};

use cache_entries::Entry;
use content_state::{Hole, Library};
use element_entries::Joined;
use html_out::{Bytes, Segment};
use renderer::{Parts, meta_text, shared_text};
use std::alloc::{AllocError, Global};
use std::sync::Arc;

/// A whole page: one that was found, or one that was put together.
#[derive(Clone, Copy)]
pub enum Pieces<'a> {
    Kept(&'a Entry),
    Own(&'a Joined),
}

impl<'a> Pieces<'a> {
    /// The parts that the page shows: pieces of text, and places that are open.
    pub fn parts(self) -> &'a [Segment<Hole>]
        ensures { parts_of result.now ≡ parts_in self.entry }
    {
        match self {
            Pieces::Kept(entry) => entry.segments.parts(),
            Pieces::Own(joined) => joined.segments.parts(),
        }
    }

    /// The libraries that the page attaches.
    pub fn libraries(self) -> &'a [Library]
        ensures { result.now ≡ libraries_in self.entry }
    {
        match self {
            Pieces::Kept(entry) => entry.libraries.as_slice(),
            Pieces::Own(joined) => joined.libraries.as_slice(),
        }
    }

    /// The status of the page.
    pub fn status(self) -> Option<u16>
        ensures { result ≡ status_in self.entry }
    {
        match self {
            Pieces::Kept(entry) => entry.status,
            Pieces::Own(joined) => joined.status,
        }
    }

    /// The last moment at which the page may be shown.
    pub fn last(self) -> u64
        ensures { result ≡ last_in self.entry }
    {
        match self {
            Pieces::Kept(entry) => entry.last,
            Pieces::Own(joined) => joined.last,
        }
    }

    /// Its text, in the pieces that it is kept in, with the lines of its libraries at their place. `Err` only where memory is
    /// wanting.
    pub fn text(self, alloc: Global) -> Result<Parts, AllocError>
        ensures { IfOk result (λ text. text ≡ text_of (meta_text (libraries_in self.entry)) (parts_in self.entry)) }
    {
        let lines = meta_text(alloc, self.libraries())?;
        let meta = Arc::new(alloc, Bytes::new(lines))?;
        shared_text(alloc, self.parts(), &meta)
    }
}
