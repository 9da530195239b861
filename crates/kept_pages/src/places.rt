//! What stands in the places of elements.
ghost use Rattle.std.specs.Prelude.{◌≡◌, ◌<◌, IfOk, IfSome, None};
ghost use Rattle.content_state.specs.declared.element.Hole.TheVariants as hole_is;
ghost use Rattle.render_array.specs.Whole.{fragment_level};
ghost use Rattle.element_entries.specs.Keys.{visit};
ghost use Rattle.kept_pages.specs.Joins.{StaysOpen, AsksLazy};

use content_state::{Fragment, Hole};
use element_entries::{Joined, Reader};
use page_meaning::is_lazy;
use render_array::Element;
use renderer::element_level;
use std::alloc::AllocError;

/// The fragment that stands in a place of an element of a level, where its own level is lower.
pub fn fragment_at(hole: &Hole, below: u8) -> Option<Fragment>
    ensures there { IfSome result (λ f. hole.now ≡ hole_is.Fragment f) }
    ensures lower { IfSome result (λ f. fragment_level f < below) }
    ensures stays { result ≡ None → StaysOpen below hole.now }
{
    match hole {
        Hole::Meta => None,
        Hole::Fragment(fragment) => {
            if element_level(Element::Fragment(*fragment)) < below {
                Some(*fragment)
            } else {
                None
            }
        }
    }
}

/// Whether a fragment is lazy; what this depends on is told.
pub fn is_left_open(
    reader: &Reader<'_>,
    fragment: &Fragment,
    joined: &mut Joined,
) -> Result<bool, AllocError>
    ensures { IfOk result (λ lazy. AsksLazy (visit reader.now) fragment.now joined.old lazy joined.new) }
{
    match fragment {
        Fragment::Block(name) => is_lazy(reader.state(), *name, &mut joined.cacheability),
        Fragment::Menu(_) => Ok(false),
        Fragment::Listing(_, _) => Ok(false),
        Fragment::TermListing(_) => Ok(false),
        Fragment::Node(_, _) => Ok(false),
    }
}
