//! Which elements stand in which places.
ghost use Rattle.std.specs.Prelude.{◌≡◌, ◌<◌, IfSome};
ghost use Rattle.render_array.specs.Whole.{depth_level, mode_level, fragment_level, level as level_of, element_level as level_of_element};
ghost use Rattle.renderer.specs.Filled.{element_at as element_in, child_below};

use content_state::{Depth, Fragment, Hole, Mode};
use render_array::Element;

/// How high an embedded node may stand in others.
fn depth_level(depth: Depth) -> u8
    ensures { result ≡ depth_level depth }
{
    match depth {
        Depth::One => 3,
        Depth::Two => 2,
        Depth::Three => 1,
    }
}

/// How high a node in a mode may stand in other elements.
fn mode_level(mode: Mode) -> u8
    ensures { result ≡ mode_level mode }
{
    match mode {
        Mode::Full => 4,
        Mode::Teaser => 1,
        Mode::Embed(depth) => depth_level(depth),
    }
}

/// How high a fragment may stand in other elements.
fn fragment_level(fragment: Fragment) -> u8
    ensures { result ≡ fragment_level fragment }
{
    match fragment {
        Fragment::Block(_) => 3,
        Fragment::Menu(_) => 1,
        Fragment::Listing(_, _) => 2,
        Fragment::TermListing(_) => 2,
        Fragment::Node(_, mode) => mode_level(mode),
    }
}

/// How high what stands in a place may stand in other elements.
fn level(hole: &Hole) -> u8
    ensures { result ≡ level_of hole.now }
{
    match hole {
        Hole::Meta => 0,
        Hole::Fragment(fragment) => fragment_level(*fragment),
    }
}

/// How high an element may stand in other elements.
pub fn element_level(element: Element) -> u8
    ensures { result ≡ level_of_element element }
{
    match element {
        Element::Page => 5,
        Element::Fragment(fragment) => fragment_level(fragment),
    }
}

/// The element that stands in a place, where one does.
fn element_at(hole: &Hole) -> Option<Element>
    ensures { result ≡ element_in hole.now }
{
    match hole {
        Hole::Meta => None,
        Hole::Fragment(fragment) => Some(Element::Fragment(*fragment)),
    }
}

/// The element that stands in a place of an element of a level, where that of the place is lower.
pub fn child_at(hole: &Hole, below: u8) -> Option<Element>
    ensures child { result ≡ child_below below hole.now }
    ensures lower { IfSome result (λ e. level_of_element e < below) }
{
    if level(hole) < below {
        element_at(hole)
    } else {
        None
    }
}
