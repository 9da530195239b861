//! Listings: each builder writes what the plan of the same name shows.
ghost use Rattle.std.specs.Prelude.{◌≡◌, ◌≤◌, ◌<◌, ◌&&◌, length};
ghost use Rattle.content_state.specs.Plan.{each};
ghost use Rattle.site_lists.specs.ListingPlan.{listing_rows};
ghost use Rattle.render_canvas.specs.Canvas.{Renders};
ghost use Rattle.render_array.specs.Nodes.{may_view_node};
ghost use Rattle.render_array.specs.Listings.{
  page_number,
  listed_node,
  listed_nodes,
  nodes_or_none,
  previous_link,
  next_link,
  pager_shown,
  pager,
  pager_in,
  page_of_nodes,
  listing_view,
  listing_shown,
  term_listing_shown,
};

use cacheability::Name;
use content_rows::Listing;
use content_state::{Fragment, Hole, Library, Mode, Placing};
use render_canvas::Canvas;
use site_lists::{Page, page_at, term_listing};

/// The page that is asked for of a listing on its page; one in a block is at its first.
fn page_number(canvas: &mut Canvas, placing: Placing) -> usize
    ensures { Renders (page_number placing) canvas.old result canvas.new }
{
    match placing {
        Placing::OnPage => canvas.asked_page(),
        Placing::InBlock => 0,
    }
}

/// The place of a node of a listing.
fn listed_node(canvas: &mut Canvas, n: u32)
    ensures { Renders (listed_node n) canvas.old tt canvas.new }
{
    canvas.open(Hole::Fragment(Fragment::Node(n, Mode::Teaser)));
}

/// The places of the nodes of a page.
fn listed_nodes(canvas: &mut Canvas, ids: &[u32])
    ensures { Renders (listed_nodes ids.now) canvas.old tt canvas.new }
{
    canvas.write(b"<div class=\"view\">");
    for n in ids {
        listed_node(canvas, *n);
    }
    canvas.write(b"</div>");
}

/// The places of the nodes of a page; where there is no node, a line that says that there is no content.
fn nodes_or_none(canvas: &mut Canvas, ids: &[u32])
    ensures { Renders (nodes_or_none ids.now) canvas.old tt canvas.new }
{
    if ids.is_empty() {
        canvas.write(b"<p>No content.</p>");
    } else {
        listed_nodes(canvas, ids);
    }
}

/// The link to the page before one; nothing on the first.
fn previous_link(canvas: &mut Canvas, page: &Page)
    ensures { Renders (previous_link page.now) canvas.old tt canvas.new }
{
    if !page.is_first {
        canvas.write(b"<a href=\"?page=");
        canvas.number(page.number.saturating_sub(1) as u64);
        canvas.write(b"\">Previous</a>");
    }
}

/// The link to the page after one; nothing on the last.
fn next_link(canvas: &mut Canvas, page: &Page)
    requires { page.now.number < usize.MAX }
    ensures { Renders (next_link page.now) canvas.old tt canvas.new }
{
    if !page.is_last {
        canvas.write(b"<a href=\"?page=");
        canvas.number((page.number + 1) as u64);
        canvas.write(b"\">Next</a>");
    }
}

/// The links to the pages before and after one.
fn pager_shown(canvas: &mut Canvas, page: &Page)
    requires { page.now.number < usize.MAX }
    ensures { Renders (pager_shown page.now) canvas.old tt canvas.new }
{
    canvas.attach(Library::Pager);
    canvas.write(b"<nav class=\"pager\">");
    previous_link(canvas, page);
    next_link(canvas, page);
    canvas.write(b"</nav>");
}

/// Whether a page is the only one.
fn is_only(page: &Page) -> bool
    ensures { result ≡ (page.now.is_first && page.now.is_last) }
{
    page.is_first && page.is_last
}

/// The links to the pages before and after one; nothing where it is the only page.
fn pager(canvas: &mut Canvas, page: &Page)
    requires { page.now.number < usize.MAX }
    ensures { Renders (pager page.now) canvas.old tt canvas.new }
{
    if !is_only(page) {
        pager_shown(canvas, page);
    }
}

/// The links to the pages before and after one, where a listing stands on its page; nothing in a block.
fn pager_in(canvas: &mut Canvas, placing: Placing, page: &Page)
    requires { page.now.number < usize.MAX }
    ensures { Renders (pager_in placing page.now) canvas.old tt canvas.new }
{
    match placing {
        Placing::OnPage => pager(canvas, page),
        Placing::InBlock => {}
    }
}

/// One page of the nodes that a listing has, and where it stands among the others.
fn page_of_nodes(canvas: &mut Canvas, placing: Placing, ids: &[u32], page: &Page)
    requires within { (page.now.start ≤ page.now.end) × (page.now.end ≤ length ids.now) }
    requires numbered { page.now.number < usize.MAX }
    ensures { Renders (page_of_nodes placing ids.now page.now) canvas.old tt canvas.new }
{
    nodes_or_none(canvas, &ids[page.start..page.end]);
    pager_in(canvas, placing, page);
}

/// The nodes that a listing shows the viewer on all its pages.
pub(crate) fn listing_rows(canvas: &mut Canvas, listing: &Listing) -> Vec<u32>
    ensures { Renders (listing_rows may_view_node listing.now) canvas.old result.items canvas.new }
{
    let moment = canvas.moment_within(listing.age);
    let ids = canvas.candidates(listing, moment);
    canvas.viewable(ids.as_slice())
}

/// A listing: the nodes that the viewer may view, ten a page.
fn listing_view(canvas: &mut Canvas, placing: Placing, listing: &Listing)
    ensures { Renders (listing_view placing listing.now) canvas.old tt canvas.new }
{
    canvas.by_viewer();
    let rows = listing_rows(canvas, listing);
    let ids = rows.as_slice();
    let asked = page_number(canvas, placing);
    let page = page_at(ids.len(), asked);
    page_of_nodes(canvas, placing, ids, &page);
}

/// The listing of that name, where it is there; else nothing.
pub(crate) fn listing_shown(canvas: &mut Canvas, name: Name, placing: Placing)
    ensures { Renders (listing_shown name placing) canvas.old tt canvas.new }
{
    if let Some(listing) = canvas.listing(name) {
        listing_view(canvas, placing, listing);
    }
}

/// The nodes of a term, on its page.
pub(crate) fn term_listing_shown(canvas: &mut Canvas, t: u32)
    ensures { Renders (term_listing_shown t) canvas.old tt canvas.new }
{
    let listing = term_listing(canvas.allocator(), t);
    listing_view(canvas, Placing::OnPage, &listing);
}
