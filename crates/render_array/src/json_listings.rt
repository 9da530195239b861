//! Listings as JSON: the nodes of a page are gathered, and told with its number.
ghost use Rattle.std.specs.Prelude.{◌≡◌, ◌≤◌, ◌++◌, ◌∷◌, [], length, map};
ghost use Rattle.content_state.specs.Plan.{Done, folded};
ghost use Rattle.json_out.specs.Told.{shown_node};
ghost use Rattle.render_canvas.specs.Canvas.{Renders};
ghost use Rattle.render_array.specs.Json.{
  with_listed,
  json_listing_page,
  json_listing_view,
  json_listing,
};

use crate::json::{json_denied, json_not_found, told};
use crate::listings::listing_rows;
use crate::pages::listing_access;
use cacheability::Name;
use content_rows::{Listing, Node};
use json_out::listing_json;
use render_canvas::Canvas;
use site_lists::{Page, last_page, page_at};

/// One more node with its number among those that were gathered.
fn gather_node<'a>(canvas: &mut Canvas, found: &mut Vec<(u32, &'a Node)>, n: u32, node: &'a Node)
    ensures { Renders (Done (map shown_node found.old.items ++ (n, node.now) ∷ [])) canvas.old (map shown_node found.new.items) canvas.new }
{
    if found.push((n, node)).is_err() {
        canvas.fail();
    }
}

/// One more node, where it is there.
fn with_listed<'a>(canvas: &mut Canvas<'a>, found: &mut Vec<(u32, &'a Node)>, n: u32)
    ensures { Renders (with_listed (map shown_node found.old.items) n) canvas.old (map shown_node found.new.items) canvas.new }
{
    if let Some(node) = canvas.node(n) {
        gather_node(canvas, found, n, node);
    }
}

/// Those of the nodes that are there.
fn listed_nodes<'a>(canvas: &mut Canvas<'a>, ids: &[u32]) -> Vec<(u32, &'a Node)>
    ensures { Renders (folded with_listed [] ids.now) canvas.old (map shown_node result.items) canvas.new }
{
    let mut found = Vec::new(canvas.allocator());
    for n in ids {
        with_listed(canvas, &mut found, *n);
    }
    found
}

/// One page of the nodes that a listing has, and its status.
fn json_listing_page(canvas: &mut Canvas, ids: &[u32], page: &Page) -> u16
    requires { (page.now.start ≤ page.now.end) × (page.now.end ≤ length ids.now) }
    ensures { Renders (json_listing_page ids.now page.now) canvas.old result canvas.new }
{
    let nodes = listed_nodes(canvas, &ids[page.start..page.end]);
    let text = listing_json(
        canvas.allocator(),
        nodes.as_slice(),
        page.number,
        last_page(ids.len()) + 1,
    );
    told(canvas, 200, text)
}

/// A listing that may be viewed: the nodes that the viewer may view, ten a page; and its status.
fn json_listing_view(canvas: &mut Canvas, listing: &Listing) -> u16
    ensures { Renders (json_listing_view listing.now) canvas.old result canvas.new }
{
    canvas.by_viewer();
    let rows = listing_rows(canvas, listing);
    let ids = rows.as_slice();
    let asked = canvas.asked_page();
    let page = page_at(ids.len(), asked);
    json_listing_page(canvas, ids, &page)
}

/// A listing, and its status.
pub(crate) fn json_listing(canvas: &mut Canvas, name: Name) -> u16
    ensures { Renders (json_listing name) canvas.old result canvas.new }
{
    let Some(listing) = canvas.listing(name) else {
        return json_not_found(canvas);
    };
    match listing_access(canvas) {
        Ok(()) => json_listing_view(canvas, listing),
        Err(reason) => json_denied(canvas, &reason),
    }
}
