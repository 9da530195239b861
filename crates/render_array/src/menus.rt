//! Menus: each builder writes what the plan of the same name shows.
ghost use Rattle.std.specs.Prelude.{◌≡◌, ◌≢◌, Some, drop, if◌then◌else◌};
ghost use Rattle.std.specs.List.{list_any};
ghost use Rattle.std.specs.Option.{option_copied};
ghost use Rattle.std.specs.Str.{bytes_eq};
ghost use Rattle.content_state.specs.Plan.{Done, folded};
ghost use Rattle.indexed_rows.specs.Rows.{menu_of};
ghost use Rattle.content_state.specs.There.{IsThere};
ghost use Rattle.site_lists.specs.MenuPlaces.{places_of};
ghost use Rattle.render_canvas.specs.Canvas.{Renders};
ghost use Rattle.render_array.specs.Pieces as pieces;
ghost use Rattle.render_array.specs.Menus.{
  may_follow_to,
  may_follow,
  may_follow_link,
  none_shown,
  with_place,
  with_shown,
  link_shown,
  link_at,
  lists_end,
  link_closed,
  depth_after,
  links_shown,
  menu_view,
  menu_shown,
};

use cacheability::Name;
use content_rows::{Link, Menu};
use content_state::{Library, Route};
use render_canvas::Canvas;
use site_lists::{MenuPlace, menu_tree};
use std::alloc::Global;
use std::marker::Model;

/// The places of the links that are shown, so far as they were found, and how deep a further link may stand: one level
/// deeper than the last that was shown, and no deeper than one that is hidden.
#[derive(Drop)]
struct ShownLinks {
    places: Vec<MenuPlace>,
    deepest: usize,
}

impl Model for ShownLinks {
    ghost use Rattle.render_array.specs.Menus.{Shown};

    ghost Value = { Shown };

    ghost view = { λ s. record { places = s.places.items; deepest = s.deepest } };
}

/// No links, before the first one at the top.
fn none_shown(alloc: Global) -> ShownLinks
    ensures { result ≡ none_shown }
{
    ShownLinks {
        places: Vec::new(alloc),
        deepest: 1,
    }
}

/// Whether the viewer may follow a link to where a path leads: something is there and may be viewed.
fn may_follow_to(canvas: &mut Canvas, to: &Route) -> bool
    requires { to.now ≢ Route.Nothing → IsThere canvas.old.visit.rows to.now }
    ensures { Renders (may_follow_to to.now) canvas.old result canvas.new }
{
    match to {
        Route::Nothing => false,
        _ => canvas.route_access(to).is_ok(),
    }
}

/// Whether the viewer may follow a link to a path.
fn may_follow(canvas: &mut Canvas, path: &[u8]) -> bool
    ensures { Renders (may_follow path.now) canvas.old result canvas.new }
{
    let to = canvas.route(path);
    may_follow_to(canvas, &to)
}

/// Whether there is a link and the viewer may follow it.
fn may_follow_link(canvas: &mut Canvas, link: Option<&Link>) -> bool
    ensures { Renders (may_follow_link (option_copied link.entry)) canvas.old result canvas.new }
{
    match link {
        Some(link) => may_follow(canvas, link.path.as_slice()),
        None => false,
    }
}

/// Adds a place to those that are shown, where the viewer may follow its link; else nothing below it is shown. Where
/// memory is wanting it is left out in vain.
fn add_place(canvas: &mut Canvas, found: &mut ShownLinks, place: MenuPlace, follows: bool)
    ensures { Renders (Done (with_place found.old place follows)) canvas.old found.new canvas.new }
{
    if !follows {
        found.deepest = place.depth as usize;
        return;
    }
    found.deepest = place.depth as usize + 1;
    if found.places.push(place).is_err() {
        canvas.fail();
    }
}

/// Adds a place to those that are shown, where its parent is shown and the viewer may follow its link.
fn add_if_shown(canvas: &mut Canvas, links: &[Link], found: &mut ShownLinks, place: MenuPlace)
    ensures { Renders (with_shown links.now found.old place) canvas.old found.new canvas.new }
{
    if place.depth as usize > found.deepest {
        return;
    }
    let follows = may_follow_link(canvas, links.get(place.link));
    add_place(canvas, found, place, follows);
}

/// Those of these places of links that are shown.
fn shown_among(canvas: &mut Canvas, links: &[Link], places: &[MenuPlace]) -> ShownLinks
    ensures { Renders (folded (with_shown links.now) none_shown places.now) canvas.old result canvas.new }
{
    let mut found = none_shown(canvas.allocator());
    for place in places {
        add_if_shown(canvas, links, &mut found, *place);
    }
    found
}

/// The places of a menu's links that are shown: the viewer may follow them, and their parents are shown. Where memory is
/// wanting, none.
fn shown_of(canvas: &mut Canvas, menu: &Menu) -> ShownLinks
    ensures { Renders (folded (with_shown menu.now.links) none_shown (places_of menu.now.links)) canvas.old result canvas.new }
{
    match menu_tree(canvas.allocator(), menu) {
        Ok(places) => shown_among(canvas, menu.links.as_slice(), places.as_slice()),
        Err(_) => {
            canvas.fail();
            none_shown(canvas.allocator())
        }
    }
}

/// The start of a link's item, marked where the link is in the active trail.
#[tactic(auto, unfolding(crate::specs::Pieces::active_item_start, crate::specs::Pieces::item_start))]
fn item_start(active: bool) -> &'static [u8]
    ensures { result.now ≡ (if active then pieces.active_item_start else pieces.item_start) }
{
    if active {
        b"<li class=\"active\">"
    } else {
        b"<li>"
    }
}

/// A link, which the next writes end.
fn link_shown(canvas: &mut Canvas, active: bool, link: &Link)
    ensures { Renders (link_shown active link.now) canvas.old tt canvas.new }
{
    canvas.write(item_start(active));
    canvas.write(b"<a href=\"");
    canvas.escaped(link.path.as_slice());
    canvas.write(b"\">");
    canvas.escaped(link.title.as_slice());
    canvas.write(b"</a>");
}

/// Whether a link of that id is in a trail.
fn is_active(trail: &[Name], id: &Name) -> bool
    ensures { result ≡ list_any (bytes_eq id.now) trail.now }
{
    trail.iter().any(|other| id.as_bytes() == other.as_bytes())
}

/// A link, if there is one.
fn link_at(canvas: &mut Canvas, trail: &[Name], link: Option<&Link>)
    ensures { Renders (link_at trail.now (option_copied link.entry)) canvas.old tt canvas.new }
{
    if let Some(link) = link {
        link_shown(canvas, is_active(trail, &link.id), link);
    }
}

/// The end of so many lists below links, and of those links.
fn lists_end(canvas: &mut Canvas, levels: u8)
    ensures { Renders (lists_end levels) canvas.old tt canvas.new }
{
    'levels: for _ in 0..levels {
        canvas.write(b"</ul></li>");
    }
}

/// What stands behind a link at a depth, before one at the next depth: the start of a list where that one stands below
/// it, else the ends of the link and of what it stood in.
fn link_closed(canvas: &mut Canvas, depth: u8, next: u8)
    ensures { Renders (link_closed depth next) canvas.old tt canvas.new }
{
    if depth < next {
        canvas.write(b"<ul>");
        return;
    }
    canvas.write(b"</li>");
    lists_end(canvas, depth - next);
}

/// The depth of the place at an index; behind the last one, that of the top.
fn depth_at(places: &[MenuPlace], at: usize) -> u8
    ensures { result ≡ depth_after (drop at places.now) }
{
    match places.get(at) {
        Some(place) => place.depth,
        None => 1,
    }
}

/// The links of these places, those below a link in a list behind it.
fn links_shown(canvas: &mut Canvas, trail: &[Name], links: &[Link], places: &[MenuPlace])
    ensures { Renders (links_shown trail.now links.now places.now) canvas.old tt canvas.new }
{
    'places: for (at, place) in places.iter().enumerate() {
        link_at(canvas, trail, links.get(place.link));
        link_closed(canvas, place.depth, depth_at(places, at + 1));
    }
}

/// A menu: its links that are shown, as a tree.
fn menu_view(canvas: &mut Canvas, name: Name, menu: &Menu)
    requires { menu_of canvas.old.visit.rows name ≡ Some menu.now }
    ensures { Renders (menu_view name menu.now) canvas.old tt canvas.new }
{
    canvas.attach(Library::Menu);
    let trail = canvas.trail(name, menu);
    let found = shown_of(canvas, menu);
    canvas.write(b"<nav><ul>");
    links_shown(
        canvas,
        trail.as_slice(),
        menu.links.as_slice(),
        found.places.as_slice(),
    );
    canvas.write(b"</ul></nav>");
}

/// A menu, where it is there; else nothing.
pub fn menu_shown(canvas: &mut Canvas, name: Name)
    ensures { Renders (menu_shown name) canvas.old tt canvas.new }
{
    if let Some(menu) = canvas.menu(name) {
        menu_view(canvas, name, menu);
    }
}
