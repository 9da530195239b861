//! The active trail of a menu.
ghost use Rattle.std.specs.Prelude.{◌≡◌, ◌||◌, not, None, Some, option_map, IfOk, IfSome, if◌then◌else◌};
ghost use Rattle.std.specs.List.{find, list_all, list_any};
ghost use Rattle.std.specs.Option.{option_copied};
ghost use Rattle.std.specs.Str.{bytes_eq};
ghost use Rattle.content_state.specs.Route.{root_path};
ghost use Rattle.content_state.specs.Context.{parent_of as parent_in, preorder, trail_in, upward as upward_from};
ghost use Rattle.content_state.specs.Route.{front_path as front_in_rows};
ghost use Rattle.site_lists.specs.MenuPlaces.{first_to, id_at, leads_to, reaches, trail_to};

use crate::front::{front_path, is_root};
use crate::tree::{MenuPlace, tree_of};
use cacheability::Name;
use content_rows::{Link, Menu};
use content_state::{Ask, State};
use std::alloc::{AllocError, Global};

/// How many links may stand above one that a menu shows.
const HEIGHTS: u8 = 8;

/// The ids of a menu's active trail: the first link in preorder that leads to the path that is
/// asked for, `/` standing for the front page's, and the links above it, the lowest first. `Err`
/// only where memory is wanting.
/// <https://api.drupal.org/api/drupal/core!lib!Drupal!Core!Menu!MenuActiveTrail.php/class/MenuActiveTrail/10>
pub fn active_trail(
    alloc: Global,
    state: &State,
    menu: &Menu,
    ask: &Ask,
) -> Result<Vec<Name>, AllocError>
    ensures { IfOk result (λ ids. ids.items ≡ trail_in state.now.rows ask.now.path (Some menu.now)) }
{
    trail_to(alloc, menu.links.as_slice(), target(state, ask))
}

/// The ids of the first of these links in preorder that leads to a path, and of those above it.
fn trail_to(alloc: Global, links: &[Link], path: &[u8]) -> Result<Vec<Name>, AllocError>
    ensures { IfOk result (λ ids. ids.items ≡ trail_to links.now path.now) }
{
    // mostly none does, and then the order of the tree, which is dear, isn't asked
    if !has_link_to(links, path) {
        return Ok(Vec::new(alloc));
    }
    match only_first(links, path) {
        Some(id) => upward(alloc, links, Some(id)),
        None => trail_by_tree(alloc, links, path),
    }
}

/// The ids of the first of these links in preorder that leads to a path, and of those above it. The whole tree is put in order
/// for that, whichever links lead to the path.
fn trail_by_tree(alloc: Global, links: &[Link], path: &[u8]) -> Result<Vec<Name>, AllocError>
    ensures { IfOk result (λ ids. ids.items ≡ trail_to links.now path.now) }
{
    let places = tree_of(alloc, links)?;
    upward(alloc, links, first_to(links, &places, path))
}

/// The id of the first of these links in preorder that leads to a path, where one link alone does and the links above it are
/// there: then the order of the tree isn't asked.
fn only_first(links: &[Link], path: &[u8]) -> Option<Name>
    ensures { IfSome result (λ id. option_map (λ l. l.id) (find (λ l. bytes_eq l.path path.now) (preorder 9 links.now None)) ≡ Some id) }
{
    match link_to(links, path) {
        Some(link) => {
            if all_have_id(links, path, &link.id) && reaches_top(links, link.parent, HEIGHTS) {
                Some(link.id)
            } else {
                None
            }
        }
        None => None,
    }
}

/// The first of these links, in their given order, that leads to a path.
fn link_to<'a>(links: &'a [Link], path: &[u8]) -> Option<&'a Link>
    ensures { option_copied result ≡ find (λ l. bytes_eq l.path path.now) links.now }
{
    links.iter().find(|link| link.path.as_slice() == path)
}

/// Whether all of these links that lead to a path have this id.
fn all_have_id(links: &[Link], path: &[u8], id: &Name) -> bool
    ensures { result ≡ list_all (λ l. not (bytes_eq l.path path.now) || bytes_eq l.id id.now) links.now }
{
    links.iter().all(|link| link.path.as_slice() != path || link.id.as_bytes() == id.as_bytes())
}

/// Whether one comes from a parent to the top, by the parents of the links, within so many links.
fn reaches_top(links: &[Link], parent: Option<Name>, heights: u8) -> bool
    ensures { result ≡ reaches heights links.now parent }
{
    let Some(id) = parent else {
        return true;
    };
    if heights == 0 {
        return false;
    }
    match link_of(links, &id) {
        Some(link) => reaches_top(links, link.parent, heights - 1),
        None => false,
    }
}

/// Whether one of these links leads to a path.
fn has_link_to(links: &[Link], path: &[u8]) -> bool
    ensures { result ≡ list_any (λ l. bytes_eq l.path path.now) links.now }
{
    links.iter().any(|link| link.path.as_slice() == path)
}

/// The path that a link of the trail leads to.
fn target<'a>(state: &'a State, ask: &'a Ask) -> &'a [u8]
    ensures { result.now ≡ (if bytes_eq ask.now.path root_path then front_in_rows state.now.rows else ask.now.path) }
{
    if is_root(ask.path.as_slice()) {
        front_path(state)
    } else {
        ask.path.as_slice()
    }
}

/// The id of the first of these places whose link leads to a path.
fn first_to(links: &[Link], places: &[MenuPlace], path: &[u8]) -> Option<Name>
    ensures { result ≡ first_to links.now path.now places.now }
{
    match place_to(links, places, path) {
        Some(place) => id_at(links, place.link),
        None => None,
    }
}

/// The first of these places whose link leads to a path.
fn place_to<'a>(links: &[Link], places: &'a [MenuPlace], path: &[u8]) -> Option<&'a MenuPlace>
    ensures { option_copied result ≡ find (λ p. leads_to links.now path.now p.link) places.now }
{
    places
        .iter()
        .find(|place| leads_to(links, path, place.link))
}

/// Whether there is a link at a place and it leads to a path.
fn leads_to(links: &[Link], path: &[u8], at: usize) -> bool
    ensures { result ≡ leads_to links.now path.now at }
{
    match links.get(at) {
        Some(link) => link.path.as_slice() == path,
        None => false,
    }
}

/// The id of the link at a place, if there is one.
fn id_at(links: &[Link], at: usize) -> Option<Name>
    ensures { result ≡ id_at links.now at }
{
    match links.get(at) {
        Some(link) => Some(link.id),
        None => None,
    }
}

/// A link and those above it, at most nine.
fn upward(alloc: Global, links: &[Link], from: Option<Name>) -> Result<Vec<Name>, AllocError>
    ensures { IfOk result (λ ids. ids.items ≡ upward_from 9 links.now from) }
{
    let mut ids = Vec::new(alloc);
    let mut next = from;
    'heights: for _ in 0..9_u8 {
        let Some(id) = next else {
            break;
        };
        ids.push(id)?;
        next = parent_of(links, id);
    }
    Ok(ids)
}

/// The parent of the link of an id.
fn parent_of(links: &[Link], id: Name) -> Option<Name>
    ensures { result ≡ parent_in (find (λ l. bytes_eq l.id id) links.now) }
{
    match link_of(links, &id) {
        Some(link) => link.parent,
        None => None,
    }
}

/// The link of an id.
fn link_of<'a>(links: &'a [Link], id: &Name) -> Option<&'a Link>
    ensures { option_copied result ≡ find (λ l. bytes_eq l.id id.now) links.now }
{
    links
        .iter()
        .find(|link| link.id.as_bytes() == id.as_bytes())
}
