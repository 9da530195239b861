//! Where a path leads.
ghost use Rattle.std.specs.Prelude.{◌≡◌, ◌≢◌, ◌++◌, ◌&&◌, Some, IfOk, OnOk, if◌then◌else◌};
ghost use Rattle.std.specs.Option.{option_copied};
ghost use Rattle.std.specs.Str.{bytes_eq};
ghost use Rattle.content_state.specs.Entities.{entity_tags, is_entity_there, is_json};
ghost use Rattle.content_state.specs.Forms.{led_by, named_tags, tags_by};
ghost use Rattle.content_state.specs.Route.{
  meant,
  json_route,
  root_path,
  node_route,
  term_route,
  user_route,
  listing_route,
  cell_route,
  cell_with,
  route_of,
  path_tags,
};
ghost use Rattle.content_state.specs.There.{IsThere};

use crate::entity::{Entity, is_json};
use crate::forms::Named;
use crate::state::State;
use cacheability::{Name, Tag};
use content_rows::{Cell, Items};
use indexed_rows::Unique;
use std::alloc::{AllocError, Global};

/// What a path leads to.
#[derive(Clone, Copy, Debug)]
pub enum Route {
    /// A node's page.
    Node(u32),
    /// A taxonomy term's page.
    Term(u32),
    /// A user's profile.
    User(u32),
    /// A listing's page.
    Listing(Name),
    /// What is told of this as JSON.
    Json(Entity),
    /// The login form.
    Login,
    /// Nothing: the page is not found.
    Nothing,
}

/// Where a path leads on a state, with the tags that cover that reading. `/` stands for the front
/// path of the settings, and every other path for itself. The tags are those of the row that is found,
/// else `4xx-response` and the tag of the row that the path meant names by its number; for `/` the
/// settings' besides. `Err` only where memory is wanting.
/// <https://api.drupal.org/api/drupal/core%21lib%21Drupal%21Core%21PathProcessor%21PathProcessorFront.php/class/PathProcessorFront/10>
#[tactic(auto, unfolding(crate::specs::Route::route_of, crate::specs::Route::path_tags, crate::specs::Route::root_path))]
pub fn route_of(
    alloc: Global,
    state: &State,
    path: &[u8],
) -> Result<(Route, Items<Tag>), AllocError>
    ensures leads { IfOk result (λ r. (r.0 ≡ route_of state.now.rows path.now) × (r.1 ≡ path_tags state.now.rows path.now)) }
    ensures there { IfOk result (λ r. r.0 ≢ Route.Nothing → IsThere state.now.rows r.0) }
{
    let meant = meant(state, path);
    let named = state.named_by(meant);
    let route = led_from(state, path, meant, &named);
    let mut tags = tags_by(alloc, &route, &named)?;
    if path == b"/".as_slice() {
        tags.push(Tag::Site)?;
    }
    Ok((route, Items::from_vec(tags)))
}

/// The path that a path stands for.
#[tactic(auto, unfolding(crate::specs::Route::root_path))]
fn meant<'a>(state: &'a State, path: &'a [u8]) -> &'a [u8]
    ensures { result.now ≡ meant state.now.rows path.now }
{
    if path != b"/".as_slice() {
        return path;
    }
    match state.site().0 {
        Some(site) => site.front.as_slice(),
        None => &[],
    }
}

/// Where a path leads that stands for this one: `/` leads nowhere where the front path is one of JSON.
#[tactic(auto, unfolding(crate::specs::Route::root_path))]
fn led_from(state: &State, path: &[u8], meant: &[u8], named: &Option<Named>) -> Route
    ensures { result ≡ (if bytes_eq path.now root_path && is_json meant.now then Route.Nothing else led_by state.now.rows meant.now named.now) }
{
    if path == b"/".as_slice() && is_json(meant) {
        return Route::Nothing;
    }
    led_by(state, meant, named)
}

/// Where a path leads that is meant as it stands and names this: to what it names, else to what has that path.
fn led_by(state: &State, path: &[u8], named: &Option<Named>) -> Route
    ensures { result ≡ led_by state.now.rows path.now named.now }
{
    match named {
        Some(Named::Node(nid)) => node_route(state, *nid),
        Some(Named::Term(tid)) => term_route(state, *tid),
        Some(Named::User(uid)) => user_route(state, *uid),
        Some(Named::Json(it)) => json_route(state, it),
        Some(Named::Login) => Route::Login,
        None => cell_route(state, cell_with(state, path)),
    }
}

/// The page of the node of that number, where it is there.
fn node_route(state: &State, nid: u32) -> Route
    ensures { result ≡ node_route state.now.rows nid }
{
    match state.node(nid) {
        (Some(_), _) => Route::Node(nid),
        (None, _) => Route::Nothing,
    }
}

/// The page of the term of that number, where it is there.
fn term_route(state: &State, tid: u32) -> Route
    ensures { result ≡ term_route state.now.rows tid }
{
    match state.term(tid) {
        (Some(_), _) => Route::Term(tid),
        (None, _) => Route::Nothing,
    }
}

/// The profile of the user of that number, where it is there.
fn user_route(state: &State, uid: u32) -> Route
    ensures { result ≡ user_route state.now.rows uid }
{
    match state.user(uid) {
        (Some(_), _) => Route::User(uid),
        (None, _) => Route::Nothing,
    }
}

/// The page of the listing of that name, where it is there.
fn listing_route(state: &State, name: Name) -> Route
    ensures { result ≡ listing_route state.now.rows name }
{
    match state.listing(name) {
        (Some(_), _) => Route::Listing(name),
        (None, _) => Route::Nothing,
    }
}

/// What is told as JSON of what a path names, where it is there.
fn json_route(state: &State, named: &Option<Entity>) -> Route
    ensures { result ≡ json_route state.now.rows named.now }
{
    match named {
        Some(entity) if is_there(state, entity) => Route::Json(*entity),
        _ => Route::Nothing,
    }
}

/// Whether the row is there of what is told of as JSON.
fn is_there(state: &State, entity: &Entity) -> bool
    ensures { result ≡ is_entity_there state.now.rows entity.now }
{
    match *entity {
        Entity::Node(nid) => state.node(nid).0.is_some(),
        Entity::Term(tid) => state.term(tid).0.is_some(),
        Entity::User(uid) => state.user(uid).0.is_some(),
        Entity::Listing(name) => state.listing(name).0.is_some(),
    }
}

/// The page of a cell's row: nodes and listings alone have paths of their own.
fn cell_route(state: &State, cell: Option<&Cell>) -> Route
    ensures { result ≡ cell_route state.now.rows (option_copied cell.entry) }
{
    match cell {
        Some(Cell::Node(nid)) => node_route(state, *nid),
        Some(Cell::Listing(name)) => listing_route(state, *name),
        _ => Route::Nothing,
    }
}

/// The first cell whose row has this path.
fn cell_with<'a>(state: &'a State, path: &[u8]) -> Option<&'a Cell>
    ensures { option_copied result ≡ cell_with state.now.rows path.now }
{
    match state.rows_with(Unique::Path, path).next() {
        Some((cell, _)) => Some(cell),
        None => None,
    }
}

/// The tags of where a path leads that names this.
fn tags_by(alloc: Global, route: &Route, named: &Option<Named>) -> Result<Vec<Tag>, AllocError>
    ensures { IfOk result (λ tags. tags.items ≡ tags_by route.now named.now) }
{
    match route {
        Route::Node(nid) => Vec::from_slice(alloc, &[Tag::Node(*nid)]),
        Route::Term(tid) => Vec::from_slice(alloc, &[Tag::Term(*tid)]),
        Route::User(uid) => Vec::from_slice(alloc, &[Tag::User(*uid)]),
        Route::Listing(name) => Vec::from_slice(alloc, &[Tag::Listing(*name)]),
        Route::Json(entity) => Vec::from_slice(alloc, &[entity.tag()]),
        Route::Login => Ok(Vec::new(alloc)),
        Route::Nothing => nothing_tags(alloc, named),
    }
}

/// The tags of a path that leads nowhere: `4xx-response`, and that of the row that it names by its
/// number.
fn nothing_tags(alloc: Global, named: &Option<Named>) -> Result<Vec<Tag>, AllocError>
    ensures { IfOk result (λ tags. tags.items ≡ tags_by Route.Nothing named.now) }
{
    let mut tags = Vec::with_capacity(alloc, 3)?;
    tags.push(Tag::NotFound)?;
    match named {
        Some(Named::Node(nid)) => tags.push(Tag::Node(*nid))?,
        Some(Named::Term(tid)) => tags.push(Tag::Term(*tid))?,
        Some(Named::User(uid)) => tags.push(Tag::User(*uid))?,
        Some(Named::Json(Some(entity))) => push_number(&mut tags, entity)?,
        Some(Named::Json(None)) | Some(Named::Login) | None => {}
    }
    Ok(tags)
}

/// The tag of what is told of as JSON and has a number: a listing has none.
fn push_number(tags: &mut Vec<Tag>, entity: &Entity) -> Result<(), AllocError>
    ensures { OnOk result (tags.new.items ≡ tags.old.items ++ entity_tags (Some entity.now)) }
{
    match entity {
        Entity::Listing(_) => {}
        _ => tags.push(entity.tag())?,
    }
    Ok(())
}
