//! What paths of JSON name.
ghost use Rattle.std.specs.Prelude.{◌≡◌};
ghost use Rattle.content_state.specs.Entities.{entity_in, entity_tag, is_json, name_after};

use crate::forms::id_after;
use cacheability::{Name, Tag};
use content_rows::name_of;

/// What is told of as JSON: a node, a taxonomy term, a user or a listing.
#[derive(Clone, Copy, Debug)]
pub enum Entity {
    /// The node of this number.
    Node(u32),
    /// The taxonomy term of this number.
    Term(u32),
    /// The user of this number.
    User(u32),
    /// The listing of this name.
    Listing(Name),
}

impl Entity {
    /// The tag of its row.
    pub(crate) fn tag(&self) -> Tag
        ensures { result ≡ entity_tag self.now }
    {
        match *self {
            Entity::Node(nid) => Tag::Node(nid),
            Entity::Term(tid) => Tag::Term(tid),
            Entity::User(uid) => Tag::User(uid),
            Entity::Listing(name) => Tag::Listing(name),
        }
    }
}

/// Whether a path, decoded, is answered as JSON: one below `/json/`.
#[tactic(auto, unfolding(crate::specs::Entities::json_front))]
pub fn is_json(path: &[u8]) -> bool
    ensures { result ≡ is_json path.now }
{
    path.starts_with(b"/json/")
}

/// What a path names by the form of a path of JSON: `/json/node/<n>`, `/json/term/<t>`, `/json/user/<u>`, with
/// a number in decimal without a leading zero, or `/json/listing/<name>` with a machine name.
#[tactic(auto, unfolding(crate::specs::Entities::json_node_front, crate::specs::Entities::json_term_front, crate::specs::Entities::json_user_front, crate::specs::Entities::json_listing_front))]
pub(crate) fn entity_in(path: &[u8]) -> Option<Entity>
    ensures { result ≡ entity_in path.now }
{
    if let Some(nid) = id_after(b"/json/node/", path) {
        return Some(Entity::Node(nid));
    }
    if let Some(tid) = id_after(b"/json/term/", path) {
        return Some(Entity::Term(tid));
    }
    if let Some(uid) = id_after(b"/json/user/", path) {
        return Some(Entity::User(uid));
    }
    Some(Entity::Listing(name_after(b"/json/listing/", path)?))
}

/// The machine name that follows a front.
fn name_after(front: &[u8], path: &[u8]) -> Option<Name>
    ensures { result ≡ name_after front.now path.now }
{
    if path.starts_with(front) {
        name_of(&path[front.len()..])
    } else {
        None
    }
}
