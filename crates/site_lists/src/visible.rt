//! Where and for whom a block shows.
ghost use Rattle.std.specs.Prelude.{◌≡◌};
ghost use Rattle.std.specs.List.{list_any};
ghost use Rattle.std.specs.Str.{bytes_eq};
ghost use Rattle.content_rows.specs.Permission.{anonymous, authenticated, roles_of_user};
ghost use Rattle.indexed_rows.specs.Rows.{user_of};
ghost use Rattle.content_state.specs.Viewer.{roles_of};
ghost use Rattle.site_lists.specs.Visible.{is_visible, is_for, is_met, has_role, is_on, is_place, front_word};

use crate::front::is_front;
use crate::names::is_among;
use cacheability::Name;
use content_rows::{Block, Text};
use content_state::{Ask, State, Viewer};

/// Whether a block shows for a viewer on what is asked for: its roles are none or one of them is
/// the viewer's, and its paths are none or contain the path that is asked for, or `<front>` on the
/// front page; where it hides on its paths, if they don't. It depends on the contexts `user.roles`
/// where it has roles, `url.path` where it has paths, and `url.path.is_front` where `<front>` is
/// among them.
/// <https://www.drupal.org/docs/user_guide/en/block-concept.html>
pub fn block_visible(state: &State, viewer: &Viewer, ask: &Ask, block: &Block) -> bool
    ensures { result ≡ is_visible state.now.rows viewer.now ask.now block.now }
{
    let path = ask.path.as_slice();
    is_for(state, viewer, block.roles.as_slice())
        && is_on(
            block.hide,
            block.paths.as_slice(),
            path,
            is_front(state, path),
        )
}

/// Whether a block of these roles shows for a viewer.
fn is_for(state: &State, viewer: &Viewer, roles: &[Name]) -> bool
    ensures { result ≡ is_for roles.now (roles_of state.now.rows viewer.now) }
{
    match roles {
        [] => true,
        [_, ..] => is_met(state, viewer, roles),
    }
}

/// Whether one of a block's roles is a viewer's.
fn is_met(state: &State, viewer: &Viewer, roles: &[Name]) -> bool
    ensures { result ≡ is_met roles.now (roles_of state.now.rows viewer.now) }
{
    has_one(viewer.uid, own_roles(state, viewer.uid), roles)
}

/// The roles of a user's row, if there is one.
fn own_roles(state: &State, uid: u32) -> &[Name]
    ensures { result.now ≡ roles_of_user (user_of state.now.rows uid) }
{
    match state.user(uid) {
        (Some(user), _) => user.roles.as_slice(),
        (None, _) => &[],
    }
}

/// Whether a user whose row has these roles has one of a block's.
fn has_one(uid: u32, own: &[Name], roles: &[Name]) -> bool
    ensures { result ≡ list_any (has_role uid own.now) roles.now }
{
    roles.iter().any(|role| has_role(uid, own, role))
}

/// Whether a user whose row has these roles has a role: `anonymous` alone is nobody's, `authenticated`
/// every other user's.
fn has_role(uid: u32, own: &[Name], role: &Name) -> bool
    ensures { result ≡ has_role uid own.now role.now }
{
    if uid == 0 {
        is_anonymous(role)
    } else {
        is_authenticated(role) || is_among(own, role)
    }
}

#[tactic(auto, unfolding(content_rows::specs::Permission::anonymous))]
fn is_anonymous(role: &Name) -> bool
    ensures { result ≡ bytes_eq role.now anonymous }
{
    role.as_bytes() == b"anonymous".as_slice()
}

#[tactic(auto, unfolding(content_rows::specs::Permission::authenticated))]
fn is_authenticated(role: &Name) -> bool
    ensures { result ≡ bytes_eq role.now authenticated }
{
    role.as_bytes() == b"authenticated".as_slice()
}

/// Whether a block of these paths, shown or hidden on them, shows on a path.
fn is_on(hide: bool, places: &[Text], path: &[u8], front: bool) -> bool
    ensures { result ≡ is_on hide places.now path.now front }
{
    match places {
        [] => true,
        [_, ..] => is_any_place(places, path, front) != hide,
    }
}

fn is_any_place(places: &[Text], path: &[u8], front: bool) -> bool
    ensures { result ≡ list_any (is_place path.now front) places.now }
{
    places
        .iter()
        .any(|place| is_place(place.as_slice(), path, front))
}

/// Whether a block's path is this one, or stands for the front and this is the front.
fn is_place(place: &[u8], path: &[u8], front: bool) -> bool
    ensures { result ≡ is_place path.now front place.now }
{
    place == path || (is_front_word(place) && front)
}

#[tactic(auto, unfolding(crate::specs::Visible::front_word))]
fn is_front_word(place: &[u8]) -> bool
    ensures { result ≡ bytes_eq place.now front_word }
{
    place == b"<front>".as_slice()
}
