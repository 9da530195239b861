//! The values of contexts.
ghost use Rattle.std.specs.Prelude.{◌≡◌, ℕ, IfOk, codes, map};
ghost use Rattle.content_state.specs.Context.{is_front, trail_in, value as value_on};
ghost use Rattle.content_state.specs.Route.{front_path};
ghost use Rattle.indexed_rows.specs.Rows.{menu_of};
ghost use Rattle.content_state.specs.Viewer.{roles_of};
ghost use Rattle.site_lists.specs.Paging.{value_in};
ghost use Rattle.site_access.specs.Account.{IsAccountOf};
ghost use Rattle.cache_contexts.specs.Values.{visit_on, valued, as_any};

use crate::context_value::{AnyValue, ContextValue};
use cacheability::{Context, Name};
use content_rows::{Duplicate, Items, Text};
use content_state::{Ask, State, Viewer};
use site_access::Account;
use site_lists::{active_trail, query_value};
use std::alloc::{AllocError, Global};
use user_roles::role_names;

/// The value of a context on a state, for the viewer of an account there and what is asked for. Nothing in it depends on the
/// moment, and what the viewer is permitted and granted is shared with the account. `Err` only where memory is wanting.
/// <https://www.drupal.org/docs/drupal-apis/cache-api/cache-contexts>
pub fn value(
    alloc: Global,
    state: &State,
    account: &Account,
    ask: &Ask,
    context: Context,
) -> Result<ContextValue, AllocError>
    requires { IsAccountOf state.now.rows account.now.viewer account.now }
    ensures { IfOk result (λ found. (moment : ℕ) → found ≡ valued (visit_on state.now account.now.viewer ask.now moment) context) }
{
    Ok(ContextValue {
        context,
        value: any_value(alloc, state, account, ask, context)?,
    })
}

/// The values of contexts, in their order. `Err` only where memory is wanting.
pub fn values(
    alloc: Global,
    state: &State,
    account: &Account,
    ask: &Ask,
    contexts: &[Context],
) -> Result<Items<ContextValue>, AllocError>
    requires { IsAccountOf state.now.rows account.now.viewer account.now }
    ensures { IfOk result (λ found. (moment : ℕ) → found ≡ map (valued (visit_on state.now account.now.viewer ask.now moment)) contexts.now) }
{
    let mut found = Vec::with_capacity(alloc, contexts.len())?;
    'contexts: for &context in contexts {
        found.push(value(alloc, state, account, ask, context)?)?;
    }
    Ok(Items::from_vec(found))
}

/// The value of a context, without the context.
fn any_value(
    alloc: Global,
    state: &State,
    account: &Account,
    ask: &Ask,
    context: Context,
) -> Result<AnyValue, AllocError>
    requires { IsAccountOf state.now.rows account.now.viewer account.now }
    ensures { IfOk result (λ found. found ≡ as_any context (value_on (visit_on state.now account.now.viewer ask.now 0) context)) }
{
    let viewer = &account.viewer;
    Ok(match context {
        Context::Language => AnyValue::Name(language()),
        Context::Theme => AnyValue::Name(theme()),
        Context::User => AnyValue::User(viewer.uid),
        Context::UserRoles => AnyValue::Names(roles(alloc, state, viewer)?),
        Context::UserPermissions => AnyValue::Permissions(account.permissions.share()?),
        Context::NodeGrantsView => AnyValue::Grants(account.grants.share()?),
        Context::Url => AnyValue::Text(ask.target.duplicate(alloc)?),
        Context::UrlPath => AnyValue::Text(ask.path.duplicate(alloc)?),
        Context::IsFront => AnyValue::Flag(is_front(state, ask.path.as_slice())),
        Context::QueryArgs => AnyValue::Text(ask.query.duplicate(alloc)?),
        Context::QueryArg(name) => AnyValue::Argument(argument(alloc, ask, name)?),
        Context::Session => AnyValue::Session(viewer.session),
        Context::SessionExists => AnyValue::Flag(viewer.session.is_some()),
        Context::MenuTrail(name) => AnyValue::Names(trail(alloc, state, ask, name)?),
    })
}

/// The language of every page.
fn language() -> Name
    ensures { result ≡ codes "en" }
{
    match Name::new(b"en") {
        Ok(name) => name,
        Err(_) => unreachable!(),
    }
}

/// The theme of every page.
fn theme() -> Name
    ensures { result ≡ codes "site" }
{
    match Name::new(b"site") {
        Ok(name) => name,
        Err(_) => unreachable!(),
    }
}

/// The names of a viewer's roles.
fn roles(alloc: Global, state: &State, viewer: &Viewer) -> Result<Items<Name>, AllocError>
    ensures { IfOk result (λ names. names ≡ roles_of state.now.rows viewer.now) }
{
    let (user, _) = state.user(viewer.uid);
    role_names(alloc, viewer.uid, user)
}

/// Whether a path is that of the front page: `/`, or the path that the settings name.
#[tactic(auto, unfolding(content_state::specs::Route::root_path))]
fn is_front(state: &State, path: &[u8]) -> bool
    ensures { result ≡ is_front state.now.rows path.now }
{
    path == b"/".as_slice() || path == front_path(state)
}

/// The path of the front page by the settings; none where there are no settings.
fn front_path(state: &State) -> &[u8]
    ensures { result.now ≡ front_path state.now.rows }
{
    match state.site() {
        (Some(site), _) => site.front.as_slice(),
        (None, _) => &[],
    }
}

/// The first value of an argument of the query, if there is one.
fn argument(alloc: Global, ask: &Ask, name: Name) -> Result<Option<Text>, AllocError>
    ensures { IfOk result (λ found. found ≡ value_in ask.now.query name) }
{
    match query_value(alloc, ask.query.as_slice(), name.as_bytes())? {
        Some(bytes) => Ok(Some(Text::from_vec(bytes))),
        None => Ok(None),
    }
}

/// The ids of a menu's active trail; none where there is no such menu.
fn trail(alloc: Global, state: &State, ask: &Ask, name: Name) -> Result<Items<Name>, AllocError>
    ensures { IfOk result (λ ids. ids ≡ trail_in state.now.rows ask.now.path (menu_of state.now.rows name)) }
{
    match state.menu(name) {
        (Some(menu), _) => Ok(Items::from_vec(active_trail(alloc, state, menu, ask)?)),
        (None, _) => Ok(Items::none(alloc)),
    }
}
