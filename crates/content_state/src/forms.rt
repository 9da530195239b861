//! The fixed forms of paths.
ghost use Rattle.std.specs.Prelude.{◌≡◌, IfOk, Some, None};
ghost use Rattle.std.specs.Str.{bytes_eq};
ghost use Rattle.matchit.specs.Router.{RouteOf};
ghost use Rattle.matchit.specs.Rows.{RowsOf};
ghost use Rattle.content_state.specs.Entities.{id_after};
ghost use Rattle.content_state.specs.Forms.{form_rows, form_found, named_as, named_by, page_named_by, with_route, IsFormOf};
ghost use Rattle.content_state.specs.declared.forms.Form.{Form as FormValue};

use crate::entity::{Entity, entity_in, is_json};
use content_rows::id_of;
use matchit::{InsertError, Router};
use std::alloc::{AllocError, Global};
use std::fmt;
use std::marker::Model;

/// A fixed form of paths.
#[derive(Clone, Copy, Debug)]
pub enum Form {
    /// `/node/<n>`
    Node,
    /// `/taxonomy/term/<t>`
    Term,
    /// `/user/<u>`
    User,
    /// `/user/login`
    Login,
}

/// What a path names by its form.
#[derive(Clone, Copy, Debug)]
pub enum Named {
    /// The node of this number.
    Node(u32),
    /// The taxonomy term of this number.
    Term(u32),
    /// The user of this number.
    User(u32),
    /// As JSON what this names, if anything.
    Json(Option<Entity>),
    /// The login form.
    Login,
}

/// The router of the fixed forms.
pub struct Forms {
    router: Router<Form>,
}

impl Drop for Forms {
    fn drop(self) {
        let Forms { router: _ } = self;
    }
}

impl Model for Forms {
    ghost use Rattle.std.specs.Prelude.{◌≡◌};
    ghost use Rattle.matchit.specs.Router.{RouteOf};
    ghost use Rattle.matchit.specs.Rows.{RowsOf};
    ghost use Rattle.content_state.specs.declared.forms.Form.{Form};
    ghost use Rattle.content_state.specs.Forms.{form_rows};

    ghost Value = { RowsOf (RouteOf Form) };

    ghost view = { λ f. f.router };

    ghost invariant = { λ f. f.router ≡ form_rows };
}

impl fmt::Debug for Forms {
    fn fmt<W: fmt::Write>(&self, f: &mut fmt::Formatter<W>) -> fmt::Result {
        f.write_str("Forms")
    }
}

impl Forms {
    /// The router of the fixed forms. `Err` only where memory is wanting.
    pub fn new(alloc: Global) -> Result<Forms, AllocError>
        ensures { IfOk result (λ forms. forms ≡ form_rows) }
    {
        match router_of_forms(alloc) {
            Ok(router) => Ok(Forms { router }),
            Err(_) => Err(AllocError),
        }
    }

    /// What a path names by its form, if it has one of the fixed forms, and a number where its form has one.
    pub fn named_by(&self, path: &[u8]) -> Option<Named>
        ensures { result ≡ named_by path.now }
    {
        if is_json(path) {
            Some(Named::Json(entity_in(path)))
        } else {
            self.page_named_by(path)
        }
    }

    /// What a path that is none of JSON names by its form, if it has one of the fixed forms.
    #[tactic(auto, using(crate::proofs::Named::named_as_found))]
    fn page_named_by(&self, path: &[u8]) -> Option<Named>
        ensures { result ≡ page_named_by path.now }
    {
        match self.form_of(path) {
            Some(form) => named_as(form, path),
            None => None,
        }
    }

    /// The form of a path: a path that names something by a form has that one. Of another path it may be any but the login
    /// form's.
    #[tactic(auto, using(crate::proofs::Named::is_found, crate::proofs::Named::no_text))]
    fn form_of(&self, path: &[u8]) -> Option<Form>
        ensures { IsFormOf path.now result }
    {
        match str::from_utf8(path) {
            Ok(text) => self.find(text),
            Err(_) => None,
        }
    }

    /// The form that the router finds for a path.
    fn find(&self, path: &str) -> Option<Form>
        ensures { result ≡ form_found path.now }
    {
        match self.router.at(path) {
            Ok(found) => Some(*found.value),
            Err(_) => None,
        }
    }
}

/// What is read of a path by a form.
#[tactic(auto, unfolding(crate::specs::Route::node_front, crate::specs::Route::term_front, crate::specs::Route::user_front))]
fn named_as(form: Form, path: &[u8]) -> Option<Named>
    ensures { result ≡ named_as (Some form) path.now }
{
    match form {
        Form::Node => Some(Named::Node(id_after(b"/node/", path)?)),
        Form::Term => Some(Named::Term(id_after(b"/taxonomy/term/", path)?)),
        Form::User => Some(Named::User(id_after(b"/user/", path)?)),
        Form::Login => Some(Named::Login),
    }
}

/// The router of a route for each form.
fn router_of_forms(alloc: Global) -> Result<Router<Form>, InsertError>
    ensures { IfOk result (λ router. router ≡ form_rows) }
{
    let router = Ok(Router::new(alloc));
    let router = with_form(router, "/node/{n}", Form::Node);
    let router = with_form(router, "/taxonomy/term/{t}", Form::Term);
    let router = with_form(router, "/user/{u}", Form::User);
    with_form(router, "/user/login", Form::Login)
}

/// A router with a route more. `Err` where a route was refused before, too.
#[tactic(auto, using(crate::proofs::Placed::placed_where_taken))]
fn with_form(
    router: Result<Router<Form>, InsertError>,
    route: &str,
    form: Form,
) -> Result<Router<Form>, InsertError>
    ensures { (rows : RowsOf (RouteOf FormValue)) → IfOk router (λ r. r ≡ rows) → IfOk result (λ r. r ≡ with_route route.now form rows) }
{
    let mut router = router?;
    router.insert(route, form)?;
    Ok(router)
}

/// The id that follows a front.
pub(crate) fn id_after(front: &[u8], path: &[u8]) -> Option<u32>
    ensures { result ≡ id_after front.now path.now }
{
    if path.starts_with(front) {
        id_of(&path[front.len()..])
    } else {
        None
    }
}
