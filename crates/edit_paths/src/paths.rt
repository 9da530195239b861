//! The paths of edits.
ghost use Rattle.std.specs.Prelude.{◌≡◌, [], if◌then◌else◌, OnOk, codes};
ghost use Rattle.std.specs.List.{list_any};
ghost use Rattle.std.specs.Option.{option_map};
ghost use Rattle.content_rows.specs.IdText.{id_of};
ghost use Rattle.content_rows.specs.LiteralName.{name_of};
ghost use Rattle.content_rows.specs.Kinds.{is_slash};
ghost use Rattle.edit_paths.specs.declared.paths.Subject.TheVariants as subject;
ghost use Rattle.edit_paths.specs.Paired.{is_segment, segment_after, segment_between, fixed, posts, patches, deletes, first_edit, forms_of, paired};
ghost use Rattle.edit_paths.specs.Routes.{post_rows, patch_rows, delete_rows, with_config, with_route, about_of, config_front, post_of, patch_of, delete_of};

use crate::edit::Edit;
use cacheability::Name;
use content_rows::{id_of, name_of};
use matchit::Router;
use site_commands::ConfigKind;
use std::alloc::{AllocError, Global};
use std::marker::Model;

/// What a path is about.
#[derive(Clone, Copy)]
enum Subject {
    /// Nodes: all of them, or one by its id.
    Node,
    /// Taxonomy terms: all of them, or one by its id.
    Term,
    /// Users: all of them, or one by its id.
    User,
    /// A row of configuration by its name.
    Config(ConfigKind),
    /// The settings of the site.
    Site,
    /// Logging in.
    Login,
    /// Logging out.
    Logout,
    /// What is kept of pages.
    Cache,
    /// Comments: those on a node, or one by its id.
    Comment,
}

/// The paths of edits, by method. It is made once for many requests. There is only one such value, so contracts see nothing
/// of it.
pub struct EditPaths {
    posts: Router<Subject>,
    patches: Router<Subject>,
    deletes: Router<Subject>,
}

impl Drop for EditPaths {
    fn drop(self) {
        let EditPaths {
            posts: _,
            patches: _,
            deletes: _,
        } = self;
    }
}

impl Model for EditPaths {
    ghost use Rattle.std.specs.Prelude.{◌≡◌};
    ghost use Rattle.edit_paths.specs.Routes.{post_rows, patch_rows, delete_rows};

    ghost Value = { Unit {0} };

    ghost view = { λ p. tt };

    ghost invariant = { λ p. (p.posts ≡ post_rows) × (p.patches ≡ patch_rows) × (p.deletes ≡ delete_rows) };
}

impl EditPaths {
    /// The paths of edits. `Err` only where memory is wanting.
    pub fn new(alloc: Global) -> Result<EditPaths, AllocError> {
        let mut posts = Router::new(alloc);
        let mut patches = Router::new(alloc);
        let mut deletes = Router::new(alloc);
        add_all(&mut posts, &mut patches, &mut deletes)?;
        Ok(EditPaths {
            posts,
            patches,
            deletes,
        })
    }

    /// The edit that a method and a path name. No other method or path pairs with an edit, nor does a path that is no
    /// UTF-8. It takes no memory.
    #[tactic(auto, using(crate::proofs::Texts::text_paired, crate::proofs::Texts::no_text_paired))]
    pub fn paired(&self, method: &[u8], path: &[u8]) -> Option<Edit>
        ensures { result ≡ paired method.now path.now }
    {
        match str::from_utf8(path) {
            Ok(text) => self.edit_of(method, text),
            Err(_) => None,
        }
    }

    /// The edit that a method and a text name.
    fn edit_of(&self, method: &[u8], path: &str) -> Option<Edit>
        ensures { result ≡ first_edit (forms_of method.now) path.now }
    {
        if method == b"POST".as_slice() {
            post_edit(&self.posts, path)
        } else if method == b"PATCH".as_slice() {
            patch_edit(&self.patches, path)
        } else if method == b"DELETE".as_slice() {
            delete_edit(&self.deletes, path)
        } else {
            None
        }
    }
}

/// What a router says that a path is about.
fn about_of(router: &Router<Subject>, path: &str) -> Option<Subject>
    ensures { result ≡ about_of router.now path.now }
{
    match router.at(path) {
        Ok(found) => Some(*found.value),
        Err(_) => None,
    }
}

/// The edit of a POST.
fn post_edit(router: &Router<Subject>, path: &str) -> Option<Edit>
    requires { router.now ≡ post_rows }
    ensures { result ≡ first_edit posts path.now }
{
    post_of(about_of(router, path)?, path.as_bytes())
}

/// The edit of a PATCH.
fn patch_edit(router: &Router<Subject>, path: &str) -> Option<Edit>
    requires { router.now ≡ patch_rows }
    ensures { result ≡ first_edit patches path.now }
{
    patch_of(about_of(router, path)?, path.as_bytes())
}

/// The edit of a DELETE.
fn delete_edit(router: &Router<Subject>, path: &str) -> Option<Edit>
    requires { router.now ≡ delete_rows }
    ensures { result ≡ first_edit deletes path.now }
{
    delete_of(about_of(router, path)?, path.as_bytes())
}

/// The edit of a POST of a path about this.
fn post_of(about: Subject, path: &[u8]) -> Option<Edit>
    ensures { result ≡ post_of about path.now }
{
    match about {
        Subject::Node => fixed(b"/node", Edit::CreateNode, path),
        Subject::Term => fixed(b"/taxonomy/term", Edit::CreateTerm, path),
        Subject::User => fixed(b"/user", Edit::CreateUser, path),
        Subject::Config(kind) => Some(Edit::Set(kind, name_in(config_front(kind), path)?)),
        Subject::Site => fixed(b"/config/site", Edit::SetSite, path),
        Subject::Login => fixed(b"/user/login", Edit::Login, path),
        Subject::Logout => fixed(b"/user/logout", Edit::Logout, path),
        Subject::Cache => fixed(b"/cache/rebuild", Edit::Rebuild, path),
        Subject::Comment => Some(Edit::CreateComment(id_between(b"/node/", b"/comment", path)?)),
    }
}

/// The edit of a PATCH of a path about this.
fn patch_of(about: Subject, path: &[u8]) -> Option<Edit>
    ensures { result ≡ patch_of about path.now }
{
    match about {
        Subject::Node => Some(Edit::ChangeNode(id_in(b"/node/", path)?)),
        Subject::Term => Some(Edit::ChangeTerm(id_in(b"/taxonomy/term/", path)?)),
        Subject::User => Some(Edit::ChangeUser(id_in(b"/user/", path)?)),
        Subject::Comment => Some(Edit::ChangeComment(id_in(b"/comment/", path)?)),
        _ => None,
    }
}

/// The edit of a DELETE of a path about this.
fn delete_of(about: Subject, path: &[u8]) -> Option<Edit>
    ensures { result ≡ delete_of about path.now }
{
    match about {
        Subject::Node => Some(Edit::RemoveNode(id_in(b"/node/", path)?)),
        Subject::Term => Some(Edit::RemoveTerm(id_in(b"/taxonomy/term/", path)?)),
        Subject::Config(kind) => Some(Edit::Remove(kind, name_in(config_front(kind), path)?)),
        Subject::Comment => Some(Edit::RemoveComment(id_in(b"/comment/", path)?)),
        _ => None,
    }
}

/// An edit whose path is just this.
fn fixed(text: &[u8], edit: Edit, path: &[u8]) -> Option<Edit>
    ensures { result ≡ fixed text.now edit path.now }
{
    if path == text { Some(edit) } else { None }
}

/// What stands before the name of a row of configuration.
fn config_front(kind: ConfigKind) -> &'static [u8]
    ensures { result.now ≡ config_front kind }
{
    match kind {
        ConfigKind::Role => b"/config/role/",
        ConfigKind::NodeType => b"/config/type/",
        ConfigKind::Block => b"/config/block/",
        ConfigKind::Menu => b"/config/menu/",
        ConfigKind::Listing => b"/config/listing/",
    }
}

/// The id that the segment after a front is, if there is that segment.
fn id_in(front: &[u8], path: &[u8]) -> Option<Option<u32>>
    ensures { result ≡ option_map id_of (segment_after front.now path.now) }
{
    Some(id_of(segment_after(front, path)?))
}

/// The id that the segment between a front and an end is, if there is that segment.
fn id_between(front: &[u8], end: &[u8], path: &[u8]) -> Option<Option<u32>>
    ensures { result ≡ option_map id_of (segment_between front.now end.now path.now) }
{
    Some(id_of(segment_between(front, end, path)?))
}

/// The name that the segment after a front is, if there is that segment.
fn name_in(front: &[u8], path: &[u8]) -> Option<Option<Name>>
    ensures { result ≡ option_map name_of (segment_after front.now path.now) }
{
    Some(name_of(segment_after(front, path)?))
}

/// The segment that follows a front and ends the path.
fn segment_after<'p>(front: &[u8], path: &'p [u8]) -> Option<&'p [u8]>
    ensures { option_map (λ s. s.now) result ≡ segment_after front.now path.now }
{
    if path.starts_with(front) {
        segment_in(&path[front.len()..])
    } else {
        None
    }
}

/// The segment that stands between a front and an end.
fn segment_between<'p>(front: &[u8], end: &[u8], path: &'p [u8]) -> Option<&'p [u8]>
    ensures { option_map (λ s. s.now) result ≡ segment_between front.now end.now path.now }
{
    let cut = path.len().saturating_sub(end.len());
    if &path[cut..] == end {
        segment_after(front, &path[..cut])
    } else {
        None
    }
}

/// A text that is a segment.
fn segment_in(text: &[u8]) -> Option<&[u8]>
    ensures { option_map (λ s. s.now) result ≡ (if is_segment text.now then Some text.now else None) }
{
    if is_segment(text) { Some(text) } else { None }
}

/// Whether a text is a segment: it is not empty and has no slash.
fn is_segment(text: &[u8]) -> bool
    ensures { result ≡ is_segment text.now }
{
    !text.is_empty() && !has_slash(text)
}

/// Whether a text has a slash.
fn has_slash(text: &[u8]) -> bool
    ensures { result ≡ list_any is_slash text.now }
{
    text.iter().any(|&byte| byte == b'/')
}

/// Adds all routes. The routers are lent, so that they end at one place where memory is wanting.
fn add_all(
    posts: &mut Router<Subject>,
    patches: &mut Router<Subject>,
    deletes: &mut Router<Subject>,
) -> Result<(), AllocError>
    requires { (posts.old ≡ []) × (patches.old ≡ []) × (deletes.old ≡ []) }
    ensures posts { OnOk result (posts.new ≡ post_rows) }
    ensures patches { OnOk result (patches.new ≡ patch_rows) }
    ensures deletes { OnOk result (deletes.new ≡ delete_rows) }
{
    add_posts(posts)?;
    add_patches(patches)?;
    add_deletes(deletes)?;
    Ok(())
}

/// Adds the paths of a POST.
#[tactic(auto, unfolding(crate::specs::Routes::post_rows))]
fn add_posts(router: &mut Router<Subject>) -> Result<(), AllocError>
    requires { router.old ≡ [] }
    ensures { OnOk result (router.new ≡ post_rows) }
{
    add_content(router)?;
    add_config(router)?;
    add_actions(router)?;
    add_route(router, "/node/{n}/comment", Subject::Comment)?;
    Ok(())
}

/// Adds the routes by which content is made.
fn add_content(router: &mut Router<Subject>) -> Result<(), AllocError>
    ensures { OnOk result (router.new ≡
        with_route (codes "/user") subject.User
        (with_route (codes "/taxonomy/term") subject.Term
        (with_route (codes "/node") subject.Node router.old))) }
{
    add_route(router, "/node", Subject::Node)?;
    add_route(router, "/taxonomy/term", Subject::Term)?;
    add_route(router, "/user", Subject::User)?;
    Ok(())
}

/// Adds the routes of the settings, of logging in and out, and of what is kept of pages.
fn add_actions(router: &mut Router<Subject>) -> Result<(), AllocError>
    ensures { OnOk result (router.new ≡
        with_route (codes "/cache/rebuild") subject.Cache
        (with_route (codes "/user/logout") subject.Logout
        (with_route (codes "/user/login") subject.Login
        (with_route (codes "/config/site") subject.Site router.old)))) }
{
    add_route(router, "/config/site", Subject::Site)?;
    add_route(router, "/user/login", Subject::Login)?;
    add_route(router, "/user/logout", Subject::Logout)?;
    add_route(router, "/cache/rebuild", Subject::Cache)?;
    Ok(())
}

/// Adds the paths of a PATCH.
#[tactic(auto, unfolding(crate::specs::Routes::patch_rows))]
fn add_patches(router: &mut Router<Subject>) -> Result<(), AllocError>
    requires { router.old ≡ [] }
    ensures { OnOk result (router.new ≡ patch_rows) }
{
    add_route(router, "/node/{n}", Subject::Node)?;
    add_route(router, "/taxonomy/term/{t}", Subject::Term)?;
    add_route(router, "/user/{u}", Subject::User)?;
    add_route(router, "/comment/{c}", Subject::Comment)?;
    Ok(())
}

/// Adds the paths of a DELETE.
#[tactic(auto, unfolding(crate::specs::Routes::delete_rows))]
fn add_deletes(router: &mut Router<Subject>) -> Result<(), AllocError>
    requires { router.old ≡ [] }
    ensures { OnOk result (router.new ≡ delete_rows) }
{
    add_route(router, "/node/{n}", Subject::Node)?;
    add_route(router, "/taxonomy/term/{t}", Subject::Term)?;
    add_config(router)?;
    add_route(router, "/comment/{c}", Subject::Comment)?;
    Ok(())
}

/// Adds the routes of the rows of configuration.
fn add_config(router: &mut Router<Subject>) -> Result<(), AllocError>
    ensures { OnOk result (router.new ≡ with_config router.old) }
{
    add_route(
        router,
        "/config/role/{name}",
        Subject::Config(ConfigKind::Role),
    )?;
    add_route(
        router,
        "/config/type/{name}",
        Subject::Config(ConfigKind::NodeType),
    )?;
    add_route(
        router,
        "/config/block/{name}",
        Subject::Config(ConfigKind::Block),
    )?;
    add_route(
        router,
        "/config/menu/{name}",
        Subject::Config(ConfigKind::Menu),
    )?;
    add_route(
        router,
        "/config/listing/{name}",
        Subject::Config(ConfigKind::Listing),
    )?;
    Ok(())
}

/// Adds a route. Each route that is added reads well and agrees with the others, so only memory can be wanting.
fn add_route(router: &mut Router<Subject>, route: &str, about: Subject) -> Result<(), AllocError>
    ensures { OnOk result (router.new ≡ with_route route.now about router.old) }
{
    let Ok(()) = router.insert(route, about) else {
        return Err(AllocError);
    };
    Ok(())
}
