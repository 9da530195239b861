//! Cache contexts.
ghost use Rattle.std.specs.Prelude.{◌≡◌, ◌↔◌, IfOk, IsTrue, Some, nat_eq, refl};
ghost use Rattle.std.specs.Ordering.{nat_cmp, on};
ghost use Rattle.std.specs.Cmp.{partial_equiv_from_equiv};
ghost use Rattle.std.specs.Cmp.Lexicographic.{pointwise, slice_cmp};
ghost use Rattle.std.specs.Cmp.Rules.{comparing};
ghost use Rattle.std.proofs.Common.{rules};

use crate::name::Name;
use crate::written::Written;
use std::alloc::{AllocError, Global};
use std::cmp::Ordering;

/// A cache context: a part of the request that what is kept varies by, so that it is kept once for
/// each of its values (Drupal's Cache API, "Cache contexts"). In its text `.` goes down a level and
/// `:` adds a parameter. Contexts are ordered by their texts.
#[derive(Clone, Copy, Debug)]
pub enum Context {
    /// `languages:language_interface`: the language of the page.
    Language,
    /// `theme`: the theme.
    Theme,
    /// `user`: the viewer.
    User,
    /// `user.roles`: the viewer's roles.
    UserRoles,
    /// `user.permissions`: the viewer's permissions.
    UserPermissions,
    /// `user.node_grants:view`: the grants by which the viewer may view nodes.
    NodeGrantsView,
    /// `url`: the request's whole target.
    Url,
    /// `url.path`: the request's path.
    UrlPath,
    /// `url.path.is_front`: whether the path is the front page's.
    IsFront,
    /// `url.query_args`: the request's query.
    QueryArgs,
    /// `url.query_args:<name>`: one argument of the query.
    QueryArg(Name),
    /// `session`: the session.
    Session,
    /// `session.exists`: whether there is a session.
    SessionExists,
    /// `route.menu_active_trails:<menu>`: the way through a menu to the page that is shown.
    MenuTrail(Name),
}

impl Context {
    ghost use Rattle.cacheability.specs.Context.{context_text, context_rank, context_name, context_cmp, is_personal};

    /// The text of the context.
    pub fn text(&self, alloc: Global) -> Result<Vec<u8>, AllocError>
        ensures { IfOk result (λ text. text.items ≡ context_text self.now) }
    {
        Vec::from_slice(alloc, self.written().as_slice())
    }

    /// Whether two contexts are the same. They are exactly where their texts are.
    #[tactic(auto, using(crate::proofs::Texts::contexts_apart))]
    pub fn equals(&self, other: &Context) -> bool
        ensures same { IsTrue result ↔ (self.now ≡ other.now) }
        ensures same_text { IsTrue result ↔ (context_text self.now ≡ context_text other.now) }
    {
        self.has_parts_of(other)
    }

    /// Whether it is the viewer or the session, so that what varies by it is for one viewer alone.
    pub fn is_personal(&self) -> bool
        ensures { result ≡ is_personal self.now }
    {
        matches!(self, Context::User | Context::Session)
    }

    /// Whether two contexts are of one kind, and have the same name in them.
    #[tactic(auto, using(crate::proofs::Ranks::same_contexts))]
    fn has_parts_of(&self, other: &Context) -> bool
        ensures { IsTrue result ↔ (self.now ≡ other.now) }
    {
        self.rank() == other.rank() && self.name() == other.name()
    }

    /// Where the kind stands among the kinds, by the order of texts.
    fn rank(&self) -> u8
        ensures { result ≡ context_rank self.now }
    {
        match self {
            Context::Language => 0,
            Context::MenuTrail(_) => 1,
            Context::Session => 2,
            Context::SessionExists => 3,
            Context::Theme => 4,
            Context::Url => 5,
            Context::UrlPath => 6,
            Context::IsFront => 7,
            Context::QueryArgs => 8,
            Context::QueryArg(_) => 9,
            Context::User => 10,
            Context::NodeGrantsView => 11,
            Context::UserPermissions => 12,
            Context::UserRoles => 13,
        }
    }

    /// The name in the context; empty where there is none.
    fn name(&self) -> &[u8]
        ensures { result.now ≡ context_name self.now }
    {
        match self {
            Context::QueryArg(name) | Context::MenuTrail(name) => name.as_bytes(),
            _ => &[],
        }
    }

    /// The order of two contexts of one kind, by the names in their texts.
    #[tactic(auto, using(crate::proofs::Ranks::contexts_by_names))]
    fn order_of_names(&self, other: &Context) -> Ordering
        requires { context_rank self.now ≡ context_rank other.now }
        ensures { result ≡ context_cmp self.now other.now }
    {
        self.name().cmp(other.name())
    }

    /// The text of the context, held in place.
    fn written(&self) -> Written
        ensures { result ≡ context_text self.now }
    {
        match self {
            Context::Language => Written::of(b"languages:language_interface"),
            Context::Theme => Written::of(b"theme"),
            Context::User => Written::of(b"user"),
            Context::UserRoles => Written::of(b"user.roles"),
            Context::UserPermissions => Written::of(b"user.permissions"),
            Context::NodeGrantsView => Written::of(b"user.node_grants:view"),
            Context::Url => Written::of(b"url"),
            Context::UrlPath => Written::of(b"url.path"),
            Context::IsFront => Written::of(b"url.path.is_front"),
            Context::QueryArgs => Written::of(b"url.query_args"),
            Context::QueryArg(name) => Written::with_name(b"url.query_args:", name),
            Context::Session => Written::of(b"session"),
            Context::SessionExists => Written::of(b"session.exists"),
            Context::MenuTrail(name) => Written::with_name(b"route.menu_active_trails:", name),
        }
    }
}

impl PartialEq for Context {
    ghost use Rattle.cacheability.specs.Context.{context_text};

    ghost eq = { on context_text (pointwise nat_eq) };

    ghost laws = { Prim.search (comparing, rules) };

    fn eq(&self, other: &Self) -> bool {
        self.equals(other)
    }
}

impl Eq for Context {
    ghost laws = { Prim.search (comparing, rules) };
}

impl PartialOrd for Context {
    ghost use Rattle.cacheability.specs.Context.{context_text};

    ghost partial_cmp = { λ a b. Some (slice_cmp nat_cmp (context_text a) (context_text b)) };

    ghost laws = { Prim.search (comparing, rules) };

    fn partial_cmp(&self, other: &Self) -> Option<Ordering> {
        Some(self.cmp(other))
    }
}

impl Ord for Context {
    ghost use Rattle.cacheability.specs.Context.{context_text};

    ghost cmp = { on context_text (slice_cmp nat_cmp) };

    ghost total = { Prim.search (comparing, rules) };

    ghost matches_partial_cmp = { λ a b. refl };

    ghost matches_eq = { Prim.search (comparing, rules) };

    #[tactic(auto, using(crate::proofs::Ranks::contexts_by_rank))]
    fn cmp(&self, other: &Self) -> Ordering {
        match self.rank().cmp(&other.rank()) {
            Ordering::Equal => self.order_of_names(other),
            apart => apart,
        }
    }
}
