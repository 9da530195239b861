//! Contexts with their values.
ghost use Rattle.std.specs.Prelude.{◌≡◌, ◌↔◌, IsTrue};
ghost use Rattle.std.specs.Cmp.{partial_equiv_from_equiv};
ghost use Rattle.cache_contexts.specs.Same.{same_permissions, same_grants};

use cacheability::{Context, Name};
use content_rows::{Duplicate, Items, Permissions, Text, ViewGrants};
use site_access::Shared;
use std::alloc::{AllocError, Global};
use std::hash::{Hash, Hasher};

/// The value of a cache context, whichever it is.
pub enum AnyValue {
    /// A name, held in place: the language or the theme.
    Name(Name),
    /// A text: a target, a path or a query.
    Text(Text),
    /// An argument of the query, where it is there; its absence equals no text.
    Argument(Option<Text>),
    /// A user's number, 0 for nobody.
    User(u32),
    /// Whether the page is the front page, or whether there is a session.
    Flag(bool),
    /// Names of roles, or of links.
    Names(Items<Name>),
    /// A session's token, where there is a session.
    Session(Option<Name>),
    /// What a viewer is permitted; everything equals no list.
    Permissions(Shared<Permissions>),
    /// The grants by which a viewer may view nodes; all equals no list.
    Grants(Shared<ViewGrants>),
}

impl Drop for AnyValue {
    fn drop(self) {
        match self {
            AnyValue::Name(_) => {}
            AnyValue::Text(_) => {}
            AnyValue::Argument(_) => {}
            AnyValue::User(_) => {}
            AnyValue::Flag(_) => {}
            AnyValue::Names(_) => {}
            AnyValue::Session(_) => {}
            AnyValue::Permissions(_) => {}
            AnyValue::Grants(_) => {}
        }
    }
}

impl Duplicate for AnyValue {
    fn duplicate(&self, alloc: Global) -> Result<Self, AllocError> {
        Ok(match self {
            AnyValue::Name(name) => AnyValue::Name(*name),
            AnyValue::Text(text) => AnyValue::Text(text.duplicate(alloc)?),
            AnyValue::Argument(text) => AnyValue::Argument(text.duplicate(alloc)?),
            AnyValue::User(uid) => AnyValue::User(*uid),
            AnyValue::Flag(flag) => AnyValue::Flag(*flag),
            AnyValue::Names(names) => AnyValue::Names(names.duplicate(alloc)?),
            AnyValue::Session(token) => AnyValue::Session(*token),
            AnyValue::Permissions(held) => AnyValue::Permissions(held.share()?),
            AnyValue::Grants(held) => AnyValue::Grants(held.share()?),
        })
    }
}

/// A cache context with its value.
pub struct ContextValue {
    pub context: Context,
    pub value: AnyValue,
}

impl Drop for ContextValue {
    fn drop(self) {
        let ContextValue {
            context: _,
            value: _,
        } = self;
    }
}

impl Duplicate for ContextValue {
    fn duplicate(&self, alloc: Global) -> Result<Self, AllocError> {
        Ok(ContextValue {
            context: self.context,
            value: self.value.duplicate(alloc)?,
        })
    }
}

impl PartialEq for AnyValue {
    ghost use Rattle.cache_contexts.specs.Same.{same_value};
    ghost use Rattle.cache_contexts.specs.SameLaws.{values_equiv};

    ghost eq = { same_value };

    ghost laws = { partial_equiv_from_equiv values_equiv };

    fn eq(&self, other: &Self) -> bool {
        match (self, other) {
            (AnyValue::Name(one), AnyValue::Name(two)) => one == two,
            (AnyValue::Text(one), AnyValue::Text(two)) => one == two,
            (AnyValue::Argument(one), AnyValue::Argument(two)) => one == two,
            (AnyValue::User(one), AnyValue::User(two)) => one == two,
            (AnyValue::Flag(one), AnyValue::Flag(two)) => one == two,
            (AnyValue::Names(one), AnyValue::Names(two)) => one.as_slice() == two.as_slice(),
            (AnyValue::Session(one), AnyValue::Session(two)) => one == two,
            (AnyValue::Permissions(one), AnyValue::Permissions(two)) => {
                same_permissions(one.get(), two.get())
            }
            (AnyValue::Grants(one), AnyValue::Grants(two)) => same_grants(one.get(), two.get()),
            _ => false,
        }
    }
}

impl Eq for AnyValue {
    ghost use Rattle.cache_contexts.specs.SameLaws.{values_equiv};

    ghost laws = { values_equiv };
}

impl Hash for AnyValue {
    ghost use Rattle.cache_contexts.specs.Same.{value_writes};
    ghost use Rattle.cache_contexts.specs.SameLaws.{values_alike};

    ghost hash_input = { value_writes };

    ghost respects_eq = { values_alike.fed };

    fn hash<H: Hasher>(&self, state: &mut H) {
        match self {
            AnyValue::Text(text) | AnyValue::Argument(Some(text)) => text.as_slice().hash(state),
            AnyValue::User(uid) => uid.hash(state),
            AnyValue::Flag(flag) => flag.hash(state),
            AnyValue::Names(names) => names.as_slice().hash(state),
            AnyValue::Session(token) => token.hash(state),
            AnyValue::Permissions(permissions) => match permissions.get() {
                Permissions::All => {}
                Permissions::These(texts) => texts.len().hash(state),
            },
            AnyValue::Grants(grants) => match grants.get() {
                ViewGrants::All => {}
                ViewGrants::These(grants) => grants.len().hash(state),
            },
            AnyValue::Name(_) | AnyValue::Argument(None) => {}
        }
    }
}

impl PartialEq for ContextValue {
    ghost use Rattle.cache_contexts.specs.Same.{same_context_value};
    ghost use Rattle.cache_contexts.specs.SameLaws.{context_values_equiv};

    ghost eq = { same_context_value };

    ghost laws = { partial_equiv_from_equiv context_values_equiv };

    fn eq(&self, other: &Self) -> bool {
        self.context == other.context && self.value == other.value
    }
}

impl Eq for ContextValue {
    ghost use Rattle.cache_contexts.specs.SameLaws.{context_values_equiv};

    ghost laws = { context_values_equiv };
}

impl Hash for ContextValue {
    ghost use Rattle.cache_contexts.specs.Same.{context_value_writes};
    ghost use Rattle.cache_contexts.specs.SameLaws.{context_values_alike};

    ghost hash_input = { context_value_writes };

    ghost respects_eq = { context_values_alike.fed };

    fn hash<H: Hasher>(&self, state: &mut H) {
        self.value.hash(state);
    }
}

/// Whether both permit the same.
fn same_permissions(one: &Permissions, two: &Permissions) -> bool
    ensures { result ≡ same_permissions one.now two.now }
{
    match (one, two) {
        (Permissions::All, Permissions::All) => true,
        (Permissions::These(one), Permissions::These(two)) => one.as_slice() == two.as_slice(),
        _ => false,
    }
}

/// Whether both are the same grants.
fn same_grants(one: &ViewGrants, two: &ViewGrants) -> bool
    ensures { result ≡ same_grants one.now two.now }
{
    match (one, two) {
        (ViewGrants::All, ViewGrants::All) => true,
        (ViewGrants::These(one), ViewGrants::These(two)) => one.as_slice() == two.as_slice(),
        _ => false,
    }
}
