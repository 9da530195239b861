//! Which contexts the first key of something has.
ghost use Rattle.std.specs.Prelude.{◌≡◌};
ghost use Rattle.std.specs.Option.{option_copied};
ghost use Rattle.element_entries.specs.Keys.{declared_by_kind, declared_by_block, declared_by_fragment, declared_by, first_by, contexts_in};

use cache_entries::Subject;
use cacheability::Context;
use content_rows::{Block, BlockKind};
use content_state::{Fragment, State};

/// What something declares that it varies by, before it is built: nothing, the viewer, or the session.
#[derive(Clone, Copy)]
pub enum Declared {
    Nothing,
    User,
    Session,
}

/// Three contexts or four, which take no memory.
#[derive(Clone, Copy)]
pub enum FirstContexts {
    Three([Context; 3]),
    Four([Context; 4]),
}

impl FirstContexts {
    /// The contexts, in order.
    pub fn as_slice(&self) -> &[Context]
        ensures { result.now ≡ contexts_in self.now }
    {
        match self {
            FirstContexts::Three(contexts) => contexts,
            FirstContexts::Four(contexts) => contexts,
        }
    }
}

/// The contexts of the first key: those that every element is kept by, which are the language, the theme, and what the viewer is
/// permitted, and what is declared, in the order of their texts.
/// <https://www.drupal.org/docs/drupal-apis/render-api/cacheability-of-render-arrays>
pub fn first_contexts(declared: Declared) -> FirstContexts
    ensures { contexts_in result ≡ first_by declared }
{
    match declared {
        Declared::Nothing => {
            FirstContexts::Three([Context::Language, Context::Theme, Context::UserPermissions])
        }
        Declared::User => FirstContexts::Four([
            Context::Language,
            Context::Theme,
            Context::User,
            Context::UserPermissions,
        ]),
        Declared::Session => FirstContexts::Four([
            Context::Language,
            Context::Session,
            Context::Theme,
            Context::UserPermissions,
        ]),
    }
}

/// What a block of a kind declares.
fn declared_by_kind(kind: BlockKind) -> Declared
    ensures { result ≡ declared_by_kind kind }
{
    match kind {
        BlockKind::Text | BlockKind::Menu | BlockKind::Listing | BlockKind::Clock =>
            Declared::Nothing,
        BlockKind::Greeting => Declared::User,
        BlockKind::Csrf => Declared::Session,
    }
}

/// What a block declares, where there is one.
fn declared_by_block(block: Option<&Block>) -> Declared
    ensures { result ≡ declared_by_block (option_copied block.entry) }
{
    match block {
        None => Declared::Nothing,
        Some(block) => declared_by_kind(block.kind),
    }
}

/// What a fragment declares on a state.
fn declared_by_fragment(state: &State, fragment: &Fragment) -> Declared
    ensures { result ≡ declared_by_fragment state.now.rows fragment.now }
{
    match fragment {
        Fragment::Block(name) => declared_by_block(state.block(*name).0),
        Fragment::Menu(_) => Declared::Nothing,
        Fragment::Listing(_, _) => Declared::Nothing,
        Fragment::TermListing(_) => Declared::Nothing,
        Fragment::Node(_, _) => Declared::Nothing,
    }
}

/// What is declared on a state by what is kept: by a block, by its kind; and nothing by all else.
/// <https://www.drupal.org/docs/drupal-apis/render-api/auto-placeholdering>
pub fn declared_by(state: &State, subject: &Subject) -> Declared
    ensures { result ≡ declared_by state.now.rows subject.now }
{
    match subject {
        Subject::Fragment(fragment) => declared_by_fragment(state, fragment),
        Subject::Page(_) => Declared::Nothing,
        Subject::Target(_) => Declared::Nothing,
    }
}
