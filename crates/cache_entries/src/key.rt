//! Under which key something is kept.
ghost use Rattle.std.specs.Prelude.{◌≡◌, ◌≤◌, ◌↔◌, IsTrue};
ghost use Rattle.std.specs.Cmp.{partial_equiv_from_equiv};
ghost use Rattle.cache_entries.specs.Keys.{placing_number, mode_number, same_fragment, same_subject};

use cache_contexts::ContextValue;
use content_rows::{Items, Text};
use content_state::{Depth, Fragment, Mode, Placing};
use site_access::Shared;
use std::hash::{Hash, Hasher};

/// What a cache entry is of: a part of pages, the page of a path, or the page of a whole target.
pub enum Subject {
    /// A part of pages: a block, a menu, a listing, a term's listing or a node in a mode.
    Fragment(Fragment),
    /// The page of a path, whoever views it: the places of what is for one viewer alone are open.
    Page(Text),
    /// The page of a whole target, for nobody's session: nothing but the place of the libraries is open.
    Target(Text),
}

impl Drop for Subject {
    fn drop(self) {
        match self {
            Subject::Fragment(_) => {}
            Subject::Page(_) => {}
            Subject::Target(_) => {}
        }
    }
}

/// The key of a cache entry: what is kept, and the values of the contexts that it is looked up by.
/// <https://www.drupal.org/docs/drupal-apis/render-api/cacheability-of-render-arrays>
pub struct Key {
    pub subject: Subject,
    pub values: Shared<Items<ContextValue>>,
}

impl Drop for Key {
    fn drop(self) {
        let Key {
            subject: _,
            values: _,
        } = self;
    }
}

impl Key {
    /// Whether two keys are equal: of one subject, with equal values of their contexts.
    pub fn equals(&self, other: &Key) -> bool
        ensures { IsTrue result ↔ (self.now ≡ other.now) }
    {
        self == other
    }
}

impl PartialEq for Key {
    ghost use Rattle.cache_entries.specs.Keys.{same_key};
    ghost use Rattle.cache_entries.specs.KeyLaws.{keys_equiv};

    ghost eq = { same_key };

    ghost laws = { partial_equiv_from_equiv keys_equiv };

    fn eq(&self, other: &Self) -> bool {
        same_subject(&self.subject, &other.subject)
            && self.values.get().as_slice() == other.values.get().as_slice()
    }
}

impl Eq for Key {
    ghost use Rattle.cache_entries.specs.KeyLaws.{keys_equiv};

    ghost laws = { keys_equiv };
}

impl Hash for Key {
    ghost use Rattle.cache_entries.specs.Keys.{key_writes};
    ghost use Rattle.cache_entries.specs.KeyLaws.{keys_alike};

    ghost hash_input = { key_writes };

    ghost respects_eq = { keys_alike.fed };

    fn hash<H: Hasher>(&self, state: &mut H) {
        match &self.subject {
            Subject::Fragment(Fragment::Block(name)) => {
                state.write_u8(0);
                name.hash(state);
            }
            Subject::Fragment(Fragment::Menu(name)) => {
                state.write_u8(1);
                name.hash(state);
            }
            Subject::Fragment(Fragment::Listing(name, _)) => {
                state.write_u8(2);
                name.hash(state);
            }
            Subject::Fragment(Fragment::TermListing(tid)) => {
                state.write_u8(3);
                tid.hash(state);
            }
            Subject::Fragment(Fragment::Node(nid, mode)) => {
                state.write_u8(4 + mode_number(mode));
                nid.hash(state);
            }
            Subject::Page(path) => {
                state.write_u8(9);
                path.as_slice().hash(state);
            }
            Subject::Target(target) => {
                state.write_u8(10);
                target.as_slice().hash(state);
            }
        }
        self.values.get().as_slice().hash(state);
    }
}

/// Whether two subjects are equal.
fn same_subject(one: &Subject, two: &Subject) -> bool
    ensures { result ≡ same_subject one.now two.now }
{
    match (one, two) {
        (Subject::Fragment(one), Subject::Fragment(two)) => same_fragment(one, two),
        (Subject::Page(one), Subject::Page(two)) => one == two,
        (Subject::Target(one), Subject::Target(two)) => one == two,
        _ => false,
    }
}

/// Whether both are the same part of pages.
fn same_fragment(one: &Fragment, two: &Fragment) -> bool
    ensures { result ≡ same_fragment one.now two.now }
{
    match (one, two) {
        (Fragment::Block(one), Fragment::Block(two)) => one == two,
        (Fragment::Menu(one), Fragment::Menu(two)) => one == two,
        (Fragment::Listing(one, placing), Fragment::Listing(two, other)) => {
            one == two && placing_number(placing) == placing_number(other)
        }
        (Fragment::TermListing(one), Fragment::TermListing(two)) => one == two,
        (Fragment::Node(one, mode), Fragment::Node(two, other)) => {
            one == two && mode_number(mode) == mode_number(other)
        }
        _ => false,
    }
}

/// A number for each placing of a listing.
fn placing_number(placing: &Placing) -> u8
    ensures { result ≡ placing_number placing.now }
{
    match placing {
        Placing::OnPage => 0,
        Placing::InBlock => 1,
    }
}

/// A number for each mode of a node, at most 4.
fn mode_number(mode: &Mode) -> u8
    ensures is { result ≡ mode_number mode.now }
    ensures small { result ≤ 4 }
{
    match mode {
        Mode::Full => 0,
        Mode::Teaser => 1,
        Mode::Embed(Depth::One) => 2,
        Mode::Embed(Depth::Two) => 3,
        Mode::Embed(Depth::Three) => 4,
    }
}
