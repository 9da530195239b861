//! What stands in a page beside its bytes: places that are filled in later, and libraries.

use cacheability::Name;

/// A place in a page that is filled in after what surrounds it.
/// <https://www.drupal.org/docs/drupal-apis/render-api/auto-placeholdering>
#[derive(Clone, Copy, Debug)]
pub enum Hole {
    /// Where the page's head lists the libraries.
    Meta,
    /// Where a fragment stands.
    Fragment(Fragment),
}

/// A part of a page that is built by itself, and can be kept by itself.
/// <https://www.drupal.org/docs/drupal-apis/render-api/cacheability-of-render-arrays>
#[derive(Clone, Copy, Debug)]
pub enum Fragment {
    /// The block of that name.
    Block(Name),
    /// The menu of that name.
    Menu(Name),
    /// The listing of that name, on its page or in a block.
    Listing(Name, Placing),
    /// The nodes of the term of that number, on its page.
    TermListing(u32),
    /// The node of that number, in a mode.
    Node(u32, Mode),
}

/// How a node is shown.
/// <https://www.drupal.org/docs/drupal-apis/entity-api/display-modes-view-modes-and-form-modes>
#[derive(Clone, Copy, Debug)]
pub enum Mode {
    /// In full, as on its own page.
    Full,
    /// As listings show it: what is marked for teasers.
    Teaser,
    /// Within a node that refers to it, so many nodes deep.
    Embed(Depth),
}

/// How deep an embedded node stands: nodes are embedded at most three deep.
#[derive(Clone, Copy, Debug)]
pub enum Depth {
    One,
    Two,
    Three,
}

/// Where a listing stands: on a page it has pages of its own and a pager, in a block it is at its first page.
/// <https://www.drupal.org/docs/user_guide/en/views-concept.html>
#[derive(Clone, Copy, Debug)]
pub enum Placing {
    OnPage,
    InBlock,
}

/// A library that an element attaches; here libraries are names only. They stand in the order of their names.
/// <https://www.drupal.org/docs/develop/creating-modules/adding-assets-css-js-to-a-drupal-module-via-librariesyml>
#[derive(Clone, Copy, Debug, PartialEq, Eq)]
pub enum Library {
    Clock,
    Comment,
    Login,
    Menu,
    Node,
    Pager,
}
