//! Edits.

use cacheability::Name;
use site_commands::ConfigKind;

/// An edit that a method and a path name. A number or a name is none where the path has something else in its place: what
/// it names is not there.
#[derive(Clone, Copy, PartialEq, Eq)]
pub enum Edit {
    /// To make a node.
    CreateNode,
    /// To change the node of an id.
    ChangeNode(Option<u32>),
    /// To remove the node of an id.
    RemoveNode(Option<u32>),
    /// To make a taxonomy term.
    CreateTerm,
    /// To change the term of an id.
    ChangeTerm(Option<u32>),
    /// To remove the term of an id.
    RemoveTerm(Option<u32>),
    /// To make a user.
    CreateUser,
    /// To change the user of an id.
    ChangeUser(Option<u32>),
    /// To make the row of a name, or to replace it.
    Set(ConfigKind, Option<Name>),
    /// To remove the row of a name.
    Remove(ConfigKind, Option<Name>),
    /// To replace the settings of the site.
    SetSite,
    /// To log in.
    Login,
    /// To log out.
    Logout,
    /// To let every kept piece of a page be made again.
    Rebuild,
    /// To comment on the node of an id.
    CreateComment(Option<u32>),
    /// To change the comment of an id.
    ChangeComment(Option<u32>),
    /// To remove the comment of an id.
    RemoveComment(Option<u32>),
}
