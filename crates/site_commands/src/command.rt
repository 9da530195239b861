//! What an edit asks for.

use crate::body::{
    CommentPatch, NewComment, NewNode, NewTerm, NewUser, NodePatch, TermPatch, UserPatch,
};
use cacheability::Name;
use content_rows::{Items, Row, Text};
use json_keys::Checked;

/// The keys of a node that need a permission of their own, and whether each stands in the body, whatever its value.
#[derive(Drop)]
pub struct NodeKeys {
    /// `created`
    pub created: bool,
    /// `grants`
    pub grants: bool,
    /// `path`
    pub path: bool,
    /// `promote`
    pub promote: bool,
    /// `status`
    pub status: bool,
    /// `sticky`
    pub sticky: bool,
    /// `uid`
    pub uid: bool,
    /// The keys inside `fields` that are machine names, in the order of their bytes.
    pub fields: Items<Name>,
}

/// To make a node.
#[derive(Drop)]
pub struct NodeCreation {
    /// Its content type; none where the body names none, or what is no machine name.
    pub node_type: Option<Name>,
    /// Which keys stand in the body.
    pub keys: NodeKeys,
    /// What the body says.
    pub body: Checked<NewNode>,
}

/// To change a node.
#[derive(Drop)]
pub struct NodeChange {
    /// Its id; none where the path has none.
    pub nid: Option<u32>,
    /// Which keys stand in the body.
    pub keys: NodeKeys,
    /// What the body says.
    pub body: Checked<NodePatch>,
}

/// To change a term.
#[derive(Drop)]
pub struct TermChange {
    /// Its id; none where the path has none.
    pub tid: Option<u32>,
    /// What the body says.
    pub body: Checked<TermPatch>,
}

/// The keys of a user that need a permission of their own, and whether each stands in the body, whatever its value.
#[derive(Clone, Copy)]
pub struct UserKeys {
    /// `grants`
    pub grants: bool,
    /// `roles`
    pub roles: bool,
}

/// To make a user.
#[derive(Drop)]
pub struct UserCreation {
    /// Which keys stand in the body.
    pub keys: UserKeys,
    /// The salt of a new password, 32 lower-case hex digits, where the key `pass` stands in the body.
    pub salt: Option<Name>,
    /// What the body says.
    pub body: Checked<NewUser>,
}

/// To change a user.
#[derive(Drop)]
pub struct UserChange {
    /// Its id; none where the path has none.
    pub uid: Option<u32>,
    /// Which keys stand in the body.
    pub keys: UserKeys,
    /// The salt of a new password, 32 lower-case hex digits, where the key `pass` stands in the body.
    pub salt: Option<Name>,
    /// What the body says.
    pub body: Checked<UserPatch>,
}

/// To comment on a node.
#[derive(Drop)]
pub struct CommentCreation {
    /// The node's id; none where the path has none.
    pub nid: Option<u32>,
    /// What the body says.
    pub body: Checked<NewComment>,
}

/// To change a comment.
#[derive(Drop)]
pub struct CommentChange {
    /// Its id; none where the path has none.
    pub cid: Option<u32>,
    /// Whether the key `status`, which needs a permission of its own, stands in the body, whatever its value.
    pub status: bool,
    /// What the body says.
    pub body: Checked<CommentPatch>,
}

/// What is configured by whole rows, each with a name.
/// <https://www.drupal.org/docs/drupal-apis/configuration-api/configuration-entity-overview>
#[derive(Clone, Copy, PartialEq, Eq)]
pub enum ConfigKind {
    /// Roles.
    Role,
    /// Content types.
    NodeType,
    /// Blocks.
    Block,
    /// Menus.
    Menu,
    /// Listings.
    Listing,
}

/// What somebody logs in with.
#[derive(Drop)]
pub struct Credentials {
    /// The name, where the form has one.
    pub name: Option<Text>,
    /// The password, where the form has one.
    pub pass: Option<Text>,
    /// The token of the session to be made, 32 lower-case hex digits.
    pub token: Name,
}

/// What an edit asks for. A number or a name that the path lacks is none: what it names is not there. A body that breaks
/// a rule is told only once it is known that the viewer may make the edit, so the first rule that it breaks stands in its
/// place.
#[derive(Drop)]
pub enum Command {
    /// To make a node.
    CreateNode(NodeCreation),
    /// To change a node.
    ChangeNode(NodeChange),
    /// To remove the node of an id, with all comments on it.
    RemoveNode(Option<u32>),
    /// To make a term.
    CreateTerm(Checked<NewTerm>),
    /// To change a term.
    ChangeTerm(TermChange),
    /// To remove the term of an id.
    RemoveTerm(Option<u32>),
    /// To make a user.
    CreateUser(UserCreation),
    /// To change a user.
    ChangeUser(UserChange),
    /// To make the row of a name, or to replace it.
    Set(ConfigKind, Option<Name>, Checked<Row>),
    /// To remove the row of a name.
    Remove(ConfigKind, Option<Name>),
    /// To replace the settings of the site.
    SetSite(Checked<Row>),
    /// To log in.
    Login(Credentials),
    /// To log out.
    Logout,
    /// To let every kept piece of a page be made again.
    Rebuild,
    /// To comment on a node.
    CreateComment(CommentCreation),
    /// To change a comment.
    ChangeComment(CommentChange),
    /// To remove the comment of an id, with all replies below it.
    RemoveComment(Option<u32>),
}
