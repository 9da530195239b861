//! What the bodies of edits say. A key that a body may leave out is an option where its absence says something, and else
//! has the value that stands for its absence.

use cacheability::Name;
use content_rows::{FieldValue, Grant, GrantRow, Items, Text};

/// A node to be made.
pub struct NewNode {
    /// When it was made, in seconds since 1970; now where it isn't said.
    pub created: Option<u64>,
    /// The values of its fields, by the bytes of their names, each name once.
    pub fields: Items<FieldValue>,
    /// Its access records.
    pub grants: Items<GrantRow>,
    /// The path that it is to have, if any.
    pub path: Option<Text>,
    /// Whether front pages list it; they do where it isn't said.
    pub promote: Option<bool>,
    /// The ids of the nodes that it embeds.
    pub refs: Items<u32>,
    /// Whether it is published; it is where it isn't said.
    pub status: Option<bool>,
    /// Whether it stands before others in listings.
    pub sticky: bool,
    /// The ids of its terms.
    pub terms: Items<u32>,
    /// Its title.
    pub title: Text,
    /// The user that is to own it, 0 for nobody; the viewer where it isn't said.
    pub uid: Option<u32>,
    /// Its universal id.
    pub uuid: Text,
}

impl Drop for NewNode {
    fn drop(self) {
        let NewNode {
            created: _,
            fields: _,
            grants: _,
            path: _,
            promote: _,
            refs: _,
            status: _,
            sticky: _,
            terms: _,
            title: _,
            uid: _,
            uuid: _,
        } = self;
    }
}

/// What is to become of the value of a node's field.
pub struct FieldChange {
    /// The field's machine name.
    pub name: Name,
    /// The value that it gets; none takes its value away.
    pub value: Option<Text>,
}

impl Drop for FieldChange {
    fn drop(self) {
        let FieldChange { name: _, value: _ } = self;
    }
}

/// What is to change of a node; what isn't said stays.
pub struct NodePatch {
    /// When it was made, in seconds since 1970.
    pub created: Option<u64>,
    /// The fields whose values change, by the bytes of their names, each name once.
    pub fields: Items<FieldChange>,
    /// Its access records.
    pub grants: Option<Items<GrantRow>>,
    /// The path that it is to have; none of its own where that is said.
    pub path: Option<Option<Text>>,
    /// Whether front pages list it.
    pub promote: Option<bool>,
    /// The ids of the nodes that it embeds.
    pub refs: Option<Items<u32>>,
    /// Whether it is published.
    pub status: Option<bool>,
    /// Whether it stands before others in listings.
    pub sticky: Option<bool>,
    /// The ids of its terms.
    pub terms: Option<Items<u32>>,
    /// Its title.
    pub title: Option<Text>,
    /// The user that is to own it, 0 for nobody.
    pub uid: Option<u32>,
    /// The version that the change was made of.
    pub vid: u32,
}

impl Drop for NodePatch {
    fn drop(self) {
        let NodePatch {
            created: _,
            fields: _,
            grants: _,
            path: _,
            promote: _,
            refs: _,
            status: _,
            sticky: _,
            terms: _,
            title: _,
            uid: _,
            vid: _,
        } = self;
    }
}

/// A term to be made.
pub struct NewTerm {
    /// What it means.
    pub description: Text,
    /// Its name.
    pub name: Text,
    /// The term that it is to stand under, if any.
    pub parent: Option<u32>,
    /// Whether it is published; it is where it isn't said.
    pub status: Option<bool>,
    /// Its universal id.
    pub uuid: Text,
}

impl Drop for NewTerm {
    fn drop(self) {
        let NewTerm {
            description: _,
            name: _,
            parent: _,
            status: _,
            uuid: _,
        } = self;
    }
}

/// What is to change of a term; what isn't said stays.
pub struct TermPatch {
    /// What it means.
    pub description: Option<Text>,
    /// Its name.
    pub name: Option<Text>,
    /// The term that it is to stand under; at the top where that is said.
    pub parent: Option<Option<u32>>,
    /// Whether it is published.
    pub status: Option<bool>,
}

impl Drop for TermPatch {
    fn drop(self) {
        let TermPatch {
            description: _,
            name: _,
            parent: _,
            status: _,
        } = self;
    }
}

/// A user to be made.
pub struct NewUser {
    /// The grants that it holds.
    pub grants: Items<Grant>,
    /// Its name.
    pub name: Text,
    /// Its password, a line of at most 128 bytes; without one it cannot log in.
    pub pass: Option<Text>,
    /// Its roles besides `authenticated`.
    pub roles: Items<Name>,
    /// Whether it is active; it is where it isn't said.
    pub status: Option<bool>,
    /// Its universal id.
    pub uuid: Text,
}

impl Drop for NewUser {
    fn drop(self) {
        let NewUser {
            grants: _,
            name: _,
            pass: _,
            roles: _,
            status: _,
            uuid: _,
        } = self;
    }
}

/// What is to change of a user; what isn't said stays.
pub struct UserPatch {
    /// The grants that it holds.
    pub grants: Option<Items<Grant>>,
    /// Its name.
    pub name: Option<Text>,
    /// Its password, a line of at most 128 bytes.
    pub pass: Option<Text>,
    /// Its roles besides `authenticated`.
    pub roles: Option<Items<Name>>,
    /// Whether it is active.
    pub status: Option<bool>,
}

impl Drop for UserPatch {
    fn drop(self) {
        let UserPatch {
            grants: _,
            name: _,
            pass: _,
            roles: _,
            status: _,
        } = self;
    }
}

/// A comment to be made.
pub struct NewComment {
    /// What it says.
    pub body: Text,
    /// The comment that it replies to, if any.
    pub parent: Option<u32>,
    /// Its universal id.
    pub uuid: Text,
}

impl Drop for NewComment {
    fn drop(self) {
        let NewComment {
            body: _,
            parent: _,
            uuid: _,
        } = self;
    }
}

/// What is to change of a comment; what isn't said stays.
pub struct CommentPatch {
    /// What it says.
    pub body: Option<Text>,
    /// Whether it is published.
    pub status: Option<bool>,
}

impl Drop for CommentPatch {
    fn drop(self) {
        let CommentPatch { body: _, status: _ } = self;
    }
}
