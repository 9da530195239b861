//! Second copies of rows and of their parts, in memory of their own.
ghost use Rattle.std.specs.Prelude.{◌≡◌, IfOk};

use crate::row::{
    Block, Comment, FieldRow, FieldValue, Grant, GrantRow, Link, Listing, Menu, Node, NodeType,
    Role, Row, Seq, Session, Site, Talk, Term, User,
};
use crate::text::{Items, Text};
use cacheability::Name;
use std::alloc::{AllocError, Global};

/// A value that can be written out a second time, in memory of its own.
pub trait Duplicate: Drop {
    /// A copy of the value. `Err` only where memory is wanting.
    fn duplicate(&self, alloc: Global) -> Result<Self, AllocError>
        ensures { IfOk result (λ copy. copy ≡ self.now) };
}

/// Copies of two values: a row of many parts asks half as often whether memory was wanting.
fn copies<A: Duplicate, B: Duplicate>(
    alloc: Global,
    first: &A,
    second: &B,
) -> Result<(A, B), AllocError>
    ensures { IfOk result (λ copies. (copies.0 ≡ first.now) × (copies.1 ≡ second.now)) }
{
    Ok((first.duplicate(alloc)?, second.duplicate(alloc)?))
}

impl Duplicate for u32 {
    fn duplicate(&self, _alloc: Global) -> Result<Self, AllocError> {
        Ok(*self)
    }
}

impl Duplicate for Name {
    fn duplicate(&self, _alloc: Global) -> Result<Self, AllocError> {
        Ok(*self)
    }
}

impl Duplicate for Grant {
    fn duplicate(&self, _alloc: Global) -> Result<Self, AllocError> {
        Ok(*self)
    }
}

impl Duplicate for GrantRow {
    fn duplicate(&self, _alloc: Global) -> Result<Self, AllocError> {
        Ok(*self)
    }
}

impl Duplicate for Text {
    fn duplicate(&self, alloc: Global) -> Result<Self, AllocError> {
        Text::copied(alloc, self.as_slice())
    }
}

impl<T: Duplicate> Duplicate for Items<T> {
    fn duplicate(&self, alloc: Global) -> Result<Self, AllocError> {
        let mut copies = Vec::with_capacity(alloc, self.len())?;
        'members: for member in self.as_slice() {
            copies.push(member.duplicate(alloc)?)?;
        }
        Ok(Items::from_vec(copies))
    }
}

impl<T: Duplicate> Duplicate for Option<T> {
    fn duplicate(&self, alloc: Global) -> Result<Self, AllocError> {
        match self {
            Some(value) => Ok(Some(value.duplicate(alloc)?)),
            None => Ok(None),
        }
    }
}

impl Duplicate for Site {
    fn duplicate(&self, alloc: Global) -> Result<Self, AllocError> {
        Ok(Site {
            front: self.front.duplicate(alloc)?,
            name: self.name.duplicate(alloc)?,
        })
    }
}

impl Duplicate for Seq {
    fn duplicate(&self, alloc: Global) -> Result<Self, AllocError> {
        Ok(Seq {
            node: self.node,
            term: self.term,
            user: self.user,
        })
    }
}

impl Duplicate for FieldRow {
    fn duplicate(&self, alloc: Global) -> Result<Self, AllocError> {
        Ok(FieldRow {
            edit: self.edit.duplicate(alloc)?,
            label: self.label.duplicate(alloc)?,
            name: self.name,
            owner: self.owner,
            teaser: self.teaser,
            view: self.view.duplicate(alloc)?,
        })
    }
}

impl Duplicate for NodeType {
    fn duplicate(&self, alloc: Global) -> Result<Self, AllocError> {
        Ok(NodeType {
            fields: self.fields.duplicate(alloc)?,
            label: self.label.duplicate(alloc)?,
            submitted: self.submitted,
        })
    }
}

impl Duplicate for Role {
    fn duplicate(&self, alloc: Global) -> Result<Self, AllocError> {
        Ok(Role {
            admin: self.admin,
            grants: self.grants.duplicate(alloc)?,
            label: self.label.duplicate(alloc)?,
            permissions: self.permissions.duplicate(alloc)?,
        })
    }
}

impl Duplicate for User {
    fn duplicate(&self, alloc: Global) -> Result<Self, AllocError> {
        let (name, digest) = copies(alloc, &self.name, &self.digest)?;
        let (salt, uuid) = copies(alloc, &self.salt, &self.uuid)?;
        let (grants, roles) = copies(alloc, &self.grants, &self.roles)?;
        Ok(User {
            created: self.created,
            digest,
            grants,
            name,
            roles,
            salt,
            status: self.status,
            uuid,
        })
    }
}

impl Duplicate for Term {
    fn duplicate(&self, alloc: Global) -> Result<Self, AllocError> {
        Ok(Term {
            description: self.description.duplicate(alloc)?,
            name: self.name.duplicate(alloc)?,
            parent: self.parent,
            status: self.status,
            uuid: self.uuid.duplicate(alloc)?,
        })
    }
}

impl Duplicate for FieldValue {
    fn duplicate(&self, alloc: Global) -> Result<Self, AllocError> {
        Ok(FieldValue {
            name: self.name,
            value: self.value.duplicate(alloc)?,
        })
    }
}

impl Duplicate for Node {
    fn duplicate(&self, alloc: Global) -> Result<Self, AllocError> {
        let (title, uuid) = copies(alloc, &self.title, &self.uuid)?;
        let (refs, terms) = copies(alloc, &self.refs, &self.terms)?;
        let (path, grants) = copies(alloc, &self.path, &self.grants)?;
        let fields = self.fields.duplicate(alloc)?;
        Ok(Node {
            changed: self.changed,
            created: self.created,
            fields,
            grants,
            path,
            promote: self.promote,
            refs,
            status: self.status,
            sticky: self.sticky,
            terms,
            title,
            node_type: self.node_type,
            uid: self.uid,
            uuid,
            vid: self.vid,
        })
    }
}

impl Duplicate for Link {
    fn duplicate(&self, alloc: Global) -> Result<Self, AllocError> {
        Ok(Link {
            id: self.id,
            parent: self.parent,
            path: self.path.duplicate(alloc)?,
            title: self.title.duplicate(alloc)?,
            weight: self.weight,
        })
    }
}

impl Duplicate for Menu {
    fn duplicate(&self, alloc: Global) -> Result<Self, AllocError> {
        Ok(Menu {
            label: self.label.duplicate(alloc)?,
            links: self.links.duplicate(alloc)?,
        })
    }
}

impl Duplicate for Listing {
    fn duplicate(&self, alloc: Global) -> Result<Self, AllocError> {
        Ok(Listing {
            age: self.age,
            path: self.path.duplicate(alloc)?,
            promoted: self.promoted,
            recent: self.recent,
            term: self.term,
            title: self.title.duplicate(alloc)?,
            types: self.types.duplicate(alloc)?,
        })
    }
}

impl Duplicate for Block {
    fn duplicate(&self, alloc: Global) -> Result<Self, AllocError> {
        Ok(Block {
            age: self.age,
            hide: self.hide,
            kind: self.kind,
            label: self.label.duplicate(alloc)?,
            name: self.name,
            paths: self.paths.duplicate(alloc)?,
            region: self.region,
            roles: self.roles.duplicate(alloc)?,
            text: self.text.duplicate(alloc)?,
            weight: self.weight,
        })
    }
}

impl Duplicate for Session {
    fn duplicate(&self, alloc: Global) -> Result<Self, AllocError> {
        Ok(Session {
            expires: self.expires,
            uid: self.uid,
        })
    }
}

impl Duplicate for Comment {
    fn duplicate(&self, alloc: Global) -> Result<Self, AllocError> {
        let (body, uuid) = copies(alloc, &self.body, &self.uuid)?;
        Ok(Comment {
            body,
            created: self.created,
            node: self.node,
            parent: self.parent,
            status: self.status,
            uid: self.uid,
            uuid,
        })
    }
}

impl Duplicate for Talk {
    fn duplicate(&self, _alloc: Global) -> Result<Self, AllocError> {
        Ok(Talk {
            comment: self.comment,
        })
    }
}

impl Duplicate for Row {
    fn duplicate(&self, alloc: Global) -> Result<Self, AllocError> {
        Ok(match self {
            Row::Site(site) => Row::Site(site.duplicate(alloc)?),
            Row::Seq(seq) => Row::Seq(seq.duplicate(alloc)?),
            Row::NodeType(node_type) => Row::NodeType(node_type.duplicate(alloc)?),
            Row::Role(role) => Row::Role(role.duplicate(alloc)?),
            Row::User(user) => Row::User(user.duplicate(alloc)?),
            Row::Term(term) => Row::Term(term.duplicate(alloc)?),
            Row::Node(node) => Row::Node(node.duplicate(alloc)?),
            Row::Menu(menu) => Row::Menu(menu.duplicate(alloc)?),
            Row::Listing(listing) => Row::Listing(listing.duplicate(alloc)?),
            Row::Block(block) => Row::Block(block.duplicate(alloc)?),
            Row::Session(session) => Row::Session(session.duplicate(alloc)?),
            Row::Comment(comment) => Row::Comment(comment.duplicate(alloc)?),
            Row::Talk(talk) => Row::Talk(talk.duplicate(alloc)?),
        })
    }
}
