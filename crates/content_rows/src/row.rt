//! The rows of a site: one struct for each kind, whose fields are the row's keys.

use crate::text::{Items, Text};
use cacheability::Name;
use std::cmp::Ordering;

/// The settings of the site.
pub struct Site {
    /// The path that `/` shows: a target that is no bare `/`.
    pub front: Text,
    /// The name of the site, a line of at most 255 bytes.
    pub name: Text,
}

impl Drop for Site {
    fn drop(self) {
        let Site { front: _, name: _ } = self;
    }
}

/// The next ids to give, each from 1 to 4,294,967,295; at the last there is none left.
#[derive(Drop)]
pub struct Seq {
    /// The id of the next node.
    pub node: u32,
    /// The id of the next term.
    pub term: u32,
    /// The id of the next user.
    pub user: u32,
}

/// A field that the nodes of a content type have.
pub struct FieldRow {
    /// The permission that editing it takes, if any.
    pub edit: Option<Text>,
    /// What stands before its value, a line of at most 64 bytes.
    pub label: Text,
    /// Its machine name.
    pub name: Name,
    /// Whether it is for the node's owner alone.
    pub owner: bool,
    /// Whether teasers show it.
    pub teaser: bool,
    /// The permission that viewing it takes, if any.
    pub view: Option<Text>,
}

impl Drop for FieldRow {
    fn drop(self) {
        let FieldRow {
            edit: _,
            label: _,
            name: _,
            owner: _,
            teaser: _,
            view: _,
        } = self;
    }
}

/// A content type.
/// <https://www.drupal.org/docs/user_guide/en/planning-data-types.html>
pub struct NodeType {
    /// Its fields in the order in which they are shown: at most 32, names distinct.
    pub fields: Items<FieldRow>,
    /// What people call it, a line of at most 255 bytes.
    pub label: Text,
    /// Whether its nodes show their author and day.
    pub submitted: bool,
}

impl Drop for NodeType {
    fn drop(self) {
        let NodeType {
            fields: _,
            label: _,
            submitted: _,
        } = self;
    }
}

/// A grant that a role or a user holds: a number in a realm. Grants are in order of the bytes of
/// their realms, and within a realm by number.
/// <https://api.drupal.org/api/drupal/core!modules!node!node.api.php/function/hook_node_grants/10>
#[derive(Clone, Copy, Debug, PartialEq, Eq, PartialOrd, Ord)]
pub struct Grant {
    /// The realm that the number belongs to.
    pub realm: Name,
    /// The number of the grant.
    pub gid: u32,
}

impl Grant {
    ghost use Rattle.std.specs.Prelude.{◌≡◌, ◌↔◌, IsTrue};
    ghost use Rattle.content_rows.specs.GrantOrder.{grant_cmp, order_of_grants, TellsGrantsApart};

    /// How the two stand in the order of grants: by the bytes of the realm, and then by number.
    /// <https://api.drupal.org/api/drupal/core!modules!node!src!Cache!NodeAccessGrantsCacheContext.php/class/NodeAccessGrantsCacheContext/10>
    pub fn order(&self, other: &Grant) -> Ordering
        ensures told { result ≡ order_of_grants self.now other.now }
        ensures kept { result ≡ grant_cmp self.now other.now }
    {
        self.cmp(other)
    }

    /// Whether both are the same grant, which the order of grants tells too: it is `Equal` there
    /// alone.
    pub fn equals(&self, other: &Grant) -> bool
        ensures same { IsTrue result ↔ (self.now ≡ other.now) }
        ensures apart { TellsGrantsApart }
    {
        self == other
    }
}

/// A role.
/// <https://www.drupal.org/docs/user_guide/en/user-concept.html>
pub struct Role {
    /// Whether its holders have every permission.
    pub admin: bool,
    /// At most 64 grants.
    pub grants: Items<Grant>,
    /// What people call it, a line of at most 255 bytes.
    pub label: Text,
    /// At most 256 permissions, each a line of at most 128 bytes.
    pub permissions: Items<Text>,
}

impl Drop for Role {
    fn drop(self) {
        let Role {
            admin: _,
            grants: _,
            label: _,
            permissions: _,
        } = self;
    }
}

/// A user.
pub struct User {
    /// When it was made, in seconds since 1970.
    pub created: u64,
    /// The digest of its password, 64 lower-case hex digits; none where it cannot log in.
    pub digest: Option<Text>,
    /// At most 64 grants.
    pub grants: Items<Grant>,
    /// Its name, a line of at most 60 bytes.
    pub name: Text,
    /// At most 32 roles besides `authenticated`.
    pub roles: Items<Name>,
    /// The salt of the digest, 32 lower-case hex digits or empty.
    pub salt: Text,
    /// Whether it is active and not blocked.
    pub status: bool,
    /// Its universal id.
    pub uuid: Text,
}

impl Drop for User {
    fn drop(self) {
        let User {
            created: _,
            digest: _,
            grants: _,
            name: _,
            roles: _,
            salt: _,
            status: _,
            uuid: _,
        } = self;
    }
}

/// A taxonomy term.
/// <https://www.drupal.org/docs/user_guide/en/structure-taxonomy.html>
pub struct Term {
    /// What it means: a text.
    pub description: Text,
    /// Its name, a line of at most 255 bytes.
    pub name: Text,
    /// The id of the term that it stands under; none at the top.
    pub parent: Option<u32>,
    /// Whether it is published.
    pub status: bool,
    /// Its universal id.
    pub uuid: Text,
}

impl Drop for Term {
    fn drop(self) {
        let Term {
            description: _,
            name: _,
            parent: _,
            status: _,
            uuid: _,
        } = self;
    }
}

/// The value of a node's field.
pub struct FieldValue {
    /// The field's machine name.
    pub name: Name,
    /// Its value: a text.
    pub value: Text,
}

impl Drop for FieldValue {
    fn drop(self) {
        let FieldValue { name: _, value: _ } = self;
    }
}

/// A node's access record: which operations it lets the holders of a grant do.
/// <https://api.drupal.org/api/drupal/core!modules!node!node.api.php/function/hook_node_access_records/10>
#[derive(Clone, Copy, Debug)]
pub struct GrantRow {
    /// Whether they may delete the node.
    pub delete: bool,
    /// The number of the grant.
    pub gid: u32,
    /// The realm that the number belongs to.
    pub realm: Name,
    /// Whether they may update the node.
    pub update: bool,
    /// Whether they may view the node.
    pub view: bool,
}

/// A node: one piece of content.
pub struct Node {
    /// When it was last changed, in seconds since 1970.
    pub changed: u64,
    /// When it was made, in seconds since 1970.
    pub created: u64,
    /// The values of its fields, by the bytes of their names, each name once.
    pub fields: Items<FieldValue>,
    /// At most 64 access records.
    pub grants: Items<GrantRow>,
    /// The path that it has instead of `/node/<n>`, if any.
    pub path: Option<Text>,
    /// Whether front pages list it.
    pub promote: bool,
    /// The ids of at most 8 nodes that it embeds.
    pub refs: Items<u32>,
    /// Whether it is published.
    pub status: bool,
    /// Whether it stands before others in listings.
    pub sticky: bool,
    /// The ids of at most 32 terms.
    pub terms: Items<u32>,
    /// Its title, a line of at most 255 bytes.
    pub title: Text,
    /// The machine name of its content type.
    pub node_type: Name,
    /// The id of the user that owns it; 0 is nobody.
    pub uid: u32,
    /// Its universal id.
    pub uuid: Text,
    /// The number of its version, from 1.
    pub vid: u32,
}

impl Drop for Node {
    fn drop(self) {
        let Node {
            changed: _,
            created: _,
            fields: _,
            grants: _,
            path: _,
            promote: _,
            refs: _,
            status: _,
            sticky: _,
            terms: _,
            title: _,
            node_type: _,
            uid: _,
            uuid: _,
            vid: _,
        } = self;
    }
}

/// A link of a menu.
pub struct Link {
    /// Its name within the menu.
    pub id: Name,
    /// The link that it stands under; none at the top.
    pub parent: Option<Name>,
    /// The path that it leads to: a target.
    pub path: Text,
    /// What it shows, a line of at most 255 bytes.
    pub title: Text,
    /// Its weight, from -1,000 to 1,000; the least comes first.
    pub weight: i32,
}

impl Drop for Link {
    fn drop(self) {
        let Link {
            id: _,
            parent: _,
            path: _,
            title: _,
            weight: _,
        } = self;
    }
}

/// A menu.
/// <https://www.drupal.org/docs/user_guide/en/menu-concept.html>
pub struct Menu {
    /// What people call it, a line of at most 255 bytes.
    pub label: Text,
    /// At most 256 links: ids distinct, parents present, no cycle, at most 9 deep.
    pub links: Items<Link>,
}

impl Drop for Menu {
    fn drop(self) {
        let Menu { label: _, links: _ } = self;
    }
}

/// A listing: nodes of some kind, newest first, ten a page.
/// <https://www.drupal.org/docs/user_guide/en/views-concept.html>
pub struct Listing {
    /// How long it may be shown once built, in seconds; none exactly where `recent` is none.
    pub age: Option<u32>,
    /// The path of its page, if it has one.
    pub path: Option<Text>,
    /// Whether it lists promoted nodes only.
    pub promoted: bool,
    /// How old a node may be to be listed, in seconds; none lists nodes of any age.
    pub recent: Option<u32>,
    /// The term that a node must have to be listed, if any.
    pub term: Option<u32>,
    /// Its title, a line of at most 255 bytes.
    pub title: Text,
    /// The content types that it lists, at most 32; all of them where there is none.
    pub types: Items<Name>,
}

impl Drop for Listing {
    fn drop(self) {
        let Listing {
            age: _,
            path: _,
            promoted: _,
            recent: _,
            term: _,
            title: _,
            types: _,
        } = self;
    }
}

/// What a block shows.
#[derive(Clone, Copy, Debug, PartialEq, Eq)]
pub enum BlockKind {
    /// A text of its own.
    Text,
    /// A menu.
    Menu,
    /// A listing.
    Listing,
    /// A greeting of the viewer.
    Greeting,
    /// The token that guards the viewer's forms.
    Csrf,
    /// The time.
    Clock,
}

/// A part of the page that blocks are placed in.
#[derive(Clone, Copy, Debug, PartialEq, Eq)]
pub enum Region {
    /// Above the content.
    Header,
    /// Beside the content.
    Aside,
    /// Below the content.
    Footer,
}

/// A placed block.
/// <https://www.drupal.org/docs/user_guide/en/block-concept.html>
pub struct Block {
    /// How long a clock may be shown once built, in seconds; none for every other kind.
    pub age: Option<u32>,
    /// Whether `paths` are those where it is hidden.
    pub hide: bool,
    /// What it shows.
    pub kind: BlockKind,
    /// Its heading, a line of at most 255 bytes; empty for none.
    pub label: Text,
    /// The menu or the listing that it shows; none for every other kind.
    pub name: Option<Name>,
    /// At most 32 paths where it is shown: targets, `/` or `<front>`; everywhere where there is none.
    pub paths: Items<Text>,
    /// The part of the page that it stands in.
    pub region: Region,
    /// At most 32 roles that see it; everybody where there is none.
    pub roles: Items<Name>,
    /// The text of a text block; none for every other kind.
    pub text: Option<Text>,
    /// Its weight, from -1,000 to 1,000; the least comes first.
    pub weight: i32,
}

impl Drop for Block {
    fn drop(self) {
        let Block {
            age: _,
            hide: _,
            kind: _,
            label: _,
            name: _,
            paths: _,
            region: _,
            roles: _,
            text: _,
            weight: _,
        } = self;
    }
}

/// A session: who a token is logged in as.
#[derive(Drop)]
pub struct Session {
    /// When it ends, in seconds since 1970.
    pub expires: u64,
    /// The id of the user.
    pub uid: u32,
}

/// A comment on a node.
/// <https://www.drupal.org/docs/user_guide/en/comments-chapter.html>
pub struct Comment {
    /// What it says: a text that is not empty.
    pub body: Text,
    /// When it was made, in seconds since 1970.
    pub created: u64,
    /// The id of the node that it is on.
    pub node: u32,
    /// The id of the comment that it replies to; none where it is on the node itself.
    pub parent: Option<u32>,
    /// Whether it is published.
    pub status: bool,
    /// The id of the user that wrote it; 0 is nobody.
    pub uid: u32,
    /// Its universal id.
    pub uuid: Text,
}

impl Drop for Comment {
    fn drop(self) {
        let Comment {
            body: _,
            created: _,
            node: _,
            parent: _,
            status: _,
            uid: _,
            uuid: _,
        } = self;
    }
}

/// The next id to give to a comment, from 1 to 4,294,967,295; at the last there is none left.
#[derive(Drop)]
pub struct Talk {
    /// The id of the next comment.
    pub comment: u32,
}

/// A row of any kind.
pub enum Row {
    /// The settings of the site.
    Site(Site),
    /// The next ids to give.
    Seq(Seq),
    /// A content type.
    NodeType(NodeType),
    /// A role.
    Role(Role),
    /// A user.
    User(User),
    /// A taxonomy term.
    Term(Term),
    /// A node.
    Node(Node),
    /// A menu.
    Menu(Menu),
    /// A listing of nodes.
    Listing(Listing),
    /// A placed block.
    Block(Block),
    /// A session.
    Session(Session),
    /// A comment.
    Comment(Comment),
    /// The next id to give to a comment.
    Talk(Talk),
}

impl Drop for Row {
    fn drop(self) {
        match self {
            Row::Site(_) => {}
            Row::Seq(_) => {}
            Row::NodeType(_) => {}
            Row::Role(_) => {}
            Row::User(_) => {}
            Row::Term(_) => {}
            Row::Node(_) => {}
            Row::Menu(_) => {}
            Row::Listing(_) => {}
            Row::Block(_) => {}
            Row::Session(_) => {}
            Row::Comment(_) => {}
            Row::Talk(_) => {}
        }
    }
}
