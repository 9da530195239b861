//! The rows of a site, drawn.
ghost use Rattle.std.specs.Prelude.{◌≡◌, ◌≤◌, ◌<◌, ◌+◌, ◌∷◌, [], OnOk, IfOk, codes};
ghost use Rattle.drill_input.specs.Draws.{after};
ghost use Rattle.drill_input.specs.SiteDrawn.{after_records, and_node, and_nodes, and_seq, and_user, and_users, begun, choices, node_row, numbered, records_drawn, session_row, site_drawn, user_row};

use crate::draws::Draws;
use crate::words::{name_of, numbered};
use content_rows::{
    Cell, FieldValue, Grant, GrantRow, Items, Node, Row, Seq, Session, Text, User, starter,
};
use std::alloc::{AllocError, Global};
use std::marker::Model;

/// The users that are drawn have the ids from 2 to 9.
const USERS: u32 = 8;

/// The nodes that are drawn have the ids from 2 to 200.
const NODES: u32 = 199;

/// The rows so far, each with its cell, and what the next draws come from.
#[derive(Drop)]
pub struct SiteRows {
    /// The rows, in the order in which they are to be set: of a cell that stands twice the later one counts.
    pub entries: Vec<(Cell, Row)>,
    /// What the next draws come from.
    pub draws: Draws,
}

impl Model for SiteRows {
    ghost use Rattle.drill_input.specs.SiteDrawn.{SiteDrawn};

    ghost Value = { SiteDrawn };

    ghost view = { λ r. record { entries = r.entries.items; seed = r.draws } };
}

/// What a node has by draw.
#[derive(Clone, Copy, Debug)]
pub(crate) struct Choices {
    pub body: u32,
    pub status: bool,
    pub promote: bool,
    pub sticky: bool,
    pub uid: u32,
}

/// What the next node has.
fn choose(draws: &mut Draws) -> Choices
    ensures choices { result ≡ choices draws.old }
    ensures draws { draws.new ≡ after 5 draws.old }
    ensures short { result.body < 1000 }
    ensures within { result.uid ≤ 9 }
{
    let body = draws.draw(1000);
    let status = draws.draw(8) != 0;
    let promote = draws.draw(2) == 0;
    let sticky = draws.draw(16) == 0;
    let uid = 2 + draws.draw(8);
    Choices {
        body,
        status,
        promote,
        sticky,
        uid,
    }
}

/// The access records of the next node.
fn draw_records(alloc: Global, draws: &mut Draws) -> Result<Items<GrantRow>, AllocError>
    ensures records { IfOk result (λ records. records ≡ records_drawn draws.old) }
    ensures draws { OnOk result (draws.new ≡ after_records draws.old) }
{
    if draws.draw(4) != 0 {
        return Ok(Items::none(alloc));
    }
    let record = GrantRow {
        delete: false,
        gid: draws.draw(3),
        realm: name_of(b"club"),
        update: false,
        view: true,
    };
    Ok(Items::one(alloc, record)?)
}

/// Two words, each with a number: what a row is called, and its uuid.
fn texts_of(
    alloc: Global,
    name: &[u8],
    uuid: &[u8],
    number: u32,
) -> Result<(Text, Text), AllocError>
    ensures { IfOk result (λ texts. (texts.0 ≡ numbered name.now number) × (texts.1 ≡ numbered uuid.now number)) }
{
    let name = numbered(alloc, name, number)?;
    let uuid = numbered(alloc, uuid, number)?;
    Ok((Text::from_vec(name), Text::from_vec(uuid)))
}

/// The fields of a node: the body of this number.
fn fields_of(alloc: Global, body: u32) -> Result<Items<FieldValue>, AllocError>
    ensures { IfOk result (λ fields. fields ≡ record { name = codes "body"; value = numbered (codes "b") body } ∷ []) }
{
    let body = FieldValue {
        name: name_of(b"body"),
        value: Text::from_vec(numbered(alloc, b"b", body)?),
    };
    Ok(Items::one(alloc, body)?)
}

/// A node that has these.
fn node_row(
    alloc: Global,
    node: u32,
    made: Choices,
    records: Items<GrantRow>,
) -> Result<Row, AllocError>
    requires { node ≤ 200 }
    ensures { IfOk result (λ row. row ≡ node_row node made records) }
{
    let fields = fields_of(alloc, made.body)?;
    let (title, uuid) = texts_of(alloc, b"n", b"n-", node)?;
    Ok(Row::Node(Node {
        changed: u64::from(100 + node),
        created: u64::from(100 + node),
        fields,
        grants: records,
        path: None,
        promote: made.promote,
        refs: Items::none(alloc),
        status: made.status,
        sticky: made.sticky,
        terms: Items::none(alloc),
        title,
        node_type: name_of(b"page"),
        uid: made.uid,
        uuid,
        vid: 1,
    }))
}

/// A user who holds this grant of the realm `club`.
fn user_row(alloc: Global, user: u32, gid: u32) -> Result<Row, AllocError>
    ensures { IfOk result (λ row. row ≡ user_row user gid) }
{
    let grant = Grant {
        realm: name_of(b"club"),
        gid,
    };
    let grants = Items::one(alloc, grant)?;
    let (name, uuid) = texts_of(alloc, b"u", b"u-", user)?;
    Ok(Row::User(User {
        created: 0,
        digest: None,
        grants,
        name,
        roles: Items::none(alloc),
        salt: Text::from_vec(Vec::new(alloc)),
        status: true,
        uuid,
    }))
}

/// A session of a user, which doesn't end while a drill runs.
fn session_row(user: u32) -> Row
    ensures { result ≡ session_row user }
{
    Row::Session(Session {
        expires: 4_000_000_000,
        uid: user,
    })
}

impl SiteRows {
    /// The rows of a new site, and a session `abc` of its first user.
    fn begin(alloc: Global, draws: Draws) -> Result<SiteRows, AllocError>
        ensures { IfOk result (λ rows. rows ≡ begun draws) }
    {
        let mut entries = starter(alloc)?;
        entries.push((Cell::Session(name_of(b"abc")), session_row(1)))?;
        Ok(SiteRows { entries, draws })
    }

    /// One user more, and a session of it.
    #[tactic(auto, using(crate::proofs::Tokens::token_is_name))]
    fn add_user(&mut self, alloc: Global, user: u32) -> Result<(), AllocError>
        requires { user < 10 }
        ensures { OnOk result (self.new ≡ and_user user self.old) }
    {
        let gid = self.draws.draw(3);
        let token = numbered(alloc, b"s", user)?;
        self.entries
            .push((Cell::User(user), user_row(alloc, user, gid)?))?;
        self.entries
            .push((Cell::Session(name_of(&token)), session_row(user)))?;
        Ok(())
    }

    /// Adds the row of one more node.
    fn add_node(&mut self, alloc: Global, node: u32) -> Result<(), AllocError>
        requires { node ≤ 200 }
        ensures { OnOk result (self.new ≡ and_node node self.old) }
    {
        let made = choose(&mut self.draws);
        let records = draw_records(alloc, &mut self.draws)?;
        let row = node_row(alloc, node, made, records)?;
        self.entries.push((Cell::Node(node), row))?;
        Ok(())
    }

    /// The users.
    #[tactic(auto, using(crate::proofs::Folds::no_users, crate::proofs::Folds::next_users))]
    fn add_users(&mut self, alloc: Global) -> Result<(), AllocError>
        ensures { OnOk result (self.new ≡ and_users 8 self.old) }
    {
        'users: for index in 0..USERS {
            self.add_user(alloc, index + 2)?;
        }
        Ok(())
    }

    /// The nodes.
    #[tactic(auto, using(crate::proofs::Folds::no_nodes, crate::proofs::Folds::next_nodes))]
    fn add_nodes(&mut self, alloc: Global) -> Result<(), AllocError>
        ensures { OnOk result (self.new ≡ and_nodes 199 self.old) }
    {
        'nodes: for index in 0..NODES {
            self.add_node(alloc, index + 2)?;
        }
        Ok(())
    }
}

/// The rows of the site that is drawn, and what the requests to it are drawn from. `Err` only where memory is wanting.
pub fn site_rows(alloc: Global, draws: Draws) -> Result<SiteRows, AllocError>
    ensures { IfOk result (λ rows. rows ≡ site_drawn draws) }
{
    let mut rows = SiteRows::begin(alloc, draws)?;
    rows.add_users(alloc)?;
    rows.add_nodes(alloc)?;
    let seq = Seq {
        node: 201,
        term: 1,
        user: 10,
    };
    rows.entries.push((Cell::Seq, Row::Seq(seq)))?;
    Ok(rows)
}
