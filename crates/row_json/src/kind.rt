//! The kinds of rows, as rows.
ghost use Rattle.content_rows.specs.declared.row.Row.TheVariants as row;

use content_rows::{
    Block, Comment, Listing, Menu, Node, NodeType, Role, Row, Seq, Session, Site, Talk, Term, User,
};
use row_kinds::Read;

/// A kind of row.
pub trait Kind: Read {
    ghost use Rattle.std.specs.Prelude.{◌≡◌};
    ghost use Rattle.content_rows.specs.declared.row.Row.{Row as RowValue};

    /// The row of this kind.
    ghost made: { Self → RowValue };

    /// The row of this kind.
    fn into_row(self) -> Row
        ensures { result ≡ made self };
}

impl Kind for Site {
    ghost made = { row.Site };

    fn into_row(self) -> Row {
        Row::Site(self)
    }
}

impl Kind for Seq {
    ghost made = { row.Seq };

    fn into_row(self) -> Row {
        Row::Seq(self)
    }
}

impl Kind for NodeType {
    ghost made = { row.NodeType };

    fn into_row(self) -> Row {
        Row::NodeType(self)
    }
}

impl Kind for Role {
    ghost made = { row.Role };

    fn into_row(self) -> Row {
        Row::Role(self)
    }
}

impl Kind for User {
    ghost made = { row.User };

    fn into_row(self) -> Row {
        Row::User(self)
    }
}

impl Kind for Term {
    ghost made = { row.Term };

    fn into_row(self) -> Row {
        Row::Term(self)
    }
}

impl Kind for Node {
    ghost made = { row.Node };

    fn into_row(self) -> Row {
        Row::Node(self)
    }
}

impl Kind for Menu {
    ghost made = { row.Menu };

    fn into_row(self) -> Row {
        Row::Menu(self)
    }
}

impl Kind for Listing {
    ghost made = { row.Listing };

    fn into_row(self) -> Row {
        Row::Listing(self)
    }
}

impl Kind for Block {
    ghost made = { row.Block };

    fn into_row(self) -> Row {
        Row::Block(self)
    }
}

impl Kind for Session {
    ghost made = { row.Session };

    fn into_row(self) -> Row {
        Row::Session(self)
    }
}

impl Kind for Comment {
    ghost made = { row.Comment };

    fn into_row(self) -> Row {
        Row::Comment(self)
    }
}

impl Kind for Talk {
    ghost made = { row.Talk };

    fn into_row(self) -> Row {
        Row::Talk(self)
    }
}
