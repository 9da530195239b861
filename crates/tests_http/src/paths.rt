//! Methods and paths with the edits that they name, and media types with what they fit.

use cacheability::Name;
use edit_paths::{Edit, EditPaths, Reads, media_fits, reads_of};
use site_commands::ConfigKind;

/// A method, a path, and the edit that they name, a line each: what it does to what, and with its number or its name, `-` for none.
const EDITS: &str = "POST /node create-node
POST /taxonomy/term create-term
POST /user create-user
POST /config/menu/Main set-menu -
POST /config/block/é set-block -
POST /config/role/{name} set-role -
POST /config/site set-site
POST /user/login login
POST /user/logout logout
POST /cache/rebuild rebuild
POST /config/role/main_2 set-role main_2
POST /config/type/main_2 set-type main_2
POST /config/block/main_2 set-block main_2
POST /config/menu/main_2 set-menu main_2
POST /config/listing/main_2 set-listing main_2
PATCH /node/1 change-node 1
PATCH /node/4294967294 change-node 4294967294
PATCH /node/4294967295 change-node -
PATCH /node/0 change-node -
PATCH /node/01 change-node -
PATCH /node/one change-node -
PATCH /taxonomy/term/7 change-term 7
PATCH /taxonomy/term/+7 change-term -
PATCH /user/2 change-user 2
PATCH /user/login change-user -
PATCH /user/logout change-user -
DELETE /node/12 remove-node 12
DELETE /node/-1 remove-node -
DELETE /taxonomy/term/3 remove-term 3
DELETE /taxonomy/term/x remove-term -
DELETE /config/listing/a-b remove-listing -
DELETE /config/role/a remove-role a
DELETE /config/type/a remove-type a
DELETE /config/block/a remove-block a
DELETE /config/menu/a remove-menu a
DELETE /config/listing/a remove-listing a
POST /node/1/comment create-comment 1
POST /node/4294967294/comment create-comment 4294967294
POST /node/01/comment create-comment -
POST /node/comment/comment create-comment -
POST /node/{n}/comment create-comment -
PATCH /comment/7 change-comment 7
PATCH /comment/4294967295 change-comment -
PATCH /comment/one change-comment -
DELETE /comment/7 remove-comment 7
DELETE /comment/+7 remove-comment -
";

/// A method and a path that name no edit, a line each.
const NO_EDIT: &str = "GET /node
PUT /node/1
post /node
 /node
POST 
POST /
POST /node/
POST /node/1
POST /user/2
POST /config/site/
POST /config/role
POST /config/role/
POST /config/role/a/b
POST /config/view/a
PATCH /node
PATCH /node/
PATCH /node/1/2
PATCH node/1
PATCH /config/role/a
PATCH /config/site
DELETE /user/2
DELETE /user/logout
DELETE /config/site
DELETE /cache/rebuild
POST /comment
POST /comment/1
POST /node//comment
POST /node/1/comment/
POST /node/1/comments
POST /node/1/2/comment
POST /node/comment
POST node/1/comment
POST /json/node
POST /json/node/1/comment
PATCH /json/node/1
DELETE /json/node/1
PATCH /comment
PATCH /comment/
PATCH /comment/1/2
PATCH /node/1/comment
DELETE /comment/
DELETE /node/1/comment
";

/// The row of this name that is set.
fn set(kind: ConfigKind, name: &str) -> Option<Edit> {
    Some(Edit::Set(kind, Name::new(name.as_bytes()).ok()))
}

/// The row of this name that is removed.
fn removed(kind: ConfigKind, name: &str) -> Option<Edit> {
    Some(Edit::Remove(kind, Name::new(name.as_bytes()).ok()))
}

/// What is done to a row of a name.
fn edit_of_name(word: &str, name: &str) -> Option<Edit> {
    match word {
        "set-role" => set(ConfigKind::Role, name),
        "set-type" => set(ConfigKind::NodeType, name),
        "set-block" => set(ConfigKind::Block, name),
        "set-menu" => set(ConfigKind::Menu, name),
        "set-listing" => set(ConfigKind::Listing, name),
        "remove-role" => removed(ConfigKind::Role, name),
        "remove-type" => removed(ConfigKind::NodeType, name),
        "remove-block" => removed(ConfigKind::Block, name),
        "remove-menu" => removed(ConfigKind::Menu, name),
        "remove-listing" => removed(ConfigKind::Listing, name),
        _ => None,
    }
}

/// What is done to what has a number, or to what has neither.
fn edit_of(word: &str, of: &str) -> Option<Edit> {
    let number = of.parse().ok();
    match word {
        "create-node" => Some(Edit::CreateNode),
        "create-term" => Some(Edit::CreateTerm),
        "create-user" => Some(Edit::CreateUser),
        "change-node" => Some(Edit::ChangeNode(number)),
        "change-term" => Some(Edit::ChangeTerm(number)),
        "change-user" => Some(Edit::ChangeUser(number)),
        "remove-node" => Some(Edit::RemoveNode(number)),
        "remove-term" => Some(Edit::RemoveTerm(number)),
        "set-site" => Some(Edit::SetSite),
        "login" => Some(Edit::Login),
        "logout" => Some(Edit::Logout),
        "rebuild" => Some(Edit::Rebuild),
        "create-comment" => Some(Edit::CreateComment(number)),
        "change-comment" => Some(Edit::ChangeComment(number)),
        "remove-comment" => Some(Edit::RemoveComment(number)),
        _ => edit_of_name(word, of),
    }
}

/// Whether a method and a path name this edit.
fn names(paths: &EditPaths, method: &str, path: &str, edit: Option<Edit>) -> bool {
    paths.paired(method.as_bytes(), path.as_bytes()) == edit
}

/// Whether a line of the table is so, and there is such an edit.
fn is_so(paths: &EditPaths, line: &str) -> bool {
    let (method, rest) = line.split_once(' ').unwrap_or((line, ""));
    let (path, told) = rest.split_once(' ').unwrap_or((rest, ""));
    let (word, of) = told.split_once(' ').unwrap_or((told, ""));
    let edit = edit_of(word, of);
    edit.is_some() && names(paths, method, path, edit)
}

#[test]
fn methods_and_paths(rt: HostRuntime) {
    let paths = EditPaths::new(rt.alloc()).expect(&rt, "memory");
    for line in EDITS.lines() {
        assert!(rt; is_so(&paths, line));
    }
    for line in NO_EDIT.lines() {
        let (method, path) = line.split_once(' ').expect(&rt, "a path");
        assert!(rt; names(&paths, method, path, None));
    }
    assert!(rt; paths.paired(b"POST", b"/config/block/\xc3").is_none());
    assert!(rt; paths.paired(b"PATCH", b"/user/\xff").is_none());
}

const READ: [(Edit, Reads); 17] = [
    (Edit::CreateNode, Reads::Json),
    (Edit::ChangeNode(None), Reads::Json),
    (Edit::RemoveNode(None), Reads::Nothing),
    (Edit::CreateTerm, Reads::Json),
    (Edit::ChangeTerm(Some(1)), Reads::Json),
    (Edit::RemoveTerm(Some(1)), Reads::Nothing),
    (Edit::CreateUser, Reads::Json),
    (Edit::ChangeUser(Some(1)), Reads::Json),
    (Edit::Set(ConfigKind::Menu, None), Reads::Json),
    (Edit::Remove(ConfigKind::Menu, None), Reads::Nothing),
    (Edit::SetSite, Reads::Json),
    (Edit::Login, Reads::Form),
    (Edit::Logout, Reads::Nothing),
    (Edit::Rebuild, Reads::Nothing),
    (Edit::CreateComment(Some(1)), Reads::Json),
    (Edit::ChangeComment(None), Reads::Json),
    (Edit::RemoveComment(Some(1)), Reads::Nothing),
];

#[test]
fn what_is_read(rt: HostRuntime) {
    for (edit, reads) in &READ {
        assert!(rt; reads_of(edit) == *reads);
    }
}

const MEDIA: [(Reads, Option<&[u8]>, bool); 15] = [
    (Reads::Json, Some(b"application/json"), true),
    (Reads::Json, Some(b"Application/JSON;charset=utf-8"), true),
    (Reads::Json, Some(b"application/json;"), true),
    (Reads::Json, Some(b"application/json ;charset=utf-8"), false),
    (Reads::Json, Some(b"application/json2"), false),
    (Reads::Json, Some(b"text/plain;application/json"), false),
    (
        Reads::Json,
        Some(b"application/x-www-form-urlencoded"),
        false,
    ),
    (Reads::Json, Some(b""), false),
    (Reads::Json, None, false),
    (
        Reads::Form,
        Some(b"application/x-www-form-urlencoded"),
        true,
    ),
    (
        Reads::Form,
        Some(b"APPLICATION/X-WWW-FORM-URLENCODED; charset=UTF-8"),
        true,
    ),
    (Reads::Form, Some(b"application/json"), false),
    (Reads::Form, None, false),
    (Reads::Nothing, None, true),
    (Reads::Nothing, Some(b"text/plain"), true),
];

#[test]
fn media_types(rt: HostRuntime) {
    for (reads, content_type, fits) in &MEDIA {
        assert!(rt; media_fits(*reads, *content_type) == *fits);
    }
}
