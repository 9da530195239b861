//! Edits of nodes.
ghost use Rattle.std.specs.Prelude.{ℕ, ◌≡◌, ◌≢◌, ◌==◌, ◌∷◌, IfOk, Ok, Some, None, [], codes, unwrap_or, is_none};
ghost use Rattle.std.specs.List.{list_any};
ghost use Rattle.std.specs.Option.{option_copied};
ghost use Rattle.indexed_rows.specs.Rows.{seq_of, node_of, term_of};
ghost use Rattle.site_access.specs.Account.{IsAccountOf, OnRows};
ghost use Rattle.json_keys.specs.declared.rule.Rule.TheVariants as rule;
ghost use Rattle.site_commands.specs.Causes.{told, of_target, breaks};
ghost use Rattle.site_commands.specs.Nodes.{
  absent_refs,
  absent_terms,
  absent_uid,
  stale,
  path_taken,
  id_in,
  new_node,
  create_denials,
  create_refusals,
  create_right,
  create_of_type,
  create_node,
  patched_node,
  change_denials,
  change_refusals,
  change_right,
  change_there,
  change_node,
  remove_node,
};
ghost use Rattle.valid_edits.specs.Fits.{is_absent_user};
ghost use Rattle.edit_machine.specs.First.{first_cause};

use crate::causes::{
    accepted, broken, broken_body, creation, creation_denial, is_last, node_denial, setting,
};
use crate::comments::node_removal;
use crate::fields::{
    changed_values, fields_denial, has_unknown_change, has_unknown_value, key_denial,
};
use cacheability::{Name, Op};
use content_rows::{Cell, Duplicate, Items, Node, NodeType, Row, Seq, Text};
use content_state::{State, Unique, Viewer};
use json_keys::{Checked, Rule};
use site_access::Account;
use site_commands::{
    Done, NewNode, NodeChange, NodeCreation, NodeKeys, NodePatch, Refusal, Verdict,
};
use std::alloc::{AllocError, Global};
use valid_edits::{holder, path_holder};

/// To make a node: its type is there, the viewer may make one and set each key and field that is sent, the body breaks
/// no rule, and what it names is there. `Err` only where memory is wanting.
pub fn create_node(
    alloc: Global,
    state: &State,
    account: &Account,
    asked: &NodeCreation,
    now: u64,
    pass: u32,
) -> Result<Verdict, AllocError>
    requires { IsAccountOf state.now.rows account.now.viewer account.now }
    ensures { IfOk result (λ verdict. told verdict ≡ create_node state.now account.now.viewer asked.now now pass) }
{
    let Some(name) = &asked.node_type else {
        return Ok(Verdict::Refused(Refusal::NoTarget));
    };
    match state.node_type(*name) {
        (Some(node_type), _) => create_of_type(
            alloc, state, account, name, node_type, asked, now, pass,
        ),
        (None, _) => Ok(Verdict::Refused(Refusal::NoTarget)),
    }
}

/// To make a node of a type that is there. `Err` only where memory is wanting.
fn create_of_type(
    alloc: Global,
    state: &State,
    account: &Account,
    name: &Name,
    node_type: &NodeType,
    asked: &NodeCreation,
    now: u64,
    pass: u32,
) -> Result<Verdict, AllocError>
    requires { IsAccountOf state.now.rows account.now.viewer account.now }
    ensures { IfOk result (λ verdict. told verdict ≡ create_of_type state.now account.now.viewer name.now asked.now.keys asked.now.body now pass node_type.now) }
{
    if let Some(refusal) = create_denial(alloc, account, name, node_type, &asked.keys)? {
        return Ok(Verdict::Refused(refusal));
    }
    match &asked.body {
        Checked::Broken(field, rule) => broken_body(alloc, field, *rule),
        Checked::Right(new) => create_right(
            alloc,
            state,
            &account.viewer,
            name,
            node_type,
            new,
            now,
            pass,
        ),
    }
}

/// What refuses a viewer that makes a node of this type with these keys. `Err` only where memory is wanting.
fn create_denial(
    alloc: Global,
    account: &Account,
    name: &Name,
    node_type: &NodeType,
    keys: &NodeKeys,
) -> Result<Option<Refusal>, AllocError>
    ensures { IfOk result (λ cause. OnRows account.now (λ rows. cause ≡ first_cause (create_denials rows account.now.viewer name.now node_type.now keys.now))) }
{
    if let Some(refusal) = creation_denial(alloc, account, name)? {
        return Ok(Some(refusal));
    }
    if let Some(refusal) = key_denial(alloc, account, keys)? {
        return Ok(Some(refusal));
    }
    let names = keys.fields.as_slice();
    fields_denial(alloc, account, account.viewer.uid, Some(node_type), names)
}

/// To make a node that the viewer may make. `Err` only where memory is wanting.
fn create_right(
    alloc: Global,
    state: &State,
    viewer: &Viewer,
    name: &Name,
    node_type: &NodeType,
    new: &NewNode,
    now: u64,
    pass: u32,
) -> Result<Verdict, AllocError>
    ensures { IfOk result (λ verdict. told verdict ≡ of_target (seq_of state.now.rows) (create_right state.now viewer.now name.now node_type.now now pass new.now)) }
{
    let Some(seq) = state.seq() else {
        return Ok(Verdict::Refused(Refusal::NoTarget));
    };
    if let Some(refusal) = create_refusal(alloc, state, node_type, new, seq)? {
        return Ok(Verdict::Refused(refusal));
    }
    let next = Seq {
        node: seq.node + 1,
        term: seq.term,
        user: seq.user,
    };
    let node = new_node(alloc, new, name, viewer, now)?;
    let commit = creation(alloc, pass, next, Cell::Node(seq.node), Row::Node(node))?;
    accepted(alloc, state, commit, Done::NodeCreated(seq.node))
}

/// What refuses a node of this type, to be made with this id, beside what the site holds; where nothing does, there is
/// an id left. `Err` only where memory is wanting.
fn create_refusal(
    alloc: Global,
    state: &State,
    node_type: &NodeType,
    new: &NewNode,
    seq: &Seq,
) -> Result<Option<Refusal>, AllocError>
    ensures cause { IfOk result (λ cause. cause ≡ first_cause (create_refusals state.now.rows node_type.now new.now seq.now)) }
    ensures left { IfOk result (λ cause. cause ≡ None → seq.now.node ≢ 4_294_967_295) }
{
    if has_unknown_value(node_type, new.fields.as_slice()) {
        return Ok(Some(broken(alloc, b"fields", Rule::Unknown)?));
    }
    if has_absent_node(state, new.refs.as_slice()) {
        return Ok(Some(broken(alloc, b"refs", Rule::Absent)?));
    }
    if has_absent_term(state, new.terms.as_slice()) {
        return Ok(Some(broken(alloc, b"terms", Rule::Absent)?));
    }
    if let Some(refusal) = absent_uid(alloc, state, new.uid)? {
        return Ok(Some(refusal));
    }
    if is_last(seq.node) {
        return Ok(Some(broken(alloc, b"seq", Rule::Full)?));
    }
    let cell = Cell::Node(seq.node);
    if let Some(other) = holder(state, &cell, Unique::NodeUuid, &new.uuid) {
        return Ok(Some(Refusal::UuidTaken(id_in(other))));
    }
    Ok(path_taken(state, &cell, &new.path))
}

/// The node of a type that a body asks for, in version 1. `Err` only where memory is wanting.
fn new_node(
    alloc: Global,
    new: &NewNode,
    name: &Name,
    viewer: &Viewer,
    now: u64,
) -> Result<Node, AllocError>
    ensures { IfOk result (λ node. node ≡ new_node new.now name.now viewer.now now) }
{
    let lists = both(
        both(new.fields.duplicate(alloc), new.grants.duplicate(alloc)),
        both(new.refs.duplicate(alloc), new.terms.duplicate(alloc)),
    );
    let texts = both(new.title.duplicate(alloc), new.uuid.duplicate(alloc));
    let (((fields, grants), (refs, terms)), ((title, uuid), path)) = both(
        lists,
        both(texts, new.path.duplicate(alloc)),
    )?;
    Ok(Node {
        changed: now,
        created: new.created.unwrap_or(now),
        fields,
        grants,
        promote: new.promote.unwrap_or(true),
        refs,
        status: new.status.unwrap_or(true),
        sticky: new.sticky,
        terms,
        title,
        node_type: *name,
        uid: new.uid.unwrap_or(viewer.uid),
        uuid,
        path,
        vid: 1,
    })
}

/// To change a node: it is there, the viewer may update it and set each key and field that is sent, the body breaks no
/// rule, and what it names is there. `Err` only where memory is wanting.
pub fn change_node(
    alloc: Global,
    state: &State,
    account: &Account,
    asked: &NodeChange,
    now: u64,
    pass: u32,
) -> Result<Verdict, AllocError>
    requires { IsAccountOf state.now.rows account.now.viewer account.now }
    ensures { IfOk result (λ verdict. told verdict ≡ change_node state.now account.now.viewer asked.now now pass) }
{
    let Some(nid) = asked.nid else {
        return Ok(Verdict::Refused(Refusal::NoTarget));
    };
    match state.node(nid) {
        (Some(node), _) => change_there(alloc, state, account, asked, now, pass, nid, node),
        (None, _) => Ok(Verdict::Refused(Refusal::NoTarget)),
    }
}

/// To change a node that is there. `Err` only where memory is wanting.
fn change_there(
    alloc: Global,
    state: &State,
    account: &Account,
    asked: &NodeChange,
    now: u64,
    pass: u32,
    nid: u32,
    node: &Node,
) -> Result<Verdict, AllocError>
    requires account { IsAccountOf state.now.rows account.now.viewer account.now }
    requires there { node_of state.now.rows nid ≡ Some node.now }
    ensures { IfOk result (λ verdict. told verdict ≡ change_there state.now account.now.viewer asked.now.keys asked.now.body now pass nid node.now) }
{
    if let Some(refusal) = change_denial(alloc, state, account, nid, node, &asked.keys)? {
        return Ok(Verdict::Refused(refusal));
    }
    match &asked.body {
        Checked::Broken(field, rule) => broken_body(alloc, field, *rule),
        Checked::Right(patch) => change_right(alloc, state, nid, node, patch, now, pass),
    }
}

/// What refuses a viewer that changes these keys of a node that is there. `Err` only where memory is wanting.
fn change_denial(
    alloc: Global,
    state: &State,
    account: &Account,
    nid: u32,
    node: &Node,
    keys: &NodeKeys,
) -> Result<Option<Refusal>, AllocError>
    requires account { IsAccountOf state.now.rows account.now.viewer account.now }
    requires there { node_of state.now.rows nid ≡ Some node.now }
    ensures { IfOk result (λ cause. cause ≡ first_cause (change_denials state.now.rows account.now.viewer nid node.now keys.now)) }
{
    if let Some(refusal) = node_denial(alloc, state, account, Op::Update, nid)? {
        return Ok(Some(refusal));
    }
    if let Some(refusal) = key_denial(alloc, account, keys)? {
        return Ok(Some(refusal));
    }
    let (node_type, _) = state.node_type(node.node_type);
    fields_denial(alloc, account, node.uid, node_type, keys.fields.as_slice())
}

/// To change a node that the viewer may change. `Err` only where memory is wanting.
fn change_right(
    alloc: Global,
    state: &State,
    nid: u32,
    node: &Node,
    patch: &NodePatch,
    now: u64,
    pass: u32,
) -> Result<Verdict, AllocError>
    ensures { IfOk result (λ verdict. told verdict ≡ change_right state.now nid node.now now pass patch.now) }
{
    if let Some(refusal) = change_refusal(alloc, state, nid, node, patch)? {
        return Ok(Verdict::Refused(refusal));
    }
    let changed = patched_node(alloc, node, patch, now)?;
    let vid = changed.vid;
    let commit = setting(alloc, pass, Cell::Node(nid), Row::Node(changed))?;
    accepted(alloc, state, commit, Done::NodeChanged(nid, vid))
}

/// What refuses a change of a node, beside what the site holds; where nothing does, there is a version left. `Err` only
/// where memory is wanting.
fn change_refusal(
    alloc: Global,
    state: &State,
    nid: u32,
    node: &Node,
    patch: &NodePatch,
) -> Result<Option<Refusal>, AllocError>
    ensures cause { (now : ℕ) → IfOk result (λ cause. cause ≡ first_cause (change_refusals state.now.rows nid patch.now now node.now)) }
    ensures left { IfOk result (λ cause. cause ≡ None → node.now.vid ≢ 4_294_967_295) }
{
    let (node_type, _) = state.node_type(node.node_type);
    if has_unknown_change(node_type, patch.fields.as_slice()) {
        return Ok(Some(broken(alloc, b"fields", Rule::Unknown)?));
    }
    named_refusal(alloc, state, nid, node, patch)
}

/// What refuses a change that names a node, a term or a user: it is absent; and where nothing does, what refuses the new version.
/// `Err` only where memory is wanting.
fn named_refusal(
    alloc: Global,
    state: &State,
    nid: u32,
    node: &Node,
    patch: &NodePatch,
) -> Result<Option<Refusal>, AllocError>
    ensures cause { IfOk result (λ cause. cause ≡ first_cause (absent_refs state.now.rows (unwrap_or patch.now.refs []) ∷ absent_terms state.now.rows (unwrap_or patch.now.terms []) ∷ absent_uid state.now.rows patch.now.uid ∷ breaks (codes "vid") rule.Full (node.now.vid == 4_294_967_295) ∷ stale patch.now.vid node.now.vid ∷ path_taken state.now.rows (Cell.Node nid) (unwrap_or patch.now.path node.now.path) ∷ [])) }
    ensures left { IfOk result (λ cause. cause ≡ None → node.now.vid ≢ 4_294_967_295) }
{
    if sends_absent_node(state, &patch.refs) {
        return Ok(Some(broken(alloc, b"refs", Rule::Absent)?));
    }
    if sends_absent_term(state, &patch.terms) {
        return Ok(Some(broken(alloc, b"terms", Rule::Absent)?));
    }
    if let Some(refusal) = absent_uid(alloc, state, patch.uid)? {
        return Ok(Some(refusal));
    }
    version_refusal(alloc, state, nid, node, patch)
}

/// What refuses a new version of a node: none is left, the change was made of another one, or its path is taken. `Err` only where
/// memory is wanting.
fn version_refusal(
    alloc: Global,
    state: &State,
    nid: u32,
    node: &Node,
    patch: &NodePatch,
) -> Result<Option<Refusal>, AllocError>
    ensures cause { IfOk result (λ cause. cause ≡ first_cause (breaks (codes "vid") rule.Full (node.now.vid == 4_294_967_295) ∷ stale patch.now.vid node.now.vid ∷ path_taken state.now.rows (Cell.Node nid) (unwrap_or patch.now.path node.now.path) ∷ [])) }
    ensures left { IfOk result (λ cause. cause ≡ None → node.now.vid ≢ 4_294_967_295) }
{
    if node.vid == u32::MAX {
        return Ok(Some(broken(alloc, b"vid", Rule::Full)?));
    }
    if patch.vid != node.vid {
        return Ok(Some(Refusal::Stale(node.vid)));
    }
    Ok(path_taken(state, &Cell::Node(nid), sent_or(&patch.path, &node.path)))
}

/// The node as a body changes it, in the next version. `Err` only where memory is wanting.
fn patched_node(alloc: Global, node: &Node, patch: &NodePatch, now: u64) -> Result<Node, AllocError>
    requires { node.now.vid ≢ 4_294_967_295 }
    ensures { IfOk result (λ changed. changed ≡ patched_node node.now patch.now now) }
{
    let lists = both(
        both(
            changed_values(alloc, &node.fields, &patch.fields),
            sent_copy(alloc, &patch.grants, &node.grants),
        ),
        both(
            sent_copy(alloc, &patch.refs, &node.refs),
            sent_copy(alloc, &patch.terms, &node.terms),
        ),
    );
    let texts = both(
        sent_copy(alloc, &patch.title, &node.title),
        node.uuid.duplicate(alloc),
    );
    let path = sent_copy(alloc, &patch.path, &node.path);
    let (((fields, grants), (refs, terms)), ((title, uuid), path)) = both(
        lists,
        both(texts, path),
    )?;
    Ok(Node {
        changed: now,
        created: patch.created.unwrap_or(node.created),
        fields,
        grants,
        promote: patch.promote.unwrap_or(node.promote),
        refs,
        status: patch.status.unwrap_or(node.status),
        sticky: patch.sticky.unwrap_or(node.sticky),
        terms,
        title,
        node_type: node.node_type,
        uid: patch.uid.unwrap_or(node.uid),
        uuid,
        path,
        vid: node.vid + 1,
    })
}

/// To remove a node: it is there, and the viewer may delete it. `Err` only where memory is wanting.
pub fn remove_node(
    alloc: Global,
    state: &State,
    account: &Account,
    asked: Option<u32>,
    pass: u32,
) -> Result<Verdict, AllocError>
    requires { IsAccountOf state.now.rows account.now.viewer account.now }
    ensures { IfOk result (λ verdict. told verdict ≡ remove_node state.now account.now.viewer asked pass) }
{
    let Some(nid) = asked else {
        return Ok(Verdict::Refused(Refusal::NoTarget));
    };
    let (node, _) = state.node(nid);
    if node.is_none() {
        return Ok(Verdict::Refused(Refusal::NoTarget));
    }
    if let Some(refusal) = node_denial(alloc, state, account, Op::Delete, nid)? {
        return Ok(Verdict::Refused(refusal));
    }
    let commit = node_removal(alloc, state, pass, nid)?;
    accepted(alloc, state, commit, Done::Saved)
}

/// Whether one of these nodes is not there.
fn has_absent_node(state: &State, nids: &[u32]) -> bool
    ensures { result ≡ list_any (λ nid. is_none (node_of state.now.rows nid)) nids.now }
{
    nids.iter().any(|nid| is_absent_node(state, *nid))
}

/// Whether a node is not there.
fn is_absent_node(state: &State, nid: u32) -> bool
    ensures { result ≡ is_none (node_of state.now.rows nid) }
{
    state.node(nid).0.is_none()
}

/// Whether one of the nodes that are sent is not there.
fn sends_absent_node(state: &State, sent: &Option<Items<u32>>) -> bool
    ensures { result ≡ list_any (λ nid. is_none (node_of state.now.rows nid)) (unwrap_or sent.now []) }
{
    match sent {
        Some(nids) => has_absent_node(state, nids.as_slice()),
        None => false,
    }
}

/// Whether one of these terms is not there.
fn has_absent_term(state: &State, tids: &[u32]) -> bool
    ensures { result ≡ list_any (λ tid. is_none (term_of state.now.rows tid)) tids.now }
{
    tids.iter().any(|tid| is_absent_term(state, *tid))
}

/// Whether one of the terms that are sent is not there.
fn sends_absent_term(state: &State, sent: &Option<Items<u32>>) -> bool
    ensures { result ≡ list_any (λ tid. is_none (term_of state.now.rows tid)) (unwrap_or sent.now []) }
{
    match sent {
        Some(tids) => has_absent_term(state, tids.as_slice()),
        None => false,
    }
}

/// Whether a term is not there.
pub fn is_absent_term(state: &State, tid: u32) -> bool
    ensures { result ≡ is_none (term_of state.now.rows tid) }
{
    state.term(tid).0.is_none()
}

/// What refuses a path that another row has.
pub fn path_taken(state: &State, cell: &Cell, path: &Option<Text>) -> Option<Refusal>
    ensures { result ≡ path_taken state.now.rows cell.now path.now }
{
    match path_holder(state, cell, path) {
        Some(other) => Some(Refusal::PathTaken(*other)),
        None => None,
    }
}

/// What refuses a user that is named and absent. `Err` only where memory is wanting.
fn absent_uid(alloc: Global, state: &State, uid: Option<u32>) -> Result<Option<Refusal>, AllocError>
    ensures { IfOk result (λ cause. cause ≡ absent_uid state.now.rows uid) }
{
    match uid {
        Some(uid) if is_absent_user(state, uid) => {
            Ok(Some(broken(alloc, b"uid", Rule::Absent)?))
        }
        _ => Ok(None),
    }
}

/// Whether a user is not there; 0 is nobody.
fn is_absent_user(state: &State, uid: u32) -> bool
    ensures { result ≡ is_absent_user state.now.rows uid }
{
    uid != 0 && state.user(uid).0.is_none()
}

/// The id of the node, term, user or comment of a cell.
pub fn id_in(cell: &Cell) -> u32
    ensures { result ≡ id_in cell.now }
{
    match cell {
        Cell::Node(id) | Cell::Term(id) | Cell::User(id) | Cell::Comment(id) => *id,
        _ => 0,
    }
}

/// What is sent, else what is kept.
pub fn sent_or<'a, T>(sent: &'a Option<T>, kept: &'a T) -> &'a T
    ensures { result.now ≡ unwrap_or sent.now kept.now }
{
    match sent {
        Some(sent) => sent,
        None => kept,
    }
}

/// A copy of what is sent, else of what is kept. `Err` only where memory is wanting.
pub fn sent_copy<T: Duplicate>(alloc: Global, sent: &Option<T>, kept: &T) -> Result<T, AllocError>
    ensures { IfOk result (λ copy. copy ≡ unwrap_or sent.now kept.now) }
{
    sent_or(sent, kept).duplicate(alloc)
}

/// Both of two values. `Err` where memory was wanting for one of them.
pub fn both<A: Drop, B: Drop>(
    first: Result<A, AllocError>,
    second: Result<B, AllocError>,
) -> Result<(A, B), AllocError>
    ensures { IfOk result (λ values. (first ≡ Ok values.0) × (second ≡ Ok values.1)) }
{
    Ok((first?, second?))
}
