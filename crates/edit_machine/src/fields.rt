//! The values of a node's fields: who may change them, and what becomes of them.
ghost use Rattle.std.specs.Prelude.{◌≡◌, IfOk, OnOk, map, is_none};
ghost use Rattle.std.specs.List.{list_any};
ghost use Rattle.std.specs.Option.{option_copied};
ghost use Rattle.std.specs.Map.{remove_entry};
ghost use Rattle.std.specs.BTreeMap.{is_at, insert_entry};
ghost use Rattle.std.specs.Ordering.{nat_cmp};
ghost use Rattle.std.specs.Cmp.Lexicographic.{slice_cmp};
ghost use Rattle.cacheability.specs.declared.op.Op.TheVariants as op_is;
ghost use Rattle.site_access.specs.Access.{access_to_field, field_of_type};
ghost use Rattle.site_access.specs.Account.{OnRows};
ghost use Rattle.site_commands.specs.Causes.{unless_allowed};
ghost use Rattle.site_commands.specs.Fields.{field_denial, field_denials, key_denials, value_entry, with_value, with_change, changed_values};
ghost use Rattle.edit_machine.specs.First.{first_cause};
ghost use Rattle.edit_machine.specs.Places.{place_in, place_of};

use crate::causes::{key_needs, lacking};
use crate::permission;
use access_result::Reason;
use cacheability::Name;
use content_rows::{Duplicate, FieldRow, FieldValue, Items, NodeType, Text};
use site_access::{Account, field_in};
use site_commands::{FieldChange, NodeKeys, Refusal};
use std::alloc::{AllocError, Global};
use std::cmp::Ordering;

/// What refuses the keys of a node that need a permission, the first of them in the order of their bytes. `Err` only
/// where memory is wanting.
pub fn key_denial(
    alloc: Global,
    account: &Account,
    keys: &NodeKeys,
) -> Result<Option<Refusal>, AllocError>
    ensures { IfOk result (λ cause. OnRows account.now (λ rows. cause ≡ first_cause (key_denials rows account.now.viewer keys.now))) }
{
    let nodes = permission::administer_nodes();
    let aliases = permission::create_aliases();
    if let Some(refusal) = key_needs(alloc, account, keys.created, nodes)? {
        return Ok(Some(refusal));
    }
    if let Some(refusal) = key_needs(alloc, account, keys.grants, nodes)? {
        return Ok(Some(refusal));
    }
    if let Some(refusal) = key_needs(alloc, account, keys.path, aliases)? {
        return Ok(Some(refusal));
    }
    if let Some(refusal) = key_needs(alloc, account, keys.promote, nodes)? {
        return Ok(Some(refusal));
    }
    if let Some(refusal) = key_needs(alloc, account, keys.status, nodes)? {
        return Ok(Some(refusal));
    }
    if let Some(refusal) = key_needs(alloc, account, keys.sticky, nodes)? {
        return Ok(Some(refusal));
    }
    key_needs(alloc, account, keys.uid, nodes)
}

/// What refuses to set these fields of a node that belongs to this user, the first of them. A field that the type
/// hasn't is no matter of access. `Err` only where memory is wanting.
pub fn fields_denial(
    alloc: Global,
    account: &Account,
    owner: u32,
    node_type: Option<&NodeType>,
    names: &[Name],
) -> Result<Option<Refusal>, AllocError>
    ensures { IfOk result (λ cause. OnRows account.now (λ rows. cause ≡ first_cause (field_denials rows account.now.viewer owner (option_copied node_type.entry) names.now))) }
{
    'names: for name in names {
        let field = field_of_type(name, node_type);
        if let Some(refusal) = field_denial(alloc, account, owner, field)? {
            return Ok(Some(refusal));
        }
    }
    Ok(None)
}

/// What refuses to set a field of a node that belongs to this user, if the type has it. `Err` only where memory is
/// wanting.
fn field_denial(
    alloc: Global,
    account: &Account,
    owner: u32,
    field: Option<&FieldRow>,
) -> Result<Option<Refusal>, AllocError>
    ensures { IfOk result (λ cause. OnRows account.now (λ rows. cause ≡ field_denial rows account.now.viewer owner (option_copied field.entry))) }
{
    match field {
        Some(field) => row_denial(alloc, account, owner, field),
        None => Ok(None),
    }
}

/// What refuses to set a field of a node that belongs to this user. `Err` only where memory is wanting.
/// <https://www.drupal.org/docs/8/api/entity-api/access-on-entities>
fn row_denial(
    alloc: Global,
    account: &Account,
    owner: u32,
    field: &FieldRow,
) -> Result<Option<Refusal>, AllocError>
    ensures { IfOk result (λ cause. OnRows account.now (λ rows. cause ≡ unless_allowed (access_to_field rows account.now.viewer op_is.Update owner field.now))) }
{
    let owned = !field.owner || account.owns(owner) || account.may(permission::administer_nodes());
    if let Some(permission) = &field.edit {
        if !account.may(permission.as_slice()) {
            return Ok(Some(lacking(alloc, permission.as_slice())?));
        }
    }
    if owned {
        return Ok(None);
    }
    Ok(Some(Refusal::Denied(Reason::OwnerOnly(field.name))))
}

/// The field of this name of a type, if there is a type and it has one.
fn field_of_type<'a>(name: &Name, node_type: Option<&'a NodeType>) -> Option<&'a FieldRow>
    ensures { option_copied result ≡ field_of_type name.now (option_copied node_type.entry) }
{
    match node_type {
        Some(node_type) => field_in(node_type, name),
        None => None,
    }
}

/// Whether one of these values is of a field that the type hasn't.
pub fn has_unknown_value(node_type: &NodeType, values: &[FieldValue]) -> bool
    ensures { result ≡ list_any (λ name. is_none (field_of_type name (Some node_type.now))) (map (λ value. value.name) values.now) }
{
    'values: for value in values {
        if field_in(node_type, &value.name).is_none() {
            return true;
        }
    }
    false
}

/// Whether one of these changes is of a field that the type hasn't; without a type, none has.
pub fn has_unknown_change(node_type: Option<&NodeType>, changes: &[FieldChange]) -> bool
    ensures { result ≡ list_any (λ name. is_none (field_of_type name (option_copied node_type.entry))) (map (λ change. change.name) changes.now) }
{
    'changes: for change in changes {
        if field_of_type(&change.name, node_type).is_none() {
            return true;
        }
    }
    false
}

/// The values after these changes; the others stay. `Err` only where memory is wanting.
pub fn changed_values(
    alloc: Global,
    values: &Items<FieldValue>,
    changes: &Items<FieldChange>,
) -> Result<Items<FieldValue>, AllocError>
    ensures { IfOk result (λ all. all ≡ changed_values values.now changes.now) }
{
    let mut all = values.duplicate(alloc)?.into_vec();
    'changes: for change in changes.as_slice() {
        make_change(alloc, &mut all, change)?;
    }
    Ok(Items::from_vec(all))
}

/// Makes one change: a field gets a value, or loses it. `Err` only where memory is wanting.
fn make_change(
    alloc: Global,
    values: &mut Vec<FieldValue>,
    change: &FieldChange,
) -> Result<(), AllocError>
    ensures { OnOk result (map value_entry values.new.items ≡ with_change (map value_entry values.old.items) change.now) }
{
    match &change.value {
        Some(value) => set_value(values, change.name, value.duplicate(alloc)?),
        None => {
            remove_value(values, &change.name);
            Ok(())
        }
    }
}

/// Gives a field a value: in the place of its old one, or where its name stands in the order of names. `Err` only where
/// memory is wanting.
fn set_value(values: &mut Vec<FieldValue>, name: Name, value: Text) -> Result<(), AllocError>
    ensures { OnOk result (map value_entry values.new.items ≡ insert_entry (slice_cmp nat_cmp) (map value_entry values.old.items) name value) }
{
    match place_in(values.as_slice(), &name) {
        Ok(place) => values[place].value = value,
        Err(place) => values.insert(place, FieldValue { name, value })?,
    }
    Ok(())
}

/// Takes the value of a field away, if it has one.
fn remove_value(values: &mut Vec<FieldValue>, name: &Name)
    ensures { map value_entry values.new.items ≡ remove_entry (is_at (slice_cmp nat_cmp name.now)) (map value_entry values.old.items) }
{
    if let Some(place) = place_of(values.as_slice(), name) {
        values.remove(place);
    }
}

/// Where a value of the name is, in the order of names; else, as an error, where one would stand.
fn place_in(values: &[FieldValue], name: &Name) -> Result<usize, usize>
    ensures { result ≡ place_in values.now name.now }
{
    'values: for place in 0..values.len() {
        match name.cmp(&values[place].name) {
            Ordering::Less => return Err(place),
            Ordering::Equal => return Ok(place),
            Ordering::Greater => {}
        }
    }
    Err(values.len())
}

/// Where the first value of the name is.
fn place_of(values: &[FieldValue], name: &Name) -> Option<usize>
    ensures { result ≡ place_of values.now name.now }
{
    'values: for place in 0..values.len() {
        if name.cmp(&values[place].name).is_eq() {
            return Some(place);
        }
    }
    None
}
