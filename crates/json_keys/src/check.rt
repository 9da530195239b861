//! The first rule that an object breaks.
ghost use Rattle.std.specs.Prelude.{◌≡◌, option_map, nat_lt};
ghost use Rattle.serde_json.specs.Data.{string};
ghost use Rattle.serde_json.specs.Events.{items_len};
ghost use Rattle.serde_json.specs.View.{view, items_view, members_view, number_view};
ghost use Rattle.json_keys.specs.Fault.{
  seen,
  named,
  members_in,
  number_fault,
  weight_fault,
  low_weight_fault,
  plain_fault,
  entry_fault,
  items_fault,
  list_fault,
  asked_fault,
  members_fault,
  missing_key,
  object_fault,
  row_fault,
  columns_of,
  text_or,
  pair_fault,
  pairs_fault,
  always,
  shape_fault,
  ask_fault,
  is_wanted,
  first_fault,
};

use crate::form::{is_long, is_written, text_fault};
use crate::rule::Rule;
use crate::shape::{Ask, Columns, Entry, FIELD, Form, GRANT, GRANT_ROW, Key, LINK, Plain, Shape};
use serde_json::{Map, Number, Value};

/// What is asked of the value of a key, or of a member of a list.
trait Asked: Copy {
    ghost use Rattle.std.specs.Prelude.{Bool, Option};
    ghost use Rattle.serde_json.specs.Data.{Data};
    ghost use Rattle.json_keys.specs.declared.rule.Rule.{Rule as RuleValue};

    /// The first rule that a value breaks.
    ghost fault: { Self → Data → Option RuleValue };

    /// Whether the key is to be there.
    ghost wanted: { Self → Bool };

    /// The first rule that a value breaks.
    fn fault_of(&self, value: &Value) -> Option<Rule>
        ensures { result ≡ fault self.now (view value.now) };

    /// Whether the key is to be there.
    fn is_wanted(&self) -> bool
        ensures { result ≡ wanted self.now };
}

impl Asked for Entry {
    ghost fault = { entry_fault };

    ghost wanted = { always };

    fn fault_of(&self, value: &Value) -> Option<Rule> {
        match (self, value) {
            (Entry::NullOr(_), Value::Null) => None,
            (Entry::NullOr(plain), _) => plain_fault(*plain, value),
            (Entry::One(plain), _) => plain_fault(*plain, value),
        }
    }

    fn is_wanted(&self) -> bool {
        true
    }
}

impl Asked for Columns {
    ghost fault = { row_fault };

    ghost wanted = { always };

    fn fault_of(&self, value: &Value) -> Option<Rule> {
        match value {
            Value::Object(_) => columns_fault(*self, value),
            _ => Some(Rule::Kind),
        }
    }

    fn is_wanted(&self) -> bool {
        true
    }
}

impl Asked for Ask {
    ghost fault = { ask_fault };

    ghost wanted = { is_wanted };

    fn fault_of(&self, value: &Value) -> Option<Rule> {
        match self {
            Ask::Must(shape) => shape_fault(*shape, value),
            Ask::May(shape) => shape_fault(*shape, value),
        }
    }

    fn is_wanted(&self) -> bool {
        match self {
            Ask::Must(_) => true,
            Ask::May(_) => false,
        }
    }
}

/// What a table has under a name.
fn named<T: Copy>(table: &[(&'static str, T)], name: &str) -> Option<T>
    ensures { result ≡ named (seen table.now) name.now }
{
    'keys: for (key, asked) in table {
        if *key == name {
            return Some(*asked);
        }
    }
    None
}

/// The first rule that the value of a key breaks.
fn asked_fault<T: Asked>(table: &[(&'static str, T)], name: &str, value: &Value) -> Option<Rule>
    ensures { result ≡ asked_fault T.fault (named (seen table.now) name.now) (view value.now) }
{
    match named(table, name) {
        Some(asked) => asked.fault_of(value),
        None => Some(Rule::Unknown),
    }
}

/// The first rule that a member breaks, with its key.
fn members_fault<'a, T: Asked>(
    table: &[(&'static str, T)],
    members: &'a Map<String, Value>,
) -> Option<(&'a str, Rule)>
    ensures { option_map (λ f. (f.0.now, f.1)) result ≡ members_fault T.fault (seen table.now) (members_view members.now.entries) }
{
    'members: for (name, value) in members.iter() {
        if let Some(rule) = asked_fault(table, name.as_str(), value) {
            return Some((name.as_str(), rule));
        }
    }
    None
}

/// The first rule that a member breaks, with its key; none of what is no object.
fn value_fault<'a, T: Asked>(
    table: &[(&'static str, T)],
    value: &'a Value,
) -> Option<(&'a str, Rule)>
    ensures { option_map (λ f. (f.0.now, f.1)) result ≡ members_fault T.fault (seen table.now) (members_in (view value.now)) }
{
    match value {
        Value::Object(members) => members_fault(table, members),
        _ => None,
    }
}

/// The first key of the table that is to be there and is not.
fn missing_key<T: Asked>(table: &[(&'static str, T)], value: &Value) -> Option<(&'static str, Rule)>
    ensures { option_map (λ f. (f.0.now, f.1)) result ≡ missing_key T.wanted (seen table.now) (view value.now) }
{
    'keys: for (name, asked) in table {
        if asked.is_wanted() && value.get(*name).is_none() {
            return Some((*name, Rule::Missing));
        }
    }
    None
}

/// The first rule that an object breaks, with its key.
fn object_fault<'a, T: Asked>(
    table: &[(&'static str, T)],
    value: &'a Value,
) -> Option<(&'a str, Rule)>
    ensures { option_map (λ f. (f.0.now, f.1)) result ≡ object_fault T.fault T.wanted (seen table.now) (view value.now) }
{
    match value_fault(table, value) {
        Some(fault) => Some(fault),
        None => missing_key(table, value),
    }
}

/// The first rule that a number breaks which is to be whole and between two.
fn number_fault(low: u64, high: u64, number: &Number) -> Option<Rule>
    ensures { result ≡ number_fault low high (number_view number.now) }
{
    match number.as_u64() {
        Some(whole) => {
            if low <= whole && whole <= high {
                None
            } else {
                Some(Rule::Range)
            }
        }
        None => {
            if number.is_f64() {
                Some(Rule::Kind)
            } else {
                Some(Rule::Range)
            }
        }
    }
}

/// The first rule that a weight breaks.
fn weight_fault(number: &Number) -> Option<Rule>
    ensures { result ≡ weight_fault (number_view number.now) }
{
    match number.as_u64() {
        Some(whole) => {
            if whole <= 1000 {
                None
            } else {
                Some(Rule::Range)
            }
        }
        None => low_weight_fault(number.as_i64()),
    }
}

/// The first rule that a weight below 0 breaks; none is no whole number.
fn low_weight_fault(whole: Option<i64>) -> Option<Rule>
    ensures { result ≡ low_weight_fault whole }
{
    match whole {
        Some(whole) => {
            if -1000 <= whole && whole < 0 {
                None
            } else {
                Some(Rule::Range)
            }
        }
        None => Some(Rule::Kind),
    }
}

/// The first rule that a plain value breaks.
fn plain_fault(plain: Plain, value: &Value) -> Option<Rule>
    ensures { result ≡ plain_fault plain (view value.now) }
{
    match (plain, value) {
        (Plain::Flag, Value::Bool(_)) => None,
        (Plain::Whole(low, high), Value::Number(number)) => number_fault(low, high, number),
        (Plain::Weight, Value::Number(number)) => weight_fault(number),
        (Plain::Text(form), Value::String(text)) => text_fault(form, text.as_bytes()),
        _ => Some(Rule::Kind),
    }
}

/// The first rule that an object breaks, by the name of its table.
fn columns_fault(columns: Columns, value: &Value) -> Option<Rule>
    ensures { result ≡ option_map (λ f. f.1) (object_fault entry_fault always (columns_of columns) (view value.now)) }
{
    let fault = match columns {
        Columns::Grant => object_fault(&GRANT, value),
        Columns::GrantRow => object_fault(&GRANT_ROW, value),
        Columns::Field => object_fault(&FIELD, value),
        Columns::Link => object_fault(&LINK, value),
    };
    match fault {
        Some((_, rule)) => Some(rule),
        None => None,
    }
}

/// The first rule that the members of a list break.
fn items_fault<T: Asked>(asked: T, values: &[Value]) -> Option<Rule>
    ensures { result ≡ items_fault (T.fault asked) (items_view values.now) }
{
    'values: for value in values {
        let fault = asked.fault_of(value);
        if fault.is_some() {
            return fault;
        }
    }
    None
}

/// The first rule that a list breaks.
fn list_fault<T: Asked>(most: usize, asked: T, values: &[Value]) -> Option<Rule>
    ensures { result ≡ list_fault most (T.fault asked) (items_view values.now) }
{
    if are_many(most, values) {
        Some(Rule::Many)
    } else {
        items_fault(asked, values)
    }
}

/// Whether a list has more than so many members.
fn are_many(most: usize, values: &[Value]) -> bool
    ensures { result ≡ nat_lt most (items_len (items_view values.now)) }
{
    most < values.len()
}

/// The first rule that a value breaks.
fn shape_fault(shape: Shape, value: &Value) -> Option<Rule>
    ensures { result ≡ shape_fault shape (view value.now) }
{
    match (shape, value) {
        (Shape::Any, _) => None,
        (Shape::Of(entry), _) => entry.fault_of(value),
        (Shape::Each(most, entry), Value::Array(values)) => list_fault(most, entry, values),
        (Shape::Table(most, columns), Value::Array(values)) => list_fault(most, columns, values),
        (Shape::Texts(nulls), Value::Object(members)) => pairs_fault(nulls, members),
        _ => Some(Rule::Kind),
    }
}

/// The first rule that a named text breaks, for which `null` may stand where that is said.
fn pair_fault(nulls: bool, name: &str, value: &Value) -> Option<Rule>
    ensures { result ≡ pair_fault name.now (text_or nulls (view value.now)) }
{
    match (nulls, value) {
        (_, Value::String(text)) => lengths_and_bytes_fault(name.as_bytes(), text.as_bytes()),
        (true, Value::Null) => lengths_and_bytes_fault(name.as_bytes(), &[]),
        _ => Some(Rule::Kind),
    }
}

/// The first rule that a text breaks, or the name that it has.
fn lengths_and_bytes_fault(name: &[u8], text: &[u8]) -> Option<Rule>
    ensures { result ≡ pair_fault name.now (string text.now) }
{
    if !(is_long(Form::Name, name) && is_long(Form::Body, text)) {
        Some(Rule::Length)
    } else if !(is_written(Form::Name, name) && is_written(Form::Body, text)) {
        Some(Rule::Bytes)
    } else {
        None
    }
}

/// The first rule that texts by names break, for which `null` may stand where that is said.
fn pairs_fault(nulls: bool, members: &Map<String, Value>) -> Option<Rule>
    ensures { result ≡ pairs_fault nulls (members_view members.now.entries) }
{
    'members: for (name, value) in members.iter() {
        let fault = pair_fault(nulls, name.as_str(), value);
        if fault.is_some() {
            return fault;
        }
    }
    None
}

/// The first rule that an object breaks, with its key: that of a key which is there, in the order
/// of their bytes, else that of a missing key, in the order of the table. Takes no memory.
pub fn first_fault<'a>(keys: &[Key], value: &'a Value) -> Option<(&'a str, Rule)>
    ensures { option_map (λ f. (f.0.now, f.1)) result ≡ first_fault (seen keys.now) (view value.now) }
{
    object_fault(keys, value)
}
