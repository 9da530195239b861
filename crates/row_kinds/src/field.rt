//! Values that stand in JSON: what is read of every value, and how each is written.
ghost use Rattle.std.specs.Prelude.{◌≡◌, Ok, IfOk, OnOk, IsOk, IsTrue};
ghost use Rattle.std.specs.List.{AllByRecursion};
ghost use Rattle.serde_json.specs.Data.{Members, no_members, boolean, array, object, put};
ghost use Rattle.serde_json.specs.View.{view, items_view, members_view, number_view};
ghost use Rattle.content_rows.specs.LiteralName.{is_name};
ghost use Rattle.json_keys.specs.Checked.{read_checked};
ghost use Rattle.json_keys.specs.Fault.{seen};
ghost use Rattle.row_kinds.specs.Look.{
  value_at,
  text_in,
  name_in,
  name_or_blank,
  flag_in,
  number_in,
  small_in,
  weight_in,
  weight_of,
  low_weight_in,
  option_in,
  list_in,
  items_in,
  whole_data,
  weight_data,
  text_data,
  option_data,
  items_data,
  nothing_said,
  IsSmall,
  IsNameText,
  OrNone,
};

use cacheability::Name;
use content_rows::{Items, Text};
use json_keys::{Checked, Key, first_fault, is_name};
use serde_json::{Map, Number, Value};
use std::alloc::{AllocError, Global};

/// A type that is read of JSON.
pub trait Read: Drop {
    ghost use Rattle.serde_json.specs.Data.{Data};

    /// What is read of a value: of one of another kind something that no table lets through.
    ghost of: { Data → Self };

    /// Reads a value. `Err` only where memory is wanting.
    fn read(alloc: Global, value: &Value) -> Result<Self, AllocError>
        ensures { IfOk result (λ x. x ≡ of (view value.now)) };
}

/// A type that is written in JSON.
pub trait Write: Drop {
    ghost use Rattle.serde_json.specs.Data.{Data};

    /// What is written.
    ghost shown: { Self → Data };

    /// What the type says of its values: a machine name is one, a number of 32 bits is small.
    ghost typed: { Self → Type 0 };

    /// Writes it. `Err` only where memory is wanting.
    fn write(&self, alloc: Global) -> Result<Value, AllocError>
        ensures written { IfOk result (λ v. view v ≡ shown self.now) }
        ensures of_type { IfOk result (λ v. typed self.now) };
}

/// The value at a key.
pub fn read_at<T: Read>(alloc: Global, value: &Value, key: &str) -> Result<T, AllocError>
    ensures { IfOk result (λ x. x ≡ T.of (value_at key.now (view value.now))) }
{
    match value.get(key) {
        Some(found) => T::read(alloc, found),
        None => T::read(alloc, &Value::Null),
    }
}

/// Both of two values. `Err` where memory was wanting for one of them.
pub fn both<A: Drop, B: Drop>(
    first: Result<A, AllocError>,
    second: Result<B, AllocError>,
) -> Result<(A, B), AllocError>
    ensures { IfOk result (λ values. (first ≡ Ok values.0) × (second ≡ Ok values.1)) }
{
    Ok((first?, second?))
}

/// Writes a value at a key.
pub fn put_at<T: Write>(
    alloc: Global,
    map: &mut Map<String, Value>,
    key: &str,
    value: &T,
) -> Result<(), AllocError>
    ensures written { OnOk result (members_view map.new.entries ≡ put key.now (T.shown value.now) (members_view map.old.entries)) }
    ensures of_type { OnOk result (T.typed value.now) }
{
    let written = value.write(alloc)?;
    serde_json::put(map, alloc, key, written)
}

/// An object with no key yet, onto which a row is written.
pub(crate) fn no_keys(alloc: Global) -> Result<Map<String, Value>, AllocError>
    ensures { IfOk result (λ m. members_view m.entries ≡ no_members) }
{
    Ok(Map::new(alloc))
}

/// An object with a value more, at a key. `Err` where memory is wanting, or was wanting before: so
/// who writes a row asks once, at its end.
pub(crate) fn with_key<T: Write>(
    alloc: Global,
    map: Result<Map<String, Value>, AllocError>,
    key: &str,
    value: &T,
) -> Result<Map<String, Value>, AllocError>
    ensures written { (ms : Members) → IfOk map (λ m. members_view m.entries ≡ ms) → IfOk result (λ m. members_view m.entries ≡ put key.now (T.shown value.now) ms) }
    ensures of_type { OnOk result (IsOk map × T.typed value.now) }
{
    let mut map = map?;
    put_at(alloc, &mut map, key, value)?;
    Ok(map)
}

/// The object that was written.
pub(crate) fn object_of(map: Result<Map<String, Value>, AllocError>) -> Result<Value, AllocError>
    ensures written { (ms : Members) → IfOk map (λ m. members_view m.entries ≡ ms) → IfOk result (λ v. view v ≡ object ms) }
    ensures of_type { OnOk result (IsOk map) }
{
    Ok(Value::Object(map?))
}

/// What an object says by a table of keys, or the first rule that it breaks.
pub fn read_checked<T: Read>(
    alloc: Global,
    keys: &[Key],
    value: &Value,
) -> Result<Checked<T>, AllocError>
    ensures { IfOk result (λ c. c ≡ read_checked T.of (seen keys.now) (view value.now)) }
{
    match first_fault(keys, value) {
        Some((key, rule)) => Ok(Checked::Broken(Text::copied(alloc, key.as_bytes())?, rule)),
        None => Ok(Checked::Right(T::read(alloc, value)?)),
    }
}

impl Read for bool {
    ghost of = { flag_in };

    fn read(_alloc: Global, value: &Value) -> Result<Self, AllocError> {
        Ok(match value {
            Value::Bool(flag) => *flag,
            _ => false,
        })
    }
}

impl Write for bool {
    ghost shown = { boolean };

    ghost typed = { nothing_said };

    fn write(&self, _alloc: Global) -> Result<Value, AllocError> {
        Ok(Value::Bool(*self))
    }
}

impl Read for u64 {
    ghost of = { number_in };

    fn read(_alloc: Global, value: &Value) -> Result<Self, AllocError> {
        Ok(number_in(value))
    }
}

impl Write for u64 {
    ghost shown = { whole_data };

    ghost typed = { nothing_said };

    fn write(&self, _alloc: Global) -> Result<Value, AllocError> {
        Ok(Value::from(*self))
    }
}

impl Read for u32 {
    ghost of = { small_in };

    fn read(_alloc: Global, value: &Value) -> Result<Self, AllocError> {
        let number = number_in(value);
        Ok(if number < 4_294_967_296 {
            number as u32
        } else {
            0
        })
    }
}

impl Write for u32 {
    ghost shown = { whole_data };

    ghost typed = { IsSmall };

    fn write(&self, _alloc: Global) -> Result<Value, AllocError> {
        Ok(Value::from(*self))
    }
}

impl Read for i32 {
    ghost of = { weight_in };

    fn read(_alloc: Global, value: &Value) -> Result<Self, AllocError> {
        Ok(match value {
            Value::Number(number) => weight_of(number),
            _ => 0,
        })
    }
}

impl Write for i32 {
    ghost shown = { weight_data };

    ghost typed = { nothing_said };

    fn write(&self, _alloc: Global) -> Result<Value, AllocError> {
        Ok(Value::from(*self))
    }
}

impl Read for Text {
    ghost of = { text_in };

    fn read(alloc: Global, value: &Value) -> Result<Self, AllocError> {
        Text::copied(alloc, text_in(value))
    }
}

impl Write for Text {
    ghost shown = { text_data };

    ghost typed = { nothing_said };

    fn write(&self, alloc: Global) -> Result<Value, AllocError> {
        text_value(alloc, self.as_slice())
    }
}

impl Read for Name {
    ghost of = { name_in };

    fn read(_alloc: Global, value: &Value) -> Result<Self, AllocError> {
        Ok(name_in(text_in(value)))
    }
}

impl Write for Name {
    ghost shown = { text_data };

    ghost typed = { IsNameText };

    fn write(&self, alloc: Global) -> Result<Value, AllocError> {
        text_value(alloc, name_bytes(self))
    }
}

impl<T: Read> Read for Option<T> {
    ghost of = { option_in T.of };

    fn read(alloc: Global, value: &Value) -> Result<Self, AllocError> {
        match value {
            Value::Null => Ok(None),
            _ => Ok(Some(T::read(alloc, value)?)),
        }
    }
}

impl<T: Write> Write for Option<T> {
    ghost shown = { option_data T.shown };

    ghost typed = { OrNone T.typed };

    fn write(&self, alloc: Global) -> Result<Value, AllocError> {
        match self {
            Some(value) => Ok(value.write(alloc)?),
            None => Ok(Value::Null),
        }
    }
}

impl<T: Read> Read for Items<T> {
    ghost of = { λ d. list_in T.of (items_in d) };

    fn read(alloc: Global, value: &Value) -> Result<Self, AllocError> {
        match value {
            Value::Array(values) => Ok(read_all(alloc, values)?),
            _ => Ok(Items::none(alloc)),
        }
    }
}

impl<T: Write> Write for Items<T> {
    ghost shown = { λ xs. array (items_data T.shown xs) };

    ghost typed = { AllByRecursion T.typed };

    fn write(&self, alloc: Global) -> Result<Value, AllocError> {
        Ok(Value::Array(write_all(alloc, self.as_slice())?))
    }
}

/// Reads the members of a list.
fn read_all<T: Read>(alloc: Global, values: &[Value]) -> Result<Items<T>, AllocError>
    ensures { IfOk result (λ xs. xs ≡ list_in T.of (items_view values.now)) }
{
    let mut read = Vec::with_capacity(alloc, values.len())?;
    'values: for value in values {
        read.push(T::read(alloc, value)?)?;
    }
    Ok(Items::from_vec(read))
}

/// Writes the members of a list.
fn write_all<T: Write>(alloc: Global, members: &[T]) -> Result<Vec<Value>, AllocError>
    ensures written { IfOk result (λ vs. items_view vs.items ≡ items_data T.shown members.now) }
    ensures of_type { IfOk result (λ vs. AllByRecursion T.typed members.now) }
{
    let mut written = Vec::with_capacity(alloc, members.len())?;
    'members: for member in members {
        written.push(member.write(alloc)?)?;
    }
    Ok(written)
}

/// The whole number that a value is; 0 where it is none.
fn number_in(value: &Value) -> u64
    ensures { result ≡ number_in (view value.now) }
{
    match value.as_u64() {
        Some(number) => number,
        None => 0,
    }
}

/// The weight that a number is; 0 where it is none.
fn weight_of(number: &Number) -> i32
    ensures { result ≡ weight_of (number_view number.now) }
{
    match number.as_u64() {
        Some(whole) => if whole <= 1000 { whole as i32 } else { 0 },
        None => low_weight_in(number.as_i64()),
    }
}

/// The weight that a number below 0 is; 0 where it is none.
fn low_weight_in(whole: Option<i64>) -> i32
    ensures { result ≡ low_weight_in whole }
{
    match whole {
        Some(whole) => if -1000 <= whole && whole < 0 {
            whole as i32
        } else {
            0
        },
        None => 0,
    }
}

/// The bytes of a text; none where it is no text.
pub(crate) fn text_in(value: &Value) -> &[u8]
    ensures { result.now ≡ text_in (view value.now) }
{
    match value {
        Value::String(text) => text.as_bytes(),
        _ => &[],
    }
}

/// The name that a text is, or `_`.
pub fn name_in(text: &[u8]) -> Name
    ensures { result ≡ name_or_blank text.now }
{
    if is_name(text) {
        name_of(text)
    } else {
        name_of(b"_")
    }
}

/// The name of bytes that are one.
pub fn name_of(text: &[u8]) -> Name
    requires { IsTrue (is_name text.now) }
    ensures { result ≡ text.now }
{
    match Name::new(text) {
        Ok(name) => name,
        Err(_) => unreachable!(),
    }
}

/// The bytes of a name, which are those of one.
pub fn name_bytes(name: &Name) -> &[u8]
    ensures same { result.now ≡ name.now }
    ensures of_name { IsTrue (is_name name.now) }
{
    name.as_bytes()
}

/// A text, or `null` where it is no UTF-8.
fn text_value(alloc: Global, text: &[u8]) -> Result<Value, AllocError>
    ensures { IfOk result (λ v. view v ≡ text_data text.now) }
{
    match str::from_utf8(text) {
        Ok(text) => Value::try_from_str(alloc, text),
        Err(_) => Ok(Value::Null),
    }
}
