//! What is told of a refusal: an object of JSON.
ghost use Rattle.std.specs.Prelude.{◌≡◌, IfOk, codes};
ghost use Rattle.serde_json.specs.Data.{string, object, no_members, put};
ghost use Rattle.serde_json.specs.View.{view, members_view};
ghost use Rattle.edit_replies.specs.Bodies.{coded, told, refusal_data, refusal_body};

use access_result::Reason;
use cacheability::Tag;
use content_rows::{Cell, Text};
use json_keys::Rule;
use row_kinds::{Write, put_at};
use serde_json::{Map, Value};
use site_commands::Refusal;
use std::alloc::{AllocError, Global};

/// The members of an object that tells a code.
fn code_members(alloc: Global, code: &str) -> Result<Map<String, Value>, AllocError>
    ensures { IfOk result (λ m. members_view m.entries ≡ told (codes "code") (string code.now)) }
{
    let mut map = Map::new(alloc);
    let text = Value::try_from_str(alloc, code)?;
    serde_json::put(&mut map, alloc, "code", text)?;
    Ok(map)
}

/// A code alone.
fn code_alone(alloc: Global, code: &str) -> Result<Value, AllocError>
    ensures { IfOk result (λ v. view v ≡ coded code.now no_members) }
{
    let map = code_members(alloc, code)?;
    Ok(Value::Object(map))
}

/// A code, and a value at a key.
fn code_with<T: Write>(alloc: Global, code: &str, key: &str, value: &T) -> Result<Value, AllocError>
    ensures { IfOk result (λ v. view v ≡ object (put key.now (T.shown value.now) (told (codes "code") (string code.now)))) }
{
    let mut map = code_members(alloc, code)?;
    put_at(alloc, &mut map, key, value)?;
    Ok(Value::Object(map))
}

/// That something is denied, for this reason.
fn denied(alloc: Global, reason: &Reason) -> Result<Value, AllocError>
    ensures { IfOk result (λ v. view v ≡ refusal_data (Refusal.Denied reason.now)) }
{
    let text = Text::from_vec(reason.text(alloc)?);
    code_with(alloc, "denied", "reason", &text)
}

/// That a key breaks a rule.
fn broken(alloc: Global, field: &Text, rule: &Rule) -> Result<Value, AllocError>
    ensures { IfOk result (λ v. view v ≡ refusal_data (Refusal.Broken field.now rule.now)) }
{
    let mut map = code_members(alloc, "rule")?;
    put_at(alloc, &mut map, "field", field)?;
    let word = Value::try_from_str(alloc, rule.word())?;
    serde_json::put(&mut map, alloc, "rule", word)?;
    Ok(Value::Object(map))
}

/// That the row of this cell has the path.
fn path_taken(alloc: Global, holder: &Cell) -> Result<Value, AllocError>
    ensures { IfOk result (λ v. view v ≡ refusal_data (Refusal.PathTaken holder.now)) }
{
    let text = holder.text(alloc)?;
    code_with(alloc, "path-taken", "holder", &text)
}

/// That the count of this tag cannot be raised.
fn count_full(alloc: Global, tag: &Tag) -> Result<Value, AllocError>
    ensures { IfOk result (λ v. view v ≡ refusal_data (Refusal.CountFull tag.now)) }
{
    let text = Text::from_vec(tag.text(alloc)?);
    code_with(alloc, "count-full", "tag", &text)
}

/// What is told of a refusal.
fn refusal_value(alloc: Global, refusal: &Refusal) -> Result<Value, AllocError>
    ensures { IfOk result (λ v. view v ≡ refusal_data refusal.now) }
{
    match refusal {
        Refusal::Csrf => code_alone(alloc, "csrf"),
        Refusal::NoTarget => code_alone(alloc, "no-target"),
        Refusal::Denied(reason) => denied(alloc, reason),
        Refusal::TokenClash => code_alone(alloc, "token-clash"),
        Refusal::Broken(field, rule) => broken(alloc, field, rule),
        Refusal::UuidTaken(id) => code_with(alloc, "uuid-taken", "holder", id),
        Refusal::Stale(vid) => code_with(alloc, "stale", "vid", vid),
        Refusal::PathTaken(holder) => path_taken(alloc, holder),
        Refusal::CountFull(tag) => count_full(alloc, tag),
        Refusal::LogFull => code_alone(alloc, "log-full"),
    }
}

/// The body of the reply of a refused edit (RFC 8259): an object with a code, and what is told besides.
#[tactic(auto, using(crate::proofs::NoFloats::no_floats), unfolding(crate::specs::Bodies::refusal_body))]
pub(crate) fn refusal_body(alloc: Global, refusal: &Refusal) -> Result<Vec<u8>, AllocError>
    ensures { IfOk result (λ body. body.items ≡ refusal_body refusal.now) }
{
    let value = refusal_value(alloc, refusal)?;
    value.to_vec(alloc)
}
