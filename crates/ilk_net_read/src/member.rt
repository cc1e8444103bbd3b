ghost use Rattle.std.specs.Prelude.{◌≡◌, option_map, Option};
ghost use Rattle.serde_json.specs.Find.{as_str};
ghost use Rattle.serde_json.specs.View.{view, items_view};
ghost use Rattle.ilk_net_read.specs.Fault.{IsReadIfKindMatches};
ghost use Rattle.ilk_net_read.specs.Member as member;

use crate::ValueReadError;
use ilk_plant::{Row, Text};
use serde_json::Value;
use std::alloc::Global;

/// Returns whether `value` is an object of exactly `count` members.
pub fn has_member_count(value: &Value, count: usize) -> bool
    ensures { result ≡ member.has_member_count count (view value.now) }
{
    match value.as_object() {
        Some(members) => members.len() == count,
        None => false,
    }
}

/// Returns the member `name` of an object, if it is a non-negative whole number. Otherwise returns
/// `None`.
pub fn member_as_u64(value: &Value, name: &str) -> Option<u64>
    ensures { result ≡ member.member_as_u64 name.now (view value.now) }
{
    value.get(name).and_then(Value::as_u64)
}

/// Returns the items of the member `name` of an object, if it is an array. Otherwise returns
/// `None`.
pub fn member_as_array<'v>(value: &'v Value, name: &str) -> Option<&'v [Value]>
    ensures { option_map (λ items. items_view items.now) result
        ≡ member.member_as_array name.now (view value.now) }
{
    let items = value.get(name)?.as_array()?;
    Some(items.as_slice())
}

/// Returns the member `name` of an object, if it is a text. Otherwise returns `None`.
pub fn member_as_str<'v>(value: &'v Value, name: &str) -> Option<&'v str>
    ensures { option_map (λ text. text.now) result ≡
        member.member_as_text name.now (view value.now) }
{
    value.get(name).and_then(Value::as_str)
}

/// Returns a copy of the member `name` of an object. Fails if it isn't a text, or memory runs out.
pub fn member_as_text(alloc: Global, value: &Value, name: &str) -> Result<Text, ValueReadError>
    ensures { IsReadIfKindMatches result (member.member_as_text name.now (view value.now)) }
{
    match member_as_str(value, name) {
        Some(text) => Ok(Text::of(String::from_str(alloc, text)?)),
        None => Err(ValueReadError::WrongKind),
    }
}

fn optional_text(alloc: Global, value: &Value) -> Result<Option<Text>, ValueReadError>
    ensures { IsReadIfKindMatches result (member.as_optional_text (view value.now)) }
{
    match value {
        Value::Null => Ok(None),
        Value::String(text) => Ok(Some(Text::of(String::from_str(alloc, text.as_str())?))),
        _ => Err(ValueReadError::WrongKind),
    }
}

/// Returns a copy of the member `name` of an object, or `None` if it is null. Fails if it is
/// neither a text nor null, or memory runs out.
pub fn member_as_text_or_null(
    alloc: Global,
    value: &Value,
    name: &str,
) -> Result<Option<Text>, ValueReadError>
    ensures { IsReadIfKindMatches result (member.member_as_text_or_null name.now
        (view value.now)) }
{
    match value.get(name) {
        Some(found) => optional_text(alloc, found),
        None => Err(ValueReadError::WrongKind),
    }
}

fn text(alloc: Global, value: &Value) -> Result<Text, ValueReadError>
    ensures { IsReadIfKindMatches result (as_str (view value.now)) }
{
    match value.as_str() {
        Some(text) => Ok(Text::of(String::from_str(alloc, text)?)),
        None => Err(ValueReadError::WrongKind),
    }
}

fn texts(alloc: Global, values: &[Value]) -> Result<Row<Text>, ValueReadError>
    ensures { IsReadIfKindMatches result (member.all_entries_as as_str (items_view values.now)) }
{
    let mut texts = Row::with_capacity(alloc, values.len() as u64)?;
    for value in values {
        let text = text(alloc, value)?;
        texts.push(text)?;
    }
    Ok(texts)
}

/// Returns a copy of the member `name` of an object. Fails if it isn't an array of texts, or memory
/// runs out.
pub fn member_as_texts(
    alloc: Global,
    value: &Value,
    name: &str,
) -> Result<Row<Text>, ValueReadError>
    ensures { IsReadIfKindMatches result (member.member_as_texts name.now (view value.now)) }
{
    match member_as_array(value, name) {
        Some(values) => texts(alloc, values),
        None => Err(ValueReadError::WrongKind),
    }
}
