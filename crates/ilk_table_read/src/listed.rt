//! The listed and the protecting points of a route.

ghost use Rattle.std.specs.Prelude.{◌≡◌};
ghost use Rattle.serde_json.specs.View.{view, items_view};
ghost use Rattle.ilk_net_read.specs.Fault.{IsReadIfKindMatches};
ghost use Rattle.ilk_net_read.specs.Member.{all_entries_as};
ghost use Rattle.ilk_table_read.specs.Route as route;

use ilk_net_read::{
    ValueReadError, has_member_count, member_as_array, member_as_str, member_as_text,
};
use ilk_plant::{ListedDraft, Position, Row};
use serde_json::Value;
use std::alloc::Global;

fn position(value: &Value) -> Option<Position>
    ensures { result ≡ route.listed_point_position (view value.now) }
{
    Position::from_word(member_as_str(value, "position")?.as_bytes())
}

fn listed(alloc: Global, value: &Value) -> Result<ListedDraft, ValueReadError>
    ensures { IsReadIfKindMatches result (route.as_listed_point (view value.now)) }
{
    let point = member_as_text(alloc, value, "point")?;
    let Some(at) = position(value) else {
        return Err(ValueReadError::WrongKind);
    };
    if !has_member_count(value, 2) {
        return Err(ValueReadError::WrongKind);
    }
    Ok(ListedDraft { point, at })
}

fn all_listed(alloc: Global, values: &[Value]) -> Result<Row<ListedDraft>, ValueReadError>
    ensures { IsReadIfKindMatches result
        (all_entries_as route.as_listed_point (items_view values.now)) }
{
    let mut points = Row::with_capacity(alloc, values.len() as u64)?;
    for value in values {
        let point = listed(alloc, value)?;
        points.push(point)?;
    }
    Ok(points)
}

/// Returns the member `name`, which must be an array of points with positions.
pub(crate) fn points_at(
    alloc: Global,
    value: &Value,
    name: &str,
) -> Result<Row<ListedDraft>, ValueReadError>
    ensures { IsReadIfKindMatches result (route.member_as_listed_points name.now (view value.now)) }
{
    match member_as_array(value, name) {
        Some(values) => all_listed(alloc, values),
        None => Err(ValueReadError::WrongKind),
    }
}
