ghost use Rattle.std.specs.Prelude.{◌≡◌, ◌&&◌, codes, true, IfOk};
ghost use Rattle.std.specs.List.{list_all};
ghost use Rattle.serde_json.specs.View.{view};
ghost use Rattle.ilk_plant.specs.Limits.{route_within_limits, are_names_in_route_valid};
ghost use Rattle.ilk_plant.specs.Name as name;
ghost use Rattle.ilk_net_read.specs.Fault.{MatchesUnlessOutOfMemory, IsReadIfKindMatches};
ghost use Rattle.ilk_net_read.specs.Member as member;
ghost use Rattle.ilk_table_read.specs.Route as spec;
ghost use Rattle.ilk_table_read.specs.Table as table;

use crate::listed::points_at;
use ilk_net_read::{
    Form, FormError, Place, ValueReadError, Version, has_member_count, is_between, is_name,
    is_name_if_given, member_as_text, member_as_text_or_null, member_as_texts, rule_error_at_place,
};
use ilk_plant::{
    ListedDraft, MAX_OVERLAP, MAX_PATH, MAX_PROTECTING_BOARDS, MAX_PROTECTING_POINTS,
    MAX_ROUTE_CONFLICTS, MAX_ROUTE_POINTS, RouteDraft, Row, Text,
};
use serde_json::Value;
use std::alloc::Global;

/// The number of members of a route in version 1.
pub(crate) const MEMBERS_IN_FIRST: usize = 7;

/// The number of members of a route in version 2.
pub(crate) const MEMBERS_IN_SECOND: usize = 9;

fn route_member_count(version: Version) -> usize
    ensures { result ≡ spec.route_member_count version }
{
    match version {
        Version::First => MEMBERS_IN_FIRST,
        Version::Second => MEMBERS_IN_SECOND,
    }
}

fn protecting_points(
    alloc: Global,
    version: Version,
    value: &Value,
) -> Result<Row<ListedDraft>, ValueReadError>
    ensures { IsReadIfKindMatches result
        (spec.list_or_empty_in_version_1 version
        (spec.member_as_listed_points (codes "protecting_points")
        (view value.now))) }
{
    match version {
        Version::First => Ok(Row::new(alloc)),
        Version::Second => points_at(alloc, value, "protecting_points"),
    }
}

fn protecting_boards(
    alloc: Global,
    version: Version,
    value: &Value,
) -> Result<Row<Text>, ValueReadError>
    ensures { IsReadIfKindMatches result
        (spec.list_or_empty_in_version_1 version (member.member_as_texts (codes "protecting_boards")
        (view value.now))) }
{
    match version {
        Version::First => Ok(Row::new(alloc)),
        Version::Second => member_as_texts(alloc, value, "protecting_boards"),
    }
}

fn route(alloc: Global, version: Version, value: &Value) -> Result<RouteDraft, ValueReadError>
    ensures { IsReadIfKindMatches result (spec.as_route version (view value.now)) }
{
    let name = member_as_text(alloc, value, "name")?;
    let source = member_as_text(alloc, value, "source")?;
    let destination = member_as_text_or_null(alloc, value, "destination")?;
    let path = member_as_texts(alloc, value, "path")?;
    let overlap = member_as_texts(alloc, value, "overlap")?;
    let points = points_at(alloc, value, "points")?;
    let conflicts = member_as_texts(alloc, value, "conflicts")?;
    let protecting_points = protecting_points(alloc, version, value)?;
    let protecting_boards = protecting_boards(alloc, version, value)?;
    if !has_member_count(value, route_member_count(version)) {
        return Err(ValueReadError::WrongKind);
    }
    Ok(RouteDraft {
        name,
        source,
        destination,
        path,
        overlap,
        points,
        conflicts,
        protecting_points,
        protecting_boards,
    })
}

fn are_names(texts: &[Text]) -> bool
    ensures { result ≡ list_all name.is_name texts.now }
{
    texts.iter().all(|text| is_name(text))
}

fn points_are_names(points: &[ListedDraft]) -> bool
    ensures { result ≡ list_all (λ listed. name.is_name listed.point) points.now }
{
    points.iter().all(|listed| is_name(&listed.point))
}

fn has_names(route: &RouteDraft) -> bool
    ensures { result ≡ are_names_in_route_valid route.now }
{
    is_name(&route.name)
        && is_name(&route.source)
        && is_name_if_given(&route.destination)
        && are_names(route.path.as_slice())
        && are_names(route.overlap.as_slice())
        && points_are_names(route.points.as_slice())
        && are_names(route.conflicts.as_slice())
        && points_are_names(route.protecting_points.as_slice())
        && are_names(route.protecting_boards.as_slice())
}

fn has_limits(route: &RouteDraft) -> bool
    ensures { result ≡ route_within_limits route.now }
{
    is_between(1, MAX_PATH as usize, route.path.len() as usize)
        && route.overlap.len() <= MAX_OVERLAP
        && route.points.len() <= MAX_ROUTE_POINTS
        && route.conflicts.len() <= MAX_ROUTE_CONFLICTS
        && route.protecting_points.len() <= MAX_PROTECTING_POINTS
        && route.protecting_boards.len() <= MAX_PROTECTING_BOARDS
}

/// Returns route `number` from its value in a document of this version, or its first violated rule.
pub(crate) fn route_draft_from_value(
    alloc: Global,
    version: Version,
    number: u32,
    value: &Value,
) -> Result<RouteDraft, FormError>
    ensures exact { MatchesUnlessOutOfMemory result
        (table.route_draft_from_value version number (view value.now)) }
    ensures limits { IfOk result (λ draft. route_within_limits draft ≡ true) }
    ensures named { IfOk result (λ draft. are_names_in_route_valid draft ≡ true) }
{
    let place = Place::Route(number);
    let draft = match route(alloc, version, value) {
        Ok(draft) => draft,
        Err(error) => return Err(error.into_form_error_at(place)),
    };
    if !has_names(&draft) {
        return Err(rule_error_at_place(Form::F5, place));
    }
    if !has_limits(&draft) {
        return Err(rule_error_at_place(Form::F6, place));
    }
    Ok(draft)
}
