ghost use Rattle.std.specs.Prelude.{◌≡◌, [], IfOk, OnOk};
ghost use Rattle.serde_json.specs.Data.{object, string, put as with_member};
ghost use Rattle.serde_json.specs.View.{members_view, view};
ghost use Rattle.ilk_conf_write.specs.ConfigurationText as written;

use ilk_net_read::Version;
use ilk_plant::{
    HasWord, KindDraft, ListedDraft, NetDraft, RouteDraft, Row, SectionDraft, TableDraft, Text,
};
use serde_json::{Map, Value, json, put};
use std::alloc::{AllocError, Global};

fn text_value(alloc: Global, text: &Text) -> Result<Value, AllocError>
    ensures { IfOk result (λ value. view value ≡ string text.now) }
{
    Value::try_from_str(alloc, text.as_str())
}

fn text_or_null_value(alloc: Global, text: &Option<Text>) -> Result<Value, AllocError>
    ensures { IfOk result (λ value. view value ≡ written.text_or_null_value text.now) }
{
    match text {
        None => Ok(Value::Null),
        Some(text) => text_value(alloc, text),
    }
}

fn section_value_by_kind(alloc: Global, name: &Text, kind: &KindDraft) -> Result<Value, AllocError>
    ensures { IfOk result (λ value. view value ≡ written.section_value_by_kind name.now kind.now) }
{
    let name = name.as_str();
    match kind {
        KindDraft::Linear {
            down,
            up,
            board_down,
            board_up,
        } => {
            let down = text_or_null_value(alloc, down)?;
            let up = text_or_null_value(alloc, up)?;
            let board_down = text_or_null_value(alloc, board_down)?;
            let board_up = text_or_null_value(alloc, board_up)?;
            json!(in alloc; {
                "name": name, "kind": "linear", "down": down, "up": up,
                "board_down": board_down, "board_up": board_up
            })
        }
        KindDraft::Point {
            stem,
            plus,
            minus,
            faces,
        } => {
            let (stem, plus, minus) = (stem.as_str(), plus.as_str(), minus.as_str());
            let faces = faces.word();
            json!(in alloc; {
                "name": name, "kind": "point", "faces": faces,
                "stem": stem, "plus": plus, "minus": minus
            })
        }
    }
}

fn sections_value(alloc: Global, sections: &[SectionDraft]) -> Result<Value, AllocError>
    ensures { IfOk result
        (λ value. view value ≡ written.array_of_mapped written.section_value sections.now) }
{
    let mut values = Vec::new(alloc);
    for section in sections {
        values.push(section_value_by_kind(alloc, &section.name, &section.kind)?)?;
    }
    Ok(Value::Array(values))
}

fn texts_value(alloc: Global, texts: &Row<Text>) -> Result<Value, AllocError>
    ensures { IfOk result (λ value. view value ≡ written.array_of_mapped string texts.now) }
{
    let mut values = Vec::new(alloc);
    for text in texts.as_slice() {
        values.push(text_value(alloc, text)?)?;
    }
    Ok(Value::Array(values))
}

fn listed_point_value(alloc: Global, listed: &ListedDraft) -> Result<Value, AllocError>
    ensures { IfOk result (λ value. view value ≡ written.listed_point_value listed.now) }
{
    let point = listed.point.as_str();
    let position = listed.at.word();
    json!(in alloc; {"point": point, "position": position})
}

fn points_value(alloc: Global, points: &[ListedDraft]) -> Result<Value, AllocError>
    ensures { IfOk result
        (λ value. view value ≡ written.array_of_mapped written.listed_point_value points.now) }
{
    let mut values = Vec::new(alloc);
    for listed in points {
        values.push(listed_point_value(alloc, listed)?)?;
    }
    Ok(Value::Array(values))
}

fn put_text(
    alloc: Global,
    members: &mut Map<String, Value>,
    name: &str,
    text: &Text,
) -> Result<(), AllocError>
    ensures { OnOk result
        (members_view members.new.entries
        ≡ with_member name.now (string text.now) (members_view members.old.entries)) }
{
    put(members, alloc, name, text_value(alloc, text)?)
}

fn put_optional(
    alloc: Global,
    members: &mut Map<String, Value>,
    name: &str,
    text: &Option<Text>,
) -> Result<(), AllocError>
    ensures { OnOk result
        (members_view members.new.entries
        ≡ with_member name.now (written.text_or_null_value text.now)
        (members_view members.old.entries)) }
{
    put(members, alloc, name, text_or_null_value(alloc, text)?)
}

fn put_texts(
    alloc: Global,
    members: &mut Map<String, Value>,
    name: &str,
    texts: &Row<Text>,
) -> Result<(), AllocError>
    ensures { OnOk result
        (members_view members.new.entries
        ≡ with_member name.now (written.array_of_mapped string texts.now)
        (members_view members.old.entries)) }
{
    put(members, alloc, name, texts_value(alloc, texts)?)
}

fn put_points(
    alloc: Global,
    members: &mut Map<String, Value>,
    name: &str,
    points: &[ListedDraft],
) -> Result<(), AllocError>
    ensures { OnOk result
        (members_view members.new.entries
        ≡ with_member name.now (written.array_of_mapped written.listed_point_value points.now)
        (members_view members.old.entries)) }
{
    put(members, alloc, name, points_value(alloc, points)?)
}

// Adds the members of a route to an empty object; in version 1 without protecting points and
// boards.
fn put_route(
    alloc: Global,
    members: &mut Map<String, Value>,
    version: Version,
    route: &RouteDraft,
) -> Result<(), AllocError>
    requires empty { members.old.entries ≡ [] }
    ensures { OnOk result
        (object (members_view members.new.entries) ≡ written.route_value version route.now) }
{
    put_text(alloc, members, "name", &route.name)?;
    put_text(alloc, members, "source", &route.source)?;
    put_optional(alloc, members, "destination", &route.destination)?;
    put_texts(alloc, members, "path", &route.path)?;
    put_texts(alloc, members, "overlap", &route.overlap)?;
    put_points(alloc, members, "points", route.points.as_slice())?;
    put_texts(alloc, members, "conflicts", &route.conflicts)?;
    match version {
        Version::First => Ok(()),
        Version::Second => {
            let points = route.protecting_points.as_slice();
            let boards = &route.protecting_boards;
            put_points(alloc, members, "protecting_points", points)?;
            put_texts(alloc, members, "protecting_boards", boards)
        }
    }
}

fn route_value(alloc: Global, version: Version, route: &RouteDraft) -> Result<Value, AllocError>
    ensures { IfOk result (λ value. view value ≡ written.route_value version route.now) }
{
    let mut members = Map::new(alloc);
    put_route(alloc, &mut members, version, route)?;
    Ok(Value::Object(members))
}

fn routes_value(alloc: Global, version: Version, routes: &[RouteDraft]) -> Result<Value, AllocError>
    ensures { IfOk result
        (λ value. view value ≡ written.array_of_mapped (written.route_value version) routes.now) }
{
    let mut values = Vec::new(alloc);
    for route in routes {
        values.push(route_value(alloc, version, route)?)?;
    }
    Ok(Value::Array(values))
}

fn version_number(version: Version) -> u64
    ensures { result ≡ written.version_number version }
{
    match version {
        Version::First => 1,
        Version::Second => 2,
    }
}

/// Returns the JSON value of a configuration: an object with its version, the sections of `net` and
/// the routes of `table`. Fails only if memory runs out.
pub(crate) fn configuration_value(
    alloc: Global,
    version: Version,
    net: &NetDraft,
    table: &TableDraft,
) -> Result<Value, AllocError>
    ensures { IfOk result
        (λ value. view value ≡ written.configuration_value version net.now table.now) }
{
    let number = version_number(version);
    let sections = sections_value(alloc, net.sections.as_slice())?;
    let routes = routes_value(alloc, version, table.routes.as_slice())?;
    json!(in alloc; {"version": number, "sections": sections, "routes": routes})
}
