ghost use Rattle.std.specs.Prelude.{◌≡◌, ◌≤◌, length, true, IfOk};
ghost use Rattle.std.specs.List.{list_all};
ghost use Rattle.serde_json.specs.View.{view, items_view};
ghost use Rattle.ilk_plant.specs.Limits.{TableWithinLimits, route_within_limits, are_names_in_route_valid};
ghost use Rattle.ilk_net_read.specs.Fault.{MatchesUnlessOutOfMemory};
ghost use Rattle.ilk_base.specs.Result.{try_map_numbered};
ghost use Rattle.ilk_net_read.specs.Member.{items_to_list};
ghost use Rattle.ilk_net_read.specs.Seen.{HasAllowedCounts, document_view};
ghost use Rattle.ilk_table_read.specs.Table.{route_draft_from_value, table_draft_from_document, table_draft_from_conf_value};

use crate::route::route_draft_from_value;
use ilk_net_read::{Document, FormError, Version, document_from_value};
use ilk_plant::{MAX_ROUTES, RouteDraft, Row, TableDraft};
use serde_json::Value;
use std::alloc::Global;

fn routes(alloc: Global, version: Version, values: &[Value]) -> Result<Row<RouteDraft>, FormError>
    requires { length values.now ≤ MAX_ROUTES }
    ensures exact { MatchesUnlessOutOfMemory result
        (try_map_numbered (route_draft_from_value version) 0
        (items_to_list (items_view values.now))) }
    ensures count { IfOk result (λ routes. length routes ≡ length values.now) }
    ensures limits { IfOk result (λ routes. list_all route_within_limits routes ≡ true) }
    ensures named { IfOk result (λ routes. list_all are_names_in_route_valid routes ≡ true) }
{
    let mut routes = Row::new(alloc);
    for (i, value) in values.iter().enumerate() {
        let route = route_draft_from_value(alloc, version, i as u32, value)?;
        routes.push(route)?;
    }
    Ok(routes)
}

/// Returns the interlocking table of a document, or the first violated rule of its routes in order
/// (F3, then F5, then F6, of each).
pub(crate) fn table_in(alloc: Global, document: &Document<'_>) -> Result<TableDraft, FormError>
    requires { HasAllowedCounts (document_view document.now) }
    ensures exact { MatchesUnlessOutOfMemory result
        (table_draft_from_document (document_view document.now)) }
    // No more routes than allowed, each with lists within their limits, and all texts are names.
    ensures limits { IfOk result TableWithinLimits }
{
    let routes = routes(alloc, document.version, document.routes)?;
    Ok(TableDraft { routes })
}

/// Returns the interlocking table of the configuration `value`, or the first violated rule. It
/// checks the document (F3, F4, F6), then each route in order (F3, F5, F6).
pub fn read_table(alloc: Global, value: &Value) -> Result<TableDraft, FormError>
    ensures exact { MatchesUnlessOutOfMemory result (table_draft_from_conf_value (view value.now)) }
    // No more routes than allowed, each with lists within their limits, and all texts are names.
    ensures limits { IfOk result TableWithinLimits }
{
    let document = document_from_value(value)?;
    table_in(alloc, &document)
}
