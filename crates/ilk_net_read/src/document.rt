ghost use Rattle.std.specs.Prelude.{◌≡◌, ◌&&◌, option_map, true, IfOk};
ghost use Rattle.serde_json.specs.View.{view};
ghost use Rattle.ilk_plant.specs.Limits as limits;
ghost use Rattle.ilk_net_read.specs.Document as parts;
ghost use Rattle.ilk_net_read.specs.Fault.{ViewMatchesUnlessOutOfMemory};
ghost use Rattle.ilk_net_read.specs.Network as network;
ghost use Rattle.ilk_net_read.specs.Seen.{document_view, document_members_view, HasAllowedCounts};

use crate::fault::rule_error_at_place;
use crate::member::{has_member_count, member_as_array, member_as_u64};
use crate::name::is_between;
use crate::{Form, FormError, Place, Version};
use ilk_plant::{MAX_ROUTES, MAX_SECTIONS};
use serde_json::Value;

#[derive(Drop)]
struct Members<'v> {
    version: u64,
    sections: &'v [Value],
    routes: &'v [Value],
}

/// A configuration's document of a known version, with its sections and routes.
#[derive(Drop)]
pub struct Document<'v> {
    pub version: Version,
    pub sections: &'v [Value],
    pub routes: &'v [Value],
}

fn written(value: &Value) -> Option<Members<'_>>
    ensures { option_map document_members_view result ≡ parts.as_document (view value.now) }
{
    let version = member_as_u64(value, "version")?;
    let sections = member_as_array(value, "sections")?;
    let routes = member_as_array(value, "routes")?;
    if !has_member_count(value, 3) {
        return None;
    }
    Some(Members {
        version,
        sections,
        routes,
    })
}

fn in_version<'v>(members: &Members<'v>) -> Option<Document<'v>>
    ensures { option_map document_view result
        ≡ parts.document_if_known_version (document_members_view members.now) }
{
    let version = Version::from_number(members.version)?;
    Some(Document {
        version,
        sections: members.sections,
        routes: members.routes,
    })
}

fn section_and_route_counts_allowed(sections: usize, routes: usize) -> bool
    ensures { result ≡ limits.section_and_route_counts_allowed sections routes }
{
    is_between(1, MAX_SECTIONS as usize, sections) && routes <= MAX_ROUTES as usize
}

fn has_allowed_section_route_counts(document: &Document<'_>) -> bool
    ensures exact { result ≡ parts.has_allowed_section_route_counts (document_view document.now) }
    ensures limits { result ≡ true → HasAllowedCounts (document_view document.now) }
{
    section_and_route_counts_allowed(document.sections.len(), document.routes.len())
}

/// Reads a configuration's document: its version, and the arrays of its sections and routes.
/// Returns the first violated rule otherwise. It is F3 if `value` isn't a document, F4 if the
/// version is neither 1 nor 2, and F6 if there is no section, or more sections or routes than
/// allowed.
pub fn document_from_value(value: &Value) -> Result<Document<'_>, FormError>
    ensures exact { ViewMatchesUnlessOutOfMemory document_view result
        (network.document_from_value (view value.now)) }
    ensures limits { IfOk result (λ document. HasAllowedCounts (document_view document)) }
{
    let Some(members) = written(value) else {
        return Err(rule_error_at_place(Form::F3, Place::Document));
    };
    let Some(document) = in_version(&members) else {
        return Err(rule_error_at_place(Form::F4, Place::Document));
    };
    if !has_allowed_section_route_counts(&document) {
        return Err(rule_error_at_place(Form::F6, Place::Document));
    }
    Ok(document)
}
