ghost use Rattle.std.specs.Prelude.{◌≡◌, ◌≤◌, length, true, IfOk};
ghost use Rattle.std.specs.List.{list_all};
ghost use Rattle.serde_json.specs.View.{view, items_view};
ghost use Rattle.ilk_plant.specs.Limits.{NetworkWithinLimits, are_names_in_section_valid};
ghost use Rattle.ilk_net_read.specs.Fault.{MatchesUnlessOutOfMemory};
ghost use Rattle.ilk_base.specs.Result.{try_map_numbered};
ghost use Rattle.ilk_net_read.specs.Member.{items_to_list};
ghost use Rattle.ilk_net_read.specs.Network.{network_from_document, network_from_conf_value, section_from_value};
ghost use Rattle.ilk_net_read.specs.Seen.{HasAllowedCounts, document_view};

use crate::FormError;
use crate::document::{Document, document_from_value};
use crate::section::section_from_value;
use ilk_plant::{MAX_SECTIONS, NetDraft, Row, SectionDraft};
use serde_json::Value;
use std::alloc::Global;

fn sections(alloc: Global, values: &[Value]) -> Result<Row<SectionDraft>, FormError>
    requires { length values.now ≤ MAX_SECTIONS }
    ensures exact { MatchesUnlessOutOfMemory result
        (try_map_numbered section_from_value 0 (items_to_list (items_view values.now))) }
    ensures count { IfOk result (λ sections. length sections ≡ length values.now) }
    ensures named { IfOk result (λ sections. list_all are_names_in_section_valid sections ≡ true) }
{
    let mut sections = Row::new(alloc);
    for (i, value) in values.iter().enumerate() {
        let section = section_from_value(alloc, i as u32, value)?;
        sections.push(section)?;
    }
    Ok(sections)
}

/// Returns the network of a document, or the first violated rule of its sections in order (F3, then
/// F5, of each).
pub fn network_from_document(alloc: Global, document: &Document<'_>) -> Result<NetDraft, FormError>
    requires { HasAllowedCounts (document_view document.now) }
    ensures exact { MatchesUnlessOutOfMemory result
        (network_from_document (document_view document.now)) }
    // At least one section, no more than allowed, and all texts are names.
    ensures limits { IfOk result NetworkWithinLimits }
{
    let sections = sections(alloc, document.sections)?;
    Ok(NetDraft { sections })
}

/// Returns the network of the configuration `value`, or the first violated rule. It checks the
/// document (F3, F4, F6), then each section in order (F3, F5).
pub fn read_network(alloc: Global, value: &Value) -> Result<NetDraft, FormError>
    ensures exact { MatchesUnlessOutOfMemory result (network_from_conf_value (view value.now)) }
    // At least one section, no more than allowed, and all texts are names.
    ensures limits { IfOk result NetworkWithinLimits }
{
    let document = document_from_value(value)?;
    network_from_document(alloc, &document)
}
