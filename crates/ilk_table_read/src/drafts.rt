ghost use Rattle.std.specs.Prelude.{IfOk};
ghost use Rattle.ilk_net_read.specs.Fault.{MatchesUnlessOutOfMemory};
ghost use Rattle.ilk_plant.specs.Limits.{WithinLimits};
ghost use Rattle.ilk_table_read.specs.Table.{net_and_table_drafts_from_text};

use crate::table::table_in;
use ilk_net_read::{FormError, document_from_value, network_from_document, read_value};
use ilk_plant::{NetDraft, TableDraft};
use std::alloc::Global;

/// Returns the network and the interlocking table of the configuration in `bytes`, or the first
/// violated rule of its form. It checks the text (F2), then the document (F3, F4, F6), then each
/// section in order (F3, F5), then each route in order (F3, F5, F6).
pub fn read_net_and_table_drafts(
    alloc: Global,
    bytes: &[u8],
) -> Result<(NetDraft, TableDraft), FormError>
    ensures exact { MatchesUnlessOutOfMemory result (net_and_table_drafts_from_text bytes.now) }
    ensures limits { IfOk result (λ drafts. WithinLimits drafts.0 drafts.1) }
{
    let value = read_value(alloc, bytes)?;
    let document = document_from_value(&value)?;
    let net = network_from_document(alloc, &document)?;
    let table = table_in(alloc, &document)?;
    Ok((net, table))
}
