ghost use Rattle.std.specs.Prelude.{◌≡◌, IfOk, IsTrue, Ok};
ghost use Rattle.ilk_plant.specs.Limits.{WithinLimits};
ghost use Rattle.ilk_table_read.specs.Table.{net_and_table_drafts_from_text};
ghost use Rattle.ilk_conf_write.specs.ConfigurationText.{configuration_text, table_fits_version};

use crate::value::configuration_value;
use ilk_net_read::Version;
use ilk_plant::{NetDraft, TableDraft};
use std::alloc::{AllocError, Global};

/// Returns the JSON text of the configuration with network `net` and interlocking table `table`, in
/// `version`, without spaces and without a line end. It is read back as exactly these drafts. Both
/// must be within the limits. In version 1 no route may list protecting points or boards. Fails
/// only if memory runs out.
pub fn configuration_json(
    alloc: Global,
    version: Version,
    net: &NetDraft,
    table: &TableDraft,
) -> Result<Vec<u8>, AllocError>
    requires limits { WithinLimits net.now table.now }
    requires version { IsTrue (table_fits_version version table.now) }
    ensures text { IfOk result (λ text. text.items ≡ configuration_text version net.now table.now) }
    ensures read { IfOk result (λ text. net_and_table_drafts_from_text text.items
        ≡ Ok (net.now, table.now)) }
{
    configuration_value(alloc, version, net, table)?.to_vec(alloc)
}
