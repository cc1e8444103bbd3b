ghost use Rattle.std.specs.Prelude.{◌≡◌, [], IfOk};
ghost use Rattle.ilk_plant.specs.Draft.{plant_from_drafts};
ghost use Rattle.ilk_plant.specs.Limits.{WithinLimits};
ghost use Rattle.ilk_plant.specs.NetworkRules.{network_rules_broken};
ghost use Rattle.ilk_plant.specs.TableRules.{table_rules_broken};

use crate::{NetDraft, NumberedNetAndTable, Plant, TableDraft};
use std::alloc::{AllocError, Global};

impl Plant {
    /// Creates the plant of a network and an interlocking table. Both must be within the limits and
    /// violate no rule of the network or table. Fails only if memory runs out.
    pub fn make(alloc: Global, net: &NetDraft, table: &TableDraft) -> Result<Plant, AllocError>
        requires limits { WithinLimits net.now table.now }
        requires network { network_rules_broken net.now ≡ [] }
        requires routes { table_rules_broken net.now table.now ≡ [] }
        ensures { IfOk result (λ plant. plant ≡ plant_from_drafts net.now table.now) }
    {
        let made = NumberedNetAndTable::from_drafts(alloc, net, table)?;
        Plant::from_numbered(alloc, made)
    }
}
