ghost use Rattle.std.specs.Prelude.{◌≡◌, ◌≤◌, ◌+◌, ◌*◌, IfOk, length};
ghost use Rattle.ilk_plant.specs.Draft.{plant_from_drafts};
ghost use Rattle.ilk_gen.specs.StationsText.{stations_text};
ghost use Rattle.ilk_gen.specs.StationRoutes.{stations_table};
ghost use Rattle.ilk_gen.specs.Stations.{stations_net};

use crate::routes::stations_table;
use crate::sections::stations_net;
use crate::{stations_break_no_rule, stations_section_and_route_counts};
use ilk_conf_write::{Version, configuration_json};
use ilk_plant::Plant;
use std::alloc::{AllocError, Global};

/// The greatest number of stations in a generated line.
pub const MAX_STATIONS: u32 = 16;

/// Returns the configuration text of a line of `n` stations, 1 to `MAX_STATIONS`, in version 1. It
/// is JSON without spaces and without a final line feed, with `5 * n + 1` sections and `8 * n`
/// routes. Fails only if memory runs out.
pub fn stations(alloc: Global, n: u32) -> Result<Vec<u8>, AllocError>
    requires some { 1 ≤ n }
    requires few { n ≤ MAX_STATIONS }
    ensures { IfOk result (λ text. text.items ≡ stations_text n) }
{
    let net = stations_net(alloc, n)?;
    let table = stations_table(alloc, n)?;
    stations_break_no_rule(n);
    configuration_json(alloc, Version::First, &net, &table)
}

/// Creates the plant of a line of `n` stations, 1 to `MAX_STATIONS`: that of the text from
/// `stations`. Fails only if memory runs out.
pub fn stations_plant(alloc: Global, n: u32) -> Result<Plant, AllocError>
    requires some { 1 ≤ n }
    requires few { n ≤ MAX_STATIONS }
    ensures plant { IfOk result (λ plant. plant
        ≡ plant_from_drafts (stations_net n) (stations_table n)) }
    ensures sections { IfOk result (λ plant. length plant.sections ≡ 5 * n + 1) }
    ensures routes { IfOk result (λ plant. length plant.routes ≡ 8 * n) }
{
    let net = stations_net(alloc, n)?;
    let table = stations_table(alloc, n)?;
    stations_break_no_rule(n);
    stations_section_and_route_counts(n);
    Plant::make(alloc, &net, &table)
}
