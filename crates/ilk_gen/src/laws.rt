//! Theorems about generated configurations.

ghost use Rattle.std.specs.Prelude.{◌≡◌, ◌≤◌, ◌+◌, ◌*◌, Ok, [], length};
ghost use Rattle.ilk_plant.specs.ColumnRules.{column_rules_broken};
ghost use Rattle.ilk_plant.specs.Draft.{plant_from_drafts};
ghost use Rattle.ilk_plant.specs.Limits.{WithinLimits};
ghost use Rattle.ilk_plant.specs.NetworkRules.{network_rules_broken};
ghost use Rattle.ilk_plant.specs.TableRules.{table_rules_broken};
ghost use Rattle.ilk_table_read.specs.Table.{net_and_table_drafts_from_text};
ghost use Rattle.ilk_gen.specs.StationsText.{stations_text};
ghost use Rattle.ilk_gen.specs.StationRoutes.{stations_table};
ghost use Rattle.ilk_gen.specs.Stations.{stations_net};
ghost use Rattle.ilk_gen.specs.declared.making.TheConstants.{MAX_STATIONS};

/// Proves that the reader reads the configuration text of `n` stations, 1 to `MAX_STATIONS`, as
/// exactly their network and table drafts. No run-time effect.
pub fn stations_text_reads_as_drafts(n: u32)
    requires some { 1 ≤ n }
    requires few { n ≤ MAX_STATIONS }
    ensures { net_and_table_drafts_from_text (stations_text n)
        ≡ Ok (stations_net n, stations_table n) }
{}

/// Proves that the drafts of `n` stations, 1 to `MAX_STATIONS`, are within the limits, and violate
/// no rule of the network, table or columns. No run-time effect.
pub fn stations_break_no_rule(n: u32)
    requires some { 1 ≤ n }
    requires few { n ≤ MAX_STATIONS }
    ensures limits { WithinLimits (stations_net n) (stations_table n) }
    ensures network { network_rules_broken (stations_net n) ≡ [] }
    ensures table { table_rules_broken (stations_net n) (stations_table n) ≡ [] }
    ensures columns { column_rules_broken (plant_from_drafts (stations_net n) (stations_table n))
        ≡ [] }
{}

/// A line of `n` stations, 1 to `MAX_STATIONS`, has `5 * n + 1` sections and `8 * n` routes. Proof
/// only; no run-time effect.
pub fn stations_section_and_route_counts(n: u32)
    requires some { 1 ≤ n }
    requires few { n ≤ MAX_STATIONS }
    ensures sections { length (stations_net n).sections ≡ 5 * n + 1 }
    ensures routes { length (stations_table n).routes ≡ 8 * n }
{}
