//! Theorems about generated tables. Each function is proof only, without run-time effect.
ghost use Rattle.std.specs.Prelude.{ℕ, [], ◌≡◌, ◌↔◌, ◌<◌, ◌≤◌, Contains, IsTrue, List, Some, length, slice_get};
ghost use Rattle.ilk_plant.specs.ColumnRules.{broken_for_column_rule, column_rules_broken};
ghost use Rattle.ilk_plant.specs.Draft.{plant_from_drafts};
ghost use Rattle.ilk_plant.specs.Limits.{NetworkWithinLimits};
ghost use Rattle.ilk_plant.specs.NetworkRules.{network_rules_broken};
ghost use Rattle.ilk_plant.specs.Sound.{AreSoundDrafts};
ghost use Rattle.ilk_plant.specs.declared.broken.Rule.TheVariants.{C7};
ghost use Rattle.ilk_plant.specs.declared.draft.NetDraft.{NetDraft};
ghost use Rattle.ilk_plant.specs.declared.draft.TableDraft.{TableDraft};
ghost use Rattle.ilk_plant.specs.declared.network.Dir.{Dir};
ghost use Rattle.ilk_tablegen.specs.EachWay.{IsUnendedPathFrom, IsWayFromSection, WaysPartWithFirstOverPlusLeg};
ghost use Rattle.ilk_tablegen.specs.NetworkDraft.{network_draft};
ghost use Rattle.ilk_tablegen.specs.Rules.{KeepsRulesButC7, BreaksAtMostC7, no_routes};
ghost use Rattle.ilk_tablegen.specs.Ways.{has_unended_path_from, ways};
ghost use Rattle.ilk_tablegen.specs.Table.{generation_result};
ghost use Rattle.ilk_tablegen.specs.declared.walks.Walks.TheVariants.{Routes};

use ilk_plant::Plant;

/// The interlocking table generated for a network is within the limits and violates no rule of the
/// table. The only column rule that it violates is C7, at the sections at which the network does.
/// If every border has its board, it violates none. Proof only; no run-time effect.
pub fn generated_table_breaks_only_c7(plant: &Plant)
    ensures { (net : NetDraft) (other table : TableDraft) → plant.now ≡ plant_from_drafts net other
        →
        generation_result plant.now ≡ Routes table → BreaksAtMostC7 plant.now net table }
{
    plant.prove_is_plant();
    plant.prove_sound_acyclic_drafts();
}

/// A network that is within the limits and violates no rule gives a plant if its interlocking table
/// is empty. Proof only; no run-time effect.
pub fn network_without_routes_makes_plant()
    ensures { (net : NetDraft) → NetworkWithinLimits net → network_rules_broken net ≡ [] →
        AreSoundDrafts net no_routes }
{}

/// If a network violates no rule, the network draft of its plant, with any table, is the draft from
/// which the plant was created. Proof only; no run-time effect.
pub fn plant_gives_back_network_draft()
    ensures { (net : NetDraft) (table : TableDraft) → network_rules_broken net ≡ []
        → network_draft (plant_from_drafts net table) ≡ net }
{}

/// The network draft of a plant and its generated table are within the limits, and violate no rule
/// of the network or table. No route lists protecting points or boards. The only column rule that
/// they violate is C7, at the sections at which the plant does. If every border has its board, they
/// violate none. Proof only; no run-time effect.
pub fn generated_drafts_break_only_c7(plant: &Plant)
    ensures drafts { (table : TableDraft) → generation_result plant.now ≡ Routes table
        → KeepsRulesButC7 plant.now table }
    ensures no_rule { (table : TableDraft) → generation_result plant.now ≡ Routes table
        → broken_for_column_rule plant.now C7 ≡ []
        → column_rules_broken (plant_from_drafts (network_draft plant.now) table) ≡ [] }
{
    plant.prove_is_plant();
    plant.prove_sound_acyclic_drafts();
}

/// `ways` lists exactly the ways of at most n sections from a section, without duplicates. If two
/// of them part at a point, the earlier one takes the plus leg. `has_unended_path_from` is true
/// exactly if a path of n sections leads on, on which no way ends. Proof only; no run-time effect.
pub fn ways_are_complete_and_distinct(_plant: &Plant)
    ensures each { (d : Dir) (n x : ℕ) (path : List ℕ) →
        Contains (ways _plant.now d n x) path ↔
        ((length path ≤ n) × IsWayFromSection _plant.now d x path) }
    ensures order { (d : Dir) (n x i j : ℕ) (first second : List ℕ) → i < j →
        slice_get (ways _plant.now d n x) i ≡ Some first →
        slice_get (ways _plant.now d n x) j ≡ Some second →
        WaysPartWithFirstOverPlusLeg _plant.now d x first second }
    ensures on { (d : Dir) (n x : ℕ) →
        IsTrue (has_unended_path_from _plant.now d n x) ↔
        ((path : List ℕ) × (length path ≡ n) × IsUnendedPathFrom _plant.now d x path) }
{}

/// A plant without routes can violate no column rule except C7. Proof only; no run-time effect.
pub fn routeless_plant_keeps_all_but_c7(_plant: &Plant)
    requires { _plant.now.routes ≡ [] }
    ensures { column_rules_broken _plant.now ≡ broken_for_column_rule _plant.now C7 }
{}
